//! Saving the shards of an LRU to files, and loading them again.
//!
//! [`save_shards`] and [`ShardSaver`] write each shard into a file of its own: first to a temporary file, which is synced
//! and then takes the place of the shard's file, so that a stop in between leaves the old shard or the new one, and a loss of
//! power the one that a loss at the save's start could have left, or the new one. [`load_shards`] reads them again. All go
//! through a [`Folder`]: [`HostFolder`] is the host's file system, and [`MemoryFolder`] keeps its files in memory.

/// Why a shard was not saved or loaded: which file's call failed, and at which shard.
pub use lru_folder::errors::{
    ShardFileError, ShardLoadFailure, ShardSaveError, ShardSaveFailure, ShardSaveSetupError,
};
/// Why a folder refused a call.
pub use lru_folder::fault::FolderFault;
/// The calls through which files are saved, loaded and removed.
pub use lru_folder::folder::Folder;
/// The calls of a folder, by name.
pub use lru_folder::folder_call::FolderCall;
/// The host's file system.
pub use lru_host_folder::host_folder::HostFolder;
/// One entry of a folder's list.
pub use lru_folder::listed::Listed;
/// Loads each shard from its file.
pub use lru_shard_files::loading::load_shards;
/// Files and folders in memory, whose calls can be told to fail.
pub use lru_memory_folder::memory_folder::MemoryFolder;
/// What a save, a load or a cleanup did.
pub use lru_folder::reports::{ShardLoadReport, ShardSaveReport, TempFileCleanupReport};
/// Saves each shard into its file.
pub use lru_shard_files::save_shards::save_shards;
/// A save of shards that is made one shard at a time.
pub use lru_shard_files::shard_saver::ShardSaver;
