//! The shards of a core as files of a folder: the bytes of its rows, saved and loaded again, and the temp files that a save
//! has left removed.
//!
//! A stop or a loss of power at any moment leaves each shard's file old or whole new, and reports name each failure. A core that
//! loads all that was saved has the rows that were saved, where their data tell their keys; `crash_law` says what a stop leaves
//! at any moment. It stands on any folder (`lru_folder`), and on cores (`pingora_lru`).
#![tactic(auto)]

mod cleanup;
mod law;
pub mod loading;
mod save_shard;
pub mod save_shards;
pub mod shard_saver;
pub mod snapshot;

pub use law::crash_law;
