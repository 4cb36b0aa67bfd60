//! What can go wrong with a shard's file, with a shard, and with a save as a whole.
use crate::fault::FolderFault;
use std::error::Error;
use std::fmt;
use std::fmt::Display;

/// A call of a folder that failed, with its path and its cause.
#[derive(Debug, Drop)]
pub enum ShardFileError {
    /// A temp file was not created.
    Create {
        path: String,
        source: FolderFault,
    },
    /// The bytes did not all reach a temp file.
    Write {
        path: String,
        source: FolderFault,
    },
    /// A temp file was not flushed.
    Flush {
        path: String,
        source: FolderFault,
    },
    /// A temp file was not synced, so a loss of power could still take its bytes.
    Sync {
        path: String,
        source: FolderFault,
    },
    /// A shard's file was not opened, though nothing says that it is not there.
    Open {
        path: String,
        source: FolderFault,
    },
    /// A shard's file was not read to its end.
    Read {
        path: String,
        source: FolderFault,
    },
    /// A folder was not listed.
    ReadDir {
        path: String,
        source: FolderFault,
    },
    /// A folder has a name that is not UTF-8.
    ReadDirEntry {
        path: String,
        source: FolderFault,
    },
    /// A temp file was not removed.
    Remove {
        path: String,
        source: FolderFault,
    },
    /// A temp file did not become the shard's file.
    Rename {
        from: String,
        to: String,
        source: FolderFault,
    },
}

impl Display for ShardFileError {
    ghost use Rattle.std.specs.Prelude.{Some};
    ghost use Rattle.lru_folder.specs.Texts.{file_error_text};

    ghost output = { λ error. Some (file_error_text error) };

    fn fmt<W: fmt::Write>(&self, f: &mut fmt::Formatter<W>) -> fmt::Result {
        match self {
            ShardFileError::Create { path, source } => {
                write!(f, "failed to create {path}: {source}")
            }
            ShardFileError::Write { path, source } => {
                write!(f, "failed to write to {path}: {source}")
            }
            ShardFileError::Flush { path, source } => {
                write!(f, "failed to flush temp file {path}: {source}")
            }
            ShardFileError::Sync { path, source } => {
                write!(f, "failed to sync {path}: {source}")
            }
            ShardFileError::Open { path, source } => {
                write!(f, "failed to open {path}: {source}")
            }
            ShardFileError::Read { path, source } => {
                write!(f, "failed to read from {path}: {source}")
            }
            ShardFileError::ReadDir { path, source } => {
                write!(f, "failed to read directory {path}: {source}")
            }
            ShardFileError::ReadDirEntry { path, source } => {
                write!(f, "failed to read directory entry in {path}: {source}")
            }
            ShardFileError::Remove { path, source } => {
                write!(f, "failed to remove temp file {path}: {source}")
            }
            ShardFileError::Rename { from, to, source } => {
                write!(f, "failed to rename file from {from} to {to}: {source}")
            }
        }
    }
}

impl Error for ShardFileError {}

/// Why one shard was not saved.
#[derive(Debug, Drop)]
pub enum ShardSaveFailure<E> {
    /// The shard's bytes were not made.
    Serialize {
        shard: usize,
        source: E,
    },
    /// The folder failed.
    Io {
        shard: usize,
        source: ShardFileError,
    },
    /// No memory was found for the shard's names.
    Memory {
        shard: usize,
    },
}

impl<E: Display> Display for ShardSaveFailure<E> {
    ghost use Rattle.lru_folder.specs.Texts.{save_failure_text};

    ghost output = { save_failure_text E.output };

    fn fmt<W: fmt::Write>(&self, f: &mut fmt::Formatter<W>) -> fmt::Result {
        match self {
            ShardSaveFailure::Serialize { shard, source } => {
                write!(f, "failed to serialize shard {shard}: {source}")
            }
            ShardSaveFailure::Io { shard, source } => {
                write!(f, "failed to save shard {shard}: {source}")
            }
            ShardSaveFailure::Memory { shard } => {
                write!(f, "failed to save shard {shard}: out of memory")
            }
        }
    }
}

/// Why one shard was not loaded, though its file may be there.
#[derive(Debug, Drop)]
pub enum ShardLoadFailure<E> {
    /// The folder failed.
    Io {
        shard: usize,
        source: ShardFileError,
    },
    /// No memory was found for the shard's name or its bytes.
    Memory {
        shard: usize,
    },
    /// The bytes were read and refused.
    Deserialize {
        shard: usize,
        source: E,
    },
}

impl<E: Display> Display for ShardLoadFailure<E> {
    ghost use Rattle.lru_folder.specs.Texts.{load_failure_text};

    ghost output = { load_failure_text E.output };

    fn fmt<W: fmt::Write>(&self, f: &mut fmt::Formatter<W>) -> fmt::Result {
        match self {
            ShardLoadFailure::Io { shard, source } => {
                write!(f, "failed to load shard {shard}: {source}")
            }
            ShardLoadFailure::Memory { shard } => {
                write!(f, "failed to load shard {shard}: out of memory")
            }
            ShardLoadFailure::Deserialize { shard, source } => {
                write!(f, "failed to deserialize shard {shard}: {source}")
            }
        }
    }
}

/// Why a save did not begin. No file was written.
#[derive(Debug, Drop)]
pub enum ShardSaveSetupError {
    /// The folder was not made.
    CreateDir { path: String, source: FolderFault },
    /// No memory was found for what a save may have to report.
    Memory,
}

impl Display for ShardSaveSetupError {
    ghost use Rattle.std.specs.Prelude.{Some};
    ghost use Rattle.lru_folder.specs.Texts.{setup_error_text};

    ghost output = { λ error. Some (setup_error_text error) };

    fn fmt<W: fmt::Write>(&self, f: &mut fmt::Formatter<W>) -> fmt::Result {
        match self {
            ShardSaveSetupError::CreateDir { path, source } => {
                write!(f, "failed to create {path}: {source}")
            }
            ShardSaveSetupError::Memory => write!(f, "out of memory"),
        }
    }
}

impl Error for ShardSaveSetupError {}

/// Why a save as a whole did not succeed.
#[derive(Debug, Drop)]
pub enum ShardSaveError<E> {
    /// It did not begin.
    Setup(ShardSaveSetupError),
    /// No shard was saved, each for its own reason.
    AllShardsFailed {
        shards: usize,
        failures: Vec<ShardSaveFailure<E>>,
    },
}

impl<E: Display> Display for ShardSaveError<E> {
    ghost use Rattle.std.specs.Prelude.{Some};
    ghost use Rattle.lru_folder.specs.Texts.{save_error_text};

    ghost output = { λ error. Some (save_error_text error) };

    fn fmt<W: fmt::Write>(&self, f: &mut fmt::Formatter<W>) -> fmt::Result {
        match self {
            ShardSaveError::Setup(source) => write!(f, "{source}"),
            ShardSaveError::AllShardsFailed { shards, .. } => {
                write!(
                    f,
                    "All {shards} shards failed to save; see prior warnings for per-shard causes."
                )
            }
        }
    }
}

impl<E: Error + Send + Sync + 'static> Error for ShardSaveError<E> {}
