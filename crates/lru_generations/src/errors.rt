//! Why a checkpoint was not saved or not loaded.
ghost use Rattle.std.specs.Prelude.{◌≡◌, ◌↔◌, IsTrue};
ghost use Rattle.lru_generations.specs.Loads.{IsFault};
ghost use Rattle.lru_generations.specs.declared.errors.CheckpointError.TheVariants.{Memory};

use crate::file_errors::CallFault;
use lru_frames::errors::Part;
use std::alloc::AllocError;
use std::error::Error;
use std::fmt;
use std::fmt::Display;

/// A file of a checkpoint.
#[derive(Clone, Copy, Debug, PartialEq, Eq)]
pub enum CheckpointFile {
    /// The manifest, or the file that it is first written to.
    Manifest,
    /// The frame of this shard.
    Shard(u64),
    /// No file, but the names in the folder: that they are listed or synced, or that the folder is claimed.
    Names,
}

impl Display for CheckpointFile {
    ghost use Rattle.std.specs.Prelude.{Some};
    ghost use Rattle.lru_generations.specs.Texts.{file_text};

    ghost output = { λ file. Some (file_text file) };

    fn fmt<W: fmt::Write>(&self, f: &mut fmt::Formatter<W>) -> fmt::Result {
        match self {
            CheckpointFile::Manifest => f.write_str("manifest"),
            CheckpointFile::Shard(shard) => write!(f, "shard {shard}"),
            CheckpointFile::Names => f.write_str("folder"),
        }
    }
}

/// Why a checkpoint was not saved or not loaded.
#[derive(Clone, Copy, Debug, PartialEq, Eq)]
pub enum CheckpointError {
    /// No memory was found for names or bytes.
    Memory,
    /// A call of the folder failed.
    Folder {
        /// The file of the call.
        file: CheckpointFile,
        /// The call, and why it failed.
        fault: CallFault,
    },
    /// The file is not there.
    Missing {
        /// Which one.
        file: CheckpointFile,
    },
    /// The file is damaged.
    Damaged {
        /// Which one.
        file: CheckpointFile,
        /// Where the damage was found.
        part: Part,
    },
    /// The file may be whole, but is another part, of another checkpoint or of another save.
    Other {
        /// Which one.
        file: CheckpointFile,
    },
    /// No number is left above those of the files in the folder.
    LastGeneration,
    /// Another save is at work in the folder.
    InUse,
}

impl CheckpointError {
    /// Whether memory or the device failed, so that no file is blamed. Of a load, the other errors tell of files that are
    /// not there, damaged or of another checkpoint: a second try finds the same.
    pub fn is_fault(&self) -> bool
        ensures { IsTrue result ↔ IsFault self.now }
    {
        match self {
            CheckpointError::Memory => true,
            CheckpointError::Folder { .. } => true,
            CheckpointError::Missing { .. } => false,
            CheckpointError::Damaged { .. } => false,
            CheckpointError::Other { .. } => false,
            CheckpointError::LastGeneration => false,
            CheckpointError::InUse => false,
        }
    }
}

impl Display for CheckpointError {
    ghost use Rattle.std.specs.Prelude.{Some};
    ghost use Rattle.lru_generations.specs.Texts.{error_text};

    ghost output = { λ error. Some (error_text error) };

    fn fmt<W: fmt::Write>(&self, f: &mut fmt::Formatter<W>) -> fmt::Result {
        match self {
            CheckpointError::Memory => f.write_str("out of memory"),
            CheckpointError::Folder { file, fault } => write!(f, "{file}: {fault}"),
            CheckpointError::Missing { file } => write!(f, "{file}: not there"),
            CheckpointError::Damaged { file, part } => write!(f, "{file}: damaged {part}"),
            CheckpointError::Other { file } => write!(f, "{file}: of another checkpoint"),
            CheckpointError::LastGeneration => f.write_str("no generation is left"),
            CheckpointError::InUse => f.write_str("another save is at work in the folder"),
        }
    }
}

impl Error for CheckpointError {}

impl From<AllocError> for CheckpointError {
    ghost from_gives = { λ _ error. error ≡ Memory };

    fn from(_: AllocError) -> Self {
        CheckpointError::Memory
    }
}
