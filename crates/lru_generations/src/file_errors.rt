//! Why a file was not written or not read.
ghost use Rattle.std.specs.Prelude.{◌≡◌};

use lru_folder::fault::FolderFault;
use lru_folder::folder_call::FolderCall;
use std::alloc::AllocError;
use std::error::Error;
use std::fmt;
use std::fmt::Display;

/// A call of a folder that failed, and why.
#[derive(Clone, Copy, Debug, PartialEq, Eq)]
pub struct CallFault {
    /// The call.
    pub call: FolderCall,
    /// Why it failed.
    pub source: FolderFault,
}

impl Display for CallFault {
    ghost use Rattle.std.specs.Prelude.{Some};
    ghost use Rattle.lru_folder.specs.TextsFault.{fault_text};

    ghost output = { λ fault. Some (fault_text fault.source) };

    fn fmt<W: fmt::Write>(&self, f: &mut fmt::Formatter<W>) -> fmt::Result {
        self.source.fmt(f)
    }
}

impl Error for CallFault {}

/// Why a file was not read to its end.
#[derive(Clone, Copy, Debug, PartialEq, Eq)]
pub enum ReadError {
    /// A call of the folder failed.
    Folder(CallFault),
    /// No memory was found for the bytes.
    Memory,
}

impl From<AllocError> for ReadError {
    ghost use Rattle.lru_generations.specs.declared.file_errors.ReadError.TheVariants.{Memory};

    ghost from_gives = { λ _ error. error ≡ Memory };

    fn from(_: AllocError) -> Self {
        ReadError::Memory
    }
}
