//! How a call of a folder fails.
ghost use Rattle.std.specs.Prelude.{◌≡◌};
ghost use Rattle.lru_folder.specs.declared.fault.FolderFault.TheVariants.{Memory};

use std::alloc::{AllocError, AllocFailed};
use std::error::Error;
use std::fmt;
use std::fmt::Display;

/// Why a folder did not do what it was asked to do.
#[derive(Clone, Copy, Debug, PartialEq, Eq)]
pub enum FolderFault {
    /// The path or the folder is not there.
    NotFound,
    /// No memory was found for the call.
    Memory,
    /// The device failed.
    Io,
}

impl Display for FolderFault {
    ghost use Rattle.std.specs.Prelude.{Some};
    ghost use Rattle.lru_folder.specs.TextsFault.{fault_text};

    ghost output = { λ fault. Some (fault_text fault) };

    fn fmt<W: fmt::Write>(&self, f: &mut fmt::Formatter<W>) -> fmt::Result {
        match self {
            FolderFault::NotFound => f.write_str("not found"),
            FolderFault::Memory => f.write_str("out of memory"),
            FolderFault::Io => f.write_str("input or output failed"),
        }
    }
}

impl Error for FolderFault {}

impl From<AllocError> for FolderFault {
    ghost from_gives = { λ _ fault. fault ≡ Memory };

    fn from(_: AllocError) -> Self {
        FolderFault::Memory
    }
}

impl<T: Drop> From<AllocFailed<T>> for FolderFault {
    ghost from_gives = { λ _ fault. fault ≡ Memory };

    fn from(_: AllocFailed<T>) -> Self {
        FolderFault::Memory
    }
}
