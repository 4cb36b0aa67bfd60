//! Open files that tell others that they are in use.
use std::fs::{File, TryLockError};

/// A file that one open of it can have for itself.
pub trait Claim {
    /// Has the file for this open alone, until it is closed; false where another open has it. On a system that can't tell,
    /// no other has it.
    fn claim(&self) -> bool;
}

impl Claim for File {
    fn claim(&self) -> bool {
        !matches!(self.try_lock(), Err(TryLockError::WouldBlock))
    }
}
