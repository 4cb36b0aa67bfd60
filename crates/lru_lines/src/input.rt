//! What the program reads.
ghost use Rattle.std.specs.Prelude.{◌≡◌, ◌++◌, ⊤, IfErr, IfSome, OnOk};

use std::io::{ErrorKind, Read, Stdin};

/// Why an input was not read.
#[derive(Clone, Copy, Debug, PartialEq, Eq)]
pub enum InputError {
    /// There was no memory for it.
    Memory,
    /// A read of it failed.
    Failed,
}

/// A reader of which contracts know whether a read may have failed.
pub trait Input: Read {
    // whether a read of it may have failed
    ghost has_failed: { Self → Type 0 };

    /// Reads all that is left, and puts it behind what is there.
    fn read_all(&mut self, input: &mut Vec<u8>) -> Result<(), InputError>
        ensures bytes { OnOk result (IfSome (Self.remaining self.old) (λ bytes. input.new.items ≡ input.old.items ++ bytes)) }
        ensures failed { IfErr result (λ error. error ≡ InputError.Failed → has_failed self.new) };
}

/// Reads all that a reader has left, whatever its failures mean.
pub fn read_to_end<R: Read>(reader: &mut R, input: &mut Vec<u8>) -> Result<(), InputError>
    ensures { OnOk result (IfSome (R.remaining reader.old) (λ bytes. input.new.items ≡ input.old.items ++ bytes)) }
{
    match reader.read_to_end(input) {
        Ok(_) => Ok(()),
        Err(error) => {
            if error.kind() == ErrorKind::OutOfMemory {
                Err(InputError::Memory)
            } else {
                Err(InputError::Failed)
            }
        }
    }
}

// Of the system's input nothing is known, so it may have failed.
impl Input for Stdin {
    ghost has_failed = { λ _. ⊤ };

    fn read_all(&mut self, input: &mut Vec<u8>) -> Result<(), InputError> {
        read_to_end(self, input)
    }
}

// Bytes in memory never fail.
impl Input for &[u8] {
    ghost has_failed = { λ _. ⊥ };

    fn read_all(&mut self, input: &mut Vec<u8>) -> Result<(), InputError> {
        if input.extend_from_slice(*self).is_err() {
            return Err(InputError::Memory);
        }
        *self = &[];
        Ok(())
    }
}
