//! Data as bytes, and bytes as data again.
ghost use Rattle.std.specs.Prelude.{◌≡◌, ◌<◌, ◌^◌, ◌++◌, ℕ, List, length, OnOk, IfOk, Err};
ghost use Rattle.lru_frames.specs.declared.stored.StoredError.TheVariants.{Damaged, Memory};

mod holders;
mod numbers;
mod signed;
mod values;
mod wide;

use std::alloc::{AllocError, AllocFailed, Global};
use std::error::Error;
use std::fmt;
use std::fmt::Display;

/// Why no value was read.
#[derive(Clone, Copy, Debug, PartialEq, Eq)]
pub enum StoredError {
    /// No value of the type begins so.
    Damaged,
    /// No memory was found for the value.
    Memory,
}

impl Display for StoredError {
    ghost use Rattle.std.specs.Prelude.{Some};
    ghost use Rattle.lru_frames.specs.StoredErrors.{stored_error_text};

    ghost output = { λ error. Some (stored_error_text error) };

    fn fmt<W: fmt::Write>(&self, f: &mut fmt::Formatter<W>) -> fmt::Result {
        match self {
            StoredError::Damaged => f.write_str("damaged"),
            StoredError::Memory => f.write_str("out of memory"),
        }
    }
}

impl Error for StoredError {}

impl From<AllocError> for StoredError {
    ghost from_gives = { λ _ error. error ≡ Memory };

    fn from(_: AllocError) -> Self {
        StoredError::Memory
    }
}

impl<T: Drop> From<AllocFailed<T>> for StoredError {
    ghost from_gives = { λ _ error. error ≡ Memory };

    fn from(_: AllocFailed<T>) -> Self {
        StoredError::Memory
    }
}

/// Data that are kept as bytes. A value's bytes tell where they end, so that values may stand one
/// behind the other.
pub trait Stored: Drop {
    /// The bytes of a value.
    ghost bytes_of: { Self → List ℕ };

    /// What each value of the type is: its numbers fit, and so do its counts.
    ghost is_value: { Self → Type 0 };

    /// What two values are that a reader cannot tell apart, wherever they lie in memory.
    ghost is_same: { Self → Self → Type 0 };

    /// Adds the bytes of the value at the end.
    fn store(&self, out: &mut Vec<u8>) -> Result<(), AllocError>
        ensures bytes { OnOk result (out.new.items ≡ out.old.items ++ bytes_of self.now) }
        ensures value { OnOk result (is_value self.now) };

    /// The value whose bytes stand at the front, and the bytes behind it. No count in the bytes is
    /// trusted: memory is taken for bytes that are there.
    fn load(alloc: Global, bytes: &[u8]) -> Result<(Self, &[u8]), StoredError>
        ensures value { IfOk result (λ found. is_value found.0) }
        ensures bytes { IfOk result (λ found. bytes.now ≡ bytes_of found.0 ++ found.1.now) }
        ensures damaged { result ≡ Err Damaged → (value : Self) (rest : List ℕ)
            → is_value value → bytes.now ≡ bytes_of value ++ rest → ⊥ };

    /// No value's bytes begin those of another one.
    ghost tells_its_end: { (a b : Self) (x y : List ℕ) → is_value a → is_value b
        → bytes_of a ++ x ≡ bytes_of b ++ y → is_same a b × (x ≡ y) };
}
