//! Numbers of 16 bytes.
ghost use Rattle.std.specs.Prelude.{◌≡◌, ◌<◌, ◌^◌, FitsSigned};
ghost use Rattle.std.specs.Int.{w128};
ghost use Rattle.lru_frames.specs.Signed.{wide_word, signed_wide};
ghost use Rattle.lru_frames.specs.SignedLaws.{one_wide, one_signed_wide};

use crate::stored::{Stored, StoredError};
use crate::words::{put_wide, take_wide};
use std::alloc::{AllocError, Global};

impl Stored for u128 {
    ghost bytes_of = { wide_word };

    ghost is_value = { λ number. number < 2 ^ 128 };

    ghost is_same = { λ a b. a ≡ b };

    ghost tells_its_end = { one_wide };

    fn store(&self, out: &mut Vec<u8>) -> Result<(), AllocError> {
        put_wide(out, *self)
    }

    fn load(_alloc: Global, bytes: &[u8]) -> Result<(u128, &[u8]), StoredError> {
        match take_wide(bytes) {
            None => Err(StoredError::Damaged),
            Some(found) => Ok(found),
        }
    }
}

impl Stored for i128 {
    ghost bytes_of = { signed_wide };

    ghost is_value = { λ number. FitsSigned w128 number };

    ghost is_same = { λ a b. a ≡ b };

    ghost tells_its_end = { one_signed_wide };

    fn store(&self, out: &mut Vec<u8>) -> Result<(), AllocError> {
        put_wide(out, self.cast_unsigned())
    }

    fn load(_alloc: Global, bytes: &[u8]) -> Result<(i128, &[u8]), StoredError> {
        match take_wide(bytes) {
            None => Err(StoredError::Damaged),
            Some((number, rest)) => Ok((number.cast_signed(), rest)),
        }
    }
}
