//! Numbers that may be below zero, as numbers of 8 bytes.
ghost use Rattle.std.specs.Prelude.{◌≡◌, FitsSigned};
ghost use Rattle.std.specs.Int.{w8, w16, w32, w64};
ghost use Rattle.lru_frames.specs.Signed.{signed_word};
ghost use Rattle.lru_frames.specs.SignedLaws.{one_signed_byte, one_signed_quarter, one_signed_half, one_signed_word};

use crate::stored::{Stored, StoredError};
use crate::words::{put_signed, take_signed};
use std::alloc::{AllocError, Global};

impl Stored for i8 {
    ghost bytes_of = { signed_word };

    ghost is_value = { λ number. FitsSigned w8 number };

    ghost is_same = { λ a b. a ≡ b };

    ghost tells_its_end = { one_signed_byte };

    fn store(&self, out: &mut Vec<u8>) -> Result<(), AllocError> {
        put_signed(out, i64::from(*self))
    }

    fn load(_alloc: Global, bytes: &[u8]) -> Result<(i8, &[u8]), StoredError> {
        let Some((number, rest)) = take_signed(bytes) else {
            return Err(StoredError::Damaged);
        };
        if number < -0x80 || number > 0x7f {
            return Err(StoredError::Damaged);
        }
        Ok((number as i8, rest))
    }
}

impl Stored for i16 {
    ghost bytes_of = { signed_word };

    ghost is_value = { λ number. FitsSigned w16 number };

    ghost is_same = { λ a b. a ≡ b };

    ghost tells_its_end = { one_signed_quarter };

    fn store(&self, out: &mut Vec<u8>) -> Result<(), AllocError> {
        put_signed(out, i64::from(*self))
    }

    fn load(_alloc: Global, bytes: &[u8]) -> Result<(i16, &[u8]), StoredError> {
        let Some((number, rest)) = take_signed(bytes) else {
            return Err(StoredError::Damaged);
        };
        if number < -0x8000 || number > 0x7fff {
            return Err(StoredError::Damaged);
        }
        Ok((number as i16, rest))
    }
}

impl Stored for i32 {
    ghost bytes_of = { signed_word };

    ghost is_value = { λ number. FitsSigned w32 number };

    ghost is_same = { λ a b. a ≡ b };

    ghost tells_its_end = { one_signed_half };

    fn store(&self, out: &mut Vec<u8>) -> Result<(), AllocError> {
        put_signed(out, i64::from(*self))
    }

    fn load(_alloc: Global, bytes: &[u8]) -> Result<(i32, &[u8]), StoredError> {
        let Some((number, rest)) = take_signed(bytes) else {
            return Err(StoredError::Damaged);
        };
        if number < -0x8000_0000 || number > 0x7fff_ffff {
            return Err(StoredError::Damaged);
        }
        Ok((number as i32, rest))
    }
}

impl Stored for i64 {
    ghost bytes_of = { signed_word };

    ghost is_value = { λ number. FitsSigned w64 number };

    ghost is_same = { λ a b. a ≡ b };

    ghost tells_its_end = { one_signed_word };

    fn store(&self, out: &mut Vec<u8>) -> Result<(), AllocError> {
        put_signed(out, *self)
    }

    fn load(_alloc: Global, bytes: &[u8]) -> Result<(i64, &[u8]), StoredError> {
        let Some((number, rest)) = take_signed(bytes) else {
            return Err(StoredError::Damaged);
        };
        Ok((number, rest))
    }
}

impl Stored for isize {
    ghost bytes_of = { signed_word };

    ghost is_value = { λ number. FitsSigned w64 number };

    ghost is_same = { λ a b. a ≡ b };

    ghost tells_its_end = { one_signed_word };

    fn store(&self, out: &mut Vec<u8>) -> Result<(), AllocError> {
        put_signed(out, *self as i64)
    }

    fn load(_alloc: Global, bytes: &[u8]) -> Result<(isize, &[u8]), StoredError> {
        let Some((number, rest)) = take_signed(bytes) else {
            return Err(StoredError::Damaged);
        };
        Ok((number as isize, rest))
    }
}
