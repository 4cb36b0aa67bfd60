//! Numbers of fewer bits, and truth, as numbers of 8 bytes.
ghost use Rattle.std.specs.Prelude.{◌≡◌, ◌<◌, ◌^◌};
ghost use Rattle.lru_frames.specs.Words.{word, truth};
ghost use Rattle.lru_frames.specs.WordLaws.{one_byte, one_half, one_quarter, one_word, one_truth};

use crate::stored::{Stored, StoredError};
use crate::words::{put_word, take_word};
use std::alloc::{AllocError, Global};

impl Stored for u8 {
    ghost bytes_of = { word };

    ghost is_value = { λ number. number < 2 ^ 8 };

    ghost is_same = { λ a b. a ≡ b };

    ghost tells_its_end = { one_byte };

    fn store(&self, out: &mut Vec<u8>) -> Result<(), AllocError> {
        put_word(out, u64::from(*self))
    }

    fn load(_alloc: Global, bytes: &[u8]) -> Result<(u8, &[u8]), StoredError> {
        let Some((number, rest)) = take_word(bytes) else {
            return Err(StoredError::Damaged);
        };
        if number > 0xff {
            return Err(StoredError::Damaged);
        }
        Ok((number as u8, rest))
    }
}

impl Stored for u16 {
    ghost bytes_of = { word };

    ghost is_value = { λ number. number < 2 ^ 16 };

    ghost is_same = { λ a b. a ≡ b };

    ghost tells_its_end = { one_quarter };

    fn store(&self, out: &mut Vec<u8>) -> Result<(), AllocError> {
        put_word(out, u64::from(*self))
    }

    fn load(_alloc: Global, bytes: &[u8]) -> Result<(u16, &[u8]), StoredError> {
        let Some((number, rest)) = take_word(bytes) else {
            return Err(StoredError::Damaged);
        };
        if number > 0xffff {
            return Err(StoredError::Damaged);
        }
        Ok((number as u16, rest))
    }
}

impl Stored for u32 {
    ghost bytes_of = { word };

    ghost is_value = { λ number. number < 2 ^ 32 };

    ghost is_same = { λ a b. a ≡ b };

    ghost tells_its_end = { one_half };

    fn store(&self, out: &mut Vec<u8>) -> Result<(), AllocError> {
        put_word(out, u64::from(*self))
    }

    fn load(_alloc: Global, bytes: &[u8]) -> Result<(u32, &[u8]), StoredError> {
        let Some((number, rest)) = take_word(bytes) else {
            return Err(StoredError::Damaged);
        };
        if number > 0xffff_ffff {
            return Err(StoredError::Damaged);
        }
        Ok((number as u32, rest))
    }
}

impl Stored for usize {
    ghost bytes_of = { word };

    ghost is_value = { λ number. number < 2 ^ 64 };

    ghost is_same = { λ a b. a ≡ b };

    ghost tells_its_end = { one_word };

    fn store(&self, out: &mut Vec<u8>) -> Result<(), AllocError> {
        put_word(out, *self as u64)
    }

    fn load(_alloc: Global, bytes: &[u8]) -> Result<(usize, &[u8]), StoredError> {
        let Some((number, rest)) = take_word(bytes) else {
            return Err(StoredError::Damaged);
        };
        Ok((number as usize, rest))
    }
}

impl Stored for bool {
    ghost bytes_of = { λ holds. word (truth holds) };

    ghost is_value = { λ holds. Unit {0} };

    ghost is_same = { λ a b. a ≡ b };

    ghost tells_its_end = { one_truth };

    fn store(&self, out: &mut Vec<u8>) -> Result<(), AllocError> {
        put_word(out, u64::from(*self))
    }

    fn load(_alloc: Global, bytes: &[u8]) -> Result<(bool, &[u8]), StoredError> {
        let Some((number, rest)) = take_word(bytes) else {
            return Err(StoredError::Damaged);
        };
        if number > 1 {
            return Err(StoredError::Damaged);
        }
        Ok((number == 1, rest))
    }
}
