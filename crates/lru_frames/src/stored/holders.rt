//! What may be there, and what is shared, as bytes.
ghost use Rattle.lru_frames.specs.Holders.{option_bytes, IsOption, IsSameOption};
ghost use Rattle.lru_frames.specs.HolderLaws.{one_option};

use crate::stored::{Stored, StoredError};
use crate::words::{put_word, take_word};
use std::alloc::{AllocError, Global};
use std::sync::Arc;

impl<T: Stored> Stored for Option<T> {
    ghost bytes_of = { option_bytes T.bytes_of };

    ghost is_value = { IsOption T.is_value };

    ghost is_same = { IsSameOption T.is_same };

    ghost tells_its_end = { one_option T.bytes_of T.is_value T.is_same T.tells_its_end };

    fn store(&self, out: &mut Vec<u8>) -> Result<(), AllocError> {
        match self {
            None => put_word(out, 0),
            Some(value) => {
                put_word(out, 1)?;
                value.store(out)
            }
        }
    }

    fn load(alloc: Global, bytes: &[u8]) -> Result<(Option<T>, &[u8]), StoredError> {
        let Some((number, rest)) = take_word(bytes) else {
            return Err(StoredError::Damaged);
        };
        if number == 0 {
            return Ok((None, rest));
        }
        if number > 1 {
            return Err(StoredError::Damaged);
        }
        let (value, rest) = T::load(alloc, rest)?;
        Ok((Some(value), rest))
    }
}

/// Shared data are stored as what they hold. What is read is held by a new owner, and shared with no other.
impl<T: Stored> Stored for Arc<T> {
    ghost bytes_of = { λ arc. T.bytes_of arc.value };

    ghost is_value = { λ arc. T.is_value arc.value };

    ghost is_same = { λ a b. T.is_same a.value b.value };

    ghost tells_its_end = { λ a b. T.tells_its_end a.value b.value };

    fn store(&self, out: &mut Vec<u8>) -> Result<(), AllocError> {
        (**self).store(out)
    }

    fn load(alloc: Global, bytes: &[u8]) -> Result<(Arc<T>, &[u8]), StoredError> {
        let (value, rest) = T::load(alloc, bytes)?;
        Ok((Arc::new(alloc, value)?, rest))
    }
}
