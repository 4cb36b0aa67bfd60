//! A row as bytes.
ghost use Rattle.std.specs.Prelude.{◌≡◌};

use crate::stored::{Stored, StoredError};
use crate::words::{put_word, take_word};
use std::alloc::{AllocError, Global};

/// A row of a shard: what is held under a key, and what it weighs.
#[derive(Debug, Drop)]
pub struct Row<K, V> {
    /// The key of the row.
    pub key: K,
    /// The data under the key.
    pub data: V,
    /// What the row weighs.
    pub weight: usize,
}

impl<K: Stored, V: Stored> Stored for Row<K, V> {
    ghost use Rattle.lru_frames.specs.Rows.{row_bytes, IsRow, IsSameRow};
    ghost use Rattle.lru_frames.specs.RowLaws.{one_row};

    ghost bytes_of = { row_bytes K.bytes_of V.bytes_of };

    ghost is_value = { IsRow K.is_value V.is_value };

    ghost is_same = { IsSameRow K.is_same V.is_same };

    ghost tells_its_end = { one_row K.bytes_of K.is_value K.is_same V.bytes_of V.is_value V.is_same K.tells_its_end V.tells_its_end };

    fn store(&self, out: &mut Vec<u8>) -> Result<(), AllocError> {
        self.key.store(out)?;
        self.data.store(out)?;
        put_word(out, self.weight as u64)
    }

    fn load(alloc: Global, bytes: &[u8]) -> Result<(Row<K, V>, &[u8]), StoredError> {
        let (key, rest) = K::load(alloc, bytes)?;
        let (data, rest) = V::load(alloc, rest)?;
        match take_word(rest) {
            None => Err(StoredError::Damaged),
            Some((weight, rest)) => {
                let weight = weight as usize;
                Ok((Row { key, data, weight }, rest))
            }
        }
    }
}
