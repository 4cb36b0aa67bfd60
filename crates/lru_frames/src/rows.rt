//! Rows one behind the other.
ghost use Rattle.std.specs.Prelude.{◌≡◌, ◌++◌, ℕ, List, length, OnOk, IfOk, Err};
ghost use Rattle.std.specs.List.{flat_map, AllByRecursion};
ghost use Rattle.lru_frames.specs.declared.row.Row.{Row};
ghost use Rattle.lru_frames.specs.declared.stored.StoredError.TheVariants.{Damaged};
ghost use Rattle.lru_frames.specs.Rows.{row_bytes, IsRow};

use crate::row::Row;
use crate::stored::{Stored, StoredError};
use std::alloc::{AllocError, Global};

// The bytes of a row whose key and data have 8 bytes each, as few as those of numbers, text and bytes.
pub(crate) const LIKELY_ROW: usize = 24;

// Adds rows at the end.
pub(crate) fn put_rows<K: Stored, V: Stored>(
    out: &mut Vec<u8>,
    rows: &[Row<K, V>],
) -> Result<(), AllocError>
    ensures bytes { OnOk result (out.new.items ≡ out.old.items ++ flat_map (row_bytes K.bytes_of V.bytes_of) rows.now) }
    ensures rows { OnOk result (AllByRecursion (IsRow K.is_value V.is_value) rows.now) }
{
    for row in rows {
        row.store(out)?;
    }
    Ok(())
}

// So many rows at the front, and the bytes behind them. Whatever the count tells, memory is taken for
// rows that were read: a row may have more bytes in memory than in the file.
pub(crate) fn take_rows<K: Stored, V: Stored>(
    alloc: Global,
    count: u64,
    bytes: &[u8],
) -> Result<(Vec<Row<K, V>>, &[u8]), StoredError>
    ensures rows { IfOk result (λ found. AllByRecursion (IsRow K.is_value V.is_value) found.0.items) }
    ensures count { IfOk result (λ found. length found.0.items ≡ count) }
    ensures bytes { IfOk result (λ found. bytes.now ≡ flat_map (row_bytes K.bytes_of V.bytes_of) found.0.items ++ found.1.now) }
    ensures damaged { result ≡ Err Damaged → (rows : List (Row K V)) (rest : List ℕ)
        → AllByRecursion (IsRow K.is_value V.is_value) rows → length rows ≡ count
        → bytes.now ≡ flat_map (row_bytes K.bytes_of V.bytes_of) rows ++ rest → ⊥ }
{
    let mut rows = Vec::new(alloc);
    let mut rest = bytes;
    for _ in 0..count {
        let (row, after) = Row::load(alloc, rest)?;
        rows.push(row)?;
        rest = after;
    }
    Ok((rows, rest))
}
