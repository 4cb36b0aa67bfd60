//! Rows copied.
ghost use Rattle.std.specs.Prelude.{IfOk};
ghost use Rattle.lru_frames.specs.Copies.{AreEach};
ghost use Rattle.lru_order_checkpoints.specs.Captures.{IsCopy};

use lru_frames::row::Row;
use lru_shard::unit::LruUnitIter;
use std::alloc::{AllocError, Global};

// A row with a clone of the value that stands behind its key.
fn copied<V: Clone + Drop>(pair: &(u64, V), weight: usize) -> Result<Row<u64, V>, AllocError>
    ensures { IfOk result (IsCopy V.is_clone (pair.now, weight)) }
{
    Ok(Row {
        key: pair.0,
        data: pair.1.clone()?,
        weight,
    })
}

// Copies of the rows that an iterator shows, in its order, with room for so many at first.
pub(crate) fn copies<V: Clone + Drop>(
    alloc: Global,
    count: usize,
    shown: LruUnitIter<'_, (u64, V)>,
) -> Result<Vec<Row<u64, V>>, AllocError>
    ensures { IfOk result (λ rows. AreEach (IsCopy V.is_clone) shown.entry rows.items) }
{
    let mut rows = Vec::with_capacity(alloc, count)?;
    let mut rest = shown;
    while let Some((pair, weight)) = rest.next() {
        rows.push(copied(pair, weight)?)?;
    }
    Ok(rows)
}
