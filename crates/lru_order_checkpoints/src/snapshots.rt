//! The rows of a shard that an actor serves, as the snapshots of an `AsyncLru` tell them: keys and weights without data.
ghost use Rattle.std.specs.Prelude.{◌≡◌, IfOk, map};

use lru_frames::row::Row;
use std::alloc::{AllocError, Global};

/// The keys and weights of a snapshot as the rows of a checkpoint, in their order. Put back by `insert_tail`, one after the
/// other, they stand as they stood.
pub fn snapshot_rows<K: Drop>(
    alloc: Global,
    snapshot: Vec<(K, usize)>,
) -> Result<Vec<Row<K, ()>>, AllocError>
    ensures { IfOk result (λ rows. map (λ row. (row.key, row.weight)) rows.items ≡ snapshot.items) }
{
    let mut rows = Vec::with_capacity(alloc, snapshot.len())?;
    let mut rest = snapshot.into_iter();
    while let Some((key, weight)) = rest.next() {
        let data = ();
        rows.push(Row { key, data, weight })?;
    }
    Ok(rows)
}
