//! The rows of a core of one owner. Its data are pairs of a key, which is the row's, and a value.
ghost use Rattle.std.specs.Prelude.{◌<◌, IfOk};
ghost use Rattle.lru_cores.specs.Core.{list_at};
ghost use Rattle.lru_order_checkpoints.specs.Captures.{AreCopies, PutsEach, PutsShards};

use crate::rows::copies;
use lru_cores::lru_core::LruCore;
use lru_frames::frame::Header;
use lru_frames::mark::Mark;
use lru_frames::marked::encode_marked;
use lru_frames::row::Row;
use lru_frames::source::Source;
use lru_frames::stored::Stored;
use lru_shard::unit::Refused;
use std::alloc::{AllocError, Global};

/// Copies of the rows of a shard, most recent first, with clones of their values.
pub fn capture_shard<V: Clone + Drop, const N: usize>(
    alloc: Global,
    core: &LruCore<(u64, V), N>,
    shard: usize,
) -> Result<Vec<Row<u64, V>>, AllocError>
    requires { shard < N }
    ensures { IfOk result (λ rows. AreCopies V.is_clone (list_at core.now shard) rows.items) }
{
    copies(alloc, core.shard_len(shard), core.iter_shard(shard))
}

/// A core of which a checkpoint is saved: its shards, from shard 0 on. Each is copied when it is asked for.
#[derive(Drop)]
pub struct CoreSource<'a, V, const N: usize> {
    /// The core.
    pub core: &'a LruCore<(u64, V), N>,
}

impl<'a, V: Clone + Stored, const N: usize> Source<u64, V> for CoreSource<'a, V, N> {
    ghost use Rattle.lru_cores.specs.Core.{list_at};
    ghost use Rattle.lru_order_checkpoints.specs.Captures.{AreCopies};

    ghost count = { λ source. N };

    ghost hands_out = { λ source shard rows. AreCopies V.is_clone (list_at source.core.now shard) rows };

    fn shards(&self) -> usize {
        self.core.shards()
    }

    fn frame(&self, alloc: Global, header: Header) -> Result<(Vec<u8>, Mark), AllocError> {
        let rows = capture_shard(alloc, self.core, header.shard as usize)?;
        encode_marked(alloc, header, &rows)
    }
}

/// Puts rows last in the shards of their keys, one after the other, with pairs of key and value as their data; a key that has
/// a row keeps it. Put into an empty core of as many shards, the rows that were captured stand as they stood.
///
/// A refusal is that of `insert_tail`: the row is handed back, those before it are there, and those behind it are dropped.
pub fn restore_shard<V: Drop, const N: usize>(
    core: &mut LruCore<(u64, V), N>,
    rows: Vec<Row<u64, V>>,
) -> Result<(), Refused<(u64, V)>>
    ensures { PutsEach core.old rows.items result core.new }
{
    let mut rest = rows.into_iter();
    while let Some(row) = rest.next() {
        core.insert_tail(row.key, (row.key, row.data), row.weight)?;
    }
    Ok(())
}

/// Puts the rows of each shard last in the shards of their keys, one shard after the other, as `restore_shard` does.
///
/// A refusal is that of `restore_shard`: the rows of the shards before are there, and those of the shards behind are dropped.
pub fn restore_shards<V: Drop, const N: usize>(
    core: &mut LruCore<(u64, V), N>,
    shards: Vec<Vec<Row<u64, V>>>,
) -> Result<(), Refused<(u64, V)>>
    ensures { PutsShards core.old shards.items result core.new }
{
    let mut rest = shards.into_iter();
    while let Some(rows) = rest.next() {
        restore_shard(core, rows)?;
    }
    Ok(())
}
