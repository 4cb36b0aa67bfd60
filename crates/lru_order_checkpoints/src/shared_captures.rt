//! The rows of an order that threads share. Its data are pairs of a key, which is the row's, and a value.
ghost use Rattle.std.specs.Prelude.{◌<◌, IfOk};
ghost use Rattle.lru_order_checkpoints.specs.Captures.{MayCopy, MayPutEach, MayPutShards};

use crate::rows::copies;
use lru_frames::frame::Header;
use lru_frames::mark::Mark;
use lru_frames::marked::encode_marked;
use lru_frames::row::Row;
use lru_frames::source::Source;
use lru_frames::stored::Stored;
use lru_shard::unit::{LruUnit, Refused};
use lru_shared_order::look::Look;
use lru_shared_order::lru::Lru;
use std::alloc::{AllocError, Global};
use std::sync::Wait;

// Copies the rows of a shard.
#[derive(Clone, Copy)]
struct UnitCopies {
    alloc: Global,
}

impl<V: Clone + Drop> Look<(u64, V), Result<Vec<Row<u64, V>>, AllocError>> for UnitCopies {
    ghost use Rattle.std.specs.Prelude.{IfOk};
    ghost use Rattle.lru_order_checkpoints.specs.Captures.{AreCopies};

    ghost tells = { λ look shard answer. IfOk answer (λ rows. AreCopies V.is_clone shard.rows rows.items) };

    fn look_at(self, unit: &LruUnit<(u64, V)>) -> Result<Vec<Row<u64, V>>, AllocError> {
        copies(self.alloc, unit.len(), unit.iter())
    }
}

/// Copies of the rows of a shard at one moment, most recent first, with clones of their values. The lock of the shard is held
/// for the copies alone, and other shards' calls don't wait.
pub fn capture_shard<V: Clone + Drop, const N: usize>(
    rt: &impl Wait,
    alloc: Global,
    lru: &Lru<(u64, V), N>,
    shard: usize,
) -> Result<Vec<Row<u64, V>>, AllocError>
    requires { shard < N }
    ensures { IfOk result (λ rows. MayCopy N shard V.is_clone rows.items) }
{
    lru.look_at(rt, shard, UnitCopies { alloc })
}

/// An order behind locks of which a checkpoint is saved: its shards, from shard 0 on. Each is copied when it is asked for, at a
/// moment of its own, and its lock is free again before the copies are encoded and saved.
#[derive(Drop)]
pub struct LruSource<'a, R, V, const N: usize> {
    /// What waits for the locks.
    pub rt: &'a R,
    /// The order.
    pub lru: &'a Lru<(u64, V), N>,
}

impl<'a, R: Wait, V: Clone + Stored, const N: usize> Source<u64, V> for LruSource<'a, R, V, N> {
    ghost use Rattle.lru_order_checkpoints.specs.Captures.{MayCopy};

    ghost count = { λ source. N };

    ghost hands_out = { λ source shard rows. MayCopy N shard V.is_clone rows };

    fn shards(&self) -> usize {
        self.lru.shards()
    }

    fn frame(&self, alloc: Global, header: Header) -> Result<(Vec<u8>, Mark), AllocError> {
        let rows = capture_shard(self.rt, alloc, self.lru, header.shard as usize)?;
        encode_marked(alloc, header, &rows)
    }
}

/// Puts rows last in the shards of their keys, one after the other, with pairs of key and value as their data; a key that has
/// a row keeps it.
///
/// A refusal is that of `insert_tail`: the row is handed back, those before it are there, and those behind it are dropped.
pub fn restore_shard<V: Drop, const N: usize>(
    rt: &impl Wait,
    lru: &Lru<(u64, V), N>,
    rows: Vec<Row<u64, V>>,
) -> Result<(), Refused<(u64, V)>>
    ensures { MayPutEach N rows.items result }
{
    let mut rest = rows.into_iter();
    while let Some(row) = rest.next() {
        lru.insert_tail(rt, row.key, (row.key, row.data), row.weight)?;
    }
    Ok(())
}

/// Puts the rows of each shard last in the shards of their keys, one shard after the other, as `restore_shard` does.
///
/// A refusal is that of `restore_shard`: the rows of the shards before are there, and those of the shards behind are dropped.
pub fn restore_shards<V: Drop, const N: usize>(
    rt: &impl Wait,
    lru: &Lru<(u64, V), N>,
    shards: Vec<Vec<Row<u64, V>>>,
) -> Result<(), Refused<(u64, V)>>
    ensures { MayPutShards N shards.items result }
{
    let mut rest = shards.into_iter();
    while let Some(rows) = rest.next() {
        restore_shard(rt, lru, rows)?;
    }
    Ok(())
}
