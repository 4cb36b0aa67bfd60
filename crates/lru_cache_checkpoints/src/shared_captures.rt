//! The entries of a cache that threads share.
ghost use Rattle.std.specs.Prelude.{◌<◌, IfOk, reverse};
ghost use Rattle.lru_cache_checkpoints.specs.Captures.{MayCopy, MayPutOrLeave, MayPutEntries, MayPutShards};

use crate::cache_captures::capture_cache;
use lru_frames::frame::Header;
use lru_frames::mark::Mark;
use lru_frames::marked::encode_marked;
use lru_frames::row::Row;
use lru_frames::source::Source;
use lru_frames::stored::Stored;
use lru_index::alike::SameHashes;
use lru_owned_cache::cache::{Cause, Refused};
use lru_shared_cache::shared::{Anything, Relation, SharedCache};
use std::alloc::{AllocError, Global};
use std::hash::{BuildHasher, Hash};
use std::sync::Wait;

/// Copies of the entries of a shard at one moment, as `capture_cache` makes them of the cache that lies behind the lock of the
/// shard. The lock is held for the copies alone, and other shards' calls don't wait.
pub fn capture_shard<K: Hash + Clone + Drop, V: Clone + Drop, const N: usize, S: BuildHasher>(
    rt: &impl Wait,
    alloc: Global,
    cache: &SharedCache<K, V, N, S>,
    shard: usize,
) -> Result<Vec<Row<K, V>>, AllocError>
    requires { shard < N }
    ensures { IfOk result (λ rows. MayCopy K.is_clone V.is_clone rows.items) }
{
    let locked = cache.lock_shard(rt, shard);
    capture_cache(alloc, locked.cache())
}

/// A shared cache of which a checkpoint is saved: its shards, from shard 0 on. Each is copied when it is asked for, at a moment
/// of its own, and its lock is free again before the copies are encoded and saved.
#[derive(Drop)]
pub struct SharedSource<'a, R, K: Hash, V, const N: usize>
where
    Anything: Relation<K, V>,
{
    /// What waits for the locks.
    pub rt: &'a R,
    /// The cache.
    pub cache: &'a SharedCache<K, V, N>,
}

impl<'a, R: Wait, K: Hash + Clone + Stored, V: Clone + Stored, const N: usize> Source<K, V>
    for SharedSource<'a, R, K, V, N> {
    ghost use Rattle.lru_cache_checkpoints.specs.Captures.{MayCopy};

    ghost count = { λ source. N };

    ghost hands_out = { λ source shard rows. MayCopy K.is_clone V.is_clone rows };

    fn shards(&self) -> usize {
        self.cache.shards()
    }

    fn frame(&self, alloc: Global, header: Header) -> Result<(Vec<u8>, Mark), AllocError> {
        let rows = capture_shard(self.rt, alloc, self.cache, header.shard as usize)?;
        encode_marked(alloc, header, &rows)
    }
}

// Puts an entry, unless it is too heavy by itself; whether it is.
fn is_left_out<K: Hash + Drop, V: Drop, const N: usize, S: BuildHasher + SameHashes>(
    rt: &impl Wait,
    cache: &SharedCache<K, V, N, S>,
    row: Row<K, V>,
) -> Result<bool, Refused<K, V>>
    ensures { MayPutOrLeave K.eq row result }
{
    match cache.put(rt, row.key, row.data, row.weight, |_gone| {}) {
        Ok(_) => Ok(false),
        Err(refused) => match refused.cause {
            Cause::TooHeavy => Ok(true),
            Cause::Memory | Cause::Full => Err(refused),
        },
    }
}

/// Puts entries into the shards of their keys, the last first, so that those that were captured of a shard stand as they stood
/// in one with as many shards and the same seed. Under smaller limits the entries go that were used longest ago, and are
/// dropped. Those that are too heavy for a shard by themselves are left out: it answers how many they are.
///
/// A refusal is that of `put` for want of memory, or of a place: key and value are handed back, the entries behind them are
/// there, and those before are dropped.
pub fn restore_shard<K: Hash + Drop, V: Drop, const N: usize, S: BuildHasher + SameHashes>(
    rt: &impl Wait,
    cache: &SharedCache<K, V, N, S>,
    mut rows: Vec<Row<K, V>>,
) -> Result<usize, Refused<K, V>>
    ensures { MayPutEntries K.eq (reverse rows.items) 0 result }
{
    rows.reverse();
    let mut left_out = 0usize;
    let mut rest = rows.into_iter();
    while let Some(row) = rest.next() {
        let is_out = is_left_out(rt, cache, row)?;
        if is_out {
            left_out += 1;
        }
    }
    Ok(left_out)
}

/// Puts the entries of each shard into the shards of their keys, one shard after the other, as `restore_shard` does. It answers
/// how many were left out, or the most that can be told where they are more.
///
/// A refusal is that of `restore_shard`: the entries of the shards before are there, and those of the shards behind are dropped.
pub fn restore_shards<K: Hash + Drop, V: Drop, const N: usize, S: BuildHasher + SameHashes>(
    rt: &impl Wait,
    cache: &SharedCache<K, V, N, S>,
    shards: Vec<Vec<Row<K, V>>>,
) -> Result<usize, Refused<K, V>>
    ensures { MayPutShards K.eq shards.items 0 result }
{
    let mut left_out = 0usize;
    let mut rest = shards.into_iter();
    while let Some(rows) = rest.next() {
        left_out = left_out.saturating_add(restore_shard(rt, cache, rows)?);
    }
    Ok(left_out)
}
