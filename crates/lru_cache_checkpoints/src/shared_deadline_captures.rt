//! The entries of a cache that threads share, whose entries end. A row's data are a value, the time at which it ends, and its
//! deadline.
ghost use Rattle.std.specs.Prelude.{◌<◌, IfOk, map, reverse};
ghost use Rattle.lru_owned_cache.specs.Cache.{parts_of};
ghost use Rattle.lru_frames.specs.Copies.{AreEach};
ghost use Rattle.lru_cache_checkpoints.specs.Captures.{MayPutEntries, MayPutOrLeave};
ghost use Rattle.lru_cache_checkpoints.specs.CapturedAges.{IsAgedCopy, MayCopyAged, MayPutAged, aged_row};

use lru_deadlines::deadlines::{DeadlineCache, Until};
use lru_frames::frame::Header;
use lru_frames::mark::Mark;
use lru_frames::marked::encode_marked;
use lru_frames::row::Row;
use lru_frames::source::Source;
use lru_frames::stored::Stored;
use lru_index::alike::SameHashes;
use lru_owned_cache::cache::{Cause, Refused};
use lru_shared_deadlines::shared::{Aged, SharedDeadlineCache};
use std::alloc::{AllocError, Global};
use std::hash::{BuildHasher, Hash};
use std::sync::Wait;

/// Copies of the entries, most recent first, with clones of their keys and values, with the times at which they end, and their
/// deadlines: also of those that are past them.
pub fn capture_ages<K: Hash + Clone + Drop, V: Clone + Drop, S: BuildHasher>(
    alloc: Global,
    cache: &DeadlineCache<K, Aged<V>, S>,
) -> Result<Vec<Row<K, (V, (u64, u64))>>, AllocError>
    ensures { IfOk result (λ rows. AreEach (IsAgedCopy K.is_clone V.is_clone) (map parts_of cache.now.entries) rows.items) }
{
    let mut rows = Vec::with_capacity(alloc, cache.len())?;
    let mut rest = cache.iter();
    while let Some((key, until, weight)) = rest.next() {
        let (key, value) = (key.clone()?, until.value.value.clone()?);
        let data = (value, (until.value.ends, until.deadline));
        rows.push(Row { key, data, weight })?;
    }
    Ok(rows)
}

/// Copies of the entries of a shard at one moment, as `capture_ages` makes them of the cache that lies behind the lock of the
/// shard. The lock is held for the copies alone, and other shards' calls don't wait.
pub fn capture_shard<K: Hash + Clone + Drop, V: Clone + Drop, const N: usize, S: BuildHasher>(
    rt: &impl Wait,
    alloc: Global,
    cache: &SharedDeadlineCache<K, V, N, S>,
    shard: usize,
) -> Result<Vec<Row<K, (V, (u64, u64))>>, AllocError>
    requires { shard < N }
    ensures { IfOk result (λ rows. MayCopyAged K.is_clone V.is_clone rows.items) }
{
    let locked = cache.lock_shard(rt, shard);
    capture_ages(alloc, locked.cache())
}

/// A shared cache whose entries end, of which a checkpoint is saved: its shards, from shard 0 on. Each is copied when it is
/// asked for, at a moment of its own, and its lock is free again before the copies are encoded and saved.
#[derive(Drop)]
pub struct SharedDeadlineSource<'a, R, K: Hash, V, const N: usize> {
    /// What waits for the locks.
    pub rt: &'a R,
    /// The cache.
    pub cache: &'a SharedDeadlineCache<K, V, N>,
}

impl<'a, R: Wait, K: Hash + Clone + Stored, V: Clone + Stored, const N: usize> Source<
    K,
    (V, (u64, u64)),
> for SharedDeadlineSource<'a, R, K, V, N> {
    ghost use Rattle.lru_cache_checkpoints.specs.CapturedAges.{MayCopyAged};

    ghost count = { λ source. N };

    ghost hands_out = { λ source shard rows. MayCopyAged K.is_clone V.is_clone rows };

    fn shards(&self) -> usize {
        self.cache.shards()
    }

    fn frame(&self, alloc: Global, header: Header) -> Result<(Vec<u8>, Mark), AllocError> {
        let rows = capture_shard(self.rt, alloc, self.cache, header.shard as usize)?;
        encode_marked(alloc, header, &rows)
    }
}

// Puts an entry, unless it is too heavy by itself; whether it is.
fn is_left_out<K: Hash + Drop, V: Drop, const N: usize, S: BuildHasher + SameHashes>(
    rt: &impl Wait,
    cache: &SharedDeadlineCache<K, V, N, S>,
    row: Row<K, (V, (u64, u64))>,
) -> Result<bool, Refused<K, Until<Aged<V>>>>
    ensures { MayPutOrLeave K.eq (aged_row row) result }
{
    let (value, (ends, deadline)) = row.data;
    let value = Aged { value, ends };
    let until = Until { value, deadline };
    match cache.put_back(rt, row.key, until, row.weight, |_gone| {}) {
        Ok(_) => Ok(false),
        Err(refused) => match refused.cause {
            Cause::TooHeavy => Ok(true),
            Cause::Memory | Cause::Full => Err(refused),
        },
    }
}

/// Puts entries into the shards of their keys, with the times at which they end and their deadlines, the last first, as
/// `restore_shard` of a cache whose entries don't end.
pub fn restore_shard<K: Hash + Drop, V: Drop, const N: usize, S: BuildHasher + SameHashes>(
    rt: &impl Wait,
    cache: &SharedDeadlineCache<K, V, N, S>,
    mut rows: Vec<Row<K, (V, (u64, u64))>>,
) -> Result<usize, Refused<K, Until<Aged<V>>>>
    ensures { MayPutEntries K.eq (map aged_row (reverse rows.items)) 0 result }
{
    rows.reverse();
    let mut left_out = 0usize;
    let mut rest = rows.into_iter();
    while let Some(row) = rest.next() {
        let is_out = is_left_out(rt, cache, row)?;
        if is_out {
            left_out += 1;
        }
    }
    Ok(left_out)
}

/// Puts the entries of each shard into the shards of their keys, one shard after the other, as `restore_shard` does. It answers
/// how many were left out, or the most that can be told where they are more.
///
/// A refusal is that of `restore_shard`: the entries of the shards before are there, and those of the shards behind are dropped.
pub fn restore_shards<K: Hash + Drop, V: Drop, const N: usize, S: BuildHasher + SameHashes>(
    rt: &impl Wait,
    cache: &SharedDeadlineCache<K, V, N, S>,
    shards: Vec<Vec<Row<K, (V, (u64, u64))>>>,
) -> Result<usize, Refused<K, Until<Aged<V>>>>
    ensures { MayPutAged K.eq shards.items 0 result }
{
    let mut left_out = 0usize;
    let mut rest = shards.into_iter();
    while let Some(rows) = rest.next() {
        left_out = left_out.saturating_add(restore_shard(rt, cache, rows)?);
    }
    Ok(left_out)
}
