//! The entries of a cache of one owner.
ghost use Rattle.std.specs.Prelude.{IfOk, map, reverse};
ghost use Rattle.lru_owned_cache.specs.Cache.{parts_of};
ghost use Rattle.lru_frames.specs.Copies.{AreEach, IsEntryCopy};
ghost use Rattle.lru_cache_checkpoints.specs.Captures.{PutsEntries, PutsOrLeaves, PutsShards};

use lru_frames::frame::Header;
use lru_frames::mark::Mark;
use lru_frames::marked::encode_marked;
use lru_frames::row::Row;
use lru_frames::source::Source;
use lru_frames::stored::Stored;
use lru_owned_cache::cache::{Cache, Cause, Refused};
use std::alloc::{AllocError, Global};
use std::hash::{BuildHasher, Hash};

/// Copies of the entries, most recent first, with clones of their keys and values.
pub fn capture_cache<K: Hash + Clone + Drop, V: Clone + Drop, S: BuildHasher>(
    alloc: Global,
    cache: &Cache<K, V, S>,
) -> Result<Vec<Row<K, V>>, AllocError>
    ensures { IfOk result (λ rows. AreEach (IsEntryCopy K.is_clone V.is_clone) (map parts_of cache.now.entries) rows.items) }
{
    let mut rows = Vec::with_capacity(alloc, cache.len())?;
    let mut rest = cache.iter();
    while let Some((key, value, weight)) = rest.next() {
        let (key, data) = (key.clone()?, value.clone()?);
        rows.push(Row { key, data, weight })?;
    }
    Ok(rows)
}

/// A cache of which a checkpoint is saved: the one shard of it. Its entries are copied when they are asked for.
#[derive(Drop)]
pub struct CacheSource<'a, K: Hash, V> {
    /// The cache.
    pub cache: &'a Cache<K, V>,
}

impl<'a, K: Hash + Clone + Stored, V: Clone + Stored> Source<K, V> for CacheSource<'a, K, V> {
    ghost use Rattle.std.specs.Prelude.{map};
    ghost use Rattle.lru_owned_cache.specs.Cache.{parts_of};
    ghost use Rattle.lru_frames.specs.Copies.{AreEach, IsEntryCopy};

    ghost count = { λ source. 1 };

    ghost hands_out = { λ source shard rows. AreEach (IsEntryCopy K.is_clone V.is_clone) (map parts_of source.cache.now.entries) rows };

    fn shards(&self) -> usize {
        1
    }

    fn frame(&self, alloc: Global, header: Header) -> Result<(Vec<u8>, Mark), AllocError> {
        let rows = capture_cache(alloc, self.cache)?;
        encode_marked(alloc, header, &rows)
    }
}

// Puts an entry, unless it is too heavy by itself; whether it is.
fn is_left_out<K: Hash + Drop, V: Drop, S: BuildHasher>(
    cache: &mut Cache<K, V, S>,
    row: Row<K, V>,
) -> Result<bool, Refused<K, V>>
    ensures { PutsOrLeaves K.eq cache.old row result cache.new }
{
    match cache.put(row.key, row.data, row.weight, |_gone| {}) {
        Ok(_) => Ok(false),
        Err(refused) => match refused.cause {
            Cause::TooHeavy => Ok(true),
            Cause::Memory | Cause::Full => Err(refused),
        },
    }
}

/// Puts entries into the cache, the last first, so that those that were captured stand as they stood. Under smaller limits the
/// entries go that were used longest ago, and are dropped. Those that are too heavy by themselves are left out: it answers how
/// many they are.
///
/// A refusal is that of `put` for want of memory, or of a place: key and value are handed back, the entries behind them are
/// there, and those before are dropped.
pub fn restore_cache<K: Hash + Drop, V: Drop, S: BuildHasher>(
    cache: &mut Cache<K, V, S>,
    mut rows: Vec<Row<K, V>>,
) -> Result<usize, Refused<K, V>>
    ensures { PutsEntries K.eq cache.old (reverse rows.items) 0 result cache.new }
{
    rows.reverse();
    let mut left_out = 0usize;
    let mut rest = rows.into_iter();
    while let Some(row) = rest.next() {
        let is_out = is_left_out(cache, row)?;
        if is_out {
            left_out += 1;
        }
    }
    Ok(left_out)
}

/// Puts the entries of each shard into the cache, one shard after the other, as `restore_cache` does. It answers how many were
/// left out, or the most that can be told where they are more.
///
/// A refusal is that of `restore_cache`: the entries of the shards before are there, and those of the shards behind are dropped.
pub fn restore_shards<K: Hash + Drop, V: Drop, S: BuildHasher>(
    cache: &mut Cache<K, V, S>,
    shards: Vec<Vec<Row<K, V>>>,
) -> Result<usize, Refused<K, V>>
    ensures { PutsShards K.eq cache.old shards.items 0 result cache.new }
{
    let mut left_out = 0usize;
    let mut rest = shards.into_iter();
    while let Some(rows) = rest.next() {
        left_out = left_out.saturating_add(restore_cache(cache, rows)?);
    }
    Ok(left_out)
}
