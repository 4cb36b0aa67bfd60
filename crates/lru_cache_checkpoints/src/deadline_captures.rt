//! The entries of a cache of one owner that have deadlines. A row's data are a value and its deadline.
ghost use Rattle.std.specs.Prelude.{IfOk, map, reverse};
ghost use Rattle.lru_owned_cache.specs.Cache.{parts_of};
ghost use Rattle.lru_frames.specs.Copies.{AreEach};
ghost use Rattle.lru_cache_checkpoints.specs.Captures.{PutsEntries, PutsOrLeaves};
ghost use Rattle.lru_cache_checkpoints.specs.CapturedDeadlines.{IsDeadlineCopy, PutsDeadlines, until_row};

use lru_deadlines::deadlines::{DeadlineCache, Until};
use lru_frames::frame::Header;
use lru_frames::mark::Mark;
use lru_frames::marked::encode_marked;
use lru_frames::row::Row;
use lru_frames::source::Source;
use lru_frames::stored::Stored;
use lru_owned_cache::cache::{Cause, Refused};
use std::alloc::{AllocError, Global};
use std::hash::{BuildHasher, Hash};

/// Copies of the entries, most recent first, with clones of their keys and values, and with their deadlines: also of those
/// that are past them.
pub fn capture_deadlines<K: Hash + Clone + Drop, V: Clone + Drop, S: BuildHasher>(
    alloc: Global,
    cache: &DeadlineCache<K, V, S>,
) -> Result<Vec<Row<K, (V, u64)>>, AllocError>
    ensures { IfOk result (λ rows. AreEach (IsDeadlineCopy K.is_clone V.is_clone) (map parts_of cache.now.entries) rows.items) }
{
    let mut rows = Vec::with_capacity(alloc, cache.len())?;
    let mut rest = cache.iter();
    while let Some((key, until, weight)) = rest.next() {
        let (key, value) = (key.clone()?, until.value.clone()?);
        let data = (value, until.deadline);
        rows.push(Row { key, data, weight })?;
    }
    Ok(rows)
}

/// A cache with deadlines of which a checkpoint is saved: the one shard of it. Its entries are copied when they are asked for.
#[derive(Drop)]
pub struct DeadlineSource<'a, K: Hash, V> {
    /// The cache.
    pub cache: &'a DeadlineCache<K, V>,
}

impl<'a, K: Hash + Clone + Stored, V: Clone + Stored> Source<K, (V, u64)>
    for DeadlineSource<'a, K, V> {
    ghost use Rattle.std.specs.Prelude.{map};
    ghost use Rattle.lru_owned_cache.specs.Cache.{parts_of};
    ghost use Rattle.lru_frames.specs.Copies.{AreEach};
    ghost use Rattle.lru_cache_checkpoints.specs.CapturedDeadlines.{IsDeadlineCopy};

    ghost count = { λ source. 1 };

    ghost hands_out = { λ source shard rows. AreEach (IsDeadlineCopy K.is_clone V.is_clone) (map parts_of source.cache.now.entries) rows };

    fn shards(&self) -> usize {
        1
    }

    fn frame(&self, alloc: Global, header: Header) -> Result<(Vec<u8>, Mark), AllocError> {
        let rows = capture_deadlines(alloc, self.cache)?;
        encode_marked(alloc, header, &rows)
    }
}

// Puts an entry, unless it is too heavy by itself; whether it is.
fn is_left_out<K: Hash + Drop, V: Drop, S: BuildHasher>(
    cache: &mut DeadlineCache<K, V, S>,
    row: Row<K, (V, u64)>,
) -> Result<bool, Refused<K, Until<V>>>
    ensures { PutsOrLeaves K.eq cache.old (until_row row) result cache.new }
{
    let (value, deadline) = row.data;
    match cache.put_until(row.key, value, row.weight, deadline, |_gone| {}) {
        Ok(_) => Ok(false),
        Err(refused) => match refused.cause {
            Cause::TooHeavy => Ok(true),
            Cause::Memory | Cause::Full => Err(refused),
        },
    }
}

/// Puts entries into the cache with their deadlines, the last first, as `restore_cache` does without them.
pub fn restore_deadlines<K: Hash + Drop, V: Drop, S: BuildHasher>(
    cache: &mut DeadlineCache<K, V, S>,
    mut rows: Vec<Row<K, (V, u64)>>,
) -> Result<usize, Refused<K, Until<V>>>
    ensures { PutsEntries K.eq cache.old (map until_row (reverse rows.items)) 0 result cache.new }
{
    rows.reverse();
    let mut left_out = 0usize;
    let mut rest = rows.into_iter();
    while let Some(row) = rest.next() {
        let is_out = is_left_out(cache, row)?;
        if is_out {
            left_out += 1;
        }
    }
    Ok(left_out)
}

/// Puts the entries of each shard into the cache with their deadlines, one shard after the other, as `restore_deadlines` does. It
/// answers how many were left out, or the most that can be told where they are more.
///
/// A refusal is that of `restore_deadlines`: the entries of the shards before are there, and those of the shards behind are dropped.
pub fn restore_shards<K: Hash + Drop, V: Drop, S: BuildHasher>(
    cache: &mut DeadlineCache<K, V, S>,
    shards: Vec<Vec<Row<K, (V, u64)>>>,
) -> Result<usize, Refused<K, Until<V>>>
    ensures { PutsDeadlines K.eq cache.old shards.items 0 result cache.new }
{
    let mut left_out = 0usize;
    let mut rest = shards.into_iter();
    while let Some(rows) = rest.next() {
        left_out = left_out.saturating_add(restore_deadlines(cache, rows)?);
    }
    Ok(left_out)
}
