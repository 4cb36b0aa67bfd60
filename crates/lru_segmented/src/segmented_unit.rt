//! One shard in two segments: rows under a cap on their weight, of which those that were used are evicted last.
ghost use Rattle.std.specs.Prelude.{◌≡◌, ◌<◌, length, map, is_some, nat_eq, option_map, Some, None, IfOk, IfErr};
ghost use Rattle.std.specs.Option.{option_copied, option_map_or};
ghost use Rattle.lru_index.specs.Hashing.{seeded, unseeded};
ghost use Rattle.lru_owned_cache.specs.Entries.{weight_of, entry};
ghost use Rattle.lru_owned_cache.specs.Cache.{hashes_from, entry_of, parts_of, IsLast};
ghost use Rattle.lru_shard.specs.Shard.{most_rows, refusal, and_row};
ghost use Rattle.lru_segmented.specs.Segmented.{empty, entries, removed, Uses};
ghost use Rattle.lru_segmented.specs.SegmentedUnit.{pair_of, sized, sized_with, IsUnit, Admits, Evicts};

use crate::iter::SegmentedEntries;
use crate::segmented::SegmentedCache;
use lru_index::hashing::SeededHashes;
use lru_list::linked_list::MOST_ITEMS;
use lru_owned_cache::cache::Entry;
use lru_shard::unit::{Cause, Refused};
use std::alloc::{AllocError, Global};
use std::hash::BuildHasher;
use std::marker::Model;

/// Rows with distinct keys in two segments, under a cap on the sum of their weights. It has at most as many rows as its cap, and
/// never more than 4294967293.
///
/// A new row stands first in the lower segment, and each use of its key puts it first in the upper one. The upper segment has a
/// share of the weight: while it is heavier, its last row becomes the first of the lower one. What is evicted is the last row of
/// the lower segment, and of the upper one only once the lower one has none. With a share of 0 there is no upper segment, and
/// the shard does what an `LruUnit` does.
///
/// The cap refuses, and evicts nothing. Only `with_protected` and those like it, `reserve`, and an `admit` of a missing key take
/// memory.
///
/// An `LruUnit` has calls that are left out here. `insert_tail` restores an order from its last row on, and nothing says there
/// where the segments part. `set_weight`, `increment_weight` and `update_or_admit` give a row another weight and leave its data
/// here, which may pass the share; `admit` does it with the data. `need_promote` counts from the front of one order, and `pull`
/// moves a row between the shards of tiers.
#[derive(Drop)]
pub struct SegmentedUnit<T, S: BuildHasher = SeededHashes> {
    cache: SegmentedCache<u64, T, S>,
}

impl<T, S: BuildHasher> Model for SegmentedUnit<T, S> {
    ghost use Rattle.std.specs.Prelude.{ℕ, ◌≡◌};
    ghost use Rattle.std.specs.Coded.{coded_ℕ};
    ghost use Rattle.lru_segmented.specs.Segmented.{Segmented, segmented_code};
    ghost use Rattle.lru_shard.specs.Shard.{most_rows};

    ghost Value = { Segmented ℕ T S };

    ghost coded = { segmented_code coded_ℕ T.code S.code };

    ghost view = { λ u. u.cache };

    ghost invariant = { λ u. u.cache.most_entries ≡ most_rows u.cache.most_weight };
}

// The weight of an entry, 0 where there is none.
fn weight_before<T: Drop>(was: Option<Entry<u64, T>>) -> usize
    ensures { result ≡ option_map_or (λ e. e.weight) was 0 }
{
    match was {
        Some(entry) => entry.weight,
        None => 0,
    }
}

impl<T: Drop> SegmentedUnit<T> {
    /// An empty shard with room for `places` rows, whose weights may sum up to `cap`, and those of its upper segment to
    /// `most_protected`. The seed of the hashes stays the same from run to run.
    ///
    /// # Errors
    ///
    /// There is no memory for that many, or there can't be as many rows.
    pub fn with_protected(
        alloc: Global,
        places: usize,
        cap: usize,
        most_protected: usize,
    ) -> Result<Self, AllocError>
        ensures { IfOk result (λ unit. unit ≡ empty (hashes_from unseeded) cap (most_rows cap) most_protected) }
    {
        SegmentedUnit::with_protected_and_hasher(
            alloc,
            places,
            cap,
            most_protected,
            SeededHashes::fixed(),
        )
    }

    /// The same with a seed for the hashes: who picks the keys and does not know it can't pick keys that collide.
    ///
    /// # Errors
    ///
    /// As for `with_protected`.
    pub fn with_protected_and_seed(
        alloc: Global,
        places: usize,
        cap: usize,
        most_protected: usize,
        seed: u64,
    ) -> Result<Self, AllocError>
        ensures { IfOk result (λ unit. unit ≡ empty (hashes_from (seeded seed)) cap (most_rows cap) most_protected) }
    {
        SegmentedUnit::with_protected_and_hasher(
            alloc,
            places,
            cap,
            most_protected,
            SeededHashes::with_seed(seed),
        )
    }
}

impl<T: Drop, S: BuildHasher + Drop> SegmentedUnit<T, S> {
    /// The same over hashers of the caller's.
    ///
    /// # Errors
    ///
    /// As for `with_protected`.
    pub fn with_protected_and_hasher(
        alloc: Global,
        places: usize,
        cap: usize,
        most_protected: usize,
        hash_builder: S,
    ) -> Result<Self, AllocError>
        ensures { IfOk result (λ unit. unit ≡ empty hash_builder cap (most_rows cap) most_protected) }
    {
        let most_entries = cap.min(MOST_ITEMS);
        let mut cache = SegmentedCache::with_protected_and_hasher(
            alloc,
            cap,
            most_entries,
            most_protected,
            hash_builder,
        )?;
        cache.reserve(places)?;
        Ok(SegmentedUnit { cache })
    }
}

impl<T: Drop, S: BuildHasher> SegmentedUnit<T, S> {
    /// Makes room for `additional` more rows. Nothing else changes, also where it is refused.
    ///
    /// # Errors
    ///
    /// There is no memory for that many, or there can't be as many rows.
    pub fn reserve(&mut self, additional: usize) -> Result<(), AllocError>
        ensures { self.new ≡ self.old }
    {
        self.cache.reserve(additional)
    }

    /// How many rows there are.
    pub fn len(&self) -> usize
        ensures value { result ≡ length (entries self.now) }
        ensures valid { IsUnit self.now }
    {
        self.cache.len()
    }

    /// Whether there are no rows.
    pub fn is_empty(&self) -> bool
        ensures { result ≡ nat_eq (length (entries self.now)) 0 }
    {
        self.cache.is_empty()
    }

    /// The sum of the weights of the rows.
    pub fn used_weight(&self) -> usize
        ensures { result ≡ weight_of (entries self.now) }
    {
        self.cache.weight()
    }

    /// What the weights of the rows may sum up to.
    pub fn cap(&self) -> usize
        ensures { result ≡ self.now.most_weight }
    {
        self.cache.most_weight()
    }

    /// How many rows the upper segment has.
    pub fn protected_len(&self) -> usize
        ensures { result ≡ length self.now.upper }
    {
        self.cache.protected_len()
    }

    /// The sum of the weights of the rows of the upper segment.
    pub fn protected_weight(&self) -> usize
        ensures { result ≡ weight_of self.now.upper }
    {
        self.cache.protected_weight()
    }

    /// What the weights of the rows of the upper segment may sum up to.
    pub fn most_protected(&self) -> usize
        ensures { result ≡ self.now.most_protected }
    {
        self.cache.most_protected()
    }

    /// The key, the data and the weight of each row: those of the upper segment, most recent first, and then those of the lower
    /// one. The first `protected_len` of them are those of the upper segment.
    pub fn iter(&self) -> SegmentedEntries<'_, u64, T>
        ensures { result ≡ map parts_of (entries self.now) }
    {
        self.cache.iter()
    }

    /// Whether a key has a row.
    pub fn contains(&self, key: u64) -> bool
        ensures { result ≡ is_some (entry_of nat_eq (entries self.now) key) }
    {
        self.cache.contains(&key)
    }

    /// The data of a key. It is not used by that.
    pub fn peek(&self, key: u64) -> Option<&T>
        ensures { option_copied result ≡ option_map (λ e. e.value) (entry_of nat_eq (entries self.now) key) }
    {
        self.cache.peek(&key)
    }

    /// The weight of a key.
    pub fn peek_weight(&self, key: u64) -> Option<usize>
        ensures { result ≡ option_map (λ e. e.weight) (entry_of nat_eq (entries self.now) key) }
    {
        self.cache.weight_of(&key)
    }

    /// The key, the data and the weight of the row that is the next to be evicted: the last of the lower segment, or of the
    /// upper one where the lower one has none.
    pub fn peek_lru(&self) -> Option<(&u64, &T, usize)>
        ensures { IsLast (entries self.now) (option_map (λ s. entry s.0.now s.1.now s.2) result) }
    {
        self.cache.peek_last()
    }

    /// Uses a key: its row goes first in the upper segment, which is brought within its share. It answers whether there is one.
    pub fn access(&mut self, key: u64) -> bool
        ensures { Uses nat_eq self.old key result self.new }
    {
        self.cache.promote(&key)
    }

    /// Puts a row. One whose key has none stands first in the lower segment. Else it is a use of the key: the row goes first in
    /// the upper segment, with these data and this weight, and that is brought within its share. It answers the weight that the
    /// key had, 0 for a new key. No other row goes.
    ///
    /// # Errors
    ///
    /// A new key is refused for Length, Weight or Memory, in this order, a present one for Weight alone. A refusal hands the
    /// data back and changes nothing.
    pub fn admit(&mut self, key: u64, data: T, weight: usize) -> Result<usize, Refused<T>>
        ensures { Admits self.old key «data» weight result self.new }
    {
        match self.allow(key, weight) {
            Ok(()) => self.put(key, data, weight),
            Err(cause) => Err(Refused { cause, held: data }),
        }
    }

    // Why a row of this weight in place of the key's is refused, whatever memory there is.
    #[inline(always)]
    fn allow(&self, key: u64, weight: usize) -> Result<(), Cause>
        ensures allowed { IfOk result (λ _. refusal self.now.most_weight (sized (entries self.now)) (sized_with (entries self.now) key weight) ≡ None) }
        ensures refused { IfErr result (λ cause. refusal self.now.most_weight (sized (entries self.now)) (sized_with (entries self.now) key weight) ≡ Some cause) }
        ensures valid { IsUnit self.now }
    {
        let len = self.len();
        let Some(old) = self.peek_weight(key) else {
            return self.allow_new(key, weight, len);
        };
        let rest = self.used_weight() - old;
        if weight > self.cap() - rest {
            return Err(Cause::Weight);
        }
        Ok(())
    }

    // The same of a key that has no row, where there are so many.
    #[inline(always)]
    fn allow_new(&self, key: u64, weight: usize, len: usize) -> Result<(), Cause>
        requires absent { entry_of nat_eq (entries self.now) key ≡ None }
        requires len { len ≡ length (entries self.now) }
        requires valid { IsUnit self.now }
        ensures allowed { IfOk result (λ _. refusal self.now.most_weight (sized (entries self.now)) (sized_with (entries self.now) key weight) ≡ None) }
        ensures refused { IfErr result (λ cause. refusal self.now.most_weight (sized (entries self.now)) (sized_with (entries self.now) key weight) ≡ Some cause) }
    {
        if len >= self.cache.most_entries() {
            return Err(Cause::Length);
        }
        if weight > self.cap() - self.used_weight() {
            return Err(Cause::Weight);
        }
        Ok(())
    }

    // `admit` of a row that only want of memory may refuse.
    #[inline(always)]
    fn put(&mut self, key: u64, data: T, weight: usize) -> Result<usize, Refused<T>>
        requires allowed { refusal self.old.most_weight (sized (entries self.old)) (sized_with (entries self.old) key weight) ≡ None }
        requires valid { IsUnit self.old }
        ensures { Admits self.old key «data» weight result self.new }
    {
        match self.cache.put(key, data, weight, |_gone: Entry<u64, T>| {}) {
            Ok(was) => Ok(weight_before(was)),
            Err(refused) => Err(Refused {
                cause: Cause::Memory,
                held: refused.value,
            }),
        }
    }

    /// Takes a key's row out of its segment, and answers its data and weight.
    pub fn remove(&mut self, key: u64) -> Option<(T, usize)>
        ensures answer { result ≡ option_map pair_of (entry_of nat_eq (entries self.old) key) }
        ensures left { self.new ≡ removed nat_eq self.old key }
    {
        let removed = self.cache.remove(&key)?;
        Some((removed.value, removed.weight))
    }

    /// Takes the row out that is the next to go, the last of the lower segment, or of the upper one where the lower one has
    /// none, and answers its data and weight.
    pub fn evict(&mut self) -> Option<(T, usize)>
        ensures { Evicts self.old result self.new }
    {
        let taken = self.cache.pop_last()?;
        Some((taken.value, taken.weight))
    }
}
