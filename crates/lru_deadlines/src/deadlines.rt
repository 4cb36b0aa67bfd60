//! A cache of one owner, whose entries have deadlines.
ghost use Rattle.std.specs.Prelude.{◌≡◌, length, map, is_some, nat_eq, nat_lt, IfOk};
ghost use Rattle.std.specs.Option.{option_map, option_copied};
ghost use Rattle.lru_index.specs.Hashing.{key_hash, seeded, unseeded};
ghost use Rattle.lru_owned_cache.specs.Cache.{empty, hashes_from, entry_of, demoted, with_entries, parts_of, IsCache};
ghost use Rattle.lru_owned_cache.specs.Entries.{weight_of};
ghost use Rattle.lru_deadlines.specs.Deadlines.{living, PromotesLiving, UpdatesLiving, UpdatesIfLiving};

use lru_index::alike::SameHashes;
use lru_index::hashing::SeededHashes;
use lru_index::keys::Query;
use lru_owned_cache::cache::{Cache, Entry};
use lru_pairs::iter::{PairsEntries, PairsKeys};
use std::alloc::{AllocError, Global};
use std::hash::{BuildHasher, Hash};
use std::marker::Model;

/// How many of the entries that were used longest ago `put_at` looks at, where it has to make room.
pub const LOOK: usize = 4;

/// A value, and until when it is answered.
#[derive(Debug, Drop)]
pub struct Until<V> {
    /// The value.
    pub value: V,
    /// The last time at which the value is answered, in the caller's unit.
    pub deadline: u64,
}

impl<V> Until<V> {
    /// Whether the deadline is past.
    pub fn is_past(&self, time: u64) -> bool
        ensures { result ≡ nat_lt self.now.deadline time }
    {
        self.deadline < time
    }
}

/// A cache of keys and values whose entries have deadlines, under the two limits of a `Cache`.
///
/// The clock is the caller's: a call is handed the time, in the unit of the deadlines, and reads none. An entry is past its
/// deadline where that is less than the time, and is not answered then, as if it were not there. One that is met by a
/// look-up that changes the cache is taken out and handed over; the others that are past their deadline stay until `sweep`
/// comes to them, or until they go for new entries as those that were used longest ago. Until then they count.
///
/// What is handed over, an `Entry` of an `Until`, has its deadline with it.
#[derive(Drop)]
pub struct DeadlineCache<K: Hash, V, S: BuildHasher = SeededHashes> {
    pub(crate) cache: Cache<K, Until<V>, S>,
}

impl<K: Hash, V, S: BuildHasher> Model for DeadlineCache<K, V, S> {
    ghost use Rattle.lru_owned_cache.specs.Cache.{Cached, cached_code};
    ghost use Rattle.lru_deadlines.specs.Codes.{until_code};
    ghost use Rattle.lru_deadlines.specs.declared.deadlines.Until.{Until};

    ghost Value = { Cached K (Until V) S };

    ghost coded = { cached_code K.code (until_code V.code) S.code };

    ghost view = { λ d. d.cache };
}

impl<K: Hash + Drop, V: Drop> DeadlineCache<K, V, SeededHashes> {
    /// A cache of no entries, of at most `most_entries`, which may weigh `most_weight` together. The seed of the hashes
    /// stays the same from run to run.
    ///
    /// # Errors
    ///
    /// There is no memory.
    pub fn new(alloc: Global, most_weight: usize, most_entries: usize) -> Result<Self, AllocError>
        ensures { IfOk result (λ cache. cache ≡ empty (hashes_from unseeded) most_weight most_entries) }
    {
        Ok(DeadlineCache {
            cache: Cache::new(alloc, most_weight, most_entries)?,
        })
    }

    /// A cache as `new` makes it, with a seed for the hashes: who picks the keys and does not know it can't pick keys that
    /// collide.
    ///
    /// # Errors
    ///
    /// There is no memory.
    pub fn with_seed(
        alloc: Global,
        most_weight: usize,
        most_entries: usize,
        seed: u64,
    ) -> Result<Self, AllocError>
        ensures { IfOk result (λ cache. cache ≡ empty (hashes_from (seeded seed)) most_weight most_entries) }
    {
        Ok(DeadlineCache {
            cache: Cache::with_seed(alloc, most_weight, most_entries, seed)?,
        })
    }
}

impl<K: Hash + Drop, V: Drop, S: BuildHasher + Drop> DeadlineCache<K, V, S> {
    /// A cache as `new` makes it, over hashers of the caller's.
    ///
    /// # Errors
    ///
    /// There is no memory.
    pub fn with_hasher(
        alloc: Global,
        most_weight: usize,
        most_entries: usize,
        hash_builder: S,
    ) -> Result<Self, AllocError>
        ensures { IfOk result (λ cache. cache ≡ empty hash_builder most_weight most_entries) }
    {
        Ok(DeadlineCache {
            cache: Cache::with_hasher(alloc, most_weight, most_entries, hash_builder)?,
        })
    }
}

impl<K: Hash, V, S: BuildHasher> DeadlineCache<K, V, S> {
    /// How many entries there are, with those that are past their deadline.
    pub fn len(&self) -> usize
        ensures value { result ≡ length self.now.entries }
        ensures valid { IsCache K.eq self.now }
    {
        self.cache.len()
    }

    /// Whether there are no entries, not even one that is past its deadline.
    pub fn is_empty(&self) -> bool
        ensures { result ≡ nat_eq (length self.now.entries) 0 }
    {
        self.cache.is_empty()
    }

    /// What the entries weigh together, with those that are past their deadline.
    pub fn weight(&self) -> usize
        ensures { result ≡ weight_of self.now.entries }
    {
        self.cache.weight()
    }

    /// What the entries may weigh together.
    pub fn most_weight(&self) -> usize
        ensures { result ≡ self.now.most_weight }
    {
        self.cache.most_weight()
    }

    /// How many entries there may be.
    pub fn most_entries(&self) -> usize
        ensures { result ≡ self.now.most_entries }
    {
        self.cache.most_entries()
    }

    /// Whether a key has an entry that is not past its deadline.
    pub fn contains(&self, time: u64, key: &K) -> bool
        ensures { result ≡ is_some (living K.eq time self.now.entries key.now) }
    {
        self.contains_by(time, key)
    }

    /// The value of a key, unless it is past its deadline. The key is not used by that.
    pub fn peek(&self, time: u64, key: &K) -> Option<&V>
        ensures { option_copied result ≡ option_map (λ e. e.value.value) (living K.eq time self.now.entries key.now) }
    {
        self.peek_by(time, key)
    }

    /// The deadline of a key's entry, unless it is past.
    pub fn deadline_of(&self, time: u64, key: &K) -> Option<u64>
        ensures { result ≡ option_map (λ e. e.value.deadline) (living K.eq time self.now.entries key.now) }
    {
        self.deadline_by(time, key)
    }

    /// As `contains`, by what stands for the key.
    pub fn contains_by<Q: Query<K>>(&self, time: u64, query: Q) -> bool
        ensures { result ≡ is_some (living Q.stands_for time self.now.entries query) }
    {
        self.find(time, query).is_some()
    }

    /// As `peek`, by what stands for the key.
    pub fn peek_by<Q: Query<K>>(&self, time: u64, query: Q) -> Option<&V>
        ensures { option_copied result ≡ option_map (λ e. e.value.value) (living Q.stands_for time self.now.entries query) }
    {
        let until = self.find(time, query)?;
        Some(&until.value)
    }

    /// As `deadline_of`, by what stands for the key.
    pub fn deadline_by<Q: Query<K>>(&self, time: u64, query: Q) -> Option<u64>
        ensures { result ≡ option_map (λ e. e.value.deadline) (living Q.stands_for time self.now.entries query) }
    {
        let until = self.find(time, query)?;
        Some(until.deadline)
    }

    // What a key's entry holds, unless it is past its deadline.
    fn find<Q: Query<K>>(&self, time: u64, query: Q) -> Option<&Until<V>>
        ensures { option_copied result ≡ option_map (λ e. e.value) (living Q.stands_for time self.now.entries query) }
    {
        self.find_hashed(time, query, self.cache.hash_by(&query))
    }

    // The same, where the query's hash is known.
    #[inline(always)]
    fn find_hashed<Q: Query<K>>(&self, time: u64, query: Q, hash: u64) -> Option<&Until<V>>
        requires { hash ≡ key_hash S.BuildHasher S.Hasher.Hasher Q.hash_input self.now.hashes query }
        ensures { option_copied result ≡ option_map (λ e. e.value) (living Q.stands_for time self.now.entries query) }
    {
        let until = self.cache.peek_hashed(query, hash)?;
        if until.is_past(time) {
            return None;
        }
        Some(until)
    }

    /// The hash of a query as this cache makes it, where a hash of it is known, and what made that: unless that hashes
    /// otherwise than this cache does, the query is not hashed again. The calls by `.._hashed` take it.
    #[inline(always)]
    pub fn hash_as<Q: Hash>(&self, query: &Q, hash: u64, hashes: &S) -> u64
    where
        S: SameHashes,
        requires { hash ≡ key_hash S.BuildHasher S.Hasher.Hasher Q.hash_input hashes.now query.now }
        ensures { result ≡ key_hash S.BuildHasher S.Hasher.Hasher Q.hash_input self.now.hashes query.now }
    {
        self.cache.hash_as(query, hash, hashes)
    }

    /// `contains_by`, where the query's hash is known.
    #[inline(always)]
    pub fn contains_hashed<Q: Query<K>>(&self, time: u64, query: Q, hash: u64) -> bool
        requires { hash ≡ key_hash S.BuildHasher S.Hasher.Hasher Q.hash_input self.now.hashes query }
        ensures { result ≡ is_some (living Q.stands_for time self.now.entries query) }
    {
        self.find_hashed(time, query, hash).is_some()
    }

    /// `peek_by`, where the query's hash is known.
    #[inline(always)]
    pub fn peek_hashed<Q: Query<K>>(&self, time: u64, query: Q, hash: u64) -> Option<&V>
        requires { hash ≡ key_hash S.BuildHasher S.Hasher.Hasher Q.hash_input self.now.hashes query }
        ensures { option_copied result ≡ option_map (λ e. e.value.value) (living Q.stands_for time self.now.entries query) }
    {
        let until = self.find_hashed(time, query, hash)?;
        Some(&until.value)
    }

    /// Uses a key, by what stands for it and a hash that is known, lends its value and its deadline to `update` with its
    /// weight, and answers what `update` does, which may change both. Its weight stays. A key without an entry, and one
    /// whose entry is past its deadline, is answered by `None`: nothing is called, and the entry stays where it is.
    #[inline(always)]
    pub fn update_hashed<Q: Query<K>, R, U: FnOnce(&mut Until<V>, usize) -> R + Drop>(
        &mut self,
        time: u64,
        query: Q,
        hash: u64,
        update: U,
    ) -> Option<R>
        requires hash { hash ≡ key_hash S.BuildHasher S.Hasher.Hasher Q.hash_input self.old.hashes query }
        requires update { U.IsAlwaysCallable update }
        ensures { UpdatesIfLiving Q.stands_for (U.post update) time self.old query result self.new }
    {
        if !self.contains_hashed(time, query, hash) {
            return None;
        }
        self.cache.update_hashed(query, hash, update)
    }

    /// The keys, most recent first, with those whose entries are past their deadline.
    pub fn keys(&self) -> PairsKeys<'_, K, Until<V>>
        ensures { result ≡ map (λ e. e.key) self.now.entries }
    {
        self.cache.keys()
    }

    /// Puts a key's entry last, so that it is the next to go, also where it is past its deadline. It answers whether there
    /// is one.
    pub fn demote(&mut self, key: &K) -> bool
        ensures answer { result ≡ is_some (entry_of K.eq self.old.entries key.now) }
        ensures entries { self.new ≡ with_entries self.old (demoted K.eq self.old.entries key.now) }
    {
        self.cache.demote(key)
    }

    /// The key, the value with its deadline, and the weight of each entry, most recent first, with those that are past their
    /// deadline. None is used by that.
    pub fn iter(&self) -> PairsEntries<'_, K, Until<V>>
        ensures { result ≡ map parts_of self.now.entries }
    {
        self.cache.iter()
    }
}

impl<K: Hash + Drop, V: Drop, S: BuildHasher> DeadlineCache<K, V, S> {
    /// Uses a key: its entry goes first. It answers whether there is one.
    ///
    /// # Errors
    ///
    /// The entry is past its deadline. It is taken out, and handed over.
    pub fn promote(&mut self, time: u64, key: &K) -> Result<bool, Entry<K, Until<V>>>
        ensures { PromotesLiving K.eq time self.old key.now result self.new }
    {
        self.promote_by(time, key)
    }

    /// As `promote`, by what stands for the key.
    ///
    /// # Errors
    ///
    /// As for `promote`.
    pub fn promote_by<Q: Query<K>>(
        &mut self,
        time: u64,
        query: Q,
    ) -> Result<bool, Entry<K, Until<V>>>
        ensures { PromotesLiving Q.stands_for time self.old query result self.new }
    {
        match self.take_past(time, query) {
            Some(past) => Err(past),
            None => Ok(self.cache.promote_by(query)),
        }
    }

    /// Uses a key, lends its value and its deadline to `update` with its weight, and answers what `update` does, which may
    /// change both. Its weight stays. A key without an entry is answered by `None`, and nothing is called.
    ///
    /// # Errors
    ///
    /// The entry is past its deadline. It is taken out, and handed over, and nothing is called.
    pub fn update<R, U: FnOnce(&mut Until<V>, usize) -> R + Drop>(
        &mut self,
        time: u64,
        key: &K,
        update: U,
    ) -> Result<Option<R>, Entry<K, Until<V>>>
        requires { U.IsAlwaysCallable update }
        ensures { UpdatesLiving K.eq (U.post update) time self.old key.now result self.new }
    {
        self.update_by(time, key, update)
    }

    /// As `update`, by what stands for the key.
    ///
    /// # Errors
    ///
    /// As for `update`.
    pub fn update_by<Q: Query<K>, R, U: FnOnce(&mut Until<V>, usize) -> R + Drop>(
        &mut self,
        time: u64,
        query: Q,
        update: U,
    ) -> Result<Option<R>, Entry<K, Until<V>>>
        requires { U.IsAlwaysCallable update }
        ensures { UpdatesLiving Q.stands_for (U.post update) time self.old query result self.new }
    {
        match self.take_past(time, query) {
            Some(past) => Err(past),
            None => Ok(self.cache.update_by(query, update)),
        }
    }
}
