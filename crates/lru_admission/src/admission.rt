//! A cache of one owner that asks, before it lets a new entry in.
ghost use Rattle.std.specs.Prelude.{◌≡◌, ◌-◌, ◌<◌, ◌≤◌, is_some, IfOk};
ghost use Rattle.lru_index.specs.Hashing.{key_hash, seeded, unseeded};
ghost use Rattle.lru_owned_cache.specs.Cache.{empty, hashes_from, entry_of, without, used, with_entries, UpdatesEntry, PopsLast, Limits, Clears};
ghost use Rattle.lru_admission.specs.Sketch.{estimate, counted, fresh};
ghost use Rattle.lru_admission.specs.Admission.{watched, AsksVictims, MayEnter, PutsIfAsked};

use crate::sketch::Sketch;
use lru_index::hashing::SeededHashes;
use lru_owned_cache::cache::{Cache, Entry, Refused};
use std::alloc::{AllocError, Global};
use std::hash::{BuildHasher, Hash};
use std::marker::Model;

/// Why an entry was not put. Key and value are handed back.
#[derive(Debug, Drop)]
pub enum NotAdmitted<K, V> {
    /// An entry that would have had to go was used as often as the key, or more often, as far as is known.
    Rarer(K, V),
    /// The cache refused the entry.
    Refused(Refused<K, V>),
}

// Whether each entry that goes, for the others to be within limits, was used less often than `count`.
fn outdoes<K: Hash, V, S: BuildHasher>(
    cache: &Cache<K, V, S>,
    sketch: &Sketch,
    count: u8,
    most_weight: usize,
    most_entries: usize,
) -> bool
    ensures { AsksVictims (key_hash S.BuildHasher S.Hasher.Hasher K.hash_input cache.now.hashes) sketch.now cache.now.entries count most_weight most_entries result }
{
    let mut left = cache.iter();
    let (mut weight, mut entries) = (cache.weight(), cache.len());
    'victims: while weight > most_weight || entries > most_entries {
        let Some((key, _, freed)) = left.next_back() else {
            unreachable!()
        };
        if sketch.estimate(cache.hash_of(key)) >= count {
            return false;
        }
        weight -= freed;
        entries -= 1;
    }
    true
}

// Whether a put of this weight has nothing to ask, or the key was used more often than each entry that goes for it.
fn may_enter<K: Hash, V, S: BuildHasher>(
    cache: &Cache<K, V, S>,
    sketch: &Sketch,
    key: &K,
    weight: usize,
    hash: u64,
) -> bool
    requires { hash ≡ key_hash S.BuildHasher S.Hasher.Hasher K.hash_input cache.now.hashes key.now }
    ensures { MayEnter K.eq (key_hash S.BuildHasher S.Hasher.Hasher K.hash_input cache.now.hashes) (watched cache.now sketch.now) key.now weight result }
{
    let (most_weight, most_entries) = (cache.most_weight(), cache.most_entries());
    if weight > most_weight || most_entries == 0 || cache.contains_hashed(key, hash) {
        return true;
    }
    let count = sketch.estimate(hash);
    outdoes(cache, sketch, count, most_weight - weight, most_entries - 1)
}

/// A cache of keys and values under two limits, as a `Cache` is, that counts how often each key is used, and lets a new
/// entry in only where its key was used more often than each of those that would have to go for it.
///
/// A use is a call that uses a key, whether or not it has an entry: so a program asks for a key first, by `promote` or
/// `update`, and puts it where it has none. Uses are counted in a `Sketch`, by the hashes of the cache: of keys that it mixes
/// up, it takes both for more used than they are. A put of a key that has an entry asks nothing, and neither does one for
/// which nothing has to go.
#[derive(Drop)]
pub struct AskingCache<K: Hash, V, S: BuildHasher = SeededHashes> {
    cache: Cache<K, V, S>,
    sketch: Sketch,
}

impl<K: Hash, V, S: BuildHasher> Model for AskingCache<K, V, S> {
    ghost use Rattle.lru_admission.specs.Admission.{Watched, watched, watched_code};

    ghost Value = { Watched K V S };

    ghost coded = { watched_code K.code V.code S.code };

    ghost view = { λ a. watched a.cache a.sketch };
}

impl<K: Hash + Drop, V: Drop> AskingCache<K, V, SeededHashes> {
    /// A cache of no entries, of at most `most_entries`, which may weigh `most_weight` together. Uses are counted as for
    /// `counted` entries, in as many bytes: it should be as many as the cache is likely to hold. The seed of the hashes stays
    /// the same from run to run.
    ///
    /// # Errors
    ///
    /// There is no memory.
    pub fn new(
        alloc: Global,
        most_weight: usize,
        most_entries: usize,
        counted: usize,
    ) -> Result<Self, AllocError>
        ensures { IfOk result (λ cache. cache ≡ watched (empty (hashes_from unseeded) most_weight most_entries) (fresh counted)) }
    {
        Ok(AskingCache {
            cache: Cache::new(alloc, most_weight, most_entries)?,
            sketch: Sketch::new(alloc, counted)?,
        })
    }

    /// A cache as `new` makes it, with a seed for the hashes: who picks the keys and does not know it can't pick keys that
    /// collide, in the cache or in the sketch.
    ///
    /// # Errors
    ///
    /// There is no memory.
    pub fn with_seed(
        alloc: Global,
        most_weight: usize,
        most_entries: usize,
        counted: usize,
        seed: u64,
    ) -> Result<Self, AllocError>
        ensures { IfOk result (λ cache. cache ≡ watched (empty (hashes_from (seeded seed)) most_weight most_entries) (fresh counted)) }
    {
        Ok(AskingCache {
            cache: Cache::with_seed(alloc, most_weight, most_entries, seed)?,
            sketch: Sketch::new(alloc, counted)?,
        })
    }
}

impl<K: Hash + Drop, V: Drop, S: BuildHasher + Drop> AskingCache<K, V, S> {
    /// A cache as `new` makes it, over hashers of the caller's.
    ///
    /// # Errors
    ///
    /// There is no memory.
    pub fn with_hasher(
        alloc: Global,
        most_weight: usize,
        most_entries: usize,
        counted: usize,
        hash_builder: S,
    ) -> Result<Self, AllocError>
        ensures { IfOk result (λ cache. cache ≡ watched (empty hash_builder most_weight most_entries) (fresh counted)) }
    {
        Ok(AskingCache {
            cache: Cache::with_hasher(alloc, most_weight, most_entries, hash_builder)?,
            sketch: Sketch::new(alloc, counted)?,
        })
    }
}

impl<K: Hash, V, S: BuildHasher> AskingCache<K, V, S> {
    /// The cache, for every call that changes nothing.
    pub fn cache(&self) -> &Cache<K, V, S>
        ensures { result.now ≡ self.now.cache }
    {
        &self.cache
    }

    /// How often a key was used, as far as is known: from 0 to 15.
    pub fn estimate(&self, key: &K) -> u8
        ensures estimate { result ≡ estimate self.now.sketch (key_hash S.BuildHasher S.Hasher.Hasher K.hash_input self.now.cache.hashes key.now) }
        ensures small { result < 16 }
    {
        self.sketch.estimate(self.cache.hash_of(key))
    }

    /// Uses a key, which is counted, and puts its entry first. It answers whether there is one.
    pub fn promote(&mut self, key: &K) -> bool
        ensures answer { result ≡ is_some (entry_of K.eq self.old.cache.entries key.now) }
        ensures cache { self.new.cache ≡ with_entries self.old.cache (used K.eq self.old.cache.entries key.now) }
        ensures sketch { self.new.sketch ≡ counted self.old.sketch (key_hash S.BuildHasher S.Hasher.Hasher K.hash_input self.old.cache.hashes key.now) }
    {
        self.sketch.count(self.cache.hash_of(key));
        self.cache.promote(key)
    }

    /// Uses a key, which is counted, lends its value to `update` with its weight, and answers what `update` does. Its weight
    /// stays. A key without an entry is answered by `None`, and nothing is called.
    pub fn update<R, U: FnOnce(&mut V, usize) -> R + Drop>(
        &mut self,
        key: &K,
        update: U,
    ) -> Option<R>
        requires { U.IsAlwaysCallable update }
        ensures cache { UpdatesEntry K.eq (U.post update) self.old.cache key.now result self.new.cache }
        ensures sketch { self.new.sketch ≡ counted self.old.sketch (key_hash S.BuildHasher S.Hasher.Hasher K.hash_input self.old.cache.hashes key.now) }
    {
        let hash = self.cache.hash_of(key);
        self.sketch.count(hash);
        self.cache.update_hashed(key, hash, update)
    }
}

impl<K: Hash + Drop, V: Drop, S: BuildHasher> AskingCache<K, V, S> {
    /// Puts an entry first, in place of its key's, and answers that one. Then the entries that were used longest ago go,
    /// as many as have to for the others to be within the limits, and each is handed to `visit`. The put is no use of the key.
    ///
    /// # Errors
    ///
    /// The key has no entry, and was not used more often than each entry that would have to go, as far as is known; or the
    /// cache refused the entry, as `put` of a `Cache` does. Key and value are handed back, and nothing changes.
    pub fn put<F: FnMut(Entry<K, V>) + Drop>(
        &mut self,
        key: K,
        value: V,
        weight: usize,
        visit: F,
    ) -> Result<Option<Entry<K, V>>, NotAdmitted<K, V>>
        requires { F.IsAlwaysCallable visit }
        ensures { PutsIfAsked K.eq (key_hash S.BuildHasher S.Hasher.Hasher K.hash_input self.old.cache.hashes) (λ p x q. F.step p x tt q) visit self.old key value weight result self.new }
    {
        let hash = self.cache.hash_of(&key);
        if !may_enter(&self.cache, &self.sketch, &key, weight, hash) {
            return Err(NotAdmitted::Rarer(key, value));
        }
        match self.cache.put_hashed(key, value, weight, hash, visit) {
            Ok(was) => Ok(was),
            Err(refused) => Err(NotAdmitted::Refused(refused)),
        }
    }

    /// Takes a key's entry out. Its uses stay counted.
    pub fn remove(&mut self, key: &K) -> Option<Entry<K, V>>
        ensures answer { result ≡ entry_of K.eq self.old.cache.entries key.now }
        ensures cache { self.new.cache ≡ with_entries self.old.cache (without K.eq self.old.cache.entries key.now) }
        ensures sketch { self.new.sketch ≡ self.old.sketch }
    {
        self.cache.remove(key)
    }

    /// Takes the entry out that was used longest ago. Its uses stay counted.
    pub fn pop_last(&mut self) -> Option<Entry<K, V>>
        ensures cache { PopsLast self.old.cache result self.new.cache }
        ensures sketch { self.new.sketch ≡ self.old.sketch }
    {
        self.cache.pop_last()
    }

    /// Gives the cache other limits. Then the entries that were used longest ago go, as many as have to, and each is
    /// handed to `visit`. Uses are counted as before.
    pub fn set_limits<F: FnMut(Entry<K, V>) + Drop>(
        &mut self,
        most_weight: usize,
        most_entries: usize,
        visit: F,
    )
        requires { F.IsAlwaysCallable visit }
        ensures cache { Limits (λ p x q. F.step p x tt q) visit self.old.cache most_weight most_entries self.new.cache }
        ensures sketch { self.new.sketch ≡ self.old.sketch }
    {
        self.cache.set_limits(most_weight, most_entries, visit);
    }

    /// Lets all entries go, the one that was used longest ago first, and hands each to `visit`. The limits stay, and uses
    /// stay counted.
    pub fn clear<F: FnMut(Entry<K, V>) + Drop>(&mut self, visit: F)
        requires { F.IsAlwaysCallable visit }
        ensures cache { Clears (λ p x q. F.step p x tt q) visit self.old.cache self.new.cache }
        ensures sketch { self.new.sketch ≡ self.old.sketch }
    {
        self.cache.clear(visit);
    }
}
