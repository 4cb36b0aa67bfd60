//! A cache of one owner in shards: what a shared cache is behind its locks.
ghost use Rattle.std.specs.Prelude.{◌≡◌, ◌<◌, ◌≤◌, ◌/◌, is_some, length, replicate, IfOk};
ghost use Rattle.lru_index.specs.Hashing.{key_hash, seeded, unseeded};
ghost use Rattle.lru_owned_cache.specs.Cache.{hashes_from, entry_of};
ghost use Rattle.lru_owned_cache.specs.Entries.{weight_of};
ghost use Rattle.lru_shared_cache.specs.Shards.{home, Sees, Owns, OwnsEach};
ghost use Rattle.lru_shared_cache.specs.Turns.{InTurn, EachInTurn, GoesOn};
ghost use Rattle.lru_shared_cache.specs.Calls.{ShowsEntry, VisitsEach, VisitsEachTo, Gets, Lends, RetainsShard, GetsOrPuts};
ghost use Rattle.lru_shared_cache.specs.Counting.{Takes, PopsShard, ClearsShard, ClearsShardTo, DrainsShard, DrainsShardTo, LimitsShard, LimitsShardTo, PutsCounted};
ghost use Rattle.lru_shared_cache.specs.Counts.{total};
ghost use Rattle.lru_shared_cache.specs.Sharded.{empty_shard, empty_shards};
ghost use Rattle.lru_shared_cache.specs.Popping.{PopsAmong, PopsRound};

use crate::calls::NotGot;
use crate::counts::{Counted, Counts, shard_stats, total};
use crate::limits::Limits;
use crate::one::Shard;
use crate::shards::Owned;
use crate::{calls, turns};
use lru_index::alike::SameHashes;
use lru_index::hashing::SeededHashes;
use lru_index::keys::Query;
use lru_owned_cache::cache::{Cache, Entry, Refused};
use std::alloc::{AllocError, Global};
use std::fmt;
use std::fmt::{Debug, Formatter};
use std::hash::{BuildHasher, Hash};
use std::marker::Model;

/// A cache of keys and values in N shards of one owner, each a `Cache` of its own.
///
/// A key's shard is told by its hash: the low 32 bits of that modulo N. A call on a key does to the cache of its shard what
/// that cache's call does, and leaves the others. Each shard has a part of the limits, `most_weight / N` and
/// `most_entries / N`. What its calls met is counted beside each shard. It is what a `SharedCache` is behind its locks, whose
/// calls are the same.
#[derive(Drop)]
pub struct ShardedCache<K: Hash, V, const N: usize, S: BuildHasher = SeededHashes> {
    shards: Owned<Counted<Cache<K, V, S>>>,
    hash_builder: S,
}

impl<K: Hash, V, const N: usize, S: BuildHasher> Model for ShardedCache<K, V, N, S> {
    ghost use Rattle.lru_shared_cache.specs.Sharded.{Sharded, sharded, sharded_code, AreSome};

    ghost Value = { Sharded K V S };

    ghost coded = { sharded_code K.code V.code S.code };

    ghost view = { λ c. sharded c.shards.shards.items c.hash_builder };

    ghost invariant = { λ c. AreSome N c.shards.shards.items };
}

/// Tells how many shards there are.
impl<K: Hash, V, const N: usize, S: BuildHasher> Debug for ShardedCache<K, V, N, S> {
    fn fmt<W: fmt::Write>(&self, f: &mut Formatter<W>) -> fmt::Result {
        f.debug_struct("ShardedCache")
            .field("shards", &N)
            .finish_non_exhaustive()
    }
}

// Shards without entries, each under its part of the limits.
pub(crate) fn empty_shards<K: Hash + Drop, V: Drop, S: BuildHasher + Copy + Drop>(
    alloc: Global,
    most_weight: usize,
    most_entries: usize,
    shards: usize,
    hash_builder: S,
) -> Result<Vec<Shard<K, V, S>>, AllocError>
    requires { 0 < shards }
    ensures { IfOk result (λ made. made.items ≡ replicate shards (empty_shard hash_builder (most_weight / shards) (most_entries / shards))) }
{
    let (most_weight, most_entries) = (most_weight / shards, most_entries / shards);
    let mut made = Vec::with_capacity(alloc, shards)?;
    for _ in 0..shards {
        let cache = Cache::with_hasher(alloc, most_weight, most_entries, hash_builder)?;
        let counts = Counts::none();
        made.push(Counted { cache, counts })?;
    }
    Ok(made)
}

impl<K: Hash + Drop, V: Drop, const N: usize> ShardedCache<K, V, N, SeededHashes> {
    /// A cache of no entries, of at most `most_entries`, which may weigh `most_weight` together, each limit divided among
    /// the shards. The seed of the hashes stays the same from run to run.
    ///
    /// # Errors
    ///
    /// There is no memory.
    pub fn new(alloc: Global, most_weight: usize, most_entries: usize) -> Result<Self, AllocError>
        requires { 0 < N }
        ensures { IfOk result (λ cache. cache ≡ empty_shards N (hashes_from unseeded) (most_weight / N) (most_entries / N)) }
    {
        ShardedCache::with_hasher(alloc, most_weight, most_entries, SeededHashes::fixed())
    }

    /// A cache as `new` makes it, under limits that are told by name.
    ///
    /// # Errors
    ///
    /// There is no memory.
    pub fn with_limits(alloc: Global, limits: Limits) -> Result<Self, AllocError>
        requires { 0 < N }
        ensures { IfOk result (λ cache. cache ≡ empty_shards N (hashes_from unseeded) (limits.weight / N) (limits.entries / N)) }
    {
        ShardedCache::new(alloc, limits.weight, limits.entries)
    }

    /// A cache as `new` makes it, with a seed for the hashes: who picks the keys and does not know it can't pick keys that
    /// collide.
    ///
    /// # Errors
    ///
    /// There is no memory.
    pub fn with_seed(
        alloc: Global,
        most_weight: usize,
        most_entries: usize,
        seed: u64,
    ) -> Result<Self, AllocError>
        requires { 0 < N }
        ensures { IfOk result (λ cache. cache ≡ empty_shards N (hashes_from (seeded seed)) (most_weight / N) (most_entries / N)) }
    {
        let hash_builder = SeededHashes::with_seed(seed);
        ShardedCache::with_hasher(alloc, most_weight, most_entries, hash_builder)
    }
}

impl<K: Hash + Drop, V: Drop, const N: usize, S: BuildHasher + Copy + Drop> ShardedCache<
    K,
    V,
    N,
    S,
> {
    /// A cache as `new` makes it, over hashers of the caller's.
    ///
    /// # Errors
    ///
    /// There is no memory.
    pub fn with_hasher(
        alloc: Global,
        most_weight: usize,
        most_entries: usize,
        hash_builder: S,
    ) -> Result<Self, AllocError>
        requires { 0 < N }
        ensures { IfOk result (λ cache. cache ≡ empty_shards N hash_builder (most_weight / N) (most_entries / N)) }
    {
        let shards = empty_shards(alloc, most_weight, most_entries, N, hash_builder)?;
        Ok(ShardedCache {
            shards: Owned { shards },
            hash_builder,
        })
    }
}

impl<K: Hash, V, const N: usize, S: BuildHasher> ShardedCache<K, V, N, S> {
    /// The number of shards, N.
    pub fn shards(&self) -> usize
        ensures value { result ≡ N }
        ensures some { 0 < N }
        ensures many { length self.now.shards ≡ N }
    {
        self.shards.shards.len()
    }

    /// How many entries a shard has.
    pub fn shard_len(&self, shard: usize) -> usize
        requires { shard < N }
        ensures { Sees self.now.shards shard (λ shard. result ≡ length shard.cache.entries) }
    {
        calls::shard_len(&self.shards, shard)
    }

    /// What the entries of a shard weigh together.
    pub fn shard_weight(&self, shard: usize) -> usize
        requires { shard < N }
        ensures { Sees self.now.shards shard (λ shard. result ≡ weight_of shard.cache.entries) }
    {
        calls::shard_weight(&self.shards, shard)
    }

    /// What the calls on a shard met, since the cache was made.
    pub fn shard_stats(&self, shard: usize) -> Counts
        requires { shard < N }
        ensures { Sees self.now.shards shard (λ shard. result ≡ shard.counts) }
    {
        shard_stats(&self.shards, shard)
    }

    /// What the calls met, since the cache was made: the sum over the shards.
    pub fn stats(&self) -> Counts
        ensures { result ≡ total self.now.shards }
    {
        total(&self.shards.shards)
    }

    /// Calls a closure with the key, the value and the weight of each entry of a shard, most recent first. None is used by
    /// that.
    pub fn iter_for_each<F: FnMut((&K, &V, usize))>(&self, shard: usize, visit: F)
        requires shard { shard < N }
        requires visit { F.IsAlwaysCallable visit }
        ensures { Sees self.now.shards shard (λ shard. VisitsEach (λ p x q. F.step p x tt q) visit shard.cache.entries) }
    {
        calls::visit_each(&self.shards, shard, visit);
    }

    /// Calls a closure with the key, the value and the weight of each entry of all shards, of shard 0 first, in each most
    /// recent first. None is used by that.
    pub fn for_each<F: FnMut((&K, &V, usize))>(&self, visit: F)
        requires { F.IsAlwaysCallable visit }
        ensures { (left : F) × GoesOn (λ i v u. Sees self.now.shards i (λ shard. VisitsEachTo (λ p x q. F.step p x tt q) v shard.cache.entries u)) N visit left }
    {
        turns::visit_all(&self.shards, visit);
    }
}

impl<K: Hash, V, const N: usize, S: BuildHasher + SameHashes> ShardedCache<K, V, N, S> {
    /// Whether a key has an entry, or what stands for the key: a reference to it, or a `&str` where keys are texts.
    pub fn contains<Q: Query<K>>(&self, query: Q) -> bool
        ensures { Sees self.now.shards (home N (key_hash S.BuildHasher S.Hasher.Hasher Q.hash_input self.now.hashes query))
            (λ shard. result ≡ is_some (entry_of Q.stands_for shard.cache.entries query)) }
    {
        calls::contains(&self.shards, &self.hash_builder, query)
    }

    /// Shows the value of a key to `show`, by what stands for it, and answers what it does. The key is not used by that. One
    /// without an entry is answered by `None`, and nothing is called.
    pub fn peek_with<Q: Query<K>, R, F: FnOnce(&V) -> R>(&self, query: Q, show: F) -> Option<R>
        requires { F.IsAlwaysCallable show }
        ensures { Sees self.now.shards (home N (key_hash S.BuildHasher S.Hasher.Hasher Q.hash_input self.now.hashes query))
            (λ shard. ShowsEntry Q.stands_for (F.post show) shard.cache.entries query result) }
    {
        calls::peek(&self.shards, &self.hash_builder, query, show)
    }

    /// Uses a key, by what stands for it, and answers a clone of its value.
    ///
    /// # Errors
    ///
    /// There is no memory for the clone. The key is used all the same.
    pub fn get<Q: Query<K>>(&mut self, query: Q) -> Result<Option<V>, AllocError>
    where
        V: Clone,
        ensures acts { Owns self.old.shards (home N (key_hash S.BuildHasher S.Hasher.Hasher Q.hash_input self.old.hashes query))
            (λ before after. Gets Q.stands_for V.is_clone before query result after) self.new.shards }
        ensures hashes { self.new.hashes ≡ self.old.hashes }
    {
        calls::get(&mut self.shards, &self.hash_builder, query)
    }

    /// Uses a key, by what stands for it, lends its value to `show` with its weight, and answers what `show` does. Its weight
    /// stays. A key without an entry is answered by `None`, and nothing is called.
    pub fn get_with<Q: Query<K>, R, F: FnOnce(&mut V, usize) -> R + Drop>(
        &mut self,
        query: Q,
        show: F,
    ) -> Option<R>
        requires { F.IsAlwaysCallable show }
        ensures acts { Owns self.old.shards (home N (key_hash S.BuildHasher S.Hasher.Hasher Q.hash_input self.old.hashes query))
            (λ before after. Lends Q.stands_for (F.post show) before query result after) self.new.shards }
        ensures hashes { self.new.hashes ≡ self.old.hashes }
    {
        calls::update(&mut self.shards, &self.hash_builder, query, show)
    }
}

impl<K: Hash + Drop, V: Drop, const N: usize, S: BuildHasher + SameHashes> ShardedCache<
    K,
    V,
    N,
    S,
> {
    /// Puts an entry first in the shard of its key, in place of its key's, and answers that one. Then the entries of that
    /// shard that were used longest ago go, as many as have to for the others to be within the shard's part of the limits,
    /// and each is handed to `visit`.
    ///
    /// # Errors
    ///
    /// As for a `Cache` with the shard's part of the limits. Key and value are handed back, and nothing changes.
    pub fn put<F: FnMut(Entry<K, V>) + Drop>(
        &mut self,
        key: K,
        value: V,
        weight: usize,
        visit: F,
    ) -> Result<Option<Entry<K, V>>, Refused<K, V>>
        requires { F.IsAlwaysCallable visit }
        ensures acts { Owns self.old.shards (home N (key_hash S.BuildHasher S.Hasher.Hasher K.hash_input self.old.hashes key))
            (λ before after. PutsCounted (λ p x q. F.step p x tt q) visit K.eq before key value weight result after) self.new.shards }
        ensures hashes { self.new.hashes ≡ self.old.hashes }
    {
        calls::put(
            &mut self.shards,
            &self.hash_builder,
            key,
            value,
            weight,
            visit,
        )
    }

    /// Takes a key's entry out, by what stands for the key.
    pub fn remove<Q: Query<K>>(&mut self, query: Q) -> Option<Entry<K, V>>
        ensures acts { Owns self.old.shards (home N (key_hash S.BuildHasher S.Hasher.Hasher Q.hash_input self.old.hashes query))
            (λ before after. Takes Q.stands_for before query result after) self.new.shards }
        ensures hashes { self.new.hashes ≡ self.old.hashes }
    {
        calls::remove(&mut self.shards, &self.hash_builder, query)
    }

    /// Uses a key, and answers a clone of its value; or, where it has none, puts an entry of what `make` makes, value and
    /// weight, as `put` does, and answers a clone of that value.
    ///
    /// # Errors
    ///
    /// No value was made, or the entry was refused, or there is no memory. What is not put is handed back, and no entry
    /// changes.
    pub fn get_or_put_with<E: Drop, M, F>(
        &mut self,
        key: K,
        make: M,
        visit: F,
    ) -> Result<V, NotGot<K, V, E>>
    where
        V: Clone,
        M: FnOnce() -> Result<(V, usize), E> + Drop,
        F: FnMut(Entry<K, V>) + Drop,
        requires make { M.IsAlwaysCallable make }
        requires visit { F.IsAlwaysCallable visit }
        ensures acts { GetsOrPuts ⊥ K.eq V.is_clone (M.post make) (λ p x q. F.step p x tt q) visit
            (λ s P t. Owns s (home N (key_hash S.BuildHasher S.Hasher.Hasher K.hash_input self.old.hashes key)) P t) key self.old.shards result self.new.shards }
        ensures hashes { self.new.hashes ≡ self.old.hashes }
    {
        calls::get_or_put_with(&mut self.shards, &self.hash_builder, key, make, visit)
    }
}

impl<K: Hash + Drop, V: Drop, const N: usize, S: BuildHasher> ShardedCache<K, V, N, S> {
    /// Lets all entries of a shard go, the one that was used longest ago first, and hands each to `visit`.
    pub fn clear_shard<F: FnMut(Entry<K, V>) + Drop>(&mut self, shard: usize, visit: F)
        requires shard { shard < N }
        requires visit { F.IsAlwaysCallable visit }
        ensures acts { Owns self.old.shards shard (λ before after. ClearsShard (λ p x q. F.step p x tt q) visit before after) self.new.shards }
        ensures hashes { self.new.hashes ≡ self.old.hashes }
    {
        calls::clear(&mut self.shards, shard, visit);
    }

    /// Asks `keep` of each entry of a shard, the one that was used longest ago first, by its key, its value and its weight, and
    /// lets those go for which it answers false. The others stay, in their order.
    pub fn retain_shard<F: FnMut(&K, &V, usize) -> bool + Drop>(&mut self, shard: usize, keep: F)
        requires shard { shard < N }
        requires keep { F.IsAlwaysCallable keep }
        ensures acts { Owns self.old.shards shard (λ before after. RetainsShard (λ p k v w b q. F.step p k v w b q) keep before after) self.new.shards }
        ensures hashes { self.new.hashes ≡ self.old.hashes }
    {
        calls::retain(&mut self.shards, shard, keep);
    }

    /// Takes the entry of a shard out that was used longest ago there.
    pub fn pop_last_of(&mut self, shard: usize) -> Option<Entry<K, V>>
        requires { shard < N }
        ensures acts { Owns self.old.shards shard (λ before after. PopsShard before result after) self.new.shards }
        ensures hashes { self.new.hashes ≡ self.old.hashes }
    {
        calls::pop_last(&mut self.shards, shard)
    }

    // Takes the last entry out of the first of these shards that has one.
    fn pop_last_among(&mut self, first: usize, end: usize) -> Option<Entry<K, V>>
        requires { end ≤ N }
        ensures pops { PopsAmong first end self.old.shards result self.new.shards }
        ensures hashes { self.new.hashes ≡ self.old.hashes }
    {
        for shard in first..end {
            if let Some(gone) = self.pop_last_of(shard) {
                return Some(gone);
            }
        }
        None
    }

    /// Takes an entry out: of the shards from `from` on, and then round from shard 0, the first that has entries gives the one
    /// that was used longest ago there. Who hands in the next number each time takes from each shard in turn.
    pub fn pop_last(&mut self, from: usize) -> Option<Entry<K, V>>
        requires { from < N }
        ensures pops { PopsRound N from self.old.shards result self.new.shards }
        ensures hashes { self.new.hashes ≡ self.old.hashes }
    {
        match self.pop_last_among(from, N) {
            Some(gone) => Some(gone),
            None => self.pop_last_among(0, from),
        }
    }

    /// Lets all entries of a shard go, the one that was used last first, and hands each to `visit`.
    pub fn drain_shard<F: FnMut(Entry<K, V>) + Drop>(&mut self, shard: usize, visit: F)
        requires shard { shard < N }
        requires visit { F.IsAlwaysCallable visit }
        ensures acts { Owns self.old.shards shard (λ before after. DrainsShard (λ p x q. F.step p x tt q) visit before after) self.new.shards }
        ensures hashes { self.new.hashes ≡ self.old.hashes }
    {
        calls::drain(&mut self.shards, shard, visit);
    }

    /// Gives a shard other limits, as `Limits::part` tells its part of those of the whole. Then its entries that were used
    /// longest ago go, as many as have to, and each is handed to `visit`.
    pub fn set_shard_limits<F: FnMut(Entry<K, V>) + Drop>(
        &mut self,
        shard: usize,
        limits: Limits,
        visit: F,
    )
        requires shard { shard < N }
        requires visit { F.IsAlwaysCallable visit }
        ensures acts { Owns self.old.shards shard (λ before after. LimitsShard (λ p x q. F.step p x tt q) visit limits.weight limits.entries before after) self.new.shards }
        ensures hashes { self.new.hashes ≡ self.old.hashes }
    {
        calls::set_limits(&mut self.shards, shard, limits, visit);
    }

    /// Lets all entries go, of shard 0 first, in each shard the one that was used longest ago first, and hands each to `visit`.
    pub fn clear<F: FnMut(Entry<K, V>) + Drop>(&mut self, visit: F)
        requires { F.IsAlwaysCallable visit }
        ensures acts { (left : F) × InTurn (λ s i P t. Owns s i P t) (λ v a u b. ClearsShardTo (λ p x q. F.step p x tt q) v a u b) N self.old.shards visit left self.new.shards }
        ensures hashes { self.new.hashes ≡ self.old.hashes }
    {
        turns::clear_all(&mut self.shards, visit);
    }

    /// Lets all entries go, of shard 0 first, in each shard the one that was used last first, and hands each to `visit`.
    pub fn drain<F: FnMut(Entry<K, V>) + Drop>(&mut self, visit: F)
        requires { F.IsAlwaysCallable visit }
        ensures acts { (left : F) × InTurn (λ s i P t. Owns s i P t) (λ v a u b. DrainsShardTo (λ p x q. F.step p x tt q) v a u b) N self.old.shards visit left self.new.shards }
        ensures hashes { self.new.hashes ≡ self.old.hashes }
    {
        turns::drain_all(&mut self.shards, visit);
    }

    /// Asks `keep` of each entry, of shard 0 first, in each shard the one that was used longest ago first, by its key, its value
    /// and its weight, and lets those go for which it answers false. The others stay, in their order.
    pub fn retain<F: Fn(&K, &V, usize) -> bool>(&mut self, keep: F)
        requires { F.IsAlwaysCallable keep }
        ensures acts { EachInTurn (λ s i P t. Owns s i P t) (λ before after. RetainsShard (λ p k v w b q. F.step p k v w b q) keep before after) N self.old.shards self.new.shards }
        ensures hashes { self.new.hashes ≡ self.old.hashes }
    {
        turns::retain_all(&mut self.shards, keep);
    }

    /// Gives the cache other limits, and each shard its part of them, `limits.weight / N` and `limits.entries / N`. Then, of
    /// shard 0 first, the entries that were used longest ago go, as many as have to, and each is handed to `visit`.
    pub fn set_limits<F: FnMut(Entry<K, V>) + Drop>(&mut self, limits: Limits, visit: F)
        requires { F.IsAlwaysCallable visit }
        ensures acts { (left : F) × InTurn (λ s i P t. Owns s i P t) (λ v a u b. LimitsShardTo (λ p x q. F.step p x tt q) v (limits.weight / N) (limits.entries / N) a u b) N self.old.shards visit left self.new.shards }
        ensures hashes { self.new.hashes ≡ self.old.hashes }
    {
        turns::set_all_limits(&mut self.shards, limits, visit);
    }
}
