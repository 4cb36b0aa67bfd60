//! A segmented cache of one owner in shards: what a shared one is behind its locks.
ghost use Rattle.std.specs.Prelude.{◌≡◌, ◌<◌, ◌/◌, is_some, length, replicate, vec_len, IfOk};
ghost use Rattle.lru_index.specs.Hashing.{key_hash, seeded, unseeded};
ghost use Rattle.lru_owned_cache.specs.Cache.{hashes_from, entry_of};
ghost use Rattle.lru_owned_cache.specs.Entries.{weight_of};
ghost use Rattle.lru_segmented.specs.Segmented.{entries};
ghost use Rattle.lru_shared_cache.specs.Shards.{home, Sees, Owns};
ghost use Rattle.lru_shared_cache.specs.Calls.{ShowsEntry, VisitsEach};
ghost use Rattle.lru_shared_cache.specs.Counts.{total};
ghost use Rattle.lru_shared_segmented.specs.Calls.{Gets, Lends, Takes, PopsShard, ClearsShard, LimitsShard, PutsCounted};
ghost use Rattle.lru_shared_segmented.specs.Making.{GetsOrPuts};
ghost use Rattle.lru_shared_segmented.specs.Sharded.{empty_shard, empty_shards};

use crate::calls;
use crate::one::SegmentedShard;
use lru_index::alike::SameHashes;
use lru_index::hashing::SeededHashes;
use lru_index::keys::Query;
use lru_owned_cache::cache::{Entry, Refused};
use lru_segmented::segmented::SegmentedCache;
use lru_shared_cache::counts::{Counted, Counts, shard_stats, total};
use lru_shared_cache::limits::Limits;
use lru_shared_cache::shards::Owned;
use lru_shared_cache::shared::NotGot;
use std::alloc::{AllocError, Global};
use std::fmt;
use std::fmt::{Debug, Formatter};
use std::hash::{BuildHasher, Hash};
use std::marker::Model;

/// A cache of keys and values in N shards of one owner, each a `SegmentedCache` of its own.
///
/// A key's shard is told by its hash: the low 32 bits of that modulo N. A call on a key does to the cache of its shard what
/// that cache's call does, and leaves the others. Each shard has a part of the limits, `weight / N` and `entries / N`, and of
/// the share of the upper segment, `protected / N`; where that is 0, no shard has an upper segment. What its calls met is
/// counted beside each shard. It is what a `SharedSegmentedCache` is behind its locks, whose calls are the same.
#[derive(Drop)]
pub struct ShardedSegmentedCache<K: Hash, V, const N: usize, S: BuildHasher = SeededHashes> {
    shards: Owned<Counted<SegmentedCache<K, V, S>>>,
    hash_builder: S,
}

impl<K: Hash, V, const N: usize, S: BuildHasher> Model for ShardedSegmentedCache<K, V, N, S> {
    ghost use Rattle.lru_shared_cache.specs.Sharded.{AreSome};
    ghost use Rattle.lru_shared_segmented.specs.Sharded.{Sharded, sharded, sharded_code};

    ghost Value = { Sharded K V S };

    ghost coded = { sharded_code K.code V.code S.code };

    ghost view = { λ c. sharded c.shards.shards.items c.hash_builder };

    ghost invariant = { λ c. AreSome N c.shards.shards.items };
}

/// Tells how many shards there are.
impl<K: Hash, V, const N: usize, S: BuildHasher> Debug for ShardedSegmentedCache<K, V, N, S> {
    fn fmt<W: fmt::Write>(&self, f: &mut Formatter<W>) -> fmt::Result {
        f.debug_struct("ShardedSegmentedCache")
            .field("shards", &N)
            .finish_non_exhaustive()
    }
}

// Shards without entries, each under its part of the limits and of the share.
pub(crate) fn empty_shards<K: Hash + Drop, V: Drop, S: BuildHasher + Copy + Drop>(
    alloc: Global,
    limits: Limits,
    protected: usize,
    shards: usize,
    hash_builder: S,
) -> Result<Vec<SegmentedShard<K, V, S>>, AllocError>
    requires { 0 < shards }
    ensures many { IfOk result (λ made. vec_len made ≡ shards) }
    ensures empty { IfOk result (λ made. made.items ≡ replicate shards (empty_shard hash_builder (limits.weight / shards) (limits.entries / shards) (protected / shards))) }
{
    let (weight, entries) = (limits.weight / shards, limits.entries / shards);
    let protected = protected / shards;
    let mut made = Vec::with_capacity(alloc, shards)?;
    for _ in 0..shards {
        let cache = SegmentedCache::with_protected_and_hasher(
            alloc,
            weight,
            entries,
            protected,
            hash_builder,
        )?;
        let counts = Counts::none();
        made.push(Counted { cache, counts })?;
    }
    Ok(made)
}

impl<K: Hash + Drop, V: Drop, const N: usize> ShardedSegmentedCache<K, V, N, SeededHashes> {
    /// A cache of no entries, under limits that are divided among the shards, and so is what the entries of the upper segments
    /// may weigh together, `protected`. The seed of the hashes stays the same from run to run.
    ///
    /// # Errors
    ///
    /// There is no memory.
    pub fn with_protected(
        alloc: Global,
        limits: Limits,
        protected: usize,
    ) -> Result<Self, AllocError>
        requires { 0 < N }
        ensures { IfOk result (λ cache. cache ≡ empty_shards N (hashes_from unseeded) (limits.weight / N) (limits.entries / N) (protected / N)) }
    {
        let hash_builder = SeededHashes::fixed();
        ShardedSegmentedCache::with_protected_and_hasher(alloc, limits, protected, hash_builder)
    }

    /// A cache as `with_protected` makes it, with a seed for the hashes: who picks the keys and does not know it can't pick
    /// keys that collide.
    ///
    /// # Errors
    ///
    /// There is no memory.
    pub fn with_protected_and_seed(
        alloc: Global,
        limits: Limits,
        protected: usize,
        seed: u64,
    ) -> Result<Self, AllocError>
        requires { 0 < N }
        ensures { IfOk result (λ cache. cache ≡ empty_shards N (hashes_from (seeded seed)) (limits.weight / N) (limits.entries / N) (protected / N)) }
    {
        let hash_builder = SeededHashes::with_seed(seed);
        ShardedSegmentedCache::with_protected_and_hasher(alloc, limits, protected, hash_builder)
    }
}

impl<K: Hash + Drop, V: Drop, const N: usize, S: BuildHasher + Copy + Drop> ShardedSegmentedCache<
    K,
    V,
    N,
    S,
> {
    /// A cache as `with_protected` makes it, over hashers of the caller's.
    ///
    /// # Errors
    ///
    /// There is no memory.
    pub fn with_protected_and_hasher(
        alloc: Global,
        limits: Limits,
        protected: usize,
        hash_builder: S,
    ) -> Result<Self, AllocError>
        requires { 0 < N }
        ensures { IfOk result (λ cache. cache ≡ empty_shards N hash_builder (limits.weight / N) (limits.entries / N) (protected / N)) }
    {
        let shards = empty_shards(alloc, limits, protected, N, hash_builder)?;
        Ok(ShardedSegmentedCache {
            shards: Owned { shards },
            hash_builder,
        })
    }
}

impl<K: Hash, V, const N: usize, S: BuildHasher> ShardedSegmentedCache<K, V, N, S> {
    /// The number of shards, N.
    pub fn shards(&self) -> usize
        ensures value { result ≡ N }
        ensures some { 0 < N }
        ensures many { length self.now.shards ≡ N }
    {
        self.shards.shards.len()
    }

    /// How many entries a shard has.
    pub fn shard_len(&self, shard: usize) -> usize
        requires { shard < N }
        ensures { Sees self.now.shards shard (λ shard. result ≡ length (entries shard.cache)) }
    {
        calls::shard_len(&self.shards, shard)
    }

    /// What the entries of a shard weigh together.
    pub fn shard_weight(&self, shard: usize) -> usize
        requires { shard < N }
        ensures { Sees self.now.shards shard (λ shard. result ≡ weight_of (entries shard.cache)) }
    {
        calls::shard_weight(&self.shards, shard)
    }

    /// How many entries the upper segment of a shard has.
    pub fn shard_protected_len(&self, shard: usize) -> usize
        requires { shard < N }
        ensures { Sees self.now.shards shard (λ shard. result ≡ length shard.cache.upper) }
    {
        calls::shard_protected_len(&self.shards, shard)
    }

    /// What the entries of the upper segment of a shard weigh together.
    pub fn shard_protected_weight(&self, shard: usize) -> usize
        requires { shard < N }
        ensures { Sees self.now.shards shard (λ shard. result ≡ weight_of shard.cache.upper) }
    {
        calls::shard_protected_weight(&self.shards, shard)
    }

    /// What the calls on a shard met, since the cache was made.
    pub fn shard_stats(&self, shard: usize) -> Counts
        requires { shard < N }
        ensures { Sees self.now.shards shard (λ shard. result ≡ shard.counts) }
    {
        shard_stats(&self.shards, shard)
    }

    /// What the calls met, since the cache was made: the sum over the shards.
    pub fn stats(&self) -> Counts
        ensures { result ≡ total self.now.shards }
    {
        total(&self.shards.shards)
    }

    /// Calls a closure with the key, the value and the weight of each entry of a shard: those of the upper segment, most recent
    /// first, and then those of the lower one. None is used by that.
    pub fn iter_for_each<F: FnMut((&K, &V, usize))>(&self, shard: usize, visit: F)
        requires shard { shard < N }
        requires visit { F.IsAlwaysCallable visit }
        ensures { Sees self.now.shards shard (λ shard. VisitsEach (λ p x q. F.step p x tt q) visit (entries shard.cache)) }
    {
        calls::visit_each(&self.shards, shard, visit);
    }
}

impl<K: Hash, V, const N: usize, S: BuildHasher + SameHashes> ShardedSegmentedCache<K, V, N, S> {
    /// Whether a key has an entry, or what stands for the key: a reference to it, or a `&str` where keys are texts. It is not
    /// used by that.
    pub fn contains<Q: Query<K>>(&self, query: Q) -> bool
        ensures { Sees self.now.shards (home N (key_hash S.BuildHasher S.Hasher.Hasher Q.hash_input self.now.hashes query))
            (λ shard. result ≡ is_some (entry_of Q.stands_for (entries shard.cache) query)) }
    {
        calls::contains(&self.shards, &self.hash_builder, query)
    }

    /// Shows the value of a key to `show`, by what stands for it, and answers what it does. The key is not used by that. One
    /// without an entry is answered by `None`, and nothing is called.
    pub fn peek_with<Q: Query<K>, R, F: FnOnce(&V) -> R>(&self, query: Q, show: F) -> Option<R>
        requires { F.IsAlwaysCallable show }
        ensures { Sees self.now.shards (home N (key_hash S.BuildHasher S.Hasher.Hasher Q.hash_input self.now.hashes query))
            (λ shard. ShowsEntry Q.stands_for (F.post show) (entries shard.cache) query result) }
    {
        calls::peek(&self.shards, &self.hash_builder, query, show)
    }

    /// Uses a key, by what stands for it, and answers a clone of its value: its entry goes first in the upper segment of its
    /// shard, which is brought within its part of the share.
    ///
    /// # Errors
    ///
    /// There is no memory for the clone. The key is used all the same.
    pub fn get<Q: Query<K>>(&mut self, query: Q) -> Result<Option<V>, AllocError>
    where
        V: Clone,
        ensures acts { Owns self.old.shards (home N (key_hash S.BuildHasher S.Hasher.Hasher Q.hash_input self.old.hashes query))
            (λ before after. Gets Q.stands_for V.is_clone before query result after) self.new.shards }
        ensures hashes { self.new.hashes ≡ self.old.hashes }
    {
        calls::get(&mut self.shards, &self.hash_builder, query)
    }

    /// Uses a key, by what stands for it, lends its value to `show` with its weight, and answers what `show` does. Its weight
    /// stays. A key without an entry is answered by `None`, and nothing is called.
    pub fn get_with<Q: Query<K>, R, F: FnOnce(&mut V, usize) -> R + Drop>(
        &mut self,
        query: Q,
        show: F,
    ) -> Option<R>
        requires { F.IsAlwaysCallable show }
        ensures acts { Owns self.old.shards (home N (key_hash S.BuildHasher S.Hasher.Hasher Q.hash_input self.old.hashes query))
            (λ before after. Lends Q.stands_for (F.post show) before query result after) self.new.shards }
        ensures hashes { self.new.hashes ≡ self.old.hashes }
    {
        calls::lend(&mut self.shards, &self.hash_builder, query, show)
    }
}

impl<K: Hash + Drop, V: Drop, const N: usize, S: BuildHasher + SameHashes> ShardedSegmentedCache<
    K,
    V,
    N,
    S,
> {
    /// Puts an entry in the shard of its key. One whose key has none stands first in the lower segment. Else it is a use of the
    /// key: the entry goes first in the upper segment, with this value and this weight, and the one of before is answered. The
    /// entries of that shard that are the next to go are let go, as many as have to for the others to be within the shard's
    /// part of the limits, and each is handed to `visit`.
    ///
    /// # Errors
    ///
    /// As for a `SegmentedCache` with the shard's part of the limits. Key and value are handed back, and nothing changes.
    pub fn put<F: FnMut(Entry<K, V>) + Drop>(
        &mut self,
        key: K,
        value: V,
        weight: usize,
        visit: F,
    ) -> Result<Option<Entry<K, V>>, Refused<K, V>>
        requires { F.IsAlwaysCallable visit }
        ensures acts { Owns self.old.shards (home N (key_hash S.BuildHasher S.Hasher.Hasher K.hash_input self.old.hashes key))
            (λ before after. PutsCounted (λ p x q. F.step p x tt q) visit K.eq before key value weight result after) self.new.shards }
        ensures hashes { self.new.hashes ≡ self.old.hashes }
    {
        calls::put(
            &mut self.shards,
            &self.hash_builder,
            key,
            value,
            weight,
            visit,
        )
    }

    /// Takes a key's entry out, by what stands for the key.
    pub fn remove<Q: Query<K>>(&mut self, query: Q) -> Option<Entry<K, V>>
        ensures acts { Owns self.old.shards (home N (key_hash S.BuildHasher S.Hasher.Hasher Q.hash_input self.old.hashes query))
            (λ before after. Takes Q.stands_for before query result after) self.new.shards }
        ensures hashes { self.new.hashes ≡ self.old.hashes }
    {
        calls::remove(&mut self.shards, &self.hash_builder, query)
    }

    /// Uses a key, and answers a clone of its value; or, where it has none, puts an entry of what `make` makes, value and
    /// weight, as `put` does, and answers a clone of that value.
    ///
    /// # Errors
    ///
    /// No value was made, or the entry was refused, or there is no memory. What is not put is handed back, and no entry
    /// changes.
    pub fn get_or_put_with<E: Drop, M, F>(
        &mut self,
        key: K,
        make: M,
        visit: F,
    ) -> Result<V, NotGot<K, V, E>>
    where
        V: Clone,
        M: FnOnce() -> Result<(V, usize), E> + Drop,
        F: FnMut(Entry<K, V>) + Drop,
        requires make { M.IsAlwaysCallable make }
        requires visit { F.IsAlwaysCallable visit }
        ensures acts { GetsOrPuts ⊥ K.eq V.is_clone (M.post make) (λ p x q. F.step p x tt q) visit
            (λ s P t. Owns s (home N (key_hash S.BuildHasher S.Hasher.Hasher K.hash_input self.old.hashes key)) P t) key self.old.shards result self.new.shards }
        ensures hashes { self.new.hashes ≡ self.old.hashes }
    {
        calls::get_or_put_with(&mut self.shards, &self.hash_builder, key, make, visit)
    }
}

impl<K: Hash + Drop, V: Drop, const N: usize, S: BuildHasher> ShardedSegmentedCache<K, V, N, S> {
    /// Lets all entries of a shard go, the one that is the next to go first, and hands each to `visit`.
    pub fn clear_shard<F: FnMut(Entry<K, V>) + Drop>(&mut self, shard: usize, visit: F)
        requires shard { shard < N }
        requires visit { F.IsAlwaysCallable visit }
        ensures acts { Owns self.old.shards shard (λ before after. ClearsShard (λ p x q. F.step p x tt q) visit before after) self.new.shards }
        ensures hashes { self.new.hashes ≡ self.old.hashes }
    {
        calls::clear(&mut self.shards, shard, visit);
    }

    /// Takes the entry of a shard out that is the next to go: the last of its lower segment, or of its upper one where the
    /// lower one has none.
    pub fn pop_last_of(&mut self, shard: usize) -> Option<Entry<K, V>>
        requires { shard < N }
        ensures acts { Owns self.old.shards shard (λ before after. PopsShard before result after) self.new.shards }
        ensures hashes { self.new.hashes ≡ self.old.hashes }
    {
        calls::pop_last(&mut self.shards, shard)
    }

    /// Gives a shard other limits, as `Limits::part` tells its part of those of the whole, and its upper segment another share.
    /// Then entries of it go as for a put, as many as have to, and each is handed to `visit`; and the last entries of its upper
    /// segment become the first of the lower one, as many as have to.
    pub fn set_shard_limits<F: FnMut(Entry<K, V>) + Drop>(
        &mut self,
        shard: usize,
        limits: Limits,
        protected: usize,
        visit: F,
    )
        requires shard { shard < N }
        requires visit { F.IsAlwaysCallable visit }
        ensures acts { Owns self.old.shards shard
            (λ before after. LimitsShard (λ p x q. F.step p x tt q) visit limits.weight limits.entries protected before after) self.new.shards }
        ensures hashes { self.new.hashes ≡ self.old.hashes }
    {
        calls::set_limits(&mut self.shards, shard, limits, protected, visit);
    }
}
