//! A segmented cache that threads share.
ghost use Rattle.std.specs.Prelude.{◌≡◌, ◌-◌, ◌<◌, ◌^◌, min, sum_by, length, vec_len, is_some, IfOk, IfErr};
ghost use Rattle.lru_index.specs.Hashing.{seeded, unseeded};
ghost use Rattle.lru_owned_cache.specs.Cache.{entry_of, hashes_from};
ghost use Rattle.lru_owned_cache.specs.Entries.{weight_of};
ghost use Rattle.lru_segmented.specs.Segmented.{IsSegmented, entries};
ghost use Rattle.lru_shared_cache.specs.Answers.{HandsBack};
ghost use Rattle.lru_shared_cache.specs.Counts.{total};
ghost use Rattle.lru_shared_cache.specs.Calls.{ShowsEntry, VisitsEach};
ghost use Rattle.lru_shared_segmented.specs.Calls.{Gets, Lends, Takes, PopsShard, ClearsShard, LimitsShard, PutsCounted};
ghost use Rattle.lru_shared_segmented.specs.Answers.{MayBe, MayBeAll, MayChange, MayGetOrPut};

use crate::calls;
use crate::one::SegmentedShard;
use crate::sharded::empty_shards;
use crossbeam_utils::CachePadded;
use lru_index::alike::SameHashes;
use lru_index::hashing::SeededHashes;
use lru_index::keys::Query;
use lru_owned_cache::cache::{Entry, Refused};
use lru_segmented::segmented::SegmentedCache;
use lru_shared_cache::counts::{Counted, Counts, shard_stats};
pub use lru_shared_cache::limits::Limits;
use lru_shared_cache::locked::{Held, Locked, behind_locks};
pub use lru_shared_cache::shared::NotGot;
use std::alloc::{AllocError, Global};
use std::fmt;
use std::fmt::{Debug, Formatter};
use std::hash::{BuildHasher, Hash};
use std::marker::Model;
use std::sync::Wait;

/// A shard under its lock, which is held as long as this is there.
#[derive(Drop)]
pub struct LockedSegmentedShard<'a, K: Hash, V, S: BuildHasher> {
    held: Held<'a, Counted<SegmentedCache<K, V, S>>>,
}

impl<'a, K: Hash, V, S: BuildHasher> Model for LockedSegmentedShard<'a, K, V, S> {
    ghost use Rattle.lru_segmented.specs.Segmented.{Segmented, segmented_code};

    // the entries behind the lock
    ghost Value = { Segmented K V S };

    ghost coded = { segmented_code K.code V.code S.code };

    ghost view = { λ locked. locked.held.cache };
}

impl<'a, K: Hash, V, S: BuildHasher> LockedSegmentedShard<'a, K, V, S> {
    /// The entries of the shard, as they are while the lock is held.
    pub fn cache(&self) -> &SegmentedCache<K, V, S>
        ensures { result.now ≡ self.now }
    {
        &self.held.cache().cache
    }
}

/// A cache of keys and values for many threads: N shards, each a `SegmentedCache` behind a lock of its own.
///
/// A key's shard is told by its hash. A call on a key takes the lock of that key's shard and no other, so calls on other
/// shards don't wait for it. Each shard has a part of the limits, `weight / N` and `entries / N`, and of the share of the upper
/// segment, `protected / N`, and is over none of them after any call; so the whole is over no limit. Where its part of the
/// share is 0, a shard has no upper segment. What has to go for a new entry goes from its shard: entries that were used since
/// they were put go only once the lower segment of that shard has none. An entry heavier than a shard's part is refused.
///
/// What a call does under the lock of its shard is what the call of the same name does to that shard of a
/// `ShardedSegmentedCache`: both are written once. That is counted beside the shard (`stats`), so that no two shards' threads
/// write one number.
///
/// A closure that is handed in is called under the lock, and must make no call that waits for the same shard; only what
/// `get_or_put_with` makes is made under no lock.
#[derive(Drop)]
pub struct SharedSegmentedCache<K: Hash, V, const N: usize, S: BuildHasher = SeededHashes> {
    // no two shards share a cache line, so that a thread at one doesn't slow a thread at another
    shards: Vec<CachePadded<lru_shared_cache::locked::Shard<Counted<SegmentedCache<K, V, S>>>>>,
    hash_builder: S,
}

impl<K: Hash, V, const N: usize, S: BuildHasher> Model for SharedSegmentedCache<K, V, N, S> {
    // what lies behind the locks is known nowhere; what makes the hashes stays
    ghost Value = { S };

    ghost coded = { S.code };

    ghost view = { λ c. c.hash_builder };

    ghost invariant = { λ c. (0 < N) × (vec_len c.shards ≡ N) };
}

/// Tells how many shards there are. What they have is read under their locks, so it is not told here.
impl<K: Hash, V, const N: usize, S: BuildHasher> Debug for SharedSegmentedCache<K, V, N, S> {
    fn fmt<W: fmt::Write>(&self, f: &mut Formatter<W>) -> fmt::Result {
        f.debug_struct("SharedSegmentedCache")
            .field("shards", &N)
            .finish_non_exhaustive()
    }
}

impl<K: Hash + Drop, V: Drop, const N: usize> SharedSegmentedCache<K, V, N, SeededHashes> {
    /// A cache of no entries, under limits that are divided among the shards, and so is what the entries of the upper segments
    /// may weigh together, `protected`. The seed of the hashes stays the same from run to run.
    ///
    /// # Errors
    ///
    /// There is no memory.
    pub fn with_protected(
        alloc: Global,
        limits: Limits,
        protected: usize,
    ) -> Result<Self, AllocError>
        requires { 0 < N }
        ensures { IfOk result (λ cache. cache ≡ hashes_from unseeded) }
    {
        let hash_builder = SeededHashes::fixed();
        SharedSegmentedCache::with_protected_and_hasher(alloc, limits, protected, hash_builder)
    }

    /// A cache as `with_protected` makes it, with a seed for the hashes: who picks the keys and does not know it can't pick
    /// keys that collide.
    ///
    /// # Errors
    ///
    /// There is no memory.
    pub fn with_protected_and_seed(
        alloc: Global,
        limits: Limits,
        protected: usize,
        seed: u64,
    ) -> Result<Self, AllocError>
        requires { 0 < N }
        ensures { IfOk result (λ cache. cache ≡ hashes_from (seeded seed)) }
    {
        let hash_builder = SeededHashes::with_seed(seed);
        SharedSegmentedCache::with_protected_and_hasher(alloc, limits, protected, hash_builder)
    }
}

impl<K: Hash + Drop, V: Drop, const N: usize, S: BuildHasher + Copy + Drop> SharedSegmentedCache<
    K,
    V,
    N,
    S,
> {
    /// A cache as `with_protected` makes it, over hashers of the caller's.
    ///
    /// # Errors
    ///
    /// There is no memory.
    pub fn with_protected_and_hasher(
        alloc: Global,
        limits: Limits,
        protected: usize,
        hash_builder: S,
    ) -> Result<Self, AllocError>
        requires { 0 < N }
        ensures { IfOk result (λ cache. cache ≡ hash_builder) }
    {
        let shards = empty_shards(alloc, limits, protected, N, hash_builder)?;
        Ok(SharedSegmentedCache {
            shards: behind_locks(alloc, shards)?,
            hash_builder,
        })
    }
}

impl<K: Hash, V, const N: usize, S: BuildHasher> SharedSegmentedCache<K, V, N, S> {
    /// The number of shards, N.
    pub fn shards(&self) -> usize
        ensures value { result ≡ N }
        ensures some { 0 < N }
    {
        self.shards.len()
    }

    // The shards behind their locks, for which a call waits.
    #[inline(always)]
    fn locked<'a, W: Wait>(&'a self, rt: &'a W) -> Locked<'a, SegmentedShard<K, V, S>, W, N>
        ensures some { 0 < N }
        ensures many { length result.shards.now ≡ N }
    {
        Locked::new(&self.shards, rt)
    }

    /// How many entries there are: the sum over the shards, each read under its lock, one after another.
    pub fn len(&self, rt: &impl Wait) -> usize
        ensures { MayBeAll K V S N (λ shards. result ≡ min (sum_by (λ shard. length (entries shard.cache)) shards) (2 ^ 64 - 1)) }
    {
        let mut len = 0usize;
        for shard in 0..N {
            len = len.saturating_add(self.shard_len(rt, shard));
        }
        len
    }

    /// What the entries weigh together: the sum over the shards, each read under its lock, one after another.
    pub fn weight(&self, rt: &impl Wait) -> usize
        ensures { MayBeAll K V S N (λ shards. result ≡ min (sum_by (λ shard. weight_of (entries shard.cache)) shards) (2 ^ 64 - 1)) }
    {
        let mut weight = 0usize;
        for shard in 0..N {
            weight = weight.saturating_add(self.shard_weight(rt, shard));
        }
        weight
    }

    /// How many entries the upper segments have: the sum over the shards, each read under its lock, one after another.
    pub fn protected_len(&self, rt: &impl Wait) -> usize
        ensures { MayBeAll K V S N (λ shards. result ≡ min (sum_by (λ shard. length shard.cache.upper) shards) (2 ^ 64 - 1)) }
    {
        let mut len = 0usize;
        for shard in 0..N {
            len = len.saturating_add(calls::shard_protected_len(&self.locked(rt), shard));
        }
        len
    }

    /// What the entries of the upper segments weigh together: the sum over the shards, each read under its lock, one after
    /// another.
    pub fn protected_weight(&self, rt: &impl Wait) -> usize
        ensures { MayBeAll K V S N (λ shards. result ≡ min (sum_by (λ shard. weight_of shard.cache.upper) shards) (2 ^ 64 - 1)) }
    {
        let mut weight = 0usize;
        for shard in 0..N {
            weight = weight.saturating_add(calls::shard_protected_weight(&self.locked(rt), shard));
        }
        weight
    }

    /// What the calls met, since the cache was made: the sum over the shards, each read under its lock, one after another.
    pub fn stats(&self, rt: &impl Wait) -> Counts
        ensures { MayBeAll K V S N (λ shards. result ≡ total shards) }
    {
        let mut stats = Counts::none();
        for shard in 0..N {
            stats = stats.plus(shard_stats(&self.locked(rt), shard));
        }
        stats
    }

    /// How many entries a shard has, read under its lock.
    pub fn shard_len(&self, rt: &impl Wait, shard: usize) -> usize
        requires { shard < N }
        ensures { MayBe K V S (λ shard. result ≡ length (entries shard.cache)) }
    {
        calls::shard_len(&self.locked(rt), shard)
    }

    /// What the entries of a shard weigh together, read under its lock.
    pub fn shard_weight(&self, rt: &impl Wait, shard: usize) -> usize
        requires { shard < N }
        ensures { MayBe K V S (λ shard. result ≡ weight_of (entries shard.cache)) }
    {
        calls::shard_weight(&self.locked(rt), shard)
    }

    /// Calls a closure with the key, the value and the weight of each entry of a shard, under the lock of that shard: those of
    /// the upper segment, most recent first, and then those of the lower one. None is used by that.
    pub fn iter_for_each<F: FnMut((&K, &V, usize))>(&self, rt: &impl Wait, shard: usize, visit: F)
        requires shard { shard < N }
        requires visit { F.IsAlwaysCallable visit }
        ensures { MayBe K V S (λ shard. VisitsEach (λ p x q. F.step p x tt q) visit (entries shard.cache)) }
    {
        calls::visit_each(&self.locked(rt), shard, visit);
    }

    /// Takes the lock of a shard, and holds it as long as what it answers is there. Meanwhile a call that waits for the same
    /// shard has to come from another thread.
    pub fn lock_shard(&self, rt: &impl Wait, shard: usize) -> LockedSegmentedShard<'_, K, V, S>
        requires { shard < N }
        ensures { IsSegmented K.eq result }
    {
        let locked = LockedSegmentedShard {
            held: self.shards[shard].lock(rt),
        };
        // Read for the proof alone, which learns from it what the type says of itself.
        let _len = locked.cache().len();
        locked
    }
}

impl<K: Hash, V, const N: usize, S: BuildHasher + SameHashes> SharedSegmentedCache<K, V, N, S> {
    /// Whether a key has an entry. It is not used by that.
    pub fn contains(&self, rt: &impl Wait, key: &K) -> bool
        ensures { MayBe K V S (λ shard. result ≡ is_some (entry_of K.eq (entries shard.cache) key.now)) }
    {
        self.contains_by(rt, key)
    }

    /// As `contains`, by what stands for the key.
    pub fn contains_by<Q: Query<K>>(&self, rt: &impl Wait, query: Q) -> bool
        ensures { MayBe K V S (λ shard. result ≡ is_some (entry_of Q.stands_for (entries shard.cache) query)) }
    {
        calls::contains(&self.locked(rt), &self.hash_builder, query)
    }

    /// Shows the value of a key to `show`, under the lock, and answers what it does. The key is not used by that. One
    /// without an entry is answered by `None`, and nothing is called.
    pub fn peek_with<R, F: FnOnce(&V) -> R>(&self, rt: &impl Wait, key: &K, show: F) -> Option<R>
        requires { F.IsAlwaysCallable show }
        ensures { MayBe K V S (λ shard. ShowsEntry K.eq (F.post show) (entries shard.cache) key.now result) }
    {
        self.peek_with_by(rt, key, show)
    }

    /// As `peek_with`, by what stands for the key.
    pub fn peek_with_by<Q: Query<K>, R, F: FnOnce(&V) -> R>(
        &self,
        rt: &impl Wait,
        query: Q,
        show: F,
    ) -> Option<R>
        requires { F.IsAlwaysCallable show }
        ensures { MayBe K V S (λ shard. ShowsEntry Q.stands_for (F.post show) (entries shard.cache) query result) }
    {
        calls::peek(&self.locked(rt), &self.hash_builder, query, show)
    }

    /// Uses a key, and answers a clone of its value, made under the lock: its entry goes first in the upper segment of its
    /// shard, which is brought within its part of the share.
    ///
    /// # Errors
    ///
    /// There is no memory for the clone. The key is used all the same.
    pub fn get(&self, rt: &impl Wait, key: &K) -> Result<Option<V>, AllocError>
    where
        V: Clone,
        ensures { MayChange K V S (λ before after. Gets K.eq V.is_clone before key.now result after) }
    {
        self.get_by(rt, key)
    }

    /// As `get`, by what stands for the key.
    ///
    /// # Errors
    ///
    /// As for `get`.
    pub fn get_by<Q: Query<K>>(&self, rt: &impl Wait, query: Q) -> Result<Option<V>, AllocError>
    where
        V: Clone,
        ensures { MayChange K V S (λ before after. Gets Q.stands_for V.is_clone before query result after) }
    {
        calls::get(&mut self.locked(rt), &self.hash_builder, query)
    }

    /// Uses a key, lends its value to `show` with its weight, under the lock, and answers what `show` does. Its weight
    /// stays. A key without an entry is answered by `None`, and nothing is called.
    pub fn get_with<R, F: FnOnce(&mut V, usize) -> R + Drop>(
        &self,
        rt: &impl Wait,
        key: &K,
        show: F,
    ) -> Option<R>
        requires { F.IsAlwaysCallable show }
        ensures { MayChange K V S (λ before after. Lends K.eq (F.post show) before key.now result after) }
    {
        self.get_with_by(rt, key, show)
    }

    /// As `get_with`, by what stands for the key.
    pub fn get_with_by<Q: Query<K>, R, F: FnOnce(&mut V, usize) -> R + Drop>(
        &self,
        rt: &impl Wait,
        query: Q,
        show: F,
    ) -> Option<R>
        requires { F.IsAlwaysCallable show }
        ensures { MayChange K V S (λ before after. Lends Q.stands_for (F.post show) before query result after) }
    {
        calls::lend(&mut self.locked(rt), &self.hash_builder, query, show)
    }
}

impl<K: Hash + Drop, V: Drop, const N: usize, S: BuildHasher + SameHashes> SharedSegmentedCache<
    K,
    V,
    N,
    S,
> {
    /// Puts an entry in the shard of its key. One whose key has none stands first in the lower segment. Else it is a use of the
    /// key: the entry goes first in the upper segment, with this value and this weight, and the one of before is answered. The
    /// entries of that shard that are the next to go are let go, as many as have to for the others to be within the shard's
    /// part of the limits, and each is handed to `visit`, under the lock.
    ///
    /// # Errors
    ///
    /// As for a `SegmentedCache` with the shard's part of the limits. Key and value are handed back, and nothing changes.
    pub fn put<F: FnMut(Entry<K, V>) + Drop>(
        &self,
        rt: &impl Wait,
        key: K,
        value: V,
        weight: usize,
        visit: F,
    ) -> Result<Option<Entry<K, V>>, Refused<K, V>>
        requires { F.IsAlwaysCallable visit }
        ensures puts { MayChange K V S (λ before after. PutsCounted (λ p x q. F.step p x tt q) visit K.eq before key value weight result after) }
        ensures key { IfErr result (λ refused. refused.key ≡ key) }
        ensures value { IfErr result (λ refused. refused.value ≡ value) }
    {
        calls::put(
            &mut self.locked(rt),
            &self.hash_builder,
            key,
            value,
            weight,
            visit,
        )
    }

    /// Takes a key's entry out.
    pub fn remove(&self, rt: &impl Wait, key: &K) -> Option<Entry<K, V>>
        ensures { MayChange K V S (λ before after. Takes K.eq before key.now result after) }
    {
        self.remove_by(rt, key)
    }

    /// As `remove`, by what stands for the key.
    pub fn remove_by<Q: Query<K>>(&self, rt: &impl Wait, query: Q) -> Option<Entry<K, V>>
        ensures { MayChange K V S (λ before after. Takes Q.stands_for before query result after) }
    {
        calls::remove(&mut self.locked(rt), &self.hash_builder, query)
    }

    /// Uses a key, and answers a clone of its value; or, where it has none, puts an entry of what `make` makes, value and
    /// weight, as `put` does, and answers a clone of that value.
    ///
    /// `make` is called under no lock, and only where the key has no entry and nobody makes one. While it runs, others who
    /// call this for the same key wait until `make` is done; where no entry is put then, the next of them makes one. Other
    /// keys go on, but for those of the very same hash, which wait in the same way; so `make` must not call this on the
    /// same cache. A `put` of the key meanwhile, also one that is refused, or a `remove` ends that making: what was made is
    /// answered, and is not put, since it is older. Who waited goes on then, with the entry that was put, or else the next of
    /// them makes one. A call on a whole shard, as `clear_shard`, ends no making.
    ///
    /// # Errors
    ///
    /// No value was made, or the entry was refused, or there is no memory. What is not put is handed back, and no entry
    /// changes.
    pub fn get_or_put_with<E: Drop, M, F>(
        &self,
        rt: &impl Wait,
        key: K,
        make: M,
        visit: F,
    ) -> Result<V, NotGot<K, V, E>>
    where
        V: Clone,
        M: FnOnce() -> Result<(V, usize), E> + Drop,
        F: FnMut(Entry<K, V>) + Drop,
        requires make { M.IsAlwaysCallable make }
        requires visit { F.IsAlwaysCallable visit }
        ensures gets { MayGetOrPut S K.eq V.is_clone (M.post make) (λ p x q. F.step p x tt q) visit key result }
        ensures refused { IfErr result (HandsBack (M.post make) key) }
    {
        calls::get_or_put_with(&mut self.locked(rt), &self.hash_builder, key, make, visit)
    }
}

impl<K: Hash + Drop, V: Drop, const N: usize, S: BuildHasher> SharedSegmentedCache<K, V, N, S> {
    /// Lets all entries of a shard go, the one that is the next to go first, and hands each to `visit`, under the lock.
    pub fn clear_shard<F: FnMut(Entry<K, V>) + Drop>(&self, rt: &impl Wait, shard: usize, visit: F)
        requires shard { shard < N }
        requires visit { F.IsAlwaysCallable visit }
        ensures { MayChange K V S (λ before after. ClearsShard (λ p x q. F.step p x tt q) visit before after) }
    {
        calls::clear(&mut self.locked(rt), shard, visit);
    }

    /// Takes the entry of a shard out that is the next to go, under its lock: the last of its lower segment, or of its upper
    /// one where the lower one has none.
    pub fn pop_last_of(&self, rt: &impl Wait, shard: usize) -> Option<Entry<K, V>>
        requires { shard < N }
        ensures { MayChange K V S (λ before after. PopsShard before result after) }
    {
        calls::pop_last(&mut self.locked(rt), shard)
    }

    /// Gives a shard other limits, as `Limits::part` tells its part of those of the whole, and its upper segment another share.
    /// Then entries of it go as for a put, as many as have to, and each is handed to `visit`, under the lock; and the last
    /// entries of its upper segment become the first of the lower one, as many as have to.
    pub fn set_shard_limits<F: FnMut(Entry<K, V>) + Drop>(
        &self,
        rt: &impl Wait,
        shard: usize,
        limits: Limits,
        protected: usize,
        visit: F,
    )
        requires shard { shard < N }
        requires visit { F.IsAlwaysCallable visit }
        ensures { MayChange K V S
            (λ before after. LimitsShard (λ p x q. F.step p x tt q) visit limits.weight limits.entries protected before after) }
    {
        calls::set_limits(&mut self.locked(rt), shard, limits, protected, visit);
    }
}
