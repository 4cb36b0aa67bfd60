//! A cache that threads share.
ghost use Rattle.std.specs.Prelude.{◌≡◌, ℕ, ◌-◌, ◌<◌, ◌/◌, ◌^◌, min, sum_by, All, length, vec_len, is_some, true, Ok, IfOk, IfErr, IfSome};
ghost use Rattle.lru_index.specs.Hashing.{seeded, unseeded};
ghost use Rattle.lru_owned_cache.specs.Cache.{IsCache, entry_of, hashes_from};
ghost use Rattle.lru_owned_cache.specs.Entries.{weight_of};
ghost use Rattle.lru_shared_cache.specs.Answers.{HandsBack};
ghost use Rattle.lru_shared_cache.specs.Counts.{total};
ghost use Rattle.lru_shared_cache.specs.Sharded.{empty_shard};
ghost use Rattle.lru_shared_cache.specs.Related.{KeepsRelation, MaySeeRelated, MaySeeAllRelated, MayShowRelated, MayLendRelated, MayGetRelated, MayTakeRelated, MayPutRelated, MayVisitRelated, MayClearRelated, MayDrainRelated, MayLimitRelated, MayRetainRelated, MayVisitTo, MayClearTo, MayDrainTo, MayLimitTo};
ghost use Rattle.lru_shared_cache.specs.Turns.{GoesOn};
ghost use Rattle.lru_shared_cache.specs.Relations.{IsRelated, AreRelated};

pub use crate::calls::NotGot;
use crate::counts::{Counted, Counts};
use crate::kept::Kept;
pub use crate::limits::Limits;
use crate::locked::{Held, Locked, behind_locks};
use crate::related::RelatedShard;
pub use crate::relations::{Anything, Relation};
use crate::{calls, turns};
use crossbeam_utils::CachePadded;
use lru_index::alike::SameHashes;
use lru_index::hashing::SeededHashes;
use lru_index::keys::Query;
use lru_owned_cache::cache::{Cache, Entry, Refused};
use std::alloc::{AllocError, Global};
use std::fmt;
use std::fmt::{Debug, Formatter};
use std::hash::{BuildHasher, Hash};
use std::marker::Model;
use std::sync::Wait;

/// A shard under its lock, which is held as long as this is there.
#[derive(Drop)]
pub struct LockedShard<'a, K: Hash, V, S: BuildHasher, Rel: Relation<K, V> = Anything> {
    held: Held<'a, RelatedShard<K, V, S, Rel>>,
}

impl<'a, K: Hash, V, S: BuildHasher, Rel: Relation<K, V>> Model for LockedShard<'a, K, V, S, Rel> {
    ghost use Rattle.lru_owned_cache.specs.Cache.{Cached, cached_code};

    // the entries behind the lock
    ghost Value = { Cached K V S };

    ghost coded = { cached_code K.code V.code S.code };

    ghost view = { λ locked. locked.held.shard.cache };
}

impl<'a, K: Hash, V, S: BuildHasher, Rel: Relation<K, V>> LockedShard<'a, K, V, S, Rel> {
    /// The entries of the shard, as they are while the lock is held.
    pub fn cache(&self) -> &Cache<K, V, S>
        ensures value { result.now ≡ self.now }
        ensures related { AreRelated Rel.holds result.now.entries }
    {
        &self.held.cache().shard().cache
    }
}

/// A cache of keys and values for many threads: N shards, each a `Cache` behind a lock of its own.
///
/// A key's shard is told by its hash. A call on a key takes the lock of that key's shard and no other, so calls on other
/// shards don't wait for it. Each shard has a part of the limits, `most_weight / N` and `most_entries / N`, and is over
/// neither after any call; so the whole is over no limit. What has to go for a new entry goes from its shard, the entry
/// that was used longest ago there first; and an entry heavier than a shard's part is refused.
///
/// What a call does under the lock of its shard is what the call of the same name does to that shard of a `ShardedCache`: both
/// are written once. That is counted beside the shard (`stats`), so that no two shards' threads write one number.
///
/// A closure that is handed in is called under the lock, and must make no call that waits for the same shard; only what
/// `get_or_put_with` makes is made under no lock.
///
/// Its last parameter, `Rel`, says in which relation each value stands to its key. Who puts a value owes the relation, and what
/// any call answers or lends has it. `Anything`, which is meant where none is told, asks nothing.
#[derive(Drop)]
pub struct SharedCache<
    K: Hash,
    V,
    const N: usize,
    S: BuildHasher = SeededHashes,
    Rel: Relation<K, V> = Anything,
> {
    // no two shards share a cache line, so that a thread at one doesn't slow a thread at another
    shards: Vec<CachePadded<crate::locked::Shard<RelatedShard<K, V, S, Rel>>>>,
    hash_builder: S,
}

impl<K: Hash, V, const N: usize, S: BuildHasher, Rel: Relation<K, V>> Model
    for SharedCache<K, V, N, S, Rel> {
    // what lies behind the locks is known nowhere; what makes the hashes stays
    ghost Value = { S };

    ghost coded = { S.code };

    ghost view = { λ c. c.hash_builder };

    ghost invariant = { λ c. (0 < N) × (vec_len c.shards ≡ N) };
}

/// Tells how many shards there are. What they have is read under their locks, so it is not told here.
impl<K: Hash, V, const N: usize, S: BuildHasher, Rel: Relation<K, V>> Debug
    for SharedCache<K, V, N, S, Rel> {
    fn fmt<W: fmt::Write>(&self, f: &mut Formatter<W>) -> fmt::Result {
        f.debug_struct("SharedCache")
            .field("shards", &N)
            .finish_non_exhaustive()
    }
}

impl<K: Hash + Drop, V: Drop, const N: usize> SharedCache<K, V, N, SeededHashes> {
    /// A cache of no entries, of at most `most_entries`, which may weigh `most_weight` together, each limit divided among
    /// the shards. The seed of the hashes stays the same from run to run.
    ///
    /// # Errors
    ///
    /// There is no memory.
    pub fn new(alloc: Global, most_weight: usize, most_entries: usize) -> Result<Self, AllocError>
        requires { 0 < N }
        ensures { IfOk result (λ cache. cache ≡ hashes_from unseeded) }
    {
        SharedCache::with_hasher(alloc, most_weight, most_entries, SeededHashes::fixed())
    }

    /// A cache as `new` makes it, under limits that are told by name.
    ///
    /// # Errors
    ///
    /// There is no memory.
    pub fn with_limits(alloc: Global, limits: Limits) -> Result<Self, AllocError>
        requires { 0 < N }
        ensures { IfOk result (λ cache. cache ≡ hashes_from unseeded) }
    {
        SharedCache::new(alloc, limits.weight, limits.entries)
    }

    /// A cache as `new` makes it, with a seed for the hashes: who picks the keys and does not know it can't pick keys that
    /// collide.
    ///
    /// # Errors
    ///
    /// There is no memory.
    pub fn with_seed(
        alloc: Global,
        most_weight: usize,
        most_entries: usize,
        seed: u64,
    ) -> Result<Self, AllocError>
        requires { 0 < N }
        ensures { IfOk result (λ cache. cache ≡ hashes_from (seeded seed)) }
    {
        let hash_builder = SeededHashes::with_seed(seed);
        SharedCache::with_hasher(alloc, most_weight, most_entries, hash_builder)
    }
}

impl<K: Hash + Drop, V: Drop, const N: usize, S: BuildHasher + Copy + Drop> SharedCache<
    K,
    V,
    N,
    S,
> {
    /// A cache as `new` makes it, over hashers of the caller's.
    ///
    /// # Errors
    ///
    /// There is no memory.
    pub fn with_hasher(
        alloc: Global,
        most_weight: usize,
        most_entries: usize,
        hash_builder: S,
    ) -> Result<Self, AllocError>
        requires { 0 < N }
        ensures { IfOk result (λ cache. cache ≡ hash_builder) }
    {
        SharedCache::related(alloc, most_weight, most_entries, hash_builder)
    }
}

// Shards without entries, each under its part of the limits.
fn empty_shards<K, V, const N: usize, S, Rel>(
    alloc: Global,
    limits: Limits,
    hash_builder: S,
) -> Result<Vec<RelatedShard<K, V, S, Rel>>, AllocError>
where
    K: Hash + Drop,
    V: Drop,
    S: BuildHasher + Copy + Drop,
    Rel: Relation<K, V>,
    requires { 0 < N }
    ensures many { IfOk result (λ made. vec_len made ≡ N) }
    ensures parts { IfOk result (λ made. All (λ one. one.shard ≡ empty_shard hash_builder (limits.weight / N) (limits.entries / N)) made.items) }
{
    let part = limits.part(N);
    let mut made = Vec::with_capacity(alloc, N)?;
    for _ in 0..N {
        let cache = Cache::with_hasher(alloc, part.weight, part.entries, hash_builder)?;
        let counts = Counts::none();
        made.push(RelatedShard::new(Counted { cache, counts }))?;
    }
    Ok(made)
}

impl<
    K: Hash + Drop,
    V: Drop,
    const N: usize,
    S: BuildHasher + Copy + Drop,
    Rel: Relation<K, V>,
> SharedCache<K, V, N, S, Rel> {
    /// A cache as `with_hasher` makes it, of a relation of the caller's: `SharedCache::<K, V, N, S, Rel>::related(..)`.
    ///
    /// # Errors
    ///
    /// There is no memory.
    pub fn related(
        alloc: Global,
        most_weight: usize,
        most_entries: usize,
        hash_builder: S,
    ) -> Result<Self, AllocError>
        requires { 0 < N }
        ensures { IfOk result (λ cache. cache ≡ hash_builder) }
    {
        let limits = Limits {
            weight: most_weight,
            entries: most_entries,
        };
        let shards = empty_shards::<K, V, N, S, Rel>(alloc, limits, hash_builder)?;
        Ok(SharedCache {
            shards: behind_locks(alloc, shards)?,
            hash_builder,
        })
    }
}

impl<K: Hash, V, const N: usize, S: BuildHasher, Rel: Relation<K, V>> SharedCache<K, V, N, S, Rel> {
    /// The number of shards, N.
    pub fn shards(&self) -> usize
        ensures value { result ≡ N }
        ensures some { 0 < N }
    {
        self.shards.len()
    }

    /// How many entries there are: the sum over the shards, each read under its lock, one after another.
    pub fn len(&self, rt: &impl Wait) -> usize
        ensures { MaySeeAllRelated Rel.holds S N (λ shards. result ≡ min (sum_by (λ shard. length shard.cache.entries) shards) (2 ^ 64 - 1)) }
    {
        let mut len = 0usize;
        for shard in 0..N {
            len = len.saturating_add(calls::shard_len(&self.locked(rt), shard));
        }
        len
    }

    /// What the entries weigh together: the sum over the shards, each read under its lock, one after another.
    pub fn weight(&self, rt: &impl Wait) -> usize
        ensures { MaySeeAllRelated Rel.holds S N (λ shards. result ≡ min (sum_by (λ shard. weight_of shard.cache.entries) shards) (2 ^ 64 - 1)) }
    {
        let mut weight = 0usize;
        for shard in 0..N {
            weight = weight.saturating_add(calls::shard_weight(&self.locked(rt), shard));
        }
        weight
    }

    /// What the calls met, since the cache was made: the sum over the shards, each read under its lock, one after another.
    pub fn stats(&self, rt: &impl Wait) -> Counts
        ensures { MaySeeAllRelated Rel.holds S N (λ shards. result ≡ total shards) }
    {
        let mut stats = Counts::none();
        for shard in 0..N {
            stats = stats.plus(calls::shard_stats(&self.locked(rt), shard));
        }
        stats
    }

    // The shards behind their locks, for which a call waits.
    #[inline(always)]
    fn locked<'a, W: Wait>(&'a self, rt: &'a W) -> Locked<'a, RelatedShard<K, V, S, Rel>, W, N>
        ensures some { 0 < N }
        ensures many { length result.shards.now ≡ N }
    {
        Locked::new(&self.shards, rt)
    }

    /// Calls a closure with the key, the value and the weight of each entry of a shard, most recent first, under the lock of
    /// that shard. None is used by that.
    pub fn iter_for_each<F: FnMut((&K, &V, usize))>(&self, rt: &impl Wait, shard: usize, visit: F)
        requires shard { shard < N }
        requires visit { F.IsAlwaysCallable visit }
        ensures { MayVisitRelated Rel.holds (λ p x q. F.step p x tt q) visit }
    {
        calls::visit_each(&self.locked(rt), shard, visit);
    }

    /// Calls a closure with the key, the value and the weight of each entry of all shards, of shard 0 first, in each most
    /// recent first, and each shard under its lock, one after another. None is used by that. What others do meanwhile to a
    /// shard that is done is not shown.
    pub fn for_each<F: FnMut((&K, &V, usize))>(&self, rt: &impl Wait, visit: F)
        requires { F.IsAlwaysCallable visit }
        ensures { (left : F) × GoesOn (λ i v u. MayVisitTo Rel.holds (λ p x q. F.step p x tt q) v u) N visit left }
    {
        turns::visit_all(&self.locked(rt), visit);
    }

    /// Takes the lock of a shard, and holds it as long as what it answers is there. Meanwhile a call that waits for the same
    /// shard has to come from another thread.
    pub fn lock_shard(&self, rt: &impl Wait, shard: usize) -> LockedShard<'_, K, V, S, Rel>
        requires { shard < N }
        ensures related { AreRelated Rel.holds result.entries }
        ensures valid { IsCache K.eq result }
    {
        let locked = LockedShard {
            held: self.shards[shard].lock(rt),
        };
        // Read for the proof alone, which learns from it what the type says of itself.
        let _len = locked.cache().len();
        locked
    }

    /// How many entries a shard has, read under its lock.
    pub fn shard_len(&self, rt: &impl Wait, shard: usize) -> usize
        requires { shard < N }
        ensures { MaySeeRelated Rel.holds (λ es. result ≡ length es) }
    {
        calls::shard_len(&self.locked(rt), shard)
    }
}

impl<K: Hash, V, const N: usize, S: BuildHasher + SameHashes, Rel: Relation<K, V>> SharedCache<
    K,
    V,
    N,
    S,
    Rel,
> {
    /// Whether a key has an entry.
    pub fn contains(&self, rt: &impl Wait, key: &K) -> bool
        ensures { MaySeeRelated Rel.holds (λ es. result ≡ is_some (entry_of K.eq es key.now)) }
    {
        self.contains_by(rt, key)
    }

    /// As `contains`, by what stands for the key.
    pub fn contains_by<Q: Query<K>>(&self, rt: &impl Wait, query: Q) -> bool
        ensures { MaySeeRelated Rel.holds (λ es. result ≡ is_some (entry_of Q.stands_for es query)) }
    {
        calls::contains(&self.locked(rt), &self.hash_builder, query)
    }

    /// Shows the value of a key to `show`, under the lock, and answers what it does. The key is not used by that. One
    /// without an entry is answered by `None`, and nothing is called.
    pub fn peek_with<R, F: FnOnce(&V) -> R>(&self, rt: &impl Wait, key: &K, show: F) -> Option<R>
        requires { F.IsAlwaysCallable show }
        ensures { IfSome result (MayShowRelated Rel.holds K.eq key.now (F.post show)) }
    {
        self.peek_with_by(rt, key, show)
    }

    /// As `peek_with`, by what stands for the key.
    pub fn peek_with_by<Q: Query<K>, R, F: FnOnce(&V) -> R>(
        &self,
        rt: &impl Wait,
        query: Q,
        show: F,
    ) -> Option<R>
        requires { F.IsAlwaysCallable show }
        ensures { IfSome result (MayShowRelated Rel.holds Q.stands_for query (F.post show)) }
    {
        calls::peek(&self.locked(rt), &self.hash_builder, query, show)
    }

    /// Uses a key, and answers a clone of its value, made under the lock.
    ///
    /// # Errors
    ///
    /// There is no memory for the clone. The key is used all the same.
    pub fn get(&self, rt: &impl Wait, key: &K) -> Result<Option<V>, AllocError>
    where
        V: Clone,
        ensures { IfOk result (λ found. IfSome found (MayGetRelated Rel.holds K.eq V.is_clone key.now)) }
    {
        self.get_by(rt, key)
    }

    /// As `get`, by what stands for the key.
    ///
    /// # Errors
    ///
    /// As for `get`.
    pub fn get_by<Q: Query<K>>(&self, rt: &impl Wait, query: Q) -> Result<Option<V>, AllocError>
    where
        V: Clone,
        ensures { IfOk result (λ found. IfSome found (MayGetRelated Rel.holds Q.stands_for V.is_clone query)) }
    {
        calls::get(&mut self.locked(rt), &self.hash_builder, query)
    }

    /// Uses a key, lends its value to `show` with its weight, under the lock, and answers what `show` does. Its weight
    /// stays. A key without an entry is answered by `None`, and nothing is called.
    pub fn get_with<R, F: FnOnce(&mut V, usize) -> R + Drop>(
        &self,
        rt: &impl Wait,
        key: &K,
        show: F,
    ) -> Option<R>
        requires show { F.IsAlwaysCallable show }
        requires keeps { KeepsRelation Rel.holds (F.post show) }
        ensures { IfSome result (MayLendRelated Rel.holds K.eq key.now (F.post show)) }
    {
        self.get_with_by(rt, key, show)
    }

    /// As `get_with`, by what stands for the key.
    pub fn get_with_by<Q: Query<K>, R, F: FnOnce(&mut V, usize) -> R + Drop>(
        &self,
        rt: &impl Wait,
        query: Q,
        show: F,
    ) -> Option<R>
        requires show { F.IsAlwaysCallable show }
        requires keeps { KeepsRelation Rel.holds (F.post show) }
        ensures { IfSome result (MayLendRelated Rel.holds Q.stands_for query (F.post show)) }
    {
        calls::update(&mut self.locked(rt), &self.hash_builder, query, show)
    }
}

impl<
    K: Hash + Drop,
    V: Drop,
    const N: usize,
    S: BuildHasher + SameHashes,
    Rel: Relation<K, V>,
> SharedCache<K, V, N, S, Rel> {
    /// Puts an entry first in the shard of its key, in place of its key's, and answers that one. Then the entries of that
    /// shard that were used longest ago go, as many as have to for the others to be within the shard's part of the limits,
    /// and each is handed to `visit`, under the lock.
    ///
    /// # Errors
    ///
    /// As for a `Cache` with the shard's part of the limits. Key and value are handed back, and nothing changes.
    pub fn put<F: FnMut(Entry<K, V>) + Drop>(
        &self,
        rt: &impl Wait,
        key: K,
        value: V,
        weight: usize,
        visit: F,
    ) -> Result<Option<Entry<K, V>>, Refused<K, V>>
        requires visit { F.IsAlwaysCallable visit }
        requires related { Rel.holds key value }
        ensures key { IfErr result (λ refused. refused.key ≡ key) }
        ensures value { IfErr result (λ refused. refused.value ≡ value) }
        ensures puts { MayPutRelated Rel.holds K.eq (λ p x q. F.step p x tt q) visit key value weight result }
    {
        calls::put(
            &mut self.locked(rt),
            &self.hash_builder,
            key,
            value,
            weight,
            visit,
        )
    }

    /// Takes a key's entry out.
    pub fn remove(&self, rt: &impl Wait, key: &K) -> Option<Entry<K, V>>
        ensures { IfSome result (MayTakeRelated Rel.holds K.eq key.now) }
    {
        self.remove_by(rt, key)
    }

    /// As `remove`, by what stands for the key.
    pub fn remove_by<Q: Query<K>>(&self, rt: &impl Wait, query: Q) -> Option<Entry<K, V>>
        ensures { IfSome result (MayTakeRelated Rel.holds Q.stands_for query) }
    {
        calls::remove(&mut self.locked(rt), &self.hash_builder, query)
    }

    /// Uses a key, and answers a clone of its value; or, where it has none, puts an entry of what `make` makes, value and
    /// weight, as `put` does, and answers a clone of that value.
    ///
    /// `make` is called under no lock, and only where the key has no entry and nobody makes one. While it runs, others who
    /// call this for the same key wait until `make` is done; where no entry is put then, the next of them makes one. Other
    /// keys go on, but for those of the very same hash, which wait in the same way; so `make` must not call this on the
    /// same cache. A `put` of the key meanwhile, also one that is refused, or a `remove` ends that making: what was made is
    /// answered, and is not put, since it is older. Who waited goes on then, with the entry that was put, or else the next of
    /// them makes one. A call on a whole shard, as `clear_shard`, ends no making.
    ///
    /// # Errors
    ///
    /// No value was made, or the entry was refused, or there is no memory. What is not put is handed back, and no entry
    /// changes.
    pub fn get_or_put_with<E: Drop, M, F>(
        &self,
        rt: &impl Wait,
        key: K,
        make: M,
        visit: F,
    ) -> Result<V, NotGot<K, V, E>>
    where
        V: Clone,
        M: FnOnce() -> Result<(V, usize), E> + Drop,
        F: FnMut(Entry<K, V>) + Drop,
        requires make { M.IsAlwaysCallable make }
        requires related { (value : V) (weight : ℕ) → M.post make (Ok (value, weight)) → Rel.holds key value }
        requires visit { F.IsAlwaysCallable visit }
        ensures value { IfOk result (MayGetRelated Rel.holds K.eq V.is_clone key) }
        ensures refused { IfErr result (HandsBack (M.post make) key) }
    {
        calls::get_or_put_with(&mut self.locked(rt), &self.hash_builder, key, make, visit)
    }
}

impl<K: Hash + Drop, V: Drop, const N: usize, S: BuildHasher, Rel: Relation<K, V>> SharedCache<
    K,
    V,
    N,
    S,
    Rel,
> {
    /// Lets all entries of a shard go, the one that was used longest ago first, and hands each to `visit`, under the lock.
    pub fn clear_shard<F: FnMut(Entry<K, V>) + Drop>(&self, rt: &impl Wait, shard: usize, visit: F)
        requires shard { shard < N }
        requires visit { F.IsAlwaysCallable visit }
        ensures { MayClearRelated Rel.holds (λ p x q. F.step p x tt q) visit }
    {
        calls::clear(&mut self.locked(rt), shard, visit);
    }

    /// Asks `keep` of each entry of a shard, the one that was used longest ago first, by its key, its value and its weight, under
    /// the lock, and lets those go for which it answers false. The others stay, in their order.
    pub fn retain_shard<F: FnMut(&K, &V, usize) -> bool + Drop>(
        &self,
        rt: &impl Wait,
        shard: usize,
        keep: F,
    )
        requires shard { shard < N }
        requires keep { F.IsAlwaysCallable keep }
        ensures { MayRetainRelated Rel.holds (λ p k v w b q. F.step p k v w b q) keep }
    {
        calls::retain(&mut self.locked(rt), shard, keep);
    }

    /// Takes the entry of a shard out that was used longest ago there, under its lock.
    pub fn pop_last_of(&self, rt: &impl Wait, shard: usize) -> Option<Entry<K, V>>
        requires { shard < N }
        ensures { IfSome result (λ entry. IsRelated Rel.holds entry.key entry.value) }
    {
        calls::pop_last(&mut self.locked(rt), shard)
    }

    /// Gives a shard other limits, as `Limits::part` tells its part of those of the whole. Then its entries that were used
    /// longest ago go, as many as have to, and each is handed to `visit`, under the lock.
    pub fn set_shard_limits<F: FnMut(Entry<K, V>) + Drop>(
        &self,
        rt: &impl Wait,
        shard: usize,
        limits: Limits,
        visit: F,
    )
        requires shard { shard < N }
        requires visit { F.IsAlwaysCallable visit }
        ensures { MayLimitRelated Rel.holds (λ p x q. F.step p x tt q) visit limits.weight limits.entries }
    {
        calls::set_limits(&mut self.locked(rt), shard, limits, visit);
    }

    /// Takes an entry out: of the shards from `from` on, and then round from shard 0, each under its lock, the first that has
    /// entries gives the one that was used longest ago there. Who hands in the next number each time takes from each shard in
    /// turn.
    pub fn pop_last(&self, rt: &impl Wait, from: usize) -> Option<Entry<K, V>>
        requires { from < N }
        ensures { IfSome result (λ entry. IsRelated Rel.holds entry.key entry.value) }
    {
        for shard in from..N {
            if let Some(gone) = self.pop_last_of(rt, shard) {
                return Some(gone);
            }
        }
        for shard in 0..from {
            if let Some(gone) = self.pop_last_of(rt, shard) {
                return Some(gone);
            }
        }
        None
    }

    /// Lets all entries of a shard go, the one that was used last first, and hands each to `visit`, under the lock.
    pub fn drain_shard<F: FnMut(Entry<K, V>) + Drop>(&self, rt: &impl Wait, shard: usize, visit: F)
        requires shard { shard < N }
        requires visit { F.IsAlwaysCallable visit }
        ensures { MayDrainRelated Rel.holds (λ p x q. F.step p x tt q) visit }
    {
        calls::drain(&mut self.locked(rt), shard, visit);
    }

    /// Lets all entries go, of shard 0 first, in each shard the one that was used longest ago first, and hands each to `visit`,
    /// under the lock of its shard. One lock is held at a time: what others put meanwhile into a shard that is done stays.
    pub fn clear<F: FnMut(Entry<K, V>) + Drop>(&self, rt: &impl Wait, visit: F)
        requires { F.IsAlwaysCallable visit }
        ensures { (left : F) × GoesOn (λ i v u. MayClearTo Rel.holds (λ p x q. F.step p x tt q) v u) N visit left }
    {
        turns::clear_all(&mut self.locked(rt), visit);
    }

    /// As `clear`, in each shard the one that was used last first.
    pub fn drain<F: FnMut(Entry<K, V>) + Drop>(&self, rt: &impl Wait, visit: F)
        requires { F.IsAlwaysCallable visit }
        ensures { (left : F) × GoesOn (λ i v u. MayDrainTo Rel.holds (λ p x q. F.step p x tt q) v u) N visit left }
    {
        turns::drain_all(&mut self.locked(rt), visit);
    }

    /// Asks `keep` of each entry, of shard 0 first, in each shard the one that was used longest ago first, by its key, its value
    /// and its weight, under the lock of its shard, and lets those go for which it answers false. The others stay, in their
    /// order. One lock is held at a time: of what others put meanwhile into a shard that is done, nothing is asked.
    pub fn retain<F: Fn(&K, &V, usize) -> bool>(&self, rt: &impl Wait, keep: F)
        requires { F.IsAlwaysCallable keep }
        ensures { MayRetainRelated Rel.holds (λ p k v w b q. F.step p k v w b q) keep }
    {
        turns::retain_all(&mut self.locked(rt), keep);
    }

    /// Gives the cache other limits, and each shard its part of them, `limits.weight / N` and `limits.entries / N`. Then, of
    /// shard 0 first, the entries that were used longest ago go, as many as have to, and each is handed to `visit`, under the
    /// lock of its shard. One lock is held at a time: meanwhile some shards are under the new limits and others under the old.
    pub fn set_limits<F: FnMut(Entry<K, V>) + Drop>(&self, rt: &impl Wait, limits: Limits, visit: F)
        requires { F.IsAlwaysCallable visit }
        ensures { (left : F) × GoesOn (λ i v u. MayLimitTo Rel.holds (λ p x q. F.step p x tt q) v (limits.weight / N) (limits.entries / N) u) N visit left }
    {
        turns::set_all_limits(&mut self.locked(rt), limits, visit);
    }
}
