//! A cache that threads share, whose entries end.
ghost use Rattle.std.specs.Prelude.{◌≡◌, ◌-◌, ◌<◌, ◌^◌, min, sum_by, length, vec_len, is_some, IfOk, IfErr, IfSome};
ghost use Rattle.lru_index.specs.Hashing.{seeded, unseeded};
ghost use Rattle.lru_owned_cache.specs.Cache.{IsCache, hashes_from};
ghost use Rattle.lru_owned_cache.specs.Entries.{weight_of};
ghost use Rattle.lru_deadlines.specs.Deadlines.{living};
ghost use Rattle.lru_shared_deadlines.specs.Sharded.{setting};
ghost use Rattle.lru_shared_cache.specs.Answers.{HandsBack, MayShow};
ghost use Rattle.lru_shared_cache.specs.Counts.{total};
ghost use Rattle.lru_shared_deadlines.specs.Ages.{moment};
ghost use Rattle.lru_shared_deadlines.specs.Calls.{VisitsEach, Lends, Gets, SweepsShard, PutsIn};
ghost use Rattle.lru_shared_cache.specs.Calls.{RetainsShard};
ghost use Rattle.lru_shared_cache.specs.Counting.{Takes, PopsShard, ClearsShard, DrainsShard, LimitsShard, PutsCounted};
ghost use Rattle.lru_shared_deadlines.specs.Answers.{MayBe, MayBeAll, MayAct, MayChange, MayGetOrPut, MayPutBack};

use crate::ages::Moment;
pub use crate::ages::{Aged, Ages, Gone};
use crate::calls;
use crate::one::DeadlineShard;
use crate::sharded::empty_shards;
use crossbeam_utils::CachePadded;
use lru_deadlines::deadlines::{DeadlineCache, Until};
use lru_index::alike::SameHashes;
use lru_index::hashing::SeededHashes;
use lru_index::keys::Query;
use lru_owned_cache::cache::Refused;
use lru_shared_cache::counts::{Counted, Counts, shard_stats};
pub use lru_shared_cache::limits::Limits;
use lru_shared_cache::locked::{Held, Locked, behind_locks};
pub use lru_shared_cache::shared::NotGot;
use std::alloc::{AllocError, Global};
use std::fmt;
use std::fmt::{Debug, Formatter};
use std::hash::{BuildHasher, Hash};
use std::marker::Model;
use std::sync::Wait;
use std::sync::atomic::{AtomicUsize, Ordering};

/// A shard under its lock, which is held as long as this is there.
#[derive(Drop)]
pub struct LockedDeadlineShard<'a, K: Hash, V, S: BuildHasher> {
    held: Held<'a, Counted<DeadlineCache<K, Aged<V>, S>>>,
}

impl<'a, K: Hash, V, S: BuildHasher> Model for LockedDeadlineShard<'a, K, V, S> {
    ghost use Rattle.lru_owned_cache.specs.Cache.{Cached, cached_code};
    ghost use Rattle.lru_deadlines.specs.Codes.{until_code};
    ghost use Rattle.lru_deadlines.specs.declared.deadlines.Until.{Until};
    ghost use Rattle.lru_shared_deadlines.specs.Codes.{aged_code};
    ghost use Rattle.lru_shared_deadlines.specs.declared.ages.Aged.{Aged};

    // the entries behind the lock
    ghost Value = { Cached K (Until (Aged V)) S };

    ghost coded = { cached_code K.code (until_code (aged_code V.code)) S.code };

    ghost view = { λ locked. locked.held.cache };
}

impl<'a, K: Hash, V, S: BuildHasher> LockedDeadlineShard<'a, K, V, S> {
    /// The entries of the shard, as they are while the lock is held, also those that are past.
    pub fn cache(&self) -> &DeadlineCache<K, Aged<V>, S>
        ensures { result.now ≡ self.now }
    {
        &self.held.cache().cache
    }
}

/// A cache of keys and values for many threads, whose entries end: N shards, each a `DeadlineCache` behind a lock of its own.
///
/// An entry is answered for a time since it was put and for a time since it was last used (`Ages`), by the time that is handed
/// to each call, in the caller's unit; then it is past, and is answered as if it were not there, nor waited for. What is past
/// stays until a put needs its room, `sweep` comes to it, or it is taken out; until then it counts.
///
/// A key's shard is told by its hash. A call on a key takes the lock of that key's shard and no other, so calls on other
/// shards don't wait for it. Each shard has a part of the limits, `weight / N` and `entries / N`, and is over neither after
/// any call. What a call does under the lock of its shard is what the call of the same name does to that shard of a
/// `ShardedDeadlineCache`: both are written once. That is counted beside the shard (`stats`).
///
/// A closure that is handed in is called under the lock, and must make no call that waits for the same shard; only what
/// `get_or_put_with` makes is made under no lock.
#[derive(Drop)]
pub struct SharedDeadlineCache<K: Hash, V, const N: usize, S: BuildHasher = SeededHashes> {
    shards: Vec<
        CachePadded<lru_shared_cache::locked::Shard<Counted<DeadlineCache<K, Aged<V>, S>>>>,
    >,
    hash_builder: S,
    ages: Ages,
    turn: AtomicUsize,
}

impl<K: Hash, V, const N: usize, S: BuildHasher> Model for SharedDeadlineCache<K, V, N, S> {
    ghost use Rattle.std.specs.Prelude.{◌≡◌, ◌<◌, vec_len};
    ghost use Rattle.lru_shared_deadlines.specs.Sharded.{Setting, setting, setting_code};

    // what lies behind the locks is known nowhere
    ghost Value = { Setting S };

    ghost coded = { setting_code S.code };

    ghost view = { λ c. setting c.hash_builder c.ages };

    ghost invariant = { λ c. (0 < N) × (vec_len c.shards ≡ N) };
}

/// Tells how many shards there are, and how long entries are answered. What the shards have is read under their locks, so it is
/// not told here.
impl<K: Hash, V, const N: usize, S: BuildHasher> Debug for SharedDeadlineCache<K, V, N, S> {
    fn fmt<W: fmt::Write>(&self, f: &mut Formatter<W>) -> fmt::Result {
        f.debug_struct("SharedDeadlineCache")
            .field("shards", &N)
            .field("ages", &self.ages)
            .finish_non_exhaustive()
    }
}

impl<K: Hash + Drop, V: Drop, const N: usize> SharedDeadlineCache<K, V, N, SeededHashes> {
    /// A cache of no entries, under limits that are divided among the shards. The seed of the hashes stays the same from run to
    /// run.
    ///
    /// # Errors
    ///
    /// There is no memory.
    pub fn new(alloc: Global, limits: Limits, ages: Ages) -> Result<Self, AllocError>
        requires { 0 < N }
        ensures { IfOk result (λ cache. cache ≡ setting (hashes_from unseeded) ages) }
    {
        SharedDeadlineCache::with_hasher(alloc, limits, ages, SeededHashes::fixed())
    }

    /// A cache as `new` makes it, with a seed for the hashes: who picks the keys and does not know it can't pick keys that
    /// collide.
    ///
    /// # Errors
    ///
    /// There is no memory.
    pub fn with_seed(
        alloc: Global,
        limits: Limits,
        ages: Ages,
        seed: u64,
    ) -> Result<Self, AllocError>
        requires { 0 < N }
        ensures { IfOk result (λ cache. cache ≡ setting (hashes_from (seeded seed)) ages) }
    {
        let hash_builder = SeededHashes::with_seed(seed);
        SharedDeadlineCache::with_hasher(alloc, limits, ages, hash_builder)
    }
}

impl<K: Hash + Drop, V: Drop, const N: usize, S: BuildHasher + Copy + Drop> SharedDeadlineCache<
    K,
    V,
    N,
    S,
> {
    /// A cache as `new` makes it, over hashers of the caller's.
    ///
    /// # Errors
    ///
    /// There is no memory.
    pub fn with_hasher(
        alloc: Global,
        limits: Limits,
        ages: Ages,
        hash_builder: S,
    ) -> Result<Self, AllocError>
        requires { 0 < N }
        ensures { IfOk result (λ cache. cache ≡ setting hash_builder ages) }
    {
        let shards = empty_shards(alloc, limits, N, hash_builder)?;
        Ok(SharedDeadlineCache {
            shards: behind_locks(alloc, shards)?,
            hash_builder,
            ages,
            turn: AtomicUsize::new(0),
        })
    }
}

impl<K: Hash, V, const N: usize, S: BuildHasher> SharedDeadlineCache<K, V, N, S> {
    /// The number of shards, N.
    pub fn shards(&self) -> usize
        ensures value { result ≡ N }
        ensures some { 0 < N }
    {
        self.shards.len()
    }

    /// How long entries are answered.
    pub fn ages(&self) -> Ages
        ensures { result ≡ self.now.ages }
    {
        self.ages
    }

    // A time, under these ages.
    fn at(&self, time: u64) -> Moment
        ensures { result ≡ moment time self.now.ages }
    {
        let ages = self.ages;
        Moment { time, ages }
    }

    // The shards behind their locks, for which a call waits.
    #[inline(always)]
    fn locked<'a, W: Wait>(&'a self, rt: &'a W) -> Locked<'a, DeadlineShard<K, V, S>, W, N>
        ensures some { 0 < N }
        ensures many { length result.shards.now ≡ N }
    {
        Locked::new(&self.shards, rt)
    }

    /// How many entries there are, with those that are past: the sum over the shards, each read under its lock, one after
    /// another.
    pub fn len(&self, rt: &impl Wait) -> usize
        ensures { MayBeAll K V S N (λ shards. result ≡ min (sum_by (λ shard. length shard.cache.entries) shards) (2 ^ 64 - 1)) }
    {
        let mut len = 0usize;
        for shard in 0..N {
            len = len.saturating_add(calls::shard_len(&self.locked(rt), shard));
        }
        len
    }

    /// What the entries weigh together, with those that are past: the sum over the shards, each read under its lock, one after
    /// another.
    pub fn weight(&self, rt: &impl Wait) -> usize
        ensures { MayBeAll K V S N (λ shards. result ≡ min (sum_by (λ shard. weight_of shard.cache.entries) shards) (2 ^ 64 - 1)) }
    {
        let mut weight = 0usize;
        for shard in 0..N {
            weight = weight.saturating_add(calls::shard_weight(&self.locked(rt), shard));
        }
        weight
    }

    /// What the calls met, since the cache was made: the sum over the shards, each read under its lock, one after another.
    pub fn stats(&self, rt: &impl Wait) -> Counts
        ensures { MayBeAll K V S N (λ shards. result ≡ total shards) }
    {
        let mut stats = Counts::none();
        for shard in 0..N {
            stats = stats.plus(shard_stats(&self.locked(rt), shard));
        }
        stats
    }

    /// Calls a closure with the key, the value with its deadline, and the weight of each entry of a shard, most recent first,
    /// with those that are past, under the lock of that shard. None is used by that.
    pub fn iter_for_each<F: FnMut((&K, &Until<Aged<V>>, usize))>(
        &self,
        rt: &impl Wait,
        shard: usize,
        visit: F,
    )
        requires shard { shard < N }
        requires visit { F.IsAlwaysCallable visit }
        ensures { MayBe K V S (λ shard. VisitsEach (λ p x q. F.step p x tt q) visit shard.cache.entries) }
    {
        calls::visit_each(&self.locked(rt), shard, visit);
    }

    /// Takes the lock of a shard, and holds it as long as what it answers is there. Meanwhile a call that waits for the same
    /// shard has to come from another thread.
    pub fn lock_shard(&self, rt: &impl Wait, shard: usize) -> LockedDeadlineShard<'_, K, V, S>
        requires { shard < N }
        ensures { IsCache K.eq result }
    {
        let locked = LockedDeadlineShard {
            held: self.shards[shard].lock(rt),
        };
        // Read for the proof alone, which learns from it what the type says of itself.
        let _len = locked.cache().len();
        locked
    }

    /// How many entries a shard has, with those that are past, read under its lock.
    pub fn shard_len(&self, rt: &impl Wait, shard: usize) -> usize
        requires { shard < N }
        ensures { MayBe K V S (λ shard. result ≡ length shard.cache.entries) }
    {
        calls::shard_len(&self.locked(rt), shard)
    }
}

impl<K: Hash, V, const N: usize, S: BuildHasher + SameHashes> SharedDeadlineCache<K, V, N, S> {
    /// Whether a key has an entry in its time, or what stands for the key: a reference to it, or a `&str` where keys are
    /// texts.
    pub fn contains<Q: Query<K>>(&self, rt: &impl Wait, time: u64, query: Q) -> bool
        ensures { MayBe K V S (λ shard. result ≡ is_some (living Q.stands_for time shard.cache.entries query)) }
    {
        calls::contains(&self.locked(rt), &self.hash_builder, time, query)
    }

    /// Shows the value of a key to `show`, by what stands for it, under the lock, and answers what it does. The key is not used
    /// by that. One without an entry in its time is answered by `None`, and nothing is called.
    pub fn peek_with<Q: Query<K>, R, F: FnOnce(&V) -> R>(
        &self,
        rt: &impl Wait,
        time: u64,
        query: Q,
        show: F,
    ) -> Option<R>
        requires { F.IsAlwaysCallable show }
        ensures { IfSome result (MayShow (F.post show)) }
    {
        calls::peek(&self.locked(rt), &self.hash_builder, time, query, show)
    }

    /// Uses a key, by what stands for it, and answers a clone of its value, made under the lock. Where it has no entry in its
    /// time, nothing changes.
    ///
    /// # Errors
    ///
    /// There is no memory for the clone. The key is used all the same.
    pub fn get<Q: Query<K>>(
        &self,
        rt: &impl Wait,
        time: u64,
        query: Q,
    ) -> Result<Option<V>, AllocError>
    where
        V: Clone,
        ensures { MayAct K V S self.now.ages time (λ m before after. Gets Q.stands_for V.is_clone m before query result after) }
    {
        let moment = self.at(time);
        calls::get(&mut self.locked(rt), &self.hash_builder, moment, query)
    }

    /// Uses a key, by what stands for it, lends its value to `show` with its weight, under the lock, and answers what `show`
    /// does. Its weight stays. A key without an entry in its time is answered by `None`, and nothing is called.
    pub fn get_with<Q: Query<K>, R, F: FnOnce(&mut V, usize) -> R + Drop>(
        &self,
        rt: &impl Wait,
        time: u64,
        query: Q,
        show: F,
    ) -> Option<R>
        requires { F.IsAlwaysCallable show }
        ensures { MayAct K V S self.now.ages time (λ m before after. Lends Q.stands_for (F.post show) m before query result after) }
    {
        let moment = self.at(time);
        calls::lend(
            &mut self.locked(rt),
            &self.hash_builder,
            moment,
            query,
            show,
        )
    }
}

impl<K: Hash + Drop, V: Drop, const N: usize, S: BuildHasher + SameHashes> SharedDeadlineCache<
    K,
    V,
    N,
    S,
> {
    /// Puts an entry first in the shard of its key, in place of its key's, and answers that one, also where it was past. Each
    /// that goes for it is handed to `visit`, under the lock.
    ///
    /// Where the shard has no room for it beside all that are there, the 4 entries that were used longest ago are looked at, in
    /// a time that doesn't grow with the entries, and those of them that are past go first, the key's own among them, which
    /// is not answered then. Then those go that were used longest ago, as many as have to for the others to be within the
    /// shard's part of the limits. So what is past goes before what lives, as far as it is looked for.
    ///
    /// # Errors
    ///
    /// As for a `Cache` with the shard's part of the limits. Key and value are handed back, and no entry goes but what is past.
    pub fn put<F: FnMut(Gone<K, V>) + Drop>(
        &self,
        rt: &impl Wait,
        time: u64,
        key: K,
        value: V,
        weight: usize,
        visit: F,
    ) -> Result<Option<Gone<K, V>>, Refused<K, V>>
        requires visit { (f : _) (x : _) → F.pre f x }
        ensures { MayAct K V S self.now.ages time (λ m before after. PutsIn (λ p x q. F.step p x tt q) visit K.eq m before key value weight result after) }
    {
        let moment = self.at(time);
        calls::put(
            &mut self.locked(rt),
            &self.hash_builder,
            moment,
            key,
            value,
            weight,
            visit,
        )
    }

    /// Puts an entry first in the shard of its key as it stood in another cache, with its end and its deadline: what a
    /// checkpoint brings back. It answers the one that the key had, and lets go what has to go, that used longest ago first,
    /// whether it is past or not, each handed to `visit` under the lock.
    ///
    /// # Errors
    ///
    /// As for a `Cache` with the shard's part of the limits. Key and value are handed back, and nothing changes.
    pub fn put_back<F: FnMut(Gone<K, V>) + Drop>(
        &self,
        rt: &impl Wait,
        key: K,
        until: Until<Aged<V>>,
        weight: usize,
        visit: F,
    ) -> Result<Option<Gone<K, V>>, Refused<K, Until<Aged<V>>>>
        requires visit { F.IsAlwaysCallable visit }
        ensures changes { MayChange K V S (λ before after. PutsCounted (λ p x q. F.step p x tt q) visit K.eq before key until weight result after) }
        ensures puts { MayPutBack K.eq (λ p x q. F.step p x tt q) visit key until weight result }
    {
        calls::put_back(
            &mut self.locked(rt),
            &self.hash_builder,
            key,
            until,
            weight,
            visit,
        )
    }

    /// Takes a key's entry out, by what stands for the key, also where it is past.
    pub fn remove<Q: Query<K>>(&self, rt: &impl Wait, query: Q) -> Option<Gone<K, V>>
        ensures { MayChange K V S (λ before after. Takes Q.stands_for before query result after) }
    {
        calls::remove(&mut self.locked(rt), &self.hash_builder, query)
    }

    /// Uses a key, and answers a clone of its value; or, where it has no entry in its time, puts an entry of what `make` makes,
    /// value and weight, as `put` does, and answers a clone of that value.
    ///
    /// `make` is called under no lock, and only where the key has no entry in its time and nobody makes one. While it runs,
    /// others who call this for the same key wait until `make` is done; where no entry is put then, the next of them makes one.
    /// Other keys go on, but for those of the very same hash, which wait in the same way; so `make` must not call this on the
    /// same cache. A `put` of the key meanwhile, also one that is refused, or a `remove` ends that making: what was made is
    /// answered, and is not put, since it is older. Who waited goes on then, with the entry that was put, or else the next of
    /// them makes one. A call on a whole shard, as `clear_shard`, ends no making.
    ///
    /// # Errors
    ///
    /// No value was made, or the entry was refused, or there is no memory. What is not put is handed back, and no entry goes
    /// but what is past.
    pub fn get_or_put_with<E: Drop, M, F>(
        &self,
        rt: &impl Wait,
        time: u64,
        key: K,
        make: M,
        visit: F,
    ) -> Result<V, NotGot<K, V, E>>
    where
        V: Clone,
        M: FnOnce() -> Result<(V, usize), E> + Drop,
        F: FnMut(Gone<K, V>) + Drop,
        requires make { M.IsAlwaysCallable make }
        requires visit { (f : _) (x : _) → F.pre f x }
        ensures gets { MayGetOrPut S K.eq V.is_clone (M.post make) (λ p x q. F.step p x tt q) visit self.now.ages time key result }
        ensures refused { IfErr result (HandsBack (M.post make) key) }
    {
        let moment = self.at(time);
        calls::get_or_put_with(
            &mut self.locked(rt),
            &self.hash_builder,
            moment,
            key,
            make,
            visit,
        )
    }
}

impl<K: Hash + Drop, V: Drop, const N: usize, S: BuildHasher> SharedDeadlineCache<K, V, N, S> {
    /// Looks at the `most` entries of a shard that were used longest ago, or at all where there are fewer, takes those out that
    /// are past, and hands each to `visit`, under the lock. The others stay where they are. The shards are swept in turn, one
    /// with each call, whoever calls: N calls sweep each.
    pub fn sweep<F: FnMut(Gone<K, V>) + Drop>(
        &self,
        rt: &impl Wait,
        time: u64,
        most: usize,
        visit: F,
    )
        requires { F.IsAlwaysCallable visit }
        ensures { MayChange K V S (λ before after. SweepsShard (λ p x q. F.step p x tt q) visit time most before after) }
    {
        let shard = self.turn.fetch_add(1, Ordering::SeqCst) % N;
        calls::sweep(&mut self.locked(rt), shard, time, most, visit);
    }

    /// Lets all entries of a shard go, the one that was used longest ago first, and hands each to `visit`, under the lock.
    pub fn clear_shard<F: FnMut(Gone<K, V>) + Drop>(&self, rt: &impl Wait, shard: usize, visit: F)
        requires shard { shard < N }
        requires visit { F.IsAlwaysCallable visit }
        ensures { MayChange K V S (λ before after. ClearsShard (λ p x q. F.step p x tt q) visit before after) }
    {
        calls::clear(&mut self.locked(rt), shard, visit);
    }

    /// Lets all entries of a shard go, the one that was used last first, and hands each to `visit`, under the lock.
    pub fn drain_shard<F: FnMut(Gone<K, V>) + Drop>(&self, rt: &impl Wait, shard: usize, visit: F)
        requires shard { shard < N }
        requires visit { F.IsAlwaysCallable visit }
        ensures { MayChange K V S (λ before after. DrainsShard (λ p x q. F.step p x tt q) visit before after) }
    {
        calls::drain(&mut self.locked(rt), shard, visit);
    }

    /// Asks `keep` of each entry of a shard, the one that was used longest ago first, by its key, its value with its deadline,
    /// and its weight, also of those that are past, under the lock, and lets those go for which it answers false. The others
    /// stay, in their order.
    pub fn retain_shard<F: FnMut(&K, &Until<Aged<V>>, usize) -> bool + Drop>(
        &self,
        rt: &impl Wait,
        shard: usize,
        keep: F,
    )
        requires shard { shard < N }
        requires keep { F.IsAlwaysCallable keep }
        ensures { MayChange K V S (λ before after. RetainsShard (λ p k v w b q. F.step p k v w b q) keep before after) }
    {
        calls::retain(&mut self.locked(rt), shard, keep);
    }

    /// Takes the entry of a shard out that was used longest ago there, whether it is past or not, under its lock.
    pub fn pop_last_of(&self, rt: &impl Wait, shard: usize) -> Option<Gone<K, V>>
        requires { shard < N }
        ensures { MayChange K V S (λ before after. PopsShard before result after) }
    {
        calls::pop_last(&mut self.locked(rt), shard)
    }

    /// Gives a shard other limits, as `Limits::part` tells its part of those of the whole. Then its entries that were used
    /// longest ago go, as many as have to, and each is handed to `visit`, under the lock.
    pub fn set_shard_limits<F: FnMut(Gone<K, V>) + Drop>(
        &self,
        rt: &impl Wait,
        shard: usize,
        limits: Limits,
        visit: F,
    )
        requires shard { shard < N }
        requires visit { F.IsAlwaysCallable visit }
        ensures { MayChange K V S (λ before after. LimitsShard (λ p x q. F.step p x tt q) visit limits.weight limits.entries before after) }
    {
        calls::set_limits(&mut self.locked(rt), shard, limits, visit);
    }
}
