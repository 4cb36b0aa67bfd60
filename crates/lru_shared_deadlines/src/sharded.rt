//! A cache whose entries end, of one owner, in shards: what a shared one is behind its locks.
ghost use Rattle.std.specs.Prelude.{◌≡◌, ◌+◌, ◌<◌, ◌/◌, ◌%◌, is_some, length, replicate, vec_len, IfOk};
ghost use Rattle.lru_index.specs.Hashing.{key_hash, seeded, unseeded};
ghost use Rattle.lru_owned_cache.specs.Cache.{hashes_from};
ghost use Rattle.lru_deadlines.specs.Deadlines.{living};
ghost use Rattle.lru_owned_cache.specs.Entries.{weight_of};
ghost use Rattle.lru_shared_cache.specs.Shards.{home, Sees, Owns};
ghost use Rattle.lru_shared_deadlines.specs.Ages.{moment};
ghost use Rattle.lru_shared_deadlines.specs.Calls.{ShowsLiving, Lends, Gets, SweepsShard, PutsIn, VisitsEach, GetsOrPuts};
ghost use Rattle.lru_shared_cache.specs.Counts.{total};
ghost use Rattle.lru_shared_cache.specs.Calls.{RetainsShard};
ghost use Rattle.lru_shared_cache.specs.Counting.{Takes, PopsShard, ClearsShard, DrainsShard, LimitsShard, PutsCounted};
ghost use Rattle.lru_shared_cache.specs.Sharded.{empty_shard};
ghost use Rattle.lru_shared_deadlines.specs.Sharded.{empty_shards};

use crate::ages::Moment;
pub use crate::ages::{Aged, Ages, Gone};
use crate::calls;
use crate::one::DeadlineShard;
use lru_deadlines::deadlines::{DeadlineCache, Until};
use lru_index::alike::SameHashes;
use lru_index::hashing::SeededHashes;
use lru_index::keys::Query;
use lru_owned_cache::cache::Refused;
use lru_shared_cache::counts::{Counted, Counts, shard_stats, total};
pub use lru_shared_cache::limits::Limits;
use lru_shared_cache::shards::Owned;
use lru_shared_cache::shared::NotGot;
use std::alloc::{AllocError, Global};
use std::fmt;
use std::fmt::{Debug, Formatter};
use std::hash::{BuildHasher, Hash};
use std::marker::Model;

/// A cache whose entries end, in N shards of one owner, each a `DeadlineCache` of its own.
///
/// An entry is answered for a time since it was put and for a time since it was last used (`Ages`), by the time that is handed
/// to each call, in the caller's unit; then it is past, and is answered as if it were not there. What is past stays until a
/// put needs its room, `sweep` comes to it, or it is taken out; until then it counts. A key's shard is told by its hash: the
/// low 32 bits of that modulo N. Each shard has a part of the limits, `weight / N` and `entries / N`. It is what a
/// `SharedDeadlineCache` is behind its locks, whose calls are the same.
#[derive(Drop)]
pub struct ShardedDeadlineCache<K: Hash, V, const N: usize, S: BuildHasher = SeededHashes> {
    shards: Owned<Counted<DeadlineCache<K, Aged<V>, S>>>,
    hash_builder: S,
    ages: Ages,
    turn: usize,
}

impl<K: Hash, V, const N: usize, S: BuildHasher> Model for ShardedDeadlineCache<K, V, N, S> {
    ghost use Rattle.lru_shared_deadlines.specs.Sharded.{Sharded, sharded, sharded_code, AreInTurn};

    ghost Value = { Sharded K V S };

    ghost coded = { sharded_code K.code V.code S.code };

    ghost view = { λ c. sharded c.shards.shards.items c.hash_builder c.ages c.turn };

    ghost invariant = { λ c. AreInTurn N c.shards.shards.items c.turn };
}

/// Tells how many shards there are, and how long entries are answered.
impl<K: Hash, V, const N: usize, S: BuildHasher> Debug for ShardedDeadlineCache<K, V, N, S> {
    fn fmt<W: fmt::Write>(&self, f: &mut Formatter<W>) -> fmt::Result {
        f.debug_struct("ShardedDeadlineCache")
            .field("shards", &N)
            .field("ages", &self.ages)
            .finish_non_exhaustive()
    }
}

// Shards without entries, each under its part of the limits.
pub(crate) fn empty_shards<K: Hash + Drop, V: Drop, S: BuildHasher + Copy + Drop>(
    alloc: Global,
    limits: Limits,
    shards: usize,
    hash_builder: S,
) -> Result<Vec<DeadlineShard<K, V, S>>, AllocError>
    requires { 0 < shards }
    ensures many { IfOk result (λ made. vec_len made ≡ shards) }
    ensures empty { IfOk result (λ made. made.items ≡ replicate shards (empty_shard hash_builder (limits.weight / shards) (limits.entries / shards))) }
{
    let (weight, entries) = (limits.weight / shards, limits.entries / shards);
    let mut made = Vec::with_capacity(alloc, shards)?;
    for _ in 0..shards {
        let cache = DeadlineCache::with_hasher(alloc, weight, entries, hash_builder)?;
        let counts = Counts::none();
        made.push(Counted { cache, counts })?;
    }
    Ok(made)
}

impl<K: Hash + Drop, V: Drop, const N: usize> ShardedDeadlineCache<K, V, N, SeededHashes> {
    /// A cache of no entries, under limits that are divided among the shards. The seed of the hashes stays the same from run to
    /// run.
    ///
    /// # Errors
    ///
    /// There is no memory.
    pub fn new(alloc: Global, limits: Limits, ages: Ages) -> Result<Self, AllocError>
        requires { 0 < N }
        ensures { IfOk result (λ cache. cache ≡ empty_shards N (hashes_from unseeded) ages (limits.weight / N) (limits.entries / N)) }
    {
        ShardedDeadlineCache::with_hasher(alloc, limits, ages, SeededHashes::fixed())
    }

    /// A cache as `new` makes it, with a seed for the hashes: who picks the keys and does not know it can't pick keys that
    /// collide.
    ///
    /// # Errors
    ///
    /// There is no memory.
    pub fn with_seed(
        alloc: Global,
        limits: Limits,
        ages: Ages,
        seed: u64,
    ) -> Result<Self, AllocError>
        requires { 0 < N }
        ensures { IfOk result (λ cache. cache ≡ empty_shards N (hashes_from (seeded seed)) ages (limits.weight / N) (limits.entries / N)) }
    {
        let hash_builder = SeededHashes::with_seed(seed);
        ShardedDeadlineCache::with_hasher(alloc, limits, ages, hash_builder)
    }
}

impl<K: Hash + Drop, V: Drop, const N: usize, S: BuildHasher + Copy + Drop> ShardedDeadlineCache<
    K,
    V,
    N,
    S,
> {
    /// A cache as `new` makes it, over hashers of the caller's.
    ///
    /// # Errors
    ///
    /// There is no memory.
    pub fn with_hasher(
        alloc: Global,
        limits: Limits,
        ages: Ages,
        hash_builder: S,
    ) -> Result<Self, AllocError>
        requires { 0 < N }
        ensures { IfOk result (λ cache. cache ≡ empty_shards N hash_builder ages (limits.weight / N) (limits.entries / N)) }
    {
        let shards = empty_shards(alloc, limits, N, hash_builder)?;
        Ok(ShardedDeadlineCache {
            shards: Owned { shards },
            hash_builder,
            ages,
            turn: 0,
        })
    }
}

impl<K: Hash, V, const N: usize, S: BuildHasher> ShardedDeadlineCache<K, V, N, S> {
    /// The number of shards, N.
    pub fn shards(&self) -> usize
        ensures value { result ≡ N }
        ensures some { 0 < N }
        ensures many { length self.now.shards ≡ N }
    {
        self.shards.shards.len()
    }

    /// How long entries are answered.
    pub fn ages(&self) -> Ages
        ensures { result ≡ self.now.ages }
    {
        self.ages
    }

    /// How many entries a shard has, with those that are past.
    pub fn shard_len(&self, shard: usize) -> usize
        requires { shard < N }
        ensures { Sees self.now.shards shard (λ shard. result ≡ length shard.cache.entries) }
    {
        calls::shard_len(&self.shards, shard)
    }

    /// What the entries of a shard weigh together, with those that are past.
    pub fn shard_weight(&self, shard: usize) -> usize
        requires { shard < N }
        ensures { Sees self.now.shards shard (λ shard. result ≡ weight_of shard.cache.entries) }
    {
        calls::shard_weight(&self.shards, shard)
    }

    /// What the calls on a shard met, since the cache was made.
    pub fn shard_stats(&self, shard: usize) -> Counts
        requires { shard < N }
        ensures { Sees self.now.shards shard (λ shard. result ≡ shard.counts) }
    {
        shard_stats(&self.shards, shard)
    }

    /// What the calls met, since the cache was made: the sum over the shards.
    pub fn stats(&self) -> Counts
        ensures { result ≡ total self.now.shards }
    {
        total(&self.shards.shards)
    }

    /// Calls a closure with the key, the value with its deadline, and the weight of each entry of a shard, most recent first,
    /// with those that are past. None is used by that.
    pub fn iter_for_each<F: FnMut((&K, &Until<Aged<V>>, usize))>(&self, shard: usize, visit: F)
        requires shard { shard < N }
        requires visit { F.IsAlwaysCallable visit }
        ensures { Sees self.now.shards shard (λ shard. VisitsEach (λ p x q. F.step p x tt q) visit shard.cache.entries) }
    {
        calls::visit_each(&self.shards, shard, visit);
    }
}

impl<K: Hash, V, const N: usize, S: BuildHasher + SameHashes> ShardedDeadlineCache<K, V, N, S> {
    /// Whether a key has an entry in its time, or what stands for the key: a reference to it, or a `&str` where keys are
    /// texts.
    pub fn contains<Q: Query<K>>(&self, time: u64, query: Q) -> bool
        ensures { Sees self.now.shards (home N (key_hash S.BuildHasher S.Hasher.Hasher Q.hash_input self.now.hashes query))
            (λ shard. result ≡ is_some (living Q.stands_for time shard.cache.entries query)) }
    {
        calls::contains(&self.shards, &self.hash_builder, time, query)
    }

    /// Shows the value of a key to `show`, by what stands for it, and answers what it does. The key is not used by that. One
    /// without an entry in its time is answered by `None`, and nothing is called.
    pub fn peek_with<Q: Query<K>, R, F: FnOnce(&V) -> R>(
        &self,
        time: u64,
        query: Q,
        show: F,
    ) -> Option<R>
        requires { F.IsAlwaysCallable show }
        ensures { Sees self.now.shards (home N (key_hash S.BuildHasher S.Hasher.Hasher Q.hash_input self.now.hashes query))
            (λ shard. ShowsLiving Q.stands_for (F.post show) time shard.cache.entries query result) }
    {
        calls::peek(&self.shards, &self.hash_builder, time, query, show)
    }

    /// Uses a key, by what stands for it, and answers a clone of its value. Where it has no entry in its time, nothing changes.
    ///
    /// # Errors
    ///
    /// There is no memory for the clone. The key is used all the same.
    pub fn get<Q: Query<K>>(&mut self, time: u64, query: Q) -> Result<Option<V>, AllocError>
    where
        V: Clone,
        ensures acts { Owns self.old.shards (home N (key_hash S.BuildHasher S.Hasher.Hasher Q.hash_input self.old.hashes query))
            (λ before after. Gets Q.stands_for V.is_clone (moment time self.old.ages) before query result after) self.new.shards }
        ensures hashes { self.new.hashes ≡ self.old.hashes }
        ensures ages { self.new.ages ≡ self.old.ages }
        ensures turn { self.new.turn ≡ self.old.turn }
    {
        let ages = self.ages;
        let moment = Moment { time, ages };
        calls::get(&mut self.shards, &self.hash_builder, moment, query)
    }

    /// Uses a key, by what stands for it, lends its value to `show` with its weight, and answers what `show` does. Its weight
    /// stays. A key without an entry in its time is answered by `None`, and nothing is called.
    pub fn get_with<Q: Query<K>, R, F: FnOnce(&mut V, usize) -> R + Drop>(
        &mut self,
        time: u64,
        query: Q,
        show: F,
    ) -> Option<R>
        requires { F.IsAlwaysCallable show }
        ensures acts { Owns self.old.shards (home N (key_hash S.BuildHasher S.Hasher.Hasher Q.hash_input self.old.hashes query))
            (λ before after. Lends Q.stands_for (F.post show) (moment time self.old.ages) before query result after) self.new.shards }
        ensures hashes { self.new.hashes ≡ self.old.hashes }
        ensures ages { self.new.ages ≡ self.old.ages }
        ensures turn { self.new.turn ≡ self.old.turn }
    {
        let ages = self.ages;
        let moment = Moment { time, ages };
        calls::lend(&mut self.shards, &self.hash_builder, moment, query, show)
    }
}

impl<K: Hash + Drop, V: Drop, const N: usize, S: BuildHasher + SameHashes> ShardedDeadlineCache<
    K,
    V,
    N,
    S,
> {
    /// Puts an entry first in the shard of its key, in place of its key's, and answers that one, also where it was past. Each
    /// that goes for it is handed to `visit`.
    ///
    /// Where the shard has no room for it beside all that are there, the 4 entries that were used longest ago are looked at, in
    /// a time that doesn't grow with the entries, and those of them that are past go first, the key's own among them, which
    /// is not answered then. Then those go that were used longest ago, as many as have to for the others to be within the
    /// shard's part of the limits. So what is past goes before what lives, as far as it is looked for.
    ///
    /// # Errors
    ///
    /// As for a `Cache` with the shard's part of the limits. Key and value are handed back, and no entry goes but what is past.
    pub fn put<F: FnMut(Gone<K, V>) + Drop>(
        &mut self,
        time: u64,
        key: K,
        value: V,
        weight: usize,
        visit: F,
    ) -> Result<Option<Gone<K, V>>, Refused<K, V>>
        requires visit { (f : _) (x : _) → F.pre f x }
        ensures acts { Owns self.old.shards (home N (key_hash S.BuildHasher S.Hasher.Hasher K.hash_input self.old.hashes key))
            (λ before after. PutsIn (λ p x q. F.step p x tt q) visit K.eq (moment time self.old.ages) before key value weight result after) self.new.shards }
        ensures hashes { self.new.hashes ≡ self.old.hashes }
        ensures ages { self.new.ages ≡ self.old.ages }
        ensures turn { self.new.turn ≡ self.old.turn }
    {
        let ages = self.ages;
        let moment = Moment { time, ages };
        calls::put(
            &mut self.shards,
            &self.hash_builder,
            moment,
            key,
            value,
            weight,
            visit,
        )
    }

    /// Puts an entry first in the shard of its key as it stood in another cache, with its end and its deadline: what a
    /// checkpoint brings back. It answers the one that the key had, and lets go what has to go, that used longest ago first,
    /// whether it is past or not.
    ///
    /// # Errors
    ///
    /// As for a `Cache` with the shard's part of the limits. Key and value are handed back, and nothing changes.
    pub fn put_back<F: FnMut(Gone<K, V>) + Drop>(
        &mut self,
        key: K,
        until: Until<Aged<V>>,
        weight: usize,
        visit: F,
    ) -> Result<Option<Gone<K, V>>, Refused<K, Until<Aged<V>>>>
        requires visit { F.IsAlwaysCallable visit }
        ensures acts { Owns self.old.shards (home N (key_hash S.BuildHasher S.Hasher.Hasher K.hash_input self.old.hashes key))
            (λ before after. PutsCounted (λ p x q. F.step p x tt q) visit K.eq before key until weight result after) self.new.shards }
        ensures hashes { self.new.hashes ≡ self.old.hashes }
        ensures ages { self.new.ages ≡ self.old.ages }
        ensures turn { self.new.turn ≡ self.old.turn }
    {
        calls::put_back(
            &mut self.shards,
            &self.hash_builder,
            key,
            until,
            weight,
            visit,
        )
    }

    /// Takes a key's entry out, by what stands for the key, also where it is past.
    pub fn remove<Q: Query<K>>(&mut self, query: Q) -> Option<Gone<K, V>>
        ensures acts { Owns self.old.shards (home N (key_hash S.BuildHasher S.Hasher.Hasher Q.hash_input self.old.hashes query))
            (λ before after. Takes Q.stands_for before query result after) self.new.shards }
        ensures hashes { self.new.hashes ≡ self.old.hashes }
        ensures ages { self.new.ages ≡ self.old.ages }
        ensures turn { self.new.turn ≡ self.old.turn }
    {
        calls::remove(&mut self.shards, &self.hash_builder, query)
    }

    /// Uses a key, and answers a clone of its value; or, where it has no entry in its time, puts an entry of what `make` makes,
    /// value and weight, as `put` does, and answers a clone of that value.
    ///
    /// # Errors
    ///
    /// No value was made, or the entry was refused, or there is no memory. What is not put is handed back, and no entry goes
    /// but what is past.
    pub fn get_or_put_with<E: Drop, M, F>(
        &mut self,
        time: u64,
        key: K,
        make: M,
        visit: F,
    ) -> Result<V, NotGot<K, V, E>>
    where
        V: Clone,
        M: FnOnce() -> Result<(V, usize), E> + Drop,
        F: FnMut(Gone<K, V>) + Drop,
        requires make { M.IsAlwaysCallable make }
        requires visit { (f : _) (x : _) → F.pre f x }
        ensures acts { GetsOrPuts ⊥ K.eq V.is_clone (M.post make) (λ p x q. F.step p x tt q) visit
            (λ s P t. Owns s (home N (key_hash S.BuildHasher S.Hasher.Hasher K.hash_input self.old.hashes key)) P t) (moment time self.old.ages) key self.old.shards result self.new.shards }
        ensures hashes { self.new.hashes ≡ self.old.hashes }
        ensures ages { self.new.ages ≡ self.old.ages }
        ensures turn { self.new.turn ≡ self.old.turn }
    {
        let ages = self.ages;
        let moment = Moment { time, ages };
        calls::get_or_put_with(
            &mut self.shards,
            &self.hash_builder,
            moment,
            key,
            make,
            visit,
        )
    }
}

impl<K: Hash + Drop, V: Drop, const N: usize, S: BuildHasher> ShardedDeadlineCache<K, V, N, S> {
    /// Looks at the `most` entries of a shard that were used longest ago, or at all where there are fewer, takes those out that
    /// are past, and hands each to `visit`. The others stay where they are. The shards are swept in turn, one with each call:
    /// N calls sweep each.
    pub fn sweep<F: FnMut(Gone<K, V>) + Drop>(&mut self, time: u64, most: usize, visit: F)
        requires { F.IsAlwaysCallable visit }
        ensures acts { Owns self.old.shards self.old.turn (λ before after. SweepsShard (λ p x q. F.step p x tt q) visit time most before after) self.new.shards }
        ensures turn { self.new.turn ≡ (self.old.turn + 1) % N }
        ensures hashes { self.new.hashes ≡ self.old.hashes }
        ensures ages { self.new.ages ≡ self.old.ages }
    {
        let shard = self.turn;
        self.turn = (shard + 1) % N;
        calls::sweep(&mut self.shards, shard, time, most, visit);
    }

    /// Lets all entries of a shard go, the one that was used longest ago first, and hands each to `visit`.
    pub fn clear_shard<F: FnMut(Gone<K, V>) + Drop>(&mut self, shard: usize, visit: F)
        requires shard { shard < N }
        requires visit { F.IsAlwaysCallable visit }
        ensures acts { Owns self.old.shards shard (λ before after. ClearsShard (λ p x q. F.step p x tt q) visit before after) self.new.shards }
        ensures hashes { self.new.hashes ≡ self.old.hashes }
        ensures ages { self.new.ages ≡ self.old.ages }
        ensures turn { self.new.turn ≡ self.old.turn }
    {
        calls::clear(&mut self.shards, shard, visit);
    }

    /// Lets all entries of a shard go, the one that was used last first, and hands each to `visit`.
    pub fn drain_shard<F: FnMut(Gone<K, V>) + Drop>(&mut self, shard: usize, visit: F)
        requires shard { shard < N }
        requires visit { F.IsAlwaysCallable visit }
        ensures acts { Owns self.old.shards shard (λ before after. DrainsShard (λ p x q. F.step p x tt q) visit before after) self.new.shards }
        ensures hashes { self.new.hashes ≡ self.old.hashes }
        ensures ages { self.new.ages ≡ self.old.ages }
        ensures turn { self.new.turn ≡ self.old.turn }
    {
        calls::drain(&mut self.shards, shard, visit);
    }

    /// Asks `keep` of each entry of a shard, the one that was used longest ago first, by its key, its value with its deadline,
    /// and its weight, also of those that are past, and lets those go for which it answers false. The others stay, in their
    /// order.
    pub fn retain_shard<F: FnMut(&K, &Until<Aged<V>>, usize) -> bool + Drop>(
        &mut self,
        shard: usize,
        keep: F,
    )
        requires shard { shard < N }
        requires keep { F.IsAlwaysCallable keep }
        ensures acts { Owns self.old.shards shard (λ before after. RetainsShard (λ p k v w b q. F.step p k v w b q) keep before after) self.new.shards }
        ensures hashes { self.new.hashes ≡ self.old.hashes }
        ensures ages { self.new.ages ≡ self.old.ages }
        ensures turn { self.new.turn ≡ self.old.turn }
    {
        calls::retain(&mut self.shards, shard, keep);
    }

    /// Takes the entry of a shard out that was used longest ago there, whether it is past or not.
    pub fn pop_last_of(&mut self, shard: usize) -> Option<Gone<K, V>>
        requires { shard < N }
        ensures acts { Owns self.old.shards shard (λ before after. PopsShard before result after) self.new.shards }
        ensures hashes { self.new.hashes ≡ self.old.hashes }
        ensures ages { self.new.ages ≡ self.old.ages }
        ensures turn { self.new.turn ≡ self.old.turn }
    {
        calls::pop_last(&mut self.shards, shard)
    }

    /// Gives a shard other limits, as `Limits::part` tells its part of those of the whole. Then its entries that were used
    /// longest ago go, as many as have to, and each is handed to `visit`.
    pub fn set_shard_limits<F: FnMut(Gone<K, V>) + Drop>(
        &mut self,
        shard: usize,
        limits: Limits,
        visit: F,
    )
        requires shard { shard < N }
        requires visit { F.IsAlwaysCallable visit }
        ensures acts { Owns self.old.shards shard (λ before after. LimitsShard (λ p x q. F.step p x tt q) visit limits.weight limits.entries before after) self.new.shards }
        ensures hashes { self.new.hashes ≡ self.old.hashes }
        ensures ages { self.new.ages ≡ self.old.ages }
        ensures turn { self.new.turn ≡ self.old.turn }
    {
        calls::set_limits(&mut self.shards, shard, limits, visit);
    }
}
