//! N shards under one limit on their weight, shared by threads: each shard behind a lock of its own.
ghost use Rattle.std.specs.Prelude.{◌≡◌, ◌%◌, ◌<◌, ◌≤◌, max, vec_len, IfOk, IfErr, IfSome, OnOk, Ok, None};
ghost use Rattle.std.specs.Sync.Mutex.{mutex_guard_value};
ghost use Rattle.lru_shard.specs.Limits.{cap_of};
ghost use Rattle.lru_shard.specs.Shards.{AreOwn};

use crate::Admission;
use crate::counters::Counters;
use crate::locked::LockedUnit;
use crate::look::Look;
use crate::shard::{Shard, empty_units, unit_of};
use crossbeam_utils::CachePadded;
use lru_index::hashing::SeededHashes;
use lru_shard::counters::shift;
use lru_shard::totals::{Totals, Units};
use lru_shard::unit::{Cause, Refused};
use std::alloc::{AllocError, Global};
use std::sync::atomic::{AtomicUsize, Ordering};
use std::sync::{MutexGuard, Wait};

/// N shards, each a list of rows, most recent first, behind a lock. A key's shard is the key modulo N.
///
/// It answers, refuses and takes memory as an `LruCore` does, for many threads at once: a call on a key takes the lock
/// of that key's shard and no other, so calls on other shards don't wait for it. A closure that is handed in is
/// called under the lock, and must make no call that waits for the same shard.
///
/// The counters are sums over all shards that other threads may change at any time.
#[derive(Drop)]
pub struct Lru<T, const N: usize> {
    // no two shards share a cache line, so that a thread at one doesn't slow a thread at another
    pub(crate) units: Vec<CachePadded<Shard<T, N>>>,
    pub(crate) counters: CachePadded<Counters>,
    weight_limit: AtomicUsize,
    pub(crate) watermark: Option<usize>,
    ghost some: { 0 < N },
    ghost has_units: { vec_len units ≡ N },
}

impl<T, const N: usize> Lru<T, N> {
    ghost use Rattle.lru_shard.specs.Unit.{VisitsEach};
    ghost use Rattle.lru_shared_order.specs.LruCalls.{MayHold, MaySee, watermark_of};

    /// An empty `Lru` with a limit on its weight. Each shard has room for `capacity` rows, and may weigh
    /// `usize::MAX / N`. The seed of the hashes stays the same from run to run.
    pub fn with_capacity(
        alloc: Global,
        weight_limit: usize,
        capacity: usize,
    ) -> Result<Self, AllocError>
    where
        T: Drop,
        requires { 0 < N }
        ensures { IfOk result (λ lru. watermark_of lru ≡ None) }
    {
        Self::with_capacity_and_watermark(alloc, weight_limit, capacity, None)
    }

    /// An empty `Lru` with a limit on its weight and, where there is a watermark, on its length.
    /// Each shard has room for `capacity` rows, and may weigh `usize::MAX / N`.
    pub fn with_capacity_and_watermark(
        alloc: Global,
        weight_limit: usize,
        capacity: usize,
        watermark: Option<usize>,
    ) -> Result<Self, AllocError>
    where
        T: Drop,
        requires { 0 < N }
        ensures { IfOk result (λ lru. watermark_of lru ≡ watermark) }
    {
        Self::over_hashes(
            alloc,
            weight_limit,
            capacity,
            watermark,
            SeededHashes::fixed(),
        )
    }

    /// The same with a seed for the hashes of all shards: who picks the keys and does not know it can't pick keys that
    /// collide. A key's shard does not hang on it.
    pub fn with_capacity_and_seed(
        alloc: Global,
        weight_limit: usize,
        capacity: usize,
        watermark: Option<usize>,
        seed: u64,
    ) -> Result<Self, AllocError>
    where
        T: Drop,
        requires { 0 < N }
        ensures { IfOk result (λ lru. watermark_of lru ≡ watermark) }
    {
        let hashes = SeededHashes::with_seed(seed);
        Self::over_hashes(alloc, weight_limit, capacity, watermark, hashes)
    }

    fn over_hashes(
        alloc: Global,
        weight_limit: usize,
        capacity: usize,
        watermark: Option<usize>,
        hashes: SeededHashes,
    ) -> Result<Self, AllocError>
    where
        T: Drop,
        requires { 0 < N }
        ensures { IfOk result (λ lru. watermark_of lru ≡ watermark) }
    {
        Ok(Lru {
            units: empty_units(alloc, capacity, hashes)?,
            counters: CachePadded::new(Counters::zero()),
            weight_limit: AtomicUsize::new(weight_limit),
            watermark,
        })
    }

    /// The number of shards, N.
    pub fn shards(&self) -> usize
        ensures value { result ≡ N }
        ensures some { 0 < N }
    {
        self.units.len()
    }

    /// The sum of the weights of all rows.
    pub fn weight(&self) -> usize {
        self.counters.weight.load(Ordering::SeqCst)
    }

    /// The number of all rows.
    pub fn len(&self) -> usize {
        self.counters.len.load(Ordering::SeqCst)
    }

    /// The number of rows of a shard. It takes no lock.
    pub fn shard_len(&self, shard: usize) -> usize
        requires { shard < N }
    {
        self.units[shard].counts.len.load(Ordering::SeqCst)
    }

    /// The weight above which the `Lru` is over.
    pub fn weight_limit(&self) -> usize {
        self.weight_limit.load(Ordering::SeqCst)
    }

    /// Sets the weight above which the `Lru` is over. It evicts nothing.
    pub fn set_weight_limit(&self, limit: usize) {
        self.weight_limit.store(limit, Ordering::SeqCst);
    }

    /// The sum of the weights of all rows evicted so far, modulo 2^64.
    pub fn evicted_weight(&self) -> usize {
        let mut sum = 0usize;
        for unit in &self.units {
            sum = sum.wrapping_add(unit.counts.evicted_weight());
        }
        sum
    }

    /// The number of all rows evicted so far, modulo 2^64.
    pub fn evicted_len(&self) -> usize {
        let mut sum = 0usize;
        for unit in &self.units {
            sum = sum.wrapping_add(unit.counts.evicted_len.load(Ordering::SeqCst));
        }
        sum
    }

    /// The sum of the weights of the rows of a shard.
    pub fn shard_weight(&self, rt: &impl Wait, shard: usize) -> usize
        requires { shard < N }
        ensures { result ≤ cap_of N }
    {
        self.units[shard].lock.lock(rt).totals().weight
    }

    /// Calls a closure with the data and the weight of each row of a shard, most recent first, under the
    /// lock of that shard.
    pub fn iter_for_each<F: FnMut((&T, usize))>(&self, rt: &impl Wait, shard: usize, visit: F)
        requires shard { shard < N }
        requires visit { F.IsAlwaysCallable visit }
        ensures { MaySee N shard (λ s (_ : Unit {0}). VisitsEach (λ p x q. F.step p x tt q) visit s.rows) tt }
    {
        self.unit_at(rt, shard).visit(visit);
    }

    /// Looks at the rows of a shard under its lock, and answers what the look does. No row is used by that, and the look must
    /// make no call that waits for the same shard.
    pub fn look_at<A, L: Look<T, A>>(&self, rt: &impl Wait, shard: usize, look: L) -> A
        requires { shard < N }
        ensures { MaySee N shard (L.tells look) result }
    {
        self.unit_at(rt, shard).look_at(look)
    }

    /// Whether a key has a row.
    pub fn peek(&self, rt: &impl Wait, key: u64) -> bool
        ensures { MayHold T N key result }
    {
        self.units[self.shard_of(key)].lock.lock(rt).holds(key)
    }

    /// The weight of a key.
    pub fn peek_weight(&self, rt: &impl Wait, key: u64) -> Option<usize>
        ensures { IfSome result (λ weight. weight ≤ cap_of N) }
    {
        self.units[self.shard_of(key)].lock.lock(rt).weight_at(key)
    }

    /// The data, cloned, and the weight of the row of a shard that was used longest ago; `None` of an empty
    /// shard, and past N. A clone has to equal its source.
    pub fn peek_lru(&self, rt: &impl Wait, shard: usize) -> Result<Option<(T, usize)>, AllocError>
    where
        T: Clone,
        requires { (d e : T) → T.is_clone d e → e ≡ d }
        ensures past { N ≤ shard → result ≡ Ok None }
        ensures light { IfOk result (λ found. IfSome found (λ pair. pair.1 ≤ cap_of N)) }
    {
        let Some(unit) = self.units.get(shard) else {
            return Ok(None);
        };
        unit.lock.lock(rt).cloned_last()
    }

    /// Makes room for `additional` more rows in a shard; past N it does nothing. Nothing else changes,
    /// also where it is refused.
    pub fn reserve_shard(
        &self,
        rt: &impl Wait,
        shard: usize,
        additional: usize,
    ) -> Result<(), AllocError>
        ensures { N ≤ shard → result ≡ Ok tt }
    {
        let Some(unit) = self.units.get(shard) else {
            return Ok(());
        };
        unit.lock.lock(rt).reserve(additional)
    }

    /// Ends all calls, and answers the shards, in their order, with what was counted of them. The keys of each shard are its
    /// own, and it is within its cap. Where memory is refused, the `Lru` is handed back.
    pub fn into_units(self, rt: &impl Wait, alloc: Global) -> Result<Units<T>, Self>
    where
        T: Drop,
        ensures count { IfOk result (λ left. vec_len left.units ≡ N) }
        ensures own { IfOk result (λ left. AreOwn N left.units.items) }
    {
        let Ok(mut units) = Vec::with_capacity(alloc, N) else {
            return Err(self);
        };
        let totals = Totals {
            weight: self.weight(),
            len: self.len(),
        };
        let Lru { units: shards, .. } = self;
        for shard in shards {
            let number = units.len();
            units.push_reserved(unit_of(rt, shard, number));
        }
        Ok(Units { units, totals })
    }

    pub(crate) fn shard_of(&self, key: u64) -> usize
        ensures value { result ≡ key % N }
        ensures below { result < N }
    {
        // Read for the proof alone, which learns from it what the type says of itself (here and below).
        let _units = &self.units;
        (key % N as u64) as usize
    }

    // Takes the lock of a shard, for a call that may bring a key in. No type says which lock has which shard, so the number is
    // looked at; the first one is the right one.
    #[inline(always)]
    pub(crate) fn unit_at(&self, rt: &impl Wait, shard: usize) -> MutexGuard<'_, LockedUnit<T, N>>
        requires { shard < N }
        ensures { (mutex_guard_value result).number ≡ shard }
    {
        let first = self.units[shard].lock.lock(rt);
        if first.number == shard {
            return first;
        }
        drop(first);
        self.unit_after_another(rt, shard)
    }

    // As `unit_at`, where the first one was not the right one: never, but that no type says so.
    #[cold]
    #[inline(never)]
    fn unit_after_another(&self, rt: &impl Wait, shard: usize) -> MutexGuard<'_, LockedUnit<T, N>>
        requires { shard < N }
        ensures { (mutex_guard_value result).number ≡ shard }
    {
        for _ in rt.forever() {
            let unit = self.units[shard].lock.lock(rt);
            if unit.number == shard {
                return unit;
            }
        }
        unreachable!()
    }

    // Brings the counters after a call on a shard, while its lock is held.
    fn note(&self, shard: usize, before: Totals, after: Totals)
        requires { shard < N }
    {
        shift(&self.counters.weight, before.weight, after.weight);
        shift(&self.counters.len, before.len, after.len);
        shift(&self.units[shard].counts.len, before.len, after.len);
    }
}

impl<T: Drop, const N: usize> Lru<T, N> {
    ghost use Rattle.lru_shared_order.specs.Batches.{AreAnswered};
    ghost use Rattle.lru_shared_order.specs.LruCalls.{HandsBack, MayAnswer, MayHold, MayInsertTail, IsAskedOf};

    /// As `LruCore::admit`: puts a row first in the shard of its key, and answers that shard.
    #[inline(always)]
    pub fn admit(
        &self,
        rt: &impl Wait,
        key: u64,
        data: T,
        weight: usize,
    ) -> Result<usize, Refused<T>>
        ensures shard { IfOk result (λ s. s ≡ key % N) }
        ensures light { OnOk result (max weight 1 ≤ cap_of N) }
        ensures held { IfErr result (λ refused. refused.held ≡ «data») }
    {
        let shard = self.shard_of(key);
        let mut unit = self.unit_at(rt, shard);
        let before = unit.totals();
        let answer = unit.admit(key, data, weight);
        self.note(shard, before, unit.totals());
        answer?;
        Ok(shard)
    }

    /// Admits each of a batch that is still to be admitted, and answers it in its place. The lock of each shard that the batch
    /// is for is taken once: under it those for that shard are admitted as `admit` does, one after the other in the batch's
    /// order. What was answered before stays. It takes no memory but what the shards take for rows.
    pub fn admit_many(&self, rt: &impl Wait, batch: &mut Vec<Admission<T>>)
        ensures { AreAnswered N batch.old.items batch.new.items }
    {
        for place in 0..batch.len() {
            let Some(shard) = batch[place].home::<N>() else {
                continue;
            };
            self.admit_each(rt, shard, batch);
        }
    }

    // Admits those of a batch that wait for this shard.
    fn admit_each(&self, rt: &impl Wait, shard: usize, batch: &mut Vec<Admission<T>>)
        requires { shard < N }
        ensures { IsAskedOf N shard batch.old.items batch.new.items }
    {
        let mut unit = self.unit_at(rt, shard);
        let before = unit.totals();
        unit.admit_each(batch);
        self.note(shard, before, unit.totals());
    }

    /// As `LruCore::insert_tail`: puts a row last where its key has none, and answers whether it did.
    pub fn insert_tail(
        &self,
        rt: &impl Wait,
        key: u64,
        data: T,
        weight: usize,
    ) -> Result<bool, Refused<T>>
        ensures held { IfErr result (λ refused. refused.held ≡ «data») }
        ensures row { MayInsertTail N key «data» weight result }
    {
        let shard = self.shard_of(key);
        let mut unit = self.unit_at(rt, shard);
        let before = unit.totals();
        let answer = unit.insert_tail(key, data, weight);
        self.note(shard, before, unit.totals());
        answer
    }

    /// As `LruCore::increment_weight`: answers the new weight. `admit_data` is called under the lock.
    pub fn increment_weight<F: FnOnce() -> T + Drop>(
        &self,
        rt: &impl Wait,
        key: u64,
        admit_data: F,
        delta: usize,
        max_weight: Option<usize>,
    ) -> Result<usize, Cause>
        requires { F.IsAlwaysCallable admit_data }
        ensures weight { IfOk result (λ w. MayAnswer delta max_weight w) }
        ensures light { IfOk result (λ w. w ≤ cap_of N) }
    {
        let shard = self.shard_of(key);
        let mut unit = self.unit_at(rt, shard);
        let before = unit.totals();
        let answer = unit.increment_weight(key, admit_data, delta, max_weight);
        self.note(shard, before, unit.totals());
        answer
    }

    /// As `LruCore::update_or_admit`: answers the weight that the key had, `None` for a new row. The closures are
    /// called under the lock.
    pub fn update_or_admit<U, A>(
        &self,
        rt: &impl Wait,
        key: u64,
        update: U,
        admit_data: A,
    ) -> Result<Option<usize>, Refused<Option<(T, usize)>>>
    where
        U: FnOnce(&mut T, usize) -> usize + Drop,
        A: FnOnce() -> (T, usize) + Drop,
        requires update { U.IsAlwaysCallable update }
        requires admit_data { A.IsAlwaysCallable admit_data }
        ensures { IfErr result (λ refused. HandsBack (A.post admit_data) refused) }
    {
        let shard = self.shard_of(key);
        let mut unit = self.unit_at(rt, shard);
        let before = unit.totals();
        let answer = unit.update_or_admit(key, update, admit_data);
        self.note(shard, before, unit.totals());
        answer
    }

    /// As `LruCore::set_weight`: answers the weight that the key had, `None` where it has no row.
    pub fn set_weight(
        &self,
        rt: &impl Wait,
        key: u64,
        weight: usize,
    ) -> Result<Option<usize>, Cause>
        ensures { IfErr result (λ cause. cause ≡ Cause.Weight) }
    {
        let shard = self.shard_of(key);
        let mut unit = self.units[shard].lock.lock(rt);
        let before = unit.totals();
        let answer = unit.set_weight(key, weight);
        self.note(shard, before, unit.totals());
        answer
    }

    /// Puts a key's row first, and answers whether there is one.
    pub fn promote(&self, rt: &impl Wait, key: u64) -> bool
        ensures { MayHold T N key result }
    {
        self.units[self.shard_of(key)].lock.lock(rt).promote(key)
    }

    /// As `LruCore::promote_top_n`.
    pub fn promote_top_n(&self, rt: &impl Wait, key: u64, top: usize) -> bool
        ensures { MayHold T N key result }
    {
        let mut unit = self.units[self.shard_of(key)].lock.lock(rt);
        unit.is_among_first(key, top) || unit.promote(key)
    }

    /// Takes a key's row out, and answers its data and weight. It counts as no eviction.
    pub fn remove(&self, rt: &impl Wait, key: u64) -> Option<(T, usize)>
        ensures { IfSome result (λ pair. pair.1 ≤ cap_of N) }
    {
        let shard = self.shard_of(key);
        let mut unit = self.units[shard].lock.lock(rt);
        let before = unit.totals();
        let answer = unit.remove(key);
        self.note(shard, before, unit.totals());
        answer
    }
}
