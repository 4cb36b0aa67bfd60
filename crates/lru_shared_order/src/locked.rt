//! What lies behind the lock of a shard.
ghost use Rattle.std.specs.Prelude.{◌≡◌, ℕ, ◌%◌, ◌<◌, ◌≤◌, max, not, length, IfOk, IfSome, OnOk};
ghost use Rattle.lru_shard.specs.Limits.{cap_of};
ghost use Rattle.lru_shard.specs.Shards.{AreAtHome, IsOwn};

use crate::look::Look;
use crate::shed::{ShardRoom, shed};
use crate::{Admission, admit_each};
use lru_index::hashing::SeededHashes;
use lru_shard::totals::Totals;
use lru_shard::unit::{Cause, LruUnit, Refused};
use std::alloc::{AllocError, Global};

// What lies behind a shard's lock. Its calls are all that is done under the lock, on the shard that it lends.
#[derive(Drop)]
pub(crate) struct LockedUnit<T, const N: usize> {
    // which shard it is; it lies beside the lock's own word
    pub(crate) number: usize,
    pub(crate) unit: LruUnit<T>,
    ghost capped: { unit.cap ≡ cap_of N },
    ghost below: { number < N },
    ghost home: { AreAtHome N number unit.rows },
}

impl<T, const N: usize> LockedUnit<T, N> {
    ghost use Rattle.std.specs.Prelude.{[], List, map, option_map};
    ghost use Rattle.lru_shard.specs.Row.{weight_of, pair_of, row_of, is_held, last_row};
    ghost use Rattle.lru_shard.specs.Shard.{shard, IsShard};
    ghost use Rattle.lru_shard.specs.Unit.{VisitsEach};
    ghost use Rattle.lru_shard.specs.Unit.{needs_promote};

    pub(crate) fn with_capacity(
        alloc: Global,
        capacity: usize,
        number: usize,
        hashes: SeededHashes,
    ) -> Result<Self, AllocError>
    where
        T: Drop,
        requires { number < N }
        ensures { IfOk result (λ locked. locked.unit ≡ shard [] (cap_of N)) }
    {
        let cap = usize::MAX / N;
        Ok(LockedUnit {
            unit: LruUnit::with_capacity_and_hasher(alloc, capacity, cap, hashes)?,
            number,
        })
    }

    // The shard, out of its lock.
    pub(crate) fn into_unit(self) -> LruUnit<T>
        ensures { IsOwn N self.number result }
    {
        let LockedUnit { unit, .. } = self;
        // Read for the proof alone, which learns from it what the type says of itself (here and below).
        let _weight = unit.used_weight();
        unit
    }

    pub(crate) fn look_at<A, L: Look<T, A>>(&self, look: L) -> A
        ensures told { L.tells look self.now.unit result }
        ensures valid { IsShard self.now.unit }
    {
        let _weight = self.unit.used_weight();
        look.look_at(&self.unit)
    }

    pub(crate) fn totals(&self) -> Totals
        ensures weight { result.weight ≡ weight_of self.now.unit.rows }
        ensures len { result.len ≡ length self.now.unit.rows }
        ensures light { result.weight ≤ cap_of N }
    {
        Totals::of(&self.unit)
    }

    pub(crate) fn holds(&self, key: u64) -> bool
        ensures answer { result ≡ is_held self.now.unit.rows key }
        ensures valid { IsShard self.now.unit }
    {
        let _weight = self.unit.used_weight();
        self.unit.contains(key)
    }

    #[tactic(auto, using(crate::proofs::LruCaps::row_weight_light))]
    pub(crate) fn weight_at(&self, key: u64) -> Option<usize>
        ensures value { result ≡ option_map (λ r. r.weight) (row_of self.now.unit.rows key) }
        ensures light { IfSome result (λ weight. weight ≤ cap_of N) }
    {
        let _weight = self.unit.used_weight();
        self.unit.peek_weight(key)
    }

    pub(crate) fn cloned_last(&self) -> Result<Option<(T, usize)>, AllocError>
    where
        T: Clone,
        requires { (d e : T) → T.is_clone d e → e ≡ d }
        ensures value { IfOk result (λ found. found ≡ option_map pair_of (last_row self.now.unit.rows)) }
        ensures light { IfOk result (λ found. IfSome found (λ pair. pair.1 ≤ cap_of N)) }
    {
        let _weight = self.unit.used_weight();
        let Some((data, weight)) = self.unit.peek_lru() else {
            return Ok(None);
        };
        Ok(Some((data.clone()?, weight)))
    }

    pub(crate) fn visit<F: FnMut((&T, usize))>(&self, mut visit: F)
        requires { F.IsAlwaysCallable visit }
        ensures visited { VisitsEach (λ p x q. F.step p x tt q) visit self.now.unit.rows }
        ensures valid { IsShard self.now.unit }
    {
        let _weight = self.unit.used_weight();
        let mut rest = self.unit.iter();
        while let Some(pair) = rest.next() {
            visit(pair);
        }
    }

    pub(crate) fn is_among_first(&self, key: u64, top: usize) -> bool
        ensures answer { result ≡ not (needs_promote self.now.unit.rows key top) }
        ensures valid { IsShard self.now.unit }
    {
        let _weight = self.unit.used_weight();
        !self.unit.need_promote(key, top)
    }

    pub(crate) fn reserve(&mut self, additional: usize) -> Result<(), AllocError>
        ensures { self.new.unit ≡ self.old.unit }
    {
        self.unit.reserve(additional)
    }
}

impl<T: Drop, const N: usize> LockedUnit<T, N> {
    ghost use Rattle.std.specs.Prelude.{option_map};
    ghost use Rattle.lru_shard.specs.Row.{pair_of, row_of, is_held, without, last_row, without_last};
    ghost use Rattle.lru_shard.specs.Shard.{shard, IsShard};
    ghost use Rattle.lru_shard.specs.Unit.{InsertsTail, Updates, accessed};
    ghost use Rattle.lru_shard.specs.ShardCalls.{AdmitsRaised, SetsRaised, IncrementsTo, UpdatesFrom};
    ghost use Rattle.lru_shared_order.specs.Batches.{AdmitsEach};
    ghost use Rattle.lru_shared_order.specs.Sheds.{Sheds, AdmitsAndSheds, EvictsBesides, VisitsLight};

    // A weight of 0 counts as 1.
    #[tactic(auto, using(crate::proofs::LruCaps::admit_light))]
    pub(crate) fn admit(&mut self, key: u64, data: T, weight: usize) -> Result<usize, Refused<T>>
        requires { key % N ≡ self.old.number }
        ensures row { AdmitsRaised self.old.unit key «data» weight result self.new.unit }
        ensures light { OnOk result (max weight 1 ≤ cap_of N) }
    {
        let answer = self.unit.admit(key, data, weight.max(1));
        let _weight = self.unit.used_weight();
        answer
    }

    // Admits, then evicts last rows while the shard is past its room, but not the row just put, and calls a closure with each. It
    // answers what they were together.
    #[tactic(auto, using(crate::proofs::LruCaps::admit_light))]
    pub(crate) fn admit_and_evict<F: FnMut((T, usize))>(
        &mut self,
        key: u64,
        data: T,
        weight: usize,
        room: ShardRoom,
        visit: &mut F,
    ) -> Result<Totals, Refused<T>>
        requires home { key % N ≡ self.old.number }
        requires callable { F.IsAlwaysCallable visit.old }
        ensures again { F.IsAlwaysCallable visit.new }
        ensures row { AdmitsAndSheds (λ p x q. F.step p x tt q) visit.old self.old.unit key «data» weight room.weight room.len result self.new.unit visit.new }
        ensures light { OnOk result (max weight 1 ≤ cap_of N) }
        ensures visited { VisitsLight (λ p x q. F.step p x tt q) visit.old (cap_of N) visit.new }
    {
        self.admit(key, data, weight)?;
        Ok(self.shed(room, visit))
    }

    pub(crate) fn shed<F: FnMut((T, usize))>(&mut self, room: ShardRoom, visit: &mut F) -> Totals
        requires { F.IsAlwaysCallable visit.old }
        ensures again { F.IsAlwaysCallable visit.new }
        ensures rows { Sheds (λ p x q. F.step p x tt q) visit.old self.old.unit room.weight room.len self.new.unit visit.new }
        ensures visited { VisitsLight (λ p x q. F.step p x tt q) visit.old (cap_of N) visit.new }
    {
        let _weight = self.unit.used_weight();
        shed(&mut self.unit, room, visit)
    }

    // Admits those of a batch that wait for this shard, in the batch's order, and answers each in its place.
    pub(crate) fn admit_each(&mut self, batch: &mut Vec<Admission<T>>)
        ensures { AdmitsEach N self.old.number self.old.unit batch.old.items batch.new.items self.new.unit }
    {
        admit_each::<T, N>(&mut self.unit, batch, self.number);
    }

    // Evicts the last row, unless it is that of a key.
    pub(crate) fn evict_besides(&mut self, key: u64) -> Option<(T, usize)>
        ensures row { EvictsBesides self.old.unit key result self.new.unit }
        ensures light { IfSome result (λ pair. pair.1 ≤ cap_of N) }
    {
        if self.unit.lru_key()? == key {
            return None;
        }
        self.evict()
    }

    pub(crate) fn insert_tail(
        &mut self,
        key: u64,
        data: T,
        weight: usize,
    ) -> Result<bool, Refused<T>>
        requires { key % N ≡ self.old.number }
        ensures { InsertsTail self.old.unit key «data» weight result self.new.unit }
    {
        self.unit.insert_tail(key, data, weight)
    }

    // It answers the new weight.
    #[tactic(auto, using(crate::proofs::LruCaps::increment_light))]
    pub(crate) fn increment_weight<F: FnOnce() -> T + Drop>(
        &mut self,
        key: u64,
        admit_data: F,
        delta: usize,
        max_weight: Option<usize>,
    ) -> Result<usize, Cause>
        requires home { key % N ≡ self.old.number }
        requires callable { F.IsAlwaysCallable admit_data }
        ensures row { IncrementsTo (F.post admit_data) self.old.unit key delta max_weight result self.new.unit }
        ensures light { IfOk result (λ weight. weight ≤ cap_of N) }
    {
        let answer = self
            .unit
            .increment_weight(key, admit_data, delta, max_weight);
        let _weight = self.unit.used_weight();
        let (_, new_weight, _) = answer?;
        Ok(new_weight)
    }

    // It answers the weight that the key had.
    pub(crate) fn update_or_admit<U, A>(
        &mut self,
        key: u64,
        update: U,
        admit_data: A,
    ) -> Result<Option<usize>, Refused<Option<(T, usize)>>>
    where
        U: FnOnce(&mut T, usize) -> usize + Drop,
        A: FnOnce() -> (T, usize) + Drop,
        requires home { key % N ≡ self.old.number }
        requires update { U.IsAlwaysCallable update }
        requires admit_data { A.IsAlwaysCallable admit_data }
        ensures { UpdatesFrom (Updates (U.post update)) (A.post admit_data) self.old.unit key result self.new.unit }
    {
        match self.unit.update_or_admit(key, update, admit_data) {
            Ok((was, _)) => Ok(was),
            Err(refused) => Err(refused.untold()),
        }
    }

    // A weight of 0 counts as 1.
    pub(crate) fn set_weight(&mut self, key: u64, weight: usize) -> Result<Option<usize>, Cause>
        ensures { SetsRaised self.old.unit key weight result self.new.unit }
    {
        self.unit.set_weight(key, weight.max(1))
    }

    pub(crate) fn promote(&mut self, key: u64) -> bool
        ensures answer { result ≡ is_held self.old.unit.rows key }
        ensures rows { self.new.unit ≡ shard (accessed self.old.unit.rows key) self.old.unit.cap }
        ensures valid { IsShard self.old.unit }
    {
        let _weight = self.unit.used_weight();
        self.unit.access(key)
    }

    #[tactic(auto, using(crate::proofs::LruCaps::removed_light))]
    pub(crate) fn remove(&mut self, key: u64) -> Option<(T, usize)>
        ensures answer { result ≡ option_map pair_of (row_of self.old.unit.rows key) }
        ensures rows { self.new.unit ≡ shard (without self.old.unit.rows key) self.old.unit.cap }
        ensures light { IfSome result (λ pair. pair.1 ≤ cap_of N) }
    {
        let _weight = self.unit.used_weight();
        self.unit.remove(key)
    }

    #[tactic(auto, using(crate::proofs::LruCaps::last_light))]
    pub(crate) fn evict(&mut self) -> Option<(T, usize)>
        ensures answer { result ≡ option_map pair_of (last_row self.old.unit.rows) }
        ensures rows { self.new.unit ≡ shard (without_last self.old.unit.rows) self.old.unit.cap }
        ensures light { IfSome result (λ pair. pair.1 ≤ cap_of N) }
    {
        let _weight = self.unit.used_weight();
        self.unit.evict()
    }
}
