//! Evictions of a core: which row goes, and how.
ghost use Rattle.std.specs.Prelude.{◌≡◌, ℕ, ◌+◌, ◌%◌, ◌<◌, [], length, Ok, vec_len, slice_index_or, IfOk, IfErr, IfSome, IfNone, OnOk, Option, is_some};
ghost use Rattle.lru_shard.specs.Shard.{shard};
ghost use Rattle.lru_cores.specs.Eviction.{IsVictim};
ghost use Rattle.lru_cores.specs.Sparing.{IsNext, IsLast, GivesUp, HasPut};
ghost use Rattle.lru_cores.specs.Representation.Units.{lists_of};

use crate::lru_core::LruCore;
use lru_shard::eviction::{EvictError, drawn_shards, is_past, longer_of, shard_after};
use lru_shard::unit::{LruUnit, Refused};
use rand_core::Rng;
use std::alloc::Global;
use std::hash::BuildHasher;

// The first shard that holds a row, from this one on and round the circle.
fn first_held<T, S: BuildHasher>(units: &Vec<LruUnit<T, S>>, from: usize) -> Option<usize>
    requires { from < vec_len units.now }
    ensures held { IfSome result (λ at. IsVictim (lists_of units.now.items) from at) }
    ensures at { IfSome result (λ at. at < vec_len units.now) }
    ensures none { IfNone result ((k : ℕ) → k < length (lists_of units.now.items) → slice_index_or (lists_of units.now.items) ((from + k) % length (lists_of units.now.items)) [] ≡ []) }
{
    for steps in 0..units.len() {
        let at = shard_after(from, steps, units.len());
        if units[at].len() > 0 {
            return Some(at);
        }
    }
    None
}

// The first shard that holds a row, behind this one and round the circle.
fn next_held<T, S: BuildHasher>(units: &Vec<LruUnit<T, S>>, from: usize) -> Option<usize>
    requires { from < vec_len units.now }
    ensures held { IfSome result (λ at. IsNext (lists_of units.now.items) from at) }
    ensures at { IfSome result (λ at. at < vec_len units.now) }
    ensures none { IfNone result (IsLast (lists_of units.now.items) from) }
{
    for steps in 1..units.len() {
        let at = shard_after(from, steps, units.len());
        if units[at].len() > 0 {
            return Some(at);
        }
    }
    None
}

impl<T, const N: usize, S: BuildHasher> LruCore<T, N, S> {
    ghost use Rattle.lru_cores.specs.Core.{IsCore};
    ghost use Rattle.lru_cores.specs.Eviction.{is_over, start, NamesVictim};

    /// The key of the row that `evict_step` would take of these two draws; `None` where the core is not over.
    pub fn victim_key(&self, a: usize, b: usize) -> Option<u64>
        requires a { a < N }
        requires b { b < N }
        ensures { NamesVictim self.now a b result }
    {
        let victim = self.victim(a, b)?;
        let Some(key) = self.units[victim].lru_key() else {
            unreachable!()
        };
        Some(key)
    }

    // The shard that an eviction takes a row of, by these two draws; `None` where the core is not over.
    fn victim(&self, a: usize, b: usize) -> Option<usize>
        requires a { a < N }
        requires b { b < N }
        ensures over { is_some result ≡ is_over self.now }
        ensures victim { IfSome result (λ victim. IsVictim self.now.lists (start self.now a b) victim) }
        ensures at { IfSome result (λ victim. victim < N) }
    {
        if !self.is_over() {
            return None;
        }
        let start = longer_of(a, b, self.units[a].len(), self.units[b].len());
        let Some(victim) = first_held(&self.units, start) else {
            unreachable!()
        };
        Some(victim)
    }

    // The shard that an eviction that spares a key takes a row of; `None` where the core is not over.
    fn victim_sparing(&self, key: u64) -> Option<usize>
        requires { HasPut self.now key }
        ensures over { is_some result ≡ is_over self.now }
        ensures victim { IfSome result (λ victim. GivesUp self.now key victim) }
        ensures at { IfSome result (λ victim. victim < N) }
        ensures valid { IsCore N self.now }
    {
        let _units = &self.units;
        if !self.is_over() {
            return None;
        }
        let own = (key % N as u64) as usize;
        if self.units[own].len() > 1 {
            return Some(own);
        }
        match next_held(&self.units, own) {
            Some(next) => Some(next),
            None => Some(own),
        }
    }

    fn is_over(&self) -> bool
        ensures { result ≡ is_over self.now }
    {
        is_past(
            self.weight_limit,
            self.watermark,
            self.totals.weight,
            self.totals.len,
        )
    }
}

impl<T: Drop, const N: usize, S: BuildHasher> LruCore<T, N, S> {
    ghost use Rattle.std.specs.Prelude.{max};
    ghost use Rattle.lru_shard.specs.Row.{Row, row};
    ghost use Rattle.lru_cores.specs.Core.{home};
    ghost use Rattle.lru_cores.specs.Eviction.{EvictsFrom, EvictsWhereOver, EvictsToLimit, IsCutShort, EvictsWith, KeepsLongestFront};
    ghost use Rattle.lru_cores.specs.Sparing.{SparesToLimit, CoreAdmitsAndEvicts, StandsFirst};

    /// Admits as `admit` does, then evicts while the core is over, and calls a closure with the data and the weight
    /// of each evicted row, in order. It answers the shard. A weight of 0 counts as 1.
    ///
    /// The last row leaves of the first shard, from the key's own on and round the circle, that has a row besides
    /// the one just put. Where no other row is left anywhere, and the core is still over, the row just put leaves
    /// too. Nothing is drawn, and evictions take no memory.
    ///
    /// A refusal, for Length, Weight or Memory as a shard refuses, hands the data back, evicts nothing and changes
    /// nothing.
    pub fn admit_and_evict<F: FnMut((T, usize))>(
        &mut self,
        key: u64,
        data: T,
        weight: usize,
        visit: F,
    ) -> Result<usize, Refused<T>>
        requires { F.IsAlwaysCallable visit }
        ensures done { CoreAdmitsAndEvicts (λ p x q. F.step p x tt q) visit self.old key «data» weight result self.new }
        ensures first { OnOk result (StandsFirst self.new (row key «data» (max weight 1))) }
    {
        let _units = &self.units;
        let shard = self.admit(key, data, weight)?;
        self.evict_sparing(key, visit);
        Ok(shard)
    }

    // Evicts while the core is over, and spares the row of a key that was just put as long as there is another.
    fn evict_sparing<F: FnMut((T, usize))>(&mut self, key: u64, mut visit: F)
        requires put { HasPut self.old key }
        requires visit { F.IsAlwaysCallable visit }
        ensures done { SparesToLimit (λ p x q. F.step p x tt q) visit self.old key self.new }
        ensures first { (r : Row T) → r.key ≡ key → StandsFirst self.old r → StandsFirst self.new r }
    {
        while let Some(victim) = self.victim_sparing(key) {
            let Some(pair) = self.evict_from(victim) else {
                unreachable!()
            };
            visit(pair);
        }
    }

    // Evicts the last row of a shard, if it has one.
    fn evict_from(&mut self, shard: usize) -> Option<(T, usize)>
        requires { shard < N }
        ensures { EvictsFrom self.old shard result self.new }
    {
        let unit = &mut self.units[shard];
        let Some((data, weight)) = unit.evict() else {
            return None;
        };
        self.totals.weight -= weight;
        self.totals.len -= 1;
        self.evicted_weight = self.evicted_weight.wrapping_add(weight);
        self.evicted_len = self.evicted_len.wrapping_add(1);
        Some((data, weight))
    }

    /// Evicts the last row of the shard `shard` modulo N, whatever the limits are, and answers its data
    /// and weight.
    pub fn evict_shard(&mut self, shard: u64) -> Option<(T, usize)>
        ensures { EvictsFrom self.old (home self.old shard) result self.new }
    {
        let _units = &self.units;
        let index = (shard % N as u64) as usize;
        self.evict_from(index)
    }

    /// Where the core is over, evicts the last row of the victim of two draws, and answers its data
    /// and weight: the victim is the first shard that is not empty, from the longer of the two on
    /// (the first where they are as long) and round the circle. Else it answers `None`, and nothing
    /// changes.
    pub fn evict_step(&mut self, a: usize, b: usize) -> Option<(T, usize)>
        requires a { a < N }
        requires b { b < N }
        ensures { EvictsWhereOver self.old a b result self.new }
    {
        let victim = self.victim(a, b)?;
        self.evict_from(victim)
    }

    /// Evicts while the core is over, and answers the data and the weight of each evicted row, in order.
    /// For each it makes room for a pair, draws two shards, a and then b, from the generator, and does
    /// an `evict_step`. With one shard nothing is drawn.
    ///
    /// Where a growth is refused, the pairs evicted so far are handed back, and the core is still over.
    pub fn evict_to_limit<R: Rng>(
        &mut self,
        alloc: Global,
        rng: &mut R,
    ) -> Result<Vec<(T, usize)>, EvictError<T>>
        ensures ok { IfOk result (λ pairs. EvictsToLimit self.old (R.stream rng.old) pairs.items self.new (R.stream rng.new)) }
        ensures err { IfErr result (λ stopped. IsCutShort self.old (R.stream rng.old) stopped.evicted.items self.new (R.stream rng.new)) }
        ensures longest { N ≡ 1 → OnOk result (KeepsLongestFront self.old self.new) }
        ensures undrawn { N ≡ 1 → rng.new ≡ rng.old }
    {
        let mut evicted = Vec::new(alloc);
        while self.is_over() {
            let _units = &self.units;
            if let Err(_) = evicted.reserve(1) {
                return Err(EvictError { evicted });
            }
            let (a, b) = drawn_shards::<R, N>(rng);
            let Some(pair) = self.evict_step(a, b) else {
                unreachable!()
            };
            match evicted.push(pair) {
                Ok(()) => {}
                Err(_) => unreachable!(),
            }
        }
        Ok(evicted)
    }

    /// Evicts while the core is over, and calls a closure with the data and the weight of each evicted row, in order. For
    /// each it draws two shards, a and then b, from the generator, and does an `evict_step`. With one shard nothing is
    /// drawn. It takes no memory.
    pub fn evict_with<R: Rng, F: FnMut((T, usize))>(&mut self, rng: &mut R, mut hand_over: F)
        requires { F.IsAlwaysCallable hand_over }
        ensures done { EvictsWith (λ p x q. F.step p x tt q) hand_over self.old (R.stream rng.old) self.new (R.stream rng.new) }
        ensures longest { N ≡ 1 → KeepsLongestFront self.old self.new }
        ensures undrawn { N ≡ 1 → rng.new ≡ rng.old }
    {
        while self.is_over() {
            let _units = &self.units;
            let (a, b) = drawn_shards::<R, N>(rng);
            let Some(pair) = self.evict_step(a, b) else {
                unreachable!()
            };
            hand_over(pair);
        }
    }
}
