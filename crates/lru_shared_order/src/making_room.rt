//! Admissions to an `Lru` that make the room for their row: from its own shard first, then from the others.
ghost use Rattle.std.specs.Prelude.{◌≡◌, ◌%◌, ◌<◌, ◌≤◌, max, IfOk, IfErr, IfSome, OnOk};
ghost use Rattle.lru_shard.specs.Limits.{cap_of};

use crate::counters::stepped;
use crate::lru::Lru;
use crate::shed::ShardRoom;
use lru_shard::counters::shift;
use lru_shard::eviction::{Readings, shard_after};
use lru_shard::unit::Refused;
use std::sync::Wait;

impl<T: Drop, const N: usize> Lru<T, N> {
    ghost use Rattle.lru_shared_order.specs.Sheds.{VisitsLight};

    // Evicts the last row of a shard, unless it is that of a key.
    fn evict_besides(&self, rt: &impl Wait, shard: usize, key: u64) -> Option<(T, usize)>
        requires { shard < N }
        ensures { IfSome result (λ pair. pair.1 ≤ cap_of N) }
    {
        let counts = &self.units[shard].counts;
        let mut unit = self.units[shard].lock.lock(rt);
        let (data, weight) = unit.evict_besides(key)?;
        self.note_eviction(counts, weight);
        Some((data, weight))
    }

    // Evicts the last row of the first shard, from a key's own on and round the circle, whose last row is not that key's;
    // where there is none, that of the key's own.
    fn evict_sparing(&self, rt: &impl Wait, own: usize, key: u64) -> Option<(T, usize)>
        requires { own < N }
        ensures { IfSome result (λ pair. pair.1 ≤ cap_of N) }
    {
        for steps in 0..N {
            let shard = shard_after(own, steps, N);
            if let Some(pair) = self.evict_besides(rt, shard, key) {
                return Some(pair);
            }
        }
        self.evict_from(rt, own)
    }

    // Admits, and evicts from the same shard, under one lock, what is too much by what all hold. It answers what all hold after
    // it, as the steps of the counters tell: of two that take the last room one sees it taken.
    fn admit_here<F: FnMut((T, usize))>(
        &self,
        rt: &impl Wait,
        key: u64,
        data: T,
        weight: usize,
        visit: &mut F,
    ) -> Result<Readings, Refused<T>>
        requires { F.IsAlwaysCallable visit.old }
        ensures again { F.IsAlwaysCallable visit.new }
        ensures light { OnOk result (max weight 1 ≤ cap_of N) }
        ensures held { IfErr result (λ refused. refused.held ≡ «data») }
        ensures visited { VisitsLight (λ p x q. F.step p x tt q) visit.old (cap_of N) visit.new }
    {
        let shard = self.shard_of(key);
        let counts = &self.units[shard].counts;
        let mut unit = self.unit_at(rt, shard);
        let before = unit.totals();
        let mut all = self.readings();
        let room = ShardRoom::beside_others(&all, before);
        let evicted = unit.admit_and_evict(key, data, weight, room, visit)?;
        let after = unit.totals();
        let counters = &self.counters;
        all.weight = stepped(&counters.weight, before.weight, after.weight, all.weight);
        all.len = stepped(&counters.len, before.len, after.len, all.len);
        shift(&counts.len, before.len, after.len);
        if evicted.len > 0 {
            counts.note_evicted(evicted);
        }
        Ok(all)
    }

    // Evicts what is too much of what all hold, and spares the row of a key as long as there is another.
    fn evict_rest<F: FnMut((T, usize))>(
        &self,
        rt: &impl Wait,
        key: u64,
        all: Readings,
        visit: &mut F,
    )
        requires { F.IsAlwaysCallable visit.old }
        ensures { VisitsLight (λ p x q. F.step p x tt q) visit.old (cap_of N) visit.new }
    {
        let own = self.shard_of(key);
        let mut left = all;
        for _ in 0..all.len {
            if !left.is_past(self.weight(), self.len()) {
                return;
            }
            let Some(pair) = self.evict_sparing(rt, own, key) else {
                return;
            };
            left.evicted(pair.1);
            visit(pair);
        }
    }

    /// As `LruCore::admit_and_evict`: puts a row first in the shard of its key, evicts what is too much, and calls a closure
    /// with the data and the weight of each evicted row, in order. It answers the shard.
    ///
    /// Under the lock of the key's shard it admits, and evicts last rows of that shard, but not the row just put, while all
    /// shards together are over by what was counted as it began. Each counter then takes one step, and tells what all hold
    /// after it. Where that is over, since the shard had no more rows to give or other callers took the room meanwhile, it
    /// goes on from that shard round the circle, a lock for each row, as long as what was told, less what it evicted since,
    /// and the values now are both past a limit. So a caller that finds the room taken makes up for it, and one with no other
    /// beside it ends within the limits.
    ///
    /// `visit` is called under the lock of the key's shard, for the rows of that shard, and must make no call that waits for
    /// it. Nothing is drawn, and evictions take no memory. A refusal, for Length, Weight or Memory as a shard refuses, hands
    /// the data back, evicts nothing and changes nothing.
    pub fn admit_and_evict<F: FnMut((T, usize))>(
        &self,
        rt: &impl Wait,
        key: u64,
        data: T,
        weight: usize,
        mut visit: F,
    ) -> Result<usize, Refused<T>>
        requires { F.IsAlwaysCallable visit }
        ensures shard { IfOk result (λ s. s ≡ key % N) }
        ensures light { OnOk result (max weight 1 ≤ cap_of N) }
        ensures held { IfErr result (λ refused. refused.held ≡ «data») }
        ensures visited { (last : F) × VisitsLight (λ p x q. F.step p x tt q) visit (cap_of N) last }
    {
        let all = self.admit_here(rt, key, data, weight, &mut visit)?;
        if all.is_past(all.weight, all.len) {
            self.evict_rest(rt, key, all, &mut visit);
        }
        Ok(self.shard_of(key))
    }
}
