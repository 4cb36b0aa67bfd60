//! What is evicted of an `Lru`: of one shard, and while all together are over.
ghost use Rattle.std.specs.Prelude.{◌≡◌, ◌<◌, ◌≤◌, IfOk, IfErr, IfSome, All};
ghost use Rattle.lru_shard.specs.Limits.{cap_of};

use crate::counters::ShardCounters;
use crate::lru::Lru;
use lru_shard::counters::growth;
use lru_shard::eviction::{EvictError, Readings, drawn_shards, longer_of, shard_after};
use lru_shard::totals::Totals;
use rand_core::Rng;
use std::alloc::Global;
use std::sync::Wait;
use std::sync::atomic::Ordering;

// For how many pairs an `evict_to_limit` makes room at once: what a vector of small rows takes when it first grows. An
// admission of one row mostly makes one leave, or a few.
const FIRST_PAIRS: usize = 4;

impl<T, const N: usize> Lru<T, N> {
    // Brings the counters after the eviction of one row from a shard, while its lock is held.
    pub(crate) fn note_eviction(&self, counts: &ShardCounters, weight: usize) {
        self.counters.weight.fetch_sub(weight, Ordering::SeqCst);
        self.counters.len.fetch_sub(1, Ordering::SeqCst);
        counts.len.fetch_sub(1, Ordering::SeqCst);
        counts.note_evicted(Totals { weight, len: 1 });
    }

    // The longer of two drawn shards, a first and b second, by the lengths as read; a where they are as
    // long. Where there is one shard, nothing is drawn.
    fn drawn_shard<R: Rng>(&self, rng: &mut R) -> usize
        ensures below { result < N }
        ensures undrawn { N ≡ 1 → rng.new ≡ rng.old }
    {
        let _units = &self.units;
        let (a, b) = drawn_shards::<R, N>(rng);
        longer_of(a, b, self.shard_len(a), self.shard_len(b))
    }
}

impl<T: Drop, const N: usize> Lru<T, N> {
    ghost use Rattle.lru_shared_order.specs.Sheds.{VisitsLight};

    /// Evicts the last row of the shard `shard` modulo N, whatever the limits are.
    pub fn evict_shard(&self, rt: &impl Wait, shard: u64) -> Option<(T, usize)>
        ensures { IfSome result (λ pair. pair.1 ≤ cap_of N) }
    {
        self.evict_from(rt, self.shard_of(shard))
    }

    // Evicts the last row of a shard, if it has one.
    #[inline(always)]
    pub(crate) fn evict_from(&self, rt: &impl Wait, shard: usize) -> Option<(T, usize)>
        requires { shard < N }
        ensures { IfSome result (λ pair. pair.1 ≤ cap_of N) }
    {
        let counts = &self.units[shard].counts;
        let mut unit = self.units[shard].lock.lock(rt);
        let (data, weight) = unit.evict()?;
        self.note_eviction(counts, weight);
        Some((data, weight))
    }

    // Evicts the last row of the first shard that is not empty, from this one on and round the circle.
    #[inline(always)]
    fn evict_near(&self, rt: &impl Wait, from: usize) -> Option<(T, usize)>
        requires { from < N }
        ensures { IfSome result (λ pair. pair.1 ≤ cap_of N) }
    {
        if let Some(pair) = self.evict_from(rt, from) {
            return Some(pair);
        }
        self.evict_past(rt, from)
    }

    // As `evict_near`, where the first shard was found empty.
    #[cold]
    #[inline(never)]
    fn evict_past(&self, rt: &impl Wait, from: usize) -> Option<(T, usize)>
        requires { from < N }
        ensures { IfSome result (λ pair. pair.1 ≤ cap_of N) }
    {
        for steps in 1..N {
            let shard = shard_after(from, steps, N);
            if let Some(pair) = self.evict_from(rt, shard) {
                return Some(pair);
            }
        }
        None
    }

    // The values that an `evict_to_limit` goes by, as they are now.
    pub(crate) fn readings(&self) -> Readings {
        Readings {
            weight: self.weight(),
            len: self.len(),
            weight_limit: self.weight_limit(),
            watermark: self.watermark,
        }
    }

    /// Evicts while the `Lru` is over, and answers the data and the weight of each evicted row, in order.
    /// For each it makes room for a pair, draws two shards, a and then b, from the generator, and evicts
    /// the last row of the first shard that is not empty, from the longer of the two on (the first where
    /// they are as long) and round the circle. With one shard nothing is drawn.
    ///
    /// Other threads may add and remove rows meanwhile. It is over as long as the value that it first
    /// read, less what it evicted, and the value now are both past the limit. It ends after as many
    /// evictions as there were rows at its start, and where it finds all shards empty.
    ///
    /// Where a growth is refused, the pairs evicted so far are handed back.
    pub fn evict_to_limit<R: Rng>(
        &self,
        rt: &impl Wait,
        alloc: Global,
        rng: &mut R,
    ) -> Result<Vec<(T, usize)>, EvictError<T>>
        ensures ok { IfOk result (λ pairs. All (λ pair. pair.1 ≤ cap_of N) pairs.items) }
        ensures err { IfErr result (λ stopped. All (λ pair. pair.1 ≤ cap_of N) stopped.evicted.items) }
        ensures undrawn { N ≡ 1 → rng.new ≡ rng.old }
    {
        let mut readings = self.readings();
        if readings.len == 0 || !readings.is_past(readings.weight, readings.len) {
            return Ok(Vec::new(alloc));
        }
        let Ok(mut evicted) = Vec::with_capacity(alloc, FIRST_PAIRS) else {
            return Err(EvictError {
                evicted: Vec::new(alloc),
            });
        };
        let Some(pair) = self.evict_near(rt, self.drawn_shard(rng)) else {
            return Ok(evicted);
        };
        readings.evicted(pair.1);
        evicted.push_reserved(pair);
        if !readings.is_past(self.weight(), self.len()) {
            return Ok(evicted);
        }
        // (field by field: calls that ended above would put a copy into memory, too, and most end there)
        let left = Readings {
            weight: readings.weight,
            len: readings.len,
            weight_limit: readings.weight_limit,
            watermark: readings.watermark,
        };
        self.evict_more(rt, rng, left, evicted)
    }

    // Goes on with an `evict_to_limit` that is still over after its first row. It stands apart, so that the first takes no loop.
    #[inline(never)]
    fn evict_more<R: Rng>(
        &self,
        rt: &impl Wait,
        rng: &mut R,
        left: Readings,
        first: Vec<(T, usize)>,
    ) -> Result<Vec<(T, usize)>, EvictError<T>>
        requires { All (λ pair. pair.1 ≤ cap_of N) first.items }
        ensures ok { IfOk result (λ pairs. All (λ pair. pair.1 ≤ cap_of N) pairs.items) }
        ensures err { IfErr result (λ stopped. All (λ pair. pair.1 ≤ cap_of N) stopped.evicted.items) }
        ensures undrawn { N ≡ 1 → rng.new ≡ rng.old }
    {
        let mut readings = left;
        let mut evicted = first;
        for _ in 0..left.len {
            if evicted.reserve(1).is_err() {
                return Err(EvictError { evicted });
            }
            let Some(pair) = self.evict_near(rt, self.drawn_shard(rng)) else {
                break;
            };
            readings.evicted(pair.1);
            evicted.push_reserved(pair);
            if !readings.is_past(self.weight(), self.len()) {
                break;
            }
        }
        Ok(evicted)
    }

    /// Evicts as `evict_to_limit` does, and calls a closure with the data and the weight of each evicted row, in order. It
    /// takes no memory.
    ///
    /// `visit` is called under no lock.
    pub fn evict_with<R: Rng, F: FnMut((T, usize))>(
        &self,
        rt: &impl Wait,
        rng: &mut R,
        mut visit: F,
    )
        requires { F.IsAlwaysCallable visit }
        ensures visited { (last : F) × VisitsLight (λ p x q. F.step p x tt q) visit (cap_of N) last }
        ensures undrawn { N ≡ 1 → rng.new ≡ rng.old }
    {
        let all = self.readings();
        let mut left = all;
        for _ in 0..all.len {
            if !left.is_past(self.weight(), self.len()) {
                return;
            }
            let Some(pair) = self.evict_near(rt, self.drawn_shard(rng)) else {
                return;
            };
            left.evicted(pair.1);
            visit(pair);
        }
    }
}
