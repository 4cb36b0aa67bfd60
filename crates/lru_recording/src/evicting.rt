//! What is evicted of a `RecordedLru`, each probe on record: of one shard, and while all together are over.
ghost use Rattle.std.specs.Prelude.{◌≡◌, ◌%◌, ◌<◌, map, IfOk, IfErr, OnErr, Some};
ghost use Rattle.lru_recording.specs.Stamps.{GetsReceipt};
ghost use Rattle.lru_recording.specs.Histories.{IsEviction};
ghost use Rattle.lru_recording.specs.Probes.{Adds, AreProbes, FindsNone, IsRound};
ghost use Rattle.lru_recording.specs.Replies.{paired};

use crate::entry::Call;
use crate::journal::Seat;
use crate::recorded::RecordedLru;
use crate::tie::Registry;
use lru_shard::eviction::{EvictError, Readings, drawn_shards, longer_of, shard_after};
use rand_core::Rng;
use std::alloc::{AllocError, Global};
use std::sync::Wait;
use std::sync::atomic::Ordering;

impl<T: Drop, B: Registry, const N: usize> RecordedLru<T, B, N> {
    /// Evicts the last row of the shard `shard` modulo N, whatever the limits are, and answers its data and weight.
    pub fn evict_shard(
        &self,
        rt: &impl Wait,
        seat: &mut Seat<B>,
        shard: u64,
    ) -> Result<Option<(T, usize)>, AllocError>
        ensures ok { IfOk result (λ pair. GetsReceipt seat.old.receipts.items (shard % N) (Call.EvictShard shard) (Some (paired pair)) seat.new.receipts.items) }
        ensures err { OnErr result (seat.new.receipts.items ≡ seat.old.receipts.items) }
        ensures seat { seat.new.number ≡ seat.old.number }
    {
        self.evict_from(rt, seat, self.shard_of(shard), Call::EvictShard { shard })
    }

    // Evicts the last row of a shard, if it has one.
    fn evict_from(
        &self,
        rt: &impl Wait,
        seat: &mut Seat<B>,
        shard: usize,
        call: Call,
    ) -> Result<Option<(T, usize)>, AllocError>
        requires shard { shard < N }
        requires call { IsEviction N shard call }
        ensures ok { IfOk result (λ pair. GetsReceipt seat.old.receipts.items (shard) (call) (Some (paired pair)) seat.new.receipts.items) }
        ensures err { OnErr result (seat.new.receipts.items ≡ seat.old.receipts.items) }
        ensures seat { seat.new.number ≡ seat.old.number }
    {
        let (mut recording, before) = self.lock_counted(rt, shard);
        let answer = recording.evict(&self.tie, seat, call);
        self.count(recording, before);
        answer
    }

    // Probes shards from this one on and round the circle, up to the first one that is not empty.
    fn evict_near(
        &self,
        rt: &impl Wait,
        seat: &mut Seat<B>,
        from: usize,
    ) -> Result<Option<(T, usize)>, AllocError>
        requires { from < N }
        ensures ok { IfOk result (λ pair. Adds (IsRound N pair) seat.old.receipts.items seat.new.receipts.items) }
        ensures err { OnErr result (Adds (FindsNone N) seat.old.receipts.items seat.new.receipts.items) }
        ensures seat { seat.new.number ≡ seat.old.number }
    {
        for steps in 0..N {
            let shard = shard_after(from, steps, N);
            let pair = self.evict_from(rt, seat, shard, Call::EvictToLimit)?;
            if pair.is_some() {
                return Ok(pair);
            }
        }
        Ok(None)
    }

    // The longer of two drawn shards, a first and b second, by the lengths as read; a where they are as long.
    fn drawn_shard<R: Rng>(&self, rng: &mut R) -> usize
        ensures below { result < N }
        ensures undrawn { N ≡ 1 → rng.new ≡ rng.old }
    {
        // As in `shard_of`: the draws need an N that is not 0.
        let _shards = &self.shards;
        let (a, b) = drawn_shards::<R, N>(rng);
        longer_of(
            a,
            b,
            self.lens[a].load(Ordering::SeqCst),
            self.lens[b].load(Ordering::SeqCst),
        )
    }

    // The values that an `evict_to_limit` goes by, as they are now.
    fn readings(&self) -> Readings {
        Readings {
            weight: self.weight.load(Ordering::SeqCst),
            len: self.len.load(Ordering::SeqCst),
            weight_limit: self.weight_limit,
            watermark: self.watermark,
        }
    }

    /// Evicts while the order is over, and answers the data and the weight of each evicted row, in order. For each it
    /// makes room for a pair, draws two shards and probes from the longer one on, as an `Lru` does, up to the first one
    /// that is not empty. Each probe is noted, with the weight of the row that it found: at most N for each pair, and N
    /// more where all shards are found empty.
    ///
    /// Other threads may add and remove rows meanwhile. It is over as long as the value that it first read, less what it
    /// evicted, and the value now are both past the limit. It ends after as many evictions as there were rows at its
    /// start, and where it finds all shards empty.
    ///
    /// Where a growth is refused, the pairs evicted so far are handed back.
    pub fn evict_to_limit<R: Rng>(
        &self,
        rt: &impl Wait,
        alloc: Global,
        seat: &mut Seat<B>,
        rng: &mut R,
    ) -> Result<Vec<(T, usize)>, EvictError<T>>
        ensures ok { IfOk result (λ pairs. Adds (AreProbes N (map (λ pair. pair.1) pairs.items)) seat.old.receipts.items seat.new.receipts.items) }
        ensures err { IfErr result (λ stopped. Adds (AreProbes N (map (λ pair. pair.1) stopped.evicted.items)) seat.old.receipts.items seat.new.receipts.items) }
        ensures undrawn { N ≡ 1 → rng.new ≡ rng.old }
        ensures seat { seat.new.number ≡ seat.old.number }
    {
        let mut readings = self.readings();
        let mut evicted = Vec::new(alloc);
        for _ in 0..readings.len {
            let weight = self.weight.load(Ordering::SeqCst);
            let len = self.len.load(Ordering::SeqCst);
            if !readings.is_past(weight, len) {
                break;
            }
            if evicted.reserve(1).is_err() {
                return Err(EvictError { evicted });
            }
            let Ok(found) = self.evict_near(rt, seat, self.drawn_shard(rng)) else {
                return Err(EvictError { evicted });
            };
            let Some(pair) = found else {
                return Ok(evicted);
            };
            readings.evicted(pair.1);
            evicted.push_reserved(pair);
        }
        Ok(evicted)
    }
}
