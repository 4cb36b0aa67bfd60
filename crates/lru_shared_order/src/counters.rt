//! What is counted of a shard, and over all shards.
use lru_shard::counters::{growth, shift};
use lru_shard::totals::Totals;
use std::sync::atomic::{AtomicUsize, Ordering};

// One step of a counter, under the lock of the shard whose number changed: what it is after the step. Where the number is as
// before, nothing is written, and the counter is as it was read.
pub(crate) fn stepped(counter: &AtomicUsize, before: usize, after: usize, read: usize) -> usize {
    if before == after {
        return read;
    }
    let more = growth(before, after);
    counter.fetch_add(more, Ordering::SeqCst).wrapping_add(more)
}

// What is counted of one shard.
#[derive(Drop)]
pub(crate) struct ShardCounters {
    // by how much the rows evicted from it so far weighed more than 1 each: so an eviction of rows of weight 1 is one
    // atomic step
    evicted_beyond: AtomicUsize,
    // how many rows it has
    pub(crate) len: AtomicUsize,
    // how many rows were evicted from it so far
    pub(crate) evicted_len: AtomicUsize,
}

impl ShardCounters {
    pub(crate) fn zero() -> Self {
        ShardCounters {
            evicted_beyond: AtomicUsize::new(0),
            len: AtomicUsize::new(0),
            evicted_len: AtomicUsize::new(0),
        }
    }

    // Counts rows that were evicted.
    pub(crate) fn note_evicted(&self, evicted: Totals) {
        self.evicted_len.fetch_add(evicted.len, Ordering::SeqCst);
        shift(&self.evicted_beyond, evicted.len, evicted.weight);
    }

    // The weight of the rows evicted so far.
    pub(crate) fn evicted_weight(&self) -> usize {
        let len = self.evicted_len.load(Ordering::SeqCst);
        len.wrapping_add(self.evicted_beyond.load(Ordering::SeqCst))
    }
}

// What is counted over all shards. Calls write it, and so it has cache lines of its own: those of the shards' places,
// which each call reads, stay as they are. An eviction that makes the room for one row is no change of it.
#[derive(Drop)]
pub(crate) struct Counters {
    pub(crate) weight: AtomicUsize,
    pub(crate) len: AtomicUsize,
}

impl Counters {
    pub(crate) fn zero() -> Self {
        Counters {
            weight: AtomicUsize::new(0),
            len: AtomicUsize::new(0),
        }
    }
}
