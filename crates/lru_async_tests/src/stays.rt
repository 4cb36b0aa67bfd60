//! A limit that stays: whatever the threads do, no row is evicted that the limit would not want gone.
use lru_async::async_lru::{AsyncLru, Closed};
use lru_workers::asking::{HeldTotals, may_ask};
use lru_workers::callback::AsyncEvictionCallback;
use lru_workers::world::OrderLimits;
use rand::RngExt;
use rand::rngs::StdRng;
use rand_core::SeedableRng;
use std::alloc::Global;
use std::sync::atomic::{AtomicBool, AtomicUsize, Ordering};
use std::sync::{Arc, Wait};
use std::test::Fail;
use std::thread;
use std::thread::Threads;

const LIMIT: usize = 2000;

const HEAVIEST: usize = 9;

const ROWS: u64 = 20_000;

// How many evictions may be asked for beside none, where nothing is done meanwhile.
fn may_be_asked(limits: &OrderLimits, held: &HeldTotals) -> usize {
    for pending in 0..100usize {
        if !may_ask(limits, held, pending) {
            return pending;
        }
    }
    100
}

#[test]
fn no_more_are_asked_for_than_are_wanted(rt: HostRuntime) -> Result<(), Fail> {
    let weighs = OrderLimits {
        weight_limit: 10,
        len_watermark: None,
    };
    let counts = OrderLimits {
        weight_limit: 1000,
        len_watermark: Some(3),
    };
    let held = |weight: usize, len: usize, heaviest: usize| HeldTotals {
        weight,
        len,
        heaviest,
    };
    let asked = [
        // at the limit none; past it as many as would leave it passed, were each of the heaviest
        may_be_asked(&weighs, &held(10, 5, 4)),
        may_be_asked(&weighs, &held(11, 5, 4)),
        may_be_asked(&weighs, &held(14, 5, 4)),
        may_be_asked(&weighs, &held(15, 5, 4)),
        may_be_asked(&weighs, &held(17, 17, 1)),
        may_be_asked(&weighs, &held(17, 2, usize::MAX)),
        // rows too many are each one to go
        may_be_asked(&counts, &held(20, 3, 9)),
        may_be_asked(&counts, &held(20, 7, 9)),
    ];
    assert_eq!(rt; asked, [0, 1, 1, 2, 7, 1, 0, 4]);
    Ok(())
}

// Keeps the weight of the last pair that it was called with.
#[derive(Drop)]
struct Last {
    weight: AtomicUsize,
}

impl AsyncEvictionCallback<u64> for Last {
    ghost ready = { λ _. Unit {0} };

    fn call(&self, _key: u64, weight: usize) {
        self.weight.store(weight, Ordering::SeqCst);
    }
}

// Admits a part of the keys with drawn weights, and answers what they weigh together, if all were taken.
fn admit_part<R: Wait>(rt: &R, lru: &AsyncLru<u64, 4>, from: u64) -> Option<usize> {
    let mut rng = StdRng::seed_from_u64(from);
    let mut sum = 0usize;
    for step in 0..ROWS / 2 {
        let weight = rng.random_range(1..=HEAVIEST);
        if lru.admit(rt, from.wrapping_add(step), weight).is_err() {
            return None;
        }
        sum = sum.wrapping_add(weight);
    }
    Some(sum)
}

// Admits all keys by two senders, and waits until nothing is under way.
fn admit_all<R: Threads + Wait + Sync>(
    rt: &R,
    lru: &AsyncLru<u64, 4>,
    over: &AtomicBool,
) -> Option<usize> {
    let (first, second) = thread::join(
        rt,
        || admit_part(rt, lru, 0),
        || admit_part(rt, lru, ROWS / 2),
    );
    lru.wait_until_quiet(rt);
    over.store(true, Ordering::SeqCst);
    Some(first?.wrapping_add(second?))
}

// Whether the weight, from the first eviction on, is never so low that one row less would have been enough.
fn stays(lru: &AsyncLru<u64, 4>, over: &AtomicBool) -> bool {
    for _ in 0..crate::callbacks::LOOKS {
        let begun = lru.evicted_len() > 0;
        if begun && lru.weight() <= LIMIT - HEAVIEST {
            return false;
        }
        if over.load(Ordering::SeqCst) {
            return begun;
        }
        thread::yield_now();
    }
    false
}

// What all keys weigh, and whether the limit stayed, with so many workers; what the order came to, and what its last evicted
// row weighs.
fn soaked<R: Threads + Wait + Copy + Send + Sync + 'static>(
    rt: R,
    alloc: Global,
    workers: usize,
) -> Result<(Option<usize>, bool, Closed, usize), Fail> {
    let last = Last {
        weight: AtomicUsize::new(0),
    };
    let last = Arc::new(alloc, last)?;
    let Ok(lru) = AsyncLru::<u64, 4>::builder(alloc, LIMIT, Arc::try_clone(&last)?)
        .num_eviction_workers(workers)
        .build(rt)
    else {
        return Err(Fail::from("no threads"));
    };
    let over = AtomicBool::new(false);
    let (sum, stayed) = thread::join(&rt, || admit_all(&rt, &lru, &over), || stays(&lru, &over));
    let closed = lru.close(&rt);
    Ok((sum, stayed, closed, last.weight.load(Ordering::SeqCst)))
}

// Whether the limit stayed, holds at the end, and would not with the last evicted row put back; and whether no pair is lost.
fn holds<R: Threads + Wait + Copy + Send + Sync + 'static>(
    rt: R,
    alloc: Global,
    workers: usize,
) -> Result<[bool; 4], Fail> {
    let (sum, stayed, closed, last) = soaked(rt, alloc, workers)?;
    Ok([
        stayed,
        closed.weight <= LIMIT,
        closed.weight.wrapping_add(last) > LIMIT,
        sum == Some(closed.weight.wrapping_add(closed.evicted_weight)) && closed.lost_pairs == 0,
    ])
}

#[test]
fn a_limit_stays_with_one_worker(rt: HostRuntime) -> Result<(), Fail> {
    assert_eq!(rt; holds(rt, rt.alloc(), 1)?, [true; 4]);
    Ok(())
}

#[test]
fn a_limit_stays_with_four_workers(rt: HostRuntime) -> Result<(), Fail> {
    assert_eq!(rt; holds(rt, rt.alloc(), 4)?, [true; 4]);
    Ok(())
}

// How many rows are left and how many were evicted, of 1000 rows of weight 1.
fn rows_left<R: Threads + Wait + Copy + Send + Sync + 'static>(
    rt: R,
    alloc: Global,
    limit: usize,
    watermark: usize,
) -> Result<(usize, usize), Fail> {
    let last = Last {
        weight: AtomicUsize::new(0),
    };
    let last = Arc::new(alloc, last)?;
    let Ok(lru) = AsyncLru::<u64, 4>::builder(alloc, limit, last)
        .len_watermark(watermark)
        .num_eviction_workers(4)
        .build(rt)
    else {
        return Err(Fail::from("no threads"));
    };
    for key in 0..1000u64 {
        let _sent = lru.admit(&rt, key, 1);
    }
    lru.wait_until_quiet(&rt);
    let closed = lru.close(&rt);
    Ok((closed.len, closed.evicted_len))
}

#[test]
fn exactly_what_is_too_much_is_evicted(rt: HostRuntime) -> Result<(), Fail> {
    let by_number = rows_left(rt, rt.alloc(), 2000, 100)?;
    let by_weight = rows_left(rt, rt.alloc(), 100, 2000)?;
    assert_eq!(rt; [by_number, by_weight], [(100, 900), (100, 900)]);
    assert_eq!(rt; rows_left(rt, rt.alloc(), 2000, 2000)?, (1000, 0));
    Ok(())
}

// How many rows leave an order of four shards that is over its limit by one row, where none left before.
fn left_of_heavy<R: Threads + Wait + Copy + Send + Sync + 'static>(
    rt: R,
    alloc: Global,
) -> Result<usize, Fail> {
    let last = Last {
        weight: AtomicUsize::new(0),
    };
    let last = Arc::new(alloc, last)?;
    let Ok(lru) = AsyncLru::<u64, 4>::builder(alloc, 359, last)
        .num_eviction_workers(4)
        .build(rt)
    else {
        return Err(Fail::from("no threads"));
    };
    for key in 0..40u64 {
        // a row that is put last asks for no eviction
        let _sent = lru.insert_tail(&rt, key, 9);
    }
    lru.wait_until_quiet(&rt);
    lru.trigger_eviction(&rt);
    lru.wait_until_quiet(&rt);
    let closed = lru.close(&rt);
    Ok(closed.evicted_len)
}

#[test]
fn no_more_leave_than_have_to(rt: HostRuntime) -> Result<(), Fail> {
    for _ in 0..20u8 {
        assert_eq!(rt; left_of_heavy(rt, rt.alloc())?, 1);
    }
    Ok(())
}
