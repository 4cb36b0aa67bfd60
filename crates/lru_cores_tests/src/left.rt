//! What an `Lru` leaves after the calls of two threads: the counters are the sums over its shards.
use lru_shard::totals::{Totals, Units};
use lru_shard::unit::LruUnit;
use lru_shared_order::lru::Lru;
use rand::rngs::StdRng;
use rand_core::{Rng, SeedableRng};
use std::alloc::{AllocError, Global};
use std::sync::Wait;
use std::test::Fail;
use std::thread;
use std::thread::Threads;

// One call of each kind that changes a shard, on a drawn key.
fn call<R: Wait>(rt: &R, lru: &Lru<u64, 4>, draws: &mut StdRng) {
    let key = draws.next_u64() % 32;
    let weight = (draws.next_u64() % 9) as usize;
    match draws.next_u64() % 6 {
        0 | 1 => {
            let _ = lru.admit(rt, key, key, weight);
        }
        2 => {
            let _ = lru.increment_weight(rt, key, || key, weight, Some(5));
        }
        3 => {
            let _ = lru.update_or_admit(rt, key, |_, _| weight, || (key, 3));
        }
        4 => {
            let _ = lru.set_weight(rt, key, weight);
        }
        _ => {
            let _ = lru.remove(rt, key);
            let _ = lru.evict_shard(rt, key);
        }
    }
}

fn work<R: Wait>(rt: &R, lru: &Lru<u64, 4>, seed: u64) {
    let mut draws = StdRng::seed_from_u64(seed);
    for _ in 0..500u32 {
        call(rt, lru, &mut draws);
    }
}

// What is left, and what the counters said before.
fn left_by_two<R: Threads + Wait + Sync>(
    rt: &R,
    alloc: Global,
) -> Result<(Units<u64>, Totals), AllocError> {
    let lru = Lru::<u64, 4>::with_capacity(alloc, 1000, 8)?;
    let shared = &lru;
    thread::join(rt, move || work(rt, shared, 1), move || work(rt, shared, 2));
    let counted = Totals {
        weight: lru.weight(),
        len: lru.len(),
    };
    match lru.into_units(rt, alloc) {
        Ok(left) => Ok((left, counted)),
        Err(_) => Err(AllocError),
    }
}

fn totals_of(units: &Vec<LruUnit<u64>>) -> Totals {
    let mut sums = Totals { weight: 0, len: 0 };
    for unit in units {
        sums.weight = sums.weight.saturating_add(unit.used_weight());
        sums.len = sums.len.saturating_add(unit.len());
    }
    sums
}

#[test]
fn counters_are_the_sums(rt: HostRuntime) -> Result<(), Fail> {
    let (left, counted) = left_by_two(&rt, rt.alloc())?;
    let sums = totals_of(&left.units);
    assert_eq!(rt; (left.totals, counted), (sums, sums));
    Ok(())
}
