//! Evictions of several shards of an `Lru` with one caller: how many rows leave, and how the draws spread them.
use lru_cores::lru_core::LruCore;
use lru_shared_order::lru::Lru;
use rand::rngs::StdRng;
use rand_core::SeedableRng;
use std::alloc::{AllocError, Global};
use std::sync::Wait;
use std::test::Fail;

// How many rows an eviction to the limit takes; nothing, where it is refused.
fn count_evicted<R: Wait>(rt: &R, alloc: Global, lru: &Lru<u64, 2>) -> Option<usize> {
    let mut rng = StdRng::seed_from_u64(1);
    match lru.evict_to_limit(rt, alloc, &mut rng) {
        Ok(left) => Some(left.len()),
        Err(_) => None,
    }
}

// The same where each row that leaves is handed to a closure.
fn count_handed<R: Wait>(rt: &R, lru: &Lru<u64, 2>) -> usize {
    let mut count = 0usize;
    lru.evict_with(rt, &mut StdRng::seed_from_u64(1), |_| {
        count = count.wrapping_add(1);
    });
    count
}

// Whether so many of six rows of weight 0 leave, down to a watermark, and as many are handed to a closure after they are back.
fn evicts_down_to<R: Wait>(
    rt: &R,
    alloc: Global,
    watermark: usize,
    evicted: usize,
) -> Result<bool, AllocError> {
    let lru = Lru::<u64, 2>::with_capacity_and_watermark(alloc, 100, 0, Some(watermark))?;
    let are_put = (0..6u64).all(|key| matches!(lru.insert_tail(rt, key, key, 0), Ok(true)));
    let before = (lru.len(), lru.weight());
    let left = count_evicted(rt, alloc, &lru);
    let after = (left, lru.len());
    for key in 0..6u64 {
        let _ = lru.insert_tail(rt, key, key, 0);
    }
    let handed = (lru.len(), count_handed(rt, &lru), lru.len());
    Ok(
        are_put
            & ((before, after) == ((6, 0), (Some(evicted), watermark)))
            & (handed == (6, evicted, watermark)),
    )
}

#[test]
fn evicts_down_to_the_watermark(rt: HostRuntime) -> Result<(), Fail> {
    let alloc: Global = rt.alloc();
    assert!(rt; evicts_down_to(&rt, alloc, 2, 4)? & evicts_down_to(&rt, alloc, 0, 6)?);
    Ok(())
}

// What 30 evictions from 50 even keys and 10 odd ones take, with the generator of a seed; nothing, where an answer is
// otherwise.
fn trial<R: Wait>(rt: &R, alloc: Global, seed: u64) -> Result<Vec<(u64, usize)>, AllocError> {
    let lru = Lru::<u64, 2>::with_capacity(alloc, 30, 50)?;
    let mut are_put = true;
    for half in 0..50u64 {
        let key = half << 1;
        are_put &= matches!(lru.admit(rt, key, key, 1), Ok(0));
    }
    for half in 0..10u64 {
        let key = (half << 1) | 1;
        are_put &= matches!(lru.admit(rt, key, key, 1), Ok(1));
    }
    match lru.evict_to_limit(rt, alloc, &mut StdRng::seed_from_u64(seed)) {
        Ok(pairs) if are_put => Ok(pairs),
        _ => Ok(Vec::new(alloc)),
    }
}

// The same where each row that leaves is handed to a closure, and the hashes have a seed.
fn handed_trial<R: Wait>(
    rt: &R,
    alloc: Global,
    seed: u64,
) -> Result<Vec<(u64, usize)>, AllocError> {
    let lru = Lru::<u64, 2>::with_capacity_and_seed(alloc, 30, 50, None, seed)?;
    for half in 0..50u64 {
        let _answer = lru.admit(rt, half << 1, half << 1, 1);
    }
    for half in 0..10u64 {
        let key = (half << 1) | 1;
        let _answer = lru.admit(rt, key, key, 1);
    }
    let mut pairs = Vec::with_capacity(alloc, 30)?;
    lru.evict_with(rt, &mut StdRng::seed_from_u64(seed), |pair| {
        let _refused = pairs.push(pair);
    });
    Ok(pairs)
}

fn core_trial(alloc: Global, seed: u64) -> Result<Vec<(u64, usize)>, AllocError> {
    let mut core = LruCore::<u64, 2>::with_capacity(alloc, 30, 50)?;
    for half in 0..50u64 {
        let key = half << 1;
        let _answer = core.admit(key, key, 1);
    }
    for half in 0..10u64 {
        let key = (half << 1) | 1;
        let _answer = core.admit(key, key, 1);
    }
    match core.evict_to_limit(alloc, &mut StdRng::seed_from_u64(seed)) {
        Ok(pairs) => Ok(pairs),
        Err(_) => Ok(Vec::new(alloc)),
    }
}

// How many even keys leave in 50 trials, each of which takes 30 keys, those that a core's takes and those that a closure is
// handed, and whether two trials differ; nothing, where one is otherwise.
fn trials<R: Wait>(rt: &R, alloc: Global) -> Result<(usize, bool), AllocError> {
    let first = trial(rt, alloc, 0)?;
    let mut even = 0usize;
    let mut differs = false;
    for seed in 0..50u64 {
        let pairs = trial(rt, alloc, seed)?;
        let core_pairs = core_trial(alloc, seed)?;
        let handed = handed_trial(rt, alloc, seed)?;
        let are_same = pairs.as_slice() == core_pairs.as_slice();
        if pairs.len() != 30 || !are_same || pairs.as_slice() != handed.as_slice() {
            return Ok((0, false));
        }
        even = even.saturating_add(pairs.iter().filter(|pair| pair.0 % 2 == 0).count());
        differs |= pairs.as_slice() != first.as_slice();
    }
    Ok((even, differs))
}

#[test]
fn spreads_evictions_by_two_choices(rt: HostRuntime) -> Result<(), Fail> {
    let (even, differs) = trials(&rt, rt.alloc())?;
    assert!(rt;
        differs & (1050 <= even) & (even <= 1425),
        "{even} even keys"
    );
    Ok(())
}

// Whether the row of this key, the only one of eight shards, leaves; none does before it is there.
fn finds_the_row<R: Wait>(rt: &R, alloc: Global, key: u64) -> Result<bool, AllocError> {
    let mut rng = StdRng::seed_from_u64(key);
    let lru = Lru::<u64, 8>::with_capacity(alloc, 0, 0)?;
    let Ok(before) = lru.evict_to_limit(rt, alloc, &mut rng) else {
        return Ok(false);
    };
    let is_put = matches!(lru.admit(rt, key, key, 3), Ok(shard) if shard as u64 == key);
    let Ok(left) = lru.evict_to_limit(rt, alloc, &mut rng) else {
        return Ok(false);
    };
    let counters = (lru.len(), lru.weight());
    Ok(
        is_put
            & (before.len() == 0)
            & ((left.as_slice(), counters) == ([(key, 3)].as_slice(), (0, 0))),
    )
}

// The first key, if there is one, whose row is not found.
fn lost_key<R: Wait>(rt: &R, alloc: Global) -> Result<Option<u64>, AllocError> {
    for key in 0..8u64 {
        if !finds_the_row(rt, alloc, key)? {
            return Ok(Some(key));
        }
    }
    Ok(None)
}

// Seven of eight shards are empty, and the last row is found from wherever the draws begin.
#[test]
fn finds_the_one_row_of_many_shards(rt: HostRuntime) -> Result<(), Fail> {
    assert_eq!(rt; lost_key(&rt, rt.alloc())?, None);
    Ok(())
}

// How many of three rows of weight 2 leave under a limit.
fn leave_under<R: Wait>(rt: &R, alloc: Global, limit: usize) -> Result<Option<usize>, AllocError> {
    let lru = Lru::<u64, 2>::with_capacity(alloc, limit, 3)?;
    let are_put = (0..3u64).all(|key| lru.admit(rt, key, key, 2).is_ok());
    Ok(count_evicted(rt, alloc, &lru).filter(|_| are_put))
}

#[test]
fn stays_at_its_limit(rt: HostRuntime) -> Result<(), Fail> {
    let alloc: Global = rt.alloc();
    assert_eq!(rt;
        (leave_under(&rt, alloc, 6)?, leave_under(&rt, alloc, 5)?),
        (Some(0), Some(1))
    );
    Ok(())
}
