//! Walks over many keys that are asked for once.
use lru_shared_segmented::shared::{Limits, SharedSegmentedCache};
use std::alloc::{AllocError, Global};
use std::sync::Wait;
use std::test::Fail;
use std::thread;
use std::thread::Threads;

// How many keys are protected: as many as the share of one shard has room for, so that they are, wherever they stand.
const PROTECTED: u64 = 8;

// How many keys are asked for once.
const ONCE: u64 = 4000;

type Numbers = SharedSegmentedCache<u64, u64, 4>;

// Puts keys and uses each, and answers whether all stand in upper segments.
fn are_protected(rt: &impl Wait, cache: &Numbers) -> Result<bool, AllocError> {
    for key in 0..PROTECTED {
        drop(cache.put(rt, key, key, 1, |_gone| {}));
        drop(cache.get(rt, &key)?);
    }
    Ok(cache.protected_len(rt) == 8)
}

// Asks for many keys once, from this one on, each of which is made, or put.
fn walk<R: Wait>(rt: &R, cache: &Numbers, first: u64) {
    for key in first..first.saturating_add(ONCE) {
        if key % 2 == 0 {
            drop(cache.put(rt, key, key, 1, |_gone| {}));
        } else {
            drop(cache.get_or_put_with(
                rt,
                key,
                move || Ok::<(u64, usize), ()>((key, 1)),
                |_gone| {},
            ));
        }
    }
}

// Two threads walk over keys of their own. Whether those that were protected are all there, and the cache is full.
fn stay<R: Threads + Wait + Sync>(rt: &R, alloc: Global) -> Result<bool, AllocError> {
    let cache = Numbers::with_protected_and_seed(alloc, Limits::of_weight(64), 32, 11)?;
    let are_there = are_protected(rt, &cache)?;
    let shared = &cache;
    thread::join(
        rt,
        move || walk(rt, shared, 10_000),
        move || walk(rt, shared, 20_000),
    );
    let mut still_there = cache.protected_weight(rt) == 8;
    for key in 0..PROTECTED {
        still_there &= cache.peek_with(rt, &key, |value: &u64| *value) == Some(key);
    }
    Ok(are_there & still_there & ((cache.len(rt), cache.weight(rt)) == (64, 64)))
}

#[test]
fn a_walk_leaves_what_is_protected(rt: HostRuntime) -> Result<(), Fail> {
    assert!(rt; stay(&rt, rt.alloc())?);
    Ok(())
}
