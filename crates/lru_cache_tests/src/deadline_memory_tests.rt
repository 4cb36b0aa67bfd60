//! Want of memory: a put that is refused hands key and value back, leaves the cache as it was, and is made again. The
//! gate runs this with memory for all; `rt try --test --fail-alloc N` refuses the request number N.
use lru_deadlines::deadlines::{DeadlineCache, Until};
use lru_owned_cache::cache::{Cause, Refused};
use std::alloc::{AllocError, Global};
use std::test::Fail;

type Numbers = DeadlineCache<u64, u64>;

// As many puts as a cache grows by several times.
const PUTS: u64 = 40;

// Whether the keys are those below `count`, the greatest first, each with three times itself as its value, itself as its
// deadline and a weight of 1.
fn holds(cache: &Numbers, count: u64) -> bool {
    let mut next = count;
    for (key, until, weight) in cache.iter() {
        next = next.wrapping_sub(1);
        let is_whole = (until.value, until.deadline, weight) == (next.wrapping_mul(3), next, 1);
        if *key != next || !is_whole {
            return false;
        }
    }
    next == 0 && (cache.len() as u64, cache.weight() as u64) == (count, count)
}

// Whether a refusal is for want of memory, and hands this back.
fn is_fair(refused: &Refused<u64, Until<u64>>, key: u64) -> bool {
    let until = &refused.value;
    (refused.cause, refused.key) == (Cause::Memory, key)
        && (until.value, until.deadline) == (key.wrapping_mul(3), key)
}

// Puts the key that is as many as there are entries, at the second try where the first is refused. Whether all is right.
fn put_at_last(cache: &mut Numbers, refusals: &mut u64, key: u64) -> bool {
    let value = key.wrapping_mul(3);
    let is_fair = match cache.put_until(key, value, 1, key, |_| {}) {
        Ok(was) => was.is_none(),
        Err(refused) => {
            *refusals = refusals.wrapping_add(1);
            let is_same = holds(cache, key) & is_fair(&refused, key);
            is_same & cache.put_until(key, value, 1, key, |_| {}).is_ok()
        }
    };
    is_fair & holds(cache, key.wrapping_add(1))
}

// The first key whose put is not right.
fn first_wrong(cache: &mut Numbers, refusals: &mut u64) -> Option<u64> {
    for key in 0..PUTS {
        if !put_at_last(cache, refusals, key) {
            return Some(key);
        }
    }
    None
}

// A cache of no entries, at the second try where the first is refused.
fn made(alloc: Global, refusals: &mut u64) -> Result<Numbers, AllocError> {
    match Numbers::new(alloc, 1000, PUTS as usize) {
        Ok(cache) => Ok(cache),
        Err(AllocError) => {
            *refusals = refusals.wrapping_add(1);
            Numbers::new(alloc, 1000, PUTS as usize)
        }
    }
}

// Whether the calls that take no memory answer: a use, one that is past its deadline, and a sweep.
fn are_used_and_swept(cache: &mut Numbers) -> bool {
    let used = matches!(cache.promote(9, &9), Ok(true));
    let past = matches!(cache.promote(10, &9), Err(_));
    let mut gone = 0u64;
    cache.sweep(8, 20, |entry| gone = gone.wrapping_add(entry.key));
    // of 0 to 8 and 10 to 20, those below 8
    used & past & (gone == 28) & (cache.len() as u64 == PUTS - 9)
}

#[test]
fn refused_puts_change_nothing(rt: HostRuntime) -> Result<(), Fail> {
    let mut refusals = 0;
    let mut cache = made(rt.alloc(), &mut refusals)?;
    let wrong = first_wrong(&mut cache, &mut refusals);
    let is_done = are_used_and_swept(&mut cache);
    assert!(rt; wrong.is_none() && is_done && refusals <= 1, "{wrong:?}");
    Ok(())
}
