//! Want of memory: a put that is refused hands key and value back, leaves the cache as it was, and is made again. The
//! gate runs this with memory for all; `rt try --test --fail-alloc N` refuses the request number N.
use lru_owned_cache::cache::{Cache, Cause, Refused};
use std::alloc::{AllocError, Global};
use std::test::Fail;

// As many puts as a cache grows by several times.
const PUTS: u64 = 40;

// The value of a key.
fn value_of(key: u64) -> u64 {
    key.wrapping_mul(3)
}

// Whether the keys are those below `count`, the greatest first, each with its value and a weight of 1.
fn holds(cache: &Cache<u64, u64>, count: u64) -> bool {
    let mut next = count;
    for key in cache.keys() {
        next = next.wrapping_sub(1);
        let is_whole = (cache.peek(key).copied() == Some(value_of(next)))
            & (cache.weight_of(key) == Some(1));
        if *key != next || !is_whole {
            return false;
        }
    }
    next == 0 && (cache.len() as u64, cache.weight() as u64) == (count, count)
}

// Whether a refusal is for want of memory, and hands this back.
fn is_fair(refused: &Refused<u64, u64>, key: u64) -> bool {
    (refused.cause, refused.key, refused.value) == (Cause::Memory, key, value_of(key))
}

// Puts the key that is as many as there are entries, at the second try where the first is refused. Whether all is right,
// and nothing goes.
fn put_at_last(cache: &mut Cache<u64, u64>, refusals: &mut u64, key: u64) -> bool {
    let mut gone = false;
    let is_fair = match cache.put(key, value_of(key), 1, |_| gone = true) {
        Ok(was) => was.is_none(),
        Err(refused) => {
            *refusals = refusals.wrapping_add(1);
            let is_same = holds(cache, key) & is_fair(&refused, key);
            is_same & cache.put(key, value_of(key), 1, |_| gone = true).is_ok()
        }
    };
    is_fair & !gone & holds(cache, key.wrapping_add(1))
}

// The first key whose put is not right.
fn first_wrong(cache: &mut Cache<u64, u64>, refusals: &mut u64) -> Option<u64> {
    for key in 0..PUTS {
        if !put_at_last(cache, refusals, key) {
            return Some(key);
        }
    }
    None
}

// A cache of no entries, at the second try where the first is refused.
fn made(alloc: Global, refusals: &mut u64) -> Result<Cache<u64, u64>, AllocError> {
    match Cache::new(alloc, 1000, PUTS as usize) {
        Ok(cache) => Ok(cache),
        Err(AllocError) => {
            *refusals = refusals.wrapping_add(1);
            Cache::new(alloc, 1000, PUTS as usize)
        }
    }
}

// Whether a put for which another entry goes, and one of a key that has an entry, are let in.
fn puts_at_the_limit(cache: &mut Cache<u64, u64>) -> bool {
    let mut gone = 0u64;
    let is_new = cache
        .put(PUTS, 0, 1, |entry| gone = entry.key.wrapping_add(1))
        .is_ok();
    let is_replaced = cache.put(PUTS, 1, 1, |_| gone = 0).is_ok();
    is_new & is_replaced & (gone == 1)
}

#[test]
fn refused_puts_change_nothing(rt: HostRuntime) -> Result<(), Fail> {
    let mut refusals = 0;
    let mut cache = made(rt.alloc(), &mut refusals)?;
    assert_eq!(rt; first_wrong(&mut cache, &mut refusals), None);
    assert!(rt; puts_at_the_limit(&mut cache));
    assert!(rt; refusals <= 1);
    Ok(())
}
