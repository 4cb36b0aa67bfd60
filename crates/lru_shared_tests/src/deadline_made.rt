//! Values that are made where a key has none in its time.
use lru_shared_deadlines::shared::{Ages, Limits, NotGot, SharedDeadlineCache};
use std::alloc::{AllocError, Global};
use std::sync::Wait;
use std::sync::atomic::{AtomicU64, Ordering};
use std::test::Fail;
use std::thread;
use std::thread::Threads;

type Numbers = SharedDeadlineCache<u64, u64, 2>;

// What a closure makes: a value and a weight, or a number that tells why none is made.
type Made = Result<(u64, usize), u8>;

const MINUTE: Ages = Ages { live: 60, idle: 60 };

fn ask(
    rt: &impl Wait,
    cache: &Numbers,
    time: u64,
    key: u64,
    made: Made,
) -> Result<u64, NotGot<u64, u64, u8>> {
    cache.get_or_put_with(rt, time, key, move || -> Made { made }, |_gone| {})
}

// What is there in its time is used; what is past is made anew.
fn are_made_where_missing(rt: &impl Wait, alloc: Global) -> Result<bool, AllocError> {
    let cache = Numbers::new(alloc, Limits::of_weight(20), MINUTE)?;
    let put = ask(rt, &cache, 0, 1, Ok((10, 2)));
    let used = ask(rt, &cache, 60, 1, Err(7));
    let again = ask(rt, &cache, 121, 1, Ok((11, 2)));
    let unmade = ask(rt, &cache, 0, 2, Err(7));
    let heavy = ask(rt, &cache, 0, 3, Ok((30, 11)));
    let is_as_told = matches!(put, Ok(10))
        && matches!(used, Ok(10))
        && matches!(again, Ok(11))
        && matches!(unmade, Err(NotGot::Unmade(2, 7)))
        && matches!(heavy, Err(NotGot::Refused(_)));
    Ok(is_as_told && (cache.len(rt), cache.weight(rt)) == (1, 2))
}

#[test]
fn a_value_is_made_where_a_key_has_none(rt: HostRuntime) -> Result<(), Fail> {
    assert!(rt; are_made_where_missing(&rt, rt.alloc())?);
    Ok(())
}

// While a value is made, another is put of its key: that one is newer, and stays.
fn newer_stays(rt: &impl Wait, alloc: Global) -> Result<bool, AllocError> {
    let cache = Numbers::new(alloc, Limits::of_weight(20), MINUTE)?;
    let shared = &cache;
    let make = move || -> Made {
        match shared.put(rt, 5, 1, 99, 1, |_gone| {}) {
            Ok(_) => Ok((10, 1)),
            Err(_) => Err(1),
        }
    };
    let answered = cache.get_or_put_with(rt, 5, 1, make, |_gone| {});
    Ok(matches!(answered, Ok(10)) && cache.get(rt, 5, &1)? == Some(99) && cache.len(rt) == 1)
}

// While a value is made, its key is taken out: what was made is answered, and is not put.
fn nothing_comes_back(rt: &impl Wait, alloc: Global) -> Result<bool, AllocError> {
    let cache = Numbers::new(alloc, Limits::of_weight(20), MINUTE)?;
    let shared = &cache;
    let make = move || -> Made {
        match shared.remove(rt, &1) {
            None => Ok((10, 1)),
            Some(_) => Err(1),
        }
    };
    let answered = cache.get_or_put_with(rt, 5, 1, make, |_gone| {});
    Ok(matches!(answered, Ok(10)) & (cache.len(rt) == 0))
}

#[test]
fn what_was_removed_meanwhile_does_not_come_back(rt: HostRuntime) -> Result<(), Fail> {
    assert!(rt; nothing_comes_back(&rt, rt.alloc())?);
    Ok(())
}

#[test]
fn what_was_put_meanwhile_stays(rt: HostRuntime) -> Result<(), Fail> {
    assert!(rt; newer_stays(&rt, rt.alloc())?);
    Ok(())
}

// Asks for a key's value, which takes a while to make. Whether 7 is answered.
fn asks<R: Wait>(rt: &R, cache: &Numbers, made: &AtomicU64) -> bool {
    let answer = cache.get_or_put_with(
        rt,
        100,
        5,
        || -> Made {
            made.fetch_add(1, Ordering::SeqCst);
            for _ in 0..1000u32 {
                thread::yield_now();
            }
            Ok((7, 1))
        },
        |_gone| {},
    );
    matches!(answer, Ok(7))
}

// Two threads ask for one key's value, which has one that is past. How many were answered, and how often it was made.
fn both_ask<R: Threads + Wait + Sync>(rt: &R, alloc: Global) -> Result<(bool, u64), AllocError> {
    let cache = Numbers::new(alloc, Limits::of_weight(20), MINUTE)?;
    let put = cache.put(rt, 0, 5, 6, 1, |_gone| {});
    let count = AtomicU64::new(0);
    let (shared, made) = (&cache, &count);
    let (one, two) = thread::join(
        rt,
        move || asks(rt, shared, made),
        move || asks(rt, shared, made),
    );
    Ok((put.is_ok() && one && two, count.load(Ordering::SeqCst)))
}

#[test]
fn what_is_past_is_made_once(rt: HostRuntime) -> Result<(), Fail> {
    assert_eq!(rt; both_ask(&rt, rt.alloc())?, (true, 1));
    Ok(())
}
