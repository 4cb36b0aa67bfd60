//! Values that are made where a key has none: once, by one thread while others wait.
use lru_shared_segmented::shared::{Limits, NotGot, SharedSegmentedCache};
use std::alloc::{AllocError, Global};
use std::sync::Wait;
use std::sync::atomic::{AtomicU64, Ordering};
use std::test::Fail;
use std::thread;
use std::thread::Threads;

// What a closure makes: a value and a weight, or a number that tells why none is made.
type Made = Result<(u64, usize), u8>;

type Numbers = SharedSegmentedCache<u64, u64, 2>;

// Asks for a key's value, and makes this one where it has none.
fn ask(rt: &impl Wait, cache: &Numbers, key: u64, made: Made) -> Result<u64, NotGot<u64, u64, u8>> {
    cache.get_or_put_with(rt, key, move || -> Made { made }, |_gone| {})
}

// Asks for a key's value, which takes a while to make. Whether 7 is answered.
fn asks<R: Wait>(rt: &R, cache: &Numbers, made: &AtomicU64) -> bool {
    let answer = cache.get_or_put_with(
        rt,
        5,
        || -> Made {
            made.fetch_add(1, Ordering::SeqCst);
            for _ in 0..1000u32 {
                thread::yield_now();
            }
            Ok((7, 1))
        },
        |_gone| {},
    );
    matches!(answer, Ok(7))
}

fn two_ask<R: Threads + Wait + Sync>(rt: &R, cache: &Numbers, made: &AtomicU64) -> bool {
    let (one, two) = thread::join(
        rt,
        move || asks(rt, cache, made),
        move || asks(rt, cache, made),
    );
    one & two
}

// Four threads ask for one key's value. Whether all were answered, how often it was made, and how many entries the upper
// segments have then: each answer but the first is a use.
fn all_ask<R: Threads + Wait + Sync>(
    rt: &R,
    alloc: Global,
) -> Result<(bool, u64, usize), AllocError> {
    let cache = Numbers::with_protected(alloc, Limits::of_weight(20), 10)?;
    let count = AtomicU64::new(0);
    let (shared, made) = (&cache, &count);
    let (one, two) = thread::join(
        rt,
        move || two_ask(rt, shared, made),
        move || two_ask(rt, shared, made),
    );
    Ok((
        one & two,
        count.load(Ordering::SeqCst),
        cache.protected_len(rt),
    ))
}

#[test]
fn a_value_is_made_once(rt: HostRuntime) -> Result<(), Fail> {
    assert_eq!(rt; all_ask(&rt, rt.alloc())?, (true, 1, 1));
    Ok(())
}

// What happens to a key while its value is made.
#[derive(Clone, Copy)]
enum Meanwhile {
    Put,
    Removed,
    RemovedAndMade,
}

// What happens meanwhile, and what the key's value is then.
static MEANWHILE: [(Meanwhile, Option<u64>); 3] = [
    (Meanwhile::Put, Some(99)),
    (Meanwhile::Removed, None),
    (Meanwhile::RemovedAndMade, Some(98)),
];

// Does that to key 1, and answers whether it went as it should.
fn is_done(rt: &impl Wait, cache: &Numbers, meanwhile: Meanwhile) -> bool {
    match meanwhile {
        Meanwhile::Put => cache.put(rt, 1, 99, 1, |_gone| {}).is_ok(),
        Meanwhile::Removed => cache.remove(rt, &1).is_none(),
        Meanwhile::RemovedAndMade => {
            cache.remove(rt, &1).is_none() && matches!(ask(rt, cache, 1, Ok((98, 1))), Ok(98))
        }
    }
}

// Whether what is made meanwhile is answered and put over nothing newer, and the next finds or makes a value.
fn is_put_over_nothing_newer(
    rt: &impl Wait,
    alloc: Global,
    (meanwhile, left): (Meanwhile, Option<u64>),
) -> Result<bool, AllocError> {
    let cache = Numbers::with_protected(alloc, Limits::of_weight(20), 10)?;
    let shared = &cache;
    let make = move || -> Made {
        if is_done(rt, shared, meanwhile) {
            Ok((10, 1))
        } else {
            Err(1)
        }
    };
    let answered = cache.get_or_put_with(rt, 1, make, |_gone| {});
    let is_left = cache.get(rt, &1)? == left;
    let next = ask(rt, &cache, 1, Ok((97, 1)));
    let is_next = matches!(next, Ok(value) if value == left.unwrap_or(97));
    Ok(matches!(answered, Ok(10)) & is_left & is_next)
}

fn nothing_newer_is_lost(rt: &impl Wait, alloc: Global) -> Result<bool, AllocError> {
    // A making that is not ended has the last row wait for itself, so it is not come to where another is wrong.
    for row in &MEANWHILE {
        if !is_put_over_nothing_newer(rt, alloc, *row)? {
            return Ok(false);
        }
    }
    Ok(true)
}

#[test]
fn what_was_made_overwrites_nothing_newer(rt: HostRuntime) -> Result<(), Fail> {
    assert!(rt; nothing_newer_is_lost(&rt, rt.alloc())?);
    Ok(())
}

// What is not made or too heavy is not put, and is handed back; the next makes it.
fn are_handed_back(rt: &impl Wait, alloc: Global) -> Result<bool, AllocError> {
    let cache = Numbers::with_protected(alloc, Limits::of_weight(20), 10)?;
    let unmade = ask(rt, &cache, 2, Err(7));
    let heavy = ask(rt, &cache, 3, Ok((30, 11)));
    let then = ask(rt, &cache, 3, Ok((31, 1)));
    let is_as_told = matches!(unmade, Err(NotGot::Unmade(2, 7)))
        && matches!(heavy, Err(NotGot::Refused(_)))
        && matches!(then, Ok(31));
    Ok(is_as_told && (cache.len(rt), cache.protected_len(rt)) == (1, 0))
}

#[test]
fn what_is_not_put_is_handed_back(rt: HostRuntime) -> Result<(), Fail> {
    assert!(rt; are_handed_back(&rt, rt.alloc())?);
    Ok(())
}
