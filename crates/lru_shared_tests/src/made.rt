//! Values that are made where a key has none: once, by one thread while others wait.
use lru_shared_cache::shared::{Limits, NotGot, SharedCache};
use std::alloc::{AllocError, Global};
use std::sync::Wait;
use std::sync::atomic::{AtomicU64, Ordering};
use std::test::Fail;
use std::thread;
use std::thread::Threads;

// What a closure makes: a value and a weight, or a number that tells why none is made.
type Made = Result<(u64, usize), u8>;

type Numbers = SharedCache<u64, u64, 2>;

// Asks for a key's value, and makes this one where it has none.
fn ask(rt: &impl Wait, cache: &Numbers, key: u64, made: Made) -> Result<u64, NotGot<u64, u64, u8>> {
    cache.get_or_put_with(rt, key, move || -> Made { made }, |_gone| {})
}

// A key that is there is used, and nothing is made; a missing one is put, unless none is made or it is too heavy.
fn are_made_where_missing(rt: &impl Wait, alloc: Global) -> Result<bool, AllocError> {
    let cache = Numbers::new(alloc, 20, 20)?;
    let put = ask(rt, &cache, 1, Ok((10, 2)));
    let used = ask(rt, &cache, 1, Err(7));
    let unmade = ask(rt, &cache, 2, Err(7));
    let heavy = ask(rt, &cache, 3, Ok((30, 11)));
    let then = ask(rt, &cache, 3, Ok((31, 1)));
    let is_as_told = matches!(put, Ok(10))
        && matches!(used, Ok(10))
        && matches!(unmade, Err(NotGot::Unmade(2, 7)))
        && matches!(heavy, Err(NotGot::Refused(_)))
        && matches!(then, Ok(31));
    Ok(is_as_told && (cache.len(rt), cache.weight(rt)) == (2, 3))
}

#[test]
fn a_value_is_made_where_a_key_has_none(rt: HostRuntime) -> Result<(), Fail> {
    assert!(rt; are_made_where_missing(&rt, rt.alloc())?);
    Ok(())
}

// How many calls were begun, and how many values.
#[derive(Drop)]
struct Asked {
    begun: AtomicU64,
    made: AtomicU64,
}

// Waits until a number is at least so much, or for a long time; and then a while longer, in which who raised it last goes on.
fn wait_until(number: &AtomicU64, least: u64) {
    for _ in 0..1_000_000u32 {
        if number.load(Ordering::SeqCst) >= least {
            break;
        }
        thread::yield_now();
    }
    for _ in 0..1000u32 {
        thread::yield_now();
    }
}

// Asks for a key's value, which is not made before four have asked, nor the first `refusals` times. Whether 7 is answered.
fn asks<R: Wait>(rt: &R, cache: &Numbers, asked: &Asked, refusals: u64) -> bool {
    asked.begun.fetch_add(1, Ordering::SeqCst);
    let answer = cache.get_or_put_with(
        rt,
        5,
        || -> Made {
            let before = asked.made.fetch_add(1, Ordering::SeqCst);
            wait_until(&asked.begun, 4);
            if before < refusals {
                return Err(1);
            }
            Ok((7, 1))
        },
        |_gone| {},
    );
    matches!(answer, Ok(7))
}

fn two_ask<R: Threads + Wait + Sync>(
    rt: &R,
    cache: &Numbers,
    asked: &Asked,
    refusals: u64,
) -> (bool, bool) {
    thread::join(
        rt,
        move || asks(rt, cache, asked, refusals),
        move || asks(rt, cache, asked, refusals),
    )
}

// Four threads ask for one key's value. How many were answered, and how often it was made.
fn all_ask<R: Threads + Wait + Sync>(
    rt: &R,
    alloc: Global,
    refusals: u64,
) -> Result<(u8, u64), AllocError> {
    let cache = Numbers::new(alloc, 20, 20)?;
    let counts = Asked {
        begun: AtomicU64::new(0),
        made: AtomicU64::new(0),
    };
    let (shared, asked) = (&cache, &counts);
    let ((a, b), (c, d)) = thread::join(
        rt,
        move || two_ask(rt, shared, asked, refusals),
        move || two_ask(rt, shared, asked, refusals),
    );
    let mut answered = 0u8;
    for is_answered in [a, b, c, d] {
        if is_answered {
            answered = answered.saturating_add(1);
        }
    }
    Ok((answered, counts.made.load(Ordering::SeqCst)))
}

#[test]
fn a_value_is_made_once(rt: HostRuntime) -> Result<(), Fail> {
    assert_eq!(rt; all_ask(&rt, rt.alloc(), 0)?, (4, 1));
    Ok(())
}

#[test]
fn the_next_makes_what_was_refused(rt: HostRuntime) -> Result<(), Fail> {
    assert_eq!(rt; all_ask(&rt, rt.alloc(), 2)?, (2, 3));
    Ok(())
}

// What happens to a key while its value is made.
#[derive(Clone, Copy)]
enum Meanwhile {
    Put,
    Removed,
    RemovedAndMade,
}

// What happens meanwhile, and what the key's value is then.
static MEANWHILE: [(Meanwhile, Option<u64>); 3] = [
    (Meanwhile::Put, Some(99)),
    (Meanwhile::Removed, None),
    (Meanwhile::RemovedAndMade, Some(98)),
];

// Does that to key 1, and answers whether it went as it should.
fn is_done(rt: &impl Wait, cache: &Numbers, meanwhile: Meanwhile) -> bool {
    match meanwhile {
        Meanwhile::Put => cache.put(rt, 1, 99, 1, |_gone| {}).is_ok(),
        Meanwhile::Removed => cache.remove(rt, &1).is_none(),
        Meanwhile::RemovedAndMade => {
            cache.remove(rt, &1).is_none() && matches!(ask(rt, cache, 1, Ok((98, 1))), Ok(98))
        }
    }
}

// Whether what is made meanwhile is answered and put over nothing newer, and the next finds or makes a value.
fn is_put_over_nothing_newer(
    rt: &impl Wait,
    alloc: Global,
    (meanwhile, left): (Meanwhile, Option<u64>),
) -> Result<bool, AllocError> {
    let cache = Numbers::with_limits(alloc, Limits::of_weight(20))?;
    let shared = &cache;
    let make = move || -> Made {
        if is_done(rt, shared, meanwhile) {
            Ok((10, 1))
        } else {
            Err(1)
        }
    };
    let answered = cache.get_or_put_with(rt, 1, make, |_gone| {});
    let is_left = cache.get(rt, &1)? == left;
    let next = ask(rt, &cache, 1, Ok((97, 1)));
    let is_next = matches!(next, Ok(value) if value == left.unwrap_or(97));
    Ok(matches!(answered, Ok(10)) & is_left & is_next)
}

fn nothing_newer_is_lost(rt: &impl Wait, alloc: Global) -> Result<bool, AllocError> {
    // A making that is not ended has the last row wait for itself, so it is not come to where another is wrong.
    for row in &MEANWHILE {
        if !is_put_over_nothing_newer(rt, alloc, *row)? {
            return Ok(false);
        }
    }
    Ok(true)
}

#[test]
fn what_was_made_overwrites_nothing_newer(rt: HostRuntime) -> Result<(), Fail> {
    assert!(rt; nothing_newer_is_lost(&rt, rt.alloc())?);
    Ok(())
}

// Makes the value of key 1, to which this happens meanwhile, once another thread has asked for it. Whether what it makes is
// answered.
fn makes(rt: &impl Wait, cache: &Numbers, stage: &AtomicU64, meanwhile: Meanwhile) -> bool {
    let make = || -> Made {
        stage.fetch_add(1, Ordering::SeqCst);
        wait_until(stage, 2);
        if is_done(rt, cache, meanwhile) {
            Ok((10, 1))
        } else {
            Err(1)
        }
    };
    matches!(cache.get_or_put_with(rt, 1, make, |_gone| {}), Ok(10))
}

// Asks for it once the other makes it. What is answered: 97 where the other put none.
fn waits(rt: &impl Wait, cache: &Numbers, stage: &AtomicU64) -> Option<u64> {
    wait_until(stage, 1);
    stage.fetch_add(1, Ordering::SeqCst);
    ask(rt, cache, 1, Ok((97, 1))).ok()
}

// Whether who waits for a value goes on with this one where its key is put, or removed, meanwhile.
fn is_woken<R: Threads + Wait + Sync>(
    rt: &R,
    alloc: Global,
    meanwhile: Meanwhile,
    left: u64,
) -> Result<bool, AllocError> {
    let cache = Numbers::new(alloc, 20, 20)?;
    let number = AtomicU64::new(0);
    let (shared, stage) = (&cache, &number);
    let (is_made, answered) = thread::join(
        rt,
        move || makes(rt, shared, stage, meanwhile),
        move || waits(rt, shared, stage),
    );
    Ok(is_made & (answered == Some(left)))
}

#[test]
fn who_waits_goes_on_after_a_put_or_a_remove(rt: HostRuntime) -> Result<(), Fail> {
    assert!(rt;
        is_woken(&rt, rt.alloc(), Meanwhile::Put, 99)?
            && is_woken(&rt, rt.alloc(), Meanwhile::Removed, 97)?
    );
    Ok(())
}

// Entries that weigh much are kept, put or made.
fn are_heavy_kept(rt: &impl Wait, alloc: Global) -> Result<bool, AllocError> {
    let cache = Numbers::with_limits(alloc, Limits::of_weight(1_000_000))?;
    let is_put = matches!(cache.put(rt, 1, 10, 70_000, |_gone| {}), Ok(None));
    let is_made = matches!(ask(rt, &cache, 2, Ok((20, 100_000))), Ok(20));
    Ok(is_put & is_made & ((cache.len(rt), cache.weight(rt)) == (2, 170_000)))
}

#[test]
fn heavy_entries_are_kept(rt: HostRuntime) -> Result<(), Fail> {
    assert!(rt; are_heavy_kept(&rt, rt.alloc())?);
    Ok(())
}

// Whether of each shard the entries of even values stay, and then none.
fn are_retained(rt: &impl Wait, alloc: Global) -> Result<bool, AllocError> {
    let cache = Numbers::with_limits(alloc, Limits::of_weight(100))?;
    let mut is_put = true;
    for key in 0..20 {
        is_put &= matches!(cache.put(rt, key, key, 1, |_gone| {}), Ok(None));
    }
    for shard in 0..2 {
        cache.retain_shard(rt, shard, |_key, value, _weight| *value % 2 == 0);
    }
    let are_half = (
        cache.len(rt),
        cache.contains(rt, &4),
        cache.contains(rt, &5),
    ) == (10, true, false);
    let mut cleared = 0usize;
    for shard in 0..2 {
        cache.clear_shard(
            rt,
            shard,
            |entry| cleared = cleared.saturating_add(entry.weight),
        );
    }
    Ok(is_put && are_half && cleared == 10 && cache.len(rt) == 0)
}

#[test]
fn entries_are_retained_and_cleared(rt: HostRuntime) -> Result<(), Fail> {
    assert!(rt; are_retained(&rt, rt.alloc())?);
    Ok(())
}
