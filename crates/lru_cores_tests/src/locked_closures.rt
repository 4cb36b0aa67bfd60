//! Calls of an `Lru` with closures: what they are handed, what comes of it, and which are not called.
use crate::locked_steps::shown;
use lru_shard::unit::{Cause, Refused};
use lru_shared_order::lru::Lru;
use std::alloc::{AllocError, Global};
use std::sync::Wait;
use std::test::Fail;

const HALF: usize = 9223372036854775807;

// What a refused call says and hands back.
fn parts<D>(refused: Refused<D>) -> (Cause, D) {
    (refused.cause, refused.held)
}

// A key, what its weight is raised by or whether it becomes 0, the weight that it had, and what the call leaves.
static UPDATES: [(u64, usize, bool, Option<usize>, &str); 3] = [
    (2, 3, false, Some(2), "9: [(21, 5), (40, 4)]"),
    (6, 0, false, None, "10: [(60, 1), (21, 5), (40, 4)]"),
    (4, 0, true, Some(4), "7: [(41, 1), (60, 1), (21, 5)]"),
];

// Whether an update or an admission answers and leaves that.
fn is_right<R: Wait>(
    rt: &R,
    alloc: Global,
    lru: &Lru<u64, 1>,
    (key, more, is_zero, was, left): (u64, usize, bool, Option<usize>, &str),
) -> Result<bool, AllocError> {
    let update = |value: &mut u64, weight: usize| {
        *value = value.wrapping_add(1);
        if is_zero {
            0
        } else {
            weight.wrapping_add(more)
        }
    };
    let answer = lru.update_or_admit(rt, key, update, || (60, 0));
    let is_answered = answer.map_err(parts) == Ok(was);
    Ok(is_answered & (shown(rt, alloc, lru)?.as_str() == left))
}

// The first key, if there is one, whose update or admission answers or leaves something else.
fn wrong_update<R: Wait>(rt: &R, alloc: Global) -> Result<Option<u64>, AllocError> {
    let lru = Lru::<u64, 1>::with_capacity(alloc, 100, 10)?;
    for key in [2u64, 4] {
        if !matches!(lru.admit(rt, key, key * 10, key as usize), Ok(0)) {
            return Ok(Some(key));
        }
    }
    for update in &UPDATES {
        if !is_right(rt, alloc, &lru, *update)? {
            return Ok(Some(update.0));
        }
    }
    Ok(None)
}

#[test]
fn updates_or_admits(rt: HostRuntime) -> Result<(), Fail> {
    assert_eq!(rt; wrong_update(&rt, rt.alloc())?, None);
    Ok(())
}

// The first key, if there is one, whose increment answers something else. `made` counts the data that are made.
fn wrong_increment<R: Wait>(rt: &R, lru: &Lru<u64, 2>, made: &mut u32) -> Option<u64> {
    for (key, delta, most, answer) in [
        (0, 1, Some(1), Ok(HALF)),
        (2, 1, None, Err(Cause::Weight)),
        (4, 1, None, Err(Cause::Weight)),
    ] {
        let data = || {
            *made = made.wrapping_add(1);
            7
        };
        if lru.increment_weight(rt, key, data, delta, most) != answer {
            return Some(key);
        }
    }
    None
}

// The first key, if there is one, whose update or admission answers something else.
fn wrong_refusal<R: Wait>(rt: &R, lru: &Lru<u64, 2>, made: &mut u32) -> Option<u64> {
    for (key, weight, answer) in [
        (0, HALF, Ok(Some(HALF))),
        (4, 1, Err((Cause::Weight, None))),
        (2, 1, Err((Cause::Weight, Some((9, 5))))),
    ] {
        if *made != 0 {
            return Some(key);
        }
        let data = || {
            *made = made.wrapping_add(1);
            (9, 5)
        };
        if lru
            .update_or_admit(rt, key, |_, _| weight, data)
            .map_err(parts)
            != answer
        {
            return Some(key);
        }
    }
    None
}

// No data are made where they are not needed: not for a row that is there, also where it is refused, and not before
// a refusal for weight. An update that is refused hands back what was made.
fn calls_what_it_needs<R: Wait>(rt: &R, lru: &Lru<u64, 2>) -> bool {
    let are_put = matches!(lru.admit(rt, 0, 10, HALF), Ok(0))
        & matches!(lru.insert_tail(rt, 4, 30, 0), Ok(true));
    let mut made = 0u32;
    let wrong = (
        wrong_increment(rt, lru, &mut made),
        wrong_refusal(rt, lru, &mut made),
    );
    let are_first = lru.promote_top_n(rt, 0, 0) & lru.promote_top_n(rt, 0, 1);
    let held = (lru.promote(rt, 0), lru.promote(rt, 2));
    are_put & are_first & ((wrong, made, held) == ((None, None), 1, (true, false)))
}

#[test]
fn calls_the_closures_that_it_needs(rt: HostRuntime) -> Result<(), Fail> {
    let lru = Lru::<u64, 2>::with_capacity(rt.alloc(), 100, 4)?;
    assert!(rt; calls_what_it_needs(&rt, &lru));
    Ok(())
}
