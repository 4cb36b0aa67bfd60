//! Calls with closures: what they are handed, what comes of it, and which are not called.
use crate::steps::shown;
use lru_cores::lru_core::LruCore;
use lru_shard::unit::{Cause, Refused};
use std::alloc::{AllocError, Global};
use std::test::Fail;

const MOST: usize = 18446744073709551615;

// A key, what its closure adds to its weight, and whether it gives the weight 0.
static UPDATES: [(u64, usize, bool); 3] = [(2, 3, false), (6, 0, false), (4, 0, true)];

// What each update answers and leaves, where the keys 2 and 4 have their own weight.
fn updates(alloc: Global) -> Result<String, Fail> {
    let mut core = LruCore::<u64, 1>::with_capacity(alloc, 100, 0)?;
    let shards = (core.admit(2, 20, 2)?, core.admit(4, 40, 4)?);
    let mut text = format!(in alloc; "{shards:?}")?;
    for (key, more, is_zero) in &UPDATES {
        let answer = core.update_or_admit(
            *key,
            |value, weight| {
                *value = value.wrapping_add(1);
                if *is_zero {
                    0
                } else {
                    weight.wrapping_add(*more)
                }
            },
            || (60, 0),
        )?;
        let left = shown(alloc, &core)?;
        write!(text, "; {answer:?} {left}")?;
    }
    Ok(text)
}

#[test]
fn updates_or_admits(rt: HostRuntime) -> Result<(), Fail> {
    assert_eq!(rt;
        updates(rt.alloc())?.as_str(),
        "(0, 0); Some(2) 9: [(21, 5), (40, 4)]; None 10: [(60, 1), (21, 5), (40, 4)]; \
            Some(4) 7: [(41, 1), (60, 1), (21, 5)]"
    );
    Ok(())
}

// A key, what is added to its weight, up to what, and the answer.
static INCREMENTS: [(u64, usize, Option<usize>, Result<usize, Cause>); 3] = [
    (1, 1, Some(1), Ok(MOST)),
    (2, 1, None, Err(Cause::Weight)),
    (3, 1, None, Err(Cause::Weight)),
];

// Whether each increment is answered so; `made` counts the data that were made.
fn are_increments_right(core: &mut LruCore<u64, 1>, made: &mut u32) -> bool {
    let mut right = true;
    for (key, delta, most, wanted) in &INCREMENTS {
        let data = || {
            *made = made.wrapping_add(1);
            7
        };
        let answer = core.increment_weight(*key, data, *delta, *most);
        right = right && answer == *wanted;
    }
    right
}

// A key, the weight that its closure gives, the answer or what a refusal hands back, and how many data were made so far.
type Update = (u64, usize, Result<Option<usize>, Option<(u64, usize)>>, u32);

static REFUSED_UPDATES: [Update; 3] = [
    (1, MOST, Ok(Some(MOST)), 0),
    (3, 1, Err(None), 0),
    (2, 1, Err(Some((7, 1))), 1),
];

// What a call that is refused for weight hands back; for another cause it is nothing that is wanted.
fn handed_back(refused: Refused<Option<(u64, usize)>>) -> Option<(u64, usize)> {
    match refused.cause {
        Cause::Weight => refused.held,
        _ => Some((0, 0)),
    }
}

fn are_updates_right(core: &mut LruCore<u64, 1>, made: &mut u32) -> bool {
    let mut right = true;
    for (key, weight, wanted, count) in &REFUSED_UPDATES {
        let data = || {
            *made = made.wrapping_add(1);
            (7, 1)
        };
        let answer = core
            .update_or_admit(*key, |_, _| *weight, data)
            .map_err(handed_back);
        right = right && answer == *wanted && *made == *count;
    }
    right
}

// No data are made where they are not needed: not for a row that is there, also where it is refused, and not before
// a refusal for weight. An update that is refused hands back what was made.
#[test]
fn makes_no_data_that_it_need_not(rt: HostRuntime) -> Result<(), Fail> {
    let mut core = LruCore::<u64, 1>::with_capacity(rt.alloc(), 100, 0)?;
    let shard = core.admit(1, 10, MOST)?;
    let is_added = core.insert_tail(3, 30, 0)?;
    let mut made = 0u32;
    let are_right = [
        are_increments_right(&mut core, &mut made),
        are_updates_right(&mut core, &mut made),
    ];
    assert_eq!(rt; (shard, is_added, are_right, made), (0, true, [true; 2], 1));
    Ok(())
}

// What each admission that evicts answers, the pairs that leave, and what is left, with three shards and a limit of 5.
static ADMISSIONS: [(u64, usize, &str); 7] = [
    (0, 2, "Ok(0) [] 2: [(0, 2)] [] []"),
    (1, 2, "Ok(1) [] 4: [(0, 2)] [(1, 2)] []"),
    // its own shard's last row leaves, though another's was used longer ago
    (4, 2, "Ok(1) [(1, 2)] 4: [(0, 2)] [(4, 2)] []"),
    // no row of its own shard is left but itself: the next shard's, round the circle
    (7, 4, "Ok(1) [(4, 2), (0, 2)] 4: [] [(7, 4)] []"),
    // what it replaces counts no more
    (7, 5, "Ok(1) [] 5: [] [(7, 5)] []"),
    // too heavy by itself: it leaves after the last other row
    (3, 6, "Ok(0) [(7, 5), (3, 6)] 0: [] [] []"),
    (
        2,
        MOST,
        "Err(Refused { cause: Weight, held: 2 }) [] 0: [] [] []",
    ),
];

// The faults of these admissions, done in turn.
fn admission_faults(alloc: Global) -> Result<String, AllocError> {
    let mut core = LruCore::<u64, 3>::with_capacity(alloc, 5, 0)?;
    let mut faults = String::new(alloc);
    for (key, weight, wanted) in &ADMISSIONS {
        let mut evicted = Vec::new(alloc);
        let mut all_kept = true;
        let answer = core.admit_and_evict(*key, *key, *weight, |pair| {
            all_kept &= evicted.push(pair).is_ok();
        });
        let left = shown(alloc, &core)?;
        let text = format!(in alloc; "{answer:?} {evicted:?} {left}")?;
        if !all_kept || text.as_str() != *wanted {
            writeln!(faults, "{key} of {weight}: {text}")?;
        }
    }
    let counters = (core.len(), core.evicted_len(), core.evicted_weight());
    if counters != (0, 5, 17) {
        write!(faults, "{counters:?}")?;
    }
    Ok(faults)
}

#[test]
fn admits_and_evicts(rt: HostRuntime) -> Result<(), Fail> {
    assert_eq!(rt; admission_faults(rt.alloc())?.as_str(), "");
    Ok(())
}
