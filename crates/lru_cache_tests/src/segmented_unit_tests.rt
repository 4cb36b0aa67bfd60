//! A shard in two segments, small enough to be told by hand.
use lru_segmented::segmented_unit::SegmentedUnit;
use lru_shard::unit::Cause;
use std::alloc::{AllocError, Global};
use std::test::Fail;

type Letters = SegmentedUnit<char>;

// What a step asks for of a key.
#[derive(Clone, Copy)]
enum Step {
    // a row of this weight
    Admit(usize),
    Access,
    Remove,
    Evict,
}

// The keys of the upper segment, each a digit, and those of the lower one.
fn keys(unit: &Letters) -> (u64, u64) {
    let (mut upper, mut lower) = (0u64, 0u64);
    let mut left = unit.protected_len();
    for (key, _, _) in unit.iter() {
        if left > 0 {
            left -= 1;
            upper = upper.wrapping_mul(10).wrapping_add(*key);
        } else {
            lower = lower.wrapping_mul(10).wrapping_add(*key);
        }
    }
    (upper, lower)
}

// Makes a step, and tells the weight that it answers: one more for a key that is used, and a hundred times a cause's number.
fn told(unit: &mut Letters, step: Step, key: u64) -> usize {
    match step {
        Step::Admit(weight) => match unit.admit(key, 'a', weight) {
            Ok(was) => was,
            Err(refused) => (refused.cause.number() as usize).wrapping_mul(100),
        },
        Step::Access => unit.access(key) as usize,
        Step::Remove => unit.remove(key).map_or(0, |row| row.1),
        Step::Evict => unit.evict().map_or(0, |row| row.1),
    }
}

// Steps of a shard of 6 whose upper segment may weigh 3, each with its answer and with the keys that it leaves.
static STEPS: [(Step, u64, usize, (u64, u64)); 15] = [
    (Step::Admit(1), 1, 0, (0, 1)),
    (Step::Admit(2), 2, 0, (0, 21)),
    (Step::Access, 1, 1, (1, 2)),
    (Step::Access, 9, 0, (1, 2)),
    (Step::Admit(3), 3, 0, (1, 32)),
    // the cap refuses, and evicts nothing
    (Step::Admit(1), 4, 200, (1, 32)),
    // an eviction takes from the lower segment first
    (Step::Evict, 0, 2, (1, 3)),
    (Step::Access, 3, 1, (3, 1)),
    (Step::Access, 1, 1, (1, 3)),
    // a row that is there is used by an admit, and may grow to the cap
    (Step::Admit(5), 1, 200, (1, 3)),
    (Step::Admit(2), 1, 1, (1, 3)),
    (Step::Remove, 9, 0, (1, 3)),
    (Step::Remove, 3, 3, (1, 0)),
    (Step::Evict, 0, 2, (0, 0)),
    (Step::Evict, 0, 0, (0, 0)),
];

#[test]
fn steps_are_as_told_by_hand(rt: HostRuntime) -> Result<(), Fail> {
    let mut unit = SegmentedUnit::with_protected(rt.alloc(), 4, 6, 3)?;
    let mut wrong = 0u64;
    for (step, key, answer, left) in &STEPS {
        let is = told(&mut unit, *step, *key);
        if is != *answer || keys(&unit) != *left {
            wrong = wrong.wrapping_mul(10).wrapping_add(*key);
        }
    }
    assert_eq!(rt; wrong, 0);
    Ok(())
}

// What a shard tells of its rows, and when it is full.
fn looks(alloc: Global) -> Result<bool, AllocError> {
    let mut unit = SegmentedUnit::with_protected_and_seed(alloc, 0, 2, 1, 7)?;
    unit.reserve(2)?;
    let empty = unit.is_empty() && unit.peek_lru().is_none();
    let admitted = unit.admit(7, 'x', 0).is_ok() && unit.admit(8, 'y', 1).is_ok();
    let full = match unit.admit(9, 'z', 0) {
        Ok(_) => false,
        Err(refused) => refused.cause == Cause::Length && refused.held == 'z',
    };
    let seen = unit.contains(8) && unit.peek(8) == Some(&'y') && unit.peek_weight(8) == Some(1);
    let next = unit.peek_lru() == Some((&7, &'x', 0));
    let used = unit.access(8) && unit.protected_weight() == 1 && unit.used_weight() == 1;
    let told = (unit.len(), unit.cap(), unit.most_protected()) == (2, 2, 1);
    Ok(empty && admitted && full && seen && next && used && told)
}

#[test]
fn each_look_tells_of_the_rows(rt: HostRuntime) -> Result<(), Fail> {
    assert!(rt; looks(rt.alloc())?);
    Ok(())
}
