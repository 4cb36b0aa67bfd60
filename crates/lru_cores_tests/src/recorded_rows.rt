//! The worked row of one caller.
ghost use Rattle.std.specs.Prelude.{◌≡◌};

use crate::recorded_calls::{Answer, ask};
use crate::recorded_plain::{finished, is_right};
use lru_recording::entry::{Call, Entry, Names, Reply};
use lru_recording::recorded::RecordedLru;
use lru_recording::tie::{Blank, Registry};
use lru_shard::unit::Cause;
use rand::rngs::StdRng;
use rand_core::SeedableRng;
use std::alloc::{AllocError, Global};
use std::marker::Brand;
use std::sync::Wait;
use std::test::Fail;

const ONE: [(Call, Answer, Reply); 5] = [
    (
        Call::Admit { key: 1, weight: 1 },
        Answer::Shard(0),
        Reply::Weight(0),
    ),
    (
        Call::Admit { key: 2, weight: 1 },
        Answer::Shard(0),
        Reply::Weight(0),
    ),
    (
        Call::PeekWeight { key: 1 },
        Answer::Found(Some(1)),
        Reply::Found(1),
    ),
    (
        Call::EvictToLimit,
        Answer::Pairs(1, Some((1, 1))),
        Reply::Found(1),
    ),
    (
        Call::SetWeight { key: 2, weight: 5 },
        Answer::Found(Some(1)),
        Reply::Found(1),
    ),
];

// What the row of one caller leaves: whether its answers were right, its history, what its one row weighs, and whether
// the plain checker agrees.
type Left = (bool, Vec<Entry>, Option<(u64, usize)>, bool);

// A refused call is made again.
fn one_caller<B: Registry, R: Wait>(
    rt: &R,
    alloc: Global,
    blank: Blank,
) -> Result<Option<Left>, AllocError>
    requires blank { (blank.tie.table.shared.table_id ≡ B.table) × (blank.tie.table.shared.key ≡ record { shards = 1; seats = 1 }) }
    requires callers { B.seats ≡ 1 }
{
    let (lru, mut seats) = RecordedLru::<u64, B, 1>::new(alloc, blank, 1, 0, None, 1)?;
    let mut draws = StdRng::seed_from_u64(0);
    let mut right = true;
    for seat in seats.iter_mut() {
        for (call, wanted, _) in &ONE {
            let mut answer = ask(rt, alloc, &lru, seat, &mut draws, 0, *call);
            if answer == Answer::Refused(Cause::Memory) {
                answer = ask(rt, alloc, &lru, seat, &mut draws, 0, *call);
            }
            right = right && answer == *wanted;
        }
    }
    let Some(recorded) = finished(lru, seats, 1) else {
        return Ok(None);
    };
    let checked = match is_right(alloc, &recorded) {
        Ok(checked) => checked,
        Err(_) => is_right(alloc, &recorded)?,
    };
    let mut row = None;
    for unit in &recorded.units {
        row = unit.peek_lru().map(|(data, weight)| (*data, weight));
    }
    let mut histories = recorded.histories;
    let Some(history) = histories.pop() else {
        return Ok(None);
    };
    Ok(Some((right, history, row, checked)))
}

fn row_of_one<R: Wait>(rt: &R, alloc: Global) -> Result<Option<Left>, AllocError> {
    let blank = Blank::new(
        alloc,
        Names {
            shards: 1,
            seats: 1,
        },
    )?;
    one_caller::<Brand, _>(rt, alloc, blank)
}

// Whether a history has the calls of the row with their replies.
fn is_noted(history: &[Entry]) -> bool {
    for (turn, (call, _, reply)) in ONE.iter().enumerate() {
        let entry = Entry {
            seat: 0,
            turn,
            call: *call,
            reply: *reply,
        };
        if history.get(turn) != Some(&entry) {
            return false;
        }
    }
    history.len() == ONE.len()
}

#[test]
fn one_caller_over_the_limit(rt: HostRuntime) -> Result<(), Fail> {
    let alloc: Global = rt.alloc();
    let left = match row_of_one(&rt, alloc) {
        Ok(left) => left,
        Err(_) => row_of_one(&rt, alloc)?,
    };
    let Some((right, history, row, checked)) = left else {
        panic!(rt; "no seats");
    };
    assert_eq!(rt;
        ([right, checked, is_noted(history.as_slice())], row),
        ([true; 3], Some((2, 5)))
    );
    Ok(())
}

// Rows as data, which is the key, and weight, in the order of their admission.
const ROWS: [(u64, usize); 4] = [(1, 1), (2, 2), (3, 1), (4, 3)];

// A limit on the weight, one on the length, and how many of the rows have to leave, the oldest first.
const OVER: [(usize, Option<usize>, usize); 4] = [
    (6, None, 1),
    (7, Some(2), 2),
    (4, Some(3), 2),
    (3, None, 3),
];

// What is evicted of the rows.
fn evict_rows<B: Registry, R: Wait>(
    rt: &R,
    alloc: Global,
    blank: Blank,
    weight_limit: usize,
    watermark: Option<usize>,
) -> Result<Vec<(u64, usize)>, AllocError>
    requires blank { (blank.tie.table.shared.table_id ≡ B.table) × (blank.tie.table.shared.key ≡ record { shards = 1; seats = 1 }) }
    requires callers { B.seats ≡ 1 }
{
    let (lru, mut seats) = RecordedLru::<u64, B, 1>::new(
        alloc,
        blank,
        weight_limit,
        4,
        watermark,
        1,
    )?;
    let mut draws = StdRng::seed_from_u64(0);
    let mut evicted = Vec::new(alloc);
    for seat in seats.iter_mut() {
        for (key, weight) in &ROWS {
            let _ = lru.admit(rt, seat, *key, *key, *weight);
        }
        evicted = match lru.evict_to_limit(rt, alloc, seat, &mut draws) {
            Ok(pairs) => pairs,
            Err(_) => return Err(AllocError),
        };
    }
    Ok(evicted)
}

fn evicted_of_one<R: Wait>(
    rt: &R,
    alloc: Global,
    weight_limit: usize,
    watermark: Option<usize>,
) -> Result<Vec<(u64, usize)>, AllocError> {
    let blank = Blank::new(
        alloc,
        Names {
            shards: 1,
            seats: 1,
        },
    )?;
    evict_rows::<Brand, _>(rt, alloc, blank, weight_limit, watermark)
}

#[test]
fn evicts_until_no_limit_is_passed(rt: HostRuntime) -> Result<(), Fail> {
    let alloc: Global = rt.alloc();
    for (weight_limit, watermark, count) in &OVER {
        let evicted = evicted_of_one(&rt, alloc, *weight_limit, *watermark)?;
        assert_eq!(rt; Some(evicted.as_slice()), ROWS.get(..*count));
    }
    Ok(())
}
