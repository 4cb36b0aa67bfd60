//! Refused calls: what they hand back, and what a history and a seat have of them.
ghost use Rattle.std.specs.Prelude.{◌≡◌};

use crate::recorded_plain::finished;
use lru_recording::entry::{Call, Entry, Names, Receipt, Reply};
use lru_recording::journal::{Journal, Seat};
use lru_recording::recorded::RecordedLru;
use lru_recording::recording::Recording;
use lru_recording::tie::{Blank, Registry};
use lru_shard::unit::{Cause, Refused};
use std::alloc::{AllocError, Global};
use std::marker::Brand;
use std::sync::Wait;
use std::test::Fail;

const MOST: usize = usize::MAX;

// What a shard that is as heavy as it may be notes of its calls. The closures give 2 for key 1, and 0 for key 3.
const HEAVY: [(Call, Reply); 7] = [
    (Call::Admit { key: 1, weight: 1 }, Reply::Weight(0)),
    (
        Call::Admit {
            key: 2,
            weight: MOST - 1,
        },
        Reply::Weight(0),
    ),
    (
        Call::UpdateOrAdmit { key: 1, weight: 2 },
        Reply::Refused(Cause::Weight),
    ),
    (
        Call::UpdateOrAdmit { key: 3, weight: 1 },
        Reply::Refused(Cause::Weight),
    ),
    (
        Call::Admit { key: 4, weight: 5 },
        Reply::Refused(Cause::Weight),
    ),
    (
        Call::InsertTail { key: 5, weight: 1 },
        Reply::Refused(Cause::Weight),
    ),
    (
        Call::SetWeight { key: 1, weight: 7 },
        Reply::Refused(Cause::Weight),
    ),
];

// The rows that stay, as data and weight: the refused update's data, at the old weight.
const ROWS: [(u64, usize); 2] = [(20, MOST - 1), (11, 1)];

// Of so many shards each may weigh 2, and have two rows.
const SHARDS: usize = 9_223_372_036_854_775_807;

// What a shard that is as long as it may be notes of its calls. All keys are of shard 0.
const FULL: [(Call, Reply); 5] = [
    (Call::Admit { key: 0, weight: 1 }, Reply::Weight(0)),
    (
        Call::Admit {
            key: SHARDS as u64,
            weight: 1,
        },
        Reply::Weight(0),
    ),
    (
        Call::UpdateOrAdmit {
            key: 2 * SHARDS as u64,
            weight: 0,
        },
        Reply::Refused(Cause::Length),
    ),
    (
        Call::Admit {
            key: 2 * SHARDS as u64,
            weight: 2,
        },
        Reply::Refused(Cause::Length),
    ),
    (
        Call::InsertTail {
            key: 2 * SHARDS as u64,
            weight: 3,
        },
        Reply::Refused(Cause::Length),
    ),
];

// What the calls that are refused hand back: an update of a row and one of a missing key, an `admit` and an `insert_tail`.
type Held = ([Option<(u64, usize)>; 2], [Option<u64>; 2]);

const NOTHING: Held = ([None, None], [None, None]);

const HEAVY_HELD: Held = ([None, Some((30, 0))], [Some(40), Some(50)]);

const FULL_HELD: Held = ([None, None], [Some(40), Some(50)]);

fn pair_of<V: Drop>(answer: Result<V, Refused<Option<(u64, usize)>>>) -> Option<(u64, usize)> {
    match answer {
        Ok(_) => None,
        Err(refused) => refused.held,
    }
}

fn data_of<V: Drop>(answer: Result<V, Refused<u64>>) -> Option<u64> {
    match answer {
        Ok(_) => None,
        Err(refused) => Some(refused.held),
    }
}

// A history, a seat's receipts, what was handed back, and the rows at the end.
type Left = (Vec<Entry>, Vec<Receipt>, Held, Vec<(u64, usize)>);

fn refuse_calls<B: Registry, R: Wait>(
    rt: &R,
    lru: &RecordedLru<u64, B, 1>,
    seat: &mut Seat<B>,
) -> Held {
    let _ = lru.admit(rt, seat, 1, 10, 1);
    let _ = lru.admit(rt, seat, 2, 20, MOST - 1);
    let updated = lru.update_or_admit(
        rt,
        seat,
        1,
        |data: &mut u64, _| {
            *data = 11;
            2
        },
        || (12, 3),
    );
    let made = lru.update_or_admit(rt, seat, 3, |_: &mut u64, _| 4, || (30, 0));
    let admitted = lru.admit(rt, seat, 4, 40, 5);
    let inserted = lru.insert_tail(rt, seat, 5, 50, 1);
    let _ = lru.set_weight(rt, seat, 1, 7);
    (
        [pair_of(updated), pair_of(made)],
        [data_of(admitted), data_of(inserted)],
    )
}

fn refused_for_weight<B: Registry, R: Wait>(
    rt: &R,
    alloc: Global,
    blank: Blank,
) -> Result<Option<Left>, AllocError>
    requires blank { (blank.tie.table.shared.table_id ≡ B.table) × (blank.tie.table.shared.key ≡ record { shards = 1; seats = 1 }) }
    requires callers { B.seats ≡ 1 }
{
    let (lru, mut seats) = RecordedLru::<u64, B, 1>::new(alloc, blank, MOST, 2, None, 1)?;
    let mut held = NOTHING;
    for seat in seats.iter_mut() {
        held = refuse_calls(rt, &lru, seat);
    }
    let Some(recorded) = finished(lru, seats, 1) else {
        return Ok(None);
    };
    let mut rows = Vec::new(alloc);
    for unit in &recorded.units {
        for (data, weight) in unit.iter() {
            rows.push((*data, weight))?;
        }
    }
    let mut receipts = Vec::new(alloc);
    for seat in &recorded.seats {
        for receipt in seat.receipts() {
            receipts.push(*receipt)?;
        }
    }
    let mut histories = recorded.histories;
    let Some(history) = histories.pop() else {
        return Ok(None);
    };
    Ok(Some((history, receipts, held, rows)))
}

fn heavy<R: Wait>(rt: &R, alloc: Global) -> Result<Option<Left>, AllocError> {
    let blank = Blank::new(
        alloc,
        Names {
            shards: 1,
            seats: 1,
        },
    )?;
    refused_for_weight::<Brand, _>(rt, alloc, blank)
}

// Calls on one of very many shards, which has the rows that it may have.
fn refused_for_length<B: Registry>(alloc: Global, blank: Blank) -> Result<Left, AllocError>
    requires blank { (blank.tie.table.shared.table_id ≡ B.table) × (blank.tie.table.shared.key ≡ record { shards = 1; seats = 1 }) }
{
    let Blank { tie, token } = blank;
    let mut rest = token;
    let token = tie.next_shard(&mut rest);
    let mut recording = Recording::<u64, B, SHARDS>::new(alloc, 2, 0, token)?;
    if recording.journal.number != 0 {
        return Err(AllocError);
    }
    let token = tie.next_seat(&mut rest);
    let mut seat = Seat::<B>::new(alloc, 0, token);
    let _ = recording.admit(&tie, &mut seat, 0, 10, 1);
    let _ = recording.admit(&tie, &mut seat, SHARDS as u64, 20, 1);
    let key = 2 * SHARDS as u64;
    let made = recording.update_or_admit(&tie, &mut seat, key, |_: &mut u64, _| 4, || (30, 5));
    let admitted = recording.admit(&tie, &mut seat, key, 40, 2);
    let inserted = recording.insert_tail(&tie, &mut seat, key, 50, 3);
    let mut receipts = Vec::new(alloc);
    for receipt in seat.receipts() {
        receipts.push(*receipt)?;
    }
    let held = (
        [None, pair_of(made)],
        [data_of(admitted), data_of(inserted)],
    );
    let Recording { journal, .. } = recording;
    let Journal { history, .. } = journal;
    Ok((history, receipts, held, Vec::new(alloc)))
}

fn full(alloc: Global) -> Result<Left, AllocError> {
    let blank = Blank::new(
        alloc,
        Names {
            shards: 1,
            seats: 1,
        },
    )?;
    refused_for_length::<Brand>(alloc, blank)
}

// Whether a history has these calls of one seat with these replies, and its receipts are the same.
fn are_noted(history: &[Entry], receipts: &[Receipt], wanted: &[(Call, Reply)]) -> bool {
    if history.len() != wanted.len() || receipts.len() != wanted.len() {
        return false;
    }
    for (turn, (call, reply)) in wanted.iter().enumerate() {
        let entry = Entry {
            seat: 0,
            turn,
            call: *call,
            reply: *reply,
        };
        let receipt = Receipt {
            shard: 0,
            place: turn,
            call: *call,
            reply: *reply,
        };
        if history.get(turn) != Some(&entry) || receipts.get(turn) != Some(&receipt) {
            return false;
        }
    }
    true
}

#[test]
fn refusals_for_weight_are_noted(rt: HostRuntime) -> Result<(), Fail> {
    let alloc: Global = rt.alloc();
    let Some((history, receipts, held, rows)) = heavy(&rt, alloc)? else {
        panic!(rt; "no seats");
    };
    let noted = are_noted(history.as_slice(), receipts.as_slice(), &HEAVY);
    assert_eq!(rt;
        (noted, held, rows.as_slice()),
        (true, HEAVY_HELD, ROWS.as_slice())
    );
    Ok(())
}

#[test]
fn refusals_for_length_are_noted(rt: HostRuntime) -> Result<(), Fail> {
    let (history, receipts, held, _) = full(rt.alloc())?;
    let noted = are_noted(history.as_slice(), receipts.as_slice(), &FULL);
    assert_eq!(rt; (noted, held), (true, FULL_HELD));
    Ok(())
}
