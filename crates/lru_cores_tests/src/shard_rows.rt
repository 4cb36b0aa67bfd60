//! Worked rows of one shard, each a list of calls.
use crate::shard_steps::{Call, Step, fault};
use lru_shard::unit::{Cause, LruUnit};
use std::alloc::{AllocError, Global};
use std::test::Fail;

#[rattlefmt::skip]
static REFUSES_PAST_ITS_CAP: [Step; 9] = [
    (Call::Admit { key: 1, data: 10, weight: 6 }, "Ok(0)", "6: 1=10 6,"),
    (Call::Admit { key: 2, data: 20, weight: 5 }, "Err(Refused { cause: Weight, held: 20 })", "6: 1=10 6,"),
    (Call::Admit { key: 1, data: 30, weight: 10 }, "Ok(6)", "10: 1=30 10,"),
    (Call::Admit { key: 1, data: 31, weight: 11 }, "Err(Refused { cause: Weight, held: 31 })", "10: 1=30 10,"),
    (Call::SetWeight { key: 1, weight: 11 }, "Err(Weight)", "10: 1=30 10,"),
    (Call::Increment { key: 1, data: 40, delta: 1, most: None }, "Err(Weight) false", "10: 1=30 10,"),
    (Call::Increment { key: 1, data: 40, delta: 1, most: Some(10) }, "Ok((10, 10, false)) false", "10: 1=30 10,"),
    (Call::Increment { key: 2, data: 40, delta: 1, most: None }, "Err(Weight) false", "10: 1=30 10,"),
    (Call::InsertTail { key: 2, data: 40, weight: 1 }, "Err(Refused { cause: Weight, held: 40 })", "10: 1=30 10,"),
];

// A refused update keeps what it did to the data, and makes none; a refused admission hands back what was made.
#[rattlefmt::skip]
static REFUSES_UPDATES: [Step; 7] = [
    (Call::Admit { key: 1, data: 5, weight: 6 }, "Ok(0)", "6: 1=5 6,"),
    (Call::Update { key: 1, data: 7, weight: 11 }, "Err(RefusedUpdate { cause: Weight, weight: 11, held: None }) false", "6: 1=7 6,"),
    (Call::Peek { key: 1 }, "Some(7)", "6: 1=7 6,"),
    (Call::PeekWeight { key: 1 }, "Some(6)", "6: 1=7 6,"),
    (Call::Update { key: 2, data: 9, weight: 5 }, "Err(RefusedUpdate { cause: Weight, weight: 5, held: Some((9, 5)) }) true", "6: 1=7 6,"),
    (Call::Peek { key: 2 }, "None", "6: 1=7 6,"),
    (Call::PeekWeight { key: 2 }, "None", "6: 1=7 6,"),
];

// A full shard refuses a new row before any data are made.
#[rattlefmt::skip]
static REFUSES_A_ROW_TOO_MANY: [Step; 7] = [
    (Call::InsertTail { key: 1, data: 10, weight: 0 }, "Ok(true)", "0: 1=10 0,"),
    (Call::InsertTail { key: 2, data: 20, weight: 0 }, "Err(Refused { cause: Length, held: 20 })", "0: 1=10 0,"),
    (Call::InsertTail { key: 1, data: 20, weight: 0 }, "Ok(false)", "0: 1=10 0,"),
    (Call::Admit { key: 2, data: 20, weight: 2 }, "Err(Refused { cause: Length, held: 20 })", "0: 1=10 0,"),
    (Call::Increment { key: 2, data: 20, delta: 2, most: None }, "Err(Length) false", "0: 1=10 0,"),
    (Call::Update { key: 2, data: 20, weight: 2 }, "Err(RefusedUpdate { cause: Length, weight: 0, held: None }) false", "0: 1=10 0,"),
    (Call::Update { key: 1, data: 11, weight: 0 }, "Ok((Some(0), 1)) false", "1: 1=11 1,"),
];

#[rattlefmt::skip]
static INCREMENTS_WEIGHTS: [Step; 4] = [
    (Call::Admit { key: 1, data: 1, weight: 1 }, "Ok(0)", "1: 1=1 1,"),
    (Call::Increment { key: 1, data: 2, delta: 1, most: None }, "Ok((1, 2, false)) false", "2: 1=1 2,"),
    (Call::Increment { key: 0, data: 0, delta: 1000, most: Some(3) }, "Ok((0, 3, true)) true", "5: 0=0 3, 1=1 2,"),
    (Call::Increment { key: 4, data: 4, delta: 0, most: None }, "Ok((0, 1, true)) true", "6: 4=4 1, 0=0 3, 1=1 2,"),
];

#[rattlefmt::skip]
static INCREMENTS_UP_TO_A_BOUND: [Step; 3] = [
    (Call::Increment { key: 1, data: 10, delta: 4, most: Some(0) }, "Ok((0, 1, true)) true", "1: 1=10 1,"),
    (Call::SetWeight { key: 1, weight: 5 }, "Ok(Some(1))", "5: 1=10 5,"),
    (Call::Increment { key: 1, data: 20, delta: 1, most: Some(3) }, "Ok((5, 5, false)) false", "5: 1=10 5,"),
];

#[rattlefmt::skip]
static COUNTS_A_ROW_OF_WEIGHT_0_ONCE: [Step; 2] = [
    (Call::InsertTail { key: 1, data: 1, weight: 0 }, "Ok(true)", "0: 1=1 0,"),
    (Call::Admit { key: 1, data: 1, weight: 5 }, "Ok(0)", "5: 1=1 5,"),
];

#[rattlefmt::skip]
static ANSWERS_EACH_CHANGE: [Step; 19] = [
    (Call::InsertTail { key: 3, data: 30, weight: 4 }, "Ok(true)", "4: 3=30 4,"),
    (Call::InsertTail { key: 2, data: 20, weight: 2 }, "Ok(true)", "6: 3=30 4, 2=20 2,"),
    (Call::InsertTail { key: 1, data: 10, weight: 5 }, "Ok(true)", "11: 3=30 4, 2=20 2, 1=10 5,"),
    (Call::NeedPromote { key: 1, limit: 2 }, "true", "11: 3=30 4, 2=20 2, 1=10 5,"),
    (Call::NeedPromote { key: 1, limit: 3 }, "false", "11: 3=30 4, 2=20 2, 1=10 5,"),
    (Call::Access { key: 1 }, "true", "11: 1=10 5, 3=30 4, 2=20 2,"),
    (Call::Access { key: 4 }, "false", "11: 1=10 5, 3=30 4, 2=20 2,"),
    (Call::Increment { key: 3, data: 31, delta: 1, most: None }, "Ok((4, 5, false)) false", "12: 3=30 5, 1=10 5, 2=20 2,"),
    (Call::Update { key: 2, data: 21, weight: 5 }, "Ok((Some(2), 5)) false", "15: 2=21 5, 3=30 5, 1=10 5,"),
    (Call::Update { key: 4, data: 40, weight: 0 }, "Ok((None, 1)) true", "16: 4=40 1, 2=21 5, 3=30 5, 1=10 5,"),
    (Call::SetWeight { key: 1, weight: 7 }, "Ok(Some(5))", "18: 4=40 1, 2=21 5, 3=30 5, 1=10 7,"),
    (Call::SetWeight { key: 9, weight: 7 }, "Ok(None)", "18: 4=40 1, 2=21 5, 3=30 5, 1=10 7,"),
    (Call::SetWeight { key: 3, weight: 0 }, "Ok(Some(5))", "13: 4=40 1, 2=21 5, 3=30 0, 1=10 7,"),
    (Call::Remove { key: 2 }, "Some((21, 5))", "8: 4=40 1, 3=30 0, 1=10 7,"),
    (Call::Remove { key: 2 }, "None", "8: 4=40 1, 3=30 0, 1=10 7,"),
    (Call::Evict, "Some((10, 7))", "1: 4=40 1, 3=30 0,"),
    (Call::Evict, "Some((30, 0))", "1: 4=40 1,"),
    (Call::Evict, "Some((40, 1))", "0:"),
    (Call::Evict, "None", "0:"),
];

// The fault of a table on an empty shard with a cap.
fn fault_of(alloc: Global, cap: usize, steps: &[Step]) -> Result<Option<usize>, AllocError> {
    let mut unit = LruUnit::with_capacity(alloc, 0, cap)?;
    fault(alloc, &mut unit, steps)
}

fn faults(alloc: Global) -> Result<[Option<usize>; 7], AllocError> {
    Ok([
        fault_of(alloc, 10, &REFUSES_PAST_ITS_CAP)?,
        fault_of(alloc, 10, &REFUSES_UPDATES)?,
        fault_of(alloc, 1, &REFUSES_A_ROW_TOO_MANY)?,
        fault_of(alloc, 10, &INCREMENTS_WEIGHTS)?,
        fault_of(alloc, 10, &INCREMENTS_UP_TO_A_BOUND)?,
        fault_of(alloc, 10, &COUNTS_A_ROW_OF_WEIGHT_0_ONCE)?,
        fault_of(alloc, 100, &ANSWERS_EACH_CHANGE)?,
    ])
}

#[test]
fn answers_and_leaves_what_it_should(rt: HostRuntime) -> Result<(), Fail> {
    assert_eq!(rt; faults(rt.alloc())?, [None; 7]);
    Ok(())
}

// What each cause is as a number, and what it says.
fn numbers() -> [(u8, u8); 3] {
    [
        (Cause::Memory as u8, Cause::Memory.number()),
        (Cause::Weight as u8, Cause::Weight.number()),
        (Cause::Length as u8, Cause::Length.number()),
    ]
}

#[test]
fn numbers_its_causes(rt: HostRuntime) {
    assert_eq!(rt; numbers(), [(1, 1), (2, 2), (3, 3)]);
}
