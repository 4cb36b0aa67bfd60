//! Rows of numbers, and of texts.
use crate::steps::{Call, Step, fault};
use lru_rows::rows::Rows;
use std::test::Fail;

// Each call. The first row has place 2, since two places are no row's, and each place that is new is the next one.
#[rattlefmt::skip]
static EACH_CALL: [Step<u64>; 20] = [
    (Call::PopLast, "none", "0 0:"),
    (Call::PushFirst(1, 10, 3), "2", "1 2: 1=10 3,"),
    (Call::PushFirst(2, 20, 4), "3", "2 2: 2=20 4, 1=10 3,"),
    (Call::PushLast(3, 30, 5), "4", "3 4: 2=20 4, 1=10 3, 3=30 5,"),
    (Call::Find(1), "2", "3 4: 2=20 4, 1=10 3, 3=30 5,"),
    (Call::Find(9), "0", "3 4: 2=20 4, 1=10 3, 3=30 5,"),
    (Call::Look(3), "3=30 5", "3 4: 2=20 4, 1=10 3, 3=30 5,"),
    (Call::Promote(3), "true", "3 2: 3=30 5, 2=20 4, 1=10 3,"),
    (Call::Promote(9), "false", "3 2: 3=30 5, 2=20 4, 1=10 3,"),
    (Call::Update(2, 21), "Some((20, 4))", "3 2: 3=30 5, 2=21 4, 1=10 3,"),
    (Call::Update(9, 90), "None", "3 2: 3=30 5, 2=21 4, 1=10 3,"),
    (Call::SetWeight(2, 0), "true", "3 2: 3=30 5, 2=21 0, 1=10 3,"),
    (Call::SetWeight(9, 1), "false", "3 2: 3=30 5, 2=21 0, 1=10 3,"),
    (Call::Reserve(100), "true", "3 2: 3=30 5, 2=21 0, 1=10 3,"),
    // with 3 rows there are no places for 4294967291 more
    (Call::Reserve(4294967291), "false", "3 2: 3=30 5, 2=21 0, 1=10 3,"),
    (Call::Remove(2), "took 2=21 0", "2 2: 3=30 5, 1=10 3,"),
    (Call::Remove(2), "none", "2 2: 3=30 5, 1=10 3,"),
    (Call::PopLast, "took 1=10 3", "1 4: 3=30 5,"),
    (Call::PopLast, "took 3=30 5", "0 0:"),
    (Call::Look(3), "none", "0 0:"),
];

// A place that is free is used again, before another is taken.
#[rattlefmt::skip]
static PLACES: [Step<u64>; 10] = [
    (Call::PushFirst(1, 10, 1), "2", "1 2: 1=10 1,"),
    (Call::PushFirst(2, 20, 1), "3", "2 2: 2=20 1, 1=10 1,"),
    (Call::Remove(1), "took 1=10 1", "1 3: 2=20 1,"),
    (Call::PushFirst(3, 30, 2), "2", "2 3: 3=30 2, 2=20 1,"),
    (Call::PopLast, "took 2=20 1", "1 2: 3=30 2,"),
    // a place is free, so that none is made
    (Call::MakeVacancy, "true", "1 2: 3=30 2,"),
    (Call::PushLast(4, 40, 3), "3", "2 3: 3=30 2, 4=40 3,"),
    // none is free, so that the next is made
    (Call::MakeVacancy, "true", "2 3: 3=30 2, 4=40 3,"),
    (Call::MakeVacancy, "true", "2 3: 3=30 2, 4=40 3,"),
    (Call::PushFirst(1, 11, 4), "4", "3 3: 1=11 4, 3=30 2, 4=40 3,"),
];

// Rows that go last: the first, one in the middle, and the last itself.
#[rattlefmt::skip]
static DEMOTED: [Step<u64>; 9] = [
    (Call::PushLast(1, 10, 3), "2", "1 2: 1=10 3,"),
    (Call::Demote(1), "true", "1 2: 1=10 3,"),
    (Call::PushLast(2, 20, 4), "3", "2 3: 1=10 3, 2=20 4,"),
    (Call::PushLast(3, 30, 5), "4", "3 4: 1=10 3, 2=20 4, 3=30 5,"),
    (Call::Demote(1), "true", "3 2: 2=20 4, 3=30 5, 1=10 3,"),
    (Call::Demote(3), "true", "3 4: 2=20 4, 1=10 3, 3=30 5,"),
    (Call::Demote(3), "true", "3 4: 2=20 4, 1=10 3, 3=30 5,"),
    (Call::Demote(9), "false", "3 4: 2=20 4, 1=10 3, 3=30 5,"),
    (Call::PopLast, "took 3=30 5", "2 2: 2=20 4, 1=10 3,"),
];

#[test]
fn rows_go_last(rt: HostRuntime) -> Result<(), Fail> {
    let mut rows = Rows::with_capacity(rt.alloc(), 0)?;
    assert_eq!(rt; fault(rt.alloc(), &mut rows, &DEMOTED)?, None);
    Ok(())
}

#[test]
fn each_call_answers(rt: HostRuntime) -> Result<(), Fail> {
    let mut rows = Rows::with_capacity(rt.alloc(), 0)?;
    assert_eq!(rt; fault(rt.alloc(), &mut rows, &EACH_CALL)?, None);
    Ok(())
}

#[test]
fn free_places_are_used_again(rt: HostRuntime) -> Result<(), Fail> {
    let mut rows = Rows::with_capacity_and_seed(rt.alloc(), 2, 5)?;
    assert_eq!(rt; fault(rt.alloc(), &mut rows, &PLACES)?, None);
    Ok(())
}

#[rattlefmt::skip]
static TEXTS: [Step<&'static str>; 5] = [
    (Call::PushFirst("one", 1, 3), "2", "1 2: \"one\"=1 3,"),
    (Call::PushFirst("two", 2, 3), "3", "2 2: \"two\"=2 3, \"one\"=1 3,"),
    (Call::Look("one"), "\"one\"=1 3", "2 2: \"two\"=2 3, \"one\"=1 3,"),
    (Call::Promote("one"), "true", "2 3: \"one\"=1 3, \"two\"=2 3,"),
    (Call::PopLast, "took \"two\"=2 3", "1 2: \"one\"=1 3,"),
];

#[test]
fn texts_are_found(rt: HostRuntime) -> Result<(), Fail> {
    let mut rows = Rows::with_capacity_and_seed(rt.alloc(), 0, 9)?;
    assert_eq!(rt; fault(rt.alloc(), &mut rows, &TEXTS)?, None);
    Ok(())
}
