//! Caches of numbers, of keys that collide, and of values without a size, at times that are handed in.
use crate::alike::Alike;
use crate::deadline_steps::{Call, Step, fault};
use lru_deadlines::deadlines::{DeadlineCache, Until};
use std::test::Fail;

// An entry is there at its deadline, and not after it.
#[rattlefmt::skip]
static IN_TIME: [Step<u64, u64>; 17] = [
    (Call::PutUntil(1, 10, 2, 5), "new, gone:", "1 2: 1=10 2 to 5,"),
    (Call::PutUntil(2, 20, 3, 7), "new, gone:", "2 5: 2=20 3 to 7, 1=10 2 to 5,"),
    (Call::Look(5, 1), "true Some(10) Some(5)", "2 5: 2=20 3 to 7, 1=10 2 to 5,"),
    (Call::Look(6, 1), "false None None", "2 5: 2=20 3 to 7, 1=10 2 to 5,"),
    (Call::Look(0, 9), "false None None", "2 5: 2=20 3 to 7, 1=10 2 to 5,"),
    (Call::Promote(5, 1), "true", "2 5: 1=10 2 to 5, 2=20 3 to 7,"),
    (Call::Promote(5, 9), "false", "2 5: 1=10 2 to 5, 2=20 3 to 7,"),
    (Call::Promote(6, 1), "past: 1=10 2 to 5,", "1 3: 2=20 3 to 7,"),
    (Call::Promote(6, 1), "false", "1 3: 2=20 3 to 7,"),
    (Call::Update(7, 2, 21, 9), "Some((20, 7, 3))", "1 3: 2=21 3 to 9,"),
    (Call::Update(9, 2, 22, 8), "Some((21, 9, 3))", "1 3: 2=22 3 to 8,"),
    (Call::Update(9, 2, 23, 99), "past: 2=22 3 to 8,", "0 0:"),
    (Call::Update(9, 2, 23, 99), "None", "0 0:"),
    (Call::PutUntil(3, 30, 1, 0), "new, gone:", "1 1: 3=30 1 to 0,"),
    (Call::Look(0, 3), "true Some(30) Some(0)", "1 1: 3=30 1 to 0,"),
    (Call::Look(18446744073709551615, 3), "false None None", "1 1: 3=30 1 to 0,"),
    (Call::PutUntil(3, 31, 1, 18446744073709551615), "was 3=30 1 to 0, gone:", "1 1: 3=31 1 to 18446744073709551615,"),
];

// What is past its deadline counts until it goes, and goes as the others do.
#[rattlefmt::skip]
static HANDED_OVER: [Step<u64, u64>; 12] = [
    (Call::PutUntil(1, 10, 4, 5), "new, gone:", "1 4: 1=10 4 to 5,"),
    (Call::PutUntil(2, 20, 3, 1), "new, gone:", "2 7: 2=20 3 to 1, 1=10 4 to 5,"),
    (Call::PutUntil(3, 30, 5, 8), "new, gone: 1=10 4 to 5,", "2 8: 3=30 5 to 8, 2=20 3 to 1,"),
    (Call::PutUntil(4, 40, 11, 8), "TooHeavy: 4=40 to 8", "2 8: 3=30 5 to 8, 2=20 3 to 1,"),
    (Call::PutUntil(2, 21, 2, 9), "was 2=20 3 to 1, gone:", "2 7: 2=21 2 to 9, 3=30 5 to 8,"),
    (Call::Remove(3), "took 3=30 5 to 8,", "1 2: 2=21 2 to 9,"),
    (Call::Remove(3), "none", "1 2: 2=21 2 to 9,"),
    (Call::PutUntil(5, 50, 1, 2), "new, gone:", "2 3: 5=50 1 to 2, 2=21 2 to 9,"),
    (Call::PopLast, "took 2=21 2 to 9,", "1 1: 5=50 1 to 2,"),
    (Call::PutUntil(6, 60, 1, 2), "new, gone:", "2 2: 6=60 1 to 2, 5=50 1 to 2,"),
    (Call::Clear, "gone: 5=50 1 to 2, 6=60 1 to 2,", "0 0:"),
    (Call::PopLast, "none", "0 0:"),
];

// Of the entries that a sweep looks at, those go that are past their deadline.
#[rattlefmt::skip]
static SWEPT: [Step<u64, u64>; 14] = [
    (Call::Sweep(9, 9), "gone:", "0 0:"),
    (Call::PutUntil(1, 10, 1, 3), "new, gone:", "1 1: 1=10 1 to 3,"),
    (Call::PutUntil(2, 20, 1, 9), "new, gone:", "2 2: 2=20 1 to 9, 1=10 1 to 3,"),
    (Call::PutUntil(3, 30, 1, 4), "new, gone:", "3 3: 3=30 1 to 4, 2=20 1 to 9, 1=10 1 to 3,"),
    (Call::PutUntil(4, 40, 1, 8), "new, gone:", "4 4: 4=40 1 to 8, 3=30 1 to 4, 2=20 1 to 9, 1=10 1 to 3,"),
    (Call::PutUntil(5, 50, 1, 2), "new, gone:", "5 5: 5=50 1 to 2, 4=40 1 to 8, 3=30 1 to 4, 2=20 1 to 9, 1=10 1 to 3,"),
    (Call::Sweep(9, 0), "gone:", "5 5: 5=50 1 to 2, 4=40 1 to 8, 3=30 1 to 4, 2=20 1 to 9, 1=10 1 to 3,"),
    (Call::Sweep(3, 4), "gone:", "5 5: 5=50 1 to 2, 4=40 1 to 8, 3=30 1 to 4, 2=20 1 to 9, 1=10 1 to 3,"),
    (Call::Sweep(5, 2), "gone: 1=10 1 to 3,", "4 4: 5=50 1 to 2, 4=40 1 to 8, 3=30 1 to 4, 2=20 1 to 9,"),
    (Call::Sweep(5, 3), "gone: 3=30 1 to 4,", "3 3: 5=50 1 to 2, 4=40 1 to 8, 2=20 1 to 9,"),
    (Call::Promote(5, 2), "true", "3 3: 2=20 1 to 9, 5=50 1 to 2, 4=40 1 to 8,"),
    (Call::Sweep(9, 3), "gone: 4=40 1 to 8, 5=50 1 to 2,", "1 1: 2=20 1 to 9,"),
    (Call::Sweep(10, 18446744073709551615), "gone: 2=20 1 to 9,", "0 0:"),
    (Call::PutUntil(6, 60, 9, 1), "new, gone:", "1 9: 6=60 9 to 1,"),
];

#[test]
fn entries_are_answered_in_time(rt: HostRuntime) -> Result<(), Fail> {
    let mut cache = DeadlineCache::new(rt.alloc(), 10, 4)?;
    let fault = fault(rt.alloc(), &mut cache, &IN_TIME)?;
    assert_eq!(rt;
        (fault, cache.most_weight(), cache.most_entries()),
        (None, 10, 4)
    );
    Ok(())
}

#[test]
fn entries_are_handed_over(rt: HostRuntime) -> Result<(), Fail> {
    let mut cache = DeadlineCache::with_seed(rt.alloc(), 10, 4, 7)?;
    let fault = fault(rt.alloc(), &mut cache, &HANDED_OVER)?;
    assert_eq!(rt; (fault, cache.is_empty()), (None, true));
    Ok(())
}

#[test]
fn the_end_is_swept(rt: HostRuntime) -> Result<(), Fail> {
    let mut cache = DeadlineCache::new(rt.alloc(), 9, 5)?;
    assert_eq!(rt; fault(rt.alloc(), &mut cache, &SWEPT)?, None);
    Ok(())
}

#[rattlefmt::skip]
static ALIKE: [Step<Alike, ()>; 7] = [
    (Call::PutUntil(Alike(1), (), 1, 4), "new, gone:", "1 1: Alike(1)=() 1 to 4,"),
    (Call::PutUntil(Alike(2), (), 1, 6), "new, gone:", "2 2: Alike(2)=() 1 to 6, Alike(1)=() 1 to 4,"),
    (Call::Look(5, Alike(1)), "false None None", "2 2: Alike(2)=() 1 to 6, Alike(1)=() 1 to 4,"),
    (Call::Look(5, Alike(2)), "true Some(()) Some(6)", "2 2: Alike(2)=() 1 to 6, Alike(1)=() 1 to 4,"),
    (Call::Look(5, Alike(3)), "false None None", "2 2: Alike(2)=() 1 to 6, Alike(1)=() 1 to 4,"),
    (Call::Promote(5, Alike(1)), "past: Alike(1)=() 1 to 4,", "1 1: Alike(2)=() 1 to 6,"),
    (Call::Sweep(7, 1), "gone: Alike(2)=() 1 to 6,", "0 0:"),
];

#[test]
fn keys_of_one_hash_are_kept_apart(rt: HostRuntime) -> Result<(), Fail> {
    let mut cache = DeadlineCache::new(rt.alloc(), 10, 3)?;
    assert_eq!(rt; fault(rt.alloc(), &mut cache, &ALIKE)?, None);
    Ok(())
}

#[test]
fn a_deadline_is_the_last_time(rt: HostRuntime) -> Result<(), Fail> {
    let until = Until {
        value: (),
        deadline: 7,
    };
    assert_eq!(rt;
        (until.is_past(6), until.is_past(7), until.is_past(8)),
        (false, false, true)
    );
    Ok(())
}
