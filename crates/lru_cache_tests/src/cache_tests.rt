//! Caches of numbers, of keys that collide, and of values without a size.
use crate::alike::Alike;
use crate::steps::{Call, Step, fault};
use lru_owned_cache::cache::Cache;
use std::test::Fail;

// Each call, under limits that nothing reaches.
#[rattlefmt::skip]
static EACH_CALL: [Step<u64, u64>; 13] = [
    (Call::Put(1, 10, 2), "new, gone:", "1 2: 1=10 2,"),
    (Call::Put(2, 20, 3), "new, gone:", "2 5: 2=20 3, 1=10 2,"),
    (Call::Put(3, 30, 1), "new, gone:", "3 6: 3=30 1, 2=20 3, 1=10 2,"),
    (Call::Look(2), "true Some(20) Some(3)", "3 6: 3=30 1, 2=20 3, 1=10 2,"),
    (Call::Look(9), "false None None", "3 6: 3=30 1, 2=20 3, 1=10 2,"),
    (Call::Promote(1), "true", "3 6: 1=10 2, 3=30 1, 2=20 3,"),
    (Call::Promote(9), "false", "3 6: 1=10 2, 3=30 1, 2=20 3,"),
    (Call::Put(3, 31, 4), "was 3=30 1, gone:", "3 9: 3=31 4, 1=10 2, 2=20 3,"),
    (Call::Remove(1), "took 1=10 2,", "2 7: 3=31 4, 2=20 3,"),
    (Call::Remove(1), "none", "2 7: 3=31 4, 2=20 3,"),
    (Call::PopLast, "took 2=20 3,", "1 4: 3=31 4,"),
    (Call::PopLast, "took 3=31 4,", "0 0:"),
    (Call::PopLast, "none", "0 0:"),
];

// What goes where the entries may weigh 10.
#[rattlefmt::skip]
static BY_WEIGHT: [Step<u64, u64>; 11] = [
    (Call::Put(1, 10, 3), "new, gone:", "1 3: 1=10 3,"),
    (Call::Put(2, 20, 3), "new, gone:", "2 6: 2=20 3, 1=10 3,"),
    (Call::Put(3, 30, 2), "new, gone:", "3 8: 3=30 2, 2=20 3, 1=10 3,"),
    // 10 is still within the limit
    (Call::Put(4, 40, 2), "new, gone:", "4 10: 4=40 2, 3=30 2, 2=20 3, 1=10 3,"),
    // 5 is left for the others: of 10, 7 and 4 the first that fits is 4
    (Call::Put(5, 50, 5), "new, gone: 1=10 3, 2=20 3,", "3 9: 5=50 5, 4=40 2, 3=30 2,"),
    // 4 is left for the others: of 7, 5 and 0 the first that fits is 0
    (Call::Put(4, 41, 6), "was 4=40 2, gone: 3=30 2, 5=50 5,", "1 6: 4=41 6,"),
    (Call::Put(6, 60, 10), "new, gone: 4=41 6,", "1 10: 6=60 10,"),
    (Call::Put(7, 70, 0), "new, gone:", "2 10: 7=70 0, 6=60 10,"),
    (Call::Put(8, 80, 11), "TooHeavy: 8=80", "2 10: 7=70 0, 6=60 10,"),
    (Call::Put(6, 61, 11), "TooHeavy: 6=61", "2 10: 7=70 0, 6=60 10,"),
    (Call::Put(9, 90, 1), "new, gone: 6=60 10,", "2 1: 9=90 1, 7=70 0,"),
];

// What goes where there may be two entries.
#[rattlefmt::skip]
static BY_NUMBER: [Step<u64, u64>; 6] = [
    (Call::Put(1, 10, 1), "new, gone:", "1 1: 1=10 1,"),
    (Call::Put(2, 20, 1), "new, gone:", "2 2: 2=20 1, 1=10 1,"),
    (Call::Put(3, 30, 1), "new, gone: 1=10 1,", "2 2: 3=30 1, 2=20 1,"),
    (Call::Promote(2), "true", "2 2: 2=20 1, 3=30 1,"),
    (Call::Put(4, 40, 0), "new, gone: 3=30 1,", "2 1: 4=40 0, 2=20 1,"),
    (Call::Put(2, 21, 5), "was 2=20 1, gone:", "2 5: 2=21 5, 4=40 0,"),
];

// A value that is changed, and limits that are set: what goes, and what is let in from then on.
#[rattlefmt::skip]
static CHANGES: [Step<u64, u64>; 11] = [
    (Call::Put(1, 10, 2), "new, gone:", "1 2: 1=10 2,"),
    (Call::Put(2, 20, 3), "new, gone:", "2 5: 2=20 3, 1=10 2,"),
    (Call::Put(3, 30, 4), "new, gone:", "3 9: 3=30 4, 2=20 3, 1=10 2,"),
    (Call::Update(1, 11), "Some((10, 2))", "3 9: 1=11 2, 3=30 4, 2=20 3,"),
    (Call::Update(9, 90), "None", "3 9: 1=11 2, 3=30 4, 2=20 3,"),
    (Call::SetLimits(9, 3), "gone:", "3 9: 1=11 2, 3=30 4, 2=20 3,"),
    (Call::SetLimits(8, 3), "gone: 2=20 3,", "2 6: 1=11 2, 3=30 4,"),
    (Call::SetLimits(100, 1), "gone: 3=30 4,", "1 2: 1=11 2,"),
    (Call::Put(4, 40, 100), "new, gone: 1=11 2,", "1 100: 4=40 100,"),
    (Call::SetLimits(0, 0), "gone: 4=40 100,", "0 0:"),
    (Call::Put(5, 50, 0), "TooHeavy: 5=50", "0 0:"),
];

#[test]
fn values_and_limits_change(rt: HostRuntime) -> Result<(), Fail> {
    let mut cache = Cache::new(rt.alloc(), 10, 5)?;
    let fault = fault(rt.alloc(), &mut cache, &CHANGES)?;
    assert_eq!(rt;
        (fault, cache.most_weight(), cache.most_entries()),
        (None, 0, 0)
    );
    Ok(())
}

// What is shown of the last entry, room that is made, and entries that all go.
#[rattlefmt::skip]
static FROM_THE_LAST: [Step<u64, u64>; 12] = [
    (Call::PeekLast, "None", "0 0:"),
    (Call::Reserve(3), "true", "0 0:"),
    (Call::Put(1, 10, 2), "new, gone:", "1 2: 1=10 2,"),
    (Call::PeekLast, "Some((1, 10, 2))", "1 2: 1=10 2,"),
    (Call::Put(2, 20, 3), "new, gone:", "2 5: 2=20 3, 1=10 2,"),
    (Call::Put(3, 30, 0), "new, gone:", "3 5: 3=30 0, 2=20 3, 1=10 2,"),
    (Call::Promote(1), "true", "3 5: 1=10 2, 3=30 0, 2=20 3,"),
    (Call::PeekLast, "Some((2, 20, 3))", "3 5: 1=10 2, 3=30 0, 2=20 3,"),
    (Call::Reserve(usize::MAX), "false", "3 5: 1=10 2, 3=30 0, 2=20 3,"),
    (Call::Clear, "gone: 2=20 3, 3=30 0, 1=10 2,", "0 0:"),
    (Call::Clear, "gone:", "0 0:"),
    (Call::Put(2, 21, 10), "new, gone:", "1 10: 2=21 10,"),
];

#[test]
fn the_last_entry_is_shown(rt: HostRuntime) -> Result<(), Fail> {
    let mut cache = Cache::new(rt.alloc(), 10, 5)?;
    let fault = fault(rt.alloc(), &mut cache, &FROM_THE_LAST)?;
    assert_eq!(rt;
        (fault, cache.most_weight(), cache.most_entries()),
        (None, 10, 5)
    );
    Ok(())
}

// What stays by what a test answers.
#[rattlefmt::skip]
static RETAINED: [Step<u64, u64>; 10] = [
    (Call::Retain(9), "asked:", "0 0:"),
    (Call::Put(1, 10, 2), "new, gone:", "1 2: 1=10 2,"),
    (Call::Put(2, 20, 3), "new, gone:", "2 5: 2=20 3, 1=10 2,"),
    (Call::Put(3, 30, 1), "new, gone:", "3 6: 3=30 1, 2=20 3, 1=10 2,"),
    (Call::Put(4, 40, 4), "new, gone:", "4 10: 4=40 4, 3=30 1, 2=20 3, 1=10 2,"),
    (Call::Retain(4), "asked: 1=10 2, 2=20 3, 3=30 1, 4=40 4,", "4 10: 4=40 4, 3=30 1, 2=20 3, 1=10 2,"),
    (Call::Retain(2), "asked: 1=10 2, 2=20 3, 3=30 1, 4=40 4,", "2 3: 3=30 1, 1=10 2,"),
    (Call::Put(2, 21, 7), "new, gone:", "3 10: 2=21 7, 3=30 1, 1=10 2,"),
    (Call::Retain(0), "asked: 1=10 2, 3=30 1, 2=21 7,", "0 0:"),
    (Call::Put(5, 50, 10), "new, gone:", "1 10: 5=50 10,"),
];

#[test]
fn entries_are_retained(rt: HostRuntime) -> Result<(), Fail> {
    let mut cache = Cache::new(rt.alloc(), 10, 5)?;
    assert_eq!(rt; fault(rt.alloc(), &mut cache, &RETAINED)?, None);
    Ok(())
}

// What stays of the entries that were used longest ago.
#[rattlefmt::skip]
static RETAINED_LAST: [Step<u64, u64>; 10] = [
    (Call::RetainLast(9, 9), "asked: gone:", "0 0:"),
    (Call::Put(1, 10, 2), "new, gone:", "1 2: 1=10 2,"),
    (Call::Put(2, 20, 3), "new, gone:", "2 5: 2=20 3, 1=10 2,"),
    (Call::Put(3, 30, 1), "new, gone:", "3 6: 3=30 1, 2=20 3, 1=10 2,"),
    (Call::Put(4, 40, 4), "new, gone:", "4 10: 4=40 4, 3=30 1, 2=20 3, 1=10 2,"),
    (Call::RetainLast(0, 0), "asked: gone:", "4 10: 4=40 4, 3=30 1, 2=20 3, 1=10 2,"),
    (Call::RetainLast(3, 2), "asked: 1, 2, 3, gone: 2=20 3,", "3 7: 4=40 4, 3=30 1, 1=10 2,"),
    (Call::RetainLast(1, 1), "asked: 1, gone: 1=10 2,", "2 5: 4=40 4, 3=30 1,"),
    (Call::RetainLast(2, 4), "asked: 3, 4, gone:", "2 5: 4=40 4, 3=30 1,"),
    (Call::RetainLast(18446744073709551615, 0), "asked: 3, 4, gone: 3=30 1, 4=40 4,", "0 0:"),
];

#[test]
fn the_last_entries_are_retained(rt: HostRuntime) -> Result<(), Fail> {
    let mut cache = Cache::new(rt.alloc(), 10, 5)?;
    assert_eq!(rt; fault(rt.alloc(), &mut cache, &RETAINED_LAST)?, None);
    Ok(())
}

// Entries that go last, and from the first on.
#[rattlefmt::skip]
static FROM_THE_FIRST: [Step<u64, u64>; 13] = [
    (Call::PopFirst, "none", "0 0:"),
    (Call::Drain, "gone:", "0 0:"),
    (Call::PutWeighed(1, 10, 2), "new, gone:", "1 2: 1=10 2,"),
    (Call::Demote(1), "true", "1 2: 1=10 2,"),
    (Call::Put(2, 20, 3), "new, gone:", "2 5: 2=20 3, 1=10 2,"),
    (Call::Put(3, 30, 1), "new, gone:", "3 6: 3=30 1, 2=20 3, 1=10 2,"),
    (Call::Demote(3), "true", "3 6: 2=20 3, 1=10 2, 3=30 1,"),
    (Call::Demote(1), "true", "3 6: 2=20 3, 3=30 1, 1=10 2,"),
    (Call::Demote(9), "false", "3 6: 2=20 3, 3=30 1, 1=10 2,"),
    // 1 went last, and so goes first
    (Call::PutWeighed(4, 40, 5), "new, gone: 1=10 2,", "3 9: 4=40 5, 2=20 3, 3=30 1,"),
    (Call::PopFirst, "took 4=40 5,", "2 4: 2=20 3, 3=30 1,"),
    (Call::PutWeighed(2, 21, 11), "TooHeavy: 2=21", "2 4: 2=20 3, 3=30 1,"),
    (Call::Drain, "gone: 2=20 3, 3=30 1,", "0 0:"),
];

#[test]
fn entries_go_from_the_first_on(rt: HostRuntime) -> Result<(), Fail> {
    let mut cache = Cache::new(rt.alloc(), 10, 5)?;
    let fault = fault(rt.alloc(), &mut cache, &FROM_THE_FIRST)?;
    assert_eq!(rt;
        (fault, cache.most_weight(), cache.most_entries()),
        (None, 10, 5)
    );
    Ok(())
}

// Entries that are reweighed, where 10 is the most.
#[rattlefmt::skip]
static REWEIGHED: [Step<u64, u64>; 12] = [
    (Call::Reweigh(1, 10, 1), "none", "0 0:"),
    (Call::Put(1, 10, 2), "new, gone:", "1 2: 1=10 2,"),
    (Call::Put(2, 20, 3), "new, gone:", "2 5: 2=20 3, 1=10 2,"),
    (Call::Put(3, 30, 4), "new, gone:", "3 9: 3=30 4, 2=20 3, 1=10 2,"),
    // 3, 4 and 3 are 10
    (Call::Reweigh(1, 11, 3), "gone:", "3 10: 1=11 3, 3=30 4, 2=20 3,"),
    // 5 is left for the others: of 7 and 3 the first that fits is 3
    (Call::Reweigh(2, 21, 5), "gone: 3=30 4,", "2 8: 2=21 5, 1=11 3,"),
    (Call::Reweigh(1, 12, 11), "too heavy: 1=12 11,", "1 5: 2=21 5,"),
    (Call::Reweigh(2, 22, 10), "gone:", "1 10: 2=22 10,"),
    (Call::Reweigh(2, 23, 0), "gone:", "1 0: 2=23 0,"),
    (Call::Put(4, 40, 10), "new, gone:", "2 10: 4=40 10, 2=23 0,"),
    (Call::Reweigh(2, 24, 1), "gone: 4=40 10,", "1 1: 2=24 1,"),
    (Call::Reweigh(2, 25, usize::MAX), "too heavy: 2=25 18446744073709551615,", "0 0:"),
];

#[test]
fn entries_are_reweighed(rt: HostRuntime) -> Result<(), Fail> {
    let mut cache = Cache::new(rt.alloc(), 10, 5)?;
    assert_eq!(rt; fault(rt.alloc(), &mut cache, &REWEIGHED)?, None);
    Ok(())
}

// A key, its value and its weight.
type Parts = Option<(u64, u64, usize)>;

fn parts(shown: Option<(&u64, &u64, usize)>) -> Parts {
    let (key, value, weight) = shown?;
    Some((*key, *value, weight))
}

// The first, the last, the last of the others and none; and how many are left after the first two.
fn both_ends(cache: &Cache<u64, u64>) -> ([Parts; 4], usize) {
    let mut entries = cache.iter();
    let first = parts(entries.next());
    let last = parts(entries.next_back());
    let left = entries.len();
    let middle = parts(entries.next_back());
    let none = parts(entries.next());
    ([first, last, middle, none], left)
}

#[test]
fn entries_are_shown_from_both_ends(rt: HostRuntime) -> Result<(), Fail> {
    let mut cache = Cache::new(rt.alloc(), 10, 5)?;
    for (key, value, weight) in [(1u64, 10u64, 2usize), (2, 20, 3), (3, 30, 1)] {
        let _put = cache.put(key, value, weight, |_gone| {});
    }
    let shown = [Some((3, 30, 1)), Some((1, 10, 2)), Some((2, 20, 3)), None];
    assert_eq!(rt; both_ends(&cache), (shown, 1));
    Ok(())
}

// Writes to the value of a key that is lent; whether one was.
fn is_written(lent: Option<&mut u64>, value: u64) -> bool {
    match lent {
        Some(place) => {
            *place = value;
            true
        }
        None => false,
    }
}

// By a key, by what stands for one, and by its hash: who has an entry, and who has none.
fn written(cache: &mut Cache<u64, u64>) -> [bool; 4] {
    let first = is_written(cache.get_mut(&1), 11);
    let absent = is_written(cache.get_mut(&9), 91);
    let by = is_written(cache.get_mut_by(&2), 21);
    let hash = cache.hash_of(&3u64);
    [
        first,
        absent,
        by,
        is_written(cache.get_mut_hashed(&3, hash), 31),
    ]
}

// What is written to stands first with its weight, and nothing else has changed.
#[test]
fn a_lent_value_is_written_to(rt: HostRuntime) -> Result<(), Fail> {
    let mut cache = Cache::new(rt.alloc(), 10, 5)?;
    for (key, value, weight) in [(3u64, 30u64, 1usize), (2, 20, 3), (1, 10, 2)] {
        let _put = cache.put(key, value, weight, |_gone| {});
    }
    let lent = written(&mut cache);
    let shown = [Some((3, 31, 1)), Some((1, 11, 2)), Some((2, 21, 3)), None];
    assert_eq!(rt;
        (lent, both_ends(&cache)),
        ([true, false, true, true], (shown, 1))
    );
    Ok(())
}

// Where there may be no entry.
#[rattlefmt::skip]
static NO_ENTRIES: [Step<u64, u64>; 2] = [
    (Call::Put(1, 10, 1), "TooHeavy: 1=10", "0 0:"),
    (Call::Put(1, 10, 0), "TooHeavy: 1=10", "0 0:"),
];

// Where entries may weigh nothing.
#[rattlefmt::skip]
static NO_WEIGHT: [Step<u64, u64>; 3] = [
    (Call::Put(1, 10, 1), "TooHeavy: 1=10", "0 0:"),
    (Call::Put(1, 10, 0), "new, gone:", "1 0: 1=10 0,"),
    (Call::Put(2, 20, 0), "new, gone:", "2 0: 2=20 0, 1=10 0,"),
];

#[test]
fn each_call_answers(rt: HostRuntime) -> Result<(), Fail> {
    let mut cache = Cache::new(rt.alloc(), 10, 4)?;
    assert_eq!(rt; fault(rt.alloc(), &mut cache, &EACH_CALL)?, None);
    Ok(())
}

#[test]
fn the_shortest_end_goes(rt: HostRuntime) -> Result<(), Fail> {
    let mut cache = Cache::new(rt.alloc(), 10, 100)?;
    assert_eq!(rt; fault(rt.alloc(), &mut cache, &BY_WEIGHT)?, None);
    Ok(())
}

#[test]
fn the_last_goes_where_there_are_too_many(rt: HostRuntime) -> Result<(), Fail> {
    let mut cache = Cache::with_seed(rt.alloc(), 100, 2, 7)?;
    assert_eq!(rt; fault(rt.alloc(), &mut cache, &BY_NUMBER)?, None);
    Ok(())
}

#[test]
fn a_limit_of_no_entries(rt: HostRuntime) -> Result<(), Fail> {
    let mut cache = Cache::new(rt.alloc(), 100, 0)?;
    assert_eq!(rt; fault(rt.alloc(), &mut cache, &NO_ENTRIES)?, None);
    Ok(())
}

#[test]
fn a_limit_of_no_weight(rt: HostRuntime) -> Result<(), Fail> {
    let mut cache = Cache::new(rt.alloc(), 0, 5)?;
    assert_eq!(rt; fault(rt.alloc(), &mut cache, &NO_WEIGHT)?, None);
    Ok(())
}

#[rattlefmt::skip]
static ALIKE: [Step<Alike, u64>; 15] = [
    (Call::Put(Alike(1), 10, 1), "new, gone:", "1 1: Alike(1)=10 1,"),
    (Call::Put(Alike(2), 20, 1), "new, gone:", "2 2: Alike(2)=20 1, Alike(1)=10 1,"),
    (Call::Look(Alike(1)), "true Some(10) Some(1)", "2 2: Alike(2)=20 1, Alike(1)=10 1,"),
    (Call::Look(Alike(3)), "false None None", "2 2: Alike(2)=20 1, Alike(1)=10 1,"),
    (Call::Put(Alike(1), 11, 1), "was Alike(1)=10 1, gone:", "2 2: Alike(1)=11 1, Alike(2)=20 1,"),
    (Call::Put(Alike(3), 30, 1), "new, gone: Alike(2)=20 1,", "2 2: Alike(3)=30 1, Alike(1)=11 1,"),
    (Call::Remove(Alike(1)), "took Alike(1)=11 1,", "1 1: Alike(3)=30 1,"),
    (Call::Look(Alike(1)), "false None None", "1 1: Alike(3)=30 1,"),
    (Call::PutWeighed(Alike(4), 40, 2), "new, gone:", "2 3: Alike(4)=40 2, Alike(3)=30 1,"),
    (Call::Demote(Alike(4)), "true", "2 3: Alike(3)=30 1, Alike(4)=40 2,"),
    (Call::Demote(Alike(1)), "false", "2 3: Alike(3)=30 1, Alike(4)=40 2,"),
    (Call::Reweigh(Alike(4), 41, 3), "gone:", "2 4: Alike(4)=41 3, Alike(3)=30 1,"),
    (Call::Reweigh(Alike(1), 10, 3), "none", "2 4: Alike(4)=41 3, Alike(3)=30 1,"),
    (Call::PopFirst, "took Alike(4)=41 3,", "1 1: Alike(3)=30 1,"),
    (Call::Drain, "gone: Alike(3)=30 1,", "0 0:"),
];

#[test]
fn keys_of_one_hash_are_kept_apart(rt: HostRuntime) -> Result<(), Fail> {
    let mut cache = Cache::new(rt.alloc(), 10, 2)?;
    assert_eq!(rt; fault(rt.alloc(), &mut cache, &ALIKE)?, None);
    Ok(())
}

// Which of the calls by a key answers as it is to, one after the other, where 1 and 2 are put.
fn calls_by_alike(cache: &mut Cache<Alike, u64>) -> [bool; 8] {
    let is_put = cache.put(Alike(1), 10, 1, |_gone| {}).is_ok()
        & cache.put(Alike(2), 20, 2, |_gone| {}).is_ok();
    let value = cache.peek_by(&Alike(1)).copied();
    let weights = (cache.weight_by(&Alike(2)), cache.weight_by(&Alike(3)));
    let updated = cache.update_by(&Alike(2), |value: &mut u64, _weight| *value);
    let none = cache.remove_by(&Alike(3)).is_none();
    let removed = cache.remove_by(&Alike(2)).is_some();
    [
        is_put,
        value == Some(10),
        weights == (Some(2), None),
        updated == Some(20),
        none,
        removed,
        !cache.contains_by(&Alike(2)),
        cache.promote_by(&Alike(1)),
    ]
}

#[test]
fn keys_of_one_hash_are_asked_for(rt: HostRuntime) -> Result<(), Fail> {
    let mut cache = Cache::<Alike, u64>::new(rt.alloc(), 10, 3)?;
    let found = calls_by_alike(&mut cache);
    assert_eq!(rt; (found, cache.len(), cache.weight()), ([true; 8], 1, 1));
    Ok(())
}

#[rattlefmt::skip]
static WITHOUT_SIZE: [Step<u64, ()>; 5] = [
    (Call::Put(1, (), 1), "new, gone:", "1 1: 1=() 1,"),
    (Call::Put(2, (), 1), "new, gone:", "2 2: 2=() 1, 1=() 1,"),
    (Call::Put(1, (), 2), "was 1=() 1, gone:", "2 3: 1=() 2, 2=() 1,"),
    (Call::Put(3, (), 1), "new, gone: 2=() 1,", "2 3: 3=() 1, 1=() 2,"),
    (Call::Look(1), "true Some(()) Some(2)", "2 3: 3=() 1, 1=() 2,"),
];

#[test]
fn values_without_a_size(rt: HostRuntime) -> Result<(), Fail> {
    let mut cache = Cache::new(rt.alloc(), 3, 5)?;
    assert_eq!(rt; fault(rt.alloc(), &mut cache, &WITHOUT_SIZE)?, None);
    Ok(())
}
