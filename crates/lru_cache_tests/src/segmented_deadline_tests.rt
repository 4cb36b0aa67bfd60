//! A cache in two segments whose entries have deadlines, small enough to be told by hand.
use lru_deadlines::deadlines::Until;
use lru_segmented::segmented_deadlines::SegmentedDeadlineCache;
use std::alloc::{AllocError, Global};
use std::test::Fail;

type Numbers = SegmentedDeadlineCache<u64, u64>;

// Puts a key whose value is ten times itself, at weight 1. Whether it is new.
fn is_new(cache: &mut Numbers, key: u64, deadline: u64) -> bool {
    let value = key.wrapping_mul(10);
    matches!(
        cache.put_until(key, value, 1, deadline, |_gone| {}),
        Ok(None)
    )
}

// The keys of the upper segment, each a digit, and those of the lower one.
fn keys(cache: &Numbers) -> (u64, u64) {
    let (mut upper, mut lower) = (0u64, 0u64);
    let mut left = cache.protected_len();
    for (key, _, _) in cache.iter() {
        if left > 0 {
            left -= 1;
            upper = upper.wrapping_mul(10).wrapping_add(*key);
        } else {
            lower = lower.wrapping_mul(10).wrapping_add(*key);
        }
    }
    (upper, lower)
}

// Three entries, of which 2 ends first, in a cache whose upper segment has room for two.
fn three(alloc: Global) -> Result<Numbers, AllocError> {
    let mut cache = SegmentedDeadlineCache::with_protected(alloc, 10, 3, 2)?;
    let are_new = is_new(&mut cache, 1, 50)
        && is_new(&mut cache, 2, 20)
        && is_new(&mut cache, 3, 40);
    if !are_new {
        return Err(AllocError);
    }
    Ok(cache)
}

// Uses the first three keys in turn: the last of the upper segment goes down.
fn is_used(cache: &mut Numbers) -> bool {
    let one = matches!(cache.promote(20, &1), Ok(true)) && keys(cache) == (1, 32);
    let two = matches!(cache.promote(20, &2), Ok(true)) && keys(cache) == (21, 3);
    let three = matches!(cache.promote(20, &3), Ok(true)) && keys(cache) == (32, 1);
    one && two && three && matches!(cache.promote(20, &9), Ok(false))
}

// Where there is no room, what is past of the last goes first, also from the upper segment; else the last.
fn past_goes_first(alloc: Global) -> Result<bool, AllocError> {
    let mut cache = three(alloc)?;
    let used = is_used(&mut cache);
    let mut gone = 0u64;
    let until = Until {
        value: 40,
        deadline: 90,
    };
    let put = cache.put_at(30, 4, until, 1, |entry| gone = entry.key);
    let past = matches!(put, Ok(None)) && gone == 2 && keys(&cache) == (3, 41);
    let until = Until {
        value: 50,
        deadline: 90,
    };
    let put = cache.put_at(30, 5, until, 1, |entry| gone = entry.key);
    let last = matches!(put, Ok(None)) && gone == 1 && keys(&cache) == (3, 54);
    let over = match cache.promote(41, &3) {
        Ok(_) => false,
        Err(entry) => entry.value.value == 30,
    };
    Ok(used && past && last && over && keys(&cache) == (0, 54))
}

#[test]
fn put_at_lets_past_go_first(rt: HostRuntime) -> Result<(), Fail> {
    assert!(rt; past_goes_first(rt.alloc())?);
    Ok(())
}

// A key in its time is used; one past its deadline is handed over, and made anew in the lower segment.
fn uses_or_puts(alloc: Global) -> Result<bool, AllocError> {
    let mut cache = three(alloc)?;
    let used = cache.use_or_put(
        20,
        2,
        || -> Result<(Until<u64>, usize), u8> { Err(1) },
        |_gone| {},
    );
    let is_used = matches!(used, Ok(true)) && keys(&cache) == (2, 31);
    let mut gone = 0u64;
    let put = cache.use_or_put(
        21,
        2,
        || -> Result<(Until<u64>, usize), u8> {
            let until = Until {
                value: 7,
                deadline: 60,
            };
            Ok((until, 1))
        },
        |entry| gone = entry.value.value,
    );
    let is_put = matches!(put, Ok(false)) && gone == 20 && keys(&cache) == (0, 231);
    Ok(is_used && is_put && cache.peek(60, &2) == Some(&7) && cache.peek(61, &2).is_none())
}

#[test]
fn a_key_is_used_or_put(rt: HostRuntime) -> Result<(), Fail> {
    assert!(rt; uses_or_puts(rt.alloc())?);
    Ok(())
}

// An update moves the deadline, and a sweep takes what is past from the end.
fn sweeps(alloc: Global) -> Result<bool, AllocError> {
    let mut cache = three(alloc)?;
    let updated = cache.update(20, &1, |until: &mut Until<u64>, weight: usize| {
        until.deadline = 70;
        until.value.wrapping_add(weight as u64)
    });
    let is_updated = matches!(updated, Ok(Some(11))) && keys(&cache) == (1, 32);
    let told = cache.deadline_of(70, &1) == Some(70) && cache.deadline_of(71, &1).is_none();
    let mut gone = 0u64;
    cache.sweep(45, 1, |entry| gone = entry.key);
    let one = gone == 2 && keys(&cache) == (1, 3);
    cache.sweep(45, 2, |entry| gone = entry.key);
    let two = gone == 3 && keys(&cache) == (1, 0) && cache.contains(45, &1);
    let removed = match cache.remove(&1) {
        Some(entry) => entry.value.deadline == 70,
        None => false,
    };
    Ok(is_updated && told && one && two && removed && cache.is_empty())
}

#[test]
fn a_sweep_takes_what_is_past(rt: HostRuntime) -> Result<(), Fail> {
    assert!(rt; sweeps(rt.alloc())?);
    Ok(())
}

// The calls by a hash that is known.
fn by_a_hash(alloc: Global) -> Result<bool, AllocError> {
    let mut cache = SegmentedDeadlineCache::<u64, u64>::with_protected_and_seed(alloc, 3, 3, 3, 7)?;
    let hash = cache.hash_of(&5u64);
    let until = Until {
        value: 50,
        deadline: 10,
    };
    let put = cache.put_hashed(5, until, 2, hash, |_gone| {});
    let found = cache.contains_hashed(10, &5, hash) && cache.peek_hashed(10, &5, hash) == Some(&50);
    let updated = cache.update_hashed(10, &5, hash, |until: &mut Until<u64>, _| until.deadline);
    let is_raised = updated == Some(10) && cache.protected_weight() == 2;
    let past = cache.update_hashed(11, &5, hash, |until: &mut Until<u64>, _| until.deadline);
    let stays = past.is_none() && cache.weight() == 2;
    let mut gone = 0u64;
    cache.make_room(11, 1, |entry| gone = entry.key);
    let has_room = gone == 0;
    cache.make_room(11, 2, |entry| gone = entry.key);
    let again = cache.hash_of(&5u64);
    let none = cache.remove_hashed(&5, again).is_none();
    Ok(matches!(put, Ok(None)) && found && is_raised && stays && has_room && gone == 5 && none)
}

#[test]
fn a_hash_serves_several_calls(rt: HostRuntime) -> Result<(), Fail> {
    assert!(rt; by_a_hash(rt.alloc())?);
    Ok(())
}

// The calls that ask for no time.
fn others_answer(alloc: Global) -> Result<bool, AllocError> {
    let mut cache = three(alloc)?;
    cache.reserve(4)?;
    let last = match cache.pop_last() {
        Some(entry) => entry.key == 1,
        None => false,
    };
    let used = cache.promote_by(20, &2).is_ok() && cache.promote_by(20, &3).is_ok();
    let mut gone = 0u64;
    cache.set_limits(2, 2, 1, |entry| gone = entry.key);
    let is_shared = gone == 0 && keys(&cache) == (3, 2);
    cache.set_limits(9, 1, 1, |entry| gone = entry.key);
    let limits = (
        cache.most_weight(),
        cache.most_entries(),
        cache.most_protected(),
    );
    let is_limited = gone == 2 && limits == (9, 1, 1) && cache.len() == 1;
    cache.clear(|entry| gone = entry.value.deadline);
    Ok(last && used && is_shared && is_limited && gone == 40 && cache.is_empty())
}

#[test]
fn each_call_without_a_time(rt: HostRuntime) -> Result<(), Fail> {
    assert!(rt; others_answer(rt.alloc())?);
    Ok(())
}

// The calls that walk over all entries, or put one last.
fn walks(alloc: Global) -> Result<bool, AllocError> {
    let mut cache = three(alloc)?;
    let used = cache.promote(20, &1).is_ok() && cache.promote(20, &2).is_ok();
    let demoted = cache.demote(&2) && !cache.demote(&9) && keys(&cache) == (1, 32);
    cache.retain(|_key: &u64, until: &Until<u64>, _weight: usize| until.deadline != 40);
    let retained = keys(&cache) == (1, 2);
    let first = match cache.pop_first() {
        Some(entry) => entry.key == 1,
        None => false,
    };
    let mut gone = 0u64;
    cache.drain(|entry| gone = entry.value.value);
    Ok(used && demoted && retained && first && gone == 20 && cache.is_empty())
}

#[test]
fn each_walk_keeps_the_segments(rt: HostRuntime) -> Result<(), Fail> {
    assert!(rt; walks(rt.alloc())?);
    Ok(())
}
