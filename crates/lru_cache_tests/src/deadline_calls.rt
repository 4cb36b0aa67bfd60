//! The calls of a `DeadlineCache` that a `Cache` has too, each once, and `put_at`. What is expected is worked out by hand.
use lru_deadlines::deadlines::{DeadlineCache, Until};
use std::alloc::{AllocError, Global};
use std::test::Fail;

type Numbers = DeadlineCache<u64, u64>;

// Puts a key whose value is ten times itself, at weight 1. Whether it is new.
fn is_new(cache: &mut Numbers, key: u64, deadline: u64) -> bool {
    let value = key.wrapping_mul(10);
    matches!(
        cache.put_until(key, value, 1, deadline, |_gone| {}),
        Ok(None)
    )
}

// The keys, each a digit, most recent first.
fn keys(cache: &Numbers) -> u64 {
    let mut digits = 0u64;
    for key in cache.keys() {
        digits = digits.wrapping_mul(10).wrapping_add(*key);
    }
    digits
}

// Three entries, of which 2 ends first.
fn three(alloc: Global) -> Result<Numbers, AllocError> {
    let mut cache = Numbers::new(alloc, 10, 3)?;
    let are_new = is_new(&mut cache, 1, 50)
        && is_new(&mut cache, 2, 20)
        && is_new(&mut cache, 3, 40);
    if !are_new {
        return Err(AllocError);
    }
    Ok(cache)
}

// Where there is no room, what is past of the last goes first, wherever it stands there; else the last.
fn past_goes_first(alloc: Global) -> Result<bool, AllocError> {
    let mut cache = three(alloc)?;
    let mut gone = 0u64;
    let until = Until {
        value: 40,
        deadline: 90,
    };
    let put = cache.put_at(30, 4, until, 1, |entry| gone = entry.key);
    let past = matches!(put, Ok(None)) && gone == 2 && keys(&cache) == 431;
    let until = Until {
        value: 50,
        deadline: 90,
    };
    let put = cache.put_at(30, 5, until, 1, |entry| gone = entry.key);
    Ok(past && matches!(put, Ok(None)) && gone == 1 && keys(&cache) == 543)
}

#[test]
fn put_at_lets_past_go_first(rt: HostRuntime) -> Result<(), Fail> {
    assert!(rt; past_goes_first(rt.alloc())?);
    Ok(())
}

// A key in its time is used; one past its deadline is handed over, and made anew.
fn uses_or_puts(alloc: Global) -> Result<bool, AllocError> {
    let mut cache = three(alloc)?;
    let used = cache.use_or_put(
        20,
        2,
        || -> Result<(Until<u64>, usize), u8> { Err(1) },
        |_gone| {},
    );
    let mut gone = 0u64;
    let put = cache.use_or_put(
        21,
        2,
        || -> Result<(Until<u64>, usize), u8> {
            let until = Until {
                value: 7,
                deadline: 60,
            };
            Ok((until, 1))
        },
        |entry| gone = entry.value.value,
    );
    let is_put = matches!(used, Ok(true)) && matches!(put, Ok(false)) && gone == 20;
    Ok(is_put && cache.peek(60, &2) == Some(&7) && keys(&cache) == 231)
}

#[test]
fn a_key_is_used_or_put(rt: HostRuntime) -> Result<(), Fail> {
    assert!(rt; uses_or_puts(rt.alloc())?);
    Ok(())
}

// An entry is weighed again in its time, and handed over past it.
fn reweighs(alloc: Global) -> Result<bool, AllocError> {
    let mut cache = three(alloc)?;
    let heavier = cache.reweigh(
        20,
        &1,
        |until: &mut Until<u64>, weight: usize| {
            until.deadline = 70;
            weight.wrapping_add(8)
        },
        |_gone| {},
    );
    let is_heavier = matches!(heavier, Ok(true)) && cache.weight() == 10 && keys(&cache) == 13;
    let past = cache.reweigh(
        71,
        &1,
        |_until: &mut Until<u64>, weight: usize| weight,
        |_gone| {},
    );
    let is_past = match past {
        Ok(_) => false,
        Err(entry) => entry.weight == 9,
    };
    Ok(is_heavier && is_past && keys(&cache) == 3)
}

#[test]
fn an_entry_is_weighed_again(rt: HostRuntime) -> Result<(), Fail> {
    assert!(rt; reweighs(rt.alloc())?);
    Ok(())
}

// The calls that ask for no time.
fn others_answer(alloc: Global) -> Result<bool, AllocError> {
    let mut cache = three(alloc)?;
    let demoted = cache.demote(&3) && !cache.demote(&9) && keys(&cache) == 213;
    let first = match cache.pop_first() {
        Some(entry) => entry.key == 2,
        None => false,
    };
    cache.reserve(4)?;
    let again = is_new(&mut cache, 2, 20);
    cache.retain(|_key, until: &Until<u64>, _weight| until.deadline != 50);
    let is_retained = keys(&cache) == 23;
    let mut gone = 0u64;
    cache.set_limits(1, 1, |entry| gone = entry.key);
    let is_limited = gone == 3 && (cache.most_weight(), cache.most_entries()) == (1, 1);
    cache.drain(|entry| gone = entry.value.deadline);
    Ok(demoted && first && again && is_retained && is_limited && gone == 20 && cache.is_empty())
}

#[test]
fn each_call_without_a_time(rt: HostRuntime) -> Result<(), Fail> {
    assert!(rt; others_answer(rt.alloc())?);
    Ok(())
}
