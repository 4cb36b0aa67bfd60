//! When entries end, which go first, and what is counted.
use lru_shared_cache::counts::Left;
use lru_shared_deadlines::sharded::ShardedDeadlineCache;
use lru_shared_deadlines::shared::{Ages, Gone, Limits, SharedDeadlineCache};
use std::alloc::{AllocError, Global};
use std::sync::Wait;
use std::test::Fail;

const FOREVER: u64 = u64::MAX;

type Owned = ShardedDeadlineCache<u64, u64, 1>;

type Shared = SharedDeadlineCache<u64, u64, 2>;

// Entries that are answered for 60 after they are put, and for 10 after they are used.
const BOTH: Ages = Ages { live: 60, idle: 10 };

// Entries that are answered for 60 after they are put, however they are used.
const LIVE: Ages = Ages {
    live: 60,
    idle: FOREVER,
};

const FEW: Limits = Limits {
    weight: 100,
    entries: 3,
};

// Puts a key whose value is ten times itself, and answers which keys go for it, each a digit.
fn gone_for(cache: &mut Owned, time: u64, key: u64, weight: usize) -> u64 {
    let mut gone = 0u64;
    let put = cache.put(
        time,
        key,
        key.wrapping_mul(10),
        weight,
        |entry: Gone<u64, u64>| { gone = gone.wrapping_mul(10).wrapping_add(entry.key) },
    );
    if put.is_err() {
        return u64::MAX;
    }
    gone
}

// An entry is answered at its deadline and not after it; a use moves its deadline, but not past its end.
fn ends_as_told(alloc: Global) -> Result<bool, AllocError> {
    let mut cache = Owned::new(alloc, FEW, BOTH)?;
    let put = gone_for(&mut cache, 5, 1, 2) == 0;
    let mut is_right = put && cache.contains(15, &1) && !cache.contains(16, &1);
    // used at 15, 25, .. it is answered until 65, and no longer
    for tens in 1..=6u64 {
        is_right &= cache.get(tens.wrapping_mul(10).wrapping_add(5), &1)? == Some(10);
    }
    let is_over = cache.get(66, &1)?.is_none()
        && cache.peek_with(66, &1, |value: &u64| *value).is_none();
    let lent = cache.get_with(66, &1, |value: &mut u64, _weight: usize| *value);
    // what is past is there until it is swept
    let is_there = cache.shard_len(0) == 1 && cache.shard_weight(0) == 2;
    let mut swept = 0;
    cache.sweep(66, 4, |entry: Gone<u64, u64>| swept = entry.value.deadline);
    let stats = cache.stats();
    let is_counted = (stats.hits, stats.misses, stats.puts) == (6, 2, 1)
        && stats.past
            == Left {
                entries: 1,
                weight: 2,
            };
    Ok(is_right && is_over && lent.is_none() && is_there && swept == 65 && is_counted)
}

#[test]
fn an_entry_ends_as_told(rt: HostRuntime) -> Result<(), Fail> {
    assert!(rt; ends_as_told(rt.alloc())?);
    Ok(())
}

// What is past goes before what lives, also where it was used last.
fn past_goes_first(alloc: Global) -> Result<bool, AllocError> {
    let mut cache = Owned::new(alloc, FEW, LIVE)?;
    let none = gone_for(&mut cache, 0, 1, 1) == 0
        && gone_for(&mut cache, 40, 2, 1) == 0
        && gone_for(&mut cache, 50, 3, 1) == 0
        && cache.get(60, &1)? == Some(10);
    // 1 was used last, and is past; 2 was used longest ago
    let past = gone_for(&mut cache, 61, 4, 1) == 1;
    let living = gone_for(&mut cache, 62, 5, 1) == 2;
    // 3 and 4 are past by then, and 5 is not yet
    let both = gone_for(&mut cache, 122, 6, 1) == 34;
    let stats = cache.stats();
    let is_counted = stats.past
        == Left {
            entries: 3,
            weight: 3,
        }
        && stats.for_room
            == Left {
                entries: 1,
                weight: 1,
            };
    Ok(none && past && living && both && is_counted)
}

#[test]
fn what_is_past_goes_before_what_lives(rt: HostRuntime) -> Result<(), Fail> {
    assert!(rt; past_goes_first(rt.alloc())?);
    Ok(())
}

// Whether a value was put, in place of this one, of a shared cache.
fn is_put(rt: &impl Wait, cache: &Shared, time: u64, key: u64, was: Option<u64>) -> bool {
    match cache.put(rt, time, key, key.wrapping_add(time), 3, |_gone| {}) {
        Ok(Some(entry)) => Some(entry.value.value.value) == was,
        Ok(None) => was.is_none(),
        Err(_) => false,
    }
}

// Each call of a shared cache at its time; two calls of `sweep` sweep both shards.
fn calls_answer(rt: &impl Wait, alloc: Global) -> Result<bool, AllocError> {
    let cache = Shared::with_seed(alloc, Limits::of_weight(1000), LIVE, 7)?;
    let mut is_right = true;
    for key in 0..20 {
        is_right &= is_put(rt, &cache, 0, key, None);
    }
    is_right &= is_put(rt, &cache, 30, 5, Some(5)) && cache.get(rt, 60, &7)? == Some(7);
    is_right &= cache.contains(rt, 60, &8) && !cache.contains(rt, 61, &8);
    is_right &= cache.get(rt, 61, &7)?.is_none() && cache.get(rt, 61, &5)? == Some(35);
    is_right &= cache.peek_with(rt, 90, &5, |value: &u64| *value) == Some(35);
    is_right &= match cache.remove(rt, &9) {
        Some(entry) => entry.value.is_past(61) && entry.weight == 3,
        None => false,
    };
    is_right &= (cache.len(rt), cache.weight(rt)) == (19, 57);
    let mut swept = 0u32;
    for _ in 0..cache.shards() {
        cache.sweep(rt, 61, usize::MAX, |_past| swept = swept.wrapping_add(1));
    }
    is_right &= swept == 18 && cache.len(rt) == 1;
    for shard in 0..2 {
        cache.clear_shard(rt, shard, |_gone| {});
    }
    let stats = cache.stats(rt);
    is_right &= (stats.hits, stats.misses, stats.puts, stats.refusals) == (2, 1, 21, 0);
    is_right &= stats.replaced
        == Left {
            entries: 1,
            weight: 3,
        }
        && stats.removed
            == Left {
                entries: 1,
                weight: 3,
            }
        && stats.past
            == Left {
                entries: 18,
                weight: 54,
            }
        && stats.cleared
            == Left {
                entries: 1,
                weight: 3,
            };
    Ok(is_right && cache.len(rt) == 0)
}

#[test]
fn each_call_of_a_shared_cache(rt: HostRuntime) -> Result<(), Fail> {
    assert!(rt; calls_answer(&rt, rt.alloc())?);
    Ok(())
}

// Texts are asked for by texts; an entry that is too heavy for its shard is handed back, and counted.
fn texts_are_found(rt: &impl Wait, alloc: Global) -> Result<bool, AllocError> {
    let cache: SharedDeadlineCache<String, u64, 2> = SharedDeadlineCache::new(
        alloc,
        Limits::of_weight(20),
        LIVE,
    )?;
    let put = cache.put(rt, 0, format!(in alloc; "one")?, 1, 5, |_gone| {});
    let refused = match cache.put(rt, 0, format!(in alloc; "two")?, 2, 11, |_gone| {}) {
        Ok(_) => false,
        Err(refused) => refused.value == 2,
    };
    let is_found = cache.get(rt, 60, "one")? == Some(1) && !cache.contains(rt, 60, "two");
    let stats = cache.stats(rt);
    Ok(put.is_ok() && refused && is_found && (stats.puts, stats.refusals) == (1, 1))
}

#[test]
fn texts_by_texts(rt: HostRuntime) -> Result<(), Fail> {
    assert!(rt; texts_are_found(&rt, rt.alloc())?);
    Ok(())
}
