//! What is done to a whole shard, and entries that are put back as they stood.
use lru_deadlines::deadlines::Until;
use lru_shared_deadlines::sharded::ShardedDeadlineCache;
use lru_shared_deadlines::shared::{Aged, Ages, Gone, Limits, SharedDeadlineCache};
use std::alloc::{AllocError, Global};
use std::sync::Wait;
use std::test::Fail;

type Owned = ShardedDeadlineCache<u64, u64, 1>;

type Shared = SharedDeadlineCache<u64, u64, 1>;

const AGES: Ages = Ages { live: 60, idle: 10 };

const FIVE: Limits = Limits {
    weight: 100,
    entries: 5,
};

const TWO: Limits = Limits {
    weight: 100,
    entries: 2,
};

// The keys 1 to 5, each of its own weight, as they stood when they were put at the time of the key.
fn filled(alloc: Global) -> Result<Owned, AllocError> {
    let mut cache = Owned::new(alloc, FIVE, AGES)?;
    for key in 1..=5u64 {
        if cache
            .put(
                key,
                key,
                key.wrapping_mul(10),
                key as usize,
                |_gone: Gone<u64, u64>| {},
            )
            .is_err()
        {
            return Err(AllocError);
        }
    }
    Ok(cache)
}

fn filled_shared<R: Wait>(rt: &R, alloc: Global) -> Result<Shared, AllocError> {
    let cache = Shared::new(alloc, FIVE, AGES)?;
    for key in 1..=5u64 {
        if cache
            .put(
                rt,
                key,
                key,
                key.wrapping_mul(10),
                key as usize,
                |_gone: Gone<u64, u64>| {},
            )
            .is_err()
        {
            return Err(AllocError);
        }
    }
    Ok(cache)
}

// The last goes first; a test lets the even ones go; a limit of two lets the last of the others go; and the rest, first first.
fn goes_as_told(alloc: Global) -> Result<bool, AllocError> {
    let mut cache = filled(alloc)?;
    let last = cache.pop_last_of(0).map_or(0, |gone| gone.key);
    cache.retain_shard(0, |key: &u64, until: &Until<Aged<u64>>, _weight: usize| {
        *key % 2 == 1 || until.deadline == 12
    });
    let (kept, weight) = (cache.shard_len(0), cache.shard_weight(0));
    let mut let_go = 0;
    cache.set_shard_limits(0, TWO, |gone: Gone<u64, u64>| let_go = gone.key);
    let mut drained = 0u64;
    cache.drain_shard(
        0,
        |gone: Gone<u64, u64>| drained = drained.wrapping_mul(10).wrapping_add(gone.key),
    );
    let left = cache.stats();
    let is_counted = left.removed.entries == 2
        && left.for_room.entries == 1
        && left.cleared.entries == 2;
    Ok(last == 1 && kept == 3 && weight == 10 && let_go == 2 && drained == 53 && is_counted)
}

fn goes_as_told_under_a_lock<R: Wait>(rt: &R, alloc: Global) -> Result<bool, AllocError> {
    let cache = filled_shared(rt, alloc)?;
    let last = cache.pop_last_of(rt, 0).map_or(0, |gone| gone.key);
    cache.retain_shard(
        rt,
        0,
        |key: &u64, until: &Until<Aged<u64>>, _weight: usize| {
            *key % 2 == 1 || until.deadline == 12
        },
    );
    let (kept, weight) = (cache.len(rt), cache.weight(rt));
    let mut let_go = 0;
    cache.set_shard_limits(rt, 0, TWO, |gone: Gone<u64, u64>| let_go = gone.key);
    let mut drained = 0u64;
    cache.drain_shard(
        rt,
        0,
        |gone: Gone<u64, u64>| drained = drained.wrapping_mul(10).wrapping_add(gone.key),
    );
    Ok(last == 1 && kept == 3 && weight == 10 && let_go == 2 && drained == 53)
}

// A value that is answered until the time 3, and with uses until 9.
fn as_it_stood() -> Until<Aged<u64>> {
    let value = Aged { value: 70, ends: 9 };
    Until { value, deadline: 3 }
}

// What is put back is answered as long as it would have been: a use moves its deadline, but not past its end.
fn comes_back(alloc: Global) -> Result<bool, AllocError> {
    let mut cache = Owned::new(alloc, FIVE, AGES)?;
    let is_put = matches!(
        cache.put_back(7, as_it_stood(), 2, |_gone: Gone<u64, u64>| {}),
        Ok(None)
    );
    let before = cache.contains(3, &7) && !cache.contains(4, &7);
    let used = cache.get(3, &7)? == Some(70);
    Ok(is_put && before && used && cache.contains(9, &7) && !cache.contains(10, &7))
}

fn comes_back_under_a_lock<R: Wait>(rt: &R, alloc: Global) -> Result<bool, AllocError> {
    let cache = Shared::new(alloc, FIVE, AGES)?;
    let is_put = matches!(
        cache.put_back(rt, 7, as_it_stood(), 2, |_gone: Gone<u64, u64>| {}),
        Ok(None)
    );
    let before = cache.contains(rt, 3, &7) && !cache.contains(rt, 4, &7);
    let shown = cache.lock_shard(rt, 0).cache().deadline_of(3, &7);
    let used = cache.get(rt, 3, &7)? == Some(70);
    Ok(is_put && before && shown == Some(3) && used && !cache.contains(rt, 10, &7))
}

#[test]
fn a_whole_shard_goes_as_told(rt: HostRuntime) -> Result<(), Fail> {
    assert!(rt; goes_as_told(rt.alloc())? & goes_as_told_under_a_lock(&rt, rt.alloc())?);
    Ok(())
}

#[test]
fn an_entry_is_put_back_as_it_stood(rt: HostRuntime) -> Result<(), Fail> {
    assert!(rt; comes_back(rt.alloc())? & comes_back_under_a_lock(&rt, rt.alloc())?);
    Ok(())
}
