//! The calls on all shards in turn, of one owner and behind locks: which entries are shown and which go, of shard 0 first.
use lru_owned_cache::cache::Entry;
use lru_shared_cache::sharded::ShardedCache;
use lru_shared_cache::shared::{Limits, SharedCache};
use std::alloc::{AllocError, Global};
use std::sync::Wait;
use std::test::Fail;

type Owned = ShardedCache<u64, u64, 3>;

type Locked = SharedCache<u64, u64, 3>;

// The keys in the order in which they are put, and the other way round; and those of them that are even.
static UP: [u64; 8] = [1, 2, 3, 4, 5, 6, 7, 8];

static DOWN: [u64; 8] = [8, 7, 6, 5, 4, 3, 2, 1];

static EVEN_UP: [u64; 4] = [2, 4, 6, 8];

static EVEN_DOWN: [u64; 4] = [8, 6, 4, 2];

// Of two of anything each of three shards has none.
const TWO: Limits = Limits {
    weight: 2,
    entries: 2,
};

// In which shard each key has its entry, told by a cache of that key alone; at 0, which is no key, 3.
fn homes(alloc: Global) -> Result<[usize; 9], AllocError> {
    let mut homes = [3usize; 9];
    for key in 1..9usize {
        let mut cache = Owned::new(alloc, 30, 30)?;
        drop(cache.put(key as u64, 0, 1, |_| {}));
        for shard in 0..3 {
            if cache.shard_len(shard) == 1 {
                homes[key] = shard;
            }
        }
    }
    Ok(homes)
}

// The digits of those keys that stand in shard 0, in this order, then of those in shard 1, and in shard 2.
fn in_turn(homes: &[usize; 9], keys: &[u64]) -> u64 {
    let mut digits = 0u64;
    for shard in 0..3 {
        for key in keys {
            if homes.get(*key as usize) == Some(&shard) {
                digits = digits.wrapping_mul(10).wrapping_add(*key);
            }
        }
    }
    digits
}

// What each of five steps shows: all; all again, once the odd keys are let go; what goes for lower limits; what a clear hands
// over, of all keys, and what a drain.
type Steps = [u64; 5];

fn expected(homes: &[usize; 9]) -> Steps {
    [
        in_turn(homes, &DOWN),
        in_turn(homes, &EVEN_DOWN),
        in_turn(homes, &EVEN_UP),
        in_turn(homes, &UP),
        in_turn(homes, &DOWN),
    ]
}

// The digits that are there, and a key behind them.
fn behind(digits: u64, key: u64) -> u64 {
    digits.wrapping_mul(10).wrapping_add(key)
}

fn fill_owned(cache: &mut Owned) {
    for key in UP {
        drop(cache.put(key, 0, 1, |_| {}));
    }
}

fn shown_owned(cache: &Owned) -> u64 {
    let mut digits = 0;
    cache.for_each(|(key, _value, _weight): (&u64, &u64, usize)| digits = behind(digits, *key));
    digits
}

fn steps_owned(alloc: Global) -> Result<Steps, AllocError> {
    let mut steps = [0u64; 5];
    let mut cache = Owned::new(alloc, 30, 30)?;
    fill_owned(&mut cache);
    cache.clear(|gone: Entry<u64, u64>| steps[3] = behind(steps[3], gone.key));
    fill_owned(&mut cache);
    cache.drain(|gone: Entry<u64, u64>| steps[4] = behind(steps[4], gone.key));
    fill_owned(&mut cache);
    steps[0] = shown_owned(&cache);
    cache.retain(|key: &u64, _value: &u64, _weight: usize| *key % 2 == 0);
    steps[1] = shown_owned(&cache);
    cache.set_limits(
        TWO,
        |gone: Entry<u64, u64>| steps[2] = behind(steps[2], gone.key),
    );
    Ok(steps)
}

fn fill_locked(rt: &impl Wait, cache: &Locked) {
    for key in UP {
        drop(cache.put(rt, key, 0, 1, |_| {}));
    }
}

fn shown_locked(rt: &impl Wait, cache: &Locked) -> u64 {
    let mut digits = 0;
    cache.for_each(
        rt,
        |(key, _value, _weight): (&u64, &u64, usize)| digits = behind(digits, *key),
    );
    digits
}

fn steps_locked(rt: &impl Wait, alloc: Global) -> Result<Steps, AllocError> {
    let mut steps = [0u64; 5];
    let cache = Locked::new(alloc, 30, 30)?;
    fill_locked(rt, &cache);
    cache.clear(
        rt,
        |gone: Entry<u64, u64>| steps[3] = behind(steps[3], gone.key),
    );
    fill_locked(rt, &cache);
    cache.drain(
        rt,
        |gone: Entry<u64, u64>| steps[4] = behind(steps[4], gone.key),
    );
    fill_locked(rt, &cache);
    steps[0] = shown_locked(rt, &cache);
    cache.retain(rt, |key: &u64, _value: &u64, _weight: usize| *key % 2 == 0);
    steps[1] = shown_locked(rt, &cache);
    cache.set_limits(
        rt,
        TWO,
        |gone: Entry<u64, u64>| steps[2] = behind(steps[2], gone.key),
    );
    Ok(steps)
}

fn are_in_turn(rt: &impl Wait, alloc: Global) -> Result<bool, AllocError> {
    let wanted = expected(&homes(alloc)?);
    Ok(steps_owned(alloc)? == wanted && steps_locked(rt, alloc)? == wanted)
}

#[test]
fn all_shards_are_called_in_turn(rt: HostRuntime) -> Result<(), Fail> {
    assert!(rt; are_in_turn(&rt, rt.alloc())?);
    Ok(())
}
