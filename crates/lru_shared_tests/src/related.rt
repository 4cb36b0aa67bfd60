//! A cache whose type says which value each key has: what comes out of it is right for its key, whoever put it there.
ghost use Rattle.std.specs.Prelude.{◌≡◌, ◌*◌, ◌/◌, ◌<◌, ◌^◌, IfSome};

use lru_index::hashing::SeededHashes;
use lru_owned_cache::cache::Entry;
use lru_shared_cache::shared::{Relation, SharedCache};
use std::alloc::{AllocError, Global};
use std::sync::Wait;
use std::test::Fail;
use std::thread;
use std::thread::Threads;

// Each value is twice its key.
struct Doubled;

impl Relation<u64, u64> for Doubled {
    ghost holds = { λ key value. value ≡ 2 * key };
}

type Doubles = SharedCache<u64, u64, 2, SeededHashes, Doubled>;

fn doubles(alloc: Global) -> Result<Doubles, AllocError> {
    Doubles::related(alloc, 40, 40, SeededHashes::fixed())
}

// Twice a number, which is kept.
fn twice(rt: &impl Wait, cache: &Doubles, number: u64) -> u64
    requires { number < 2 ^ 63 }
    ensures { result ≡ 2 * number }
{
    match cache.get(rt, &number) {
        Ok(Some(value)) => value,
        Ok(None) | Err(AllocError) => {
            let value = number * 2;
            drop(cache.put(rt, number, value, 1, |_gone| {}));
            value
        }
    }
}

// The same, which is worked out once, if there is memory.
fn twice_made(rt: &impl Wait, cache: &Doubles, number: u64) -> Option<u64>
    requires { number < 2 ^ 63 }
    ensures { IfSome result (λ value. value ≡ 2 * number) }
{
    let make = || -> Result<(u64, usize), u8>
        requires { number < 2 ^ 63 }
        ensures { result ≡ Ok (number * 2, 1) }
    { Ok((number * 2, 1)) };
    match cache.get_or_put_with(rt, number, make, |_gone| {}) {
        Ok(value) => Some(value),
        Err(_) => None,
    }
}

// Half of a key's value, which is that key.
fn halved(rt: &impl Wait, cache: &Doubles, number: u64) -> Option<u64>
    ensures { IfSome result (λ half. half ≡ number) }
{
    let show = |value: &u64| -> u64
        ensures { result ≡ value.now / 2 }
    { *value / 2 };
    cache.peek_with(rt, &number, show)
}

// A key's value, which is used by that and lent.
fn used(rt: &impl Wait, cache: &Doubles, number: u64) -> Option<u64>
    ensures { IfSome result (λ value. value ≡ 2 * number) }
{
    let show = |value: &mut u64, _weight: usize| -> u64
        ensures shown { result ≡ value.old }
        ensures stays { value.new ≡ value.old }
    { *value };
    cache.get_with(rt, &number, show)
}

// The entry of a shard that was used longest ago: its value is twice its key.
fn oldest(rt: &impl Wait, cache: &Doubles, shard: usize) -> Option<Entry<u64, u64>>
    requires { shard < 2 }
    ensures { IfSome result (λ entry. entry.value ≡ 2 * entry.key) }
{
    cache.pop_last_of(rt, shard)
}

// Twice two numbers, by two threads over one cache.
fn both_twice<R: Threads + Wait + Sync>(rt: &R, cache: &Doubles, one: u64, two: u64) -> (u64, u64)
    requires one { one < 2 ^ 63 }
    requires two { two < 2 ^ 63 }
    ensures one { result.0 ≡ 2 * one }
    ensures two { result.1 ≡ 2 * two }
{
    thread::join(
        rt,
        move || twice(rt, cache, one),
        move || twice(rt, cache, two),
    )
}

// Whether what is answered is right, once it is worked out and once it is there.
fn are_right<R: Threads + Wait + Sync>(rt: &R, alloc: Global) -> Result<bool, AllocError> {
    let cache = doubles(alloc)?;
    let is_missing = used(rt, &cache, 4).is_none() & halved(rt, &cache, 4).is_none();
    let is_right = both_twice(rt, &cache, 4, 5) == (8, 10)
        && both_twice(rt, &cache, 4, 4) == (8, 8)
        && twice_made(rt, &cache, 6) == Some(12)
        && (used(rt, &cache, 6), halved(rt, &cache, 6)) == (Some(12), Some(6));
    let taken = match cache.remove(rt, &6) {
        Some(entry) => (entry.key, entry.value) == (6, 12),
        None => false,
    };
    let last = oldest(rt, &cache, 0).is_some() | oldest(rt, &cache, 1).is_some();
    Ok(is_missing & is_right & taken & last)
}

#[test]
fn what_comes_out_is_right_for_its_key(rt: HostRuntime) -> Result<(), Fail> {
    assert!(rt; are_right(&rt, rt.alloc())?);
    Ok(())
}
