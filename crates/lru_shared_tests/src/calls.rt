//! Each call, at two types of keys, and at values without a size.
use lru_owned_cache::cache::{Cause, Entry, Refused};
use lru_shared_cache::counts::{Counts, Left};
use lru_shared_cache::shared::SharedCache;
use std::alloc::{AllocError, Global};
use std::hash::Hash;
use std::sync::Wait;
use std::test::Fail;

// Puts an entry, and lets go of what goes for it.
fn put<K: Hash + Drop, V: Drop, const N: usize>(
    rt: &impl Wait,
    cache: &SharedCache<K, V, N>,
    key: K,
    value: V,
    weight: usize,
) -> Result<Option<Entry<K, V>>, Refused<K, V>> {
    cache.put(rt, key, value, weight, |_| {})
}

// A key's value, which is not used by that.
fn peek<K: Hash, const N: usize>(
    rt: &impl Wait,
    cache: &SharedCache<K, u64, N>,
    key: &K,
) -> Option<u64> {
    cache.peek_with(rt, key, |value: &u64| *value)
}

// Gives a key's value one more, and answers what it was and its weight.
fn raise<K: Hash, const N: usize>(
    rt: &impl Wait,
    cache: &SharedCache<K, u64, N>,
    key: &K,
) -> Option<(u64, usize)> {
    cache.get_with(rt, key, |value: &mut u64, weight: usize| {
        let was = (*value, weight);
        *value = value.wrapping_add(1);
        was
    })
}

// Whether two entries are put, one of them twice.
fn are_put<K: Hash + Drop + Copy>(
    rt: &impl Wait,
    cache: &SharedCache<K, u64, 4>,
    one: K,
    two: K,
) -> bool {
    let first = put(rt, cache, one, 10, 2);
    let second = put(rt, cache, two, 20, 3);
    let again = put(rt, cache, one, 11, 4);
    let are_new = matches!(first, Ok(None)) & matches!(second, Ok(None));
    let is_replaced = match again {
        Ok(Some(entry)) => (entry.key == one) & ((entry.value, entry.weight) == (10, 2)),
        _ => false,
    };
    are_new & is_replaced & ((cache.len(rt), cache.weight(rt)) == (2, 7))
}

// Whether the value of a key is shown, cloned and changed, and that of a key without an entry is not.
fn are_shown<K: Hash + Drop + Copy>(
    rt: &impl Wait,
    cache: &SharedCache<K, u64, 4>,
    one: K,
    none: K,
) -> Result<bool, AllocError> {
    let got = cache.get(rt, &one)? == Some(11) && cache.get(rt, &none)?.is_none();
    let peeked = peek(rt, cache, &one) == Some(11) && peek(rt, cache, &none).is_none();
    let raised = raise(rt, cache, &one) == Some((11, 4)) && raise(rt, cache, &none).is_none();
    let is_changed = raised && cache.get(rt, &one)? == Some(12);
    Ok(got && peeked && is_changed && cache.contains(rt, &one) && !cache.contains(rt, &none))
}

// Whether an entry is taken out once.
fn is_removed<K: Hash + Drop + Copy>(
    rt: &impl Wait,
    cache: &SharedCache<K, u64, 4>,
    one: K,
) -> bool {
    let taken = match cache.remove(rt, &one) {
        Some(entry) => (entry.key == one) & ((entry.value, entry.weight) == (12, 4)),
        None => false,
    };
    let is_gone = cache.remove(rt, &one).is_none() & !cache.contains(rt, &one);
    taken & is_gone & ((cache.len(rt), cache.weight(rt)) == (1, 3))
}

// Whether what the calls met is counted: of two keys three entries put, one in place of another, and one taken out.
fn are_counted<K: Hash, const N: usize>(rt: &impl Wait, cache: &SharedCache<K, u64, N>) -> bool {
    let stats = cache.stats(rt);
    let replaced = Left {
        entries: 1,
        weight: 2,
    };
    let removed = Left {
        entries: 1,
        weight: 4,
    };
    stats
        == Counts {
            hits: 3,
            misses: 2,
            puts: 3,
            replaced,
            removed,
            ..Counts::none()
        }
}

fn calls_answer<K: Hash + Drop + Copy>(
    rt: &impl Wait,
    cache: &SharedCache<K, u64, 4>,
    (one, two, none): (K, K, K),
) -> Result<bool, AllocError> {
    Ok(
        are_put(rt, cache, one, two)
            && are_shown(rt, cache, one, none)?
            && is_removed(rt, cache, one)
            && are_counted(rt, cache),
    )
}

#[test]
fn each_call_answers(rt: HostRuntime) -> Result<(), Fail> {
    let numbers = SharedCache::new(rt.alloc(), 40, 40)?;
    assert_eq!(rt; numbers.shards(), 4);
    assert!(rt; calls_answer(&rt, &numbers, (1u64, 2, 3))?);
    let choices = SharedCache::with_seed(rt.alloc(), 40, 40, 7)?;
    assert!(rt; calls_answer(&rt, &choices, (None, Some(7u32), Some(8)))?);
    Ok(())
}

// Puts a key whose value is itself, and answers which key goes for it.
fn gone_for(rt: &impl Wait, cache: &SharedCache<u64, u64, 1>, key: u64) -> Option<u64> {
    let mut gone = None;
    let put = cache.put(rt, key, key, 1, |entry: Entry<u64, u64>| {
        gone = Some(entry.key)
    });
    put.ok()?;
    gone
}

// Whether the entry goes that was used longest ago, by a call that uses it.
fn oldest_goes(rt: &impl Wait, alloc: Global) -> Result<bool, AllocError> {
    let cache = SharedCache::<u64, u64, 1>::new(alloc, 10, 2)?;
    let none = gone_for(rt, &cache, 1).is_none() & gone_for(rt, &cache, 2).is_none();
    let got = cache.get(rt, &1)? == Some(1) && gone_for(rt, &cache, 3) == Some(2);
    let peeked = peek(rt, &cache, &1) == Some(1) && gone_for(rt, &cache, 4) == Some(1);
    let lent = raise(rt, &cache, &3) == Some((3, 1)) && gone_for(rt, &cache, 5) == Some(4);
    Ok(none && got && peeked && lent)
}

#[test]
fn what_was_used_longest_ago_goes(rt: HostRuntime) -> Result<(), Fail> {
    assert!(rt; oldest_goes(&rt, rt.alloc())?);
    Ok(())
}

// Whether each of two shards has half of the limits, and the whole is within them.
fn are_divided(rt: &impl Wait, alloc: Global) -> Result<bool, AllocError> {
    let cache = SharedCache::<u64, u64, 2>::new(alloc, 21, 9)?;
    let refused = match put(rt, &cache, 1, 10, 11) {
        Ok(_) => false,
        Err(refused) => { (refused.cause, refused.key, refused.value) == (Cause::TooHeavy, 1, 10) }
    };
    for key in 0..100u64 {
        drop(put(rt, &cache, key, key, 1));
    }
    let are_full = (cache.len(rt), cache.weight(rt)) == (8, 8);
    Ok(refused && are_full)
}

#[test]
fn limits_are_divided(rt: HostRuntime) -> Result<(), Fail> {
    assert!(rt; are_divided(&rt, rt.alloc())?);
    Ok(())
}

// Whether values without a size are put, shown and taken out.
fn are_kept_without_size(rt: &impl Wait, alloc: Global) -> Result<bool, AllocError> {
    let cache = SharedCache::<u64, (), 2>::new(alloc, 20, 20)?;
    let are_new = matches!(put(rt, &cache, 1, (), 1), Ok(None))
        & matches!(put(rt, &cache, 2, (), 2), Ok(None));
    let is_there = cache.get(rt, &1)? == Some(()) && cache.get(rt, &3)?.is_none();
    let is_taken = cache.remove(rt, &2).is_some() & cache.remove(rt, &2).is_none();
    Ok(are_new && is_there && is_taken && (cache.len(rt), cache.weight(rt)) == (1, 1))
}

#[test]
fn values_without_a_size(rt: HostRuntime) -> Result<(), Fail> {
    assert!(rt; are_kept_without_size(&rt, rt.alloc())?);
    Ok(())
}

// Whether each entry of a shard is shown, the one that was used last first.
fn are_all_shown(rt: &impl Wait, alloc: Global) -> Result<bool, AllocError> {
    let cache: SharedCache<u64, u64, 1> = SharedCache::new(alloc, 100, 100)?;
    for (key, value, weight) in [(1u64, 10u64, 2usize), (2, 20, 3), (3, 30, 4)] {
        if put(rt, &cache, key, value, weight).is_err() {
            return Ok(false);
        }
    }
    let (mut sum, mut weights) = (0u64, 0usize);
    cache.iter_for_each(rt, 0, |(key, value, weight)| {
        sum = sum
            .wrapping_mul(100)
            .wrapping_add(*key)
            .wrapping_add(*value);
        weights = weights.wrapping_mul(10).wrapping_add(weight);
    });
    Ok((cache.shard_len(rt, 0) == 3) & (sum == 332_211) & (weights == 432))
}

#[test]
fn each_entry_of_a_shard_is_shown(rt: HostRuntime) -> Result<(), Fail> {
    assert!(rt; are_all_shown(&rt, rt.alloc())?);
    Ok(())
}
