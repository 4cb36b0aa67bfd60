//! Keys that are texts, asked for by texts: no key is made for that, and each is found in its shard.
use lru_shared_cache::shared::SharedCache;
use std::alloc::{AllocError, Global};
use std::sync::Wait;
use std::test::Fail;

type Texts = SharedCache<String, u64, 4>;

// How many keys there are: more than there are shards by far.
const KEYS: u64 = 40;

// Puts a value under the text of a number. Whether it is let in.
fn is_put(rt: &impl Wait, alloc: Global, cache: &Texts, number: u64) -> Result<bool, AllocError> {
    let key = format!(in alloc; "key {number}")?;
    Ok(matches!(cache.put(rt, key, number, 1, |_gone| {}), Ok(None)))
}

// Whether a text is found by each call, and gone once it is taken out.
fn is_found(rt: &impl Wait, cache: &Texts, key: &str, number: u64) -> Result<bool, AllocError> {
    let is_there = cache.contains_by(rt, key)
        && cache.peek_with_by(rt, key, |value: &u64| *value) == Some(number)
        && cache.get_by(rt, key)? == Some(number);
    let is_raised = cache.get_with_by(rt, key, |value: &mut u64, weight: usize| {
        *value = value.wrapping_add(1);
        weight
    }) == Some(1);
    let is_taken = match cache.remove_by(rt, key) {
        Some(entry) => entry.value == number.wrapping_add(1),
        None => false,
    };
    let is_gone = cache.remove_by(rt, key).is_none() && !cache.contains_by(rt, key);
    Ok(is_there && is_raised && is_taken && is_gone)
}

// Whether nothing is found of what has no entry.
fn is_missing(rt: &impl Wait, cache: &Texts, key: &str) -> Result<bool, AllocError> {
    Ok(
        !cache.contains_by(rt, key)
            && cache.peek_with_by(rt, key, |value: &u64| *value).is_none()
            && cache.get_by(rt, key)?.is_none()
            && cache
                .get_with_by(rt, key, |value: &mut u64, _weight: usize| *value)
                .is_none()
            && cache.remove_by(rt, key).is_none(),
    )
}

fn are_found(rt: &impl Wait, alloc: Global) -> Result<bool, AllocError> {
    let cache = Texts::with_seed(alloc, 400, 400, 5)?;
    let mut is_right = true;
    for number in 0..KEYS {
        is_right &= is_put(rt, alloc, &cache, number)?;
    }
    is_right &= is_missing(rt, &cache, "key")? & is_missing(rt, &cache, "")?;
    for number in 0..KEYS {
        let key = format!(in alloc; "key {number}")?;
        is_right &= is_found(rt, &cache, key.as_str(), number)?;
    }
    Ok(is_right & (cache.len(rt) == 0))
}

#[test]
fn texts_are_asked_for_by_texts(rt: HostRuntime) -> Result<(), Fail> {
    assert!(rt; are_found(&rt, rt.alloc())?);
    Ok(())
}
