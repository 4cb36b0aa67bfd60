//! Each call of a cache that threads share, at keys that are texts, and that it does what shards of one owner do.
use lru_index::hashing::SeededHashes;
use lru_shared_cache::counts::{Counts, Left};
use lru_shared_segmented::sharded::ShardedSegmentedCache;
use lru_shared_segmented::shared::{Limits, SharedSegmentedCache};
use std::alloc::{AllocError, Global};
use std::sync::Wait;
use std::test::Fail;

type Texts = SharedSegmentedCache<String, u64, 4>;

// Puts a value under a text, and answers the weight of the one that it replaces.
fn put(
    rt: &impl Wait,
    alloc: Global,
    cache: &Texts,
    text: &str,
    value: u64,
    weight: usize,
) -> Result<Option<usize>, AllocError> {
    let key = String::from_str(alloc, text)?;
    match cache.put(rt, key, value, weight, |_gone| {}) {
        Ok(Some(was)) => Ok(Some(was.weight)),
        Ok(None) => Ok(None),
        Err(_) => Err(AllocError),
    }
}

// Whether two entries are put, one of them twice, and only that one is protected then.
fn are_put(rt: &impl Wait, alloc: Global, cache: &Texts) -> Result<bool, AllocError> {
    let first = put(rt, alloc, cache, "one", 10, 2)?;
    let second = put(rt, alloc, cache, "two", 20, 3)?;
    let again = put(rt, alloc, cache, "one", 11, 4)?;
    let sizes = (
        cache.len(rt),
        cache.weight(rt),
        cache.protected_len(rt),
        cache.protected_weight(rt),
    );
    Ok((first, second, again) == (None, None, Some(2)) && sizes == (2, 7, 1, 4))
}

// Whether the value of a key is shown, cloned and changed, and that of a key without an entry is not.
fn are_shown(rt: &impl Wait, alloc: Global, cache: &Texts) -> Result<bool, AllocError> {
    let (one, none) = (
        String::from_str(alloc, "one")?,
        String::from_str(alloc, "none")?,
    );
    let got = cache.get(rt, &one)? == Some(11) && cache.get_by(rt, "none")?.is_none();
    let peeked = cache.peek_with(rt, &one, |value: &u64| *value) == Some(11)
        && cache.peek_with_by(rt, "none", |value: &u64| *value) == None;
    let lent = cache.get_with(rt, &one, |value: &mut u64, weight: usize| {
        *value = value.wrapping_add(1);
        weight
    });
    let again = cache.get_with_by(rt, "one", |value: &mut u64, _weight: usize| *value);
    let is_there = cache.contains(rt, &one) && !cache.contains_by(rt, "none");
    Ok(
        got && peeked
            && lent == Some(4)
            && again == Some(12)
            && is_there
            && cache.remove(rt, &none).is_none(),
    )
}

// Whether a missing value is made, and an entry is taken out once.
fn is_made_and_removed(rt: &impl Wait, alloc: Global, cache: &Texts) -> Result<bool, AllocError> {
    let made = cache.get_or_put_with(
        rt,
        String::from_str(alloc, "three")?,
        || -> Result<(u64, usize), u8> { Ok((30, 1)) },
        |_gone| {},
    );
    let taken = cache.remove_by(rt, "three").map(|entry| entry.value);
    let again = cache.remove_by(rt, "three").map(|entry| entry.value);
    Ok(matches!(made, Ok(30)) && taken == Some(30) && again == None)
}

// Whether what the calls met is counted.
fn are_counted(rt: &impl Wait, cache: &Texts) -> bool {
    let replaced = Left {
        entries: 1,
        weight: 2,
    };
    let removed = Left {
        entries: 1,
        weight: 1,
    };
    cache.stats(rt)
        == Counts {
            hits: 3,
            misses: 2,
            puts: 4,
            replaced,
            removed,
            ..Counts::none()
        }
}

fn calls_answer(rt: &impl Wait, alloc: Global) -> Result<bool, AllocError> {
    let cache = Texts::with_protected_and_seed(alloc, Limits::of_weight(40), 20, 7)?;
    Ok(
        are_put(rt, alloc, &cache)?
            && are_shown(rt, alloc, &cache)?
            && is_made_and_removed(rt, alloc, &cache)?
            && are_counted(rt, &cache)
            && cache.shards() == 4,
    )
}

#[test]
fn each_call_answers(rt: HostRuntime) -> Result<(), Fail> {
    assert!(rt; calls_answer(&rt, rt.alloc())?);
    Ok(())
}

type Numbers = SharedSegmentedCache<u64, u64, 1>;

// How many entries of a shard are protected, and whether it has key 3, read under its lock, which is let go of at the end.
fn shown_under_lock(rt: &impl Wait, cache: &Numbers) -> (usize, bool) {
    let held = cache.lock_shard(rt, 0);
    (
        held.cache().protected_len(),
        held.cache().peek(&3) == Some(&3),
    )
}

// Whether a whole shard is shown, under its lock too, gives up its last entry, gets other limits, and is cleared.
fn are_whole(rt: &impl Wait, alloc: Global) -> Result<bool, AllocError> {
    let cache = Numbers::with_protected(alloc, Limits::of_weight(10), 5)?;
    for key in 1..5u64 {
        drop(cache.put(rt, key, key, 2, |_gone| {}));
    }
    let used = cache.get(rt, &2)? == Some(2);
    // 2 | 4 3 1
    let mut shown = 0u64;
    cache.iter_for_each(rt, 0, |(key, _value, _weight): (&u64, &u64, usize)| {
        shown = shown.wrapping_mul(10).wrapping_add(*key)
    });
    let locked = shown_under_lock(rt, &cache);
    let sizes = (cache.shard_len(rt, 0), cache.shard_weight(rt, 0));
    let last = cache.pop_last_of(rt, 0).map(|entry| entry.key);
    let (mut gone, mut cleared) = (0u64, 0u64);
    cache.set_shard_limits(
        rt,
        0,
        Limits::of_weight(4),
        1,
        |entry| gone = gone.wrapping_mul(10).wrapping_add(entry.key),
    );
    let protected = cache.protected_len(rt);
    cache.clear_shard(
        rt,
        0,
        |entry| cleared = cleared.wrapping_mul(10).wrapping_add(entry.key),
    );
    let is_shown = used && shown == 2431 && locked == (1, true) && sizes == (4, 8);
    Ok(is_shown && last == Some(1) && (gone, protected, cleared) == (3, 0, 42))
}

#[test]
fn a_whole_shard(rt: HostRuntime) -> Result<(), Fail> {
    assert!(rt; are_whole(&rt, rt.alloc())?);
    Ok(())
}

type Owned = ShardedSegmentedCache<u64, u64, 4>;

type Shared = SharedSegmentedCache<u64, u64, 4>;

// Makes the same call of both, told by a drawn word, and answers whether both answer the same.
fn answer_alike(
    rt: &impl Wait,
    owned: &mut Owned,
    shared: &Shared,
    word: u64,
) -> Result<bool, AllocError> {
    let (key, weight) = ((word >> 16) % 40, ((word >> 8) % 5) as usize);
    let (mut one, mut other) = (0u64, 0u64);
    match (word >> 24) % 4 {
        0 | 1 => {
            drop(owned.put(
                key,
                word,
                weight,
                |gone| one = one.wrapping_mul(41).wrapping_add(gone.key),
            ));
            drop(shared.put(rt, key, word, weight, |gone| {
                other = other.wrapping_mul(41).wrapping_add(gone.key)
            }));
            Ok(one == other)
        }
        2 => Ok(owned.get(&key)? == shared.get(rt, &key)?),
        _ => Ok(owned.remove(&key).is_some() == shared.remove(rt, &key).is_some()),
    }
}

// Whether shards of one owner and shards behind locks, over the same hashers, answer alike and count the same.
fn are_alike(rt: &impl Wait, alloc: Global) -> Result<bool, AllocError> {
    let (limits, hashes) = (Limits::of_weight(40), SeededHashes::with_seed(9));
    let mut owned = Owned::with_protected_and_hasher(alloc, limits, 20, hashes)?;
    let shared = Shared::with_protected_and_hasher(alloc, limits, 20, hashes)?;
    let (mut word, mut is_same) = (1u64, true);
    for _ in 0..2000 {
        word = word.wrapping_mul(1_664_525).wrapping_add(1_013_904_223) % 4_294_967_296;
        is_same &= answer_alike(rt, &mut owned, &shared, word)?;
    }
    let (mut len, mut protected) = (0usize, 0usize);
    for shard in 0..4 {
        len = len.saturating_add(owned.shard_len(shard));
        protected = protected.saturating_add(owned.shard_protected_weight(shard));
    }
    let are_counted = owned.stats() == shared.stats(rt) && owned.stats().for_room.entries != 0;
    let is_left = (len, protected) == (shared.len(rt), shared.protected_weight(rt));
    Ok(is_same && are_counted && is_left && owned.shards() == 4)
}

#[test]
fn locks_change_no_answer(rt: HostRuntime) -> Result<(), Fail> {
    assert!(rt; are_alike(&rt, rt.alloc())?);
    Ok(())
}

// Whether caches tell how many shards they have.
fn are_told(alloc: Global) -> Result<bool, AllocError> {
    let limits = Limits::of_weight(8);
    let shared = SharedSegmentedCache::<u64, u64, 2>::with_protected(alloc, limits, 4)?;
    let owned = ShardedSegmentedCache::<u64, u64, 3>::with_protected(alloc, limits, 4)?;
    let seeded = ShardedSegmentedCache::<u64, u64, 2>::with_protected_and_seed(
        alloc, limits, 4, 1,
    )?;
    let is_empty = seeded.shard_stats(1) == Counts::none() && seeded.shard_weight(0) == 0;
    Ok(
        is_empty
            && format!(in alloc; "{shared:?}")?.as_str() == "SharedSegmentedCache { shards: 2, .. }"
            && format!(in alloc; "{owned:?}")?.as_str()
                == "ShardedSegmentedCache { shards: 3, .. }",
    )
}

#[test]
fn a_cache_tells_its_shards(rt: HostRuntime) -> Result<(), Fail> {
    assert!(rt; are_told(rt.alloc())?);
    Ok(())
}
