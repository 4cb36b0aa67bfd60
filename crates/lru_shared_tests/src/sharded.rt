//! Shards of one owner: each call, and that a shared cache does behind its locks what they do.
ghost use Rattle.std.specs.Prelude.{◌<◌};

use lru_index::hashing::SeededHashes;
use lru_owned_cache::cache::Entry;
use lru_shared_cache::counts::Counts;
use lru_shared_cache::sharded::ShardedCache;
use lru_shared_cache::shared::{Limits, SharedCache};
use std::alloc::{AllocError, Global};
use std::sync::Wait;
use std::test::Fail;

type Numbers = ShardedCache<u64, u64, 4>;

type Texts = ShardedCache<String, u64, 4>;

// Puts a value under one key. Whether it is let in, and replaces none.
fn is_put(alloc: Global, cache: &mut Texts, value: u64, weight: usize) -> Result<bool, AllocError> {
    let key = format!(in alloc; "one")?;
    Ok(matches!(cache.put(key, value, weight, |_| {}), Ok(None)))
}

// Whether the value of a key is shown, cloned and changed, and that of a key without an entry is not.
fn are_shown(cache: &mut Texts) -> Result<bool, AllocError> {
    let is_there = cache.contains("one") & !cache.contains("two");
    let peeked = cache.peek_with("one", |value: &u64| *value) == Some(11);
    let got = cache.get("one")? == Some(11) && cache.get("two")?.is_none();
    let lent = cache.get_with("one", |value: &mut u64, weight: usize| {
        *value = value.wrapping_add(1);
        weight
    });
    Ok(is_there & peeked & got & (lent == Some(4)))
}

// Whether a missing value is made.
fn is_made(alloc: Global, cache: &mut Texts) -> Result<bool, AllocError> {
    let made = cache.get_or_put_with(
        format!(in alloc; "two")?,
        || -> Result<(u64, usize), u8> { Ok((20, 3)) },
        |_| {},
    );
    Ok(matches!(made, Ok(20)))
}

// How many entries the shards have, what they weigh, and the sum of their values.
fn totals(cache: &Texts) -> (usize, usize, u64) {
    let mut totals = (0usize, 0usize, 0u64);
    for shard in 0..4 {
        totals.0 = totals.0.saturating_add(cache.shard_len(shard));
        totals.1 = totals.1.saturating_add(cache.shard_weight(shard));
        let mut shown = 0u64;
        cache.iter_for_each(shard, |(_key, value, _weight): (&String, &u64, usize)| {
            shown = shown.wrapping_add(*value)
        });
        totals.2 = totals.2.wrapping_add(shown);
    }
    totals
}

// Whether an entry is taken out once.
fn is_removed(cache: &mut Texts) -> bool {
    let is_taken = match cache.remove("one") {
        Some(entry) => entry.value == 12,
        None => false,
    };
    is_taken & cache.remove("one").is_none()
}

// Whether each call does as it is told, by a key and by what stands for it.
fn calls_answer(alloc: Global) -> Result<bool, AllocError> {
    let mut cache = Texts::with_seed(alloc, 40, 40, 7)?;
    Ok(
        is_put(alloc, &mut cache, 10, 2)?
            && !is_put(alloc, &mut cache, 11, 4)?
            && are_shown(&mut cache)?
            && is_made(alloc, &mut cache)?
            && totals(&cache) == (2, 7, 32)
            && is_removed(&mut cache),
    )
}

#[test]
fn each_call_of_shards_of_one_owner(rt: HostRuntime) -> Result<(), Fail> {
    assert!(rt; calls_answer(rt.alloc())?);
    Ok(())
}

// Puts a key whose value is itself, and answers which key goes for it: 0 where none does.
fn gone_for_owned(cache: &mut Numbers, key: u64) -> u64 {
    let mut gone = 0;
    let put = cache.put(key, key, 1, |entry: Entry<u64, u64>| gone = entry.key);
    if put.is_err() {
        return u64::MAX;
    }
    gone
}

// The same of a shared cache.
fn gone_for_shared(rt: &impl Wait, cache: &SharedCache<u64, u64, 4>, key: u64) -> u64 {
    let mut gone = 0;
    let put = cache.put(rt, key, key, 1, |entry: Entry<u64, u64>| gone = entry.key);
    if put.is_err() {
        return u64::MAX;
    }
    gone
}

// The keys of a shard in their order, in one number.
fn keys_of_owned(cache: &Numbers, shard: usize) -> u64
    requires { shard < 4 }
{
    let mut keys = 0u64;
    cache.iter_for_each(shard, |(key, _value, _weight): (&u64, &u64, usize)| {
        keys = keys.wrapping_mul(97).wrapping_add(*key)
    });
    keys
}

// The same behind a lock: the keys that are shown, where the shard that is held has as many.
fn keys_of_shared(rt: &impl Wait, cache: &SharedCache<u64, u64, 4>, shard: usize) -> u64
    requires { shard < 4 }
{
    let mut keys = 0u64;
    let mut shown = 0usize;
    cache.iter_for_each(rt, shard, |(key, _value, _weight)| {
        keys = keys.wrapping_mul(97).wrapping_add(*key);
        shown = shown.wrapping_add(1);
    });
    let held = cache.lock_shard(rt, shard).cache().len();
    if held != shown {
        return u64::MAX;
    }
    keys
}

// Whether both have the same entries in each shard.
fn are_shards_the_same(rt: &impl Wait, owned: &Numbers, shared: &SharedCache<u64, u64, 4>) -> bool {
    let mut is_same = true;
    for shard in 0..4 {
        is_same &= owned.shard_len(shard) == shared.shard_len(rt, shard);
        is_same &= keys_of_owned(owned, shard) == keys_of_shared(rt, shared, shard);
    }
    is_same
}

// Whether a shared cache over the same hashers lets the same entries go, and answers the same. Many go.
fn are_the_same(rt: &impl Wait, alloc: Global) -> Result<bool, AllocError> {
    let hashes = SeededHashes::with_seed(9);
    let mut owned = Numbers::with_hasher(alloc, 40, 40, hashes)?;
    let shared = SharedCache::<u64, u64, 4>::with_hasher(alloc, 40, 40, hashes)?;
    let mut is_same = true;
    let mut went = 0u32;
    for number in 1..400u64 {
        let key = number.wrapping_mul(number) % 97 + 1;
        let gone = gone_for_owned(&mut owned, key);
        is_same &= gone == gone_for_shared(rt, &shared, key);
        is_same &= owned.get(&number)? == shared.get(rt, &number)?;
        went = went.wrapping_add((gone != 0) as u32);
    }
    let mut counted = 0u64;
    for shard in 0..4 {
        counted = counted.saturating_add(owned.shard_stats(shard).for_room.entries);
    }
    let is_counted = (owned.stats() == shared.stats(rt)) & (counted == went as u64);
    for turn in 0..48 {
        let gone = owned.pop_last(turn % 4).map(|entry| entry.key);
        is_same &= gone == shared.pop_last(rt, turn % 4).map(|entry| entry.key);
        if turn == 5 {
            // some shards have more entries now than others
            is_same &= are_shards_the_same(rt, &owned, &shared);
        }
    }
    is_same &= (owned.stats().removed.entries == 40) & (shared.len(rt) == 0);
    Ok(is_same && is_counted && went > 20)
}

#[test]
fn shards_behind_locks_do_as_those_of_one_owner(rt: HostRuntime) -> Result<(), Fail> {
    assert!(rt; are_the_same(&rt, rt.alloc())?);
    Ok(())
}

// In which shard a key has its entry, of one owner's cache of this seed.
fn shard_of(alloc: Global, seed: u64, key: u64) -> Result<Option<usize>, AllocError> {
    let mut cache = Numbers::with_seed(alloc, 40, 40, seed)?;
    let put = cache.put(key, key, 1, |_| {});
    let mut found = None;
    for shard in 0..cache.shards() {
        if cache.shard_len(shard) == 1 {
            found = Some(shard);
        }
    }
    Ok(found.filter(|_| put.is_ok()))
}

// The same of a shared cache.
fn shared_shard_of(
    rt: &impl Wait,
    alloc: Global,
    seed: u64,
    key: u64,
) -> Result<Option<usize>, AllocError> {
    let cache = SharedCache::<u64, u64, 4>::with_seed(alloc, 40, 40, seed)?;
    let put = cache.put(rt, key, key, 1, |_| {});
    let mut found = None;
    for shard in 0..4 {
        if cache.shard_len(rt, shard) == 1 {
            found = Some(shard);
        }
    }
    Ok(found.filter(|_| put.is_ok()))
}

// Whether some key stands in different shards under two seeds, and each in the same shard behind a lock.
fn seeds_tell_shards(rt: &impl Wait, alloc: Global) -> Result<bool, AllocError> {
    let mut differ = false;
    let mut is_same = true;
    for key in 0..16 {
        let owned = shard_of(alloc, 2, key)?;
        differ |= shard_of(alloc, 1, key)? != owned;
        is_same &= shared_shard_of(rt, alloc, 2, key)? == owned;
    }
    Ok(differ & is_same)
}

#[test]
fn seeds_tell_the_shards_of_keys(rt: HostRuntime) -> Result<(), Fail> {
    assert!(rt; seeds_tell_shards(&rt, rt.alloc())?);
    Ok(())
}

// Of four entries, put in the order of their keys, which goes for a limit of three, which is popped, and the others as they are
// drained; and how many left for room, were taken out, and went with all others.
type LetGo = ([u64; 3], (u64, u64, u64));

static LET_GO: LetGo = ([1, 2, 43], (1, 1, 2));

const THREE: Limits = Limits {
    weight: 12,
    entries: 3,
};

fn left(stats: Counts) -> (u64, u64, u64) {
    (
        stats.for_room.entries,
        stats.removed.entries,
        stats.cleared.entries,
    )
}

// The key of an entry, behind the digits that are there.
fn behind(digits: u64, gone: Entry<u64, u64>) -> u64 {
    digits.wrapping_mul(10).wrapping_add(gone.key)
}

fn let_go_by_owner(alloc: Global) -> Result<LetGo, AllocError> {
    let mut cache = ShardedCache::<u64, u64, 1>::new(alloc, 40, 40)?;
    for key in 1..5u64 {
        drop(cache.put(key, key, 1, |_| {}));
    }
    let mut keys = [0u64; 3];
    cache.set_shard_limits(0, THREE.part(1), |gone| keys[0] = behind(keys[0], gone));
    keys[1] = cache.pop_last_of(0).map_or(0, |gone| gone.key);
    cache.drain_shard(0, |gone| keys[2] = behind(keys[2], gone));
    Ok((keys, left(cache.stats())))
}

fn let_go_behind_locks(rt: &impl Wait, alloc: Global) -> Result<LetGo, AllocError> {
    let cache = SharedCache::<u64, u64, 1>::new(alloc, 40, 40)?;
    for key in 1..5u64 {
        drop(cache.put(rt, key, key, 1, |_| {}));
    }
    let mut keys = [0u64; 3];
    cache.set_shard_limits(rt, 0, THREE.part(1), |gone| keys[0] = behind(keys[0], gone));
    keys[1] = cache.pop_last_of(rt, 0).map_or(0, |gone| gone.key);
    cache.drain_shard(rt, 0, |gone| keys[2] = behind(keys[2], gone));
    Ok((keys, left(cache.stats(rt))))
}

fn are_let_go(rt: &impl Wait, alloc: Global) -> Result<bool, AllocError> {
    Ok(let_go_by_owner(alloc)? == LET_GO && let_go_behind_locks(rt, alloc)? == LET_GO)
}

#[test]
fn entries_are_popped_drained_and_limited(rt: HostRuntime) -> Result<(), Fail> {
    assert!(rt; are_let_go(&rt, rt.alloc())?);
    Ok(())
}

// How many entries a cache has after three puts of weight 3, and what they weigh, where its limits are told by name.
fn kept_under<R: Wait>(
    rt: &R,
    alloc: Global,
    limits: Limits,
) -> Result<(usize, usize), AllocError> {
    let cache: SharedCache<u64, u64, 1> = SharedCache::with_limits(alloc, limits)?;
    for key in 0..3u64 {
        let _put = cache.put(rt, key, key, 3, |_| {});
    }
    Ok((cache.len(rt), cache.weight(rt)))
}

#[test]
fn limits_told_by_name_are_kept(rt: HostRuntime) -> Result<(), Fail> {
    let alloc: Global = rt.alloc();
    let by_weight = Limits {
        weight: 5,
        entries: 100,
    };
    let by_entries = Limits {
        weight: 100,
        entries: 2,
    };
    assert_eq!(rt; kept_under(&rt, alloc, by_weight)?, (1, 3));
    assert_eq!(rt; kept_under(&rt, alloc, by_entries)?, (2, 6));
    Ok(())
}
