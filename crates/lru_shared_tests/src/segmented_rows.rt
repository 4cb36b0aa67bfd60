//! Caches of one shard and of two, small enough to be told by hand.
ghost use Rattle.std.specs.Prelude.{◌<◌, get_or};

use lru_index::alike::SameHashes;
use lru_owned_cache::cache::Entry;
use lru_shared_cache::limits::Limits;
use lru_shared_segmented::sharded::ShardedSegmentedCache;
use std::alloc::{AllocError, Global};
use std::hash::{BuildHasher, Hasher};
use std::test::Fail;

// A hasher whose hash is the first byte: of two shards those keys that are odd stand in the second.
#[derive(Clone, Copy)]
struct FirstByte {
    byte: u8,
}

impl Hasher for FirstByte {
    ghost write = { λ s bytes. record { byte = get_or bytes 0 0 } };

    ghost finish = { λ s. s.byte };

    fn finish(&self) -> u64 {
        self.byte as u64
    }

    fn write(&mut self, bytes: &[u8]) {
        self.byte = if bytes.len() > 0 { bytes[0] } else { 0 };
    }
}

impl BuildHasher for FirstByte {
    type Hasher = FirstByte;

    ghost build_hasher = { λ s. s };

    fn build_hasher(&self) -> FirstByte {
        *self
    }
}

impl SameHashes for FirstByte {
    fn is_same(&self, other: &Self) -> bool {
        self.byte == other.byte
    }
}

type Keys<const N: usize> = ShardedSegmentedCache<u64, u64, N, FirstByte>;

// What a step asks for.
#[derive(Clone, Copy)]
enum Step {
    // a put of this weight
    Put(usize),
    Get,
    Lend,
    // a request, for which an entry of this weight is made
    Make(usize),
    Remove,
    Look,
    // of the shard of this number
    Pop(usize),
    Clear(usize),
    // a limit on its weight, and a share
    Limit(usize, usize, usize),
}

// The keys of a shard's upper segment, and those of its lower one, as digits.
fn segments<const N: usize>(cache: &Keys<N>, shard: usize) -> (u64, u64)
    requires { shard < N }
{
    let (mut protected, mut upper, mut lower) = (cache.shard_protected_len(shard), 0u64, 0u64);
    cache.iter_for_each(shard, |(key, _value, _weight): (&u64, &u64, usize)| {
        if protected == 0 {
            lower = lower.wrapping_mul(10).wrapping_add(*key);
        } else {
            protected = protected.wrapping_sub(1);
            upper = upper.wrapping_mul(10).wrapping_add(*key);
        }
    });
    (upper, lower)
}

// Puts a key, and tells what came of it: its answer, and the keys that went, as digits.
fn told_of_put<const N: usize>(
    alloc: Global,
    cache: &mut Keys<N>,
    key: u64,
    weight: usize,
) -> Result<String, AllocError>
    requires { 0 < N }
{
    let mut gone = 0u64;
    let put = cache.put(
        key,
        key,
        weight,
        |entry| gone = gone.wrapping_mul(10).wrapping_add(entry.key),
    );
    match put {
        Ok(None) => format!(in alloc; "put {gone}"),
        Ok(Some(was)) => format!(in alloc; "was {} {gone}", was.weight),
        Err(refused) => format!(in alloc; "{:?} {}", refused.cause, refused.key),
    }
}

// Asks for a key, for which an entry of this weight is made, and tells the same.
fn told_of_request<const N: usize>(
    alloc: Global,
    cache: &mut Keys<N>,
    key: u64,
    weight: usize,
) -> Result<String, AllocError>
    requires { 0 < N }
{
    let mut gone = 0u64;
    let made = cache.get_or_put_with(
        key,
        || Ok::<(u64, usize), ()>((key, weight)),
        |entry| gone = gone.wrapping_mul(10).wrapping_add(entry.key),
    );
    match made {
        Ok(value) => format!(in alloc; "{value} {gone}"),
        Err(_) => format!(in alloc; "refused"),
    }
}

// Makes a step of a shard: no limits say that all are to go. Tells the keys that went.
fn told_of_shard<const N: usize>(
    alloc: Global,
    cache: &mut Keys<N>,
    shard: usize,
    limits: Option<(usize, usize)>,
) -> Result<String, AllocError>
    requires { shard < N }
{
    let mut gone = 0u64;
    let visit = |entry: Entry<u64, u64>| gone = gone.wrapping_mul(10).wrapping_add(entry.key);
    match limits {
        Some((weight, protected)) => {
            cache.set_shard_limits(shard, Limits::of_weight(weight), protected, visit)
        }
        None => cache.clear_shard(shard, visit),
    }
    format!(in alloc; "{gone}")
}

// Makes a step of a key, and tells what came of it.
fn told<const N: usize>(
    alloc: Global,
    cache: &mut Keys<N>,
    step: Step,
    key: u64,
) -> Result<String, AllocError>
    requires { 0 < N }
{
    match step {
        Step::Put(weight) => told_of_put(alloc, cache, key, weight),
        Step::Make(weight) => told_of_request(alloc, cache, key, weight),
        Step::Clear(shard) => told_of_shard(alloc, cache, shard % N, None),
        Step::Limit(shard, weight, protected) => {
            told_of_shard(alloc, cache, shard % N, Some((weight, protected)))
        }
        Step::Get => {
            let got = cache.get(&key)?;
            format!(in alloc; "{got:?}")
        }
        Step::Lend => {
            let lent = cache.get_with(&key, |_value: &mut u64, weight: usize| weight);
            format!(in alloc; "{lent:?}")
        }
        Step::Remove => {
            let removed = cache.remove(&key).map(|entry| entry.weight);
            format!(in alloc; "{removed:?}")
        }
        Step::Look => {
            let value = cache.peek_with(&key, |value: &u64| *value);
            let is_there = cache.contains(&key);
            format!(in alloc; "{value:?} {is_there}")
        }
        Step::Pop(shard) => {
            let last = cache.pop_last_of(shard % N).map(|entry| entry.key);
            format!(in alloc; "{last:?}")
        }
    }
}

// Makes a step, and answers what is wrong with it: nothing, as a rule.
fn wrong<const N: usize>(
    alloc: Global,
    cache: &mut Keys<N>,
    row: (Step, u64, &str),
    left: &[(u64, u64)],
) -> Result<String, AllocError>
    requires { 0 < N }
{
    let (step, key, answer) = row;
    let is = told(alloc, cache, step, key)?;
    let mut is_right = is.as_str() == answer;
    for shard in 0..N {
        is_right &= left.get(shard) == Some(&segments(cache, shard));
    }
    if is_right {
        Ok(String::new(alloc))
    } else {
        format!(in alloc; "{key}: {is} {:?}", segments(cache, 0))
    }
}

// Steps of one shard of 6, of which the upper segment may have 3, each with its answer and with the entries that it leaves.
static ONE: [(Step, u64, &str, [(u64, u64); 1]); 12] = [
    (Step::Put(1), 1, "put 0", [(0, 1)]),
    (Step::Put(1), 2, "put 0", [(0, 21)]),
    (Step::Get, 1, "Some(1)", [(1, 2)]),
    (Step::Get, 9, "None", [(1, 2)]),
    (Step::Lend, 2, "Some(1)", [(21, 0)]),
    (Step::Make(1), 3, "3 0", [(21, 3)]),
    (Step::Make(9), 3, "3 0", [(321, 0)]),
    // the upper segment is full: its last goes to the lower one
    (Step::Put(1), 4, "put 0", [(321, 4)]),
    (Step::Get, 4, "Some(4)", [(432, 1)]),
    // a walk over new keys takes nothing from the upper segment
    (Step::Put(2), 5, "put 0", [(432, 51)]),
    (Step::Make(1), 6, "6 1", [(432, 65)]),
    (Step::Put(3), 7, "put 56", [(432, 7)]),
];

// Steps of two shards, each of 6, of which the upper segment may have 3. Even keys stand in the first.
static TWO: [(Step, u64, &str, [(u64, u64); 2]); 20] = [
    (Step::Put(1), 2, "put 0", [(0, 2), (0, 0)]),
    (Step::Put(1), 1, "put 0", [(0, 2), (0, 1)]),
    (Step::Get, 2, "Some(2)", [(2, 0), (0, 1)]),
    (Step::Look, 1, "Some(1) true", [(2, 0), (0, 1)]),
    (Step::Look, 3, "None false", [(2, 0), (0, 1)]),
    (Step::Put(2), 1, "was 1 0", [(2, 0), (1, 0)]),
    (Step::Put(6), 4, "put 2", [(0, 4), (1, 0)]),
    (Step::Put(7), 4, "TooHeavy 4", [(0, 4), (1, 0)]),
    // heavier than the share, it can't stay in the upper segment
    (Step::Get, 4, "Some(4)", [(0, 4), (1, 0)]),
    (Step::Make(7), 3, "refused", [(0, 4), (1, 0)]),
    (Step::Make(2), 3, "3 0", [(0, 4), (1, 3)]),
    (Step::Put(3), 5, "put 3", [(0, 4), (1, 5)]),
    (Step::Pop(1), 0, "Some(5)", [(0, 4), (1, 0)]),
    (Step::Pop(1), 0, "Some(1)", [(0, 4), (0, 0)]),
    (Step::Pop(1), 0, "None", [(0, 4), (0, 0)]),
    (Step::Remove, 4, "Some(6)", [(0, 0), (0, 0)]),
    (Step::Remove, 4, "None", [(0, 0), (0, 0)]),
    (Step::Put(1), 6, "put 0", [(0, 6), (0, 0)]),
    (Step::Limit(0, 0, 0), 0, "6", [(0, 0), (0, 0)]),
    (Step::Clear(1), 0, "0", [(0, 0), (0, 0)]),
];

#[test]
fn one_shard_is_as_told_by_hand(rt: HostRuntime) -> Result<(), Fail> {
    let alloc = rt.alloc();
    let hashes = FirstByte { byte: 0 };
    let mut cache = Keys::<1>::with_protected_and_hasher(alloc, Limits::of_weight(6), 3, hashes)?;
    for (step, key, answer, left) in &ONE {
        let is_wrong = wrong(alloc, &mut cache, (*step, *key, *answer), left)?;
        assert_eq!(rt; is_wrong.as_str(), "");
    }
    Ok(())
}

#[test]
fn two_shards_are_as_told_by_hand(rt: HostRuntime) -> Result<(), Fail> {
    let alloc = rt.alloc();
    let hashes = FirstByte { byte: 0 };
    let mut cache = Keys::<2>::with_protected_and_hasher(alloc, Limits::of_weight(13), 7, hashes)?;
    for (step, key, answer, left) in &TWO {
        let is_wrong = wrong(alloc, &mut cache, (*step, *key, *answer), left)?;
        assert_eq!(rt; is_wrong.as_str(), "");
    }
    Ok(())
}
