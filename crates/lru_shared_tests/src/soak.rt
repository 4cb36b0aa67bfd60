//! Four threads put, get and remove: each entry that is put comes out once, or is there at the end.
use lru_shared_cache::shared::SharedCache;
use std::alloc::{AllocError, Global};
use std::sync::Wait;
use std::test::Fail;
use std::thread;
use std::thread::Threads;

// How many calls each thread makes.
const CALLS: u64 = 4000;

// How many keys there are: more than may have entries at once.
const KEYS: u64 = 64;

type Numbers = SharedCache<u64, u64, 4>;

// Entries that went one way: how many, the sum of their values, each of which is put once, and that of their weights.
#[derive(Clone, Copy, Debug, PartialEq, Eq)]
struct Tally {
    count: u64,
    values: u64,
    weights: u64,
}

impl Tally {
    fn none() -> Self {
        Tally {
            count: 0,
            values: 0,
            weights: 0,
        }
    }

    fn add(&mut self, value: u64, weight: usize) {
        self.count = self.count.wrapping_add(1);
        // squared, so that two values are not taken for two others of the same sum
        self.values = self.values.wrapping_add(value.wrapping_mul(value));
        self.weights = self.weights.wrapping_add(weight as u64);
    }

    fn plus(self, other: Tally) -> Tally {
        Tally {
            count: self.count.wrapping_add(other.count),
            values: self.values.wrapping_add(other.values),
            weights: self.weights.wrapping_add(other.weights),
        }
    }
}

// What was put, and what came out.
type Tallies = (Tally, Tally);

fn added(one: Tallies, two: Tallies) -> Tallies {
    (one.0.plus(two.0), one.1.plus(two.1))
}

// Puts an entry, and counts it where it is let in, and what comes out for it.
fn put<R: Wait>(rt: &R, cache: &Numbers, key: u64, value: u64, tallies: &mut Tallies) {
    let weight = (value % 5) as usize;
    let mut gone = Tally::none();
    let answer = cache.put(rt, key, value, weight, |entry| {
        gone.add(entry.value, entry.weight)
    });
    tallies.1 = tallies.1.plus(gone);
    if let Ok(was) = answer {
        tallies.0.add(value, weight);
        if let Some(entry) = was {
            tallies.1.add(entry.value, entry.weight);
        }
    }
}

// Takes a key's entry out, and counts it.
fn take<R: Wait>(rt: &R, cache: &Numbers, key: u64, tallies: &mut Tallies) {
    if let Some(entry) = cache.remove(rt, &key) {
        tallies.1.add(entry.value, entry.weight);
    }
}

// Puts, gets and removes, as drawn from a seed.
fn work<R: Wait>(rt: &R, cache: &Numbers, seed: u64) -> Tallies {
    let mut tallies = (Tally::none(), Tally::none());
    let mut drawn = seed;
    for step in 0..CALLS {
        drawn = drawn
            .wrapping_mul(6364136223846793005)
            .wrapping_add(1442695040888963407);
        let key = (drawn >> 33) % KEYS;
        match (drawn >> 60) % 8 {
            0 => take(rt, cache, key, &mut tallies),
            1 | 2 => drop(cache.get(rt, &key)),
            _ => {
                let value = seed.wrapping_mul(CALLS).wrapping_add(step);
                put(rt, cache, key, value, &mut tallies);
            }
        }
    }
    tallies
}

// What two threads put and what came out meanwhile.
fn two_work<R: Threads + Wait + Sync>(rt: &R, cache: &Numbers, seed: u64) -> Tallies {
    let (one, two) = thread::join(
        rt,
        move || work(rt, cache, seed),
        move || work(rt, cache, seed.wrapping_add(1)),
    );
    added(one, two)
}

// What four threads put and what came out meanwhile.
fn all_work<R: Threads + Wait + Sync>(rt: &R, cache: &Numbers) -> Tallies {
    let (one, two) = thread::join(
        rt,
        move || two_work(rt, cache, 1),
        move || two_work(rt, cache, 3),
    );
    added(one, two)
}

// Whether each entry that was put came out once, and the cache was within its limits and is empty at last.
fn all_come_out<R: Threads + Wait + Sync>(rt: &R, alloc: Global) -> Result<bool, AllocError> {
    let cache = Numbers::new(alloc, 64, 24)?;
    let mut tallies = all_work(rt, &cache);
    let is_within = (cache.len(rt) <= 24) & (cache.weight(rt) <= 64) & (cache.len(rt) != 0);
    for key in 0..KEYS {
        take(rt, &cache, key, &mut tallies);
    }
    let is_empty = (cache.len(rt), cache.weight(rt)) == (0, 0);
    Ok(is_within & is_empty & (tallies.0 == tallies.1) & (tallies.0.count != 0))
}

#[test]
fn each_entry_comes_out_once(rt: HostRuntime) -> Result<(), Fail> {
    assert!(rt; all_come_out(&rt, rt.alloc())?);
    Ok(())
}
