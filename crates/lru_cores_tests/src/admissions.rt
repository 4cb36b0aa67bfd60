//! Admissions that evict: by one caller as a core does them, and by two threads with each pair counted.
use crate::shown::{tell_core_state, tell_state, text_of};
use lru_cores::lru_core::LruCore;
use lru_shard::unit::{Cause, Refused};
use lru_shared_order::lru::Lru;
use rand::rngs::StdRng;
use rand_core::{Rng, SeedableRng};
use std::alloc::{AllocError, Global};
use std::sync::Wait;
use std::test::Fail;
use std::thread;
use std::thread::Threads;

const MOST: usize = 18446744073709551615;

// What each admission answers, and the pairs that leave, with two shards and a limit of 5.
static ADMISSIONS: [(u64, usize, &str); 7] = [
    (0, 2, "Ok(0) []"),
    (1, 2, "Ok(1) []"),
    // its own shard's last row leaves, though another's was used longer ago
    (3, 2, "Ok(1) [(1, 2)]"),
    // no row of its own shard is left but itself: the other's
    (5, 4, "Ok(1) [(3, 2), (0, 2)]"),
    // what it replaces counts no more
    (5, 5, "Ok(1) []"),
    // too heavy by itself: it leaves after the last other row
    (2, 6, "Ok(0) [(5, 5), (2, 6)]"),
    (4, MOST, "Err((Weight, 4)) []"),
];

fn parts(refused: Refused<u64>) -> (Cause, u64) {
    (refused.cause, refused.held)
}

// An admission: what it answers, and the pairs that leave.
fn text_of_admission<R: Wait>(
    rt: &R,
    alloc: Global,
    lru: &Lru<u64, 2>,
    key: u64,
    weight: usize,
) -> Result<String, AllocError> {
    let mut evicted = Vec::new(alloc);
    let answer = lru
        .admit_and_evict(rt, key, key, weight, |pair| {
            let _ = evicted.push(pair);
        })
        .map_err(parts);
    format!(in alloc; "{answer:?} {evicted:?}")
}

// The faults of these admissions, done in turn, and of the counters after them.
fn faults<R: Wait>(rt: &R, alloc: Global) -> Result<String, AllocError> {
    let lru = Lru::<u64, 2>::with_capacity(alloc, 5, 0)?;
    let mut faults = String::new(alloc);
    for (key, weight, wanted) in &ADMISSIONS {
        let text = text_of_admission(rt, alloc, &lru, *key, *weight)?;
        if text.as_str() != *wanted {
            writeln!(faults, "{key} of {weight}: {text}")?;
        }
    }
    let counters = [
        lru.weight(),
        lru.len(),
        lru.evicted_weight(),
        lru.evicted_len(),
    ];
    if counters != [0, 0, 17, 5] {
        write!(faults, "{counters:?}")?;
    }
    Ok(faults)
}

#[test]
fn admits_and_evicts(rt: HostRuntime) -> Result<(), Fail> {
    assert_eq!(rt; faults(&rt, rt.alloc())?.as_str(), "");
    Ok(())
}

// A drawn admission on an `Lru`: what it answers, which pairs leave, and the whole state after it.
fn turn<R: Wait>(
    rt: &R,
    alloc: Global,
    lru: &Lru<u64, 3>,
    draws: &mut StdRng,
) -> Result<String, AllocError> {
    let (key, weight) = (draws.next_u64() % 12, (draws.next_u64() % 6) as usize);
    let mut evicted = Vec::new(alloc);
    let answer = lru.admit_and_evict(rt, key, key, weight, |pair| {
        let _ = evicted.push(pair);
    });
    let mut text = text_of(alloc, answer)?;
    text.push_str(text_of(alloc, evicted)?.as_str())?;
    tell_state(rt, alloc, lru, &mut text)?;
    Ok(text)
}

// The same on a core.
fn core_turn(
    alloc: Global,
    core: &mut LruCore<u64, 3>,
    draws: &mut StdRng,
) -> Result<String, AllocError> {
    let (key, weight) = (draws.next_u64() % 12, (draws.next_u64() % 6) as usize);
    let mut evicted = Vec::new(alloc);
    let answer = core.admit_and_evict(key, key, weight, |pair| {
        let _ = evicted.push(pair);
    });
    let mut text = text_of(alloc, answer)?;
    text.push_str(text_of(alloc, evicted)?.as_str())?;
    tell_core_state(alloc, core, &mut text)?;
    Ok(text)
}

// The first turn, if there is one, after which they are not alike.
fn other_turn<R: Wait>(rt: &R, alloc: Global, seed: u64) -> Result<Option<u32>, AllocError> {
    let mut draws = StdRng::seed_from_u64(seed);
    let mut core_draws = StdRng::seed_from_u64(seed);
    let lru = Lru::<u64, 3>::with_capacity_and_watermark(alloc, 20, 2, Some(6))?;
    let mut core = LruCore::<u64, 3>::with_capacity_and_watermark(alloc, 20, 2, Some(6))?;
    for turn_number in 0..500u32 {
        let text = turn(rt, alloc, &lru, &mut draws)?;
        if text != core_turn(alloc, &mut core, &mut core_draws)? {
            return Ok(Some(turn_number));
        }
    }
    Ok(None)
}

// The first seed and turn, if there are such, after which they are not alike.
fn other_admission<R: Wait>(rt: &R, alloc: Global) -> Result<Option<(u64, u32)>, AllocError> {
    for seed in 0..20u64 {
        if let Some(turn) = other_turn(rt, alloc, seed)? {
            return Ok(Some((seed, turn)));
        }
    }
    Ok(None)
}

#[test]
fn admits_and_evicts_as_a_core(rt: HostRuntime) -> Result<(), Fail> {
    assert_eq!(rt; other_admission(&rt, rt.alloc())?, None);
    Ok(())
}

/// Rows that came or went: how many, their weight, and the sum of their data, each of which is another.
#[derive(Clone, Copy, Debug, Drop, PartialEq)]
pub struct Tally {
    /// How many.
    pub len: usize,
    /// Their weight.
    pub weight: usize,
    /// The sum of their data.
    pub data: u64,
}

impl Tally {
    /// None.
    pub fn none() -> Self {
        Tally {
            len: 0,
            weight: 0,
            data: 0,
        }
    }

    /// One more.
    pub fn count(&mut self, data: u64, weight: usize) {
        self.len = self.len.wrapping_add(1);
        self.weight = self.weight.wrapping_add(weight);
        self.data = self.data.wrapping_add(data);
    }

    /// Those and these.
    pub fn and(self, other: Tally) -> Tally {
        Tally {
            len: self.len.wrapping_add(other.len),
            weight: self.weight.wrapping_add(other.weight),
            data: self.data.wrapping_add(other.data),
        }
    }
}

// What one thread put, and what left by its calls.
type Shift = (Tally, Tally);

// So many admissions of keys that no other thread has, each with itself as its data.
fn work<R: Wait>(rt: &R, lru: &Lru<u64, 4>, thread: u64) -> Shift {
    let mut draws = StdRng::seed_from_u64(thread);
    let mut put = Tally::none();
    let mut left = Tally::none();
    for turn in 0..20_000u64 {
        // any shard, and a key that was never there
        let key = ((turn << 1) | thread).wrapping_mul(0x9e37_79b9_7f4a_7c15);
        let weight = (draws.next_u64() % 9 + 1) as usize;
        let answer = lru.admit_and_evict(rt, key, key, weight, |(data, weight)| {
            left.count(data, weight);
        });
        if answer.is_ok() {
            put.count(key, weight);
        }
    }
    (put, left)
}

/// What is left of it.
pub fn rest_of<R: Wait>(rt: &R, lru: &Lru<u64, 4>) -> Tally {
    let mut rest = Tally::none();
    for shard in 0..4usize {
        lru.iter_for_each(rt, shard, |(data, weight)| rest.count(*data, weight));
    }
    rest
}

// What is otherwise than it has to be, after two threads admitted under a limit of 100 and a watermark of 30.
fn soak_faults<R: Threads + Wait + Sync>(rt: &R, alloc: Global) -> Result<String, AllocError> {
    let lru = Lru::<u64, 4>::with_capacity_and_watermark(alloc, 100, 100, Some(30))?;
    let shared = &lru;
    let (one, two) = thread::join(rt, move || work(rt, shared, 0), move || work(rt, shared, 1));
    let put = one.0.and(two.0);
    let left = one.1.and(two.1);
    let rest = rest_of(rt, &lru);
    let mut faults = String::new(alloc);
    if put != left.and(rest) || put.len != 40_000 {
        writeln!(faults, "{put:?} is not {left:?} and {rest:?}")?;
    }
    if (lru.len(), lru.weight()) != (rest.len, rest.weight) {
        writeln!(faults, "{rest:?} counted otherwise")?;
    }
    if (lru.evicted_len(), lru.evicted_weight()) != (left.len, left.weight) {
        writeln!(faults, "{left:?} counted otherwise")?;
    }
    if rest.weight > 100 || rest.len > 30 || rest.len < 4 {
        writeln!(faults, "{rest:?} past a limit, or too few")?;
    }
    Ok(faults)
}

#[test]
fn counts_each_pair_of_two_threads(rt: HostRuntime) -> Result<(), Fail> {
    assert_eq!(rt; soak_faults(&rt, rt.alloc())?.as_str(), "");
    Ok(())
}
