//! Batches of admissions: by one caller as a core admits one after the other, and by two threads with each pair counted.
use crate::admissions::{Tally, rest_of};
use crate::shown::{rows_of, tell_core_state, tell_state};
use lru_cores::lru_core::LruCore;
use lru_shared_order::lru::Lru;
use lru_shared_order::{Admission, Fate};
use rand::rngs::StdRng;
use rand_core::{Rng, SeedableRng};
use std::alloc::{AllocError, Global};
use std::sync::Wait;
use std::test::Fail;
use std::thread;
use std::thread::Threads;

const MOST: usize = 18446744073709551615;

// A batch for two shards, and what becomes of each: a key twice, one that is too heavy, and a weight of 0.
static BATCH: [(u64, u64, usize, &str); 6] = [
    (3, 30, 5, "Admitted(1)"),
    (2, 20, 0, "Admitted(0)"),
    (3, 31, 7, "Admitted(1)"),
    (
        4,
        40,
        MOST,
        "HandedBack(Refused { cause: Weight, held: 40 })",
    ),
    (5, 50, 1, "Admitted(1)"),
    (0, 0, 2, "Admitted(0)"),
];

fn batch_of(alloc: Global) -> Result<Vec<Admission<u64>>, AllocError> {
    let mut batch = Vec::new(alloc);
    for (key, data, weight, _) in &BATCH {
        batch.push(Admission::new(*key, *data, *weight))?;
    }
    Ok(batch)
}

// The faults of the batch's answers and of the rows after it, and after it is asked once more.
fn faults<R: Wait>(rt: &R, alloc: Global) -> Result<String, AllocError> {
    let lru = Lru::<u64, 2>::with_capacity(alloc, 100, 0)?;
    let mut batch = batch_of(alloc)?;
    lru.admit_many(rt, &mut batch);
    // what is answered stays, and puts nothing
    lru.admit_many(rt, &mut batch);
    let mut faults = String::new(alloc);
    for (admission, (key, _, weight, wanted)) in batch.iter().zip(&BATCH) {
        let fate = &admission.fate;
        let text = format!(in alloc; "{fate:?}")?;
        if text.as_str() != *wanted || admission.key != *key || admission.weight != *weight {
            writeln!(faults, "{key} of {weight}: {text}")?;
        }
    }
    let first = rows_of(rt, alloc, &lru, 0)?;
    let second = rows_of(rt, alloc, &lru, 1)?;
    if first.as_slice() != [(0, 2), (20, 1)].as_slice()
        || second.as_slice() != [(50, 1), (31, 7)].as_slice()
    {
        writeln!(faults, "{first:?} {second:?}")?;
    }
    if (lru.len(), lru.weight(), lru.shard_len(0)) != (4, 11, 2) {
        writeln!(faults, "counted otherwise")?;
    }
    Ok(faults)
}

#[test]
fn a_batch_is_answered_in_its_order(rt: HostRuntime) -> Result<(), Fail> {
    assert_eq!(rt; faults(&rt, rt.alloc())?.as_str(), "");
    Ok(())
}

// A drawn batch.
fn drawn(alloc: Global, draws: &mut StdRng) -> Result<Vec<Admission<u64>>, AllocError> {
    let mut batch = Vec::new(alloc);
    for _ in 0..draws.next_u64() % 9 {
        let (key, weight) = (draws.next_u64() % 12, (draws.next_u64() % 6) as usize);
        let weight = if weight == 5 { MOST } else { weight };
        batch.push(Admission::new(key, draws.next_u64(), weight))?;
    }
    Ok(batch)
}

// A drawn batch on an `Lru`: its answers, and the whole state after it.
fn turn<R: Wait>(
    rt: &R,
    alloc: Global,
    lru: &Lru<u64, 3>,
    draws: &mut StdRng,
) -> Result<String, AllocError> {
    let mut batch = drawn(alloc, draws)?;
    lru.admit_many(rt, &mut batch);
    let mut text = format!(in alloc; "{batch:?}")?;
    tell_state(rt, alloc, lru, &mut text)?;
    Ok(text)
}

// The same on a core, one admission after the other.
fn core_turn(
    alloc: Global,
    core: &mut LruCore<u64, 3>,
    draws: &mut StdRng,
) -> Result<String, AllocError> {
    let mut answered = Vec::new(alloc);
    for Admission { key, weight, fate } in drawn(alloc, draws)? {
        let Fate::Waiting(data) = fate else {
            continue;
        };
        let fate = match core.admit(key, data, weight) {
            Ok(shard) => Fate::Admitted(shard),
            Err(refused) => Fate::HandedBack(refused),
        };
        answered.push(Admission { key, weight, fate })?;
    }
    let mut text = format!(in alloc; "{answered:?}")?;
    tell_core_state(alloc, core, &mut text)?;
    Ok(text)
}

// The first seed and turn, if there are such, after which they are not alike.
fn other_turn<R: Wait>(rt: &R, alloc: Global) -> Result<Option<(u64, u32)>, AllocError> {
    for seed in 0..5u64 {
        let mut draws = StdRng::seed_from_u64(seed);
        let mut core_draws = StdRng::seed_from_u64(seed);
        let lru = Lru::<u64, 3>::with_capacity_and_watermark(alloc, 20, 2, Some(6))?;
        let mut core = LruCore::<u64, 3>::with_capacity_and_watermark(alloc, 20, 2, Some(6))?;
        for turn_number in 0..50u32 {
            let text = turn(rt, alloc, &lru, &mut draws)?;
            if text != core_turn(alloc, &mut core, &mut core_draws)? {
                return Ok(Some((seed, turn_number)));
            }
        }
    }
    Ok(None)
}

#[test]
fn a_batch_is_admitted_as_a_core_admits(rt: HostRuntime) -> Result<(), Fail> {
    assert_eq!(rt; other_turn(&rt, rt.alloc())?, None);
    Ok(())
}

// A batch of keys that no other thread has, each with itself as its data. What was put and what was handed back are counted.
fn put_batch<R: Wait>(
    rt: &R,
    lru: &Lru<u64, 4>,
    batch: &mut Vec<Admission<u64>>,
    put: &mut Tally,
) -> usize {
    let mut waiting = 0usize;
    lru.admit_many(rt, batch);
    for admission in batch.iter() {
        match &admission.fate {
            Fate::Admitted(_) => put.count(admission.key, admission.weight),
            Fate::HandedBack(_) => {}
            Fate::Waiting(_) => waiting = waiting.wrapping_add(1),
        }
    }
    batch.clear();
    waiting
}

// Batches, with a removal and evictions between them: what was put, what left, and how many were not answered.
fn work<R: Wait>(
    rt: &R,
    alloc: Global,
    lru: &Lru<u64, 4>,
    thread: u64,
) -> Result<(Tally, Tally, usize), AllocError> {
    let mut draws = StdRng::seed_from_u64(thread);
    let (mut put, mut left) = (Tally::none(), Tally::none());
    let mut waiting = 0usize;
    let mut batch = Vec::with_capacity(alloc, 16)?;
    for turn in 0..5_000u64 {
        // any shard, and a key that was never there
        let key = ((turn << 1) | thread).wrapping_mul(0x9e37_79b9_7f4a_7c15);
        batch.push(Admission::new(key, key, (draws.next_u64() % 9 + 1) as usize))?;
        if draws.next_u64() % 16 > 0 && batch.len() < 16 {
            continue;
        }
        waiting = waiting.wrapping_add(put_batch(rt, lru, &mut batch, &mut put));
        if let Some((data, weight)) = lru.remove(rt, key) {
            left.count(data, weight);
        }
        let Ok(evicted) = lru.evict_to_limit(rt, alloc, &mut draws) else {
            return Err(AllocError);
        };
        for (data, weight) in evicted {
            left.count(data, weight);
        }
    }
    waiting = waiting.wrapping_add(put_batch(rt, lru, &mut batch, &mut put));
    Ok((put, left, waiting))
}

// What is otherwise than it has to be, after two threads admitted batches under a limit of 100 and a watermark of 30.
fn soak_faults<R: Threads + Wait + Sync>(rt: &R, alloc: Global) -> Result<String, AllocError> {
    let lru = Lru::<u64, 4>::with_capacity_and_watermark(alloc, 100, 100, Some(30))?;
    let shared = &lru;
    let (one, two) = thread::join(
        rt,
        move || work(rt, alloc, shared, 0),
        move || work(rt, alloc, shared, 1),
    );
    let (one, two) = (one?, two?);
    let put = one.0.and(two.0);
    let left = one.1.and(two.1);
    let rest = rest_of(rt, &lru);
    let mut faults = String::new(alloc);
    if put != left.and(rest) || put.len != 10_000 {
        writeln!(faults, "{put:?} is not {left:?} and {rest:?}")?;
    }
    if (lru.len(), lru.weight()) != (rest.len, rest.weight) {
        writeln!(faults, "{rest:?} counted otherwise")?;
    }
    if (one.2, two.2) != (0, 0) {
        writeln!(faults, "not answered: {} and {}", one.2, two.2)?;
    }
    Ok(faults)
}

#[test]
fn counts_each_pair_of_batches(rt: HostRuntime) -> Result<(), Fail> {
    assert_eq!(rt; soak_faults(&rt, rt.alloc())?.as_str(), "");
    Ok(())
}
