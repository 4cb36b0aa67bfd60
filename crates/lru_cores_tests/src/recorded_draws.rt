//! Evictions of two shards, beside those of a core with the same draws; what is left without the seats; and a refused
//! increment.
ghost use Rattle.std.specs.Prelude.{◌≡◌};

use lru_cores::lru_core::LruCore;
use lru_recording::entry::Names;
use lru_recording::recorded::RecordedLru;
use lru_recording::tie::{Blank, Registry};
use lru_shard::totals::{Totals, Units};
use lru_shard::unit::{Cause, LruUnit};
use rand::rngs::StdRng;
use rand_core::SeedableRng;
use std::alloc::{AllocError, Global};
use std::marker::Brand;
use std::sync::Wait;
use std::test::Fail;

// Rows as data, which is the key, and weight: 12 of shard 0 and 4 of shard 1, of weight 84 in all.
const ROWS: [(u64, usize); 16] = [
    (0, 1),
    (2, 2),
    (4, 3),
    (6, 4),
    (8, 5),
    (10, 6),
    (12, 7),
    (14, 8),
    (16, 9),
    (18, 10),
    (20, 11),
    (22, 12),
    (1, 2),
    (3, 1),
    (5, 2),
    (7, 1),
];

// Limits on the weight and on the length; at the first nothing leaves, and at the last two the shard that was shorter becomes the
// longer one.
const LIMITS: [(usize, Option<usize>); 6] = [
    (84, Some(16)),
    (83, None),
    (40, None),
    (84, Some(7)),
    (12, None),
    (84, Some(3)),
];

// What an order of two shards evicts, whether each row was let in, and what it leaves.
type Trial = (Vec<(u64, usize)>, bool, Units<u64>);

fn evict_two<B: Registry, R: Wait>(
    rt: &R,
    alloc: Global,
    blank: Blank,
    limits: (usize, Option<usize>),
    seed: u64,
) -> Result<Trial, AllocError>
    requires blank { (blank.tie.table.shared.table_id ≡ B.table) × (blank.tie.table.shared.key ≡ record { shards = 2; seats = 1 }) }
    requires callers { B.seats ≡ 1 }
{
    let (lru, mut seats) = RecordedLru::<u64, B, 2>::new(alloc, blank, limits.0, 16, limits.1, 1)?;
    let mut draws = StdRng::seed_from_u64(seed);
    let mut evicted = Vec::new(alloc);
    let mut are_in = true;
    for seat in seats.iter_mut() {
        for (key, weight) in &ROWS {
            let shard = lru.admit(rt, seat, *key, *key, *weight);
            are_in &= matches!(shard, Ok(shard) if shard as u64 == *key % 2);
        }
        evicted = match lru.evict_to_limit(rt, alloc, seat, &mut draws) {
            Ok(pairs) => pairs,
            Err(_) => return Err(AllocError),
        };
    }
    Ok((evicted, are_in, lru.into_units()))
}

fn evicted_of_two<R: Wait>(
    rt: &R,
    alloc: Global,
    limits: (usize, Option<usize>),
    seed: u64,
) -> Result<Trial, AllocError> {
    let blank = Blank::new(
        alloc,
        Names {
            shards: 2,
            seats: 1,
        },
    )?;
    evict_two::<Brand, _>(rt, alloc, blank, limits, seed)
}

fn core_evicts(
    alloc: Global,
    limits: (usize, Option<usize>),
    seed: u64,
) -> Result<Vec<(u64, usize)>, AllocError> {
    let mut core = LruCore::<u64, 2>::with_capacity_and_watermark(alloc, limits.0, 16, limits.1)?;
    for (key, weight) in &ROWS {
        let _ = core.admit(*key, *key, *weight);
    }
    match core.evict_to_limit(alloc, &mut StdRng::seed_from_u64(seed)) {
        Ok(pairs) => Ok(pairs),
        Err(_) => Err(AllocError),
    }
}

fn totals_of(units: &Vec<LruUnit<u64>>) -> Totals {
    let mut sums = Totals { weight: 0, len: 0 };
    for unit in units {
        sums.weight = sums.weight.saturating_add(unit.used_weight());
        sums.len = sums.len.saturating_add(unit.len());
    }
    sums
}

#[test]
fn evicts_from_the_longer_shard(rt: HostRuntime) -> Result<(), Fail> {
    let alloc: Global = rt.alloc();
    for limits in &LIMITS {
        for seed in 0..6u64 {
            let (evicted, are_in, left) = evicted_of_two(&rt, alloc, *limits, seed)?;
            let wanted = core_evicts(alloc, *limits, seed)?;
            assert!(rt; are_in);
            assert_eq!(rt; evicted.as_slice(), wanted.as_slice());
            assert_eq!(rt; left.totals, totals_of(&left.units));
        }
    }
    Ok(())
}

#[test]
fn stays_at_its_limits(rt: HostRuntime) -> Result<(), Fail> {
    let (evicted, _, left) = evicted_of_two(&rt, rt.alloc(), (84, Some(16)), 1)?;
    assert_eq!(rt;
        (evicted.len(), left.totals),
        (
            0,
            Totals {
                weight: 84,
                len: 16
            }
        )
    );
    Ok(())
}

// What a removal takes from an order of a weight above its limit by that of the row, how many rows an eviction then takes, and
// what is left.
fn remove_and_evict<B: Registry, R: Wait>(
    rt: &R,
    alloc: Global,
    blank: Blank,
) -> Result<(Option<(u64, usize)>, usize, Units<u64>), AllocError>
    requires blank { (blank.tie.table.shared.table_id ≡ B.table) × (blank.tie.table.shared.key ≡ record { shards = 2; seats = 1 }) }
    requires callers { B.seats ≡ 1 }
{
    let (lru, mut seats) = RecordedLru::<u64, B, 2>::new(alloc, blank, 72, 16, None, 1)?;
    let mut draws = StdRng::seed_from_u64(1);
    let mut removed = None;
    let mut evicted = 0;
    for seat in seats.iter_mut() {
        for (key, weight) in &ROWS {
            let _ = lru.admit(rt, seat, *key, *key, *weight);
        }
        removed = lru.remove(rt, seat, 22)?;
        evicted = match lru.evict_to_limit(rt, alloc, seat, &mut draws) {
            Ok(pairs) => pairs.len(),
            Err(_) => return Err(AllocError),
        };
    }
    Ok((removed, evicted, lru.into_units()))
}

// How many rows leave an order of two shards under this limit, of which one is as heavy as it may be and the other weighs 10.
fn evict_of_heavy<B: Registry, R: Wait>(
    rt: &R,
    alloc: Global,
    blank: Blank,
    limit: usize,
) -> Result<usize, AllocError>
    requires blank { (blank.tie.table.shared.table_id ≡ B.table) × (blank.tie.table.shared.key ≡ record { shards = 2; seats = 1 }) }
    requires callers { B.seats ≡ 1 }
{
    let (lru, mut seats) = RecordedLru::<u64, B, 2>::new(alloc, blank, limit, 2, None, 1)?;
    let mut evicted = 0;
    for seat in seats.iter_mut() {
        let _ = lru.admit(rt, seat, 0, 0, usize::MAX / 2);
        let _ = lru.admit(rt, seat, 1, 1, 10);
        evicted = match lru.evict_to_limit(rt, alloc, seat, &mut StdRng::seed_from_u64(1)) {
            Ok(pairs) => pairs.len(),
            Err(_) => return Err(AllocError),
        };
    }
    Ok(evicted)
}

// How many of ten rows of weight 0 leave an order of two shards under a limit on the weight alone.
fn evict_of_weightless<B: Registry, R: Wait>(
    rt: &R,
    alloc: Global,
    blank: Blank,
) -> Result<(usize, Units<u64>), AllocError>
    requires blank { (blank.tie.table.shared.table_id ≡ B.table) × (blank.tie.table.shared.key ≡ record { shards = 2; seats = 1 }) }
    requires callers { B.seats ≡ 1 }
{
    let (lru, mut seats) = RecordedLru::<u64, B, 2>::new(alloc, blank, 3, 10, None, 1)?;
    let mut evicted = 0;
    for seat in seats.iter_mut() {
        for key in 0..10u64 {
            let _ = lru.insert_tail(rt, seat, key, key, 0);
        }
        evicted = match lru.evict_to_limit(rt, alloc, seat, &mut StdRng::seed_from_u64(1)) {
            Ok(pairs) => pairs.len(),
            Err(_) => return Err(AllocError),
        };
    }
    Ok((evicted, lru.into_units()))
}

fn evicted_of_weightless<R: Wait>(
    rt: &R,
    alloc: Global,
) -> Result<(usize, Units<u64>), AllocError> {
    let blank = Blank::new(
        alloc,
        Names {
            shards: 2,
            seats: 1,
        },
    )?;
    evict_of_weightless::<Brand, _>(rt, alloc, blank)
}

#[test]
fn rows_of_weight_0_are_not_too_many(rt: HostRuntime) -> Result<(), Fail> {
    let (evicted, left) = evicted_of_weightless(&rt, rt.alloc())?;
    assert_eq!(rt; (evicted, left.totals), (0, Totals { weight: 0, len: 10 }));
    Ok(())
}

fn evicted_of_heavy<R: Wait>(rt: &R, alloc: Global, limit: usize) -> Result<usize, AllocError> {
    let blank = Blank::new(
        alloc,
        Names {
            shards: 2,
            seats: 1,
        },
    )?;
    evict_of_heavy::<Brand, _>(rt, alloc, blank, limit)
}

#[test]
fn a_limit_is_that_of_all_shards(rt: HostRuntime) -> Result<(), Fail> {
    let alloc: Global = rt.alloc();
    assert_eq!(rt; evicted_of_heavy(&rt, alloc, usize::MAX)?, 0);
    assert_eq!(rt; evicted_of_heavy(&rt, alloc, usize::MAX / 2 + 10)?, 0);
    assert!(rt; evicted_of_heavy(&rt, alloc, usize::MAX / 2 + 9)? > 0);
    Ok(())
}

fn removed_of_two<R: Wait>(
    rt: &R,
    alloc: Global,
) -> Result<(Option<(u64, usize)>, usize, Units<u64>), AllocError> {
    let blank = Blank::new(
        alloc,
        Names {
            shards: 2,
            seats: 1,
        },
    )?;
    remove_and_evict::<Brand, _>(rt, alloc, blank)
}

#[test]
fn what_is_removed_weighs_no_more(rt: HostRuntime) -> Result<(), Fail> {
    let (removed, evicted, left) = removed_of_two(&rt, rt.alloc())?;
    assert_eq!(rt;
        (removed, evicted, left.totals),
        (
            Some((22, 12)),
            0,
            Totals {
                weight: 72,
                len: 15
            }
        )
    );
    Ok(())
}

// Whether an increment that a shard as heavy as it may be refuses made its data; nothing, where it is not refused.
fn makes_data<B: Registry, R: Wait>(
    rt: &R,
    alloc: Global,
    blank: Blank,
) -> Result<Option<bool>, AllocError>
    requires blank { (blank.tie.table.shared.table_id ≡ B.table) × (blank.tie.table.shared.key ≡ record { shards = 2; seats = 1 }) }
    requires callers { B.seats ≡ 1 }
{
    let (lru, mut seats) = RecordedLru::<u64, B, 2>::new(alloc, blank, 1, 2, None, 1)?;
    let mut made = None;
    for seat in seats.iter_mut() {
        let _ = lru.admit(rt, seat, 0, 0, usize::MAX / 2);
        let mut is_made = false;
        let admit_data = || {
            is_made = true;
            2
        };
        let answer = lru.increment_weight(rt, seat, 2, admit_data, 1, None);
        made = matches!(answer, Err(Cause::Weight)).then_some(is_made);
    }
    Ok(made)
}

fn made_of_two<R: Wait>(rt: &R, alloc: Global) -> Result<Option<bool>, AllocError> {
    let blank = Blank::new(
        alloc,
        Names {
            shards: 2,
            seats: 1,
        },
    )?;
    makes_data::<Brand, _>(rt, alloc, blank)
}

#[test]
fn a_refused_increment_makes_no_data(rt: HostRuntime) -> Result<(), Fail> {
    assert_eq!(rt; made_of_two(&rt, rt.alloc())?, Some(false));
    Ok(())
}
