//! Evictions of two shards: how many rows leave, and how the draws spread them.
use lru_cores::lru_core::LruCore;
use rand::rngs::StdRng;
use rand_core::SeedableRng;
use std::alloc::Global;
use std::test::Fail;

// Of six rows of weight 0: whether all were new, their number and weight, how many a watermark evicts, and how many it
// leaves.
fn evicted_above(alloc: Global, watermark: usize) -> Result<(bool, [usize; 4]), Fail> {
    let mut rng = StdRng::seed_from_u64(1);
    let mut core = LruCore::<u64, 2>::with_capacity_and_watermark(alloc, 100, 0, Some(watermark))?;
    let mut are_new = true;
    for key in 0..=5 {
        are_new = core.insert_tail(key, key, 0)? && are_new;
    }
    let (len, weight) = (core.len(), core.weight());
    let evicted = core.evict_to_limit(alloc, &mut rng)?.len();
    Ok((are_new, [len, weight, evicted, core.len()]))
}

// What leaves six rows of the weights 1 to 6 in one shard, whose hashes have a seed, under a limit of 10, and the weight that
// stays.
fn handed_over(alloc: Global) -> Result<(Vec<u64>, usize), Fail> {
    let mut core = LruCore::<u64, 1>::with_capacity_and_seed(alloc, 10, 6, None, 7)?;
    for key in 1..=6 {
        core.admit(key, key, key as usize)?;
    }
    let mut left = Vec::with_capacity(alloc, 6)?;
    core.evict_with(&mut StdRng::seed_from_u64(1), |pair| {
        let _refused = left.push(pair.0);
    });
    Ok((left, core.weight()))
}

// The weights 5 and 6 are 11 together, so that 5 leaves too.
#[test]
fn hands_over_what_leaves(rt: HostRuntime) -> Result<(), Fail> {
    let (left, weight) = handed_over(rt.alloc())?;
    assert_eq!(rt; (left.as_slice(), weight), ([1, 2, 3, 4, 5].as_slice(), 6));
    Ok(())
}

#[test]
fn evicts_above_a_watermark(rt: HostRuntime) -> Result<(), Fail> {
    assert_eq!(rt;
        [evicted_above(rt.alloc(), 2)?, evicted_above(rt.alloc(), 0)?],
        [(true, [6, 0, 4, 2]), (true, [6, 0, 6, 0])]
    );
    Ok(())
}

// What a core of 50 even keys and 10 odd ones evicts under a limit of 30; nothing, where an answer is otherwise.
fn spread(alloc: Global, seed: u64) -> Result<Vec<(u64, usize)>, Fail> {
    let mut rng = StdRng::seed_from_u64(seed);
    let mut core = LruCore::<u64, 2>::with_capacity(alloc, 30, 0)?;
    for half in 0..50u64 {
        if core.admit(half * 2, half * 2, 1)? != 0 {
            return Ok(Vec::new(alloc));
        }
    }
    for half in 0..10u64 {
        if core.admit(half * 2 + 1, half * 2 + 1, 1)? != 1 {
            return Ok(Vec::new(alloc));
        }
    }
    Ok(core.evict_to_limit(alloc, &mut rng)?)
}

// Whether each of 50 seeds evicts 30 rows, how many of all these have even keys, and whether they differ.
fn spreads(alloc: Global) -> Result<(bool, usize, bool), Fail> {
    let first = spread(alloc, 0)?;
    let mut are_as_many = true;
    let mut even = 0usize;
    let mut differ = false;
    for seed in 0..50 {
        let evicted = spread(alloc, seed)?;
        are_as_many = are_as_many && evicted.len() == 30;
        even = even.saturating_add(evicted.iter().filter(|pair| pair.0 % 2 == 0).count());
        differ = differ || evicted.as_slice() != first.as_slice();
    }
    Ok((are_as_many, even, differ))
}

#[test]
fn spreads_its_evictions(rt: HostRuntime) -> Result<(), Fail> {
    let (are_as_many, even, differ) = spreads(rt.alloc())?;
    assert!(rt;
        are_as_many && differ && 1050 <= even && even <= 1425,
        "30 of each: {are_as_many}; {even} are even; they differ: {differ}"
    );
    Ok(())
}
