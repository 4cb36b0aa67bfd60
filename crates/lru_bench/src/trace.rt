//! Seeded traces of keys, by the generator of the harness in `bench/`.

ghost use Rattle.std.specs.Prelude.{◌<◌};

use rand_core::{Rng, SeedableRng};
use rand_xoshiro::SplitMix64;
use std::alloc::{AllocError, Global};

/// `count` keys below `keys`, each as often, the same for the same seed.
pub fn uniform_keys(
    alloc: Global,
    seed: u64,
    keys: u32,
    count: usize,
) -> Result<Vec<u64>, AllocError>
    requires { 0 < keys }
{
    let mut draws = SplitMix64::seed_from_u64(seed);
    let mut trace = Vec::with_capacity(alloc, count)?;
    for _ in 0..count {
        trace.push(draws.next_u64() % keys as u64)?;
    }
    Ok(trace)
}

/// The keys of a trial that the harness makes too, for its peers.
#[derive(Drop)]
pub struct Keys {
    /// Those of the rows, as many for each shard.
    pub rows: Vec<u64>,
    /// Some of those, each drawn as often.
    pub drawn: Vec<u64>,
    /// Those of rows that are new.
    pub new: Vec<u64>,
}

impl Keys {
    /// Keys for so many rows and so many calls.
    pub fn draw(alloc: Global, rows: usize, calls: usize) -> Result<Self, AllocError> {
        let mut draws = SplitMix64::seed_from_u64(11);
        let rows = keys_of_rows(alloc, &mut draws, rows)?;
        let drawn = drawn_keys(alloc, &mut draws, &rows, calls)?;
        let new = new_keys(alloc, &mut draws, calls)?;
        Ok(Keys { rows, drawn, new })
    }
}

fn keys_of_rows(
    alloc: Global,
    draws: &mut SplitMix64,
    rows: usize,
) -> Result<Vec<u64>, AllocError> {
    let mut keys = Vec::with_capacity(alloc, rows)?;
    for place in 0..rows {
        keys.push(draws.next_u64() & !15 | place as u64 & 15)?;
    }
    Ok(keys)
}

fn drawn_keys(
    alloc: Global,
    draws: &mut SplitMix64,
    rows: &[u64],
    calls: usize,
) -> Result<Vec<u64>, AllocError> {
    let mut keys = Vec::with_capacity(alloc, calls)?;
    for _ in 0..calls {
        let place = draws.next_u64() % rows.len().max(1) as u64;
        if let Some(key) = rows.get(place as usize) {
            keys.push(*key)?;
        }
    }
    Ok(keys)
}

fn new_keys(alloc: Global, draws: &mut SplitMix64, calls: usize) -> Result<Vec<u64>, AllocError> {
    let mut keys = Vec::with_capacity(alloc, calls)?;
    for _ in 0..calls {
        keys.push(draws.next_u64())?;
    }
    Ok(keys)
}
