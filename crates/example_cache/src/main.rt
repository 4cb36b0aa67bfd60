//! Example: a cache of keys and values that is there again at the next start.
//!
//! Each line of the input is a request, `KEY SIZE`: a hit where the cache has an entry of the key; else a miss, whose value
//! is made and put with that many bytes, and the entries that were used longest ago go until the budget, the first argument,
//! is kept. At the end the cache is saved as a checkpoint, whole or not at all, and at the start it is loaded from there.
//!
//! Where the newest checkpoint is damaged, a line says so, and the one before is taken. A bad line, or no budget: a line that
//! says which, and status 2. A checkpoint that was not loaded or saved: a line that says why, and status 1.
#![tactic(auto)]

use lru_cache::cache::Cache;
use lru_checkpoints::caches::{CacheSource, restore_shards};
use lru_checkpoints::generations::save;
use lru_checkpoints::host_folder::HostFolder;
use lru_checkpoints::loading::{Loaded, load};
use std::io::ErrorKind;
use std::process::ExitCode;
use std::{env, io};

const FOLDER: &str = ".";

const NAME: &str = "entries";

fn request_of(line: &str) -> Option<(u64, usize)> {
    let (key, size) = line.split_once(' ')?;
    Some((key.parse().ok()?, size.parse().ok()?))
}

/// Puts back what the last run saved, if there was one. Whether that was done.
fn come_back(
    rt: HostRuntime,
    folder: &mut HostFolder<HostRuntime>,
    cache: &mut Cache<u64, u64>,
) -> io::Result<bool> {
    let Loaded { newest, passed } = match load(rt.alloc(), folder, FOLDER, NAME) {
        Ok(loaded) => loaded,
        Err(error) => {
            println!(rt; "not loaded: {error}")?;
            return Ok(false);
        }
    };
    for it in &passed {
        println!(rt; "passed over generation {}: {}", it.generation, it.error)?;
    }
    let Some(checkpoint) = newest else {
        return Ok(true);
    };
    // Under a smaller budget than the last run's, the entries that were used longest ago go, or one is too heavy.
    if let Err(refused) = restore_shards(cache, checkpoint.shards) {
        println!(rt; "not put back: {}", refused.cause)?;
        return Ok(false);
    }
    Ok(true)
}

/// Saves the entries, the one that was used last first: put back, they stand as they stood.
fn keep(
    rt: HostRuntime,
    folder: &mut HostFolder<HostRuntime>,
    cache: &Cache<u64, u64>,
) -> io::Result<ExitCode> {
    match save(rt.alloc(), folder, FOLDER, NAME, &CacheSource { cache }) {
        Ok(saved) => println!(rt; "saved as generation {}", saved.generation)?,
        Err(error) => {
            println!(rt; "not saved: {error}")?;
            return Ok(ExitCode::from(1));
        }
    }
    Ok(ExitCode::SUCCESS)
}

/// Answers a request. Whether it was a hit.
fn ask(rt: HostRuntime, cache: &mut Cache<u64, u64>, key: u64, size: usize) -> io::Result<bool> {
    if let Some(value) = cache.update(&key, |value, _bytes| *value) {
        println!(rt; "{key}: hit, {value}")?;
        return Ok(true);
    }
    // (what stands for the work that a miss costs)
    let value = key.rotate_left(7);
    match cache.put(key, value, size, |_gone| {}) {
        Ok(_) => println!(rt; "{key}: miss, {value}")?,
        Err(refused) => println!(rt; "{key}: miss, {value}, not kept: {}", refused.cause)?,
    }
    Ok(false)
}

/// Answers the requests of the input, and says how many were hits. Whether each line was a request: the first that is none ends
/// it, with a line that says so.
fn serve(rt: HostRuntime, cache: &mut Cache<u64, u64>) -> io::Result<bool> {
    let (mut hits, mut misses) = (0u64, 0u64);
    for line in rt.lines(rt.alloc()) {
        let request = match line {
            Err(error) if error.kind() != ErrorKind::InvalidData => return Err(error),
            line => line.ok().and_then(|line| request_of(&line)),
        };
        let Some((key, size)) = request else {
            println!(rt; "error: not a request")?;
            return Ok(false);
        };
        let is_hit = ask(rt, cache, key, size)?;
        hits = hits.saturating_add(is_hit as u64);
        misses = misses.saturating_add(!is_hit as u64);
    }
    println!(rt; "{hits} hits, {misses} misses, {} bytes", cache.weight())?;
    Ok(true)
}

fn main(rt: HostRuntime) -> io::Result<ExitCode> {
    let mut words = env::args(&rt)?.skip(1);
    let Some(budget) = words.next().and_then(|word| word.parse().ok()) else {
        println!(rt; "usage: example_cache BUDGET")?;
        return Ok(ExitCode::from(2));
    };
    let mut folder = HostFolder::new(rt);
    let mut cache = Cache::new(rt.alloc(), budget, usize::MAX)?;
    if !come_back(rt, &mut folder, &mut cache)? {
        return Ok(ExitCode::from(1));
    }
    println!(rt; "{} entries are here", cache.len())?;
    if !serve(rt, &mut cache)? {
        return Ok(ExitCode::from(2));
    }
    keep(rt, &mut folder, &cache)
}
