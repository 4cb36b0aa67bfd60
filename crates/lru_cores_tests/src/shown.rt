//! What an `Lru` and a core show of their rows and counters.
ghost use Rattle.std.specs.Prelude.{◌<◌};

use lru_cores::lru_core::LruCore;
use lru_shared_order::lru::Lru;
use std::alloc::{AllocError, Global};
use std::fmt::Debug;
use std::sync::Wait;

// The data and the weights of a shard, most recent first.
pub fn rows_of<R: Wait, const N: usize>(
    rt: &R,
    alloc: Global,
    lru: &Lru<u64, N>,
    shard: usize,
) -> Result<Vec<(u64, usize)>, AllocError>
    requires { shard < N }
{
    let mut rows = Vec::with_capacity(alloc, lru.shard_len(shard))?;
    lru.iter_for_each(rt, shard, |(value, weight)| {
        let _ = rows.push((*value, weight));
    });
    Ok(rows)
}

fn core_rows_of<const N: usize>(
    alloc: Global,
    core: &LruCore<u64, N>,
    shard: usize,
) -> Result<Vec<(u64, usize)>, AllocError>
    requires { shard < N }
{
    let mut rows = Vec::with_capacity(alloc, core.shard_len(shard))?;
    core.iter_for_each(shard, |(value, weight)| {
        let _ = rows.push((*value, weight));
    });
    Ok(rows)
}

// An answer as its text.
pub fn text_of<A: Debug + Drop>(alloc: Global, answer: A) -> Result<String, AllocError> {
    format!(in alloc; "{answer:?}")
}

// The counters, and then the rows of each shard with its length and its weight.
pub fn tell_state<R: Wait, const N: usize>(
    rt: &R,
    alloc: Global,
    lru: &Lru<u64, N>,
    text: &mut String,
) -> Result<(), AllocError> {
    let counters = [
        lru.weight(),
        lru.len(),
        lru.weight_limit(),
        lru.evicted_weight(),
        lru.evicted_len(),
    ];
    write!(text, "{counters:?}")?;
    for shard in 0..lru.shards() {
        let sizes = (lru.shard_len(shard), lru.shard_weight(rt, shard));
        let rows = rows_of(rt, alloc, lru, shard)?;
        write!(text, "{rows:?}{sizes:?}")?;
    }
    Ok(())
}

pub fn tell_core_state<const N: usize>(
    alloc: Global,
    core: &LruCore<u64, N>,
    text: &mut String,
) -> Result<(), AllocError> {
    let counters = [
        core.weight(),
        core.len(),
        core.weight_limit(),
        core.evicted_weight(),
        core.evicted_len(),
    ];
    write!(text, "{counters:?}")?;
    for shard in 0..core.shards() {
        let sizes = (core.shard_len(shard), core.shard_weight(shard));
        let rows = core_rows_of(alloc, core, shard)?;
        write!(text, "{rows:?}{sizes:?}")?;
    }
    Ok(())
}
