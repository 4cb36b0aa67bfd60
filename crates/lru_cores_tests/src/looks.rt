//! What a core shows of its shards and limits.
ghost use Rattle.std.specs.Prelude.{◌<◌};

use lru_cores::lru_core::LruCore;
use std::alloc::{AllocError, Global};
use std::test::Fail;

const MOST: usize = 18446744073709551615;

fn counters<const N: usize>(core: &LruCore<u64, N>) -> [usize; 6] {
    [
        core.shards(),
        core.weight_limit(),
        core.len(),
        core.weight(),
        core.evicted_len(),
        core.evicted_weight(),
    ]
}

// The length and the weight of a shard, and the rows that a closure is called with.
fn seen<const N: usize>(
    alloc: Global,
    core: &LruCore<u64, N>,
    shard: usize,
) -> Result<String, AllocError>
    requires { shard < N }
{
    let mut rows = Vec::with_capacity(alloc, 9)?;
    core.iter_for_each(shard, |(data, weight)| {
        let _ = rows.push((*data, weight));
    });
    let (len, weight) = (core.shard_len(shard), core.shard_weight(shard));
    format!(in alloc; "{len} {weight} {rows:?}")
}

// A core with room made for it, before and after three rows.
fn shows(alloc: Global) -> Result<String, Fail> {
    let mut core = LruCore::<u64, 2>::with_capacity(alloc, 10, 3)?;
    let room = (core.reserve_shard(0, 100), core.reserve_shard(2, MOST));
    let empty = counters(&core);
    let shards = (
        core.admit(0, 0, 2)?,
        core.admit(1, 10, 3)?,
        core.admit(2, 20, 0)?,
    );
    let full = counters(&core);
    let (even, odd) = (seen(alloc, &core, 0)?, seen(alloc, &core, 1)?);
    Ok(format!(in alloc; "{room:?} {empty:?} {shards:?} {full:?} {even} {odd}")?)
}

#[test]
fn shows_its_shards(rt: HostRuntime) -> Result<(), Fail> {
    assert_eq!(rt;
        shows(rt.alloc())?.as_str(),
        "(Ok(()), Ok(())) [2, 10, 0, 0, 0, 0] (0, 1, 0) [2, 10, 3, 6, 0, 0] 2 3 [(20, 1), (0, 2)] 1 3 [(10, 3)]"
    );
    Ok(())
}

// The last row of each of two shards, one of which is as heavy as a shard of a core may be.
fn last_rows(alloc: Global) -> Result<[Option<(u64, usize)>; 2], Fail> {
    let mut core = LruCore::<u64, 2>::with_capacity(alloc, MOST, 0)?;
    core.admit(0, 7, MOST / 2)?;
    core.admit(1, 8, 1)?;
    Ok([core.peek_lru(0)?, core.peek_lru(1)?])
}

#[test]
fn a_heavy_last_row_is_shown(rt: HostRuntime) -> Result<(), Fail> {
    assert_eq!(rt; last_rows(rt.alloc())?, [Some((7, MOST / 2)), Some((8, 1))]);
    Ok(())
}
