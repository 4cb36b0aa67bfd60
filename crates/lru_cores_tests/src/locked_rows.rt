//! The worked rows of a core, done by an `Lru` with one caller.
ghost use Rattle.std.specs.Prelude.{◌<◌};

use crate::asked::Step;
use crate::locked_steps::tell_faults;
use crate::tables::{
    ANSWERS_EACH_CALL, ANSWERS_WHERE_NOTHING_IS, COUNTS_A_ROW_OF_WEIGHT_0_ONCE,
    COUNTS_UP_TO_THE_WIDTH, EVICTS_THE_OLDEST, INCREMENTS, PROMOTES, SETS_WEIGHTS, WEIGHS_A_HALF,
    WEIGHS_A_THIRD, WEIGHS_NEW_ROWS,
};
use lru_shared_order::lru::Lru;
use rand::rngs::StdRng;
use rand_core::{Rng, SeedableRng};
use std::alloc::{AllocError, Global};
use std::sync::Wait;
use std::test::Fail;

const MOST: usize = 18446744073709551615;

fn generator() -> StdRng {
    StdRng::seed_from_u64(7)
}

// Tells the faults of a table on an empty `Lru`; with one shard the generator has to be left as it was.
fn tell_table<R: Wait, const N: usize>(
    rt: &R,
    alloc: Global,
    limit: usize,
    steps: &[Step],
    faults: &mut String,
) -> Result<(), AllocError>
    requires { 0 < N }
{
    let mut rng = generator();
    let lru = Lru::<u64, N>::with_capacity(alloc, limit, 0)?;
    tell_faults(rt, alloc, &lru, &mut rng, steps, faults)?;
    if N == 1 && rng.next_u64() != generator().next_u64() {
        faults.push_str("a word was drawn\n")?;
    }
    Ok(())
}

// Tells those of the tables of one shard.
fn tell_tables_of_one<R: Wait>(
    rt: &R,
    alloc: Global,
    faults: &mut String,
) -> Result<(), AllocError> {
    for (limit, steps) in [
        (100, SETS_WEIGHTS.as_slice()),
        (100, WEIGHS_NEW_ROWS.as_slice()),
        (100, INCREMENTS.as_slice()),
        (100, COUNTS_A_ROW_OF_WEIGHT_0_ONCE.as_slice()),
        (10, EVICTS_THE_OLDEST.as_slice()),
        (0, COUNTS_UP_TO_THE_WIDTH.as_slice()),
    ] {
        tell_table::<R, 1>(rt, alloc, limit, steps, faults)?;
    }
    Ok(())
}

// Tells those of the tables of two shards and of three.
fn tell_other_tables<R: Wait>(
    rt: &R,
    alloc: Global,
    faults: &mut String,
) -> Result<(), AllocError> {
    for (limit, steps) in [
        (100, PROMOTES.as_slice()),
        (100, WEIGHS_A_HALF.as_slice()),
        (10, ANSWERS_EACH_CALL.as_slice()),
        (10, ANSWERS_WHERE_NOTHING_IS.as_slice()),
    ] {
        tell_table::<R, 2>(rt, alloc, limit, steps, faults)?;
    }
    tell_table::<R, 3>(rt, alloc, MOST, &WEIGHS_A_THIRD, faults)
}

// The faults of all tables.
fn all_faults<R: Wait>(rt: &R, alloc: Global) -> Result<String, AllocError> {
    let mut faults = String::new(alloc);
    tell_tables_of_one(rt, alloc, &mut faults)?;
    tell_other_tables(rt, alloc, &mut faults)?;
    Ok(faults)
}

#[test]
fn follows_its_rows(rt: HostRuntime) -> Result<(), Fail> {
    assert_eq!(rt; all_faults(&rt, rt.alloc())?.as_str(), "");
    Ok(())
}

fn counters<R: Wait>(rt: &R, lru: &Lru<u64, 2>) -> [usize; 10] {
    [
        lru.shards(),
        lru.weight_limit(),
        lru.len(),
        lru.weight(),
        lru.evicted_len(),
        lru.evicted_weight(),
        lru.shard_len(0),
        lru.shard_weight(rt, 0),
        lru.shard_len(1),
        lru.shard_weight(rt, 1),
    ]
}

// An `Lru` with room made for it, before and after three rows.
fn shows<R: Wait>(rt: &R, alloc: Global) -> Result<String, AllocError> {
    let lru = Lru::<u64, 2>::with_capacity(alloc, 10, 0)?;
    let room = (
        lru.reserve_shard(rt, 0, 100),
        lru.reserve_shard(rt, 2, MOST),
    );
    let empty = counters(rt, &lru);
    let shards = (
        lru.admit(rt, 0, 0, 2),
        lru.admit(rt, 1, 10, 3),
        lru.admit(rt, 2, 20, 0),
    );
    let full = counters(rt, &lru);
    format!(in alloc; "{room:?} {empty:?} {shards:?} {full:?}")
}

#[test]
fn shows_its_shards(rt: HostRuntime) -> Result<(), Fail> {
    assert_eq!(rt;
        shows(&rt, rt.alloc())?.as_str(),
        "(Ok(()), Ok(())) [2, 10, 0, 0, 0, 0, 0, 0, 0, 0] (Ok(0), Ok(1), Ok(0)) [2, 10, 3, 6, 0, 0, 2, 3, 1, 3]"
    );
    Ok(())
}

// Whether one of many shards refuses room for more rows than it may have, which its part of that would not be, and makes room for
// a few.
fn makes_room<R: Wait>(rt: &R, alloc: Global) -> Result<(bool, bool), AllocError> {
    let lru = Lru::<u64, 4096>::with_capacity(alloc, 10, 0)?;
    Ok((
        lru.reserve_shard(rt, 5, 4_294_967_294).is_err(),
        lru.reserve_shard(rt, 5, 100).is_ok(),
    ))
}

#[test]
fn makes_room_in_one_shard(rt: HostRuntime) -> Result<(), Fail> {
    assert_eq!(rt; makes_room(&rt, rt.alloc())?, (true, true));
    Ok(())
}
