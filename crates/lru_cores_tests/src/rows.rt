//! The worked rows of a core.
ghost use Rattle.std.specs.Prelude.{◌<◌};

use crate::asked::Step;
use crate::steps::faults;
use crate::tables::{
    ANSWERS_EACH_CALL, ANSWERS_WHERE_NOTHING_IS, COUNTS_A_ROW_OF_WEIGHT_0_ONCE,
    COUNTS_UP_TO_THE_WIDTH, EVICTS_THE_OLDEST, GOES_ROUND_THE_CIRCLE, INCREMENTS, PROMOTES,
    SETS_WEIGHTS, STEPS_TO_A_VICTIM, WEIGHS_A_HALF, WEIGHS_A_THIRD, WEIGHS_NEW_ROWS,
};
use lru_cores::calls::{Call, run};
use lru_cores::lru_core::LruCore;
use rand::rngs::StdRng;
use rand_core::{Rng, SeedableRng};
use std::alloc::{AllocError, Global};
use std::test::Fail;

const MOST: usize = 18446744073709551615;

fn generator() -> StdRng {
    StdRng::seed_from_u64(7)
}

// The faults of a table on an empty core; with one shard the generator has to be left as it was.
fn faults_of<const N: usize>(
    alloc: Global,
    limit: usize,
    steps: &[Step],
) -> Result<String, AllocError>
    requires { 0 < N }
{
    let mut rng = generator();
    let mut core = LruCore::<u64, N>::with_capacity(alloc, limit, 0)?;
    let mut faults = faults(alloc, &mut core, &mut rng, steps)?;
    if N == 1 && rng.next_u64() != generator().next_u64() {
        faults.push_str("a word was drawn\n")?;
    }
    Ok(faults)
}

// The faults of all tables.
fn all_faults(alloc: Global) -> Result<String, AllocError> {
    let mut faults = String::new(alloc);
    for (limit, steps) in [
        (100, SETS_WEIGHTS.as_slice()),
        (100, WEIGHS_NEW_ROWS.as_slice()),
        (100, INCREMENTS.as_slice()),
        (100, COUNTS_A_ROW_OF_WEIGHT_0_ONCE.as_slice()),
        (10, EVICTS_THE_OLDEST.as_slice()),
        (0, COUNTS_UP_TO_THE_WIDTH.as_slice()),
    ] {
        faults.push_str(faults_of::<1>(alloc, limit, steps)?.as_str())?;
    }
    for (limit, steps) in [
        (100, PROMOTES.as_slice()),
        (14, STEPS_TO_A_VICTIM.as_slice()),
        (100, WEIGHS_A_HALF.as_slice()),
        (10, ANSWERS_EACH_CALL.as_slice()),
        (10, ANSWERS_WHERE_NOTHING_IS.as_slice()),
    ] {
        faults.push_str(faults_of::<2>(alloc, limit, steps)?.as_str())?;
    }
    faults.push_str(faults_of::<3>(alloc, MOST, &WEIGHS_A_THIRD)?.as_str())?;
    faults.push_str(faults_of::<4>(alloc, 1, &GOES_ROUND_THE_CIRCLE)?.as_str())?;
    Ok(faults)
}

#[test]
fn follows_its_rows(rt: HostRuntime) -> Result<(), Fail> {
    assert_eq!(rt; all_faults(rt.alloc())?.as_str(), "");
    Ok(())
}

#[rattlefmt::skip]
#[test]
fn runs_calls(rt: HostRuntime) -> Result<(), Fail> {
    let mut core = LruCore::<u64, 1>::with_capacity(rt.alloc(), 4, 0)?;
    let calls = vec![in rt.alloc();
        Call::Admit { key: 2, data: 20, weight: 2 },
        Call::Admit { key: 4, data: 40, weight: 3 },
        Call::UpdateOrAdmit { key: 2, present: 21, missing: 0, delta: 1 },
        Call::EvictToLimit,
        Call::PeekLru { shard: 0 },
        Call::Totals,
    ]?;
    let replies = run(&mut core, rt.alloc(), &mut generator(), calls)?;
    assert_eq!(rt; format!(in rt.alloc(); "{replies:?}")?.as_str(),
        "[Shard(Ok(0)), Shard(Ok(0)), Updated(Ok(Some(2))), Evicted(Ok([(40, 3)])), Last(Ok(Some((21, 3)))), \
            Totals { len: 1, weight: 3, evicted_len: 1, evicted_weight: 3 }]");
    Ok(())
}
