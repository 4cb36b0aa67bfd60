//! Two cores that do the same calls: the rows of the one with the smaller limits are a beginning of the other's.
use crate::asked::Step;
use crate::steps::{fault, rows_of};
use crate::tables::{UNDER_A_WATERMARK, UNDER_TWO_LIMITS};
use lru_cores::inclusion::inclusion_law;
use lru_cores::lru_core::LruCore;
use rand::rngs::StdRng;
use rand_core::SeedableRng;
use std::alloc::{AllocError, Global};
use std::test::Fail;

// Does the steps on two cores, and says which are otherwise, and where the first has no front of the second's rows.
fn faults_of(
    alloc: Global,
    mut small: LruCore<u64, 1>,
    mut large: LruCore<u64, 1>,
    steps: &[(Step, Step)],
) -> Result<String, AllocError> {
    let mut rng = StdRng::seed_from_u64(7);
    let mut faults = String::new(alloc);
    for (first, second) in steps {
        faults.push_str(fault(alloc, &mut small, &mut rng, *first)?.as_str())?;
        faults.push_str(fault(alloc, &mut large, &mut rng, *second)?.as_str())?;
        let front = rows_of(alloc, &small, 0)?;
        if !rows_of(alloc, &large, 0)?.starts_with(&front) {
            faults.push_str("no front\n")?;
        }
    }
    Ok(faults)
}

fn all_faults(alloc: Global) -> Result<String, AllocError> {
    let small = LruCore::with_capacity(alloc, 3, 0)?;
    let large = LruCore::with_capacity(alloc, 5, 0)?;
    let mut faults = faults_of(alloc, small, large, &UNDER_TWO_LIMITS)?;
    let small = LruCore::with_capacity_and_watermark(alloc, 10, 0, Some(2))?;
    let large = LruCore::with_capacity(alloc, 10, 0)?;
    faults.push_str(faults_of(alloc, small, large, &UNDER_A_WATERMARK)?.as_str())?;
    Ok(faults)
}

#[test]
fn keeps_a_front_under_smaller_limits(rt: HostRuntime) -> Result<(), Fail> {
    inclusion_law::<u64>();
    assert_eq!(rt; all_faults(rt.alloc())?.as_str(), "");
    Ok(())
}
