//! Want of memory in loads of shards: a refused load is made again. The gate runs this with memory for all; `rt try --test
//! --fail-alloc N` refuses the request number N. The gate's sweep refuses each request of `lru_sweep` in turn, which
//! loads shards too.
use log::sink;
use lru_test_folders::loads::{Wanted, load_logging};
use lru_test_folders::refusals::{Ending, Loaded, end_of_load};
use lru_test_folders::two_shards::{folder_to_load, has_temp, is_saved};
use pingora_lru_files::persistence::MemoryFolder;
use std::alloc::{AllocError, Global};
use std::test::Fail;

fn load(alloc: Global, folder: &mut MemoryFolder) -> Loaded {
    let log = sink::Memory::new(alloc);
    load_logging(alloc, folder, &log, ("d", 2, Wanted::TwoShards))
}

/// Whether a load loads both, and its cleanup fails at nothing.
fn loads_both(alloc: Global, folder: &mut MemoryFolder) -> Result<bool, AllocError> {
    let report = load(alloc, folder)?;
    let counts = (report.loaded_shards, report.error_shards);
    Ok((counts == (2, 0)) & report.temp_cleanup?.failures.is_empty())
}

/// Loads both shards. Where one, the whole load, or its cleanup is refused memory, the load is made again. Whether all of
/// that is right.
fn loads_at_last(alloc: Global, refusals: &mut usize) -> Result<bool, AllocError> {
    let mut folder = folder_to_load(alloc)?;
    let first = load(alloc, &mut folder);
    let mut ending = end_of_load(&first);
    let mut is_kept = true;
    if ending == Ending::Refused {
        *refusals = refusals.saturating_add(1);
        is_kept = first.is_ok() | has_temp(&folder);
        if loads_both(alloc, &mut folder)? {
            ending = Ending::Whole;
        }
    }
    Ok(is_kept & (ending == Ending::Whole) & is_saved(&folder) & !has_temp(&folder))
}

/// Two such loads, of which one at most is refused memory.
fn loads_twice(alloc: Global) -> Result<bool, AllocError> {
    let mut refusals = 0;
    let first = loads_at_last(alloc, &mut refusals)?;
    let second = loads_at_last(alloc, &mut refusals)?;
    Ok(first & second & (refusals <= 1))
}

#[test]
fn a_load_of_shards(rt: HostRuntime) -> Result<(), Fail> {
    assert!(rt; loads_twice(rt.alloc())?);
    Ok(())
}
