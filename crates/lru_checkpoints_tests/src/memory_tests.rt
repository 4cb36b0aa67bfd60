//! Want of memory. The gate runs this with memory for all; `rt try --test --fail-alloc N` refuses the request number N.
use crate::fixture::{save_next, two, what_loads};
use lru_folder::fault::FolderFault;
use lru_generations::errors::CheckpointError;
use lru_memory_folder::memory_folder::MemoryFolder;
use std::alloc::Global;
use std::test::Fail;

// Whether memory was refused.
fn is_for_memory(error: &CheckpointError) -> bool {
    match error {
        CheckpointError::Memory => true,
        CheckpointError::Folder { fault, .. } => fault.source == FolderFault::Memory,
        _ => false,
    }
}

// What loads, at the latest when it is asked again.
fn loads_at_last(
    alloc: Global,
    folder: &mut MemoryFolder,
    refusals: &mut usize,
) -> Result<Option<(u64, u64)>, CheckpointError> {
    match what_loads(alloc, folder) {
        Err(error) if is_for_memory(&error) => {
            *refusals = refusals.saturating_add(1);
            what_loads(alloc, folder)
        }
        found => found,
    }
}

// A folder with two checkpoints. Where memory was refused, it is made anew.
fn two_at_last(alloc: Global, refusals: &mut usize) -> Result<MemoryFolder, CheckpointError> {
    match two(alloc) {
        Err(error) if is_for_memory(&error) => {
            *refusals = refusals.saturating_add(1);
            two(alloc)
        }
        made => made,
    }
}

// Saves a third checkpoint over two. Where it is refused memory, the second one is there, and the save that is made again
// succeeds.
fn saves_at_last(
    alloc: Global,
    folder: &mut MemoryFolder,
    refusals: &mut usize,
) -> Result<bool, CheckpointError> {
    let Err(error) = save_next(alloc, folder, 12) else {
        return Ok(true);
    };
    *refusals = refusals.saturating_add(1);
    let is_kept = what_loads(alloc, folder)? == Some((1, 11));
    save_next(alloc, folder, 12)?;
    Ok(is_kept & is_for_memory(&error))
}

// Whether it is saved and loaded so, with one refusal at most.
fn saves(alloc: Global) -> Result<bool, CheckpointError> {
    let mut refusals = 0;
    let mut folder = two_at_last(alloc, &mut refusals)?;
    let is_saved = saves_at_last(alloc, &mut folder, &mut refusals)?;
    let found = loads_at_last(alloc, &mut folder, &mut refusals)?;
    Ok(is_saved & (found == Some((2, 12))) & (refusals <= 1))
}

#[test]
fn a_save_and_a_load(rt: HostRuntime) -> Result<(), Fail> {
    let is_right = saves(rt.alloc())?;
    assert!(rt; is_right);
    Ok(())
}
