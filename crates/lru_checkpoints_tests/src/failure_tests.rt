//! What stopped and failed saves leave in the folder, and what is refused before anything is written.
use crate::fixture::{names_in, save_next, two, what_loads};
use lru_folder::folder_call::FolderCall;
use lru_generations::errors::CheckpointError;
use lru_memory_folder::memory_folder::MemoryFolder;
use std::alloc::{AllocError, Global};
use std::test::Fail;

// More calls than a save makes.
const CALLS: u64 = 60;

// The files of two checkpoints, and those of the three after a third save, which keeps one.
const TWO: &str = "c.0.0 c.0.1 c.0.manifest c.1.0 c.1.1 c.1.manifest ";

const LAST_TWO: &str = "c.1.0 c.1.1 c.1.manifest c.2.0 c.2.1 c.2.manifest ";

// Whether the call that failed may come after the new manifest got its name.
fn may_be_named(error: CheckpointError) -> bool {
    match error {
        CheckpointError::Folder { fault, .. } => {
            (fault.call == FolderCall::Rename) | (fault.call == FolderCall::Sync)
        }
        _ => false,
    }
}

// Whether a save of which this call fails, and no other, takes away what it wrote, unless the new manifest may have its name.
fn takes_away(alloc: Global, call: u64) -> Result<bool, CheckpointError> {
    let mut folder = two(alloc)?;
    folder.fail_at(call, 1);
    let saved = save_next(alloc, &mut folder, 12);
    folder.mend();
    let names = names_in(alloc, &folder)?;
    match saved {
        Err(error) => Ok(
            names.as_str() == TWO || may_be_named(error) && folder.get("d/c.2.0").is_some(),
        ),
        Ok(saved) => Ok(saved.removed.is_err() || names.as_str() == LAST_TWO),
    }
}

// The first call whose failure leaves what it should not.
fn first_left(alloc: Global) -> Result<Option<u64>, CheckpointError> {
    for call in 0..=CALLS {
        if !takes_away(alloc, call)? {
            return Ok(Some(call));
        }
    }
    Ok(None)
}

#[test]
fn a_save_that_fails_takes_away_what_it_wrote(rt: HostRuntime) -> Result<(), Fail> {
    let left = first_left(rt.alloc())?;
    assert_eq!(rt; left, None);
    Ok(())
}

// A folder with two checkpoints and with what a stop left of a third: a frame, and a manifest that has no name.
fn half_saved(alloc: Global) -> Result<MemoryFolder, CheckpointError> {
    let folder = two(alloc)?.with("d/c.2.0", b"half")?;
    Ok(folder.with("d/c.2.manifest.tmp", b"")?)
}

// Whether something is left of the save that stopped.
fn is_left(folder: &MemoryFolder) -> bool {
    folder.get("d/c.2.0").is_some() || folder.get("d/c.2.manifest.tmp").is_some()
}

// The first call at which a save that stops has begun its own files and has not removed all that was left before.
fn first_early(alloc: Global) -> Result<Option<u64>, CheckpointError> {
    for call in 0..=CALLS {
        let mut folder = half_saved(alloc)?;
        folder.stop_at(call, 1);
        let _ = save_next(alloc, &mut folder, 12);
        if is_left(&folder) & folder.get("d/c.3.0").is_some() {
            return Ok(Some(call));
        }
    }
    Ok(None)
}

// Whether they go in a save that is done.
fn are_gone(alloc: Global) -> Result<bool, CheckpointError> {
    let mut folder = half_saved(alloc)?;
    let is_third = save_next(alloc, &mut folder, 12)?.generation == 3;
    let names = "c.1.0 c.1.1 c.1.manifest c.3.0 c.3.1 c.3.manifest ";
    Ok(is_third & (names_in(alloc, &folder)?.as_str() == names))
}

#[test]
fn leftovers_go_before_a_save_writes(rt: HostRuntime) -> Result<(), Fail> {
    assert!(rt; first_early(rt.alloc())?.is_none() & are_gone(rt.alloc())?);
    Ok(())
}

// How a save is refused in a folder with these files, and whether it leaves the files and what loads as they were.
fn refusal(
    alloc: Global,
    mut folder: MemoryFolder,
    names: &str,
) -> Result<(Option<CheckpointError>, bool), CheckpointError> {
    let error = save_next(alloc, &mut folder, 12).err();
    let is_same = names_in(alloc, &folder)?.as_str() == names;
    Ok((
        error,
        is_same & (what_loads(alloc, &mut folder)? == Some((1, 11))),
    ))
}

fn claimed(alloc: Global) -> Result<MemoryFolder, CheckpointError> {
    let mut folder = two(alloc)?;
    let dir = String::from_str(alloc, "d")?;
    folder.claimed_by_another(Some(dir));
    Ok(folder)
}

#[test]
fn a_folder_that_another_save_has(rt: HostRuntime) -> Result<(), Fail> {
    let refusal = refusal(rt.alloc(), claimed(rt.alloc())?, TWO)?;
    assert_eq!(rt; refusal, (Some(CheckpointError::InUse), true));
    Ok(())
}

// A folder with two checkpoints, and a stray frame with the greatest number.
fn with_last(alloc: Global) -> Result<MemoryFolder, AllocError> {
    match two(alloc) {
        Ok(folder) => folder.with("d/c.18446744073709551615.0", b""),
        Err(_) => Err(AllocError),
    }
}

#[test]
fn the_last_generation(rt: HostRuntime) -> Result<(), Fail> {
    let names = "c.0.0 c.0.1 c.0.manifest c.1.0 c.1.1 c.1.manifest c.18446744073709551615.0 ";
    let refusal = refusal(rt.alloc(), with_last(rt.alloc())?, names)?;
    assert_eq!(rt; refusal, (Some(CheckpointError::LastGeneration), true));
    Ok(())
}
