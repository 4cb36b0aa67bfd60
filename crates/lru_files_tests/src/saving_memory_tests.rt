//! Want of memory in saves of shards. The gate runs this with memory for all; `rt try --test --fail-alloc N` refuses the
//! request number N. The gate's sweep refuses each request of `lru_sweep` in turn, which saves shards too.
use log::sink;
use lru_test_folders::refusals::{Ending, Saved, end_of_save};
use lru_test_folders::saves::{Given, save_in_turns};
use lru_test_folders::two_shards::{bytes_of, folder_to_save, is_old, is_old_or_new, is_saved};
use pingora_lru_files::persistence::{Folder, FolderFault, MemoryFolder, save_shards};
use rand::rngs::StdRng;
use rand_core::SeedableRng;
use std::alloc::{AllocError, Global};
use std::test::Fail;

/// A save by a closure.
fn save(alloc: Global, folder: &mut MemoryFolder) -> Saved {
    let log = sink::Memory::new(alloc);
    let mut rng = StdRng::seed_from_u64(7);
    save_shards(
        alloc,
        folder,
        &mut rng,
        &log,
        "d",
        "c",
        2,
        |shard| bytes_of(alloc, shard),
    )
}

fn save_by(alloc: Global, folder: &mut MemoryFolder, in_turns: bool) -> Saved {
    if in_turns {
        // A save as a state, each shard in its turn.
        save_in_turns(alloc, folder, "d", &[42, 43], Given::TwoShards)
    } else {
        save(alloc, folder)
    }
}

/// Saves both shards. Where one, or the whole save, is refused memory, it is made again. Whether all of that is right.
fn saves_at_last(alloc: Global, in_turns: bool, refusals: &mut usize) -> Result<bool, AllocError> {
    let mut folder = folder_to_save(alloc)?;
    let first = save_by(alloc, &mut folder, in_turns);
    let mut ending = end_of_save(&first);
    let mut is_kept = true;
    if ending == Ending::Refused {
        *refusals = refusals.saturating_add(1);
        is_kept = is_old_or_new(&folder) & (first.is_ok() | is_old(&folder));
        ending = end_of_save(&save_by(alloc, &mut folder, in_turns));
    }
    Ok(is_kept & (ending == Ending::Whole) & is_saved(&folder))
}

/// Two such saves, of which one at most is refused memory.
fn saves_twice(alloc: Global, in_turns: bool) -> Result<bool, AllocError> {
    let mut refusals = 0;
    let first = saves_at_last(alloc, in_turns, &mut refusals)?;
    let second = saves_at_last(alloc, in_turns, &mut refusals)?;
    Ok(first & second & (refusals <= 1))
}

/// Whether a loss of power has left so much of a file that was written over and not synced.
fn is_lost(left: &MemoryFolder) -> bool {
    (left.get("d/c.0") == Some(b"X".as_slice())) & (left.get("d/c.1") == Some(b"older".as_slice()))
}

/// What a loss of power leaves of such a file. Where that is refused memory, it is asked again. Whether all of that is right.
fn is_lost_at_last(folder: &MemoryFolder, refusals: &mut usize) -> Result<bool, AllocError> {
    match folder.after_loss(1, b'X') {
        Ok(left) => Ok(is_lost(&left)),
        Err(AllocError) => {
            *refusals = refusals.saturating_add(1);
            Ok(is_lost(&folder.after_loss(1, b'X')?))
        }
    }
}

/// That folder. Where it is refused memory, it is made anew.
fn folder_to_lose(alloc: Global) -> Result<MemoryFolder, FolderFault> {
    let mut folder = folder_to_save(alloc)?;
    if folder.create("d/c.0").is_err() {
        folder.create("d/c.0")?;
    }
    Ok(folder)
}

/// Two such losses, of which one at most is refused memory.
fn loses_twice(alloc: Global) -> Result<bool, FolderFault> {
    let folder = folder_to_lose(alloc)?;
    let mut refusals = 0;
    let first = is_lost_at_last(&folder, &mut refusals)?;
    let second = is_lost_at_last(&folder, &mut refusals)?;
    Ok(first & second & (refusals <= 1))
}

#[test]
fn a_loss_of_power(rt: HostRuntime) -> Result<(), Fail> {
    assert!(rt; loses_twice(rt.alloc())?);
    Ok(())
}

#[test]
fn a_save_of_shards(rt: HostRuntime) -> Result<(), Fail> {
    assert!(rt; saves_twice(rt.alloc(), false)?);
    Ok(())
}

#[test]
fn a_save_in_turns(rt: HostRuntime) -> Result<(), Fail> {
    assert!(rt; saves_twice(rt.alloc(), true)?);
    Ok(())
}
