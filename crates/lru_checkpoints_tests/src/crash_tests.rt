//! Saves that a stop or a loss of power cuts short.
use crate::fixture::{save_next, two, what_loads};
use lru_generations::errors::CheckpointError;
use lru_memory_folder::memory_folder::MemoryFolder;
use std::alloc::Global;
use std::test::Fail;

// More calls than a save makes.
const CALLS: u64 = 60;

// What became of a save that was cut short.
#[derive(Clone, Copy, Debug, PartialEq, Eq)]
enum Left {
    // The checkpoint before it is loaded.
    Old,
    // The new one is loaded.
    New,
    // Neither is loaded, or no further save is made and loaded.
    Wrong,
}

// A folder with two checkpoints, in which a save of the third stopped at this call, after so many bytes of a write; and
// whether it told that it was done.
fn stopped(alloc: Global, call: u64, part: usize) -> Result<(MemoryFolder, bool), CheckpointError> {
    let mut folder = two(alloc)?;
    folder.stop_at(call, part);
    let is_saved = save_next(alloc, &mut folder, 12).is_ok();
    folder.mend();
    Ok((folder, is_saved))
}

// Whether one more save is made and loaded.
fn goes_on(alloc: Global, folder: &mut MemoryFolder) -> bool {
    let Ok(saved) = save_next(alloc, folder, 13) else {
        return false;
    };
    what_loads(alloc, folder) == Ok(Some((saved.generation, 13)))
}

// What a stop or a loss of power left.
fn what_is_left(alloc: Global, folder: &mut MemoryFolder) -> Left {
    let left = match what_loads(alloc, folder) {
        Ok(Some((1, 11))) => Left::Old,
        Ok(Some((2, 12))) => Left::New,
        _ => Left::Wrong,
    };
    if goes_on(alloc, folder) {
        left
    } else {
        Left::Wrong
    }
}

// Whether a save is right that told this and left that: one that was done leaves the new checkpoint.
fn is_right(is_saved: bool, left: Left) -> bool {
    match left {
        Left::Old => !is_saved,
        Left::New => true,
        Left::Wrong => false,
    }
}

// How a save is cut short.
#[derive(Clone, Copy, Debug, PartialEq, Eq)]
enum Cut {
    Stop,
    Loss,
}

// Whether a stop at this call is right, and whether the save was done.
fn stops_right(alloc: Global, call: u64) -> Result<(bool, bool), CheckpointError> {
    let mut are_right = true;
    let mut are_saved = true;
    for part in [0, 1, 1000] {
        let (mut folder, is_saved) = stopped(alloc, call, part)?;
        are_right &= is_right(is_saved, what_is_left(alloc, &mut folder));
        are_saved &= is_saved;
    }
    Ok((are_right, are_saved))
}

// Whether each loss of power after a stop at this call is right, and whether the save was done.
fn loses_right(alloc: Global, call: u64) -> Result<(bool, bool), CheckpointError> {
    let (folder, is_saved) = stopped(alloc, call, 1)?;
    let mut are_right = true;
    for names in 0..8 {
        let mut left = folder.after_loss(names, b'X')?;
        are_right &= is_right(is_saved, what_is_left(alloc, &mut left));
    }
    Ok((are_right, is_saved))
}

// The first call at which a cut leaves something wrong. At the first call no save is done, and at the last one each is.
fn first_wrong(alloc: Global, cut: Cut) -> Result<Option<u64>, CheckpointError> {
    for call in 0..=CALLS {
        let (is_right, is_saved) = match cut {
            Cut::Stop => stops_right(alloc, call)?,
            Cut::Loss => loses_right(alloc, call)?,
        };
        let is_early = is_saved & (call == 0);
        let is_late = !is_saved & (call == CALLS);
        if !is_right | is_early | is_late {
            return Ok(Some(call));
        }
    }
    Ok(None)
}

#[test]
fn a_stop_at_each_call(rt: HostRuntime) -> Result<(), Fail> {
    let wrong = first_wrong(rt.alloc(), Cut::Stop)?;
    assert_eq!(rt; wrong, None);
    Ok(())
}

#[test]
fn a_loss_of_power_after_each_call(rt: HostRuntime) -> Result<(), Fail> {
    let wrong = first_wrong(rt.alloc(), Cut::Loss)?;
    assert_eq!(rt; wrong, None);
    Ok(())
}
