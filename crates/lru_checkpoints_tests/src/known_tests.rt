//! Saves that are handed what a load or an earlier save knows.
use crate::fixture::{are_passed, empty, load_newest, save_known, save_next, two, what_loads};
use lru_frames::errors::Part;
use lru_generations::errors::{CheckpointError, CheckpointFile};
use lru_generations::generations::Saved;
use lru_generations::known::Known;
use lru_memory_folder::memory_folder::MemoryFolder;
use std::alloc::Global;
use std::test::Fail;

// The checkpoint that a save kept, and how many it passed over.
fn told(saved: &Saved) -> (Option<u64>, usize) {
    (saved.kept, saved.passed.len())
}

// The same files, but that the last bit of this one is another.
fn flipped(
    alloc: Global,
    folder: MemoryFolder,
    path: &str,
) -> Result<MemoryFolder, CheckpointError> {
    let mut bytes = Vec::new(alloc);
    bytes.extend_from_slice(folder.get(path).unwrap_or(b""))?;
    match bytes.last_mut() {
        None => return Err(CheckpointError::LastGeneration),
        Some(byte) => *byte ^= 1,
    }
    Ok(folder.with(path, &bytes)?)
}

// Two checkpoints, and what was answered when each was saved.
fn two_told(alloc: Global) -> Result<(MemoryFolder, Saved, Saved), CheckpointError> {
    let mut folder = empty(alloc)?;
    let first = save_next(alloc, &mut folder, 10)?;
    let second = save_next(alloc, &mut folder, 11)?;
    Ok((folder, first, second))
}

// What a save tells that is handed this, where the last bit of this file was changed since.
fn told_over(
    alloc: Global,
    folder: MemoryFolder,
    path: &str,
    known: &Known,
) -> Result<((Option<u64>, usize), MemoryFolder), CheckpointError> {
    let mut folder = flipped(alloc, folder, path)?;
    let saved = save_known(alloc, &mut folder, known, 12)?;
    Ok((told(&saved), folder))
}

// A frame of the second checkpoint is changed. Whether a save that is handed that one does not read it.
fn is_not_read(alloc: Global) -> Result<bool, CheckpointError> {
    let (folder, _, second) = two_told(alloc)?;
    let (told, mut folder) = told_over(alloc, folder, "d/c.1.1", &second.known)?;
    let found = what_loads(alloc, &mut folder)?;
    Ok((told, found) == ((Some(1), 0), Some((2, 12))))
}

// Whether another save does.
fn is_read_by_another(alloc: Global) -> Result<bool, CheckpointError> {
    let mut folder = flipped(alloc, two(alloc)?, "d/c.1.1")?;
    Ok(save_next(alloc, &mut folder, 12)?.kept == Some(0))
}

#[test]
fn frames_of_what_is_known_are_not_read(rt: HostRuntime) -> Result<(), Fail> {
    assert!(rt; is_not_read(rt.alloc())? & is_read_by_another(rt.alloc())?);
    Ok(())
}

// What is known is the first of two.
fn is_read_for_the_first(alloc: Global) -> Result<bool, CheckpointError> {
    let (mut folder, first, _) = two_told(alloc)?;
    let saved = save_known(alloc, &mut folder, &first.known, 12)?;
    Ok(told(&saved) == (Some(1), 0))
}

// What is known is the second, whose manifest was changed since.
fn is_read_for_the_second(alloc: Global) -> Result<bool, CheckpointError> {
    let (folder, _, second) = two_told(alloc)?;
    let mut folder = flipped(alloc, folder, "d/c.1.manifest")?;
    let saved = save_known(alloc, &mut folder, &second.known, 12)?;
    let file = CheckpointFile::Manifest;
    let part = Part::Check;
    let damaged = [(1, CheckpointError::Damaged { file, part })];
    Ok((saved.kept == Some(0)) & are_passed(&saved.passed, &damaged))
}

#[test]
fn frames_under_another_manifest_are_read(rt: HostRuntime) -> Result<(), Fail> {
    assert!(rt; is_read_for_the_first(rt.alloc())? & is_read_for_the_second(rt.alloc())?);
    Ok(())
}

fn is_known_by_a_load(alloc: Global) -> Result<bool, CheckpointError> {
    let mut folder = two(alloc)?;
    let newest = load_newest(alloc, &mut folder)?.newest;
    let Some(checkpoint) = newest else {
        return Ok(false);
    };
    let (told, _folder) = told_over(alloc, folder, "d/c.1.0", &checkpoint.known)?;
    Ok(told == (Some(1), 0))
}

#[test]
fn a_load_knows_what_it_found(rt: HostRuntime) -> Result<(), Fail> {
    assert!(rt; is_known_by_a_load(rt.alloc())?);
    Ok(())
}
