//! Which checkpoints a save keeps and removes, also where the newest one is damaged, and how its generation is numbered.
use crate::fixture::{
    are_passed, empty, found_in, load_as, load_newest, names_in, save_as, save_next, two,
    what_loads,
};
use lru_frames::errors::Part;
use lru_generations::errors::{CheckpointError, CheckpointFile};
use lru_memory_folder::memory_folder::MemoryFolder;
use std::alloc::Global;
use std::test::Fail;

// Saves five checkpoints. Whether each is told as the next generation, with the one before kept and what is older removed.
fn save_five(alloc: Global, folder: &mut MemoryFolder) -> Result<bool, CheckpointError> {
    let mut is_told = true;
    for number in 0..5u64 {
        let saved = save_next(alloc, folder, 10 + number)?;
        let is_kept = saved.kept == number.checked_sub(1);
        is_told &= (saved.generation == number) & is_kept & saved.passed.is_empty();
        is_told &= saved.removed.is_ok();
    }
    Ok(is_told)
}

// Whether a folder has these files, and loads this generation and number.
fn is_left(
    alloc: Global,
    folder: &mut MemoryFolder,
    names: &str,
    found: (u64, u64),
) -> Result<bool, CheckpointError> {
    let has_names = names_in(alloc, folder)?.as_str() == names;
    Ok(has_names & (what_loads(alloc, folder)? == Some(found)))
}

fn keeps_two(alloc: Global) -> Result<bool, CheckpointError> {
    let mut folder = empty(alloc)?;
    let is_told = save_five(alloc, &mut folder)?;
    let names = "c.3.0 c.3.1 c.3.manifest c.4.0 c.4.1 c.4.manifest ";
    Ok(is_told & is_left(alloc, &mut folder, names, (4, 14))?)
}

#[test]
fn the_newest_and_the_one_before_are_kept(rt: HostRuntime) -> Result<(), Fail> {
    assert!(rt; keeps_two(rt.alloc())?);
    Ok(())
}

// Bytes that are no file of a checkpoint.
const DAMAGE: &[u8] = b"no frame";

fn damage(file: CheckpointFile) -> CheckpointError {
    let part = Part::Length;
    CheckpointError::Damaged { file, part }
}

// Saves the third checkpoint over two, the second of which is damaged. Whether the first is kept, the second told, all their
// files left, and the third loaded.
fn keeps_first(
    alloc: Global,
    folder: &mut MemoryFolder,
    file: CheckpointFile,
) -> Result<bool, CheckpointError> {
    let saved = save_next(alloc, folder, 12)?;
    let is_told = (saved.generation == 2) & (saved.kept == Some(0)) & saved.removed.is_ok();
    let is_passed = are_passed(&saved.passed, &[(1, damage(file))]);
    let names = "c.0.0 c.0.1 c.0.manifest c.1.0 c.1.1 c.1.manifest c.2.0 c.2.1 c.2.manifest ";
    Ok(is_told & is_passed & is_left(alloc, folder, names, (2, 12))?)
}

// Whether the first is loaded where the third is damaged too, with both others told.
fn loads_first(
    alloc: Global,
    folder: MemoryFolder,
    file: CheckpointFile,
) -> Result<bool, CheckpointError> {
    let mut folder = folder.with("d/c.2.0", DAMAGE)?;
    let loaded = load_newest(alloc, &mut folder)?;
    let wanted = [(2, damage(CheckpointFile::Shard(0))), (1, damage(file))];
    Ok((found_in(&loaded) == Some((0, 10))) & are_passed(&loaded.passed, &wanted))
}

// Whether all that is so where this file of the second checkpoint is damaged.
fn goes_on(alloc: Global, path: &str, file: CheckpointFile) -> Result<bool, CheckpointError> {
    let mut folder = two(alloc)?.with(path, DAMAGE)?;
    let is_kept = keeps_first(alloc, &mut folder, file)?;
    Ok(is_kept & loads_first(alloc, folder, file)?)
}

#[test]
fn a_damaged_one_is_not_kept_for_a_whole_one(rt: HostRuntime) -> Result<(), Fail> {
    let frame = goes_on(rt.alloc(), "d/c.1.1", CheckpointFile::Shard(1))?;
    let manifest = goes_on(rt.alloc(), "d/c.1.manifest", CheckpointFile::Manifest)?;
    assert_eq!(rt; (frame, manifest), (true, true));
    Ok(())
}

// The generation of the next save, and the one that it keeps.
fn told_of(
    alloc: Global,
    folder: &mut MemoryFolder,
    number: u64,
) -> Result<(u64, Option<u64>), CheckpointError> {
    let saved = save_next(alloc, folder, number)?;
    Ok((saved.generation, saved.kept))
}

// Once a newer one is kept, the files of the damaged one go.
fn goes_at_last(alloc: Global) -> Result<bool, CheckpointError> {
    let mut folder = two(alloc)?.with("d/c.1.1", DAMAGE)?;
    told_of(alloc, &mut folder, 12)?;
    let is_kept = told_of(alloc, &mut folder, 13)? == (3, Some(2));
    let names = "c.2.0 c.2.1 c.2.manifest c.3.0 c.3.1 c.3.manifest ";
    Ok(is_kept & (names_in(alloc, &folder)?.as_str() == names))
}

#[test]
fn a_damaged_one_goes_at_last(rt: HostRuntime) -> Result<(), Fail> {
    assert!(rt; goes_at_last(rt.alloc())?);
    Ok(())
}

// A folder with two checkpoints and a stray frame of a higher number.
fn is_above_all(alloc: Global) -> Result<bool, CheckpointError> {
    let mut folder = two(alloc)?.with("d/c.7.0", DAMAGE)?;
    let is_told = told_of(alloc, &mut folder, 12)? == (8, Some(1));
    Ok(is_told & (what_loads(alloc, &mut folder)? == Some((8, 12))))
}

#[test]
fn a_number_above_all_that_are_named(rt: HostRuntime) -> Result<(), Fail> {
    assert!(rt; is_above_all(rt.alloc())?);
    Ok(())
}

// Saves three checkpoints under each of three names that begin with one another, in turn.
fn save_each(alloc: Global, folder: &mut MemoryFolder) -> Result<(), CheckpointError> {
    for number in 0..3u64 {
        save_as(alloc, folder, "c", 10 + number)?;
        save_as(alloc, folder, "c.before", 20 + number)?;
        save_as(alloc, folder, "c.0", 30 + number)?;
    }
    Ok(())
}

// The generation of what loads under each name, and its number.
fn each_found(
    alloc: Global,
    folder: &mut MemoryFolder,
) -> Result<[Option<(u64, u64)>; 3], CheckpointError> {
    let first = found_in(&load_as(alloc, folder, "c")?);
    let second = found_in(&load_as(alloc, folder, "c.before")?);
    Ok([first, second, found_in(&load_as(alloc, folder, "c.0")?)])
}

fn are_kept_apart(alloc: Global) -> Result<bool, CheckpointError> {
    let mut folder = empty(alloc)?;
    save_each(alloc, &mut folder)?;
    let wanted = [Some((2, 12)), Some((2, 22)), Some((2, 32))];
    Ok(each_found(alloc, &mut folder)? == wanted)
}

#[test]
fn names_that_begin_with_another(rt: HostRuntime) -> Result<(), Fail> {
    assert!(rt; are_kept_apart(rt.alloc())?);
    Ok(())
}
