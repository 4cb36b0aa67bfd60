//! Checkpoints whose files are changed, cut short, missing, or of another checkpoint: the older one is loaded in their place.
use crate::fixture::{empty, found_in, load_newest, names_in, save_as, save_next, two, with_other};
use lru_frames::errors::Part;
use lru_generations::errors::{CheckpointError, CheckpointFile};
use lru_memory_folder::memory_folder::MemoryFolder;
use std::alloc::Global;
use std::test::Fail;

// The files of the newest of two checkpoints.
static FILES: [(&str, CheckpointFile); 3] = [
    ("d/c.1.0", CheckpointFile::Shard(0)),
    ("d/c.1.1", CheckpointFile::Shard(1)),
    ("d/c.1.manifest", CheckpointFile::Manifest),
];

// Why the newest checkpoint is passed over where a path has other bytes or is not there, while the one before is loaded and no
// file is removed; nothing where another load is made of it.
fn why_passed(
    alloc: Global,
    folder: &MemoryFolder,
    path: &str,
    bytes: Option<&[u8]>,
) -> Result<Option<CheckpointError>, CheckpointError> {
    let mut other = with_other(alloc, folder, path, bytes)?;
    let before = names_in(alloc, &other)?;
    let loaded = load_newest(alloc, &mut other)?;
    let after = names_in(alloc, &other)?;
    match loaded.passed.as_slice() {
        [it] if found_in(&loaded) == Some((0, 10)) && it.generation == 1 && before == after => Ok(
            Some(it.error),
        ),
        _ => Ok(None),
    }
}

fn is_damaged(error: Option<CheckpointError>, wanted: CheckpointFile) -> bool {
    match error {
        Some(CheckpointError::Damaged { file, .. }) => file == wanted,
        _ => false,
    }
}

static CHANGES: [u8; 3] = [0x01, 0x80, 0xff];

// Whether each change of the byte at a place is told as damage of the file.
fn are_changes_seen(
    alloc: Global,
    folder: &MemoryFolder,
    (path, file): (&str, CheckpointFile),
    held: &[u8],
    place: usize,
) -> Result<bool, CheckpointError> {
    let mut bytes = Vec::from_slice(alloc, held)?;
    let mut are_seen = true;
    for change in &CHANGES {
        if let Some(byte) = bytes.get_mut(place) {
            *byte ^= *change;
        }
        are_seen &= is_damaged(why_passed(alloc, folder, path, Some(&bytes))?, file);
        if let Some(byte) = bytes.get_mut(place) {
            *byte ^= *change;
        }
    }
    Ok(are_seen)
}

// Whether a file that is cut short to this is told by its length.
fn is_cut_seen(
    alloc: Global,
    folder: &MemoryFolder,
    (path, file): (&str, CheckpointFile),
    beginning: &[u8],
) -> Result<bool, CheckpointError> {
    let part = Part::Length;
    let error = why_passed(alloc, folder, path, Some(beginning))?;
    Ok(error == Some(CheckpointError::Damaged { file, part }))
}

// The first place of a file at which a change is not told as its damage, or at which a cut is not told by the length.
fn first_unseen(
    alloc: Global,
    folder: &MemoryFolder,
    file: (&str, CheckpointFile),
) -> Result<Option<usize>, CheckpointError> {
    let Some(held) = folder.get(file.0) else {
        return Ok(Some(0));
    };
    for place in 0..held.len() {
        let are_seen = are_changes_seen(alloc, folder, file, held, place)?;
        if !are_seen || !is_cut_seen(alloc, folder, file, &held[..place])? {
            return Ok(Some(place));
        }
    }
    Ok(None)
}

// The first file, and the place in it, where something is not seen.
fn first_file_unseen(alloc: Global) -> Result<Option<(&'static str, usize)>, CheckpointError> {
    let folder = two(alloc)?;
    for file in &FILES {
        if let Some(place) = first_unseen(alloc, &folder, *file)? {
            return Ok(Some((file.0, place)));
        }
    }
    Ok(None)
}

#[test]
fn each_byte_and_each_cut(rt: HostRuntime) -> Result<(), Fail> {
    assert_eq!(rt; first_file_unseen(rt.alloc())?, None);
    Ok(())
}

#[test]
fn a_frame_that_is_missing(rt: HostRuntime) -> Result<(), Fail> {
    let folder = two(rt.alloc())?;
    let file = CheckpointFile::Shard(1);
    let error = why_passed(rt.alloc(), &folder, "d/c.1.1", None)?;
    assert_eq!(rt; error, Some(CheckpointError::Missing { file }));
    Ok(())
}

// Without its manifest a checkpoint is none, and none is passed over.
fn loads_the_first(alloc: Global) -> Result<bool, CheckpointError> {
    let mut folder = with_other(alloc, &two(alloc)?, "d/c.1.manifest", None)?;
    let loaded = load_newest(alloc, &mut folder)?;
    Ok((found_in(&loaded) == Some((0, 10))) & loaded.passed.is_empty())
}

#[test]
fn a_manifest_that_is_missing(rt: HostRuntime) -> Result<(), Fail> {
    assert!(rt; loads_the_first(rt.alloc())?);
    Ok(())
}

// Two checkpoints under each of two names, with other numbers.
fn two_of_each(alloc: Global) -> Result<MemoryFolder, CheckpointError> {
    let mut folder = empty(alloc)?;
    save_next(alloc, &mut folder, 10)?;
    save_next(alloc, &mut folder, 11)?;
    save_as(alloc, &mut folder, "e", 20)?;
    save_as(alloc, &mut folder, "e", 21)?;
    Ok(folder)
}

// Paths, those whose bytes they get, and the file that is then told to be of another checkpoint.
static SWAPS: [(&str, &str, CheckpointFile); 7] = [
    // Another shard's frame, that of the generation before, and that of another name.
    ("d/c.1.0", "d/c.1.1", CheckpointFile::Shard(0)),
    ("d/c.1.0", "d/c.0.0", CheckpointFile::Shard(0)),
    ("d/c.1.0", "d/e.1.0", CheckpointFile::Shard(0)),
    ("d/c.1.1", "d/e.1.1", CheckpointFile::Shard(1)),
    // A manifest in place of a frame.
    ("d/c.1.1", "d/c.1.manifest", CheckpointFile::Shard(1)),
    // The manifest of the generation before, and that of another name, which tells of other frames.
    ("d/c.1.manifest", "d/c.0.manifest", CheckpointFile::Manifest),
    ("d/c.1.manifest", "d/e.1.manifest", CheckpointFile::Shard(0)),
];

// The first path that is not refused so.
fn first_taken(alloc: Global) -> Result<Option<&'static str>, CheckpointError> {
    let folder = two_of_each(alloc)?;
    for (path, from, file) in SWAPS {
        let error = why_passed(alloc, &folder, path, folder.get(from))?;
        if error != Some(CheckpointError::Other { file }) {
            return Ok(Some(from));
        }
    }
    Ok(None)
}

#[test]
fn files_of_other_checkpoints(rt: HostRuntime) -> Result<(), Fail> {
    let taken = first_taken(rt.alloc())?;
    assert_eq!(rt; taken, None);
    Ok(())
}

// The manifest and one frame of another name's checkpoint make no mixture with a frame of this one.
fn why_mixed(alloc: Global) -> Result<Option<CheckpointError>, CheckpointError> {
    let folder = two_of_each(alloc)?;
    let manifest = folder.get("d/e.1.manifest");
    let mixed = with_other(alloc, &folder, "d/c.1.manifest", manifest)?;
    why_passed(alloc, &mixed, "d/c.1.0", folder.get("d/e.1.0"))
}

#[test]
fn no_mixture(rt: HostRuntime) -> Result<(), Fail> {
    let file = CheckpointFile::Shard(1);
    assert_eq!(rt;
        why_mixed(rt.alloc())?,
        Some(CheckpointError::Other { file })
    );
    Ok(())
}

// A frame in place of a manifest.
#[test]
fn a_frame_is_no_manifest(rt: HostRuntime) -> Result<(), Fail> {
    let folder = two(rt.alloc())?;
    let error = why_passed(rt.alloc(), &folder, "d/c.1.manifest", folder.get("d/c.1.0"))?;
    let file = CheckpointFile::Manifest;
    let part = Part::Header;
    assert_eq!(rt; error, Some(CheckpointError::Damaged { file, part }));
    Ok(())
}
