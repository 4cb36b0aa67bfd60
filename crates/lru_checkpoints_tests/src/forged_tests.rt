//! Files whose bytes are made by hand: a manifest that claims too much, and files of the older format.
use crate::fixture::{
    are_passed, empty, found_in, has_none, load_newest, save_next, two, with_other,
};
use crate::frame_damage_tests::sealed;
use lru_frames::errors::Part;
use lru_generations::errors::{CheckpointError, CheckpointFile};
use lru_memory_folder::memory_folder::MemoryFolder;
use std::alloc::Global;
use std::test::Fail;

// 2^62, and the parts of a checkpoint of so many shards.
const MANY: u64 = 0x4000_0000_0000_0000;

const PARTS: u64 = 0x4000_0000_0000_0001;

// The numbers of manifests with a right check that claim 2^62 shards: length, parts, part, generation, rows. One claims as many
// rows too, which are not there, and one has none.
#[rattlefmt::skip]
static CLAIMS: [[u64; 5]; 2] = [
    [64, PARTS, MANY, 1, MANY],
    [64, PARTS, MANY, 1, 0],
];

// The newest of two checkpoints has such a manifest.
fn claims(alloc: Global, numbers: &[u64]) -> Result<MemoryFolder, CheckpointError> {
    let bytes = sealed(alloc, 2, numbers)?;
    Ok(with_other(alloc, &two(alloc)?, "d/c.1.manifest", Some(&bytes))?)
}

// Whether it is refused, and the checkpoint before it loaded.
fn is_passed_over(alloc: Global, folder: &mut MemoryFolder) -> Result<bool, CheckpointError> {
    let file = CheckpointFile::Manifest;
    let part = Part::Rows;
    let wanted = [(1, CheckpointError::Damaged { file, part })];
    let loaded = load_newest(alloc, folder)?;
    Ok((found_in(&loaded) == Some((0, 10))) & are_passed(&loaded.passed, &wanted))
}

// Whether that is so, and the next save keeps the checkpoint before it.
fn is_refused(alloc: Global, numbers: &[u64]) -> Result<bool, CheckpointError> {
    let mut folder = claims(alloc, numbers)?;
    let is_passed = is_passed_over(alloc, &mut folder)?;
    Ok(is_passed & (save_next(alloc, &mut folder, 12)?.kept == Some(0)))
}

// The first numbers whose manifest is not refused.
fn first_taken(alloc: Global) -> Result<Option<usize>, CheckpointError> {
    for (place, numbers) in CLAIMS.iter().enumerate() {
        if !is_refused(alloc, numbers)? {
            return Ok(Some(place));
        }
    }
    Ok(None)
}

#[test]
fn a_manifest_that_claims_too_many_shards(rt: HostRuntime) -> Result<(), Fail> {
    assert_eq!(rt; first_taken(rt.alloc())?, None);
    Ok(())
}

// A folder with a checkpoint of version 1: one shard with a row, and the manifest, whose name has no number.
fn of_version_one(alloc: Global) -> Result<MemoryFolder, CheckpointError> {
    let frame = sealed(alloc, 1, &[88, 2, 0, 0, 1, 5, 9, 3])?;
    let manifest = sealed(alloc, 1, &[88, 2, 1, 0, 1, 1, 7, 88])?;
    let folder = empty(alloc)?.with("d/c.0.0", &frame)?;
    Ok(folder.with("d/c.manifest", &manifest)?)
}

#[test]
fn files_of_version_one_are_none(rt: HostRuntime) -> Result<(), Fail> {
    assert!(rt; has_none(rt.alloc(), of_version_one(rt.alloc())?)?);
    Ok(())
}
