//! A folder without checkpoints, and how errors are shown.
use crate::fixture::{empty, has_none, load_newest, save_next};
use lru_folder::fault::FolderFault;
use lru_folder::folder_call::FolderCall;
use lru_frames::errors::Part;
use lru_generations::errors::{CheckpointError, CheckpointFile};
use lru_generations::file_errors::CallFault;
use lru_memory_folder::memory_folder::MemoryFolder;
use std::alloc::{AllocError, Global};
use std::test::Fail;

#[test]
fn a_folder_without_checkpoints(rt: HostRuntime) -> Result<(), Fail> {
    assert!(rt; has_none(rt.alloc(), empty(rt.alloc())?)?);
    Ok(())
}

// That the folder is not there, as this call finds it.
fn not_found(call: FolderCall) -> CheckpointError {
    let source = FolderFault::NotFound;
    let fault = CallFault { call, source };
    let file = CheckpointFile::Names;
    CheckpointError::Folder { file, fault }
}

#[test]
fn no_folder(rt: HostRuntime) -> Result<(), Fail> {
    let mut folder = MemoryFolder::new(rt.alloc());
    let saved = save_next(rt.alloc(), &mut folder, 10).err();
    let loaded = load_newest(rt.alloc(), &mut folder).err();
    let wanted = (not_found(FolderCall::Claim), not_found(FolderCall::List));
    assert_eq!(rt; (saved, loaded), (Some(wanted.0), Some(wanted.1)));
    Ok(())
}

const SHARD: CheckpointFile = CheckpointFile::Shard(3);

// Errors, and how they are shown.
#[rattlefmt::skip]
static TEXTS: [(CheckpointError, &str); 8] = [
    (CheckpointError::Memory, "out of memory"),
    (CheckpointError::Folder { file: SHARD, fault: CallFault { call: FolderCall::Read, source: FolderFault::Io } }, "shard 3: input or output failed"),
    (CheckpointError::Folder { file: CheckpointFile::Names, fault: CallFault { call: FolderCall::List, source: FolderFault::Io } }, "folder: input or output failed"),
    (CheckpointError::Missing { file: SHARD }, "shard 3: not there"),
    (CheckpointError::Damaged { file: CheckpointFile::Manifest, part: Part::Check }, "manifest: damaged check"),
    (CheckpointError::Other { file: SHARD }, "shard 3: of another checkpoint"),
    (CheckpointError::LastGeneration, "no generation is left"),
    (CheckpointError::InUse, "another save is at work in the folder"),
];

// The first error that is shown otherwise.
fn first_other(alloc: Global) -> Result<Option<CheckpointError>, AllocError> {
    for (error, text) in &TEXTS {
        if error.to_string(alloc)?.as_str() != *text {
            return Ok(Some(*error));
        }
    }
    Ok(None)
}

#[test]
fn texts(rt: HostRuntime) -> Result<(), Fail> {
    let other = first_other(rt.alloc())?;
    assert_eq!(rt; other, None);
    Ok(())
}
