//! Loads and cleanups over a folder in memory.
use lru_test_folders::loads::{Wanted, load_telling};
use pingora_lru_files::persistence::MemoryFolder;
use std::alloc::{AllocError, Global};
use std::test::Fail;

/// Loads so many shards of `c`, whatever their bytes are, and tells that.
fn load(alloc: Global, folder: &mut MemoryFolder, shards: usize) -> Result<String, AllocError> {
    let (told, _) = load_telling(alloc, folder, ("d", shards, Wanted::Any))?;
    Ok(told)
}

/// Whether no temp file is left, and each other file is.
fn are_others_left(folder: &MemoryFolder) -> bool {
    (folder.get("d/c.0") == Some(b"old".as_slice()))
        & (folder.get("d/x.tmp") == Some(b"x".as_slice()))
        & folder.get("d/c.0.0000002a.tmp").is_none()
        & folder.get("d/cd.1.00000000.tmp").is_none()
}

/// Whether temp files of another name that begins with this one go too, and no other file does.
fn takes_temp_files(alloc: Global) -> Result<bool, AllocError> {
    let mut folder = MemoryFolder::new(alloc)
        .with("d/c.0", b"old")?
        .with("d/c.0.0000002a.tmp", b"new")?
        .with("d/cd.1.00000000.tmp", b"")?
        .with("d/x.tmp", b"x")?;
    let told = load(alloc, &mut folder, 0)?;
    let is_told = told.as_str() == "loaded 0 missing 0 errored 0\nremoved 2\n";
    Ok(is_told & are_others_left(&folder))
}

#[test]
fn cleanup_takes_temp_files(rt: HostRuntime) -> Result<(), Fail> {
    assert!(rt; takes_temp_files(rt.alloc())?);
    Ok(())
}

/// What is told of each of the first calls of a load of three shards where it fails.
static FAILURES: [&str; 4] = [
    "loaded 1 missing 1 errored 1\nfailed to load shard 0: failed to open d/c.0: input or output failed\nremoved 0\n",
    "loaded 1 missing 1 errored 1\nfailed to load shard 0: failed to read from d/c.0: input or output failed\nremoved 0\n",
    "loaded 1 missing 1 errored 1\nfailed to load shard 1: failed to open d/c.1: input or output failed\nremoved 0\n",
    "loaded 1 missing 1 errored 1\nfailed to load shard 1: failed to read from d/c.1: input or output failed\nremoved 0\n",
];

/// Whether a load of three shards, of which two are there, tells so where this call fails.
fn fails_so(alloc: Global, call: u64, text: &str) -> Result<bool, AllocError> {
    let mut folder = MemoryFolder::new(alloc)
        .with("d/c.0", b"zero")?
        .with("d/c.1", b"one")?;
    folder.fail_at(call, 0);
    Ok(load(alloc, &mut folder, 3)?.as_str() == text)
}

/// The first call, if there is one, whose failure is told otherwise.
fn wrong_call(alloc: Global) -> Result<Option<usize>, AllocError> {
    for (call, text) in FAILURES.iter().enumerate() {
        if !fails_so(alloc, call as u64, text)? {
            return Ok(Some(call));
        }
    }
    Ok(None)
}

// A fault of the device is no missing file.
#[test]
fn faults_are_no_missing_files(rt: HostRuntime) -> Result<(), Fail> {
    assert_eq!(rt; wrong_call(rt.alloc())?, None);
    Ok(())
}

/// Whether a file of many pages is passed on whole.
fn reads_it_whole(alloc: Global) -> Result<bool, AllocError> {
    let large = vec![in alloc; 7u8; 100_000]?;
    let mut folder = MemoryFolder::new(alloc).with("d/c.0", &large)?;
    let (told, _) = load_telling(alloc, &mut folder, ("d", 1, Wanted::Bytes(&large)))?;
    Ok(told.as_str() == "loaded 1 missing 0 errored 0\nremoved 0\n")
}

#[test]
fn a_large_file_is_read_whole(rt: HostRuntime) -> Result<(), Fail> {
    assert!(rt; reads_it_whole(rt.alloc())?);
    Ok(())
}
