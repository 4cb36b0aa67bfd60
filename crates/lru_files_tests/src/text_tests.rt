//! The texts of faults, failures and errors, each once.
use pingora_lru_files::persistence::{
    FolderFault, ShardFileError, ShardLoadFailure, ShardSaveError, ShardSaveFailure,
    ShardSaveSetupError,
};
use std::alloc::{AllocError, Global};
use std::fmt::Display;
use std::test::Fail;

/// Whether the value is shown as that text.
fn is_shown<D: Display>(alloc: Global, value: &D, text: &str) -> Result<bool, AllocError> {
    Ok(value.to_string(alloc)?.as_str() == text)
}

fn text(alloc: Global, letters: &str) -> Result<String, AllocError> {
    String::from_str(alloc, letters)
}

/// How each fault is shown.
static FAULTS: [(FolderFault, &str); 3] = [
    (FolderFault::NotFound, "not found"),
    (FolderFault::Memory, "out of memory"),
    (FolderFault::Io, "input or output failed"),
];

/// The first fault, if there is one, that is shown otherwise.
fn wrong_fault(alloc: Global) -> Result<Option<FolderFault>, AllocError> {
    for &(fault, text) in &FAULTS {
        if !is_shown(alloc, &fault, text)? {
            return Ok(Some(fault));
        }
    }
    Ok(None)
}

#[test]
fn faults(rt: HostRuntime) -> Result<(), Fail> {
    assert_eq!(rt; wrong_fault(rt.alloc())?, None);
    Ok(())
}

/// What an error about a file is about.
#[derive(Clone, Copy, Debug)]
enum About {
    Create,
    Write,
    Flush,
    Sync,
    Open,
    Read,
    ReadDir,
    ReadDirEntry,
    Remove,
    RenameToShard1,
}

/// Errors about files: what they are about, the path, the cause, and how they are shown.
static FILE_ERRORS: [(About, &str, FolderFault, &str); 10] = [
    (
        About::Create,
        "d/t",
        FolderFault::Io,
        "failed to create d/t: input or output failed",
    ),
    (
        About::Write,
        "d/t",
        FolderFault::Memory,
        "failed to write to d/t: out of memory",
    ),
    (
        About::Flush,
        "d/t",
        FolderFault::Io,
        "failed to flush temp file d/t: input or output failed",
    ),
    (
        About::Sync,
        "d/t",
        FolderFault::Io,
        "failed to sync d/t: input or output failed",
    ),
    (
        About::Open,
        "d/c.1",
        FolderFault::Memory,
        "failed to open d/c.1: out of memory",
    ),
    (
        About::Read,
        "d/c.1",
        FolderFault::Io,
        "failed to read from d/c.1: input or output failed",
    ),
    (
        About::ReadDir,
        "d",
        FolderFault::Io,
        "failed to read directory d: input or output failed",
    ),
    (
        About::ReadDirEntry,
        "d",
        FolderFault::Io,
        "failed to read directory entry in d: input or output failed",
    ),
    (
        About::Remove,
        "d/t",
        FolderFault::Io,
        "failed to remove temp file d/t: input or output failed",
    ),
    (
        About::RenameToShard1,
        "d/t",
        FolderFault::NotFound,
        "failed to rename file from d/t to d/c.1: not found",
    ),
];

/// The error.
fn file_error(
    alloc: Global,
    about: About,
    path: &str,
    source: FolderFault,
) -> Result<ShardFileError, AllocError> {
    let path = text(alloc, path)?;
    Ok(match about {
        About::Create => ShardFileError::Create { path, source },
        About::Write => ShardFileError::Write { path, source },
        About::Flush => ShardFileError::Flush { path, source },
        About::Sync => ShardFileError::Sync { path, source },
        About::Open => ShardFileError::Open { path, source },
        About::Read => ShardFileError::Read { path, source },
        About::ReadDir => ShardFileError::ReadDir { path, source },
        About::ReadDirEntry => ShardFileError::ReadDirEntry { path, source },
        About::Remove => ShardFileError::Remove { path, source },
        About::RenameToShard1 => {
            let to = text(alloc, "d/c.1")?;
            ShardFileError::Rename {
                from: path,
                to,
                source,
            }
        }
    })
}

/// The first error, if there is one, that is shown otherwise.
fn wrong_file_error(alloc: Global) -> Result<Option<usize>, AllocError> {
    for (place, (about, path, source, text)) in FILE_ERRORS.iter().enumerate() {
        let error = file_error(alloc, *about, path, *source)?;
        if !is_shown(alloc, &error, text)? {
            return Ok(Some(place));
        }
    }
    Ok(None)
}

#[test]
fn errors_about_files(rt: HostRuntime) -> Result<(), Fail> {
    assert_eq!(rt; wrong_file_error(rt.alloc())?, None);
    Ok(())
}

/// The shards that are not saved, each for its reason, a line each.
fn told_unsaved(alloc: Global) -> Result<String, AllocError> {
    let refused = ShardSaveFailure::Serialize {
        shard: 1,
        source: "no",
    };
    let path = text(alloc, "d/c.1.0000002a.tmp")?;
    let source = FolderFault::Io;
    let source = ShardFileError::Create { path, source };
    let failed: ShardSaveFailure<&str> = ShardSaveFailure::Io { shard: 1, source };
    let full: ShardSaveFailure<&str> = ShardSaveFailure::Memory { shard: 20 };
    format!(in alloc; "{refused}\n{failed}\n{full}\n")
}

#[test]
fn shards_that_are_not_saved(rt: HostRuntime) -> Result<(), Fail> {
    assert_eq!(rt;
        told_unsaved(rt.alloc())?.as_str(),
        "failed to serialize shard 1: no\nfailed to save shard 1: failed to create d/c.1.0000002a.tmp: input or output failed\nfailed to save shard 20: out of memory\n"
    );
    Ok(())
}

/// The shards that are not loaded, each for its reason, a line each.
fn told_unloaded(alloc: Global) -> Result<String, AllocError> {
    let path = text(alloc, "d/c.0")?;
    let source = FolderFault::Io;
    let source = ShardFileError::Read { path, source };
    let failed: ShardLoadFailure<&str> = ShardLoadFailure::Io { shard: 0, source };
    let full: ShardLoadFailure<&str> = ShardLoadFailure::Memory { shard: 3 };
    let refused = ShardLoadFailure::Deserialize {
        shard: 2,
        source: "damaged",
    };
    format!(in alloc; "{failed}\n{full}\n{refused}\n")
}

#[test]
fn shards_that_are_not_loaded(rt: HostRuntime) -> Result<(), Fail> {
    assert_eq!(rt;
        told_unloaded(rt.alloc())?.as_str(),
        "failed to load shard 0: failed to read from d/c.0: input or output failed\nfailed to load shard 3: out of memory\nfailed to deserialize shard 2: damaged\n"
    );
    Ok(())
}

/// The saves that fail as a whole, each for its reason, a line each.
fn told_saves(alloc: Global) -> Result<String, AllocError> {
    let path = text(alloc, "d")?;
    let source = FolderFault::Io;
    let folder = ShardSaveSetupError::CreateDir { path, source };
    let full = ShardSaveSetupError::Memory;
    let mut told = format!(in alloc; "{full}\n{folder}\n")?;
    let setup: ShardSaveError<&str> = ShardSaveError::Setup(folder);
    let all: ShardSaveError<&str> = ShardSaveError::AllShardsFailed {
        shards: 0,
        failures: Vec::new(alloc),
    };
    write!(told, "{setup}\n{all}\n")?;
    Ok(told)
}

#[test]
fn saves(rt: HostRuntime) -> Result<(), Fail> {
    assert_eq!(rt;
        told_saves(rt.alloc())?.as_str(),
        "out of memory\nfailed to create d: input or output failed\nfailed to create d: input or output failed\nAll 0 shards failed to save; see prior warnings for per-shard causes.\n"
    );
    Ok(())
}
