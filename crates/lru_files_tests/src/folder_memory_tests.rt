//! Want of memory in the calls of a folder in memory: a call does what it is to do, or answers `Memory` and leaves the files
//! as they were; then it is made again, and does it. The gate runs this with memory for all; `rt try --test --fail-alloc N`
//! refuses the request number N. The gate's sweep refuses each request of `lru_sweep` in turn, which has saves and loads
//! over such a folder.
ghost use Rattle.std.specs.Prelude.{◌≡◌};
ghost use Rattle.pingora_lru_files.specs.Folder.{IsWriting};

use lru_test_folders::told::told_names;
use pingora_lru_files::persistence::{Folder, FolderFault, MemoryFolder};
use std::alloc::{AllocError, Global};
use std::test::Fail;

/// Counts a refusal. Whether it is for want of memory.
fn count(refusals: &mut usize, fault: FolderFault) -> bool {
    *refusals = refusals.saturating_add(1);
    fault == FolderFault::Memory
}

/// Puts a piece at the end of the open file, which has the bytes `before`. Whether it is put, at the second try at last.
fn piece_at_last(
    refusals: &mut usize,
    folder: &mut MemoryFolder,
    path: &str,
    before: &[u8],
    piece: &[u8],
) -> bool
    requires { IsWriting folder.old.opened }
    ensures { folder.new.opened ≡ folder.old.opened }
{
    match folder.write(piece) {
        Ok(()) => true,
        Err(fault) => {
            let is_kept = folder.get(path) == Some(before);
            count(refusals, fault) & is_kept & folder.write(piece).is_ok()
        }
    }
}

/// Makes a folder, and a file in it.
fn write_at_last(refusals: &mut usize, folder: &mut MemoryFolder, path: &str) -> bool {
    let is_made = match folder.make("d/e") {
        Ok(()) => true,
        Err(fault) => count(refusals, fault) & folder.make("d/e").is_ok(),
    };
    let mut is_created = true;
    if let Err(fault) = folder.create(path) {
        is_created = count(refusals, fault) & folder.get(path).is_none();
        if let Err(_) = folder.create(path) {
            return false;
        }
    }
    let is_first = piece_at_last(refusals, folder, path, b"", b"12");
    let is_second = piece_at_last(refusals, folder, path, b"12", b"345");
    let is_flushed = match folder.flush() {
        Ok(()) => true,
        Err(fault) => count(refusals, fault) & folder.flush().is_ok(),
    };
    let is_synced = match folder.sync() {
        Ok(()) => true,
        Err(fault) => count(refusals, fault) & folder.sync().is_ok(),
    };
    let is_written = is_made & is_created & is_first & is_second & is_flushed & is_synced;
    is_written & (folder.get(path) == Some(b"12345".as_slice()))
}

/// Opens that file and reads it in two pieces.
fn pieces_of(
    folder: &mut MemoryFolder,
    path: &str,
) -> Result<(u64, Vec<u8>, Vec<u8>), FolderFault> {
    let len = folder.open(path)?;
    let first = folder.read(3)?;
    let second = folder.read(3)?;
    Ok((len, first, second))
}

/// Whether it is read so. A refused piece leaves the place in the file unknown, so it is opened anew.
fn read_at_last(refusals: &mut usize, folder: &mut MemoryFolder, path: &str) -> bool {
    let (is_right, pieces) = match pieces_of(folder, path) {
        Ok(pieces) => (true, Ok(pieces)),
        Err(fault) => (count(refusals, fault), pieces_of(folder, path)),
    };
    match &pieces {
        Ok((len, first, second)) => {
            let are_read = (first.as_slice(), second.as_slice())
                == (b"123".as_slice(), b"45".as_slice());
            is_right & (*len == 5) & are_read
        }
        Err(_) => false,
    }
}

/// Whether the file stands at the one path, and nothing at the other.
fn stands_at(folder: &MemoryFolder, path: &str, other: &str) -> bool {
    (folder.get(path) == Some(b"12345".as_slice())) & folder.get(other).is_none()
}

/// Gives that file another name.
fn move_at_last(refusals: &mut usize, folder: &mut MemoryFolder, path: &str) -> bool {
    let mut is_right = true;
    if let Err(fault) = folder.rename(path, "d/b") {
        is_right = count(refusals, fault) & stands_at(folder, path, "d/b");
        is_right = is_right & folder.rename(path, "d/b").is_ok();
    }
    is_right & stands_at(folder, "d/b", path)
}

/// Whether the folder `d` lists both files, if that is not refused memory.
fn lists_both(alloc: Global, folder: &mut MemoryFolder) -> Option<bool> {
    match told_names(alloc, folder, "d") {
        Ok(names) if names.as_str() == "out of memory" => None,
        Ok(names) => Some(names.as_str() == "a b "),
        Err(AllocError) => None,
    }
}

/// Lists that folder.
fn list_at_last(alloc: Global, refusals: &mut usize, folder: &mut MemoryFolder) -> bool {
    match lists_both(alloc, folder) {
        Some(is_right) => is_right,
        None => {
            *refusals = refusals.saturating_add(1);
            lists_both(alloc, folder) == Some(true)
        }
    }
}

/// Removes the file.
fn remove_at_last(refusals: &mut usize, folder: &mut MemoryFolder) -> bool {
    let mut is_right = true;
    if let Err(fault) = folder.remove("d/b") {
        let is_kept = folder.get("d/b") == Some(b"12345".as_slice());
        is_right = count(refusals, fault) & is_kept & folder.remove("d/b").is_ok();
    }
    is_right & folder.get("d/b").is_none()
}

/// A folder with one file, at the second try where the first is refused.
fn with_at_last(alloc: Global, refusals: &mut usize) -> Result<MemoryFolder, AllocError> {
    match MemoryFolder::new(alloc).with("d/a", b"1") {
        Ok(folder) => Ok(folder),
        Err(AllocError) => {
            *refusals = refusals.saturating_add(1);
            MemoryFolder::new(alloc).with("d/a", b"1")
        }
    }
}

/// All calls of a folder.
fn calls_at_last(alloc: Global, refusals: &mut usize) -> Result<bool, AllocError> {
    let mut folder = with_at_last(alloc, refusals)?;
    let is_first = folder.get("d/a") == Some(b"1".as_slice());
    let is_written = write_at_last(refusals, &mut folder, "d/e/b");
    let is_read = read_at_last(refusals, &mut folder, "d/e/b");
    let is_moved = move_at_last(refusals, &mut folder, "d/e/b");
    let is_listed = list_at_last(alloc, refusals, &mut folder);
    let is_removed = remove_at_last(refusals, &mut folder);
    let is_last = folder.get("d/a") == Some(b"1".as_slice());
    Ok(is_first & is_written & is_read & is_moved & is_listed & is_removed & is_last)
}

/// Whether all of that is right twice, where one call at most is refused memory.
fn calls_twice(alloc: Global) -> Result<bool, AllocError> {
    let mut refusals = 0;
    let first = calls_at_last(alloc, &mut refusals)?;
    let second = calls_at_last(alloc, &mut refusals)?;
    Ok(first & second & (refusals <= 1))
}

#[test]
fn the_calls_of_a_folder(rt: HostRuntime) -> Result<(), Fail> {
    assert!(rt; calls_twice(rt.alloc())?);
    Ok(())
}
