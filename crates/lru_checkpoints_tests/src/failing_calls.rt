//! Each call of the system fails in turn.
use crate::script::Script;
use lru_folder::fault::FolderFault;
use lru_folder::folder::Folder;
use lru_folder::listed::Listed;
use lru_folder::synced_folder::SyncedFolder;
use lru_host_folder::host_folder::SystemFolder;
use std::alloc::Global;
use std::io::ErrorKind;
use std::test::Fail;

/// Makes a folder, claims it, saves a file in it and syncs its name.
pub fn save<F: SyncedFolder>(folder: &mut F) -> Result<(), FolderFault> {
    folder.make("a/b/")?;
    if !folder.claim_dir("a/b")? {
        return Err(FolderFault::Io);
    }
    folder.create("a/b/t")?;
    folder.write(b"abc")?;
    folder.flush()?;
    folder.sync()?;
    folder.rename("a/b/t", "a/b/f")?;
    folder.sync_dir("a/b")?;
    folder.leave_dir();
    Ok(())
}

/// Lists the folder, reads the file and takes it away: how many names were listed.
pub fn load<F: SyncedFolder>(folder: &mut F) -> Result<Vec<Listed>, FolderFault> {
    let listed = folder.list("a/b")?;
    folder.open("a/b/f")?;
    let piece = folder.read(3)?;
    if piece.len() != 3 {
        return Err(FolderFault::Io);
    }
    folder.remove("a/b/f")?;
    Ok(listed)
}

/// Whether a fault is answered where the call at each place fails, up to a run in which no call fails; and how many calls
/// there were.
fn answers_each(
    alloc: Global,
    kind: ErrorKind,
    leftover: bool,
    told: FolderFault,
) -> Option<usize> {
    for failing in 0..100usize {
        let mut folder = SystemFolder::over(Script::new(alloc, failing, kind, leftover));
        let saved = save(&mut folder);
        let loaded = if saved.is_ok() {
            load(&mut folder).map(|_| ())
        } else {
            saved
        };
        let answer = if folder.system().has_failed() {
            Err(told)
        } else {
            Ok(())
        };
        if loaded != answer {
            return None;
        }
        if answer.is_ok() {
            return Some(failing);
        }
    }
    None
}

#[test]
fn each_call_that_fails_is_answered(rt: HostRuntime) -> Result<(), Fail> {
    let alloc = rt.alloc();
    assert_eq!(rt;
        answers_each(alloc, ErrorKind::PermissionDenied, false, FolderFault::Io),
        Some(26)
    );
    assert_eq!(rt;
        answers_each(alloc, ErrorKind::StorageFull, false, FolderFault::Io),
        Some(26)
    );
    Ok(())
}

#[test]
fn each_call_that_fails_over_a_leftover_is_answered(rt: HostRuntime) -> Result<(), Fail> {
    let alloc = rt.alloc();
    assert_eq!(rt;
        answers_each(alloc, ErrorKind::PermissionDenied, true, FolderFault::Io),
        Some(32)
    );
    Ok(())
}
