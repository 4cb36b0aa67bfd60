//! Which of the system's files and folders are synced.
use crate::counted::Counted;
use log::{Level, Logged, sink};
use lru_folder::fault::FolderFault;
use lru_folder::folder::Folder;
use lru_folder::synced_folder::SyncedFolder;
use lru_host_folder::host_folder::HostFolder;
use std::fs;
use std::sync::atomic::{AtomicUsize, Ordering};
use std::test::Fail;

/// Makes two folders below one that is not there, and one more below that, and saves a file in it as a save does: how many
/// syncs there were after each.
fn count_syncs<F: Folder>(folder: &mut F, syncs: &AtomicUsize) -> Result<[usize; 4], FolderFault> {
    folder.make("synced_here/a/b")?;
    let three = syncs.load(Ordering::SeqCst);
    folder.make("synced_here//a/c/")?;
    let one = syncs.load(Ordering::SeqCst);
    folder.make("synced_here/a/c")?;
    let none = syncs.load(Ordering::SeqCst);
    folder.create("synced_here/a/c/t")?;
    folder.sync()?;
    folder.rename("synced_here/a/c/t", "synced_here/a/c/f")?;
    let saved = syncs.load(Ordering::SeqCst);
    Ok([three, one, none, saved])
}

#[test]
fn each_folder_that_is_made_is_synced_into_the_one_above(rt: HostRuntime) -> Result<(), Fail> {
    let syncs = AtomicUsize::new(0);
    let counted = Counted::new(rt, &syncs);
    let mut folder = HostFolder::new(Logged::new(counted, Level::Warn, sink::Discard));
    let counts = count_syncs(&mut folder, &syncs);
    fs::remove_dir_all(&rt, "synced_here")?;
    assert!(rt; counts == Ok([3, 4, 4, 6]));
    Ok(())
}

#[test]
fn the_names_in_a_folder_are_synced_where_it_is_there(rt: HostRuntime) -> Result<(), Fail> {
    let syncs = AtomicUsize::new(0);
    let counted = Counted::new(rt, &syncs);
    let mut folder = HostFolder::new(Logged::new(counted, Level::Warn, sink::Discard));
    assert!(rt; folder.sync_dir("") == Ok(()));
    assert!(rt; folder.sync_dir("./") == Ok(()));
    assert!(rt; folder.sync_dir("not_there") == Err(FolderFault::NotFound));
    assert_eq!(rt; syncs.load(Ordering::SeqCst), 2);
    Ok(())
}
