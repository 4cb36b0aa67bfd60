//! A folder of the system that one saver has for itself.
use lru_folder::fault::FolderFault;
use lru_folder::folder::Folder;
use lru_folder::synced_folder::SyncedFolder;
use lru_host_folder::host_folder::HostFolder;
use std::fs;
use std::test::Fail;

/// Whether the one has the folder alone, until it leaves it, and then the other does, until it claims another one.
fn are_alone<F: SyncedFolder, G: SyncedFolder>(
    one: &mut F,
    other: &mut G,
) -> Result<bool, FolderFault> {
    one.make("claimed_here/next")?;
    let mut is_told = one.claim_dir("claimed_here")? & !other.claim_dir("claimed_here/")?;
    is_told &= one.claim_dir("claimed_here")?;
    one.leave_dir();
    is_told &= other.claim_dir("claimed_here")? & !one.claim_dir("claimed_here")?;
    is_told &= other.claim_dir("claimed_here/next")? & one.claim_dir("claimed_here")?;
    Ok(is_told & (other.claim_dir("claimed_here/none") == Err(FolderFault::NotFound)))
}

#[test]
fn one_saver_at_a_time_has_a_folder(rt: HostRuntime) -> Result<(), Fail> {
    let mut one = HostFolder::new(rt);
    let mut other = HostFolder::new(rt);
    let are_alone = are_alone(&mut one, &mut other);
    drop(other);
    let next = one.claim_dir("claimed_here/next");
    fs::remove_dir_all(&rt, "claimed_here")?;
    assert!(rt; are_alone == Ok(true));
    assert!(rt; next == Ok(true));
    Ok(())
}
