//! In which order the system's folder lists its files.
use log::{Level, Logged, sink};
use lru_folder::fault::FolderFault;
use lru_folder::folder::Folder;
use lru_folder::listed::Listed;
use lru_host_folder::host_folder::HostFolder;
use std::fs;
use std::test::Fail;

const LISTED: [&str; 7] = ["a", "b", "c", "k", "m", "x", "z"];

// Makes files, in no order, nor in the reverse of one.
fn make<F: Folder>(folder: &mut F) -> Result<(), FolderFault> {
    folder.make("listed_here")?;
    for path in [
        "listed_here/m",
        "listed_here/c",
        "listed_here/z",
        "listed_here/a",
        "listed_here/x",
        "listed_here/b",
        "listed_here/k",
    ] {
        folder.create(path)?;
        folder.flush()?;
    }
    Ok(())
}

fn are_in_order(listed: &[Listed]) -> bool {
    listed.len() == LISTED.len()
        && listed.iter().zip(LISTED).all(|(listed, name)| match listed {
            Listed::Name(listed) => listed.as_str() == name,
            Listed::Unreadable => false,
        })
}

fn lists_in_order<F: Folder>(folder: &mut F) -> Result<bool, FolderFault> {
    make(folder)?;
    let listed = folder.list("listed_here")?;
    Ok(are_in_order(&listed))
}

#[test]
fn files_are_listed_in_order(rt: HostRuntime) -> Result<(), Fail> {
    let mut folder = HostFolder::new(Logged::new(rt, Level::Warn, sink::Discard));
    let in_order = lists_in_order(&mut folder);
    fs::remove_dir_all(&rt, "listed_here")?;
    assert!(rt; in_order == Ok(true));
    Ok(())
}
