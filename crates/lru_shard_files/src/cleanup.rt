//! Temp files that a save has left, and their removal.
ghost use Rattle.std.specs.Prelude.{◌≡◌, ◌↔◌, ◌+◌, ◌<◌, ◌≤◌, [], ◌∷◌, ◌++◌, List, IfOk, OnErr, count_by, filter, is_none, map, replicate, string_bytes, vec_capacity, vec_len};
ghost use Rattle.std.specs.List.{filter_map};
ghost use Rattle.lru_folder.specs.Blames.{blame_of, ReadDir, ReadDirEntry};
ghost use Rattle.lru_shard_files.specs.Cleanup.{AreThere, IsCleanup, RemovesEach, RemovesOne, RemovesTemps, Removal, is_removed, removal_blame, temp_paths};
ghost use Rattle.lru_folder.specs.Folder.{InOrder};
ghost use Rattle.lru_folder.specs.Listings.{name_of};
ghost use Rattle.lru_folder.specs.Names.{is_temp_name, path_text};
ghost use Rattle.lru_folder.specs.Places.{listing};
ghost use Rattle.lru_folder.specs.Sparing.{SparesAllBut};

use lru_folder::errors::ShardFileError;
use lru_folder::fault::FolderFault;
use lru_folder::folder::Folder;
use lru_folder::listed::Listed;
use lru_folder::names::{is_temp_name, path_of};
use lru_folder::reports::TempFileCleanupReport;
use std::alloc::{AllocError, Global};

/// What a listed folder has for a cleanup: the paths of its temp files, and a failure for each name that is no text.
#[derive(Drop)]
struct TempFiles {
    paths: Vec<String>,
    unreadable: Vec<ShardFileError>,
}

/// The temp files among what was listed.
fn temp_files(
    alloc: Global,
    dir_path: &str,
    file_name: &str,
    listed: &[Listed],
) -> Result<TempFiles, AllocError>
    ensures paths { IfOk result (λ found. map string_bytes found.paths.items
        ≡ map (path_text dir_path.now) (filter (is_temp_name file_name.now) (filter_map name_of listed.now))) }
    ensures unreadable { IfOk result (λ found. map blame_of found.unreadable.items
        ≡ replicate (count_by (λ entry. is_none (name_of entry)) listed.now) (record { call = ReadDirEntry; path = dir_path.now; cause = FolderFault.Io })) }
{
    let mut paths = Vec::new(alloc);
    let mut unreadable = Vec::new(alloc);
    for entry in listed {
        match entry {
            Listed::Name(name) => {
                if is_temp_name(file_name, name) {
                    paths.push(path_of(alloc, dir_path, name)?)?;
                }
            }
            Listed::Unreadable => {
                let path = String::from_str(alloc, dir_path)?;
                let source = FolderFault::Io;
                unreadable.push(ShardFileError::ReadDirEntry { path, source })?;
            }
        }
    }
    Ok(TempFiles { paths, unreadable })
}

/// Removes each path, and answers how many are gone. Its failures stand in room that the caller has made.
fn remove_each<F: Folder>(
    folder: &mut F,
    paths: Vec<String>,
    failures: &mut Vec<ShardFileError>,
) -> usize
    requires room { vec_len failures.old + vec_len paths ≤ vec_capacity failures.old }
    requires there { F.meaning.keeps folder.old → AreThere (F.meaning.files folder.old) (map string_bytes paths.items) }
    ensures removals { (removals : List Removal)
        × (F.meaning.keeps folder.old → RemovesEach (map string_bytes paths.items) (F.meaning.faults folder.old < F.meaning.faults folder.new) (F.meaning.files folder.old) (F.meaning.files folder.new) removals)
        × (F.meaning.keeps folder.old → InOrder (RemovesOne F.meaning) 0 removals folder.old folder.new)
        × (result ≡ count_by is_removed removals)
        × (map blame_of failures.new.items ≡ map blame_of failures.old.items ++ filter_map removal_blame removals) }
    ensures spares { F.meaning.keeps folder.old → SparesAllBut F.meaning (map string_bytes paths.items) folder.old folder.new }
    ensures room { vec_len failures.new ≤ vec_len failures.old + vec_len paths }
    ensures capacity { vec_capacity failures.old ≤ vec_capacity failures.new }
    ensures later { F.meaning.keeps folder.old → F.meaning.faults folder.old ≤ F.meaning.faults folder.new }
    ensures places { F.meaning.keeps folder.old → F.meaning.folders folder.new ≡ F.meaning.folders folder.old }
    ensures kept { F.meaning.keeps folder.old ↔ F.meaning.keeps folder.new }
{
    let mut removed_files = 0;
    for path in paths {
        if let Err(source) = folder.remove(&path) {
            failures
                .push(ShardFileError::Remove { path, source })
                .unwrap();
        } else {
            removed_files += 1;
        }
    }
    removed_files
}

/// Removes the temp files of a folder that was listed. `AllocError`: no call of the folder was made.
fn remove_listed<F: Folder>(
    alloc: Global,
    folder: &mut F,
    dir_path: &str,
    file_name: &str,
    listed: &[Listed],
) -> Result<TempFileCleanupReport, AllocError>
    requires { F.meaning.keeps folder.old → map name_of listed.now ≡ listing dir_path.now (F.meaning.files folder.old) }
    ensures ok { F.meaning.keeps folder.old → IfOk result (RemovesTemps F.meaning
        dir_path.now file_name.now folder.old folder.new) }
    ensures err { OnErr result (folder.new ≡ folder.old) }
    ensures spares { F.meaning.keeps folder.old → SparesAllBut F.meaning (temp_paths dir_path.now file_name.now (F.meaning.files folder.old)) folder.old folder.new }
    ensures later { F.meaning.keeps folder.old → F.meaning.faults folder.old ≤ F.meaning.faults folder.new }
    ensures places { F.meaning.keeps folder.old → F.meaning.folders folder.new ≡ F.meaning.folders folder.old }
    ensures kept { F.meaning.keeps folder.old ↔ F.meaning.keeps folder.new }
{
    let TempFiles {
        paths,
        mut unreadable,
    } = temp_files(alloc, dir_path, file_name, listed)?;
    let mut failures = Vec::with_capacity(alloc, paths.len() + unreadable.len())?;
    let removed_files = remove_each(folder, paths, &mut failures);
    failures.append(&mut unreadable).unwrap();
    Ok(TempFileCleanupReport {
        removed_files,
        failures,
    })
}

/// The report of a cleanup whose folder the device kept from being listed.
fn unlisted_report(alloc: Global, dir_path: &str) -> Result<TempFileCleanupReport, AllocError>
    ensures removed { IfOk result (λ report. report.removed_files ≡ 0) }
    ensures blamed { IfOk result (λ report. map blame_of report.failures.items ≡ record { call = ReadDir; path = dir_path.now; cause = FolderFault.Io } ∷ []) }
{
    let path = String::from_str(alloc, dir_path)?;
    let source = FolderFault::Io;
    let failures = vec![in alloc; ShardFileError::ReadDir { path, source }]?;
    Ok(TempFileCleanupReport {
        removed_files: 0,
        failures,
    })
}

/// Removes the folder's temp files, whose names begin with the file's name and end in `.tmp`.
///
/// A name that cannot be read is a failure, and so is a file that cannot be removed; the rest goes on.
/// A folder that is not there gives the empty report. `AllocError`: nothing was removed.
pub(crate) fn remove_temp_files<F: Folder>(
    alloc: Global,
    folder: &mut F,
    dir_path: &str,
    file_name: &str,
) -> Result<TempFileCleanupReport, AllocError>
    ensures ok { F.meaning.keeps folder.old → IfOk result (IsCleanup F.meaning
        dir_path.now file_name.now folder.old folder.new) }
    ensures err { F.meaning.keeps folder.old → OnErr result (F.meaning.files folder.new ≡ F.meaning.files folder.old) }
    ensures spares { F.meaning.keeps folder.old → SparesAllBut F.meaning (temp_paths dir_path.now file_name.now (F.meaning.files folder.old)) folder.old folder.new }
    ensures later { F.meaning.keeps folder.old → F.meaning.faults folder.old ≤ F.meaning.faults folder.new }
    ensures places { F.meaning.keeps folder.old → F.meaning.folders folder.new ≡ F.meaning.folders folder.old }
    ensures kept { F.meaning.keeps folder.old ↔ F.meaning.keeps folder.new }
{
    match folder.list(dir_path) {
        Ok(listed) => remove_listed(alloc, folder, dir_path, file_name, &listed),
        Err(FolderFault::NotFound) => Ok(TempFileCleanupReport::new(alloc)),
        Err(FolderFault::Memory) => Err(AllocError),
        Err(FolderFault::Io) => unlisted_report(alloc, dir_path),
    }
}
