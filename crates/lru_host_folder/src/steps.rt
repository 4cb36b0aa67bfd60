//! What a folder's calls are made of: a few calls of the system each.
ghost use Rattle.std.specs.Prelude.{◌≡◌, ◌≤◌, ◌++◌, ℕ, None, Some, [], ◌∷◌, true, drop, length, map, replicate, string_bytes, MatchBool, IfErr, IfOk, MatchResult, OnOk, Ok, Err, take};
ghost use Rattle.std.specs.IoError.{error_kind};
ghost use Rattle.lru_folder.specs.Listings.{name_of};
ghost use Rattle.lru_folder.specs.declared.fault.FolderFault.{FolderFault};
ghost use Rattle.lru_host_folder.specs.Calls.{after, Closes, Done, Fails, Locks, Matches, Measures, Opens, Reads, Removes, Renames, SeesFile, SeesFolder, SyncsFolder};
ghost use Rattle.lru_host_folder.specs.Steps.{fault_of, let_go, shut, interrupted, place_of, system_name, ends_name, way_to, AreMade, HasReason, IsClaimedCreation, IsCleared, IsCreation, IsMade, IsRemoval};

use crate::host_open::HostOpen;
use crate::system::System;
use lru_folder::fault::FolderFault;
use lru_folder::listed::Listed;
use std::alloc::{AllocError, Global};
use std::io::ErrorKind;
use std::{io, mem};

/// An error of the system that is `Io` to a folder. What the system said is logged.
pub(crate) fn refused<S: System>(
    system: &S,
    call: &str,
    path: &str,
    error: io::Error,
) -> FolderFault
    ensures { result ≡ FolderFault.Io }
{
    system.warn(call, path, &error);
    FolderFault::Io
}

/// What an error of the system is to a folder.
pub(crate) fn fault<S: System>(system: &S, call: &str, path: &str, error: io::Error) -> FolderFault
    ensures { result ≡ fault_of (error_kind error) }
{
    match error.kind() {
        ErrorKind::NotFound => FolderFault::NotFound,
        ErrorKind::OutOfMemory => FolderFault::Memory,
        _ => refused(system, call, path, error),
    }
}

/// What a folder answers where the system answers so.
pub(crate) fn answer<S: System, T>(
    system: &S,
    call: &str,
    path: &str,
    answered: io::Result<T>,
) -> Result<T, FolderFault>
    ensures { MatchResult answered (λ value. result ≡ Ok value) (λ error. result ≡ Err (fault_of (error_kind error))) }
{
    match answered {
        Ok(value) => Ok(value),
        Err(error) => Err(fault(system, call, path, error)),
    }
}

/// The folder of a path, as the system names it: the text before the last slash.
pub(crate) fn folder_of(path: &str) -> &str
    ensures { result.now ≡ place_of path.now }
{
    match path.rfind('/') {
        None => ".",
        Some(0) => "/",
        Some(at) => &path[..at],
    }
}

/// The system's name of a folder.
pub(crate) fn system_name(dir: &str) -> &str
    ensures { result.now ≡ system_name dir.now }
{
    if dir.is_empty() { "." } else { dir }
}

/// Closes the open file.
pub(crate) fn shut<S: System>(system: &mut S, file: &mut HostOpen<S::File>)
    ensures closed { file.new ≡ HostOpen.Closed }
    ensures noted { S.book.notes system.new ≡ shut S.book file.old (S.book.notes system.old) }
{
    match mem::replace(file, HostOpen::Closed) {
        HostOpen::Closed => {}
        HostOpen::Writing(open, _) => system.close(open),
        HostOpen::Reading(open, _) => system.close(open),
    }
}

/// Lets go of a folder that was claimed.
pub(crate) fn let_go<S: System>(system: &mut S, claimed: &mut Option<S::File>)
    ensures free { claimed.new ≡ None }
    ensures noted { S.book.notes system.new ≡ let_go S.book claimed.old (S.book.notes system.old) }
{
    if let Some(folder) = claimed.take() {
        system.close(folder);
    }
}

/// Opens a file to read, with its length. What is no file, as a link or a pipe, is refused before it is opened.
pub(crate) fn open_file<S: System>(system: &mut S, path: &str) -> io::Result<(S::File, u64)>
    ensures done { IfOk result (λ opened. S.book.notes system.new ≡ after S.book.note (S.book.notes system.old)
        (Done (SeesFile path.now true) ∷ Done (Opens path.now) ∷ Done (Measures (S.book.at_path path.now) opened.1) ∷ [])) }
    ensures place { IfOk result (λ opened. S.book.file_of opened.0 ≡ S.book.at_path path.now) }
    ensures reason { IfErr result (λ error. Fails S.book.note (error_kind error) (S.book.notes system.old) (S.book.notes system.new)) }
{
    if !system.is_file(path)? {
        return Err(io::Error::new(ErrorKind::InvalidInput, "not a file"));
    }
    let file = system.open(path)?;
    let len = system.len(&file)?;
    Ok((file, len))
}

/// Opens a folder. What is no folder is refused before it is opened.
pub(crate) fn open_folder<S: System>(system: &mut S, dir: &str) -> io::Result<S::File>
    ensures done { OnOk result (S.book.notes system.new ≡ after S.book.note (S.book.notes system.old)
        (Done (SeesFolder dir.now true) ∷ Done (Opens dir.now) ∷ [])) }
    ensures place { IfOk result (λ folder. S.book.file_of folder ≡ S.book.at_path dir.now) }
    ensures reason { IfErr result (λ error. Fails S.book.note (error_kind error) (S.book.notes system.old) (S.book.notes system.new)) }
{
    if !system.is_folder(dir)? {
        return Err(io::Error::new(ErrorKind::NotADirectory, "not a folder"));
    }
    system.open(dir)
}

/// Of a file that another folder has open.
fn in_use() -> io::Error
    ensures { error_kind result ≡ ErrorKind.ResourceBusy }
{
    io::Error::new(ErrorKind::ResourceBusy, "in use by another folder")
}

/// Claims an open file, if no other open has claimed it and the path is still its own.
fn claim<S: System>(system: &mut S, file: &S::File, path: &str) -> io::Result<()>
    ensures done { OnOk result (S.book.notes system.new ≡ after S.book.note (S.book.notes system.old)
        (Done (Locks (S.book.file_of file.now) true) ∷ Done (Matches (S.book.file_of file.now) path.now true) ∷ [])) }
    ensures reason { IfErr result (λ error. Fails S.book.note (error_kind error) (S.book.notes system.old) (S.book.notes system.new)) }
{
    if !system.lock(file) {
        return Err(in_use());
    }
    if !system.is_at(file, path)? {
        return Err(in_use());
    }
    Ok(())
}

/// Takes a file away while it is claimed, so that nobody else begins with it.
fn remove_claimed<S: System>(system: &mut S, path: &str) -> io::Result<()>
    ensures done { OnOk result (S.book.notes system.new ≡ after S.book.note (S.book.notes system.old)
        (Done (Opens path.now) ∷ Done (Locks (S.book.at_path path.now) true) ∷ Done (Matches (S.book.at_path path.now) path.now true)
        ∷ Done (Removes path.now) ∷ Done (Closes (S.book.at_path path.now)) ∷ [])) }
    ensures reason { IfErr result (λ error. Fails S.book.note (error_kind error) (S.book.notes system.old) (S.book.notes system.new)) }
{
    let file = system.open(path)?;
    claim(system, &file, path)?;
    let removed = system.remove(path);
    system.close(file);
    removed
}

/// Takes the path away. A file that another folder has open for writing stays, and is refused.
pub(crate) fn remove_unclaimed<S: System>(system: &mut S, path: &str) -> io::Result<()>
    ensures done { OnOk result (IsRemoval S.book path.now (S.book.notes system.old) (S.book.notes system.new)) }
    ensures reason { IfErr result (λ error. Fails S.book.note (error_kind error) (S.book.notes system.old) (S.book.notes system.new)) }
{
    if system.is_file(path)? {
        remove_claimed(system, path)
    } else {
        system.remove(path)
    }
}

/// Takes away what stands at the path, if it is still there.
fn clear<S: System>(system: &mut S, path: &str) -> io::Result<()>
    ensures done { OnOk result (IsCleared S.book path.now (S.book.notes system.old) (S.book.notes system.new)) }
    ensures reason { IfErr result (λ error. Fails S.book.note (error_kind error) (S.book.notes system.old) (S.book.notes system.new)) }
{
    match remove_unclaimed(system, path) {
        Err(error) if error.kind() == ErrorKind::NotFound => Ok(()),
        removed => removed,
    }
}

/// Creates a file. A leftover of the same name is removed first.
fn create_anew<S: System>(system: &mut S, path: &str) -> io::Result<S::File>
    ensures done { OnOk result (IsCreation S.book path.now (S.book.notes system.old) (S.book.notes system.new)) }
    ensures place { IfOk result (λ file. S.book.file_of file ≡ S.book.at_path path.now) }
    ensures reason { IfErr result (λ error. Fails S.book.note (error_kind error) (S.book.notes system.old) (S.book.notes system.new)) }
{
    match system.create(path) {
        Err(error) if error.kind() == ErrorKind::AlreadyExists => {
            clear(system, path)?;
            system.create(path)
        }
        created => created,
    }
}

/// Creates a file, claimed from then on until it is closed.
pub(crate) fn create_claimed<S: System>(system: &mut S, path: &str) -> Result<S::File, FolderFault>
    ensures done { OnOk result (IsClaimedCreation S.book path.now (S.book.notes system.old) (S.book.notes system.new)) }
    ensures place { IfOk result (λ file. S.book.file_of file ≡ S.book.at_path path.now) }
    ensures reason { IfErr result (HasReason S.book.note (S.book.notes system.old) (S.book.notes system.new)) }
{
    let created = create_anew(system, path);
    let file = answer(system, "create", path, created)?;
    match claim(system, &file, path) {
        Ok(()) => Ok(file),
        Err(error) => Err(refused(system, "create", path, error)),
    }
}

/// Gives a file a new name, and syncs the folder of that name, so that a loss of power does not take it back. Where that
/// sync fails the name is given none the less.
pub(crate) fn rename_for_good<S: System>(
    system: &mut S,
    from: &str,
    to: &str,
) -> Result<(), FolderFault>
    ensures done { OnOk result (S.book.notes system.new ≡ after S.book.note (S.book.notes system.old)
        (Done (Renames from.now to.now) ∷ Done (SyncsFolder (place_of to.now)) ∷ [])) }
    ensures reason { IfErr result (HasReason S.book.note (S.book.notes system.old) (S.book.notes system.new)) }
{
    if let Err(error) = system.rename(from, to) {
        // The system says the same where the folder of the new name is not there.
        return match system.is_file(from) {
            Ok(_) => Err(refused(system, "give a file the name", to, error)),
            Err(_) => Err(fault(system, "rename", from, error)),
        };
    }
    match system.sync_folder(folder_of(to)) {
        Ok(()) => Ok(()),
        Err(error) => Err(refused(system, "sync the folder of", to, error)),
    }
}

/// One read, made again where a signal interrupts it.
pub(crate) fn read_once<S: System>(
    system: &mut S,
    file: &mut S::File,
    piece: &mut [u8],
) -> io::Result<usize>
    ensures done { IfOk result (λ count. (n : ℕ) × (S.book.notes system.new
        ≡ S.book.note (interrupted S.book.note n (S.book.notes system.old)) (Done (Reads (S.book.file_of file.old) (take count piece.new))))) }
    ensures place { S.book.file_of file.new ≡ S.book.file_of file.old }
    ensures reason { IfErr result (λ error. Fails S.book.note (error_kind error) (S.book.notes system.old) (S.book.notes system.new)) }
{
    'tries: for _ in 0..u64::MAX {
        match system.read(file, piece) {
            Err(error) if error.kind() == ErrorKind::Interrupted => {}
            told => return told,
        }
    }
    system.read(file, piece)
}

/// Makes a folder, if it is not there, and syncs the one above it then, so that a loss of power keeps the new name.
pub(crate) fn make_one<S: System>(system: &mut S, dir: &str) -> io::Result<()>
    ensures done { OnOk result (IsMade S.book dir.now (S.book.notes system.old) (S.book.notes system.new)) }
    ensures reason { IfErr result (λ error. Fails S.book.note (error_kind error) (S.book.notes system.old) (S.book.notes system.new)) }
{
    match system.make_folder(dir) {
        Ok(()) => system.sync_folder(folder_of(dir)),
        Err(error) if error.kind() == ErrorKind::AlreadyExists => {
            if system.is_folder(dir)? {
                Ok(())
            } else {
                Err(error)
            }
        }
        Err(error) => Err(error),
    }
}

/// Whether the name of a folder ends between these texts.
fn ends_name(front: &str, rest: &str) -> bool
    ensures { result ≡ ends_name front.now rest.now }
{
    !front.ends_with("/") && (rest.is_empty() || rest.starts_with("/"))
}

/// Makes the folder whose name ends at this place, if one does.
fn make_at<S: System>(system: &mut S, dir: &str, end: usize) -> Result<(), FolderFault>
    requires { end ≤ length dir.now }
    ensures done { OnOk result (MatchBool (ends_name (take end dir.now) (drop end dir.now))
        (IsMade S.book (take end dir.now) (S.book.notes system.old) (S.book.notes system.new)) (S.book.notes system.new ≡ S.book.notes system.old)) }
    ensures reason { IfErr result (HasReason S.book.note (S.book.notes system.old) (S.book.notes system.new)) }
{
    match dir.split_at_checked(end) {
        Some((folder, rest)) if ends_name(folder, rest) => {
            let made = make_one(system, folder);
            answer(system, "create", dir, made)
        }
        _ => Ok(()),
    }
}

/// Makes a folder and its parents, from the first one on.
pub(crate) fn make_all<S: System>(system: &mut S, dir: &str) -> Result<(), FolderFault>
    ensures done { OnOk result (AreMade S.book (way_to dir.now (length dir.now)) (S.book.notes system.old) (S.book.notes system.new)) }
    ensures reason { IfErr result (HasReason S.book.note (S.book.notes system.old) (S.book.notes system.new)) }
{
    for at in 0..dir.len() {
        make_at(system, dir, at + 1)?;
    }
    Ok(())
}

/// These names, and behind them as many that cannot be read.
pub(crate) fn listing(
    alloc: Global,
    names: Vec<String>,
    unreadable: usize,
) -> Result<Vec<Listed>, AllocError>
    ensures { IfOk result (λ listed. map name_of listed.items ≡ map Some (map string_bytes names.items) ++ replicate unreadable None) }
{
    let mut listed = Vec::new(alloc);
    for name in names {
        listed.push(Listed::Name(name))?;
    }
    'unread: for _ in 0..unreadable {
        listed.push(Listed::Unreadable)?;
    }
    Ok(listed)
}
