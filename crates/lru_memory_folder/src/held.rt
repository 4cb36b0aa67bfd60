//! The files that a folder in memory holds.
ghost use Rattle.std.specs.Prelude.{◌≡◌, ◌≢◌, ◌∷◌, ◌++◌, [], ◌+◌, ◌<◌, ◌^◌, drop, is_some, length, map, string_bytes, take, None, Some, IfOk, IsTrue, MatchOption, OnErr, OnOk, vec_len};
ghost use Rattle.std.specs.FinMap.{get, insert, keys, remove};
ghost use Rattle.lru_folder.specs.Files.{appended, bytes_at, renamed};
ghost use Rattle.lru_memory_folder.specs.HeldInside.{files_in};
ghost use Rattle.lru_folder.specs.Listings.{name_of};
ghost use Rattle.lru_folder.specs.Places.{listing, name_after};
ghost use Rattle.std.specs.List.{filter_map};

use crate::places::name_after;
use lru_folder::listed::Listed;
use lru_folder::names::path_of;
use std::alloc::{AllocError, Global};
use std::collections::BTreeMap;

/// The bytes of each path.
pub(crate) type PathBytes = BTreeMap<String, Vec<u8>>;

/// The bytes of the path.
pub(crate) fn find<'a>(held: &'a PathBytes, path: &str) -> Option<&'a [u8]>
    ensures { MatchOption result (get (files_in held.now.entries) path.now ≡ None)
        (λ bytes. get (files_in held.now.entries) path.now ≡ Some bytes.now) }
{
    match held.get(path) {
        Some(bytes) => Some(bytes),
        None => None,
    }
}

/// Gives the path these bytes. Where a new path finds no memory, nothing changes.
pub(crate) fn put(
    alloc: Global,
    held: &mut PathBytes,
    path: &str,
    bytes: Vec<u8>,
) -> Result<(), AllocError>
    ensures ok { OnOk result (files_in held.new.entries ≡ insert (files_in held.old.entries) path.now bytes.items) }
    ensures err { OnErr result (held.new.entries ≡ held.old.entries) }
{
    held.insert(String::from_str(alloc, path)?, bytes)?;
    Ok(())
}

/// Takes the path away.
pub(crate) fn take_out(held: &mut PathBytes, path: &str)
    ensures { files_in held.new.entries ≡ remove (files_in held.old.entries) path.now }
{
    let _ = held.remove(path);
}

/// Whether the path is there.
pub(crate) fn holds(held: &PathBytes, path: &str) -> bool
    ensures { result ≡ is_some (get (files_in held.now.entries) path.now) }
{
    find(held, path).is_some()
}

/// The bytes of the path, none where it is not there.
pub(crate) fn bytes_of<'a>(held: &'a PathBytes, path: &str) -> &'a [u8]
    ensures { result.now ≡ bytes_at (files_in held.now.entries) path.now }
{
    match find(held, path) {
        Some(bytes) => bytes,
        None => &[],
    }
}

/// Takes the path away, and gives its bytes, none where it was not there.
fn take_bytes(alloc: Global, held: &mut PathBytes, path: &str) -> Vec<u8>
    ensures bytes { result.items ≡ bytes_at (files_in held.old.entries) path.now }
    ensures gone { files_in held.new.entries ≡ remove (files_in held.old.entries) path.now }
{
    match held.remove(path) {
        Some(bytes) => bytes,
        None => Vec::new(alloc),
    }
}

/// Gives a path that is there these bytes.
fn set(held: &mut PathBytes, path: &str, bytes: Vec<u8>)
    requires { IsTrue (is_some (get (files_in held.old.entries) path.now)) }
    ensures { files_in held.new.entries ≡ insert (files_in held.old.entries) path.now bytes.items }
{
    if let Some(place) = held.get_mut(path) {
        *place = bytes;
    }
}

/// Gives the bytes of a path to another, which takes its place. Where that finds no memory, nothing changes.
fn give(alloc: Global, held: &mut PathBytes, from: &str, to: &str) -> Result<(), AllocError>
    requires { from.now ≢ to.now }
    ensures ok { OnOk result (files_in held.new.entries ≡ insert (remove (files_in held.old.entries) from.now) to.now (bytes_at (files_in held.old.entries) from.now)) }
    ensures err { OnErr result (files_in held.new.entries ≡ files_in held.old.entries) }
{
    // Only this can be refused.
    put(alloc, held, to, Vec::new(alloc))?;
    let bytes = take_bytes(alloc, held, from);
    set(held, to, bytes);
    Ok(())
}

/// Puts a piece behind the bytes of a path that is there. Where that finds no memory, nothing changes.
fn extend(held: &mut PathBytes, path: &str, piece: &[u8]) -> Result<(), AllocError>
    requires { IsTrue (is_some (get (files_in held.old.entries) path.now)) }
    ensures ok { OnOk result (files_in held.new.entries ≡ appended path.now piece.now (files_in held.old.entries)) }
    ensures err { OnErr result (files_in held.new.entries ≡ files_in held.old.entries) }
{
    match held.get_mut(path) {
        Some(bytes) => bytes.extend_from_slice(piece),
        None => Ok(()),
    }
}

/// Puts a piece behind the bytes of the path. Where that finds no memory, nothing changes.
pub(crate) fn append(
    alloc: Global,
    held: &mut PathBytes,
    path: &str,
    piece: &[u8],
) -> Result<(), AllocError>
    ensures ok { OnOk result (files_in held.new.entries ≡ appended path.now piece.now (files_in held.old.entries)) }
    ensures err { OnErr result (files_in held.new.entries ≡ files_in held.old.entries) }
{
    if holds(held, path) {
        extend(held, path, piece)
    } else {
        put(alloc, held, path, piece.to_vec(alloc)?)
    }
}

/// Gives the file of a path, if it is there, another path. Where that finds no memory, nothing changes.
pub(crate) fn give_name(
    alloc: Global,
    held: &mut PathBytes,
    from: &str,
    to: &str,
) -> Result<(), AllocError>
    ensures ok { OnOk result (files_in held.new.entries ≡ renamed from.now to.now (files_in held.old.entries)) }
    ensures err { OnErr result (files_in held.new.entries ≡ files_in held.old.entries) }
{
    if !holds(held, from) {
        return Ok(());
    }
    if from == to {
        return Ok(());
    }
    give(alloc, held, from, to)
}

/// The first bytes of a piece, at most so many.
pub(crate) fn front(piece: &[u8], max: usize) -> &[u8]
    ensures { result.now ≡ take max piece.now }
{
    if max < piece.len() {
        &piece[..max]
    } else {
        piece
    }
}

/// A copy of the bytes of the path from a place on, at most so many.
pub(crate) fn piece_at(
    alloc: Global,
    held: &PathBytes,
    path: &str,
    at: usize,
    max: usize,
) -> Result<Vec<u8>, AllocError>
    ensures piece { IfOk result (λ piece. piece.items ≡ take max (drop at (bytes_at (files_in held.now.entries) path.now))) }
    ensures fits { IfOk result (λ piece. at + vec_len piece < 2 ^ 64) }
{
    let bytes = bytes_of(held, path);
    if at < bytes.len() {
        front(&bytes[at..], max).to_vec(alloc)
    } else {
        Ok(Vec::new(alloc))
    }
}

/// The paths, in byte order.
pub(crate) fn paths_of(alloc: Global, held: &PathBytes) -> Result<Vec<String>, AllocError>
    ensures { IfOk result (λ paths. map string_bytes paths.items ≡ keys (files_in held.now.entries)) }
{
    let mut paths = Vec::new(alloc);
    for path in held.keys() {
        paths.push(path.clone()?)?;
    }
    Ok(paths)
}

/// The names of the files in a folder, in byte order.
pub(crate) fn names_of(
    alloc: Global,
    held: &PathBytes,
    dir: &str,
) -> Result<Vec<Listed>, AllocError>
    ensures { IfOk result (λ listed. map name_of listed.items ≡ listing dir.now (files_in held.now.entries)) }
{
    let front = path_of(alloc, dir, "")?;
    let mut listed = Vec::new(alloc);
    for path in held.keys() {
        list_name(alloc, &mut listed, front.as_str(), path.as_str())?;
    }
    Ok(listed)
}

/// Puts the name behind this front of a path, if it is one, behind the others.
fn list_name(
    alloc: Global,
    listed: &mut Vec<Listed>,
    front: &str,
    path: &str,
) -> Result<(), AllocError>
    ensures { OnOk result (map name_of listed.new.items
        ≡ map name_of listed.old.items ++ map Some (filter_map (name_after front.now) (path.now ∷ []))) }
{
    if let Some(name) = name_after(front, path) {
        listed.push(Listed::Name(String::from_str(alloc, name)?))?;
    }
    Ok(())
}

/// A copy of all files.
pub(crate) fn copy_all(held: &PathBytes) -> Result<PathBytes, AllocError>
    ensures { IfOk result (λ copy. files_in copy.entries ≡ files_in held.now.entries) }
{
    let copy = held.clone()?;
    Ok(copy)
}
