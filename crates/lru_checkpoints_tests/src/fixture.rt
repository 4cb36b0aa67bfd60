//! Checkpoints of two shards for tests.
ghost use Rattle.std.specs.Prelude.{◌≡◌, false};
ghost use Rattle.lru_folder.specs.Names.{has_slash};

use lru_folder::folder::Folder;
use lru_frames::row::Row;
use lru_generations::errors::CheckpointError;
use lru_generations::generations::{Saved, save, save_after};
use lru_generations::known::Known;
use lru_generations::newest::Passed;
use lru_generations::newest_loading::{Loaded, load};
use lru_memory_folder::memory_folder::MemoryFolder;
use std::alloc::{AllocError, Global};

pub(crate) type Shards = Vec<Vec<Row<u64, u64>>>;

// Two shards of one row each, with this number as their data.
fn shards(alloc: Global, number: u64) -> Result<Shards, AllocError> {
    let mut shards = Vec::new(alloc);
    for key in 0..2u64 {
        let mut rows = Vec::new(alloc);
        rows.push(Row {
            key,
            data: number,
            weight: 1,
        })?;
        shards.push(rows)?;
    }
    Ok(shards)
}

// A folder without a checkpoint.
pub(crate) fn empty(alloc: Global) -> Result<MemoryFolder, CheckpointError> {
    let mut folder = MemoryFolder::new(alloc);
    match folder.make("d") {
        Ok(()) => Ok(folder),
        Err(_) => Err(CheckpointError::Memory),
    }
}

// Saves the shards with this number as the next checkpoint under a name.
pub(crate) fn save_as(
    alloc: Global,
    folder: &mut MemoryFolder,
    name: &str,
    number: u64,
) -> Result<Saved, CheckpointError>
    requires { has_slash name.now ≡ false }
{
    let shards = shards(alloc, number)?;
    if shards.len() != 2 {
        return Err(CheckpointError::Memory);
    }
    save(alloc, folder, "d", name, &shards.as_slice())
}

// Saves the shards with this number as the next checkpoint, handed what is known.
pub(crate) fn save_known(
    alloc: Global,
    folder: &mut MemoryFolder,
    known: &Known,
    number: u64,
) -> Result<Saved, CheckpointError> {
    let shards = shards(alloc, number)?;
    if shards.len() != 2 {
        return Err(CheckpointError::Memory);
    }
    save_after(alloc, folder, "d", "c", &shards.as_slice(), Some(known))
}

pub(crate) fn save_next(
    alloc: Global,
    folder: &mut MemoryFolder,
    number: u64,
) -> Result<Saved, CheckpointError> {
    save_as(alloc, folder, "c", number)
}

// A folder with two checkpoints: generation 0 with the number 10, and generation 1 with the number 11.
pub(crate) fn two(alloc: Global) -> Result<MemoryFolder, CheckpointError> {
    let mut folder = empty(alloc)?;
    save_next(alloc, &mut folder, 10)?;
    save_next(alloc, &mut folder, 11)?;
    Ok(folder)
}

pub(crate) fn load_as(
    alloc: Global,
    folder: &mut MemoryFolder,
    name: &str,
) -> Result<Loaded<u64, u64>, CheckpointError>
    requires { has_slash name.now ≡ false }
{
    load(alloc, folder, "d", name)
}

pub(crate) fn load_newest(
    alloc: Global,
    folder: &mut MemoryFolder,
) -> Result<Loaded<u64, u64>, CheckpointError> {
    load_as(alloc, folder, "c")
}

// Whether a shard has one row, which is that of this key with this number.
fn is_shard(rows: &[Row<u64, u64>], key: u64, number: u64) -> bool {
    match rows {
        [row] => (row.key == key) & (row.data == number) & (row.weight == 1),
        _ => false,
    }
}

// The number that all rows of the shards have as their data, where they are whole.
fn number_in(shards: &Shards) -> Option<u64> {
    let number = shards.first()?.first()?.data;
    let is_whole = match shards.as_slice() {
        [first, second] => is_shard(first, 0, number) & is_shard(second, 1, number),
        _ => false,
    };
    if is_whole { Some(number) } else { None }
}

// The generation of what was loaded, and its number.
pub(crate) fn found_in(loaded: &Loaded<u64, u64>) -> Option<(u64, u64)> {
    let checkpoint = loaded.newest.as_ref()?;
    Some((checkpoint.generation, number_in(&checkpoint.shards)?))
}

// The generation of what loads, and its number.
pub(crate) fn what_loads(
    alloc: Global,
    folder: &mut MemoryFolder,
) -> Result<Option<(u64, u64)>, CheckpointError> {
    Ok(found_in(&load_newest(alloc, folder)?))
}

// Whether nothing is loaded from a folder, and nothing passed over.
pub(crate) fn has_none(alloc: Global, mut folder: MemoryFolder) -> Result<bool, CheckpointError> {
    let loaded = load_newest(alloc, &mut folder)?;
    Ok(loaded.newest.is_none() & loaded.passed.is_empty())
}

// Whether these generations were passed over, for these reasons.
pub(crate) fn are_passed(passed: &[Passed], wanted: &[(u64, CheckpointError)]) -> bool {
    (passed.len() == wanted.len())
        && passed.iter().zip(wanted.iter()).all(|(it, (generation, error))| (it.generation
            == *generation)
            & (it.error == *error))
}

// The files of a folder in a new one, but for one path, which has these bytes or is not there.
pub(crate) fn with_other(
    alloc: Global,
    folder: &MemoryFolder,
    path: &str,
    bytes: Option<&[u8]>,
) -> Result<MemoryFolder, AllocError> {
    let mut other = MemoryFolder::new(alloc);
    for name in &folder.paths()? {
        let held = if name.as_str() == path {
            bytes
        } else {
            folder.get(name)
        };
        if let Some(held) = held {
            other = other.with(name, held)?;
        }
    }
    Ok(other)
}

// The names of a folder's files, each with a space behind it.
pub(crate) fn names_in(alloc: Global, folder: &MemoryFolder) -> Result<String, AllocError> {
    let mut names = String::new(alloc);
    for path in &folder.paths()? {
        let name = path.strip_prefix("d/").unwrap_or(path);
        write!(names, "{name} ")?;
    }
    Ok(names)
}
