//! Saves and loads, made again where memory was refused to the first.
ghost use Rattle.std.specs.Prelude.{◌≤◌};
ghost use Rattle.lru_generations.specs.Checkpoints.{most_shards};

use lru_folder::folder::Folder;
use lru_frames::row::Row;
use lru_frames::source::Source;
use lru_generations::errors::CheckpointError;
use lru_generations::generations::save;
use lru_generations::newest_loading::{Loaded, load};
use lru_memory_folder::memory_folder::MemoryFolder;
use std::alloc::{AllocError, Global};
use std::io;
use std::io::Write;

/// Rows of texts, by shards.
pub type Shards = Vec<Vec<Row<u64, String>>>;

/// A text as long as that.
pub fn text(alloc: Global) -> Result<String, AllocError> {
    match String::from_str(alloc, "a value") {
        Ok(text) => Ok(text),
        Err(_) => String::from_str(alloc, "a value"),
    }
}

/// A folder in memory with a folder `d`, if that could be made.
pub fn folder(alloc: Global) -> Option<MemoryFolder> {
    let mut folder = MemoryFolder::new(alloc);
    if folder.make("d").is_err() {
        folder.make("d").ok()?;
    }
    Some(folder)
}

/// Saves what the source hands out; whether that was done.
pub fn is_saved<S: Source<u64, String>>(
    alloc: Global,
    folder: &mut MemoryFolder,
    source: &S,
) -> bool
    requires { S.count source.now ≤ most_shards }
{
    save(alloc, folder, "d", "c", source).is_ok() || save(alloc, folder, "d", "c", source).is_ok()
}

// The shards that were saved last; none where nothing was.
fn loaded_once(alloc: Global, folder: &mut MemoryFolder) -> Result<Shards, CheckpointError> {
    let Loaded { newest, .. } = load(alloc, folder, "d", "c")?;
    match newest {
        Some(checkpoint) => Ok(checkpoint.shards),
        None => Ok(Vec::new(alloc)),
    }
}

/// The shards that were saved last; none where nothing was.
pub fn loaded(alloc: Global, folder: &mut MemoryFolder) -> Result<Shards, CheckpointError> {
    match loaded_once(alloc, folder) {
        Ok(shards) => Ok(shards),
        Err(_) => loaded_once(alloc, folder),
    }
}

/// Writes the rows of a shard.
pub fn write_rows<W: Write>(out: &mut W, name: &str, rows: &[Row<u64, String>]) -> io::Result<()> {
    for row in rows {
        writeln!(out, "{name} {} {} {}", row.key, row.data, row.weight)?;
    }
    Ok(())
}
