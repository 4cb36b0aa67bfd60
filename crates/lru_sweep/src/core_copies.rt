//! A core whose data are texts, and a snapshot of keys and weights.
ghost use Rattle.std.specs.Prelude.{◌<◌};

use crate::checkpoint_saves::{folder, is_saved, loaded, text, write_rows};
use lru_cores::lru_core::LruCore;
use lru_frames::row::Row;
use lru_memory_folder::memory_folder::MemoryFolder;
use lru_order_checkpoints::core_captures::{CoreSource, capture_shard, restore_shards};
use lru_order_checkpoints::snapshots::snapshot_rows;
use std::alloc::{AllocError, Global};
use std::io;
use std::io::Write;

type Texts = LruCore<(u64, String), 2>;

fn made(alloc: Global) -> Result<Texts, AllocError> {
    match Texts::with_capacity(alloc, 100, 0) {
        Ok(core) => Ok(core),
        Err(_) => Texts::with_capacity(alloc, 100, 0),
    }
}

fn is_admitted(core: &mut Texts, key: u64, value: String) -> bool {
    match core.admit(key, (key, value), 3) {
        Ok(_) => true,
        Err(refused) => core.admit(key, refused.held, 3).is_ok(),
    }
}

fn filled(alloc: Global) -> Result<Option<Texts>, AllocError> {
    let mut core = made(alloc)?;
    for key in 0..9 {
        if !is_admitted(&mut core, key, text(alloc)?) {
            return Ok(None);
        }
    }
    Ok(Some(core))
}

fn captured(alloc: Global, core: &Texts, shard: usize) -> Result<Vec<Row<u64, String>>, AllocError>
    requires { shard < 2 }
{
    match capture_shard(alloc, core, shard) {
        Ok(rows) => Ok(rows),
        Err(_) => capture_shard(alloc, core, shard),
    }
}

// A core with the rows that were saved. A refusal drops what is not put back, so it is loaded again.
fn restored(alloc: Global, folder: &mut MemoryFolder) -> io::Result<Option<Texts>> {
    for _ in 0..2 {
        let mut core = made(alloc)?;
        let Ok(shards) = loaded(alloc, folder) else {
            return Ok(None);
        };
        if restore_shards(&mut core, shards).is_ok() {
            return Ok(Some(core));
        }
    }
    Ok(None)
}

fn snapshot(alloc: Global) -> Result<Vec<(u64, usize)>, AllocError> {
    Vec::from_slice(alloc, &[(7, 2), (5, 0)])
}

// The rows of a snapshot. A refusal drops it, so it is taken again.
fn rows_of_snapshot(alloc: Global) -> Result<Vec<Row<u64, ()>>, AllocError> {
    match snapshot(alloc).and_then(|taken| snapshot_rows(alloc, taken)) {
        Ok(rows) => Ok(rows),
        Err(_) => snapshot_rows(alloc, snapshot(alloc)?),
    }
}

/// Saves a core and brings it back; whether that was done.
pub fn script<W: Write>(alloc: Global, out: &mut W) -> io::Result<bool> {
    let (Some(core), Some(mut folder)) = (filled(alloc)?, folder(alloc)) else {
        return Ok(false);
    };
    if !is_saved(alloc, &mut folder, &CoreSource { core: &core }) {
        return Ok(false);
    }
    let Some(again) = restored(alloc, &mut folder)? else {
        return Ok(false);
    };
    for shard in 0..2 {
        write_rows(out, "row", &captured(alloc, &again, shard)?)?;
    }
    for row in &rows_of_snapshot(alloc)? {
        writeln!(out, "snapshot {} {}", row.key, row.weight)?;
    }
    Ok(true)
}
