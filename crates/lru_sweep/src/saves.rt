//! Saves of shards, and of a core.
use crate::rows::{filled, rows_of};
use log::sink;
use lru_test_folders::refusals::{Ending, Saved, end_of_save};
use lru_test_folders::two_shards::{folder_to_save, is_old, is_old_or_new, is_saved};
use pingora_lru::lru_core::LruCore;
use pingora_lru_files::persistence::{
    MemoryFolder, ShardSaveError, ShardSaveFailure, ShardSaveReport, save_shards,
};
use pingora_lru_files::snapshot::{Keyed, save_core};
use rand::rngs::StdRng;
use rand_core::SeedableRng;
use std::alloc::Global;
use std::io;
use std::io::Write;

/// What a save answers whose shards may be refused with a text.
type Refusable = Result<ShardSaveReport<&'static str>, ShardSaveError<&'static str>>;

/// The bytes of each shard; shard 1 is refused.
fn give(alloc: Global, shard: usize) -> Result<Vec<u8>, &'static str> {
    if shard == 1 {
        return Err("no");
    }
    match b"abc".as_slice().to_vec(alloc) {
        Ok(bytes) => Ok(bytes),
        Err(_) => Err("no memory"),
    }
}

fn save_three(alloc: Global, folder: &mut MemoryFolder) -> Refusable {
    let log = sink::Memory::new(alloc);
    let mut rng = StdRng::seed_from_u64(7);
    save_shards(
        alloc,
        folder,
        &mut rng,
        &log,
        "d",
        "c",
        3,
        |shard| give(alloc, shard),
    )
}

/// Whether shard 1 alone failed, by the refusal that it was given.
fn is_whole(saved: &Refusable) -> bool {
    let Ok(report) = saved else {
        return false;
    };
    if report.failures.len() != 1 {
        return false;
    }
    match &report.failures[0] {
        ShardSaveFailure::Serialize { shard, source } => *shard == 1 && *source == "no",
        _ => false,
    }
}

/// Whether a file is missing or has the bytes that were given.
fn is_new_or_none(folder: &MemoryFolder, path: &str) -> bool {
    match folder.get(path) {
        Some(bytes) => bytes == b"abc".as_slice(),
        None => true,
    }
}

// Three shards, of which one is refused.
fn three_shards<W: Write>(alloc: Global, writer: &mut W) -> io::Result<()> {
    let mut folder = MemoryFolder::new(alloc);
    let mut saved = save_three(alloc, &mut folder);
    if !is_whole(&saved) {
        if !is_new_or_none(&folder, "d/c.0") || !is_new_or_none(&folder, "d/c.2") {
            writeln!(writer, "a refused save left other bytes")?;
        }
        saved = save_three(alloc, &mut folder);
    }
    match &saved {
        Ok(report) => {
            let (saved, failed) = (report.saved_shards, report.failed_shards);
            writeln!(writer, "saved {saved} failed {failed}")?;
            for failure in &report.failures {
                writeln!(writer, "{failure}")?;
            }
        }
        Err(error) => writeln!(writer, "{error}")?,
    }
    for path in ["d/c.0", "d/c.1", "d/c.2"] {
        let bytes = folder.get(path);
        writeln!(writer, "{path} {bytes:?}")?;
    }
    Ok(())
}

fn save(alloc: Global, folder: &mut MemoryFolder, core: &LruCore<Keyed, 2>) -> Saved {
    let log = sink::Memory::new(alloc);
    let mut rng = StdRng::seed_from_u64(7);
    save_core(alloc, folder, &mut rng, &log, "d", "c", core)
}

// A core of two shards over older files.
fn core_of_two<W: Write>(alloc: Global, writer: &mut W) -> io::Result<()> {
    let core = filled(alloc)?;
    let before = (rows_of(&core, 0), rows_of(&core, 1));
    let mut folder = folder_to_save(alloc)?;
    let mut saved = save(alloc, &mut folder, &core);
    if end_of_save(&saved) == Ending::Refused {
        if !is_old_or_new(&folder) || (saved.is_err() && !is_old(&folder)) {
            writeln!(writer, "a refused save left other bytes")?;
        }
        saved = save(alloc, &mut folder, &core);
    }
    let ending = end_of_save(&saved);
    let files = is_saved(&folder);
    let same = before == (rows_of(&core, 0), rows_of(&core, 1));
    writeln!(writer, "{ending:?}, files {files}, rows {same}")
}

pub fn script<W: Write>(alloc: Global, writer: &mut W) -> io::Result<()> {
    three_shards(alloc, writer)?;
    core_of_two(alloc, writer)
}
