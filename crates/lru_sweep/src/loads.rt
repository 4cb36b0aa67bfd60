//! Loads of a core, and a core that is saved and loaded.
ghost use Rattle.std.specs.Prelude.{◌<◌};

use crate::rows::{empty, filled, is_part, write_rows};
use log::sink;
use lru_test_folders::refusals::{Ending, Loaded, end_of_save, is_unloaded_for_memory, source_of};
use lru_test_folders::two_shards::{
    EVEN_BYTES, folder_to_load, folder_to_save, has_temp, is_saved,
};
use pingora_lru_files::persistence::{FolderFault, MemoryFolder};
use pingora_lru_files::snapshot::{load_core, save_and_load};
use rand::rngs::StdRng;
use rand_core::SeedableRng;
use std::alloc::{AllocError, Global};
use std::io;
use std::io::Write;

/// Whether a load, one of its shards or its cleanup was refused memory.
fn is_refused(loaded: &Loaded) -> bool {
    let Ok(report) = loaded else {
        return true;
    };
    for failure in &report.failures {
        if is_unloaded_for_memory(failure) {
            return true;
        }
    }
    match &report.temp_cleanup {
        Ok(cleanup) => cleanup
            .failures
            .iter()
            .any(|e| source_of(e) == FolderFault::Memory),
        Err(AllocError) => true,
    }
}

fn write_loaded<W: Write>(loaded: &Loaded, writer: &mut W) -> io::Result<()> {
    match loaded {
        Ok(report) => {
            let (loaded, missing) = (report.loaded_shards, report.missing_shards);
            let errored = report.error_shards;
            writeln!(
                writer,
                "loaded {loaded} missing {missing} errored {errored}"
            )?;
            for failure in &report.failures {
                writeln!(writer, "{failure}")?;
            }
            Ok(())
        }
        Err(AllocError) => writeln!(writer, "no room for the report"),
    }
}

/// Loads a core without rows, and another one where the first was refused memory: each shard of the first has its rows
/// or none.
fn load_at_last<W: Write, const N: usize>(
    alloc: Global,
    folder: &mut MemoryFolder,
    writer: &mut W,
) -> io::Result<()>
    requires { 0 < N }
{
    let log = sink::Memory::new(alloc);
    let mut core = empty::<N>(alloc)?;
    let loaded = load_core(alloc, folder, &log, "d", "c", &mut core);
    if is_refused(&loaded) {
        let mut again = empty::<N>(alloc)?;
        let loaded = load_core(alloc, folder, &log, "d", "c", &mut again);
        if !is_part(&core, &again) {
            writeln!(writer, "a refused load left other rows")?;
        }
        write_loaded(&loaded, writer)?;
        return write_rows(&again, writer);
    }
    write_loaded(&loaded, writer)?;
    write_rows(&core, writer)
}

// Two whole files and a temp file.
fn two_shards<W: Write>(alloc: Global, writer: &mut W) -> io::Result<()> {
    let mut folder = folder_to_load(alloc)?;
    load_at_last::<W, 2>(alloc, &mut folder, writer)?;
    let (files, temp) = (is_saved(&folder), has_temp(&folder));
    writeln!(writer, "files {files}, temp file {temp}")
}

// Twenty rows of the first of three shards: more than a shard has places for at first.
fn twenty_rows() -> [u8; 480] {
    let mut bytes = [0; 480];
    for (number, row) in bytes.chunks_exact_mut(24).enumerate() {
        if let Some(key) = row.first_mut() {
            *key = (number as u8).wrapping_mul(3);
        }
    }
    bytes
}

fn folder_of_three(alloc: Global) -> Result<MemoryFolder, AllocError> {
    MemoryFolder::new(alloc)
        .with("d/c.0", &twenty_rows())?
        .with("d/c.2", &EVEN_BYTES[..25])
}

// One whole file, none, and one of 25 bytes.
fn three_shards<W: Write>(alloc: Global, writer: &mut W) -> io::Result<()> {
    let mut folder = match folder_of_three(alloc) {
        Ok(folder) => folder,
        Err(AllocError) => folder_of_three(alloc)?,
    };
    load_at_last::<W, 3>(alloc, &mut folder, writer)
}

// Saved over older files, and loaded into a core without rows; made again, with other files, where memory was refused.
fn there_and_back<W: Write>(alloc: Global, writer: &mut W) -> io::Result<()> {
    let core = filled(alloc)?;
    let log = sink::Memory::new(alloc);
    let mut rng = StdRng::seed_from_u64(7);
    for _ in 0..2u8 {
        let mut folder = folder_to_save(alloc)?;
        let mut back = empty::<2>(alloc)?;
        let (saved, loaded) = save_and_load(
            alloc,
            &mut folder,
            &mut rng,
            &log,
            "d",
            "c",
            &core,
            &mut back,
        );
        if end_of_save(&saved) == Ending::Whole && !is_refused(&loaded) {
            write_loaded(&loaded, writer)?;
            return write_rows(&back, writer);
        }
        if !is_part(&back, &core) {
            writeln!(writer, "a refused load left other rows")?;
        }
    }
    writeln!(writer, "refused twice")
}

pub fn script<W: Write>(alloc: Global, writer: &mut W) -> io::Result<()> {
    two_shards(alloc, writer)?;
    three_shards(alloc, writer)?;
    there_and_back(alloc, writer)
}
