//! `lru_bench_checkpoints [ROWS WHAT FOLDER]`: what it costs to save rows of 8 shards as a checkpoint, and to load it again.
//!
//! WHAT is `rows`, which makes so many rows and no more, `save`, which saves them into a folder of the system, which has to
//! be there, `again`, which saves them twice and hands the second save what the first one knows, `load`, which loads what lies in that, `restore`, which puts it into a core besides, or `fill`, which makes so
//! many rows and puts them into a core. A line says how many rows that were, and how long it took, of `fill` without the
//! making, and of `again` the second time. Without arguments it makes 10 000 rows, and no line says how long.
#![tactic(auto)]

use lru_cores::lru_core::LruCore;
use lru_frames::row::Row;
use lru_generations::generations::{save, save_after};
use lru_generations::known::Known;
use lru_generations::newest_loading::{Checkpoint, load};
use lru_host_folder::host_folder::HostFolder;
use lru_order_checkpoints::core_captures::restore_shards;
use std::alloc::{AllocError, Global};
use std::env::Env;
use std::process::ExitCode;
use std::time::Instant;
use std::{env, io};

type Shard = Vec<Row<u64, u64>>;

type Core = LruCore<(u64, u64), 8>;

const FEW: u64 = 10_000;

/// What the arguments ask for.
#[derive(Drop)]
struct Task {
    rows: u64,
    what: String,
    folder: String,
}

fn asked(rt: &(impl Env + AllocGlobal)) -> io::Result<Option<Task>> {
    let mut words = env::args(rt)?.skip(1);
    let rows = words.next().and_then(|word| word.parse().ok());
    match (rows, words.next(), words.next()) {
        (Some(rows), Some(what), Some(folder)) => Ok(Some(Task { rows, what, folder })),
        _ => Ok(None),
    }
}

/// The rows of a shard of eight, of so many in all.
fn shard(alloc: Global, rows: u64, number: u64) -> Result<Shard, AllocError> {
    let mut shard = Vec::with_capacity(alloc, (rows / 8) as usize)?;
    for key in 0..rows {
        if key % 8 == number {
            shard.push(Row {
                key,
                data: key,
                weight: 1,
            })?;
        }
    }
    Ok(shard)
}

fn shards(alloc: Global, rows: u64) -> Result<[Shard; 8], AllocError> {
    Ok([
        shard(alloc, rows, 0)?,
        shard(alloc, rows, 1)?,
        shard(alloc, rows, 2)?,
        shard(alloc, rows, 3)?,
        shard(alloc, rows, 4)?,
        shard(alloc, rows, 5)?,
        shard(alloc, rows, 6)?,
        shard(alloc, rows, 7)?,
    ])
}

/// Saves the rows; whether that was done.
fn save_rows(
    rt: HostRuntime,
    shards: &[Shard; 8],
    dir: &str,
    known: Option<&Known>,
) -> io::Result<bool> {
    let mut folder = HostFolder::new(rt);
    let start = Instant::now(&rt)?;
    let rows = shards.as_slice();
    match save_after(rt.alloc(), &mut folder, dir, "rows", &rows, known) {
        Ok(saved) => println!(rt;
            "generation {}, {} ms",
            saved.generation,
            start.elapsed(&rt)?.as_millis()
        )?,
        Err(error) => {
            println!(rt; "not saved: {error}")?;
            return Ok(false);
        }
    }
    Ok(true)
}

/// Saves the rows, and then again; whether that was done.
fn save_again(rt: HostRuntime, shards: &[Shard; 8], dir: &str) -> io::Result<bool> {
    let mut folder = HostFolder::new(rt);
    match save(rt.alloc(), &mut folder, dir, "rows", &shards.as_slice()) {
        Ok(saved) => save_rows(rt, shards, dir, Some(&saved.known)),
        Err(error) => {
            println!(rt; "not saved: {error}")?;
            Ok(false)
        }
    }
}

/// The newest checkpoint, where there is one and it can be loaded.
fn loaded(rt: HostRuntime, dir: &str) -> io::Result<Option<Checkpoint<u64, u64>>> {
    let mut folder = HostFolder::new(rt);
    match load(rt.alloc(), &mut folder, dir, "rows") {
        Ok(loaded) => Ok(loaded.newest),
        Err(error) => {
            println!(rt; "not loaded: {error}")?;
            Ok(None)
        }
    }
}

/// Loads the newest checkpoint; whether that was done.
fn load_rows(rt: HostRuntime, dir: &str) -> io::Result<bool> {
    let start = Instant::now(&rt)?;
    let Some(checkpoint) = loaded(rt, dir)? else {
        return Ok(false);
    };
    println!(rt;
        "generation {}, {} ms",
        checkpoint.generation,
        start.elapsed(&rt)?.as_millis()
    )?;
    Ok(true)
}

/// A core with these rows, where there is memory for them.
fn core_of(alloc: Global, shards: Vec<Shard>) -> Result<Option<Core>, AllocError> {
    let mut core = Core::with_capacity(alloc, usize::MAX, 0)?;
    match restore_shards(&mut core, shards) {
        Ok(()) => Ok(Some(core)),
        Err(_) => Ok(None),
    }
}

/// Loads the newest checkpoint into a core; whether that was done.
fn restore_rows(rt: HostRuntime, dir: &str) -> io::Result<bool> {
    let start = Instant::now(&rt)?;
    match loaded(rt, dir)? {
        Some(checkpoint) => tell_core(rt, checkpoint.shards, start),
        None => Ok(false),
    }
}

/// Puts rows into a core, and says how many they are and how long it took from the start; whether that was done.
fn tell_core(rt: HostRuntime, shards: Vec<Shard>, start: Instant) -> io::Result<bool> {
    match core_of(rt.alloc(), shards)? {
        Some(core) => {
            println!(rt;
                "{} rows, {} ms",
                core.len(),
                start.elapsed(&rt)?.as_millis()
            )?;
            Ok(true)
        }
        None => Ok(false),
    }
}

fn main(rt: HostRuntime) -> io::Result<ExitCode> {
    let Some(task) = asked(&rt)? else {
        let few = shards(rt.alloc(), FEW)?;
        println!(rt; "{} rows in the first shard", few[0].len())?;
        return Ok(ExitCode::SUCCESS);
    };
    let is_done = match task.what.as_str() {
        "load" => load_rows(rt, &task.folder)?,
        "restore" => restore_rows(rt, &task.folder)?,
        "fill" => {
            let mut made = Vec::with_capacity(rt.alloc(), 8)?;
            for number in 0..8 {
                made.push(shard(rt.alloc(), task.rows, number)?)?;
            }
            let start = Instant::now(&rt)?;
            tell_core(rt, made, start)?
        }
        "save" => save_rows(rt, &shards(rt.alloc(), task.rows)?, &task.folder, None)?,
        "again" => save_again(rt, &shards(rt.alloc(), task.rows)?, &task.folder)?,
        _ => {
            let made = shards(rt.alloc(), task.rows)?;
            println!(rt; "{} rows in the first shard", made[0].len())?;
            true
        }
    };
    Ok(if is_done {
        ExitCode::SUCCESS
    } else {
        ExitCode::from(1)
    })
}
