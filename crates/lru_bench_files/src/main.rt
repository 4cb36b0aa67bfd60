//! `lru_bench_files [ROWS WHAT FOLDER]`: what it costs to save a core of 8 shards into files, and to load it again.
//!
//! It makes a core of so many rows, and does WHAT with it: `core` nothing more, `memory` saves it into a folder in memory
//! and loads it from there, `save` saves it into a folder of the system, and `load` loads what lies in that. Each line
//! says how many shards were saved or rows loaded, and how long that took. Without arguments it is `memory` with 10 000
//! rows, and no line says how long.
#![tactic(auto)]

use log::sink::Discard;
use pingora_lru::lru_core::LruCore;
use pingora_lru_files::persistence::{Folder, HostFolder, MemoryFolder};
use pingora_lru_files::snapshot::{Keyed, load_core, save_core};
use rand::rngs::StdRng;
use rand_core::SeedableRng;
use std::alloc::{AllocError, Global};
use std::env::Env;
use std::rt::Clock;
use std::time::Instant;
use std::{env, io};

type Core = LruCore<Keyed, 8>;

const FEW: u64 = 10_000;

/// What the arguments ask for.
#[derive(Drop)]
struct Task {
    rows: u64,
    what: String,
    folder: String,
}

fn asked(rt: &(impl Env + AllocGlobal)) -> io::Result<Option<Task>> {
    let mut words = env::args(rt)?.skip(1);
    let rows = words.next().and_then(|word| word.parse().ok());
    match (rows, words.next(), words.next()) {
        (Some(rows), Some(what), Some(folder)) => Ok(Some(Task { rows, what, folder })),
        _ => Ok(None),
    }
}

fn empty(alloc: Global) -> Result<Core, AllocError> {
    LruCore::with_capacity(alloc, usize::MAX, 0)
}

/// A core of so many rows, each of its own value.
fn filled(alloc: Global, rows: u64) -> io::Result<Core> {
    let mut core = empty(alloc)?;
    for key in 0..rows {
        let data = Keyed { key, value: key };
        if core.admit(key, data, 1).is_err() {
            return Err(io::Error::from(io::ErrorKind::OutOfMemory));
        }
    }
    Ok(core)
}

/// Prints what was counted, and where that is wanted the milliseconds since `start`.
fn tell<R: Print + Clock>(
    rt: &R,
    is_timed: bool,
    what: &str,
    count: usize,
    start: Instant,
) -> io::Result<()> {
    if is_timed {
        println!(rt; "{what}: {count}, {} ms", start.elapsed(rt)?.as_millis())
    } else {
        println!(rt; "{what}: {count}")
    }
}

fn save<F: Folder>(
    rt: HostRuntime,
    is_timed: bool,
    folder: &mut F,
    dir: &str,
    core: &Core,
) -> io::Result<()> {
    let mut rng = StdRng::seed_from_u64(7);
    let start = Instant::now(&rt)?;
    let saved = match save_core(rt.alloc(), folder, &mut rng, &Discard, dir, "order", core) {
        Ok(report) => report.saved_shards,
        Err(_) => 0,
    };
    tell(&rt, is_timed, "shards saved", saved, start)
}

fn load<F: Folder>(rt: HostRuntime, is_timed: bool, folder: &mut F, dir: &str) -> io::Result<()> {
    let mut core = empty(rt.alloc())?;
    let start = Instant::now(&rt)?;
    load_core(rt.alloc(), folder, &Discard, dir, "order", &mut core)?;
    tell(&rt, is_timed, "rows loaded", core.len(), start)
}

fn in_memory(rt: HostRuntime, is_timed: bool, rows: u64) -> io::Result<()> {
    let core = filled(rt.alloc(), rows)?;
    let mut folder = MemoryFolder::new(rt.alloc());
    save(rt, is_timed, &mut folder, "files", &core)?;
    load(rt, is_timed, &mut folder, "files")
}

fn main(rt: HostRuntime) -> io::Result<()> {
    let Some(task) = asked(&rt)? else {
        return in_memory(rt, false, FEW);
    };
    let dir = task.folder.as_str();
    match task.what.as_str() {
        "memory" => in_memory(rt, true, task.rows),
        "save" => save(
            rt,
            true,
            &mut HostFolder::new(rt),
            dir,
            &filled(rt.alloc(), task.rows)?,
        ),
        "load" => load(rt, true, &mut HostFolder::new(rt), dir),
        _ => tell(
            &rt,
            true,
            "rows",
            filled(rt.alloc(), task.rows)?.len(),
            Instant::now(&rt)?,
        ),
    }
}
