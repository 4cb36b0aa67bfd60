//! Example: four workers that share a cache of thumbnails, which is there again at the next start.
//!
//! A thumbnail is made where it is missing, once, however many workers ask for it at the same time, and is answered for ten
//! minutes. Together they have a budget in bytes: what has to go goes, first what is past. At the end all are saved as a
//! checkpoint, whole or not at all, in the folder that the first argument names, and at the start they are loaded from there.
//!
//! It shows `SharedDeadlineCache` (`get_or_put_with`, what goes, `sweep` and `stats`), a clock, and a restart. No folder: a line
//! that says so, and status 2. A checkpoint that was not loaded or saved: a line that says why, and status 1.
#![tactic(auto)]

use lru_cache::shared_deadlines::{Ages, Gone, Limits, SharedDeadlineCache};
use lru_checkpoints::host_folder::HostFolder;
use lru_checkpoints::restored::RestoreError;
use lru_checkpoints::shared_deadlines::{load_shared_deadlines, save_shared_deadlines};
use std::alloc::{AllocError, Global};
use std::process::ExitCode;
use std::sync::Wait;
use std::thread::Threads;
use std::time::{Clock, SystemTime, UNIX_EPOCH};
use std::{env, io, thread};

const WORKERS: usize = 4;

/// Of how many bytes all thumbnails may be together, each of the two shards a half.
const BUDGET: usize = 20_000;

/// For how many seconds a thumbnail is answered.
const SECONDS: u64 = 600;

/// What the checkpoint is called.
const NAME: &str = "thumbnails";

type Thumbnails = SharedDeadlineCache<String, Vec<u8>, 2>;

/// What a worker met: how many bytes of thumbnails, and which pictures' thumbnails went meanwhile.
#[derive(Drop)]
struct Met {
    bytes: usize,
    gone: Vec<String>,
}

/// The time in seconds, which goes on from run to run.
fn seconds(rt: &impl Clock) -> io::Result<u64> {
    match SystemTime::now(rt)?.duration_since(UNIX_EPOCH) {
        Ok(since) => Ok(since.as_secs()),
        Err(_) => Ok(0),
    }
}

/// A picture's thumbnail, here 1000 bytes all alike, and how many bytes it is of.
fn thumbnail(alloc: Global, picture: u64) -> Result<(Vec<u8>, usize), AllocError> {
    let shade = (picture % 256) as u8;
    Ok((vec![in alloc; shade; 1000]?, 1000))
}

/// Asks for the thumbnails of so many pictures, from the first on.
fn ask<R: Clock + Wait>(
    rt: &R,
    alloc: Global,
    thumbnails: &Thumbnails,
    first: u64,
    count: u64,
) -> io::Result<Met> {
    let mut met = Met {
        bytes: 0,
        gone: Vec::new(alloc),
    };
    for picture in first..first.saturating_add(count) {
        let name = format!(in alloc; "picture {picture:03}")?;
        let make = || thumbnail(alloc, picture);
        let gone = &mut met.gone;
        let visit = |past: Gone<String, Vec<u8>>| drop(gone.push(past.key));
        if let Ok(bytes) = thumbnails.get_or_put_with(rt, seconds(rt)?, name, make, visit) {
            met.bytes = met.bytes.saturating_add(bytes.len());
        }
    }
    Ok(met)
}

/// Four workers ask for the same eight pictures, which have room. Then one asks for more than the budget allows.
fn serve<R: Clock + Print + Threads + Wait + Sync>(
    rt: &R,
    alloc: Global,
    thumbnails: &Thumbnails,
) -> io::Result<()> {
    let all = thread::map_indices(
        rt,
        alloc,
        WORKERS,
        &|_number| ask(rt, alloc, thumbnails, 0, 8),
    )?;
    for (number, met) in all.iter().enumerate() {
        if let Ok(met) = met {
            println!(rt; "worker {number}: {} bytes", met.bytes)?;
        }
    }
    // Told by name, since which was used last hangs on how the workers ran.
    let mut met = ask(rt, alloc, thumbnails, 100, 24)?;
    met.gone.sort()?;
    for name in &met.gone {
        println!(rt; "{name} went")?;
    }
    Ok(())
}

/// Puts back what the last run saved, if there was one. Whether that was done.
fn come_back<R: Print + Wait>(
    rt: &R,
    alloc: Global,
    folder: &mut HostFolder<HostRuntime>,
    dir: &str,
    thumbnails: &Thumbnails,
) -> io::Result<bool> {
    match load_shared_deadlines(rt, alloc, folder, dir, NAME, thumbnails) {
        Ok(restored) => {
            for it in &restored.passed {
                println!(rt; "passed over generation {}: {}", it.generation, it.error)?;
            }
            return Ok(true);
        }
        Err(RestoreError::Unloaded(error)) => println!(rt; "not loaded: {error}")?,
        Err(RestoreError::Refused(refused)) => println!(rt; "not put back: {}", refused.cause)?,
    }
    Ok(false)
}

/// Saves the thumbnails. Whether that was done.
fn keep<R: Print + Wait>(
    rt: &R,
    alloc: Global,
    folder: &mut HostFolder<HostRuntime>,
    dir: &str,
    thumbnails: &Thumbnails,
) -> io::Result<bool> {
    match save_shared_deadlines(rt, alloc, folder, dir, NAME, thumbnails) {
        Ok(saved) => println!(rt; "saved as generation {}", saved.generation)?,
        Err(error) => {
            println!(rt; "not saved: {error}")?;
            return Ok(false);
        }
    }
    Ok(true)
}

fn main(rt: HostRuntime) -> io::Result<ExitCode> {
    let Some(dir) = env::args(&rt)?.nth(1) else {
        println!(rt; "usage: example_thumbnails FOLDER")?;
        return Ok(ExitCode::from(2));
    };
    let ages = Ages {
        live: SECONDS,
        idle: u64::MAX,
    };
    let thumbnails = Thumbnails::new(rt.alloc(), Limits::of_weight(BUDGET), ages)?;
    let mut folder = HostFolder::new(rt);
    if !come_back(&rt, rt.alloc(), &mut folder, &dir, &thumbnails)? {
        return Ok(ExitCode::from(1));
    }
    // One sweep is of one shard. What is past by now has not come back.
    for _ in 0..thumbnails.shards() {
        thumbnails.sweep(&rt, seconds(&rt)?, usize::MAX, |_past| {});
    }
    println!(rt; "{} thumbnails came back", thumbnails.len(&rt))?;
    serve(&rt, rt.alloc(), &thumbnails)?;
    let stats = thumbnails.stats(&rt);
    println!(rt; "hits {}, misses {}", stats.hits, stats.misses)?;
    println!(rt;
        "went past {}, for room {}, there {}, {} bytes",
        stats.past.entries,
        stats.for_room.entries,
        thumbnails.len(&rt),
        thumbnails.weight(&rt)
    )?;
    let is_kept = keep(&rt, rt.alloc(), &mut folder, &dir, &thumbnails)?;
    Ok(ExitCode::from(if is_kept { 0 } else { 1 }))
}
