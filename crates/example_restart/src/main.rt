//! Example: threads that share a cache of texts, which is there again at the next start.
//!
//! Each line of the input is a request, `NAME SIZE`. Four threads answer them: a value that the cache lacks is made once, however
//! many ask for it at the same time, and put with that many bytes. The entries that were used longest ago go until the budget, the
//! first argument, is kept. At the end the cache is saved as a checkpoint, whole or not at all, and at the start it is loaded
//! from the folder that the second argument names.
//!
//! Where the newest checkpoint is damaged, a line says so, and the one before is taken. No budget or folder, or a bad line: a
//! line that says which, and status 2. A checkpoint that was not loaded or saved: a line that says why, and status 1.
#![tactic(auto)]

use lru_cache::shared::SharedCache;
use lru_checkpoints::host_folder::HostFolder;
use lru_checkpoints::restored::RestoreError;
use lru_checkpoints::shared::{load_shared, save_shared};
use std::alloc::{AllocError, Global};
use std::io::ErrorKind;
use std::process::ExitCode;
use std::sync::Wait;
use std::sync::atomic::{AtomicU64, Ordering};
use std::thread::Threads;
use std::{env, io, thread};

const THREADS: usize = 4;

const NAME: &str = "pages";

/// The length of a page by its name.
type Pages = SharedCache<String, u64, 2>;

/// A name and a number of bytes.
#[derive(Drop)]
struct Request {
    name: String,
    size: usize,
}

fn request_of(alloc: Global, line: &str) -> Option<Request> {
    let (name, size) = line.split_once(' ')?;
    let size = size.parse().ok()?;
    Some(Request {
        name: String::from_str(alloc, name).ok()?,
        size,
    })
}

/// The requests of the input; none where a line is not one.
fn read(rt: HostRuntime) -> io::Result<Option<Vec<Request>>> {
    let mut requests = Vec::new(rt.alloc());
    for line in rt.lines(rt.alloc()) {
        let request = match line {
            Err(error) if error.kind() != ErrorKind::InvalidData => return Err(error),
            line => line.ok().and_then(|line| request_of(rt.alloc(), &line)),
        };
        let Some(request) = request else {
            return Ok(None);
        };
        add(&mut requests, request)?;
    }
    Ok(Some(requests))
}

fn add(requests: &mut Vec<Request>, request: Request) -> Result<(), AllocError> {
    Ok(requests.push(request)?)
}

/// Answers every fourth request, from this one on: how many values it made.
fn answer<R: Wait>(rt: &R, pages: &Pages, requests: &[Request], first: usize) -> u64 {
    let made = AtomicU64::new(0);
    for (at, request) in requests.iter().enumerate() {
        if at % THREADS == first {
            look_up(rt, pages, &made, request);
        }
    }
    made.load(Ordering::SeqCst)
}

fn look_up<R: Wait>(rt: &R, pages: &Pages, made: &AtomicU64, request: &Request) {
    let Ok(name) = request.name.clone() else {
        return;
    };
    // (what stands for the work that a missing page costs)
    let make = || {
        made.fetch_add(1, Ordering::SeqCst);
        Ok::<_, ()>((request.size as u64, request.size))
    };
    // A page that was refused, as one heavier than a shard may be, is made again for the next who asks.
    let _ = pages.get_or_put_with(rt, name, make, |_gone| {});
}

/// Puts back what the last run saved, if there was one. Whether that was done.
fn come_back<R: Print + Wait>(
    rt: &R,
    alloc: Global,
    folder: &mut HostFolder<HostRuntime>,
    dir: &str,
    pages: &Pages,
) -> io::Result<bool> {
    // Under a smaller budget than the last run's, the pages that were used longest ago go.
    let restored = match load_shared(rt, alloc, folder, dir, NAME, pages) {
        Ok(restored) => restored,
        Err(RestoreError::Unloaded(error)) => {
            println!(rt; "not loaded: {error}")?;
            return Ok(false);
        }
        Err(RestoreError::Refused(refused)) => {
            println!(rt; "not put back: {}", refused.cause)?;
            return Ok(false);
        }
    };
    for it in &restored.passed {
        println!(rt; "passed over generation {}: {}", it.generation, it.error)?;
    }
    Ok(true)
}

/// Saves the entries, one shard after the other: put back, those of each stand as they stood.
fn keep<R: Print + Wait>(
    rt: &R,
    alloc: Global,
    folder: &mut HostFolder<HostRuntime>,
    dir: &str,
    pages: &Pages,
) -> io::Result<ExitCode> {
    match save_shared(rt, alloc, folder, dir, NAME, pages) {
        Ok(saved) => println!(rt; "saved as generation {}", saved.generation)?,
        Err(error) => {
            println!(rt; "not saved: {error}")?;
            return Ok(ExitCode::from(1));
        }
    }
    Ok(ExitCode::SUCCESS)
}

/// Answers the requests on threads: how many values were made.
fn serve<R: Threads + Wait + Sync>(
    rt: &R,
    alloc: Global,
    pages: &Pages,
    requests: &[Request],
) -> Result<u64, AllocError> {
    let made = thread::map_indices(
        rt,
        alloc,
        THREADS,
        &|number| { answer(rt, pages, requests, number) },
    )?;
    let mut sum = 0u64;
    for made in made {
        sum = sum.saturating_add(made);
    }
    Ok(sum)
}

fn main(rt: HostRuntime) -> io::Result<ExitCode> {
    let mut words = env::args(&rt)?.skip(1);
    let budget = words.next().and_then(|word| word.parse().ok());
    let (Some(budget), Some(dir)) = (budget, words.next()) else {
        println!(rt; "usage: example_restart BUDGET FOLDER")?;
        return Ok(ExitCode::from(2));
    };
    let Some(requests) = read(rt)? else {
        println!(rt; "error: not a request")?;
        return Ok(ExitCode::from(2));
    };
    let mut folder = HostFolder::new(rt);
    let pages = Pages::new(rt.alloc(), budget, usize::MAX)?;
    if !come_back(&rt, rt.alloc(), &mut folder, &dir, &pages)? {
        return Ok(ExitCode::from(1));
    }
    println!(rt; "{} pages are here", pages.len(&rt))?;
    let made = serve(&rt, rt.alloc(), &pages, &requests)?;
    println!(rt;
        "{} requests, {made} pages made, {} bytes",
        requests.len(),
        pages.weight(&rt)
    )?;
    keep(&rt, rt.alloc(), &mut folder, &dir, &pages)
}
