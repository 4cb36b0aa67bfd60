//! Example: an object store with a budget of bytes that is killed and comes back.
//!
//! The input has a command a line: `put ID BYTES` stores an object, after which those used longest ago leave until the
//! budget, the first argument, is kept; `get ID` uses one; `save` saves the store as a checkpoint, whole or not at all;
//! `kill` forgets the store and goes on with what the last checkpoint holds, as the next run does of a program that was
//! killed. So does the start.
//!
//! It shows `LruCore`, `CoreSource`, `save`, `load` and `restore_shards`. It is proved (`put`) that the store
//! keeps its budget. (That the rows that are captured come back in their order is proved of the calls that it shows.)
//!
//! Where the newest checkpoint is damaged, a line says so, and the one before is taken. A bad line, or no budget: a line that
//! says which, and status 2. A checkpoint that can't be read: a line that says why, and status 1.
#![tactic(auto)]

mod store;

use lru_checkpoints::cores::{CoreSource, restore_shards};
use lru_checkpoints::generations::save;
use lru_checkpoints::host_folder::HostFolder;
use lru_checkpoints::loading::{Loaded, load};
use rand::rngs::StdRng;
use rand_core::SeedableRng;
use std::env::Env;
use std::io::ErrorKind;
use std::process::ExitCode;
use std::{env, io};
use store::{Store, empty_store, put};

const FOLDER: &str = ".";

const NAME: &str = "objects";

fn two_numbers(words: &str) -> Option<(u64, usize)> {
    let (id, bytes) = words.split_once(' ')?;
    Some((id.parse().ok()?, bytes.parse().ok()?))
}

/// The line, or `None` where it is no text.
fn text_of(line: io::Result<String>) -> io::Result<Option<String>> {
    match line {
        Err(error) if error.kind() == ErrorKind::InvalidData => Ok(None),
        line => Ok(Some(line?)),
    }
}

/// The budget that the arguments give, if they do.
fn budget(rt: &(impl Env + AllocGlobal)) -> io::Result<Option<usize>> {
    let mut words = env::args(rt)?.skip(1);
    Ok(words.next().and_then(|word| word.parse().ok()))
}

/// Saves the objects in their order.
fn keep(rt: HostRuntime, store: &Store) -> io::Result<()> {
    let mut folder = HostFolder::new(rt);
    match save(
        rt.alloc(),
        &mut folder,
        FOLDER,
        NAME,
        &CoreSource { core: store },
    ) {
        Ok(saved) => println!(rt; "saved as generation {}", saved.generation),
        Err(error) => println!(rt; "not saved: {error}"),
    }
}

/// Goes on with what was saved last, if anything was. Whether it could be loaded.
fn come_back(rt: HostRuntime, store: &mut Store) -> io::Result<bool> {
    *store = empty_store(rt.alloc(), store.weight_limit())?;
    let mut folder = HostFolder::new(rt);
    let Loaded { newest, passed } = match load(rt.alloc(), &mut folder, FOLDER, NAME) {
        Ok(loaded) => loaded,
        Err(error) => {
            println!(rt; "not loaded: {error}")?;
            return Ok(false);
        }
    };
    for it in &passed {
        println!(rt; "passed over generation {}: {}", it.generation, it.error)?;
    }
    if let Some(checkpoint) = newest {
        if let Err(refused) = restore_shards(store, checkpoint.shards) {
            println!(rt; "not put back: {}", refused.cause)?;
            return Ok(false);
        }
    }
    println!(rt; "{} objects are here", store.len())?;
    Ok(true)
}

/// What became of a line.
enum Obeyed {
    Yes,
    NotLoaded,
    BadLine,
}

/// Does what a line asks for.
fn obey(rt: HostRuntime, store: &mut Store, rng: &mut StdRng, line: &str) -> io::Result<Obeyed> {
    let (name, words) = line.split_once(' ').unwrap_or((line, ""));
    match (name, words.parse::<u64>(), two_numbers(words)) {
        ("save", _, _) if words.is_empty() => keep(rt, store)?,
        ("kill", _, _) if words.is_empty() => {
            if !come_back(rt, store)? {
                return Ok(Obeyed::NotLoaded);
            }
        }
        ("get", Ok(id), _) => {
            let here = if store.promote(id) { "" } else { "not " };
            println!(rt; "{id} is {here}here")?;
        }
        ("put", _, Some((id, bytes))) => {
            let done = put(rt.alloc(), store, rng, id, bytes);
            match done.refused {
                None => println!(rt; "{id} is stored")?,
                Some(cause) => println!(rt; "{id} is refused: {cause}")?,
            }
            for (object, bytes) in &done.left {
                println!(rt; "{} leaves with {bytes}", object.0)?;
            }
        }
        _ => return Ok(Obeyed::BadLine),
    }
    Ok(Obeyed::Yes)
}

fn main(rt: HostRuntime) -> io::Result<ExitCode> {
    let Some(budget) = budget(&rt)? else {
        println!(rt; "usage: example_objects BUDGET")?;
        return Ok(ExitCode::from(2));
    };
    let mut store = empty_store(rt.alloc(), budget)?;
    if !come_back(rt, &mut store)? {
        return Ok(ExitCode::from(1));
    }
    let mut rng = StdRng::seed_from_u64(1);
    let mut number = 0u64;
    for line in rt.lines(rt.alloc()) {
        number = number.saturating_add(1);
        let obeyed = match text_of(line)? {
            Some(line) => obey(rt, &mut store, &mut rng, &line)?,
            None => Obeyed::BadLine,
        };
        match obeyed {
            Obeyed::Yes => {}
            Obeyed::NotLoaded => return Ok(ExitCode::from(1)),
            Obeyed::BadLine => {
                println!(rt; "error line {number}")?;
                return Ok(ExitCode::from(2));
            }
        }
    }
    println!(rt; "{} objects, {} bytes", store.len(), store.weight())?;
    Ok(ExitCode::SUCCESS)
}
