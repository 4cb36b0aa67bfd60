//! Scripts whose every request for memory may be refused, one in each run of the gate's sweep: a refused call changes nothing and
//! hands back what it was given, and the same call made again answers as if nothing had been. So what is written is the same in each
//! run.
//!
//! The scripts are of orders and actors, of caches, of copies saved as checkpoints, and of shard files. A refused call of a recorded
//! order leaves no receipt and calls no closure; a refused message to an actor changes nothing but the count of those, and processed
//! again it does what it would have done; a refused save leaves files as they were or as they are to be.
#![tactic(auto)]

mod actor_shards;
mod boxes;
mod cache_copies;
mod caches;
mod checkpoint_saves;
mod core_copies;
mod cores;
mod deadlines;
mod engine;
mod lists;
mod loads;
mod locked;
mod mails;
mod recorded;
mod rows;
mod saves;
mod segmented;
mod shards;
mod shared;
mod tiers;

use std::alloc::{AllocError, Global};
use std::io::Write;
use std::process::ExitCode;
use std::sync::Wait;

// What a constructor makes, at the second try where the first one found no memory.
fn made<A, F: Fn(Global) -> Result<A, AllocError>>(alloc: Global, make: F) -> Result<A, AllocError>
    requires { F.IsAlwaysCallable make }
{
    match make(alloc) {
        Ok(made) => Ok(made),
        Err(_) => make(alloc),
    }
}

// Whether each script of orders and actors came to its end.
fn order_scripts<R: Wait, W: Write>(rt: &R, alloc: Global, writer: &mut W) -> [bool; 9] {
    [
        lists::script(alloc, writer).is_ok(),
        shards::script(alloc, writer).is_ok(),
        cores::script(alloc, writer).is_ok(),
        tiers::script(alloc, writer).is_ok(),
        recorded::script(rt, alloc, writer).is_ok(),
        locked::script(rt, alloc, writer).is_ok(),
        actor_shards::script(alloc, writer).is_ok(),
        boxes::script(alloc, writer).is_ok(),
        mails::script(alloc, writer).is_ok(),
    ]
}

// Whether each script of caches came to its end.
fn cache_scripts<R: Wait, W: Write>(rt: &R, alloc: Global, writer: &mut W) -> [bool; 4] {
    [
        caches::script(alloc, writer).is_ok(),
        deadlines::script(alloc, writer).is_ok(),
        shared::script(rt, alloc, writer).is_ok(),
        segmented::script(alloc, writer).is_ok(),
    ]
}

// Whether each script of copies that are saved as checkpoints came to its end.
fn copy_scripts<R: Wait, W: Write>(rt: &R, alloc: Global, writer: &mut W) -> [bool; 2] {
    [
        cache_copies::script(rt, alloc, writer).is_ok_and(|is_done| is_done),
        core_copies::script(alloc, writer).is_ok_and(|is_done| is_done),
    ]
}

// Whether each script of shard files came to its end.
fn file_scripts<W: Write>(alloc: Global, writer: &mut W) -> [bool; 3] {
    [
        saves::script(alloc, writer).is_ok(),
        loads::script(alloc, writer).is_ok(),
        engine::script(alloc, writer).is_ok(),
    ]
}

fn main(rt: HostRuntime) -> ExitCode {
    let alloc = rt.alloc();
    let orders = order_scripts(&rt, alloc, &mut rt.stdout()) == [true; 9];
    let caches = cache_scripts(&rt, alloc, &mut rt.stdout()) == [true; 4];
    let copies = copy_scripts(&rt, alloc, &mut rt.stdout()) == [true; 2];
    let files = file_scripts(alloc, &mut rt.stdout()) == [true; 3];
    if orders & caches & copies & files {
        ExitCode::SUCCESS
    } else {
        let _ = println!(rt; "a script did not end");
        ExitCode::FAILURE
    }
}
