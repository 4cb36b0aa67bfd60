//! Example: four threads that share a cache.
//!
//! Each of them asks for all keys, and begins elsewhere than the others. What a key has no entry for is made once, however
//! many ask for it at the same time: those wait, and threads that ask for other keys go on. At the end each thread has met
//! the same values.
//!
//! It shows `SharedCache::get_or_put_with`. Where a value was refused, for which memory alone is a reason here, its thread
//! counts it among those that it missed.
#![tactic(auto)]

use lru_cache::shared::SharedCache;
use std::sync::Wait;
use std::sync::atomic::{AtomicU64, Ordering};
use std::{io, thread};

const THREADS: usize = 4;

const KEYS: u64 = 1000;

type Squares = SharedCache<u64, u64, 8>;

/// What a thread met: the sum of the values, and how many it missed.
#[derive(Clone, Copy, Drop)]
struct Met {
    sum: u64,
    missed: u64,
}

/// Asks for each key once, from this one on.
fn ask<R: Wait>(rt: &R, squares: &Squares, made: &AtomicU64, first: u64) -> Met {
    let mut met = Met { sum: 0, missed: 0 };
    for step in 0..KEYS {
        let key = first.wrapping_add(step) % KEYS;
        let make = || {
            made.fetch_add(1, Ordering::SeqCst);
            Ok::<_, ()>((key.wrapping_mul(key), 1))
        };
        match squares.get_or_put_with(rt, key, make, |_gone| {}) {
            Ok(square) => met.sum = met.sum.wrapping_add(square),
            Err(_) => met.missed = met.missed.wrapping_add(1),
        }
    }
    met
}

fn main(rt: HostRuntime) -> io::Result<()> {
    let squares = Squares::new(rt.alloc(), usize::MAX, usize::MAX)?;
    let made = AtomicU64::new(0);
    let all = thread::map_indices(
        &rt,
        rt.alloc(),
        THREADS,
        &|number| { ask(&rt, &squares, &made, 250u64.wrapping_mul(number as u64)) },
    )?;
    for (number, met) in all.iter().enumerate() {
        println!(rt; "thread {number}: sum {}, missed {}", met.sum, met.missed)?;
    }
    println!(rt;
        "made {} values, {} entries",
        made.load(Ordering::SeqCst),
        squares.len(&rt)
    )
}
