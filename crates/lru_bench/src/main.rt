//! `lru_bench [threads] [time]`: what a promote costs in a short and in a long list, and what the calls of `Lru` and of
//! a `SharedCache` cost to 1, 2 and 4 threads, among rows that a core's cache holds and among many more; what messages cost to an
//! actor's shard and to actors on threads, what it costs to record calls, and what touches and spills of two tiers cost.
//!
//! It goes through seeded traces and prints what it counted, which is the same at each run. With the
//! argument `time` each line ends with the nanoseconds that one call took, which are not. With the argument `threads` it
//! prints the rows alone that the harness in `bench/` puts beside those of its peers.
#![tactic(auto)]

mod actors;
mod caches;
mod lists;
mod recorded;
mod senders;
mod threads;
mod tiers;
mod trace;
mod watch;

use std::{env, io};
use watch::Watch;

const FEW: u32 = 50_000;

const MANY: u32 = 1_000_000;

fn main(rt: HostRuntime) -> io::Result<()> {
    let is_timed = env::args(&rt)?.skip(1).any(|word| word.as_str() == "time");
    let is_beside_peers = env::args(&rt)?
        .skip(1)
        .any(|word| word.as_str() == "threads");
    let watch = Watch { is_timed };
    threads::measure(&rt, rt.alloc(), watch, FEW as usize)?;
    threads::measure(&rt, rt.alloc(), watch, MANY as usize)?;
    caches::measure(&rt, rt.alloc(), watch, FEW as usize)?;
    caches::measure(&rt, rt.alloc(), watch, MANY as usize)?;
    if is_beside_peers {
        return Ok(());
    }
    lists::measure(&rt, rt.alloc(), watch, 1_000)?;
    lists::measure(&rt, rt.alloc(), watch, 1_000_000)?;
    actors::measure(&rt, rt.alloc(), watch, MANY)?;
    recorded::measure(&rt, rt.alloc(), watch, 100_000)?;
    senders::measure::<_, 1>(rt, rt.alloc(), watch)?;
    senders::measure::<_, 4>(rt, rt.alloc(), watch)?;
    senders::measure::<_, 16>(rt, rt.alloc(), watch)?;
    tiers::measure(&rt, rt.alloc(), watch, 100_000)?;
    tiers::measure(&rt, rt.alloc(), watch, MANY)
}
