//! Touches and spills of two tiers, beside the promotes of one core, its evictions with an admission each, and evictions
//! of one core with an admission to another each.
ghost use Rattle.std.specs.Prelude.{◌<◌};

use crate::trace;
use crate::watch::Watch;
use pingora_lru::lru_core::LruCore;
use pingora_lru::tiered::{Tier, TieredCore};
use std::alloc::Global;
use std::io;
use std::rt::Clock;
use std::time::Instant;

// Two draws of 8 shards that go round.
fn draws(turn: u64) -> (usize, usize)
    ensures a { result.0 < 8 }
    ensures b { result.1 < 8 }
{
    ((turn % 8) as usize, (turn / 8 % 8) as usize)
}

fn no_room() -> io::Error {
    io::Error::from(io::ErrorKind::OutOfMemory)
}

// A core of so many rows under a limit of 0, so that each step evicts, with room for twice its rows.
fn filled(alloc: Global, rows: u64) -> io::Result<LruCore<u64, 8>> {
    let mut core = LruCore::with_capacity(alloc, 0, rows as usize / 4)?;
    for key in 0..rows {
        if core.admit(key, key, 1).is_err() {
            return Err(no_room());
        }
    }
    Ok(core)
}

// Evicts each row of a core, and admits another in its place.
fn evict_and_replace<R: Print + Clock>(
    rt: &R,
    watch: Watch,
    rows: u64,
    core: &mut LruCore<u64, 8>,
) -> io::Result<()> {
    let start = Instant::now(rt)?;
    let mut done = 0usize;
    for turn in 0..rows {
        let (a, b) = draws(turn);
        let left = core.evict_step(a, b);
        if left.is_some() && core.admit(turn.wrapping_add(rows), turn, 1).is_ok() {
            done = done.wrapping_add(1);
        }
    }
    watch.tell(rt, "a core, evict and admit", done, rows as usize, start)
}

// The promotes and the evictions of one core.
fn measure_core<R: Print + Clock>(
    rt: &R,
    alloc: Global,
    watch: Watch,
    rows: u32,
    trace: &[u64],
) -> io::Result<()> {
    let rows = rows as u64;
    let mut core = filled(alloc, rows)?;
    let start = Instant::now(rt)?;
    let done = trace.iter().filter(|key| core.promote(**key)).count();
    watch.tell(rt, "a core, promote", done, trace.len(), start)?;
    evict_and_replace(rt, watch, rows, &mut core)
}

// Evicts each row of a core, and admits a row of that key to another: what a spill does, by two calls.
fn evict_and_admit<R: Print + Clock>(
    rt: &R,
    watch: Watch,
    rows: u64,
    core: &mut LruCore<u64, 8>,
    other: &mut LruCore<u64, 8>,
) -> io::Result<()> {
    let start = Instant::now(rt)?;
    let mut done = 0usize;
    for turn in 0..rows {
        let (a, b) = draws(turn);
        if let Some((key, weight)) = core.evict_step(a, b)
            && other.admit(key, key, weight).is_ok()
        {
            done = done.wrapping_add(1);
        }
    }
    let what = "a core, evict, and another, admit";
    watch.tell(rt, what, done, rows as usize, start)
}

// Admits the rows of the other core to the first again, and answers whether there was room.
fn put_back(rows: u64, core: &mut LruCore<u64, 8>, other: &mut LruCore<u64, 8>) -> bool {
    (0..rows).all(|key| other.remove(key).is_none() || core.admit(key, key, 1).is_ok())
}

// Two cores, with the rows and the steps that the tiers have.
fn measure_cores<R: Print + Clock>(
    rt: &R,
    alloc: Global,
    watch: Watch,
    rows: u32,
    trace: &[u64],
) -> io::Result<()> {
    let rows = rows as u64;
    let mut core = filled(alloc, rows)?;
    for key in trace {
        core.promote(*key);
    }
    let mut other = LruCore::<u64, 8>::with_capacity(alloc, 0, rows as usize / 4)?;
    evict_and_admit(rt, watch, rows, &mut core, &mut other)?;
    if !put_back(rows, &mut core, &mut other) {
        return Err(no_room());
    }
    evict_and_admit(rt, watch, rows, &mut core, &mut other)
}

// Spills each row, and touches each again, so that all rows are hot as before.
fn spill_and_touch<R: Print + Clock>(
    rt: &R,
    watch: Watch,
    rows: u64,
    tiered: &mut TieredCore<u64, 8>,
) -> io::Result<()> {
    let start = Instant::now(rt)?;
    let mut done = 0usize;
    for turn in 0..rows {
        let (a, b) = draws(turn);
        if tiered.spill_step(a, b).is_ok() {
            done = done.wrapping_add(1);
        }
    }
    watch.tell(rt, "tiers, spill_step", done, rows as usize, start)?;
    let start = Instant::now(rt)?;
    let mut done = 0usize;
    for key in 0..rows {
        if tiered.touch(key) == Ok(Some(Tier::Cold)) {
            done = done.wrapping_add(1);
        }
    }
    watch.tell(rt, "tiers, touch of a cold row", done, rows as usize, start)
}

// Tiers of so many rows under limits of 0, so that each step spills, with room for twice as many rows each.
fn filled_tiers(alloc: Global, rows: u64) -> io::Result<TieredCore<u64, 8>> {
    let mut tiered = TieredCore::with_limits(alloc, 0, 0, rows as usize / 4)?;
    for key in 0..rows {
        if tiered.admit(key, key, 1).is_err() {
            return Err(no_room());
        }
    }
    Ok(tiered)
}

// Touches rows that are hot.
fn touch<R: Print + Clock>(
    rt: &R,
    watch: Watch,
    tiered: &mut TieredCore<u64, 8>,
    trace: &[u64],
) -> io::Result<()> {
    let start = Instant::now(rt)?;
    let mut done = 0usize;
    for key in trace {
        if tiered.touch(*key) == Ok(Some(Tier::Hot)) {
            done = done.wrapping_add(1);
        }
    }
    watch.tell(rt, "tiers, touch of a hot row", done, trace.len(), start)
}

// Touches and spills. The second spills write to memory that the first ones have used.
fn measure_tiers<R: Print + Clock>(
    rt: &R,
    alloc: Global,
    watch: Watch,
    rows: u32,
    trace: &[u64],
) -> io::Result<()> {
    let rows = rows as u64;
    let mut tiered = filled_tiers(alloc, rows)?;
    touch(rt, watch, &mut tiered, trace)?;
    spill_and_touch(rt, watch, rows, &mut tiered)?;
    spill_and_touch(rt, watch, rows, &mut tiered)
}

/// A million promotes and touches among so many rows, and each row evicted or spilled, at most twice.
pub fn measure<R: Print + Clock>(rt: &R, alloc: Global, watch: Watch, rows: u32) -> io::Result<()>
    requires { 0 < rows }
{
    let trace = trace::uniform_keys(alloc, 7, rows, 1_000_000)?;
    measure_core(rt, alloc, watch, rows, &trace)?;
    measure_cores(rt, alloc, watch, rows, &trace)?;
    measure_tiers(rt, alloc, watch, rows, &trace)
}
