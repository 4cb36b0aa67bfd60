//! Promotes in an order that records its calls, beside those of one that does not.
ghost use Rattle.std.specs.Prelude.{◌≡◌, ◌<◌};

use crate::trace;
use crate::watch::Watch;
use pingora_lru::Lru;
use pingora_lru::recorded::{Blank, Names, RecordedLru, Registry, Seat};
use std::alloc::Global;
use std::io;
use std::marker::Brand;
use std::rt::Clock;
use std::sync::Wait;
use std::time::Instant;

const CALLS: usize = 1_000_000;

// Admits the rows, and promotes by the trace; each call leaves an entry and a receipt.
fn record<B: Registry, R: Print + Clock + Wait>(
    rt: &R,
    alloc: Global,
    watch: Watch,
    blank: Blank,
    rows: u32,
    trace: &[u64],
) -> io::Result<()>
    requires blank { (blank.tie.table.shared.table_id ≡ B.table) × (blank.tie.table.shared.key ≡ record { shards = 8; seats = 1 }) }
    requires callers { B.seats ≡ 1 }
{
    let (lru, mut seats) = RecordedLru::<u64, B, 8>::new(
        alloc,
        blank,
        usize::MAX,
        rows as usize,
        None,
        1,
    )?;
    for seat in seats.iter_mut() {
        time(rt, watch, &lru, seat, rows, trace)?;
    }
    Ok(())
}

// Admits the rows and promotes by the trace, with one caller.
fn time<B: Registry, R: Print + Clock + Wait>(
    rt: &R,
    watch: Watch,
    lru: &RecordedLru<u64, B, 8>,
    seat: &mut Seat<B>,
    rows: u32,
    trace: &[u64],
) -> io::Result<()> {
    for key in 0..rows as u64 {
        if lru.admit(rt, seat, key, key, 1).is_err() {
            return Err(io::Error::from(io::ErrorKind::OutOfMemory));
        }
    }
    let start = Instant::now(rt)?;
    let mut done = 0usize;
    for key in trace {
        if lru.promote(rt, seat, *key)? {
            done = done.wrapping_add(1);
        }
    }
    watch.tell(rt, "recorded, N = 8, promote", done, trace.len(), start)
}

// Promotes by the trace in an order that does not record.
fn measure_plain<R: Print + Clock + Wait>(
    rt: &R,
    alloc: Global,
    watch: Watch,
    rows: u32,
    trace: &[u64],
) -> io::Result<()> {
    let lru = Lru::<u64, 8>::with_capacity(alloc, usize::MAX, rows as usize)?;
    for key in 0..rows as u64 {
        if lru.admit(rt, key, key, 1).is_err() {
            return Err(io::Error::from(io::ErrorKind::OutOfMemory));
        }
    }
    let start = Instant::now(rt)?;
    let done = trace.iter().filter(|key| lru.promote(rt, **key)).count();
    watch.tell(rt, "not recorded, N = 8, promote", done, trace.len(), start)
}

/// Promotes a million times among so many rows, recorded and not.
pub fn measure<R: Print + Clock + Wait>(
    rt: &R,
    alloc: Global,
    watch: Watch,
    rows: u32,
) -> io::Result<()>
    requires { 0 < rows }
{
    let trace = trace::uniform_keys(alloc, 7, rows, CALLS)?;
    measure_plain(rt, alloc, watch, rows, &trace)?;
    let names = Names {
        shards: 8,
        seats: 1,
    };
    let blank = Blank::new(alloc, names)?;
    record::<Brand, R>(rt, alloc, watch, blank, rows, &trace)
}
