//! The calls of an `Lru` by 1, 2 and 4 threads, and those of a core by one, in rows that the harness in `bench/` reads
//! and puts beside its peers.

ghost use Rattle.std.specs.Prelude.{◌<◌};

use crate::trace::Keys;
use crate::watch::Watch;
use pingora_lru::Lru;
use pingora_lru::lru_core::LruCore;
use rand::rngs::SmallRng;
use rand_core::SeedableRng;
use std::alloc::Global;
use std::rt::Clock;
use std::sync::Wait;
use std::thread::Threads;
use std::time::Instant;
use std::{io, thread};

/// What is done with each key of a trace.
#[derive(Clone, Copy)]
enum Work {
    /// A look for the row.
    Peek,
    /// A promote.
    Promote,
    /// Three peeks to a promote.
    Mix,
    /// An admission of a row that is new, with the evictions that it asks for, in one call.
    AdmitAndEvict,
    /// The same, in two calls.
    AdmitThenEvict,
}

static ALL: [Work; 5] = [
    Work::Peek,
    Work::Promote,
    Work::Mix,
    Work::AdmitAndEvict,
    Work::AdmitThenEvict,
];

impl Work {
    fn name(self) -> &'static str {
        match self {
            Work::Peek => "peek",
            Work::Promote => "promote",
            Work::Mix => "mix",
            Work::AdmitAndEvict => "admit and evict",
            Work::AdmitThenEvict => "admit then evict",
        }
    }

    fn keys_of(self, keys: &Keys) -> &[u64] {
        match self {
            Work::AdmitAndEvict | Work::AdmitThenEvict => &keys.new,
            _ => &keys.drawn,
        }
    }
}

/// Who calls an order. Each call answers whether the row is there.
trait Caller {
    /// Looks for a row.
    fn peek(&mut self, key: u64) -> bool;

    /// Puts a row first.
    fn promote(&mut self, key: u64) -> bool;

    /// Admits a row and evicts down to the limit, in one call.
    fn admit_and_evict(&mut self, key: u64) -> bool;

    /// The same, in two calls.
    fn admit_then_evict(&mut self, key: u64) -> bool;
}

/// One of the threads that share an `Lru`.
#[derive(Drop)]
struct Sharer<'a, R, const N: usize> {
    rt: &'a R,
    alloc: Global,
    lru: &'a Lru<u64, N>,
    rng: SmallRng,
}

impl<R: Wait, const N: usize> Caller for Sharer<'_, R, N> {
    fn peek(&mut self, key: u64) -> bool {
        self.lru.peek(self.rt, key)
    }

    fn promote(&mut self, key: u64) -> bool {
        self.lru.promote(self.rt, key)
    }

    fn admit_and_evict(&mut self, key: u64) -> bool {
        let admitted = self.lru.admit_and_evict(self.rt, key, key, 1, |_| {});
        admitted.is_ok()
    }

    fn admit_then_evict(&mut self, key: u64) -> bool {
        let is_in = self.lru.admit(self.rt, key, key, 1).is_ok();
        let evicted = self.lru.evict_to_limit(self.rt, self.alloc, &mut self.rng);
        evicted.is_ok() && is_in
    }
}

/// The owner of a core.
#[derive(Drop)]
struct Owner<const N: usize> {
    alloc: Global,
    core: LruCore<u64, N>,
    rng: SmallRng,
}

impl<const N: usize> Caller for Owner<N> {
    fn peek(&mut self, key: u64) -> bool {
        self.core.peek(key)
    }

    fn promote(&mut self, key: u64) -> bool {
        self.core.promote(key)
    }

    fn admit_and_evict(&mut self, key: u64) -> bool {
        self.core.admit_and_evict(key, key, 1, |_| {}).is_ok()
    }

    fn admit_then_evict(&mut self, key: u64) -> bool {
        let is_in = self.core.admit(key, key, 1).is_ok();
        let evicted = self.core.evict_to_limit(self.alloc, &mut self.rng);
        evicted.is_ok() && is_in
    }
}

// Does the work with each key, and answers for how many the row is there.
fn work_on<C: Caller>(caller: &mut C, work: Work, keys: &[u64]) -> usize {
    let mut done = 0usize;
    for (place, key) in keys.iter().enumerate() {
        let is_there = match work {
            Work::Peek => caller.peek(*key),
            Work::Promote => caller.promote(*key),
            Work::Mix if place % 4 != 0 => caller.peek(*key),
            Work::Mix => caller.promote(*key),
            Work::AdmitAndEvict => caller.admit_and_evict(*key),
            // (those of the other rows, which are new again)
            Work::AdmitThenEvict => caller.admit_then_evict(!*key),
        };
        if is_there {
            done = done.wrapping_add(1);
        }
    }
    done
}

fn no_room() -> io::Error {
    io::Error::from(io::ErrorKind::OutOfMemory)
}

// A core with a row of weight 1 for each key, at its limit.
fn full_core<const N: usize>(alloc: Global, keys: &[u64]) -> io::Result<LruCore<u64, N>>
    requires { 0 < N }
{
    let mut core = LruCore::with_capacity(alloc, keys.len(), keys.len() / N)?;
    for key in keys {
        if core.admit(*key, *key, 1).is_err() {
            return Err(no_room());
        }
    }
    Ok(core)
}

// One kind of work of a core's owner.
fn time_owner<R: Print + Clock, const N: usize>(
    rt: &R,
    watch: Watch,
    keys: &Keys,
    owner: &mut Owner<N>,
    work: Work,
) -> io::Result<()> {
    let trace = work.keys_of(keys);
    let start = Instant::now(rt)?;
    let done = work_on(owner, work, trace);
    let (rows, name) = (keys.rows.len(), work.name());
    let what = format!(in owner.alloc; "{rows} rows, {name}, threads = 1, LruCore<_, {N}>")?;
    watch.tell(rt, what.as_str(), done, trace.len(), start)
}

// The calls of a core's owner.
fn measure_core<R: Print + Clock, const N: usize>(
    rt: &R,
    alloc: Global,
    watch: Watch,
    keys: &Keys,
) -> io::Result<()>
    requires { 0 < N }
{
    let mut owner = Owner::<N> {
        alloc,
        core: full_core(alloc, &keys.rows)?,
        rng: SmallRng::seed_from_u64(7),
    };
    for work in &ALL {
        time_owner(rt, watch, keys, &mut owner, *work)?;
    }
    Ok(())
}

// An `Lru` with a row of weight 1 for each key, at its limit.
fn full<R: Wait, const N: usize>(rt: &R, alloc: Global, keys: &[u64]) -> io::Result<Lru<u64, N>>
    requires { 0 < N }
{
    let lru = Lru::with_capacity(alloc, keys.len(), keys.len() / N)?;
    for key in keys {
        if lru.admit(rt, *key, *key, 1).is_err() {
            return Err(no_room());
        }
    }
    Ok(lru)
}

// For how many keys of a trace, which so many threads share, the row is there.
fn share<R: Threads + Wait + Sync, const N: usize>(
    rt: &R,
    alloc: Global,
    lru: &Lru<u64, N>,
    work: Work,
    trace: &[u64],
    threads: usize,
) -> io::Result<usize> {
    let calls = (trace.len() / threads.max(1)).max(1);
    let counts = thread::map_chunks(
        rt,
        alloc,
        trace,
        calls,
        &|first, part| {
            let mut sharer = Sharer {
                rt,
                alloc,
                lru,
                rng: SmallRng::seed_from_u64(first as u64),
            };
            work_on(&mut sharer, work, part)
        },
    )?;
    Ok(
        counts
            .iter()
            .fold(0usize, |sum, count| sum.wrapping_add(*count)),
    )
}

// One kind of work of so many threads.
fn time_shared<R: Print + Clock + Threads + Wait + Sync, const N: usize>(
    rt: &R,
    alloc: Global,
    watch: Watch,
    keys: &Keys,
    lru: &Lru<u64, N>,
    (work, threads): (Work, usize),
) -> io::Result<()> {
    let trace = work.keys_of(keys);
    let start = Instant::now(rt)?;
    let done = share(rt, alloc, lru, work, trace, threads)?;
    let (rows, name) = (keys.rows.len(), work.name());
    let what = format!(in alloc; "{rows} rows, {name}, threads = {threads}, Lru<_, {N}>")?;
    watch.tell(rt, what.as_str(), done, trace.len(), start)
}

// The calls of so many threads.
fn measure_shared<R: Print + Clock + Threads + Wait + Sync, const N: usize>(
    rt: &R,
    alloc: Global,
    watch: Watch,
    keys: &Keys,
    threads: usize,
) -> io::Result<()>
    requires { 0 < N }
{
    let lru = full::<R, N>(rt, alloc, &keys.rows)?;
    for work in &ALL {
        time_shared(rt, alloc, watch, keys, &lru, (*work, threads))?;
    }
    Ok(())
}

// The calls of a core of N shards, and of 1, 2 and 4 threads.
fn measure_shards<R: Print + Clock + Threads + Wait + Sync, const N: usize>(
    rt: &R,
    alloc: Global,
    watch: Watch,
    keys: &Keys,
) -> io::Result<()>
    requires { 0 < N }
{
    measure_core::<R, N>(rt, alloc, watch, keys)?;
    for threads in [1usize, 2, 4] {
        measure_shared::<R, N>(rt, alloc, watch, keys, threads)?;
    }
    Ok(())
}

/// Makes the calls on so many rows, in 8 and in 16 shards.
pub fn measure<R: Print + Clock + Threads + Wait + Sync>(
    rt: &R,
    alloc: Global,
    watch: Watch,
    rows: usize,
) -> io::Result<()> {
    let calls = if watch.is_timed { 1_000_000 } else { 20_000 };
    let keys = Keys::draw(alloc, rows, calls)?;
    measure_shards::<R, 8>(rt, alloc, watch, &keys)?;
    measure_shards::<R, 16>(rt, alloc, watch, &keys)
}
