//! Messages to an order served by actors on threads, beside the calls of one behind locks.

ghost use Rattle.std.specs.Prelude.{◌<◌};

use crate::trace;
use crate::watch::Watch;
use pingora_lru::Lru;
use pingora_lru_async::async_lru::{AsyncEvictionCallback, AsyncLru};
use std::alloc::{AllocError, Global};
use std::rt::Clock;
use std::sync::{Arc, Wait};
use std::thread::Threads;
use std::time::Instant;
use std::{io, thread};

const ROWS: u32 = 50_000;

// How many calls a row makes; fewer where their time does not count.
fn calls_of(watch: Watch) -> usize
    ensures { 0 < result }
{
    if watch.is_timed { 200_000 } else { 20_000 }
}

/// A callback that does nothing.
#[derive(Drop)]
struct Quiet;

impl AsyncEvictionCallback<u64> for Quiet {
    ghost ready = { λ _. Unit {0} };

    fn call(&self, _key: u64, _weight: usize) {}
}

/// What a sender asks for with each key of its part of the trace.
#[derive(Clone, Copy)]
enum Work {
    /// An admission, with weight 1.
    Admit,
    /// A promote.
    Promote,
    /// Three promotes to each admission.
    Mix,
}

impl Work {
    fn name(self) -> &'static str {
        match self {
            Work::Admit => "admit",
            Work::Promote => "promote",
            Work::Mix => "mix",
        }
    }
}

/// An order that several threads use at once.
trait Order: Sync {
    /// Admits a row of weight 1.
    fn admit<R: Wait>(&self, rt: &R, key: u64) -> bool;

    /// Promotes a row.
    fn promote<R: Wait>(&self, rt: &R, key: u64) -> bool;

    /// Waits until all that was asked for is done.
    fn finish<R: Wait>(&self, rt: &R) -> bool;
}

impl<const N: usize> Order for AsyncLru<u64, N> {
    fn admit<R: Wait>(&self, rt: &R, key: u64) -> bool {
        AsyncLru::admit(self, rt, key, 1).is_ok()
    }

    fn promote<R: Wait>(&self, rt: &R, key: u64) -> bool {
        AsyncLru::promote(self, rt, &key).is_ok()
    }

    fn finish<R: Wait>(&self, rt: &R) -> bool {
        (0..N).all(|shard| self.shard_weight(rt, shard).is_ok())
    }
}

impl<const N: usize> Order for Lru<u64, N> {
    fn admit<R: Wait>(&self, rt: &R, key: u64) -> bool {
        Lru::admit(self, rt, key, key, 1).is_ok()
    }

    fn promote<R: Wait>(&self, rt: &R, key: u64) -> bool {
        Lru::promote(self, rt, key)
    }

    fn finish<R: Wait>(&self, _rt: &R) -> bool {
        true
    }
}

// Does the work with each key, and answers how often it was taken.
fn work_on<O: Order, R: Wait>(rt: &R, order: &O, work: Work, keys: &[u64]) -> usize {
    keys.iter()
        .filter(|key| match work {
            Work::Admit => order.admit(rt, **key),
            Work::Promote => order.promote(rt, **key),
            Work::Mix if **key % 4 == 0 => order.admit(rt, **key),
            Work::Mix => order.promote(rt, **key),
        })
        .count()
}

// How much of the work with the keys of a trace was taken, once all of it is done.
fn share<O: Order, R: Threads + Wait + Sync>(
    rt: &R,
    alloc: Global,
    order: &O,
    work: Work,
    trace: &[u64],
    senders: usize,
) -> io::Result<usize> {
    let calls = (trace.len() / senders.max(1)).max(1);
    let counts = thread::map_chunks(
        rt,
        alloc,
        trace,
        calls,
        &|_, keys| work_on(rt, order, work, keys),
    )?;
    order.finish(rt);
    Ok(
        counts
            .iter()
            .fold(0usize, |sum, count| sum.wrapping_add(*count)),
    )
}

// Fills an order with all rows, and times the work of so many senders until all of it is done.
fn time<O: Order, R: Print + Clock + Threads + Wait + Sync>(
    rt: &R,
    alloc: Global,
    watch: Watch,
    order: &O,
    name: &str,
    work: Work,
    senders: usize,
) -> io::Result<()> {
    let all = calls_of(watch);
    let trace = trace::uniform_keys(alloc, 13, ROWS, all)?;
    if !(0..ROWS as u64).all(|key| order.admit(rt, key)) {
        return Err(io::Error::from(io::ErrorKind::OutOfMemory));
    }
    order.finish(rt);
    let start = Instant::now(rt)?;
    let count = share(rt, alloc, order, work, &trace, senders)?;
    let what = format!(in alloc; "{name}, senders = {senders}, {}", work.name())?;
    watch.tell(rt, what.as_str(), count, all, start)
}

// An order whose actors evict beyond so many rows.
fn actors<R: Threads + Wait + Copy + Send + 'static, const N: usize>(
    rt: R,
    alloc: Global,
    limit: usize,
) -> io::Result<AsyncLru<u64, N>>
    requires { 0 < N }
{
    let Ok(quiet) = Arc::new(alloc, Quiet) else {
        return Err(io::Error::from(io::ErrorKind::OutOfMemory));
    };
    let builder = AsyncLru::<u64, N>::builder(alloc, limit, quiet).capacity(ROWS as usize / N);
    match builder.build(rt) {
        Ok(lru) => Ok(lru),
        Err(_) => Err(io::Error::from(io::ErrorKind::Other)),
    }
}

// Times how long an admission takes from its sending to its effect.
fn answer<R: Print + Clock + Wait, const N: usize>(
    rt: &R,
    alloc: Global,
    watch: Watch,
    lru: &AsyncLru<u64, N>,
) -> io::Result<()> {
    let start = Instant::now(rt)?;
    let mut count = 0usize;
    for key in 0..ROWS as u64 {
        let Ok(shard) = lru.admit(rt, key, 1) else {
            continue;
        };
        if lru.shard_weight(rt, shard).is_ok() {
            count = count.wrapping_add(1);
        }
    }
    let what = format!(in alloc; "by actors, N = {N}, an admission and its effect")?;
    watch.tell(rt, what.as_str(), count, ROWS as usize, start)
}

// Times so many senders to an order behind locks.
fn behind_locks<R: Print + Clock + Threads + Wait + Sync, const N: usize>(
    rt: &R,
    alloc: Global,
    watch: Watch,
    work: Work,
    senders: usize,
) -> io::Result<()>
    requires { 0 < N }
{
    let lru = Lru::<u64, N>::with_capacity(alloc, usize::MAX, ROWS as usize / N)?;
    let name = format!(in alloc; "behind locks, N = {N}")?;
    time(rt, alloc, watch, &lru, name.as_str(), work, senders)
}

// Times so many senders to actors that have this limit and are called so.
fn by_actors<R: Print + Clock + Threads + Wait + Copy + Send + Sync + 'static, const N: usize>(
    rt: R,
    alloc: Global,
    watch: Watch,
    limit: usize,
    who: &str,
    work: Work,
    senders: usize,
) -> io::Result<()>
    requires { 0 < N }
{
    let lru = actors::<R, N>(rt, alloc, limit)?;
    let name = format!(in alloc; "by {who}, N = {N}")?;
    time(&rt, alloc, watch, &lru, name.as_str(), work, senders)?;
    lru.close(&rt);
    Ok(())
}

/// Times 1 and 4 senders to N actors, with a limit that is passed and one that is not, and to an order behind locks.
pub fn measure<R: Print + Clock + Threads + Wait + Copy + Send + Sync + 'static, const N: usize>(
    rt: R,
    alloc: Global,
    watch: Watch,
) -> io::Result<()>
    requires { 0 < N }
{
    for senders in [1usize, 4] {
        for work in [Work::Admit, Work::Promote, Work::Mix] {
            behind_locks::<R, N>(&rt, alloc, watch, work, senders)?;
            for (limit, who) in [
                (usize::MAX, "actors"),
                (ROWS as usize / 2, "actors that evict"),
            ] {
                by_actors::<R, N>(rt, alloc, watch, limit, who, work, senders)?;
            }
        }
    }
    let lru = actors::<R, N>(rt, alloc, usize::MAX)?;
    answer(&rt, alloc, watch, &lru)?;
    lru.close(&rt);
    Ok(())
}
