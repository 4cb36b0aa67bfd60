//! The calls of a `SharedCache` by 1, 2 and 4 threads, in rows that the harness in `bench/` reads and puts beside its peers.

ghost use Rattle.std.specs.Prelude.{◌<◌};

use crate::trace::Keys;
use crate::watch::Watch;
use lru_shared_cache::shared::SharedCache;
use std::alloc::Global;
use std::rt::Clock;
use std::sync::Wait;
use std::thread::Threads;
use std::time::Instant;
use std::{io, thread};

/// What is done with each key of a trace.
#[derive(Clone, Copy)]
enum Work {
    /// A look for the value, which uses the entry.
    Get,
    /// Nine of those to a put in place of the key's entry.
    NineGets,
    /// A put in place of the key's entry.
    PutOver,
    /// A put of an entry that is new, for which another goes.
    Put,
    /// A get of a key that has no entry, whose value is made and put then, for which another goes.
    Make,
}

impl Work {
    fn name(self) -> &'static str {
        match self {
            Work::Get => "get",
            Work::NineGets => "nine gets to a put",
            Work::PutOver => "put over an entry",
            Work::Put => "put",
            Work::Make => "make a missing value",
        }
    }

    fn keys_of(self, keys: &Keys) -> &[u64] {
        match self {
            Work::Put | Work::Make => &keys.new,
            Work::Get | Work::NineGets | Work::PutOver => &keys.drawn,
        }
    }
}

fn has_got<R: Wait, const N: usize>(rt: &R, cache: &SharedCache<u64, u64, N>, key: &u64) -> bool {
    match cache.get(rt, key) {
        Ok(value) => value.is_some(),
        Err(_) => false,
    }
}

fn has_put<R: Wait, const N: usize>(rt: &R, cache: &SharedCache<u64, u64, N>, key: u64) -> bool {
    cache.put(rt, key, key, 1, |_| {}).is_ok()
}

// Whether a key that had no entry has one now.
fn has_made<R: Wait, const N: usize>(rt: &R, cache: &SharedCache<u64, u64, N>, key: u64) -> bool {
    let made = cache.get_or_put_with(rt, key, || Ok::<_, ()>((key, 1)), |_| {});
    made.is_ok()
}

// Does the work with each key, and answers for how many the entry is there.
fn work_on<R: Wait, const N: usize>(
    rt: &R,
    cache: &SharedCache<u64, u64, N>,
    work: Work,
    keys: &[u64],
) -> usize {
    let mut done = 0usize;
    for (place, key) in keys.iter().enumerate() {
        let is_there = match work {
            Work::Get => has_got(rt, cache, key),
            Work::NineGets if place % 10 != 0 => has_got(rt, cache, key),
            Work::NineGets | Work::PutOver | Work::Put => has_put(rt, cache, *key),
            // (those of the other entries, which are new again)
            Work::Make => has_made(rt, cache, !*key),
        };
        if is_there {
            done = done.wrapping_add(1);
        }
    }
    done
}

// A cache with an entry of weight 1 for each key, where there may be so many.
fn full<R: Wait, const N: usize>(
    rt: &R,
    alloc: Global,
    keys: &[u64],
    most_entries: usize,
) -> io::Result<SharedCache<u64, u64, N>>
    requires { 0 < N }
{
    let cache = SharedCache::new(alloc, usize::MAX, most_entries)?;
    for key in keys {
        if !has_put(rt, &cache, *key) {
            return Err(io::Error::from(io::ErrorKind::OutOfMemory));
        }
    }
    Ok(cache)
}

// For how many keys of a trace, which so many threads share, the entry is there.
fn share<R: Threads + Wait + Sync, const N: usize>(
    rt: &R,
    alloc: Global,
    cache: &SharedCache<u64, u64, N>,
    work: Work,
    trace: &[u64],
    threads: usize,
) -> io::Result<usize> {
    let calls = (trace.len() / threads.max(1)).max(1);
    let counts = thread::map_chunks(
        rt,
        alloc,
        trace,
        calls,
        &|_first, part| work_on(rt, cache, work, part),
    )?;
    Ok(
        counts
            .iter()
            .fold(0usize, |sum, count| sum.wrapping_add(*count)),
    )
}

// One kind of work of so many threads.
fn time_shared<R: Print + Clock + Threads + Wait + Sync, const N: usize>(
    rt: &R,
    alloc: Global,
    watch: Watch,
    keys: &Keys,
    cache: &SharedCache<u64, u64, N>,
    (work, threads): (Work, usize),
) -> io::Result<()> {
    let trace = work.keys_of(keys);
    let start = Instant::now(rt)?;
    let done = share(rt, alloc, cache, work, trace, threads)?;
    let (rows, name) = (keys.rows.len(), work.name());
    let what = format!(in alloc; "{rows} rows, {name}, threads = {threads}, SharedCache<_, {N}>")?;
    watch.tell(rt, what.as_str(), done, trace.len(), start)
}

// The calls of so many threads. Those that get find each key, since shards that are not of one size have room for all;
// those that put find each shard full, but for chance.
fn measure_shared<R: Print + Clock + Threads + Wait + Sync, const N: usize>(
    rt: &R,
    alloc: Global,
    watch: Watch,
    keys: &Keys,
    threads: usize,
) -> io::Result<()>
    requires { 0 < N }
{
    let room = keys.rows.len().saturating_mul(2);
    let roomy = full::<R, N>(rt, alloc, &keys.rows, room)?;
    time_shared(rt, alloc, watch, keys, &roomy, (Work::Get, threads))?;
    time_shared(rt, alloc, watch, keys, &roomy, (Work::NineGets, threads))?;
    time_shared(rt, alloc, watch, keys, &roomy, (Work::PutOver, threads))?;
    let tight = full::<R, N>(rt, alloc, &keys.rows, keys.rows.len())?;
    time_shared(rt, alloc, watch, keys, &tight, (Work::Put, threads))?;
    time_shared(rt, alloc, watch, keys, &tight, (Work::Make, threads))
}

/// Makes the calls on so many entries, in 16 shards.
pub fn measure<R: Print + Clock + Threads + Wait + Sync>(
    rt: &R,
    alloc: Global,
    watch: Watch,
    rows: usize,
) -> io::Result<()> {
    let calls = if watch.is_timed { 1_000_000 } else { 20_000 };
    let keys = Keys::draw(alloc, rows, calls)?;
    for threads in [1usize, 2, 4] {
        measure_shared::<R, 16>(rt, alloc, watch, &keys, threads)?;
    }
    Ok(())
}
