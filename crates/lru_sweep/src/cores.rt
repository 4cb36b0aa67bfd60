//! Evictions of one shard and of two, and the two cores of which one keeps a beginning of the other's rows.
use crate::made;
use lru_cores::lru_core::LruCore;
use lru_shard::unit::{Cause, Refused};
use rand::rngs::StdRng;
use rand_core::{Rng, SeedableRng};
use std::alloc::{AllocError, Global};
use std::io;
use std::io::Write;

// The first sixteen rows, shard by shard, as data and weight, and all counters.
type Shown = ([(u64, usize); 16], [usize; 4]);

fn shown<const N: usize>(core: &LruCore<u64, N>) -> Shown {
    let mut rows = [(u64::MAX, 0); 16];
    let mut slots = rows.iter_mut();
    for shard in 0..core.shards() {
        for (data, weight) in core.iter_shard(shard) {
            if let Some(slot) = slots.next() {
                *slot = (*data, weight);
            }
        }
    }
    (
        rows,
        [
            core.len(),
            core.weight(),
            core.evicted_len(),
            core.evicted_weight(),
        ],
    )
}

// Admits a key as its own data, at the second try where the first was refused for memory and changed nothing.
fn admit<const N: usize>(
    core: &mut LruCore<u64, N>,
    key: u64,
    weight: usize,
) -> Result<usize, Refused<u64>> {
    let before = shown(core);
    match core.admit(key, key, weight) {
        Err(refused)
            if refused.cause == Cause::Memory && refused.held == key && before == shown(core) => {
            core.admit(key, key, weight)
        }
        answer => answer,
    }
}

// The same with an admission that evicts; a refusal evicts nothing.
fn admit_and_evict<const N: usize>(
    core: &mut LruCore<u64, N>,
    key: u64,
    weight: usize,
    gone: &mut Option<(u64, usize)>,
) -> Result<usize, Refused<u64>> {
    let before = shown(core);
    match core.admit_and_evict(key, key, weight, |pair| *gone = Some(pair)) {
        Err(refused)
            if refused.cause == Cause::Memory
                && refused.held == key
                && gone.is_none()
                && before == shown(core) => {
            core.admit_and_evict(key, key, weight, |pair| *gone = Some(pair))
        }
        answer => answer,
    }
}

/// Writes what left, a pair a line.
pub fn write_pairs<W: Write>(pairs: &[(u64, usize)], writer: &mut W) -> io::Result<()> {
    for (data, weight) in pairs {
        writeln!(writer, "evicted {data} {weight}")?;
    }
    Ok(())
}

// Evicts to the limit, and where memory cuts it short evicts the rest.
fn evict<R: Rng, W: Write, const N: usize>(
    core: &mut LruCore<u64, N>,
    alloc: Global,
    rng: &mut R,
    writer: &mut W,
) -> io::Result<()> {
    match core.evict_to_limit(alloc, rng) {
        Ok(pairs) => write_pairs(&pairs, writer),
        Err(stopped) => {
            write_pairs(&stopped.evicted, writer)?;
            match core.evict_to_limit(alloc, rng) {
                Ok(pairs) => write_pairs(&pairs, writer),
                Err(_) => writeln!(writer, "refused twice"),
            }
        }
    }
}

fn write_shown<W: Write, const N: usize>(core: &LruCore<u64, N>, writer: &mut W) -> io::Result<()> {
    let (rows, counters) = shown(core);
    let rows = &rows[..core.len().min(16)];
    writeln!(writer, "{counters:?} {rows:?}")
}

// A core of one shard with a limit on its weight.
fn limited(alloc: Global, limit: usize) -> Result<LruCore<u64, 1>, AllocError> {
    made(alloc, |alloc| LruCore::with_capacity(alloc, limit, 0))
}

// Five rows of weight 2, and a limit that falls to 4.
fn fall<W: Write>(core: &mut LruCore<u64, 1>, alloc: Global, writer: &mut W) -> io::Result<()> {
    let mut rng = StdRng::seed_from_u64(7);
    for key in 0..5u64 {
        let answer = admit(core, key, 2);
        writeln!(writer, "admit {key} {answer:?}")?;
    }
    core.set_weight_limit(4);
    evict(core, alloc, &mut rng, writer)?;
    write_shown(core, writer)
}

// (A function that makes a core has one way out behind that: each drops the core, and its proof grows with them.)
fn one_shard<W: Write>(alloc: Global, writer: &mut W) -> io::Result<()> {
    fall(&mut limited(alloc, 10)?, alloc, writer)
}

// Five rows of weight 2 under a limit of 4, each of which makes its own room.
fn turn_over<W: Write>(core: &mut LruCore<u64, 1>, writer: &mut W) -> io::Result<()> {
    for key in 0..5u64 {
        let mut gone = None;
        let answer = admit_and_evict(core, key, 2, &mut gone);
        writeln!(writer, "admit {key} {answer:?} for {gone:?}")?;
    }
    write_shown(core, writer)
}

fn turnover<W: Write>(alloc: Global, writer: &mut W) -> io::Result<()> {
    turn_over(&mut limited(alloc, 4)?, writer)
}

// How many rows leave. Where memory cuts it short, the rest leave at the second try.
fn evicted_len(core: &mut LruCore<u64, 2>, alloc: Global) -> usize {
    let mut rng = StdRng::seed_from_u64(1);
    match core.evict_to_limit(alloc, &mut rng) {
        Ok(pairs) => pairs.len(),
        Err(stopped) => match core.evict_to_limit(alloc, &mut rng) {
            Ok(pairs) => stopped.evicted.len().saturating_add(pairs.len()),
            Err(_) => 0,
        },
    }
}

// Six rows above a watermark of 2.
fn rise<W: Write>(core: &mut LruCore<u64, 2>, alloc: Global, writer: &mut W) -> io::Result<()> {
    for key in 0..6u64 {
        let answer = admit(core, key, 1);
        writeln!(writer, "admit {key} {answer:?}")?;
    }
    // Which rows leave hangs on the draws: how many leave does not.
    let evicted = evicted_len(core, alloc);
    let len = core.len();
    writeln!(writer, "{evicted} rows left, and {len} are left")
}

fn two_shards<W: Write>(alloc: Global, writer: &mut W) -> io::Result<()> {
    let mut core = made(
        alloc,
        |alloc| LruCore::with_capacity_and_watermark(alloc, 100, 0, Some(2)),
    )?;
    rise(&mut core, alloc, writer)
}

// The keys 1, 2, 3, 1, 4 of weight 2.
fn side_by_side<W: Write>(
    small: &mut LruCore<u64, 1>,
    large: &mut LruCore<u64, 1>,
    alloc: Global,
    writer: &mut W,
) -> io::Result<()> {
    let mut rng = StdRng::seed_from_u64(7);
    for key in [1, 2, 3, 1, 4u64] {
        let answers = (admit(small, key, 2), admit(large, key, 2));
        writeln!(writer, "admit {key} {answers:?}")?;
        evict(small, alloc, &mut rng, writer)?;
        evict(large, alloc, &mut rng, writer)?;
    }
    write_shown(small, writer)?;
    write_shown(large, writer)
}

// The limits 3 and 5.
fn two_limits<W: Write>(alloc: Global, writer: &mut W) -> io::Result<()> {
    let mut small = limited(alloc, 3)?;
    let mut large = limited(alloc, 5)?;
    side_by_side(&mut small, &mut large, alloc, writer)
}

// Once room was made for them, new rows ask for nothing: one that is refused is counted.
fn filled<W: Write>(core: &mut LruCore<u64, 1>, writer: &mut W) -> io::Result<()> {
    let mut refused = 0u32;
    for key in 0..100u64 {
        if core.admit(key, key, 0).is_err() {
            refused = refused.saturating_add(1);
        }
    }
    writeln!(writer, "of a hundred rows with room {refused} refused")
}

fn room_made<W: Write>(core: &mut LruCore<u64, 1>, writer: &mut W) -> io::Result<()> {
    if core.reserve_shard(0, 100).is_err() {
        core.reserve_shard(0, 100)?;
    }
    filled(core, writer)
}

fn roomy<W: Write>(alloc: Global, writer: &mut W) -> io::Result<()> {
    filled(
        &mut made(alloc, |alloc| LruCore::with_capacity(alloc, 10, 100))?,
        writer,
    )
}

fn late<W: Write>(alloc: Global, writer: &mut W) -> io::Result<()> {
    room_made(&mut limited(alloc, 10)?, writer)
}

pub fn script<W: Write>(alloc: Global, writer: &mut W) -> io::Result<()> {
    one_shard(alloc, writer)?;
    turnover(alloc, writer)?;
    two_shards(alloc, writer)?;
    two_limits(alloc, writer)?;
    roomy(alloc, writer)?;
    late(alloc, writer)
}
