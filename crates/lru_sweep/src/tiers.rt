//! Rows of weight 2 that go between two tiers under limits of 4, and more than either has places for at first.
use lru_cores::lru_core::LruCore;
use lru_cores::tiered::{BalanceError, Tier, TieredCore};
use lru_shard::unit::{Cause, Refused};
use rand::rngs::StdRng;
use rand_core::SeedableRng;
use std::alloc::{AllocError, Global};
use std::io;
use std::io::Write;

// The first rows of a core as data and weight, and all its counters.
type Shown = ([(u64, usize); 8], [usize; 4]);

fn shown_core(core: &LruCore<u64, 1>) -> Shown {
    let mut rows = [(u64::MAX, 0); 8];
    for (slot, (data, weight)) in rows.iter_mut().zip(core.iter_shard(0)) {
        *slot = (*data, weight);
    }
    (
        rows,
        [
            core.len(),
            core.weight(),
            core.evicted_len(),
            core.evicted_weight(),
        ],
    )
}

fn shown(tiered: &TieredCore<u64, 1>) -> (Shown, Shown) {
    (shown_core(tiered.hot()), shown_core(tiered.cold()))
}

// Each call is made again where it found no memory and changed nothing.
fn admit(tiered: &mut TieredCore<u64, 1>, key: u64) -> Result<usize, Refused<u64>> {
    let before = shown(tiered);
    match tiered.admit(key, key, 2) {
        Err(refused)
            if refused.cause == Cause::Memory && refused.held == key && before == shown(tiered) => {
            tiered.admit(key, key, 2)
        }
        answer => answer,
    }
}

fn touch(tiered: &mut TieredCore<u64, 1>, key: u64) -> Result<Option<Tier>, Cause> {
    let before = shown(tiered);
    match tiered.touch(key) {
        Err(Cause::Memory) if before == shown(tiered) => tiered.touch(key),
        answer => answer,
    }
}

fn spill_step(tiered: &mut TieredCore<u64, 1>) -> Result<Option<u64>, Cause> {
    let before = shown(tiered);
    match tiered.spill_step(0, 0) {
        Err(Cause::Memory) if before == shown(tiered) => tiered.spill_step(0, 0),
        answer => answer,
    }
}

fn write_pairs<W: Write>(pairs: &[(u64, usize)], out: &mut W) -> io::Result<()> {
    for (data, weight) in pairs {
        writeln!(out, "evicted {data} {weight}")?;
    }
    Ok(())
}

// A balance that found no memory goes on where it stopped: what it evicted is answered, and the rest at the second try.
fn balance<W: Write>(
    tiered: &mut TieredCore<u64, 1>,
    alloc: Global,
    out: &mut W,
) -> io::Result<()> {
    let mut rng = StdRng::seed_from_u64(0);
    match tiered.balance(alloc, &mut rng) {
        Ok(pairs) => return write_pairs(&pairs, out),
        Err(
            BalanceError {
                cause: Cause::Memory,
                evicted,
            },
        ) => write_pairs(&evicted, out)?,
        Err(_) => writeln!(out, "refused")?,
    }
    match tiered.balance(alloc, &mut rng) {
        Ok(pairs) => write_pairs(&pairs, out),
        Err(_) => writeln!(out, "refused again"),
    }
}

fn write_tiers<W: Write>(tiered: &TieredCore<u64, 1>, out: &mut W) -> io::Result<()> {
    for (name, core) in [("hot", tiered.hot()), ("cold", tiered.cold())] {
        let ([first, second, third, ..], [len, weight, evicted, _]) = shown_core(core);
        writeln!(
            out,
            "{name} {first:?} {second:?} {third:?} len {len} weight {weight} evicted {evicted}"
        )?;
    }
    Ok(())
}

fn worked_row<W: Write>(
    tiered: &mut TieredCore<u64, 1>,
    alloc: Global,
    out: &mut W,
) -> io::Result<()> {
    for keys in [[1, 2, 3].as_slice(), [4].as_slice()] {
        for key in keys {
            let answer = admit(tiered, *key);
            writeln!(out, "admit {key} {answer:?}")?;
        }
        balance(tiered, alloc, out)?;
        write_tiers(tiered, out)?;
    }
    let answer = touch(tiered, 1);
    writeln!(out, "touch 1 {answer:?}")?;
    balance(tiered, alloc, out)?;
    write_tiers(tiered, out)?;
    for key in [2, 5] {
        let answer = admit(tiered, key);
        writeln!(out, "admit {key} {answer:?}")?;
        balance(tiered, alloc, out)?;
        write_tiers(tiered, out)?;
    }
    Ok(())
}

// Both tiers grow, row by row, and at last all that is too much leaves.
fn many_rows<W: Write>(
    tiered: &mut TieredCore<u64, 1>,
    alloc: Global,
    out: &mut W,
) -> io::Result<()> {
    for key in 6..14 {
        let answer = admit(tiered, key);
        writeln!(out, "admit {key} {answer:?}")?;
    }
    for _ in 0..8 {
        let answer = spill_step(tiered);
        writeln!(out, "spill_step {answer:?}")?;
    }
    for key in 6..14 {
        let answer = touch(tiered, key);
        writeln!(out, "touch {key} {answer:?}")?;
    }
    balance(tiered, alloc, out)?;
    write_tiers(tiered, out)
}

// Once room was made for them in both tiers, new rows ask for nothing, and neither do those that are spilled: a call that
// is refused is counted.
fn filled<W: Write>(tiered: &mut TieredCore<u64, 1>, out: &mut W) -> io::Result<()> {
    let mut refused = 0u32;
    for key in 0..20 {
        if tiered.admit(key, key, 0).is_err() {
            refused = refused.saturating_add(1);
        }
    }
    for _ in 0..20 {
        if tiered.spill_step(0, 0).is_err() {
            refused = refused.saturating_add(1);
        }
    }
    writeln!(
        out,
        "of twenty rows with room in both tiers {refused} refused"
    )
}

// Tiers with room for so many rows each.
fn tiers(alloc: Global, capacity: usize) -> Result<TieredCore<u64, 1>, AllocError> {
    match TieredCore::with_limits(alloc, 4, 4, capacity) {
        Ok(tiered) => Ok(tiered),
        Err(_) => TieredCore::with_limits(alloc, 4, 4, capacity),
    }
}

fn growing<W: Write>(alloc: Global, out: &mut W) -> io::Result<()> {
    let mut tiered = tiers(alloc, 0)?;
    worked_row(&mut tiered, alloc, out)?;
    many_rows(&mut tiered, alloc, out)
}

fn roomy<W: Write>(alloc: Global, out: &mut W) -> io::Result<()> {
    filled(&mut tiers(alloc, 20)?, out)
}

pub fn script<W: Write>(alloc: Global, out: &mut W) -> io::Result<()> {
    growing(alloc, out)?;
    roomy(alloc, out)
}
