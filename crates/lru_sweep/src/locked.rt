//! An order for threads over its limit: where memory cuts an eviction short, the pairs that left come back by the refusal, and the
//! others by the next call.
use crate::cores::write_pairs;
use crate::made;
use pingora_lru::Lru;
use rand::rngs::StdRng;
use rand_core::SeedableRng;
use std::alloc::{AllocError, Global};
use std::io;
use std::io::Write;
use std::sync::Wait;

// How many rows of weight 1 come, under a limit of 2.
const ROWS: u64 = 12;

fn filled<R: Wait>(rt: &R, alloc: Global) -> Result<Lru<u64, 1>, AllocError> {
    let lru: Lru<u64, 1> = made(alloc, |alloc| Lru::with_capacity(alloc, 2, 12))?;
    for key in 0..ROWS {
        // there is room for each
        let _shard = lru.admit(rt, key, key, 1);
    }
    Ok(lru)
}

fn evict<R: Wait, W: Write>(
    rt: &R,
    alloc: Global,
    lru: &Lru<u64, 1>,
    writer: &mut W,
) -> io::Result<()> {
    let mut rng = StdRng::seed_from_u64(0);
    match lru.evict_to_limit(rt, alloc, &mut rng) {
        Ok(pairs) => write_pairs(&pairs, writer),
        Err(stopped) => {
            write_pairs(&stopped.evicted, writer)?;
            match lru.evict_to_limit(rt, alloc, &mut rng) {
                Ok(pairs) => write_pairs(&pairs, writer),
                Err(_) => writeln!(writer, "refused twice"),
            }
        }
    }
}

/// Writes which rows leave, and what is left.
pub fn script<R: Wait, W: Write>(rt: &R, alloc: Global, writer: &mut W) -> io::Result<()> {
    let lru = filled(rt, alloc)?;
    evict(rt, alloc, &lru, writer)?;
    let (len, weight) = (lru.len(), lru.weight());
    writeln!(writer, "{len} rows are left, of weight {weight}")
}
