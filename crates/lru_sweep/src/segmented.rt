//! A segmented cache that grows: a refused put leaves both segments as they are.
use lru_owned_cache::cache::{Cause, Entry, Refused};
use lru_segmented::segmented::SegmentedCache;
use std::alloc::{AllocError, Global};
use std::io;
use std::io::Write;

type Numbers = SegmentedCache<u64, u64>;

// What a put answers.
type Put = Result<Option<Entry<u64, u64>>, Refused<u64, u64>>;

// How many entries there are, how many of them stand in the upper segment, and a sum that tells their order too.
fn shown(cache: &Numbers) -> (usize, usize, u64) {
    let mut sum = 0u64;
    for (key, value, _weight) in cache.iter() {
        sum = sum.wrapping_mul(31).wrapping_add(*key ^ *value);
    }
    (cache.len(), cache.protected_len(), sum)
}

fn made(alloc: Global) -> Result<Numbers, AllocError> {
    match Numbers::with_protected(alloc, 50, 24, 4) {
        Ok(cache) => Ok(cache),
        Err(_) => Numbers::with_protected_and_seed(alloc, 50, 24, 4, 0),
    }
}

// It is made again where memory refused it, handed back what it was given, and left all as it was.
fn put(cache: &mut Numbers, key: u64, value: u64) -> Put {
    let before = shown(cache);
    match cache.put(key, value, 1, |_gone| {}) {
        Err(refused)
            if (refused.cause, refused.key, refused.value) == (Cause::Memory, key, value)
                && before == shown(cache) => { cache.put(key, value, 1, |_gone| {}) }
        answer => answer,
    }
}

// Twenty keys, of which each fifth is used: the upper segment keeps the four that were used last. Then ten more are put, for
// which six of the others go.
pub fn script<W: Write>(alloc: Global, out: &mut W) -> io::Result<()> {
    let mut cache = made(alloc)?;
    for key in 0..20u64 {
        let is_put = put(&mut cache, key, key ^ 5).is_ok();
        let is_used = key % 5 == 4 && cache.promote(&key.wrapping_sub(4));
        writeln!(out, "segmented {key} {is_put} {is_used}")?;
    }
    for key in 20..30u64 {
        let is_put = put(&mut cache, key, key ^ 5).is_ok();
        writeln!(out, "segmented {key} {is_put}")?;
    }
    for (key, value, weight) in cache.iter() {
        writeln!(out, "entry {key} {value} {weight}")?;
    }
    writeln!(out, "protected {}", cache.protected_len())
}
