//! A cache with deadlines that grows, and is swept.
use lru_deadlines::deadlines::{DeadlineCache, Until};
use lru_owned_cache::cache::{Cause, Entry, Refused};
use std::alloc::{AllocError, Global};
use std::io;
use std::io::Write;

type Numbers = DeadlineCache<u64, u64>;

// What a put answers.
type Put = Result<Option<Entry<u64, Until<u64>>>, Refused<u64, Until<u64>>>;

// How many entries there are, what they weigh, and a sum that tells their order and their deadlines too.
fn shown(cache: &Numbers) -> (usize, usize, u64) {
    let mut sum = 0u64;
    for (key, until, _weight) in cache.iter() {
        sum = sum.wrapping_mul(31).wrapping_add(*key ^ until.value);
        sum = sum.wrapping_mul(31).wrapping_add(until.deadline);
    }
    (cache.len(), cache.weight(), sum)
}

fn made(alloc: Global) -> Result<Numbers, AllocError> {
    match Numbers::new(alloc, 50, 24) {
        Ok(cache) => Ok(cache),
        Err(_) => Numbers::with_seed(alloc, 50, 24, 0),
    }
}

// It is made again where memory refused it, handed back what it was given, and left all as it was.
fn put(cache: &mut Numbers, key: u64, value: u64, deadline: u64) -> Put {
    let before = shown(cache);
    match cache.put_until(key, value, 1, deadline, |_gone| {}) {
        Err(refused)
            if (refused.cause, refused.key) == (Cause::Memory, key)
                && (refused.value.value, refused.value.deadline) == (value, deadline)
                && before == shown(cache) => {
            cache.put_until(key, value, 1, deadline, |_gone| {})
        }
        answer => answer,
    }
}

fn write_entries<W: Write>(cache: &Numbers, out: &mut W) -> io::Result<()> {
    for (key, until, weight) in cache.iter() {
        let (value, deadline) = (until.value, until.deadline);
        writeln!(out, "entry {key} {value} {weight} to {deadline}")?;
    }
    Ok(())
}

pub fn script<W: Write>(alloc: Global, out: &mut W) -> io::Result<()> {
    let mut cache = made(alloc)?;
    for key in 0..20u64 {
        let is_put = put(&mut cache, key, key ^ 5, key ^ 1).is_ok();
        writeln!(out, "put_until {key} {is_put}")?;
    }
    let is_used = cache.promote(3, &2).ok();
    writeln!(out, "promote {is_used:?}")?;
    let mut gone = 0u64;
    cache.sweep(12, 15, |_past| gone = gone.wrapping_add(1));
    writeln!(out, "swept {gone}")?;
    for key in 20..30u64 {
        let is_put = put(&mut cache, key, key ^ 5, 99).is_ok();
        writeln!(out, "put_until {key} {is_put}")?;
    }
    write_entries(&cache, out)
}
