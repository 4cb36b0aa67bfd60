//! A cache that grows, has room made, and is full.
use lru_owned_cache::cache::{Cache, Cause, Entry, NotPut, Refused};
use std::alloc::{AllocError, Global};
use std::io;
use std::io::Write;

type Numbers = Cache<u64, u64>;

// What a closure makes: a value and a weight.
type Made = Result<(u64, usize), u8>;

// How many entries there are, what they weigh, and a sum that tells their order too.
fn shown(cache: &Numbers) -> (usize, usize, u64) {
    let mut sum = 0u64;
    for (key, value, _weight) in cache.iter() {
        sum = sum.wrapping_mul(31).wrapping_add(*key ^ *value);
    }
    (cache.len(), cache.weight(), sum)
}

fn made(alloc: Global) -> Result<Numbers, AllocError> {
    match Numbers::new(alloc, 50, 24) {
        Ok(cache) => Ok(cache),
        Err(_) => Numbers::with_seed(alloc, 50, 24, 0),
    }
}

// Whether a refusal is for want of memory, hands back what was given, and left all as it was.
fn is_fair(
    cache: &Numbers,
    before: (usize, usize, u64),
    refused: &Refused<u64, u64>,
    key: u64,
    value: u64,
) -> bool {
    (refused.cause, refused.key, refused.value) == (Cause::Memory, key, value)
        && before == shown(cache)
}

// Each call is made again where it was refused so.
fn put(
    cache: &mut Numbers,
    key: u64,
    value: u64,
    weight: usize,
) -> Result<Option<Entry<u64, u64>>, Refused<u64, u64>> {
    let before = shown(cache);
    match cache.put(key, value, weight, |_gone| {}) {
        Err(refused) if is_fair(cache, before, &refused, key, value) => {
            cache.put(key, value, weight, |_gone| {})
        }
        answer => answer,
    }
}

fn put_weighed(
    cache: &mut Numbers,
    key: u64,
    value: u64,
) -> Result<Option<Entry<u64, u64>>, Refused<u64, u64>> {
    let before = shown(cache);
    match cache.put_weighed(key, value, |_key, _value| 2, |_gone| {}) {
        Err(refused) if is_fair(cache, before, &refused, key, value) => {
            cache.put_weighed(key, value, |_key, _value| 2, |_gone| {})
        }
        answer => answer,
    }
}

fn use_or_put(cache: &mut Numbers, key: u64, value: u64) -> Result<bool, NotPut<u64, u64, u8>> {
    let before = shown(cache);
    match cache.use_or_put(key, move || -> Made { Ok((value, 1)) }, |_gone| {}) {
        Err(NotPut::Refused(refused)) if is_fair(cache, before, &refused, key, value) => {
            cache.use_or_put(key, move || -> Made { Ok((value, 1)) }, |_gone| {})
        }
        answer => answer,
    }
}

fn reserve(cache: &mut Numbers, additional: usize) -> bool {
    let before = shown(cache);
    cache.reserve(additional).is_ok()
        || (before == shown(cache) && cache.reserve(additional).is_ok())
}

fn write_entries<W: Write>(cache: &Numbers, out: &mut W) -> io::Result<()> {
    for (key, value, weight) in cache.iter() {
        writeln!(out, "entry {key} {value} {weight}")?;
    }
    Ok(())
}

pub fn script<W: Write>(alloc: Global, out: &mut W) -> io::Result<()> {
    let mut cache = made(alloc)?;
    for key in 0..9u64 {
        let is_put = put(&mut cache, key, key ^ 5, 1).is_ok();
        writeln!(out, "put {key} {is_put}")?;
    }
    for key in 7..14u64 {
        let is_put = put_weighed(&mut cache, key, key ^ 6).is_ok();
        writeln!(out, "put_weighed {key} {is_put}")?;
    }
    let is_reserved = reserve(&mut cache, 20);
    writeln!(out, "reserve {is_reserved}")?;
    for key in 12..40u64 {
        let is_used = use_or_put(&mut cache, key, key ^ 7).ok();
        writeln!(out, "use_or_put {key} {is_used:?}")?;
    }
    write_entries(&cache, out)
}
