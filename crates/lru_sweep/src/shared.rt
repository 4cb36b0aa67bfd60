//! A shared cache of texts, whose clones take memory too.
use lru_owned_cache::cache::Cause;
use lru_shared_cache::shared::{NotGot, SharedCache};
use std::alloc::{AllocError, Global};
use std::io;
use std::io::Write;
use std::sync::Wait;

type Texts = SharedCache<u64, String, 2>;

// What a closure makes: a value and a weight, or that there is no memory for one.
type Made = Result<(String, usize), AllocError>;

fn made(alloc: Global) -> Result<Texts, AllocError> {
    match Texts::new(alloc, 80, 40) {
        Ok(cache) => Ok(cache),
        Err(_) => Texts::with_seed(alloc, 80, 40, 0),
    }
}

fn text(alloc: Global) -> Result<String, AllocError> {
    match String::from_str(alloc, "a value") {
        Ok(text) => Ok(text),
        Err(_) => String::from_str(alloc, "a value"),
    }
}

fn shown(rt: &impl Wait, cache: &Texts) -> (usize, usize) {
    (cache.len(rt), cache.weight(rt))
}

// It is made again with what a refusal handed back for want of memory, where that left all as it was.
fn put(rt: &impl Wait, cache: &Texts, key: u64, value: String) -> bool {
    let before = shown(rt, cache);
    match cache.put(rt, key, value, 1, |_gone| {}) {
        Ok(_) => true,
        Err(refused) => {
            refused.cause == Cause::Memory
                && before == shown(rt, cache)
                && cache
                    .put(rt, refused.key, refused.value, 1, |_gone| {})
                    .is_ok()
        }
    }
}

// The length of a clone of a key's value.
fn get(rt: &impl Wait, cache: &Texts, key: u64) -> Result<Option<usize>, AllocError> {
    let found = match cache.get(rt, &key) {
        Ok(found) => found,
        Err(_) => cache.get_by(rt, &key)?,
    };
    Ok(found.map(|value| value.len()))
}

// Whether a refusal is for want of memory.
fn is_for_memory(refusal: &NotGot<u64, String, AllocError>) -> bool {
    match refusal {
        NotGot::Memory(_) => true,
        NotGot::Unmade(_, _) => true,
        NotGot::Refused(refused) => refused.cause == Cause::Memory,
    }
}

fn ask(
    rt: &impl Wait,
    alloc: Global,
    cache: &Texts,
    key: u64,
) -> Result<String, NotGot<u64, String, AllocError>> {
    cache.get_or_put_with(
        rt,
        key,
        move || -> Made { Ok((String::from_str(alloc, "made")?, 2)) },
        |_gone| {},
    )
}

// The length of what is got or made, at the second try where the first was refused so, and left all as it was.
fn get_or_make(rt: &impl Wait, alloc: Global, cache: &Texts, key: u64) -> Option<usize> {
    let before = shown(rt, cache);
    let refusal = match ask(rt, alloc, cache, key) {
        Ok(value) => return Some(value.len()),
        Err(refusal) => refusal,
    };
    if !is_for_memory(&refusal) || before != shown(rt, cache) {
        return None;
    }
    let value = ask(rt, alloc, cache, key).ok()?;
    Some(value.len())
}

pub fn script<R: Wait, W: Write>(rt: &R, alloc: Global, out: &mut W) -> io::Result<()> {
    let cache = made(alloc)?;
    for key in 0..9u64 {
        let is_put = put(rt, &cache, key, text(alloc)?);
        writeln!(out, "put {key} {is_put}")?;
    }
    for key in 7..10u64 {
        let got = get(rt, &cache, key)?;
        writeln!(out, "get {key} {got:?}")?;
    }
    for key in 8..14u64 {
        let got = get_or_make(rt, alloc, &cache, key);
        writeln!(out, "get_or_put_with {key} {got:?}")?;
    }
    let (len, weight) = shown(rt, &cache);
    writeln!(out, "left {len} {weight}")
}
