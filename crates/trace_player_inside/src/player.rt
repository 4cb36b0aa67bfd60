//! A player of traces: how often a cache under a limit has what is asked for.
ghost use Rattle.std.specs.Prelude.{◌≡◌, ◌<◌, ◌≤◌, ◌^◌, ◌%◌, ◌+◌, ◌-◌, length, IfOk, IfErr, OnOk};
ghost use Rattle.lru_shard.specs.Row.{is_held, weight_of};
ghost use Rattle.lru_shard.specs.Shard.{shard};
ghost use Rattle.trace_player_inside.specs.Traces.{front, kept_after, evicted_by, counted, played, no_tally, MayRefuseUnder};

use lru_shard::unit::{Cause, LruUnit};
use std::alloc::Global;

/// A request for an object.
#[derive(Clone, Copy, Debug, PartialEq, Eq)]
pub struct Request {
    /// Its key.
    pub key: u64,
    /// Its size in bytes. It weighs that, and at least 1.
    pub size: usize,
}

/// What a cache made of requests. Each number is modulo 2^64.
#[derive(Clone, Copy, Debug, PartialEq, Eq)]
pub struct Tally {
    /// How many requests there were.
    pub requests: u64,
    /// How many found their object.
    pub hits: u64,
    /// The sizes of all.
    pub bytes: u64,
    /// The sizes of those that found their object.
    pub hit_bytes: u64,
    /// How many objects were evicted. One that a request makes larger than the limit leaves, and is none of these.
    pub evictions: u64,
}

impl Tally {
    /// The tally of no requests.
    pub fn new() -> Self
        ensures { result ≡ no_tally }
    {
        Tally {
            requests: 0,
            hits: 0,
            bytes: 0,
            hit_bytes: 0,
            evictions: 0,
        }
    }

    // Counts a request, which found its object or did not, and after which so many left.
    fn count(&mut self, is_hit: bool, size: usize, gone: usize)
        ensures { self.new ≡ counted self.old is_hit size gone }
    {
        let (hit, bytes) = if is_hit { (1, size as u64) } else { (0, 0) };
        self.requests = self.requests.wrapping_add(1);
        self.hits = self.hits.wrapping_add(hit);
        self.bytes = self.bytes.wrapping_add(size as u64);
        self.hit_bytes = self.hit_bytes.wrapping_add(bytes);
        self.evictions = self.evictions.wrapping_add(gone as u64);
    }
}

// Evicts while the cache weighs more than the limit.
fn shrink(unit: &mut LruUnit<()>, limit: usize)
    ensures { unit.new ≡ shard (front limit unit.old.rows) unit.old.cap }
{
    while unit.used_weight() > limit {
        unit.evict();
    }
}

// Lets an object in that was asked for, where it fits, and answers whether it was there, and how many were evicted.
fn ask(unit: &mut LruUnit<()>, limit: usize, request: Request) -> Result<(bool, usize), Cause>
    ensures was { IfOk result (λ r. r.0 ≡ is_held unit.old.rows request.key) }
    ensures evicted { IfOk result (λ r. r.1 ≡ evicted_by limit unit.old.rows request) }
    ensures kept { OnOk result (unit.new.rows ≡ kept_after limit unit.old.rows request) }
    ensures cap { OnOk result (unit.new.cap ≡ unit.old.cap) }
    ensures refused { IfErr result (λ cause. unit.old.cap ≡ usize.MAX → length unit.old.rows ≤ limit → weight_of unit.old.rows ≤ limit → MayRefuseUnder limit cause) }
{
    let weight = request.size.max(1);
    if weight > limit {
        return Ok((unit.remove(request.key).is_some(), 0));
    }
    let resized = |_: &mut (), _: usize|
        ensures { result ≡ weight }
    { weight };
    let made = ||
        ensures { result.1 ≡ weight }
    { ((), weight) };
    let was = match unit.update_or_admit(request.key, resized, made) {
        Ok((was, _)) => was,
        Err(refused) => return Err(refused.cause),
    };
    let len = unit.len();
    shrink(unit, limit);
    Ok((was.is_some(), len - unit.len()))
}

/// The tally of a trace by a cache that is empty at first, and keeps what was used last, as much of it as weighs no more
/// than the limit. An object that alone weighs more is not kept, and leaves the others as they are.
///
/// It is refused for Memory; for Length only under a limit of 4294967293 or more, and for Weight only under one of 2^63 or
/// more, since an object is let in before others are evicted.
pub fn play(alloc: Global, limit: usize, requests: &[Request]) -> Result<Tally, Cause>
    ensures played { IfOk result (λ tally. tally ≡ played limit requests.now) }
    ensures refused { IfErr result (λ cause. MayRefuseUnder limit cause) }
{
    let Ok(mut unit) = LruUnit::with_capacity(alloc, 0, usize::MAX) else {
        return Err(Cause::Memory);
    };
    let mut tally = Tally::new();
    for request in requests {
        match ask(&mut unit, limit, *request) {
            Ok((is_hit, gone)) => tally.count(is_hit, request.size, gone),
            Err(cause) => return Err(cause),
        }
    }
    Ok(tally)
}
