//! Policies: what a cache keeps.
ghost use Rattle.std.specs.Prelude.{◌≡◌, ◌≤◌, ℕ, length, IfOk};
ghost use Rattle.lru_index.specs.Hashing.{key_hash, unseeded};
ghost use Rattle.lru_owned_cache.specs.Cache.{empty, hashes_from};
ghost use Rattle.lru_segmented.specs.Segmented.{empty as segments};
ghost use Rattle.lru_admission.specs.Sketch.{fresh};
ghost use Rattle.lru_admission.specs.Admission.{watched};
ghost use Rattle.trace_player_inside.specs.Traces.{played};
ghost use Rattle.trace_player_inside.specs.Policies.{Finds, AsksFirstCome, AsksSegments, AsksSketch, tenths_of};

use crate::asked::hits_in;
use crate::future::{hits_at_best, next_uses};
use crate::player::{Request, play};
use lru_admission::admission::AskingCache;
use lru_index::hashing::{SeededHasher, SeededHashes};
use lru_owned_cache::cache::Cache;
use lru_segmented::segmented::SegmentedCache;
use lru_shard::unit::Cause;
use std::alloc::{AllocError, Global};
use std::fmt;
use std::fmt::Display;
use std::hash::{BuildHasher, Hash, Hasher};

/// What a cache keeps, as much of it as weighs no more than its limit. An object weighs its size, and at least 1.
#[derive(Clone, Copy, Debug, PartialEq, Eq)]
pub enum Policy {
    /// What was asked for last.
    Lru,
    /// What came in last.
    Fifo,
    /// What was asked for again since it came in, as much of it as weighs so many tenths of the limit, and else what was asked
    /// for last.
    Segmented(u8),
    /// What was asked for last, but an object comes in only where it was asked for more often, as far as a sketch knows, than
    /// each of those that would go for it.
    Admission,
    /// What is asked for again soonest. No policy finds more: where all sizes are the same it is what can be found at most,
    /// else a bound above that.
    Optimum,
}

/// How many policies there are.
pub const MANY: usize = 6;

/// All policies, in the order in which they are told.
pub const POLICIES: [Policy; MANY] = [
    Policy::Lru,
    Policy::Fifo,
    Policy::Segmented(5),
    Policy::Segmented(8),
    Policy::Admission,
    Policy::Optimum,
];

impl Display for Policy {
    fn fmt<W: fmt::Write>(&self, f: &mut fmt::Formatter<W>) -> fmt::Result {
        match *self {
            Policy::Lru => f.write_str("lru"),
            Policy::Fifo => f.write_str("fifo"),
            Policy::Segmented(tenths) => write!(f, "segmented-{}.{}", tenths / 10, tenths % 10),
            Policy::Admission => f.write_str("admission"),
            Policy::Optimum => f.write_str("optimum"),
        }
    }
}

/// Why a trace is not played to its end.
#[derive(Clone, Copy, Debug, PartialEq, Eq)]
pub enum Refusal {
    /// There is no memory.
    Memory,
    /// There are more objects, or they weigh more together, than a cache can have.
    TooMany,
}

impl From<AllocError> for Refusal {
    fn from(_: AllocError) -> Self {
        Refusal::Memory
    }
}

/// How many requests of a trace find their object, in a cache that is empty at first.
///
/// # Errors
///
/// There is no memory, or there are more objects than a cache can have.
pub fn hits(
    alloc: Global,
    policy: Policy,
    limit: usize,
    requests: &[Request],
) -> Result<u64, Refusal>
    ensures { IfOk result (λ hits. hits ≤ length requests.now) }
{
    match policy {
        Policy::Lru => hits_of_lru(alloc, limit, requests),
        Policy::Fifo => hits_of_fifo(alloc, limit, requests),
        Policy::Segmented(tenths) => hits_of_segmented(alloc, limit, tenths, requests),
        Policy::Admission => hits_of_admission(alloc, limit, requests),
        Policy::Optimum => {
            let next = next_uses(alloc, requests)?;
            Ok(hits_at_best(alloc, limit, requests, &next)?)
        }
    }
}

/// `hits` of a cache that keeps what was asked for last.
///
/// # Errors
///
/// As for `hits`.
pub fn hits_of_lru(alloc: Global, limit: usize, requests: &[Request]) -> Result<u64, Refusal>
    ensures within { IfOk result (λ hits. hits ≤ length requests.now) }
    ensures played { IfOk result (λ hits. hits ≡ (played limit requests.now).hits) }
{
    match play(alloc, limit, requests) {
        Ok(tally) => Ok(tally.hits),
        Err(Cause::Memory) => Err(Refusal::Memory),
        Err(_) => Err(Refusal::TooMany),
    }
}

/// `hits` of a cache that keeps what came in last. An object keeps the size with which it came.
///
/// # Errors
///
/// As for `hits`.
pub fn hits_of_fifo(alloc: Global, limit: usize, requests: &[Request]) -> Result<u64, Refusal>
    ensures within { IfOk result (λ hits. hits ≤ length requests.now) }
    ensures finds { IfOk result (λ hits. Finds AsksFirstCome (empty (hashes_from unseeded) limit usize.MAX) requests.now hits) }
{
    let mut cache = Cache::new(alloc, limit, usize::MAX)?;
    hits_in(&mut cache, requests)
}

// What so many tenths of a limit are, and no more than all of it.
fn protected_of(limit: usize, tenths: u8) -> usize
    ensures { result ≡ tenths_of limit tenths }
{
    let share = limit as u128 * tenths.min(10) as u128 / 10;
    share as usize
}

/// `hits` of a cache in two segments, of which the upper one, for objects that were asked for again, has so many tenths of
/// the limit. An object keeps the size with which it came.
///
/// # Errors
///
/// As for `hits`.
pub fn hits_of_segmented(
    alloc: Global,
    limit: usize,
    tenths: u8,
    requests: &[Request],
) -> Result<u64, Refusal>
    ensures within { IfOk result (λ hits. hits ≤ length requests.now) }
    ensures finds { IfOk result (λ hits. Finds AsksSegments (segments (hashes_from unseeded) limit usize.MAX (tenths_of limit tenths)) requests.now hits) }
{
    let protected = protected_of(limit, tenths);
    let mut cache = SegmentedCache::with_protected(alloc, limit, usize::MAX, protected)?;
    hits_in(&mut cache, requests)
}

// For how many objects uses are to be counted: as many as the cache is likely to have, by their mean size.
fn likely_objects(limit: usize, requests: &[Request]) -> usize {
    let mut bytes = 0u64;
    for request in requests {
        bytes = bytes.saturating_add(request.size.max(1) as u64);
    }
    let mean = (bytes / (requests.len().max(1) as u64)).max(1);
    (limit as u64 / mean).min(requests.len() as u64) as usize
}

/// `hits` of a cache that asks before it lets an object in, whose uses are counted for as many objects as it is likely to
/// have. An object keeps the size with which it came.
///
/// # Errors
///
/// As for `hits`.
pub fn hits_of_admission(alloc: Global, limit: usize, requests: &[Request]) -> Result<u64, Refusal>
    ensures within { IfOk result (λ hits. hits ≤ length requests.now) }
    ensures finds { IfOk result (λ hits. (counted : ℕ) × Finds (AsksSketch (key_hash ⟦<SeededHashes as BuildHasher>⟧ ⟦<SeededHasher as Hasher>⟧ ⟦<u64 as Hash>⟧.hash_input)) (watched (empty (hashes_from unseeded) limit usize.MAX) (fresh counted)) requests.now hits) }
{
    let counted = likely_objects(limit, requests);
    let mut cache = AskingCache::new(alloc, limit, usize::MAX, counted)?;
    hits_in(&mut cache, requests)
}
