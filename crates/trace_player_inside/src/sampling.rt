//! What a sample of a trace's keys tells of an LRU of all of them.
//!
//! A key is in a sample of one in so many keys by its hash, with all its requests, and a cache under as small a part of the
//! limit is asked for it. Hits are told by misses: those of the sample, times the rate, are about those of the whole trace.
//! A key that is asked for often has few misses, so that it matters little whether it is in the sample.
ghost use Rattle.std.specs.Prelude.{◌≡◌, ◌+◌, ◌≤◌, min, IfOk, OnOk, if◌then◌else◌};
ghost use Rattle.std.specs.List.{All};
ghost use Rattle.lru_index.specs.Hashing.{key_hash};
ghost use Rattle.trace_player_inside.specs.Policies.{is_chosen};

use crate::asked::passed;
use crate::plain_program::Takes;
use crate::player::Request;
use crate::policies::Refusal;
use crate::table::Percent;
use lru_index::hashing::{SeededHasher, SeededHashes, hash_of};
use lru_owned_cache::cache::Cache;
use std::alloc::{AllocError, Global};
use std::collections::BTreeMap;
use std::fmt;
use std::fmt::Display;
use std::hash::{BuildHasher, Hash, Hasher};

/// The greatest rate: one key in so many.
pub const MOST_RATE: u64 = 10000;

// That of caches is another one. Keys that one seed picks have hashes that are close together by that seed.
const SEED: u64 = 60;

/// Whether a key is in the sample of one key in `rate`: its hash is below 2^64 over the rate.
pub fn is_sampled(hashes: &SeededHashes, rate: u64, key: u64) -> bool
    ensures { result ≡ is_chosen (key_hash ⟦<SeededHashes as BuildHasher>⟧ ⟦<SeededHasher as Hasher>⟧ ⟦<u64 as Hash>⟧.hash_input hashes.now key) rate }
{
    hash_of(hashes, &key).checked_mul(rate).is_some()
}

// A cache of the sample's objects, under its part of a limit.
#[derive(Drop)]
struct CachePart {
    limit: usize,
    cache: Cache<u64, ()>,
    // of each key that was asked for
    misses: BTreeMap<u64, u64>,
}

impl CachePart {
    fn new(alloc: Global, limit: usize, rate: u64) -> Result<Self, AllocError> {
        let part = (limit as u64 / rate.max(1)).max(1) as usize;
        Ok(CachePart {
            limit,
            cache: Cache::new(alloc, part, usize::MAX)?,
            misses: BTreeMap::new(alloc),
        })
    }

    // Whether an object is there. It comes in, or stays with this size, as for an LRU's player.
    fn finds(&mut self, request: Request) -> Result<bool, Refusal> {
        let weight = request.size.max(1);
        if weight > self.cache.most_weight() {
            return Ok(self.cache.remove(&request.key).is_some());
        }
        match self.cache.put(request.key, (), weight, |_gone| {}) {
            Ok(was) => Ok(was.is_some()),
            Err(refused) => passed(refused.cause),
        }
    }

    fn ask(&mut self, request: Request) -> Result<(), Refusal> {
        if !self.finds(request)? {
            let Ok(entry) = self.misses.entry(request.key) else {
                return Err(Refusal::Memory);
            };
            let misses = entry.or_insert(0);
            *misses = misses.saturating_add(1);
        }
        Ok(())
    }

    // The misses of all keys, and the sum of their squares.
    fn sums(&self) -> (u64, u128) {
        let (mut misses, mut squares) = (0u64, 0u128);
        for count in self.misses.values() {
            misses = misses.saturating_add(*count);
            squares = squares.saturating_add(*count as u128 * *count as u128);
        }
        (misses, squares)
    }
}

/// A sample of a trace's keys, and a cache of its objects for each of several limits. It takes memory for those objects
/// alone. Where `take` is refused, some of the caches have been asked and others not: such a sample tells nothing more.
#[derive(Drop)]
pub struct Sample {
    /// One key in so many is in the sample.
    pub rate: u64,
    /// The hashes that decide which.
    pub hashes: SeededHashes,
    /// How many requests there were.
    pub requests: u64,
    /// How many of them were for keys of the sample.
    pub sampled: u64,
    parts: Vec<CachePart>,
}

impl Sample {
    /// A sample of one key in `rate`, of a trace of no requests so far.
    ///
    /// # Errors
    ///
    /// There is no memory.
    pub fn new(alloc: Global, rate: u64, limits: &[usize]) -> Result<Self, AllocError>
        ensures rate { IfOk result (λ sample. sample.rate ≡ rate) }
        ensures requests { IfOk result (λ sample. sample.requests ≡ 0) }
        ensures sampled { IfOk result (λ sample. sample.sampled ≡ 0) }
    {
        let mut parts = Vec::with_capacity(alloc, limits.len())?;
        for limit in limits {
            parts.push(CachePart::new(alloc, *limit, rate)?)?;
        }
        Ok(Sample {
            rate,
            hashes: SeededHashes::with_seed(SEED),
            requests: 0,
            sampled: 0,
            parts,
        })
    }

    /// What the sample tells of each limit, in their order.
    ///
    /// # Errors
    ///
    /// There is no memory.
    pub fn estimates(&self, alloc: Global) -> Result<Vec<Estimate>, AllocError>
        ensures requests { IfOk result (λ told. All (λ e. e.requests ≡ self.now.requests) told.items) }
        ensures error { IfOk result (λ told. All (λ e. e.error ≤ 10000) told.items) }
    {
        let mut estimates = Vec::with_capacity(alloc, self.parts.len())?;
        for part in &self.parts {
            let (misses, squares) = part.sums();
            estimates.push(Estimate {
                limit: part.limit,
                requests: self.requests,
                misses: misses.saturating_mul(self.rate),
                error: error_of(self.rate, squares, self.requests),
            })?;
        }
        Ok(estimates)
    }
}

impl Takes for Sample {
    fn take(&mut self, request: Request) -> Result<(), AllocError>
        ensures requests { OnOk result (self.new.requests ≡ min (self.old.requests + 1) u64.MAX) }
        ensures sampled { OnOk result (self.new.sampled ≡ (if is_chosen (key_hash ⟦<SeededHashes as BuildHasher>⟧ ⟦<SeededHasher as Hasher>⟧ ⟦<u64 as Hash>⟧.hash_input self.old.hashes request.key) self.old.rate then min (self.old.sampled + 1) u64.MAX else self.old.sampled)) }
        ensures rate { self.new.rate ≡ self.old.rate }
        ensures hashes { self.new.hashes ≡ self.old.hashes }
    {
        self.requests = self.requests.saturating_add(1);
        if !is_sampled(&self.hashes, self.rate, request.key) {
            return Ok(());
        }
        self.sampled = self.sampled.saturating_add(1);
        for part in self.parts.iter_mut() {
            if part.ask(request).is_err() {
                return Err(AllocError);
            }
        }
        Ok(())
    }
}

// 1.96 standard errors of the share of misses, in hundredths of a percent, by the sum of the squares of the misses of each
// key of the sample. A key is in the sample with a chance of one in `rate`, whichever others are: so that sum, times the rate
// and times the rate less 1, estimates the variance of the misses that are told.
fn error_of(rate: u64, squares: u128, requests: u64) -> u64
    ensures { result ≤ 10000 }
{
    let pairs = rate as u128 * rate.saturating_sub(1) as u128;
    let variance = pairs.saturating_mul(squares).saturating_mul(19600 * 19600);
    let whole = (requests as u128).max(1);
    let error = (variance / (whole * whole)).isqrt();
    error.min(10000) as u64
}

/// What a sample tells of a limit.
#[derive(Clone, Copy, Debug, PartialEq, Eq)]
pub struct Estimate {
    /// The limit.
    pub limit: usize,
    /// How many requests the whole trace has.
    pub requests: u64,
    /// About how many of them do not find their object.
    pub misses: u64,
    /// In 19 of 20 samples the share of those that find it is told no further off than this, in hundredths of a percent.
    pub error: u64,
}

impl Display for Estimate {
    fn fmt<W: fmt::Write>(&self, f: &mut fmt::Formatter<W>) -> fmt::Result {
        let found = Percent {
            part: self.requests.saturating_sub(self.misses),
            whole: self.requests,
        };
        let error = Percent {
            part: self.error,
            whole: 10000,
        };
        write!(f, "{} {found} {error}", self.limit)
    }
}
