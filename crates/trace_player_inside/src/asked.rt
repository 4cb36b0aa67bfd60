//! Caches that are asked for one object after another.
ghost use Rattle.std.specs.Prelude.{◌≡◌, ◌≤◌, Bool, false, length, IfOk};
ghost use Rattle.std.specs.List.{FoldsTo};
ghost use Rattle.lru_index.specs.Hashing.{key_hash};
ghost use Rattle.trace_player_inside.specs.declared.player.Request.{Request};
ghost use Rattle.trace_player_inside.specs.Policies.{Counts, AsksFirstCome, AsksSegments, AsksSketch};

use crate::player::Request;
use crate::policies::Refusal;
use lru_admission::admission::{AskingCache, NotAdmitted};
use lru_index::hashing::{SeededHasher, SeededHashes};
use lru_owned_cache::cache::{Cache, Cause};
use lru_segmented::segmented::SegmentedCache;
use std::hash::{BuildHasher, Hash, Hasher};

/// A cache under a policy of its own.
pub(crate) trait Asked {
    ghost asks: { Self → Request → Bool → Self → Type 0 };

    /// Asks for an object, and answers whether it is there. One that is not there comes in, where the policy lets it.
    ///
    /// # Errors
    ///
    /// There is no place for it.
    fn ask(&mut self, request: Request) -> Result<bool, Refusal>
        ensures { IfOk result (λ found. asks self.old request found self.new) };
}

/// What a cache's refusal of an entry means for its request: one that is too heavy by itself is not kept, and that is all.
pub(crate) fn passed(cause: Cause) -> Result<bool, Refusal>
    ensures { IfOk result (λ found. (found ≡ false) × (cause ≡ Cause.TooHeavy)) }
{
    match cause {
        Cause::TooHeavy => Ok(false),
        Cause::Memory => Err(Refusal::Memory),
        Cause::Full => Err(Refusal::TooMany),
    }
}

// A cache that is told of no use keeps what came in last.
impl Asked for Cache<u64, ()> {
    ghost asks = { AsksFirstCome };

    fn ask(&mut self, request: Request) -> Result<bool, Refusal> {
        if self.contains(&request.key) {
            return Ok(true);
        }
        match self.put(request.key, (), request.size.max(1), |_gone| {}) {
            Ok(_) => Ok(false),
            Err(refused) => passed(refused.cause),
        }
    }
}

impl Asked for SegmentedCache<u64, ()> {
    ghost asks = { AsksSegments };

    fn ask(&mut self, request: Request) -> Result<bool, Refusal> {
        if self.promote(&request.key) {
            return Ok(true);
        }
        match self.put(request.key, (), request.size.max(1), |_gone| {}) {
            Ok(_) => Ok(false),
            Err(refused) => passed(refused.cause),
        }
    }
}

impl Asked for AskingCache<u64, ()> {
    ghost asks = { AsksSketch (key_hash ⟦<SeededHashes as BuildHasher>⟧ ⟦<SeededHasher as Hasher>⟧ ⟦<u64 as Hash>⟧.hash_input) };

    fn ask(&mut self, request: Request) -> Result<bool, Refusal> {
        if self.promote(&request.key) {
            return Ok(true);
        }
        match self.put(request.key, (), request.size.max(1), |_gone| {}) {
            Ok(_) => Ok(false),
            Err(NotAdmitted::Rarer(_, _)) => Ok(false),
            Err(NotAdmitted::Refused(refused)) => passed(refused.cause),
        }
    }
}

/// How many requests find their object, one after another.
///
/// # Errors
///
/// There is no place for an object.
pub(crate) fn hits_in<C: Asked>(cache: &mut C, requests: &[Request]) -> Result<u64, Refusal>
    ensures within { IfOk result (λ hits. hits ≤ length requests.now) }
    ensures finds { IfOk result (λ hits. FoldsTo (Counts C.asks) (cache.old, 0) requests.now (cache.new, hits)) }
{
    let mut hits = 0;
    for request in requests {
        let is_found = cache.ask(*request)?;
        hits += is_found as u64;
    }
    Ok(hits)
}
