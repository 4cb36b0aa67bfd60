//! The cache, and what asking it for an object does.
ghost use Rattle.std.specs.Prelude.{IfNone};
ghost use Rattle.example_tiers.specs.Budgets.{IsWithin};

use pingora_lru::tiered::{Tier, TieredCore};
use pingora_lru::unit::Cause;
use rand_core::Rng;
use std::alloc::Global;

/// Objects in one shard a tier, so in the exact order of use. Each row has its key again, since an evicted pair has none.
pub type Cache = TieredCore<u64, 1>;

/// What came of an object that was asked for.
#[derive(Debug, Drop)]
pub struct Answer {
    /// The tier that had it; `None` where it was fetched.
    pub was: Option<Tier>,
    /// The key and the bytes of each object that left the cache, in order.
    pub left: Vec<(u64, usize)>,
    /// Why a tier could not take an object, if one could not.
    pub refused: Option<Cause>,
}

/// Asks for an object: uses it, or fetches it and lets it in, and balances the tiers.
pub fn ask<R: Rng>(alloc: Global, cache: &mut Cache, rng: &mut R, key: u64, bytes: usize) -> Answer
    ensures { IfNone result.refused (IsWithin cache.new) }
{
    match cache.touch(key) {
        Ok(Some(tier)) => balance(alloc, cache, rng, Some(tier)),
        Ok(None) => match cache.admit(key, key, bytes) {
            Ok(_) => balance(alloc, cache, rng, None),
            Err(refused) => Answer {
                was: None,
                left: Vec::new(alloc),
                refused: Some(refused.cause),
            },
        },
        Err(cause) => Answer {
            was: Some(Tier::Cold),
            left: Vec::new(alloc),
            refused: Some(cause),
        },
    }
}

fn balance<R: Rng>(alloc: Global, cache: &mut Cache, rng: &mut R, was: Option<Tier>) -> Answer
    ensures { IfNone result.refused (IsWithin cache.new) }
{
    match cache.balance(alloc, rng) {
        Ok(left) => Answer {
            was,
            left,
            refused: None,
        },
        Err(stopped) => Answer {
            was,
            left: stopped.evicted,
            refused: Some(stopped.cause),
        },
    }
}
