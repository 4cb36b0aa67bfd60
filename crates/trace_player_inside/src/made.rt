//! Traces that are made by a seed, of objects of size 1.

ghost use Rattle.std.specs.Prelude.{◌≡◌, ◌≤◌, vec_len, IfOk};

use rand_core::{Rng, SeedableRng};
use rand_xoshiro::SplitMix64;
use std::alloc::{AllocError, Global};

/// How keys are asked for.
#[derive(Clone, Copy, Debug, PartialEq, Eq)]
pub enum Kind {
    /// Each as often as one in its rank: the law of Zipf.
    Zipf,
    /// By the law of Zipf, and after ten times as many requests as the cache has objects a walk over four times as many keys
    /// that are asked for once.
    Scan,
    /// One after another, and again: a tenth more keys than the cache has objects.
    Loop,
    /// By the law of Zipf, and at each quarter of the requests other keys have the first ranks.
    Shift,
    /// By the law of Zipf, a walk, and a loop that is gone through three times, in turn.
    Mixed,
}

/// What a trace is made of.
#[derive(Clone, Copy, Debug, PartialEq, Eq)]
pub struct Recipe {
    /// How keys are asked for.
    pub kind: Kind,
    /// How many keys have ranks.
    pub keys: usize,
    /// How many requests there are.
    pub requests: usize,
    /// Of how many objects the cache is that walks and loops are to be hard for.
    pub cache: usize,
    /// The seed.
    pub seed: u64,
}

// Ranks by the law of Zipf, from whole numbers alone: the sums of the first parts of 2^32, halves, thirds and so on.
#[derive(Drop)]
struct Zipf {
    ends: Vec<u64>,
    draws: SplitMix64,
}

impl Zipf {
    fn new(alloc: Global, keys: usize, seed: u64) -> Result<Self, AllocError> {
        let mut ends = Vec::with_capacity(alloc, keys)?;
        let mut end = 0u64;
        for rank in 1..=keys as u64 {
            end = end.saturating_add((1 << 32) / rank.max(1));
            ends.push(end)?;
        }
        let draws = SplitMix64::seed_from_u64(seed);
        Ok(Zipf { ends, draws })
    }

    // The next rank, from 0 on.
    fn draw(&mut self) -> u64 {
        let whole = self.ends.last().copied().unwrap_or(1).max(1);
        let spot = self.draws.next_u64() % whole;
        match self.ends.binary_search(&spot) {
            Ok(place) => place as u64 + 1,
            Err(place) => place as u64,
        }
    }
}

// A stretch of requests of one kind.
#[derive(Clone, Copy)]
enum Stretch {
    Ranks,
    Walk,
    Round,
}

/// The keys that are asked for, one after another.
///
/// # Errors
///
/// There is no memory for them.
pub fn keys_of(alloc: Global, recipe: &Recipe) -> Result<Vec<u64>, AllocError>
    ensures { IfOk result (λ keys. vec_len keys ≡ recipe.now.requests) }
{
    let mut zipf = Zipf::new(alloc, recipe.keys, recipe.seed)?;
    let mut keys = Vec::with_capacity(alloc, recipe.requests)?;
    let mut walked = 0u64;
    for place in 0..recipe.requests as u64 {
        let key = match stretch_at(recipe, place) {
            Stretch::Ranks => key_of_rank(recipe, place, zipf.draw()),
            Stretch::Walk => {
                walked = walked.saturating_add(1);
                (recipe.keys as u64).saturating_add(walked)
            }
            Stretch::Round => u64::MAX - place % looped(recipe),
        };
        keys.push(key)?;
    }
    Ok(keys)
}

// How many keys a loop has.
fn looped(recipe: &Recipe) -> u64
    ensures some { 1 ≤ result }
{
    let cache = recipe.cache as u64;
    cache.saturating_add(cache / 10).max(1)
}

// In which stretch a place is.
fn stretch_at(recipe: &Recipe, place: u64) -> Stretch {
    let cache = (recipe.cache as u64).max(1);
    let (ranks, walk) = (cache.saturating_mul(10), cache.saturating_mul(4));
    let round = looped(recipe).saturating_mul(3);
    match recipe.kind {
        Kind::Zipf | Kind::Shift => Stretch::Ranks,
        Kind::Loop => Stretch::Round,
        Kind::Scan => {
            if place % ranks.saturating_add(walk).max(1) < ranks {
                Stretch::Ranks
            } else {
                Stretch::Walk
            }
        }
        Kind::Mixed => {
            let spot = place % ranks.saturating_add(walk).saturating_add(round).max(1);
            if spot < ranks {
                Stretch::Ranks
            } else if spot < ranks.saturating_add(walk) {
                Stretch::Walk
            } else {
                Stretch::Round
            }
        }
    }
}

// The key of a rank: in a shift, at each quarter of the requests that of another rank.
fn key_of_rank(recipe: &Recipe, place: u64, rank: u64) -> u64 {
    if recipe.kind != Kind::Shift {
        return rank;
    }
    let quarter = place / (recipe.requests as u64 / 4).max(1);
    let step = recipe.keys as u64 / 4;
    rank.saturating_add(quarter.saturating_mul(step)) % (recipe.keys as u64).max(1)
}
