//! N shards of one owner.

use pingora_lru::lru_core::LruCore;
use rand_core::Rng;
use std::alloc::Global;

/// The files that have to go for the others to fit the budget.
pub fn over_budget<R: Rng>(
    alloc: Global,
    rng: &mut R,
    budget: usize,
    files: &[(u64, usize)],
) -> Option<Vec<(u64, usize)>> {
    let mut core = LruCore::<u64, 16>::with_capacity(alloc, budget, 0).ok()?;
    for (id, bytes) in files {
        core.admit(*id, *id, *bytes).ok()?;
    }
    core.evict_to_limit(alloc, rng).ok()
}
