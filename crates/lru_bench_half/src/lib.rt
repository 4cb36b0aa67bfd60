//! Runs a plan of phases on an order of least recent use, for a harness outside that measures it.
//!
//! Before the first phase and after each one it asks for 7777 bytes and gives them back, so that a harness
//! that watches the allocator can read its clock there.
#![tactic(auto)]

ghost use Rattle.std.specs.Prelude.{◌<◌};

mod caches;
mod order;
mod plan;
mod texts;
mod units;

use lru::LruCache;
use lru_owned_cache::cache::Cache;
use pingora_lru::lru_core::LruCore;
use pingora_lru::unit::LruUnit;
use std::alloc::Global;
use std::num::NonZeroUsize;
use texts::Texts;
use units::{Core, Unit};

const UNIT: u64 = 0;

const TOOLCHAIN: u64 = 2;

const CACHE: u64 = 3;

const TEXTS: u64 = 4;

/// Runs a plan on an empty order with a limit of so many rows, each of weight 1. The order is the shard of
/// one owner (`subject` 0), a core of 1, 8 or 16 shards (that number), the toolchain's `lru` (2), a
/// cache of keys and values (3), or one whose keys are texts (4): then a key is the number of a text.
///
/// A phase is three numbers of the plan: what is done, and the first key and the key past the last, as places
/// in `keys`. What each phase counted goes to `counts`. The answer is the number of phases that ran: fewer
/// than there are where a place is past the keys, where a count has no place, or where no memory was found
/// for the order.
#[unsafe(no_mangle)]
pub extern "C" fn lru_bench_half_run(
    alloc: Global,
    subject: u64,
    limit: usize,
    plan: &[u64],
    keys: &[u64],
    counts: &mut [u64],
) -> usize {
    match subject {
        UNIT => match LruUnit::with_capacity(alloc, 0, usize::MAX) {
            Ok(unit) => plan::run(alloc, &mut Unit { unit, limit }, plan, keys, counts),
            Err(_) => 0,
        },
        TOOLCHAIN => {
            let Some(most) = NonZeroUsize::new(limit) else {
                return 0;
            };
            match LruCache::<u64, u64>::sparse(alloc, most) {
                Ok(mut cache) => plan::run(alloc, &mut cache, plan, keys, counts),
                Err(_) => 0,
            }
        }
        CACHE => match Cache::<u64, u64>::new(alloc, usize::MAX, limit) {
            Ok(mut cache) => plan::run(alloc, &mut cache, plan, keys, counts),
            Err(_) => 0,
        },
        TEXTS => match Texts::new(alloc, limit, keys) {
            Ok(mut texts) => plan::run(alloc, &mut texts, plan, keys, counts),
            Err(_) => 0,
        },
        1 => run_core::<1>(alloc, limit, plan, keys, counts),
        8 => run_core::<8>(alloc, limit, plan, keys, counts),
        16 => run_core::<16>(alloc, limit, plan, keys, counts),
        _ => 0,
    }
}

fn run_core<const N: usize>(
    alloc: Global,
    limit: usize,
    plan: &[u64],
    keys: &[u64],
    counts: &mut [u64],
) -> usize
    requires { 0 < N }
{
    match LruCore::<u64, N>::with_capacity(alloc, limit, 0) {
        Ok(core) => plan::run(alloc, &mut Core::new(core), plan, keys, counts),
        Err(_) => 0,
    }
}
