//! A shard behind its lock, with what is counted of it.
ghost use Rattle.std.specs.Prelude.{◌≡◌, ◌<◌, vec_len, IfOk};
ghost use Rattle.lru_shard.specs.Shards.{IsOwn};

use crate::counters::ShardCounters;
use crate::locked::LockedUnit;
use crossbeam_utils::CachePadded;
use lru_index::hashing::SeededHashes;
use lru_shard::unit::LruUnit;
use lru_short_locks::ShortMutex;
use std::alloc::{AllocError, Global};
use std::sync::Wait;

// A shard behind its lock. Who holds the lock writes what is counted, too, and so that lies beside it: a thread that comes
// after another fetches the cache lines of both at once.
#[derive(Drop)]
pub(crate) struct Shard<T, const N: usize> {
    pub(crate) counts: ShardCounters,
    pub(crate) lock: ShortMutex<LockedUnit<T, N>>,
}

impl<T, const N: usize> Shard<T, N> {
    fn new(locked: LockedUnit<T, N>) -> Self {
        Shard {
            counts: ShardCounters::zero(),
            lock: ShortMutex::new(locked),
        }
    }
}

// Empty shards, each with room for `capacity` rows.
pub(crate) fn empty_units<T: Drop, const N: usize>(
    alloc: Global,
    capacity: usize,
    hashes: SeededHashes,
) -> Result<Vec<CachePadded<Shard<T, N>>>, AllocError>
    requires { 0 < N }
    ensures { IfOk result (λ units. vec_len units ≡ N) }
{
    let mut units = Vec::with_capacity(alloc, N)?;
    for number in 0..N {
        let locked = LockedUnit::with_capacity(alloc, capacity, number, hashes)?;
        units.push(CachePadded::new(Shard::new(locked)))?;
    }
    Ok(units)
}

// The shard that a lock has. No type says which lock has which shard, so the number is looked at; it is the right one.
pub(crate) fn unit_of<T: Drop, const N: usize>(
    rt: &impl Wait,
    shard: CachePadded<Shard<T, N>>,
    number: usize,
) -> LruUnit<T>
    ensures { IsOwn N number result }
{
    let Shard { lock, .. } = shard.into_inner();
    let locked = lock.into_inner();
    for _ in rt.forever() {
        if locked.number == number {
            break;
        }
    }
    locked.into_unit()
}
