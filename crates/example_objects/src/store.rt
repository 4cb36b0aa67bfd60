//! The store: objects by their id, and what leaves where one comes.
ghost use Rattle.std.specs.Prelude.{◌≡◌, IfNone, IsFalse};
ghost use Rattle.lru_cores.specs.Eviction.{is_over};

use pingora_lru::lru_core::LruCore;
use pingora_lru::unit::Cause;
use rand_core::Rng;
use std::alloc::{AllocError, Global};

/// An object: its id, and its place on the disk.
pub type Object = (u64, u64);

/// Objects in one shard, so in the exact order of use.
pub type Store = LruCore<Object, 1>;

/// What a `put` did.
#[derive(Debug, Drop)]
pub struct Done {
    /// Each object that left, with its bytes, in order.
    pub left: Vec<(Object, usize)>,
    /// Why the object was not stored, or memory where the evictions found none.
    pub refused: Option<Cause>,
}

impl Done {
    fn new(left: Vec<(Object, usize)>, refused: Option<Cause>) -> Self
        ensures { result.refused ≡ refused }
    {
        Done { left, refused }
    }
}

/// A store with no objects.
pub fn empty_store(alloc: Global, budget: usize) -> Result<Store, AllocError> {
    LruCore::with_capacity(alloc, budget, 0)
}

/// Stores an object, and takes out those used longest ago until the budget is kept.
pub fn put<R: Rng>(alloc: Global, store: &mut Store, rng: &mut R, id: u64, bytes: usize) -> Done
    ensures { IfNone result.refused (IsFalse (is_over store.new)) }
{
    let object = (id, 0);
    if let Err(refused) = store.admit(id, object, bytes) {
        return Done::new(Vec::new(alloc), Some(refused.cause));
    }
    match store.evict_to_limit(alloc, rng) {
        Ok(left) => Done::new(left, None),
        Err(stopped) => Done::new(stopped.evicted, Some(Cause::Memory)),
    }
}
