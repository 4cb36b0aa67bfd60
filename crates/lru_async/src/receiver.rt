//! A receiver of evicted pairs.
use lru_boxes::BoxRegistry;
use lru_inbox::tie::Archive;
use lru_workers::world::World;
use std::alloc::Global;
use std::marker::Brand;
use std::sync::{Arc, Wait};

/// Receives evicted pairs. A receiver that is dropped without `leave` lets them wait on.
#[derive(Drop)]
pub struct EvictionReceiver<K: Clone + Drop, B: BoxRegistry + Archive = Brand> {
    world: Arc<World<K, B>, Global>,
    // nobody else takes pairs
    alone: bool,
}

impl<K: Clone + Drop, B: BoxRegistry + Archive> EvictionReceiver<K, B> {
    pub(crate) fn new(world: Arc<World<K, B>, Global>, alone: bool) -> Self {
        EvictionReceiver { world, alone }
    }

    /// The next evicted pair. It waits for one; `None` once the order is closed and no pair waits.
    pub fn recv(&self, rt: &impl Wait) -> Option<(K, usize)> {
        self.world.outlet.take(rt, &mut None).into_pair()
    }

    /// Ends receiving. Without callback workers what waits is lost, and all that is evicted later; with some they go on.
    pub fn leave(self, rt: &impl Wait) {
        if self.alone {
            self.world.outlet.leave(rt);
        }
    }
}
