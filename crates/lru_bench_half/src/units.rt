//! The orders of `pingora_lru`.
ghost use Rattle.std.specs.Prelude.{◌<◌};

use crate::order::Order;
use pingora_lru::lru_core::LruCore;
use pingora_lru::unit::LruUnit;
use rand::RngExt;
use rand::rngs::SmallRng;
use rand_core::SeedableRng;

/// A shard of one owner, and how many rows it may have.
#[derive(Drop)]
pub struct Unit {
    pub unit: LruUnit<u64>,
    pub limit: usize,
}

impl Unit {
    fn evict_where_over(&mut self) {
        if self.unit.used_weight() > self.limit {
            self.unit.evict();
        }
    }
}

impl Order for Unit {
    fn admit(&mut self, key: u64) -> bool {
        self.unit.admit(key, key, 1).is_ok()
    }

    fn admit_and_evict(&mut self, key: u64) -> bool {
        let is_in = self.unit.admit(key, key, 1).is_ok();
        self.evict_where_over();
        is_in
    }

    fn promote(&mut self, key: u64) -> bool {
        self.unit.access(key)
    }

    fn peek(&self, key: u64) -> bool {
        self.unit.contains(key)
    }

    fn peek_weight(&self, key: u64) -> bool {
        self.unit.peek_weight(key).is_some()
    }

    fn remove(&mut self, key: u64) -> bool {
        self.unit.remove(key).is_some()
    }

    fn get_or_admit(&mut self, key: u64) -> bool {
        let answer = self
            .unit
            .update_or_admit(key, |_, weight| weight, || (key, 1));
        self.evict_where_over();
        match answer {
            Ok((was, _)) => was.is_some(),
            Err(_) => false,
        }
    }

    fn odd_rows(&self) -> u64 {
        let mut odd = 0u64;
        for (data, _) in self.unit.iter() {
            odd = odd.wrapping_add(*data % 2);
        }
        odd
    }
}

/// A core, and the generator of its evictions.
#[derive(Drop)]
pub struct Core<const N: usize> {
    core: LruCore<u64, N>,
    rng: SmallRng,
    ghost some: { 0 < N },
}

impl<const N: usize> Core<N> {
    /// A core, whose generator begins with the same seed in each run.
    pub fn new(core: LruCore<u64, N>) -> Self
        requires { 0 < N }
    {
        Core {
            core,
            rng: SmallRng::seed_from_u64(7),
        }
    }

    // One row at most, as calls of weight 1 make it over by one.
    fn evict_where_over(&mut self) {
        if self.core.weight() > self.core.weight_limit() {
            let a = self.rng.random_range(0..N);
            let b = self.rng.random_range(0..N);
            self.core.evict_step(a, b);
        }
    }
}

impl<const N: usize> Order for Core<N> {
    fn admit(&mut self, key: u64) -> bool {
        self.core.admit(key, key, 1).is_ok()
    }

    fn admit_and_evict(&mut self, key: u64) -> bool {
        let is_in = self.core.admit(key, key, 1).is_ok();
        self.evict_where_over();
        is_in
    }

    fn promote(&mut self, key: u64) -> bool {
        self.core.promote(key)
    }

    fn peek(&self, key: u64) -> bool {
        self.core.peek(key)
    }

    fn peek_weight(&self, key: u64) -> bool {
        self.core.peek_weight(key).is_some()
    }

    fn remove(&mut self, key: u64) -> bool {
        self.core.remove(key).is_some()
    }

    fn get_or_admit(&mut self, key: u64) -> bool {
        let answer = self
            .core
            .update_or_admit(key, |_, weight| weight, || (key, 1));
        self.evict_where_over();
        match answer {
            Ok(was) => was.is_some(),
            Err(_) => false,
        }
    }

    fn odd_rows(&self) -> u64 {
        let mut odd = 0u64;
        for shard in 0..N {
            self.core
                .iter_for_each(shard, |(data, _)| odd = odd.wrapping_add(*data % 2));
        }
        odd
    }
}
