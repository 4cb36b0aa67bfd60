//! The two numbers that a sharded order sums up over its shards.
ghost use Rattle.std.specs.Prelude.{◌≡◌, ◌+◌, ◌-◌, ◌^◌, ◌<◌, ◌≤◌, length};
ghost use Rattle.lru_shard.specs.Row.{weight_of};
ghost use Rattle.lru_shard.specs.Shard.{IsShard};

use crate::unit::LruUnit;
use std::hash::BuildHasher;

/// What a sharded order that threads shared leaves.
#[derive(Drop)]
pub struct Units<T> {
    /// The shards, in their order.
    pub units: Vec<LruUnit<T>>,
    /// What was counted of them.
    pub totals: Totals,
}

/// The weight and the number of some rows.
#[derive(Clone, Copy, Debug, PartialEq, Eq)]
pub struct Totals {
    /// The sum of the weights of the rows.
    pub weight: usize,
    /// How many rows there are.
    pub len: usize,
}

impl Totals {
    /// The totals of one shard.
    #[inline(always)]
    pub fn of<T, S: BuildHasher>(unit: &LruUnit<T, S>) -> Totals
        ensures weight { result.weight ≡ weight_of unit.now.rows }
        ensures len { result.len ≡ length unit.now.rows }
        ensures valid { IsShard unit.now }
    {
        Totals {
            weight: unit.used_weight(),
            len: unit.len(),
        }
    }

    /// Brings sums over all shards after a call that changed one shard's totals.
    #[inline(always)]
    pub fn change(&mut self, before: Totals, after: Totals)
        requires weight { before.weight ≤ self.old.weight }
        requires len { before.len ≤ self.old.len }
        requires weight_fits { self.old.weight - before.weight + after.weight < 2 ^ 64 }
        requires len_fits { self.old.len - before.len + after.len < 2 ^ 64 }
        ensures weight { self.new.weight ≡ self.old.weight - before.weight + after.weight }
        ensures len { self.new.len ≡ self.old.len - before.len + after.len }
    {
        self.weight = self.weight - before.weight + after.weight;
        self.len = self.len - before.len + after.len;
    }
}
