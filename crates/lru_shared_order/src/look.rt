//! What may be done with the rows of a shard under its lock.
ghost use Rattle.lru_shard.specs.Shard.{Shard};

use lru_shard::unit::LruUnit;

/// A look at the rows of a shard, of which it answers something.
pub trait Look<T, A> {
    /// What may be answered of a shard.
    ghost tells: { Self → Shard T → A → Type 0 };

    /// Looks at a shard.
    fn look_at(self, unit: &LruUnit<T>) -> A
        ensures { tells self unit.now result };
}
