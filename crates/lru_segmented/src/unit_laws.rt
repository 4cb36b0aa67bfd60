//! What a missing share and a walk make of a shard in two segments. These functions do nothing: their contracts are laws about
//! the contracts of the shard's calls.
ghost use Rattle.lru_segmented.specs.UnitLaws.{PlainWithoutShare, NoWalkEvicts};

/// With a share of nothing for the upper segment, `admit`, `access`, `remove` and `evict` answer what those of an `LruUnit` do
/// on the same rows in one order, are refused where those are, and leave the same rows.
pub fn plain_without_share<T, S>()
    ensures { PlainWithoutShare T S }
{}

/// No walk evicts a protected row: after any list of admits of keys that have no row, refused or not, with evictions between
/// them as long as the lower segment has rows, the upper segment has the same rows, in the same order.
pub fn no_walk_evicts<T, S>()
    ensures { NoWalkEvicts T S }
{}
