//! Inclusion: what a shard keeps under small limits is a beginning of what it keeps under greater ones.
ghost use Rattle.std.specs.Prelude.{ℕ, ◌≤◌, List, Option, All};
ghost use Rattle.lru_cores.specs.declared.calls.Call.{Call};
ghost use Rattle.lru_cores.specs.Core.{Core, list_at};
ghost use Rattle.lru_cores.specs.Inclusion.{IsFrontOf, IsNoHigher, IsInclusionCall, LeadsTo};

/// A law of two runs of an `LruCore<T, 1>`. It does nothing when it is called: its contract is the law.
///
/// Two cores of one shard are empty at first. Each has a weight limit and perhaps a watermark, which stay as they
/// are; the limits of the first are no greater than those of the second, and no watermark counts as the greatest.
/// Both do the same calls, each an `admit`, a `set_weight`, a `remove` or an `evict_to_limit`, and refuse none.
/// Then after every call the rows of the first, most recent first, are a beginning of the rows of the second.
///
/// With other calls it is not so: a `promote` finds a row in the second that the first has evicted.
pub fn inclusion_law<T>()
    // The calls are any list, so this is so after each call of a longer list too.
    ensures { (calls : List (Call T)) (limit greater : ℕ) (watermark higher : Option ℕ) (small large : Core T)
        → All IsInclusionCall calls
        → limit ≤ greater → IsNoHigher watermark higher
        → LeadsTo limit watermark calls small → LeadsTo greater higher calls large
        → IsFrontOf (list_at small 0) (list_at large 0) }
{}
