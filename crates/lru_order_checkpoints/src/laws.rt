//! A law of captures. It stands on a function that does nothing.
ghost use Rattle.std.specs.Prelude.{◌≡◌, ℕ, List, [], Result, Vec, MatchResult, length};
ghost use Rattle.std.specs.List.{AllByRecursion};
ghost use Rattle.std.specs.declared.alloc.Global.{Global};
ghost use Rattle.lru_frames.specs.declared.row.Row.{Row};
ghost use Rattle.lru_frames.specs.Copies.{AreEach};
ghost use Rattle.lru_shard.specs.declared.unit.Cause.TheVariants.{Memory};
ghost use Rattle.lru_shard.specs.declared.unit.Refused.{Refused};
ghost use Rattle.lru_cores.specs.Core.{Core, IsCore, list_at};
ghost use Rattle.lru_order_checkpoints.specs.Captures.{AreCopies, ArePlaced, PutsShards};

/// The rows that were captured of each shard of a core and are put back into one without rows, of as many shards, stand in their
/// shards as they stood; or memory is refused. The data have to tell the keys of their rows.
pub fn captured_rows_come_back<V: Clone, const N: usize>()
    ensures { (core old new : Core (ℕ × V)) (shards : List (Vec (Row ℕ V) Global)) (answer : Result (Unit {0}) (Refused (ℕ × V)))
        → IsCore N core → AllByRecursion (AllByRecursion (λ row. row.value.0 ≡ row.key)) core.lists
        → length old.lists ≡ N → ((shard : ℕ) → list_at old shard ≡ [])
        → AreEach (λ list rows. AreCopies V.is_clone list rows.items) core.lists shards → PutsShards old shards answer new
        → MatchResult answer (λ done. ArePlaced 0 shards new) (λ refused. refused.cause ≡ Memory) }
{}
