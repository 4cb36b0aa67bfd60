//! A law of captures. It stands on a function that does nothing.
ghost use Rattle.std.specs.Prelude.{◌≡◌, ℕ, List, [], Bool, Result, MatchResult, map, reverse};
ghost use Rattle.lru_frames.specs.declared.row.Row.{Row};
ghost use Rattle.lru_frames.specs.Copies.{AreEach, IsEntryCopy};
ghost use Rattle.lru_owned_cache.specs.declared.cache.Cause.TheVariants.{Memory};
ghost use Rattle.lru_owned_cache.specs.declared.cache.Refused as cached;
ghost use Rattle.lru_owned_cache.specs.Cache.{Cached, IsCache, parts_of};
ghost use Rattle.lru_cache_checkpoints.specs.Captures.{PutsEntries, entry_of};

use std::hash::Hash;

/// The entries that were captured of a cache and are put back into one without entries, under the same limits, stand as they
/// stood, and none is left out; or memory is refused. A clone of a key has to equal what the key equals.
pub fn captured_entries_come_back<K: Hash + Clone, V: Clone, S>()
    ensures { (cache old new : Cached K V S) (rows : List (Row K V)) (answer : Result ℕ (cached.Refused K V))
        → ((source clone other : K) → K.is_clone source clone → K.eq clone other ≡ K.eq source other)
        → IsCache K.eq cache → old.entries ≡ [] → old.most_weight ≡ cache.most_weight → old.most_entries ≡ cache.most_entries
        → AreEach (IsEntryCopy K.is_clone V.is_clone) (map parts_of cache.entries) rows → PutsEntries K.eq old (reverse rows) 0 answer new
        → MatchResult answer (λ left. (left ≡ 0) × (new.entries ≡ map entry_of rows)) (λ refused. refused.cause ≡ Memory) }
{}
