//! All entries go, the first first.
ghost use Rattle.std.specs.Prelude.{◌≡◌};
ghost use Rattle.lru_owned_cache.specs.Partings.{DrainsRows};

use crate::entry::Entry;
use lru_pairs::pairs::Pairs;
use std::hash::{BuildHasher, Hash};

/// Takes all rows out from the first on, and hands each to `visit`.
pub fn drain<K, V, S, F>(rows: &mut Pairs<K, V, S>, mut visit: F)
where
    K: Hash + Drop,
    V: Drop,
    S: BuildHasher,
    F: FnMut(Entry<K, V>) + Drop,
    requires { F.IsAlwaysCallable visit }
    ensures drains { DrainsRows (λ p x q. F.step p x tt q) visit rows.old.held rows.new.held }
    ensures hashes { rows.new.hashes ≡ rows.old.hashes }
{
    while let Some(first) = rows.pop_first() {
        visit(Entry {
            key: first.key,
            value: first.value,
            weight: first.weight,
        });
    }
}
