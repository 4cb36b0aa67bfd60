//! Entries that leave a cache, each handed to a closure that is answered in the state in which it is left, so that it can go
//! on at the next cache.
ghost use Rattle.std.specs.Prelude.{◌≡◌, ◌≤◌, ◌&&◌, nat_le, [], length, reverse};
ghost use Rattle.std.specs.List.{FoldsTo};
ghost use Rattle.lru_owned_cache.specs.Entries.{weight_of};
ghost use Rattle.lru_owned_cache.specs.Cache.{with_entries};
ghost use Rattle.lru_shared_cache.specs.Counting.{LetsGo, LimitsTo};

use lru_owned_cache::cache::{Cache, Entry};
use std::hash::{BuildHasher, Hash};

// Whether the entries are within these limits.
#[inline(always)]
fn fits<K: Hash, V, S: BuildHasher>(
    cache: &Cache<K, V, S>,
    most_weight: usize,
    most_entries: usize,
) -> bool
    ensures fits { result ≡ (nat_le (weight_of cache.now.entries) most_weight && nat_le (length cache.now.entries) most_entries) }
    ensures placed { length cache.now.entries ≤ cache.now.places }
{
    cache.len() <= most_entries && cache.weight() <= most_weight
}

// Lets the last entries go, as many as have to for the others to be within limits.
pub(crate) fn let_go<K, V, S, F>(
    cache: &mut Cache<K, V, S>,
    most_weight: usize,
    most_entries: usize,
    visit: F,
) -> F
where
    K: Hash + Drop,
    V: Drop,
    S: BuildHasher,
    F: FnMut(Entry<K, V>) + Drop,
    requires { F.IsAlwaysCallable visit }
    ensures goes { LetsGo (λ p x q. F.step p x tt q) visit cache.old most_weight most_entries result cache.new }
    ensures placed { length cache.old.entries ≤ cache.old.places }
    ensures again { F.IsAlwaysCallable result }
{
    let mut visit = visit;
    // (read for the proof alone, which learns from it what the type says of its places)
    let _len = cache.len();
    while !fits(cache, most_weight, most_entries) {
        let Some(last) = cache.pop_last() else {
            unreachable!()
        };
        visit(last);
    }
    visit
}

// Lets all entries go, the last first.
pub(crate) fn clear<K, V, S, F>(cache: &mut Cache<K, V, S>, visit: F) -> F
where
    K: Hash + Drop,
    V: Drop,
    S: BuildHasher,
    F: FnMut(Entry<K, V>) + Drop,
    requires { F.IsAlwaysCallable visit }
    ensures shown { FoldsTo (λ p x q. F.step p x tt q) visit (reverse cache.old.entries) result }
    ensures none { cache.new ≡ with_entries cache.old [] }
    ensures again { F.IsAlwaysCallable result }
{
    let_go(cache, 0, 0, visit)
}

// Gives the cache other limits, and lets go what has to go for them.
pub(crate) fn set_limits<K, V, S, F>(
    cache: &mut Cache<K, V, S>,
    most_weight: usize,
    most_entries: usize,
    visit: F,
) -> F
where
    K: Hash + Drop,
    V: Drop,
    S: BuildHasher,
    F: FnMut(Entry<K, V>) + Drop,
    requires { F.IsAlwaysCallable visit }
    ensures limits { LimitsTo (λ p x q. F.step p x tt q) visit cache.old most_weight most_entries result cache.new }
    ensures again { F.IsAlwaysCallable result }
{
    let visit = let_go(cache, most_weight, most_entries, visit);
    // What is left fits, so that none goes here.
    cache.set_limits(most_weight, most_entries, |_gone| {});
    visit
}

// Lets all entries go, the first first.
pub(crate) fn drain<K, V, S, F>(cache: &mut Cache<K, V, S>, visit: F) -> F
where
    K: Hash + Drop,
    V: Drop,
    S: BuildHasher,
    F: FnMut(Entry<K, V>) + Drop,
    requires { F.IsAlwaysCallable visit }
    ensures shown { FoldsTo (λ p x q. F.step p x tt q) visit cache.old.entries result }
    ensures none { cache.new ≡ with_entries cache.old [] }
    ensures again { F.IsAlwaysCallable result }
{
    let mut visit = visit;
    let _len = cache.len();
    while let Some(first) = cache.pop_first() {
        visit(first);
    }
    visit
}
