//! The calls on all shards in turn, written once: of shards of one owner and of shards behind locks. A closure goes on from
//! shard to shard in the state in which the one before left it.
ghost use Rattle.std.specs.Prelude.{◌≡◌, ◌<◌, ◌/◌};
ghost use Rattle.lru_shared_cache.specs.Turns.{InTurn, EachInTurn, GoesOn};
ghost use Rattle.lru_shared_cache.specs.Calls.{VisitsEachTo, RetainsShard};
ghost use Rattle.lru_shared_cache.specs.Counting.{ClearsShardTo, DrainsShardTo, LimitsShardTo};

use crate::calls::{clear, drain, retain, set_limits, visit_each};
use crate::kept::Kept;
use crate::limits::Limits;
use crate::shards::Shards;
use lru_owned_cache::cache::Entry;
use std::hash::{BuildHasher, Hash};

// Lets all entries of all shards go.
pub(crate) fn clear_all<K, V, S, X, T, F>(shards: &mut T, visit: F) -> F
where
    K: Hash + Drop,
    V: Drop,
    S: BuildHasher,
    X: Kept<K, V, S>,
    T: Shards<X>,
    F: FnMut(Entry<K, V>) + Drop,
    requires { F.IsAlwaysCallable visit }
    ensures acts { InTurn (λ s i P t. T.does s i P t) (λ v a u b. ClearsShardTo (λ p x q. F.step p x tt q) v (X.inside a) u (X.inside b)) (T.many shards.old) shards.old visit result shards.new }
    ensures many { T.many shards.new ≡ T.many shards.old }
{
    let mut visit = visit;
    for shard in 0..shards.count() {
        visit = clear(shards, shard, visit);
    }
    visit
}

// The same, in each shard the first first.
pub(crate) fn drain_all<K, V, S, X, T, F>(shards: &mut T, visit: F) -> F
where
    K: Hash + Drop,
    V: Drop,
    S: BuildHasher,
    X: Kept<K, V, S>,
    T: Shards<X>,
    F: FnMut(Entry<K, V>) + Drop,
    requires { F.IsAlwaysCallable visit }
    ensures acts { InTurn (λ s i P t. T.does s i P t) (λ v a u b. DrainsShardTo (λ p x q. F.step p x tt q) v (X.inside a) u (X.inside b)) (T.many shards.old) shards.old visit result shards.new }
    ensures many { T.many shards.new ≡ T.many shards.old }
{
    let mut visit = visit;
    for shard in 0..shards.count() {
        visit = drain(shards, shard, visit);
    }
    visit
}

// Gives each shard its part of these limits, and lets go what has to go for them.
pub(crate) fn set_all_limits<K, V, S, X, T, F>(shards: &mut T, limits: Limits, visit: F) -> F
where
    K: Hash + Drop,
    V: Drop,
    S: BuildHasher,
    X: Kept<K, V, S>,
    T: Shards<X>,
    F: FnMut(Entry<K, V>) + Drop,
    requires { F.IsAlwaysCallable visit }
    ensures acts { InTurn (λ s i P t. T.does s i P t) (λ v a u b. LimitsShardTo (λ p x q. F.step p x tt q) v (limits.weight / T.many shards.old) (limits.entries / T.many shards.old) (X.inside a) u (X.inside b)) (T.many shards.old) shards.old visit result shards.new }
    ensures many { T.many shards.new ≡ T.many shards.old }
{
    let mut visit = visit;
    let count = shards.count();
    for shard in 0..count {
        visit = set_limits(shards, shard, limits.part(count), visit);
    }
    visit
}

// Calls a closure with the key, the value and the weight of each entry of all shards.
pub(crate) fn visit_all<K, V, S, X, T, F>(shards: &T, visit: F) -> F
where
    K: Hash,
    S: BuildHasher,
    X: Kept<K, V, S>,
    T: Shards<X>,
    F: FnMut((&K, &V, usize)),
    requires { F.IsAlwaysCallable visit }
    ensures { GoesOn (λ i v u. T.sees shards.now i (λ shard. VisitsEachTo (λ p x q. F.step p x tt q) v (X.inside shard).cache.entries u)) (T.many shards.now) visit result }
{
    let mut visit = visit;
    for shard in 0..shards.count() {
        visit = visit_each(shards, shard, visit);
    }
    visit
}

// Lets those entries of a shard go for which a test answers false, which stays as it is.
fn retain_by<K, V, S, X, T, F>(shards: &mut T, shard: usize, keep: &F)
where
    K: Hash + Drop,
    V: Drop,
    S: BuildHasher,
    X: Kept<K, V, S>,
    T: Shards<X>,
    F: Fn(&K, &V, usize) -> bool,
    requires shard { shard < T.many shards.old }
    requires keep { F.IsAlwaysCallable keep.now }
    ensures acts { T.does shards.old shard (λ before after. RetainsShard (λ p k v w b q. F.step p k v w b q) keep.now (X.inside before) (X.inside after)) shards.new }
    ensures many { T.many shards.new ≡ T.many shards.old }
{
    retain(shards, shard, keep);
}

// The same of all shards.
pub(crate) fn retain_all<K, V, S, X, T, F>(shards: &mut T, keep: F)
where
    K: Hash + Drop,
    V: Drop,
    S: BuildHasher,
    X: Kept<K, V, S>,
    T: Shards<X>,
    F: Fn(&K, &V, usize) -> bool,
    requires { F.IsAlwaysCallable keep }
    ensures acts { EachInTurn (λ s i P t. T.does s i P t) (λ before after. RetainsShard (λ p k v w b q. F.step p k v w b q) keep (X.inside before) (X.inside after)) (T.many shards.old) shards.old shards.new }
    ensures many { T.many shards.new ≡ T.many shards.old }
{
    for shard in 0..shards.count() {
        retain_by(shards, shard, &keep);
    }
}
