//! What is done to one shard and counted, by a hash that was made to tell the shard.
ghost use Rattle.std.specs.Prelude.{◌≡◌, is_some};
ghost use Rattle.lru_index.specs.Hashing.{key_hash};
ghost use Rattle.lru_owned_cache.specs.Cache.{entry_of};
ghost use Rattle.lru_segmented.specs.Segmented.{entries};
ghost use Rattle.lru_shared_cache.specs.Calls.{ShowsEntry, VisitsEach};
ghost use Rattle.lru_shared_segmented.specs.Calls.{whole, Gets, Lends, Takes, PopsShard, ClearsShard, LimitsShard, PutsCounted};
ghost use Rattle.lru_shared_segmented.specs.Making.{PutsMissing};

use lru_index::alike::SameHashes;
use lru_index::keys::Query;
use lru_owned_cache::cache::{Entry, Refused};
use lru_segmented::segmented::SegmentedCache;
use lru_shared_cache::counts::{Counted, Size, Why, weight_in};
use lru_shared_cache::limits::Limits;
use std::alloc::AllocError;
use std::hash::{BuildHasher, Hash};

// A shard: its entries, and what its calls met.
pub(crate) type SegmentedShard<K, V, S> = Counted<SegmentedCache<K, V, S>>;

// How many entries there are, and what they weigh together.
#[inline(always)]
fn size<K: Hash, V, S: BuildHasher>(cache: &SegmentedCache<K, V, S>) -> Size
    ensures { result ≡ whole cache.now }
{
    Size {
        entries: cache.len(),
        weight: cache.weight(),
    }
}

// Whether what the query stands for has an entry.
#[inline(always)]
pub(crate) fn contains<K: Hash, V, S: BuildHasher + SameHashes, Q: Query<K>>(
    shard: &SegmentedShard<K, V, S>,
    query: Q,
    hash: u64,
    hashes: &S,
) -> bool
    requires { hash ≡ key_hash S.BuildHasher S.Hasher.Hasher Q.hash_input hashes.now query }
    ensures { result ≡ is_some (entry_of Q.stands_for (entries shard.now.cache) query) }
{
    let own = shard.cache.hash_as(&query, hash, hashes);
    shard.cache.contains_hashed(query, own)
}

// Shows the value of what the query stands for, which is not used by that.
#[inline(always)]
pub(crate) fn peek<K, V, S, Q, R, F>(
    shard: &SegmentedShard<K, V, S>,
    query: Q,
    hash: u64,
    hashes: &S,
    show: F,
) -> Option<R>
where
    K: Hash,
    S: BuildHasher + SameHashes,
    Q: Query<K>,
    F: FnOnce(&V) -> R,
    requires hash { hash ≡ key_hash S.BuildHasher S.Hasher.Hasher Q.hash_input hashes.now query }
    requires show { F.IsAlwaysCallable show }
    ensures { ShowsEntry Q.stands_for (F.post show) (entries shard.now.cache) query result }
{
    let own = shard.cache.hash_as(&query, hash, hashes);
    let value = shard.cache.peek_hashed(query, own)?;
    Some(show(value))
}

// Uses what the query stands for, and lends its value with its weight, which stays.
#[inline(always)]
pub(crate) fn lend<K, V, S, Q, R, F>(
    shard: &mut SegmentedShard<K, V, S>,
    query: Q,
    hash: u64,
    hashes: &S,
    show: F,
) -> Option<R>
where
    K: Hash,
    S: BuildHasher + SameHashes,
    Q: Query<K>,
    F: FnOnce(&mut V, usize) -> R + Drop,
    requires hash { hash ≡ key_hash S.BuildHasher S.Hasher.Hasher Q.hash_input hashes.now query }
    requires show { F.IsAlwaysCallable show }
    ensures { Lends Q.stands_for (F.post show) shard.old query result shard.new }
{
    let own = shard.cache.hash_as(&query, hash, hashes);
    let answer = shard.cache.update_hashed(query, own, show);
    shard.counts.look(answer.is_some());
    answer
}

// Uses what the query stands for, and answers a clone of its value. Where there is no memory for one, it is used all the same.
#[inline(always)]
pub(crate) fn get<K, V, S, Q>(
    shard: &mut SegmentedShard<K, V, S>,
    query: Q,
    hash: u64,
    hashes: &S,
) -> Result<Option<V>, AllocError>
where
    K: Hash,
    V: Clone,
    S: BuildHasher + SameHashes,
    Q: Query<K>,
    requires { hash ≡ key_hash S.BuildHasher S.Hasher.Hasher Q.hash_input hashes.now query }
    ensures { Gets Q.stands_for V.is_clone shard.old query result shard.new }
{
    match lend(
        shard,
        query,
        hash,
        hashes,
        |value: &mut V, _weight: usize| value.clone(),
    ) {
        Some(Ok(value)) => Ok(Some(value)),
        Some(Err(error)) => Err(error),
        None => Ok(None),
    }
}

// Puts an entry, and lets go what has to go for it.
#[inline(always)]
pub(crate) fn put<K, V, S, F>(
    shard: &mut SegmentedShard<K, V, S>,
    key: K,
    value: V,
    weight: usize,
    hash: u64,
    hashes: &S,
    visit: F,
) -> Result<Option<Entry<K, V>>, Refused<K, V>>
where
    K: Hash + Drop,
    V: Drop,
    S: BuildHasher + SameHashes,
    F: FnMut(Entry<K, V>) + Drop,
    requires hash { hash ≡ key_hash S.BuildHasher S.Hasher.Hasher K.hash_input hashes.now key }
    requires visit { F.IsAlwaysCallable visit }
    ensures { PutsCounted (λ p x q. F.step p x tt q) visit K.eq shard.old key value weight result shard.new }
{
    let own = shard.cache.hash_as(&key, hash, hashes);
    let before = size(&shard.cache);
    match shard.cache.put_hashed(key, value, weight, own, visit) {
        Ok(was) => {
            let after = size(&shard.cache);
            shard.counts.put(before, weight_in(&was), weight, after);
            Ok(was)
        }
        Err(refused) => {
            shard.counts.refuse();
            Err(refused)
        }
    }
}

// Puts what was made for a key that had no entry, unless it has one by now, which is newer: that one stays.
#[inline(always)]
pub(crate) fn put_missing<K, V, S, F>(
    shard: &mut SegmentedShard<K, V, S>,
    key: K,
    value: V,
    weight: usize,
    hash: u64,
    hashes: &S,
    visit: F,
) -> Result<(), Refused<K, V>>
where
    K: Hash + Drop,
    V: Drop,
    S: BuildHasher + SameHashes,
    F: FnMut(Entry<K, V>) + Drop,
    requires hash { hash ≡ key_hash S.BuildHasher S.Hasher.Hasher K.hash_input hashes.now key }
    requires visit { F.IsAlwaysCallable visit }
    ensures { PutsMissing (λ p x q. F.step p x tt q) visit K.eq shard.old key value weight result shard.new }
{
    if contains(shard, &key, hash, hashes) {
        return Ok(());
    }
    match put(shard, key, value, weight, hash, hashes, visit) {
        Ok(_) => Ok(()),
        Err(refused) => Err(refused),
    }
}

// Takes the entry out of what the query stands for.
#[inline(always)]
pub(crate) fn remove<K, V, S, Q>(
    shard: &mut SegmentedShard<K, V, S>,
    query: Q,
    hash: u64,
    hashes: &S,
) -> Option<Entry<K, V>>
where
    K: Hash + Drop,
    V: Drop,
    S: BuildHasher + SameHashes,
    Q: Query<K>,
    requires { hash ≡ key_hash S.BuildHasher S.Hasher.Hasher Q.hash_input hashes.now query }
    ensures { Takes Q.stands_for shard.old query result shard.new }
{
    let own = shard.cache.hash_as(&query, hash, hashes);
    let gone = shard.cache.remove_hashed(query, own)?;
    shard.counts.leave(Why::Removed, 1, gone.weight as u64);
    Some(gone)
}

// Lets all entries go.
pub(crate) fn clear<K, V, S, F>(shard: &mut SegmentedShard<K, V, S>, visit: F)
where
    K: Hash + Drop,
    V: Drop,
    S: BuildHasher,
    F: FnMut(Entry<K, V>) + Drop,
    requires { F.IsAlwaysCallable visit }
    ensures { ClearsShard (λ p x q. F.step p x tt q) visit shard.old shard.new }
{
    let Size { entries, weight } = size(&shard.cache);
    shard.cache.clear(visit);
    shard
        .counts
        .leave(Why::Cleared, entries as u64, weight as u64);
}

// Gives the shard other limits and another share, and lets go what has to go for them.
pub(crate) fn set_limits<K, V, S, F>(
    shard: &mut SegmentedShard<K, V, S>,
    limits: Limits,
    protected: usize,
    visit: F,
)
where
    K: Hash + Drop,
    V: Drop,
    S: BuildHasher,
    F: FnMut(Entry<K, V>) + Drop,
    requires { F.IsAlwaysCallable visit }
    ensures { LimitsShard (λ p x q. F.step p x tt q) visit limits.weight limits.entries protected shard.old shard.new }
{
    let before = size(&shard.cache);
    shard
        .cache
        .set_limits(limits.weight, limits.entries, protected, visit);
    let after = size(&shard.cache);
    shard.counts.leave_from(Why::ForRoom, before, after);
}

// Takes the entry out that is the next to go.
pub(crate) fn pop_last<K, V, S>(shard: &mut SegmentedShard<K, V, S>) -> Option<Entry<K, V>>
where
    K: Hash + Drop,
    V: Drop,
    S: BuildHasher,
    ensures { PopsShard shard.old result shard.new }
{
    let gone = shard.cache.pop_last()?;
    shard.counts.leave(Why::Removed, 1, gone.weight as u64);
    Some(gone)
}

// Calls a closure with the key, the value and the weight of each entry, the upper segment's first.
pub(crate) fn visit_each<K, V, S, F>(shard: &SegmentedShard<K, V, S>, mut visit: F)
where
    K: Hash,
    S: BuildHasher,
    F: FnMut((&K, &V, usize)),
    requires { F.IsAlwaysCallable visit }
    ensures { VisitsEach (λ p x q. F.step p x tt q) visit (entries shard.now.cache) }
{
    let mut rest = shard.cache.iter();
    while let Some(entry) = rest.next() {
        visit(entry);
    }
}
