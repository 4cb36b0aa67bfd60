//! What is done to one shard, by a hash that was made to tell the shard.
ghost use Rattle.std.specs.Prelude.{◌≡◌, is_some};
ghost use Rattle.lru_index.specs.Hashing.{key_hash};
ghost use Rattle.lru_rows.specs.Rows.{Updates};
ghost use Rattle.lru_deadlines.specs.Deadlines.{living};
ghost use Rattle.lru_shared_deadlines.specs.Ages.{kept_until};
ghost use Rattle.lru_shared_deadlines.specs.Calls.{ShowsLiving, Lends, Gets, SweepsShard, MakesShardRoom, Places, PutsIn, PutsMissing, VisitsEach};
ghost use Rattle.lru_shared_cache.specs.Calls.{RetainsShard};
ghost use Rattle.lru_shared_cache.specs.Counting.{size_of, Takes, PopsShard, ClearsShard, DrainsShard, LimitsShard, PutsCounted};

use crate::ages::{Aged, Gone, Moment};
use lru_deadlines::deadlines::{DeadlineCache, Until};
use lru_index::alike::SameHashes;
use lru_index::keys::Query;
use lru_owned_cache::cache::Refused;
use lru_shared_cache::counts::{Counted, Size, Why, weight_in};
use lru_shared_cache::limits::Limits;
use std::alloc::AllocError;
use std::hash::{BuildHasher, Hash};

// A shard: its entries, and what its calls met.
pub(crate) type DeadlineShard<K, V, S> = Counted<DeadlineCache<K, Aged<V>, S>>;

// How many entries there are, and what they weigh together, with those that are past.
#[inline(always)]
fn size<K: Hash, V, S: BuildHasher>(cache: &DeadlineCache<K, Aged<V>, S>) -> Size
    ensures { result ≡ size_of cache.now }
{
    Size {
        entries: cache.len(),
        weight: cache.weight(),
    }
}

// Whether what the query stands for has an entry in its time.
#[inline(always)]
pub(crate) fn contains<K: Hash, V, S: BuildHasher + SameHashes, Q: Query<K>>(
    shard: &DeadlineShard<K, V, S>,
    time: u64,
    query: Q,
    hash: u64,
    hashes: &S,
) -> bool
    requires { hash ≡ key_hash S.BuildHasher S.Hasher.Hasher Q.hash_input hashes.now query }
    ensures { result ≡ is_some (living Q.stands_for time shard.now.cache.entries query) }
{
    let own = shard.cache.hash_as(&query, hash, hashes);
    shard.cache.contains_hashed(time, query, own)
}

// Shows the value of what the query stands for, which is not used by that.
#[inline(always)]
pub(crate) fn peek<K, V, S, Q, R, F>(
    shard: &DeadlineShard<K, V, S>,
    time: u64,
    query: Q,
    hash: u64,
    hashes: &S,
    show: F,
) -> Option<R>
where
    K: Hash,
    S: BuildHasher + SameHashes,
    Q: Query<K>,
    F: FnOnce(&V) -> R,
    requires hash { hash ≡ key_hash S.BuildHasher S.Hasher.Hasher Q.hash_input hashes.now query }
    requires show { F.IsAlwaysCallable show }
    ensures { ShowsLiving Q.stands_for (F.post show) time shard.now.cache.entries query result }
{
    let own = shard.cache.hash_as(&query, hash, hashes);
    let aged = shard.cache.peek_hashed(time, query, own)?;
    Some(show(&aged.value))
}

// Lends a value that is used at a time, with its weight, and moves its deadline.
fn use_at<V, R, F>(until: &mut Until<Aged<V>>, weight: usize, moment: Moment, show: F) -> R
where
    F: FnOnce(&mut V, usize) -> R + Drop,
    requires { F.IsAlwaysCallable show }
    ensures value { Updates (F.post show) until.old.value.value weight result until.new.value.value }
    ensures ends { until.new ≡ kept_until moment until.new.value.value until.old.value.ends }
{
    until.deadline = moment.deadline(until.value.ends);
    let aged = &mut until.value;
    show(&mut aged.value, weight)
}

// Uses what the query stands for, and lends its value with its weight, which stays.
#[inline(always)]
pub(crate) fn lend<K, V, S, Q, R, F>(
    shard: &mut DeadlineShard<K, V, S>,
    moment: Moment,
    query: Q,
    hash: u64,
    hashes: &S,
    show: F,
) -> Option<R>
where
    K: Hash,
    S: BuildHasher + SameHashes,
    Q: Query<K>,
    F: FnOnce(&mut V, usize) -> R + Drop,
    requires hash { hash ≡ key_hash S.BuildHasher S.Hasher.Hasher Q.hash_input hashes.now query }
    requires show { F.IsAlwaysCallable show }
    ensures { Lends Q.stands_for (F.post show) moment shard.old query result shard.new }
{
    let own = shard.cache.hash_as(&query, hash, hashes);
    let answer = shard.cache.update_hashed(
        moment.time,
        query,
        own,
        |until: &mut Until<Aged<V>>, weight: usize|
            requires { F.IsAlwaysCallable show }
            ensures { Updates (F.post show) until.old.value.value weight result until.new.value.value × (until.new ≡ kept_until moment until.new.value.value until.old.value.ends) }
        { use_at(until, weight, moment, show) },
    );
    shard.counts.look(answer.is_some());
    answer
}

// Uses what the query stands for, and answers a clone of its value. Where there is no memory for one, it is used all the same.
#[inline(always)]
pub(crate) fn get<K, V, S, Q>(
    shard: &mut DeadlineShard<K, V, S>,
    moment: Moment,
    query: Q,
    hash: u64,
    hashes: &S,
) -> Result<Option<V>, AllocError>
where
    K: Hash,
    V: Clone,
    S: BuildHasher + SameHashes,
    Q: Query<K>,
    requires { hash ≡ key_hash S.BuildHasher S.Hasher.Hasher Q.hash_input hashes.now query }
    ensures { Gets Q.stands_for V.is_clone moment shard.old query result shard.new }
{
    match lend(
        shard,
        moment,
        query,
        hash,
        hashes,
        |value: &mut V, _weight: usize| value.clone(),
    ) {
        Some(Ok(value)) => Ok(Some(value)),
        Some(Err(error)) => Err(error),
        None => Ok(None),
    }
}

// Takes out what is past of the last entries, where an entry of this weight has no room.
fn make_room<K, V, S, F>(shard: &mut DeadlineShard<K, V, S>, time: u64, weight: usize, visit: F)
where
    K: Hash + Drop,
    V: Drop,
    S: BuildHasher,
    F: FnMut(Gone<K, V>) + Drop,
    requires { F.IsAlwaysCallable visit }
    ensures { MakesShardRoom (λ p x q. F.step p x tt q) visit time weight shard.old shard.new }
{
    let before = size(&shard.cache);
    shard.cache.make_room(time, weight, visit);
    let after = size(&shard.cache);
    shard.counts.leave_from(Why::Past, before, after);
}

// Puts an entry first, and lets go what has to go for it then.
fn place<K, V, S, F>(
    shard: &mut DeadlineShard<K, V, S>,
    moment: Moment,
    key: K,
    value: V,
    weight: usize,
    own: u64,
    visit: F,
) -> Result<Option<Gone<K, V>>, Refused<K, V>>
where
    K: Hash + Drop,
    V: Drop,
    S: BuildHasher,
    F: FnMut(Gone<K, V>) + Drop,
    requires hash { own ≡ key_hash S.BuildHasher S.Hasher.Hasher K.hash_input shard.old.cache.hashes key }
    requires visit { F.IsAlwaysCallable visit }
    ensures { Places (λ p x q. F.step p x tt q) visit K.eq moment shard.old key value weight result shard.new }
{
    let before = size(&shard.cache);
    let until = moment.begin(value);
    match shard.cache.put_hashed(key, until, weight, own, visit) {
        Ok(was) => {
            let after = size(&shard.cache);
            shard.counts.put(before, weight_in(&was), weight, after);
            Ok(was)
        }
        Err(refused) => {
            shard.counts.refuse();
            Err(Refused {
                cause: refused.cause,
                key: refused.key,
                value: refused.value.value.value,
            })
        }
    }
}

// Puts an entry first. What has to go for it goes: first what is past, as far as it is looked for.
#[inline(always)]
pub(crate) fn put<K, V, S, F>(
    shard: &mut DeadlineShard<K, V, S>,
    moment: Moment,
    key: K,
    value: V,
    weight: usize,
    hash: u64,
    hashes: &S,
    mut visit: F,
) -> Result<Option<Gone<K, V>>, Refused<K, V>>
where
    K: Hash + Drop,
    V: Drop,
    S: BuildHasher + SameHashes,
    F: FnMut(Gone<K, V>) + Drop,
    requires hash { hash ≡ key_hash S.BuildHasher S.Hasher.Hasher K.hash_input hashes.now key }
    requires visit { (f : _) (x : _) → F.pre f x }
    ensures { PutsIn (λ p x q. F.step p x tt q) visit K.eq moment shard.old key value weight result shard.new }
{
    make_room(shard, moment.time, weight, |gone: Gone<K, V>| visit(gone));
    let own = shard.cache.hash_as(&key, hash, hashes);
    place(shard, moment, key, value, weight, own, visit)
}

// Puts what was made for a key that had no entry, unless it has one by now, which is newer: that one stays.
#[inline(always)]
pub(crate) fn put_missing<K, V, S, F>(
    shard: &mut DeadlineShard<K, V, S>,
    moment: Moment,
    key: K,
    value: V,
    weight: usize,
    hash: u64,
    hashes: &S,
    mut visit: F,
) -> Result<(), Refused<K, V>>
where
    K: Hash + Drop,
    V: Drop,
    S: BuildHasher + SameHashes,
    F: FnMut(Gone<K, V>) + Drop,
    requires hash { hash ≡ key_hash S.BuildHasher S.Hasher.Hasher K.hash_input hashes.now key }
    requires visit { (f : _) (x : _) → F.pre f x }
    ensures { PutsMissing (λ p x q. F.step p x tt q) visit K.eq moment shard.old key value weight result shard.new }
{
    if contains(shard, moment.time, &key, hash, hashes) {
        return Ok(());
    }
    let told = put(
        shard,
        moment,
        key,
        value,
        weight,
        hash,
        hashes,
        |gone: Gone<K, V>| visit(gone),
    );
    match told {
        Ok(Some(past)) => {
            visit(past);
            Ok(())
        }
        Ok(None) => Ok(()),
        Err(refused) => Err(refused),
    }
}

// Takes the entry out of what the query stands for.
#[inline(always)]
pub(crate) fn remove<K, V, S, Q>(
    shard: &mut DeadlineShard<K, V, S>,
    query: Q,
    hash: u64,
    hashes: &S,
) -> Option<Gone<K, V>>
where
    K: Hash + Drop,
    V: Drop,
    S: BuildHasher + SameHashes,
    Q: Query<K>,
    requires { hash ≡ key_hash S.BuildHasher S.Hasher.Hasher Q.hash_input hashes.now query }
    ensures { Takes Q.stands_for shard.old query result shard.new }
{
    let own = shard.cache.hash_as(&query, hash, hashes);
    let gone = shard.cache.remove_hashed(query, own)?;
    shard.counts.leave(Why::Removed, 1, gone.weight as u64);
    Some(gone)
}

// Looks at so many of the entries that were used longest ago, and takes those out that are past their deadline.
pub(crate) fn sweep<K, V, S, F>(
    shard: &mut DeadlineShard<K, V, S>,
    time: u64,
    most: usize,
    visit: F,
)
where
    K: Hash + Drop,
    V: Drop,
    S: BuildHasher,
    F: FnMut(Gone<K, V>) + Drop,
    requires { F.IsAlwaysCallable visit }
    ensures { SweepsShard (λ p x q. F.step p x tt q) visit time most shard.old shard.new }
{
    let before = size(&shard.cache);
    shard.cache.sweep(time, most, visit);
    let after = size(&shard.cache);
    shard.counts.leave_from(Why::Past, before, after);
}

// Lets all entries go.
pub(crate) fn clear<K, V, S, F>(shard: &mut DeadlineShard<K, V, S>, visit: F)
where
    K: Hash + Drop,
    V: Drop,
    S: BuildHasher,
    F: FnMut(Gone<K, V>) + Drop,
    requires { F.IsAlwaysCallable visit }
    ensures { ClearsShard (λ p x q. F.step p x tt q) visit shard.old shard.new }
{
    let Size { entries, weight } = size(&shard.cache);
    shard.cache.clear(visit);
    shard
        .counts
        .leave(Why::Cleared, entries as u64, weight as u64);
}

// Puts an entry first as it stood, with its end and its deadline, and lets go what has to go for it.
#[inline(always)]
pub(crate) fn put_back<K, V, S, F>(
    shard: &mut DeadlineShard<K, V, S>,
    key: K,
    until: Until<Aged<V>>,
    weight: usize,
    hash: u64,
    hashes: &S,
    visit: F,
) -> Result<Option<Gone<K, V>>, Refused<K, Until<Aged<V>>>>
where
    K: Hash + Drop,
    V: Drop,
    S: BuildHasher + SameHashes,
    F: FnMut(Gone<K, V>) + Drop,
    requires hash { hash ≡ key_hash S.BuildHasher S.Hasher.Hasher K.hash_input hashes.now key }
    requires visit { F.IsAlwaysCallable visit }
    ensures { PutsCounted (λ p x q. F.step p x tt q) visit K.eq shard.old key until weight result shard.new }
{
    let own = shard.cache.hash_as(&key, hash, hashes);
    let before = size(&shard.cache);
    match shard.cache.put_hashed(key, until, weight, own, visit) {
        Ok(was) => {
            let after = size(&shard.cache);
            shard.counts.put(before, weight_in(&was), weight, after);
            Ok(was)
        }
        Err(refused) => {
            shard.counts.refuse();
            Err(refused)
        }
    }
}

// Lets all entries go, the first first.
pub(crate) fn drain<K, V, S, F>(shard: &mut DeadlineShard<K, V, S>, visit: F)
where
    K: Hash + Drop,
    V: Drop,
    S: BuildHasher,
    F: FnMut(Gone<K, V>) + Drop,
    requires { F.IsAlwaysCallable visit }
    ensures { DrainsShard (λ p x q. F.step p x tt q) visit shard.old shard.new }
{
    let Size { entries, weight } = size(&shard.cache);
    shard.cache.drain(visit);
    shard
        .counts
        .leave(Why::Cleared, entries as u64, weight as u64);
}

// Gives the shard other limits, and lets go what has to go for them.
pub(crate) fn set_limits<K, V, S, F>(shard: &mut DeadlineShard<K, V, S>, limits: Limits, visit: F)
where
    K: Hash + Drop,
    V: Drop,
    S: BuildHasher,
    F: FnMut(Gone<K, V>) + Drop,
    requires { F.IsAlwaysCallable visit }
    ensures { LimitsShard (λ p x q. F.step p x tt q) visit limits.weight limits.entries shard.old shard.new }
{
    let before = size(&shard.cache);
    shard.cache.set_limits(limits.weight, limits.entries, visit);
    let after = size(&shard.cache);
    shard.counts.leave_from(Why::ForRoom, before, after);
}

// Takes the last entry out.
pub(crate) fn pop_last<K, V, S>(shard: &mut DeadlineShard<K, V, S>) -> Option<Gone<K, V>>
where
    K: Hash + Drop,
    V: Drop,
    S: BuildHasher,
    ensures { PopsShard shard.old result shard.new }
{
    let gone = shard.cache.pop_last()?;
    shard.counts.leave(Why::Removed, 1, gone.weight as u64);
    Some(gone)
}

// Lets those entries go for which a test answers false.
pub(crate) fn retain<K, V, S, F>(shard: &mut DeadlineShard<K, V, S>, keep: F)
where
    K: Hash + Drop,
    V: Drop,
    S: BuildHasher,
    F: FnMut(&K, &Until<Aged<V>>, usize) -> bool + Drop,
    requires { F.IsAlwaysCallable keep }
    ensures { RetainsShard (λ p k v w b q. F.step p k v w b q) keep shard.old shard.new }
{
    let before = size(&shard.cache);
    shard.cache.retain(keep);
    let after = size(&shard.cache);
    shard.counts.leave_from(Why::Removed, before, after);
}

// Calls a closure with the key, the value with its deadline, and the weight of each entry, most recent first.
pub(crate) fn visit_each<K, V, S, F>(shard: &DeadlineShard<K, V, S>, mut visit: F)
where
    K: Hash,
    S: BuildHasher,
    F: FnMut((&K, &Until<Aged<V>>, usize)),
    requires { F.IsAlwaysCallable visit }
    ensures { VisitsEach (λ p x q. F.step p x tt q) visit shard.now.cache.entries }
{
    let mut rest = shard.cache.iter();
    while let Some(entry) = rest.next() {
        visit(entry);
    }
}
