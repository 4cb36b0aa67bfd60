//! What is done to one shard and counted, by a hash that was made to tell the shard.
ghost use Rattle.std.specs.Prelude.{◌≡◌, is_some};
ghost use Rattle.lru_index.specs.Hashing.{key_hash};
ghost use Rattle.lru_owned_cache.specs.Cache.{entry_of};
ghost use Rattle.lru_shared_cache.specs.Calls.{ShowsEntry, VisitsEachTo};
ghost use Rattle.lru_shared_cache.specs.Counting.{size_of};

use crate::counts::{Counted, Size, Why, weight_in};
use crate::kept::Kept;
use crate::leaving::{clear, drain, set_limits};
use crate::limits::Limits;
use lru_index::alike::SameHashes;
use lru_index::keys::Query;
use lru_owned_cache::cache::{Cache, Entry, Refused};
use std::alloc::AllocError;
use std::hash::{BuildHasher, Hash};

// A shard: its entries, and what its calls met.
pub(crate) type Shard<K, V, S> = Counted<Cache<K, V, S>>;

// How many entries there are, and what they weigh together.
#[inline(always)]
fn size<K: Hash, V, S: BuildHasher>(cache: &Cache<K, V, S>) -> Size
    ensures { result ≡ size_of cache.now }
{
    Size {
        entries: cache.len(),
        weight: cache.weight(),
    }
}

// Whether what the query stands for has an entry.
#[inline(always)]
pub(crate) fn contains<K: Hash, V, S: BuildHasher + SameHashes, Q: Query<K>>(
    shard: &Shard<K, V, S>,
    query: Q,
    hash: u64,
    hashes: &S,
) -> bool
    requires { hash ≡ key_hash S.BuildHasher S.Hasher.Hasher Q.hash_input hashes.now query }
    ensures { result ≡ is_some (entry_of Q.stands_for shard.now.cache.entries query) }
{
    let own = shard.cache.hash_as(&query, hash, hashes);
    shard.cache.contains_hashed(query, own)
}

// Shows the value of what the query stands for, which is not used by that.
#[inline(always)]
pub(crate) fn peek<K, V, S, Q, R, F>(
    shard: &Shard<K, V, S>,
    query: Q,
    hash: u64,
    hashes: &S,
    show: F,
) -> Option<R>
where
    K: Hash,
    S: BuildHasher + SameHashes,
    Q: Query<K>,
    F: FnOnce(&V) -> R,
    requires hash { hash ≡ key_hash S.BuildHasher S.Hasher.Hasher Q.hash_input hashes.now query }
    requires show { F.IsAlwaysCallable show }
    ensures { ShowsEntry Q.stands_for (F.post show) shard.now.cache.entries query result }
{
    let own = shard.cache.hash_as(&query, hash, hashes);
    let value = shard.cache.peek_hashed(query, own)?;
    Some(show(value))
}

// Calls a closure with the key, the value and the weight of each entry, most recent first, and answers it as that leaves it.
pub(crate) fn visit_each<K, V, S, F>(shard: &Shard<K, V, S>, mut visit: F) -> F
where
    K: Hash,
    S: BuildHasher,
    F: FnMut((&K, &V, usize)),
    requires { F.IsAlwaysCallable visit }
    ensures visits { VisitsEachTo (λ p x q. F.step p x tt q) visit shard.now.cache.entries result }
    ensures again { F.IsAlwaysCallable result }
{
    let mut rest = shard.cache.iter();
    while let Some(entry) = rest.next() {
        visit(entry);
    }
    visit
}

// It asks no relation of anybody.
impl<K: Hash, V, S: BuildHasher> Kept<K, V, S> for Counted<Cache<K, V, S>> {
    ghost inside = { λ shard. shard };

    ghost holds = { λ key value. Unit {0} };

    #[inline(always)]
    fn shard(&self) -> &Shard<K, V, S> {
        self
    }

    #[inline(always)]
    fn update<Q, R, F>(&mut self, query: Q, hash: u64, hashes: &S, update: F) -> Option<R>
    where
        S: SameHashes,
        Q: Query<K>,
        F: FnOnce(&mut V, usize) -> R + Drop,
    {
        let own = self.cache.hash_as(&query, hash, hashes);
        let answer = self.cache.update_hashed(query, own, update);
        self.counts.look(answer.is_some());
        answer
    }

    #[inline(always)]
    fn get<Q>(&mut self, query: Q, hash: u64, hashes: &S) -> Result<Option<V>, AllocError>
    where
        V: Clone,
        S: SameHashes,
        Q: Query<K>,
    {
        // Read for the proof alone, which learns from it what the type says of itself.
        let _len = self.cache.len();
        match self.update(
            query,
            hash,
            hashes,
            |value: &mut V, _weight: usize| value.clone(),
        ) {
            Some(cloned) => Ok(Some(cloned?)),
            None => Ok(None),
        }
    }

    #[inline(always)]
    fn put<F>(
        &mut self,
        key: K,
        value: V,
        weight: usize,
        hash: u64,
        hashes: &S,
        visit: F,
    ) -> Result<Option<Entry<K, V>>, Refused<K, V>>
    where
        K: Drop,
        V: Drop,
        S: SameHashes,
        F: FnMut(Entry<K, V>) + Drop,
    {
        let own = self.cache.hash_as(&key, hash, hashes);
        let before = size(&self.cache);
        match self.cache.put_hashed(key, value, weight, own, visit) {
            Ok(was) => {
                let after = size(&self.cache);
                self.counts.put(before, weight_in(&was), weight, after);
                Ok(was)
            }
            Err(refused) => {
                self.counts.refuse();
                Err(refused)
            }
        }
    }

    #[inline(always)]
    fn put_missing<F>(
        &mut self,
        key: K,
        value: V,
        weight: usize,
        hash: u64,
        hashes: &S,
        visit: F,
    ) -> Result<(), Refused<K, V>>
    where
        K: Drop,
        V: Drop,
        S: SameHashes,
        F: FnMut(Entry<K, V>) + Drop,
    {
        if contains(self, &key, hash, hashes) {
            return Ok(());
        }
        match self.put(key, value, weight, hash, hashes, visit) {
            Ok(_) => Ok(()),
            Err(refused) => Err(refused),
        }
    }

    #[inline(always)]
    fn remove<Q>(&mut self, query: Q, hash: u64, hashes: &S) -> Option<Entry<K, V>>
    where
        K: Drop,
        V: Drop,
        S: SameHashes,
        Q: Query<K>,
    {
        let own = self.cache.hash_as(&query, hash, hashes);
        let gone = self.cache.remove_hashed(query, own)?;
        self.counts.leave(Why::Removed, 1, gone.weight as u64);
        Some(gone)
    }

    fn clear<F>(&mut self, visit: F) -> F
    where
        K: Drop,
        V: Drop,
        F: FnMut(Entry<K, V>) + Drop,
    {
        let Size { entries, weight } = size(&self.cache);
        let visit = clear(&mut self.cache, visit);
        self.counts
            .leave(Why::Cleared, entries as u64, weight as u64);
        visit
    }

    fn drain<F>(&mut self, visit: F) -> F
    where
        K: Drop,
        V: Drop,
        F: FnMut(Entry<K, V>) + Drop,
    {
        let Size { entries, weight } = size(&self.cache);
        let visit = drain(&mut self.cache, visit);
        self.counts
            .leave(Why::Cleared, entries as u64, weight as u64);
        visit
    }

    fn set_limits<F>(&mut self, limits: Limits, visit: F) -> F
    where
        K: Drop,
        V: Drop,
        F: FnMut(Entry<K, V>) + Drop,
    {
        let before = size(&self.cache);
        let visit = set_limits(&mut self.cache, limits.weight, limits.entries, visit);
        let after = size(&self.cache);
        self.counts.leave_from(Why::ForRoom, before, after);
        visit
    }

    fn pop_last(&mut self) -> Option<Entry<K, V>>
    where
        K: Drop,
        V: Drop,
    {
        let gone = self.cache.pop_last()?;
        self.counts.leave(Why::Removed, 1, gone.weight as u64);
        Some(gone)
    }

    fn retain<F>(&mut self, keep: F)
    where
        K: Drop,
        V: Drop,
        F: FnMut(&K, &V, usize) -> bool + Drop,
    {
        let before = size(&self.cache);
        self.cache.retain(keep);
        let after = size(&self.cache);
        self.counts.leave_from(Why::Removed, before, after);
    }
}
