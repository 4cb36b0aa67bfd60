//! A shard whose type says that each of its values stands in a relation to its key.
ghost use Rattle.std.specs.Prelude.{◌≡◌, []};
ghost use Rattle.lru_shared_cache.specs.Relations.{AreRelated};

use crate::kept::Kept;
use crate::limits::Limits;
use crate::one::Shard;
use crate::relations::Relation;
use lru_index::alike::SameHashes;
use lru_index::keys::Query;
use lru_owned_cache::cache::{Entry, Refused};
use std::alloc::AllocError;
use std::hash::{BuildHasher, Hash};
use std::marker::PhantomData;

// A shard, and the relation of its values to their keys, which takes no room.
#[derive(Drop)]
pub(crate) struct RelatedShard<K: Hash, V, S: BuildHasher, Rel: Relation<K, V>> {
    shard: Shard<K, V, S>,
    relation: PhantomData<Rel>,
    ghost related: { AreRelated Rel.holds shard.cache.entries },
}

impl<K: Hash, V, S: BuildHasher, Rel: Relation<K, V>> RelatedShard<K, V, S, Rel> {
    // A shard of no entries.
    pub(crate) fn new(shard: Shard<K, V, S>) -> Self
        requires { shard.cache.entries ≡ [] }
        ensures { result.shard ≡ shard }
    {
        RelatedShard {
            shard,
            relation: PhantomData,
        }
    }
}

// Each call keeps the relation.
impl<K: Hash, V, S: BuildHasher, Rel: Relation<K, V>> Kept<K, V, S> for RelatedShard<K, V, S, Rel> {
    ghost inside = { λ related. related.shard };

    ghost holds = { Rel.holds };

    #[inline(always)]
    fn shard(&self) -> &Shard<K, V, S> {
        &self.shard
    }

    #[inline(always)]
    fn update<Q, R, F>(&mut self, query: Q, hash: u64, hashes: &S, update: F) -> Option<R>
    where
        S: SameHashes,
        Q: Query<K>,
        F: FnOnce(&mut V, usize) -> R + Drop,
    {
        self.shard.update(query, hash, hashes, update)
    }

    #[inline(always)]
    fn get<Q>(&mut self, query: Q, hash: u64, hashes: &S) -> Result<Option<V>, AllocError>
    where
        V: Clone,
        S: SameHashes,
        Q: Query<K>,
    {
        self.shard.get(query, hash, hashes)
    }

    #[inline(always)]
    fn put<F>(
        &mut self,
        key: K,
        value: V,
        weight: usize,
        hash: u64,
        hashes: &S,
        visit: F,
    ) -> Result<Option<Entry<K, V>>, Refused<K, V>>
    where
        K: Drop,
        V: Drop,
        S: SameHashes,
        F: FnMut(Entry<K, V>) + Drop,
    {
        self.shard.put(key, value, weight, hash, hashes, visit)
    }

    #[inline(always)]
    fn put_missing<F>(
        &mut self,
        key: K,
        value: V,
        weight: usize,
        hash: u64,
        hashes: &S,
        visit: F,
    ) -> Result<(), Refused<K, V>>
    where
        K: Drop,
        V: Drop,
        S: SameHashes,
        F: FnMut(Entry<K, V>) + Drop,
    {
        self.shard
            .put_missing(key, value, weight, hash, hashes, visit)
    }

    #[inline(always)]
    fn remove<Q>(&mut self, query: Q, hash: u64, hashes: &S) -> Option<Entry<K, V>>
    where
        K: Drop,
        V: Drop,
        S: SameHashes,
        Q: Query<K>,
    {
        self.shard.remove(query, hash, hashes)
    }

    #[inline(always)]
    fn clear<F>(&mut self, visit: F) -> F
    where
        K: Drop,
        V: Drop,
        F: FnMut(Entry<K, V>) + Drop,
    {
        self.shard.clear(visit)
    }

    #[inline(always)]
    fn drain<F>(&mut self, visit: F) -> F
    where
        K: Drop,
        V: Drop,
        F: FnMut(Entry<K, V>) + Drop,
    {
        self.shard.drain(visit)
    }

    #[inline(always)]
    fn set_limits<F>(&mut self, limits: Limits, visit: F) -> F
    where
        K: Drop,
        V: Drop,
        F: FnMut(Entry<K, V>) + Drop,
    {
        self.shard.set_limits(limits, visit)
    }

    #[inline(always)]
    fn pop_last(&mut self) -> Option<Entry<K, V>>
    where
        K: Drop,
        V: Drop,
    {
        self.shard.pop_last()
    }

    #[inline(always)]
    fn retain<F>(&mut self, keep: F)
    where
        K: Drop,
        V: Drop,
        F: FnMut(&K, &V, usize) -> bool + Drop,
    {
        self.shard.retain(keep);
    }
}
