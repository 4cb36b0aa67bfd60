//! A shard that a call is done to and counted: one whose type says nothing, or one whose type says what holds of its entries.
ghost use Rattle.std.specs.Prelude.{◌≡◌};
ghost use Rattle.lru_index.specs.Hashing.{key_hash};
ghost use Rattle.lru_shared_cache.specs.Counting.{ShardOf, Takes, PopsShard, ClearsShardTo, DrainsShardTo, LimitsShardTo, PutsCounted};
ghost use Rattle.lru_shared_cache.specs.Calls.{Gets, Lends, PutsMissing, RetainsShard};
ghost use Rattle.lru_shared_cache.specs.Relations.{IsRelated};
ghost use Rattle.lru_shared_cache.specs.Related.{KeepsRelation};

use crate::limits::Limits;
use crate::one::Shard;
use lru_index::alike::SameHashes;
use lru_index::keys::Query;
use lru_owned_cache::cache::{Entry, Refused};
use std::alloc::AllocError;
use std::hash::{BuildHasher, Hash};

// A shard, and the relation in which each of its values stands to its key. Each call is told a hash that was made to tell the
// shard.
pub(crate) trait Kept<K: Hash, V, S: BuildHasher> {
    // the entries, and what the calls met
    ghost inside: { Self → ShardOf K V S };

    // the relation, which who puts a value owes
    ghost holds: { K → V → Type 0 };

    // The shard alone.
    fn shard(&self) -> &Shard<K, V, S>
        ensures { result.now ≡ inside self.now };

    // Uses what the query stands for, and lends its value with its weight, which stays.
    fn update<Q, R, F>(&mut self, query: Q, hash: u64, hashes: &S, update: F) -> Option<R>
    where
        S: SameHashes,
        Q: Query<K>,
        F: FnOnce(&mut V, usize) -> R + Drop,
        requires hash { hash ≡ key_hash S.BuildHasher S.Hasher.Hasher Q.hash_input hashes.now query }
        requires update { F.IsAlwaysCallable update }
        requires keeps { KeepsRelation holds (F.post update) }
        ensures { Lends Q.stands_for (F.post update) (inside self.old) query result (inside self.new) };

    // Uses what the query stands for, and answers a clone of its value. Where there is no memory for one, it is used all the same.
    fn get<Q>(&mut self, query: Q, hash: u64, hashes: &S) -> Result<Option<V>, AllocError>
    where
        V: Clone,
        S: SameHashes,
        Q: Query<K>,
        requires { hash ≡ key_hash S.BuildHasher S.Hasher.Hasher Q.hash_input hashes.now query }
        ensures { Gets Q.stands_for V.is_clone (inside self.old) query result (inside self.new) };

    // Puts an entry first, and lets go what has to go for it.
    fn put<F>(
        &mut self,
        key: K,
        value: V,
        weight: usize,
        hash: u64,
        hashes: &S,
        visit: F,
    ) -> Result<Option<Entry<K, V>>, Refused<K, V>>
    where
        K: Drop,
        V: Drop,
        S: SameHashes,
        F: FnMut(Entry<K, V>) + Drop,
        requires hash { hash ≡ key_hash S.BuildHasher S.Hasher.Hasher K.hash_input hashes.now key }
        requires visit { F.IsAlwaysCallable visit }
        requires related { IsRelated holds key value }
        ensures { PutsCounted (λ p x q. F.step p x tt q) visit K.eq (inside self.old) key value weight result (inside self.new) };

    // Puts what was made for a key that had no entry, unless it has one by now, which is newer: that one stays.
    fn put_missing<F>(
        &mut self,
        key: K,
        value: V,
        weight: usize,
        hash: u64,
        hashes: &S,
        visit: F,
    ) -> Result<(), Refused<K, V>>
    where
        K: Drop,
        V: Drop,
        S: SameHashes,
        F: FnMut(Entry<K, V>) + Drop,
        requires hash { hash ≡ key_hash S.BuildHasher S.Hasher.Hasher K.hash_input hashes.now key }
        requires visit { F.IsAlwaysCallable visit }
        requires related { IsRelated holds key value }
        ensures { PutsMissing K.eq (λ p x q. F.step p x tt q) visit (inside self.old) key value weight result (inside self.new) };

    // Takes the entry out of what the query stands for.
    fn remove<Q>(&mut self, query: Q, hash: u64, hashes: &S) -> Option<Entry<K, V>>
    where
        K: Drop,
        V: Drop,
        S: SameHashes,
        Q: Query<K>,
        requires { hash ≡ key_hash S.BuildHasher S.Hasher.Hasher Q.hash_input hashes.now query }
        ensures { Takes Q.stands_for (inside self.old) query result (inside self.new) };

    // Lets all entries go, and answers the closure as they leave it.
    fn clear<F>(&mut self, visit: F) -> F
    where
        K: Drop,
        V: Drop,
        F: FnMut(Entry<K, V>) + Drop,
        requires { F.IsAlwaysCallable visit }
        ensures clears { ClearsShardTo (λ p x q. F.step p x tt q) visit (inside self.old) result (inside self.new) }
        ensures again { F.IsAlwaysCallable result };

    // The same, the first first.
    fn drain<F>(&mut self, visit: F) -> F
    where
        K: Drop,
        V: Drop,
        F: FnMut(Entry<K, V>) + Drop,
        requires { F.IsAlwaysCallable visit }
        ensures drains { DrainsShardTo (λ p x q. F.step p x tt q) visit (inside self.old) result (inside self.new) }
        ensures again { F.IsAlwaysCallable result };

    // Gives the shard other limits, lets go what has to go for them, and answers the closure as that leaves it.
    fn set_limits<F>(&mut self, limits: Limits, visit: F) -> F
    where
        K: Drop,
        V: Drop,
        F: FnMut(Entry<K, V>) + Drop,
        requires { F.IsAlwaysCallable visit }
        ensures limits { LimitsShardTo (λ p x q. F.step p x tt q) visit limits.weight limits.entries (inside self.old) result (inside self.new) }
        ensures again { F.IsAlwaysCallable result };

    // Takes the last entry out.
    fn pop_last(&mut self) -> Option<Entry<K, V>>
    where
        K: Drop,
        V: Drop,
        ensures { PopsShard (inside self.old) result (inside self.new) };

    // Lets those entries go for which a test answers false.
    fn retain<F>(&mut self, keep: F)
    where
        K: Drop,
        V: Drop,
        F: FnMut(&K, &V, usize) -> bool + Drop,
        requires { F.IsAlwaysCallable keep }
        ensures { RetainsShard (λ p k v w b q. F.step p k v w b q) keep (inside self.old) (inside self.new) };
}
