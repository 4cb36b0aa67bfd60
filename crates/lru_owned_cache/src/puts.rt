//! What puts entries into a cache, and what changes weights and limits. What has to go for it goes from the end.
ghost use Rattle.std.specs.Prelude.{◌≡◌, ◌+◌, ◌<◌, ◌≤◌, None, length, IfOk};
ghost use Rattle.lru_index.specs.Hashing.{key_hash};
ghost use Rattle.lru_rows.specs.Rows.{most_rows};
ghost use Rattle.lru_owned_cache.specs.Cache.{used, cause_of, Puts, PutsWeighed, Limits, Reweighs, Settles, UsesOrPuts};
ghost use Rattle.lru_owned_cache.specs.Entries.{entry};

use crate::cache::{Cache, Cause, NotPut, Refused, cause_of};
use crate::entry::Entry;
use crate::shrinking::shrink;
use std::alloc::AllocError;
use std::hash::{BuildHasher, Hash};

impl<K: Hash + Drop, V: Drop, S: BuildHasher> Cache<K, V, S> {
    /// Puts an entry first, in place of its key's, and answers that one. Then the entries that were used longest ago go,
    /// as many as have to for the others to be within the limits, and each is handed to `visit`.
    ///
    /// # Errors
    ///
    /// The entry is too heavy by itself, or there is no place for it, because memory is refused or there are as many
    /// entries as there can be. Key and value are handed back, and nothing changes. A key that has an entry is refused
    /// only where it is too heavy, and so is one for which another entry goes.
    pub fn put<F: FnMut(Entry<K, V>) + Drop>(
        &mut self,
        key: K,
        value: V,
        weight: usize,
        visit: F,
    ) -> Result<Option<Entry<K, V>>, Refused<K, V>>
        requires { F.IsAlwaysCallable visit }
        ensures { Puts K.eq (λ p x q. F.step p x tt q) visit self.old key value weight result self.new }
    {
        let hash = self.hash_of(&key);
        self.put_hashed(key, value, weight, hash, visit)
    }

    /// `put`, where the key's hash is known.
    ///
    /// # Errors
    ///
    /// As for `put`.
    pub fn put_hashed<F: FnMut(Entry<K, V>) + Drop>(
        &mut self,
        key: K,
        value: V,
        weight: usize,
        hash: u64,
        visit: F,
    ) -> Result<Option<Entry<K, V>>, Refused<K, V>>
        requires hash { hash ≡ key_hash S.BuildHasher S.Hasher.Hasher K.hash_input self.old.hashes key }
        requires visit { F.IsAlwaysCallable visit }
        ensures { Puts K.eq (λ p x q. F.step p x tt q) visit self.old key value weight result self.new }
    {
        if weight > self.most_weight || self.most_entries == 0 {
            return Err(Refused::new(Cause::TooHeavy, key, value));
        }
        if let Some(place) = self.rows.find_hashed(&key, hash) {
            self.rows.promote(place);
            let was = self.rows.exchange(place, key, value);
            self.settle(weight, visit);
            return Ok(Some(Entry {
                key: was.key,
                value: was.value,
                weight: was.weight,
            }));
        }
        // Where something goes, its place is free then: only where nothing has to go may a place be refused.
        let (most_weight, most_entries) = (self.most_weight - weight, self.most_entries - 1);
        self.weight = shrink(
            &mut self.rows,
            self.weight,
            most_weight,
            most_entries,
            visit,
        );
        match self.rows.push_first_hashed(key, value, weight, hash) {
            Ok(_) => {
                self.weight += weight;
                Ok(None)
            }
            Err(back) => Err(Refused::new(cause_of(back.cause), back.key, back.value)),
        }
    }

    /// Puts an entry whose weight `weigh` tells by its key and its value, as `put` does.
    ///
    /// # Errors
    ///
    /// As for `put`.
    pub fn put_weighed<W, F>(
        &mut self,
        key: K,
        value: V,
        weigh: W,
        visit: F,
    ) -> Result<Option<Entry<K, V>>, Refused<K, V>>
    where
        W: FnOnce(&K, &V) -> usize + Drop,
        F: FnMut(Entry<K, V>) + Drop,
        requires weigh { W.IsAlwaysCallable weigh }
        requires visit { F.IsAlwaysCallable visit }
        ensures { PutsWeighed K.eq (W.post weigh) (λ p x q. F.step p x tt q) visit self.old key value result self.new }
    {
        let weight = weigh(&key, &value);
        self.put(key, value, weight, visit)
    }

    /// Uses a key, lends its value to `change` with its weight, and gives it the weight that `change` answers. Then the
    /// entries that were used longest ago go, as many as have to for the others to be within the limits, and each is
    /// handed to `visit`. It answers whether the key has an entry. Where it has none, nothing is called.
    ///
    /// # Errors
    ///
    /// The entry is too heavy by itself then. It goes, and is handed back as it is then; no other goes.
    pub fn reweigh<U, F>(&mut self, key: &K, change: U, visit: F) -> Result<bool, Entry<K, V>>
    where
        U: FnOnce(&mut V, usize) -> usize + Drop,
        F: FnMut(Entry<K, V>) + Drop,
        requires change { U.IsAlwaysCallable change }
        requires visit { F.IsAlwaysCallable visit }
        ensures { Reweighs K.eq (U.post change) (λ p x q. F.step p x tt q) visit self.old key.now result self.new }
    {
        let Some(place) = self.rows.find(key) else {
            return Ok(false);
        };
        self.rows.promote(place);
        let weight = self.rows.update(place, change);
        if weight > self.most_weight {
            let Some(entry) = self.pop_first() else {
                unreachable!()
            };
            return Err(Entry {
                key: entry.key,
                value: entry.value,
                weight,
            });
        }
        self.settle(weight, visit);
        Ok(true)
    }

    // Gives the first entry another weight, and lets go of those that have to go for it.
    fn settle<F: FnMut(Entry<K, V>) + Drop>(&mut self, weight: usize, visit: F)
        requires visit { F.IsAlwaysCallable visit }
        requires light { weight ≤ self.old.most_weight }
        requires some { 0 < length self.old.entries }
        ensures { Settles (λ p x q. F.step p x tt q) visit self.old weight self.new }
    {
        let Some(place) = self.rows.first() else {
            unreachable!()
        };
        let others = self.weight - self.rows.weight_at(place);
        let most_weight = self.most_weight - weight;
        // It does not count among the others.
        self.rows.set_weight(place, 0);
        let left = shrink(
            &mut self.rows,
            others,
            most_weight,
            self.most_entries,
            visit,
        );
        self.rows.set_weight(place, weight);
        self.weight = left + weight;
    }

    /// Uses a key, and answers true; or puts an entry of it that `make` makes, value and weight, as `put` does, and answers
    /// false. `make` is called only where the key has no entry.
    ///
    /// # Errors
    ///
    /// `make` made none, or the entry was refused. What is not put is handed back, and nothing changes.
    pub fn use_or_put<E: Drop, M, F>(
        &mut self,
        key: K,
        make: M,
        visit: F,
    ) -> Result<bool, NotPut<K, V, E>>
    where
        M: FnOnce() -> Result<(V, usize), E> + Drop,
        F: FnMut(Entry<K, V>) + Drop,
        requires make { M.IsAlwaysCallable make }
        requires visit { F.IsAlwaysCallable visit }
        ensures { UsesOrPuts K.eq (M.post make) (λ p x q. F.step p x tt q) visit self.old key result self.new }
    {
        if self.promote(&key) {
            return Ok(true);
        }
        let (value, weight) = match make() {
            Ok(made) => made,
            Err(error) => return Err(NotPut::Unmade(key, error)),
        };
        match self.put(key, value, weight, visit) {
            Ok(_) => Ok(false),
            Err(refused) => Err(NotPut::Refused(refused)),
        }
    }

    /// Makes room for `additional` more entries. Nothing else changes, also where it is refused.
    ///
    /// # Errors
    ///
    /// There is no memory for that many, or there can't be as many entries.
    pub fn reserve(&mut self, additional: usize) -> Result<(), AllocError>
        ensures same { self.new ≡ self.old }
        ensures room { IfOk result (λ _. length self.new.entries + additional ≤ most_rows) }
    {
        self.rows.reserve(additional)
    }

    /// Gives the cache other limits. Then the entries that were used longest ago go, as many as have to, and each is
    /// handed to `visit`.
    pub fn set_limits<F: FnMut(Entry<K, V>) + Drop>(
        &mut self,
        most_weight: usize,
        most_entries: usize,
        visit: F,
    )
        requires { F.IsAlwaysCallable visit }
        ensures { Limits (λ p x q. F.step p x tt q) visit self.old most_weight most_entries self.new }
    {
        self.weight = shrink(
            &mut self.rows,
            self.weight,
            most_weight,
            most_entries,
            visit,
        );
        self.most_weight = most_weight;
        self.most_entries = most_entries;
    }
}
