//! What puts entries into a cache with deadlines and makes room for them, and what changes weights and limits.
ghost use Rattle.std.specs.Prelude.{◌≡◌, ◌+◌, ◌≤◌, length, IfOk};
ghost use Rattle.lru_index.specs.Hashing.{key_hash};
ghost use Rattle.lru_rows.specs.Rows.{most_rows};
ghost use Rattle.lru_owned_cache.specs.Cache.{Puts, Limits};
ghost use Rattle.lru_deadlines.specs.Deadlines.{until, has_room, ReweighsLiving, UsesOrPutsLiving, MakesRoom, PutsAt};

use crate::deadlines::{DeadlineCache, LOOK, Until};
use lru_owned_cache::cache::{Entry, NotPut, Refused};
use std::alloc::AllocError;
use std::hash::{BuildHasher, Hash};

impl<K: Hash, V, S: BuildHasher> DeadlineCache<K, V, S> {
    // Whether an entry of this weight has room beside all that are there.
    fn has_room(&self, weight: usize) -> bool
        ensures { result ≡ has_room weight self.now }
    {
        let most = self.most_weight();
        weight <= most && self.weight() <= most - weight && self.len() < self.most_entries()
    }
}

impl<K: Hash + Drop, V: Drop, S: BuildHasher> DeadlineCache<K, V, S> {
    /// Puts an entry first, in place of its key's, and answers that one, also where it was past its deadline. Then the
    /// entries that were used longest ago go, as many as have to for the others to be within the limits, and each is handed
    /// to `visit`. A deadline that is past already is taken as any other.
    ///
    /// # Errors
    ///
    /// As for `put` of a `Cache`. Key and value are handed back, and nothing changes.
    pub fn put_until<F: FnMut(Entry<K, Until<V>>) + Drop>(
        &mut self,
        key: K,
        value: V,
        weight: usize,
        deadline: u64,
        visit: F,
    ) -> Result<Option<Entry<K, Until<V>>>, Refused<K, Until<V>>>
        requires { F.IsAlwaysCallable visit }
        ensures { Puts K.eq (λ p x q. F.step p x tt q) visit self.old key (until value deadline) weight result self.new }
    {
        self.cache
            .put(key, Until { value, deadline }, weight, visit)
    }

    /// Puts an entry as `put_until` does, but for what goes: where it has no room beside all that are there, the last `LOOK`
    /// entries are looked at first, those that were used longest ago, and of those go that are past their deadline, each
    /// handed to `visit`. So what is past goes before what lives, as far as it is looked for. The look takes a time that
    /// doesn't grow with the entries.
    ///
    /// # Errors
    ///
    /// As for `put` of a `Cache`. Key and value are handed back, and no entry goes but those.
    pub fn put_at<F: FnMut(Entry<K, Until<V>>) + Drop>(
        &mut self,
        time: u64,
        key: K,
        until: Until<V>,
        weight: usize,
        mut visit: F,
    ) -> Result<Option<Entry<K, Until<V>>>, Refused<K, Until<V>>>
        requires visit { (f : _) (x : _) → F.pre f x }
        ensures { PutsAt K.eq (λ p x q. F.step p x tt q) visit time self.old key until weight result self.new }
    {
        self.make_room(time, weight, |entry: Entry<K, Until<V>>| visit(entry));
        self.cache.put(key, until, weight, visit)
    }

    /// `put_until`, where the key's hash is known.
    ///
    /// # Errors
    ///
    /// As for `put_until`.
    #[inline(always)]
    pub fn put_hashed<F: FnMut(Entry<K, Until<V>>) + Drop>(
        &mut self,
        key: K,
        until: Until<V>,
        weight: usize,
        hash: u64,
        visit: F,
    ) -> Result<Option<Entry<K, Until<V>>>, Refused<K, Until<V>>>
        requires hash { hash ≡ key_hash S.BuildHasher S.Hasher.Hasher K.hash_input self.old.hashes key }
        requires visit { F.IsAlwaysCallable visit }
        ensures { Puts K.eq (λ p x q. F.step p x tt q) visit self.old key until weight result self.new }
    {
        self.cache.put_hashed(key, until, weight, hash, visit)
    }

    /// Where an entry of this weight has no room beside all that are there, looks at the `LOOK` entries that were used longest
    /// ago, takes those out that are past their deadline, and hands each to `visit`. The others stay where they are.
    pub fn make_room<F: FnMut(Entry<K, Until<V>>) + Drop>(
        &mut self,
        time: u64,
        weight: usize,
        visit: F,
    )
        requires { F.IsAlwaysCallable visit }
        ensures { MakesRoom (λ p x q. F.step p x tt q) visit time weight self.old self.new }
    {
        if self.has_room(weight) {
            return;
        }
        self.sweep(time, LOOK, visit);
    }

    /// Uses a key, lends its value and its deadline to `change` with its weight, and gives it the weight that `change`
    /// answers. Then the entries that were used longest ago go, as many as have to for the others to be within the limits,
    /// and each is handed to `visit`. It answers whether the key has an entry. Where it has none, nothing is called.
    ///
    /// # Errors
    ///
    /// The entry is past its deadline, and is handed over, and nothing is called; or it is too heavy by itself then, and is
    /// handed back as it is then. It goes in either case, and no other does.
    pub fn reweigh<U, F>(
        &mut self,
        time: u64,
        key: &K,
        change: U,
        visit: F,
    ) -> Result<bool, Entry<K, Until<V>>>
    where
        U: FnOnce(&mut Until<V>, usize) -> usize + Drop,
        F: FnMut(Entry<K, Until<V>>) + Drop,
        requires change { U.IsAlwaysCallable change }
        requires visit { F.IsAlwaysCallable visit }
        ensures { ReweighsLiving K.eq (U.post change) (λ p x q. F.step p x tt q) visit time self.old key.now result self.new }
    {
        match self.take_past(time, key) {
            Some(past) => Err(past),
            None => self.cache.reweigh(key, change, visit),
        }
    }

    /// Uses a key, and answers true; or puts an entry of it that `make` makes, value and deadline and weight, as `put_until`
    /// does, and answers false. `make` is called only where the key has no entry that is in its time. One that is past its
    /// deadline is taken out first, and is handed to `visit`.
    ///
    /// # Errors
    ///
    /// `make` made none, or the entry was refused. What is not put is handed back, and no entry goes but one of this key that
    /// is past its deadline.
    pub fn use_or_put<E: Drop, M, F>(
        &mut self,
        time: u64,
        key: K,
        make: M,
        mut visit: F,
    ) -> Result<bool, NotPut<K, Until<V>, E>>
    where
        M: FnOnce() -> Result<(Until<V>, usize), E> + Drop,
        F: FnMut(Entry<K, Until<V>>) + Drop,
        requires make { M.IsAlwaysCallable make }
        requires visit { (f : _) (x : _) → F.pre f x }
        ensures { UsesOrPutsLiving K.eq (M.post make) (λ p x q. F.step p x tt q) visit time self.old key result self.new }
    {
        if let Some(past) = self.take_past(time, &key) {
            visit(past);
            return self.cache.use_or_put(key, make, visit);
        }
        self.cache.use_or_put(key, make, visit)
    }

    /// Makes room for `additional` more entries. Nothing else changes, also where it is refused.
    ///
    /// # Errors
    ///
    /// There is no memory for that many, or there can't be as many entries.
    pub fn reserve(&mut self, additional: usize) -> Result<(), AllocError>
        ensures same { self.new ≡ self.old }
        ensures room { IfOk result (λ _. length self.new.entries + additional ≤ most_rows) }
    {
        self.cache.reserve(additional)
    }

    /// Gives the cache other limits. Then the entries that were used longest ago go, as many as have to, and each is handed
    /// to `visit`.
    pub fn set_limits<F: FnMut(Entry<K, Until<V>>) + Drop>(
        &mut self,
        most_weight: usize,
        most_entries: usize,
        visit: F,
    )
        requires { F.IsAlwaysCallable visit }
        ensures { Limits (λ p x q. F.step p x tt q) visit self.old most_weight most_entries self.new }
    {
        self.cache.set_limits(most_weight, most_entries, visit);
    }
}
