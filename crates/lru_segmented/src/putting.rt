//! What puts entries into a segmented cache, and what changes its limits and its share.
ghost use Rattle.std.specs.Prelude.{◌≡◌, ◌+◌, ◌<◌, ◌≤◌, None, length, IfOk};
ghost use Rattle.lru_index.specs.Hashing.{key_hash};
ghost use Rattle.lru_rows.specs.Rows.{most_rows};
ghost use Rattle.lru_owned_cache.specs.Entries.{weight_of, entry};
ghost use Rattle.lru_owned_cache.specs.Cache.{entry_of, cause_of};
ghost use Rattle.lru_segmented.specs.Segmented.{entries, Limits, Puts, UsesOrPuts, Enters, Rejoins};

use crate::seats::lower_down;
use crate::segmented::{SegmentedCache, most_upper};
use lru_owned_cache::cache::{Cause, Entry, NotPut, Refused};
use lru_rows::rows::NoPlace;
use std::alloc::AllocError;
use std::hash::{BuildHasher, Hash};

// The cause of an entry's refusal for which there was no place.
fn cause_of(none: NoPlace) -> Cause
    ensures { result ≡ cause_of none }
{
    match none {
        NoPlace::Memory => Cause::Memory,
        NoPlace::Full => Cause::Full,
    }
}

impl<K: Hash + Drop, V: Drop, S: BuildHasher> SegmentedCache<K, V, S> {
    /// Puts an entry. One whose key has none stands first in the lower segment. Else it is a use of the key: the entry goes
    /// first in the upper segment, with this value and this weight, and the one of before is answered. The entries that were
    /// used longest ago go, those of the lower segment first, as many as have to for the others to be within the limits, and
    /// each is handed to `visit`.
    ///
    /// # Errors
    ///
    /// The entry is too heavy by itself, or there is no place for it, because memory is refused or there are as many
    /// entries as there can be. Key and value are handed back, and nothing changes. A key that has an entry is refused
    /// only where it is too heavy, and so is one for which another entry goes.
    pub fn put<F: FnMut(Entry<K, V>) + Drop>(
        &mut self,
        key: K,
        value: V,
        weight: usize,
        visit: F,
    ) -> Result<Option<Entry<K, V>>, Refused<K, V>>
        requires { F.IsAlwaysCallable visit }
        ensures { Puts K.eq (λ p x q. F.step p x tt q) visit self.old key value weight result self.new }
    {
        let hash = self.hash_of(&key);
        self.put_hashed(key, value, weight, hash, visit)
    }

    /// `put`, where the key's hash is known.
    ///
    /// # Errors
    ///
    /// As for `put`.
    pub fn put_hashed<F: FnMut(Entry<K, V>) + Drop>(
        &mut self,
        key: K,
        value: V,
        weight: usize,
        hash: u64,
        visit: F,
    ) -> Result<Option<Entry<K, V>>, Refused<K, V>>
        requires hash { hash ≡ key_hash S.BuildHasher S.Hasher.Hasher K.hash_input self.old.hashes key }
        requires visit { F.IsAlwaysCallable visit }
        ensures { Puts K.eq (λ p x q. F.step p x tt q) visit self.old key value weight result self.new }
    {
        let (most_weight, most_entries) = (self.most_weight(), self.most_entries());
        if weight > most_weight || most_entries == 0 {
            return Err(Refused {
                cause: Cause::TooHeavy,
                key,
                value,
            });
        }
        let was = self.remove_hashed(&key, hash);
        // Where something goes, its place is free then: only where nothing has to go may a place be refused.
        self.let_go(most_weight - weight, most_entries - 1, visit);
        match was {
            Some(entry) => {
                self.rejoin(key, value, weight, hash);
                Ok(Some(entry))
            }
            None => match self.enter(key, value, weight, hash) {
                Ok(()) => Ok(None),
                Err(refused) => Err(refused),
            },
        }
    }

    // Puts a new entry, for which there is room, first in the lower segment.
    #[inline(always)]
    fn enter(&mut self, key: K, value: V, weight: usize, hash: u64) -> Result<(), Refused<K, V>>
        requires hash { hash ≡ key_hash S.BuildHasher S.Hasher.Hasher K.hash_input self.old.hashes key }
        requires absent { entry_of K.eq (entries self.old) key ≡ None }
        requires light { weight_of (entries self.old) + weight ≤ self.old.most_weight }
        requires few { length (entries self.old) < self.old.most_entries }
        ensures { Enters self.old key value weight result self.new }
    {
        let back = match self.seats.push_lower_hashed(key, value, weight, hash) {
            Ok(_) => return Ok(()),
            Err(back) => back,
        };
        Err(Refused {
            cause: cause_of(back.cause),
            key: back.key,
            value: back.value,
        })
    }

    // Puts an entry, for which there are room and a place, first in the upper segment.
    #[inline(always)]
    fn rejoin(&mut self, key: K, value: V, weight: usize, hash: u64)
        requires hash { hash ≡ key_hash S.BuildHasher S.Hasher.Hasher K.hash_input self.old.hashes key }
        requires absent { entry_of K.eq (entries self.old) key ≡ None }
        requires light { weight_of (entries self.old) + weight ≤ self.old.most_weight }
        requires few { length (entries self.old) < self.old.most_entries }
        requires placed { length (entries self.old) < self.old.places }
        requires short { length (entries self.old) < most_rows }
        ensures { Rejoins self.old (entry key value weight) self.new }
    {
        match self.seats.push_upper_hashed(key, value, weight, hash) {
            Ok(_) => {}
            Err(_) => unreachable!(),
        }
        lower_down(
            &mut self.seats,
            self.most_protected,
            most_upper(self.most_protected, self.most_entries),
        );
    }

    /// Uses a key, and answers true; or puts an entry of it that `make` makes, value and weight, as `put` does, and answers
    /// false. `make` is called only where the key has no entry.
    ///
    /// # Errors
    ///
    /// `make` made none, or the entry was refused. What is not put is handed back, and nothing changes.
    pub fn use_or_put<E: Drop, M, F>(
        &mut self,
        key: K,
        make: M,
        visit: F,
    ) -> Result<bool, NotPut<K, V, E>>
    where
        M: FnOnce() -> Result<(V, usize), E> + Drop,
        F: FnMut(Entry<K, V>) + Drop,
        requires make { M.IsAlwaysCallable make }
        requires visit { F.IsAlwaysCallable visit }
        ensures { UsesOrPuts K.eq (M.post make) (λ p x q. F.step p x tt q) visit self.old key result self.new }
    {
        let hash = self.hash_of(&key);
        if self.promote_hashed(&key, hash) {
            return Ok(true);
        }
        let (value, weight) = match make() {
            Ok(made) => made,
            Err(error) => return Err(NotPut::Unmade(key, error)),
        };
        match self.put_hashed(key, value, weight, hash, visit) {
            Ok(_) => Ok(false),
            Err(refused) => Err(NotPut::Refused(refused)),
        }
    }

    /// Makes room for `additional` more entries. Nothing else changes, also where it is refused.
    ///
    /// # Errors
    ///
    /// There is no memory for that many, or there can't be as many entries.
    pub fn reserve(&mut self, additional: usize) -> Result<(), AllocError>
        ensures same { self.new ≡ self.old }
        ensures room { IfOk result (λ _. length (entries self.new) + additional ≤ most_rows) }
    {
        self.seats.reserve(additional)
    }

    /// Gives the cache other limits, and its upper segment another share. Then entries go as for a put, as many as have to,
    /// and each is handed to `visit`; and the last entries of the upper segment become the first of the lower one, as many as
    /// have to for the others to be within its share.
    pub fn set_limits<F: FnMut(Entry<K, V>) + Drop>(
        &mut self,
        most_weight: usize,
        most_entries: usize,
        most_protected: usize,
        visit: F,
    )
        requires { F.IsAlwaysCallable visit }
        ensures { Limits (λ p x q. F.step p x tt q) visit self.old most_weight most_entries most_protected self.new }
    {
        self.let_go(most_weight, most_entries, visit);
        self.most_weight = most_weight;
        self.most_entries = most_entries;
        self.most_protected = most_protected;
        lower_down(
            &mut self.seats,
            most_protected,
            most_upper(most_protected, most_entries),
        );
    }
}
