//! What takes entries out of a segmented cache with deadlines: those that are past theirs, one by its key or at an end, those that
//! a test lets go, and all.
ghost use Rattle.std.specs.Prelude.{◌≡◌};
ghost use Rattle.lru_index.specs.Hashing.{key_hash};
ghost use Rattle.lru_owned_cache.specs.Cache.{entry_of};
ghost use Rattle.lru_segmented.specs.Segmented.{entries, removed, LetsGo, PopsLast, PopsFirst, Drains};
ghost use Rattle.lru_segmented.specs.Retained.{Retains};
ghost use Rattle.lru_segmented.specs.SegmentedDeadlines.{TakesPast, Sweeps};

use crate::segmented_deadlines::SegmentedDeadlineCache;
use lru_deadlines::deadlines::Until;
use lru_index::keys::Query;
use lru_owned_cache::cache::Entry;
use std::hash::{BuildHasher, Hash};

impl<K: Hash + Drop, V: Drop, S: BuildHasher> SegmentedDeadlineCache<K, V, S> {
    // Takes a key's entry out where it is past its deadline.
    pub(crate) fn take_past<Q: Query<K>>(
        &mut self,
        time: u64,
        query: Q,
    ) -> Option<Entry<K, Until<V>>>
        ensures { TakesPast Q.stands_for time self.old query result self.new }
    {
        let until = self.cache.peek_by(query)?;
        if !until.is_past(time) {
            return None;
        }
        self.remove_by(query)
    }

    /// Looks at the `most` entries that are the next to go, or at all where there are fewer, takes those out that are past
    /// their deadline, and hands each to `visit`, the next to go first: those of the lower segment, and of the upper one only
    /// where `most` is more than the lower one has. The others stay where they are. The time that it takes grows with `most`,
    /// and not with the entries: called now and then with a small `most` it keeps the end clean.
    pub fn sweep<F: FnMut(Entry<K, Until<V>>) + Drop>(&mut self, time: u64, most: usize, visit: F)
        requires { F.IsAlwaysCallable visit }
        ensures { Sweeps (λ p x q. F.step p x tt q) visit time most self.old self.new }
    {
        let keep = move |_key: &K, until: &Until<V>, _weight: usize| !until.is_past(time);
        self.cache.retain_last(most, keep, visit);
    }

    /// Takes a key's entry out, also where it is past its deadline.
    pub fn remove(&mut self, key: &K) -> Option<Entry<K, Until<V>>>
        ensures answer { result ≡ entry_of K.eq (entries self.old) key.now }
        ensures left { self.new ≡ removed K.eq self.old key.now }
    {
        self.remove_by(key)
    }

    /// As `remove`, by what stands for the key.
    pub fn remove_by<Q: Query<K>>(&mut self, query: Q) -> Option<Entry<K, Until<V>>>
        ensures answer { result ≡ entry_of Q.stands_for (entries self.old) query }
        ensures left { self.new ≡ removed Q.stands_for self.old query }
    {
        self.cache.remove_by(query)
    }

    /// `remove_by`, where the query's hash is known.
    #[inline(always)]
    pub fn remove_hashed<Q: Query<K>>(&mut self, query: Q, hash: u64) -> Option<Entry<K, Until<V>>>
        requires { hash ≡ key_hash S.BuildHasher S.Hasher.Hasher Q.hash_input self.old.hashes query }
        ensures answer { result ≡ entry_of Q.stands_for (entries self.old) query }
        ensures left { self.new ≡ removed Q.stands_for self.old query }
    {
        self.cache.remove_hashed(query, hash)
    }

    /// Takes the entry out that is the next to go, also where it is past its deadline.
    pub fn pop_last(&mut self) -> Option<Entry<K, Until<V>>>
        ensures { PopsLast self.old result self.new }
    {
        self.cache.pop_last()
    }

    /// Takes the entry out that stands first, also where it is past its deadline: the first of the upper segment, or of the
    /// lower one where the upper one has none.
    pub fn pop_first(&mut self) -> Option<Entry<K, Until<V>>>
        ensures { PopsFirst self.old result self.new }
    {
        self.cache.pop_first()
    }

    /// Asks `keep` of each entry, the one that is the next to go first, by its key, its value with its deadline, and its
    /// weight, and lets those go for which it answers false. The others stay in their segments, in their order.
    pub fn retain<F: FnMut(&K, &Until<V>, usize) -> bool + Drop>(&mut self, keep: F)
        requires { F.IsAlwaysCallable keep }
        ensures { Retains (λ p k v w b q. F.step p k v w b q) keep self.old self.new }
    {
        self.cache.retain(keep);
    }

    /// Lets all entries go, the one that is the next to go first, and hands each to `visit`. The limits stay, and so do the
    /// places: as many entries as went take no memory again.
    pub fn clear<F: FnMut(Entry<K, Until<V>>) + Drop>(&mut self, visit: F)
        requires { F.IsAlwaysCallable visit }
        ensures { LetsGo (λ p x q. F.step p x tt q) visit 0 0 self.old self.new }
    {
        self.cache.clear(visit);
    }

    /// Lets all entries go, the one that stands first first, and hands each to `visit`. The limits stay, and so do the places,
    /// as for `clear`.
    pub fn drain<F: FnMut(Entry<K, Until<V>>) + Drop>(&mut self, visit: F)
        requires { F.IsAlwaysCallable visit }
        ensures { Drains (λ p x q. F.step p x tt q) visit self.old self.new }
    {
        self.cache.drain(visit);
    }
}
