//! What takes entries out of a segmented cache: one by its key or at an end, those that have to go, those that a test lets go,
//! and all.
ghost use Rattle.std.specs.Prelude.{◌≡◌};
ghost use Rattle.lru_index.specs.Hashing.{key_hash};
ghost use Rattle.lru_owned_cache.specs.Cache.{entry_of};
ghost use Rattle.lru_segmented.specs.Segmented.{entries, removed, LetsGo, PopsLast, PopsFirst, Drains, IsSegmented};
ghost use Rattle.lru_segmented.specs.Retained.{Retains, RetainsLast};

use crate::keeping::retain_last;
use crate::seats::fits;
use crate::segmented::SegmentedCache;
use lru_index::keys::Query;
use lru_owned_cache::cache::Entry;
use std::hash::{BuildHasher, Hash};

impl<K: Hash + Drop, V: Drop, S: BuildHasher> SegmentedCache<K, V, S> {
    // Lets entries go from the end, until the others are within these limits, and hands each to `visit`.
    #[inline(always)]
    pub(crate) fn let_go<F: FnMut(Entry<K, V>) + Drop>(
        &mut self,
        most_weight: usize,
        most_entries: usize,
        mut visit: F,
    )
        requires { F.IsAlwaysCallable visit }
        ensures { LetsGo (λ p x q. F.step p x tt q) visit most_weight most_entries self.old self.new }
    {
        while !fits(self.weight(), self.len(), most_weight, most_entries) {
            let Some(last) = self.pop_last() else {
                unreachable!()
            };
            visit(last);
        }
    }

    /// Takes a key's entry out.
    pub fn remove(&mut self, key: &K) -> Option<Entry<K, V>>
        ensures answer { result ≡ entry_of K.eq (entries self.old) key.now }
        ensures left { self.new ≡ removed K.eq self.old key.now }
        ensures valid { IsSegmented K.eq self.old }
    {
        let hash = self.hash_of(key);
        self.remove_hashed(key, hash)
    }

    /// As `remove`, by what stands for the key.
    pub fn remove_by<Q: Query<K>>(&mut self, query: Q) -> Option<Entry<K, V>>
        ensures answer { result ≡ entry_of Q.stands_for (entries self.old) query }
        ensures left { self.new ≡ removed Q.stands_for self.old query }
        ensures valid { IsSegmented K.eq self.old }
    {
        let hash = self.hash_by(&query);
        self.remove_hashed(query, hash)
    }

    /// `remove_by`, where the query's hash is known.
    #[inline(always)]
    pub fn remove_hashed<Q: Query<K>>(&mut self, query: Q, hash: u64) -> Option<Entry<K, V>>
        requires { hash ≡ key_hash S.BuildHasher S.Hasher.Hasher Q.hash_input self.old.hashes query }
        ensures answer { result ≡ entry_of Q.stands_for (entries self.old) query }
        ensures left { self.new ≡ removed Q.stands_for self.old query }
        ensures valid { IsSegmented K.eq self.old }
    {
        let place = self.seats.find_hashed(query, hash)?;
        let row = self.seats.take(place);
        Some(Entry {
            key: row.key,
            value: row.value,
            weight: row.weight,
        })
    }

    /// Takes the entry out that is the next to go: the last of the lower segment, or of the upper one where the lower one has
    /// none.
    pub fn pop_last(&mut self) -> Option<Entry<K, V>>
        ensures pops { PopsLast self.old result self.new }
        ensures valid { IsSegmented K.eq self.old }
    {
        let place = self.seats.last()?;
        let row = self.seats.take(place);
        Some(Entry {
            key: row.key,
            value: row.value,
            weight: row.weight,
        })
    }

    /// Takes the entry out that stands first: the first of the upper segment, or of the lower one where the upper one has
    /// none.
    pub fn pop_first(&mut self) -> Option<Entry<K, V>>
        ensures pops { PopsFirst self.old result self.new }
        ensures valid { IsSegmented K.eq self.old }
    {
        let place = self.seats.first()?;
        let row = self.seats.take(place);
        Some(Entry {
            key: row.key,
            value: row.value,
            weight: row.weight,
        })
    }

    /// Lets all entries go, the one that is the next to go first, and hands each to `visit`. The limits stay, and so do the
    /// places: as many entries as went take no memory again.
    pub fn clear<F: FnMut(Entry<K, V>) + Drop>(&mut self, visit: F)
        requires { F.IsAlwaysCallable visit }
        ensures { LetsGo (λ p x q. F.step p x tt q) visit 0 0 self.old self.new }
    {
        self.let_go(0, 0, visit);
    }

    /// Asks `keep` of each entry, the one that is the next to go first, by its key, its value and its weight, and lets those
    /// go for which it answers false. The others stay in their segments, in their order.
    pub fn retain<F: FnMut(&K, &V, usize) -> bool + Drop>(&mut self, keep: F)
        requires { F.IsAlwaysCallable keep }
        ensures { Retains (λ p k v w b q. F.step p k v w b q) keep self.old self.new }
    {
        let most = self.len();
        self.retain_last(most, keep, |_gone: Entry<K, V>| {});
    }

    /// Asks `keep` of the `most` entries that are the next to go, or of all where there are fewer, the next to go first, by its
    /// key, its value and its weight: those of the lower segment, and of the upper one only where `most` is more than the lower
    /// one has. Those go for which it answers false, and each is handed to `visit`. The others stay where they are. The time
    /// that it takes grows with `most`, and not with the entries.
    pub fn retain_last<F, G>(&mut self, most: usize, keep: F, visit: G)
    where
        F: FnMut(&K, &V, usize) -> bool + Drop,
        G: FnMut(Entry<K, V>) + Drop,
        requires keep { F.IsAlwaysCallable keep }
        requires visit { G.IsAlwaysCallable visit }
        ensures { RetainsLast (λ p k v w b q. F.step p k v w b q) keep (λ p x q. G.step p x tt q) visit most self.old self.new }
    {
        retain_last(&mut self.seats, most, keep, visit);
    }

    /// Lets all entries go, the one that stands first first, and hands each to `visit`. The limits stay, and so do the places,
    /// as for `clear`.
    pub fn drain<F: FnMut(Entry<K, V>) + Drop>(&mut self, mut visit: F)
        requires { F.IsAlwaysCallable visit }
        ensures { Drains (λ p x q. F.step p x tt q) visit self.old self.new }
    {
        while let Some(first) = self.pop_first() {
            visit(first);
        }
    }
}
