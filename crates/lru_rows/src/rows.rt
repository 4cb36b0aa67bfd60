//! Rows of keys, data and weights, most recent first.
ghost use Rattle.std.specs.Prelude.{◌≡◌, ℕ, ◌+◌, ◌<◌, ◌≤◌, ◌∷◌, ◌++◌, [], length, map, take, Some, None, IfOk, if◌then◌else◌};
ghost use Rattle.std.specs.List.{list_any};
ghost use Rattle.std.specs.Option.{option_map, option_copied};
ghost use Rattle.lru_rows.specs.Rows.{most_rows, recency, pair_of, entry_of, placed, row_at, row_of, IsAt, promoted, demoted, with_weight, with_value, last_row, first_row, Finds, IsRecency, Removes, PopsLast, PopsFirst, Pushes, MakesVacancy, UpdatesAt};

use crate::columns::Columns;
use crate::iter::{RowsEntries, RowsIter};
use crate::order::Order;
use lru_index::hashing::SeededHashes;
use lru_index::keys::{Keys, Query};
use lru_list::linked_list::{LinkedList, LinkedListIter, MOST_ITEMS, PushError};
use std::alloc::{AllocError, Global};
use std::hash::{BuildHasher, Hash};
use std::marker::Model;

/// Where a row stands, from when it is put in until it is taken out.
pub type Place = u32;

/// Why there is no place for a row more.
#[derive(Clone, Copy, Debug, PartialEq, Eq)]
pub enum NoPlace {
    /// No place is free, and there is no memory for another.
    Memory,
    /// There are 4294967293 rows, and there can be no more.
    Full,
}

/// Why a row was not put in. The key and the data are handed back.
#[derive(Debug, Drop)]
pub struct Unpushed<K, T> {
    /// Why there is no place.
    pub cause: NoPlace,
    /// The key.
    pub key: K,
    /// The data.
    pub value: T,
}

impl<K, T> Unpushed<K, T> {
    fn new(cause: NoPlace, key: K, value: T) -> Self
        ensures cause { result.cause ≡ cause }
        ensures key { result.key ≡ key }
        ensures value { result.value ≡ value }
    {
        Unpushed { cause, key, value }
    }
}

/// A row that was taken out.
#[derive(Debug, Drop)]
pub struct Taken<K, T> {
    /// Its key.
    pub key: K,
    /// Its data.
    pub value: T,
    /// Its weight.
    pub weight: usize,
}

/// Rows with distinct keys in the order of their last use, most recent first. A row keeps its place until it is taken
/// out, so that one look-up by its key serves several calls.
///
/// The keys stand once, in the order. Beside it stand an index from keys to places, and by place a column of weights
/// and one of data. Only a constructor, `reserve`, and a push or `make_vacancy` that finds no free place take memory.
#[derive(Drop)]
pub struct Rows<K: Hash, T, S: BuildHasher = SeededHashes> {
    order: Order<K>,
    columns: Columns<T, S>,
}

impl<K: Hash, T, S: BuildHasher> Model for Rows<K, T, S> {
    ghost use Rattle.lru_index.specs.Hashing.{key_hash};
    ghost use Rattle.std.specs.Prelude.{length};
    ghost use Rattle.lru_rows.specs.Rows.{Recency, recency, recency_code};
    ghost use Rattle.lru_rows.specs.Representation.Columns.{rows_in, IsKept};

    ghost Value = { Recency K T };

    ghost coded = { recency_code K.code T.code };

    ghost view = { λ r. recency (rows_in r.columns.weights.items r.columns.values.items r.order.list.live) (length r.order.list.freed) };

    ghost invariant = { λ r. IsKept K.eq (key_hash S.BuildHasher S.Hasher.Hasher K.hash_input) r.order.list r.columns.index r.columns.weights.items r.columns.values.items };
}

impl<K: Hash + Default + Drop, T: Drop> Rows<K, T, SeededHashes> {
    /// No rows, with room for `capacity`. The seed of the hashes stays the same from run to run.
    ///
    /// # Errors
    ///
    /// There is no memory for that many, or there can't be as many rows.
    pub fn with_capacity(alloc: Global, capacity: usize) -> Result<Self, AllocError>
        ensures { IfOk result (λ rows. rows ≡ recency [] 0) }
    {
        Rows::with_capacity_and_hasher(alloc, capacity, SeededHashes::fixed())
    }

    /// No rows, with room for `capacity`, and with a seed for the hashes: who picks the keys and does not know it can't
    /// pick keys that collide.
    ///
    /// # Errors
    ///
    /// As for `with_capacity`.
    pub fn with_capacity_and_seed(
        alloc: Global,
        capacity: usize,
        seed: u64,
    ) -> Result<Self, AllocError>
        ensures { IfOk result (λ rows. rows ≡ recency [] 0) }
    {
        Rows::with_capacity_and_hasher(alloc, capacity, SeededHashes::with_seed(seed))
    }
}

impl<K: Hash + Default + Drop, T: Drop, S: BuildHasher + Drop> Rows<K, T, S> {
    /// No rows, with room for `capacity`, over hashers of the caller's.
    ///
    /// # Errors
    ///
    /// As for `with_capacity`.
    pub fn with_capacity_and_hasher(
        alloc: Global,
        capacity: usize,
        hash_builder: S,
    ) -> Result<Self, AllocError>
        ensures { IfOk result (λ rows. rows ≡ recency [] 0) }
    {
        if capacity > MOST_ITEMS {
            return Err(AllocError);
        }
        let columns = Columns::with_capacity(alloc, capacity as u32 + 2, hash_builder)?;
        let list = LinkedList::with_capacity(alloc, capacity)?;
        Ok(Rows {
            order: Order { list },
            columns,
        })
    }
}

impl<K: Hash, T, S: BuildHasher> Rows<K, T, S> {
    /// How many rows there are.
    #[inline(always)]
    pub fn len(&self) -> usize
        ensures value { result ≡ length self.now.rows }
        ensures valid { IsRecency K.eq self.now.rows }
    {
        self.order.list.len()
    }

    /// The place of a key's row.
    #[inline(always)]
    pub fn find(&self, key: &K) -> Option<Place>
        ensures finds { Finds K.eq self.now.rows key.now result }
        ensures valid { IsRecency K.eq self.now.rows }
    {
        self.columns.index.find(&self.order, key)
    }

    /// The place of the row whose key the query stands for.
    #[inline(always)]
    pub fn find_by<Q: Query<K>>(&self, query: Q) -> Option<Place>
        ensures finds { Finds Q.stands_for self.now.rows query result }
        ensures valid { IsRecency K.eq self.now.rows }
    {
        self.columns.index.find_by(&self.order, query)
    }

    /// The place of the row that was used longest ago.
    #[inline(always)]
    pub fn last(&self) -> Option<Place>
        ensures place { result ≡ option_map (λ r. r.place) (last_row self.now.rows) }
        ensures valid { IsRecency K.eq self.now.rows }
    {
        let place = self.order.list.tail()?;
        Some(place as u32)
    }

    /// The place of the row that was used last.
    #[inline(always)]
    pub fn first(&self) -> Option<Place>
        ensures place { result ≡ option_map (λ r. r.place) (first_row self.now.rows) }
        ensures valid { IsRecency K.eq self.now.rows }
    {
        let place = self.order.list.head()?;
        Some(place as u32)
    }

    /// The data and the weight of each row, most recent first.
    pub fn iter(&self) -> RowsIter<'_, K, T>
        ensures { result ≡ map pair_of self.now.rows }
    {
        RowsIter {
            places: self.order.list.indices(),
            weights: self.columns.weights.as_slice(),
            values: self.columns.values.as_slice(),
        }
    }

    /// The key, the data and the weight of each row, most recent first.
    pub fn entries(&self) -> RowsEntries<'_, K, T>
        ensures { result ≡ map entry_of self.now.rows }
    {
        RowsEntries {
            keys: self.order.list.entries(),
            weights: self.columns.weights.as_slice(),
            values: self.columns.values.as_slice(),
        }
    }

    /// The keys of the rows, most recent first.
    pub fn keys(&self) -> LinkedListIter<'_, K>
        ensures { result ≡ map (λ r. r.key) self.now.rows }
    {
        self.order.list.iter()
    }

    /// Whether a key is among the first `limit` rows. It takes as many steps as it looks at keys.
    pub fn is_near_first(&self, key: &K, limit: usize) -> bool
        ensures { result ≡ list_any (λ k. K.eq k key.now) (take limit (map (λ r. r.key) self.now.rows)) }
    {
        self.order.list.exist_near_head(key, limit)
    }

    /// The key of a place's row.
    #[inline(always)]
    pub fn key_at(&self, place: Place) -> &K
        requires { IsAt self.now.rows place }
        ensures { option_map (λ r. r.key) (row_at self.now.rows place) ≡ Some result.now }
    {
        self.order.key_at(place)
    }

    /// The data of a place's row.
    #[inline(always)]
    pub fn value_at(&self, place: Place) -> &T
        requires { IsAt self.now.rows place }
        ensures { option_map (λ r. r.value) (row_at self.now.rows place) ≡ Some result.now }
    {
        self.columns.value(place as usize)
    }

    /// The weight of a place's row.
    #[inline(always)]
    pub fn weight_at(&self, place: Place) -> usize
        requires { IsAt self.now.rows place }
        ensures { option_map (λ r. r.weight) (row_at self.now.rows place) ≡ Some result }
    {
        self.columns.weights[place as usize]
    }

    /// Puts a place's row first.
    #[inline(always)]
    pub fn promote(&mut self, place: Place)
        requires { IsAt self.old.rows place }
        ensures { self.new ≡ recency (promoted self.old.rows place) self.old.free }
    {
        self.order.list.promote(place as usize);
    }

    /// Puts a place's row last.
    #[inline(always)]
    pub fn demote(&mut self, place: Place)
        requires { IsAt self.old.rows place }
        ensures { self.new ≡ recency (demoted self.old.rows place) self.old.free }
    {
        self.order.list.demote(place as usize);
    }

    /// Gives a place's row another weight.
    #[inline(always)]
    pub fn set_weight(&mut self, place: Place, weight: usize)
        requires { IsAt self.old.rows place }
        ensures { self.new ≡ recency (with_weight self.old.rows place weight) self.old.free }
    {
        self.columns.weights[place as usize] = weight;
    }

    /// Lends the data of a place's row to `update`, with their weight, and answers what `update` does.
    #[inline(always)]
    pub fn update<R, U: FnOnce(&mut T, usize) -> R + Drop>(&mut self, place: Place, update: U) -> R
        requires held { IsAt self.old.rows place }
        requires callable { U.IsAlwaysCallable update }
        ensures { UpdatesAt (U.post update) self.old place result self.new }
    {
        self.columns.update(place as usize, update)
    }

    /// Makes room for `additional` more rows. Nothing else changes, also where it is refused.
    ///
    /// # Errors
    ///
    /// There is no memory for that many, or there can't be as many rows.
    pub fn reserve(&mut self, additional: usize) -> Result<(), AllocError>
        ensures same { self.new ≡ self.old }
        ensures room { IfOk result (λ _. length self.new.rows + additional ≤ most_rows) }
    {
        let len = self.order.list.len();
        if additional > MOST_ITEMS - len {
            return Err(AllocError);
        }
        self.columns
            .reserve(&self.order, (len + additional) as u32)?;
        self.order.list.reserve(additional)
    }
}

impl<K: Hash + Default + Drop, T: Drop, S: BuildHasher> Rows<K, T, S> {
    /// Puts a row first whose key has none, and answers its place.
    ///
    /// # Errors
    ///
    /// There is no place for it. The key and the data are handed back, and nothing changes.
    #[inline(always)]
    pub fn push_first(&mut self, key: K, value: T, weight: usize) -> Result<Place, Unpushed<K, T>>
        requires { row_of K.eq self.old.rows key ≡ None }
        ensures { Pushes (λ r. r ∷ self.old.rows) self.old key value weight result self.new }
    {
        self.push(key, value, weight, false)
    }

    /// Puts a row last whose key has none, and answers its place.
    ///
    /// # Errors
    ///
    /// As for `push_first`.
    #[inline(always)]
    pub fn push_last(&mut self, key: K, value: T, weight: usize) -> Result<Place, Unpushed<K, T>>
        requires { row_of K.eq self.old.rows key ≡ None }
        ensures { Pushes (λ r. self.old.rows ++ r ∷ []) self.old key value weight result self.new }
    {
        self.push(key, value, weight, true)
    }

    // It is one function for both ends, since each of its ways out is proved once here.
    #[inline(always)]
    fn push(&mut self, key: K, value: T, weight: usize, last: bool) -> Result<Place, Unpushed<K, T>>
        requires { row_of K.eq self.old.rows key ≡ None }
        ensures { Pushes (λ r. if last then self.old.rows ++ r ∷ [] else r ∷ self.old.rows) self.old key value weight result self.new }
    {
        let len = self.order.list.len();
        if len >= MOST_ITEMS {
            return Err(Unpushed::new(NoPlace::Full, key, value));
        }
        if self.columns.make_room(&self.order, len).is_err() {
            return Err(Unpushed::new(NoPlace::Memory, key, value));
        }
        let place = match self.order.push(key, last) {
            Ok(place) => place as u32,
            Err(PushError::Memory(key)) => {
                return Err(Unpushed::new(NoPlace::Memory, key, value));
            }
            Err(PushError::Full(key)) => return Err(Unpushed::new(NoPlace::Full, key, value)),
        };
        let key = self.order.key_at(place);
        self.columns.put(key, place, value, weight);
        Ok(place)
    }

    /// Makes sure of a free place, so that the next push takes no memory and is not refused.
    ///
    /// # Errors
    ///
    /// There is no place for a row more. Nothing changes.
    #[inline(always)]
    pub fn make_vacancy(&mut self) -> Result<(), NoPlace>
        ensures { MakesVacancy self.old result self.new }
    {
        // The columns have room for each place of the order, so that a free one is enough.
        if self.order.list.has_freed() {
            return Ok(());
        }
        let len = self.order.list.len();
        if len >= MOST_ITEMS {
            return Err(NoPlace::Full);
        }
        if self.columns.make_room(&self.order, len).is_err() {
            return Err(NoPlace::Memory);
        }
        let place = match self.order.list.push_head(K::default()) {
            Ok(place) => place,
            Err(PushError::Memory(_)) => return Err(NoPlace::Memory),
            Err(PushError::Full(_)) => return Err(NoPlace::Full),
        };
        self.order.list.remove(place);
        Ok(())
    }

    /// Takes a key's row out. Its place is free then.
    #[inline(always)]
    pub fn remove(&mut self, key: &K) -> Option<Taken<K, T>>
        ensures removes { Removes K.eq self.old key.now result self.new }
        ensures valid { IsRecency K.eq self.old.rows }
    {
        let place = self.columns.index.remove(&self.order, key)?;
        let at = place as usize;
        let (value, weight) = self.columns.take(at);
        let key = self.order.list.remove(at);
        Some(Taken { key, value, weight })
    }

    /// Takes the row out whose key the query stands for. Its place is free then.
    #[inline(always)]
    pub fn remove_by<Q: Query<K>>(&mut self, query: Q) -> Option<Taken<K, T>>
        ensures removes { Removes Q.stands_for self.old query result self.new }
        ensures valid { IsRecency K.eq self.old.rows }
    {
        let place = self.columns.index.remove_by(&self.order, query)?;
        let at = place as usize;
        let (value, weight) = self.columns.take(at);
        let key = self.order.list.remove(at);
        Some(Taken { key, value, weight })
    }

    /// Takes the row out that was used longest ago. Its place is free then.
    #[inline(always)]
    pub fn pop_last(&mut self) -> Option<Taken<K, T>>
        ensures pops { PopsLast self.old result self.new }
        ensures valid { IsRecency K.eq self.old.rows }
    {
        let at = self.order.list.tail()?;
        // The walk to the place comes last: what the others read and write is under way meanwhile.
        let (value, weight) = self.columns.take(at);
        let key = self.order.list.remove(at);
        self.columns.index.remove_at(&key, at as u32);
        Some(Taken { key, value, weight })
    }

    /// Takes the row out that was used last. Its place is free then.
    #[inline(always)]
    pub fn pop_first(&mut self) -> Option<Taken<K, T>>
        ensures pops { PopsFirst self.old result self.new }
        ensures valid { IsRecency K.eq self.old.rows }
    {
        let at = self.order.list.head()?;
        let (value, weight) = self.columns.take(at);
        let key = self.order.list.remove(at);
        self.columns.index.remove_at(&key, at as u32);
        Some(Taken { key, value, weight })
    }

    /// Gives a place's row other data, and answers those that it had.
    #[inline(always)]
    pub fn replace(&mut self, place: Place, value: T) -> T
        requires { IsAt self.old.rows place }
        ensures old { option_map (λ r. r.value) (row_at self.old.rows place) ≡ Some result }
        ensures rows { self.new ≡ recency (with_value self.old.rows place value) self.old.free }
    {
        self.columns.replace(place as usize, value)
    }
}
