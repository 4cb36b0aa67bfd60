//! What stands beside the order of the keys: an index, and by place a column of weights and one of data.
ghost use Rattle.std.specs.Prelude.{◌≡◌, ℕ, ◌+◌, ◌-◌, ◌<◌, ◌≤◌, ◌∷◌, ◌++◌, [], length, set, get_or, replicate, Some, None, IsSome, IfOk, IfErr, OnOk, OnErr};
ghost use Rattle.lru_index.specs.Hashing.{key_hash};
ghost use Rattle.lru_index.specs.Index.{IsEmpty, IsFree, Inserts, room_of};
ghost use Rattle.lru_list.specs.Linked.{most_items};
ghost use Rattle.lru_rows.specs.Representation.Columns.{value_at, IsKept, Lengthens, UpdatesValue};

use crate::order::Order;
use lru_index::place_index::PlaceIndex;
use std::alloc::{AllocError, Global};
use std::hash::{BuildHasher, Hash};

// A list has two places that are no row's, its sentinels, before the others.
const SENTINELS: usize = 2;

/// An index of the order's keys, and what the rows have beside their keys.
#[derive(Drop)]
pub(crate) struct Columns<T, S> {
    pub(crate) index: PlaceIndex<S>,
    pub(crate) weights: Vec<usize>,
    pub(crate) values: Vec<Option<T>>,
}

impl<T: Drop, S: BuildHasher + Drop> Columns<T, S> {
    /// Columns of no rows, with room for `places`.
    pub(crate) fn with_capacity(
        alloc: Global,
        places: u32,
        hash_builder: S,
    ) -> Result<Self, AllocError>
        ensures empty { IfOk result (λ c. IsEmpty c.index) }
        ensures values { IfOk result (λ c. c.values.items ≡ None ∷ None ∷ []) }
        ensures weights { IfOk result (λ c. c.weights.items ≡ 0 ∷ 0 ∷ []) }
        ensures room { IfOk result (λ c. 2 ≤ room_of c.index) }
    {
        let index = PlaceIndex::with_capacity_and_hasher(alloc, places.max(2), hash_builder)?;
        let places = index.room() as usize;
        let mut weights = Vec::with_capacity(alloc, places)?;
        weights.resize(SENTINELS, 0)?;
        let mut values = Vec::with_capacity(alloc, places)?;
        values.push(None)?;
        values.push(None)?;
        Ok(Columns {
            index,
            weights,
            values,
        })
    }
}

impl<T: Drop, S: BuildHasher> Columns<T, S> {
    /// Makes room for one row more, where there are `len`. All places hold what they held, also where it is refused.
    ///
    /// Rows that were taken out leave room in the columns, so that nothing is done where a place is free.
    #[inline(always)]
    pub(crate) fn make_room<K: Hash>(
        &mut self,
        order: &Order<K>,
        len: usize,
    ) -> Result<(), AllocError>
        requires kept { IsKept K.eq (key_hash S.BuildHasher S.Hasher.Hasher K.hash_input) order.now.list self.old.index self.old.weights.items self.old.values.items }
        requires len { len ≡ length order.now.list.live }
        requires short { len < most_items }
        ensures kept { IsKept K.eq (key_hash S.BuildHasher S.Hasher.Hasher K.hash_input) order.now.list self.new.index self.new.weights.items self.new.values.items }
        ensures same { Lengthens self.old.weights.items self.old.values.items self.new.weights.items self.new.values.items }
        ensures room { IfOk result (λ _. len + 2 < length self.new.values.items) }
        ensures refused { IfErr result (λ _. length self.old.values.items ≤ len + 2) }
    {
        if len + SENTINELS < self.values.len() {
            return Ok(());
        }
        self.lengthen(order, len as u32)
    }

    // The columns grow as the index does, by an eighth, so that little memory stands empty.
    fn lengthen<K: Hash>(&mut self, order: &Order<K>, len: u32) -> Result<(), AllocError>
        requires kept { IsKept K.eq (key_hash S.BuildHasher S.Hasher.Hasher K.hash_input) order.now.list self.old.index self.old.weights.items self.old.values.items }
        requires short { len < most_items }
        requires full { length self.old.values.items ≤ len + 2 }
        ensures kept { IsKept K.eq (key_hash S.BuildHasher S.Hasher.Hasher K.hash_input) order.now.list self.new.index self.new.weights.items self.new.values.items }
        ensures same { Lengthens self.old.weights.items self.old.values.items self.new.weights.items self.new.values.items }
        ensures room { IfOk result (λ _. len + 2 < length self.new.values.items) }
    {
        self.index.reserve(order, len + 3)?;
        let places = self.index.room() as usize;
        fill_weights(&mut self.weights, places)?;
        fill_values(&mut self.values, places)
    }

    /// Puts a row into the room that was made for it, where its key has a place in the order.
    #[inline(always)]
    pub(crate) fn put<K: Hash>(&mut self, key: &K, place: u32, value: T, weight: usize)
        requires place { 0 < place }
        requires wide { place < length self.old.values.items }
        requires weighed { place < length self.old.weights.items }
        requires room { place < room_of self.old.index }
        requires free { IsFree self.old.index place }
        ensures indexes { Inserts K.eq (key_hash S.BuildHasher S.Hasher.Hasher K.hash_input) self.old.index key.now place self.new.index }
        ensures room_same { room_of self.new.index ≡ room_of self.old.index }
        ensures weights { self.new.weights.items ≡ set self.old.weights.items place weight }
        ensures values { self.new.values.items ≡ set self.old.values.items place (Some value) }
    {
        self.index.insert(key, place);
        let at = place as usize;
        self.weights[at] = weight;
        self.values[at] = Some(value);
    }

    /// Takes the data out of a place, and reads their weight.
    #[inline(always)]
    pub(crate) fn take(&mut self, place: usize) -> (T, usize)
        requires held { IsSome (value_at self.old.values.items place) }
        requires weighed { place < length self.old.weights.items }
        ensures value { value_at self.old.values.items place ≡ Some result.0 }
        ensures weight { result.1 ≡ get_or self.old.weights.items place 0 }
        ensures index { self.new.index ≡ self.old.index }
        ensures weights { self.new.weights.items ≡ self.old.weights.items }
        ensures values { self.new.values.items ≡ set self.old.values.items place None }
    {
        let weight = self.weights[place];
        match self.values[place].take() {
            Some(value) => (value, weight),
            None => unreachable!(),
        }
    }

    /// Puts other data at a place, and answers those that stood there.
    #[inline(always)]
    pub(crate) fn replace(&mut self, place: usize, value: T) -> T
        requires { IsSome (value_at self.old.values.items place) }
        ensures value { value_at self.old.values.items place ≡ Some result }
        ensures index { self.new.index ≡ self.old.index }
        ensures weights { self.new.weights.items ≡ self.old.weights.items }
        ensures values { self.new.values.items ≡ set self.old.values.items place (Some value) }
    {
        match self.values[place].replace(value) {
            Some(old) => old,
            None => unreachable!(),
        }
    }
}

impl<T, S: BuildHasher> Columns<T, S> {
    /// Makes room for rows up to `rows`. All places hold what they held, also where it is refused.
    pub(crate) fn reserve<K: Hash>(&mut self, order: &Order<K>, rows: u32) -> Result<(), AllocError>
        requires kept { IsKept K.eq (key_hash S.BuildHasher S.Hasher.Hasher K.hash_input) order.now.list self.old.index self.old.weights.items self.old.values.items }
        requires few { rows ≤ most_items }
        ensures kept { IsKept K.eq (key_hash S.BuildHasher S.Hasher.Hasher K.hash_input) order.now.list self.new.index self.new.weights.items self.new.values.items }
        ensures weights { self.new.weights.items ≡ self.old.weights.items }
        ensures values { self.new.values.items ≡ self.old.values.items }
    {
        self.index.reserve(order, rows + 2)?;
        let places = self.index.room() as usize;
        self.weights.reserve_exact(places - self.weights.len())?;
        self.values.reserve_exact(places - self.values.len())
    }
}

impl<T, S> Columns<T, S> {
    /// The data at a place.
    #[inline(always)]
    pub(crate) fn value(&self, place: usize) -> &T
        requires { IsSome (value_at self.now.values.items place) }
        ensures { value_at self.now.values.items place ≡ Some result.now }
    {
        match &self.values[place] {
            Some(value) => value,
            None => unreachable!(),
        }
    }

    /// Lends the data at a place to `update`, with their weight, and answers what `update` does.
    #[inline(always)]
    pub(crate) fn update<R, U: FnOnce(&mut T, usize) -> R + Drop>(
        &mut self,
        place: usize,
        update: U,
    ) -> R
        requires held { IsSome (value_at self.old.values.items place) }
        requires weighed { place < length self.old.weights.items }
        requires callable { U.IsAlwaysCallable update }
        ensures index { self.new.index ≡ self.old.index }
        ensures weights { self.new.weights.items ≡ self.old.weights.items }
        ensures values { UpdatesValue (U.post update) self.old.weights.items self.old.values.items place result self.new.values.items }
    {
        let weight = self.weights[place];
        match &mut self.values[place] {
            Some(value) => update(value, weight),
            None => unreachable!(),
        }
    }
}

// Puts weights behind a column, until it is so long. Where there is no memory for them, nothing has changed.
fn fill_weights(column: &mut Vec<usize>, len: usize) -> Result<(), AllocError>
    requires { length column.old.items ≤ len }
    ensures made { OnOk result (column.new.items ≡ column.old.items ++ replicate (len - length column.old.items) 0) }
    ensures refused { OnErr result (column.new.items ≡ column.old.items) }
{
    column.reserve_exact(len - column.len())?;
    column.resize(len, 0)
}

// The same for data, of which there are none at the new places.
fn fill_values<T: Drop>(column: &mut Vec<Option<T>>, len: usize) -> Result<(), AllocError>
    requires { length column.old.items ≤ len }
    ensures made { OnOk result (column.new.items ≡ column.old.items ++ replicate (len - length column.old.items) None) }
    ensures refused { OnErr result (column.new.items ≡ column.old.items) }
{
    column.reserve_exact(len - column.len())?;
    column.resize_with(len, || None)
}
