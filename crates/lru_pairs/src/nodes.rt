//! Pairs by their places, and the order that they stand in, apart from any index.
ghost use Rattle.std.specs.Prelude.{◌≡◌, ◌+◌, ◌-◌, ◌<◌, ◌≤◌, ◌==◌, ◌∷◌, ◌++◌, [], Some, IsSome, IfSome, IfOk, OnOk, OnErr, not, length, map, nat_lt, replicate};
ghost use Rattle.std.specs.Option.{option_map};
ghost use Rattle.lru_rows.specs.Rows.{recency, row_at, IsAt, placed, taken, entry_of, without, promoted, demoted, with_weight, first_row, last_row, Pushes, MakesVacancy, UpdatesAt};
ghost use Rattle.lru_pairs.specs.Pairs.{with_entry};
ghost use Rattle.lru_pairs.specs.Beside.{row_after, row_before, put_before};
ghost use Rattle.lru_pairs.specs.Representation.Insertions.{index_of};
ghost use Rattle.lru_pairs.specs.Representation.Nodes.{laid, IsLaid, with_rows, keys_at};

use crate::iter::{PairsEntries, PairsKeys};
use lru_index::keys::Keys;
use lru_list::linked_list::{Index, LinkedList, PushError};
use lru_rows::rows::{NoPlace, Place, Taken, Unpushed};
use std::alloc::{AllocError, Global};
use std::marker::Model;

// A list has two places that are no pair's, its sentinels, before the others.
const SENTINELS: usize = 2;

// The first of them stands before the first pair, the other behind the last.
const BEFORE_ALL: usize = 0;

const BEHIND_ALL: usize = 1;

/// A list of pairs, and a column of their weights. A freed place of the list holds none.
#[derive(Drop)]
pub(crate) struct Nodes<K, V> {
    list: LinkedList<Option<(K, V)>>,
    weights: Vec<usize>,
}

impl<K, V> Model for Nodes<K, V> {
    ghost use Rattle.lru_pairs.specs.Representation.Nodes.{Laid, laid_code, laid_in, IsHeld};

    ghost Value = { Laid K V };

    ghost coded = { laid_code K.code V.code };

    ghost view = { λ n. laid_in n.weights.items n.list };

    ghost invariant = { λ n. IsHeld n.weights.items n.list };
}

impl<K, V> Keys<K> for Nodes<K, V> {
    ghost key_of = { λ nodes p. keys_at nodes.held.rows p };

    #[inline(always)]
    fn is_live(&self, place: u32) -> bool {
        self.list.is_live(place as usize)
    }

    #[inline(always)]
    fn key_at(&self, place: u32) -> &K {
        &self.pair_at(place).0
    }
}

impl<K, V> Nodes<K, V> {
    /// How many pairs there are.
    #[inline(always)]
    pub(crate) fn len(&self) -> usize
        ensures len { result ≡ length self.now.held.rows }
        ensures valid { IsLaid self.now }
    {
        self.list.len()
    }

    /// Whether a place is free that had a pair before.
    #[inline(always)]
    pub(crate) fn has_free(&self) -> bool
        ensures { result ≡ not (self.now.held.free == 0) }
    {
        self.list.has_freed()
    }

    /// Whether there is room in the column for a pair more.
    #[inline(always)]
    pub(crate) fn has_room(&self) -> bool
        ensures { result ≡ nat_lt (length self.now.held.rows + 2) self.now.room }
    {
        self.list.len() + SENTINELS < self.weights.len()
    }

    /// The place of the pair that was used last.
    #[inline(always)]
    pub(crate) fn first(&self) -> Option<Place>
        ensures { result ≡ option_map (λ r. r.place) (first_row self.now.held.rows) }
    {
        let place = self.list.head()?;
        Some(place as u32)
    }

    /// The place of the pair that was used longest ago.
    #[inline(always)]
    pub(crate) fn last(&self) -> Option<Place>
        ensures { result ≡ option_map (λ r. r.place) (last_row self.now.held.rows) }
    {
        let place = self.list.tail()?;
        Some(place as u32)
    }

    /// The place of the pair behind that of a place.
    #[inline(always)]
    pub(crate) fn after(&self, place: Place) -> Option<Place>
        requires { IsAt self.now.held.rows place }
        ensures { result ≡ option_map (λ r. r.place) (row_after self.now.held.rows place) }
    {
        let next = self.list.next_index(place as usize);
        if next == BEHIND_ALL {
            None
        } else {
            Some(next as u32)
        }
    }

    /// The place of the pair before that of a place.
    #[inline(always)]
    pub(crate) fn before(&self, place: Place) -> Option<Place>
        requires { IsAt self.now.held.rows place }
        ensures { result ≡ option_map (λ r. r.place) (row_before self.now.held.rows place) }
    {
        let prev = self.list.prev_index(place as usize);
        if prev == BEFORE_ALL {
            None
        } else {
            Some(prev as u32)
        }
    }

    // The key and the value of a place.
    #[inline(always)]
    fn pair_at(&self, place: Place) -> &(K, V)
        requires { IsAt self.now.held.rows place }
        ensures { option_map (λ r. (r.key, r.value)) (row_at self.now.held.rows place) ≡ Some result.now }
    {
        match self.list.slot(place as usize) {
            Some(pair) => pair,
            None => unreachable!(),
        }
    }

    /// The value of a place's pair.
    #[inline(always)]
    pub(crate) fn value_at(&self, place: Place) -> &V
        requires { IsAt self.now.held.rows place }
        ensures { option_map (λ r. r.value) (row_at self.now.held.rows place) ≡ Some result.now }
    {
        &self.pair_at(place).1
    }

    /// The weight of a place's pair.
    #[inline(always)]
    pub(crate) fn weight_at(&self, place: Place) -> usize
        requires { IsAt self.now.held.rows place }
        ensures { option_map (λ r. r.weight) (row_at self.now.held.rows place) ≡ Some result }
    {
        self.weights[place as usize]
    }

    /// The pairs, most recent first.
    pub(crate) fn entries(&self) -> PairsEntries<'_, K, V>
        ensures { result ≡ map entry_of self.now.held.rows }
    {
        PairsEntries {
            nodes: self.list.entries(),
            weights: self.weights.as_slice(),
        }
    }

    /// Their keys, most recent first.
    pub(crate) fn keys(&self) -> PairsKeys<'_, K, V>
        ensures { result ≡ map (λ r. r.key) self.now.held.rows }
    {
        PairsKeys {
            nodes: self.list.iter(),
        }
    }

    /// Puts a place's pair first.
    #[inline(always)]
    pub(crate) fn promote(&mut self, place: Place)
        requires { IsAt self.old.held.rows place }
        ensures rows { self.new ≡ with_rows self.old (promoted self.old.held.rows place) }
        ensures valid { IsLaid self.new }
    {
        self.list.promote(place as usize);
    }

    /// Puts a place's pair last.
    #[inline(always)]
    pub(crate) fn demote(&mut self, place: Place)
        requires { IsAt self.old.held.rows place }
        ensures rows { self.new ≡ with_rows self.old (demoted self.old.held.rows place) }
        ensures valid { IsLaid self.new }
    {
        self.list.demote(place as usize);
    }

    /// Gives a place's pair another weight.
    #[inline(always)]
    pub(crate) fn set_weight(&mut self, place: Place, weight: usize)
        requires { IsAt self.old.held.rows place }
        ensures rows { self.new ≡ with_rows self.old (with_weight self.old.held.rows place weight) }
        ensures valid { IsLaid self.new }
    {
        self.weights[place as usize] = weight;
    }

    /// Makes room for `additional` more pairs in the list, and for `places` in the column. Nothing else changes, also where
    /// it is refused.
    pub(crate) fn reserve(&mut self, additional: usize, places: u32) -> Result<(), AllocError>
        ensures { self.new ≡ self.old }
    {
        self.weights
            .reserve_exact((places as usize).saturating_sub(self.weights.len()))?;
        self.list.reserve(additional)
    }
}

impl<K, V> Nodes<K, V> {
    /// Lends the value of a place's pair to `update`, with its weight, and answers what `update` does.
    #[inline(always)]
    pub(crate) fn update<R, U: FnOnce(&mut V, usize) -> R + Drop>(
        &mut self,
        place: Place,
        update: U,
    ) -> R
        requires at { IsAt self.old.held.rows place }
        requires callable { U.IsAlwaysCallable update }
        ensures updates { UpdatesAt (U.post update) self.old.held place result self.new.held }
        ensures room { self.new.room ≡ self.old.room }
        ensures valid { IsLaid self.new }
    {
        let weight = self.weights[place as usize];
        match self.list.slot_mut(place as usize) {
            Some(pair) => update(&mut pair.1, weight),
            None => unreachable!(),
        }
    }
}

impl<K, V> Nodes<K, V> {
    ghost use Rattle.std.specs.Borrow.{sem};
    ghost use Rattle.lru_pairs.specs.NodesLends.{lends_value};

    /// The value of a place's pair, to write to.
    #[inline(always)]
    pub(crate) fn value_mut(&mut self, place: Place) -> &mut V
        requires { IsAt self.old.held.rows place }
        ensures* writes_back { sem 𝓛 (lends_value K.row V.row self.entry place result) }
        ensures value { option_map (λ r. r.value) (row_at self.old.held.rows place) ≡ Some result.now }
    {
        match self.list.slot_mut(place as usize) {
            Some(pair) => &mut pair.1,
            None => unreachable!(),
        }
    }
}

impl<K: Drop, V: Drop> Nodes<K, V> {
    /// No pairs, with room for `capacity`, and for `places` in the column.
    pub(crate) fn with_capacity(
        alloc: Global,
        capacity: usize,
        places: u32,
    ) -> Result<Self, AllocError>
        ensures empty { IfOk result (λ nodes. nodes ≡ laid (recency [] 0) 2) }
        ensures valid { IfOk result IsLaid }
    {
        let list = LinkedList::with_capacity(alloc, capacity)?;
        let mut weights = Vec::with_capacity(alloc, places as usize)?;
        weights.resize(SENTINELS, 0)?;
        Ok(Nodes { list, weights })
    }

    /// Makes the column so many places long. Where there is no memory for that, nothing changes.
    pub(crate) fn lengthen(&mut self, places: u32) -> Result<(), AllocError>
        requires { self.old.room ≤ places }
        ensures done { OnOk result (self.new ≡ laid self.old.held places) }
        ensures refused { OnErr result (self.new ≡ self.old) }
        ensures valid { IsLaid self.new }
    {
        fill_up(&mut self.weights, places as usize)
    }

    /// Puts a pair first, at a place that the column has, and answers the place.
    ///
    /// # Errors
    ///
    /// There is no place for it. The key and the value are handed back, and nothing changes.
    #[inline(always)]
    pub(crate) fn push_first(
        &mut self,
        key: K,
        value: V,
        weight: usize,
    ) -> Result<Place, Unpushed<K, V>>
        requires { length self.old.held.rows + 2 < self.old.room }
        ensures pushes { Pushes (λ r. r ∷ self.old.held.rows) self.old.held key value weight result self.new.held }
        ensures room { self.new.room ≡ self.old.room }
        ensures valid { IsLaid self.new }
    {
        match self.list.push_head(Some((key, value))) {
            Ok(place) => {
                self.weights[place] = weight;
                Ok(place as u32)
            }
            Err(PushError::Memory(node)) => Err(unpushed(NoPlace::Memory, node)),
            Err(PushError::Full(node)) => Err(unpushed(NoPlace::Full, node)),
        }
    }

    /// Puts a pair before that of a place, or last where none is named, as `push_first` does.
    ///
    /// # Errors
    ///
    /// As for `push_first`.
    #[inline(always)]
    pub(crate) fn push_before(
        &mut self,
        before: Option<Place>,
        key: K,
        value: V,
        weight: usize,
    ) -> Result<Place, Unpushed<K, V>>
        requires room { length self.old.held.rows + 2 < self.old.room }
        requires before { IfSome before (IsAt self.old.held.rows) }
        ensures pushes { Pushes (put_before self.old.held.rows before) self.old.held key value weight result self.new.held }
        ensures room { self.new.room ≡ self.old.room }
        ensures valid { IsLaid self.new }
    {
        let (node, next) = (Some((key, value)), index_of(before));
        match self.list.insert_before(node, next) {
            Ok(at) => {
                self.weights[at] = weight;
                Ok(at as u32)
            }
            Err(PushError::Memory(node)) => Err(unpushed(NoPlace::Memory, node)),
            Err(PushError::Full(node)) => Err(unpushed(NoPlace::Full, node)),
        }
    }

    /// Makes a place that is free, where none is.
    ///
    /// # Errors
    ///
    /// There is no place for a pair more. Nothing changes.
    pub(crate) fn make_free(&mut self) -> Result<(), NoPlace>
        requires { length self.old.held.rows + 2 < self.old.room }
        ensures makes { MakesVacancy self.old.held result self.new.held }
        ensures room { self.new.room ≡ self.old.room }
        ensures valid { IsLaid self.new }
    {
        let place = match self.list.push_head(None) {
            Ok(place) => place,
            Err(PushError::Memory(_)) => return Err(NoPlace::Memory),
            Err(PushError::Full(_)) => return Err(NoPlace::Full),
        };
        self.list.remove(place);
        Ok(())
    }

    /// Takes a place's pair out. The place is free then.
    #[inline(always)]
    pub(crate) fn take(&mut self, place: Place) -> Taken<K, V>
        requires { IsAt self.old.held.rows place }
        ensures taken { option_map taken (row_at self.old.held.rows place) ≡ Some result }
        ensures rows { self.new ≡ laid (recency (without self.old.held.rows place) (self.old.held.free + 1)) self.old.room }
        ensures valid { IsLaid self.new }
    {
        let weight = self.weights[place as usize];
        match self.list.remove(place as usize) {
            Some((key, value)) => Taken { key, value, weight },
            None => unreachable!(),
        }
    }

    /// Puts another key and another value at a place, and answers those that stood there, with the weight, which stays.
    #[inline(always)]
    pub(crate) fn exchange(&mut self, place: Place, key: K, value: V) -> Taken<K, V>
        requires { IsAt self.old.held.rows place }
        ensures taken { option_map taken (row_at self.old.held.rows place) ≡ Some result }
        ensures rows { self.new ≡ with_rows self.old (with_entry self.old.held.rows place key value result.weight) }
        ensures valid { IsLaid self.new }
    {
        let weight = self.weights[place as usize];
        match self.list.slot_mut(place as usize).replace((key, value)) {
            Some((key, value)) => Taken { key, value, weight },
            None => unreachable!(),
        }
    }
}

// The index that a list has for a place, and for the end where none is named.
#[inline(always)]
fn index_of(named: Option<Place>) -> Index
    ensures { result ≡ index_of named }
{
    match named {
        Some(place) => place as usize,
        None => BEHIND_ALL,
    }
}

// What is handed back of a pair that the list refused.
fn unpushed<K, V>(cause: NoPlace, node: Option<(K, V)>) -> Unpushed<K, V>
    requires { IsSome node }
    ensures cause { result.cause ≡ cause }
    ensures pair { node ≡ Some (result.key, result.value) }
{
    match node {
        Some((key, value)) => Unpushed { cause, key, value },
        None => unreachable!(),
    }
}

// Puts zeros behind a column, until it is so long. Where there is no memory for them, nothing has changed.
fn fill_up(column: &mut Vec<usize>, len: usize) -> Result<(), AllocError>
    requires { length column.old.items ≤ len }
    ensures made { OnOk result (column.new.items ≡ column.old.items ++ replicate (len - length column.old.items) 0) }
    ensures refused { OnErr result (column.new.items ≡ column.old.items) }
{
    column.reserve_exact(len - column.len())?;
    column.resize(len, 0)
}
