//! The data and the weights of rows, one after another.
ghost use Rattle.std.specs.Prelude.{◌≡◌, ◌<◌, length, get_or, Some, IfSome, IsSome};
ghost use Rattle.std.specs.Iterator.{at_most, UpTo};
ghost use Rattle.std.specs.Iterator.SizeHint.{IsWithinCount};
ghost use Rattle.std.specs.Map.Iter.{TakesFirst, TakesLast};
ghost use Rattle.lru_rows.specs.Rows.{shown, shown_entry};
ghost use Rattle.lru_rows.specs.Representation.Columns.{value_at};

use lru_list::linked_list::{LinkedListEntries, LinkedListIndices};
use std::iter::FusedIterator;
use std::marker::Model;

/// The data and the weight of each row that is left to give, most recent first.
#[derive(Drop)]
pub struct RowsIter<'a, K, T> {
    pub(crate) places: LinkedListIndices<'a, K>,
    pub(crate) weights: &'a [usize],
    pub(crate) values: &'a [Option<T>],
}

impl<'a, K, T> Model for RowsIter<'a, K, T> {
    ghost use Rattle.std.specs.Prelude.{List, ℕ};
    ghost use Rattle.lru_rows.specs.Representation.Columns.{pairs_at, ShowsAll};

    ghost Value = { List (T × ℕ) };

    ghost view = { λ i. pairs_at i.weights.now i.values.now i.places };

    ghost invariant = { λ i. ShowsAll i.weights.now i.values.now i.places };
}

// What stands at a place.
#[inline(always)]
fn pair_at<'a, T>(weights: &'a [usize], values: &'a [Option<T>], place: usize) -> (&'a T, usize)
    requires held { IsSome (value_at values.now place) }
    requires weighed { place < length weights.now }
    ensures value { value_at values.now place ≡ Some result.0.now }
    ensures weight { result.1 ≡ get_or weights.now place 0 }
{
    match &values[place] {
        Some(value) => (value, weights[place]),
        None => unreachable!(),
    }
}

impl<'a, K, T> Iterator for RowsIter<'a, K, T> {
    type Item = (&'a T, usize);

    ghost next_gives = { TakesFirst shown };

    ghost remaining = { λ rest. at_most (length rest) };

    fn next(&mut self) -> Option<(&'a T, usize)> {
        let place = self.places.next()?;
        Some(pair_at(self.weights, self.values, place))
    }

    fn size_hint(&self) -> (usize, Option<usize>)
        ensures lower { IsWithinCount result.0 (at_most (length self.now)) }
        ensures upper { IfSome result.1 (UpTo (at_most (length self.now))) }
        ensures exact { result ≡ (length self.now, Some (length self.now)) }
    {
        self.places.size_hint()
    }
}

impl<'a, K, T> DoubleEndedIterator for RowsIter<'a, K, T> {
    ghost next_back_gives = { TakesLast shown };

    fn next_back(&mut self) -> Option<(&'a T, usize)> {
        let place = self.places.next_back()?;
        Some(pair_at(self.weights, self.values, place))
    }
}

impl<'a, K, T> ExactSizeIterator for RowsIter<'a, K, T> {
    fn len(&self) -> usize {
        self.places.len()
    }
}

impl<'a, K, T> FusedIterator for RowsIter<'a, K, T> {}

/// The key, the data and the weight of each row that is left to give, most recent first.
#[derive(Drop)]
pub struct RowsEntries<'a, K, T> {
    pub(crate) keys: LinkedListEntries<'a, K>,
    pub(crate) weights: &'a [usize],
    pub(crate) values: &'a [Option<T>],
}

impl<'a, K, T> Model for RowsEntries<'a, K, T> {
    ghost use Rattle.std.specs.Prelude.{List, ℕ, map};
    ghost use Rattle.lru_list.specs.Linked.{indices_of};
    ghost use Rattle.lru_rows.specs.Rows.{entry_of};
    ghost use Rattle.lru_rows.specs.Representation.Columns.{rows_in, ShowsAll};

    ghost Value = { List (K × T × ℕ) };

    ghost view = { λ i. map entry_of (rows_in i.weights.now i.values.now i.keys) };

    ghost invariant = { λ i. ShowsAll i.weights.now i.values.now (indices_of i.keys) };
}

impl<'a, K, T> Iterator for RowsEntries<'a, K, T> {
    type Item = (&'a K, &'a T, usize);

    ghost next_gives = { TakesFirst shown_entry };

    ghost remaining = { λ rest. at_most (length rest) };

    fn next(&mut self) -> Option<(&'a K, &'a T, usize)> {
        let (place, key) = self.keys.next()?;
        let (value, weight) = pair_at(self.weights, self.values, place);
        Some((key, value, weight))
    }

    fn size_hint(&self) -> (usize, Option<usize>)
        ensures lower { IsWithinCount result.0 (at_most (length self.now)) }
        ensures upper { IfSome result.1 (UpTo (at_most (length self.now))) }
        ensures exact { result ≡ (length self.now, Some (length self.now)) }
    {
        self.keys.size_hint()
    }
}

impl<'a, K, T> DoubleEndedIterator for RowsEntries<'a, K, T> {
    ghost next_back_gives = { TakesLast shown_entry };

    fn next_back(&mut self) -> Option<(&'a K, &'a T, usize)> {
        let (place, key) = self.keys.next_back()?;
        let (value, weight) = pair_at(self.weights, self.values, place);
        Some((key, value, weight))
    }
}

impl<'a, K, T> ExactSizeIterator for RowsEntries<'a, K, T> {
    fn len(&self) -> usize {
        self.keys.len()
    }
}

impl<'a, K, T> FusedIterator for RowsEntries<'a, K, T> {}
