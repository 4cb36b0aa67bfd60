//! An iterator over the rows of a shard.
ghost use Rattle.std.specs.Prelude.{◌≡◌};

use lru_rows::iter::RowsIter;
use std::iter::FusedIterator;
use std::marker::Model;

/// The data and the weight of each row that is left to give, most recent first.
#[derive(Drop)]
pub struct LruUnitIter<'a, T> {
    pub(crate) rows: RowsIter<'a, u64, T>,
}

impl<'a, T> Model for LruUnitIter<'a, T> {
    ghost use Rattle.std.specs.Prelude.{List, ℕ};

    ghost Value = { List (T × ℕ) };

    ghost view = { λ i. i.rows };
}

impl<'a, T> Iterator for LruUnitIter<'a, T> {
    type Item = (&'a T, usize);

    ghost use Rattle.std.specs.Prelude.{length, Some, IfSome};
    ghost use Rattle.std.specs.Iterator.{at_most, UpTo};
    ghost use Rattle.std.specs.Iterator.SizeHint.{IsWithinCount};
    ghost use Rattle.std.specs.Map.Iter.{TakesFirst};
    ghost use Rattle.lru_shard.specs.Unit.{shown};

    ghost next_gives = { TakesFirst shown };

    ghost remaining = { λ rest. at_most (length rest) };

    fn next(&mut self) -> Option<(&'a T, usize)> {
        self.rows.next()
    }

    fn size_hint(&self) -> (usize, Option<usize>)
        ensures lower { IsWithinCount result.0 (at_most (length self.now)) }
        ensures upper { IfSome result.1 (UpTo (at_most (length self.now))) }
        ensures exact { result ≡ (length self.now, Some (length self.now)) }
    {
        self.rows.size_hint()
    }
}

impl<'a, T> DoubleEndedIterator for LruUnitIter<'a, T> {
    ghost use Rattle.std.specs.Map.Iter.{TakesLast};
    ghost use Rattle.lru_shard.specs.Unit.{shown};

    ghost next_back_gives = { TakesLast shown };

    fn next_back(&mut self) -> Option<(&'a T, usize)> {
        self.rows.next_back()
    }
}

impl<'a, T> ExactSizeIterator for LruUnitIter<'a, T> {
    fn len(&self) -> usize {
        self.rows.len()
    }
}

impl<'a, T> FusedIterator for LruUnitIter<'a, T> {}
