//! The entries one after another.
ghost use Rattle.std.specs.Prelude.{◌≡◌, length, Some, IfSome};
ghost use Rattle.std.specs.Iterator.{at_most, UpTo};
ghost use Rattle.std.specs.Iterator.SizeHint.{IsWithinCount};
ghost use Rattle.std.specs.Map.Iter.{TakesFirst, TakesLast};
ghost use Rattle.lru_rows.specs.Rows.{shown_entry};

use crate::seat::RankedValue;
use lru_pairs::iter::PairsEntries;
use std::iter::FusedIterator;
use std::marker::Model;

/// The key, the value and the weight of each entry that is left to give: those of the upper segment, most recent first, and
/// then those of the lower one.
#[derive(Drop)]
pub struct SegmentedEntries<'a, K, V> {
    pub(crate) pairs: PairsEntries<'a, K, RankedValue<V>>,
}

impl<'a, K, V> Model for SegmentedEntries<'a, K, V> {
    ghost use Rattle.std.specs.Prelude.{List, ℕ, map};
    ghost use Rattle.lru_segmented.specs.Representation.{bare};

    ghost Value = { List (K × V × ℕ) };

    ghost view = { λ i. map bare i.pairs };
}

impl<'a, K, V> Iterator for SegmentedEntries<'a, K, V> {
    type Item = (&'a K, &'a V, usize);

    ghost next_gives = { TakesFirst shown_entry };

    ghost remaining = { λ rest. at_most (length rest) };

    fn next(&mut self) -> Option<(&'a K, &'a V, usize)> {
        let (key, seat, weight) = self.pairs.next()?;
        Some((key, &seat.value, weight))
    }

    fn size_hint(&self) -> (usize, Option<usize>)
        ensures lower { IsWithinCount result.0 (at_most (length self.now)) }
        ensures upper { IfSome result.1 (UpTo (at_most (length self.now))) }
        ensures exact { result ≡ (length self.now, Some (length self.now)) }
    {
        self.pairs.size_hint()
    }
}

impl<'a, K, V> DoubleEndedIterator for SegmentedEntries<'a, K, V> {
    ghost next_back_gives = { TakesLast shown_entry };

    fn next_back(&mut self) -> Option<(&'a K, &'a V, usize)> {
        let (key, seat, weight) = self.pairs.next_back()?;
        Some((key, &seat.value, weight))
    }
}

impl<'a, K, V> ExactSizeIterator for SegmentedEntries<'a, K, V> {
    fn len(&self) -> usize {
        self.pairs.len()
    }
}

impl<'a, K, V> FusedIterator for SegmentedEntries<'a, K, V> {}
