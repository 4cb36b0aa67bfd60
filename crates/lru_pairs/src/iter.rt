//! The pairs one after another, with their weights or their keys alone.
ghost use Rattle.std.specs.Prelude.{◌≡◌, ◌<◌, length, get_or, Some, IfSome, IsSome};
ghost use Rattle.std.specs.Iterator.{at_most, UpTo};
ghost use Rattle.std.specs.Iterator.SizeHint.{IsWithinCount};
ghost use Rattle.std.specs.Map.Iter.{TakesFirst, TakesLast, deref};
ghost use Rattle.lru_rows.specs.Rows.{shown_entry};

use lru_list::linked_list::{LinkedListEntries, LinkedListIter};
use std::iter::FusedIterator;
use std::marker::Model;

/// The key, the value and the weight of each pair that is left to give, most recent first.
#[derive(Drop)]
pub struct PairsEntries<'a, K, V> {
    pub(crate) nodes: LinkedListEntries<'a, Option<(K, V)>>,
    pub(crate) weights: &'a [usize],
}

impl<'a, K, V> Model for PairsEntries<'a, K, V> {
    ghost use Rattle.std.specs.Prelude.{List, ℕ, map};
    ghost use Rattle.lru_rows.specs.Rows.{entry_of};
    ghost use Rattle.lru_pairs.specs.Representation.Nodes.{rows_in, AreWeighed};

    ghost Value = { List (K × V × ℕ) };

    ghost view = { λ i. map entry_of (rows_in i.weights.now i.nodes) };

    ghost invariant = { λ i. AreWeighed i.weights.now i.nodes };
}

// The pair of a node.
#[inline(always)]
fn pair_of<'a, K, V>(node: &'a Option<(K, V)>) -> &'a (K, V)
    requires { IsSome node.now }
    ensures { node.now ≡ Some result.now }
{
    match node {
        Some(pair) => pair,
        None => unreachable!(),
    }
}

// The weight of a place.
#[inline(always)]
fn weight_at(weights: &[usize], place: usize) -> usize
    requires { place < length weights.now }
    ensures { result ≡ get_or weights.now place 0 }
{
    weights[place]
}

impl<'a, K, V> Iterator for PairsEntries<'a, K, V> {
    type Item = (&'a K, &'a V, usize);

    ghost next_gives = { TakesFirst shown_entry };

    ghost remaining = { λ rest. at_most (length rest) };

    fn next(&mut self) -> Option<(&'a K, &'a V, usize)> {
        let (place, node) = self.nodes.next()?;
        let pair = pair_of(node);
        Some((&pair.0, &pair.1, weight_at(self.weights, place)))
    }

    fn size_hint(&self) -> (usize, Option<usize>)
        ensures lower { IsWithinCount result.0 (at_most (length self.now)) }
        ensures upper { IfSome result.1 (UpTo (at_most (length self.now))) }
        ensures exact { result ≡ (length self.now, Some (length self.now)) }
    {
        self.nodes.size_hint()
    }
}

impl<'a, K, V> DoubleEndedIterator for PairsEntries<'a, K, V> {
    ghost next_back_gives = { TakesLast shown_entry };

    fn next_back(&mut self) -> Option<(&'a K, &'a V, usize)> {
        let (place, node) = self.nodes.next_back()?;
        let pair = pair_of(node);
        Some((&pair.0, &pair.1, weight_at(self.weights, place)))
    }
}

impl<'a, K, V> ExactSizeIterator for PairsEntries<'a, K, V> {
    fn len(&self) -> usize {
        self.nodes.len()
    }
}

impl<'a, K, V> FusedIterator for PairsEntries<'a, K, V> {}

/// The key of each pair that is left to give, most recent first.
#[derive(Drop)]
pub struct PairsKeys<'a, K, V> {
    pub(crate) nodes: LinkedListIter<'a, Option<(K, V)>>,
}

impl<'a, K, V> Model for PairsKeys<'a, K, V> {
    ghost use Rattle.std.specs.Prelude.{List};
    ghost use Rattle.lru_pairs.specs.Representation.Nodes.{keys_in, ArePairs};

    ghost Value = { List K };

    ghost view = { λ i. keys_in i.nodes };

    ghost invariant = { λ i. ArePairs i.nodes };
}

impl<'a, K, V> Iterator for PairsKeys<'a, K, V> {
    type Item = &'a K;

    ghost next_gives = { TakesFirst deref };

    ghost remaining = { λ rest. at_most (length rest) };

    fn next(&mut self) -> Option<&'a K> {
        let node = self.nodes.next()?;
        Some(&pair_of(node).0)
    }

    fn size_hint(&self) -> (usize, Option<usize>)
        ensures lower { IsWithinCount result.0 (at_most (length self.now)) }
        ensures upper { IfSome result.1 (UpTo (at_most (length self.now))) }
        ensures exact { result ≡ (length self.now, Some (length self.now)) }
    {
        self.nodes.size_hint()
    }
}

impl<'a, K, V> DoubleEndedIterator for PairsKeys<'a, K, V> {
    ghost next_back_gives = { TakesLast deref };

    fn next_back(&mut self) -> Option<&'a K> {
        let node = self.nodes.next_back()?;
        Some(&pair_of(node).0)
    }
}

impl<'a, K, V> ExactSizeIterator for PairsKeys<'a, K, V> {
    fn len(&self) -> usize {
        self.nodes.len()
    }
}

impl<'a, K, V> FusedIterator for PairsKeys<'a, K, V> {}
