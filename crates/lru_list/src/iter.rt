//! Iterators over a list.
//!
//! Each goes from both ends, stops where the ends meet, and is exact on what is left.
ghost use Rattle.std.specs.Prelude.{◌≡◌, length, IfSome};
ghost use Rattle.std.specs.Iterator.{at_most, UpTo};
ghost use Rattle.std.specs.Iterator.SizeHint.{IsWithinCount};
ghost use Rattle.std.specs.Map.Iter.{TakesFirst, TakesLast, deref};
ghost use Rattle.lru_list.specs.Linked.{itself, with_its_item};

use crate::linked_list::{Index, Node};
use std::iter::FusedIterator;
use std::marker::Model;

/// An iterator over the items of a list, from head to tail.
#[derive(Drop)]
pub struct LinkedListIter<'a, K> {
    pub(crate) nodes: &'a [Node<K>],
    pub(crate) head: u32,
    pub(crate) tail: u32,
    pub(crate) left: u32,
}

impl<'a, K> Model for LinkedListIter<'a, K> {
    ghost use Rattle.std.specs.Prelude.{List};

    ghost Value = { List K };

    ghost use Rattle.lru_list.specs.Representation.Nodes.{rest_of, IsSpan};

    ghost view = { λ it. rest_of it.nodes.now it.head it.left };

    ghost invariant = { λ it. IsSpan it.nodes.now it.head it.tail it.left };
}

impl<'a, K> Iterator for LinkedListIter<'a, K> {
    type Item = &'a K;

    ghost next_gives = { TakesFirst deref };

    ghost remaining = { λ rest. at_most (length rest) };

    fn next(&mut self) -> Option<&'a K> {
        if self.left == 0 {
            return None;
        }
        let nodes = self.nodes;
        let node = &nodes[self.head as usize];
        self.head = node.next;
        self.left -= 1;
        Some(&node.item)
    }

    fn size_hint(&self) -> (usize, Option<usize>)
        ensures lower { IsWithinCount result.0 (at_most (length self.now)) }
        ensures upper { IfSome result.1 (UpTo (at_most (length self.now))) }
        ensures exact { result ≡ (length self.now, Some (length self.now)) }
    {
        let len = self.len();
        (len, Some(len))
    }
}

impl<'a, K> DoubleEndedIterator for LinkedListIter<'a, K> {
    ghost next_back_gives = { TakesLast deref };

    fn next_back(&mut self) -> Option<&'a K> {
        if self.left == 0 {
            return None;
        }
        let nodes = self.nodes;
        let node = &nodes[self.tail as usize];
        self.tail = node.prev;
        self.left -= 1;
        Some(&node.item)
    }
}

impl<'a, K> ExactSizeIterator for LinkedListIter<'a, K> {
    fn len(&self) -> usize {
        self.left as usize
    }
}

impl<'a, K> FusedIterator for LinkedListIter<'a, K> {}

/// An iterator over the indices of a list's items, from head to tail.
#[derive(Drop)]
pub struct LinkedListIndices<'a, K> {
    pub(crate) nodes: &'a [Node<K>],
    pub(crate) first: u32,
    pub(crate) last: u32,
    pub(crate) count: u32,
}

impl<'a, K> Model for LinkedListIndices<'a, K> {
    ghost use Rattle.std.specs.Prelude.{List, ℕ};

    ghost Value = { List ℕ };

    ghost use Rattle.lru_list.specs.Representation.Nodes.{places_of, IsSpan};

    ghost view = { λ it. places_of it.nodes.now it.first it.count };

    ghost invariant = { λ it. IsSpan it.nodes.now it.first it.last it.count };
}

impl<'a, K> Iterator for LinkedListIndices<'a, K> {
    type Item = Index;

    ghost next_gives = { TakesFirst itself };

    ghost remaining = { λ rest. at_most (length rest) };

    fn next(&mut self) -> Option<Index> {
        if self.count == 0 {
            return None;
        }
        let nodes = self.nodes;
        let index = self.first;
        let node = &nodes[index as usize];
        self.first = node.next;
        self.count -= 1;
        Some(index as usize)
    }

    fn size_hint(&self) -> (usize, Option<usize>)
        ensures lower { IsWithinCount result.0 (at_most (length self.now)) }
        ensures upper { IfSome result.1 (UpTo (at_most (length self.now))) }
        ensures exact { result ≡ (length self.now, Some (length self.now)) }
    {
        let len = self.len();
        (len, Some(len))
    }
}

impl<'a, K> DoubleEndedIterator for LinkedListIndices<'a, K> {
    ghost next_back_gives = { TakesLast itself };

    fn next_back(&mut self) -> Option<Index> {
        if self.count == 0 {
            return None;
        }
        let nodes = self.nodes;
        let place = self.last;
        let node = &nodes[place as usize];
        self.last = node.prev;
        self.count -= 1;
        Some(place as usize)
    }
}

impl<'a, K> ExactSizeIterator for LinkedListIndices<'a, K> {
    fn len(&self) -> usize {
        self.count as usize
    }
}

impl<'a, K> FusedIterator for LinkedListIndices<'a, K> {}

/// An iterator over the indices of a list's items, each with its item, from head to tail.
#[derive(Drop)]
pub struct LinkedListEntries<'a, K> {
    pub(crate) nodes: &'a [Node<K>],
    pub(crate) front: u32,
    pub(crate) back: u32,
    pub(crate) left: u32,
}

impl<'a, K> Model for LinkedListEntries<'a, K> {
    ghost use Rattle.std.specs.Prelude.{List, ℕ};

    ghost Value = { List (ℕ × K) };

    ghost use Rattle.lru_list.specs.Representation.Nodes.{pairs_of, IsSpan};

    ghost view = { λ it. pairs_of it.nodes.now it.front it.left };

    ghost invariant = { λ it. IsSpan it.nodes.now it.front it.back it.left };
}

impl<'a, K> Iterator for LinkedListEntries<'a, K> {
    type Item = (Index, &'a K);

    ghost next_gives = { TakesFirst with_its_item };

    ghost remaining = { λ rest. at_most (length rest) };

    fn next(&mut self) -> Option<(Index, &'a K)> {
        if self.left == 0 {
            return None;
        }
        let nodes = self.nodes;
        let index = self.front;
        let node = &nodes[index as usize];
        self.front = node.next;
        self.left -= 1;
        Some((index as usize, &node.item))
    }

    fn size_hint(&self) -> (usize, Option<usize>)
        ensures lower { IsWithinCount result.0 (at_most (length self.now)) }
        ensures upper { IfSome result.1 (UpTo (at_most (length self.now))) }
        ensures exact { result ≡ (length self.now, Some (length self.now)) }
    {
        let len = self.len();
        (len, Some(len))
    }
}

impl<'a, K> DoubleEndedIterator for LinkedListEntries<'a, K> {
    ghost next_back_gives = { TakesLast with_its_item };

    fn next_back(&mut self) -> Option<(Index, &'a K)> {
        if self.left == 0 {
            return None;
        }
        let nodes = self.nodes;
        let place = self.back;
        let node = &nodes[place as usize];
        self.back = node.prev;
        self.left -= 1;
        Some((place as usize, &node.item))
    }
}

impl<'a, K> ExactSizeIterator for LinkedListEntries<'a, K> {
    fn len(&self) -> usize {
        self.left as usize
    }
}

impl<'a, K> FusedIterator for LinkedListEntries<'a, K> {}
