//! The rows of an actor's shard, one after the other.

use lru_list::linked_list::LinkedListIter;
use lru_shard::unit::LruUnitIter;
use std::marker::Model;

/// The hash, the key and the weight of each row that is left to give, most recent first.
#[derive(Drop)]
pub struct ShardStateIter<'a, K> {
    pub(crate) hashes: LinkedListIter<'a, u64>,
    pub(crate) rows: LruUnitIter<'a, K>,
}

impl<'a, K> Model for ShardStateIter<'a, K> {
    ghost use Rattle.std.specs.Prelude.{◌≡◌, List, ℕ, length};
    ghost use Rattle.std.specs.List.{zip};

    ghost Value = { List (ℕ × (K × ℕ)) };

    ghost view = { λ i. zip i.hashes i.rows };

    ghost invariant = { λ i. length i.hashes ≡ length i.rows };
}

impl<'a, K> Iterator for ShardStateIter<'a, K> {
    type Item = (u64, &'a K, usize);

    ghost use Rattle.std.specs.Prelude.{◌≡◌, length, Some, IfSome};
    ghost use Rattle.std.specs.Iterator.{at_most, UpTo};
    ghost use Rattle.std.specs.Iterator.SizeHint.{IsWithinCount};
    ghost use Rattle.std.specs.Map.Iter.{TakesFirst};
    ghost use Rattle.lru_actors.specs.Messages.{told};

    ghost next_gives = { TakesFirst told };

    ghost remaining = { λ rest. at_most (length rest) };

    fn next(&mut self) -> Option<(u64, &'a K, usize)> {
        let hash = self.hashes.next()?;
        let Some((key, weight)) = self.rows.next() else {
            unreachable!()
        };
        Some((*hash, key, weight))
    }

    fn size_hint(&self) -> (usize, Option<usize>)
        ensures lower { IsWithinCount result.0 (at_most (length self.now)) }
        ensures upper { IfSome result.1 (UpTo (at_most (length self.now))) }
        ensures exact { result ≡ (length self.now, Some (length self.now)) }
    {
        self.hashes.size_hint()
    }
}
