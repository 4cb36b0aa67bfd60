//! The shard of an actor.
ghost use Rattle.std.specs.Prelude.{◌≡◌};

use crate::effect::{Effect, Reply};
use crate::iter::ShardStateIter;
use crate::message::LruMsg;
use lru_shard::unit::LruUnit;
use std::alloc::{AllocError, Global};
use std::marker::Model;

/// A shard whose rows are known by hash, and a count of the messages that it refused, modulo 2^64.
#[derive(Drop)]
pub struct ShardState<K: Drop> {
    unit: LruUnit<K>,
    refused: u64,
    alloc: Global,
}

impl<K: Drop> Model for ShardState<K> {
    ghost use Rattle.lru_actors.specs.Messages.{State, state_of, state_code};

    ghost Value = { State K };

    ghost coded = { state_code K.code };

    ghost view = { λ s. state_of s.unit s.refused };
}

impl<K: Drop> ShardState<K> {
    ghost use Rattle.std.specs.Prelude.{◌+◌, ◌%◌, ◌^◌, [], IfOk, length, map, true};
    ghost use Rattle.lru_shard.specs.Row.{weight_of};
    ghost use Rattle.lru_shard.specs.Shard.{shard, IsShard};
    ghost use Rattle.lru_actors.specs.Messages.{state_of, quiet, measure, listed};

    /// An empty shard with room for `capacity` rows, whose weights may sum up to `cap`.
    pub fn with_capacity(alloc: Global, capacity: usize, cap: usize) -> Result<Self, AllocError>
        ensures { IfOk result (λ state. state ≡ state_of (shard [] cap) 0) }
    {
        Ok(ShardState {
            unit: LruUnit::with_capacity(alloc, capacity, cap)?,
            refused: 0,
            alloc,
        })
    }

    /// How many rows there are.
    pub fn len(&self) -> usize
        ensures { result ≡ length self.now.shard.rows }
    {
        self.unit.len()
    }

    /// The sum of the weights of the rows.
    pub fn used_weight(&self) -> usize
        ensures { result ≡ weight_of self.now.shard.rows }
    {
        self.unit.used_weight()
    }

    /// The hash, the key and the weight of each row, most recent first.
    pub fn iter(&self) -> ShardStateIter<'_, K>
        ensures { result ≡ map listed self.now.shard.rows }
    {
        ShardStateIter {
            hashes: self.unit.keys(),
            rows: self.unit.iter(),
        }
    }

    /// How many messages were refused, modulo 2^64.
    pub fn refused(&self) -> u64
        ensures { result ≡ self.now.refused }
    {
        self.refused
    }

    // The weight, and how many rows there are.
    fn measure(&self) -> (usize, usize)
        ensures value { result ≡ measure self.now.shard.rows }
        ensures valid { IsShard self.now.shard }
    {
        (self.unit.used_weight(), self.unit.len())
    }

    // The effect of a message that is neither refused nor tells more than sizes.
    fn effect(&self, before: (usize, usize), look: bool) -> Effect<K>
        ensures { result ≡ quiet before (measure self.now.shard.rows) look }
    {
        let (weight_after, len_after) = self.measure();
        Effect {
            put: None,
            cleared: None,
            weight_before: before.0,
            weight_after,
            len_before: before.1,
            len_after,
            evicted: None,
            reply: None,
            refused: false,
            look,
        }
    }

    // Counts a refused message.
    pub(crate) fn refuse(&mut self, look: bool) -> Effect<K>
        ensures state { self.new ≡ state_of self.old.shard ((self.old.refused + 1) % 2 ^ 64) }
        ensures effect { result ≡ record (quiet (measure self.old.shard.rows) (measure self.old.shard.rows) look) { refused = true } }
    {
        self.refused = self.refused.wrapping_add(1);
        let mut effect = self.effect(self.measure(), look);
        effect.refused = true;
        effect
    }
}

impl<K: Clone + Drop> ShardState<K> {
    ghost use Rattle.lru_actors.specs.Messages.{Steps, Replies, AreClones};
    ghost use Rattle.std.specs.Prelude.{IfOk, map};
    ghost use Rattle.lru_shard.specs.Row.{pair_of};
    ghost use Rattle.lru_actors.specs.declared.message.LruMsg.TheVariants.{Admit, IncrementWeight, Promote, Remove, InsertTail, Evict, PeekLru, Snapshot, QueryWeight};

    fn promote(&mut self, hash: u64) -> Effect<K>
        ensures { Steps K.is_clone self.old (Promote hash) result self.new }
    {
        let before = self.measure();
        let _held = self.unit.access(hash);
        self.effect(before, false)
    }

    fn remove(&mut self, hash: u64) -> Effect<K>
        ensures { Steps K.is_clone self.old (Remove hash) result self.new }
    {
        let before = self.measure();
        let Some(_row) = self.unit.remove(hash) else {
            return self.effect(before, false);
        };
        let mut effect = self.effect(before, false);
        effect.cleared = Some(hash);
        effect
    }

    fn query_weight(&self) -> Effect<K>
        ensures { Steps K.is_clone self.now QueryWeight result self.now }
    {
        let before = self.measure();
        let mut effect = self.effect(before, false);
        effect.reply = Some(Reply::Weight(before.0));
        effect
    }

    fn admit(&mut self, hash: u64, key: K, weight: usize) -> Effect<K>
        ensures { Steps K.is_clone self.old (Admit hash key weight) result self.new }
    {
        let before = self.measure();
        let Ok((_, weight)) = self.unit.update_or_admit(
            hash,
            |key: &mut K, _: usize| -> usize
                ensures given { result ≡ weight }
                ensures kept { key.new ≡ key.old }
            { weight },
            || (key, weight),
        )
        else {
            return self.refuse(true);
        };
        let mut effect = self.effect(before, true);
        effect.put = Some((hash, weight));
        effect
    }

    fn increment_weight(
        &mut self,
        hash: u64,
        key: K,
        delta: usize,
        max_weight: Option<usize>,
    ) -> Effect<K>
        ensures { Steps K.is_clone self.old (IncrementWeight hash key delta max_weight) result self.new }
    {
        let before = self.measure();
        let Ok((_, weight, _)) = self.unit.increment_weight(hash, || key, delta, max_weight) else {
            return self.refuse(true);
        };
        let mut effect = self.effect(before, true);
        effect.put = Some((hash, weight));
        effect
    }

    fn insert_tail(&mut self, hash: u64, key: K, weight: usize) -> Effect<K>
        ensures { Steps K.is_clone self.old (InsertTail hash key weight) result self.new }
    {
        let before = self.measure();
        let Ok(added) = self.unit.insert_tail(hash, key, weight) else {
            return self.refuse(false);
        };
        if !added {
            return self.effect(before, false);
        }
        let mut effect = self.effect(before, false);
        effect.put = Some((hash, weight));
        effect
    }

    fn evict(&mut self) -> Effect<K>
        ensures { Steps K.is_clone self.old Evict result self.new }
    {
        let before = self.measure();
        let Some(hash) = self.unit.lru_key() else {
            return self.effect(before, false);
        };
        let evicted = self.unit.evict();
        let mut effect = self.effect(before, false);
        effect.cleared = Some(hash);
        effect.evicted = evicted;
        effect
    }

    fn peek_lru(&self) -> Effect<K>
        ensures { Steps K.is_clone self.now PeekLru result self.now }
    {
        let before = self.measure();
        let mut effect = self.effect(before, false);
        effect.reply = Some(self.last_pair());
        effect
    }

    // A clone of the last row's key, and its weight.
    fn last_pair(&self) -> Reply<K>
        ensures { Replies K.is_clone self.now.shard.rows PeekLru (Some result) }
    {
        let Some((key, weight)) = self.unit.peek_lru() else {
            return Reply::Lru(None);
        };
        match key.clone() {
            Ok(key) => Reply::Lru(Some((key, weight))),
            Err(_) => Reply::Memory,
        }
    }

    /// Serves a message: the rows, and what the effect tells, are as the table of messages says. A message that
    /// a shard would refuse, for Length, Weight or Memory, changes the count of refused messages alone.
    pub fn step(&mut self, msg: LruMsg<K>) -> Effect<K>
        ensures { Steps K.is_clone self.old msg result self.new }
    {
        match msg {
            LruMsg::Admit { hash, key, weight } => self.admit(hash, key, weight),
            LruMsg::IncrementWeight {
                hash,
                key,
                delta,
                max_weight,
            } => self.increment_weight(hash, key, delta, max_weight),
            LruMsg::Promote { hash } => self.promote(hash),
            LruMsg::Remove { hash } => self.remove(hash),
            LruMsg::InsertTail { hash, key, weight } => self.insert_tail(hash, key, weight),
            LruMsg::Evict => self.evict(),
            LruMsg::PeekLru => self.peek_lru(),
            LruMsg::Snapshot => self.snapshot(),
            LruMsg::QueryWeight => self.query_weight(),
        }
    }

    fn snapshot(&self) -> Effect<K>
        ensures { Steps K.is_clone self.now Snapshot result self.now }
    {
        let before = self.measure();
        let mut effect = self.effect(before, false);
        effect.reply = Some(self.all_pairs());
        effect
    }

    // Clones of all keys with their weights.
    fn all_pairs(&self) -> Reply<K>
        ensures { Replies K.is_clone self.now.shard.rows Snapshot (Some result) }
    {
        match self.clones() {
            Ok(pairs) => Reply::Rows(pairs),
            Err(_) => Reply::Memory,
        }
    }

    fn clones(&self) -> Result<Vec<(K, usize)>, AllocError>
        ensures { IfOk result (λ pairs. AreClones K.is_clone (map pair_of self.now.shard.rows) pairs.items) }
    {
        let mut pairs = Vec::with_capacity(self.alloc, self.unit.len())?;
        let mut rest = self.unit.iter();
        while let Some((key, weight)) = rest.next() {
            pairs.push((key.clone()?, weight))?;
        }
        Ok(pairs)
    }
}
