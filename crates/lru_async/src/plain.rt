//! The line to the actors of an order.
ghost use Rattle.std.specs.Prelude.{◌≡◌, ◌<◌, OnOk, IfOk, IfErr};
ghost use Rattle.lru_async.specs.Refusals.{held_in};

use crate::async_lru::AsyncLru;
use crate::cells::cell_of_question;
use crate::line::Line;
use crate::refusals::SendRefused;
use crate::sends::{Addressed, Heard, heard_in, refusal_of};
use lru_actors::Letter;
use lru_actors::message::LruMsg;
use lru_boxes::BoxRegistry;
use lru_inbox::tie::Archive;
use std::sync::Wait;

/// The line to the actors of an order without logs. What a call does behind a lock is known nowhere, so it says nothing of it.
#[derive(Drop)]
pub(crate) struct Plain<'a, K: Clone + Drop, const N: usize, B: BoxRegistry + Archive, R: Wait> {
    lru: &'a AsyncLru<K, N, B>,
    rt: &'a R,
}

impl<'a, K: Clone + Drop, const N: usize, B: BoxRegistry + Archive, R: Wait> Plain<'a, K, N, B, R> {
    pub(crate) fn new(lru: &'a AsyncLru<K, N, B>, rt: &'a R) -> Self {
        Plain { lru, rt }
    }
}

impl<'a, K: Clone + Drop, const N: usize, B: BoxRegistry + Archive, R: Wait> Line<K>
    for Plain<'a, K, N, B, R> {
    ghost shards = { λ _. N };

    ghost Sent = { λ _ _ _ _. Unit {0} };

    ghost Told = { λ _ _ _ _ _ _. Unit {0} };

    ghost Looked = { λ _ _ _ _ _. Unit {0} };

    fn count(&self) -> usize {
        N
    }

    fn send(&mut self, addressed: Addressed<K>) -> Result<(), SendRefused<LruMsg<K>>>
        requires { addressed.shard < N }
        ensures sent { OnOk result (Unit {0}) }
        ensures held { IfErr result (λ r. held_in r ≡ addressed.message) }
        ensures count { N ≡ N }
    {
        let Addressed { shard, message } = addressed;
        match self.lru.world.shards[shard]
            .mailbox
            .push(self.rt, Letter::new(message))
        {
            Ok(()) => Ok(()),
            Err(refused) => Err(refusal_of(refused)),
        }
    }

    fn ask(&mut self, addressed: Addressed<K>) -> Result<Heard<K>, SendRefused<()>>
        requires { addressed.shard < N }
        ensures told { IfOk result (λ _. Unit {0}) }
        ensures count { N ≡ N }
    {
        let Addressed { shard, message } = addressed;
        let (cell, theirs) = cell_of_question(self.lru.alloc)?;
        match self.lru.world.shards[shard]
            .mailbox
            .push(self.rt, Letter::asking(message, theirs))
        {
            Ok(()) => heard_in(cell.take(self.rt)),
            Err(refused) => Err(refusal_of(refused).bare()),
        }
    }

    fn look(&mut self, shard: usize, hash: u64) -> Option<usize> {
        self.lru.world.shards[shard].weight_of(self.rt, hash)
    }
}
