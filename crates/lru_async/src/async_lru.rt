//! An order served by actors.
ghost use Rattle.std.specs.Prelude.{◌≡◌, ◌+◌, ◌%◌, ◌<◌, ◌≤◌, vec_len, IfOk, IfErr, Ok, Some, None};
ghost use Rattle.std.specs.Arc.{arc_value};
ghost use Rattle.lru_actors.specs.Keys.{hash_of};
ghost use Rattle.lru_async.specs.Refusals.{held_in};

use crate::builder::AsyncLruBuilder;
use crate::line;
use crate::plain::Plain;
use crate::refusals::SendRefused;
use crate::saving::{SaveReport, save_all};
use crate::sends::shard_of;
use log::Log;
use lru_actors::ReplyCell;
use lru_actors::key::hash_key;
use lru_boxes::{BoxRegistry, PutSeat, TakeSeat};
use lru_inbox::tie::Archive;
use lru_workers::callback::NoGate;
use lru_workers::world::World;
use std::alloc::Global;
use std::hash::Hash;
use std::marker::Brand;
use std::sync::atomic::Ordering;
use std::sync::{Arc, Wait};

/// The rows of one shard, as `save` hands them out.
#[derive(Debug, Drop)]
pub struct ShardData<K> {
    /// The number of the shard.
    pub shard_index: usize,
    /// Clones of all keys with their weights, most recent first.
    pub items: Vec<(K, usize)>,
    /// How many messages the shard had refused until then, modulo 2^64.
    pub refused: u64,
}

/// What an order came to, once it was closed.
#[derive(Clone, Copy, Debug, PartialEq, Eq)]
pub struct Closed {
    /// The weight of the rows that were left.
    pub weight: usize,
    /// How many rows were left.
    pub len: usize,
    /// The weight of all rows that were evicted, modulo 2^64.
    pub evicted_weight: usize,
    /// How many rows were evicted, modulo 2^64.
    pub evicted_len: usize,
    /// How many evicted pairs are lost, modulo 2^64.
    pub lost_pairs: usize,
}

/// N shards, each a list of rows of a key and a weight, most recent first, served by a thread of its own. A key's shard is
/// its hash modulo N. Calls send messages; evicted pairs go to the callback.
///
/// One that is dropped without `close` leaves its threads waiting.
#[derive(Drop)]
pub struct AsyncLru<K: Clone + Drop, const N: usize, B: BoxRegistry + Archive = Brand> {
    pub(crate) world: Arc<World<K, B>, Global>,
    pub(crate) alloc: Global,
    // each thread's cell, which it fills as its last step
    pub(crate) actors: Vec<Arc<ReplyCell<Option<PutSeat<B>>>, Global>>,
    pub(crate) eviction_workers: Vec<Arc<ReplyCell<()>, Global>>,
    pub(crate) callback_workers: Vec<Arc<ReplyCell<Option<TakeSeat<B>>>, Global>>,
    ghost some: { 0 < N },
    ghost shards: { vec_len (arc_value world).shards ≡ N },
}

impl<
    K: Hash + Eq + Clone + Drop + Send + Sync + 'static,
    const N: usize,
    B: BoxRegistry + Archive,
> AsyncLru<K, N, B> {
    ghost use Rattle.lru_async.specs.Orders.{untold};
    ghost use Rattle.lru_async.specs.Saving.{IsReport, IsWritten};

    /// A builder of an order with a limit on its weight.
    pub fn builder<C>(
        alloc: Global,
        weight_limit: usize,
        callback: Arc<C, Global>,
    ) -> AsyncLruBuilder<K, C, N, NoGate>
        ensures settings { result.settings ≡ untold weight_limit }
        ensures callback { result.callback ≡ callback }
        ensures gate { result.gate ≡ None }
    {
        AsyncLruBuilder::new(alloc, weight_limit, callback, None)
    }

    /// A builder of an order with a limit on its weight, whose actors pass a gate before each message.
    pub fn builder_with_gate<C, G>(
        alloc: Global,
        weight_limit: usize,
        callback: Arc<C, Global>,
        gate: Arc<G, Global>,
    ) -> AsyncLruBuilder<K, C, N, G>
        ensures settings { result.settings ≡ untold weight_limit }
        ensures callback { result.callback ≡ callback }
        ensures gate { result.gate ≡ Some gate }
    {
        AsyncLruBuilder::new(alloc, weight_limit, callback, Some(gate))
    }

    // The line to its actors.
    fn line<'a, R: Wait>(&'a self, rt: &'a R) -> Plain<'a, K, N, B, R>
        ensures { 0 < N }
    {
        // Read for the proof alone, which learns from it what the type says of itself.
        let _world = &self.world;
        Plain::new(self, rt)
    }

    /// Asks for a row first in the shard of its key, and answers that shard. A row that is there gets the weight and keeps the
    /// key that it had. A weight of 0 counts as 1. A message that is refused hands the key back; where the shard refuses the
    /// row later, nothing is handed back.
    pub fn admit(&self, rt: &impl Wait, key: K, weight: usize) -> Result<usize, SendRefused<K>>
        ensures shard { IfOk result (λ s. s ≡ hash_of (K.hash_input key) % N) }
        ensures held { IfErr result (λ r. held_in r ≡ key) }
    {
        line::admit(&mut self.line(rt), key, weight)
    }

    /// Asks for a row last in the shard of its key, where the key has none, and answers that shard. A weight of 0 is kept, and
    /// nothing is evicted for it. A message that is refused hands the key back.
    pub fn insert_tail(
        &self,
        rt: &impl Wait,
        key: K,
        weight: usize,
    ) -> Result<usize, SendRefused<K>>
        ensures shard { IfOk result (λ s. s ≡ hash_of (K.hash_input key) % N) }
        ensures held { IfErr result (λ r. held_in r ≡ key) }
    {
        line::insert_tail(&mut self.line(rt), key, weight)
    }

    /// Asks that a key's row is put first. Where the map has no such hash it answers false, and sends nothing.
    pub fn promote(&self, rt: &impl Wait, key: &K) -> Result<bool, SendRefused<()>> {
        line::promote(&mut self.line(rt), key)
    }

    /// Asks that a key's row is taken out.
    pub fn remove(&self, rt: &impl Wait, key: &K) -> Result<(), SendRefused<()>> {
        self.remove_by_hash(rt, hash_key(key))
    }

    /// Asks that the row with this hash is taken out.
    pub fn remove_by_hash(&self, rt: &impl Wait, hash: u64) -> Result<(), SendRefused<()>> {
        line::remove_by_hash(&mut self.line(rt), hash)
    }

    /// Asks that `delta` is added to a key's weight, as far as `max_weight`, and its row put first. A new row is made of a
    /// clone of the key.
    pub fn increment_weight(
        &self,
        rt: &impl Wait,
        key: &K,
        delta: usize,
        max_weight: Option<usize>,
    ) -> Result<(), SendRefused<()>> {
        line::increment_weight(&mut self.line(rt), key, delta, max_weight)
    }

    /// Whether the map of weights has the hash of this key.
    pub fn peek(&self, rt: &impl Wait, key: &K) -> bool {
        self.peek_weight(rt, key).is_some()
    }

    /// The weight that the map of weights has for the hash of this key.
    pub fn peek_weight(&self, rt: &impl Wait, key: &K) -> Option<usize> {
        self.weight_of(rt, hash_key(key))
    }

    // The weight that the map of weights has for a hash.
    fn weight_of(&self, rt: &impl Wait, hash: u64) -> Option<usize> {
        // Read for the proof alone, which learns from it what the type says of itself.
        let _world = &self.world;
        self.world.shards[shard_of(hash, N)].weight_of(rt, hash)
    }

    /// A clone of the last row's key, and its weight; `None` of an empty shard, and past the last shard. Refused where there
    /// is no memory for the question, the answer or the clone, and where the actor is closed.
    pub fn peek_lru(
        &self,
        rt: &impl Wait,
        shard: usize,
    ) -> Result<Option<(K, usize)>, SendRefused<()>>
        ensures { N ≤ shard → result ≡ Ok None }
    {
        line::peek_lru(&mut self.line(rt), shard)
    }

    /// Clones of all keys of a shard with their weights, most recent first; `None` past the last shard. Refused where there is
    /// no memory for the question, the answer or the clones, and where the actor is closed.
    pub fn snapshot_shard(
        &self,
        rt: &impl Wait,
        shard: usize,
    ) -> Result<Option<Vec<(K, usize)>>, SendRefused<()>>
        ensures { N ≤ shard → result ≡ Ok None }
    {
        line::snapshot_shard(&mut self.line(rt), shard)
    }

    /// The weight of a shard, after all that this caller sent to it before; `None` past the last shard. Refused where there is
    /// no memory for the question or the answer, and where the actor is closed.
    pub fn shard_weight(
        &self,
        rt: &impl Wait,
        shard: usize,
    ) -> Result<Option<usize>, SendRefused<()>>
        ensures { N ≤ shard → result ≡ Ok None }
    {
        line::shard_weight(&mut self.line(rt), shard)
    }

    /// Takes each shard's snapshot in turn, hands it to `write` on this thread, and answers how many were written. A shard
    /// that gives no snapshot is not written; where `write` refuses, a line is logged.
    pub fn save<L: Log, F: Fn(ShardData<K>) -> Result<(), String> + Drop>(
        &self,
        rt: &impl Wait,
        log: &L,
        write: F,
    ) -> usize
        requires { F.IsAlwaysCallable write }
        ensures most { result ≤ N }
        ensures told { IsWritten (F.post write) (λ _. Unit {0}) N result }
    {
        self.save_report(rt, log, write).written
    }

    /// As `save`, and it answers of each shard what became of it: it was written, or refused, or gave no snapshot.
    pub fn save_report<L: Log, F: Fn(ShardData<K>) -> Result<(), String> + Drop>(
        &self,
        rt: &impl Wait,
        log: &L,
        write: F,
    ) -> SaveReport
        requires { F.IsAlwaysCallable write }
        ensures all { result.written + (result.refused + result.missing) ≡ N }
        ensures told { IsReport (F.post write) (λ _. Unit {0}) N result }
    {
        save_all(&mut self.line(rt), log, "AsyncLru", &write)
    }
}

impl<K: Clone + Drop, const N: usize, B: BoxRegistry + Archive> AsyncLru<K, N, B> {
    ghost use Rattle.lru_async.specs.Orders.{alloc_of, limits_of, world_of};
    ghost use Rattle.lru_workers.specs.Limiting.{MayBePast};

    /// What its threads share, for a layer of yours that sends otherwise than its calls do.
    pub fn world(&self) -> &World<K, B>
        ensures world { result.now ≡ world_of self.now }
        ensures shards { vec_len result.now.shards ≡ N }
    {
        &*self.world
    }

    /// What its memory comes from.
    pub fn alloc(&self) -> Global
        ensures { result ≡ alloc_of self.now }
    {
        self.alloc
    }

    /// Wakes the eviction workers, which ask for evictions while a limit is passed.
    pub fn trigger_eviction(&self, rt: &impl Wait) {
        self.world.trigger.raise(rt);
    }

    /// Stops the order: no message is taken from now on, and those that wait are left behind. Who waits for a reply is told
    /// so. An actor ends after the messages that it had taken.
    pub fn shutdown(&self, rt: &impl Wait) {
        self.world.shut(rt);
    }

    /// Waits until nothing is under way: no message waits or is being served, no eviction was asked for that is not done, and
    /// no worker wants one. Evicted pairs may wait on for callbacks or a receiver. While others send it may wait for long.
    pub fn wait_until_quiet(&self, rt: &impl Wait) {
        self.world.wait_until_quiet(rt, self.eviction_workers.len());
    }

    /// Shuts down, waits until all threads have ended their work, and answers what the order came to. Callback workers take
    /// the pairs that wait.
    pub fn close(self, rt: &impl Wait) -> Closed {
        let mut puts = Vec::new(self.alloc);
        let mut takes = Vec::new(self.alloc);
        let (closed, _world) = self.end(rt, &mut puts, &mut takes);
        closed
    }

    /// As `close`, for a layer of yours that accounts for all: it gathers the seats that threads give back, and answers what they
    /// shared too, which they have let go. A seat for which there is no memory is lost.
    pub fn end(
        self,
        rt: &impl Wait,
        puts: &mut Vec<PutSeat<B>>,
        takes: &mut Vec<TakeSeat<B>>,
    ) -> (Closed, Arc<World<K, B>, Global>)
        ensures { arc_value result.1 ≡ world_of self }
    {
        self.shutdown(rt);
        let AsyncLru {
            world,
            alloc: _,
            actors,
            eviction_workers,
            callback_workers,
        } = self;
        for actor in actors {
            if let Some(Some(seat)) = actor.take(rt) {
                drop(puts.push(seat));
            }
        }
        for worker in eviction_workers {
            let _ended = worker.take(rt);
        }
        world.outlet.close(rt);
        for worker in callback_workers {
            if let Some(Some(seat)) = worker.take(rt) {
                drop(takes.push(seat));
            }
        }
        let closed = Closed {
            weight: world.weight(),
            len: world.len(),
            evicted_weight: world.evicted_weight(),
            evicted_len: world.evicted_len(),
            lost_pairs: world.outlet.lost(rt),
        };
        (closed, world)
    }

    /// How many evicted pairs are lost, modulo 2^64.
    pub fn lost_pairs(&self, rt: &impl Wait) -> usize {
        self.world.outlet.lost(rt)
    }

    /// How many rows a shard has.
    pub fn shard_len(&self, shard: usize) -> usize
        requires { shard < N }
    {
        self.world.shards[shard].len.load(Ordering::SeqCst)
    }

    /// How many messages a shard refused, modulo 2^64.
    pub fn refused_messages(&self, shard: usize) -> u64
        requires { shard < N }
    {
        self.world.shards[shard].refused.load(Ordering::SeqCst)
    }

    /// How many shards there are.
    pub fn shards(&self) -> usize
        ensures { result ≡ N }
    {
        self.world.shards.len()
    }

    /// The weight of all rows.
    pub fn weight(&self) -> usize {
        self.world.weight()
    }

    /// How many rows there are.
    pub fn len(&self) -> usize {
        self.world.len()
    }

    /// Whether there are no rows.
    pub fn is_empty(&self) -> bool {
        self.len() == 0
    }

    /// The weight of all rows that were evicted, modulo 2^64.
    pub fn evicted_weight(&self) -> usize {
        self.world.evicted_weight()
    }

    /// How many rows were evicted, modulo 2^64.
    pub fn evicted_len(&self) -> usize {
        self.world.evicted_len()
    }

    /// The most that all rows may weigh before rows are evicted.
    pub fn weight_limit(&self) -> usize
        ensures { result ≡ (limits_of self.now).weight_limit }
    {
        self.world.limits.weight_limit
    }

    /// Whether a limit is passed.
    pub fn over_limit(&self) -> bool
        ensures { MayBePast (limits_of self.now) result }
    {
        self.world.over_limit()
    }
}
