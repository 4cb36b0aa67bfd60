//! The loop of an actor.
ghost use Rattle.std.specs.Prelude.{◌≡◌, ◌<◌, ◌≤◌, [], map, take, length, vec_len, vec_capacity, slice_get, IfOk, IsSome, is_some};
ghost use Rattle.std.specs.Option.{ForSome};
ghost use Rattle.std.specs.Sync.Mutex.{mutex_guard_value};
ghost use Rattle.lru_shard.specs.Limits.{cap_of};
ghost use Rattle.lru_inbox.specs.Inboxes.{taken_in};
ghost use Rattle.lru_inbox.specs.Replies.{IsReply};
ghost use Rattle.lru_workers.specs.Batch.{answers, is_evict};
ghost use Rattle.lru_workers.specs.Places.{is_logged};
ghost use Rattle.lru_workers.specs.Replying.{AreReplies, Gains, HasNothing, TookPast};

use crate::LoggedShard;
use crate::bench::{AskedLetter, Bench, MOST, clear, evictions_in, note_replies};
use crate::callback::Gate;
use crate::world::{ShardPlace, Weights, World};
use lru_actors::effect::{Effect, Reply};
use lru_actors::state::ShardState;
use lru_actors::{Letter, ReplyCell};
use lru_boxes::{BoxRegistry, PutSeat};
use lru_inbox::tie::Archive;
use lru_inbox::{Taker, Told};
use lru_short_locks::ShortMutex;
use std::alloc::{AllocError, Global};
use std::marker::Brand;
use std::sync::{Arc, MutexGuard, Wait};

/// What one actor owns: what it took, its rows where there is no log, and room for a batch. With a log its rows stand in the
/// place of its shard, and are what the messages that it took leave.
#[derive(Drop)]
pub struct Actor<K: Clone + Drop, B: BoxRegistry + Archive = Brand> {
    /// What it took from the mailbox of its shard.
    pub taker: Taker<K, B>,
    /// How many shards there are.
    pub shards: usize,
    seat: Option<PutSeat<B>>,
    letters: Vec<Letter<K, Told<K, B>>>,
    state: ShardState<K>,
    bench: Bench<K, Told<K, B>>,
    ghost capped: { state.shard.cap ≡ cap_of shards },
}

impl<K: Clone + Drop, B: BoxRegistry + Archive> Actor<K, B> {
    /// The actor of one of so many shards, which is empty, with room for `capacity` rows. Their weights may sum up to what
    /// all shards together leave to each. Where evicted pairs go into a box it puts them with a seat.
    pub fn new(
        alloc: Global,
        taker: Taker<K, B>,
        shards: usize,
        capacity: usize,
        seat: Option<PutSeat<B>>,
    ) -> Result<Self, AllocError>
        requires some { 0 < shards }
        ensures taker { IfOk result (λ actor. actor.taker ≡ taker) }
        ensures shards { IfOk result (λ actor. actor.shards ≡ shards) }
    {
        // with a log its rows stand elsewhere
        let own_rows = if taker.is_logged() { 0 } else { capacity };
        Ok(Actor {
            taker,
            shards,
            seat,
            letters: Vec::with_capacity(alloc, MOST)?,
            state: ShardState::with_capacity(alloc, own_rows, usize::MAX / shards)?,
            bench: Bench::new(alloc)?,
        })
    }

    /// What an actor does until its mailbox is closed and empty. It gives its seat back. Of a shard that is not there, or that
    /// has a log where this one's has none, it does nothing.
    pub fn run<G: Gate, R: Wait>(
        self,
        rt: &R,
        world: &World<K, B>,
        gate: &Option<Arc<G, Global>>,
    ) -> Option<PutSeat<B>>
        requires { self.shards ≡ vec_len world.now.shards }
    {
        let mut actor = self;
        for _ in rt.forever() {
            if actor.taker.shard >= world.shards.len() || !actor.serve(rt, world, gate) {
                break;
            }
        }
        let Actor { seat, .. } = actor;
        seat
    }

    // Takes the messages that wait, processes them and answers. Whether there were any.
    fn serve<G: Gate, R: Wait>(
        &mut self,
        rt: &R,
        world: &World<K, B>,
        gate: &Option<Arc<G, Global>>,
    ) -> bool
        requires { self.old.taker.shard < vec_len world.now.shards }
        ensures { self.new.taker.shard ≡ self.old.taker.shard }
    {
        let shard = self.taker.shard;
        let before = self.taker.count;
        let place = &world.shards[shard];
        if place.is_logged() != self.taker.is_logged() {
            return false;
        }
        clear(rt, &mut self.letters);
        let count = place
            .mailbox
            .pop_many(rt, &mut self.taker, MOST, &mut self.letters);
        if count == 0 {
            return false;
        }
        // Read for the proof alone, which learns from it that the numbers of all messages are below 2^64.
        let _taken = self.taker.taken();
        pass(gate, shard, count);
        self.bench.take_in(rt, &mut self.letters);
        let refused = self.process(rt, world, place, before);
        world.evictions_done(evictions_in(&self.bench.asked));
        let looks = self.bench.effects.iter().any(|effect| effect.look);
        reply_where_asked(
            rt,
            &mut self.taker,
            before,
            refused,
            &mut self.bench.effects,
            &mut self.bench.asked,
        );
        if looks && world.over_limit() {
            world.trigger.raise(rt);
        }
        world.served(rt, shard, count);
        true
    }

    // Processes the batch, with its own rows or with those of its shard's place, and answers how many messages the shard refused so
    // far, modulo 2^64.
    fn process<R: Wait>(
        &mut self,
        rt: &R,
        world: &World<K, B>,
        place: &ShardPlace<K, B>,
        before: u64,
    ) -> u64
        requires shard { self.old.taker.shard < vec_len world.now.shards }
        requires kind { is_logged place.now ≡ is_some self.old.taker.voice }
        requires gains { ForSome (taken_in self.old.taker.voice) (Gains before self.old.bench.batch.items) }
        requires few { vec_len self.old.bench.batch ≤ 16 }
        requires none { self.old.bench.effects.items ≡ [] }
        requires room { 16 ≤ vec_capacity self.old.bench.effects }
        requires asked { map (λ a. a.evicts) self.old.bench.asked.items ≡ map is_evict self.old.bench.batch.items }
        ensures effects { vec_len self.new.bench.effects ≡ vec_len self.old.bench.asked }
        ensures asked { self.new.bench.asked ≡ self.old.bench.asked }
        ensures replies { ForSome (taken_in self.old.taker.voice) (λ taken. AreReplies K.is_clone (cap_of B.shards) taken before (answers result self.new.bench.effects.items)) }
        ensures taker { (self.new.taker.shard ≡ self.old.taker.shard) × (self.new.taker.count ≡ self.old.taker.count) × (taken_in self.new.taker.voice ≡ taken_in self.old.taker.voice) }
    {
        match &place.weights {
            Weights::Alone(map) => {
                let shard = self.taker.shard;
                self.bench
                    .process(rt, &mut self.state, map, world, shard, &mut self.seat);
                self.state.refused()
            }
            Weights::WithRows(rows) => {
                let ledger = world.outlet.is_ledger();
                let mut rows = rows_after(rt, rows, self.taker.shard, before, ledger);
                self.bench
                    .process_logged(rt, &mut *rows, &mut self.taker, world);
                rows.state.refused()
            }
        }
    }
}

// Lends the rows of this shard that so many messages leave, modulo 2^64, with a seat where evicted pairs go into a box. No type
// says which lock has which rows, so the numbers are looked at; the first ones are the right ones.
fn rows_after<'a, K: Clone + Drop, B: BoxRegistry + Archive, R: Wait>(
    rt: &R,
    rows: &'a ShortMutex<LoggedShard<K, B>>,
    shard: usize,
    before: u64,
    seated: bool,
) -> MutexGuard<'a, LoggedShard<K, B>>
    ensures numbers { ((mutex_guard_value result).shard ≡ shard) × ((mutex_guard_value result).count ≡ before) }
    ensures seat { is_some (mutex_guard_value result).seat ≡ seated }
{
    for _ in rt.forever() {
        let rows = rows.lock(rt);
        if rows.shard == shard && rows.count == before && rows.seat.is_some() == seated {
            return rows;
        }
    }
    unreachable!()
}

// Passes the gate, if there is one, once for each message.
fn pass<G: Gate>(gate: &Option<Arc<G, Global>>, shard: usize, count: usize) {
    if let Some(gate) = gate {
        for _ in 0..count {
            gate.pass(shard);
        }
    }
}

// Gives those who asked the replies of their messages' effects, the first of which comes after so many messages that were taken
// before. So many were refused up to the last, modulo 2^64. Most batches ask for nothing.
fn reply_where_asked<K: Clone + Drop, B: Archive, R: Wait>(
    rt: &R,
    taker: &mut Taker<K, B>,
    before: u64,
    refused: u64,
    effects: &mut Vec<Effect<K>>,
    asked: &mut Vec<AskedLetter<K, Told<K, B>>>,
)
    requires each { vec_len effects.old ≡ vec_len asked.old }
    requires taken { ForSome (taken_in taker.old.voice) (λ taken. TookPast before (vec_len asked.old) taken) }
    requires replies { ForSome (taken_in taker.old.voice) (λ taken. AreReplies K.is_clone (cap_of B.shards) taken before (answers refused effects.old.items)) }
    ensures taker { (taker.new.shard ≡ taker.old.shard) × (taken_in taker.new.voice ≡ taken_in taker.old.voice) }
{
    if asked.iter().any(|asked| asked.cell.is_some()) {
        note_replies(effects, asked, refused);
        reply_all(rt, taker, before, asked);
    }
}

// Gives the replies to those who asked, the last one first.
fn reply_all<K: Clone + Drop, B: Archive, R: Wait>(
    rt: &R,
    taker: &mut Taker<K, B>,
    before: u64,
    asked: &mut Vec<AskedLetter<K, Told<K, B>>>,
)
    requires taken { ForSome (taken_in taker.old.voice) (λ taken. TookPast before (vec_len asked.old) taken) }
    requires replies { ForSome (taken_in taker.old.voice) (λ taken. AreReplies K.is_clone (cap_of B.shards) taken before (map (λ a. a.reply) asked.old.items)) }
    ensures taker { (taker.new.shard ≡ taker.old.shard) × (taken_in taker.new.voice ≡ taken_in taker.old.voice) }
{
    while let Some(last) = asked.pop() {
        let count = before.wrapping_add(asked.len() as u64).wrapping_add(1);
        answer(rt, taker, count, last);
    }
}

// Gives one reply, which tells of the first so many messages that were taken. Who asked and gets none is told so.
fn answer<K: Clone + Drop, B: Archive, R: Wait>(
    rt: &R,
    taker: &mut Taker<K, B>,
    count: u64,
    asked: AskedLetter<K, Told<K, B>>,
)
    requires count { ForSome (taken_in taker.old.voice) (λ taken. count ≤ length taken) }
    requires tells { ForSome (taken_in taker.old.voice) (λ taken. ForSome asked.reply (λ told. ∥ IsReply K.is_clone (cap_of B.shards) (take count taken) told.1 told.0 ∥₁)) }
    ensures taker { (taker.new.shard ≡ taker.old.shard) × (taken_in taker.new.voice ≡ taken_in taker.old.voice) }
{
    let AskedLetter { cell, reply, .. } = asked;
    match (cell, reply) {
        (Some(cell), Some((reply, refused))) => cell.give(rt, taker.tell(count, refused, reply)),
        (Some(cell), None) => cell.leave(rt),
        (None, _) => {}
    }
}
