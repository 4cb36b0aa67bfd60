//! The batch of an actor that is under way.
ghost use Rattle.std.specs.Prelude.{◌≡◌, ℕ, Option, ◌%◌, ◌^◌, ◌<◌, ◌≤◌, [], All, map, length, count_by, sum_by, vec_len, vec_capacity, nat_eq, true, false, Some, IsSome, is_some, IsTrue, option_map, if◌then◌else◌};
ghost use Rattle.std.specs.List.{zip};
ghost use Rattle.std.specs.HashMap as hash;
ghost use Rattle.lru_actors.specs.Processing.{ProcessesAll};
ghost use Rattle.lru_inbox.specs.Inboxes.{messages_of, taken_in};
ghost use Rattle.lru_shard.specs.Limits.{cap_of};
ghost use Rattle.std.specs.Option.{ForSome};
ghost use Rattle.lru_workers.specs.Replying.{AreReplies, Gains};
ghost use Rattle.lru_workers.specs.Seats.{slips_at};
ghost use Rattle.lru_workers.specs.Outlets.{is_ledger};
ghost use Rattle.lru_workers.specs.Batch.{AddsSlips, answers, StepsAll, StepsFrom, fewer, is_evict, evicts_none, stays_inside, asked_by, replied, weight_taken, rows_taken, weight_put, heaviest_put, IsChange};

use crate::LoggedShard;
use crate::outlet::Outlet;
use crate::world::{Change, World};
use lru_actors::effect::{Effect, Reply};
use lru_actors::message::LruMsg;
use lru_actors::process::process_batch;
use lru_actors::state::ShardState;
use lru_actors::{Letter, ReplyCell};
use lru_boxes::{BoxRegistry, DeskPutter, PutSeat};
use lru_inbox::Taker;
use lru_inbox::tie::Archive;
use lru_mailbox::{Dispatch, MailState};
use lru_short_locks::ShortLock;
use std::alloc::{AllocError, Global};
use std::collections::HashMap;
use std::sync::{Arc, Wait};
use std::thread;

/// The most messages that are taken at once. Who looks into the map of weights waits until a batch is through.
pub(crate) const MOST: usize = 16;

// What is kept of a letter while its message is processed.
#[derive(Drop)]
pub(crate) struct AskedLetter<K: Drop, T: Drop> {
    pub(crate) evicts: bool,
    pub(crate) cell: Option<Arc<ReplyCell<T>, Global>>,
    // what it is answered, once it was processed, and how many messages were refused up to it, modulo 2^64
    pub(crate) reply: Option<(Reply<K>, u64)>,
}

/// The batch of messages that is under way, with what each one did.
#[derive(Drop)]
pub(crate) struct Bench<K: Drop, T: Drop> {
    pub(crate) asked: Vec<AskedLetter<K, T>>,
    pub(crate) batch: Vec<LruMsg<K>>,
    pub(crate) effects: Vec<Effect<K>>,
    alloc: Global,
}

impl<K: Clone + Drop, T: Drop> Bench<K, T> {
    /// No batch, with room for one.
    pub(crate) fn new(alloc: Global) -> Result<Self, AllocError> {
        Ok(Bench {
            asked: Vec::with_capacity(alloc, MOST)?,
            batch: Vec::with_capacity(alloc, MOST)?,
            effects: Vec::with_capacity(alloc, MOST)?,
            alloc,
        })
    }

    /// Takes letters apart: their messages are the batch.
    pub(crate) fn take_in<R: Wait>(&mut self, rt: &R, letters: &mut Vec<Letter<K, T>>)
        requires few { vec_len letters.old ≤ 16 }
        ensures batch { self.new.batch.items ≡ messages_of letters.old.items }
        ensures asked { self.new.asked.items ≡ map asked_by letters.old.items }
        ensures effects { (self.new.effects.items ≡ []) × (16 ≤ vec_capacity self.new.effects) }
    {
        clear(rt, &mut self.batch);
        clear(rt, &mut self.asked);
        clear(rt, &mut self.effects);
        take_apart(letters, &mut self.batch, &mut self.asked);
    }

    // Processes the batch with rows that are the actor's own, under the lock of the map where it may change a weight.
    pub(crate) fn process<B: BoxRegistry + Archive, R: Wait>(
        &mut self,
        rt: &R,
        state: &mut ShardState<K>,
        weights: &ShortLock<HashMap<u64, usize>>,
        world: &World<K, B>,
        shard: usize,
        seat: &mut Option<PutSeat<B>>,
    )
        requires shard { shard < vec_len world.now.shards }
        requires few { vec_len self.old.batch ≤ 16 }
        requires none { self.old.effects.items ≡ [] }
        requires room { 16 ≤ vec_capacity self.old.effects }
        requires asked { map (λ a. a.evicts) self.old.asked.items ≡ map is_evict self.old.batch.items }
        ensures steps { StepsAll K.is_clone state.old self.old.batch.items self.new.effects.items state.new }
        ensures slips { is_ledger world.now.outlet ≡ true → AddsSlips state.old.shard.rows self.old.batch.items self.new.effects.items (slips_at seat.old) (slips_at seat.new) }
        ensures seat { is_ledger world.now.outlet ≡ false → seat.new ≡ seat.old }
        ensures seated { is_some seat.new ≡ is_some seat.old }
        ensures effects { vec_len self.new.effects ≡ vec_len self.old.asked }
        ensures asked { self.new.asked ≡ self.old.asked }
    {
        if all_stay_inside(&self.batch) {
            // no weight and no length is another afterwards
            self.batch_inside::<MailState<(K, usize)>>(state);
            return;
        }
        let mut weights = weights.write(rt);
        self.process_with(rt, state, &mut *weights, world, shard, seat);
    }

    // Processes the batch with the rows of a shard with a log, which are what all that was taken before leaves: then they are what
    // all that was taken leaves. Its seat gets the slips of what is evicted, where that goes into a box.
    pub(crate) fn process_logged<B: BoxRegistry + Archive, R: Wait>(
        &mut self,
        rt: &R,
        rows: &mut LoggedShard<K, B>,
        taker: &mut Taker<K, B>,
        world: &World<K, B>,
    )
        requires shard { (taker.old.shard ≡ rows.old.shard) × (taker.old.shard < vec_len world.now.shards) }
        requires gains { ForSome (taken_in taker.old.voice) (Gains rows.old.count self.old.batch.items) }
        requires logged { IsSome taker.old.voice }
        requires seat { is_some rows.old.seat ≡ is_ledger world.now.outlet }
        requires few { vec_len self.old.batch ≤ 16 }
        requires none { self.old.effects.items ≡ [] }
        requires room { 16 ≤ vec_capacity self.old.effects }
        requires asked { map (λ a. a.evicts) self.old.asked.items ≡ map is_evict self.old.batch.items }
        ensures replies { ForSome (taken_in taker.old.voice) (λ taken. AreReplies K.is_clone (cap_of B.shards) taken rows.old.count (answers rows.new.state.refused self.new.effects.items)) }
        ensures taker { (taker.new.shard ≡ taker.old.shard) × (taker.new.count ≡ taker.old.count) × (taken_in taker.new.voice ≡ taken_in taker.old.voice) }
        ensures effects { vec_len self.new.effects ≡ vec_len self.old.asked }
        ensures asked { self.new.asked ≡ self.old.asked }
    {
        let before = rows.count;
        // Read for the proof alone, which learns from it that there are fewer than 2^64 messages.
        let _taken = taker.taken();
        rows.meet(taker, before);
        let shard = taker.shard;
        self.process_with(
            rt,
            &mut rows.state,
            &mut rows.weights,
            world,
            shard,
            &mut rows.seat,
        );
        rows.count = taker.count;
        match &mut taker.voice {
            Some(voice) => rows.seen = voice.show(rows.count),
            None => unreachable!(),
        }
    }

    // Processes the batch with the map of weights, under the lock of the evicted pairs where it evicts.
    pub(crate) fn process_with<B: BoxRegistry + Archive, R: Wait>(
        &mut self,
        rt: &R,
        state: &mut ShardState<K>,
        weights: &mut HashMap<u64, usize>,
        world: &World<K, B>,
        shard: usize,
        seat: &mut Option<PutSeat<B>>,
    )
        requires shard { shard < vec_len world.now.shards }
        requires few { vec_len self.old.batch ≤ 16 }
        requires none { self.old.effects.items ≡ [] }
        requires room { 16 ≤ vec_capacity self.old.effects }
        requires asked { map (λ a. a.evicts) self.old.asked.items ≡ map is_evict self.old.batch.items }
        ensures from { StepsFrom K.is_clone state.old (hash.get nat_eq weights.old) self.old.batch.items self.new.effects.items state.new (hash.get nat_eq weights.new) }
        ensures steps { StepsAll K.is_clone state.old self.old.batch.items self.new.effects.items state.new }
        ensures slips { is_ledger world.now.outlet ≡ true → AddsSlips state.old.shard.rows self.old.batch.items self.new.effects.items (slips_at seat.old) (slips_at seat.new) }
        ensures seat { is_ledger world.now.outlet ≡ false → seat.new ≡ seat.old }
        ensures seated { is_some seat.new ≡ is_some seat.old }
        ensures effects { vec_len self.new.effects ≡ vec_len self.old.asked }
        ensures asked { self.new.asked ≡ self.old.asked }
    {
        if all_evict_none(&self.batch) {
            let change = self.batch_held::<MailState<(K, usize)>>(state, weights);
            world.count(shard, &change);
            return;
        }
        match &world.outlet {
            Outlet::Mailbox(mailbox) => {
                let mut queue = mailbox.lend(rt);
                let change = self.batch_through(state, weights, &mut *queue);
                world.count(shard, &change);
                drop(queue);
                if change.evicted_len != 0 {
                    mailbox.wake();
                }
            }
            Outlet::Ledger(ledger) => {
                let held = held_seat(rt, seat);
                let mut lent = ledger.lend(rt);
                let mut putter = DeskPutter {
                    desk: &mut *lent,
                    seat: held,
                };
                let change = self.batch_through(state, weights, &mut putter);
                world.count(shard, &change);
                let DeskPutter { seat: held, .. } = putter;
                drop(lent);
                *seat = Some(held);
                if change.evicted_len != 0 {
                    ledger.wake();
                }
            }
        }
    }

    // Processes a batch that neither changes a weight nor evicts: whatever the map and the queue of evicted pairs are, it
    // leaves them as they are.
    fn batch_inside<D: Dispatch<K>>(&mut self, state: &mut ShardState<K>) -> Change
        requires inside { All (λ m. stays_inside m ≡ true) self.old.batch.items }
        requires few { vec_len self.old.batch ≤ 16 }
        requires none { self.old.effects.items ≡ [] }
        requires room { 16 ≤ vec_capacity self.old.effects }
        requires asked { map (λ a. a.evicts) self.old.asked.items ≡ map is_evict self.old.batch.items }
        ensures processed { (look : ℕ → Option ℕ) (queue : D) → ProcessesAll D.Puts D.IsSame D.queue K.is_clone D.MayRefuse state.old look queue self.old.batch.items self.new.effects.items state.new look queue }
        ensures steps { StepsAll K.is_clone state.old self.old.batch.items self.new.effects.items state.new }
        ensures change { IsChange state.old self.old.batch.items self.new.effects.items state.new result }
        ensures effects { vec_len self.new.effects ≡ vec_len self.old.asked }
        ensures asked { self.new.asked ≡ self.old.asked }
    {
        let mut no_weights = HashMap::new(self.alloc);
        self.batch_held::<D>(state, &mut no_weights)
    }

    // Processes a batch that does not evict: whatever the queue of evicted pairs is, it leaves it as it is.
    fn batch_held<D: Dispatch<K>>(
        &mut self,
        state: &mut ShardState<K>,
        weights: &mut HashMap<u64, usize>,
    ) -> Change
        requires held { All (λ m. evicts_none m ≡ true) self.old.batch.items }
        requires few { vec_len self.old.batch ≤ 16 }
        requires none { self.old.effects.items ≡ [] }
        requires room { 16 ≤ vec_capacity self.old.effects }
        requires asked { map (λ a. a.evicts) self.old.asked.items ≡ map is_evict self.old.batch.items }
        ensures processed { (queue : D) → ProcessesAll D.Puts D.IsSame D.queue K.is_clone D.MayRefuse state.old (hash.get nat_eq weights.old) queue self.old.batch.items self.new.effects.items state.new (hash.get nat_eq weights.new) queue }
        ensures from { StepsFrom K.is_clone state.old (hash.get nat_eq weights.old) self.old.batch.items self.new.effects.items state.new (hash.get nat_eq weights.new) }
        ensures steps { StepsAll K.is_clone state.old self.old.batch.items self.new.effects.items state.new }
        ensures change { IsChange state.old self.old.batch.items self.new.effects.items state.new result }
        ensures effects { vec_len self.new.effects ≡ vec_len self.old.asked }
        ensures asked { self.new.asked ≡ self.old.asked }
    {
        let mut no_queue = MailState::new(self.alloc);
        self.batch_through(state, weights, &mut no_queue)
    }

    // Processes the batch. Each message has its effect, in order, and the change is that of the shard and of the pairs that
    // were evicted.
    fn batch_through<D: Dispatch<K>>(
        &mut self,
        state: &mut ShardState<K>,
        weights: &mut HashMap<u64, usize>,
        dispatch: &mut D,
    ) -> Change
        requires few { vec_len self.old.batch ≤ 16 }
        requires none { self.old.effects.items ≡ [] }
        requires room { 16 ≤ vec_capacity self.old.effects }
        requires asked { map (λ a. a.evicts) self.old.asked.items ≡ map is_evict self.old.batch.items }
        ensures processed { ProcessesAll D.Puts D.IsSame D.queue K.is_clone D.MayRefuse state.old (hash.get nat_eq weights.old) dispatch.old self.old.batch.items self.new.effects.items state.new (hash.get nat_eq weights.new) dispatch.new }
        ensures from { StepsFrom K.is_clone state.old (hash.get nat_eq weights.old) self.old.batch.items self.new.effects.items state.new (hash.get nat_eq weights.new) }
        ensures steps { StepsAll K.is_clone state.old self.old.batch.items self.new.effects.items state.new }
        ensures change { IsChange state.old self.old.batch.items self.new.effects.items state.new result }
        ensures effects { vec_len self.new.effects ≡ vec_len self.old.asked }
        ensures asked { self.new.asked ≡ self.old.asked }
    {
        let weight_before = state.used_weight();
        let len_before = state.len();
        process_batch(state, weights, dispatch, &mut self.batch, &mut self.effects);
        let (evicted_weight, evicted_len) = evicted_in(&self.effects, &self.asked);
        Change {
            weight_before,
            weight_after: state.used_weight(),
            len_before,
            len_after: state.len(),
            evicted_weight,
            evicted_len,
            refused: state.refused(),
            heaviest: heaviest_in(&self.effects),
        }
    }
}

// Empties a vector that has room for a batch from the start. Were it not so, this would wait for memory.
pub(crate) fn clear<T: Drop, R: Wait>(rt: &R, items: &mut Vec<T>)
    ensures none { items.new.items ≡ [] }
    ensures room { 16 ≤ vec_capacity items.new }
{
    items.clear();
    for _ in rt.forever() {
        if items.reserve(MOST).is_ok() {
            return;
        }
        thread::yield_now();
    }
    unreachable!()
}

// Takes letters apart: their messages, in order, and what is kept of each. There has to be room.
fn take_apart<K: Drop, T: Drop>(
    letters: &mut Vec<Letter<K, T>>,
    batch: &mut Vec<LruMsg<K>>,
    asked: &mut Vec<AskedLetter<K, T>>,
)
    requires batch { batch.old.items ≡ [] }
    requires asked { asked.old.items ≡ [] }
    requires batch_fits { vec_len letters.old ≤ vec_capacity batch.old }
    requires asked_fit { vec_len letters.old ≤ vec_capacity asked.old }
    ensures messages { batch.new.items ≡ messages_of letters.old.items }
    ensures asked { asked.new.items ≡ map asked_by letters.old.items }
    ensures as_many { vec_len batch.new ≡ vec_len letters.old }
{
    // The last one is at hand, so the first is made the last.
    letters.reverse();
    while let Some(letter) = letters.pop() {
        let Letter { message, cell } = letter;
        asked.push_reserved(AskedLetter {
            evicts: is_evict(&message),
            cell,
            reply: None,
        });
        batch.push_reserved(message);
    }
}

// Whether a message asks for an eviction.
fn is_evict<K>(message: &LruMsg<K>) -> bool
    ensures { result ≡ is_evict message.now }
{
    matches!(message, LruMsg::Evict)
}

// Whether it asks for anything else.
fn evicts_none<K>(message: &LruMsg<K>) -> bool
    ensures { result ≡ evicts_none message.now }
{
    !matches!(message, LruMsg::Evict)
}

fn all_evict_none<K>(batch: &Vec<LruMsg<K>>) -> bool
    ensures { IsTrue result → All (λ m. evicts_none m ≡ true) batch.now.items }
{
    batch.iter().all(|message| evicts_none(message))
}

// Whether a message changes no weight and evicts nothing, whatever the rows are: it promotes, or asks.
fn stays_inside<K>(message: &LruMsg<K>) -> bool
    ensures { result ≡ stays_inside message.now }
{
    matches!(
        message,
        LruMsg::Promote { .. } | LruMsg::PeekLru | LruMsg::Snapshot | LruMsg::QueryWeight
    )
}

fn all_stay_inside<K>(batch: &Vec<LruMsg<K>>) -> bool
    ensures { IsTrue result → All (λ m. stays_inside m ≡ true) batch.now.items }
{
    batch.iter().all(|message| stays_inside(message))
}

// The weight of the row that a message's eviction took, and how many rows it took.
fn taken_by<K: Drop, T: Drop>(asked: &AskedLetter<K, T>, effect: &Effect<K>) -> (usize, usize)
    ensures { result ≡ (weight_taken (asked.now, effect.now), rows_taken (asked.now, effect.now)) }
{
    if !asked.evicts {
        return (0, 0);
    }
    (
        effect.weight_before.saturating_sub(effect.weight_after),
        effect.len_before.saturating_sub(effect.len_after),
    )
}

// The weight of the rows that evictions took, and how many they are, modulo 2^64.
fn evicted_in<K: Drop, T: Drop>(
    effects: &Vec<Effect<K>>,
    asked: &Vec<AskedLetter<K, T>>,
) -> (usize, usize)
    requires { vec_len effects.now ≡ vec_len asked.now }
    ensures weight { result.0 ≡ sum_by weight_taken (zip asked.now.items effects.now.items) % 2 ^ 64 }
    ensures len { result.1 ≡ sum_by rows_taken (zip asked.now.items effects.now.items) % 2 ^ 64 }
{
    let mut weight = 0usize;
    let mut len = 0usize;
    for place in 0..effects.len() {
        let (taken_weight, taken_len) = taken_by(&asked[place], &effects[place]);
        weight = weight.wrapping_add(taken_weight);
        len = len.wrapping_add(taken_len);
    }
    (weight, len)
}

// How many evictions were asked for.
pub(crate) fn evictions_in<K: Drop, T: Drop>(asked: &Vec<AskedLetter<K, T>>) -> usize
    ensures { result ≡ count_by (λ a. a.evicts) asked.now.items }
{
    let mut count = 0;
    for asked in asked {
        if asked.evicts {
            count += 1;
        }
    }
    count
}

// The greatest weight that a row was given.
fn heaviest_in<K: Drop>(effects: &Vec<Effect<K>>) -> usize
    ensures { result ≡ heaviest_put effects.now.items }
{
    let mut heaviest = 0usize;
    for effect in effects {
        heaviest = heaviest.max(weight_put(effect));
    }
    heaviest
}

// The weight that a message gave a row.
fn weight_put<K: Drop>(effect: &Effect<K>) -> usize
    ensures { result ≡ weight_put effect.now }
{
    match effect.put {
        Some((_, weight)) => weight,
        None => 0,
    }
}

// Notes for each who asked what the effect of its message answers, with how many messages were refused up to it, and empties the
// effects. So many were refused up to the last one, modulo 2^64.
pub(crate) fn note_replies<K: Drop, T: Drop>(
    effects: &mut Vec<Effect<K>>,
    asked: &mut Vec<AskedLetter<K, T>>,
    refused: u64,
)
    requires { vec_len effects.old ≤ vec_len asked.old }
    ensures { asked.new.items ≡ replied asked.old.items (answers refused effects.old.items) }
{
    let mut refused = refused;
    while let Some(effect) = effects.pop() {
        let asked = &mut asked[effects.len()];
        asked.reply = counted(effect.reply, refused);
        refused = refused_before(refused, effect.refused);
    }
}

// A reply with how many messages were refused.
fn counted<K: Drop>(reply: Option<Reply<K>>, refused: u64) -> Option<(Reply<K>, u64)>
    ensures { result ≡ option_map (λ r. (r, refused)) reply }
{
    match reply {
        Some(reply) => Some((reply, refused)),
        None => None,
    }
}

// How many messages were refused before one, where so many were up to it, modulo 2^64.
fn refused_before(refused: u64, was_refused: bool) -> u64
    ensures { result ≡ (if was_refused then fewer refused 1 else refused) }
{
    if was_refused {
        refused.wrapping_sub(1)
    } else {
        refused
    }
}

// The seat of an actor whose evicted pairs go into a box. It has one; were it not so, this would wait for it.
fn held_seat<B: BoxRegistry, R: Wait>(rt: &R, seat: &mut Option<PutSeat<B>>) -> PutSeat<B>
    ensures { seat.old ≡ Some result }
{
    for _ in rt.forever() {
        if let Some(held) = seat.take() {
            return held;
        }
        thread::yield_now();
    }
    unreachable!()
}
