//! What actors, workers and callers share.
ghost use Rattle.std.specs.Prelude.{◌≡◌, ◌+◌, ◌-◌, ◌<◌, [], true, All, vec_len, IfOk, OnOk, IsSome, is_some};
ghost use Rattle.std.specs.Option.{ForSome};
ghost use Rattle.std.specs.Sync.Mutex.{mutex_guard_value};
ghost use Rattle.lru_inbox.specs.Logs.{log, hand, of_log, blank_logs, blank_fronts};
ghost use Rattle.lru_inbox.specs.Inboxes.{taken_in};
ghost use Rattle.lru_workers.specs.Looking.{LearnsWeight, MayWeigh};
ghost use Rattle.lru_workers.specs.Seats.{slips_at};
ghost use Rattle.lru_shard.specs.Limits.{cap_of};
ghost use Rattle.lru_workers.specs.Replying.{HasNothing, AreTakers};
ghost use Rattle.lru_workers.specs.Places.{is_logged};

use crate::LoggedShard;
use crate::asking::{HeldTotals, next_asked};
use crate::outlet::Outlet;
use crate::rest::RestWatch;
use crate::trigger::Trigger;
use lru_actors::Letter;
use lru_actors::message::LruMsg;
use lru_boxes::{BoxRegistry, PutSeat};
use lru_inbox::tie::Archive;
use lru_inbox::voice::Voice;
use lru_inbox::{Caller, Inbox, SharedInbox, Taker};
use lru_shard::counters::shift;
use lru_shard::eviction::is_past;
use lru_short_locks::{ShortLock, ShortMutex};
use std::alloc::{AllocError, Global};
use std::collections::HashMap;
use std::marker::Brand;
use std::sync::atomic::{AtomicBool, AtomicU64, AtomicUsize, Ordering};
use std::sync::{MutexGuard, Wait};

/// What all shards together are held to.
#[derive(Clone, Copy, Debug, PartialEq, Eq)]
pub struct OrderLimits {
    /// The most that all rows may weigh.
    pub weight_limit: usize,
    /// The most rows that there may be, if that is limited.
    pub len_watermark: Option<usize>,
}

/// The weights of a shard's rows, for those who look.
#[derive(Drop)]
pub enum Weights<K: Clone + Drop, B: BoxRegistry + Archive> {
    /// The weight of each row, by hash. The rows are its actor's own.
    Alone(ShortLock<HashMap<u64, usize>>),
    /// With the rows, where there is a log.
    WithRows(ShortMutex<LoggedShard<K, B>>),
}

/// What is shared of one shard.
#[derive(Drop)]
pub struct ShardPlace<K: Clone + Drop, B: BoxRegistry + Archive> {
    /// The messages that its actor is to take.
    pub mailbox: SharedInbox<K, B>,
    /// The weights of its rows.
    pub weights: Weights<K, B>,
    /// How many rows there are.
    pub len: AtomicUsize,
    /// How many messages were refused, modulo 2^64.
    pub refused: AtomicU64,
    // how many messages the actor is done with, modulo 2^64
    served: AtomicU64,
}

impl<K: Clone + Drop, B: BoxRegistry + Archive> ShardPlace<K, B> {
    /// The place of an empty shard of this number without a log, with room for so many weights.
    pub(crate) fn plain(alloc: Global, shard: usize, capacity: usize) -> Result<Self, AllocError> {
        let map = HashMap::with_capacity(alloc, capacity)?;
        let mailbox = SharedInbox::new(alloc, shard, None);
        Ok(ShardPlace::new(mailbox, Weights::Alone(ShortLock::new(map))))
    }

    /// The place of an empty shard of this number, one of so many, with its empty log, with room for so many rows, and with a seat
    /// where evicted pairs go into a box.
    pub fn logged(
        alloc: Global,
        shard: usize,
        shards: usize,
        capacity: usize,
        voice: Voice<LruMsg<K>, B>,
        seat: Option<PutSeat<B>>,
    ) -> Result<Self, AllocError>
        requires fresh { ForSome (slips_at seat) (λ slips. slips ≡ []) }
        requires some { 0 < shards }
        requires all { B.shards ≡ shards }
        requires log { voice.token.me ≡ (of_log (log shard [] []), []) }
        ensures { IfOk result (λ place. is_logged place ≡ true) }
    {
        let mut voice = voice;
        let rows = LoggedShard::new(alloc, shard, shards, capacity, voice.seen(), seat)?;
        let mailbox = SharedInbox::new(alloc, shard, Some(voice));
        Ok(ShardPlace::new(mailbox, Weights::WithRows(ShortMutex::new(rows))))
    }

    fn new(mailbox: SharedInbox<K, B>, weights: Weights<K, B>) -> Self
        ensures { result.weights ≡ weights }
    {
        ShardPlace {
            mailbox,
            weights,
            len: AtomicUsize::new(0),
            refused: AtomicU64::new(0),
            served: AtomicU64::new(0),
        }
    }

    /// Whether there is a log.
    pub fn is_logged(&self) -> bool
        ensures { result ≡ is_logged self.now }
    {
        matches!(self.weights, Weights::WithRows(_))
    }

    /// What stood there, which nobody else holds: the mailbox, and the rows where there is a log.
    pub fn into_parts(self) -> (Inbox<K, B>, Option<LoggedShard<K, B>>)
        ensures { is_some result.1 ≡ is_logged self }
    {
        let ShardPlace {
            mailbox,
            weights,
            ..
        } = self;
        let rows = match weights {
            Weights::Alone(_) => None,
            Weights::WithRows(rows) => Some(rows.into_inner()),
        };
        (mailbox.into_inner(), rows)
    }

    // How many messages were put, modulo 2^64, if the actor is done with all but those that are lost.
    fn all_served(&self, rt: &impl Wait) -> Option<u64> {
        // counted after they are taken, so they are read first
        let served = self.served.load(Ordering::SeqCst);
        let (put, lost) = self.mailbox.put_and_lost(rt);
        if served.wrapping_add(lost) == put {
            Some(put)
        } else {
            None
        }
    }

    /// The weight of the row with this hash, if there is one.
    pub fn weight_of(&self, rt: &impl Wait, hash: u64) -> Option<usize>
        ensures { is_logged self.now ≡ true → MayWeigh K (cap_of B.shards) hash result }
    {
        match &self.weights {
            Weights::Alone(map) => map.read(rt).get(&hash).copied(),
            Weights::WithRows(rows) => rows.lock(rt).weight_left(hash),
        }
    }

    /// As `weight_of`, in that of this shard, which has a log, for one who then knows of which rows it is told.
    pub fn look(
        &self,
        rt: &impl Wait,
        shard: usize,
        caller: &mut Caller<K, B>,
        hash: u64,
    ) -> Option<usize>
        ensures { LearnsWeight (cap_of B.shards) shard hash caller.old.voice.token.me.0.fronts result caller.new.refused caller.new.voice.token.me.0.fronts }
    {
        self.rows_of(rt, shard).look(caller, hash)
    }

    // Lends the rows of this shard, which has a log.
    fn rows_of(&self, rt: &impl Wait, shard: usize) -> MutexGuard<'_, LoggedShard<K, B>>
        ensures { (mutex_guard_value result).shard ≡ shard }
    {
        for _ in rt.forever() {
            if let Weights::WithRows(rows) = &self.weights {
                let rows = rows.lock(rt);
                if rows.shard == shard {
                    return rows;
                }
            }
        }
        unreachable!()
    }

    // Closes the mailbox. Who waits for a reply to a message that is left behind is told.
    fn shut(&self, rt: &impl Wait) {
        let left = self.mailbox.leave(rt);
        for letter in left {
            let Letter { message, cell } = letter;
            drop(message);
            if let Some(cell) = cell {
                cell.leave(rt);
            }
        }
    }
}

/// How weights and lengths changed by a batch, and what it evicted.
#[derive(Clone, Copy, Debug)]
pub struct Change {
    /// The shard's weight before.
    pub weight_before: usize,
    /// The shard's weight after.
    pub weight_after: usize,
    /// How many rows there were.
    pub len_before: usize,
    /// How many rows there are.
    pub len_after: usize,
    /// The weight of the rows that were evicted, modulo 2^64.
    pub evicted_weight: usize,
    /// How many rows were evicted, modulo 2^64.
    pub evicted_len: usize,
    /// How many messages the shard refused so far, modulo 2^64.
    pub refused: u64,
    /// The greatest weight that a row was given; 0 where none was given one.
    pub heaviest: usize,
}

/// What actors, workers and callers share.
#[derive(Drop)]
pub struct World<K: Clone + Drop, B: BoxRegistry + Archive = Brand> {
    /// The shards.
    pub shards: Vec<ShardPlace<K, B>>,
    /// Where evicted pairs wait.
    pub outlet: Outlet<K, B>,
    /// What eviction workers wait for.
    pub trigger: Trigger,
    /// What all shards together are held to.
    pub limits: OrderLimits,
    weight: AtomicUsize,
    len: AtomicUsize,
    evicted_weight: AtomicUsize,
    evicted_len: AtomicUsize,
    // no row was ever heavier
    heaviest: AtomicUsize,
    // how many evictions were asked for, and how many of those are done, modulo 2^64
    asked: AtomicUsize,
    done: AtomicUsize,
    rest: RestWatch,
    stop: AtomicBool,
}

// Adds to a counter, in one step.
fn add(counter: &AtomicUsize, amount: usize) {
    if amount != 0 {
        counter.fetch_add(amount, Ordering::SeqCst);
    }
}

impl<K: Clone + Drop, B: BoxRegistry + Archive> World<K, B> {
    ghost use Rattle.lru_workers.specs.Limiting.{MayBePast};

    /// So many empty shards, each with room for `capacity` rows. Where there are logs, `logs` speaks for all of them and for those
    /// who take, and then for those alone; and each shard gets a seat, in order, as long as there are any: it lies beside the rows,
    /// has the slips of what the shard evicts, and `LoggedShard::end` gives it back. A seat that no shard gets is let go.
    pub fn new(
        alloc: Global,
        logs: &mut Option<Voice<LruMsg<K>, B>>,
        seats: Vec<PutSeat<B>>,
        count: usize,
        capacity: usize,
        limits: OrderLimits,
        outlet: Outlet<K, B>,
    ) -> Result<Self, AllocError>
        requires some { 0 < count }
        requires named { IsSome logs.old → B.shards ≡ count }
        requires logs { ForSome logs.old (λ v. v.token.me ≡ (hand (blank_logs 0 count) (blank_fronts 0 count) [], [])) }
        requires fresh { All (λ s. s.share.slips ≡ []) seats.items }
        ensures count { IfOk result (λ world. vec_len world.shards ≡ count) }
        ensures limits { IfOk result (λ world. world.limits ≡ limits) }
        ensures logs { OnOk result (AreTakers 0 count logs.new × (is_some logs.new ≡ is_some logs.old)) }
    {
        Ok(World {
            shards: empty_places(alloc, logs, seats, count, capacity)?,
            outlet,
            trigger: Trigger::new(),
            limits,
            weight: AtomicUsize::new(0),
            len: AtomicUsize::new(0),
            evicted_weight: AtomicUsize::new(0),
            evicted_len: AtomicUsize::new(0),
            heaviest: AtomicUsize::new(0),
            asked: AtomicUsize::new(0),
            done: AtomicUsize::new(0),
            rest: RestWatch::new(),
            stop: AtomicBool::new(false),
        })
    }

    /// The places of the shards, which nobody else holds.
    pub fn into_shards(self) -> Vec<ShardPlace<K, B>>
        ensures { result ≡ self.shards }
    {
        let World { shards, .. } = self;
        shards
    }

    /// Brings the counters after a batch of this shard, each in one step. Its caller holds the lock of the shard's map.
    pub fn count(&self, shard: usize, change: &Change)
        requires { shard < vec_len self.now.shards }
    {
        let place = &self.shards[shard];
        // first of all, so that whoever reads the weight knows how heavy the rows in it may be
        if change.heaviest > self.heaviest.load(Ordering::SeqCst) {
            self.heaviest.fetch_max(change.heaviest, Ordering::SeqCst);
        }
        shift(&self.weight, change.weight_before, change.weight_after);
        shift(&self.len, change.len_before, change.len_after);
        shift(&place.len, change.len_before, change.len_after);
        add(&self.evicted_weight, change.evicted_weight);
        add(&self.evicted_len, change.evicted_len);
        place.refused.store(change.refused, Ordering::SeqCst);
    }

    /// The weight of all rows.
    pub fn weight(&self) -> usize {
        self.weight.load(Ordering::SeqCst)
    }

    /// How many rows there are.
    pub fn len(&self) -> usize {
        self.len.load(Ordering::SeqCst)
    }

    /// The weight of all rows that were evicted, modulo 2^64.
    pub fn evicted_weight(&self) -> usize {
        self.evicted_weight.load(Ordering::SeqCst)
    }

    /// How many rows were evicted, modulo 2^64.
    pub fn evicted_len(&self) -> usize {
        self.evicted_len.load(Ordering::SeqCst)
    }

    /// Whether a limit is passed.
    pub fn over_limit(&self) -> bool
        ensures { MayBePast self.now.limits result }
    {
        is_past(
            self.limits.weight_limit,
            self.limits.len_watermark,
            self.weight(),
            self.len(),
        )
    }

    // What all shards hold. The heaviest row is read last: each row that the weight counts was told before.
    fn held(&self) -> HeldTotals {
        HeldTotals {
            weight: self.weight(),
            len: self.len(),
            heaviest: self.heaviest.load(Ordering::SeqCst),
        }
    }

    /// Takes leave to ask for one eviction, where one more may be asked for beside those that are under way. It is given back
    /// by `evictions_done`: by the actor once it was counted, or by the asker where it was not sent.
    ///
    /// Those that are done are read before the weight, which so counts them; and between two looks of two workers the number of
    /// those asked for moves, so that only one of the two gets leave by what it saw.
    pub(crate) fn may_ask(&self) -> bool {
        let asked = self.asked.load(Ordering::SeqCst);
        let pending = asked.wrapping_sub(self.done.load(Ordering::SeqCst));
        let Some(next) = next_asked(&self.limits, &self.held(), asked, pending) else {
            return false;
        };
        self.asked
            .compare_exchange(asked, next, Ordering::SeqCst, Ordering::SeqCst)
            .is_ok()
    }

    /// So many evictions that were asked for are done: what they took is counted, or they took nothing.
    pub(crate) fn evictions_done(&self, count: usize) {
        add(&self.done, count);
    }

    /// So many messages of a shard are done with: they are counted and answered, and the workers are told.
    pub(crate) fn served(&self, rt: &impl Wait, shard: usize, count: usize)
        requires { shard < vec_len self.now.shards }
    {
        self.shards[shard]
            .served
            .fetch_add(count as u64, Ordering::SeqCst);
        self.rest.look_again(rt);
    }

    /// An eviction worker has asked for all that was wanted when the trigger had this count.
    pub(crate) fn rests(&self, rt: &impl Wait, seen: u64) {
        self.trigger.rests(rt, seen);
        self.rest.look_again(rt);
    }

    /// Waits until no message waits or is being served, no eviction is under way, and so many workers want none. Pairs that
    /// were evicted may wait on.
    pub fn wait_until_quiet(&self, rt: &impl Wait, workers: usize) {
        self.rest.begin();
        for _ in rt.forever() {
            let seen = self.rest.changes(rt);
            if self.is_quiet(rt, workers) {
                break;
            }
            self.rest.wait(rt, seen);
        }
        self.rest.end();
    }

    // Whether there was a moment in this call at which nothing was under way.
    fn is_quiet(&self, rt: &impl Wait, workers: usize) -> bool {
        let Some(count) = self.trigger.count_at_rest(rt, workers) else {
            return false;
        };
        // No worker asks for anything until the count moves, and no mailbox gains anything until its number moves.
        let Some(pushed) = self.all_served(rt) else {
            return false;
        };
        self.all_served(rt) == Some(pushed)
            && self.trigger.count_at_rest(rt, workers) == Some(count)
    }

    // How many messages were put, modulo 2^64, if all actors are done with all but those that are lost.
    fn all_served(&self, rt: &impl Wait) -> Option<u64> {
        let mut sum = 0u64;
        for place in &self.shards {
            sum = sum.wrapping_add(place.all_served(rt)?);
        }
        Some(sum)
    }

    /// Whether the stop was raised.
    pub(crate) fn is_stopped(&self) -> bool {
        self.stop.load(Ordering::SeqCst)
    }

    /// Raises the stop, and closes the shards' mailboxes. What waits there is left behind, and who asked is told.
    pub fn shut(&self, rt: &impl Wait) {
        self.stop.store(true, Ordering::SeqCst);
        self.trigger.stop(rt);
        for place in &self.shards {
            place.shut(rt);
        }
        self.rest.look_again(rt);
    }
}

/// One who takes from the next shard, and took nothing. Where there are logs, `rest` speaks for those who take from this shard and
/// from those after it, and then for those alone.
pub fn next_taker<K: Drop, B: Archive>(
    rest: &mut Option<Voice<LruMsg<K>, B>>,
    shard: usize,
    count: usize,
) -> Result<Taker<K, B>, AllocError>
    requires below { shard < count }
    requires rest { AreTakers shard (count - shard) rest.old }
    ensures shard { IfOk result (λ taker. taker.shard ≡ shard) }
    ensures nothing { IfOk result (λ taker. HasNothing (taken_in taker.voice)) }
    ensures logged { IfOk result (λ taker. IsSome taker.voice → IsSome rest.old) }
    ensures rest { OnOk result (AreTakers (shard + 1) (count - (shard + 1)) rest.new × (is_some rest.new ≡ is_some rest.old)) }
{
    let Some(voice) = rest else {
        return Ok(Taker::new(shard, None));
    };
    let voice = voice.next_taker()?;
    Ok(Taker::new(shard, Some(voice)))
}

// The places of so many shards: with logs, where there is what speaks for them.
fn empty_places<K: Clone + Drop, B: BoxRegistry + Archive>(
    alloc: Global,
    logs: &mut Option<Voice<LruMsg<K>, B>>,
    seats: Vec<PutSeat<B>>,
    count: usize,
    capacity: usize,
) -> Result<Vec<ShardPlace<K, B>>, AllocError>
    requires some { 0 < count }
    requires named { IsSome logs.old → B.shards ≡ count }
    requires logs { ForSome logs.old (λ v. v.token.me ≡ (hand (blank_logs 0 count) (blank_fronts 0 count) [], [])) }
    requires fresh { All (λ s. s.share.slips ≡ []) seats.items }
    ensures places { IfOk result (λ places. vec_len places ≡ count) }
    ensures logs { OnOk result (AreTakers 0 count logs.new × (is_some logs.new ≡ is_some logs.old)) }
{
    match logs {
        Some(rest) => logged_places(alloc, rest, seats, count, capacity),
        None => plain_places(alloc, count, capacity),
    }
}

// The places of so many shards without logs.
fn plain_places<K: Clone + Drop, B: BoxRegistry + Archive>(
    alloc: Global,
    count: usize,
    capacity: usize,
) -> Result<Vec<ShardPlace<K, B>>, AllocError>
    ensures { IfOk result (λ places. vec_len places ≡ count) }
{
    let mut places = Vec::with_capacity(alloc, count)?;
    for shard in 0..count {
        places.push(ShardPlace::plain(alloc, shard, capacity)?)?;
    }
    Ok(places)
}

// The places of so many shards with their logs. What spoke for all logs and those who take then speaks for those alone.
fn logged_places<K: Clone + Drop, B: BoxRegistry + Archive>(
    alloc: Global,
    rest: &mut Voice<LruMsg<K>, B>,
    seats: Vec<PutSeat<B>>,
    count: usize,
    capacity: usize,
) -> Result<Vec<ShardPlace<K, B>>, AllocError>
    requires some { 0 < count }
    requires named { B.shards ≡ count }
    requires rest { rest.old.token.me ≡ (hand (blank_logs 0 count) (blank_fronts 0 count) [], []) }
    requires fresh { All (λ s. s.share.slips ≡ []) seats.items }
    ensures all { IfOk result (λ places. vec_len places ≡ count) }
    ensures rest { OnOk result (rest.new.token.me ≡ (hand [] (blank_fronts 0 count) [], [])) }
{
    let mut places = Vec::with_capacity(alloc, count)?;
    let mut seats = seats.into_iter();
    for shard in 0..count {
        let voice = rest.next_log()?;
        let seat = seats.next();
        places.push(ShardPlace::logged(alloc, shard, count, capacity, voice, seat)?)?;
    }
    Ok(places)
}
