//! An order served by actors that keeps logs: each answer says what it saw of them.
ghost use Rattle.std.specs.Prelude.{◌≡◌, ◌+◌, ◌%◌, ◌<◌, ◌≤◌, [], IfOk, IfErr, OnOk, OnErr, Ok, Err, None, IsSome, true};
ghost use Rattle.std.specs.Option.{ForSome};
ghost use Rattle.std.specs.Arc.{arc_value};
ghost use Rattle.lru_shard.specs.Limits.{cap_of};
ghost use Rattle.lru_actors.specs.Keys.{hash_of};
ghost use Rattle.lru_actors.specs.declared.message.LruMsg.TheVariants.{Admit, InsertTail, Promote, Remove, IncrementWeight, PeekLru, Snapshot, QueryWeight};
ghost use Rattle.lru_actors.specs.declared.effect.Reply.TheVariants.{Weight, Lru, Rows};
ghost use Rattle.lru_inbox.specs.Inboxes.{Sends};
ghost use Rattle.lru_async.specs.Refusals.{held_in};
ghost use Rattle.lru_async.specs.Saving.{IsReport, IsWritten};
ghost use Rattle.lru_async.specs.Logged.{fronts_of, Found, Grew, IsRows, Learned, Looked, SeesMore};

use crate::async_lru::{AsyncLru, ShardData};
use crate::builder::AsyncLruBuilder;
use crate::cells::cell_of_question;
use crate::refusals::{BuildError, SendRefused};
use crate::saving::SaveReport;
use crate::sends::{
    Addressed, admission, answer_of, increment, key_back, promotion, refusal_of, removal, shard_of,
    tail_row,
};
use log::Log;
use lru_actors::Letter;
use lru_actors::effect::Reply;
use lru_actors::key::hash_key;
use lru_actors::message::LruMsg;
use lru_boxes::BoxRegistry;
use lru_inbox::Caller;
use lru_inbox::tie::{Archive, BlankLogs};
use lru_workers::callback::{AsyncEvictionCallback, Gate};
use std::alloc::AllocError;
use std::hash::Hash;
use std::sync::Wait;
use std::thread::Threads;

/// An [`AsyncLru`] whose shards keep a log each of all messages that they accept, in order. The logs exist in the proofs alone.
///
/// Who calls it has a [`Caller`], which has seen a beginning of each log. A call that sends a message says that the log has
/// grown, past all that the caller had seen, by exactly that message; a call that asks says that the answer is that of the rows
/// after a beginning of the log which has all that the caller had seen, and its own question. A look sends nothing, and says that
/// its answer is that of the rows after messages which, with all that the caller had seen, begin one log. `Caller::refused` then tells
/// how many of the messages that an answer saw were refused: where none was, it is that of the rows which all of them leave
/// (`exact_law`).
#[derive(Drop)]
pub struct LoggedLru<K: Clone + Drop, const N: usize, B: BoxRegistry + Archive> {
    lru: AsyncLru<K, N, B>,
    ghost some: { 0 < N },
    ghost shards: { B.shards ≡ N },
}

impl<K: Clone + Drop, const N: usize, B: BoxRegistry + Archive> LoggedLru<K, N, B> {
    ghost use Rattle.lru_async.specs.LoggedOrders.{logged_order};

    /// An order over logs, as `AsyncLruBuilder::build_over_logs` starts it. Without logs its calls would wait for ever.
    pub fn over(lru: AsyncLru<K, N, B>) -> Self
        requires { (0 < N) × (B.shards ≡ N) }
        ensures { logged_order result ≡ lru }
    {
        LoggedLru { lru }
    }

    /// The order.
    pub fn lru(&self) -> &AsyncLru<K, N, B>
        ensures { result.now ≡ logged_order self.now }
    {
        &self.lru
    }

    /// The order, whose logs are kept no longer by who calls it.
    pub fn into_lru(self) -> AsyncLru<K, N, B>
        ensures { result ≡ logged_order self }
    {
        let LoggedLru { lru } = self;
        lru
    }
}

impl<
    K: Hash + Eq + Clone + Drop + Send + Sync + 'static,
    const N: usize,
    B: BoxRegistry + Archive + Send + Sync + 'static,
> LoggedLru<K, N, B> {
    ghost use Rattle.lru_async.specs.Orders.{HasWorkers, limits_of, limits_told};
    ghost use Rattle.lru_async.specs.LoggedOrders.{logged_order};
    ghost use Rattle.lru_async.specs.declared.refusals.BuildError.TheVariants.{NoCallbackWorkers};

    /// Starts the threads of a builder's order, which keeps a log of each shard's messages, by a blank for N shards: who calls it
    /// by a `Caller` learns what its answers saw. Without callback workers it is refused.
    pub fn build<
        C: AsyncEvictionCallback<K> + Drop + 'static,
        G: Gate + Drop + 'static,
        R: Threads + Wait + Copy + Send + 'static,
    >(
        builder: AsyncLruBuilder<K, C, N, G>,
        rt: R,
        blank: BlankLogs<LruMsg<K>>,
    ) -> Result<Self, BuildError>
        requires some { 0 < N }
        requires ready { C.ready (arc_value builder.callback) }
        requires table { blank.tie.table.shared.table_id ≡ B.log }
        requires counts { (blank.tie.table.shared.key ≡ N) × (B.shards ≡ N) }
        ensures refused { builder.settings.num_callback_workers ≡ 0 → result ≡ Err NoCallbackWorkers }
        ensures limits { IfOk result (λ logged. limits_of (logged_order logged) ≡ limits_told builder.settings) }
        ensures workers { IfOk result (λ logged. HasWorkers (logged_order logged) builder.settings) }
    {
        match builder.build_over_logs::<R, B>(rt, blank) {
            Ok(lru) => Ok(LoggedLru { lru }),
            Err(refused) => Err(refused),
        }
    }
}

impl<
    K: Hash + Eq + Clone + Drop + Send + Sync + 'static,
    const N: usize,
    B: BoxRegistry + Archive,
> LoggedLru<K, N, B> {
    /// One who calls, and has seen nothing of any log.
    pub fn caller(&self, rt: &impl Wait) -> Result<Caller<K, B>, AllocError>
        ensures { IfOk result (λ caller. fronts_of caller ≡ []) }
    {
        let world = self.lru.world();
        for _ in rt.forever() {
            if let Some(caller) = world.shards[0].mailbox.caller(rt)? {
                return Ok(caller);
            }
        }
        unreachable!()
    }

    // Sends a message to the actor of its shard. A refusal hands it back.
    fn send(
        &self,
        rt: &impl Wait,
        caller: &mut Caller<K, B>,
        addressed: Addressed<K>,
    ) -> Result<(), SendRefused<LruMsg<K>>>
        requires { addressed.shard < N }
        ensures sent { OnOk result (Sends addressed.shard addressed.message (fronts_of caller.old) (fronts_of caller.new)) }
        ensures held { IfErr result (λ r. held_in r ≡ addressed.message) }
        ensures same { OnErr result (caller.new ≡ caller.old) }
    {
        let Addressed { shard, message } = addressed;
        match self.lru.world().shards[shard]
            .mailbox
            .send(rt, shard, caller, Letter::new(message))
        {
            Ok(_) => Ok(()),
            Err(refused) => Err(refusal_of(refused)),
        }
    }

    /// Asks for a row first in the shard of its key, as `AsyncLru::admit` does.
    pub fn admit(
        &self,
        rt: &impl Wait,
        caller: &mut Caller<K, B>,
        key: K,
        weight: usize,
    ) -> Result<usize, SendRefused<K>>
        ensures shard { IfOk result (λ s. s ≡ hash_of (K.hash_input key) % N) }
        ensures sent { IfOk result (λ s. Grew s (Admit (hash_of (K.hash_input key)) key weight) caller.old caller.new) }
        ensures held { IfErr result (λ r. held_in r ≡ key) }
        ensures same { OnErr result (caller.new ≡ caller.old) }
    {
        let addressed = admission(key, weight, N);
        let shard = addressed.shard;
        match self.send(rt, caller, addressed) {
            Ok(()) => Ok(shard),
            Err(refused) => Err(key_back(refused)),
        }
    }

    /// Asks for a row last in the shard of its key, where the key has none, as `AsyncLru::insert_tail` does.
    pub fn insert_tail(
        &self,
        rt: &impl Wait,
        caller: &mut Caller<K, B>,
        key: K,
        weight: usize,
    ) -> Result<usize, SendRefused<K>>
        ensures shard { IfOk result (λ s. s ≡ hash_of (K.hash_input key) % N) }
        ensures sent { IfOk result (λ s. Grew s (InsertTail (hash_of (K.hash_input key)) key weight) caller.old caller.new) }
        ensures held { IfErr result (λ r. held_in r ≡ key) }
        ensures same { OnErr result (caller.new ≡ caller.old) }
    {
        let addressed = tail_row(key, weight, N);
        let shard = addressed.shard;
        match self.send(rt, caller, addressed) {
            Ok(()) => Ok(shard),
            Err(refused) => Err(key_back(refused)),
        }
    }

    /// Asks that a key's row is put first, as `AsyncLru::promote` does: true where it was asked.
    pub fn promote(
        &self,
        rt: &impl Wait,
        caller: &mut Caller<K, B>,
        key: &K,
    ) -> Result<bool, SendRefused<()>>
        ensures looked { IfOk result (λ asked. Found (cap_of N) (hash_of (K.hash_input key.now) % N) (hash_of (K.hash_input key.now)) caller.old asked caller.new) }
        ensures sent { IfOk result (λ asked. asked ≡ true → Grew (hash_of (K.hash_input key.now) % N) (Promote (hash_of (K.hash_input key.now))) caller.old caller.new) }
        ensures grows { SeesMore caller.old caller.new }
    {
        let hash = hash_key(key);
        if self.peek_weight(rt, caller, key).is_none() {
            return Ok(false);
        }
        let looked = caller.refused;
        match self.send(rt, caller, promotion(hash, N)) {
            Ok(()) => {
                // a send tells nothing of refusals
                caller.refused = looked;
                Ok(true)
            }
            Err(refused) => Err(refused.bare()),
        }
    }

    /// Asks that a key's row is taken out.
    pub fn remove(
        &self,
        rt: &impl Wait,
        caller: &mut Caller<K, B>,
        key: &K,
    ) -> Result<(), SendRefused<()>>
        ensures sent { OnOk result (Grew (hash_of (K.hash_input key.now) % N) (Remove (hash_of (K.hash_input key.now))) caller.old caller.new) }
        ensures same { OnErr result (caller.new ≡ caller.old) }
    {
        self.remove_by_hash(rt, caller, hash_key(key))
    }

    /// Asks that the row with this hash is taken out.
    pub fn remove_by_hash(
        &self,
        rt: &impl Wait,
        caller: &mut Caller<K, B>,
        hash: u64,
    ) -> Result<(), SendRefused<()>>
        ensures sent { OnOk result (Grew (hash % N) (Remove hash) caller.old caller.new) }
        ensures same { OnErr result (caller.new ≡ caller.old) }
    {
        match self.send(rt, caller, removal(hash, N)) {
            Ok(()) => Ok(()),
            Err(refused) => Err(refused.bare()),
        }
    }

    /// Asks that `delta` is added to a key's weight, as far as `max_weight`, as `AsyncLru::increment_weight` does.
    pub fn increment_weight(
        &self,
        rt: &impl Wait,
        caller: &mut Caller<K, B>,
        key: &K,
        delta: usize,
        max_weight: Option<usize>,
    ) -> Result<(), SendRefused<()>>
        ensures sent { OnOk result ((clone : K) × K.is_clone key.now clone × Grew (hash_of (K.hash_input key.now) % N) (IncrementWeight (hash_of (K.hash_input key.now)) clone delta max_weight) caller.old caller.new) }
        ensures same { OnErr result (caller.new ≡ caller.old) }
    {
        let Ok(clone) = key.clone() else {
            return Err(SendRefused::Memory(()));
        };
        match self.send(rt, caller, increment(key, clone, delta, max_weight, N)) {
            Ok(()) => Ok(()),
            Err(refused) => Err(refused.bare()),
        }
    }

    /// Whether there is a row with the hash of this key, in the rows of one moment: it may lie before what the caller had seen.
    pub fn peek(&self, rt: &impl Wait, caller: &mut Caller<K, B>, key: &K) -> bool
        ensures told { Found (cap_of N) (hash_of (K.hash_input key.now) % N) (hash_of (K.hash_input key.now)) caller.old result caller.new }
        ensures grows { SeesMore caller.old caller.new }
    {
        self.peek_weight(rt, caller, key).is_some()
    }

    /// The weight of the row with the hash of this key, if there is one, as `peek` looks for it.
    pub fn peek_weight(&self, rt: &impl Wait, caller: &mut Caller<K, B>, key: &K) -> Option<usize>
        ensures told { Looked (cap_of N) (hash_of (K.hash_input key.now) % N) (hash_of (K.hash_input key.now)) caller.old result caller.new }
        ensures grows { SeesMore caller.old caller.new }
    {
        let hash = hash_key(key);
        let shard = shard_of(hash, N);
        self.lru.world().shards[shard].look(rt, shard, caller, hash)
    }

    // Sends a message that asks, and waits for its reply. One that tells of less than the caller had seen would be told as
    // closed; there is none.
    fn ask(
        &self,
        rt: &impl Wait,
        caller: &mut Caller<K, B>,
        addressed: Addressed<K>,
    ) -> Result<Option<Reply<K>>, SendRefused<()>>
        requires { addressed.shard < N }
        ensures told { IfOk result (λ reply. ForSome reply (λ r. Learned K.is_clone (cap_of N) addressed.shard addressed.message caller.old r caller.new)) }
        ensures grows { SeesMore caller.old caller.new }
    {
        let Addressed { shard, message } = addressed;
        let (cell, theirs) = cell_of_question(self.lru.alloc())?;
        let number = match self.lru.world().shards[shard]
            .mailbox
            .send(rt, shard, caller, Letter::asking(message, theirs))
        {
            Ok(number) => number,
            Err(refused) => return Err(refusal_of(refused).bare()),
        };
        let Some(told) = cell.take(rt) else {
            return Err(SendRefused::Closed(()));
        };
        answer_of(caller.learn(shard, number, told))
    }

    /// The weight of a shard; `None` past the last shard. Refused where there is no memory for the question or the answer, and
    /// where the actor is closed.
    pub fn shard_weight(
        &self,
        rt: &impl Wait,
        caller: &mut Caller<K, B>,
        shard: usize,
    ) -> Result<Option<usize>, SendRefused<()>>
        ensures past { N ≤ shard → result ≡ Ok None }
        ensures there { shard < N → IfOk result (λ weight. IsSome weight) }
        ensures told { IfOk result (λ weight. ForSome weight (λ w. Learned K.is_clone (cap_of N) shard QueryWeight caller.old (Weight w) caller.new)) }
        ensures grows { SeesMore caller.old caller.new }
    {
        if shard >= N {
            return Ok(None);
        }
        let message = LruMsg::QueryWeight;
        match self.ask(rt, caller, Addressed { shard, message })? {
            Some(Reply::Weight(weight)) => Ok(Some(weight)),
            _ => Err(SendRefused::Closed(())),
        }
    }

    /// A clone of the last row's key, and its weight; `None` of an empty shard, and past the last shard. Refused as
    /// `shard_weight` is, and where there is no memory for the clone.
    pub fn peek_lru(
        &self,
        rt: &impl Wait,
        caller: &mut Caller<K, B>,
        shard: usize,
    ) -> Result<Option<(K, usize)>, SendRefused<()>>
        ensures past { N ≤ shard → result ≡ Ok None }
        ensures told { shard < N → IfOk result (λ last. Learned K.is_clone (cap_of N) shard PeekLru caller.old (Lru last) caller.new) }
        ensures grows { SeesMore caller.old caller.new }
    {
        if shard >= N {
            return Ok(None);
        }
        let message = LruMsg::PeekLru;
        match self.ask(rt, caller, Addressed { shard, message })? {
            Some(Reply::Lru(last)) => Ok(last),
            _ => Err(SendRefused::Closed(())),
        }
    }

    /// Clones of all keys of a shard with their weights, most recent first; `None` past the last shard. Refused as
    /// `shard_weight` is, and where there is no memory for the clones.
    pub fn snapshot_shard(
        &self,
        rt: &impl Wait,
        caller: &mut Caller<K, B>,
        shard: usize,
    ) -> Result<Option<Vec<(K, usize)>>, SendRefused<()>>
        ensures past { N ≤ shard → result ≡ Ok None }
        ensures there { shard < N → IfOk result (λ rows. IsSome rows) }
        ensures told { IfOk result (λ rows. ForSome rows (λ pairs. Learned K.is_clone (cap_of N) shard Snapshot caller.old (Rows pairs) caller.new)) }
        ensures grows { SeesMore caller.old caller.new }
    {
        if shard >= N {
            return Ok(None);
        }
        let message = LruMsg::Snapshot;
        match self.ask(rt, caller, Addressed { shard, message })? {
            Some(Reply::Rows(rows)) => Ok(Some(rows)),
            _ => Err(SendRefused::Closed(())),
        }
    }

    // The rows of a shard, if it gives a snapshot.
    fn rows_of(
        &self,
        rt: &impl Wait,
        caller: &mut Caller<K, B>,
        shard: usize,
    ) -> Option<ShardData<K>>
        requires { shard < N }
        ensures told { ForSome result (λ rows. (rows.shard_index ≡ shard) × (rows.refused ≡ caller.new.refused) × Learned K.is_clone (cap_of N) shard Snapshot caller.old (Rows rows.items) caller.new) }
        ensures grows { SeesMore caller.old caller.new }
    {
        let Ok(Some(items)) = self.snapshot_shard(rt, caller, shard) else {
            return None;
        };
        Some(ShardData {
            shard_index: shard,
            items,
            refused: caller.refused,
        })
    }

    /// Takes each shard's snapshot in turn, hands it to `write` on this thread, and answers how many were written, as
    /// `AsyncLru::save` does. It needs `write` to be callable only with rows of messages that begin with all that the caller had
    /// seen of the shard's log; so it is called with no others.
    pub fn save<L: Log, F: Fn(ShardData<K>) -> Result<(), String> + Drop>(
        &self,
        rt: &impl Wait,
        caller: &mut Caller<K, B>,
        log: &L,
        write: F,
    ) -> usize
        requires { (rows : ShardData K) → rows.shard_index < N → IsRows K.is_clone (cap_of N) caller.old rows → F.pre write rows }
        ensures count { result ≤ N }
        ensures told { IsWritten (F.post write) (IsRows K.is_clone (cap_of N) caller.old) N result }
        ensures grows { SeesMore caller.old caller.new }
    {
        self.save_report(rt, caller, log, write).written
    }

    /// As `save`, and it answers of each shard what became of it: it was written, or refused, or gave no snapshot.
    pub fn save_report<L: Log, F: Fn(ShardData<K>) -> Result<(), String> + Drop>(
        &self,
        rt: &impl Wait,
        caller: &mut Caller<K, B>,
        log: &L,
        write: F,
    ) -> SaveReport
        requires { (rows : ShardData K) → rows.shard_index < N → IsRows K.is_clone (cap_of N) caller.old rows → F.pre write rows }
        ensures all { result.written + (result.refused + result.missing) ≡ N }
        ensures told { IsReport (F.post write) (IsRows K.is_clone (cap_of N) caller.old) N result }
        ensures grows { SeesMore caller.old caller.new }
    {
        let mut report = SaveReport::of_none();
        for shard in 0..N {
            let rows = self.rows_of(rt, caller, shard);
            report.hand_on(log, "LoggedLru", &write, rows);
        }
        report
    }
}
