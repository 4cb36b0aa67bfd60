//! The line to the actors of an order, and the calls over it.
ghost use Rattle.std.specs.Prelude.{◌≡◌, ◌%◌, ◌<◌, ◌≤◌, ℕ, Option, Some, None, Ok, IfOk, IfErr, OnOk, IsSome, is_some, true};
ghost use Rattle.std.specs.Option.{ForSome};
ghost use Rattle.lru_actors.specs.Keys.{hash_of};
ghost use Rattle.lru_actors.specs.declared.message.LruMsg.TheVariants.{Admit, IncrementWeight, Promote, Remove, InsertTail, PeekLru, Snapshot, QueryWeight};
ghost use Rattle.lru_actors.specs.declared.effect.Reply.TheVariants.{Weight, Lru, Rows};
ghost use Rattle.lru_async.specs.Refusals.{held_in};

use crate::refusals::SendRefused;
use crate::sends::{
    Addressed, Heard, admission, increment, key_back, promotion, removal, shard_of, tail_row,
};
use lru_actors::effect::Reply;
use lru_actors::key::hash_key;
use lru_actors::message::LruMsg;
use std::hash::Hash;

/// The line to the actors of an order: what is put into their mailboxes, what is asked of them, and what is looked up beside them.
/// A line says of itself what that means; the calls over it say which message they send, and to which shard, on any line.
pub trait Line<K: Drop> {
    ghost use Rattle.std.specs.Prelude.{ℕ, Option};
    ghost use Rattle.lru_actors.specs.declared.message.LruMsg.{LruMsg};
    ghost use Rattle.lru_actors.specs.declared.effect.Reply.{Reply};

    // how many shards there are
    ghost shards: { Self → ℕ };

    // a message was put into the mailbox of a shard
    ghost Sent: { Self → ℕ → LruMsg K → Self → Type 0 };

    // a question was put there, and this was told, with how many messages the shard had refused
    ghost Told: { Self → ℕ → LruMsg K → Reply K → ℕ → Self → Type 0 };

    // a shard was looked at for the weight of a hash
    ghost Looked: { Self → ℕ → ℕ → Option ℕ → Self → Type 0 };

    /// How many shards there are.
    fn count(&self) -> usize
        ensures { result ≡ shards self.now };

    /// Sends a message to the actor of its shard. A refusal hands it back.
    fn send(&mut self, addressed: Addressed<K>) -> Result<(), SendRefused<LruMsg<K>>>
        requires { addressed.shard < shards self.old }
        ensures sent { OnOk result (Sent self.old addressed.shard addressed.message self.new) }
        ensures held { IfErr result (λ r. held_in r ≡ addressed.message) }
        ensures count { shards self.new ≡ shards self.old };

    /// Sends a message that asks, and waits for what it is told.
    fn ask(&mut self, addressed: Addressed<K>) -> Result<Heard<K>, SendRefused<()>>
        requires { addressed.shard < shards self.old }
        ensures told { IfOk result (λ h. Told self.old addressed.shard addressed.message h.reply h.refused self.new) }
        ensures count { shards self.new ≡ shards self.old };

    /// Looks a hash up, and answers the weight of its row, if there is one.
    fn look(&mut self, shard: usize, hash: u64) -> Option<usize>
        requires { shard < shards self.old }
        ensures looked { Looked self.old shard hash result self.new }
        ensures count { shards self.new ≡ shards self.old };
}

/// Asks for a row first in the shard of its key, and answers that shard. A refusal hands the key back.
pub fn admit<K: Hash + Eq + Drop, L: Line<K>>(
    line: &mut L,
    key: K,
    weight: usize,
) -> Result<usize, SendRefused<K>>
    requires { 0 < L.shards line.old }
    ensures shard { IfOk result (λ s. s ≡ hash_of (K.hash_input key) % L.shards line.old) }
    ensures sent { IfOk result (λ s. L.Sent line.old s (Admit (hash_of (K.hash_input key)) key weight) line.new) }
    ensures held { IfErr result (λ r. held_in r ≡ key) }
{
    let addressed = admission(key, weight, line.count());
    let shard = addressed.shard;
    match line.send(addressed) {
        Ok(()) => Ok(shard),
        Err(refused) => Err(key_back(refused)),
    }
}

/// Asks for a row last in the shard of its key, and answers that shard. A refusal hands the key back.
pub fn insert_tail<K: Hash + Eq + Drop, L: Line<K>>(
    line: &mut L,
    key: K,
    weight: usize,
) -> Result<usize, SendRefused<K>>
    requires { 0 < L.shards line.old }
    ensures shard { IfOk result (λ s. s ≡ hash_of (K.hash_input key) % L.shards line.old) }
    ensures sent { IfOk result (λ s. L.Sent line.old s (InsertTail (hash_of (K.hash_input key)) key weight) line.new) }
    ensures held { IfErr result (λ r. held_in r ≡ key) }
{
    let addressed = tail_row(key, weight, line.count());
    let shard = addressed.shard;
    match line.send(addressed) {
        Ok(()) => Ok(shard),
        Err(refused) => Err(key_back(refused)),
    }
}

/// Asks that a key's row is put first, where a look finds one. Else it answers false, and sends nothing.
pub fn promote<K: Hash + Eq + Drop, L: Line<K>>(
    line: &mut L,
    key: &K,
) -> Result<bool, SendRefused<()>>
    requires { 0 < L.shards line.old }
    ensures looked { IfOk result (λ asked. (weight : Option ℕ) × (mid : L) × L.Looked line.old (hash_of (K.hash_input key.now) % L.shards line.old) (hash_of (K.hash_input key.now)) weight mid × (asked ≡ is_some weight) × (asked ≡ true → L.Sent mid (hash_of (K.hash_input key.now) % L.shards line.old) (Promote (hash_of (K.hash_input key.now))) line.new)) }
{
    let hash = hash_key(key);
    let count = line.count();
    if line.look(shard_of(hash, count), hash).is_none() {
        return Ok(false);
    }
    match line.send(promotion(hash, count)) {
        Ok(()) => Ok(true),
        Err(refused) => Err(refused.bare()),
    }
}

/// Asks that the row with this hash is taken out.
pub fn remove_by_hash<K: Drop, L: Line<K>>(line: &mut L, hash: u64) -> Result<(), SendRefused<()>>
    requires { 0 < L.shards line.old }
    ensures { OnOk result (L.Sent line.old (hash % L.shards line.old) (Remove hash) line.new) }
{
    match line.send(removal(hash, line.count())) {
        Ok(()) => Ok(()),
        Err(refused) => Err(refused.bare()),
    }
}

/// Asks that `delta` is added to a key's weight, as far as `max_weight`, and its row put first. A new row is made of a clone of the
/// key.
pub fn increment_weight<K: Hash + Eq + Clone + Drop, L: Line<K>>(
    line: &mut L,
    key: &K,
    delta: usize,
    max_weight: Option<usize>,
) -> Result<(), SendRefused<()>>
    requires { 0 < L.shards line.old }
    ensures { OnOk result ((clone : K) × K.is_clone key.now clone × L.Sent line.old (hash_of (K.hash_input key.now) % L.shards line.old) (IncrementWeight (hash_of (K.hash_input key.now)) clone delta max_weight) line.new) }
{
    let Ok(clone) = key.clone() else {
        return Err(SendRefused::Memory(()));
    };
    match line.send(increment(key, clone, delta, max_weight, line.count())) {
        Ok(()) => Ok(()),
        Err(refused) => Err(refused.bare()),
    }
}

/// A clone of the last row's key, and its weight; `None` of an empty shard, and past the last shard.
pub fn peek_lru<K: Drop, L: Line<K>>(
    line: &mut L,
    shard: usize,
) -> Result<Option<(K, usize)>, SendRefused<()>>
    ensures past { L.shards line.old ≤ shard → result ≡ Ok None }
    ensures told { shard < L.shards line.old → IfOk result (λ last. (refused : ℕ) × L.Told line.old shard PeekLru (Lru last) refused line.new) }
{
    if shard >= line.count() {
        return Ok(None);
    }
    let message = LruMsg::PeekLru;
    match line.ask(Addressed { shard, message })?.reply {
        Reply::Lru(last) => Ok(last),
        _ => Err(SendRefused::Closed(())),
    }
}

/// Clones of all keys of a shard with their weights, most recent first; `None` past the last shard.
pub fn snapshot_shard<K: Drop, L: Line<K>>(
    line: &mut L,
    shard: usize,
) -> Result<Option<Vec<(K, usize)>>, SendRefused<()>>
    ensures past { L.shards line.old ≤ shard → result ≡ Ok None }
    ensures there { shard < L.shards line.old → IfOk result (λ rows. IsSome rows) }
    ensures told { IfOk result (λ rows. ForSome rows (λ r. (refused : ℕ) × L.Told line.old shard Snapshot (Rows r) refused line.new)) }
{
    if shard >= line.count() {
        return Ok(None);
    }
    let (rows, _refused) = counted_snapshot(line, shard)?;
    Ok(Some(rows))
}

/// The same of a shard that is there, with how many messages it had refused.
pub fn counted_snapshot<K: Drop, L: Line<K>>(
    line: &mut L,
    shard: usize,
) -> Result<(Vec<(K, usize)>, u64), SendRefused<()>>
    requires { shard < L.shards line.old }
    ensures told { IfOk result (λ r. L.Told line.old shard Snapshot (Rows r.0) r.1 line.new) }
    ensures count { L.shards line.new ≡ L.shards line.old }
{
    let message = LruMsg::Snapshot;
    let Heard { reply, refused } = line.ask(Addressed { shard, message })?;
    match reply {
        Reply::Rows(rows) => Ok((rows, refused)),
        _ => Err(SendRefused::Closed(())),
    }
}

/// The weight of a shard; `None` past the last shard.
pub fn shard_weight<K: Drop, L: Line<K>>(
    line: &mut L,
    shard: usize,
) -> Result<Option<usize>, SendRefused<()>>
    ensures past { L.shards line.old ≤ shard → result ≡ Ok None }
    ensures there { shard < L.shards line.old → IfOk result (λ weight. IsSome weight) }
    ensures told { IfOk result (λ weight. ForSome weight (λ w. (refused : ℕ) × L.Told line.old shard QueryWeight (Weight w) refused line.new)) }
{
    if shard >= line.count() {
        return Ok(None);
    }
    let message = LruMsg::QueryWeight;
    match line.ask(Addressed { shard, message })?.reply {
        Reply::Weight(weight) => Ok(Some(weight)),
        _ => Err(SendRefused::Closed(())),
    }
}
