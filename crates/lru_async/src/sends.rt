//! The messages that the calls of an order send, each with the shard that it is for; and what a refusal hands back.
ghost use Rattle.std.specs.Prelude.{◌≡◌, ◌%◌, ◌<◌, Some, IsSome, option_map};
ghost use Rattle.lru_actors.specs.Keys.{hash_of};
ghost use Rattle.lru_actors.specs.declared.message.LruMsg.TheVariants.{Admit, IncrementWeight, Promote, Remove, InsertTail};
ghost use Rattle.lru_async.specs.Refusals.{held_in, SameCause};
ghost use Rattle.lru_async.specs.Sends.{addressed, key_in, IsMailRefusal, refused_by, answered_by, heard_by};

use crate::refusals::SendRefused;
use lru_actors::Letter;
use lru_actors::effect::Reply;
use lru_actors::key::hash_key;
use lru_actors::message::LruMsg;
use lru_inbox::Told;
use lru_inbox::tie::Archive;
use lru_mailbox::MailError;
use std::hash::Hash;

/// A message, and the shard whose actor is to have it.
#[derive(Drop)]
pub struct Addressed<K: Drop> {
    /// The number of the shard.
    pub shard: usize,
    /// The message.
    pub message: LruMsg<K>,
}

/// What a question was told.
#[derive(Drop)]
pub struct Heard<K: Drop> {
    /// The reply.
    pub reply: Reply<K>,
    /// How many of the messages up to the question were refused, modulo 2^64.
    pub refused: u64,
}

/// The shard of a hash among so many.
pub fn shard_of(hash: u64, shards: usize) -> usize
    requires { 0 < shards }
    ensures value { result ≡ hash % shards }
    ensures below { result < shards }
{
    (hash % shards as u64) as usize
}

/// Asks for a row first.
pub fn admission<K: Hash + Eq + Drop>(key: K, weight: usize, shards: usize) -> Addressed<K>
    requires { 0 < shards }
    ensures { result ≡ addressed shards (hash_of (K.hash_input key)) (Admit (hash_of (K.hash_input key)) key weight) }
{
    let hash = hash_key(&key);
    Addressed {
        shard: shard_of(hash, shards),
        message: LruMsg::Admit { hash, key, weight },
    }
}

/// Asks for a row last.
pub fn tail_row<K: Hash + Eq + Drop>(key: K, weight: usize, shards: usize) -> Addressed<K>
    requires { 0 < shards }
    ensures { result ≡ addressed shards (hash_of (K.hash_input key)) (InsertTail (hash_of (K.hash_input key)) key weight) }
{
    let hash = hash_key(&key);
    Addressed {
        shard: shard_of(hash, shards),
        message: LruMsg::InsertTail { hash, key, weight },
    }
}

/// Asks that the weight of a key grows, and its row is put first. A new row is made of a clone of the key.
pub fn increment<K: Hash + Eq + Drop>(
    key: &K,
    clone: K,
    delta: usize,
    max_weight: Option<usize>,
    shards: usize,
) -> Addressed<K>
    requires { 0 < shards }
    ensures { result ≡ addressed shards (hash_of (K.hash_input key.now)) (IncrementWeight (hash_of (K.hash_input key.now)) clone delta max_weight) }
{
    let hash = hash_key(key);
    Addressed {
        shard: shard_of(hash, shards),
        message: LruMsg::IncrementWeight {
            hash,
            key: clone,
            delta,
            max_weight,
        },
    }
}

/// Asks that the row with this hash is put first.
pub fn promotion<K: Drop>(hash: u64, shards: usize) -> Addressed<K>
    requires { 0 < shards }
    ensures { result ≡ addressed shards hash (Promote hash) }
{
    Addressed {
        shard: shard_of(hash, shards),
        message: LruMsg::Promote { hash },
    }
}

/// Asks that the row with this hash is taken out.
pub fn removal<K: Drop>(hash: u64, shards: usize) -> Addressed<K>
    requires { 0 < shards }
    ensures { result ≡ addressed shards hash (Remove hash) }
{
    Addressed {
        shard: shard_of(hash, shards),
        message: LruMsg::Remove { hash },
    }
}

/// Why a message was not sent, by why its mailbox refused the letter.
pub fn refusal_of<K: Drop, T: Drop>(refused: MailError<Letter<K, T>>) -> SendRefused<LruMsg<K>>
    requires { IsMailRefusal refused }
    ensures { Some result ≡ refused_by refused }
{
    match refused {
        MailError::Memory(letter) => SendRefused::Memory(letter.message),
        MailError::Closed(letter) => SendRefused::Closed(letter.message),
        MailError::Waiting(_) => unreachable!(),
    }
}

/// The same refusal, with the key of the message alone.
pub fn key_back<K: Drop>(refused: SendRefused<LruMsg<K>>) -> SendRefused<K>
    requires { IsSome (key_in (held_in refused)) }
    ensures cause { SameCause refused result }
    ensures key { key_in (held_in refused) ≡ Some (held_in result) }
{
    match refused {
        SendRefused::Memory(message) => SendRefused::Memory(key_of(message)),
        SendRefused::Closed(message) => SendRefused::Closed(key_of(message)),
    }
}

// The key of a message that brings one.
fn key_of<K: Drop>(message: LruMsg<K>) -> K
    requires { IsSome (key_in message) }
    ensures { key_in message ≡ Some result }
{
    match message {
        LruMsg::Admit { key, .. }
        | LruMsg::IncrementWeight { key, .. }
        | LruMsg::InsertTail { key, .. } => key,
        _ => unreachable!(),
    }
}

/// What a question is answered, by what its cell was filled with: nothing where the message was left behind.
pub fn answer_of<K: Drop>(reply: Option<Reply<K>>) -> Result<Option<Reply<K>>, SendRefused<()>>
    ensures { result ≡ answered_by reply }
{
    match reply {
        Some(Reply::Memory) => Err(SendRefused::Memory(())),
        Some(reply) => Ok(Some(reply)),
        None => Err(SendRefused::Closed(())),
    }
}

/// The same, with how many messages were refused up to the question.
pub fn heard_in<K: Clone + Drop, B: Archive>(
    told: Option<Told<K, B>>,
) -> Result<Heard<K>, SendRefused<()>>
    ensures { result ≡ heard_by (option_map (λ t. (t.reply, t.refused)) told) }
{
    let Some(Told { reply, refused, .. }) = told else {
        return Err(SendRefused::Closed(()));
    };
    match reply {
        Reply::Memory => Err(SendRefused::Memory(())),
        reply => Ok(Heard { reply, refused }),
    }
}
