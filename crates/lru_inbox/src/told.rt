//! A reply that knows of what it tells.
ghost use Rattle.std.specs.Prelude.{◌≡◌, [], ◌∷◌, length};
ghost use Rattle.std.specs.Option.{ForSome};
ghost use Rattle.lru_shard.specs.Limits.{cap_of};
ghost use Rattle.lru_inbox.specs.Logs.{front, of_fronts};
ghost use Rattle.lru_inbox.specs.Replies.{IsReply};
ghost use Rattle.lru_inbox.specs.Inboxes.{shown};

use crate::tie::{Archive, LogToken};
use lru_actors::effect::Reply;
use lru_actors::message::LruMsg;
use std::marker::PhantomData;

/// A reply, and where there is a log, of what it tells: of the rows that the first so many messages of the shard's log leave.
#[derive(Drop)]
pub struct Told<K: Clone + Drop, B: Archive> {
    /// The reply.
    pub reply: Reply<K>,
    /// The number of the shard.
    pub shard: usize,
    /// How many messages it tells of, modulo 2^64.
    pub count: u64,
    /// How many of those were refused, modulo 2^64. Where none was, it tells of the rows that all of them leave.
    pub refused: u64,
    /// Speaks for those messages, where there is a log.
    pub seen: Option<LogToken<LruMsg<K>>>,
    brand: PhantomData<B>,
    pub ghost here: { ForSome seen (λ t. t.table_id ≡ B.log) },
    pub ghost told: { ForSome seen (λ t. t.me ≡ (of_fronts (front shard (shown t.me.0) ∷ []), [])) },
    pub ghost counted: { ForSome seen (λ t. count ≡ length (shown t.me.0)) },
    pub ghost tells: { ForSome seen (λ t. ∥ IsReply K.is_clone (cap_of B.shards) (shown t.me.0) refused reply ∥₁) },
}

impl<K: Clone + Drop, B: Archive> Told<K, B> {
    pub(crate) fn new(
        reply: Reply<K>,
        shard: usize,
        count: u64,
        refused: u64,
        seen: Option<LogToken<LruMsg<K>>>,
    ) -> Self
        requires here { ForSome seen (λ t. t.table_id ≡ B.log) }
        requires told { ForSome seen (λ t. t.me ≡ (of_fronts (front shard (shown t.me.0) ∷ []), [])) }
        requires counted { ForSome seen (λ t. count ≡ length (shown t.me.0)) }
        requires tells { ForSome seen (λ t. ∥ IsReply K.is_clone (cap_of B.shards) (shown t.me.0) refused reply ∥₁) }
        ensures { (result.reply ≡ reply) × (result.shard ≡ shard) × (result.count ≡ count) × (result.refused ≡ refused) × (result.seen ≡ seen) }
    {
        Told {
            reply,
            shard,
            count,
            refused,
            seen,
            brand: PhantomData,
        }
    }
}
