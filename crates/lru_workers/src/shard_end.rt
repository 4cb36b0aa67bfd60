//! What a shard with a log came to.
ghost use Rattle.std.specs.Prelude.{◌≡◌, [], ◌∷◌, Some, IsSome};
ghost use Rattle.std.specs.Option.{ForSome};
ghost use Rattle.lru_shard.specs.Limits.{cap_of};
ghost use Rattle.lru_inbox.specs.Logs.{Begins, accepted, hand, log_of, seen_of};
ghost use Rattle.lru_inbox.specs.Inboxes.{log_in};
ghost use Rattle.lru_workers.specs.Accounts.{IsAccount};

use crate::logged_shard::LoggedShard;
use lru_actors::message::LruMsg;
use lru_actors::state::ShardState;
use lru_boxes::seats::PutSeat;
use lru_boxes::tie::BoxRegistry;
use lru_inbox::tie::Archive;
use lru_inbox::voice::Voice;
use lru_inbox::{Caller, Inbox};

/// What a shard with a log came to, once nothing is put or taken any more.
#[derive(Drop)]
pub struct ShardEnd<K: Clone + Drop, B: Archive> {
    /// The number of the shard.
    pub shard: usize,
    /// The rows that were left, and how many messages were refused.
    pub state: ShardState<K>,
    /// Speaks for the log: what was taken, and what was left behind.
    pub log: Voice<LruMsg<K>, B>,
    pub ghost speaks: { log.token.me ≡ (hand (log_of log.token.me.0 ∷ []) [] log.token.me.0.fronts, []) },
    pub ghost shard_is: { (log_of log.token.me.0).shard ≡ shard },
}

impl<K: Clone + Drop, B: Archive> ShardEnd<K, B> {
    /// Shows of one who sent messages that the log begins with all that this one had seen of it, its own messages among it.
    pub fn recognize(&mut self, caller: &mut Caller<K, B>)
        ensures begins { Begins (seen_of self.old.shard caller.old.voice.token.me.0.fronts) (accepted (log_of self.old.log.token.me.0)) }
        ensures same { (self.new.shard ≡ self.old.shard) × (self.new.state ≡ self.old.state) × (log_of self.new.log.token.me.0 ≡ log_of self.old.log.token.me.0) }
        ensures caller { caller.new.voice.token.me ≡ caller.old.voice.token.me }
    {
        self.log.learn(caller.voice.seen());
    }
}

impl<K: Clone + Drop, B: BoxRegistry + Archive> LoggedShard<K, B> {
    /// What the shard of this number came to, with the seat that has the slips of what it evicted, by its mailbox: the account of
    /// its rows by all messages that were taken. `None` where the mailbox or the rows are those of another shard, where there is no
    /// seat or no log, or where messages that were taken are not processed.
    pub fn end(self, inbox: Inbox<K, B>, shard: usize) -> Option<(ShardEnd<K, B>, PutSeat<B>)>
        ensures shard { ForSome result (λ r. r.0.shard ≡ shard) }
        ensures all { ForSome result (λ r. (r.0.state ≡ self.state) × (Some r.1 ≡ self.seat) × (Some (log_of r.0.log.token.me.0) ≡ log_in inbox.log)) }
        ensures some { self.shard ≡ shard → inbox.shard ≡ shard → inbox.state.post.taken ≡ self.count → IsSome inbox.log → IsSome self.seat → IsSome result }
        ensures account { ForSome result (λ r. ∥ IsAccount (cap_of B.shards) (log_of r.0.log.token.me.0).taken r.0.state r.1.share.slips ∥₁) }
    {
        let LoggedShard {
            shard: of,
            state,
            weights: _,
            count,
            seen,
            seat,
        } = self;
        let Inbox {
            shard: from,
            state: mail,
            log,
        } = inbox;
        let Some(mut log) = log else {
            return None;
        };
        let Some(seat) = seat else {
            return None;
        };
        if of != shard || from != shard || mail.taken() != count {
            return None;
        }
        let mut seen = seen;
        let mut whole = log.seen();
        log.compare(&mut whole, &mut seen);
        Some((ShardEnd { shard, state, log }, seat))
    }
}
