//! Who sends messages.
ghost use Rattle.std.specs.Prelude.{◌≡◌, ◌≤◌, [], length, IsSome};
ghost use Rattle.lru_shard.specs.Limits.{cap_of};
ghost use Rattle.lru_inbox.specs.Logs.{of_fronts, seen_of};
ghost use Rattle.lru_inbox.specs.Inboxes.{Learns};

use crate::tie::Archive;
use crate::told::Told;
use crate::voice::Voice;
use lru_actors::effect::Reply;
use lru_actors::message::LruMsg;

/// What one who sends messages has seen of the logs: of each shard a beginning.
#[derive(Drop)]
pub struct Caller<K: Drop, B: Archive> {
    /// Speaks for what was seen.
    pub voice: Voice<LruMsg<K>, B>,
    /// Of the messages of which the last answer told, how many were refused. Where none was, it told of the rows that all of them
    /// leave.
    pub refused: u64,
    pub ghost told: { voice.token.me ≡ (of_fronts voice.token.me.0.fronts, []) },
}

impl<K: Drop, B: Archive> Caller<K, B> {
    /// One who has seen what this voice has.
    pub fn new(voice: Voice<LruMsg<K>, B>) -> Self
        requires { voice.token.me ≡ (of_fronts voice.token.me.0.fronts, []) }
        ensures voice { result.voice ≡ voice }
        ensures refused { result.refused ≡ 0 }
    {
        Caller { voice, refused: 0 }
    }
}

impl<K: Clone + Drop, B: Archive> Caller<K, B> {
    /// What a reply tells, where it tells of this shard, and of so many messages at least: then the beginning of the log of which
    /// it tells begins with all that was seen of it, if that was no longer. Else the reply is dropped, and nothing was learned.
    pub fn learn(&mut self, shard: usize, least: u64, told: Told<K, B>) -> Option<Reply<K>>
        requires { length (seen_of shard self.old.voice.token.me.0.fronts) ≤ least }
        ensures learned { Learns K.is_clone (cap_of B.shards) shard self.old.voice.token.me.0.fronts result self.new.refused self.new.voice.token.me.0.fronts }
        ensures answers { IsSome told.seen → told.shard ≡ shard → least ≤ told.count → IsSome result }
        ensures only { IsSome result → IsSome told.seen × (told.shard ≡ shard) × (least ≤ told.count) }
    {
        let Told {
            reply,
            shard: of,
            count,
            refused,
            seen,
            ..
        } = told;
        match seen {
            Some(seen) if of == shard && count >= least => {
                self.voice.learn(seen);
                self.refused = refused;
                Some(reply)
            }
            _ => None,
        }
    }
}
