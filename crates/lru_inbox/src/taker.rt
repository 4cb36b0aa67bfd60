//! Who takes messages.
ghost use Rattle.std.specs.Prelude.{◌≡◌, ◌≤◌, [], length, take, is_some};
ghost use Rattle.std.specs.Option.{ForSome};
ghost use Rattle.lru_shard.specs.Limits.{cap_of};
ghost use Rattle.lru_inbox.specs.Logs.{of_taker, taken_by};
ghost use Rattle.lru_inbox.specs.Replies.{IsReply};
ghost use Rattle.lru_inbox.specs.Inboxes.{taken_in};

use crate::tie::Archive;
use crate::told::Told;
use crate::voice::Voice;
use lru_actors::effect::Reply;
use lru_actors::message::LruMsg;

/// What one who takes messages took: of one shard, all that was taken. What it took is known where there is a log.
#[derive(Drop)]
pub struct Taker<K: Drop, B: Archive> {
    /// The number of the shard.
    pub shard: usize,
    /// How many messages were taken, modulo 2^64.
    pub count: u64,
    /// Speaks for what was taken, where there is a log.
    pub voice: Option<Voice<LruMsg<K>, B>>,
    pub ghost told: { ForSome voice (λ v. v.token.me ≡ (of_taker shard (taken_by v.token.me.0), [])) },
    pub ghost counted: { ForSome voice (λ v. count ≡ length (taken_by v.token.me.0)) },
}

impl<K: Drop, B: Archive> Taker<K, B> {
    /// One who takes from a shard, and took nothing.
    pub fn new(shard: usize, voice: Option<Voice<LruMsg<K>, B>>) -> Self
        requires { ForSome voice (λ v. v.token.me ≡ (of_taker shard [], [])) }
        ensures shard { result.shard ≡ shard }
        ensures count { result.count ≡ 0 }
        ensures voice { result.voice ≡ voice }
    {
        Taker {
            shard,
            count: 0,
            voice,
        }
    }
}

impl<K: Clone + Drop, B: Archive> Taker<K, B> {
    /// Whether what it took is known.
    pub fn is_logged(&self) -> bool
        ensures { result ≡ is_some self.now.voice }
    {
        self.voice.is_some()
    }

    /// How many messages were taken, modulo 2^64.
    pub fn taken(&self) -> u64
        ensures { result ≡ self.now.count }
    {
        self.count
    }

    /// A reply that tells of the rows which the first so many messages leave, so many of which were refused.
    pub fn tell(&mut self, count: u64, refused: u64, reply: Reply<K>) -> Told<K, B>
        requires count { ForSome (taken_in self.old.voice) (λ taken. count ≤ length taken) }
        requires tells { ForSome (taken_in self.old.voice) (λ taken. ∥ IsReply K.is_clone (cap_of B.shards) (take count taken) refused reply ∥₁) }
        ensures reply { result.reply ≡ reply }
        ensures shard { result.shard ≡ self.old.shard }
        ensures count { result.count ≡ count }
        ensures refused { result.refused ≡ refused }
        ensures seen { is_some result.seen ≡ is_some self.old.voice }
        ensures same { (self.new.shard ≡ self.old.shard) × (self.new.count ≡ self.old.count) × (taken_in self.new.voice ≡ taken_in self.old.voice) }
    {
        let shard = self.shard;
        let Some(voice) = &mut self.voice else {
            return Told::new(reply, shard, count, refused, None);
        };
        Told::new(reply, shard, count, refused, Some(voice.show(count)))
    }
}
