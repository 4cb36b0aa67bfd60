//! A shard whose log is kept.
ghost use Rattle.std.specs.Prelude.{◌≡◌, ◌≤◌, ◌<◌, [], ◌∷◌, length, take, nat_eq, IfOk, IsSome};
ghost use Rattle.std.specs.Option.{ForSome};
ghost use Rattle.std.specs.HashMap as hash_map;
ghost use Rattle.lru_shard.specs.Limits.{cap_of};
ghost use Rattle.lru_inbox.specs.Logs.{front, of_fronts};
ghost use Rattle.lru_inbox.specs.Inboxes.{shown, taken_in};
ghost use Rattle.lru_workers.specs.Accounts.{IsKept};
ghost use Rattle.lru_workers.specs.Seats.{slips_at};
ghost use Rattle.lru_workers.specs.Looking.{LearnsWeight, MayWeigh};

use lru_actors::message::LruMsg;
use lru_actors::state::ShardState;
use lru_boxes::seats::PutSeat;
use lru_boxes::tie::BoxRegistry;
use lru_inbox::tie::{Archive, LogToken};
use lru_inbox::{Caller, Taker};
use std::alloc::{AllocError, Global};
use std::collections::HashMap;

/// A shard whose log is kept: it is what a beginning of the log leaves.
#[derive(Drop)]
pub struct LoggedShard<K: Clone + Drop, B: BoxRegistry + Archive> {
    /// The number of the shard.
    pub shard: usize,
    /// Its rows, and how many messages it refused.
    pub state: ShardState<K>,
    /// The weight of each row, by hash.
    pub weights: HashMap<u64, usize>,
    /// How many messages were processed, modulo 2^64.
    pub count: u64,
    /// Speaks for those messages.
    pub seen: LogToken<LruMsg<K>>,
    /// The seat that has the slips of the rows that were evicted, where they go into a box.
    pub seat: Option<PutSeat<B>>,
    pub ghost here: { seen.table_id ≡ B.log },
    pub ghost told: { seen.me ≡ (of_fronts (front shard (shown seen.me.0) ∷ []), []) },
    pub ghost counted: { count ≡ length (shown seen.me.0) },
    pub ghost kept: { ∥ IsKept (cap_of B.shards) (shown seen.me.0) state (hash_map.get nat_eq weights) (slips_at seat) ∥₁ },
}

impl<K: Clone + Drop, B: BoxRegistry + Archive> LoggedShard<K, B> {
    /// An empty one among so many, with room for so many rows: no message was processed. The token speaks for an empty beginning
    /// of its log, and the seat has no slip.
    pub fn new(
        alloc: Global,
        shard: usize,
        shards: usize,
        capacity: usize,
        seen: LogToken<LruMsg<K>>,
        seat: Option<PutSeat<B>>,
    ) -> Result<Self, AllocError>
        requires some { 0 < shards }
        requires all { B.shards ≡ shards }
        requires here { seen.table_id ≡ B.log }
        requires fresh { ForSome (slips_at seat) (λ slips. slips ≡ []) }
        requires nothing { seen.me ≡ (of_fronts (front shard [] ∷ []), []) }
        ensures made { IfOk result (λ s. (s.shard ≡ shard) × (s.seen ≡ seen) × (s.seat ≡ seat)) }
        ensures room { IfOk result (λ s. capacity ≤ hash_map.spare s.weights) }
    {
        Ok(LoggedShard {
            shard,
            state: ShardState::with_capacity(alloc, capacity, usize::MAX / shards)?,
            weights: HashMap::with_capacity(alloc, capacity)?,
            count: 0,
            seen,
            seat,
        })
    }

    /// The weight of the row with this hash, if there is one.
    pub fn weight_of(&self, hash: u64) -> Option<usize>
        ensures { result ≡ hash_map.get nat_eq self.now.weights hash }
    {
        self.weights.get(&hash).copied()
    }

    // As `weight_of`, by what the type says of the rows: some messages leave them.
    pub(crate) fn weight_left(&self, hash: u64) -> Option<usize>
        ensures { MayWeigh K (cap_of B.shards) hash result }
    {
        Self::weight_of(self, hash)
    }

    /// As `weight_of`, for one who then knows that it is told of the rows which a beginning of the shard's log leaves, and how many
    /// messages of that were refused.
    pub fn look(&mut self, caller: &mut Caller<K, B>, hash: u64) -> Option<usize>
        ensures told { LearnsWeight (cap_of B.shards) self.old.shard hash caller.old.voice.token.me.0.fronts result caller.new.refused caller.new.voice.token.me.0.fronts }
        ensures same { (self.new.shard ≡ self.old.shard) × (self.new.count ≡ self.old.count) × (self.new.state ≡ self.old.state) × (self.new.weights ≡ self.old.weights) × (self.new.seat ≡ self.old.seat) × (shown self.new.seen.me.0 ≡ shown self.old.seen.me.0) }
    {
        // Read for the proof alone, which learns from it that there are fewer than 2^64 messages.
        let _count = self.count;
        caller.voice.note(&mut self.seen);
        caller.refused = self.state.refused();
        self.weight_of(hash)
    }

    /// Compares what was processed with the first so many messages of what one took, who takes from this shard: they are the same.
    pub fn meet(&mut self, taker: &mut Taker<K, B>, before: u64)
        requires shard { taker.old.shard ≡ self.old.shard }
        requires count { self.old.count ≡ before }
        requires taken { ForSome (taken_in taker.old.voice) (λ taken. before ≤ length taken) }
        ensures met { ForSome (taken_in taker.old.voice) (λ taken. shown self.old.seen.me.0 ≡ take before taken) }
        ensures taker { (taker.new.shard ≡ taker.old.shard) × (taker.new.count ≡ taker.old.count) × (taken_in taker.new.voice ≡ taken_in taker.old.voice) }
        ensures same { (self.new.shard ≡ self.old.shard) × (self.new.count ≡ self.old.count) × (self.new.state ≡ self.old.state) × (self.new.weights ≡ self.old.weights) × (self.new.seat ≡ self.old.seat) × (shown self.new.seen.me.0 ≡ shown self.old.seen.me.0) }
    {
        if let Some(voice) = &mut taker.voice {
            let mut theirs = voice.show(before);
            voice.compare(&mut theirs, &mut self.seen);
        }
    }
}
