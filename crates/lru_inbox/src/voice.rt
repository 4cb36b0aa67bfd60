//! A token with the tie that it belongs to.
ghost use Rattle.std.specs.Prelude.{◌≡◌, ◌+◌, [], ◌∷◌, ◌++◌, take, drop, map, IfOk, OnOk, OnErr};
ghost use Rattle.std.specs.Arc.{arc_value};
ghost use Rattle.lru_inbox.specs.Logs.{front, front_of, hand, accepted, of_log, of_taker, of_fronts, log_of, taken_by, blank_logs, blank_fronts, begun, put_in, taken_from, joined, Shows};

use crate::tie::{Archive, LogTie, LogToken};
use std::alloc::{AllocError, Global};
use std::marker::PhantomData;
use std::mem;
use std::sync::Arc;

/// Speaks for a log, for one who takes, or for what was seen, of the logs that `B` names.
#[derive(Drop)]
pub struct Voice<E, B: Archive> {
    tie: Arc<LogTie<E>, Global>,
    /// What it speaks for.
    pub token: LogToken<E>,
    brand: PhantomData<B>,
    pub ghost tied: { (arc_value tie).table.shared.table_id ≡ B.log },
    pub ghost here: { token.table_id ≡ B.log },
}

impl<E, B: Archive> Voice<E, B> {
    /// One that speaks as the token does.
    pub fn new(tie: Arc<LogTie<E>, Global>, token: LogToken<E>) -> Self
        requires { ((arc_value tie).table.shared.table_id ≡ B.log) × (token.table_id ≡ B.log) }
        ensures { result.token ≡ token }
    {
        Voice {
            tie,
            token,
            brand: PhantomData,
        }
    }

    /// One for the first log.
    pub fn next_log(&mut self) -> Result<Self, AllocError>
        requires { self.old.token.me.1 ≡ [] }
        ensures one { IfOk result (λ v. v.token.me ≡ (hand (take 1 self.old.token.me.0.logs) [] [], [])) }
        ensures rest { OnOk result (self.new.token.me ≡ (hand (drop 1 self.old.token.me.0.logs) self.old.token.me.0.takers self.old.token.me.0.fronts, [])) }
    {
        let tie = Arc::try_clone(&self.tie)?;
        let token = self.tie.next_log(&mut self.token);
        Ok(Voice::new(tie, token))
    }

    /// One for the first of those who take.
    pub fn next_taker(&mut self) -> Result<Self, AllocError>
        requires { self.old.token.me.1 ≡ [] }
        ensures one { IfOk result (λ v. v.token.me ≡ (hand [] (take 1 self.old.token.me.0.takers) [], [])) }
        ensures rest { OnOk result (self.new.token.me ≡ (hand self.old.token.me.0.logs (drop 1 self.old.token.me.0.takers) self.old.token.me.0.fronts, [])) }
    {
        let tie = Arc::try_clone(&self.tie)?;
        let token = self.tie.next_taker(&mut self.token);
        Ok(Voice::new(tie, token))
    }

    /// One that has seen nothing.
    pub fn fresh(&mut self) -> Result<Self, AllocError>
        requires { self.old.token.me.1 ≡ [] }
        ensures none { IfOk result (λ v. v.token.me ≡ (of_fronts [], [])) }
        ensures same { self.new.token.me ≡ self.old.token.me }
    {
        let tie = Arc::try_clone(&self.tie)?;
        let token = self.tie.fresh(&mut self.token);
        Ok(Voice::new(tie, token))
    }

    /// Notes at a log that a message was put.
    pub fn put(&mut self, said: &E)
        requires { self.old.token.me ≡ (of_log (log_of self.old.token.me.0), []) }
        ensures { self.new.token.me ≡ (of_log (put_in (log_of self.old.token.me.0) (said.now ∷ [])), []) }
    {
        self.tie.put(&mut self.token, said);
    }

    /// Notes at a log that a message was put, and at the one who put it: that one has seen the log up to and with it.
    pub fn send(&mut self, caller: &mut Voice<E, B>, said: &E)
        requires log { self.old.token.me ≡ (of_log (log_of self.old.token.me.0), []) }
        requires caller { caller.old.token.me ≡ (of_fronts caller.old.token.me.0.fronts, []) }
        ensures log { self.new.token.me ≡ (of_log (put_in (log_of self.old.token.me.0) (said.now ∷ [])), []) }
        ensures caller { caller.new.token.me ≡ (of_fronts (front (log_of self.old.token.me.0).shard (accepted (log_of self.old.token.me.0) ++ said.now ∷ []) ∷ caller.old.token.me.0.fronts), []) }
        ensures shows { Shows (hand (log_of self.old.token.me.0 ∷ []) [] caller.old.token.me.0.fronts) }
    {
        self.tie.send(&mut self.token, &mut caller.token, said);
    }

    /// Notes at a log, and at the one who takes, that so many more were taken. Before it that one had all that was taken.
    pub fn take(&mut self, taker: &mut Voice<E, B>, shard: usize, count: usize)
        requires log { self.old.token.me ≡ (of_log (log_of self.old.token.me.0), []) }
        requires taker { taker.old.token.me ≡ (of_taker shard (taken_by taker.old.token.me.0), []) }
        requires shard { (log_of self.old.token.me.0).shard ≡ shard }
        ensures known { (log_of self.old.token.me.0).taken ≡ taken_by taker.old.token.me.0 }
        ensures log { self.new.token.me ≡ (of_log (taken_from (log_of self.old.token.me.0) count), []) }
        ensures taker { taker.new.token.me ≡ (of_taker shard (taken_by taker.old.token.me.0 ++ take count (log_of self.old.token.me.0).left), []) }
    {
        self.tie
            .take(&mut self.token, &mut taker.token, shard, count);
    }

    /// A token that has seen the first so many messages that one who takes had.
    pub fn show(&mut self, count: u64) -> LogToken<E>
        requires { self.old.token.me.1 ≡ [] }
        ensures here { result.table_id ≡ B.log }
        ensures same { self.new.token.me ≡ self.old.token.me }
        ensures shown { result.me ≡ (of_fronts (map (begun count) self.old.token.me.0.takers), []) }
    {
        self.tie.show(&mut self.token, count)
    }

    /// A token that has seen what this has, the logs that it speaks for among it.
    pub fn seen(&mut self) -> LogToken<E>
        requires { self.old.token.me.1 ≡ [] }
        ensures here { result.table_id ≡ B.log }
        ensures same { self.new.token.me ≡ self.old.token.me }
        ensures seen { result.me ≡ (of_fronts (map front_of self.old.token.me.0.logs ++ self.old.token.me.0.fronts), []) }
    {
        self.tie.seen(&mut self.token)
    }

    /// What two tokens show together of what was seen: of one shard, all begins one log. They stay as they are.
    pub fn compare(&self, one: &mut LogToken<E>, other: &mut LogToken<E>)
        requires ids { (one.old.table_id ≡ B.log) × (other.old.table_id ≡ B.log) }
        requires one { one.old.me ≡ (of_fronts one.old.me.0.fronts, []) }
        requires other { other.old.me ≡ (of_fronts other.old.me.0.fronts, []) }
        ensures ids { (one.new.table_id ≡ B.log) × (other.new.table_id ≡ B.log) }
        ensures same { (one.new.me ≡ one.old.me) × (other.new.me ≡ other.old.me) }
        ensures shows { Shows (of_fronts (one.old.me.0.fronts ++ other.old.me.0.fronts)) }
    {
        self.tie.compare(one, other);
    }

    /// Sees also what another has seen: that comes after what it had seen itself. All of one shard that was seen begins one log.
    pub fn note(&mut self, other: &mut LogToken<E>)
        requires here { other.old.table_id ≡ B.log }
        requires free { self.old.token.me.1 ≡ [] }
        requires other { other.old.me ≡ (of_fronts other.old.me.0.fronts, []) }
        ensures id { other.new.table_id ≡ B.log }
        ensures same { other.new.me ≡ other.old.me }
        ensures both { self.new.token.me ≡ (joined self.old.token.me.0 (of_fronts other.old.me.0.fronts), []) }
        ensures shows { Shows (joined self.old.token.me.0 (of_fronts other.old.me.0.fronts)) }
    {
        let copy = self.tie.seen(other);
        self.tie.join(&mut self.token, copy);
        self.tie.look(&mut self.token);
    }

    /// Sees what another has seen: that comes before what it had seen itself. All of one shard that was seen begins one log.
    pub fn learn(&mut self, other: LogToken<E>)
        requires here { other.table_id ≡ B.log }
        requires free { (self.old.token.me.1 ≡ []) × (other.me.1 ≡ []) }
        ensures both { self.new.token.me ≡ (joined other.me.0 self.old.token.me.0, []) }
        ensures shows { Shows (joined other.me.0 self.old.token.me.0) }
    {
        let before = mem::replace(&mut self.token, other);
        self.tie.join(&mut self.token, before);
        self.tie.look(&mut self.token);
    }
}
