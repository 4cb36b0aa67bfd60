//! One shard with its history: each call on it is made and noted.
ghost use Rattle.std.specs.Prelude.{◌≡◌, ◌%◌, ◌<◌, [], ◌∷◌, max, map, option_map, Some, None, IfOk, IfErr, IfSome, OnErr};
ghost use Rattle.lru_shard.specs.Row.{row, with_first, is_held, last_row, pair_of};
ghost use Rattle.lru_shard.specs.Shard.{shard, size_of, refusal};
ghost use Rattle.lru_shard.specs.Unit.{Updates};
ghost use Rattle.lru_shard.specs.Limits.{cap_of};
ghost use Rattle.lru_shard.specs.ShardCalls.{promoted_past};
ghost use Rattle.lru_recording.specs.Stamps.{GetsReceipt};
ghost use Rattle.lru_recording.specs.Ties.{hand};
ghost use Rattle.lru_recording.specs.Plain.{forget};
ghost use Rattle.lru_recording.specs.Histories.{left_by, answers, replies, home, IsEviction};
ghost use Rattle.lru_recording.specs.Replies.{refused, weighed, paired, increments, IsGiven, IsMade};

use crate::entry::{Call, Reply};
use crate::journal::{Journal, Seat};
use crate::replies::{admitted, incremented, inserted, new_weight, paired, refused, set, weighed};
use crate::tie::{Registry, Tie, Token};
use lru_shard::unit::{Cause, LruUnit, Refused};
use std::alloc::{AllocError, Global};

/// A shard, and its calls so far.
#[derive(Drop)]
pub struct Recording<T, B: Registry, const N: usize> {
    /// The shard.
    pub unit: LruUnit<T>,
    /// Its number, and its calls so far.
    pub journal: Journal<B>,
    pub ghost below: { journal.number < N },
    pub ghost capped: { unit.cap ≡ cap_of N },
    pub ghost ends: { forget unit.rows ≡ left_by (cap_of N) [] journal.history.items },
    pub ghost right: { replies journal.history.items ≡ answers (cap_of N) [] journal.history.items },
    pub ghost homes: { map (λ e. home N journal.number e.call) journal.history.items ≡ map (λ _. journal.number) journal.history.items },
}

fn increments(key: u64, delta: usize, max_weight: Option<usize>) -> Call
    ensures { result ≡ increments key delta max_weight }
{
    match max_weight {
        None => Call::IncrementWeight { key, delta },
        Some(max_weight) => Call::IncrementWeightUpTo {
            key,
            delta,
            max_weight,
        },
    }
}

// Puts a key's row first unless it is among the first `top`, and answers whether there is one.
fn promote_past<T>(unit: &mut LruUnit<T>, key: u64, top: usize) -> bool
    ensures answer { result ≡ is_held unit.old.rows key }
    ensures rows { unit.new ≡ shard (promoted_past unit.old.rows key top) unit.old.cap }
{
    if unit.need_promote(key, top) {
        unit.access(key)
    } else {
        true
    }
}

fn holds<T>(unit: &LruUnit<T>, key: u64) -> bool
    ensures { result ≡ is_held unit.now.rows key }
{
    unit.contains(key)
}

// The data, cloned, and the weight of the last row.
fn cloned_last<T: Clone>(unit: &LruUnit<T>) -> Result<Option<(T, usize)>, AllocError>
    requires { (d e : T) → T.is_clone d e → e ≡ d }
    ensures { IfOk result (λ found. found ≡ option_map pair_of (last_row unit.now.rows)) }
{
    let Some((data, weight)) = unit.peek_lru() else {
        return Ok(None);
    };
    Ok(Some((data.clone()?, weight)))
}

impl<T: Drop, B: Registry, const N: usize> Recording<T, B, N> {
    /// An empty shard with this number, with room for `capacity` rows, and an empty history.
    pub fn new(
        alloc: Global,
        capacity: usize,
        number: usize,
        token: Token,
    ) -> Result<Self, AllocError>
        requires number { number < N }
        requires token { (token.table_id ≡ B.table) × (token.me ≡ (hand (number ∷ []) [] [] [], [])) }
        ensures rows { IfOk result (λ made. made.unit ≡ shard [] (cap_of N)) }
        ensures number { IfOk result (λ made. made.journal.number ≡ number) }
        ensures history { IfOk result (λ made. made.journal.history.items ≡ []) }
    {
        Ok(Recording {
            unit: LruUnit::with_capacity(alloc, capacity, usize::MAX / N)?,
            journal: Journal::new(alloc, number, token),
        })
    }

    /// Puts a row first, in place of its key's, and answers the weight that this one had, 0 for a new row. A weight of 0
    /// counts as 1. A refusal hands the data back and changes nothing; one for want of memory is not noted.
    pub fn admit(
        &mut self,
        tie: &Tie,
        seat: &mut Seat<B>,
        key: u64,
        data: T,
        weight: usize,
    ) -> Result<usize, Refused<T>>
        requires tie { tie.now.table.shared.table_id ≡ B.table }
        requires home { key % N ≡ self.old.journal.number }
        ensures ok { IfOk result (λ was. GetsReceipt seat.old.receipts.items self.old.journal.number (Call.Admit key weight) (Some (Reply.Weight was)) seat.new.receipts.items) }
        ensures err { IfErr result (λ r. GetsReceipt seat.old.receipts.items self.old.journal.number (Call.Admit key weight) (refused r.cause) seat.new.receipts.items) }
        ensures held { IfErr result (λ r. r.held ≡ «data») }
        ensures same { (self.new.journal.number ≡ self.old.journal.number) × (seat.new.number ≡ seat.old.number) }
    {
        let Recording { unit, journal } = self;
        if journal.reserve(seat).is_err() {
            return Err(Refused {
                cause: Cause::Memory,
                held: data,
            });
        }
        let answer = unit.admit(key, data, weight.max(1));
        journal.note_reply(tie, seat, Call::Admit { key, weight }, admitted(&answer));
        answer
    }

    /// Puts a row last where its key has none, and answers whether it did. A weight of 0 is kept. A refusal hands the data
    /// back and changes nothing; one for want of memory is not noted.
    pub fn insert_tail(
        &mut self,
        tie: &Tie,
        seat: &mut Seat<B>,
        key: u64,
        data: T,
        weight: usize,
    ) -> Result<bool, Refused<T>>
        requires tie { tie.now.table.shared.table_id ≡ B.table }
        requires home { key % N ≡ self.old.journal.number }
        ensures ok { IfOk result (λ added. GetsReceipt seat.old.receipts.items self.old.journal.number (Call.InsertTail key weight) (Some (Reply.Flag added)) seat.new.receipts.items) }
        ensures err { IfErr result (λ r. GetsReceipt seat.old.receipts.items self.old.journal.number (Call.InsertTail key weight) (refused r.cause) seat.new.receipts.items) }
        ensures held { IfErr result (λ r. r.held ≡ «data») }
        ensures same { (self.new.journal.number ≡ self.old.journal.number) × (seat.new.number ≡ seat.old.number) }
    {
        let Recording { unit, journal } = self;
        if journal.reserve(seat).is_err() {
            return Err(Refused {
                cause: Cause::Memory,
                held: data,
            });
        }
        let answer = unit.insert_tail(key, data, weight);
        journal.note_reply(
            tie,
            seat,
            Call::InsertTail { key, weight },
            inserted(&answer),
        );
        answer
    }

    /// Adds to a key's weight, puts its row first, and answers the new weight. A refusal comes before `admit_data` is called,
    /// and changes nothing; one for want of memory is not noted.
    pub fn increment_weight<F: FnOnce() -> T + Drop>(
        &mut self,
        tie: &Tie,
        seat: &mut Seat<B>,
        key: u64,
        admit_data: F,
        delta: usize,
        max_weight: Option<usize>,
    ) -> Result<usize, Cause>
        requires tie { tie.now.table.shared.table_id ≡ B.table }
        requires home { key % N ≡ self.old.journal.number }
        requires callable { F.IsAlwaysCallable admit_data }
        ensures ok { IfOk result (λ weight. GetsReceipt seat.old.receipts.items self.old.journal.number (increments key delta max_weight) (Some (Reply.Weight weight)) seat.new.receipts.items) }
        ensures err { IfErr result (λ cause. GetsReceipt seat.old.receipts.items self.old.journal.number (increments key delta max_weight) (refused cause) seat.new.receipts.items) }
        ensures same { (self.new.journal.number ≡ self.old.journal.number) × (seat.new.number ≡ seat.old.number) }
    {
        let Recording { unit, journal } = self;
        if journal.reserve(seat).is_err() {
            return Err(Cause::Memory);
        }
        let answer = new_weight(unit.increment_weight(key, admit_data, delta, max_weight));
        let call = increments(key, delta, max_weight);
        journal.note_reply(tie, seat, call, incremented(answer));
        answer
    }

    /// Gives a key another weight, in its place, and answers the weight that it had. A weight of 0 counts as 1. A refusal
    /// changes nothing; one for want of memory is not noted.
    pub fn set_weight(
        &mut self,
        tie: &Tie,
        seat: &mut Seat<B>,
        key: u64,
        weight: usize,
    ) -> Result<Option<usize>, Cause>
        requires tie { tie.now.table.shared.table_id ≡ B.table }
        requires home { key % N ≡ self.old.journal.number }
        ensures ok { IfOk result (λ was. GetsReceipt seat.old.receipts.items self.old.journal.number (Call.SetWeight key weight) (Some (weighed was)) seat.new.receipts.items) }
        ensures err { IfErr result (λ cause. GetsReceipt seat.old.receipts.items self.old.journal.number (Call.SetWeight key weight) (refused cause) seat.new.receipts.items) }
        ensures same { (self.new.journal.number ≡ self.old.journal.number) × (seat.new.number ≡ seat.old.number) }
    {
        let Recording { unit, journal } = self;
        if journal.reserve(seat).is_err() {
            return Err(Cause::Memory);
        }
        let answer = unit.set_weight(key, weight.max(1));
        journal.note_reply(tie, seat, Call::SetWeight { key, weight }, set(answer));
        answer
    }

    /// Puts a key's row first, and answers whether there is one. Where there is no room for a note, nothing happens.
    pub fn promote(&mut self, tie: &Tie, seat: &mut Seat<B>, key: u64) -> Result<bool, AllocError>
        requires tie { tie.now.table.shared.table_id ≡ B.table }
        requires home { key % N ≡ self.old.journal.number }
        ensures ok { IfOk result (λ held. GetsReceipt seat.old.receipts.items self.old.journal.number (Call.Promote key) (Some (Reply.Flag held)) seat.new.receipts.items) }
        ensures err { OnErr result (seat.new.receipts.items ≡ seat.old.receipts.items) }
        ensures same { (self.new.journal.number ≡ self.old.journal.number) × (seat.new.number ≡ seat.old.number) }
    {
        let Recording { unit, journal } = self;
        journal.reserve(seat)?;
        let answer = unit.access(key);
        journal.note(tie, seat, Call::Promote { key }, Reply::Flag(answer));
        Ok(answer)
    }

    /// Puts a key's row first unless it is among the first `top`, and answers whether there is one. Where there is no room for
    /// a note, nothing happens.
    pub fn promote_top_n(
        &mut self,
        tie: &Tie,
        seat: &mut Seat<B>,
        key: u64,
        top: usize,
    ) -> Result<bool, AllocError>
        requires tie { tie.now.table.shared.table_id ≡ B.table }
        requires home { key % N ≡ self.old.journal.number }
        ensures ok { IfOk result (λ held. GetsReceipt seat.old.receipts.items self.old.journal.number (Call.PromoteTopN key top) (Some (Reply.Flag held)) seat.new.receipts.items) }
        ensures err { OnErr result (seat.new.receipts.items ≡ seat.old.receipts.items) }
        ensures same { (self.new.journal.number ≡ self.old.journal.number) × (seat.new.number ≡ seat.old.number) }
    {
        let Recording { unit, journal } = self;
        journal.reserve(seat)?;
        let answer = promote_past(unit, key, top);
        journal.note(
            tie,
            seat,
            Call::PromoteTopN { key, top },
            Reply::Flag(answer),
        );
        Ok(answer)
    }

    /// Takes the last row out, if there is one, and answers its data and weight. It is noted as this call. Where there is no
    /// room for a note, nothing happens.
    pub fn evict(
        &mut self,
        tie: &Tie,
        seat: &mut Seat<B>,
        call: Call,
    ) -> Result<Option<(T, usize)>, AllocError>
        requires tie { tie.now.table.shared.table_id ≡ B.table }
        requires call { IsEviction N self.old.journal.number call }
        ensures ok { IfOk result (λ pair. GetsReceipt seat.old.receipts.items self.old.journal.number (call) (Some (paired pair)) seat.new.receipts.items) }
        ensures err { OnErr result (seat.new.receipts.items ≡ seat.old.receipts.items) }
        ensures same { (self.new.journal.number ≡ self.old.journal.number) × (seat.new.number ≡ seat.old.number) }
    {
        let Recording { unit, journal } = self;
        journal.reserve(seat)?;
        let answer = unit.evict();
        journal.note(tie, seat, call, paired(&answer));
        Ok(answer)
    }

    /// Takes a key's row out, and answers its data and weight. Where there is no room for a note, nothing happens.
    pub fn remove(
        &mut self,
        tie: &Tie,
        seat: &mut Seat<B>,
        key: u64,
    ) -> Result<Option<(T, usize)>, AllocError>
        requires tie { tie.now.table.shared.table_id ≡ B.table }
        requires home { key % N ≡ self.old.journal.number }
        ensures ok { IfOk result (λ pair. GetsReceipt seat.old.receipts.items self.old.journal.number (Call.Remove key) (Some (paired pair)) seat.new.receipts.items) }
        ensures err { OnErr result (seat.new.receipts.items ≡ seat.old.receipts.items) }
        ensures same { (self.new.journal.number ≡ self.old.journal.number) × (seat.new.number ≡ seat.old.number) }
    {
        let Recording { unit, journal } = self;
        journal.reserve(seat)?;
        let answer = unit.remove(key);
        journal.note(tie, seat, Call::Remove { key }, paired(&answer));
        Ok(answer)
    }

    /// Whether a key has a row. Where there is no room for a note, nothing is noted.
    pub fn peek(&mut self, tie: &Tie, seat: &mut Seat<B>, key: u64) -> Result<bool, AllocError>
        requires tie { tie.now.table.shared.table_id ≡ B.table }
        requires home { key % N ≡ self.old.journal.number }
        ensures ok { IfOk result (λ held. GetsReceipt seat.old.receipts.items self.old.journal.number (Call.Peek key) (Some (Reply.Flag held)) seat.new.receipts.items) }
        ensures err { OnErr result (seat.new.receipts.items ≡ seat.old.receipts.items) }
        ensures same { (self.new.journal.number ≡ self.old.journal.number) × (seat.new.number ≡ seat.old.number) }
    {
        let Recording { unit, journal } = self;
        journal.reserve(seat)?;
        let answer = holds(unit, key);
        journal.note(tie, seat, Call::Peek { key }, Reply::Flag(answer));
        Ok(answer)
    }

    /// The weight of a key. Where there is no room for a note, nothing is noted.
    pub fn peek_weight(
        &mut self,
        tie: &Tie,
        seat: &mut Seat<B>,
        key: u64,
    ) -> Result<Option<usize>, AllocError>
        requires tie { tie.now.table.shared.table_id ≡ B.table }
        requires home { key % N ≡ self.old.journal.number }
        ensures ok { IfOk result (λ weight. GetsReceipt seat.old.receipts.items self.old.journal.number (Call.PeekWeight key) (Some (weighed weight)) seat.new.receipts.items) }
        ensures err { OnErr result (seat.new.receipts.items ≡ seat.old.receipts.items) }
        ensures same { (self.new.journal.number ≡ self.old.journal.number) × (seat.new.number ≡ seat.old.number) }
    {
        let Recording { unit, journal } = self;
        journal.reserve(seat)?;
        let answer = unit.peek_weight(key);
        journal.note(tie, seat, Call::PeekWeight { key }, weighed(answer));
        Ok(answer)
    }

    /// The data, cloned, and the weight of the last row. A clone has to equal its source. Where there is no memory for the
    /// clone or the note, nothing is noted.
    pub fn peek_lru(
        &mut self,
        tie: &Tie,
        seat: &mut Seat<B>,
    ) -> Result<Option<(T, usize)>, AllocError>
    where
        T: Clone,
        requires tie { tie.now.table.shared.table_id ≡ B.table }
        requires clones { (d e : T) → T.is_clone d e → e ≡ d }
        ensures ok { IfOk result (λ pair. GetsReceipt seat.old.receipts.items self.old.journal.number (Call.PeekLru) (Some (paired pair)) seat.new.receipts.items) }
        ensures err { OnErr result (seat.new.receipts.items ≡ seat.old.receipts.items) }
        ensures same { (self.new.journal.number ≡ self.old.journal.number) × (seat.new.number ≡ seat.old.number) }
    {
        let Recording { unit, journal } = self;
        journal.reserve(seat)?;
        let answer = cloned_last(unit)?;
        journal.note(tie, seat, Call::PeekLru, paired(&answer));
        Ok(answer)
    }

    /// Updates a key's data and weight, or admits what `admit_data` gives, puts the row first, and answers the weight that the
    /// key had. The weight that the called closure gives, at least 1, is noted. A refused update keeps what `update` did to
    /// the data; a refused admission hands back what was made. Want of memory is not noted, and changes nothing.
    pub fn update_or_admit<U, A>(
        &mut self,
        tie: &Tie,
        seat: &mut Seat<B>,
        key: u64,
        update: U,
        admit_data: A,
    ) -> Result<Option<usize>, Refused<Option<(T, usize)>>>
    where
        U: FnOnce(&mut T, usize) -> usize + Drop,
        A: FnOnce() -> (T, usize) + Drop,
        requires tie { tie.now.table.shared.table_id ≡ B.table }
        requires home { key % N ≡ self.old.journal.number }
        requires update { U.IsAlwaysCallable update }
        requires admit_data { A.IsAlwaysCallable admit_data }
        ensures ok { IfOk result (λ was. (w : _) × (IsGiven (Updates (U.post update)) (A.post admit_data) was w × GetsReceipt seat.old.receipts.items self.old.journal.number (Call.UpdateOrAdmit key w) (Some (weighed was)) seat.new.receipts.items)) }
        ensures err { IfErr result (λ r. (w : _) × (IsMade (Updates (U.post update)) (A.post admit_data) r.cause r.held w × GetsReceipt seat.old.receipts.items self.old.journal.number (Call.UpdateOrAdmit key w) (refused r.cause) seat.new.receipts.items)) }
        ensures kept { IfErr result (λ r. r.cause ≡ Cause.Memory → self.new.unit ≡ self.old.unit) }
        ensures same { (self.new.journal.number ≡ self.old.journal.number) × (seat.new.number ≡ seat.old.number) }
    {
        let Recording { unit, journal } = self;
        if journal.reserve(seat).is_err() {
            return Err(Refused {
                cause: Cause::Memory,
                held: None,
            });
        }
        match unit.update_or_admit(key, update, admit_data) {
            Ok((was, weight)) => {
                journal.note(tie, seat, Call::UpdateOrAdmit { key, weight }, weighed(was));
                Ok(was)
            }
            Err(refusal) => {
                let weight = refusal.weight;
                let call = Call::UpdateOrAdmit { key, weight };
                journal.note_reply(tie, seat, call, refused(refusal.cause));
                Err(refusal.untold())
            }
        }
    }
}
