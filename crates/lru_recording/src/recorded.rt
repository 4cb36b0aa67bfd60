//! N shards for many threads, each behind a lock of its own with its history.
ghost use Rattle.std.specs.Prelude.{◌≡◌, ◌%◌, ◌<◌, ◌≤◌, [], vec_len, map, All, IfOk, IfErr, OnOk, OnErr, Some, Ok, None};
ghost use Rattle.std.specs.Sync.Mutex.{mutex_guard_value};
ghost use Rattle.lru_recording.specs.declared.entry.Reply.TheVariants.{Flag, Weight};
ghost use Rattle.lru_recording.specs.Stamps.{GetsReceipt};
ghost use Rattle.lru_short_locks.specs.Hands.{up};
ghost use Rattle.lru_recording.specs.Ties.{hand};
ghost use Rattle.lru_recording.specs.Tied.{AreTied};
ghost use Rattle.lru_shard.specs.Limits.{cap_of};
ghost use Rattle.lru_shard.specs.Shards.{AreOwn};
ghost use Rattle.lru_recording.specs.Plain.{forget};
ghost use Rattle.lru_recording.specs.Histories.{left_by, AreLegal, lists_of};
ghost use Rattle.lru_recording.specs.Replies.{refused, weighed, paired, increments, IsGiven, IsMade};
ghost use Rattle.lru_shard.specs.Unit.{Updates};

use crate::dealing::{deal_seats, deal_shards, zeros};
pub use crate::entry::{Call, Entry, Names, Receipt, Reply};
use crate::gathered::{Gathered, GatheringRoom};
pub use crate::journal::Seat;
use crate::journal::compare_all;
use crate::recording::Recording;
pub use crate::tie::{Blank, Registry};
use crate::tie::{Tie, Token};
use lru_shard::counters::shift;
use lru_shard::totals::{Totals, Units};
use lru_shard::unit::{Cause, LruUnit, Refused};
use std::alloc::{AllocError, Global};
use std::marker::PhantomData;
use std::sync::atomic::{AtomicUsize, Ordering};
use std::sync::{Mutex, MutexGuard, Wait};

// What `finish` takes: the token of which all shards and seats were dealt, and room for the shards. It stands behind a
// lock, since neither may be shared.
#[derive(Drop)]
struct Rest<T, B: Registry, const N: usize> {
    token: Token,
    room: GatheringRoom<T, N>,
    brand: PhantomData<B>,
    ghost here: { token.table_id ≡ B.table },
    ghost empty: { token.me ≡ (hand [] [] [] [], []) },
}

/// N shards, each a list of rows, most recent first, behind a lock, with the history of its calls. A key's shard is
/// the key modulo N.
///
/// It answers as an `Lru` does. Each call takes a seat, and leaves an entry in its shard's history and a receipt with
/// the seat. GatheringRoom for both comes first: where that is refused, nothing happened, and nothing is noted.
#[derive(Drop)]
pub struct RecordedLru<T, B: Registry, const N: usize> {
    pub(crate) tie: Tie,
    pub(crate) shards: Vec<Mutex<Recording<T, B, N>>>,
    // how many rows each shard has
    pub(crate) lens: Vec<AtomicUsize>,
    pub(crate) weight: AtomicUsize,
    pub(crate) len: AtomicUsize,
    pub(crate) weight_limit: usize,
    pub(crate) watermark: Option<usize>,
    rest: Mutex<Rest<T, B, N>>,
    names: Names,
    ghost some: { 0 < N },
    ghost tie_is: { tie.table.shared.table_id ≡ B.table },
    ghost key_is: { tie.table.shared.key ≡ names },
    ghost has_shards: { vec_len shards ≡ N },
    ghost has_lens: { vec_len lens ≡ N },
    ghost names_are: { names.shards ≡ N },
    ghost seats_are: { names.seats ≡ B.seats },
}

/// What a `RecordedLru` leaves: the shards and their histories, in the shards' order, and the seats.
#[derive(Drop)]
pub struct Recorded<T, B: Registry, const N: usize> {
    /// The shards.
    pub units: Vec<LruUnit<T>>,
    /// The history of each shard.
    pub histories: Vec<Vec<Entry>>,
    /// The seats.
    pub seats: Vec<Seat<B>>,
}

impl<T: Drop, B: Registry, const N: usize> RecordedLru<T, B, N> {
    /// An empty `RecordedLru` with a limit on its weight and, where there is a watermark, on its length, and one seat for
    /// each caller, without receipts. Each shard has room for `capacity` rows, and may weigh `usize::MAX / N`.
    pub fn new(
        alloc: Global,
        blank: Blank,
        weight_limit: usize,
        capacity: usize,
        watermark: Option<usize>,
        callers: usize,
    ) -> Result<(Self, Vec<Seat<B>>), AllocError>
        requires some { 0 < N }
        requires blank { (blank.tie.table.shared.table_id ≡ B.table) × (blank.tie.table.shared.key ≡ record { shards = N; seats = callers }) }
        requires callers { B.seats ≡ callers }
        ensures seats { IfOk result (λ r. map (λ s. s.number) r.1.items ≡ up 0 callers) }
        ensures fresh { IfOk result (λ r. All (λ s. s.receipts.items ≡ []) r.1.items) }
    {
        let Blank { tie, token } = blank;
        let mut rest = token;
        let shards = deal_shards(alloc, capacity, &tie, &mut rest, callers as u64)?;
        let seats = deal_seats(alloc, &tie, &mut rest, callers)?;
        let recorded = RecordedLru {
            tie,
            shards,
            lens: zeros(alloc, N)?,
            weight: AtomicUsize::new(0),
            len: AtomicUsize::new(0),
            weight_limit,
            watermark,
            rest: Mutex::new(Rest {
                token: rest,
                room: GatheringRoom::new(alloc)?,
                brand: PhantomData,
            }),
            names: Names {
                shards: N as u64,
                seats: callers as u64,
            },
        };
        Ok((recorded, seats))
    }

    pub(crate) fn shard_of(&self, key: u64) -> usize
        ensures value { result ≡ key % N }
        ensures below { result < N }
    {
        // No step needs the field: where one is read, the proof learns what the type says of itself, here that N is not 0.
        let _shards = &self.shards;
        (key % N as u64) as usize
    }

    // Takes the lock of a shard. No type says which lock has which shard, so the number is looked at; the first one is the
    // right one.
    fn shard_at(&self, rt: &impl Wait, shard: usize) -> MutexGuard<'_, Recording<T, B, N>>
        requires { shard < N }
        ensures { (mutex_guard_value result).journal.number ≡ shard }
    {
        for _ in rt.forever() {
            let recording = self.shards[shard].lock(rt);
            if recording.journal.number == shard {
                return recording;
            }
        }
        unreachable!()
    }

    // Takes the lock of a shard for a call that may change what is counted of it, with what was counted before the call.
    pub(crate) fn lock_counted(
        &self,
        rt: &impl Wait,
        shard: usize,
    ) -> (MutexGuard<'_, Recording<T, B, N>>, Totals)
        requires { shard < N }
        ensures { (mutex_guard_value result.0).journal.number ≡ shard }
    {
        let recording = self.shard_at(rt, shard);
        let before = Totals::of(&recording.unit);
        (recording, before)
    }

    // Brings the counters after that call, and then lets go of the lock.
    pub(crate) fn count(&self, recording: MutexGuard<'_, Recording<T, B, N>>, before: Totals) {
        let after = Totals::of(&recording.unit);
        shift(&self.weight, before.weight, after.weight);
        shift(&self.len, before.len, after.len);
        shift(&self.lens[recording.journal.number], before.len, after.len);
    }

    /// Puts a row first in the shard of its key, in place of the key's, and answers that shard. A weight of 0 counts as 1.
    ///
    /// A refusal is the shard's, or for want of memory for its note. It hands the data back and changes no row; a refusal for
    /// Length or Weight is noted.
    pub fn admit(
        &self,
        rt: &impl Wait,
        seat: &mut Seat<B>,
        key: u64,
        data: T,
        weight: usize,
    ) -> Result<usize, Refused<T>>
        ensures shard { IfOk result (λ s. s ≡ key % N) }
        ensures ok { OnOk result ((was : _) × GetsReceipt seat.old.receipts.items (key % N) (Call.Admit key weight) (Some (Weight was)) seat.new.receipts.items) }
        ensures err { IfErr result (λ r. GetsReceipt seat.old.receipts.items (key % N) (Call.Admit key weight) (refused r.cause) seat.new.receipts.items) }
        ensures held { IfErr result (λ r. r.held ≡ «data») }
        ensures seat { seat.new.number ≡ seat.old.number }
    {
        let shard = self.shard_of(key);
        let (mut recording, before) = self.lock_counted(rt, shard);
        let answer = recording.admit(&self.tie, seat, key, data, weight);
        self.count(recording, before);
        answer?;
        Ok(shard)
    }

    /// Puts a row last in the shard of its key where the key has none, and answers true; else it answers false, and the
    /// data is dropped. A weight of 0 is kept. A refusal hands the data back and changes no row; one for Length or Weight is
    /// noted.
    pub fn insert_tail(
        &self,
        rt: &impl Wait,
        seat: &mut Seat<B>,
        key: u64,
        data: T,
        weight: usize,
    ) -> Result<bool, Refused<T>>
        ensures ok { IfOk result (λ added. GetsReceipt seat.old.receipts.items (key % N) (Call.InsertTail key weight) (Some (Flag added)) seat.new.receipts.items) }
        ensures err { IfErr result (λ r. GetsReceipt seat.old.receipts.items (key % N) (Call.InsertTail key weight) (refused r.cause) seat.new.receipts.items) }
        ensures held { IfErr result (λ r. r.held ≡ «data») }
        ensures seat { seat.new.number ≡ seat.old.number }
    {
        let (mut recording, before) = self.lock_counted(rt, self.shard_of(key));
        let answer = recording.insert_tail(&self.tie, seat, key, data, weight);
        self.count(recording, before);
        answer
    }

    /// Adds to a key's weight, puts its row first, and answers the new weight, as `LruUnit` does. A refusal comes before
    /// `admit_data` is called and changes no row; one for Length or Weight is noted, and any key may be refused for want of
    /// memory for its note. `admit_data` is called under the lock of the key's shard.
    pub fn increment_weight<F: FnOnce() -> T + Drop>(
        &self,
        rt: &impl Wait,
        seat: &mut Seat<B>,
        key: u64,
        admit_data: F,
        delta: usize,
        max_weight: Option<usize>,
    ) -> Result<usize, Cause>
        requires callable { F.IsAlwaysCallable admit_data }
        ensures ok { IfOk result (λ weight. GetsReceipt seat.old.receipts.items (key % N) (increments key delta max_weight) (Some (Weight weight)) seat.new.receipts.items) }
        ensures err { IfErr result (λ cause. GetsReceipt seat.old.receipts.items (key % N) (increments key delta max_weight) (refused cause) seat.new.receipts.items) }
        ensures seat { seat.new.number ≡ seat.old.number }
    {
        let (mut recording, before) = self.lock_counted(rt, self.shard_of(key));
        let answer = recording.increment_weight(
            &self.tie, seat, key, admit_data, delta, max_weight,
        );
        self.count(recording, before);
        answer
    }

    /// Updates a key's data and weight, or admits what `admit_data` gives, puts the row first, and answers the weight that
    /// the key had, `None` for a new row, as `LruUnit` does. A refusal changes no row; one for Length or Weight is noted, and any
    /// key may be refused for want of memory for its note. The closures are called under the lock of the key's shard.
    pub fn update_or_admit<U, A>(
        &self,
        rt: &impl Wait,
        seat: &mut Seat<B>,
        key: u64,
        update: U,
        admit_data: A,
    ) -> Result<Option<usize>, Refused<Option<(T, usize)>>>
    where
        U: FnOnce(&mut T, usize) -> usize + Drop,
        A: FnOnce() -> (T, usize) + Drop,
        requires update { U.IsAlwaysCallable update }
        requires admit_data { A.IsAlwaysCallable admit_data }
        ensures ok { IfOk result (λ was. (w : _) × (IsGiven (Updates (U.post update)) (A.post admit_data) was w × GetsReceipt seat.old.receipts.items (key % N) (Call.UpdateOrAdmit key w) (Some (weighed was)) seat.new.receipts.items)) }
        ensures err { IfErr result (λ r. (w : _) × (IsMade (Updates (U.post update)) (A.post admit_data) r.cause r.held w × GetsReceipt seat.old.receipts.items (key % N) (Call.UpdateOrAdmit key w) (refused r.cause) seat.new.receipts.items)) }
        ensures seat { seat.new.number ≡ seat.old.number }
    {
        let (mut recording, before) = self.lock_counted(rt, self.shard_of(key));
        let answer = recording.update_or_admit(&self.tie, seat, key, update, admit_data);
        self.count(recording, before);
        answer
    }

    /// Gives a key another weight, in its place, and answers the weight that it had; `None` where it has no row. A weight of 0
    /// counts as 1. It is refused for Weight, which is noted, or for want of memory for its note, and changes no row then.
    pub fn set_weight(
        &self,
        rt: &impl Wait,
        seat: &mut Seat<B>,
        key: u64,
        weight: usize,
    ) -> Result<Option<usize>, Cause>
        ensures ok { IfOk result (λ was. GetsReceipt seat.old.receipts.items (key % N) (Call.SetWeight key weight) (Some (weighed was)) seat.new.receipts.items) }
        ensures err { IfErr result (λ cause. GetsReceipt seat.old.receipts.items (key % N) (Call.SetWeight key weight) (refused cause) seat.new.receipts.items) }
        ensures seat { seat.new.number ≡ seat.old.number }
    {
        let (mut recording, before) = self.lock_counted(rt, self.shard_of(key));
        let answer = recording.set_weight(&self.tie, seat, key, weight);
        self.count(recording, before);
        answer
    }

    /// Puts a key's row first, and answers whether there is one.
    pub fn promote(&self, rt: &impl Wait, seat: &mut Seat<B>, key: u64) -> Result<bool, AllocError>
        ensures ok { IfOk result (λ held. GetsReceipt seat.old.receipts.items (key % N) (Call.Promote key) (Some (Flag held)) seat.new.receipts.items) }
        ensures err { OnErr result (seat.new.receipts.items ≡ seat.old.receipts.items) }
        ensures seat { seat.new.number ≡ seat.old.number }
    {
        self.shard_at(rt, self.shard_of(key))
            .promote(&self.tie, seat, key)
    }

    /// Puts a key's row first unless it is among the first `top`, and answers whether there is one.
    pub fn promote_top_n(
        &self,
        rt: &impl Wait,
        seat: &mut Seat<B>,
        key: u64,
        top: usize,
    ) -> Result<bool, AllocError>
        ensures ok { IfOk result (λ held. GetsReceipt seat.old.receipts.items (key % N) (Call.PromoteTopN key top) (Some (Flag held)) seat.new.receipts.items) }
        ensures err { OnErr result (seat.new.receipts.items ≡ seat.old.receipts.items) }
        ensures seat { seat.new.number ≡ seat.old.number }
    {
        self.shard_at(rt, self.shard_of(key))
            .promote_top_n(&self.tie, seat, key, top)
    }

    /// Takes a key's row out, and answers its data and weight.
    pub fn remove(
        &self,
        rt: &impl Wait,
        seat: &mut Seat<B>,
        key: u64,
    ) -> Result<Option<(T, usize)>, AllocError>
        ensures ok { IfOk result (λ pair. GetsReceipt seat.old.receipts.items (key % N) (Call.Remove key) (Some (paired pair)) seat.new.receipts.items) }
        ensures err { OnErr result (seat.new.receipts.items ≡ seat.old.receipts.items) }
        ensures seat { seat.new.number ≡ seat.old.number }
    {
        let (mut recording, before) = self.lock_counted(rt, self.shard_of(key));
        let answer = recording.remove(&self.tie, seat, key);
        self.count(recording, before);
        answer
    }

    /// Whether a key has a row.
    pub fn peek(&self, rt: &impl Wait, seat: &mut Seat<B>, key: u64) -> Result<bool, AllocError>
        ensures ok { IfOk result (λ held. GetsReceipt seat.old.receipts.items (key % N) (Call.Peek key) (Some (Flag held)) seat.new.receipts.items) }
        ensures err { OnErr result (seat.new.receipts.items ≡ seat.old.receipts.items) }
        ensures seat { seat.new.number ≡ seat.old.number }
    {
        self.shard_at(rt, self.shard_of(key))
            .peek(&self.tie, seat, key)
    }

    /// The weight of a key.
    pub fn peek_weight(
        &self,
        rt: &impl Wait,
        seat: &mut Seat<B>,
        key: u64,
    ) -> Result<Option<usize>, AllocError>
        ensures ok { IfOk result (λ weight. GetsReceipt seat.old.receipts.items (key % N) (Call.PeekWeight key) (Some (weighed weight)) seat.new.receipts.items) }
        ensures err { OnErr result (seat.new.receipts.items ≡ seat.old.receipts.items) }
        ensures seat { seat.new.number ≡ seat.old.number }
    {
        self.shard_at(rt, self.shard_of(key))
            .peek_weight(&self.tie, seat, key)
    }

    /// The data, cloned, and the weight of the row of a shard that was used longest ago; `None` of an empty shard, and
    /// past N, where nothing is noted. A clone has to equal its source.
    pub fn peek_lru(
        &self,
        rt: &impl Wait,
        seat: &mut Seat<B>,
        shard: usize,
    ) -> Result<Option<(T, usize)>, AllocError>
    where
        T: Clone,
        requires { (d e : T) → T.is_clone d e → e ≡ d }
        ensures past { N ≤ shard → (result ≡ Ok None) × (seat.new.receipts.items ≡ seat.old.receipts.items) }
        ensures ok { shard < N → IfOk result (λ pair. GetsReceipt seat.old.receipts.items (shard) (Call.PeekLru) (Some (paired pair)) seat.new.receipts.items) }
        ensures err { OnErr result (seat.new.receipts.items ≡ seat.old.receipts.items) }
        ensures seat { seat.new.number ≡ seat.old.number }
    {
        if shard >= N {
            return Ok(None);
        }
        self.shard_at(rt, shard).peek_lru(&self.tie, seat)
    }

    /// Ends all calls, and answers the shards, their histories and the seats, as they are. The seats are those that `new`
    /// gave, in their order. It takes no memory.
    ///
    /// Each history is one that one thread could have made: from the empty list on, each reply is the plain list's at
    /// that point, and each call is of that shard. Each shard has the keys and weights at the end of its history. The
    /// receipts of all seats are the entries of all histories, each once.
    /// The keys of each shard are its own, and it is within its cap.
    pub fn finish(self, seats: Vec<Seat<B>>) -> Recorded<T, B, N>
        requires { map (λ s. s.number) seats.items ≡ up 0 B.seats }
        ensures count { (vec_len result.units ≡ N) × (vec_len result.histories ≡ N) }
        ensures units { map (λ u. forget u.rows) result.units.items ≡ map (left_by (cap_of N) []) (lists_of result.histories.items) }
        ensures legal { AreLegal N (lists_of result.histories.items) }
        ensures own { AreOwn N result.units.items }
        ensures seats { result.seats ≡ seats }
        ensures tied { AreTied (lists_of result.histories.items) (map (λ s. s.receipts.items) seats.items) }
    {
        let RecordedLru {
            tie,
            shards,
            rest,
            names,
            ..
        } = self;
        let Rest { token, room, .. } = rest.into_inner();
        let mut book = token;
        let Gathered { units, histories } = room.fill(&tie, names, &mut book, shards);
        tie.look(&mut book, names);
        let mut seats = seats;
        compare_all(seats.as_mut_slice(), &tie, &mut book, names);
        Recorded {
            units,
            histories,
            seats,
        }
    }

    /// Ends all calls without the seats, and answers the shards, in their order, with what was counted of them. The keys of
    /// each shard are its own, and it is within its cap. It takes no memory.
    pub fn into_units(self) -> Units<T>
        ensures count { vec_len result.units ≡ N }
        ensures own { AreOwn N result.units.items }
    {
        let totals = Totals {
            weight: self.weight.load(Ordering::SeqCst),
            len: self.len.load(Ordering::SeqCst),
        };
        let RecordedLru {
            tie,
            shards,
            rest,
            names,
            ..
        } = self;
        let Rest { token, room, .. } = rest.into_inner();
        let mut book = token;
        let Gathered { units, .. } = room.fill(&tie, names, &mut book, shards);
        Units { units, totals }
    }
}
