//! A shard's history and a seat's receipts, which are tied.
ghost use Rattle.std.specs.Prelude.{◌≡◌, ℕ, ◌+◌, ◌<◌, [], ◌∷◌, ◌++◌, length, vec_len, vec_capacity, slice_get, Some, OnOk};
ghost use Rattle.lru_recording.specs.Ties.{hand, Shows};
ghost use Rattle.lru_recording.specs.Stamps.{entry, receipt, stamps_in, slips_in, TurnsRise, and_entry, and_receipt};

use crate::entry::{Call, Entry, Names, Receipt, Reply, Stamp};
use crate::tie::{Registry, Tie, Token};
use std::alloc::{AllocError, Global};
use std::marker::PhantomData;

/// A shard's history, which is tied to the receipts of those who called.
#[derive(Drop)]
pub struct Journal<B: Registry> {
    /// The number of the shard.
    pub number: usize,
    /// The calls on the shard, in their order.
    pub history: Vec<Entry>,
    /// Speaks for the shard.
    pub token: Token,
    brand: PhantomData<B>,
    pub ghost here: { token.table_id ≡ B.table },
    pub ghost told: { token.me ≡ (hand (number ∷ []) [] (stamps_in number 0 history.items) [], []) },
    pub ghost rising: { TurnsRise history.items },
}

/// What one caller has: a receipt for each of its calls. It is a value of its own, and goes with its caller.
#[derive(Drop)]
pub struct Seat<B: Registry> {
    /// The number of the seat.
    pub number: usize,
    /// The receipts, in the order of the calls.
    pub receipts: Vec<Receipt>,
    /// Speaks for the seat.
    pub token: Token,
    brand: PhantomData<B>,
    pub ghost here: { token.table_id ≡ B.table },
    pub ghost told: { token.me ≡ (hand [] (number ∷ []) [] (slips_in number 0 receipts.items), []) },
}

impl<B: Registry> Seat<B> {
    /// A seat without receipts.
    pub fn new(alloc: Global, number: usize, token: Token) -> Seat<B>
        requires { (token.table_id ≡ B.table) × (token.me ≡ (hand [] (number ∷ []) [] [], [])) }
        ensures number { result.number ≡ number }
        ensures receipts { result.receipts.items ≡ [] }
    {
        Seat {
            number,
            receipts: Vec::new(alloc),
            token,
            brand: PhantomData,
        }
    }

    /// What the seat's receipts and some shards' histories show of each other. The seat stays as it is.
    pub fn compare(&mut self, tie: &Tie, book: &mut Token, names: Names)
        requires tie { (tie.now.table.shared.table_id ≡ B.table) × (tie.now.table.shared.key ≡ names) }
        requires book { (book.old.table_id ≡ B.table) × (book.old.me ≡ (hand book.old.me.0.shards [] book.old.me.0.book [], [])) }
        ensures same { self.new ≡ self.old }
        ensures book { (book.new.table_id ≡ book.old.table_id) × (book.new.me ≡ book.old.me) }
        ensures shows { Shows names.shards names.seats (hand book.old.me.0.shards (self.old.number ∷ []) book.old.me.0.book (slips_in self.old.number 0 self.old.receipts.items)) }
    {
        tie.compare(book, &mut self.token, names);
    }

    /// The receipts of the caller's calls, in their order.
    pub fn receipts(&self) -> &[Receipt]
        ensures { result.now ≡ self.now.receipts.items }
    {
        self.receipts.as_slice()
    }
}

/// What the receipts of some seats and some shards' histories show of each other. The seats stay as they are.
pub fn compare_all<B: Registry>(seats: &mut [Seat<B>], tie: &Tie, book: &mut Token, names: Names)
    requires tie { (tie.now.table.shared.table_id ≡ B.table) × (tie.now.table.shared.key ≡ names) }
    requires book { (book.old.table_id ≡ B.table) × (book.old.me ≡ (hand book.old.me.0.shards [] book.old.me.0.book [], [])) }
    ensures same { seats.new ≡ seats.old }
    ensures shows { (i : ℕ) (s : _) → slice_get seats.old i ≡ Some s → Shows names.shards names.seats (hand book.old.me.0.shards (s.number ∷ []) book.old.me.0.book (slips_in s.number 0 s.receipts.items)) }
{
    for seat in seats.iter_mut() {
        seat.compare(tie, book, names);
    }
}

impl<B: Registry> Journal<B> {
    /// A journal without entries.
    pub fn new(alloc: Global, number: usize, token: Token) -> Journal<B>
        requires { (token.table_id ≡ B.table) × (token.me ≡ (hand (number ∷ []) [] [] [], [])) }
        ensures number { result.number ≡ number }
        ensures history { result.history.items ≡ [] }
    {
        Journal {
            number,
            history: Vec::new(alloc),
            token,
            brand: PhantomData,
        }
    }

    /// Makes room for an entry and a receipt.
    pub fn reserve(&mut self, seat: &mut Seat<B>) -> Result<(), AllocError>
        ensures room { OnOk result ((vec_len self.new.history < vec_capacity self.new.history) × (vec_len seat.new.receipts < vec_capacity seat.new.receipts)) }
        ensures history { (self.new.number ≡ self.old.number) × (self.new.history.items ≡ self.old.history.items) }
        ensures receipts { (seat.new.number ≡ seat.old.number) × (seat.new.receipts.items ≡ seat.old.receipts.items) }
    {
        self.history.reserve(1)?;
        seat.receipts.reserve(1)
    }

    /// Notes a call: an entry, and its receipt.
    pub fn note(&mut self, tie: &Tie, seat: &mut Seat<B>, call: Call, reply: Reply)
        requires tie { tie.now.table.shared.table_id ≡ B.table }
        requires room { (vec_len self.old.history < vec_capacity self.old.history) × (vec_len seat.old.receipts < vec_capacity seat.old.receipts) }
        ensures history { (self.new.number ≡ self.old.number) × (self.new.history.items ≡ self.old.history.items ++ entry seat.old.number (length seat.old.receipts.items) call reply ∷ []) }
        ensures receipts { (seat.new.number ≡ seat.old.number) × (seat.new.receipts.items ≡ seat.old.receipts.items ++ receipt self.old.number (length self.old.history.items) call reply ∷ []) }
    {
        let Journal {
            number,
            history,
            token: book,
            ..
        } = self;
        let Seat {
            number: seat_number,
            receipts,
            token: slips,
            ..
        } = seat;
        let said = Stamp {
            shard: *number,
            place: history.len(),
            seat: *seat_number,
            turn: receipts.len(),
            call,
            reply,
        };
        tie.stamp(book, slips, &said);
        history.push_reserved(Entry {
            seat: said.seat,
            turn: said.turn,
            call,
            reply,
        });
        receipts.push_reserved(Receipt {
            shard: said.shard,
            place: said.place,
            call,
            reply,
        });
    }

    /// Notes a call that has a reply; one that has none leaves nothing.
    pub fn note_reply(&mut self, tie: &Tie, seat: &mut Seat<B>, call: Call, reply: Option<Reply>)
        requires tie { tie.now.table.shared.table_id ≡ B.table }
        requires room { (vec_len self.old.history < vec_capacity self.old.history) × (vec_len seat.old.receipts < vec_capacity seat.old.receipts) }
        ensures history { (self.new.number ≡ self.old.number) × (self.new.history.items ≡ and_entry self.old.history.items seat.old.number (length seat.old.receipts.items) call reply) }
        ensures receipts { (seat.new.number ≡ seat.old.number) × (seat.new.receipts.items ≡ and_receipt seat.old.receipts.items self.old.number (length self.old.history.items) call reply) }
    {
        if let Some(reply) = reply {
            self.note(tie, seat, call, reply);
        }
    }
}
