//! A desk.
ghost use Rattle.std.specs.Prelude.{◌≡◌, ℕ, ◌<◌, ◌≤◌, ◌++◌, ◌∷◌, [], IsOk, IsErr, IfOk, OnOk, All, map, length, min, vec_len, vec_capacity};
ghost use Rattle.lru_mailbox.specs.Ledger.{slips_of};
ghost use Rattle.lru_mailbox.specs.Slips.{lists_of, IsSettled};
ghost use Rattle.lru_short_locks.specs.Hands.{up};
ghost use Rattle.lru_boxes.specs.Ties.{hand, of_desk, known};

use crate::seats::{PutSeat, TakeSeat, put_seats, take_seats};
use crate::tie::{BlankSeats, Blanks, BoxRegistry, DeskTie, DeskToken};
use lru_mailbox::{LedgerState, MailError, Settled, Slip};
use std::alloc::{AllocError, Global};
use std::marker::{Model, PhantomData};

/// Pairs of a key and a weight that were put and wait to be taken, first come first served, and the slips of those that are
/// lost. The slips of what was put and taken stand with the seats; the desk's tokens know them, so that it and its seats
/// always agree.
#[derive(Drop)]
pub struct Desk<K: Drop, B: BoxRegistry> {
    state: LedgerState<K>,
    puts: DeskTie,
    putting: DeskToken,
    takes: DeskTie,
    taking: DeskToken,
    brand: PhantomData<B>,
}

impl<K: Drop, B: BoxRegistry> Model for Desk<K, B> {
    ghost use Rattle.std.specs.Prelude.{◌≡◌};
    ghost use Rattle.lru_mailbox.specs.Ledger.{Stock};
    ghost use Rattle.lru_boxes.specs.Desks.{IsDesk};

    ghost Value = { Stock K };

    ghost view = { λ s. s.state };

    ghost invariant = { λ s. ((s.puts.table.shared.table_id ≡ B.puts) × (s.putting.table_id ≡ B.puts)) × (((s.takes.table.shared.table_id ≡ B.takes) × (s.taking.table_id ≡ B.takes)) × IsDesk B.putters B.takers s.state s.putting.me s.taking.me) };
}

impl<K: Drop, B: BoxRegistry> Desk<K, B> {
    ghost use Rattle.lru_mailbox.specs.Ledger.{slip_put, put, shut, left, empty, Puts, Takes};

    /// An open desk where nothing waits, and its seats, which are numbered in order.
    pub fn new(
        alloc: Global,
        blanks: Blanks,
    ) -> Result<(Self, Vec<PutSeat<B>>, Vec<TakeSeat<B>>), AllocError>
        requires tables { (blanks.puts.tie.table.shared.table_id ≡ B.puts) × (blanks.takes.tie.table.shared.table_id ≡ B.takes) }
        requires counts { (B.putters ≡ blanks.putters) × (B.takers ≡ blanks.takers) }
        ensures book { IfOk result (λ made. made.0.book ≡ empty) }
        ensures putters { IfOk result (λ made. map (λ s. s.number) made.1.items ≡ up 0 B.putters) }
        ensures takers { IfOk result (λ made. map (λ s. s.number) made.2.items ≡ up 0 B.takers) }
        ensures put_slips { IfOk result (λ made. All (λ s. s.share.slips ≡ []) made.1.items) }
        ensures take_slips { IfOk result (λ made. All (λ s. s.share.slips ≡ []) made.2.items) }
    {
        let Blanks {
            putters,
            takers,
            puts,
            takes,
        } = blanks;
        let BlankSeats {
            tie: puts,
            token: putting,
        } = puts;
        let BlankSeats {
            tie: takes,
            token: taking,
        } = takes;
        let mut putting = putting;
        let mut taking = taking;
        let put_seats = put_seats(alloc, &puts, &mut putting, putters)?;
        let take_seats = take_seats(alloc, &takes, &mut taking, takers)?;
        let desk = Desk {
            state: LedgerState::without_shares(alloc, putters, takers)?,
            puts,
            putting,
            takes,
            taking,
            brand: PhantomData,
        };
        Ok((desk, put_seats, take_seats))
    }

    /// How many pairs wait.
    pub fn len(&self) -> usize
        ensures { result ≡ length self.now.book.waiting }
    {
        self.state.len()
    }

    /// How many pairs are lost.
    pub fn lost_len(&self) -> usize
        ensures { result ≡ length self.now.book.lost }
    {
        self.state.lost_len()
    }

    /// Whether what is put is lost.
    pub fn is_closed(&self) -> bool
        ensures { result ≡ self.now.book.closed }
    {
        self.state.is_closed()
    }

    /// Makes room for one more pair, and for its slip at the seat. Nothing else changes, also where memory refuses it, or
    /// where all of 18446744073709551615 numbers were given.
    pub fn reserve_one(&mut self, seat: &mut PutSeat<B>) -> Result<(), AllocError>
        ensures same { self.new.book ≡ self.old.book }
        ensures seat { (seat.new.number ≡ seat.old.number) × (seat.new.share.slips ≡ seat.old.share.slips) }
        ensures room { IsOk result → 0 < min self.new.room seat.new.share.room }
        ensures refused { IsErr result → min self.old.room seat.old.share.room ≡ 0 }
    {
        self.state.reserve_one(&mut seat.share)
    }

    /// Puts a pair last, with its slip at the seat; where the desk is closed the slip is lost. It takes no memory. There has
    /// to be room, as a `reserve_one` before it makes.
    pub fn put_reserved(&mut self, seat: &mut PutSeat<B>, hash: u64, key: K, weight: usize)
        requires { 0 < min self.old.room seat.old.share.room }
        ensures book { self.new.book ≡ put self.old.book hash key weight }
        ensures seat { (seat.new.number ≡ seat.old.number) × (seat.new.share.slips ≡ seat.old.share.slips ++ slip_put self.old.book hash weight ∷ []) }
    {
        let slip = self.state.put_reserved(&mut seat.share, hash, key, weight);
        self.puts
            .note(&mut self.putting, &mut seat.token, seat.number, &slip);
    }

    /// Puts a pair last, with its slip at the seat; where the desk is closed the slip is lost. Where memory refuses it, the
    /// key is handed back and nothing changes.
    pub fn put(
        &mut self,
        seat: &mut PutSeat<B>,
        hash: u64,
        key: K,
        weight: usize,
    ) -> Result<(), MailError<K>>
        ensures puts { Puts self.old seat.old.share hash key weight result self.new seat.new.share }
        ensures number { seat.new.number ≡ seat.old.number }
    {
        if self.reserve_one(seat).is_err() {
            return Err(MailError::Memory(key));
        }
        self.put_reserved(seat, hash, key, weight);
        Ok(())
    }

    /// Takes the first pair that waits, with its slip at the seat; `None` where none waits. Where memory refuses it, the pair
    /// waits on.
    pub fn take(&mut self, seat: &mut TakeSeat<B>) -> Result<Option<(Slip, K)>, AllocError>
        ensures takes { Takes self.old.book seat.old.share result self.new.book seat.new.share }
        ensures number { seat.new.number ≡ seat.old.number }
    {
        let Some((slip, key)) = self.state.take(&mut seat.share)? else {
            return Ok(None);
        };
        self.takes
            .note(&mut self.taking, &mut seat.token, seat.number, &slip);
        Ok(Some((slip, key)))
    }

    /// Closes the desk. What waits can still be taken.
    pub fn close(&mut self)
        ensures { self.new.book ≡ shut self.old.book }
    {
        self.state.close();
    }

    /// Closes the desk. What waits is lost.
    pub fn leave(&mut self)
        ensures { self.new.book ≡ left self.old.book }
    {
        self.state.leave();
    }

    /// Ends the box: what was put and taken with each seat, the slips that are lost, and the pairs that are left. It takes no
    /// memory. The seats are those that `new` gave, in order.
    pub fn settle(self, puts: Vec<PutSeat<B>>, takes: Vec<TakeSeat<B>>) -> Settled<K>
        requires putters { map (λ s. s.number) puts.items ≡ up 0 B.putters }
        requires takers { map (λ s. s.number) takes.items ≡ up 0 B.takers }
        ensures puts { lists_of result.puts.items ≡ map (λ s. s.share.slips) puts.items }
        ensures takes { lists_of result.takes.items ≡ map (λ s. s.share.slips) takes.items }
        ensures lost { result.lost.items ≡ self.book.lost }
        ensures left { result.left.items ≡ self.book.waiting }
        ensures settled { IsSettled (lists_of result.puts.items) (lists_of result.takes.items) result.lost.items (slips_of result.left.items) }
    {
        let Desk {
            state,
            puts: put_tie,
            putting,
            takes: take_tie,
            taking,
            brand: _,
        } = self;
        let mut putting = putting;
        let mut taking = taking;
        let mut settled = state.end();
        gather_puts(&put_tie, &mut putting, puts, &mut settled.puts);
        gather_takes(&take_tie, &mut taking, takes, &mut settled.takes);
        settled
    }
}

// Takes seats apart: each one's slips go into a list of its own, and its token to the desk's, which knew all of these lists.
fn gather_puts<B: BoxRegistry>(
    tie: &DeskTie,
    desk: &mut DeskToken,
    seats: Vec<PutSeat<B>>,
    lists: &mut Vec<Vec<Slip>>,
)
    requires tie { tie.now.table.shared.table_id ≡ B.puts }
    requires desk { (desk.old.table_id ≡ B.puts) × (desk.old.me ≡ (of_desk (known desk.old.me.0), [])) }
    requires numbers { map (λ s. s.number) seats.items ≡ up 0 (length (known desk.old.me.0)) }
    requires none_yet { lists.old.items ≡ [] }
    requires room { length seats.items ≤ vec_capacity lists.old }
    ensures lists { lists_of lists.new.items ≡ map (λ s. s.share.slips) seats.items }
    ensures known { known desk.old.me.0 ≡ map (λ s. s.share.slips) seats.items }
{
    for seat in seats {
        let PutSeat { share, token, .. } = seat;
        tie.join(desk, token);
        lists.push_reserved(share.into_slips());
    }
    tie.look(desk);
}

// The same of seats of those who take.
fn gather_takes<B: BoxRegistry>(
    tie: &DeskTie,
    desk: &mut DeskToken,
    seats: Vec<TakeSeat<B>>,
    lists: &mut Vec<Vec<Slip>>,
)
    requires tie { tie.now.table.shared.table_id ≡ B.takes }
    requires desk { (desk.old.table_id ≡ B.takes) × (desk.old.me ≡ (of_desk (known desk.old.me.0), [])) }
    requires numbers { map (λ s. s.number) seats.items ≡ up 0 (length (known desk.old.me.0)) }
    requires none_yet { lists.old.items ≡ [] }
    requires room { length seats.items ≤ vec_capacity lists.old }
    ensures lists { lists_of lists.new.items ≡ map (λ s. s.share.slips) seats.items }
    ensures known { known desk.old.me.0 ≡ map (λ s. s.share.slips) seats.items }
{
    for seat in seats {
        let TakeSeat { share, token, .. } = seat;
        tie.join(desk, token);
        lists.push_reserved(share.into_slips());
    }
    tie.look(desk);
}
