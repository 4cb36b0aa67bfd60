//! Seats at a box.
ghost use Rattle.std.specs.Prelude.{◌≡◌, ◌↔◌, IsTrue, [], ◌∷◌, map, All, IfOk, OnOk};
ghost use Rattle.lru_mailbox.specs.declared.slip.Slip.{Slip};
ghost use Rattle.lru_short_locks.specs.Hands.{up};
ghost use Rattle.lru_boxes.specs.Ties.{hand, of_seat, of_desk, blank_lists, blank_seats};

use crate::tie::{BoxRegistry, DeskTie, DeskToken};
use lru_mailbox::{PutShare, Slip, TakeShare};
use std::alloc::{AllocError, Global};
use std::marker::PhantomData;

/// The seat of one who puts pairs into a box. It is made with the box, and cannot be copied.
#[derive(Drop)]
pub struct PutSeat<B: BoxRegistry> {
    /// The number of the seat, among those who put.
    pub number: usize,
    /// The slips of what was put with the seat, in order.
    pub share: PutShare,
    /// Speaks for the seat.
    pub token: DeskToken,
    brand: PhantomData<B>,
    pub ghost here: { token.table_id ≡ B.puts },
    pub ghost told: { token.me ≡ (of_seat number share.slips, []) },
}

impl<B: BoxRegistry> PutSeat<B> {
    /// A seat without slips.
    pub fn new(alloc: Global, number: usize, token: DeskToken) -> Self
        requires { (token.table_id ≡ B.puts) × (token.me ≡ (of_seat number [], [])) }
        ensures number { result.number ≡ number }
        ensures slips { result.share.slips ≡ [] }
    {
        PutSeat {
            number,
            share: PutShare::new(alloc),
            token,
            brand: PhantomData,
        }
    }

    /// The slips of what was put with the seat, in order.
    pub fn slips(&self) -> &[Slip]
        ensures { result.now ≡ self.now.share.slips }
    {
        self.share.slips()
    }

    /// Whether these are the seats of so many who put, in order.
    pub fn are_all(seats: &[Self], count: usize) -> bool
        ensures { IsTrue result ↔ (map (λ s. s.number) seats.now ≡ up 0 count) }
    {
        if seats.len() != count {
            return false;
        }
        for putter in 0..count {
            if seats[putter].number != putter {
                return false;
            }
        }
        true
    }
}

/// The seat of one who takes pairs out of a box. It is made with the box, and cannot be copied.
#[derive(Drop)]
pub struct TakeSeat<B: BoxRegistry> {
    /// The number of the seat, among those who take.
    pub number: usize,
    /// The slips of what was taken with the seat, in order.
    pub share: TakeShare,
    /// Speaks for the seat.
    pub token: DeskToken,
    brand: PhantomData<B>,
    pub ghost here: { token.table_id ≡ B.takes },
    pub ghost told: { token.me ≡ (of_seat number share.slips, []) },
}

impl<B: BoxRegistry> TakeSeat<B> {
    /// A seat without slips.
    pub fn new(alloc: Global, number: usize, token: DeskToken) -> Self
        requires { (token.table_id ≡ B.takes) × (token.me ≡ (of_seat number [], [])) }
        ensures number { result.number ≡ number }
        ensures slips { result.share.slips ≡ [] }
    {
        TakeSeat {
            number,
            share: TakeShare::new(alloc),
            token,
            brand: PhantomData,
        }
    }

    /// The slips of what was taken with the seat, in order.
    pub fn slips(&self) -> &[Slip]
        ensures { result.now ≡ self.now.share.slips }
    {
        self.share.slips()
    }

    /// Whether these are the seats of so many who take, in order.
    pub fn are_all(seats: &[Self], count: usize) -> bool
        ensures { IsTrue result ↔ (map (λ s. s.number) seats.now ≡ up 0 count) }
    {
        if seats.len() != count {
            return false;
        }
        for taker in 0..count {
            if seats[taker].number != taker {
                return false;
            }
        }
        true
    }
}

// The seats of so many who put, in order. The token that spoke for them and the desk then speaks for the desk alone.
pub(crate) fn put_seats<B: BoxRegistry>(
    alloc: Global,
    tie: &DeskTie,
    rest: &mut DeskToken,
    count: usize,
) -> Result<Vec<PutSeat<B>>, AllocError>
    requires tie { tie.now.table.shared.table_id ≡ B.puts }
    requires rest { (rest.old.table_id ≡ B.puts) × (rest.old.me ≡ (hand (blank_lists count ∷ []) (blank_seats 0 count), [])) }
    ensures numbers { IfOk result (λ seats. map (λ s. s.number) seats.items ≡ up 0 count) }
    ensures fresh { IfOk result (λ seats. All (λ s. s.share.slips ≡ []) seats.items) }
    ensures rest { OnOk result ((rest.new.table_id ≡ B.puts) × (rest.new.me ≡ (of_desk (blank_lists count), []))) }
{
    let mut seats = Vec::with_capacity(alloc, count)?;
    for number in 0..count {
        let token = tie.next_seat(rest);
        seats.push(PutSeat::new(alloc, number, token))?;
    }
    Ok(seats)
}

// The seats of so many who take, in the same way.
pub(crate) fn take_seats<B: BoxRegistry>(
    alloc: Global,
    tie: &DeskTie,
    rest: &mut DeskToken,
    count: usize,
) -> Result<Vec<TakeSeat<B>>, AllocError>
    requires tie { tie.now.table.shared.table_id ≡ B.takes }
    requires rest { (rest.old.table_id ≡ B.takes) × (rest.old.me ≡ (hand (blank_lists count ∷ []) (blank_seats 0 count), [])) }
    ensures numbers { IfOk result (λ seats. map (λ s. s.number) seats.items ≡ up 0 count) }
    ensures fresh { IfOk result (λ seats. All (λ s. s.share.slips ≡ []) seats.items) }
    ensures rest { OnOk result ((rest.new.table_id ≡ B.takes) × (rest.new.me ≡ (of_desk (blank_lists count), []))) }
{
    let mut seats = Vec::with_capacity(alloc, count)?;
    for number in 0..count {
        let token = tie.next_seat(rest);
        seats.push(TakeSeat::new(alloc, number, token))?;
    }
    Ok(seats)
}
