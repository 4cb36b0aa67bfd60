//! What a token knows.
use lru_mailbox::Slip;
use std::collections::LinkedList;

/// A seat's number, and its slips. No value of it is made.
pub struct SeatSlips {
    /// The number.
    pub number: u64,
    /// The slips, in order.
    pub slips: LinkedList<Slip>,
}

/// What a token knows: of each desk that it speaks for, there is one at most, what that knows each seat to have; and the
/// seats that it speaks for. No value of it is made.
pub struct DeskHand {
    /// For each desk the slips of each seat, in the order of the seats.
    pub desks: LinkedList<LinkedList<LinkedList<Slip>>>,
    /// The seats.
    pub seats: LinkedList<SeatSlips>,
}
