//! A box with a seat for each who puts and each who takes, as a value and as threads share it. A seat holds its own slips; the
//! desk, which holds what waits and what is lost, knows them all, since both hold tokens of one table.
//!
//! What a desk and its seats hold is exact; at the end each slip was taken, is lost, or is left. It stands on the table of
//! `atomic_table` by the words of `lru_short_locks`, and on the box as a value (`lru_mailbox`).
#![tactic(auto)]

pub mod desk;
mod desk_putter;
pub mod hand;
mod ledger_box;
pub mod seats;
pub mod tie;

pub use desk_putter::DeskPutter;
pub use ledger_box::LedgerBox;
pub use seats::{PutSeat, TakeSeat};
pub use tie::{Blanks, BoxRegistry};
