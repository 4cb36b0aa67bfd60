//! Messages that wait to be taken, first come first served, and boxes of pairs that leave nothing untold, each as a value and
//! as threads share it.
//!
//! A mailbox counts what was taken or lost, and a refused message comes back with its cause. In a box each pair that is put has a
//! slip, and at the end every slip was taken, is lost, or is left. Where an actor's evicted rows go, to either of them, is the trait
//! `Dispatch`. It stands on nothing.
#![tactic(auto)]

mod dispatch;
mod ledger_state;
mod mail_error;
mod mail_state;
mod mailbox;
mod putter;
mod shared;
mod shares;
mod slip;
mod ties;

pub use dispatch::Dispatch;
pub use ledger_state::{LedgerState, Settled};
pub use mail_error::MailError;
pub use mail_state::MailState;
pub use mailbox::Mailbox;
pub use putter::Putter;
pub use shared::{Queued, Shared};
pub use shares::{PutShare, TakeShare};
pub use slip::Slip;
pub use ties::ties_law;
