//! Messages that wait to be taken, and pairs that are counted by slips.

/// A box of pairs that leaves nothing untold, its shares and slips, and what became of them.
pub use lru_mailbox::{LedgerState, PutShare, Settled, Slip, TakeShare, ties_law};
/// A mailbox, and why it refused a message.
pub use lru_mailbox::{MailError, MailState};
/// A box that threads share, the blanks that it is made of, the trait whose implementor names it, and the seats at it.
pub use lru_boxes::{Blanks, BoxRegistry, LedgerBox, PutSeat, TakeSeat};
/// A mailbox that threads share.
pub use lru_mailbox::Mailbox;
/// What stands under a box's lock, and with one of its seats.
pub use lru_boxes::DeskPutter;
pub use lru_boxes::desk::Desk;
