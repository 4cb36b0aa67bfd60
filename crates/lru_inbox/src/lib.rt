//! An actor's messages with their log, as a value and as threads share it: who puts a message knows that it stands there, who takes
//! messages knows which they are, and who asked learns of which beginning of the log the reply tells.
//!
//! Its calls are exact. A log only grows, and exists in proofs alone: tokens of one table, which take no bytes, know it. `exact_law`: where
//! no message was refused, an answer is that of the rows which the messages leave. It stands on mailboxes (`lru_mailbox`), on the law of
//! the actors (`lru_actors`), and on the words for hands of a table (`lru_short_locks`).
#![tactic(auto)]

mod caller;
pub mod hand;
mod inbox;
mod law;
mod shared_inbox;
mod taker;
pub mod tie;
mod told;
pub mod voice;

pub use caller::Caller;
pub use inbox::Inbox;
pub use law::exact_law;
pub use shared_inbox::SharedInbox;
pub use taker::Taker;
pub use told::Told;
