//! The actors of a least-recently-used order, as functions over values: what each message does to a shard, to the map of weights
//! beside it, and to the pairs that are evicted. And messages on their way, each with the cell in which its reply is given.
//!
//! Each message's answer and all that it leaves are exact, and equal keys have equal hashes. `schedule_law` is of every schedule of
//! senders, actors and workers: each accepted message is consumed, in hand, left behind or waiting, once and in order. No thread
//! stands here: `lru_workers` runs these functions on threads. It stands on one shard (`lru_shard`) and on what takes evicted pairs
//! (`lru_mailbox`).
#![tactic(auto)]

pub mod effect;
pub mod iter;
pub mod key;
mod law;
mod letter;
pub mod message;
pub mod process;
mod reply_cell;
pub mod state;

pub use law::{batch_law, schedule_law};
pub use letter::Letter;
pub use reply_cell::ReplyCell;
