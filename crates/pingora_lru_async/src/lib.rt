//! A least-recently-used order served by actors on threads. Beside it stand the mailboxes, the messages, what each message
//! does to a shard, and the law over every schedule, as functions over values; and mailboxes and boxes that threads share.
//! What stands here is passed on from the crates beneath.
#![tactic(auto)]

pub mod async_lru;
pub mod mailbox;
