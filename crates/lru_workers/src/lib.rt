//! What actors and workers share, and the loops that they run. The loops change lists, maps of weights and evicted pairs by
//! the calls of messages and mailboxes alone.
//!
//! Which eviction is asked for, and what a batch does, is decided by functions over values; what threads do together is only
//! tested. With logs a shard is one value with its log (`LoggedShard`), so that who looks at a weight learns of which messages it
//! tells. It stands on `lru_actors`, on mailboxes, boxes and letters that threads share, and on logs.
#![tactic(auto)]

pub mod actor;
pub mod asking;
mod bench;
pub mod callback;
mod logged_shard;
pub mod outlet;
mod rest;
mod shard_end;
pub mod trigger;
pub mod workers;
pub mod world;

pub use logged_shard::LoggedShard;
pub use shard_end::ShardEnd;
