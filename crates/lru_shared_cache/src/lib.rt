//! A cache of keys and values for many threads: N shards, each a cache of its own behind a short lock; and the same of one
//! owner, without locks. Their calls are written once, over both. What is not of one kind of cache alone is public, for a
//! crate with another: shards (`shards`), their locks (`locked`), and counts of what calls met (`counts`).
#![tactic(auto)]

mod calls;
pub mod counts;
mod kept;
mod leaving;
pub mod limits;
pub mod locked;
mod one;
mod related;
pub mod relations;
pub mod sharded;
pub mod shards;
pub mod shared;
mod turns;
