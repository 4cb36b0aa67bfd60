//! N shards for many threads, each behind a lock of its own, and batches of admissions to them.
//!
//! It holds the order `Lru`. What a call does under a lock is proved as of a core's shard; how threads interleave is only
//! tested. Each admission of a batch is answered in its own place. It stands on one shard (`lru_shard`) and on short locks
//! (`lru_short_locks`).
#![tactic(auto)]

mod admission;
mod admitting;
mod counters;
mod evicting;
mod locked;
pub mod look;
pub mod lru;
mod making_room;
mod shard;
mod shed;

pub use admission::{Admission, Fate};
pub use admitting::admit_each;
