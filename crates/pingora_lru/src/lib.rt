//! An order of least recent use over rows that have weights, in N shards under one limit.
//!
//! [`linked_list::LinkedList`] is the order of one shard, [`unit::LruUnit`] is one shard,
//! [`lru_core::LruCore`] is N shards of one owner, and [`Lru`] is N shards for many threads, with [`batch`] for batches of
//! admissions to it;
//! [`calls`] has the calls of a core as values, [`recorded`] an order that keeps the history of its calls, and
//! [`tiered`] a hot and a cold core. [`totals`] has what orders for threads leave at their end. Each stands in a small
//! crate beneath; these are the names for users.
#![tactic(auto)]

pub use lru_cores::{calls, inclusion, tiered};
pub use lru_list::linked_list;
pub use lru_shard::{totals, unit};
pub use lru_shared_order::lru;
pub use lru_shared_order::lru::Lru;

/// Batches of admissions to an [`Lru`].
pub mod batch {
    pub use lru_shared_order::{Admission, Fate};
}

/// N shards under one limit on their weight, of one owner, and the law of inclusion over two of them.
pub mod lru_core {
    pub use lru_cores::inclusion::inclusion_law;
    pub use lru_cores::lru_core::{EvictError, LruCore};
}

/// N shards for many threads, each of which keeps the history of its calls, with a receipt for each call.
pub mod recorded {
    pub use lru_recording::entry::{Call, Entry, Names, Receipt, Reply};
    pub use lru_recording::journal::Seat;
    pub use lru_recording::recorded::{Recorded, RecordedLru};
    pub use lru_recording::tie::{Blank, Registry};
}
