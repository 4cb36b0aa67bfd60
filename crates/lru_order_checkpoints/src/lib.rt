//! Orders saved as checkpoints and loaded again, each by one call; and rows copied out of orders, one shard at a time, and put back. Their
//! data are pairs of a key, which is the row's, and a value.
//!
//! A save lasts once it answers Ok, and a load answers the newest checkpoint that is whole. A copy has the rows of a shard in their order,
//! with keys, weights and clones of data. It stands on the orders (`lru_shared_order`, `lru_cores`) and on generations (`lru_generations`).
#![tactic(auto)]

pub mod core_captures;
pub mod cores;
pub mod laws;
pub mod locks;
pub mod restored;
mod rows;
pub mod shared_captures;
pub mod snapshots;
