//! Caches saved as checkpoints and loaded again, each by one call; and entries copied out of caches, one shard at a time, and put back.
//!
//! A save lasts once it answers Ok, and a load answers the newest checkpoint that is whole. A copy has the entries of a shard in their
//! order, with keys, weights and clones of values; what is done under a lock is done by the functions over a cache of one owner. It stands
//! on the caches and on generations (`lru_generations`).
#![tactic(auto)]

pub mod cache_captures;
pub mod caches;
pub mod deadline_captures;
pub mod deadlines;
pub mod laws;
pub mod restored;
pub mod shared;
pub mod shared_captures;
pub mod shared_deadline_captures;
pub mod shared_deadlines;
