//! A cache of keys and values that lets a new entry in only where its key was used more often than those that go for it, and a sketch of
//! how often keys were used of late.
//!
//! A walk over keys that are asked for once takes nothing out. A key whose uses since the last halving are more than the estimate of each
//! entry that goes is always let in; an estimate is never below those uses, up to 15, and may be above them. It stands on a cache of one
//! owner (`lru_owned_cache`).
#![tactic(auto)]

pub mod admission;
mod counters;
pub mod laws;
pub mod sketch;
pub mod sketch_laws;
