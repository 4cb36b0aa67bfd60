//! Shards of an LRU, saved to files and loaded again. What stands here is passed on from the crates beneath.
//!
//! A save leaves each shard's file old or whole new, whatever stops it; `crash_law` says what a load makes of that. It adds
//! nothing of its own: folders, saves, loads and snapshots of cores keep their layers.
#![tactic(auto)]

pub mod persistence;

pub use lru_shard_files::{crash_law, snapshot};
