//! N shards of one owner under one limit, with eviction, runs of such a core as values with their replies, and two cores as the tiers of a
//! cache, hot and cold.
//!
//! A call on a key does to its shard what the shard's call does, and leaves the others. The draws of an eviction are a function of the
//! generator. A run is exact, call by call, and `inclusion_law` compares two; no key has a row in both tiers, and `tiers_law` says where
//! each row went. It stands on one shard (`lru_shard`).
#![tactic(auto)]

pub mod calls;
pub mod evictions;
pub mod inclusion;
pub mod lru_core;
pub mod tiered;
