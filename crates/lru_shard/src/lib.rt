//! One shard of a least-recently-used order: rows with weights, under a cap on their sum. And what all sharded orders have in
//! common: limits, draws, the step round the circle of shards, and counters that threads share.
//!
//! Its calls are exact, and a refused one changes nothing but what its clause names. All orders stand on it; it stands on
//! rows (`lru_rows`).
#![tactic(auto)]

pub mod counters;
pub mod eviction;
pub mod iter;
pub mod totals;
pub mod unit;
