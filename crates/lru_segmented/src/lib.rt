//! A cache of keys and values in two segments, which no walk over keys that are asked for once can empty; the same with deadlines, and one
//! shard of an order in two segments.
//!
//! A new entry stands in the lower segment, a use moves it into the upper one, and what has to go goes from the lower one first. What a
//! walk leaves of the upper segment, and that a cache without a share for it is a `Cache`, are laws. It stands on a cache of one owner
//! (`lru_owned_cache`), on deadlines (`lru_deadlines`) and, for the shard, on `lru_shard`.
#![tactic(auto)]

pub mod iter;
pub(crate) mod keeping;
pub mod laws;
pub mod putting;
pub mod putting_with_deadlines;
pub(crate) mod seat;
pub(crate) mod seats;
pub mod segmented;
pub mod segmented_deadlines;
pub mod segmented_unit;
pub mod taking;
pub mod taking_with_deadlines;
pub mod unit_laws;
