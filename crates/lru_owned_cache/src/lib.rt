//! A cache of keys and values of one owner that lets go of what was used longest ago.
//!
//! Its calls are exact: what they answer, what they leave, and what goes, which is shown. What goes is no more than has to, the last
//! first, and a cache is over neither of its limits after any call. It stands on pairs in the order of their last use (`lru_pairs`).
#![tactic(auto)]

pub mod cache;
pub mod draining;
pub mod entry;
pub mod keeping;
pub mod puts;
pub mod shrinking;
