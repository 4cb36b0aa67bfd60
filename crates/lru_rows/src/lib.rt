//! Rows of keys, data and weights in the order of their last use, each found by its key.
//!
//! Its calls are exact on the list of rows, and no key stands twice. Orders stand on it: data and weights lie in columns, so
//! a use reads keys alone. It stands on the list (`lru_list`) and the index (`lru_index`).
#![tactic(auto)]

pub(crate) mod columns;
pub mod iter;
pub(crate) mod order;
pub mod rows;
