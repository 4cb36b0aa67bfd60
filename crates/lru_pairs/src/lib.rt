//! Pairs of key and value with a weight, in the order of their last use, each found by its key.
//!
//! A pair stands in one node of the order, so that neither key nor value needs a default, and who uses both reads one
//! place. What is promised is what `lru_rows` promises of rows, whose keys, data and weights stand in columns.
#![tactic(auto)]

pub mod iter;
pub(crate) mod nodes;
pub mod pairs;
