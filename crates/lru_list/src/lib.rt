//! A doubly linked list whose items keep their index until they are removed: the order of one shard.
//!
//! Its calls are exact on the list of items and on the freed slots, and each takes a time that does not grow with the list.
//! Rows and pairs stand on it; it stands on nothing but std.
#![tactic(auto)]

pub mod iter;
pub mod linked_list;
