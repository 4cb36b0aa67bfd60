//! Tests of `lru_list`, `lru_index`, `lru_rows` and `lru_pairs`: lists of calls worked out by hand, what the iterators show, and
//! how long the chains of an index become.
//!
//! What is expected is worked out by hand, or is what a plain simulation answers, and never what the program answered.
#![tactic(auto)]

#[cfg(test)]
mod hashing_tests;
#[cfg(test)]
mod iter_tests;
#[cfg(test)]
mod labels;
#[cfg(test)]
mod linked_list_tests;
#[cfg(test)]
mod pairs_tests;
#[cfg(test)]
mod place_index_tests;
#[cfg(test)]
mod rows_tests;
#[cfg(test)]
mod steps;
#[cfg(test)]
mod table;
