//! Folders, files and answers for the tests of the shard files' crates.
//!
//! Nothing that is no test stands on it. It stands on the folders whose tests it serves.
#![tactic(auto)]

pub mod loads;
pub mod odd_names;
pub mod refusals;
pub mod saves;
pub mod shelf;
pub mod told;
pub mod two_shards;
