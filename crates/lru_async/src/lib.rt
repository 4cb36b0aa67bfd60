//! A least-recently-used order served by actors: one thread for each shard, threads that ask for evictions, and threads
//! that call back for each evicted pair.
//!
//! What a call sends, where, and what an answer or a refusal tells, is written over a `Line` as functions over values, whose clauses
//! say it of any line; the threads run the loops of `lru_workers`. What threads do together is only tested.
#![tactic(auto)]

mod accounted_lru;
pub mod async_lru;
mod build;
pub mod builder;
pub mod cells;
mod ending;
mod launching;
pub mod ledger_lru;
pub mod line;
pub mod logged_lru;
mod plain;
pub mod receiver;
pub mod refusals;
pub mod saving;
pub mod seats_back;
pub mod sends;
mod threads;

pub use accounted_lru::{Account, AccountedLru};
pub use build::build_accounted;
