//! Traces of requests, what caches under limits make of them, and policies played over one trace beside the optimum that knows the future.
//!
//! It is all that `trace_player` does. The tallies of an LRU are those of the definition, by one pass for all limits where all sizes are
//! 1; what other policies find is told by the calls of their caches, and compared with plain simulations (`trace_player_tests`). It stands
//! on one shard (`lru_shard`) and on the caches.
#![tactic(auto)]

pub(crate) mod asked;
pub mod compared;
pub mod curves;
pub mod future;
mod help;
pub mod limits;
pub mod made;
pub mod numbers;
pub mod one_pass;
pub mod plain_program;
pub mod player;
pub mod plot;
pub mod policies;
pub mod program;
mod progress;
pub mod requests;
pub mod sampling;
pub mod settings;
pub mod table;
pub mod words;
