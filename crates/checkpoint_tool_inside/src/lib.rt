//! All of `checkpoint_tool` but where its words and its streams come from: checkpoints saved, shown and checked.
//!
//! Text and status tell what came of a request, letter for letter. It takes folders, readers and writers, so that clauses
//! speak of them. It stands on `lru_generations` and on the streams and lines of the other program.
#![tactic(auto)]

mod before;
pub mod checking;
pub mod engine;
pub mod input_rows;
pub mod outcome;
pub mod program;
pub mod requests;
pub mod saving;
pub mod texts;
