//! A folder in memory, whose calls can be told to fail.
//!
//! It keeps the meaning of a `Folder` in full, fails and stops exactly where it was told to, and `after_loss` is something
//! that a loss of power could leave. It is for tests, and stands on `lru_folder`.
#![tactic(auto)]

pub mod calls;
mod held;
mod journal;
pub mod memory_folder;
mod open;
mod places;
mod plan;
mod replay;
mod store;
