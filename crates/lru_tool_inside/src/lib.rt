//! All of `lru_tool` but where its arguments and its streams come from: what the lines of its input ask for, what it does for each
//! and the line that it writes.
//!
//! Which text means which command is exact, letter for letter, as is each line of output. For every folder, log, reader and writer a
//! run writes each command's reply, up to the first bad line, unless it ends with status 1. It stands on the core with its files
//! (`pingora_lru_files`) and on `lru_lines`.
#![tactic(auto)]

pub mod arguments;
pub mod command;
pub mod engine;
pub mod program;
pub mod replies;
pub mod settings;
