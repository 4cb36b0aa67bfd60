//! `lru_tool LIMIT WATERMARK SEED`: a core of two shards that answers the lines of standard input.
//!
//! What it does is told by `lru_tool --help` and in `docs/PROGRAM.md`. It hands its words and streams to `lru_tool_inside`, where
//! the clauses stand.
#![tactic(auto)]

use lru_tool_inside::program;
use std::process::ExitCode;

fn main(rt: HostRuntime) -> ExitCode {
    program::run(rt)
}
