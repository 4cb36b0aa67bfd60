//! The program `lru_tool` once more: its stored run is stopped at a bad line, and ends with status 2.
//!
//! The gate so sees a status other than 0, and that nothing is written behind the bad line. It stands on `lru_tool_inside`.
#![tactic(auto)]

use lru_tool_inside::program;
use std::process::ExitCode;

fn main(rt: HostRuntime) -> ExitCode {
    program::run(rt)
}
