//! The program `trace_player` once more: its stored run is over a trace with commas whose sizes are all 1,
//! which takes one pass.
//!
//! It stands on `trace_player_inside`, as the program does.
#![tactic(auto)]

use std::io;
use std::process::ExitCode;
use trace_player_inside::plain_program;

fn main(rt: HostRuntime) -> io::Result<ExitCode> {
    plain_program::run(rt)
}
