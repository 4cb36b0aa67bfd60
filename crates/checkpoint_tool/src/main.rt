//! `checkpoint_tool`: saves, shows and checks checkpoints of rows.
//!
//! What it does is told by `checkpoint_tool --help` and in `docs/PROGRAM.md`. It hands its words and streams, and the host's
//! folder, to `checkpoint_tool_inside`, where the clauses stand.
#![tactic(auto)]

use checkpoint_tool_inside::program;
use lru_host_folder::host_folder::HostFolder;
use std::env;
use std::process::ExitCode;

fn main(rt: HostRuntime) -> ExitCode {
    let words = program::words_of(rt.alloc(), env::args(&rt));
    let mut folder = HostFolder::new(rt);
    program::run(
        rt.alloc(),
        &mut folder,
        words,
        &mut rt.stdin(),
        rt.stdout(),
        &mut rt.stderr(),
    )
    .code
}
