//! `trace_player [--time] [--svg FILE] LIMIT..`: plays the trace of standard input through a cache under each of these
//! limits, and prints how often it had what was asked for. `trace_player --help` tells that in short.
//!
//! A limit is a number of bytes, at least 1, with `K`, `M`, `G` or no unit behind it; one that is given twice is taken once.
//!
//! A line of the trace is `KEY SIZE` or `TIME KEY SIZE`, or, behind a header with commas, `TIME,KEY,SIZE`. The table has a row
//! for each limit: the share of requests that found their object, the share of the bytes, how many objects were evicted,
//! and with `--time` the milliseconds that it took. Where all sizes are 1, one pass serves all limits, and its time stands in
//! a line of its own. `--svg` also draws the shares into a file. On a terminal a line on standard error says how far it is.
//!
//! `trace_player compare` plays the trace by several policies, `trace_player sample` plays a sample of its keys, and
//! `trace_player make` makes a trace: `trace_player_inside` has these.
//!
//! A bad line, wrong arguments, or a file that can't be written: a line that says so, and status 2. No memory: status 1.
#![tactic(auto)]

use std::process::ExitCode;
use trace_player_inside::program;

fn main(rt: HostRuntime) -> ExitCode {
    program::run(rt)
}
