//! The program `lru_tool`. It stands here since two programs of the repository are it: one is tried with an input that ends
//! well, the other with one that is stopped at a bad line, so that both statuses are seen.

use crate::arguments;
use crate::engine::run_buffered;
use log::sink::Console;
use pingora_lru_files::persistence::HostFolder;
use std::env;
use std::io::BufWriter;
use std::process::ExitCode;

/// What `--help` writes.
static HELP: [&str; 12] = [
    "lru_tool answers the lines of its standard input from an order of least recent use, of two shards.",
    "usage: lru_tool LIMIT WATERMARK SEED",
    "  LIMIT         the most weight, WATERMARK the most rows or -, SEED a number that the draws of evictions come from",
    "  --help        writes this text",
    "A line is one of these; K is a key, V a number kept with it, W a weight, S a shard, 0 or 1:",
    "  admit K V W, tail K V W       puts a row first, or last where K has none",
    "  promote K, top K T, peek K, peekw K, lru S    uses or looks at a row",
    "  incr K V D M, update K V D, setw K W          changes a weight, by D up to M or -, or to W",
    "  remove K, evict S, step A B, limit            takes rows out: K's, the last of S, one while over, all that is too much",
    "  setlimit W, list S, total     sets the limit, lists a shard, tells the sums",
    "  save DIR FILE, load DIR FILE  writes the shards into files, and reads them",
    "Each line is answered by one; the first line that is none of these ends the run: error line N, and status 2.",
];

fn is_help(words: &[String]) -> bool {
    words.len() == 1 && words.iter().all(|word| word.as_str() == "--help")
}

fn help(rt: HostRuntime) -> ExitCode {
    for line in &HELP {
        if println!(rt; "{line}").is_err() {
            return ExitCode::from(1);
        }
    }
    ExitCode::SUCCESS
}

/// Answers the lines of standard input with the words that the program was called with; of `--help` alone it tells them, and reads nothing. Where the words or the buffer find no
/// memory it writes `error memory`, and the status is 1.
pub fn run(rt: HostRuntime) -> ExitCode {
    let Ok(words) = arguments::words_of(rt.alloc(), env::args(&rt)) else {
        return no_memory(rt);
    };
    if is_help(&words) {
        return help(rt);
    }
    let Ok(writer) = BufWriter::new(rt.alloc(), rt.stdout()) else {
        return no_memory(rt);
    };
    let mut folder = HostFolder::new(rt);
    let (status, _) = run_buffered(
        rt.alloc(),
        &mut folder,
        &Console(rt),
        &words,
        &mut rt.stdin(),
        writer,
    );
    ExitCode::from(status)
}

fn no_memory(rt: HostRuntime) -> ExitCode {
    let _ = println!(rt; "error memory");
    ExitCode::from(1)
}
