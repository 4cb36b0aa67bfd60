//! Example: answers that are worked out once, and a proof that stands on what the cache promises.
//!
//! Each line of the input is a number, and its check is written: the CRC-64 of its eight bytes, the lowest first. At most so many
//! checks are kept as the first argument says. Where a line is no number, a line says so, and the status is 2.
#![tactic(auto)]

ghost use Rattle.std.specs.Prelude.{◌≡◌};
ghost use Rattle.example_memo.specs.Answers.{check_of};

mod memo;

use lru_frames::crc64;
use memo::{Memo, Work};
use std::process::ExitCode;
use std::{env, io};

/// Works checks out.
#[derive(Clone, Copy)]
struct Checks;

impl Work for Checks {
    ghost outcome = { check_of };

    fn work_out(&self, key: u64) -> u64 {
        crc64(&key.to_le_bytes())
    }
}

/// The numbers of the input, or nothing where a line is none.
fn read_keys(rt: HostRuntime) -> io::Result<Option<Vec<u64>>> {
    let mut keys = Vec::new(rt.alloc());
    for line in rt.lines(rt.alloc()) {
        let Ok(key) = line?.as_str().parse() else {
            return Ok(None);
        };
        keys.push(key)?;
    }
    Ok(Some(keys))
}

fn main(rt: HostRuntime) -> io::Result<ExitCode> {
    let mut words = env::args(&rt)?.skip(1);
    let Some(most) = words.next().and_then(|word| word.parse().ok()) else {
        println!(rt; "usage: example_memo MOST")?;
        return Ok(ExitCode::from(2));
    };
    let Some(keys) = read_keys(rt)? else {
        println!(rt; "error: not a number")?;
        return Ok(ExitCode::from(2));
    };
    let mut memo = Memo::new(rt.alloc(), Checks, most)?;
    let checks = memo.ask_all(rt.alloc(), &keys)?;
    for (key, check) in keys.iter().zip(&checks) {
        println!(rt; "{key}: {check:016x}")?;
    }
    println!(rt; "{} kept", memo.len())?;
    Ok(ExitCode::SUCCESS)
}
