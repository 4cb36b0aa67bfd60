//! The program `trace_player`: the words `compare`, `sample` and `make`, and all others as `plain_program` has them.

use crate::compared::{Head, HitsRow, TableLine, is_exact, row_of};
use crate::curves::Curves;
use crate::made::{Recipe, keys_of};
use crate::plain_program;
use crate::plain_program::{BadLine, read_into, read_trace};
use crate::player::Request;
use crate::progress::Progress;
use crate::sampling::Sample;
use crate::words::{Asked, Comparison, asked_of};
use std::io::{BufReader, BufWriter, Write};
use std::process::ExitCode;
use std::{env, fs, io};

const USAGES: [&str; 3] = [
    "usage: trace_player compare [--name NAME] [--svg FILE] LIMIT.. < TRACE",
    "usage: trace_player sample RATE LIMIT.. < TRACE",
    "usage: trace_player make zipf|scan|loop|shift|mixed KEYS REQUESTS CACHE SEED",
];

const MORE: [&str; 5] = [
    "compare plays the trace by each policy: lru, fifo, in two segments with shares of a half and four fifths,",
    "with admission by frequency, and the optimum that knows the future.",
    "It writes the shares of hits in percent; where sizes differ, the last one is a bound on what any cache can find.",
    "sample plays an LRU over one key in RATE, from 1 to 10000, and writes the shares of hits in percent with their errors.",
    "make writes a trace of objects of size 1, the same for the same seed.",
];

/// Does what the words ask for, and answers the status. What can't be read or written is told on the standard error, in a
/// line that begins `error: `, and the status is 1; it is 2 where a word is no text in UTF-8.
pub fn run(rt: HostRuntime) -> ExitCode {
    let words = match words_of(rt) {
        Ok(words) => words,
        Err(error) => return fail(rt, &error, 2),
    };
    match answer(rt, &words) {
        Ok(code) => code,
        Err(error) => fail(rt, &error, 1),
    }
}

// Tells an error where it still can be told.
fn fail(rt: HostRuntime, error: &io::Error, status: u8) -> ExitCode {
    let _ = eprint!(rt; "error: {error}\n");
    ExitCode::from(status)
}

// The words behind the program's name.
fn words_of(rt: HostRuntime) -> io::Result<Vec<String>> {
    let mut words = Vec::new(rt.alloc());
    for word in env::args(&rt)?.skip(1) {
        words.push(word)?;
    }
    Ok(words)
}

fn answer(rt: HostRuntime, words: &[String]) -> io::Result<ExitCode> {
    match asked_of(rt.alloc(), words)? {
        Asked::Other => plain_program::run(rt),
        Asked::Help => {
            // (it knows the same word)
            let code = plain_program::run(rt)?;
            tell_more(rt)?;
            Ok(code)
        }
        Asked::HelpMore => {
            tell_more(rt)?;
            Ok(ExitCode::SUCCESS)
        }
        Asked::Make(recipe) => write_trace(rt, &recipe),
        Asked::Compare(comparison) => compare(rt, &comparison),
        Asked::Sample { rate, limits } => sample(rt, rate, &limits),
        Asked::Misused(misuse) => {
            println!(rt; "error: {misuse}")?;
            for usage in USAGES {
                println!(rt; "{usage}")?;
            }
            Ok(ExitCode::from(2))
        }
    }
}

// What `compare`, `sample` and `make` do.
fn tell_more(rt: HostRuntime) -> io::Result<()> {
    for line in USAGES {
        println!(rt; "{line}")?;
    }
    for line in MORE {
        println!(rt; "{line}")?;
    }
    Ok(())
}

fn write_trace(rt: HostRuntime, recipe: &Recipe) -> io::Result<ExitCode> {
    let Ok(keys) = keys_of(rt.alloc(), recipe) else {
        println!(rt; "refused: Memory")?;
        return Ok(ExitCode::from(1));
    };
    let mut output = BufWriter::new(rt.alloc(), io::writer(&rt))?;
    for key in &keys {
        writeln!(output, "{key} 1")?;
    }
    output.flush()?;
    Ok(ExitCode::SUCCESS)
}

fn tell_bad_line(rt: HostRuntime, bad: BadLine) -> io::Result<ExitCode> {
    let BadLine { number, fault } = bad;
    println!(rt; "error line {number}: {fault}")?;
    Ok(ExitCode::from(2))
}

// Reads the trace of standard input, and plays the sample of its keys while it reads.
fn sample(rt: HostRuntime, rate: u64, limits: &[usize]) -> io::Result<ExitCode> {
    let progress = Progress::new(rt);
    let mut input = BufReader::new(rt.alloc(), rt.reader())?;
    let mut sample = Sample::new(rt.alloc(), rate, limits)?;
    let read = read_into(rt, progress, &mut input, &mut sample)?;
    progress.clear(rt);
    if let Err(bad) = read {
        return tell_bad_line(rt, bad);
    }
    println!(rt;
        "{} requests, {} in a sample of one key in {rate}",
        sample.requests, sample.sampled
    )?;
    println!(rt; "limit hits% error%")?;
    for estimate in &sample.estimates(rt.alloc())? {
        println!(rt; "{estimate}")?;
    }
    Ok(ExitCode::SUCCESS)
}

// Reads the trace of standard input, and plays it by each policy under each limit.
fn compare(rt: HostRuntime, comparison: &Comparison) -> io::Result<ExitCode> {
    let progress = Progress::new(rt);
    let mut input = BufReader::new(rt.alloc(), rt.reader())?;
    let read = read_trace(rt, &mut input)?;
    let requests = match read {
        Ok(requests) => requests,
        Err(bad) => return tell_bad_line(rt, bad),
    };
    let name = match &comparison.name {
        Some(name) => name.as_str(),
        None => "trace",
    };
    let Some(rows) = tell_rows(rt, progress, name, &comparison.limits, &requests)? else {
        return Ok(ExitCode::from(1));
    };
    match &comparison.svg {
        Some(path) => draw(rt, path.as_str(), &Curves::new(name, &requests, &rows)),
        None => Ok(ExitCode::SUCCESS),
    }
}

// Writes the table as it comes, and answers its rows, or `None` where one was refused.
fn tell_rows(
    rt: HostRuntime,
    progress: Progress,
    name: &str,
    limits: &[usize],
    requests: &[Request],
) -> io::Result<Option<Vec<HitsRow>>> {
    println!(rt; "{name}: {} requests", requests.len())?;
    let is_exact = is_exact(requests);
    println!(rt; "{}", Head { is_exact })?;
    let mut rows = Vec::new(rt.alloc());
    for limit in limits {
        progress.show(rt, "limit", *limit);
        let played = row_of(rt.alloc(), *limit, requests);
        progress.clear(rt);
        match played {
            Ok(row) => {
                let line = TableLine {
                    row: &row,
                    requests: requests.len(),
                };
                println!(rt; "{line}")?;
                rows.push(row)?;
            }
            Err(refusal) => {
                println!(rt; "{limit}: refused: {refusal:?}")?;
                return Ok(None);
            }
        }
    }
    Ok(Some(rows))
}

// Writes the plot into a file, or where its name is `-` behind the table.
fn draw(rt: HostRuntime, path: &str, curves: &Curves) -> io::Result<ExitCode> {
    if path == "-" {
        print!(rt; "{curves}")?;
        return Ok(ExitCode::SUCCESS);
    }
    let text = format!(in rt.alloc(); "{curves}")?;
    if let Err(error) = fs::write(&rt, path, text.as_str()) {
        println!(rt; "{path}: {error}")?;
        return Ok(ExitCode::from(2));
    }
    Ok(ExitCode::SUCCESS)
}
