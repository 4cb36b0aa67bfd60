//! The program `trace_player`. It stands here since two programs of the repository are it: one is tried with a trace that is
//! played under each limit by itself, the other with one that takes one pass.
ghost use Rattle.std.specs.Prelude.{◌≤◌, IfOk, IfErr};
ghost use Rattle.trace_player_inside.specs.Traces.{AreOfSizeOne};

use crate::help::{HELP, USAGE};
use crate::one_pass::{are_of_size_one, play_all};
use crate::player::{Request, Tally, play};
use crate::plot::{CountedUnit, Plot};
use crate::progress::Progress;
use crate::requests::{LineFault, read_line};
use crate::settings::{Asked, Settings, asked_of};
use crate::table::{byte_hit_ratio, hit_ratio};
use std::alloc::AllocError;
use std::io::{BufRead, BufReader};
use std::process::ExitCode;
use std::time::Instant;
use std::{fs, io};

// How many lines are read between two writes of the line of progress.
const LINES_A_STEP: u64 = 1000000;

/// The first line of an input that is no request.
#[derive(Clone, Copy, Debug, PartialEq, Eq)]
pub struct BadLine {
    /// Its number, from 1 on.
    pub number: u64,
    /// What is wrong with it.
    pub fault: LineFault,
}

/// What is handed the requests of a trace, one after another.
pub trait Takes {
    /// Takes a request.
    ///
    /// # Errors
    ///
    /// There is no memory for what has to be kept of it.
    fn take(&mut self, request: Request) -> Result<(), AllocError>;
}

impl Takes for Vec<Request> {
    fn take(&mut self, request: Request) -> Result<(), AllocError> {
        self.push(request)?;
        Ok(())
    }
}

/// Hands over the requests of an input up to its first bad line, which is answered. The first line tells the format, as
/// `read_line` has it.
pub(crate) fn read_into<R: BufRead, T: Takes>(
    rt: HostRuntime,
    progress: Progress,
    input: &mut R,
    to: &mut T,
) -> io::Result<Result<(), BadLine>>
    ensures { IfOk result (λ read. IfErr read (λ bad. 1 ≤ bad.number)) }
{
    let mut line = Vec::new(rt.alloc());
    let mut format = None;
    for number in 1..u64::MAX {
        line.clear();
        if input.read_until(b'\n', &mut line)? == 0 {
            break;
        }
        match read_line(format, &line) {
            Ok((told, request)) => {
                format = Some(told);
                if let Some(request) = request {
                    to.take(request)?;
                }
            }
            Err(fault) => return Ok(Err(BadLine { number, fault })),
        }
        if number % LINES_A_STEP == 0 {
            progress.show(rt, "requests read:", number as usize);
        }
    }
    Ok(Ok(()))
}

/// The requests of an input, or its first bad line, as `read_into` has it.
pub fn read_trace<R: BufRead>(
    rt: HostRuntime,
    input: &mut R,
) -> io::Result<Result<Vec<Request>, BadLine>>
    ensures { IfOk result (λ read. IfErr read (λ bad. 1 ≤ bad.number)) }
{
    let progress = Progress::new(rt);
    let mut requests = Vec::new(rt.alloc());
    let read = read_into(rt, progress, input, &mut requests)?;
    progress.clear(rt);
    match read {
        Ok(()) => Ok(Ok(requests)),
        Err(bad) => Ok(Err(bad)),
    }
}

fn print_head(rt: HostRuntime, is_timed: bool) -> io::Result<()> {
    let time = if is_timed { " milliseconds" } else { "" };
    println!(rt; "limit hits% bytes% evictions{time}")
}

/// Prints what a limit made of the trace, and no end of the line.
fn print_row(rt: HostRuntime, limit: usize, tally: &Tally) -> io::Result<()> {
    let (hits, bytes) = (hit_ratio(tally), byte_hit_ratio(tally));
    print!(rt; "{limit} {hits} {bytes} {}", tally.evictions)
}

/// Plays the trace under each limit, and prints a row for each; `None` where one found no memory.
fn play_each(
    rt: HostRuntime,
    progress: Progress,
    settings: &Settings,
    requests: &[Request],
) -> io::Result<Option<Vec<(usize, Tally)>>> {
    print_head(rt, settings.is_timed)?;
    let mut rows = Vec::new(rt.alloc());
    for (place, limit) in settings.limits.iter().enumerate() {
        progress.show_place(rt, "limit", place + 1, settings.limits.len());
        let start = Instant::now(&rt)?;
        let played = play(rt.alloc(), *limit, requests);
        let time = start.elapsed(&rt)?.as_millis();
        progress.clear(rt);
        let tally = match played {
            Ok(tally) => tally,
            Err(cause) => {
                println!(rt; "{limit}: refused: {cause:?}")?;
                return Ok(None);
            }
        };
        print_row(rt, *limit, &tally)?;
        if settings.is_timed {
            print!(rt; " {time}")?;
        }
        println!(rt; "")?;
        rows.push((*limit, tally))?;
    }
    Ok(Some(rows))
}

/// Plays the trace under all limits in one pass, and prints a row for each; `None` where there is no memory.
fn play_at_once(
    rt: HostRuntime,
    progress: Progress,
    settings: &Settings,
    requests: &[Request],
) -> io::Result<Option<Vec<(usize, Tally)>>>
    requires { AreOfSizeOne requests.now }
{
    print_head(rt, false)?;
    progress.show(rt, "limits in one pass:", settings.limits.len());
    let start = Instant::now(&rt)?;
    let played = play_all(rt.alloc(), &settings.limits, requests);
    let time = start.elapsed(&rt)?.as_millis();
    progress.clear(rt);
    let Ok(tallies) = played else {
        println!(rt; "refused: Memory")?;
        return Ok(None);
    };
    let mut rows = Vec::new(rt.alloc());
    for (limit, tally) in settings.limits.iter().zip(&tallies) {
        print_row(rt, *limit, tally)?;
        println!(rt; "")?;
        rows.push((*limit, *tally))?;
    }
    if settings.is_timed {
        println!(rt; "{time} milliseconds")?;
    }
    Ok(Some(rows))
}

fn print_help(rt: HostRuntime) -> io::Result<()> {
    for line in HELP {
        println!(rt; "{line}")?;
    }
    Ok(())
}

/// Does what the arguments ask for: tells what the program does, or plays the trace of standard input.
/// The status is 2 for a bad line, bad arguments, and a file that can't be written, and 1 where there is no memory.
pub fn run(rt: HostRuntime) -> io::Result<ExitCode> {
    match asked_of(&rt)? {
        Asked::Help => print_help(rt)?,
        Asked::Play(settings) => return play_input(rt, &settings),
        Asked::Misused(misuse) => {
            println!(rt; "error: {misuse}")?;
            println!(rt; "{USAGE} (--help tells more)")?;
            return Ok(ExitCode::from(2));
        }
    }
    Ok(ExitCode::SUCCESS)
}

// Reads the trace of standard input, plays it under the limits, prints the table, and draws the plot.
fn play_input(rt: HostRuntime, settings: &Settings) -> io::Result<ExitCode> {
    let progress = Progress::new(rt);
    let mut input = BufReader::new(rt.alloc(), rt.reader())?;
    let read = read_trace(rt, &mut input)?;
    let requests = match read {
        Ok(requests) => requests,
        Err(BadLine { number, fault }) => {
            println!(rt; "error line {number}: {fault}")?;
            return Ok(ExitCode::from(2));
        }
    };
    println!(rt; "{} requests", requests.len())?;
    let (played, counted) = if are_of_size_one(&requests) {
        let played = play_at_once(rt, progress, settings, &requests)?;
        (played, CountedUnit::Objects)
    } else {
        let played = play_each(rt, progress, settings, &requests)?;
        (played, CountedUnit::Bytes)
    };
    let Some(mut rows) = played else {
        return Ok(ExitCode::from(1));
    };
    if let Some(path) = &settings.svg {
        let text = format!(in rt.alloc(); "{}", Plot::new(&mut rows, counted))?;
        return draw(rt, path, text.as_str());
    }
    Ok(ExitCode::SUCCESS)
}

// Writes a plot into a file, or where its name is `-` behind the table.
fn draw(rt: HostRuntime, path: &str, text: &str) -> io::Result<ExitCode> {
    if path == "-" {
        print!(rt; "{text}")?;
        return Ok(ExitCode::SUCCESS);
    }
    if let Err(error) = fs::write(&rt, path, text) {
        println!(rt; "{path}: {error}")?;
        return Ok(ExitCode::from(2));
    }
    Ok(ExitCode::SUCCESS)
}
