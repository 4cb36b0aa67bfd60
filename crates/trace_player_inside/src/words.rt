//! What the words of the program ask for, beside what `settings` knows.
ghost use Rattle.std.specs.Prelude.{IfOk};
ghost use Rattle.trace_player_inside.specs.Tasks.{CanBeDone};

use crate::limits::{LimitFault, add_limit, limit_of};
use crate::made::{Kind, Recipe};
use crate::numbers::number_from;
use crate::sampling::MOST_RATE;
use std::alloc::{AllocError, Global};
use std::fmt;
use std::fmt::Display;

/// How a trace is to be compared.
#[derive(Debug, Drop)]
pub struct Comparison {
    /// The limits, in the order in which they are given, each once.
    pub limits: Vec<usize>,
    /// What the trace is called.
    pub name: Option<String>,
    /// The file for the plot.
    pub svg: Option<String>,
}

/// What words ask for.
#[derive(Debug, Drop)]
pub enum Asked {
    /// To tell what the program does.
    Help,
    /// To tell what `compare` and `make` do.
    HelpMore,
    /// To write a trace.
    Make(Recipe),
    /// To play a trace by each policy.
    Compare(Comparison),
    /// To play an LRU over a sample of a trace's keys.
    Sample {
        /// One key in so many is in the sample, from 1 to `MOST_RATE`.
        rate: u64,
        /// The limits, in the order in which they are given, each once.
        limits: Vec<usize>,
    },
    /// What `settings` knows.
    Other,
    /// Nothing that the program does.
    Misused(Misuse),
}

/// What is wrong with the words.
#[derive(Debug, Drop)]
pub enum Misuse {
    /// There is no limit.
    NoLimit,
    /// A word that has to have another behind it has none.
    Alone(String),
    /// There is no such option.
    Option(String),
    /// A word is no limit.
    Limit(String, LimitFault),
    /// There is no rate.
    NoRate,
    /// A word is no rate.
    Rate(String),
    /// Behind `make` stand more or fewer words than five.
    Count,
    /// There is no such kind of trace.
    Kind(String),
    /// A word is to be a number, and is none.
    Number(String),
}

impl Display for Misuse {
    fn fmt<W: fmt::Write>(&self, f: &mut fmt::Formatter<W>) -> fmt::Result {
        match self {
            Misuse::NoLimit => f.write_str("no limit is given"),
            Misuse::Alone(word) => write!(f, "{word}: nothing stands behind it"),
            Misuse::Option(word) => write!(f, "{word}: there is no such option"),
            Misuse::Limit(word, fault) => write!(f, "{word}: {fault}"),
            Misuse::NoRate => f.write_str("sample: a rate has to stand behind it"),
            Misuse::Rate(word) => write!(f, "{word}: a rate is a number from 1 to {MOST_RATE}"),
            Misuse::Count => f.write_str(
                "make: KIND KEYS REQUESTS CACHE SEED have to stand behind it",
            ),
            Misuse::Kind(word) => write!(f, "{word}: a kind is zipf, scan, loop, shift or mixed"),
            Misuse::Number(word) => write!(f, "{word}: it has to be a number"),
        }
    }
}

/// What these words, those behind the program's name, ask for. The first that is none of the program's decides.
///
/// # Errors
///
/// There is no memory.
pub fn asked_of(alloc: Global, words: &[String]) -> Result<Asked, AllocError>
    ensures { IfOk result CanBeDone }
{
    let Some((first, rest)) = words.split_first() else {
        return Ok(Asked::Other);
    };
    match first.as_str() {
        "make" => make_of(alloc, rest),
        "compare" => compare_of(alloc, rest),
        "sample" => sample_of(alloc, rest),
        "--help" | "-h" => Ok(Asked::Help),
        _ => Ok(Asked::Other),
    }
}

fn kind_of(word: &str) -> Option<Kind> {
    match word {
        "zipf" => Some(Kind::Zipf),
        "scan" => Some(Kind::Scan),
        "loop" => Some(Kind::Loop),
        "shift" => Some(Kind::Shift),
        "mixed" => Some(Kind::Mixed),
        _ => None,
    }
}

fn make_of(alloc: Global, words: &[String]) -> Result<Asked, AllocError>
    ensures { IfOk result CanBeDone }
{
    let [kind, numbers @ ..] = words else {
        return Ok(Asked::Misused(Misuse::Count));
    };
    if numbers.len() != 4 {
        return Ok(Asked::Misused(Misuse::Count));
    }
    let Some(known) = kind_of(kind.as_str()) else {
        return Ok(Asked::Misused(Misuse::Kind(copy_of(alloc, kind)?)));
    };
    let mut read = Vec::with_capacity(alloc, 4)?;
    for word in numbers {
        match number_from(word.as_bytes()) {
            Ok(number) => read.push(number)?,
            Err(_) => return Ok(Asked::Misused(Misuse::Number(copy_of(alloc, word)?))),
        }
    }
    let [keys, requests, cache, seed] = read.as_slice() else {
        return Ok(Asked::Misused(Misuse::Count));
    };
    Ok(Asked::Make(Recipe {
        kind: known,
        keys: *keys as usize,
        requests: *requests as usize,
        cache: *cache as usize,
        seed: *seed,
    }))
}

fn copy_of(alloc: Global, word: &String) -> Result<String, AllocError> {
    String::from_str(alloc, word.as_str())
}

// The words of `sample`: a rate, and limits.
fn sample_of(alloc: Global, words: &[String]) -> Result<Asked, AllocError>
    ensures { IfOk result CanBeDone }
{
    let Some((word, rest)) = words.split_first() else {
        return Ok(Asked::Misused(Misuse::NoRate));
    };
    let rate = match number_from(word.as_bytes()) {
        Ok(rate) if rate >= 1 && rate <= MOST_RATE => rate,
        _ => return Ok(Asked::Misused(Misuse::Rate(copy_of(alloc, word)?))),
    };
    let mut limits = Vec::new(alloc);
    for word in rest {
        if let Some(misuse) = take_limit(alloc, &mut limits, word)? {
            return Ok(Asked::Misused(misuse));
        }
    }
    if limits.is_empty() {
        return Ok(Asked::Misused(Misuse::NoLimit));
    }
    Ok(Asked::Sample { rate, limits })
}

// Puts a limit behind these, but for one that is among them. What is wrong with a word that is no limit is answered.
fn take_limit(
    alloc: Global,
    limits: &mut Vec<usize>,
    word: &String,
) -> Result<Option<Misuse>, AllocError> {
    match limit_of(word.as_bytes()) {
        Ok(limit) => {
            add_limit(limits, limit)?;
            Ok(None)
        }
        Err(fault) => Ok(Some(misuse_of(copy_of(alloc, word)?, fault))),
    }
}

fn compare_of(alloc: Global, words: &[String]) -> Result<Asked, AllocError>
    ensures { IfOk result CanBeDone }
{
    let mut comparison = Comparison {
        limits: Vec::new(alloc),
        name: None,
        svg: None,
    };
    let mut words = words.iter();
    while let Some(word) = words.next() {
        match word.as_str() {
            "--help" | "-h" => return Ok(Asked::HelpMore),
            "--svg" => match words.next() {
                Some(path) => comparison.svg = Some(copy_of(alloc, path)?),
                None => return Ok(Asked::Misused(Misuse::Alone(copy_of(alloc, word)?))),
            },
            "--name" => match words.next() {
                Some(name) => comparison.name = Some(copy_of(alloc, name)?),
                None => return Ok(Asked::Misused(Misuse::Alone(copy_of(alloc, word)?))),
            },
            _ => {
                if let Some(misuse) = take_limit(alloc, &mut comparison.limits, word)? {
                    return Ok(Asked::Misused(misuse));
                }
            }
        }
    }
    if comparison.limits.is_empty() {
        return Ok(Asked::Misused(Misuse::NoLimit));
    }
    Ok(Asked::Compare(comparison))
}

// That of a word that is none of the program's.
fn misuse_of(word: String, fault: LimitFault) -> Misuse {
    if word.as_str().starts_with('-') {
        Misuse::Option(word)
    } else {
        Misuse::Limit(word, fault)
    }
}
