//! What the arguments ask for.
ghost use Rattle.std.specs.Prelude.{IfOk};
ghost use Rattle.trace_player_inside.specs.Tasks.{CanBePlayed};

use crate::limits::{LimitFault, add_limit, limit_of};
use std::alloc::{AllocError, Global};
use std::env::Env;
use std::fmt::Display;
use std::{env, fmt, io};

/// How the trace is to be played.
#[derive(Debug, Drop)]
pub struct Settings {
    /// The limits, in bytes, in the order in which they are given, each once.
    pub limits: Vec<usize>,
    /// The file for the plot.
    pub svg: Option<String>,
    /// Whether each row tells its time.
    pub is_timed: bool,
}

/// What is wrong with the arguments.
#[derive(Debug, Drop)]
pub enum Misuse {
    /// There is no limit.
    NoLimit,
    /// No file stands behind `--svg`.
    NoFile,
    /// A word that begins with `-` is none of the program's.
    Option(String),
    /// A word is no limit.
    Limit(String, LimitFault),
}

impl Misuse {
    // That of a word that is none of the program's.
    fn of_word(word: String, fault: LimitFault) -> Self {
        if word.as_str().starts_with('-') {
            Misuse::Option(word)
        } else {
            Misuse::Limit(word, fault)
        }
    }
}

impl Display for Misuse {
    fn fmt<W: fmt::Write>(&self, f: &mut fmt::Formatter<W>) -> fmt::Result {
        match self {
            Misuse::NoLimit => f.write_str("no limit is given"),
            Misuse::NoFile => f.write_str("--svg: no file is given"),
            Misuse::Option(word) => write!(f, "{word}: there is no such option"),
            Misuse::Limit(word, fault) => write!(f, "{word}: {fault}"),
        }
    }
}

/// What the arguments ask for.
#[derive(Debug, Drop)]
pub enum Asked {
    /// To tell what the program does.
    Help,
    /// To play the trace.
    Play(Settings),
    /// Nothing that the program does.
    Misused(Misuse),
}

/// What the arguments of the program ask for, as `asked_by` has it.
pub(crate) fn asked_of(rt: &(impl Env + AllocGlobal)) -> io::Result<Asked> {
    let mut words = Vec::new(rt.alloc());
    for word in env::args(rt)?.skip(1) {
        words.push(word)?;
    }
    Ok(asked_by(rt.alloc(), words)?)
}

/// What these words ask for. The first one that asks for help, or that is none of the program's, decides.
pub fn asked_by(alloc: Global, words: Vec<String>) -> Result<Asked, AllocError>
    ensures { IfOk result CanBePlayed }
{
    let mut settings = Settings {
        limits: Vec::new(alloc),
        svg: None,
        is_timed: false,
    };
    let mut is_path = false;
    for word in words {
        if is_path {
            settings.svg = Some(word);
            is_path = false;
            continue;
        }
        match word.as_str() {
            "--help" | "-h" => return Ok(Asked::Help),
            "--svg" => is_path = true,
            "--time" => settings.is_timed = true,
            limit => match limit_of(limit.as_bytes()) {
                Ok(limit) => add_limit(&mut settings.limits, limit)?,
                Err(fault) => return Ok(Asked::Misused(Misuse::of_word(word, fault))),
            },
        }
    }
    if is_path {
        return Ok(Asked::Misused(Misuse::NoFile));
    }
    if settings.limits.is_empty() {
        return Ok(Asked::Misused(Misuse::NoLimit));
    }
    Ok(Asked::Play(settings))
}
