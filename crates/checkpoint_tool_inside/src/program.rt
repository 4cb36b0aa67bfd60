//! The program `checkpoint_tool`, over the streams and the folder that it is given.
ghost use Rattle.std.specs.Prelude.{◌≡◌, ◌≢◌, ◌↔◌, drop, Err, IfOk, IfSome, IsSome, MatchResult};
ghost use Rattle.std.specs.IoError.{error_kind};
ghost use Rattle.std.specs.Vec.Iter.{into_iter_items};
ghost use Rattle.std.specs.Process.{exit_status};
ghost use Rattle.checkpoint_tool_inside.specs.Requests.{asked_of, words_error};
ghost use Rattle.checkpoint_tool_inside.specs.Outcomes.{unread_words, LeavesFiles, LeavesWhole, Tells};

use crate::engine::{run_buffered, tell_buffered};
use crate::outcome::Outcome;
use crate::requests::{TaskMisuse, WordsError};
use lru_folder::synced_folder::SyncedFolder;
use lru_lines::input::Input;
use std::alloc::{AllocError, Global};
use std::env::Args;
use std::io;
use std::io::{BufWriter, ErrorKind, Write};
use std::process::ExitCode;

/// How the program ended.
#[derive(Drop)]
pub struct Ended<W> {
    /// What it ends with.
    pub code: ExitCode,
    /// The output, where it has taken all that was written.
    pub written: Option<W>,
}

// The words behind the first one.
fn behind_first(alloc: Global, arguments: Args) -> Result<Vec<String>, AllocError>
    ensures { IfOk result (λ words. words.items ≡ drop 1 (into_iter_items arguments)) }
{
    let mut rest = arguments;
    let _program = rest.next();
    let mut words = Vec::new(alloc);
    'rest: while let Some(word) = rest.next() {
        words.push(word)?;
    }
    Ok(words)
}

// Why the arguments were not read.
fn words_error(error: &io::Error) -> WordsError
    ensures { result ≡ words_error (error_kind error.now) }
{
    match error.kind() {
        ErrorKind::OutOfMemory => WordsError::Memory,
        _ => WordsError::NoText,
    }
}

/// The words after the program's name, of its arguments, or why they were not read.
pub fn words_of(alloc: Global, arguments: io::Result<Args>) -> Result<Vec<String>, WordsError>
    ensures { MatchResult arguments
        (λ arguments. MatchResult result (λ words. words.items ≡ drop 1 (into_iter_items arguments)) (λ error. error ≡ WordsError.Memory))
        (λ error. result ≡ Err (words_error (error_kind error))) }
{
    let arguments = match arguments {
        Err(error) => return Err(words_error(&error)),
        Ok(arguments) => arguments,
    };
    match behind_first(alloc, arguments) {
        Err(_) => Err(WordsError::Memory),
        Ok(words) => Ok(words),
    }
}

// What comes of words that were not read.
fn unread(error: WordsError) -> Outcome
    ensures { result ≡ unread_words error }
{
    match error {
        WordsError::Memory => Outcome::Memory,
        WordsError::NoText => Outcome::Misused(TaskMisuse::NoText),
    }
}

/// Does what the words ask for, or tells why they were not read, and writes what came of it to the output. The status is the one
/// that `engine::run` answers, of 1 where there is no memory for the words. Where the output has not taken all that was
/// written, which is told on the other stream, it is 1.
pub fn run<F: SyncedFolder, R: Input, W: Write + Drop, E: Write>(
    alloc: Global,
    folder: &mut F,
    words: Result<Vec<String>, WordsError>,
    reader: &mut R,
    writer: W,
    errors: &mut E,
) -> Ended<W>
    // What is written, and the status, tell what came of the words.
    ensures told { IfSome result.written (λ written. Tells F.meaning (R.has_failed reader.new) (R.remaining reader.old) (asked_of words)
        folder.old folder.new (exit_status result.code) (W.contents writer) (W.contents written)) }

    // Where the output has not taken all of it, the status is 1.
    ensures written { exit_status result.code ≢ 1 → IsSome result.written }

    ensures files { LeavesFiles F.meaning (asked_of words) folder.old folder.new }
    ensures whole { LeavesWhole F.meaning (R.remaining reader.old) (asked_of words) folder.old folder.new }
    ensures kept { F.meaning.keeps folder.old ↔ F.meaning.keeps folder.new }
{
    let Ok(buffered) = BufWriter::new(alloc, writer) else {
        let _ = errors.write_all(b"failed: out of memory\n");
        let code = ExitCode::from(1);
        let written = None;
        return Ended { code, written };
    };
    let (status, written) = match words {
        Ok(words) => run_buffered(alloc, folder, &words, reader, buffered),
        Err(error) => tell_buffered(&unread(error), buffered),
    };
    if written.is_none() {
        // (where this can't be written either, the status alone tells it)
        let _ = errors.write_all(b"failed: the output was not written\n");
    }
    let code = ExitCode::from(status);
    Ended { code, written }
}
