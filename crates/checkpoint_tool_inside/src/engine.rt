//! The engine: all of the program but where its words and its streams come from.
ghost use Rattle.std.specs.Prelude.{◌≡◌, ◌↔◌, ◌≢◌, map, string_bytes, IfOk, IfSome, IsSome, OnErr};
ghost use Rattle.std.specs.Io.Buffered.{writer_contents};
ghost use Rattle.std.specs.Io.KnownBytes.{Appends};
ghost use Rattle.checkpoint_tool_inside.specs.Requests.{asked, request_of, IsPossible};
ghost use Rattle.checkpoint_tool_inside.specs.Texts.{outcome_text, status_of};
ghost use Rattle.checkpoint_tool_inside.specs.Outcomes.{ComesOf, LeavesFiles, LeavesWhole, Tells};

use crate::checking::{check, show, show_before};
use crate::outcome::Outcome;
use crate::requests::{Task, request_from};
use crate::saving::save_input;
use crate::texts::write_outcome;
use lru_folder::synced_folder::SyncedFolder;
use lru_lines::input::Input;
use lru_lines::output::Output;
use std::alloc::Global;
use std::io;
use std::io::{BufWriter, Write};

// What comes of a request.
fn outcome_of<F: SyncedFolder, R: Input>(
    alloc: Global,
    folder: &mut F,
    request: Task<'_>,
    reader: &mut R,
) -> Outcome
    requires { IsPossible (asked request) }
    ensures outcome { ComesOf F.meaning (R.has_failed reader.new) (R.remaining reader.old) (asked request.entry) folder.old folder.new result }
    ensures files { LeavesFiles F.meaning (asked request.entry) folder.old folder.new }
    ensures whole { LeavesWhole F.meaning (R.remaining reader.old) (asked request.entry) folder.old folder.new }
    ensures kept { F.meaning.keeps folder.old ↔ F.meaning.keeps folder.new }
{
    match request {
        Task::Help => Outcome::Helped,
        Task::Misused(misuse) => Outcome::Misused(misuse),
        Task::Save { dir, file_name } => save_input(alloc, folder, dir, file_name, reader),
        Task::Show { dir, file_name } => show(alloc, folder, dir, file_name),
        Task::ShowBefore { dir, file_name } => show_before(alloc, folder, dir, file_name),
        Task::Check { dir, file_name } => check(alloc, folder, dir, file_name),
    }
}

/// Does what the words ask for, writes what came of it, and answers the exit status: 0 where all was done and each checkpoint
/// is whole, 2 for wrong words or a bad line, and else 1.
///
/// `save` reads the whole input before it saves anything; the other commands read none of it, and leave all files as they
/// are. An error is a write that failed; a beginning of the text was written, and a checkpoint that was saved stays.
pub fn run<F: SyncedFolder, R: Input, W: Output>(
    alloc: Global,
    folder: &mut F,
    words: &[String],
    reader: &mut R,
    writer: &mut W,
) -> io::Result<u8>
    // What is written, and the status, tell what came of the request.
    ensures told { IfOk result (λ status. Tells F.meaning (R.has_failed reader.new) (R.remaining reader.old) (request_of (map string_bytes words.now))
        folder.old folder.new status (W.contents writer.old) (W.contents writer.new)) }

    // A request that saves nothing leaves the files.
    ensures files { LeavesFiles F.meaning (request_of (map string_bytes words.now)) folder.old folder.new }

    // A stop, and a loss of power, at any moment of a save leaves the newest whole checkpoint, and beside it that of the rows or none.
    ensures whole { LeavesWhole F.meaning (R.remaining reader.old) (request_of (map string_bytes words.now)) folder.old folder.new }

    ensures failed { OnErr result (W.has_failed writer.new) }
    ensures kept { F.meaning.keeps folder.old ↔ F.meaning.keeps folder.new }
{
    let outcome = outcome_of(alloc, folder, request_from(words), reader);
    write_outcome(writer, &outcome)?;
    Ok(outcome.status())
}

/// Writes what came of a request through a buffer. Answers the status, and the writer beneath, which has taken all that was
/// written. Where a write fails the status is 1 and there is no writer; what it took is a beginning of the text.
pub fn tell_buffered<W: Write + Drop>(outcome: &Outcome, writer: BufWriter<W>) -> (u8, Option<W>)
    ensures told { IfSome result.1 (λ written. (result.0 ≡ status_of outcome.now)
        × Appends (writer_contents W.contents writer) (W.contents written) (outcome_text outcome.now)) }
    ensures written { result.0 ≢ 1 → IsSome result.1 }
{
    let mut buffered = writer;
    let Ok(()) = write_outcome(&mut buffered, outcome) else {
        return (1, None);
    };
    match buffered.into_inner() {
        Ok(written) => (outcome.status(), Some(written)),
        Err(_) => (1, None),
    }
}

/// As `run`, through a buffer. Answers the status, and the writer beneath, which has taken all that was written. Where a write
/// fails the status is 1 and there is no writer; what it took is a beginning of the text.
pub fn run_buffered<F: SyncedFolder, R: Input, W: Write + Drop>(
    alloc: Global,
    folder: &mut F,
    words: &[String],
    reader: &mut R,
    writer: BufWriter<W>,
) -> (u8, Option<W>)
    ensures told { IfSome result.1 (λ written. Tells F.meaning (R.has_failed reader.new) (R.remaining reader.old) (request_of (map string_bytes words.now))
        folder.old folder.new result.0 (writer_contents W.contents writer) (W.contents written)) }
    ensures files { LeavesFiles F.meaning (request_of (map string_bytes words.now)) folder.old folder.new }
    ensures whole { LeavesWhole F.meaning (R.remaining reader.old) (request_of (map string_bytes words.now)) folder.old folder.new }
    ensures written { result.0 ≢ 1 → IsSome result.1 }
    ensures kept { F.meaning.keeps folder.old ↔ F.meaning.keeps folder.new }
{
    let outcome = outcome_of(alloc, folder, request_from(words), reader);
    tell_buffered(&outcome, writer)
}
