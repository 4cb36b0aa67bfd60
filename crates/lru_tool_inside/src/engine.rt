//! The engine: all of the program but where its arguments and its streams come from.
ghost use Rattle.std.specs.Prelude.{◌≡◌, ◌≢◌, ◌↔◌, ◌⊎◌, List, ℕ, Some, None, IfOk, IfSome, IsNone, IsSome, OnErr, OnOk, map, is_some, string_bytes};
ghost use Rattle.std.specs.List.{list_all};
ghost use Rattle.std.specs.Io.Buffered.{writer_contents};
ghost use Rattle.std.specs.Io.KnownBytes.{Appends};
ghost use Rattle.lru_tool_inside.specs.Commands.{commands_of};
ghost use Rattle.lru_tool_inside.specs.Settings.{settings_of};
ghost use Rattle.lru_tool_inside.specs.Replies.{usage_text, error_line_text};
ghost use Rattle.lru_tool_inside.specs.Program.{fresh, memory_text, input_text, WritesFor, Runs, GivesUp};

use crate::command::command_from;
use crate::replies::answer;
use crate::settings::{CoreSettings, settings_from};
use log::Log;
use lru_lines::input::{Input, InputError};
use lru_lines::output::Output;
use lru_lines::parts::first_line;
use lru_lines::pieces::{Piece, write_pieces};
use pingora_lru::lru_core::LruCore;
use pingora_lru_files::persistence::Folder;
use pingora_lru_files::snapshot::Keyed;
use rand::rngs::StdRng;
use rand_core::{Rng, SeedableRng};
use std::alloc::{AllocError, Global};
use std::io;
use std::io::{BufWriter, Write};

const USAGE: &str = "usage: lru_tool LIMIT WATERMARK SEED\n";

// Answers line after line, up to and with a bad one; whether there was none.
fn serve<F: Folder, R: Rng, L: Log, W: Output>(
    core: &mut LruCore<Keyed, 2>,
    folder: &mut F,
    alloc: Global,
    rng: &mut R,
    log: &L,
    input: &[u8],
    writer: &mut W,
) -> io::Result<bool>
    ensures text { OnOk result (WritesFor F.meaning
        (record { core = core.old; folder = folder.old; words = R.stream rng.old })
        (commands_of input.now) (W.contents writer.old) (W.contents writer.new) folder.new) }
    ensures failed { OnErr result (W.has_failed writer.new) }
    ensures good { IfOk result (λ good. good ≡ list_all is_some (commands_of input.now)) }
    ensures kept { F.meaning.keeps folder.old ↔ F.meaning.keeps folder.new }
{
    let mut rest = input;
    let mut number = 0;
    while !rest.is_empty() {
        let (line, behind) = first_line(rest);
        rest = behind;
        number += 1;
        match command_from(line) {
            Some(command) => answer(core, folder, alloc, rng, log, command, writer)?,
            None => {
                write_bad_line(writer, number)?;
                return Ok(false);
            }
        }
    }
    Ok(true)
}

fn write_bad_line<W: Output>(writer: &mut W, number: usize) -> io::Result<()>
    ensures text { OnOk result (Appends (W.contents writer.old) (W.contents writer.new) (error_line_text number)) }
    ensures failed { OnErr result (W.has_failed writer.new) }
{
    write_pieces(
        writer,
        &[
            Piece::Text("error line "),
            Piece::Number(number as u64),
            Piece::Text("\n"),
        ],
    )
}

// Where the input or the core finds no memory. A write that fails has no status of its own.
fn memory_error<W: Output>(writer: &mut W) -> u8
    ensures status { result ≡ 1 }
    ensures text { W.has_failed writer.new ⊎ Appends (W.contents writer.old) (W.contents writer.new) memory_text }
{
    let _ = write_pieces(writer, &[Piece::Text("error memory\n")]);
    1
}

// Where a read fails.
fn input_error<W: Output>(writer: &mut W) -> u8
    ensures status { result ≡ 1 }
    ensures text { W.has_failed writer.new ⊎ Appends (W.contents writer.old) (W.contents writer.new) input_text }
{
    let _ = write_pieces(writer, &[Piece::Text("error input\n")]);
    1
}

/// Reads the whole input, makes the core, and answers one line for each command; the answer is the exit status.
/// A generator made of the seed draws the shards of each `limit` and the words of each `save`. A `save` writes into the
/// folder, a `load` reads it and removes its temp files, and both tell the log how that went.
///
/// Wrong arguments: the usage line, and status 2, before anything is read. A bad line: its error after the
/// replies before it, and status 2. A read that fails: `error input`, and status 1. Input or core that find no memory:
/// `error memory`, and status 1. A write that fails: status 1. Nothing else has that status.
pub fn run<F: Folder, L: Log, R: Input, W: Output>(
    alloc: Global,
    folder: &mut F,
    log: &L,
    arguments: &[String],
    reader: &mut R,
    writer: &mut W,
) -> u8
    ensures usage { settings_of (map string_bytes arguments.now) ≡ None → result ≢ 1 → (result ≡ 2) × Appends (W.contents writer.old) (W.contents writer.new) usage_text }
    ensures unread { settings_of (map string_bytes arguments.now) ≡ None → reader.new ≡ reader.old }
    ensures unmoved { settings_of (map string_bytes arguments.now) ≡ None → folder.new ≡ folder.old }
    ensures served { IfSome (settings_of (map string_bytes arguments.now)) (λ settings. result ≢ 1 → IfSome (R.remaining reader.old) (λ input.
        Runs F.meaning
        settings folder.old (commands_of input) result (W.contents writer.old) (W.contents writer.new) folder.new)) }
    ensures refused { result ≡ 1 → GivesUp (settings_of (map string_bytes arguments.now)) (R.has_failed reader.new) (W.has_failed writer.new) (W.contents writer.old) (W.contents writer.new) }
    ensures kept { F.meaning.keeps folder.old ↔ F.meaning.keeps folder.new }
{
    let Some(settings) = settings_from(arguments) else {
        return match write_pieces(writer, &[Piece::Text(USAGE)]) {
            Ok(()) => 2,
            Err(_) => 1,
        };
    };
    let mut input = Vec::new(alloc);
    match reader.read_all(&mut input) {
        Ok(()) => {}
        Err(InputError::Memory) => return memory_error(writer),
        Err(InputError::Failed) => return input_error(writer),
    }
    let Ok(mut core) = make_core(alloc, settings) else {
        return memory_error(writer);
    };
    let mut rng = StdRng::seed_from_u64(settings.seed);
    match serve(&mut core, folder, alloc, &mut rng, log, &input, writer) {
        Ok(true) => 0,
        Ok(false) => 2,
        Err(_) => 1,
    }
}

fn make_core(alloc: Global, settings: CoreSettings) -> Result<LruCore<Keyed, 2>, AllocError>
    ensures { IfOk result (λ core. core ≡ fresh settings) }
{
    let watermark = match settings.watermark {
        Some(most) => Some(most as usize),
        None => None,
    };
    LruCore::with_capacity_and_watermark(alloc, settings.limit as usize, 0, watermark)
}

/// As `run`, through a buffer: replies are written many at a time. Answers the status, and the writer beneath, which has
/// taken all of them. Where its last write fails the status is 1 and there is no writer; what it took is a beginning of
/// the replies.
pub fn run_buffered<F: Folder, L: Log, R: Input, W: Write + Drop>(
    alloc: Global,
    folder: &mut F,
    log: &L,
    arguments: &[String],
    reader: &mut R,
    writer: BufWriter<W>,
) -> (u8, Option<W>)
    ensures usage { settings_of (map string_bytes arguments.now) ≡ None → result.0 ≢ 1
        → (result.0 ≡ 2) × IfSome result.1 (λ written. Appends (writer_contents W.contents writer) (W.contents written) usage_text) }
    ensures unread { settings_of (map string_bytes arguments.now) ≡ None → reader.new ≡ reader.old }
    ensures unmoved { settings_of (map string_bytes arguments.now) ≡ None → folder.new ≡ folder.old }
    ensures served { IfSome (settings_of (map string_bytes arguments.now)) (λ settings. result.0 ≢ 1 → IfSome (R.remaining reader.old) (λ input.
        IfSome result.1 (λ written. Runs F.meaning
        settings folder.old (commands_of input) result.0 (writer_contents W.contents writer) (W.contents written) folder.new))) }
    ensures whole { result.0 ≢ 1 → IsSome result.1 }
    ensures kept { F.meaning.keeps folder.old ↔ F.meaning.keeps folder.new }
{
    let mut buffered = writer;
    let status = run(alloc, folder, log, arguments, reader, &mut buffered);
    match buffered.into_inner() {
        Ok(written) => (status, Some(written)),
        Err(_) => (1, None),
    }
}
