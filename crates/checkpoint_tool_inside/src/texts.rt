//! What the program writes: the text of an outcome. It takes no memory.
ghost use Rattle.std.specs.Prelude.{◌≡◌, ◌++◌, OnErr, OnOk};
ghost use Rattle.std.specs.List.{flat_map};
ghost use Rattle.std.specs.Io.KnownBytes.{Appends};
ghost use Rattle.lru_folder.specs.TextsFault.{fault_text};
ghost use Rattle.lru_frames.specs.Errors.{part_text};
ghost use Rattle.lru_generations.specs.Texts.{file_text, error_text};
ghost use Rattle.checkpoint_tool_inside.specs.Texts.{heading, line, refusal_text, misuse_text, row_line, generation_line, left_line, left_text, rows_text, saved_text, damaged_text, passed_line, passed_text, told_text, no_checkpoint_text, checked_text, shown_text, bad_line_text, outcome_text, help_text};

use crate::outcome::{Outcome, Verdict, verdict_of};
use crate::requests::TaskMisuse;
use lru_folder::fault::FolderFault;
use lru_frames::errors::Part;
use lru_frames::row::Row;
use lru_generations::errors::{CheckpointError, CheckpointFile};
use lru_generations::generation_checks::FoundGeneration;
use lru_generations::newest::Passed;
use lru_generations::newest_loading::{Checkpoint, Loaded};
use lru_lines::output::Output;
use lru_lines::pieces::{Piece, write_pieces};
use std::io;

const ABOUT: &str =
    "checkpoint_tool saves, shows and checks checkpoints of rows: whole, or refused.\n";

const SAVE: &str =
    "save DIR FILE   saves the rows of the input as the next checkpoint, KEY VALUE WEIGHT a line, last used last\n";

const SHOW: &str =
    "show DIR FILE   writes the rows of the newest whole checkpoint, most recent first, shard by shard\n";

const BEFORE: &str = "show --before DIR FILE  writes those of the next whole one below it\n";

const CHECK: &str =
    "check DIR FILE  tells of each generation in the folder whether it is whole, highest first\n";

const DAMAGE: &str =
    "A generation that is damaged is passed over; its files stay until a newer checkpoint is kept.\n";

fn fault_text(fault: FolderFault) -> &'static str
    ensures { result.now ≡ fault_text fault }
{
    match fault {
        FolderFault::NotFound => "not found",
        FolderFault::Memory => "out of memory",
        FolderFault::Io => "input or output failed",
    }
}

fn part_text(part: Part) -> &'static str
    ensures { result.now ≡ part_text part }
{
    match part {
        Part::Length => "length",
        Part::Magic => "magic",
        Part::Version => "version",
        Part::Check => "check",
        Part::Header => "header",
        Part::Rows => "rows",
    }
}

fn heading(error: &CheckpointError) -> &'static str
    ensures { result.now ≡ heading error.now }
{
    match error {
        CheckpointError::Memory => "failed: ",
        CheckpointError::Folder { .. } => "failed: ",
        CheckpointError::Missing { .. } => "damaged: ",
        CheckpointError::Damaged { .. } => "damaged: ",
        CheckpointError::Other { .. } => "damaged: ",
        CheckpointError::LastGeneration => "failed: ",
        CheckpointError::InUse => "failed: ",
    }
}

fn misuse_text(misuse: TaskMisuse) -> &'static str
    ensures { result.now ≡ misuse_text misuse }
{
    match misuse {
        TaskMisuse::Words => "error: these are not as many words as a command has\n",
        TaskMisuse::Command => "error: no such command\n",
        TaskMisuse::FileName => "error: the name of the file has a slash\n",
        TaskMisuse::NoFolder => "error: the name of the folder is empty\n",
        TaskMisuse::NoFile => "error: the name of the file is empty\n",
        TaskMisuse::NoText => "error: a word is no text in UTF-8\n",
    }
}

fn write_file<W: Output>(writer: &mut W, file: CheckpointFile) -> io::Result<()>
    ensures text { OnOk result (Appends (W.contents writer.old) (W.contents writer.new) (file_text file)) }
    ensures failed { OnErr result (W.has_failed writer.new) }
{
    match file {
        CheckpointFile::Manifest => write_pieces(writer, &[Piece::Text("manifest")]),
        CheckpointFile::Shard(shard) => write_pieces(
            writer,
            &[Piece::Text("shard "), Piece::Number(shard)],
        ),
        CheckpointFile::Names => write_pieces(writer, &[Piece::Text("folder")]),
    }
}

// A file, and what is told of it.
fn write_of_file<W: Output>(
    writer: &mut W,
    file: CheckpointFile,
    what: &str,
    more: &str,
) -> io::Result<()>
    ensures text { OnOk result (Appends (W.contents writer.old) (W.contents writer.new) (file_text file ++ what.now ++ more.now)) }
    ensures failed { OnErr result (W.has_failed writer.new) }
{
    write_file(writer, file)?;
    write_pieces(writer, &[Piece::Text(what), Piece::Text(more)])
}

fn write_error<W: Output>(writer: &mut W, error: CheckpointError) -> io::Result<()>
    ensures text { OnOk result (Appends (W.contents writer.old) (W.contents writer.new) (error_text error)) }
    ensures failed { OnErr result (W.has_failed writer.new) }
{
    match error {
        CheckpointError::Memory => write_pieces(writer, &[Piece::Text("out of memory")]),
        CheckpointError::Folder { file, fault } => {
            write_of_file(writer, file, ": ", fault_text(fault.source))
        }
        CheckpointError::Missing { file } => write_of_file(writer, file, ": ", "not there"),
        CheckpointError::Damaged { file, part } => {
            write_of_file(writer, file, ": damaged ", part_text(part))
        }
        CheckpointError::Other { file } => {
            write_of_file(writer, file, ": ", "of another checkpoint")
        }
        CheckpointError::LastGeneration => {
            write_pieces(writer, &[Piece::Text("no generation is left")])
        }
        CheckpointError::InUse => write_pieces(
            writer,
            &[Piece::Text("another save is at work in the folder")],
        ),
    }
}

// The line of a checkpoint that was not saved or not loaded.
fn write_refusal<W: Output>(writer: &mut W, error: &CheckpointError) -> io::Result<()>
    ensures text { OnOk result (Appends (W.contents writer.old) (W.contents writer.new) (refusal_text error.now)) }
    ensures failed { OnErr result (W.has_failed writer.new) }
{
    write_pieces(writer, &[Piece::Text(heading(error))])?;
    write_error(writer, *error)?;
    write_pieces(writer, &[Piece::Text("\n")])
}

// Why a generation is not whole, to the end of its line.
fn write_reason<W: Output>(writer: &mut W, error: CheckpointError) -> io::Result<()>
    ensures text { OnOk result (Appends (W.contents writer.old) (W.contents writer.new) (line (error_text error))) }
    ensures failed { OnErr result (W.has_failed writer.new) }
{
    write_error(writer, error)?;
    write_pieces(writer, &[Piece::Text("\n")])
}

// The line of a generation that is not whole.
fn write_damaged<W: Output>(
    writer: &mut W,
    generation: u64,
    error: CheckpointError,
) -> io::Result<()>
    ensures text { OnOk result (Appends (W.contents writer.old) (W.contents writer.new) (damaged_text generation error)) }
    ensures failed { OnErr result (W.has_failed writer.new) }
{
    write_pieces(
        writer,
        &[
            Piece::Text("generation "),
            Piece::Number(generation),
            Piece::Text(" damaged: "),
        ],
    )?;
    write_reason(writer, error)
}

fn write_passed_line<W: Output>(writer: &mut W, passed: &Passed) -> io::Result<()>
    ensures text { OnOk result (Appends (W.contents writer.old) (W.contents writer.new) (passed_line passed.now)) }
    ensures failed { OnErr result (W.has_failed writer.new) }
{
    write_damaged(writer, passed.generation, passed.error)
}

// A line for each generation that was passed over.
fn write_passed<W: Output>(writer: &mut W, passed: &[Passed]) -> io::Result<()>
    ensures text { OnOk result (Appends (W.contents writer.old) (W.contents writer.new) (passed_text passed.now)) }
    ensures failed { OnErr result (W.has_failed writer.new) }
{
    for one in passed {
        write_passed_line(writer, one)?;
    }
    Ok(())
}

// The line of a generation.
fn write_told<W: Output>(writer: &mut W, told: &FoundGeneration) -> io::Result<()>
    ensures text { OnOk result (Appends (W.contents writer.old) (W.contents writer.new) (told_text told.now)) }
    ensures failed { OnErr result (W.has_failed writer.new) }
{
    let generation = told.generation;
    let what = match verdict_of(told) {
        Verdict::Whole => " whole\n",
        Verdict::Unfinished => " unfinished\n",
        Verdict::Damaged(error) => return write_damaged(writer, generation, error),
    };
    write_pieces(
        writer,
        &[
            Piece::Text("generation "),
            Piece::Number(generation),
            Piece::Text(what),
        ],
    )
}

fn write_no_checkpoint<W: Output>(writer: &mut W) -> io::Result<()>
    ensures text { OnOk result (Appends (W.contents writer.old) (W.contents writer.new) no_checkpoint_text) }
    ensures failed { OnErr result (W.has_failed writer.new) }
{
    write_pieces(writer, &[Piece::Text("no checkpoint\n")])
}

fn write_each<W: Output>(writer: &mut W, told: &[FoundGeneration]) -> io::Result<()>
    ensures text { OnOk result (Appends (W.contents writer.old) (W.contents writer.new) (flat_map told_text told.now)) }
    ensures failed { OnErr result (W.has_failed writer.new) }
{
    for one in told {
        write_told(writer, one)?;
    }
    Ok(())
}

// A line for each generation, or that there is none.
fn write_checked<W: Output>(writer: &mut W, told: &[FoundGeneration]) -> io::Result<()>
    ensures text { OnOk result (Appends (W.contents writer.old) (W.contents writer.new) (checked_text told.now)) }
    ensures failed { OnErr result (W.has_failed writer.new) }
{
    if told.is_empty() {
        write_no_checkpoint(writer)
    } else {
        write_each(writer, told)
    }
}

fn write_row<W: Output>(writer: &mut W, row: &Row<u64, u64>) -> io::Result<()>
    ensures text { OnOk result (Appends (W.contents writer.old) (W.contents writer.new) (row_line row.now)) }
    ensures failed { OnErr result (W.has_failed writer.new) }
{
    write_pieces(
        writer,
        &[
            Piece::Number(row.key),
            Piece::Text(" "),
            Piece::Number(row.data),
            Piece::Text(" "),
            Piece::Number(row.weight as u64),
            Piece::Text("\n"),
        ],
    )
}

fn write_rows<W: Output>(writer: &mut W, rows: &[Row<u64, u64>]) -> io::Result<()>
    ensures text { OnOk result (Appends (W.contents writer.old) (W.contents writer.new) (flat_map row_line rows.now)) }
    ensures failed { OnErr result (W.has_failed writer.new) }
{
    for row in rows {
        write_row(writer, row)?;
    }
    Ok(())
}

fn write_shards<W: Output>(writer: &mut W, shards: &[Vec<Row<u64, u64>>]) -> io::Result<()>
    ensures text { OnOk result (Appends (W.contents writer.old) (W.contents writer.new) (rows_text shards.now)) }
    ensures failed { OnErr result (W.has_failed writer.new) }
{
    for rows in shards {
        write_rows(writer, rows)?;
    }
    Ok(())
}

fn write_checkpoint<W: Output>(writer: &mut W, checkpoint: &Checkpoint<u64, u64>) -> io::Result<()>
    ensures text { OnOk result (Appends (W.contents writer.old) (W.contents writer.new) (generation_line checkpoint.now.generation ++ rows_text checkpoint.now.shards.items)) }
    ensures failed { OnErr result (W.has_failed writer.new) }
{
    write_pieces(
        writer,
        &[
            Piece::Text("generation "),
            Piece::Number(checkpoint.generation),
            Piece::Text("\n"),
        ],
    )?;
    write_shards(writer, &checkpoint.shards)
}

// The generations that were passed over, and then the checkpoint, if there is one.
fn write_shown<W: Output>(writer: &mut W, loaded: &Loaded<u64, u64>) -> io::Result<()>
    ensures text { OnOk result (Appends (W.contents writer.old) (W.contents writer.new) (shown_text loaded.now)) }
    ensures failed { OnErr result (W.has_failed writer.new) }
{
    write_passed(writer, &loaded.passed)?;
    match &loaded.newest {
        Some(checkpoint) => write_checkpoint(writer, checkpoint),
        None => write_no_checkpoint(writer),
    }
}

fn write_help<W: Output>(writer: &mut W) -> io::Result<()>
    ensures text { OnOk result (Appends (W.contents writer.old) (W.contents writer.new) help_text) }
    ensures failed { OnErr result (W.has_failed writer.new) }
{
    write_pieces(
        writer,
        &[
            Piece::Text(ABOUT),
            Piece::Text(SAVE),
            Piece::Text(SHOW),
            Piece::Text(BEFORE),
            Piece::Text(CHECK),
            Piece::Text(DAMAGE),
        ],
    )
}

fn write_saved_line<W: Output>(writer: &mut W, generation: u64, rows: u64) -> io::Result<()>
    ensures text { OnOk result (Appends (W.contents writer.old) (W.contents writer.new) (saved_text generation rows)) }
    ensures failed { OnErr result (W.has_failed writer.new) }
{
    write_pieces(
        writer,
        &[
            Piece::Text("generation "),
            Piece::Number(generation),
            Piece::Text(" rows "),
            Piece::Number(rows),
            Piece::Text("\n"),
        ],
    )
}

// The line of older files that may be left.
fn write_left_line<W: Output>(writer: &mut W, error: CheckpointError) -> io::Result<()>
    ensures text { OnOk result (Appends (W.contents writer.old) (W.contents writer.new) (left_line error)) }
    ensures failed { OnErr result (W.has_failed writer.new) }
{
    write_pieces(writer, &[Piece::Text("older files left: ")])?;
    write_reason(writer, error)
}

// The line of older files that may be left, and none where they are gone.
fn write_left<W: Output>(writer: &mut W, removed: &Result<(), CheckpointError>) -> io::Result<()>
    ensures text { OnOk result (Appends (W.contents writer.old) (W.contents writer.new) (left_text removed.now)) }
    ensures failed { OnErr result (W.has_failed writer.new) }
{
    match removed {
        Ok(()) => Ok(()),
        Err(error) => write_left_line(writer, *error),
    }
}

// What is told behind the line of a checkpoint that was saved: the generations that were passed over, and older files that may
// be left.
fn write_others<W: Output>(
    writer: &mut W,
    passed: &[Passed],
    removed: &Result<(), CheckpointError>,
) -> io::Result<()>
    ensures text { OnOk result (Appends (W.contents writer.old) (W.contents writer.new) (passed_text passed.now ++ left_text removed.now)) }
    ensures failed { OnErr result (W.has_failed writer.new) }
{
    write_passed(writer, passed)?;
    write_left(writer, removed)
}

// A checkpoint that was saved, and what is told of the others.
fn write_saved<W: Output>(
    writer: &mut W,
    generation: u64,
    rows: u64,
    passed: &[Passed],
    removed: &Result<(), CheckpointError>,
) -> io::Result<()>
    ensures text { OnOk result (Appends (W.contents writer.old) (W.contents writer.new) (saved_text generation rows ++ (passed_text passed.now ++ left_text removed.now))) }
    ensures failed { OnErr result (W.has_failed writer.new) }
{
    write_saved_line(writer, generation, rows)?;
    write_others(writer, passed, removed)
}

fn write_bad_line<W: Output>(writer: &mut W, number: u64) -> io::Result<()>
    ensures text { OnOk result (Appends (W.contents writer.old) (W.contents writer.new) (bad_line_text number)) }
    ensures failed { OnErr result (W.has_failed writer.new) }
{
    write_pieces(
        writer,
        &[
            Piece::Text("error: line "),
            Piece::Number(number),
            Piece::Text(" is no row\n"),
        ],
    )
}

/// Writes the text of an outcome. It takes no memory; a write that fails has written a beginning of it.
pub fn write_outcome<W: Output>(writer: &mut W, outcome: &Outcome) -> io::Result<()>
    ensures text { OnOk result (Appends (W.contents writer.old) (W.contents writer.new) (outcome_text outcome.now)) }
    ensures failed { OnErr result (W.has_failed writer.new) }
{
    match outcome {
        Outcome::Helped => write_help(writer),
        Outcome::Misused(misuse) => writer.put(misuse_text(*misuse).as_bytes()),
        Outcome::Saved {
            generation,
            rows,
            passed,
            removed,
        } => write_saved(writer, *generation, *rows, passed, removed),
        Outcome::Shown(loaded) => write_shown(writer, loaded),
        Outcome::Checked(told) => write_checked(writer, told),
        Outcome::BadLine(number) => write_bad_line(writer, *number),
        Outcome::Unread => writer.put(b"failed: the input was not read\n"),
        Outcome::Memory => writer.put(b"failed: out of memory\n"),
        Outcome::Refused(error) => write_refusal(writer, error),
    }
}
