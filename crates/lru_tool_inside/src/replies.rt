//! What the program writes for each command.
ghost use Rattle.std.specs.Prelude.{◌≡◌, ◌↔◌, ◌++◌, ◌∷◌, [], codes, decimal, OnErr, OnOk, List, ℕ};
ghost use Rattle.std.specs.Io.KnownBytes.{Appends};
ghost use Rattle.lru_tool_inside.specs.Replies.{WritesReply, line, cause_text, refused_text, flag_text, weight_text, row_text, pair_text, rows_text, cut_short_text, reply_text, saved_text, save_text, load_text};
ghost use Rattle.lru_tool_inside.specs.Commands.{asked, IsPossible};

use crate::command::Command;
use log::Log;
use lru_lines::output::Output;
use lru_lines::pieces::{Piece, write_pieces};
use pingora_lru::calls;
use pingora_lru::calls::Reply;
use pingora_lru::lru_core::LruCore;
use pingora_lru::unit::{Cause, LruUnitIter};
use pingora_lru_files::persistence::{Folder, ShardLoadReport, ShardSaveError, ShardSaveReport};
use pingora_lru_files::snapshot::{Keyed, LoadError, load_core, save_core};
use rand_core::Rng;
use std::alloc::{AllocError, Global};
use std::io;

fn cause_text(cause: Cause) -> &'static str
    ensures { result.now ≡ cause_text cause }
{
    match cause {
        Cause::Memory => "refused memory",
        Cause::Weight => "refused weight",
        Cause::Length => "refused length",
    }
}

fn write_refused<W: Output>(writer: &mut W, cause: Cause) -> io::Result<()>
    ensures text { OnOk result (Appends (W.contents writer.old) (W.contents writer.new) (refused_text cause)) }
    ensures failed { OnErr result (W.has_failed writer.new) }
{
    let text = cause_text(cause);
    write_pieces(writer, &[Piece::Text(text), Piece::Text("\n")])
}

fn write_flag<W: Output>(writer: &mut W, flag: bool) -> io::Result<()>
    ensures text { OnOk result (Appends (W.contents writer.old) (W.contents writer.new) (flag_text flag)) }
    ensures failed { OnErr result (W.has_failed writer.new) }
{
    let text = if flag { "true\n" } else { "false\n" };
    write_pieces(writer, &[Piece::Text(text)])
}

fn write_number<W: Output>(writer: &mut W, number: usize) -> io::Result<()>
    ensures text { OnOk result (Appends (W.contents writer.old) (W.contents writer.new) (line (decimal number))) }
    ensures failed { OnErr result (W.has_failed writer.new) }
{
    write_pieces(writer, &[Piece::Number(number as u64), Piece::Text("\n")])
}

fn write_none<W: Output>(writer: &mut W) -> io::Result<()>
    ensures text { OnOk result (Appends (W.contents writer.old) (W.contents writer.new) (line (codes "none"))) }
    ensures failed { OnErr result (W.has_failed writer.new) }
{
    write_pieces(writer, &[Piece::Text("none\n")])
}

// A weight, where the key has one.
fn write_weight<W: Output>(writer: &mut W, weight: Option<usize>) -> io::Result<()>
    ensures text { OnOk result (Appends (W.contents writer.old) (W.contents writer.new) (weight_text weight)) }
    ensures failed { OnErr result (W.has_failed writer.new) }
{
    match weight {
        Some(weight) => write_number(writer, weight),
        None => write_none(writer),
    }
}

// A row that left, or that was looked at.
fn write_row<W: Output>(writer: &mut W, row: Option<(Keyed, usize)>) -> io::Result<()>
    ensures text { OnOk result (Appends (W.contents writer.old) (W.contents writer.new) (row_text row)) }
    ensures failed { OnErr result (W.has_failed writer.new) }
{
    match row {
        Some((data, weight)) => write_pieces(
            writer,
            &[
                Piece::Number(data.key),
                Piece::Text(" "),
                Piece::Number(data.value),
                Piece::Text(" "),
                Piece::Number(weight as u64),
                Piece::Text("\n"),
            ],
        ),
        None => write_none(writer),
    }
}

// One of several rows on a line.
fn write_pair<W: Output>(writer: &mut W, data: Keyed, weight: usize) -> io::Result<()>
    ensures text { OnOk result (Appends (W.contents writer.old) (W.contents writer.new) (pair_text («data», weight))) }
    ensures failed { OnErr result (W.has_failed writer.new) }
{
    write_pieces(
        writer,
        &[
            Piece::Text(" "),
            Piece::Number(data.key),
            Piece::Text(":"),
            Piece::Number(data.value),
            Piece::Text(":"),
            Piece::Number(weight as u64),
        ],
    )
}

// The rows of a shard, with their count in front.
fn write_rows<W: Output>(writer: &mut W, rows: LruUnitIter<'_, Keyed>) -> io::Result<()>
    ensures text { OnOk result (Appends (W.contents writer.old) (W.contents writer.new) (rows_text rows.entry)) }
    ensures failed { OnErr result (W.has_failed writer.new) }
{
    let count = rows.len();
    write_pieces(writer, &[Piece::Number(count as u64)])?;
    let mut rest = rows;
    while let Some((data, weight)) = rest.next() {
        write_pair(writer, *data, weight)?;
    }
    write_pieces(writer, &[Piece::Text("\n")])
}

// Rows that left, with their count in front.
fn write_pairs<W: Output>(writer: &mut W, pairs: &[(Keyed, usize)]) -> io::Result<()>
    ensures text { OnOk result (Appends (W.contents writer.old) (W.contents writer.new) (rows_text pairs.now)) }
    ensures failed { OnErr result (W.has_failed writer.new) }
{
    let count = pairs.len();
    write_pieces(writer, &[Piece::Number(count as u64)])?;
    for (data, weight) in pairs {
        write_pair(writer, *data, *weight)?;
    }
    write_pieces(writer, &[Piece::Text("\n")])
}

// The rows that left before memory ended an eviction.
fn write_cut_short<W: Output>(writer: &mut W, pairs: &[(Keyed, usize)]) -> io::Result<()>
    ensures text { OnOk result (Appends (W.contents writer.old) (W.contents writer.new) (cut_short_text pairs.now)) }
    ensures failed { OnErr result (W.has_failed writer.new) }
{
    write_pieces(writer, &[Piece::Text("refused memory ")])?;
    write_pairs(writer, pairs)
}

fn write_reply<W: Output>(writer: &mut W, reply: Reply<Keyed>) -> io::Result<()>
    ensures text { OnOk result (Appends (W.contents writer.old) (W.contents writer.new) (reply_text reply)) }
    ensures failed { OnErr result (W.has_failed writer.new) }
{
    match reply {
        Reply::Shard(Ok(shard)) => write_number(writer, shard),
        Reply::Shard(Err(refused)) => write_refused(writer, refused.cause),
        Reply::Inserted(Ok(added)) => write_flag(writer, added),
        Reply::Inserted(Err(refused)) => write_refused(writer, refused.cause),
        Reply::Weight(Ok(weight)) => write_number(writer, weight),
        Reply::Weight(Err(cause)) => write_refused(writer, cause),
        Reply::Updated(Ok(was)) => write_weight(writer, was),
        Reply::Updated(Err(refused)) => write_refused(writer, refused.cause),
        Reply::Was(Ok(was)) => write_weight(writer, was),
        Reply::Was(Err(cause)) => write_refused(writer, cause),
        Reply::Held(held) => write_flag(writer, held),
        Reply::Left(row) => write_row(writer, row),
        Reply::Evicted(Ok(pairs)) => write_pairs(writer, &pairs),
        Reply::Evicted(Err(stopped)) => write_cut_short(writer, &stopped.evicted),
        Reply::Known(weight) => write_weight(writer, weight),
        Reply::Last(Ok(row)) => write_row(writer, row),
        Reply::Last(Err(_)) => write_refused(writer, Cause::Memory),
        Reply::Totals {
            len,
            weight,
            evicted_len,
            evicted_weight,
        } => write_pieces(
            writer,
            &[
                Piece::Number(len as u64),
                Piece::Text(" "),
                Piece::Number(weight as u64),
                Piece::Text(" "),
                Piece::Number(evicted_len as u64),
                Piece::Text(" "),
                Piece::Number(evicted_weight as u64),
                Piece::Text("\n"),
            ],
        ),
        Reply::Done => write_pieces(writer, &[Piece::Text("ok\n")]),
    }
}

fn write_counts<W: Output>(writer: &mut W, saved: usize, failed: usize) -> io::Result<()>
    ensures text { OnOk result (Appends (W.contents writer.old) (W.contents writer.new) (saved_text saved failed)) }
    ensures failed { OnErr result (W.has_failed writer.new) }
{
    write_pieces(
        writer,
        &[
            Piece::Text("saved "),
            Piece::Number(saved as u64),
            Piece::Text(" failed "),
            Piece::Number(failed as u64),
            Piece::Text("\n"),
        ],
    )
}

// How many shards were saved, and how many failed.
fn write_saved<W: Output>(
    writer: &mut W,
    outcome: &Result<ShardSaveReport<AllocError>, ShardSaveError<AllocError>>,
) -> io::Result<()>
    ensures text { OnOk result (Appends (W.contents writer.old) (W.contents writer.new) (save_text outcome.now)) }
    ensures failed { OnErr result (W.has_failed writer.new) }
{
    match outcome {
        Ok(report) => write_counts(writer, report.saved_shards, report.failed_shards),
        Err(ShardSaveError::AllShardsFailed { shards, .. }) => write_counts(writer, 0, *shards),
        Err(ShardSaveError::Setup(_)) => write_pieces(writer, &[Piece::Text("save refused\n")]),
    }
}

// How many shards were loaded, have no file, and failed, and how many temp files were removed.
fn write_loaded<W: Output>(
    writer: &mut W,
    outcome: &Result<ShardLoadReport<LoadError>, AllocError>,
) -> io::Result<()>
    ensures text { OnOk result (Appends (W.contents writer.old) (W.contents writer.new) (load_text outcome.now)) }
    ensures failed { OnErr result (W.has_failed writer.new) }
{
    let Ok(report) = outcome else {
        return write_refused(writer, Cause::Memory);
    };
    let removed = match &report.temp_cleanup {
        Ok(cleanup) => Piece::Number(cleanup.removed_files as u64),
        Err(_) => Piece::Text("-"),
    };
    write_pieces(
        writer,
        &[
            Piece::Text("loaded "),
            Piece::Number(report.loaded_shards as u64),
            Piece::Text(" missing "),
            Piece::Number(report.missing_shards as u64),
            Piece::Text(" errored "),
            Piece::Number(report.error_shards as u64),
            Piece::Text(" removed "),
            removed,
            Piece::Text("\n"),
        ],
    )
}

/// Does a command on the core or between it and the folder, with its draws from the generator, and writes its reply. An
/// error is that of a write which failed.
pub fn answer<F: Folder, R: Rng, L: Log, W: Output>(
    core: &mut LruCore<Keyed, 2>,
    folder: &mut F,
    alloc: Global,
    rng: &mut R,
    log: &L,
    command: Command<'_>,
    writer: &mut W,
) -> io::Result<()>
    requires { IsPossible (asked command) }
    ensures text { OnOk result (WritesReply F.meaning
        (record { core = core.old; folder = folder.old; words = R.stream rng.old }) (asked command.entry) (W.contents writer.old) (W.contents writer.new)
        (record { core = core.new; folder = folder.new; words = R.stream rng.new })) }
    ensures failed { OnErr result (W.has_failed writer.new) }
    ensures kept { F.meaning.keeps folder.old ↔ F.meaning.keeps folder.new }
{
    match command {
        Command::Do(call) => {
            let reply = calls::answer(core, alloc, rng, call);
            write_reply(writer, reply)
        }
        Command::List { shard } => write_rows(writer, core.iter_shard(shard)),
        Command::Save { dir, file_name } => {
            let result = save_core(alloc, folder, rng, log, dir, file_name, core);
            write_saved(writer, &result)
        }
        Command::Load { dir, file_name } => {
            let result = load_core(alloc, folder, log, dir, file_name, core);
            write_loaded(writer, &result)
        }
    }
}
