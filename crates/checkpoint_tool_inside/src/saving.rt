//! The rows of an input saved as the next checkpoint.
ghost use Rattle.std.specs.Prelude.{◌≡◌, ◌⊎◌, ◌↔◌, ◌<◌, ◌^◌, ℕ, false, length, IfOk, IfSome};
ghost use Rattle.lru_folder.specs.Names.{has_slash};
ghost use Rattle.lru_frames.specs.Words.{word};
ghost use Rattle.lru_generations.specs.Saving.{SavesNext};
ghost use Rattle.checkpoint_tool_inside.specs.Before.{IsWord};
ghost use Rattle.checkpoint_tool_inside.specs.Texts.{Held};
ghost use Rattle.checkpoint_tool_inside.specs.Outcomes.{rows_in, AreShardsOf, HandsOut, ComesOfRows, ComesOfInput, ComesOfSave, SavesInput};

use crate::input_rows::{InputRowsError, rows_from};
use crate::outcome::Outcome;
use lru_folder::synced_folder::SyncedFolder;
use lru_frames::row::Row;
use lru_generations::generations::save;
use lru_lines::input::{Input, InputError};
use std::alloc::{AllocError, Global};

// How many shards the rows are divided into.
const SHARDS: u64 = 4;

// The rows of a shard, the one that was used last first.
fn rows_in(
    alloc: Global,
    rows: &[Row<u64, u64>],
    shard: u64,
) -> Result<Vec<Row<u64, u64>>, AllocError>
    ensures { IfOk result (λ found. found.items ≡ rows_in shard rows.now) }
{
    let mut found = Vec::new(alloc);
    for row in rows {
        if row.key % SHARDS == shard {
            found.push(Row {
                key: row.key,
                data: row.data,
                weight: row.weight,
            })?;
        }
    }
    found.reverse();
    Ok(found)
}

// The rows in their shards.
fn shards_of(alloc: Global, rows: &[Row<u64, u64>]) -> Result<[Vec<Row<u64, u64>>; 4], AllocError>
    ensures { IfOk result (λ shards. AreShardsOf rows.now shards) }
{
    Ok([
        rows_in(alloc, rows, 0)?,
        rows_in(alloc, rows, 1)?,
        rows_in(alloc, rows, 2)?,
        rows_in(alloc, rows, 3)?,
    ])
}

// Saves rows as the next checkpoint.
fn save_rows<F: SyncedFolder>(
    alloc: Global,
    folder: &mut F,
    dir: &str,
    file_name: &str,
    rows: &[Row<u64, u64>],
) -> Outcome
    requires name { has_slash file_name.now ≡ false }
    ensures outcome { ComesOfRows F.meaning dir.now file_name.now rows.now folder.old folder.new result }
    ensures whole { F.meaning.keeps folder.old → (folder.new ≡ folder.old) ⊎ ((held : Held)
        × (AreShardsOf rows.now held × SavesNext word IsWord word IsWord dir.now file_name.now (HandsOut held) (length held) F.meaning folder.old folder.new)) }
    ensures kept { F.meaning.keeps folder.old ↔ F.meaning.keeps folder.new }
{
    let Ok(shards) = shards_of(alloc, rows) else {
        return Outcome::Memory;
    };
    match save(alloc, folder, dir, file_name, &shards.as_slice()) {
        Err(error) => Outcome::Refused(error),
        Ok(saved) => Outcome::Saved {
            generation: saved.generation,
            rows: rows.len() as u64,
            passed: saved.passed,
            removed: saved.removed,
        },
    }
}

// Saves the rows of these lines.
fn save_lines<F: SyncedFolder>(
    alloc: Global,
    folder: &mut F,
    dir: &str,
    file_name: &str,
    input: &[u8],
) -> Outcome
    requires name { has_slash file_name.now ≡ false }
    ensures outcome { ComesOfInput F.meaning dir.now file_name.now input.now folder.old folder.new result }
    ensures whole { F.meaning.keeps folder.old → SavesInput F.meaning dir.now file_name.now input.now folder.old folder.new }
    ensures kept { F.meaning.keeps folder.old ↔ F.meaning.keeps folder.new }
{
    match rows_from(alloc, input) {
        Err(InputRowsError::Memory) => Outcome::Memory,
        Err(InputRowsError::Line(number)) => Outcome::BadLine(number),
        Ok(rows) => save_rows(alloc, folder, dir, file_name, &rows),
    }
}

/// Reads the whole input, a row a line, and saves the rows, the last one as the one that was used last, as the next
/// checkpoint, in four shards. The name of the file is one in the folder, which has to be there.
///
/// A bad line, an input that was not read and one that finds no memory leave all as it is.
pub fn save_input<F: SyncedFolder, R: Input>(
    alloc: Global,
    folder: &mut F,
    dir: &str,
    file_name: &str,
    reader: &mut R,
) -> Outcome
    requires name { has_slash file_name.now ≡ false }
    ensures outcome { ComesOfSave F.meaning dir.now file_name.now (R.has_failed reader.new) (R.remaining reader.old) folder.old folder.new result }

    // A stop, and a loss of power, at any moment leaves the newest whole checkpoint, and beside it that of these rows or none.
    ensures whole { F.meaning.keeps folder.old → IfSome (R.remaining reader.old) (λ input. SavesInput F.meaning dir.now file_name.now input folder.old folder.new) }

    ensures kept { F.meaning.keeps folder.old ↔ F.meaning.keeps folder.new }
{
    let mut input = Vec::new(alloc);
    match reader.read_all(&mut input) {
        Err(InputError::Memory) => Outcome::Memory,
        Err(InputError::Failed) => Outcome::Unread,
        Ok(()) => save_lines(alloc, folder, dir, file_name, &input),
    }
}
