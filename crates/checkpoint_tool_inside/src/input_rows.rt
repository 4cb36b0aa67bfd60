//! The rows of an input, a line each.
ghost use Rattle.std.specs.Prelude.{◌≡◌, map, Some, IfOk, IfErr};
ghost use Rattle.checkpoint_tool_inside.specs.InputRows.{row_of, row_in, rows_of, IsUnreadInput};

use lru_frames::row::Row;
use lru_lines::numbers::number;
use lru_lines::parts::{cut, first_line};
use std::alloc::Global;

/// Why no rows were read.
#[derive(Clone, Copy, Debug, PartialEq, Eq)]
pub enum InputRowsError {
    /// No memory was found for them.
    Memory,
    /// This line is no row; the first line is 1.
    Line(u64),
}

fn row(key: &[u8], data: &[u8], weight: &[u8]) -> Option<Row<u64, u64>>
    ensures { result ≡ row_in key.now «data».now weight.now }
{
    let key = number(key)?;
    let data = number(data)?;
    let weight = number(weight)? as usize;
    Some(Row { key, data, weight })
}

/// The row of a line, `KEY VALUE WEIGHT`, if it is one: three numbers with a space between them.
pub fn row_from(line: &[u8]) -> Option<Row<u64, u64>>
    ensures { result ≡ row_of line.now }
{
    let (key, rest) = cut(line, b' ');
    let Some(rest) = rest else {
        return None;
    };
    let (data, rest) = cut(rest, b' ');
    let Some(rest) = rest else {
        return None;
    };
    let (weight, rest) = cut(rest, b' ');
    if rest.is_some() {
        return None;
    }
    row(key, data, weight)
}

/// The rows of the lines of an input, in their order.
///
/// `Line`: this one is no row, and those before it are. `Memory`: no memory was found for the rows.
pub fn rows_from(alloc: Global, input: &[u8]) -> Result<Vec<Row<u64, u64>>, InputRowsError>
    ensures rows { IfOk result (λ rows. rows_of input.now ≡ map (λ row. Some row) rows.items) }
    ensures wrong { IfErr result (IsUnreadInput (rows_of input.now)) }
{
    let mut rows = Vec::new(alloc);
    let mut rest = input;
    while !rest.is_empty() {
        let (line, behind) = first_line(rest);
        rest = behind;
        let Some(row) = row_from(line) else {
            return Err(InputRowsError::Line(rows.len() as u64 + 1));
        };
        let Ok(()) = rows.push(row) else {
            return Err(InputRowsError::Memory);
        };
    }
    Ok(rows)
}
