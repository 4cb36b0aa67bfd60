//! The lines of a trace, in two formats.
ghost use Rattle.std.specs.Prelude.{◌≡◌};
ghost use Rattle.std.specs.Str.{is_utf8};
ghost use Rattle.trace_player_inside.specs.TraceLines.{is_blank, from_word, from_blank, word_of, behind, of_fields, words_read, cell_of, cells_read, line_read, request_read, request_in, format_told, told_on, next_read};

use crate::numbers::{NumberFault, number_from};
use crate::player::Request;
use lru_lines::parts::cut;
use std::fmt::Display;
use std::{fmt, str};

/// How the lines of a trace are written.
#[derive(Clone, Copy, Debug, PartialEq, Eq)]
pub enum Format {
    /// `KEY SIZE` or `TIME KEY SIZE`, words between blanks.
    Words,
    /// `TIME,KEY,SIZE` behind a header.
    Commas,
}

/// Why a line is no request.
#[derive(Clone, Copy, Debug, PartialEq, Eq)]
pub enum LineFault {
    /// It is no UTF-8.
    NotText,
    /// It has more than a time, a key and a size.
    TooMany,
    /// It is the first line, and a row with commas where a header has to stand.
    NoHeader,
    /// This is wrong with its key.
    Key(NumberFault),
    /// Its key is a number, and this is wrong with its size.
    Size(NumberFault),
}

impl Display for LineFault {
    fn fmt<W: fmt::Write>(&self, f: &mut fmt::Formatter<W>) -> fmt::Result {
        match *self {
            LineFault::NotText => f.write_str("not text"),
            LineFault::TooMany => f.write_str("more than a time, a key and a size"),
            LineFault::NoHeader => f.write_str("a row with commas, and no header above it"),
            LineFault::Key(fault) => write_number_fault(f, "key", fault),
            LineFault::Size(fault) => write_number_fault(f, "size", fault),
        }
    }
}

fn write_number_fault<W: fmt::Write>(
    f: &mut fmt::Formatter<W>,
    what: &str,
    fault: NumberFault,
) -> fmt::Result {
    match fault {
        NumberFault::Missing => write!(f, "no {what}"),
        NumberFault::NotDigits => write!(f, "the {what} is no number"),
        NumberFault::TooLarge => write!(f, "the {what} is too large"),
    }
}

fn is_blank(byte: u8) -> bool
    ensures { result ≡ is_blank byte }
{
    byte == b' ' || (9..=13).contains(&byte)
}

// A text without the blanks that it begins with.
fn skip_blanks(text: &[u8]) -> &[u8]
    ensures { result.now ≡ from_word text.now }
{
    let mut rest = text;
    while let Some((byte, tail)) = rest.split_first() {
        if !is_blank(*byte) {
            break;
        }
        rest = tail;
    }
    rest
}

// The first word of a text, empty where there is none, and what stands behind it.
fn first_word(text: &[u8]) -> (&[u8], &[u8])
    ensures word { result.0.now ≡ word_of text.now }
    ensures rest { result.1.now ≡ behind text.now }
{
    let start = skip_blanks(text);
    let mut rest = start;
    while let Some((byte, tail)) = rest.split_first() {
        if is_blank(*byte) {
            break;
        }
        rest = tail;
    }
    (&start[..start.len() - rest.len()], rest)
}

fn request(key: &[u8], size: &[u8]) -> Result<Request, LineFault>
    ensures { result ≡ of_fields key.now size.now }
{
    match (number_from(key), number_from(size)) {
        (Ok(key), Ok(size)) => Ok(Request {
            key,
            size: size as usize,
        }),
        (Ok(_), Err(fault)) => Err(LineFault::Size(fault)),
        (Err(fault), _) => Err(LineFault::Key(fault)),
    }
}

fn request_of_words(line: &[u8]) -> Result<Request, LineFault>
    ensures { result ≡ words_read line.now }
{
    let (first, rest) = first_word(line);
    let (second, rest) = first_word(rest);
    let (third, rest) = first_word(rest);
    if third.is_empty() {
        return request(first, second);
    }
    if !first_word(rest).0.is_empty() {
        return Err(LineFault::TooMany);
    }
    request(second, third)
}

// The word of a cell, empty where it has none; the whole cell, which is then no number, where it has more than one.
fn word_in(cell: &[u8]) -> &[u8]
    ensures { result.now ≡ cell_of cell.now }
{
    let (word, rest) = first_word(cell);
    if first_word(rest).0.is_empty() {
        word
    } else {
        cell
    }
}

fn request_of_cells(line: &[u8]) -> Result<Request, LineFault>
    ensures { result ≡ cells_read line.now }
{
    let (_, rest) = cut(line, b',');
    let Some(rest) = rest else {
        return request(b"", b"");
    };
    let (key, rest) = cut(rest, b',');
    let Some(rest) = rest else {
        return request(word_in(key), b"");
    };
    let (size, rest) = cut(rest, b',');
    if rest.is_some() {
        return Err(LineFault::TooMany);
    }
    request(word_in(key), word_in(size))
}

fn request_of_line(format: Format, line: &[u8]) -> Result<Request, LineFault>
    ensures { result ≡ line_read format line.now }
{
    match format {
        Format::Words => request_of_words(line),
        Format::Commas => request_of_cells(line),
    }
}

fn is_text(line: &[u8]) -> bool
    ensures { result ≡ is_utf8 line.now }
{
    str::from_utf8(line).is_ok()
}

/// The request of a line in a format, or why it has none.
///
/// In words it is as `request_of` has it. With commas there are three cells, a time, a key and a size; blanks around a cell
/// are left out, and the time is read past.
pub fn read_request(format: Format, line: &[u8]) -> Result<Request, LineFault>
    ensures { result ≡ request_read format line.now }
{
    match request_of_line(format, line) {
        Ok(request) => Ok(request),
        Err(fault) => Err(if is_text(line) {
            fault
        } else {
            LineFault::NotText
        }),
    }
}

/// The request of a line, `KEY SIZE` or `TIME KEY SIZE`, words between spaces or tabs; the time is left out. A key and a
/// size are decimal numbers below 2^64, of at most 20 digits. `None` for a line that is neither.
pub fn request_of(line: &[u8]) -> Option<Request>
    ensures { result ≡ request_in line.now }
{
    read_request(Format::Words, line).ok()
}

/// The format of a trace, as its first line tells: a line with a comma that is no request of words is a header, and commas
/// follow. `NoHeader` where that line is itself a row with commas.
pub fn format_of(first: &[u8]) -> Result<Format, LineFault>
    ensures { result ≡ format_told first.now }
{
    if request_of(first).is_some() || !first.contains(&b',') {
        return Ok(Format::Words);
    }
    if read_request(Format::Commas, first).is_ok() {
        return Err(LineFault::NoHeader);
    }
    Ok(Format::Commas)
}

fn read_on(format: Format, line: &[u8]) -> Result<(Format, Option<Request>), LineFault>
    ensures { result ≡ told_on format (request_read format line.now) }
{
    let request = read_request(format, line)?;
    Ok((format, Some(request)))
}

/// The request of a line of a trace, `None` of a header, with the format of the lines behind it. `format` is what the line
/// before told: the first line has none, and tells it, as `format_of` has it.
pub fn read_line(
    format: Option<Format>,
    line: &[u8],
) -> Result<(Format, Option<Request>), LineFault>
    ensures { result ≡ next_read format line.now }
{
    match format {
        Some(format) => read_on(format, line),
        None => match format_of(line)? {
            Format::Words => read_on(Format::Words, line),
            Format::Commas => Ok((Format::Commas, None)),
        },
    }
}
