//! Lines that are written piece by piece.
ghost use Rattle.std.specs.Prelude.{OnErr, OnOk};
ghost use Rattle.std.specs.Io.KnownBytes.{Appends};
ghost use Rattle.lru_lines.specs.Pieces.{piece_text, pieces_text};

use crate::output::Output;
use itoa::Buffer;
use std::io;

/// A piece of a line.
#[derive(Clone, Copy)]
pub enum Piece<'a> {
    /// A number, in decimal.
    Number(u64),
    /// A text.
    Text(&'a str),
}

// No memory is taken for a number.
fn write_piece<W: Output>(writer: &mut W, piece: Piece<'_>) -> io::Result<()>
    ensures text { OnOk result (Appends (W.contents writer.old) (W.contents writer.new) (piece_text piece.entry)) }
    ensures failed { OnErr result (W.has_failed writer.new) }
{
    match piece {
        Piece::Text(text) => writer.put(text.as_bytes()),
        Piece::Number(number) => {
            let mut buffer = Buffer::new();
            writer.put(buffer.format(number).as_bytes())
        }
    }
}

/// Writes these pieces, one after the other. It takes no memory.
pub fn write_pieces<W: Output>(writer: &mut W, pieces: &[Piece<'_>]) -> io::Result<()>
    ensures text { OnOk result (Appends (W.contents writer.old) (W.contents writer.new) (pieces_text pieces.now)) }
    ensures failed { OnErr result (W.has_failed writer.new) }
{
    for piece in pieces {
        write_piece(writer, *piece)?;
    }
    Ok(())
}
