//! A text in pieces, and the one function that writes it.
ghost use Rattle.std.specs.Prelude.{decimal};
ghost use Rattle.std.specs.Fmt.{signed_decimal};
ghost use Rattle.counted_io.specs.Pieces.{piece_text, text_of};
ghost use Rattle.counted_io.specs.Writing.{WritesAfter};

use crate::counted::Counted;
use crate::fault::WriteFault;
use crate::hexadecimal::put_hexadecimal;
use crate::writing::{put, put_decimal, put_signed};
use std::io::Write;

/// A piece of a text that is printed.
#[derive(Clone, Copy)]
pub enum Piece<'a> {
    /// These bytes.
    Text(&'a [u8]),
    /// A number in decimal.
    Decimal(u64),
    /// A signed number in decimal.
    Signed(i64),
    /// A number as 0x and lower-case hexadecimal digits, without leading zeros.
    Hexadecimal(u64),
}

/// Writes the texts of the pieces one after another, after what was written so far, unless that
/// failed. In a contract `text_of` of the pieces of an array that has a name closes by itself.
pub fn put_all<W: Write>(
    writer: &mut Counted<W>,
    so_far: Result<(), WriteFault>,
    pieces: &[Piece<'_>],
) -> Result<(), WriteFault>
    ensures { WritesAfter W.contents writer.old so_far writer.new result (text_of pieces.now) }
{
    let mut written = so_far;
    for piece in pieces {
        written = put_piece(writer, written, piece);
    }
    written
}

fn put_piece<W: Write>(
    writer: &mut Counted<W>,
    so_far: Result<(), WriteFault>,
    piece: &Piece<'_>,
) -> Result<(), WriteFault>
    ensures { WritesAfter W.contents writer.old so_far writer.new result (piece_text piece.now) }
{
    match *piece {
        Piece::Text(text) => put(writer, so_far, text),
        Piece::Decimal(value) => put_decimal(writer, so_far, value),
        Piece::Signed(value) => put_signed(writer, so_far, value),
        Piece::Hexadecimal(value) => put_hexadecimal(writer, so_far, value),
    }
}
