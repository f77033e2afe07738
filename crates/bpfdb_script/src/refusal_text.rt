//! The text of a refusal.
ghost use Rattle.counted_io.specs.Writing.{WritesAfter};
ghost use Rattle.bpfdb_script.specs.Refusals.{refusal_text};

use crate::Refusal;
use counted_io::{Counted, Piece, WriteFault, put_all};
use std::io::Write;

/// Writes the line of a refusal.
pub fn put_refusal<W: Write>(
    writer: &mut Counted<W>,
    so_far: Result<(), WriteFault>,
    refusal: Refusal,
) -> Result<(), WriteFault>
    ensures { WritesAfter W.contents writer.old so_far writer.new result (refusal_text refusal) }
{
    let number = u64::from(refusal.number());
    let text = refusal.text().as_bytes();
    let line = [
        Piece::Text(b"refused Q"),
        Piece::Decimal(number),
        Piece::Text(b": "),
        Piece::Text(text),
        Piece::Text(b"\n"),
    ];
    put_all(writer, so_far, &line)
}
