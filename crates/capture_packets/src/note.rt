//! What is told beside a context that comes of a capture.
ghost use Rattle.capture_packets.specs.Notes.{note_text};
ghost use Rattle.counted_io.specs.Writing.{WritesAfter};

use counted_io::{Counted, Piece, WriteFault, put_all};
use std::io::Write;

/// What there is to tell.
#[derive(Clone, Copy)]
pub enum Note {
    /// It is all of the capture.
    Whole,
    /// Of the packet of this number so many bytes were captured, of so many.
    Short(u64, u64, u64),
}

/// Writes a note, after what was written so far, unless that failed. It names the option that takes a
/// packet of a capture.
pub fn put_note<W: Write>(
    writer: &mut Counted<W>,
    so_far: Result<(), WriteFault>,
    option: &str,
    note: Note,
) -> Result<(), WriteFault>
    ensures { WritesAfter W.contents writer.old so_far writer.new result (note_text option.now note) }
{
    match note {
        Note::Whole => {
            let pieces = [
                Piece::Text(b"the context is a whole capture: "),
                Piece::Text(option.as_bytes()),
                Piece::Text(b" N takes one of its packets\n"),
            ];
            put_all(writer, so_far, &pieces)
        }
        Note::Short(number, taken, sent) => {
            let pieces = [
                Piece::Text(b"of packet "),
                Piece::Decimal(number),
                Piece::Text(b" "),
                Piece::Decimal(taken),
                Piece::Text(b" of "),
                Piece::Decimal(sent),
                Piece::Text(b" bytes were captured\n"),
            ];
            put_all(writer, so_far, &pieces)
        }
    }
}
