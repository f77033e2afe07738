//! A text of one of two runs, behind its mark.
ghost use Rattle.counted_io.specs.Writing.{WritesAfter};
ghost use Rattle.bpf_diff.specs.Values.{marked, marked_line};

use counted_io::{Counted, WriteFault, put, sides};
use std::io::Write;

/// Writes a text with a mark before each of its lines.
pub fn put_marked<W: Write>(
    writer: &mut Counted<W>,
    so_far: Result<(), WriteFault>,
    mark: &[u8],
    text: &[u8],
) -> Result<(), WriteFault>
    ensures { WritesAfter W.contents writer.old so_far writer.new result
        (marked mark.now text.now) }
{
    let mut told = so_far;
    let mut rest = text;
    while !rest.is_empty() {
        let (line, others) = sides(rest, b'\n');
        told = put_marked_line(writer, told, mark, line);
        rest = others;
    }
    told
}

/// Writes a line behind a mark.
fn put_marked_line<W: Write>(
    writer: &mut Counted<W>,
    so_far: Result<(), WriteFault>,
    mark: &[u8],
    line: &[u8],
) -> Result<(), WriteFault>
    ensures { WritesAfter W.contents writer.old so_far writer.new result
        (marked_line mark.now line.now) }
{
    let begun = put(writer, so_far, mark);
    let told = put(writer, begun, line);
    put(writer, told, b"\n")
}
