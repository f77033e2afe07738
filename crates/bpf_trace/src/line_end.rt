//! The end of a line: what is told of its slot, and the line feed.
ghost use Rattle.std.specs.Prelude.{◌≡◌, ◌<◌, ◌+◌, ◌++◌, codes, length};
ghost use Rattle.counted_io.specs.Writing.{WritesAfter};

use crate::line::{Line, ROOM};
use counted_io::{Counted, WriteFault, put};
use std::io::Write;

/// Writes a line with what is told of its slot, and its end. A text of any length may be told, and
/// mostly none is.
#[inline(always)]
pub fn put_ended<W: Write>(
    line: &mut Line,
    place: &[u8],
    writer: &mut Counted<W>,
    so_far: Result<(), WriteFault>,
) -> Result<(), WriteFault>
    ensures { WritesAfter W.contents writer.old so_far writer.new result
        (line.old ++ place.now ++ codes "\n") }
{
    if place.len() < ROOM.saturating_sub(line.len()) {
        put_whole(line, place, writer, so_far)
    } else {
        put_parts(line, place, writer, so_far)
    }
}

/// Writes it at once, where the line has room for the text.
#[inline(always)]
fn put_whole<W: Write>(
    line: &mut Line,
    place: &[u8],
    writer: &mut Counted<W>,
    so_far: Result<(), WriteFault>,
) -> Result<(), WriteFault>
    requires { length line.old + length place.now < 512 }
    ensures { WritesAfter W.contents writer.old so_far writer.new result
        (line.old ++ place.now ++ codes "\n") }
{
    add_place(line, place);
    line.add(b"\n");
    put(writer, so_far, line.as_slice())
}

/// Adds what is told of a slot. Where nothing is, no bytes are copied.
#[inline(always)]
fn add_place(line: &mut Line, place: &[u8])
    requires { length line.old + length place.now < 512 }
    ensures { line.new ≡ line.old ++ place.now }
{
    if !place.is_empty() {
        line.add(place);
    }
}

/// Writes it in parts, where it has none.
#[inline(never)]
fn put_parts<W: Write>(
    line: &Line,
    place: &[u8],
    writer: &mut Counted<W>,
    so_far: Result<(), WriteFault>,
) -> Result<(), WriteFault>
    ensures { WritesAfter W.contents writer.old so_far writer.new result
        (line.now ++ place.now ++ codes "\n") }
{
    let begun = put(writer, so_far, line.as_slice());
    let told = put(writer, begun, place);
    put(writer, told, b"\n")
}
