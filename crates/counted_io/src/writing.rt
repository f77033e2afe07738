//! The one loop that writes a text, and the texts of numbers.
ghost use Rattle.std.specs.Prelude.{decimal};
ghost use Rattle.std.specs.Fmt.{signed_decimal};
ghost use Rattle.counted_io.specs.Writing.{Writes, WritesAfter};

use crate::counted::Counted;
use crate::fault::WriteFault;
use itoa::Buffer;
use std::io::Write;

/// Writes the whole text. A short write is followed by one of the rest, so no byte is written
/// twice.
pub fn write_text<W: Write>(writer: &mut Counted<W>, text: &[u8]) -> Result<(), WriteFault>
    ensures { Writes W.contents writer.old writer.new result text.now }
{
    let mut written = 0;
    while written < text.len() {
        match writer.write(&text[written..]) {
            Ok(0) => return Err(WriteFault),
            Ok(count) => written += count,
            Err(_) => return Err(WriteFault),
        }
    }
    Ok(())
}

/// Writes the text after what was written so far, unless that failed.
pub fn put<W: Write>(
    writer: &mut Counted<W>,
    so_far: Result<(), WriteFault>,
    text: &[u8],
) -> Result<(), WriteFault>
    ensures { WritesAfter W.contents writer.old so_far writer.new result text.now }
{
    match so_far {
        Ok(()) => write_text(writer, text),
        Err(fault) => Err(fault),
    }
}

/// Writes a number in decimal after what was written so far, unless that failed.
pub fn put_decimal<W: Write>(
    writer: &mut Counted<W>,
    so_far: Result<(), WriteFault>,
    value: u64,
) -> Result<(), WriteFault>
    ensures { WritesAfter W.contents writer.old so_far writer.new result (decimal value) }
{
    let mut digits = Buffer::new();
    put(writer, so_far, digits.format(value).as_bytes())
}

/// Writes a signed number in decimal after what was written so far, unless that failed.
pub fn put_signed<W: Write>(
    writer: &mut Counted<W>,
    so_far: Result<(), WriteFault>,
    value: i64,
) -> Result<(), WriteFault>
    ensures { WritesAfter W.contents writer.old so_far writer.new result (signed_decimal value) }
{
    let mut buffer = Buffer::new();
    put(writer, so_far, buffer.format(value).as_bytes())
}
