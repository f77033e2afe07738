//! The text of a number in hexadecimal.
ghost use Rattle.std.specs.Prelude.{◌≡◌, ◌<◌, ◌≤◌, drop, false};
ghost use Rattle.std.specs.Fmt.{digits, digit_glyph};
ghost use Rattle.counted_io.specs.Writing.{WritesAfter, hexadecimal};

use crate::counted::Counted;
use crate::fault::WriteFault;
use crate::writing::put;
use std::io::Write;

/// As many digits as a number of 64 bits has.
const MOST_DIGITS: usize = 16;

/// Writes a number as 0x and lower-case hexadecimal digits, without leading zeros, after what was
/// written so far, unless that failed.
pub fn put_hexadecimal<W: Write>(
    writer: &mut Counted<W>,
    so_far: Result<(), WriteFault>,
    value: u64,
) -> Result<(), WriteFault>
    ensures { WritesAfter W.contents writer.old so_far writer.new result (hexadecimal value) }
{
    let mut buffer = [0; MOST_DIGITS];
    let start = write_digits(value, &mut buffer);
    let prefixed = put(writer, so_far, b"0x");
    put(writer, prefixed, &buffer[start..])
}

/// Writes the digits to the end of the buffer, and says where they start.
fn write_digits(value: u64, buffer: &mut [u8; MOST_DIGITS]) -> usize
    ensures within { result ≤ MOST_DIGITS }
    ensures value { drop result buffer.new ≡ digits 16 false value }
{
    let mut start = MOST_DIGITS;
    let mut rest = value;
    while rest >= 16 {
        start -= 1;
        buffer[start] = hex_digit((rest % 16) as u8);
        rest /= 16;
    }
    start -= 1;
    buffer[start] = hex_digit(rest as u8);
    start
}

/// The lower-case digit of a value below 16.
pub fn hex_digit(value: u8) -> u8
    requires { value < 16 }
    ensures { result ≡ digit_glyph false value }
{
    if value < 10 {
        b'0' + value
    } else {
        b'a' + (value - 10)
    }
}
