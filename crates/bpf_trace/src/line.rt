//! A line that is put together in memory, so that it is written at once.
ghost use Rattle.std.specs.Prelude.{◌≡◌, ◌≤◌, ◌+◌, ◌++◌, ◌<◌, [], decimal, drop, false, length};
ghost use Rattle.std.specs.Fmt.{digit_glyph, digits};
ghost use Rattle.counted_io.specs.Writing.{hexadecimal};
ghost use Rattle.bpf_trace.specs.Lines.{line_room};

use counted_io::hex_digit;
use itoa::Buffer;
use std::marker::Model;

/// Room for a line.
pub const ROOM: usize = 512;

/// As many digits as a number of 64 bits has in hexadecimal.
const MOST_DIGITS: usize = 16;

/// A line, or a part of one. Contracts see its bytes.
#[derive(Drop)]
pub struct Line {
    room: [u8; ROOM],
    len: usize,
}

impl Model for Line {
    ghost use Rattle.std.specs.Prelude.{ℕ, List, ◌≤◌, take};
    ghost use Rattle.bpf_trace.specs.Lines.{line_room};

    ghost Value = { List ℕ };

    ghost view = { λ line. take line.len line.room };

    ghost invariant = { λ line. line.len ≤ line_room };
}

impl Line {
    /// An empty line.
    pub fn new() -> Line
        ensures { result ≡ [] }
    {
        Line {
            room: [0; ROOM],
            len: 0,
        }
    }

    /// Begins it anew.
    #[inline(always)]
    pub fn clear(&mut self)
        ensures { self.new ≡ [] }
    {
        self.len = 0;
    }

    /// Its bytes.
    #[inline(always)]
    pub fn as_slice(&self) -> &[u8]
        ensures { result.now ≡ self.now }
    {
        &self.room[..self.len]
    }

    /// How many bytes it has.
    #[inline(always)]
    pub fn len(&self) -> usize
        ensures { result ≡ length self.now }
    {
        self.len
    }

    /// Adds a text.
    #[inline(always)]
    pub fn add(&mut self, text: &[u8])
        requires { length self.old + length text.now ≤ line_room }
        ensures { self.new ≡ self.old ++ text.now }
    {
        let end = self.len + text.len();
        self.room[self.len..end].copy_from_slice(text);
        self.len = end;
    }

    /// Adds a number in decimal, which has at most 20 digits.
    #[inline(always)]
    pub fn add_decimal(&mut self, value: u64)
        requires { length self.old + 20 ≤ line_room }
        ensures text { self.new ≡ self.old ++ decimal value }
        ensures short { length self.new ≤ length self.old + 20 }
    {
        if value < 10 {
            self.add(&[b'0' + value as u8]);
        } else {
            self.add_digits(value);
        }
    }

    /// Adds the digits of a number.
    fn add_digits(&mut self, value: u64)
        requires { length self.old + 20 ≤ line_room }
        ensures text { self.new ≡ self.old ++ decimal value }
        ensures short { length self.new ≤ length self.old + 20 }
    {
        let mut digits = Buffer::new();
        self.add(digits.format(value).as_bytes());
    }

    /// Adds a number as 0x and lower-case hexadecimal digits, without leading zeros.
    pub fn add_hexadecimal(&mut self, value: u64)
        requires { length self.old + 18 ≤ line_room }
        ensures text { self.new ≡ self.old ++ hexadecimal value }
        ensures short { length self.new ≤ length self.old + 18 }
    {
        let mut buffer = [0; MOST_DIGITS];
        let start = write_digits(value, &mut buffer);
        self.add(b"0x");
        self.add(&buffer[start..]);
    }
}

/// Writes the digits to the end of the buffer, and says where they start.
fn write_digits(value: u64, buffer: &mut [u8; MOST_DIGITS]) -> usize
    ensures within { result ≤ MOST_DIGITS }
    ensures value { drop result buffer.new ≡ digits 16 false value }
{
    let mut start = MOST_DIGITS;
    let mut rest = value;
    while rest >= 16 {
        start -= 1;
        buffer[start] = digit((rest % 16) as u8);
        rest /= 16;
    }
    start -= 1;
    buffer[start] = digit(rest as u8);
    start
}

/// The lower-case digit of a value below 16. The compiler makes a table of the arms: `hex_digit`
/// compares and chooses, at six instructions more a digit.
#[inline(always)]
fn digit(value: u8) -> u8
    requires { value < 16 }
    ensures { result ≡ digit_glyph false value }
{
    match value {
        0 => b'0',
        1 => b'1',
        2 => b'2',
        3 => b'3',
        4 => b'4',
        5 => b'5',
        6 => b'6',
        7 => b'7',
        8 => b'8',
        9 => b'9',
        10 => b'a',
        11 => b'b',
        12 => b'c',
        13 => b'd',
        14 => b'e',
        15 => b'f',
        _ => hex_digit(value),
    }
}
