//! Lines of a script, read a byte at a time into a buffer of fixed size.
ghost use Rattle.std.specs.Prelude.{◌≡◌, ◌<◌, ◌++◌, ◌∷◌, [], ◌↔◌, IsTrue, List, MatchOption, length, ℕ};
ghost use Rattle.bpfdb_script.specs.Limits.{longest_line};
ghost use Rattle.bpfdb_script.specs.ReadLines.{Holds, ReadsLine, is_last, is_missing};

use crate::parser::LONGEST_LINE;
use arrayvec::ArrayVec;
use counted_io::{Counted, ReadFault, read_byte};
use std::io::Read;
use std::marker::Model;

/// A line: its bytes, up to 1,024 of them, or that it has more.
#[derive(Drop)]
pub struct LineBuffer {
    bytes: ArrayVec<u8, LONGEST_LINE>,
    is_long: bool,
}

impl Model for LineBuffer {
    ghost use Rattle.bpfdb_script.specs.ReadLines.{Buffer};

    ghost Value = { Buffer };

    ghost view = { λ l. record { bytes = l.bytes.items; is_long = l.is_long } };
}

impl LineBuffer {
    /// An empty line.
    pub fn new() -> LineBuffer
        ensures { Holds result [] }
    {
        LineBuffer {
            bytes: ArrayVec::new(),
            is_long: false,
        }
    }

    /// Empties it.
    fn clear(&mut self)
        ensures { Holds self.new [] }
    {
        self.bytes.clear();
        self.is_long = false;
    }

    /// Whether it has no byte.
    fn is_empty(&self) -> bool
        ensures { (line : List ℕ) → Holds self.now line → (IsTrue result ↔ (line ≡ [])) }
    {
        !self.is_long && self.bytes.is_empty()
    }

    /// Adds a byte, which is dropped where the line is too long to be read.
    fn push(&mut self, byte: u8)
        ensures { (line : List ℕ) → Holds self.old line → Holds self.new (line ++ byte ∷ []) }
    {
        if self.bytes.try_push(byte).is_err() {
            self.is_long = true;
        }
    }

    /// Its bytes, None where there are more than can be read.
    pub fn bytes(&self) -> Option<&[u8]>
        ensures { (line : List ℕ) → Holds self.now line →
            MatchOption result (longest_line < length line) (λ bytes. bytes.now ≡ line) }
    {
        if self.is_long {
            return None;
        }
        Some(self.bytes.as_slice())
    }
}

/// What was found where a line was looked for.
#[derive(Clone, Copy)]
pub enum NextLine {
    /// A line that ends in a line feed.
    Ended,
    /// The last line, without a line feed.
    Last,
    /// No line: the text has ended.
    Missing,
}

impl NextLine {
    /// Whether there was no line.
    pub fn is_missing(self) -> bool
        ensures { result ≡ is_missing self }
    {
        matches!(self, NextLine::Missing)
    }

    /// Whether it was the last line.
    pub fn is_last(self) -> bool
        ensures { result ≡ is_last self }
    {
        matches!(self, NextLine::Last)
    }
}

/// Reads the next line, without its line feed. What follows the last line feed is a line only where
/// it isn't empty.
pub fn next_line<R: Read>(
    reader: &mut Counted<R>,
    line: &mut LineBuffer,
) -> Result<NextLine, ReadFault>
    ensures { ReadsLine R.remaining reader.old reader.new line.new result }
{
    line.clear();
    loop {
        match read_byte(reader) {
            Err(fault) => return Err(fault),
            Ok(None) => {
                if line.is_empty() {
                    return Ok(NextLine::Missing);
                }
                return Ok(NextLine::Last);
            }
            Ok(Some(byte)) => {
                if byte == b'\n' {
                    return Ok(NextLine::Ended);
                }
                line.push(byte);
            }
        }
    }
}
