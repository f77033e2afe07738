//! Lines of cases, cut from what was read ahead.
ghost use Rattle.std.specs.Prelude.{◌≡◌, ◌≤◌, ◌<◌, ◌++◌, [], ◌↔◌, IfOk, IsTrue, List, MatchOption, OnOk, length, ℕ};
ghost use Rattle.memchr.specs.Find.{IsFirstByte, is_byte};
ghost use Rattle.input_texts.specs.Cases.{longest_line};
ghost use Rattle.input_texts.specs.ReadLines.{Holds, ReadsLine, is_last, is_missing};
ghost use Rattle.input_texts.specs.ReadsAhead.{TakesAhead};

use crate::read_ahead::ReadAhead;
use counted_io::Counted;
use memchr::memchr;
use std::alloc::{AllocError, Global};
use std::io::Read;
use std::marker::Model;

/// The most bytes of a line: 2 MiB.
pub const LONGEST_LINE: usize = 2_097_152;

/// A line: its bytes, up to 2,097,152 of them, or that it has more.
#[derive(Drop)]
pub struct LineBuffer {
    bytes: Vec<u8>,
    is_long: bool,
}

impl Model for LineBuffer {
    ghost use Rattle.input_texts.specs.ReadLines.{Buffer};

    ghost Value = { Buffer };

    ghost view = { λ l. record { bytes = l.bytes.items; is_long = l.is_long } };
}

impl LineBuffer {
    /// An empty line.
    pub fn new(alloc: Global) -> LineBuffer
        ensures { Holds result [] }
    {
        LineBuffer {
            bytes: Vec::new(alloc),
            is_long: false,
        }
    }

    /// Empties it.
    fn clear(&mut self)
        ensures { Holds self.new [] }
    {
        self.bytes.clear();
        self.is_long = false;
    }

    /// Whether it has no byte.
    fn is_empty(&self) -> bool
        ensures { (line : List ℕ) → Holds self.now line → (IsTrue result ↔ (line ≡ [])) }
    {
        !self.is_long && self.bytes.is_empty()
    }

    /// Adds a part, which is dropped where the line is too long to be read.
    fn append(&mut self, part: &[u8]) -> Result<(), AllocError>
        ensures { OnOk result ((line : List ℕ) → Holds self.old line
            → Holds self.new (line ++ part.now)) }
    {
        if self.is_long || LONGEST_LINE.saturating_sub(self.bytes.len()) < part.len() {
            self.is_long = true;
            return Ok(());
        }
        match self.bytes.extend_from_slice(part) {
            Ok(()) => Ok(()),
            Err(_) => Err(AllocError),
        }
    }

    /// Adds what is ahead up to a line feed, which is dropped, or all of it. Answers whether the line
    /// has ended.
    fn take(&mut self, ahead: &mut ReadAhead) -> Result<bool, AllocError>
        ensures { IfOk result (λ ended. (line : List ℕ) → Holds self.old line
            → TakesAhead ended line self.new ahead.old ahead.new) }
    {
        let bytes = ahead.as_slice();
        match memchr(b'\n', bytes) {
            Some(end) => {
                self.append(&bytes[..end])?;
                ahead.consume(end + 1);
                Ok(true)
            }
            None => {
                let count = bytes.len();
                self.append(bytes)?;
                ahead.consume(count);
                Ok(false)
            }
        }
    }

    /// Its bytes, None where there are more than can be read.
    pub fn bytes(&self) -> Option<&[u8]>
        ensures { (line : List ℕ) → Holds self.now line →
            MatchOption result (longest_line < length line)
            (λ bytes. (bytes.now ≡ line) × (length line ≤ longest_line)) }
    {
        if self.is_long {
            return None;
        }
        Some(self.bytes.as_slice())
    }
}

/// What was found where a line was looked for.
#[derive(Clone, Copy)]
pub enum NextLine {
    /// A line that ends in a line feed.
    Ended,
    /// The last line, without a line feed.
    Last,
    /// No line: the text has ended.
    Missing,
}

impl NextLine {
    /// Whether there was no line.
    pub fn is_missing(self) -> bool
        ensures { result ≡ is_missing self }
    {
        matches!(self, NextLine::Missing)
    }

    /// Whether it was the last line.
    pub fn is_last(self) -> bool
        ensures { result ≡ is_last self }
    {
        matches!(self, NextLine::Last)
    }
}

/// Why no line was read.
#[derive(Clone, Copy)]
pub enum ReadFault {
    /// The reader answered an error.
    Read,
    /// Memory ran out.
    Memory,
}

/// Reads the next line, without its line feed: what is ahead, and then as much as is needed to find
/// where the line ends, in large pieces. What follows the last line feed is a line only where it isn't
/// empty.
pub fn next_line<R: Read>(
    reader: &mut Counted<R>,
    ahead: &mut ReadAhead,
    line: &mut LineBuffer,
) -> Result<NextLine, ReadFault>
    ensures { ReadsLine R.remaining reader.old ahead.old reader.new ahead.new line.new result }
{
    line.clear();
    'parts: loop {
        match line.take(ahead) {
            Err(_) => return Err(ReadFault::Memory),
            Ok(true) => return Ok(NextLine::Ended),
            Ok(false) => {}
        }
        match ahead.refill(reader) {
            Err(_) => return Err(ReadFault::Read),
            Ok(true) => {}
            Ok(false) => {
                if line.is_empty() {
                    return Ok(NextLine::Missing);
                }
                return Ok(NextLine::Last);
            }
        }
    }
}
