//! Bytes that a reader gave, and that no line was cut from yet.
ghost use Rattle.std.specs.Prelude.{◌≡◌, ◌≤◌, [], drop, length};
ghost use Rattle.input_texts.specs.ReadsAhead.{ReadsOver, Refills};

use counted_io::{Counted, ReadFault};
use std::io::Read;
use std::marker::Model;

/// How many bytes are asked for at once: what a reader with a buffer of this size gives isn't copied
/// through that.
const ROOM: usize = 8192;

/// Bytes that were read from a reader, and that no line was cut from yet.
#[derive(Drop)]
pub struct ReadAhead {
    room: [u8; ROOM],
    start: usize,
    end: usize,
    ghost ordered: { start ≤ end },
    ghost within: { end ≤ 8192 },
}

impl Model for ReadAhead {
    ghost use Rattle.std.specs.Prelude.{ℕ, List, drop, take};

    ghost Value = { List ℕ };

    ghost view = { λ r. drop r.start (take r.end r.room) };
}

impl ReadAhead {
    /// None yet.
    pub fn new() -> ReadAhead
        ensures { result ≡ [] }
    {
        ReadAhead {
            room: [0; ROOM],
            start: 0,
            end: 0,
        }
    }

    /// The bytes.
    pub(crate) fn as_slice(&self) -> &[u8]
        ensures { result.now ≡ self.now }
    {
        let read = &self.room[..self.end];
        &read[self.start..]
    }

    /// Drops the first of them.
    pub(crate) fn consume(&mut self, count: usize)
        requires { count ≤ length self.old }
        ensures { self.new ≡ drop count self.old }
    {
        self.start += count;
    }

    /// Puts what one read gives in their place. Answers false at the end of what there is to read.
    pub(crate) fn refill<R: Read>(&mut self, reader: &mut Counted<R>) -> Result<bool, ReadFault>
        ensures { Refills R.remaining reader.old reader.new self.new result }
    {
        self.start = 0;
        self.end = 0;
        match read_over(reader, &mut self.room) {
            Ok(count) => {
                self.end = count;
                Ok(count > 0)
            }
            Err(fault) => Err(fault),
        }
    }
}

/// Puts what one read gives at the front of a room, and says how many bytes that are.
fn read_over<R: Read>(reader: &mut Counted<R>, room: &mut [u8; ROOM]) -> Result<usize, ReadFault>
    ensures { ReadsOver R.remaining reader.old reader.new room.new result }
{
    match reader.read(room) {
        Ok(count) => Ok(count),
        Err(_) => Err(ReadFault),
    }
}
