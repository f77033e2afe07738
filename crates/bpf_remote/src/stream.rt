//! What a stream of bytes says, item by item.
ghost use Rattle.std.specs.Prelude.{◌≡◌, List, false, ℕ};
ghost use Rattle.bpf_remote.specs.Cuts.{FindsStart, ReadsBody, IsSorted, ReadsPacket, ReadsSum};
ghost use Rattle.bpf_remote.specs.Packets.{Holds, is_end, is_sum};
ghost use Rattle.bpf_remote.specs.Streams.{ReadsItem};

use crate::body::Body;
use crate::digits::digit_value;
use crate::packet::sum_of;
use counted_io::{Counted, ReadFault, read_byte};
use std::io::Read;

/// What comes next in a stream.
#[derive(Clone, Copy)]
pub enum Item {
    /// A packet, whose body was read.
    Packet,
    /// A packet with a wrong sum, or with a body of more than 16,384 bytes.
    Damaged,
    /// `-`: the last answer is wanted again.
    Again,
    /// Nothing more is whole.
    End,
}

impl Item {
    /// Whether nothing more is whole.
    pub fn is_end(self) -> bool
        ensures { result ≡ is_end self }
    {
        matches!(self, Item::End)
    }
}

/// Where noise ends.
#[derive(Clone, Copy)]
pub(crate) enum Start {
    /// `$`.
    Packet,
    /// `-`.
    Again,
    /// The end of the stream.
    Missing,
}

/// Reads the next item of a stream, and the body of a packet. It takes no memory.
pub fn next_item<R: Read>(reader: &mut Counted<R>, body: &mut Body) -> Result<Item, ReadFault>
    ensures { ReadsItem R.remaining reader.old reader.new body.new result }
{
    match find_start(reader) {
        Err(fault) => Err(fault),
        Ok(Start::Missing) => Ok(Item::End),
        Ok(Start::Again) => Ok(Item::Again),
        Ok(Start::Packet) => read_packet(reader, body),
    }
}

/// Reads up to the first byte that says something outside of a packet.
fn find_start<R: Read>(reader: &mut Counted<R>) -> Result<Start, ReadFault>
    ensures { FindsStart R.remaining reader.old reader.new result }
{
    loop {
        match read_byte(reader) {
            Err(fault) => return Err(fault),
            Ok(None) => return Ok(Start::Missing),
            Ok(Some(byte)) => {
                if byte == b'$' {
                    return Ok(Start::Packet);
                }
                if byte == b'-' {
                    return Ok(Start::Again);
                }
            }
        }
    }
}

/// Reads what stands behind `$`.
fn read_packet<R: Read>(reader: &mut Counted<R>, body: &mut Body) -> Result<Item, ReadFault>
    ensures { ReadsPacket R.remaining reader.old reader.new body.new result }
{
    match read_body(reader, body) {
        Err(fault) => return Err(fault),
        Ok(false) => return Ok(Item::End),
        Ok(true) => {}
    }
    match read_sum(reader) {
        Err(fault) => Err(fault),
        Ok(None) => Ok(Item::End),
        Ok(Some((high, low))) => Ok(sort(body, high, low)),
    }
}

/// Whether a packet with these digits is whole.
fn sort(body: &Body, high: u8, low: u8) -> Item
    ensures sorted { (text : List ℕ) → Holds body.now text → IsSorted text high low result }
    ensures short { result ≡ Item.Packet → body.now.is_long ≡ false }
{
    match body.bytes() {
        Some(bytes) if is_sum(high, low, bytes) => Item::Packet,
        _ => Item::Damaged,
    }
}

/// Whether two digits say the sum of a body.
fn is_sum(high: u8, low: u8, body: &[u8]) -> bool
    ensures { result ≡ is_sum high low body.now }
{
    match (digit_value(high), digit_value(low)) {
        (Some(high), Some(low)) => 16 * high + low == sum_of(body),
        _ => false,
    }
}

/// Reads a body with the `#` behind it. Answers false where the stream ends before.
fn read_body<R: Read>(reader: &mut Counted<R>, body: &mut Body) -> Result<bool, ReadFault>
    ensures { ReadsBody R.remaining reader.old reader.new body.new result }
{
    body.clear();
    loop {
        match read_byte(reader) {
            Err(fault) => return Err(fault),
            Ok(None) => return Ok(false),
            Ok(Some(byte)) => {
                if byte == b'#' {
                    return Ok(true);
                }
                body.push(byte);
            }
        }
    }
}

/// Reads the two bytes behind a `#`. Answers None where the stream ends before.
fn read_sum<R: Read>(reader: &mut Counted<R>) -> Result<Option<(u8, u8)>, ReadFault>
    ensures { ReadsSum R.remaining reader.old reader.new result }
{
    let high = match read_byte(reader) {
        Err(fault) => return Err(fault),
        Ok(None) => return Ok(None),
        Ok(Some(byte)) => byte,
    };
    match read_byte(reader) {
        Err(fault) => Err(fault),
        Ok(None) => Ok(None),
        Ok(Some(low)) => Ok(Some((high, low))),
    }
}
