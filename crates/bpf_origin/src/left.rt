//! The text of the places that are left at an answer's end.
ghost use Rattle.std.specs.Prelude.{◌≡◌, ◌<◌, ◌+◌, flat_map};
ghost use Rattle.counted_io.specs.Writing.{WritesAfter};
ghost use Rattle.bpf_origin.specs.Texts as spec;

use crate::line::put_part;
use crate::place::{Part, Place};
use bpf_entries::frame_base;
use bpf_machine::Cpu;
use counted_io::{Counted, WriteFault, put, put_decimal, put_hexadecimal};
use std::io::Write;

/// The address of the context's first byte.
const CONTEXT_BASE: u64 = 0x1_0000_0000;

/// Writes the lines of the places that are left, in a machine's state: bytes that follow one
/// another are one line.
pub fn put_left<W: Write>(
    writer: &mut Counted<W>,
    so_far: Result<(), WriteFault>,
    opening: bool,
    cpu: &Cpu,
    places: &[Place],
) -> Result<(), WriteFault>
    ensures { WritesAfter W.contents writer.old so_far writer.new result
        (spec.left_text opening cpu.now places.now) }
{
    match places.split_first() {
        Some((first, others)) => {
            put_joined(writer, so_far, opening, cpu, part_of(*first), others)
        }
        None => so_far,
    }
}

/// Writes the lines of the part that some places are, and of the places behind them.
fn put_joined<W: Write>(
    writer: &mut Counted<W>,
    so_far: Result<(), WriteFault>,
    opening: bool,
    cpu: &Cpu,
    first: Part,
    others: &[Place],
) -> Result<(), WriteFault>
    ensures { WritesAfter W.contents writer.old so_far writer.new result
        (flat_map (spec.left_line opening cpu.now) (spec.joined first others.now)) }
{
    let mut told = so_far;
    let mut run = first;
    for place in others {
        match grown(run, *place) {
            Some(longer) => run = longer,
            None => {
                told = put_left_line(writer, told, opening, cpu, run);
                run = part_of(*place);
            }
        }
    }
    put_left_line(writer, told, opening, cpu, run)
}

/// A place as a part.
fn part_of(place: Place) -> Part
    ensures { result ≡ spec.part_of place }
{
    match place {
        Place::Register { depth, number } => Part::Register { depth, number },
        Place::Word { index } => Part::Word { index },
        Place::Byte { address } => Part::Bytes { address, len: 1 },
    }
}

/// Fewer than eight bytes and a place, if it is the byte behind them, as one part.
fn grown(run: Part, place: Place) -> Option<Part>
    ensures { result ≡ spec.grown run place }
{
    match (run, place) {
        (Part::Bytes { address, len }, Place::Byte { address: next }) => {
            if len < 8 && address.checked_add(len as u64) == Some(next) {
                Some(Part::Bytes {
                    address,
                    len: len + 1,
                })
            } else {
                None
            }
        }
        _ => None,
    }
}

/// Writes the line of a part that is left.
fn put_left_line<W: Write>(
    writer: &mut Counted<W>,
    so_far: Result<(), WriteFault>,
    opening: bool,
    cpu: &Cpu,
    part: Part,
) -> Result<(), WriteFault>
    ensures { WritesAfter W.contents writer.old so_far writer.new result
        (spec.left_line opening cpu.now part) }
{
    let begun = put(writer, so_far, b"left ");
    let valued = put_part(writer, begun, cpu, part);
    let placed = put_context(writer, valued, cpu, part);
    put_since(writer, placed, opening, part)
}

/// Writes with which byte of the context a part begins, nothing for another part.
fn put_context<W: Write>(
    writer: &mut Counted<W>,
    so_far: Result<(), WriteFault>,
    cpu: &Cpu,
    part: Part,
) -> Result<(), WriteFault>
    ensures { WritesAfter W.contents writer.old so_far writer.new result
        (spec.context_text cpu.now part) }
{
    match part {
        Part::Bytes { address, .. } => put_offset(writer, so_far, cpu, address),
        _ => so_far,
    }
}

/// Writes which byte of the context stands at an address, nothing for one elsewhere.
fn put_offset<W: Write>(
    writer: &mut Counted<W>,
    so_far: Result<(), WriteFault>,
    cpu: &Cpu,
    address: u64,
) -> Result<(), WriteFault>
    ensures { WritesAfter W.contents writer.old so_far writer.new result
        (spec.offset_text cpu.now address) }
{
    if !in_context(cpu, address) {
        return so_far;
    }
    let begun = put(writer, so_far, b"; byte ");
    let counted = put_decimal(writer, begun, address.saturating_sub(CONTEXT_BASE));
    put(writer, counted, b" of the context")
}

/// Whether an address is one of the context's.
fn in_context(cpu: &Cpu, address: u64) -> bool
    ensures { result ≡ spec.in_context cpu.now address }
{
    address < frame_base(0) && cpu.peek(address, 1).is_some()
}

/// Whether a part lies in the frame of the first function, which no call enters.
fn in_first_frame(part: Part) -> bool
    ensures { result ≡ spec.in_first_frame part }
{
    match part {
        Part::Bytes { address, .. } => { frame_base(0) <= address && address < frame_base(1) }
        _ => false,
    }
}

/// Writes since when a part holds its value.
fn put_since<W: Write>(
    writer: &mut Counted<W>,
    so_far: Result<(), WriteFault>,
    opening: bool,
    part: Part,
) -> Result<(), WriteFault>
    ensures { WritesAfter W.contents writer.old so_far writer.new result
        (spec.since_text opening part) }
{
    if opening {
        put_opening(writer, so_far, part)
    } else {
        put(writer, so_far, b"; before the kept history\n")
    }
}

/// Writes that a part holds the value that it had at the opening.
fn put_opening<W: Write>(
    writer: &mut Counted<W>,
    so_far: Result<(), WriteFault>,
    part: Part,
) -> Result<(), WriteFault>
    ensures { WritesAfter W.contents writer.old so_far writer.new result (spec.opening_text part) }
{
    if in_first_frame(part) {
        put(writer, so_far, b"; not written since the call\n")
    } else {
        put(writer, so_far, b"; at the opening\n")
    }
}
