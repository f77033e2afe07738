//! The text of an answer's lines.
ghost use Rattle.std.specs.Prelude.{◌≡◌, ◌<◌, [], flat_map};
ghost use Rattle.std.specs.Option.{option_map_or};
ghost use Rattle.counted_io.specs.Writing.{WritesAfter};
ghost use Rattle.bpf_journal.specs.Histories.{is_step as is_step_of};
ghost use Rattle.bpf_isa.specs.Programs.{insn_at};
ghost use Rattle.bpf_machine.specs.declared.moves.Move.{Move};
ghost use Rattle.bpf_origin.specs.Texts as spec;

use crate::place::Part;
use crate::value::{register_at, word_at};
use bpf_isa::Insn;
use bpf_machine::Cpu;
use bpfdb_script::{SlotTexts, put_at, text_of_slot};
use byteorder::{ByteOrder, LittleEndian};
use counted_io::{Counted, Piece, WriteFault, put, put_all, put_decimal};
use std::io::Write;

/// Writes the name of a register, by the depth of its function unless that is 0.
#[tactic(auto, unfolding(crate::specs::Texts::register_name))]
fn put_register_name<W: Write>(
    writer: &mut Counted<W>,
    so_far: Result<(), WriteFault>,
    depth: usize,
    number: u8,
) -> Result<(), WriteFault>
    ensures { WritesAfter W.contents writer.old so_far writer.new result
        (spec.register_name depth number) }
{
    let number = u64::from(number);
    if depth == 0 {
        let pieces = [Piece::Text(b"r"), Piece::Decimal(number)];
        put_all(writer, so_far, &pieces)
    } else {
        let pieces = [
            Piece::Text(b"r"),
            Piece::Decimal(number),
            Piece::Text(b" at depth "),
            Piece::Decimal(depth as u64),
        ];
        put_all(writer, so_far, &pieces)
    }
}

/// Writes the name of a part.
#[tactic(auto, unfolding(crate::specs::Texts::word_name, crate::specs::Texts::bytes_name))]
pub fn put_part_name<W: Write>(
    writer: &mut Counted<W>,
    so_far: Result<(), WriteFault>,
    part: Part,
) -> Result<(), WriteFault>
    ensures { WritesAfter W.contents writer.old so_far writer.new result (spec.part_name part) }
{
    match part {
        Part::Register { depth, number } => put_register_name(writer, so_far, depth, number),
        Part::Word { index } => {
            let pieces = [Piece::Text(b"word "), Piece::Decimal(index as u64)];
            put_all(writer, so_far, &pieces)
        }
        Part::Bytes { address, len } => {
            let pieces = [
                Piece::Hexadecimal(address),
                Piece::Text(b":"),
                Piece::Decimal(len as u64),
            ];
            put_all(writer, so_far, &pieces)
        }
    }
}

/// Writes a value.
#[tactic(auto, unfolding(crate::specs::Texts::value_text))]
pub fn put_value<W: Write>(
    writer: &mut Counted<W>,
    so_far: Result<(), WriteFault>,
    value: u64,
) -> Result<(), WriteFault>
    ensures { WritesAfter W.contents writer.old so_far writer.new result (spec.value_text value) }
{
    let pieces = [Piece::Text(b" = "), Piece::Hexadecimal(value)];
    put_all(writer, so_far, &pieces)
}

/// Writes the value of one to eight bytes that are present, and else nothing.
fn put_bytes_value<W: Write>(
    writer: &mut Counted<W>,
    so_far: Result<(), WriteFault>,
    cpu: &Cpu,
    address: u64,
    len: usize,
) -> Result<(), WriteFault>
    ensures { WritesAfter W.contents writer.old so_far writer.new result
        (spec.bytes_value cpu.now address len) }
{
    if len == 0 || 8 < len {
        return so_far;
    }
    match cpu.peek(address, len) {
        Some(run) => put_value(writer, so_far, LittleEndian::read_uint(run, len)),
        None => so_far,
    }
}

/// Writes the value of a part in a machine.
fn put_part_value<W: Write>(
    writer: &mut Counted<W>,
    so_far: Result<(), WriteFault>,
    cpu: &Cpu,
    part: Part,
) -> Result<(), WriteFault>
    ensures { WritesAfter W.contents writer.old so_far writer.new result
        (spec.part_value cpu.now part) }
{
    match part {
        Part::Register { depth, number } => {
            put_value(writer, so_far, register_at(cpu, depth, number))
        }
        Part::Word { index } => put_value(writer, so_far, word_at(cpu.trace(), index)),
        Part::Bytes { address, len } => put_bytes_value(writer, so_far, cpu, address, len),
    }
}

/// Writes a part with its value in a machine.
pub fn put_part<W: Write>(
    writer: &mut Counted<W>,
    so_far: Result<(), WriteFault>,
    cpu: &Cpu,
    part: Part,
) -> Result<(), WriteFault>
    ensures { WritesAfter W.contents writer.old so_far writer.new result
        (spec.part_text cpu.now part) }
{
    let named = put_part_name(writer, so_far, part);
    put_part_value(writer, named, cpu, part)
}

/// Writes a part that a move wrote, with its value.
fn put_written<W: Write>(
    writer: &mut Counted<W>,
    so_far: Result<(), WriteFault>,
    cpu: &Cpu,
    part: Part,
) -> Result<(), WriteFault>
    ensures { WritesAfter W.contents writer.old so_far writer.new result
        (spec.written_text cpu.now part) }
{
    let told = put_part(writer, so_far, cpu, part);
    put(writer, told, b"; ")
}

/// Writes the parts that a move wrote.
fn put_parts<W: Write>(
    writer: &mut Counted<W>,
    so_far: Result<(), WriteFault>,
    cpu: &Cpu,
    parts: &[Part],
) -> Result<(), WriteFault>
    ensures { WritesAfter W.contents writer.old so_far writer.new result
        (flat_map (spec.written_text cpu.now) parts.now) }
{
    let mut told = so_far;
    for part in parts {
        told = put_written(writer, told, cpu, *part);
    }
    told
}

/// Writes the first half of a move's line, from the machine after it: how many moves it lies back
/// and what it wrote.
pub fn put_head<W: Write>(
    writer: &mut Counted<W>,
    so_far: Result<(), WriteFault>,
    moves: u64,
    cpu: &Cpu,
    wrote: &[Part],
) -> Result<(), WriteFault>
    ensures { WritesAfter W.contents writer.old so_far writer.new result
        (spec.head moves cpu.now wrote.now) }
{
    let begun = put(writer, so_far, b"-");
    let counted = put_decimal(writer, begun, moves);
    let parted = put(writer, counted, b" ");
    put_parts(writer, parted, cpu, wrote)
}

/// Writes a part that a move read.
fn put_read<W: Write>(
    writer: &mut Counted<W>,
    so_far: Result<(), WriteFault>,
    part: Part,
) -> Result<(), WriteFault>
    ensures { WritesAfter W.contents writer.old so_far writer.new result (spec.read_text part) }
{
    let begun = put(writer, so_far, b" ");
    put_part_name(writer, begun, part)
}

/// Writes the parts that a move read, of which there are some.
fn put_some_reads<W: Write>(
    writer: &mut Counted<W>,
    so_far: Result<(), WriteFault>,
    parts: &[Part],
) -> Result<(), WriteFault>
    ensures { WritesAfter W.contents writer.old so_far writer.new result
        (flat_map spec.read_text parts.now) }
{
    let mut told = so_far;
    for part in parts {
        told = put_read(writer, told, *part);
    }
    told
}

/// Writes what a move read.
fn put_reads<W: Write>(
    writer: &mut Counted<W>,
    so_far: Result<(), WriteFault>,
    parts: &[Part],
) -> Result<(), WriteFault>
    ensures { WritesAfter W.contents writer.old so_far writer.new result
        (spec.reads_text parts.now) }
{
    if parts.is_empty() {
        return so_far;
    }
    let begun = put(writer, so_far, b"; from");
    put_some_reads(writer, begun, parts)
}

/// Writes which move it was, from the machine before it.
pub fn put_move<W: Write>(
    writer: &mut Counted<W>,
    so_far: Result<(), WriteFault>,
    cpu: &Cpu,
    is_step: bool,
) -> Result<(), WriteFault>
    ensures { (m : Move) → is_step ≡ is_step_of m →
        WritesAfter W.contents writer.old so_far writer.new result (spec.move_text cpu.now m) }
{
    if is_step {
        cpu.invariant();
        put_at(writer, so_far, cpu.program(), usize::from(cpu.pc()))
    } else {
        put(writer, so_far, b"edit")
    }
}

/// Writes that bytes weren't written since the move, if it was a local call.
fn put_unwritten<W: Write>(
    writer: &mut Counted<W>,
    so_far: Result<(), WriteFault>,
    cpu: &Cpu,
    is_step: bool,
) -> Result<(), WriteFault>
    ensures { (m : Move) → is_step ≡ is_step_of m →
        WritesAfter W.contents writer.old so_far writer.new result
        (spec.unwritten_text cpu.now m) }
{
    if is_step {
        put_if_call(writer, so_far, cpu)
    } else {
        so_far
    }
}

/// Writes it where the instruction at pc is a local call.
fn put_if_call<W: Write>(
    writer: &mut Counted<W>,
    so_far: Result<(), WriteFault>,
    cpu: &Cpu,
) -> Result<(), WriteFault>
    ensures { WritesAfter W.contents writer.old so_far writer.new result
        (option_map_or spec.call_text (insn_at cpu.now.program cpu.now.pc) []) }
{
    match cpu.program().insn_at(usize::from(cpu.pc())) {
        Some(Insn::CallLocal { .. }) => put(writer, so_far, b"; not written since the call"),
        _ => so_far,
    }
}

/// Writes what is told of the slot of a step, from the machine before it; of an edit nothing.
pub fn put_slot<W: Write>(
    writer: &mut Counted<W>,
    so_far: Result<(), WriteFault>,
    places: SlotTexts<'_>,
    cpu: &Cpu,
    is_step: bool,
) -> Result<(), WriteFault>
    ensures { (m : Move) → is_step ≡ is_step_of m →
        WritesAfter W.contents writer.old so_far writer.new result
        (spec.slot_text places.entry cpu.now m) }
{
    if is_step {
        put(writer, so_far, text_of_slot(places, usize::from(cpu.pc())))
    } else {
        put(writer, so_far, b"")
    }
}

/// Writes the second half of a move's line, from the machine before it: which move it was, that no
/// later one wrote what a call made zero, what it read, and of a step what is told of its slot.
pub fn put_tail<W: Write>(
    writer: &mut Counted<W>,
    so_far: Result<(), WriteFault>,
    places: SlotTexts<'_>,
    cpu: &Cpu,
    is_step: bool,
    read: &[Part],
) -> Result<(), WriteFault>
    ensures { (m : Move) → is_step ≡ is_step_of m →
        WritesAfter W.contents writer.old so_far writer.new result
        (spec.tail places.entry cpu.now m read.now) }
{
    let named = put_move(writer, so_far, cpu, is_step);
    let marked = put_unwritten(writer, named, cpu, is_step);
    let told = put_reads(writer, marked, read);
    let placed = put_slot(writer, told, places, cpu, is_step);
    put(writer, placed, b"\n")
}
