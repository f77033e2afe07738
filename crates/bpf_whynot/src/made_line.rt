//! The line of the newest kept move that made the value that is asked about.
ghost use Rattle.std.specs.Prelude.{◌≡◌, IsSome, flat_map};
ghost use Rattle.bpf_isa.specs.Programs.{insn_at};
ghost use Rattle.bpfdb_script.specs.SlotTexts.{text_of_slot};
ghost use Rattle.counted_io.specs.Writing.{WritesAfter};
ghost use Rattle.bpf_whynot.specs.Answers as spec;

use crate::made::Made;
use crate::maker::made_by;
use crate::may_write::may_write;
use bpf_isa::{Insn, Program};
use bpf_origin::{Part, Parts, put_part_name, put_value};
use bpfdb_script::{SlotTexts, put_at, text_of_slot};
use counted_io::{Counted, WriteFault, put, put_decimal};
use std::io::Write;

/// How many functions can stand at once.
const FRAMES: usize = 8;

/// Writes the line of a move that made the value: how many moves back it lies, what it made, and its
/// instruction, with what is told of its slot.
pub(crate) fn put_made<W: Write>(
    writer: &mut Counted<W>,
    so_far: Result<(), WriteFault>,
    places: SlotTexts<'_>,
    program: &Program,
    made: Made,
) -> Result<(), WriteFault>
    ensures { WritesAfter W.contents writer.old so_far writer.new result
        (spec.made_line places.entry program.now made) }
{
    match program.insn_at(made.slot) {
        Some(insn) => put_made_insn(writer, so_far, places, program, made, &insn),
        None => so_far,
    }
}

/// Writes it where this is the instruction.
fn put_made_insn<W: Write>(
    writer: &mut Counted<W>,
    so_far: Result<(), WriteFault>,
    places: SlotTexts<'_>,
    program: &Program,
    made: Made,
    insn: &Insn,
) -> Result<(), WriteFault>
    requires { IsSome (insn_at program.now made.slot) }
    ensures { WritesAfter W.contents writer.old so_far writer.new result
        (spec.made_insn places.entry program.now made insn.now) }
{
    let headed = put_made_head(writer, so_far, made, insn);
    put_made_tail(writer, headed, places, program, made.slot)
}

/// Writes how many moves back it lies, and what it made.
fn put_made_head<W: Write>(
    writer: &mut Counted<W>,
    so_far: Result<(), WriteFault>,
    made: Made,
    insn: &Insn,
) -> Result<(), WriteFault>
    ensures { WritesAfter W.contents writer.old so_far writer.new result
        (spec.made_head made insn.now) }
{
    let begun = put(writer, so_far, b"made: -");
    let counted = put_decimal(writer, begun, made.moves);
    let parted = put(writer, counted, b" ");
    put_made_values(writer, parted, made.depth, insn)
}

/// Writes the instruction of a slot, and what is told of that.
fn put_made_tail<W: Write>(
    writer: &mut Counted<W>,
    so_far: Result<(), WriteFault>,
    places: SlotTexts<'_>,
    program: &Program,
    slot: usize,
) -> Result<(), WriteFault>
    requires { IsSome (insn_at program.now slot) }
    ensures { WritesAfter W.contents writer.old so_far writer.new result
        (spec.made_tail places.entry program.now slot) }
{
    let named = put_at(writer, so_far, program, slot);
    let told = put_slot_text(writer, named, places, slot);
    put(writer, told, b"\n")
}

/// Writes what is told of a slot.
fn put_slot_text<W: Write>(
    writer: &mut Counted<W>,
    so_far: Result<(), WriteFault>,
    places: SlotTexts<'_>,
    slot: usize,
) -> Result<(), WriteFault>
    ensures { WritesAfter W.contents writer.old so_far writer.new result
        (text_of_slot places.entry slot) }
{
    put(writer, so_far, text_of_slot(places, slot))
}

/// Writes what an instruction makes of a function at a depth of calls.
fn put_made_values<W: Write>(
    writer: &mut Counted<W>,
    so_far: Result<(), WriteFault>,
    depth: usize,
    insn: &Insn,
) -> Result<(), WriteFault>
    ensures { WritesAfter W.contents writer.old so_far writer.new result
        (spec.made_values depth insn.now) }
{
    let value = made_by(insn).unwrap_or(0);
    put_values(writer, so_far, value, made_parts(depth, insn).as_slice())
}

/// Where it makes that.
pub(crate) fn made_parts(depth: usize, insn: &Insn) -> Parts
    ensures { result.items ≡ spec.made_parts depth insn.now }
{
    if depth <= FRAMES {
        may_write(insn, depth)
    } else {
        Parts::new()
    }
}

/// Writes that these parts are made this value.
fn put_values<W: Write>(
    writer: &mut Counted<W>,
    so_far: Result<(), WriteFault>,
    value: u64,
    parts: &[Part],
) -> Result<(), WriteFault>
    ensures { WritesAfter W.contents writer.old so_far writer.new result
        (flat_map (spec.value_of value) parts.now) }
{
    let mut told = so_far;
    for part in parts {
        told = put_part_value(writer, told, value, *part);
    }
    told
}

/// Writes that a part is made this value.
#[tactic(auto, unfolding(crate::specs::Answers::value_of))]
fn put_part_value<W: Write>(
    writer: &mut Counted<W>,
    so_far: Result<(), WriteFault>,
    value: u64,
    part: Part,
) -> Result<(), WriteFault>
    ensures { WritesAfter W.contents writer.old so_far writer.new result (spec.value_of value part) }
{
    let named = put_part_name(writer, so_far, part);
    let valued = put_value(writer, named, value);
    put(writer, valued, b"; ")
}
