//! The line of the move after which a slot was out of reach.
ghost use Rattle.std.specs.Prelude.{◌≡◌, ◌≤◌, ◌<◌, ◌+◌, ◌++◌, [], length};
ghost use Rattle.counted_io.specs.Writing.{WritesAfter};
ghost use Rattle.bpf_journal.specs.Histories.{is_step as is_step_of};
ghost use Rattle.bpf_steps.specs.State.{State};
ghost use Rattle.bpf_machine.specs.declared.moves.Move.{Move};
ghost use Rattle.bpf_machine.specs.declared.moves.Move.TheVariants as move_of;
ghost use Rattle.bpf_origin.specs.Reads as reads;
ghost use Rattle.bpf_whynot.specs.Answers as spec;
ghost use Rattle.bpf_whynot.specs.Standings.{standing};

use crate::standing::Standing;
use bpf_isa::{Insn, Reg, Source};
use bpf_machine::Cpu;
use bpf_origin::{Parts, put_move, put_operands, put_slot, register_part};
use bpfdb_script::SlotTexts;
use counted_io::{Counted, Piece, WriteFault, put, put_all, put_decimal};
use std::io::Write;

/// The registers that a move compared, from the machine before it.
pub fn compared(cpu: &Cpu, is_step: bool) -> Parts
    ensures { (m : Move) → is_step ≡ is_step_of m →
        result.items ≡ reads.conditions cpu.now m }
{
    if is_step {
        compared_here(cpu)
    } else {
        Parts::new()
    }
}

/// The registers that the next step compares.
fn compared_here(cpu: &Cpu) -> Parts
    ensures { result.items ≡ reads.conditions cpu.now move_of.Step }
{
    let mut parts = Parts::new();
    match cpu.program().insn_at(usize::from(cpu.pc())) {
        Some(insn) => add_conditions(cpu, insn, &mut parts),
        None => {}
    }
    parts
}

/// Adds the registers that an instruction compares.
fn add_conditions(cpu: &Cpu, insn: Insn, parts: &mut Parts)
    requires { parts.old.items ≡ [] }
    ensures { parts.new.items ≡ reads.conditions_by cpu.now insn }
{
    match insn {
        Insn::JumpIf { dst, source, .. } => {
            add_register(cpu, dst, parts);
            add_source(cpu, source, parts);
        }
        _ => {}
    }
}

/// Adds a register. r10 is no place.
fn add_register(cpu: &Cpu, register: Reg, parts: &mut Parts)
    requires { length parts.old.items < 8 }
    ensures items { parts.new.items ≡ parts.old.items ++ reads.of_register cpu.now register }
    ensures count { length parts.new.items ≤ length parts.old.items + 1 }
{
    if register.number() < 10 {
        parts.push(register_part(cpu.depth(), register));
    }
}

/// Adds a second operand.
fn add_source(cpu: &Cpu, source: Source, parts: &mut Parts)
    requires { length parts.old.items < 8 }
    ensures { parts.new.items ≡ parts.old.items ++ reads.of_source cpu.now source }
{
    match source {
        Source::Immediate(_) => {}
        Source::Register(register) => add_register(cpu, register, parts),
    }
}

/// Writes where a step went.
#[tactic(auto, unfolding(crate::specs::Answers::jumped_text))]
fn put_step_went<W: Write>(
    writer: &mut Counted<W>,
    so_far: Result<(), WriteFault>,
    cpu: &Cpu,
    after: Standing,
) -> Result<(), WriteFault>
    ensures { (y : State) → after ≡ standing y →
        WritesAfter W.contents writer.old so_far writer.new result
        (spec.went_text cpu.now move_of.Step y) }
{
    if after.ended {
        return put(writer, so_far, b"; faulted");
    }
    if after.slot == usize::from(cpu.pc()) + 1 {
        return put(writer, so_far, b"; went on");
    }
    let pieces = [
        Piece::Text(b"; jumped to "),
        Piece::Decimal(after.slot as u64),
    ];
    put_all(writer, so_far, &pieces)
}

/// Writes where an edit went.
#[tactic(auto, unfolding(crate::specs::Answers::edited_text))]
fn put_edited<W: Write>(
    writer: &mut Counted<W>,
    so_far: Result<(), WriteFault>,
    slot: usize,
) -> Result<(), WriteFault>
    ensures { WritesAfter W.contents writer.old so_far writer.new result (spec.edited_text slot) }
{
    let pieces = [Piece::Text(b"; then at "), Piece::Decimal(slot as u64)];
    put_all(writer, so_far, &pieces)
}

/// Writes where a move went.
fn put_went<W: Write>(
    writer: &mut Counted<W>,
    so_far: Result<(), WriteFault>,
    cpu: &Cpu,
    is_step: bool,
    after: Standing,
) -> Result<(), WriteFault>
    ensures { (m : Move) (y : State) → is_step ≡ is_step_of m → after ≡ standing y →
        WritesAfter W.contents writer.old so_far writer.new result
        (spec.went_text cpu.now m y) }
{
    if is_step {
        put_step_went(writer, so_far, cpu, after)
    } else {
        put_edited(writer, so_far, after.slot)
    }
}

/// Writes the line of a move, from the machine before it: which it was, what it compared, where it
/// went, and of a step what is told of its slot.
pub fn put_line<W: Write>(
    writer: &mut Counted<W>,
    so_far: Result<(), WriteFault>,
    places: SlotTexts<'_>,
    moves: u64,
    cpu: &Cpu,
    is_step: bool,
    after: Standing,
) -> Result<(), WriteFault>
    ensures { (m : Move) (y : State) → is_step ≡ is_step_of m → after ≡ standing y →
        WritesAfter W.contents writer.old so_far writer.new result
        (spec.lost_line places.entry moves cpu.now m y) }
{
    let begun = put(writer, so_far, b"-");
    let counted = put_decimal(writer, begun, moves);
    let parted = put(writer, counted, b" ");
    let named = put_move(writer, parted, cpu, is_step);
    let valued = put_operands(writer, named, cpu, is_step);
    let went = put_went(writer, valued, cpu, is_step, after);
    let told = put_slot(writer, went, places, cpu, is_step);
    put(writer, told, b"\n")
}
