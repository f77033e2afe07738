//! What a conditional jump compares, as lines of branches tell it.
ghost use Rattle.std.specs.Prelude.{◌≡◌};
ghost use Rattle.counted_io.specs.Writing.{WritesAfter};
ghost use Rattle.bpf_journal.specs.Histories.{is_step as is_step_of};
ghost use Rattle.bpf_machine.specs.declared.moves.Move.{Move};
ghost use Rattle.bpf_machine.specs.declared.moves.Move.TheVariants as move_of;
ghost use Rattle.bpf_origin.specs.Texts as spec;

use bpf_isa::{Insn, Reg, Source};
use bpf_machine::Cpu;
use counted_io::{Counted, Piece, WriteFault, put_all};
use std::io::Write;

/// Writes the registers that a move compared, from the machine before it: of a step those of a
/// conditional jump, and else nothing.
pub fn put_operands<W: Write>(
    writer: &mut Counted<W>,
    so_far: Result<(), WriteFault>,
    cpu: &Cpu,
    is_step: bool,
) -> Result<(), WriteFault>
    ensures { (m : Move) → is_step ≡ is_step_of m →
        WritesAfter W.contents writer.old so_far writer.new result
        (spec.operands_text cpu.now m) }
{
    if is_step {
        put_operands_here(writer, so_far, cpu)
    } else {
        so_far
    }
}

/// Writes those of the next step.
fn put_operands_here<W: Write>(
    writer: &mut Counted<W>,
    so_far: Result<(), WriteFault>,
    cpu: &Cpu,
) -> Result<(), WriteFault>
    ensures { WritesAfter W.contents writer.old so_far writer.new result
        (spec.operands_text cpu.now move_of.Step) }
{
    match cpu.program().insn_at(usize::from(cpu.pc())) {
        Some(insn) => put_operands_of(writer, so_far, cpu, insn),
        None => so_far,
    }
}

/// Writes those of an instruction.
fn put_operands_of<W: Write>(
    writer: &mut Counted<W>,
    so_far: Result<(), WriteFault>,
    cpu: &Cpu,
    insn: Insn,
) -> Result<(), WriteFault>
    ensures { WritesAfter W.contents writer.old so_far writer.new result
        (spec.operands_by cpu.now insn) }
{
    match insn {
        Insn::JumpIf { dst, source, .. } => {
            let told = put_compared(writer, so_far, cpu, dst);
            put_source(writer, told, cpu, source)
        }
        _ => so_far,
    }
}

/// Writes a second operand, if it is a register.
fn put_source<W: Write>(
    writer: &mut Counted<W>,
    so_far: Result<(), WriteFault>,
    cpu: &Cpu,
    source: Source,
) -> Result<(), WriteFault>
    ensures { WritesAfter W.contents writer.old so_far writer.new result
        (spec.source_text cpu.now source) }
{
    match source {
        Source::Immediate(_) => so_far,
        Source::Register(register) => put_compared(writer, so_far, cpu, register),
    }
}

/// Writes a register that is compared.
#[tactic(auto, unfolding(crate::specs::Texts::compared_text))]
fn put_compared<W: Write>(
    writer: &mut Counted<W>,
    so_far: Result<(), WriteFault>,
    cpu: &Cpu,
    register: Reg,
) -> Result<(), WriteFault>
    ensures { WritesAfter W.contents writer.old so_far writer.new result
        (spec.compared_text cpu.now register) }
{
    let pieces = [
        Piece::Text(b"; r"),
        Piece::Decimal(u64::from(register.number())),
        Piece::Text(b" = "),
        Piece::Hexadecimal(cpu.reg(register)),
    ];
    put_all(writer, so_far, &pieces)
}
