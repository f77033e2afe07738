//! The operands of an instruction, as a listing shows them.
ghost use Rattle.std.specs.Prelude.{◌≡◌, ◌≤◌, ◌+◌, ◌+ℤ◌, pos, Some, None, IfSome, IfNone};
ghost use Rattle.bpf_isa.specs.Checker.{most_slots};
ghost use Rattle.bpf_isa.specs.Programs.{target_of};
ghost use Rattle.bpf_text.specs.Operands.{operand_of, wide_operands, operands_of};
ghost use Rattle.bpf_text.specs.Scaffolding.Slots.{IsSlot};

use bpf_isa::{Address, Insn, Reg, Source, WideValue};

/// One operand.
#[derive(Clone, Copy)]
pub enum Operand {
    /// A register.
    Register(Reg),
    /// A signed number, in decimal.
    Signed(i32),
    /// An unsigned number, in decimal.
    Unsigned(u32),
    /// A number of 64 bits, in hexadecimal.
    Hexadecimal(u64),
    /// The memory at an address.
    Memory(Address),
    /// The slot of a target. One before slot 0 is negative: no program has it.
    Target(i64),
}

/// The operands of an instruction.
#[derive(Clone, Copy)]
pub enum Operands {
    Nothing,
    One(Operand),
    Two(Operand, Operand),
    Three(Operand, Operand, Operand),
}

/// The operands of an instruction in this slot.
pub fn operands_of(slot: usize, insn: &Insn) -> Operands
    requires { slot ≤ most_slots }
    ensures { result ≡ operands_of slot insn.now }
{
    match *insn {
        Insn::Binary { dst, source, .. } => Operands::Two(
            Operand::Register(dst),
            operand_of(source),
        ),
        Insn::Negate { dst, .. } | Insn::SwapBytes { dst, .. } => {
            Operands::One(Operand::Register(dst))
        }
        Insn::SignExtend { dst, src, .. } => {
            Operands::Two(Operand::Register(dst), Operand::Register(src))
        }
        Insn::JumpIf {
            dst,
            source,
            offset,
            ..
        } => Operands::Three(
            Operand::Register(dst),
            operand_of(source),
            target(slot, i32::from(offset)),
        ),
        Insn::Jump { offset } => Operands::One(target(slot, i32::from(offset))),
        Insn::JumpLong { distance } | Insn::CallLocal { distance } => {
            Operands::One(target(slot, distance))
        }
        Insn::CallHelper { helper } => Operands::One(Operand::Unsigned(helper)),
        Insn::Exit => Operands::Nothing,
        Insn::Load { dst, from, .. } => Operands::Two(
            Operand::Register(dst),
            Operand::Memory(from),
        ),
        Insn::Store { to, source, .. } => Operands::Two(Operand::Memory(to), operand_of(source)),
        Insn::Atomic { to, src, .. } => Operands::Two(Operand::Memory(to), Operand::Register(src)),
        Insn::LoadWide { dst, value } => wide_operands(dst, value),
    }
}

/// The operands of a wide load.
fn wide_operands(dst: Reg, value: WideValue) -> Operands
    ensures { result ≡ wide_operands dst value }
{
    match value {
        WideValue::Number(value) => {
            Operands::Two(Operand::Register(dst), Operand::Hexadecimal(value))
        }
        WideValue::Map(map) => Operands::Two(Operand::Register(dst), Operand::Unsigned(map)),
        WideValue::MapValue { map, offset } => Operands::Three(
            Operand::Register(dst),
            Operand::Unsigned(map),
            Operand::Unsigned(offset),
        ),
    }
}

/// A second operand: a number in the form K, a register in the form X.
fn operand_of(source: Source) -> Operand
    ensures { result ≡ operand_of source }
{
    match source {
        Source::Immediate(value) => Operand::Signed(value),
        Source::Register(reg) => Operand::Register(reg),
    }
}

/// The target that is the distance from the next slot.
fn target(slot: usize, distance: i32) -> Operand
    requires { slot ≤ most_slots }
    ensures { result ≡ Operand.Target (pos (slot + 1) +ℤ distance) }
{
    Operand::Target(slot as i64 + 1 + i64::from(distance))
}

/// The target of an instruction in this slot, if it has one: a slot of 0 to 65,535.
pub fn target_of(slot: usize, insn: &Insn) -> Option<usize>
    requires slot { slot ≤ most_slots }
    requires target { IfSome (target_of slot insn.now) IsSlot }
    ensures found { IfSome result (λ t. target_of slot insn.now ≡ Some (pos t)) }
    ensures none { IfNone result (target_of slot insn.now ≡ None) }
{
    Some(insn.target(slot)? as usize)
}
