//! From instructions to words.
ghost use Rattle.std.specs.Prelude.{◌≡◌};
ghost use Rattle.bpf_isa.specs.Scaffolding.Codec.{insn_kind};
ghost use Rattle.bpf_isa.specs.Words.{row_of, IsClean, HasRegisters, HasSource, HasOffset, HasWideValue, HasParts, ReadsAs, IsWord};

use crate::fields::Fields;
use crate::instruction::{Insn, Source, SourceKind, WideValue};
use crate::mnemonic::Mnemonic;
use crate::register::Reg;
use crate::row::Row;
use crate::words::Words;

/// A slot of zeros.
const ZERO: Fields = Fields {
    opcode: 0,
    dst: 0,
    src: 0,
    offset: 0,
    imm: 0,
    reserved: 0,
    next: 0,
};

/// Fields with a number in imm.
fn number_parts(imm: u32) -> Fields
    ensures imm { result.imm ≡ imm }
    ensures registers { HasRegisters result }
{
    Fields { imm, ..ZERO }
}

/// Fields with a register, a second operand and an offset.
fn operand_parts(dst: Reg, source: Source, offset: i16) -> Fields
    ensures dst { result.dst ≡ dst }
    ensures source { HasSource source result }
    ensures offset { HasOffset offset result }
    ensures registers { HasRegisters result }
{
    let (src, imm) = match source {
        Source::Immediate(value) => (0, value.cast_unsigned()),
        Source::Register(src) => (src.number(), 0),
    };
    Fields {
        dst: dst.number(),
        src,
        offset: offset.cast_unsigned(),
        imm,
        ..ZERO
    }
}

/// Fields with a register and a wide load's value.
fn wide_parts(dst: Reg, value: WideValue) -> Fields
    ensures dst { result.dst ≡ dst }
    ensures value { HasWideValue value result }
    ensures registers { HasRegisters result }
{
    let (imm, next) = match value {
        WideValue::Number(value) => ((value % 4294967296) as u32, (value / 4294967296) as u32),
        WideValue::Map(map) => (map, 0),
        WideValue::MapValue { map, offset } => (map, offset),
    };
    Fields {
        dst: dst.number(),
        imm,
        next,
        ..ZERO
    }
}

/// Fields with the parts of an instruction.
fn parts_of(insn: Insn) -> Fields
    ensures parts { HasParts insn result }
    ensures registers { HasRegisters result }
{
    match insn {
        Insn::Binary { dst, source, .. } => operand_parts(dst, source, 0),
        Insn::Negate { dst, .. } | Insn::SwapBytes { dst, .. } => Fields {
            dst: dst.number(),
            ..ZERO
        },
        Insn::SignExtend { dst, src, .. } => operand_parts(dst, Source::Register(src), 0),
        Insn::JumpIf {
            dst,
            source,
            offset,
            ..
        } => operand_parts(dst, source, offset),
        Insn::Jump { offset } => Fields {
            offset: offset.cast_unsigned(),
            ..ZERO
        },
        Insn::JumpLong { distance } => number_parts(distance.cast_unsigned()),
        Insn::CallHelper { helper } => number_parts(helper),
        Insn::CallLocal { distance } => number_parts(distance.cast_unsigned()),
        Insn::Exit => ZERO,
        Insn::Load { dst, from, .. } => {
            operand_parts(dst, Source::Register(from.base), from.offset)
        }
        Insn::Store { to, source, .. } => operand_parts(to.base, source, to.offset),
        Insn::Atomic { to, src, .. } => operand_parts(to.base, Source::Register(src), to.offset),
        Insn::LoadWide { dst, value } => wide_parts(dst, value),
    }
}

/// The form of an instruction where its mnemonic leaves it open, else K.
fn kind_in(insn: Insn) -> SourceKind
    ensures { result ≡ insn_kind insn }
{
    match insn {
        Insn::Binary { source, .. } | Insn::JumpIf { source, .. } => source.kind(),
        _ => SourceKind::Immediate,
    }
}

/// The fields of an instruction: the codes of its row, laid over its parts.
fn fields_with(insn: Insn) -> Fields
    ensures reads { ReadsAs result insn }
    ensures clean { IsClean (row_of insn) result }
    ensures registers { HasRegisters result }
{
    Row::of(Mnemonic::of(&insn), kind_in(insn)).laid(parts_of(insn))
}

/// The one word of an instruction.
pub fn encode(insn: Insn) -> Words
    ensures { IsWord insn result }
{
    Words::of(fields_with(insn))
}
