//! Mnemonics: an instruction without its operands.
ghost use Rattle.std.specs.Prelude.{◌≡◌};
ghost use Rattle.bpf_isa.specs.Mnemonics.{mnemonic_of, kind_of, wide_kind_of};

use crate::instruction::{
    AtomicOp, BinaryOp, ByteOrder, Condition, Extension, Insn, LoadSize, Size, Source, SourceKind,
    SwapWidth, WideValue, Width,
};

/// What an instruction does, without its operands: a line of RFC 9669's tables. Where the line has
/// the forms K and X, the second operand chooses between them.
#[derive(Clone, Copy)]
pub enum Mnemonic {
    /// ADD to ARSH, with SDIV, SMOD and MOV (section 4.1), in form K or X.
    Binary(BinaryOp, Width),
    /// NEG (section 4.1).
    Negate(Width),
    /// MOVSX (section 4.1).
    SignExtend(Extension),
    /// END: LE, BE and the unconditional swap (section 4.2).
    SwapBytes(ByteOrder, SwapWidth),
    /// JEQ to JSLE (section 4.3), in form K or X.
    JumpIf(Condition, Width),
    /// JA by offset, class JMP (section 4.3).
    Jump,
    /// JA by imm, class JMP32 (section 4.3).
    JumpLong,
    /// CALL of a helper function by its number (section 4.3.1).
    CallHelper,
    /// CALL of a function of the program (section 4.3.2).
    CallLocal,
    /// EXIT (section 4.3).
    Exit,
    /// MEM and MEMSX in class LDX (sections 5.1 and 5.2).
    Load(LoadSize),
    /// MEM in class ST (form K) or STX (form X) (section 5.1).
    Store(Size, SourceKind),
    /// ATOMIC in class STX (section 5.3).
    Atomic(AtomicOp, Width),
    /// IMM in class LD: a wide load (section 5.4).
    LoadWide(WideKind),
}

/// What a wide load leaves in dst, without its numbers (RFC 9669, section 5.4).
#[derive(Clone, Copy)]
pub enum WideKind {
    /// A number of 64 bits, src_reg 0.
    Number,
    /// A map by its index, src_reg 5.
    Map,
    /// The address of a byte of a map's values, src_reg 6.
    MapValue,
}

impl Mnemonic {
    /// The mnemonic of an instruction.
    pub fn of(insn: &Insn) -> Mnemonic
        ensures { result ≡ mnemonic_of insn.now }
    {
        match *insn {
            Insn::Binary { op, width, .. } => Mnemonic::Binary(op, width),
            Insn::Negate { width, .. } => Mnemonic::Negate(width),
            Insn::SignExtend { extension, .. } => Mnemonic::SignExtend(extension),
            Insn::SwapBytes { order, width, .. } => Mnemonic::SwapBytes(order, width),
            Insn::JumpIf {
                condition,
                width,
                ..
            } => Mnemonic::JumpIf(condition, width),
            Insn::Jump { .. } => Mnemonic::Jump,
            Insn::JumpLong { .. } => Mnemonic::JumpLong,
            Insn::CallHelper { .. } => Mnemonic::CallHelper,
            Insn::CallLocal { .. } => Mnemonic::CallLocal,
            Insn::Exit => Mnemonic::Exit,
            Insn::Load { size, .. } => Mnemonic::Load(size),
            Insn::Store { size, source, .. } => Mnemonic::Store(size, source.kind()),
            Insn::Atomic { op, width, .. } => Mnemonic::Atomic(op, width),
            Insn::LoadWide { value, .. } => Mnemonic::LoadWide(value.kind()),
        }
    }
}

impl Source {
    /// The kind of the second operand.
    pub(crate) fn kind(self) -> SourceKind
        ensures { result ≡ kind_of self }
    {
        match self {
            Source::Immediate(_) => SourceKind::Immediate,
            Source::Register(_) => SourceKind::Register,
        }
    }
}

impl WideValue {
    /// What it is, without its numbers.
    pub(crate) fn kind(self) -> WideKind
        ensures { result ≡ wide_kind_of self }
    {
        match self {
            WideValue::Number(_) => WideKind::Number,
            WideValue::Map(_) => WideKind::Map,
            WideValue::MapValue { .. } => WideKind::MapValue,
        }
    }
}
