//! The codes of operations in an opcode or an imm (RFC 9669, sections 4 and 5).
ghost use Rattle.std.specs.Prelude.{◌≡◌, ◌<◌, ◌+◌, ◌*◌};
ghost use Rattle.bpf_isa.specs.Arithmetic.{binary_opcode};
ghost use Rattle.bpf_isa.specs.Scaffolding.Codec.{source_bit_of, class_of, jump_class_of};
ghost use Rattle.bpf_isa.specs.Jumps.{condition_opcode};
ghost use Rattle.bpf_isa.specs.Memory.{sizes, load_opcode, atomic_code};

use crate::instruction::{
    AtomicOp, BinaryOp, Condition, LoadSize, SignedSize, Size, SourceKind, Width,
};

/// The class and source bit of arithmetic.
pub fn arithmetic_bits(width: Width, source: SourceKind) -> u8
    ensures { result ≡ source_bit_of source + class_of width }
{
    let class = match width {
        Width::Bits32 => 4,
        Width::Bits64 => 7,
    };
    class + source_bit(source)
}

/// The source bit.
pub fn source_bit(source: SourceKind) -> u8
    ensures { result ≡ source_bit_of source }
{
    match source {
        SourceKind::Immediate => 0,
        SourceKind::Register => 8,
    }
}

/// The class and source bit of a conditional jump.
pub fn jump_bits(width: Width, source: SourceKind) -> u8
    ensures { result ≡ source_bit_of source + jump_class_of width }
{
    let class = match width {
        Width::Bits32 => 6,
        Width::Bits64 => 5,
    };
    class + source_bit(source)
}

/// The code of an operation of arithmetic.
pub fn binary_code(op: BinaryOp) -> u8
    ensures value { (width : Width) (source : SourceKind)
        → binary_opcode op width source ≡ 16 * result + (source_bit_of source + class_of width) }
    ensures fits { result < 16 }
{
    match op {
        BinaryOp::Add => 0,
        BinaryOp::Sub => 1,
        BinaryOp::Mul => 2,
        BinaryOp::Div | BinaryOp::SignedDiv => 3,
        BinaryOp::Or => 4,
        BinaryOp::And => 5,
        BinaryOp::LeftShift => 6,
        BinaryOp::RightShift => 7,
        BinaryOp::Mod | BinaryOp::SignedMod => 9,
        BinaryOp::Xor => 10,
        BinaryOp::Mov => 11,
        BinaryOp::SignedRightShift => 12,
    }
}

/// The code of a condition.
pub fn condition_code(condition: Condition) -> u8
    ensures value { (width : Width) (source : SourceKind)
        → condition_opcode condition width source
        ≡ 16 * result + (source_bit_of source + jump_class_of width) }
    ensures fits { result < 16 }
{
    match condition {
        Condition::Equal => 1,
        Condition::Greater => 2,
        Condition::GreaterOrEqual => 3,
        Condition::BitsSet => 4,
        Condition::NotEqual => 5,
        Condition::SignedGreater => 6,
        Condition::SignedGreaterOrEqual => 7,
        Condition::Less => 10,
        Condition::LessOrEqual => 11,
        Condition::SignedLess => 12,
        Condition::SignedLessOrEqual => 13,
    }
}

/// The size and mode of an access, in the bits above the class.
pub fn size_bits(size: Size) -> u8
    ensures { result ≡ sizes 0x60 0x68 0x70 0x78 size }
{
    match size {
        Size::Word => 0x60,
        Size::Half => 0x68,
        Size::Byte => 0x70,
        Size::Double => 0x78,
    }
}

/// The size and mode of a load, in the bits above the class.
pub fn load_bits(size: LoadSize) -> u8
    ensures { load_opcode size ≡ result + 1 }
{
    match size {
        LoadSize::Plain(size) => size_bits(size),
        LoadSize::Signed(SignedSize::Word) => 0x80,
        LoadSize::Signed(SignedSize::Half) => 0x88,
        LoadSize::Signed(SignedSize::Byte) => 0x90,
    }
}

/// The imm of an atomic operation.
pub fn atomic_imm(op: AtomicOp) -> u8
    ensures { result ≡ atomic_code op }
{
    match op {
        AtomicOp::Add => 0x00,
        AtomicOp::Or => 0x40,
        AtomicOp::And => 0x50,
        AtomicOp::Xor => 0xa0,
        AtomicOp::FetchAdd => 0x01,
        AtomicOp::FetchOr => 0x41,
        AtomicOp::FetchAnd => 0x51,
        AtomicOp::FetchXor => 0xa1,
        AtomicOp::Exchange => 0xe1,
        AtomicOp::CompareExchange => 0xf1,
    }
}
