//! The mnemonics of arithmetic and byte swaps (RFC 9669, sections 4.1 and 4.2).
ghost use Rattle.std.specs.Prelude.{◌≡◌, ◌/◌, ◌%◌, ◌*◌, ◌+◌, IfSome};
ghost use Rattle.bpf_isa.specs.Words.{HasCodes};
ghost use Rattle.bpf_isa.specs.Scaffolding.Codec.{row, IsOnly, class_of, source_bit_of};

use crate::fields::Fields;
use crate::instruction::{BinaryOp, ByteOrder, Extension, SourceKind, SwapWidth, Width};
use crate::mnemonic::Mnemonic;

/// DIV and SDIV, told apart by the offset.
fn division_mnemonic(fields: Fields, width: Width, source: SourceKind) -> Option<Mnemonic>
    requires { fields.opcode ≡ 0x30 + source_bit_of source + class_of width }
    ensures found { IfSome result (λ mnemonic. HasCodes (row mnemonic source) fields) }
    ensures only { IsOnly fields result }
{
    let op = match fields.offset {
        0 => BinaryOp::Div,
        1 => BinaryOp::SignedDiv,
        _ => return None,
    };
    Some(Mnemonic::Binary(op, width))
}

/// MOD and SMOD, told apart by the offset.
fn modulo_mnemonic(fields: Fields, width: Width, source: SourceKind) -> Option<Mnemonic>
    requires { fields.opcode ≡ 0x90 + source_bit_of source + class_of width }
    ensures found { IfSome result (λ mnemonic. HasCodes (row mnemonic source) fields) }
    ensures only { IsOnly fields result }
{
    let op = match fields.offset {
        0 => BinaryOp::Mod,
        1 => BinaryOp::SignedMod,
        _ => return None,
    };
    Some(Mnemonic::Binary(op, width))
}

/// NEG, which has no form X.
fn negate_mnemonic(fields: Fields, width: Width, source: SourceKind) -> Option<Mnemonic>
    requires { fields.opcode ≡ 0x80 + source_bit_of source + class_of width }
    ensures found { IfSome result (λ mnemonic. HasCodes (row mnemonic source) fields) }
    ensures only { IsOnly fields result }
{
    match source {
        SourceKind::Immediate => Some(Mnemonic::Negate(width)),
        SourceKind::Register => None,
    }
}

/// MOV and MOVSX, told apart by the offset in form X.
fn move_mnemonic(fields: Fields, width: Width, source: SourceKind) -> Option<Mnemonic>
    requires { fields.opcode ≡ 0xb0 + source_bit_of source + class_of width }
    ensures found { IfSome result (λ mnemonic. HasCodes (row mnemonic source) fields) }
    ensures only { IsOnly fields result }
{
    let extension = match (source, fields.offset, width) {
        (SourceKind::Immediate, _, _) | (SourceKind::Register, 0, _) => {
            return Some(Mnemonic::Binary(BinaryOp::Mov, width));
        }
        (SourceKind::Register, 8, Width::Bits64) => Extension::Byte64,
        (SourceKind::Register, 16, Width::Bits64) => Extension::Half64,
        (SourceKind::Register, 32, Width::Bits64) => Extension::Word64,
        (SourceKind::Register, 8, Width::Bits32) => Extension::Byte32,
        (SourceKind::Register, 16, Width::Bits32) => Extension::Half32,
        _ => return None,
    };
    Some(Mnemonic::SignExtend(extension))
}

/// END: byte swaps, whose width is imm.
fn swap_mnemonic(fields: Fields, width: Width, source: SourceKind) -> Option<Mnemonic>
    requires { fields.opcode ≡ 0xd0 + source_bit_of source + class_of width }
    ensures found { IfSome result (λ mnemonic. HasCodes (row mnemonic source) fields) }
    ensures only { IsOnly fields result }
{
    let order = match (width, source) {
        (Width::Bits32, SourceKind::Immediate) => ByteOrder::Little,
        (Width::Bits32, SourceKind::Register) => ByteOrder::Big,
        (Width::Bits64, SourceKind::Immediate) => ByteOrder::Swap,
        (Width::Bits64, SourceKind::Register) => return None,
    };
    let width = match fields.imm {
        16 => SwapWidth::Bits16,
        32 => SwapWidth::Bits32,
        64 => SwapWidth::Bits64,
        _ => return None,
    };
    Some(Mnemonic::SwapBytes(order, width))
}

/// Classes ALU and ALU64.
pub fn arithmetic_mnemonic(fields: Fields, width: Width, source: SourceKind) -> Option<Mnemonic>
    requires bit { source_bit_of source ≡ fields.opcode / 8 % 2 * 8 }
    requires class { fields.opcode % 8 ≡ class_of width }
    ensures found { IfSome result (λ mnemonic. HasCodes (row mnemonic source) fields) }
    ensures only { IsOnly fields result }
{
    let op = match fields.opcode / 16 {
        0 => BinaryOp::Add,
        1 => BinaryOp::Sub,
        2 => BinaryOp::Mul,
        3 => return division_mnemonic(fields, width, source),
        4 => BinaryOp::Or,
        5 => BinaryOp::And,
        6 => BinaryOp::LeftShift,
        7 => BinaryOp::RightShift,
        8 => return negate_mnemonic(fields, width, source),
        9 => return modulo_mnemonic(fields, width, source),
        10 => BinaryOp::Xor,
        11 => return move_mnemonic(fields, width, source),
        12 => BinaryOp::SignedRightShift,
        13 => return swap_mnemonic(fields, width, source),
        _ => return None,
    };
    Some(Mnemonic::Binary(op, width))
}
