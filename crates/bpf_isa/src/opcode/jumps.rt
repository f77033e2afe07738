//! The mnemonics of jumps, calls and exit (RFC 9669, section 4.3).
ghost use Rattle.std.specs.Prelude.{◌≡◌, ◌/◌, ◌%◌, ◌*◌, ◌+◌, IfSome};
ghost use Rattle.bpf_isa.specs.Words.{HasCodes};
ghost use Rattle.bpf_isa.specs.Scaffolding.Codec.{row, IsOnly, jump_class_of, source_bit_of};

use crate::fields::Fields;
use crate::instruction::{Condition, SourceKind, Width};
use crate::mnemonic::Mnemonic;

/// JA, by offset or by imm.
fn always_mnemonic(fields: Fields, width: Width, source: SourceKind) -> Option<Mnemonic>
    requires { fields.opcode ≡ source_bit_of source + jump_class_of width }
    ensures found { IfSome result (λ mnemonic. HasCodes (row mnemonic source) fields) }
    ensures only { IsOnly fields result }
{
    match (width, source) {
        (Width::Bits64, SourceKind::Immediate) => Some(Mnemonic::Jump),
        (Width::Bits32, SourceKind::Immediate) => Some(Mnemonic::JumpLong),
        _ => None,
    }
}

/// CALL, of a helper or of a local function by the source register.
fn call_mnemonic(fields: Fields, width: Width, source: SourceKind) -> Option<Mnemonic>
    requires { fields.opcode ≡ 0x80 + source_bit_of source + jump_class_of width }
    ensures found { IfSome result (λ mnemonic. HasCodes (row mnemonic source) fields) }
    ensures only { IsOnly fields result }
{
    match (width, source, fields.src) {
        (Width::Bits64, SourceKind::Immediate, 0) => Some(Mnemonic::CallHelper),
        (Width::Bits64, SourceKind::Immediate, 1) => Some(Mnemonic::CallLocal),
        _ => None,
    }
}

/// EXIT.
fn exit_mnemonic(fields: Fields, width: Width, source: SourceKind) -> Option<Mnemonic>
    requires { fields.opcode ≡ 0x90 + source_bit_of source + jump_class_of width }
    ensures found { IfSome result (λ mnemonic. HasCodes (row mnemonic source) fields) }
    ensures only { IsOnly fields result }
{
    match (width, source) {
        (Width::Bits64, SourceKind::Immediate) => Some(Mnemonic::Exit),
        _ => None,
    }
}

/// Classes JMP and JMP32.
pub fn jump_mnemonic(fields: Fields, width: Width, source: SourceKind) -> Option<Mnemonic>
    requires bit { source_bit_of source ≡ fields.opcode / 8 % 2 * 8 }
    requires class { fields.opcode % 8 ≡ jump_class_of width }
    ensures found { IfSome result (λ mnemonic. HasCodes (row mnemonic source) fields) }
    ensures only { IsOnly fields result }
{
    let condition = match fields.opcode / 16 {
        0 => return always_mnemonic(fields, width, source),
        1 => Condition::Equal,
        2 => Condition::Greater,
        3 => Condition::GreaterOrEqual,
        4 => Condition::BitsSet,
        5 => Condition::NotEqual,
        6 => Condition::SignedGreater,
        7 => Condition::SignedGreaterOrEqual,
        8 => return call_mnemonic(fields, width, source),
        9 => return exit_mnemonic(fields, width, source),
        10 => Condition::Less,
        11 => Condition::LessOrEqual,
        12 => Condition::SignedLess,
        13 => Condition::SignedLessOrEqual,
        _ => return None,
    };
    Some(Mnemonic::JumpIf(condition, width))
}
