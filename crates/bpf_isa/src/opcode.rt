//! The mnemonic of a word, from its opcode and codes (RFC 9669, section 3).
mod arithmetic;
mod jumps;
mod memory;

ghost use Rattle.std.specs.Prelude.{◌≡◌, ◌/◌, ◌*◌, ◌%◌, IfSome};
ghost use Rattle.bpf_isa.specs.Words.{HasCodes};
ghost use Rattle.bpf_isa.specs.Scaffolding.Codec.{row, IsOnly, source_bit_of};

use crate::fields::Fields;
use crate::instruction::{SourceKind, Width};
use crate::mnemonic::Mnemonic;
use arithmetic::arithmetic_mnemonic;
use jumps::jump_mnemonic;
use memory::{load_mnemonic, store_mnemonic, wide_mnemonic};

/// The one opcode whose instructions have two slots.
pub const WIDE_OPCODE: u8 = 0x18;

/// The kind of source that the bit in an opcode of arithmetic or of a jump tells.
pub fn source_kind(opcode: u8) -> SourceKind
    ensures { source_bit_of result ≡ opcode / 8 % 2 * 8 }
{
    if opcode / 8 % 2 == 0 {
        SourceKind::Immediate
    } else {
        SourceKind::Register
    }
}

/// The mnemonic whose row has the opcode and the codes of a word.
pub fn find_mnemonic(fields: Fields, source: SourceKind) -> Option<Mnemonic>
    requires bit { source_bit_of source ≡ fields.opcode / 8 % 2 * 8 }
    ensures found { IfSome result (λ mnemonic. HasCodes (row mnemonic source) fields) }
    ensures only { IsOnly fields result }
{
    match fields.opcode % 8 {
        0 => wide_mnemonic(fields),
        1 => load_mnemonic(fields),
        2 => store_mnemonic(fields, SourceKind::Immediate),
        3 => store_mnemonic(fields, SourceKind::Register),
        4 => arithmetic_mnemonic(fields, Width::Bits32, source),
        5 => jump_mnemonic(fields, Width::Bits64, source),
        6 => jump_mnemonic(fields, Width::Bits32, source),
        _ => arithmetic_mnemonic(fields, Width::Bits64, source),
    }
}
