//! The mnemonics of loads, stores, atomic operations and wide loads (RFC 9669, section 5).
ghost use Rattle.std.specs.Prelude.{◌≡◌, ◌%◌, IfSome, Some};
ghost use Rattle.bpf_isa.specs.Words.{HasCodes};
ghost use Rattle.bpf_isa.specs.Memory.{atomic_code, atomic_opcode};
ghost use Rattle.bpf_isa.specs.Scaffolding.Codec.{row, IsOnly, store_class_of};

use crate::fields::Fields;
use crate::instruction::{AtomicOp, LoadSize, SignedSize, Size, SourceKind, Width};
use crate::mnemonic::{Mnemonic, WideKind};

/// Class LD: the wide loads.
pub fn wide_mnemonic(fields: Fields) -> Option<Mnemonic>
    requires { fields.opcode % 8 ≡ 0 }
    ensures found { IfSome result (λ mnemonic. (kind : SourceKind) →
        HasCodes (row mnemonic kind) fields) }
    ensures only { IsOnly fields result }
{
    match (fields.opcode / 8, fields.src) {
        (3, 0) => Some(Mnemonic::LoadWide(WideKind::Number)),
        (3, 5) => Some(Mnemonic::LoadWide(WideKind::Map)),
        (3, 6) => Some(Mnemonic::LoadWide(WideKind::MapValue)),
        _ => None,
    }
}

/// Class LDX.
pub fn load_mnemonic(fields: Fields) -> Option<Mnemonic>
    requires { fields.opcode % 8 ≡ 1 }
    ensures found { IfSome result (λ mnemonic. (kind : SourceKind) →
        HasCodes (row mnemonic kind) fields) }
    ensures only { IsOnly fields result }
{
    let size = match fields.opcode / 8 {
        12 => LoadSize::Plain(Size::Word),
        13 => LoadSize::Plain(Size::Half),
        14 => LoadSize::Plain(Size::Byte),
        15 => LoadSize::Plain(Size::Double),
        16 => LoadSize::Signed(SignedSize::Word),
        17 => LoadSize::Signed(SignedSize::Half),
        18 => LoadSize::Signed(SignedSize::Byte),
        _ => return None,
    };
    Some(Mnemonic::Load(size))
}

/// Classes ST and STX: the forms K and X of a store, and the atomic operations.
pub fn store_mnemonic(fields: Fields, form: SourceKind) -> Option<Mnemonic>
    requires { fields.opcode % 8 ≡ store_class_of form }
    ensures found { IfSome result (λ mnemonic. (kind : SourceKind) →
        HasCodes (row mnemonic kind) fields) }
    ensures only { IsOnly fields result }
{
    let size = match (fields.opcode / 8, form) {
        (12, _) => Size::Word,
        (13, _) => Size::Half,
        (14, _) => Size::Byte,
        (15, _) => Size::Double,
        (24, SourceKind::Register) => return atomic_mnemonic(fields, Width::Bits32),
        (27, SourceKind::Register) => return atomic_mnemonic(fields, Width::Bits64),
        _ => return None,
    };
    Some(Mnemonic::Store(size, form))
}

/// The mnemonic of the atomic operation that imm names.
fn atomic_mnemonic(fields: Fields, width: Width) -> Option<Mnemonic>
    requires { fields.opcode ≡ atomic_opcode width }
    ensures found { IfSome result (λ mnemonic. (kind : SourceKind) →
        HasCodes (row mnemonic kind) fields) }
    ensures only { IsOnly fields result }
{
    match atomic_op(fields.imm) {
        Some(op) => Some(Mnemonic::Atomic(op, width)),
        None => None,
    }
}

/// The atomic operation with this code.
fn atomic_op(imm: u32) -> Option<AtomicOp>
    ensures found { IfSome result (λ op. imm ≡ atomic_code op) }
    ensures only { (op : AtomicOp) → imm ≡ atomic_code op → result ≡ Some op }
{
    match imm {
        0x00 => Some(AtomicOp::Add),
        0x40 => Some(AtomicOp::Or),
        0x50 => Some(AtomicOp::And),
        0xa0 => Some(AtomicOp::Xor),
        0x01 => Some(AtomicOp::FetchAdd),
        0x41 => Some(AtomicOp::FetchOr),
        0x51 => Some(AtomicOp::FetchAnd),
        0xa1 => Some(AtomicOp::FetchXor),
        0xe1 => Some(AtomicOp::Exchange),
        0xf1 => Some(AtomicOp::CompareExchange),
        _ => None,
    }
}
