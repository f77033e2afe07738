//! From words to instructions.
ghost use Rattle.std.specs.Prelude.{◌≡◌, ◌≤◌, ◌⊎◌, ◌↔◌, IsTrue, IfOk, OnOk, IfErr, Ok, ◌++◌, length, slice_index};
ghost use Rattle.bpf_isa.specs.Mnemonics.{mnemonic_of, kind_of, wide_kind_of};
ghost use Rattle.bpf_isa.specs.Words.{row_of, HasRegisters, HasSource, HasAddress, HasWideValue, HasParts, IsWord};
ghost use Rattle.bpf_isa.specs.Scaffolding.Codec.{row, IsRead, IsReadFault, IsClearWord};
ghost use Rattle.bpf_isa.specs.WideLoads.{wide_opcode};
ghost use Rattle.bpf_isa.specs.WordFaults.{HasWordFault, HasNoWordFault, IsLeastWordFault, joined};
ghost use Rattle.bpf_isa.specs.declared.fault.WordFault.TheVariants.{CutOff};

use crate::fault::WordFault;
use crate::fields::{Fields, read};
use crate::instruction::{Address, Insn, Source, SourceKind, WideValue};
use crate::mnemonic::{Mnemonic, WideKind};
use crate::opcode::{WIDE_OPCODE, find_mnemonic, source_kind};
use crate::register::Reg;
use crate::row::Row;

/// The second operand.
fn source_of(kind: SourceKind, fields: Fields) -> Source
    requires { HasRegisters fields }
    ensures kind { kind_of result ≡ kind }
    ensures value { HasSource result fields }
{
    match kind {
        SourceKind::Immediate => Source::Immediate(fields.imm.cast_signed()),
        SourceKind::Register => Source::Register(Reg::of(fields.src)),
    }
}

/// Whether both register fields are at most 10.
fn has_registers(fields: Fields) -> bool
    ensures { IsTrue result ↔ HasRegisters fields }
{
    fields.dst <= 10 && fields.src <= 10
}

/// The address whose base is this register.
fn address_of(register: u8, fields: Fields) -> Address
    requires { register ≤ 10 }
    ensures { HasAddress result register fields }
{
    Address {
        base: Reg::of(register),
        offset: fields.offset.cast_signed(),
    }
}

/// What a wide load leaves in dst.
fn wide_value_of(kind: WideKind, fields: Fields) -> WideValue
    ensures kind { wide_kind_of result ≡ kind }
    ensures value { HasWideValue result fields }
{
    match kind {
        WideKind::Number => {
            WideValue::Number(u64::from(fields.imm) + 4294967296 * u64::from(fields.next))
        }
        WideKind::Map => WideValue::Map(fields.imm),
        WideKind::MapValue => WideValue::MapValue {
            map: fields.imm,
            offset: fields.next,
        },
    }
}

/// The instruction of a mnemonic with the parts that stand in the fields.
fn insn_of(mnemonic: Mnemonic, source: SourceKind, fields: Fields) -> Insn
    requires { HasRegisters fields }
    ensures mnemonic { mnemonic_of result ≡ mnemonic }
    ensures row { row_of result ≡ row mnemonic source }
    ensures parts { HasParts result fields }
{
    let dst = Reg::of(fields.dst);
    let src = Reg::of(fields.src);
    let offset = fields.offset.cast_signed();
    let distance = fields.imm.cast_signed();
    let from = address_of(fields.src, fields);
    let to = address_of(fields.dst, fields);
    match mnemonic {
        Mnemonic::Binary(op, width) => Insn::Binary {
            op,
            width,
            dst,
            source: source_of(source, fields),
        },
        Mnemonic::Negate(width) => Insn::Negate { width, dst },
        Mnemonic::SignExtend(extension) => Insn::SignExtend {
            extension,
            dst,
            src,
        },
        Mnemonic::SwapBytes(order, width) => Insn::SwapBytes { order, width, dst },
        Mnemonic::JumpIf(condition, width) => Insn::JumpIf {
            condition,
            width,
            dst,
            source: source_of(source, fields),
            offset,
        },
        Mnemonic::Jump => Insn::Jump { offset },
        Mnemonic::JumpLong => Insn::JumpLong { distance },
        Mnemonic::CallHelper => Insn::CallHelper { helper: fields.imm },
        Mnemonic::CallLocal => Insn::CallLocal { distance },
        Mnemonic::Exit => Insn::Exit,
        Mnemonic::Load(size) => Insn::Load { size, dst, from },
        Mnemonic::Store(size, kind) => {
            let source = source_of(kind, fields);
            Insn::Store { size, to, source }
        }
        Mnemonic::Atomic(op, width) => Insn::Atomic { op, width, to, src },
        Mnemonic::LoadWide(kind) => Insn::LoadWide {
            dst,
            value: wide_value_of(kind, fields),
        },
    }
}

/// The instruction that 8 or 16 bytes read as, whether a second slot is missing or not.
#[tactic(auto, unfolding(crate::specs::WordFaults::IsLeastWordFault))]
pub(crate) fn read_insn(bytes: &[u8]) -> Result<Insn, WordFault>
    requires { (length bytes.now ≡ 8) ⊎ (length bytes.now ≡ 16) }
    ensures ok { IfOk result (IsRead bytes.now) }
    ensures fault { IfErr result (IsReadFault bytes.now) }
    ensures only { (insn : Insn) → IsWord insn bytes.now → result ≡ Ok insn }
{
    let fields = read(bytes);
    let source = source_kind(fields.opcode);
    let mnemonic = match find_mnemonic(fields, source) {
        Some(mnemonic) => mnemonic,
        None => return Err(WordFault::UnknownInstruction),
    };
    if !has_registers(fields) {
        return Err(WordFault::RegisterAboveTen);
    }
    let insn = insn_of(mnemonic, source, fields);
    if !Row::of(mnemonic, source).is_clean(fields) {
        return Err(WordFault::UnusedField);
    }
    Ok(insn)
}

/// Whether the second slot is missing.
pub(crate) fn is_cut_off(bytes: &[u8]) -> bool
    requires { (length bytes.now ≡ 8) ⊎ (length bytes.now ≡ 16) }
    ensures { IsTrue result ↔ HasWordFault bytes.now CutOff }
{
    bytes[0] == WIDE_OPCODE && bytes.len() == 8
}

/// The instruction that 8 bytes spell, or 16 that begin with the wide opcode.
#[tactic(auto, unfolding(crate::specs::WordFaults::IsLeastWordFault))]
fn decode_word(bytes: &[u8]) -> Result<Insn, WordFault>
    requires { (length bytes.now ≡ 8)
        ⊎ ((length bytes.now ≡ 16) × (slice_index bytes.now 0 ≡ wide_opcode)) }
    ensures ok { IfOk result (IsClearWord bytes.now) }
    ensures fault { IfErr result (IsLeastWordFault bytes.now) }
    ensures only { (insn : Insn) → IsWord insn bytes.now → result ≡ Ok insn }
{
    let insn = read_insn(bytes)?;
    if is_cut_off(bytes) {
        return Err(WordFault::CutOff);
    }
    Ok(insn)
}

/// The instruction that the slots spell. The second is looked at only after the opcode of the
/// wide loads, 0x18.
///
/// The fault is the one with the least number of those that apply.
pub fn decode(first: [u8; 8], second: Option<[u8; 8]>) -> Result<Insn, WordFault>
    ensures ok { IfOk result (λ insn. IsWord insn (joined first second)) }
    ensures clear { OnOk result (HasNoWordFault (joined first second)) }
    ensures fault { IfErr result (IsLeastWordFault (joined first second)) }
    ensures only { (insn : Insn) → IsWord insn (joined first second) → result ≡ Ok insn }
{
    match second {
        Some(second) => {
            if first[0] == WIDE_OPCODE {
                decode_word(&both(first, second))
            } else {
                decode_word(&first)
            }
        }
        None => decode_word(&first),
    }
}

/// The bytes of two slots.
fn both(first: [u8; 8], second: [u8; 8]) -> [u8; 16]
    ensures { result ≡ first ++ second }
{
    let mut bytes = [0; 16];
    bytes[..8].copy_from_slice(&first);
    bytes[8..].copy_from_slice(&second);
    bytes
}
