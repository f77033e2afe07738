//! Rows of the tables (RFC 9669, appendix A): an opcode, and what the other fields of a word hold.
mod codes;

ghost use Rattle.std.specs.Prelude.{◌≡◌, ◌≤◌, ◌⊎◌, ◌↔◌, IsTrue};
ghost use Rattle.bpf_isa.specs.Arithmetic.{binary_row, extension_row};
ghost use Rattle.bpf_isa.specs.Jumps.{condition_row};
ghost use Rattle.bpf_isa.specs.Memory.{store_row, atomic_row};
ghost use Rattle.bpf_isa.specs.Rows.{HasCode, IsClear};
ghost use Rattle.bpf_isa.specs.Swaps.{swap_row};
ghost use Rattle.bpf_isa.specs.declared.row.Field.TheVariants.{Unused};
ghost use Rattle.bpf_isa.specs.WideLoads.{wide_row};
ghost use Rattle.bpf_isa.specs.Words.{HasCodes, IsClean};
ghost use Rattle.bpf_isa.specs.Scaffolding.Codec.{row, IsKept, IsLaid};

use crate::fields::Fields;
use crate::instruction::{
    AtomicOp, BinaryOp, ByteOrder, Condition, Extension, Size, SourceKind, SwapWidth, Width,
};
use crate::mnemonic::{Mnemonic, WideKind};
use crate::opcode::WIDE_OPCODE;
use Field::{Code, Unused, Used};
use codes::{
    arithmetic_bits, atomic_imm, binary_code, condition_code, jump_bits, load_bits, size_bits,
};

/// What a row says of a field.
#[derive(Clone, Copy)]
pub enum Field {
    /// The instruction doesn't use it: it is zero.
    Unused,
    /// It holds a number of the row.
    Code(u8),
    /// It holds a part of the instruction.
    Used,
}

/// A row of the tables.
#[derive(Clone, Copy)]
pub struct Row {
    pub opcode: u8,
    pub dst: Field,
    pub src: Field,
    pub offset: Field,
    pub imm: Field,
    /// The imm of a wide instruction's second slot.
    pub next: Field,
}

impl Field {
    ghost use Rattle.bpf_isa.specs.Rows.{src_of, imm_of};

    /// What src holds in form K or X.
    fn src_of(source: SourceKind) -> Field
        ensures { result ≡ src_of source }
    {
        match source {
            SourceKind::Immediate => Unused,
            SourceKind::Register => Used,
        }
    }

    /// What imm holds in form K or X.
    fn imm_of(source: SourceKind) -> Field
        ensures { result ≡ imm_of source }
    {
        match source {
            SourceKind::Immediate => Used,
            SourceKind::Register => Unused,
        }
    }

    /// Whether the field is zero where it is unused.
    fn is_clear(self, value: u32) -> bool
        ensures { IsTrue result ↔ IsClear self value }
    {
        match self {
            Unused => value == 0,
            _ => true,
        }
    }

    /// What the field holds: a part of the instruction, unless the row says otherwise.
    fn laid(self, part: u32) -> u32
        ensures code { HasCode self result }
        ensures clear { IsClear self result }
        ensures kept { IsKept self part result }
        ensures fits { (result ≤ 255) ⊎ (result ≤ part) }
    {
        match self {
            Unused => 0,
            Code(code) => u32::from(code),
            Used => part,
        }
    }
}

/// The row of arithmetic.
fn binary_row(op: BinaryOp, width: Width, source: SourceKind) -> Row
    ensures { result ≡ binary_row op width source }
{
    let opcode = 16 * binary_code(op) + arithmetic_bits(width, source);
    let offset = match (op, source) {
        (BinaryOp::SignedDiv | BinaryOp::SignedMod, _) => Code(1),
        (BinaryOp::Div | BinaryOp::Mod, _) | (BinaryOp::Mov, SourceKind::Register) => Code(0),
        _ => Unused,
    };
    let src = Field::src_of(source);
    let imm = Field::imm_of(source);
    Row::new(opcode, Used, src, offset, imm)
}

/// The row of an extending move.
fn extension_row(extension: Extension) -> Row
    ensures { result ≡ extension_row extension }
{
    let (opcode, bits) = match extension {
        Extension::Byte64 => (0xbf, 8),
        Extension::Half64 => (0xbf, 16),
        Extension::Word64 => (0xbf, 32),
        Extension::Byte32 => (0xbc, 8),
        Extension::Half32 => (0xbc, 16),
    };
    Row::new(opcode, Used, Used, Code(bits), Unused)
}

/// The row of a byte swap.
fn swap_row(order: ByteOrder, width: SwapWidth) -> Row
    ensures { result ≡ swap_row order width }
{
    let opcode = match order {
        ByteOrder::Little => 0xd4,
        ByteOrder::Big => 0xdc,
        ByteOrder::Swap => 0xd7,
    };
    let bits = match width {
        SwapWidth::Bits16 => 16,
        SwapWidth::Bits32 => 32,
        SwapWidth::Bits64 => 64,
    };
    Row::new(opcode, Used, Unused, Unused, Code(bits))
}

/// The row of a conditional jump.
fn condition_row(condition: Condition, width: Width, source: SourceKind) -> Row
    ensures { result ≡ condition_row condition width source }
{
    let opcode = 16 * condition_code(condition) + jump_bits(width, source);
    let src = Field::src_of(source);
    let imm = Field::imm_of(source);
    Row::new(opcode, Used, src, Used, imm)
}

/// The row of a store.
fn store_row(size: Size, kind: SourceKind) -> Row
    ensures { result ≡ store_row size kind }
{
    let class = match kind {
        SourceKind::Immediate => 2,
        SourceKind::Register => 3,
    };
    let src = Field::src_of(kind);
    let imm = Field::imm_of(kind);
    Row::new(size_bits(size) + class, Used, src, Used, imm)
}

/// The row of an atomic operation.
fn atomic_row(op: AtomicOp, width: Width) -> Row
    ensures { result ≡ atomic_row op width }
{
    let opcode = match width {
        Width::Bits32 => 0xc3,
        Width::Bits64 => 0xdb,
    };
    Row::new(opcode, Used, Used, Used, Code(atomic_imm(op)))
}

/// The row of a wide load.
fn wide_row(kind: WideKind) -> Row
    ensures { result ≡ wide_row kind }
{
    let (src, next) = match kind {
        WideKind::Number => (0, Used),
        WideKind::Map => (5, Unused),
        WideKind::MapValue => (6, Used),
    };
    Row {
        next,
        ..Row::new(WIDE_OPCODE, Used, Code(src), Unused, Used)
    }
}

impl Row {
    /// A row of one slot: the opcode, and what dst, src, offset and imm hold.
    fn new(opcode: u8, dst: Field, src: Field, offset: Field, imm: Field) -> Row
        ensures { result ≡ record {
          opcode = opcode;
          dst = dst;
          src = src;
          offset = offset;
          imm = imm;
          next = Unused;
        } }
    {
        Row {
            opcode,
            dst,
            src,
            offset,
            imm,
            next: Unused,
        }
    }

    /// The row of a mnemonic in form K or X.
    pub fn of(mnemonic: Mnemonic, source: SourceKind) -> Row
        ensures { result ≡ row mnemonic source }
    {
        match mnemonic {
            Mnemonic::Binary(op, width) => binary_row(op, width, source),
            Mnemonic::Negate(width) => {
                let opcode = 0x80 + arithmetic_bits(width, SourceKind::Immediate);
                Row::new(opcode, Used, Unused, Unused, Unused)
            }
            Mnemonic::SignExtend(extension) => extension_row(extension),
            Mnemonic::SwapBytes(order, width) => swap_row(order, width),
            Mnemonic::JumpIf(condition, width) => condition_row(condition, width, source),
            Mnemonic::Jump => Row::new(0x05, Unused, Unused, Used, Unused),
            Mnemonic::JumpLong => Row::new(0x06, Unused, Unused, Unused, Used),
            Mnemonic::CallHelper => Row::new(0x85, Unused, Code(0), Unused, Used),
            Mnemonic::CallLocal => Row::new(0x85, Unused, Code(1), Unused, Used),
            Mnemonic::Exit => Row::new(0x95, Unused, Unused, Unused, Unused),
            Mnemonic::Load(size) => Row::new(load_bits(size) + 1, Used, Used, Used, Unused),
            Mnemonic::Store(size, kind) => store_row(size, kind),
            Mnemonic::Atomic(op, width) => atomic_row(op, width),
            Mnemonic::LoadWide(kind) => wide_row(kind),
        }
    }

    /// Whether the fields that it doesn't use are zero.
    pub fn is_clean(self, fields: Fields) -> bool
        ensures { IsTrue result ↔ IsClean self fields }
    {
        self.dst.is_clear(u32::from(fields.dst))
            && self.src.is_clear(u32::from(fields.src))
            && self.offset.is_clear(u32::from(fields.offset))
            && self.imm.is_clear(fields.imm)
            && self.next.is_clear(fields.next)
            && fields.reserved == 0
    }

    /// The fields of a word with the parts of an instruction: its codes are laid over them.
    pub fn laid(self, parts: Fields) -> Fields
        ensures codes { HasCodes self result }
        ensures clean { IsClean self result }
        ensures parts { IsLaid self parts result }
    {
        Fields {
            opcode: self.opcode,
            dst: self.dst.laid(u32::from(parts.dst)) as u8,
            src: self.src.laid(u32::from(parts.src)) as u8,
            offset: self.offset.laid(u32::from(parts.offset)) as u16,
            imm: self.imm.laid(parts.imm),
            reserved: 0,
            next: self.next.laid(parts.next),
        }
    }
}
