//! The canonical text of an instruction.
ghost use Rattle.std.specs.Prelude.{◌≤◌};
ghost use Rattle.bpf_isa.specs.Checker.{most_slots};
ghost use Rattle.bpf_text.specs.Operands.{operand_text, operands_text, text_of_insn};
ghost use Rattle.counted_io.specs.Writing.{Writes, WritesAfter};

use crate::names::{stem_of, suffix_of};
use crate::write::operand::{Operand, Operands, operands_of};
use bpf_isa::{Insn, Mnemonic, Reg};
use counted_io::{
    Counted, Piece, WriteFault, put, put_all, put_decimal, put_hexadecimal, put_signed,
};
use std::io::Write;

/// Writes the canonical text of the instruction in this slot, 0 to 65,535, without a line feed.
pub fn write_insn<W: Write>(
    writer: &mut Counted<W>,
    slot: usize,
    insn: Insn,
) -> Result<(), WriteFault>
    requires { slot ≤ most_slots }
    ensures { Writes W.contents writer.old writer.new result (text_of_insn slot insn) }
{
    put_insn(writer, Ok(()), slot, insn)
}

/// Writes the canonical text of an instruction, as `write_insn`, after what was written so far,
/// unless that failed.
pub fn put_insn<W: Write>(
    writer: &mut Counted<W>,
    so_far: Result<(), WriteFault>,
    slot: usize,
    insn: Insn,
) -> Result<(), WriteFault>
    requires { slot ≤ most_slots }
    ensures { WritesAfter W.contents writer.old so_far writer.new result (text_of_insn slot insn) }
{
    let mnemonic = Mnemonic::of(&insn);
    let stem = stem_of(&mnemonic).as_bytes();
    let suffix = suffix_of(&mnemonic).as_bytes();
    let name = [Piece::Text(stem), Piece::Text(suffix)];
    let named = put_all(writer, so_far, &name);
    put_operands(writer, named, &operands_of(slot, &insn))
}

/// Each operand after what stands before it: a blank, or a comma and a blank.
fn put_operands<W: Write>(
    writer: &mut Counted<W>,
    so_far: Result<(), WriteFault>,
    operands: &Operands,
) -> Result<(), WriteFault>
    ensures { WritesAfter W.contents writer.old so_far writer.new result
        (operands_text operands.now) }
{
    match operands {
        Operands::Nothing => so_far,
        Operands::One(first) => {
            let begun = put(writer, so_far, b" ");
            put_operand(writer, begun, first)
        }
        Operands::Two(first, second) => {
            let begun = put(writer, so_far, b" ");
            let one = put_operand(writer, begun, first);
            let parted = put(writer, one, b", ");
            put_operand(writer, parted, second)
        }
        Operands::Three(first, second, third) => {
            let begun = put(writer, so_far, b" ");
            let one = put_operand(writer, begun, first);
            let parted = put(writer, one, b", ");
            let two = put_operand(writer, parted, second);
            let parted_again = put(writer, two, b", ");
            put_operand(writer, parted_again, third)
        }
    }
}

fn put_operand<W: Write>(
    writer: &mut Counted<W>,
    so_far: Result<(), WriteFault>,
    operand: &Operand,
) -> Result<(), WriteFault>
    ensures { WritesAfter W.contents writer.old so_far writer.new result
        (operand_text operand.now) }
{
    match *operand {
        Operand::Register(reg) => {
            let number = u64::from(reg.number());
            let name = [Piece::Text(b"r"), Piece::Decimal(number)];
            put_all(writer, so_far, &name)
        }
        Operand::Signed(value) => put_signed(writer, so_far, i64::from(value)),
        Operand::Unsigned(value) => put_decimal(writer, so_far, u64::from(value)),
        Operand::Hexadecimal(value) => put_hexadecimal(writer, so_far, value),
        Operand::Memory(address) => put_memory(writer, so_far, address.base, address.offset),
        Operand::Target(slot) => {
            let name = [Piece::Text(b"L"), Piece::Signed(slot)];
            put_all(writer, so_far, &name)
        }
    }
}

fn put_memory<W: Write>(
    writer: &mut Counted<W>,
    so_far: Result<(), WriteFault>,
    base: Reg,
    offset: i16,
) -> Result<(), WriteFault>
    ensures { WritesAfter W.contents writer.old so_far writer.new result
        (operand_text (Operand.Memory (record { base = base; offset = offset }))) }
{
    let number = u64::from(base.number());
    let distance = i64::from(offset);
    if offset < 0 {
        let address = [
            Piece::Text(b"[r"),
            Piece::Decimal(number),
            Piece::Signed(distance),
            Piece::Text(b"]"),
        ];
        put_all(writer, so_far, &address)
    } else {
        let address = [
            Piece::Text(b"[r"),
            Piece::Decimal(number),
            Piece::Text(b"+"),
            Piece::Signed(distance),
            Piece::Text(b"]"),
        ];
        put_all(writer, so_far, &address)
    }
}
