//! The texts of instructions with their slots.
ghost use Rattle.bpf_isa.specs.Programs.{IsStart};
ghost use Rattle.counted_io.specs.Writing.{WritesAfter};
ghost use Rattle.bpfdb_script.specs.Texts.{instructions_from, text_at};

use crate::Span;
use bpf_isa::Program;
use bpf_text::put_insn;
use counted_io::{Counted, Piece, WriteFault, put, put_all};
use std::io::Write;

/// Writes a slot and the instruction that starts there.
pub fn put_at<W: Write>(
    writer: &mut Counted<W>,
    so_far: Result<(), WriteFault>,
    program: &Program,
    slot: usize,
) -> Result<(), WriteFault>
    requires { IsStart program.now slot }
    ensures { WritesAfter W.contents writer.old so_far writer.new result
        (text_at program.now slot) }
{
    program.invariant();
    match program.insn_at(slot) {
        Some(insn) => {
            let place = [Piece::Decimal(slot as u64), Piece::Text(b": ")];
            let placed = put_all(writer, so_far, &place);
            put_insn(writer, placed, slot, insn)
        }
        None => unreachable!(),
    }
}

/// Writes the lines of so many instructions from a slot on, fewer at the program's end.
pub fn put_instructions<W: Write>(
    writer: &mut Counted<W>,
    so_far: Result<(), WriteFault>,
    program: &Program,
    slot: usize,
    span: Span,
) -> Result<(), WriteFault>
    ensures { WritesAfter W.contents writer.old so_far writer.new result
        (instructions_from program.now slot span) }
{
    program.invariant();
    let mut at = slot;
    let mut told = so_far;
    for _ in 0..span.get() {
        match program.insn_at(at) {
            Some(insn) => {
                let shown = put_at(writer, told, program, at);
                told = put(writer, shown, b"\n");
                at += insn.slots();
            }
            None => return told,
        }
    }
    told
}
