//! The canonical listing of a program.
ghost use Rattle.std.specs.Prelude.{◌≡◌, ◌≤◌, ◌<◌, ◌++◌, ℕ, length, Some, IfOk, IfSome, slice_get, vec_len};
ghost use Rattle.bpf_isa.specs.Checker.{most_slots};
ghost use Rattle.bpf_isa.specs.Programs.{target_of};
ghost use Rattle.bpf_text.specs.Scaffolding.Slots.{IsSlot};
ghost use Rattle.bpf_text.specs.Canonical.{canon, is_target, slot_lines, label_line};
ghost use Rattle.counted_io.specs.Writing.{WritesAfter};

use crate::write::insn::put_insn;
use crate::write::operand::target_of;
use bpf_isa::{Insn, Program};
use counted_io::{Counted, Piece, WriteFault, put, put_all};
use std::alloc::{AllocError, Global};
use std::io::Write;

/// The canonical listing of a program: a line an instruction, each target's label on a line before.
pub fn disassemble(alloc: Global, program: &Program) -> Result<Vec<u8>, AllocError>
    ensures { IfOk result (λ text. text.items ≡ canon program.now) }
{
    program.invariant();
    let labelled = targets(alloc, program)?;
    let mut writer = Counted::new(Vec::new(alloc));
    let mut so_far = Ok(());
    for slot in 0..program.len() {
        if let Some(insn) = program.insn_at(slot) {
            so_far = put_lines(&mut writer, so_far, labelled[slot], slot, insn);
        }
    }
    match so_far {
        Ok(()) => Ok(writer.into_inner()),
        Err(_) => Err(AllocError),
    }
}

/// Writes the lines of a slot after what was written so far, unless that failed.
fn put_lines<W: Write>(
    writer: &mut Counted<W>,
    so_far: Result<(), WriteFault>,
    labelled: bool,
    slot: usize,
    insn: Insn,
) -> Result<(), WriteFault>
    requires { slot ≤ most_slots }
    ensures { WritesAfter W.contents writer.old so_far writer.new result
        (slot_lines labelled slot (Some insn)) }
{
    let named = put_label_line(writer, so_far, labelled, slot);
    let written = put_insn(writer, named, slot, insn);
    put(writer, written, b"\n")
}

fn put_label_line<W: Write>(
    writer: &mut Counted<W>,
    so_far: Result<(), WriteFault>,
    labelled: bool,
    slot: usize,
) -> Result<(), WriteFault>
    ensures { WritesAfter W.contents writer.old so_far writer.new result
        (label_line labelled slot) }
{
    if labelled {
        let line = [
            Piece::Text(b"L"),
            Piece::Decimal(slot as u64),
            Piece::Text(b":\n"),
        ];
        put_all(writer, so_far, &line)
    } else {
        so_far
    }
}

/// For each slot, whether it is a target.
fn targets(alloc: Global, program: &Program) -> Result<Vec<bool>, AllocError>
    ensures fits { IfOk result (λ flags. vec_len flags ≡ length program.now.insns) }
    ensures value { IfOk result (λ flags. (t : ℕ) → t < length program.now.insns
        → slice_get flags.items t ≡ Some (is_target 0 program.now.insns t)) }
{
    program.invariant();
    let mut flags = vec![in alloc; false; program.len()]?;
    for slot in 0..program.len() {
        if let Some(insn) = program.insn_at(slot) {
            if let Some(target) = target_of(slot, &insn) {
                flags[target] = true;
            }
        }
    }
    Ok(flags)
}
