//! The second round over a listing: each label is replaced by its distance, and the bytes follow.
ghost use Rattle.std.specs.Prelude.{◌≡◌, ◌+◌, ◌≤ℤ◌, ◌-ℤ◌, pos, List, IfOk, IfErr, Ok, Err, if◌then◌else◌};
ghost use Rattle.bpf_isa.specs.declared.instruction.Insn.{Insn};
ghost use Rattle.bpf_text.specs.Scaffolding.Lines.{MemoryOr};
ghost use Rattle.bpf_text.specs.Scaffolding.Rounds.{insn_at, with_distance, with_label, second_round, AreWords, fits_offset};
ghost use Rattle.bpf_text.specs.Scaffolding.Labels.{labels_in, labels_of, placed_of};

use crate::fault::{AsmFault, LineFault};
use crate::read::first_round::{Outline, Placed};
use crate::read::labels::{Definition, LabelMap, definition_of};
use bpf_isa::{Insn, encode};
use std::alloc::Global;

/// The bytes of a listing that met no fault in the first round, or its first fault of the second.
pub fn second_round(alloc: Global, outline: &Outline<'_>) -> Result<Vec<u8>, AsmFault>
    ensures ok { IfOk result (λ bytes. (insns : List Insn)
        × (second_round (labels_of outline.now) (placed_of outline.now) ≡ Ok insns)
        × AreWords insns bytes.items) }
    ensures err { IfErr result
        (MemoryOr (second_round (labels_of outline.now) (placed_of outline.now))) }
{
    let mut bytes = Vec::new(alloc);
    for placed in &outline.placed {
        match insn_at(&outline.labels, placed) {
            Ok(insn) => {
                if bytes.extend_from_slice(encode(insn).as_slice()).is_err() {
                    return Err(AsmFault::Memory);
                }
            }
            Err(fault) => return Err(AsmFault::Line(fault, placed.line)),
        }
    }
    Ok(bytes)
}

/// The instruction of a statement, its label replaced by the distance.
fn insn_at(labels: &LabelMap<'_>, placed: &Placed<'_>) -> Result<Insn, LineFault>
    ensures { result ≡ insn_at (labels_in labels.now) placed.now }
{
    let insn = placed.statement.insn;
    let target = &placed.statement.target;
    match target {
        None => Ok(insn),
        Some(_) => with_label(placed.slot, insn, definition_of(labels, target)),
    }
}

fn with_label(slot: u16, insn: Insn, target: Option<Definition>) -> Result<Insn, LineFault>
    ensures { result ≡ with_label slot insn target }
{
    match target {
        None => Err(LineFault::UnknownLabel),
        Some(target) => with_distance(insn, distance_to(slot, target.slot)),
    }
}

/// How far a target is from the slot after this one.
fn distance_to(slot: u16, target: u16) -> i32
    ensures { result ≡ pos target -ℤ pos (slot + 1) }
{
    i32::from(target) - (i32::from(slot) + 1)
}

fn with_distance(insn: Insn, distance: i32) -> Result<Insn, LineFault>
    ensures { result ≡ with_distance insn distance }
{
    match insn {
        Insn::JumpIf {
            condition,
            width,
            dst,
            source,
            offset: _,
        } => {
            let offset = offset_of(distance)?;
            Ok(Insn::JumpIf {
                condition,
                width,
                dst,
                source,
                offset,
            })
        }
        Insn::Jump { offset: _ } => {
            let offset = offset_of(distance)?;
            Ok(Insn::Jump { offset })
        }
        Insn::JumpLong { distance: _ } => Ok(Insn::JumpLong { distance }),
        Insn::CallLocal { distance: _ } => Ok(Insn::CallLocal { distance }),
        _ => Ok(insn),
    }
}

/// A distance as an offset of 16 bits.
fn offset_of(distance: i32) -> Result<i16, LineFault>
    ensures { result ≡ (if fits_offset distance then Ok distance else Err
        (LineFault.TooFar distance)) }
{
    if -32768 <= distance && distance <= 32767 {
        Ok(distance as i16)
    } else {
        Err(LineFault::TooFar(distance))
    }
}
