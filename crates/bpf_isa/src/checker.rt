//! The checker: the first fault of the bytes, or a program.
ghost use Rattle.std.specs.Prelude.{◌≡◌, ◌≤◌, ◌<◌, ◌⊎◌, ◌+◌, ◌*◌, ◌↔◌, IsTrue, IfSome, IfNone, IfOk, OnOk, IfErr, List, ℕ, length, slice_index};
ghost use Rattle.bpf_isa.specs.Checker.{IsStartIn, AreSlots, piece_at, HasFault, HasNoFault, IsFirstFault, IsAccepted, IsRefused};
ghost use Rattle.bpf_isa.specs.Scaffolding.Checking.{AreStarts, AreInsns, Breaks, IsPiece, IsSound, IsStartOf};
ghost use Rattle.bpf_isa.specs.Scaffolding.Codec.{IsRead};
ghost use Rattle.bpf_isa.specs.Faults.{IsLeast, piece_fault};
ghost use Rattle.bpf_isa.specs.Insns.{slots_of};
ghost use Rattle.bpf_isa.specs.WideLoads.{wide_opcode};
ghost use Rattle.bpf_isa.specs.declared.maps.MapShape.{MapShape};

use crate::decoder::{is_cut_off, read_insn};
use crate::fault::{LoadFault, PieceFault, WordFault};
use crate::instruction::Insn;
use crate::maps::MapTable;
use crate::opcode::WIDE_OPCODE;
use crate::rules::lands;
use std::alloc::{AllocError, Global};

/// The bytes of the piece at a start.
fn piece_of(bytes: &[u8], slot: usize) -> &[u8]
    requires slots { AreSlots bytes.now }
    requires start { IsStartIn bytes.now slot }
    ensures value { result.now ≡ piece_at bytes.now slot }
    ensures fits { (length result.now ≡ 8)
        ⊎ ((length result.now ≡ 16) × (slice_index result.now 0 ≡ wide_opcode)) }
{
    let from = 8 * slot;
    let to = if bytes[from] == WIDE_OPCODE && from + 16 <= bytes.len() {
        from + 16
    } else {
        from + 8
    };
    &bytes[from..to]
}

/// Whether no slot follows those of an instruction at a start.
fn is_last(bytes: &[u8], slot: usize, insn: &Insn) -> bool
    requires slots { AreSlots bytes.now }
    requires start { IsStartIn bytes.now slot }
    ensures { IsTrue result ↔ (length bytes.now ≤ 8 * (slot + slots_of insn.now)) }
{
    bytes.len() <= 8 * (slot + insn.slots())
}

/// What the checker looks at: the bytes of a program, its starts, one flag a slot, and its maps.
#[derive(Clone, Copy)]
pub struct Draft<'a> {
    pub bytes: &'a [u8],
    pub starts: &'a [bool],
    pub maps: &'a MapTable,
}

/// The fault of the piece at a start that reads as an instruction, the one with the least number.
fn broken_rule(draft: &Draft<'_>, slot: usize, insn: &Insn) -> Option<PieceFault>
    requires { IsStartOf draft.now.bytes.now draft.now.starts.now slot }
    ensures found { IfSome result
        (IsLeast piece_fault (Breaks draft.now.bytes.now draft.now.maps.now slot insn.now)) }
    ensures none { IfNone result (IsSound draft.now.bytes.now draft.now.maps.now slot insn.now) }
{
    if insn.writes_ten() {
        return Some(PieceFault::WritesFramePointer);
    }
    if !lands(insn, slot, draft.starts) {
        return Some(PieceFault::NoTarget);
    }
    if is_cut_off(piece_of(draft.bytes, slot)) {
        return Some(PieceFault::Word(WordFault::CutOff));
    }
    if insn.falls_through() && is_last(draft.bytes, slot, insn) {
        return Some(PieceFault::RunsOff);
    }
    if !insn.helper_exists() {
        return Some(PieceFault::UnknownHelper);
    }
    if !insn.map_exists(draft.maps) {
        return Some(PieceFault::NoMap);
    }
    None
}

/// The instruction at a start, or its fault with the least number.
pub fn piece(draft: &Draft<'_>, slot: usize) -> Result<Insn, PieceFault>
    requires { IsStartOf draft.now.bytes.now draft.now.starts.now slot }
    ensures ok { IfOk result (IsPiece draft.now.bytes.now draft.now.maps.now slot) }
    ensures clear { OnOk result (HasNoFault draft.now.bytes.now draft.now.maps.now slot) }
    ensures read { IfOk result (IsRead (piece_at draft.now.bytes.now slot)) }
    ensures fault { IfErr result
        (IsLeast piece_fault (HasFault draft.now.bytes.now draft.now.maps.now slot)) }
{
    let piece = piece_of(draft.bytes, slot);
    let insn = match read_insn(piece) {
        Ok(insn) => insn,
        Err(fault) => return Err(PieceFault::Word(fault)),
    };
    match broken_rule(draft, slot, &insn) {
        Some(fault) => Err(fault),
        None => Ok(insn),
    }
}

/// The starts, one flag a slot.
pub fn starts_of(alloc: Global, bytes: &[u8]) -> Result<Vec<bool>, AllocError>
    requires { AreSlots bytes.now }
    ensures { IfOk result (λ starts. AreStarts bytes.now starts.items) }
{
    let mut starts = Vec::with_capacity(alloc, bytes.len() / 8)?;
    let mut is_start = true;
    for slot in 0..bytes.len() / 8 {
        starts.push(is_start)?;
        is_start = !(is_start && bytes[8 * slot] == WIDE_OPCODE);
    }
    Ok(starts)
}

/// The instructions at the starts, or the first fault.
pub fn insns_of(alloc: Global, draft: &Draft<'_>) -> Result<Vec<Option<Insn>>, LoadFault>
    requires slots { AreSlots draft.now.bytes.now }
    requires flags { AreStarts draft.now.bytes.now draft.now.starts.now }
    ensures ok { IfOk result (λ insns.
        AreInsns draft.now.bytes.now draft.now.maps.now insns.items (length draft.now.starts.now)) }
    ensures fault { IfErr result (IsRefused draft.now.bytes.now draft.now.maps.now) }
{
    let mut insns = match Vec::with_capacity(alloc, draft.starts.len()) {
        Ok(insns) => insns,
        Err(_) => return Err(LoadFault::Memory),
    };
    for slot in 0..draft.starts.len() {
        if draft.starts[slot] {
            match piece(draft, slot) {
                Ok(insn) => {
                    if insns.push(Some(insn)).is_err() {
                        return Err(LoadFault::Memory);
                    }
                }
                Err(fault) => return Err(LoadFault::At { slot, fault }),
            }
        } else if insns.push(None).is_err() {
            return Err(LoadFault::Memory);
        }
    }
    Ok(insns)
}
