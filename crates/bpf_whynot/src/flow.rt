//! How control flows within one function of a program.
ghost use Rattle.std.specs.Prelude.{◌≡◌, ◌≤◌, ◌<◌};
ghost use Rattle.bpf_isa.specs.Checker.{most_slots};
ghost use Rattle.bpf_whynot.specs.Reach as reach;
ghost use Rattle.bpf_whynot.specs.Flows as spec;

use bpf_isa::{Insn, Program};

/// Whether an instruction may be followed by the one after it.
fn goes_on(insn: &Insn) -> bool
    ensures { result ≡ reach.goes_on insn.now }
{
    !matches!(
        insn,
        Insn::Jump { .. } | Insn::JumpLong { .. } | Insn::CallLocal { .. } | Insn::Exit
    )
}

/// Whether it may jump.
fn jumps(insn: &Insn) -> bool
    ensures { result ≡ reach.jumps insn.now }
{
    matches!(
        insn,
        Insn::JumpIf { .. } | Insn::Jump { .. } | Insn::JumpLong { .. }
    )
}

/// Whether it calls a function of the program.
fn calls(insn: &Insn) -> bool
    ensures { result ≡ reach.calls insn.now }
{
    matches!(insn, Insn::CallLocal { .. })
}

/// The slot that an instruction in a slot names.
pub fn target_slot(insn: &Insn, slot: usize) -> Option<usize>
    requires { slot ≤ most_slots }
    ensures { result ≡ spec.target_slot slot insn.now }
{
    match insn.target(slot) {
        Some(target) => usize::try_from(target).ok(),
        None => None,
    }
}

/// Whether the slot that it names is among these.
fn has_target(insn: &Insn, slot: usize, above: &[bool]) -> bool
    requires { slot ≤ most_slots }
    ensures { result ≡ spec.has_target above.now slot insn.now }
{
    match target_slot(insn, slot) {
        Some(target) => above.get(target).copied().unwrap_or(false),
        None => false,
    }
}

/// The slot behind an instruction, where control may come to that in the same function: `above`
/// tells from which slots a called function returns.
fn behind_by(insn: &Insn, slot: usize, above: &[bool]) -> Option<usize>
    requires { slot ≤ most_slots }
    ensures { result ≡ spec.behind_by above.now slot insn.now }
{
    if goes_on(insn) {
        return Some(slot + insn.slots());
    }
    if calls(insn) && has_target(insn, slot, above) {
        Some(slot + 1)
    } else {
        None
    }
}

/// The same of the instruction in a slot.
#[tactic(auto, unfolding(crate::specs::Flows::behind))]
pub fn behind(program: &Program, above: &[bool], slot: usize) -> Option<usize>
    requires { slot ≤ most_slots }
    ensures { result ≡ spec.behind program.now above.now slot }
{
    match program.insn_at(slot) {
        Some(insn) => behind_by(&insn, slot, above),
        None => None,
    }
}

/// The slot to which the instruction in a slot may jump.
#[tactic(auto, unfolding(crate::specs::Flows::jump))]
pub fn jump(program: &Program, slot: usize) -> Option<usize>
    requires { slot ≤ most_slots }
    ensures { result ≡ spec.jump program.now slot }
{
    match program.insn_at(slot) {
        Some(insn) => jump_by(&insn, slot),
        None => None,
    }
}

/// The same of an instruction.
fn jump_by(insn: &Insn, slot: usize) -> Option<usize>
    requires { slot ≤ most_slots }
    ensures { result ≡ spec.jump_by slot insn.now }
{
    if jumps(insn) {
        target_slot(insn, slot)
    } else {
        None
    }
}

/// Whether a call in a slot enters a function at one of these slots.
#[tactic(auto, unfolding(crate::specs::Flows::enters))]
pub fn enters(program: &Program, above: &[bool], slot: usize) -> bool
    requires { slot ≤ most_slots }
    ensures { result ≡ spec.enters program.now above.now slot }
{
    match program.insn_at(slot) {
        Some(insn) => calls(&insn) && has_target(&insn, slot, above),
        None => false,
    }
}

/// Whether a function ends in a slot.
#[tactic(auto, unfolding(crate::specs::Flows::ends))]
pub fn ends(program: &Program, slot: usize) -> bool
    ensures { result ≡ spec.ends program.now slot }
{
    match program.insn_at(slot) {
        Some(insn) => matches!(insn, Insn::Exit),
        None => false,
    }
}
