//! Whether a move kept values from being written.
ghost use Rattle.std.specs.Prelude.{◌≡◌, ◌≤◌, ◌↔◌, true, List};
ghost use Rattle.bpf_isa.specs.Checker.{most_slots};
ghost use Rattle.bpf_isa.specs.Programs.{Checked};
ghost use Rattle.bpf_journal.specs.Histories.{Record, is_step as is_step_of};
ghost use Rattle.bpf_machine.specs.declared.moves.Move.TheVariants as move_of;
ghost use Rattle.bpf_origin.specs.declared.place.Place.{Place};
ghost use Rattle.bpf_steps.specs.State.{State};
ghost use Rattle.bpf_whynot.specs.Keeps as spec;
ghost use Rattle.bpf_whynot.specs.Standings.{standing};
ghost use Rattle.bpf_whynot.specs.declared.branch_aim.Aim.{Aim};

use crate::keep::Keep;
use crate::reach::is_flagged;
use crate::{Standing, target_slot};
use bpf_isa::Insn;
use bpf_machine::Cpu;

/// Whether a move kept what is held from being written, from the machine before it and where it led
/// to.
pub fn kept_it(cpu: &Cpu, is_step: bool, after: Standing, keep: &Keep) -> bool
    ensures { (r : Record) (y : State) → cpu.now ≡ r.before → is_step ≡ is_step_of r.move →
        after ≡ standing y → spec.TellsKeep r.before.program keep.now →
        (result ≡ true) ↔ spec.KeptIt (spec.held_of keep.now) r y }
{
    let marks = keep.marks(cpu.depth());
    if is_flagged(marks, after.slot) {
        return false;
    }
    if is_step {
        could(cpu, marks)
    } else {
        is_flagged(marks, usize::from(cpu.pc()))
    }
}

/// Whether the next step may lead where one of them can be written.
fn could(cpu: &Cpu, marks: &[bool]) -> bool
    ensures { (places : List Place) (wall : Aim) →
        spec.AreWriting cpu.now.program places wall marks.now →
        (result ≡ true) ↔ spec.Could places wall cpu.now move_of.Step }
{
    cpu.invariant();
    let slot = usize::from(cpu.pc());
    match cpu.program().insn_at(slot) {
        Some(insn) => could_by(&insn, slot, marks),
        None => false,
    }
}

/// Whether an instruction in a slot may.
fn could_by(insn: &Insn, at: usize, marks: &[bool]) -> bool
    requires { at ≤ most_slots }
    ensures { (program : Checked) (places : List Place) (wall : Aim) →
        spec.AreWriting program places wall marks.now →
        (result ≡ true) ↔ spec.CouldBy program places wall at insn.now }
{
    match insn {
        Insn::JumpIf { .. } => one_way(insn, at, marks),
        _ => false,
    }
}

/// Whether one of the ways out of a conditional jump does.
fn one_way(insn: &Insn, at: usize, marks: &[bool]) -> bool
    requires { at ≤ most_slots }
    ensures { (program : Checked) (places : List Place) (wall : Aim) →
        spec.AreWriting program places wall marks.now →
        (result ≡ true) ↔ spec.OneWay program places wall at insn.now }
{
    if is_flagged(marks, at + 1) {
        return true;
    }
    match target_slot(insn, at) {
        Some(target) => is_flagged(marks, target),
        None => false,
    }
}
