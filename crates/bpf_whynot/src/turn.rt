//! One move of the pass that looks for branches.
ghost use Rattle.std.specs.Prelude.{◌≡◌, ◌≤◌, ◌<◌, ◌+◌, ◌-◌, ◌↔◌, ℕ, ◌||◌, nat_lt, true, false, List, [], IfOk, not, if◌then◌else◌};
ghost use lib.Chars.{codes};
ghost use Rattle.bpf_isa.specs.Checker.{most_slots};
ghost use Rattle.bpf_isa.specs.Programs.{Checked};
ghost use Rattle.bpf_machine.specs.declared.moves.Move.TheVariants as move_of;
ghost use Rattle.bpf_journal.specs.Histories.{Record, is_step as is_step_of};
ghost use Rattle.bpf_steps.specs.State.{State, depth};
ghost use Rattle.bpf_whynot.specs.Sures.{TellsSure, told_sure};
ghost use Rattle.bpf_whynot.specs.Standings.{standing};
ghost use Rattle.bpf_whynot.specs.Branches as spec;
ghost use Rattle.counted_io.specs.Writing.{WritesAfter};
ghost use Rattle.bpf_whynot.specs.BranchTurns.{Chases, Knows, Takes, quest_of};
ghost use Rattle.bpf_machine.specs.Moves.{overwritten};
ghost use Rattle.bpf_origin.specs.Wanted.{still_wanted};
ghost use Rattle.bpf_origin.specs.declared.place.Place.{Place};

use crate::branch_aim::Aim;
use crate::hunt::{Hunt, Turn, Undone};
use crate::keep::Keep;
use crate::kept::kept_it;
use crate::{Standing, Sure, put_line, target_slot};
use bpf_isa::Insn;
use bpf_machine::Cpu;
use bpf_origin::{Question, Wanted};
use counted_io::{Counted, WriteFault, put};
use std::alloc::{AllocError, Global};
use std::io::Write;

/// Takes notice of a move that was taken back, from the machine before it. A branch is told, where
/// there is room for its line.
pub fn turn<W: Write>(
    alloc: Global,
    cpu: &Cpu,
    undone: Undone,
    question: Question<'_>,
    hunt: Hunt,
    wanted: &Wanted,
    writer: &mut Counted<W>,
) -> Result<Turn, AllocError>
    ensures { IfOk result (λ turn. (k : ℕ) (r : Record) (h : List Record) (y : State)
        (was : List Place) → wanted.now ≡ still_wanted y (overwritten r.before r.move) was →
        undone.number ≡ k + 1 → cpu.now ≡ r.before → undone.is_step ≡ is_step_of r.move →
        undone.after ≡ standing y → Knows r.before hunt → spec.made (quest_of hunt was) r y ≡ false →
        Takes W.contents question.entry k r h y was wanted.now writer.old hunt writer.new turn) }
{
    let deep = cpu.depth();
    let own = hunt.keep.wall.depth;
    if deep < own {
        return leave(alloc, cpu, wanted, hunt);
    }
    let (is_step, after) = (undone.is_step, undone.after);
    let decided = decided_it(cpu, is_step, after, &hunt);
    let kept = kept_it(cpu, is_step, after, &hunt.keep);
    let some = either(decided, kept);
    if !some {
        return Ok(Turn::On(hunt));
    }
    let lines = hunt.lines;
    if lines == 0 {
        return Ok(Turn::Cut(put(writer, hunt.told, b"cut: there are more lines\n")));
    }
    let begun = put_kept(writer, hunt.told, decided);
    let told = put_line(
        writer,
        begun,
        question.places,
        undone.number,
        cpu,
        is_step,
        after,
    );
    follow(alloc, cpu, wanted, decided, told_on(hunt, told))
}

/// Whether one of two holds.
fn either(first: bool, second: bool) -> bool
    ensures { result ≡ (first || second) }
{
    first || second
}

/// Writes what stands before the line of a branch that decided nothing.
fn put_kept<W: Write>(
    writer: &mut Counted<W>,
    so_far: Result<(), WriteFault>,
    decided: bool,
) -> Result<(), WriteFault>
    ensures { WritesAfter W.contents writer.old so_far writer.new result
        (if decided then [] else codes "kept: ") }
{
    if decided {
        so_far
    } else {
        put(writer, so_far, b"kept: ")
    }
}

/// A line was told.
fn told_on(hunt: Hunt, told: Result<(), WriteFault>) -> Hunt
    ensures { result ≡ record hunt { lines = hunt.lines - 1; told = told } }
{
    Hunt {
        aim: hunt.aim,
        sure: hunt.sure,
        values: hunt.values,
        lines: hunt.lines.saturating_sub(1),
        told,
        keep: hunt.keep,
    }
}

/// Goes on behind a branch that was told.
fn follow(
    alloc: Global,
    cpu: &Cpu,
    wanted: &Wanted,
    decided: bool,
    hunt: Hunt,
) -> Result<Turn, AllocError>
    ensures { IfOk result (λ turn. (x : State) → cpu.now ≡ x → Knows x hunt →
        Chases x wanted.now (if decided then spec.aim_at x else hunt.aim) hunt turn) }
{
    if decided {
        chase(alloc, cpu, wanted, hunt)
    } else {
        hold(alloc, cpu, wanted, hunt)
    }
}

/// Goes on behind a call.
fn leave(alloc: Global, cpu: &Cpu, wanted: &Wanted, hunt: Hunt) -> Result<Turn, AllocError>
    ensures { IfOk result (λ turn. (x : State) → cpu.now ≡ x → Knows x hunt →
        Chases x wanted.now
        (if nat_lt (depth x) hunt.aim.depth then spec.aim_at x else hunt.aim) hunt turn) }
{
    let deep = cpu.depth();
    let own = hunt.aim.depth;
    if deep < own {
        chase(alloc, cpu, wanted, hunt)
    } else {
        hold(alloc, cpu, wanted, hunt)
    }
}

/// Looks from now on for how the machine came to where it stands, and holds there what is wanted.
pub fn chase(alloc: Global, cpu: &Cpu, wanted: &Wanted, hunt: Hunt) -> Result<Turn, AllocError>
    ensures { IfOk result (λ turn. (x : State) → cpu.now ≡ x → Knows x hunt →
        Chases x wanted.now (spec.aim_at x) hunt turn) }
{
    let aim = Aim::of(cpu);
    let slot = aim.slot;
    let was = hunt.aim.slot;
    if slot == was {
        return hold(alloc, cpu, wanted, aimed(hunt, aim));
    }
    match Sure::find(alloc, cpu.program(), slot) {
        Ok(sure) => hold(
            alloc,
            cpu,
            wanted,
            Hunt {
                aim,
                sure,
                values: hunt.values,
                lines: hunt.lines,
                told: hunt.told,
                keep: hunt.keep,
            },
        ),
        Err(error) => Err(error),
    }
}

/// It is looked for a slot.
fn aimed(hunt: Hunt, aim: Aim) -> Hunt
    ensures { result ≡ record hunt { aim = aim } }
{
    Hunt {
        aim,
        sure: hunt.sure,
        values: hunt.values,
        lines: hunt.lines,
        told: hunt.told,
        keep: hunt.keep,
    }
}

/// Holds what is wanted from where the machine stands.
fn hold(alloc: Global, cpu: &Cpu, wanted: &Wanted, hunt: Hunt) -> Result<Turn, AllocError>
    ensures { IfOk result (λ turn. (x : State) → cpu.now ≡ x →
        TellsSure x.program hunt.aim.slot (told_sure hunt.sure) →
        Chases x wanted.now hunt.aim hunt turn) }
{
    cpu.invariant();
    match Keep::find(alloc, cpu.program(), Aim::of(cpu), wanted, hunt.values) {
        Ok(keep) => Ok(Turn::On(Hunt {
            aim: hunt.aim,
            sure: hunt.sure,
            values: hunt.values,
            lines: hunt.lines,
            told: hunt.told,
            keep,
        })),
        Err(error) => Err(error),
    }
}

/// Whether a move of the function that is looked at decided that it came to the slot.
fn decided_it(cpu: &Cpu, is_step: bool, after: Standing, hunt: &Hunt) -> bool
    ensures { (r : Record) (y : State) → cpu.now ≡ r.before → is_step ≡ is_step_of r.move →
        after ≡ standing y → Knows r.before hunt.now →
        (result ≡ true) ↔ spec.DecidedIt hunt.now.aim r y }
{
    let deep = cpu.depth();
    let own = hunt.aim.depth;
    if deep != own {
        return false;
    }
    if is_step {
        decides(cpu, &hunt.sure)
    } else {
        after.slot != usize::from(cpu.pc())
    }
}

/// Whether the next step decides that its function comes to a slot.
fn decides(cpu: &Cpu, sure: &Sure) -> bool
    ensures { (slot : ℕ) (y : State) →
        TellsSure cpu.now.program slot (told_sure sure.now) →
        (result ≡ true) ↔ spec.Decided slot cpu.now move_of.Step y }
{
    cpu.invariant();
    let slot = usize::from(cpu.pc());
    match cpu.program().insn_at(slot) {
        Some(insn) => decides_by(&insn, slot, sure),
        None => false,
    }
}

/// Whether an instruction in a slot does.
fn decides_by(insn: &Insn, at: usize, sure: &Sure) -> bool
    requires { at ≤ most_slots }
    ensures { (program : Checked) (slot : ℕ) → TellsSure program slot (told_sure sure.now) →
        (result ≡ true) ↔ spec.DecidesBy program slot at insn.now }
{
    match insn {
        Insn::JumpIf { .. } => parts(insn, at, sure),
        _ => false,
    }
}

/// Whether the function comes to a slot surely by just one of the slots behind a jump and at its
/// target.
fn parts(insn: &Insn, at: usize, sure: &Sure) -> bool
    requires { at ≤ most_slots }
    ensures { (program : Checked) (slot : ℕ) → TellsSure program slot (told_sure sure.now) →
        (result ≡ true) ↔ spec.Parts program slot at insn.now }
{
    match target_slot(insn, at) {
        Some(target) => differ(sure.is_sure_from(at + 1), sure.is_sure_from(target)),
        None => false,
    }
}

/// Whether just one of two holds.
fn differ(first: bool, second: bool) -> bool
    ensures { result ≡ (if first then not second else second) }
{
    if first { !second } else { second }
}
