//! Two machines that go forward in step.
ghost use Rattle.std.specs.Prelude.{◌≡◌, false};
ghost use Rattle.bpf_entries.specs.Status.{has_ended};
ghost use Rattle.bpf_steps.specs.State.{State};
ghost use Rattle.bpf_trace.specs.Taken.{Took};
ghost use Rattle.bpf_diff.specs.Alike.{same_slot, same_writes};
ghost use Rattle.bpf_diff.specs.Following.{Goes, Parts, are_together as are_together_of};

use crate::wrote::{same_all, wrote_by};
use bpf_machine::Cpu;
use bpf_trace::{Taken, step_on};

/// A step that both took.
#[derive(Clone, Copy)]
pub struct Parted {
    pub first: Taken,
    pub second: Taken,
}

/// Steps that both took, and did alike; and the one behind them that they did not do alike, if both
/// took it from one slot.
#[derive(Clone, Copy)]
pub struct Agreed {
    pub steps: u64,
    pub parted: Option<Parted>,
}

/// Takes steps of both as long as they do alike, at most so many.
pub fn go_alike(first: &mut Cpu, second: &mut Cpu, limit: u64) -> Agreed
    ensures { Parts result.parted limit result.steps first.old second.old first.new second.new }
{
    for k in 0..limit {
        if !are_together(first, second) {
            return Agreed {
                steps: k,
                parted: None,
            };
        }
        let parted = Parted {
            first: take_step(first),
            second: take_step(second),
        };
        if !did_alike(first, second, &parted) {
            return Agreed {
                steps: k,
                parted: Some(parted),
            };
        }
    }
    Agreed {
        steps: limit,
        parted: None,
    }
}

/// Takes steps of both as long as they stand at one slot, at most so many, and answers how many.
pub fn go_together(first: &mut Cpu, second: &mut Cpu, most: u64) -> u64
    ensures { Goes same_slot most first.old second.old first.new second.new result }
{
    for k in 0..most {
        if !are_together(first, second) {
            return k;
        }
        step_on(first);
        step_on(second);
    }
    most
}

/// Whether both run, and stand at one slot.
fn are_together(first: &Cpu, second: &Cpu) -> bool
    ensures { result ≡ are_together_of first.now second.now }
{
    !first.status().has_ended() && (!second.status().has_ended() && first.pc() == second.pc())
}

/// Takes a step, and answers what it did.
#[inline(always)]
pub fn take_step(cpu: &mut Cpu) -> Taken
    requires { has_ended cpu.old.status ≡ false }
    ensures { Took cpu.old cpu.new result }
{
    cpu.invariant();
    let slot = cpu.pc();
    let change = cpu.look_on();
    cpu.commit(&change);
    Taken { slot, change }
}

/// Whether both machines, after a step that they took, wrote the same.
fn did_alike(first: &Cpu, second: &Cpu, parted: &Parted) -> bool
    ensures { (x y : State) → Took x first.now parted.now.first →
        Took y second.now parted.now.second → result ≡ same_writes x y }
{
    let one = wrote_by(first, &parted.first.change);
    let other = wrote_by(second, &parted.second.change);
    same_all(first, second, &one, &other)
}
