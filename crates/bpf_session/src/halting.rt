//! How a forward command's run of steps stops.
ghost use Rattle.std.specs.Prelude.{◌≡◌, ◌≤◌, ◌<◌, ◌^◌};
ghost use Rattle.bpf_session.specs.Halting.{floor_of as floor, most_of as most};

use crate::breakpoints::Breakpoints;
use crate::watches::{Seen, Watches};
use bpf_journal::StopTest;
use bpf_machine::{Cpu, Guard};
use bpfdb_script::Goal;

/// What stops a run beside its number of steps: a breakpoint, a depth of calls below a floor, and a
/// change of what was seen of the watched bytes.
#[derive(Clone, Copy)]
pub(crate) struct Halting<'a> {
    pub(crate) breaks: &'a Breakpoints,
    pub(crate) watches: &'a Watches,
    pub(crate) seen: &'a Seen,
    pub(crate) floor: usize,
}

impl<'a> StopTest for Halting<'a> {
    ghost use Rattle.bpf_session.specs.Halting.{halts};

    ghost test = { λ h replaced y. halts h.breaks.now h.watches.now h.seen.now h.floor replaced y };

    #[tactic(auto, using(crate::proofs::Halts::spared))]
    #[inline(always)]
    fn marks(&self) -> &[bool; 8192] {
        self.breaks.table()
    }

    #[inline(always)]
    fn guard(&self, cpu: &Cpu) -> Option<Guard> {
        if self.watches.differ_from(cpu, self.seen) {
            None
        } else {
            Some(self.watches.guard())
        }
    }

    #[tactic(auto, using(crate::proofs::Halts::forgot))]
    #[inline(always)]
    fn overlooks_calls(&self) -> bool {
        self.floor == 0
    }

    #[inline(always)]
    fn holds(&self, cpu: &Cpu, replaced: bool) -> bool {
        if self.breaks.has(cpu.pc()) {
            true
        } else if replaced {
            cpu.depth() < self.floor || self.watches.differ_from(cpu, self.seen)
        } else {
            cpu.depth() < self.floor
        }
    }
}

/// The floor of a command that began at a depth.
pub(crate) fn floor_of(goal: &Goal, start: usize) -> usize
    requires { start < 2 ^ 32 }
    ensures { result ≡ floor goal.now start }
{
    match goal {
        Goal::Steps(_) => 0,
        Goal::Next => start + 1,
        Goal::Continue => 0,
        Goal::Finish => start,
    }
}

/// The most steps of a command, by the session's limit.
pub(crate) fn most_of(goal: &Goal, limit: u64) -> u64
    requires { 1 ≤ limit }
    ensures value { result ≡ most goal.now limit }
    ensures some { 1 ≤ result }
{
    match goal {
        Goal::Steps(count) => {
            if count.get() < limit {
                count.get()
            } else {
                limit
            }
        }
        _ => limit,
    }
}
