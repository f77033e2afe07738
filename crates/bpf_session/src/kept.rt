//! Runs with history that no command stops.
ghost use Rattle.std.specs.Prelude.{◌≡◌, ◌≤◌, false};
ghost use Rattle.bpf_entries.specs.Status.{has_ended};
ghost use Rattle.bpf_session.specs.Plain.{RunsKept};

use crate::breakpoints::Breakpoints;
use crate::halting::Halting;
use crate::watches::Watches;
use bpf_journal::{RingKeeper, Timeline};

/// Takes the steps that `run_plain` takes, the least number, at least one, after which the machine
/// has ended or the limit is reached, and keeps each, the first one with a mark. Answers how many.
/// It takes no memory, and no step is refused.
pub fn run_kept(timeline: &mut Timeline<RingKeeper>, limit: u64) -> u64
    requires runs { has_ended timeline.old.state.status ≡ false }
    requires some { 1 ≤ limit }
    ensures { RunsKept limit timeline.old timeline.new result }
{
    // (It is stopped by the same test as a session's commands, though nothing is set there, so that
    // the program has one loop that keeps steps.)
    let breaks = Breakpoints::new();
    let watches = Watches::new();
    let seen = watches.bytes(timeline.cpu());
    let halting = Halting {
        breaks: &breaks,
        watches: &watches,
        seen: &seen,
        floor: 0,
    };
    let run = timeline.run(limit, &halting);
    run.steps
}
