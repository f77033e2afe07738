//! Forward commands.
ghost use Rattle.std.specs.Prelude.{◌≡◌, ◌≤◌, Ok, Err, if◌then◌else◌, ◌==◌, false, unwrap_or};
ghost use Rattle.bpf_steps.specs.State.{State, depth as depth_of};
ghost use Rattle.bpf_entries.specs.Status.{has_ended};
ghost use Rattle.bpf_journal.specs.Runs.{RunsOn, grown_by};
ghost use Rattle.bpf_journal.specs.Timelines.{beside};
ghost use Rattle.bpf_journal.specs.Tracks.{Track, track_after};
ghost use Rattle.bpf_session.specs.Forward.{forward, is_done, stop_in};
ghost use Rattle.bpf_session.specs.Halting.{halts};
ghost use Rattle.bpf_session.specs.Sessions.{HasPast, Obeys, bounds_of, point_of};
ghost use Rattle.bpf_session.specs.Stops.{some_differs};

use super::Session;
use crate::halting::{Halting, floor_of, most_of};
use crate::reply::Reply;
use crate::watches::Seen;
use bpf_journal::{Keeper, Run};
use bpfdb_script::{Goal, Refusal, Why};

impl<K: Keeper> Session<K> {
    /// Takes the least number of steps, at least one, after which a stop holds: the machine has
    /// ended, a breakpoint is at pc, a watched byte was changed, what was asked for is done, or the
    /// limit is reached. Q15 where the keeper refuses the first step.
    pub(super) fn forward(&mut self, goal: Goal) -> Result<Reply, Refusal>
        requires { has_ended self.old.moment.state.status ≡ false }
        ensures { Obeys K.holds K.refused K.room self.old self.new
            (λ gap. forward gap (bounds_of K.room self.old) goal) result }
    {
        self.cpu().invariant();
        let start = self.cpu().depth();
        let seen = self.watches.bytes(self.cpu());
        let floor = floor_of(&goal, start);
        let most = most_of(&goal, self.limit);
        let run = self.run(most, &seen, floor);
        if run.is_cut {
            return cut_short(run.steps);
        }
        let differs = self.watches.differ_from(self.cpu(), &seen);
        let why = self.why(&goal, start, run.steps, differs);
        Ok(Reply::Forward {
            steps: run.steps,
            why,
        })
    }

    /// Takes steps, `most` at the most, until the machine has ended, a breakpoint is at pc, the
    /// depth is below a floor, or the watched bytes are not those that were seen.
    fn run(&mut self, most: u64, seen: &Seen, floor: usize) -> Run
        requires runs { has_ended self.old.moment.state.status ≡ false }
        requires some { 1 ≤ most }
        ensures run { RunsOn (grown_by K.refused K.room track_after)
            (HasPast K.holds self.old) (HasPast K.holds self.new)
            (halts self.old.breaks self.old.watches seen.now floor) most
            (beside self.old.moment.state self.old.moment.keeper)
            (beside self.new.moment.state self.new.moment.keeper) result }
        ensures tables { (self.new.breaks ≡ self.old.breaks) × (self.new.watches ≡ self.old.watches)
            × (self.new.limit ≡ self.old.limit) }
    {
        let halting = Halting {
            breaks: &self.breaks,
            watches: &self.watches,
            seen,
            floor,
        };
        self.timeline.run(most, &halting)
    }

    /// Why a command that began at a depth stops after so many steps, where it does. The last one
    /// changed a watched byte or not.
    fn why(&self, goal: &Goal, start: usize, taken: u64, differs: bool) -> Why
        ensures { (first x : State) (h : Track) → start ≡ depth_of first →
            differs ≡ some_differs self.now.watches x self.now.moment.state →
            result ≡ unwrap_or (stop_in self.now.limit goal.now
            (record (point_of self.now h) { state = first }) taken x self.now.moment.state)
            Why.Limit }
    {
        if self.cpu().status().has_ended() {
            Why::End
        } else if self.breaks.has(self.cpu().pc()) {
            Why::Break
        } else if differs {
            Why::Watch
        } else if is_done(goal, start, taken, self.cpu().depth()) {
            Why::Done
        } else {
            Why::Limit
        }
    }
}

/// Whether a command that began at a depth has reached its goal after so many steps, at the depth
/// that they led to.
fn is_done(goal: &Goal, start: usize, taken: u64, depth: usize) -> bool
    ensures { (x : State) → depth ≡ depth_of x → result ≡ is_done goal.now start taken x }
{
    match goal {
        Goal::Steps(count) => taken == count.get(),
        Goal::Next => depth <= start,
        Goal::Continue => false,
        Goal::Finish => depth < start,
    }
}

/// The answer where the keeper refused the step after so many kept ones.
fn cut_short(kept: u64) -> Result<Reply, Refusal>
    ensures { result ≡ (if kept == 0 then Err Refusal.OutOfMemory else Ok
        (Reply.Forward kept Why.Memory)) }
{
    if kept == 0 {
        Err(Refusal::OutOfMemory)
    } else {
        Ok(Reply::Forward {
            steps: kept,
            why: Why::Memory,
        })
    }
}
