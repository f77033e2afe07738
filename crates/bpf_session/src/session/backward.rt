//! Backward commands.
ghost use Rattle.std.specs.Prelude.{◌≡◌, ◌≤◌, ◌<◌, true, Ok, if◌then◌else◌};
ghost use Rattle.bpf_steps.specs.State.{State, depth};
ghost use Rattle.bpf_journal.specs.Histories.{Record};
ghost use Rattle.bpf_journal.specs.Keepers.{known_by};
ghost use Rattle.bpf_journal.specs.Tracks.{Track};
ghost use Rattle.bpf_journal.specs.TakingBack.{taken_of};
ghost use Rattle.bpf_session.specs.Accepted.{Accepts};
ghost use Rattle.bpf_session.specs.Backward.{back, passes};
ghost use Rattle.bpf_session.specs.Searches.{GoAtOnce, GoesBackOver, GoesBackTo, count_in, is_each, why_found};
ghost use Rattle.bpf_session.specs.Sessions.{HasPast, Obeys, bounds_of, point_of};
ghost use Rattle.bpf_session.specs.Stops.{has, some_differs};

use super::Session;
use crate::reply::Reply;
use bpf_journal::{Keeper, Stays, Taken};
use bpfdb_script::{Command, Target, Why};

/// Where a backward command has gone.
#[derive(Clone, Copy)]
pub struct Found {
    /// How many moves it took back.
    pub moves: u64,
    /// Whether as many as it looked for are among them.
    pub is_there: bool,
}

impl<K: Keeper> Session<K> {
    /// Goes back to before the moves that are looked for, or to the oldest kept state where there
    /// are fewer.
    pub(super) fn back(&mut self, target: Target) -> Reply
        requires { Accepts K.holds self.old (Command.Back target) }
        ensures { Obeys K.holds K.refused K.room self.old self.new (λ _. back target) (Ok result) }
    {
        let count = self.count_of(&target);
        let found = self.back_to(target, count);
        Reply::Back {
            moves: found.moves,
            why: self.why_back(&target, count, found.is_there),
        }
    }

    /// How many of the moves that it looks for a command goes back over: of steps no more than are
    /// kept.
    fn count_of(&self, target: &Target) -> u64
        requires { Accepts K.holds self.now (Command.Back target.now) }
        ensures some { 1 ≤ result }
        ensures value { (h : Track) → HasPast K.holds self.now h →
            result ≡ count_in target.now (point_of self.now h) }
    {
        self.invariant();
        match target {
            Target::Commands(count) => count.get(),
            Target::Steps(count) => self.timeline.steps_up_to(count.get()),
            Target::Next | Target::Continue | Target::Finish => 1,
        }
    }

    /// Why a command stops that went back over so many of the moves that it looks for, and found as
    /// many, or fewer.
    fn why_back(&self, target: &Target, count: u64, is_there: bool) -> Why
        ensures { result ≡ why_found target.now count is_there
            (has self.now.breaks self.now.moment.state.pc) }
    {
        let is_done = match target {
            Target::Commands(_) => true,
            Target::Steps(asked) => count == asked.get(),
            Target::Continue => return self.why_stopped(is_there),
            Target::Next | Target::Finish => is_there,
        };
        if is_done { Why::Done } else { Why::Start }
    }

    /// Why a command stops that looked for a breakpoint or a change of a watched byte, and found
    /// one or none.
    fn why_stopped(&self, is_there: bool) -> Why
        ensures { result ≡ (if is_there then
            (if has self.now.breaks self.now.moment.state.pc then Why.Break else Why.Watch)
            else Why.Start) }
    {
        if !is_there {
            Why::Start
        } else if self.breaks.has(self.cpu().pc()) {
            Why::Break
        } else {
            Why::Watch
        }
    }

    /// Goes back to the state before the `count`-th latest move that is sought, or to the oldest kept
    /// one where there are fewer: over as many moves at once as nothing has to be looked at between,
    /// then over one by itself.
    fn back_to(&mut self, target: Target, count: u64) -> Found
        requires { 1 ≤ count }
        ensures back { (h : Track) → HasPast K.holds self.old h →
            GoesBackTo K.holds (passes target (point_of self.old h))
            count h self.old self.new result }
        ensures refused { K.refused self.new.moment.keeper ≡ K.refused self.old.moment.keeper }
        ensures bounds { bounds_of K.room self.new ≡ bounds_of K.room self.old }
    {
        let kept = self.timeline.len() as u64;
        let mut left = count;
        let start = self.cpu().depth();
        let mut seen = self.watches.bytes(self.timeline.cpu());
        let mut gone = 0;
        while gone < kept {
            let moves = self.back_over(&target, start, left, kept - gone - 1);
            self.watches
                .see_anew(self.timeline.cpu(), &mut seen, moves > 0);
            left -= hits_over(&target, moves);
            gone += moves;
            let Some(taken) = self.timeline.back() else {
                return Found {
                    moves: gone,
                    is_there: false,
                };
            };
            gone += 1;
            let differs = self
                .watches
                .differ(self.timeline.cpu(), &seen, taken.replaced_bytes);
            self.watches
                .see_anew(self.timeline.cpu(), &mut seen, differs);
            left -= self.hits(&target, start, taken, differs);
            if left == 0 {
                return Found {
                    moves: gone,
                    is_there: true,
                };
            }
        }
        Found {
            moves: kept,
            is_there: false,
        }
    }

    /// Goes back over moves at once, at most so many, where a command that was given at a depth looks
    /// for so many more: fewer than these where each move is one of them, else none that is one of
    /// them. Answers how many moves, maybe none.
    fn back_over(&mut self, target: &Target, start: usize, left: u64, most: u64) -> u64
        requires { 1 ≤ left }
        ensures { GoesBackOver (known_by K.holds K.refused K.room) target.now start left most
            result self.old self.new }
    {
        let watched = self.watches.stays();
        let depth = self.cpu().depth();
        let (many, stays) = at_once(target, left, most, watched, start, depth);
        if many == 0 {
            return 0;
        }
        self.timeline.back_steps(many, self.breaks.table(), stays)
    }

    /// How many moves of those that a command looks for, which was given at a depth, was the one
    /// that was taken back just now, so that the state before it is the present one: one or none.
    /// It had changed a watched byte or not.
    fn hits(&self, target: &Target, start: usize, taken: Taken, differs: bool) -> u64
        ensures fits { result ≤ 1 }
        ensures value { (first y : State) (h : Track) (r : Record) → start ≡ depth first →
            taken ≡ taken_of r → self.now.moment.state ≡ r.before →
            differs ≡ some_differs self.now.watches r.before y →
            result ≡ (if passes target.now (record (point_of self.now h) { state = first })
            r y then 1 else 0) }
    {
        let is_hit = match target {
            Target::Commands(_) => taken.mark,
            Target::Steps(_) => taken.is_step,
            Target::Next => taken.is_step && self.cpu().depth() <= start,
            Target::Continue => taken.is_step && (self.breaks.has(self.cpu().pc()) || differs),
            Target::Finish => self.cpu().depth() < start,
        };
        if is_hit { 1 } else { 0 }
    }
}

/// How many moves are gone over at once at most, where a command looks for so many more and they are
/// to be no more than so many; and what each of them has to have left as it was. There is what moves
/// have left that changed no watched byte, the depth at which the command was given, and the one now.
fn at_once(
    target: &Target,
    left: u64,
    most: u64,
    watched: Stays,
    start: usize,
    now: usize,
) -> (u64, Stays)
    requires { 1 ≤ left }
    ensures within { result.0 ≤ most }
    ensures fewer { is_each target.now ≡ true → result.0 < left }
    ensures may { 1 ≤ result.0 → GoAtOnce target.now watched start now result.1 }
{
    match target {
        Target::Commands(_) => (most, Stays::Nothing),
        Target::Steps(_) => (most.min(left - 1), Stays::Nothing),
        Target::Continue => (most, watched),
        Target::Next if now > start => (most, Stays::Depth),
        Target::Finish if now >= start => (most, Stays::Depth),
        Target::Next | Target::Finish => (0, Stays::Depth),
    }
}

/// How many of some moves that were gone over at once are of those that a command looks for: each or
/// none.
fn hits_over(target: &Target, moves: u64) -> u64
    ensures { result ≡ (if is_each target.now then moves else 0) }
{
    match target {
        Target::Steps(_) => moves,
        Target::Commands(_) | Target::Next | Target::Continue | Target::Finish => 0,
    }
}
