//! Which commands are refused.
ghost use Rattle.std.specs.Prelude.{◌≡◌, ◌≤◌, ◌==◌, is_some};
ghost use Rattle.bpf_isa.specs.Programs.{insn_at};
ghost use Rattle.bpf_steps.specs.Regions.{index_of};
ghost use Rattle.bpf_steps.specs.State.{depth};
ghost use Rattle.bpf_journal.specs.Tracks.{Track};
ghost use Rattle.bpf_session.specs.Accepted.{first};
ghost use Rattle.bpf_session.specs.Refused.{refusals_of};
ghost use Rattle.bpf_session.specs.Sessions.{HasPast, point_of};

use super::Session;
use bpf_journal::Keeper;
use bpf_machine::{Edit, EditFault};
use bpfdb_script::{Command, Goal, Refusal, Stop, Target, View};

impl<K: Keeper> Session<K> {
    /// Why a command is refused, if it is: of the refusals that hold the one with the least number.
    pub(super) fn refusal(&self, command: &Command) -> Option<Refusal>
        ensures { (h : Track) → HasPast K.holds self.now h →
            result ≡ first (refusals_of command.now (point_of self.now h)) }
    {
        match command {
            Command::Forward(goal) => self.forward_refusal(*goal),
            Command::Back(target) => self.back_refusal(*target),
            Command::Redo(_) => {
                if self.timeline.ahead() == 0 {
                    return Some(Refusal::NothingToRedo);
                }
                None
            }
            Command::Edit(edit) => self.edit_refusal(edit),
            Command::Add(stop) => self.add_refusal(*stop),
            Command::Remove(stop) => self.remove_refusal(*stop),
            Command::Show(view) => self.show_refusal(*view),
            Command::Quit => None,
        }
    }

    /// Of a forward command: where the machine has ended, and of `finish` where no function was
    /// called.
    fn forward_refusal(&self, goal: Goal) -> Option<Refusal>
        ensures { (h : Track) →
            result ≡ first (refusals_of (Command.Forward goal) (point_of self.now h)) }
    {
        if self.cpu().status().has_ended() {
            return Some(Refusal::MachineEnded);
        }
        match goal {
            Goal::Finish => {
                if self.is_outermost() {
                    return Some(Refusal::OutermostFrame);
                }
            }
            Goal::Steps(_) | Goal::Next | Goal::Continue => {}
        }
        None
    }

    /// Of a backward command: where no step is kept, of `undo` where it counts more commands than
    /// are kept, and of `reverse-finish` where no function was called.
    fn back_refusal(&self, target: Target) -> Option<Refusal>
        ensures { (h : Track) → HasPast K.holds self.now h →
            result ≡ first (refusals_of (Command.Back target) (point_of self.now h)) }
    {
        match target {
            Target::Commands(count) => {
                if (self.timeline.marked() as u64) < count.get() {
                    return Some(Refusal::FewerCommands);
                }
            }
            Target::Steps(_) | Target::Next | Target::Continue => {
                if self.timeline.steps_up_to(1) == 0 {
                    return Some(Refusal::NoKeptStep);
                }
            }
            Target::Finish => {
                if self.timeline.steps_up_to(1) == 0 {
                    return Some(Refusal::NoKeptStep);
                }
                if self.is_outermost() {
                    return Some(Refusal::OutermostFrame);
                }
            }
        }
        None
    }

    /// Of an edit that can't be made.
    fn edit_refusal(&self, edit: &Edit) -> Option<Refusal>
        ensures { (h : Track) →
            result ≡ first (refusals_of (Command.Edit edit.now) (point_of self.now h)) }
    {
        match self.cpu().edit_fault(edit) {
            Some(EditFault::AddressNotPresent) => Some(Refusal::AddressNotPresent),
            Some(EditFault::RegisterNotWritable) => Some(Refusal::RegisterNotWritable),
            Some(EditFault::NoStart) => Some(Refusal::NoStart),
            Some(EditFault::NoCell) => Some(Refusal::NoCell),
            None => None,
        }
    }

    /// Of a new breakpoint where no instruction starts, of a new watch where no byte is; and of
    /// each where there is no room, or where it is there.
    fn add_refusal(&self, stop: Stop) -> Option<Refusal>
        ensures { (h : Track) →
            result ≡ first (refusals_of (Command.Add stop) (point_of self.now h)) }
    {
        match stop {
            Stop::Breakpoint(slot) => {
                if !self.is_start(slot) {
                    return Some(Refusal::NoStart);
                }
                if self.breaks.is_full() {
                    return Some(Refusal::TableFull);
                }
                if self.breaks.has_slot(slot) {
                    return Some(Refusal::ThereOrNot);
                }
            }
            Stop::Watch(address) => {
                if !self.is_present(address, 1) {
                    return Some(Refusal::AddressNotPresent);
                }
                if self.watches.is_full() {
                    return Some(Refusal::TableFull);
                }
                if self.watches.has(address) {
                    return Some(Refusal::ThereOrNot);
                }
            }
        }
        None
    }

    /// Of a breakpoint or a watch that isn't there to be removed.
    fn remove_refusal(&self, stop: Stop) -> Option<Refusal>
        ensures { (h : Track) →
            result ≡ first (refusals_of (Command.Remove stop) (point_of self.now h)) }
    {
        let is_there = match stop {
            Stop::Breakpoint(slot) => self.breaks.has_slot(slot),
            Stop::Watch(address) => self.watches.has(address),
        };
        if !is_there {
            return Some(Refusal::ThereOrNot);
        }
        None
    }

    /// Of a view of bytes that aren't present, or that lie in two regions, and of one of
    /// instructions where none starts.
    fn show_refusal(&self, view: View) -> Option<Refusal>
        ensures { (h : Track) →
            result ≡ first (refusals_of (Command.Show view) (point_of self.now h)) }
    {
        match view {
            View::Bytes { address, span } => {
                if !self.is_present(address, span.get() as usize) {
                    return Some(Refusal::AddressNotPresent);
                }
            }
            View::LastWrite(address) => {
                if !self.is_present(address, 1) {
                    return Some(Refusal::AddressNotPresent);
                }
            }
            View::Instructions { slot, .. } => {
                if !self.is_start(slot) {
                    return Some(Refusal::NoStart);
                }
            }
            View::Registers | View::Frames | View::Breaks | View::History | View::Trace => {}
        }
        None
    }

    /// Whether no function was called that has not returned.
    fn is_outermost(&self) -> bool
        ensures { result ≡ (depth self.now.moment.state == 0) }
    {
        self.cpu().depth() == 0
    }

    /// Whether there are so many bytes at an address.
    fn is_present(&self, address: u64, n: usize) -> bool
        requires { 1 ≤ n }
        ensures { result ≡ is_some (index_of self.now.moment.state.memory address n) }
    {
        self.cpu().peek(address, n).is_some()
    }

    /// Whether an instruction starts at a slot.
    fn is_start(&self, slot: u64) -> bool
        ensures { result ≡ is_some (insn_at self.now.moment.state.program slot) }
    {
        self.cpu().program().is_start(slot as usize)
    }
}
