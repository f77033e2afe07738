//! What can be changed by moves and taken back.
ghost use Rattle.std.specs.Prelude.{◌≡◌, IfOk, IfErr, OnOk, OnErr};
ghost use Rattle.bpf_journal.specs.Reverting.{HasComeBy, RefusesMove};
ghost use Rattle.bpf_entries.specs.declared.entry.Entry.{Entry};
ghost use Rattle.bpf_machine.specs.declared.moves.Move.{Move};
ghost use Rattle.bpf_journal.specs.declared.fault.MoveFault.{MoveFault};

use crate::fault::MoveFault;
use bpf_machine::{Cpu, Ended, Entry, Move};

/// Makes moves, and takes them back by their entries.
pub trait Reversible {
    /// By a move it comes to be another.
    ghost leads: { Self → Move → Self → Type 0 };

    /// Why a move can't be made.
    ghost refuses: { Self → Move → MoveFault → Type 0 };

    /// The entry of a move: what the move replaces.
    ghost entry_by: { Self → Move → Entry };

    /// Makes a move. Its entry holds what it replaced.
    fn make(&mut self, change: &Move) -> Result<Entry, MoveFault>
        ensures ok { OnOk result (leads self.old change.now self.new) }
        ensures entry { IfOk result (λ entry. entry ≡ entry_by self.old change.now) }
        ensures err { IfErr result (refuses self.old change.now) }
        ensures same { OnErr result (self.new ≡ self.old) };

    /// Puts back the entry of the move that led here, which gives what was before the move. Works
    /// from the entry and what is here alone.
    fn revert(&mut self, entry: &Entry)
        requires { HasComeBy leads entry_by self.old entry.now }
        ensures { (x : Self) (m : Move) → leads x m self.old → entry_by x m ≡ entry.now →
            self.new ≡ x };
}

impl Reversible for Cpu {
    ghost use Rattle.bpf_machine.specs.Moves.{Leads, overwritten};

    ghost leads = { λ x m y. Leads x m y };

    ghost refuses = { λ x m fault. RefusesMove x m fault };

    ghost entry_by = { λ x m. overwritten x m };

    fn make(&mut self, change: &Move) -> Result<Entry, MoveFault> {
        self.invariant();
        match change {
            Move::Step => match self.step() {
                Ok(entry) => Ok(entry),
                Err(Ended) => Err(MoveFault::Ended),
            },
            Move::Edit(edit) => match self.edit(edit) {
                Ok(entry) => Ok(entry),
                Err(fault) => Err(MoveFault::Edit(fault)),
            },
        }
    }

    fn revert(&mut self, entry: &Entry) {
        self.revert(entry);
    }
}
