//! Refusals of commands.
ghost use Rattle.std.specs.Prelude.{◌≡◌};
ghost use Rattle.bpfdb_script.specs.Refusals.{refusal_row};

use bpf_isa::LoadFault;
use std::fmt::{self, Display, Formatter, Write};
use thiserror::Error;

/// Why a command line is refused. A refused line changes nothing.
#[derive(Clone, Copy, Debug, Error)]
pub enum Refusal {
    /// Q1: no command has this name.
    UnknownCommand,
    /// Q2: a token after the command's name is wrong, missing or too many.
    WrongArgument,
    /// Q3: no step can be taken, since the machine has ended.
    MachineEnded,
    /// Q4: the kept history has no step to go back over.
    NoKeptStep,
    /// Q5: the kept history has fewer commands that moved.
    FewerCommands,
    /// Q6: some byte of the run isn't present, or the run lies in two regions.
    AddressNotPresent,
    /// Q7: r10 is read-only.
    RegisterNotWritable,
    /// Q8: no instruction of the program starts at the slot.
    NoStart,
    /// Q9: no function was called that has not returned.
    OutermostFrame,
    /// Q10: there are as many breakpoints or watches as there can be.
    TableFull,
    /// Q11: the breakpoint or watch to be set is there already, or the one to be removed isn't
    /// there.
    ThereOrNot,
    /// Q12: the line is longer than 1,024 bytes.
    LineTooLong,
    /// Q13: no move was taken back since the latest new one.
    NothingToRedo,
    /// Q14: there is no such map, its cells end before the index, or its values have another
    /// length.
    NoCell,
    /// Q15: the first move of the command couldn't be kept.
    OutOfMemory,
}

impl Refusal {
    /// Its number, and its text.
    fn row(self) -> (u8, &'static str)
        ensures number { result.0 ≡ (refusal_row self).0 }
        ensures text { result.1.now ≡ (refusal_row self).1 }
    {
        match self {
            Refusal::UnknownCommand => (1, "unknown command"),
            Refusal::WrongArgument => (2, "wrong argument"),
            Refusal::MachineEnded => (3, "the machine has ended"),
            Refusal::NoKeptStep => (4, "no kept step"),
            Refusal::FewerCommands => (5, "fewer kept commands"),
            Refusal::AddressNotPresent => (6, "address not present"),
            Refusal::RegisterNotWritable => (7, "register not writable"),
            Refusal::NoStart => (8, "no instruction starts there"),
            Refusal::OutermostFrame => (9, "outermost frame"),
            Refusal::TableFull => (10, "table is full"),
            Refusal::ThereOrNot => (11, "not there or already there"),
            Refusal::LineTooLong => (12, "line too long"),
            Refusal::NothingToRedo => (13, "nothing to redo"),
            Refusal::NoCell => (14, "no such cell or wrong length"),
            Refusal::OutOfMemory => (15, LoadFault::Memory.text()),
        }
    }

    /// The number that is printed after `Q`.
    pub fn number(self) -> u8
        ensures { result ≡ (refusal_row self).0 }
    {
        self.row().0
    }

    /// The text that is printed after the number.
    pub fn text(self) -> &'static str
        ensures { result.now ≡ (refusal_row self).1 }
    {
        self.row().1
    }
}

impl Display for Refusal {
    fn fmt<W: Write>(&self, f: &mut Formatter<W>) -> fmt::Result {
        write!(f, "refused Q{}: {}", self.number(), self.text())
    }
}
