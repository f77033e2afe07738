//! What assembling a text can answer.
ghost use Rattle.std.specs.Prelude.{◌≡◌};
ghost use Rattle.bpf_text.specs.Faults.{asm_fault, fault_line, line_fault};

use bpf_isa::LoadFault;
use std::fmt::{self, Display, Formatter, Write};
use thiserror::Error;

/// What is wrong with a line of a listing.
#[derive(Clone, Copy, Debug)]
pub enum LineFault {
    /// A1: no instruction has this mnemonic.
    UnknownMnemonic,
    /// A2: the operands are not of the mnemonic's form.
    WrongOperands,
    /// A3: a number is out of its range.
    OutOfRange,
    /// A3: the target of a `ja` or of a conditional jump is farther than 16 bits tell. It is so
    /// many slots from the slot behind the jump; a `ja32` reaches it.
    TooFar(i32),
    /// A4: an earlier line has the label: the one with this number, counted from 1.
    LabelTwice(usize),
    /// A5: no line has the label that a target names.
    UnknownLabel,
    /// A6: a byte that may only stand in comments.
    NotText,
    /// A8: the instruction would pass slot 65,534.
    TooManySlots,
}

/// Why a listing isn't assembled.
#[derive(Clone, Copy, Debug, Error)]
pub enum AsmFault {
    /// The first fault, and its line, counted from 1.
    Line(LineFault, usize),
    /// A7: out of memory.
    Memory,
}

impl LineFault {
    /// Its number, and its text.
    fn row(self) -> (u8, &'static str)
        ensures number { result.0 ≡ (line_fault self).0 }
        ensures text { result.1.now ≡ (line_fault self).1 }
    {
        match self {
            LineFault::UnknownMnemonic => (1, "unknown mnemonic"),
            LineFault::WrongOperands => (2, "wrong operands"),
            LineFault::OutOfRange | LineFault::TooFar(_) => (3, "number out of range"),
            LineFault::LabelTwice(_) => (4, "label defined twice"),
            LineFault::UnknownLabel => (5, "unknown label"),
            LineFault::NotText => (6, "byte outside ASCII text"),
            LineFault::TooManySlots => (8, "too many slots"),
        }
    }
}

impl AsmFault {
    /// Its number, and its text.
    fn row(&self) -> (u8, &'static str)
        ensures number { result.0 ≡ (asm_fault self.now).0 }
        ensures text { result.1.now ≡ (asm_fault self.now).1 }
    {
        match *self {
            AsmFault::Line(fault, _) => fault.row(),
            AsmFault::Memory => (7, LoadFault::Memory.text()),
        }
    }

    /// Its number: 1 for A1 and so on.
    pub fn number(&self) -> u8
        ensures { result ≡ (asm_fault self.now).0 }
    {
        self.row().0
    }

    /// What is printed of it after its number and its line.
    pub fn text(&self) -> &'static str
        ensures { result.now ≡ (asm_fault self.now).1 }
    {
        self.row().1
    }

    /// The line of the fault, counted from 1; none for want of memory.
    pub fn line(&self) -> Option<usize>
        ensures { result ≡ fault_line self.now }
    {
        match *self {
            AsmFault::Line(_, line) => Some(line),
            AsmFault::Memory => None,
        }
    }
}

impl Display for AsmFault {
    fn fmt<W: Write>(&self, f: &mut Formatter<W>) -> fmt::Result {
        match *self {
            AsmFault::Line(_, line) => {
                write!(
                    f,
                    "refused A{} at line {line}: {}",
                    self.number(),
                    self.text()
                )
            }
            AsmFault::Memory => write!(f, "refused A{}: {}", self.number(), self.text()),
        }
    }
}
