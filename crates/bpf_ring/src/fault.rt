//! Why a journal can't be opened.
ghost use Rattle.std.specs.Prelude.{◌≡◌};

use bpf_machine::OpenFault;
use std::fmt::{self, Display, Formatter, Write};
use thiserror::Error;

/// Why a journal can't be opened.
#[derive(Clone, Copy, Debug, Error)]
pub enum JournalFault {
    /// Its size is not 1,024 to 16,777,216 bytes.
    SizeOutOfRange,
    /// There is not enough memory.
    OutOfMemory,
}

impl JournalFault {
    ghost use Rattle.bpf_ring.specs.Opening.{journal_fault};

    /// Its number, and its text.
    fn row(&self) -> (u8, &'static str)
        ensures number { result.0 ≡ (journal_fault self.now).0 }
        ensures text { result.1.now ≡ (journal_fault self.now).1 }
    {
        match self {
            JournalFault::SizeOutOfRange => (1, "journal size out of range"),
            JournalFault::OutOfMemory => (2, OpenFault::OutOfMemory.text()),
        }
    }

    /// The fault's number, behind the letter J.
    pub fn number(&self) -> u8
        ensures { result ≡ (journal_fault self.now).0 }
    {
        self.row().0
    }

    /// The fault's text.
    pub fn text(&self) -> &'static str
        ensures { result.now ≡ (journal_fault self.now).1 }
    {
        self.row().1
    }
}

impl Display for JournalFault {
    fn fmt<W: Write>(&self, f: &mut Formatter<W>) -> fmt::Result {
        write!(f, "refused J{}: {}", self.number(), self.text())
    }
}
