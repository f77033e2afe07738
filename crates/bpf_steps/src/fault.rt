//! Why a machine can't be opened.
ghost use Rattle.std.specs.Prelude.{◌≡◌};

use bpf_isa::LoadFault;
use std::fmt::{self, Display, Formatter, Write};
use thiserror::Error;

/// Why a machine or its memory can't be opened.
#[derive(Clone, Copy, Debug, Error)]
pub enum OpenFault {
    /// The context is longer than 65,536 bytes.
    ContextTooLong,
    /// There is not enough memory.
    OutOfMemory,
}

impl OpenFault {
    ghost use Rattle.bpf_steps.specs.Opening.{open_fault};

    /// Its number, and its text.
    fn row(&self) -> (u8, &'static str)
        ensures number { result.0 ≡ (open_fault self.now).0 }
        ensures text { result.1.now ≡ (open_fault self.now).1 }
    {
        match self {
            OpenFault::ContextTooLong => (1, "context too long"),
            OpenFault::OutOfMemory => (2, LoadFault::Memory.text()),
        }
    }

    /// The fault's number, behind the letter O.
    pub fn number(&self) -> u8
        ensures { result ≡ (open_fault self.now).0 }
    {
        self.row().0
    }

    /// The fault's text.
    pub fn text(&self) -> &'static str
        ensures { result.now ≡ (open_fault self.now).1 }
    {
        self.row().1
    }
}

impl Display for OpenFault {
    fn fmt<W: Write>(&self, f: &mut Formatter<W>) -> fmt::Result {
        write!(f, "refused O{}: {}", self.number(), self.text())
    }
}
