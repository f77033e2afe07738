//! Why an opening is refused.
ghost use Rattle.std.specs.Prelude.{◌≡◌};
ghost use Rattle.bpf_opening.specs.Faults.{opening_fault};

/// Why a text asks for no opening.
#[derive(Clone, Copy)]
pub enum OpeningFault {
    /// It is no list of registers with values.
    Malformed,
    /// A value is 2^64 or more, or lies behind the context or before the frame.
    OutOfRange,
    /// r10 gets a value.
    FramePointer,
    /// A register gets two values.
    Twice,
}

impl OpeningFault {
    /// Its number, and its text.
    fn row(&self) -> (u8, &'static str)
        ensures number { result.0 ≡ (opening_fault self.now).0 }
        ensures text { result.1.now ≡ (opening_fault self.now).1 }
    {
        match self {
            OpeningFault::Malformed => (3, "malformed list of registers"),
            OpeningFault::OutOfRange => (4, "value of a register out of range"),
            OpeningFault::FramePointer => (5, "r10 is not writable"),
            OpeningFault::Twice => (6, "two values of one register"),
        }
    }

    /// The fault's number, behind those of a machine that isn't opened.
    pub fn number(&self) -> u8
        ensures { result ≡ (opening_fault self.now).0 }
    {
        self.row().0
    }

    /// The fault's text.
    pub fn text(&self) -> &'static str
        ensures { result.now ≡ (opening_fault self.now).1 }
    {
        self.row().1
    }
}
