//! Why what is asked about is refused.
ghost use Rattle.std.specs.Prelude.{◌≡◌};
ghost use Rattle.bpf_origin.specs.Asked.{what_fault};

/// Why what is asked about is refused.
#[derive(Clone, Copy)]
pub enum WhatFault {
    /// It names neither a register that is a place nor bytes.
    Unknown,
    /// The bytes are not all there.
    Absent,
}

impl WhatFault {
    /// Its number, and its text.
    fn row(&self) -> (u8, &'static str)
        ensures number { result.0 ≡ (what_fault self.now).0 }
        ensures text { result.1.now ≡ (what_fault self.now).1 }
    {
        match self {
            WhatFault::Unknown => (1, "neither r0 to r9 nor ADDRESS:COUNT"),
            WhatFault::Absent => (2, "address not present"),
        }
    }

    /// The fault's number.
    pub fn number(&self) -> u8
        ensures { result ≡ (what_fault self.now).0 }
    {
        self.row().0
    }

    /// The fault's text.
    pub fn text(&self) -> &'static str
        ensures { result.now ≡ (what_fault self.now).1 }
    {
        self.row().1
    }
}
