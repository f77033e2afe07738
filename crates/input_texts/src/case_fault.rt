//! Why a line is no case.
ghost use Rattle.std.specs.Prelude.{◌≡◌};
ghost use Rattle.input_texts.specs.Cases.{case_fault};

/// Why a line is no case.
#[derive(Clone, Copy)]
pub enum CaseFault {
    /// It has more than 2,097,152 bytes.
    Long,
    /// Its words or its context are no bytes in hexadecimal.
    NotHexadecimal,
}

impl CaseFault {
    /// The number, which is printed after B.
    pub fn number(self) -> u8
        ensures { result ≡ (case_fault self).0 }
    {
        match self {
            CaseFault::Long => 1,
            CaseFault::NotHexadecimal => 2,
        }
    }

    /// The text.
    pub fn text(self) -> &'static str
        ensures { result.now ≡ (case_fault self).1 }
    {
        match self {
            CaseFault::Long => "line too long",
            CaseFault::NotHexadecimal => "not hexadecimal",
        }
    }
}
