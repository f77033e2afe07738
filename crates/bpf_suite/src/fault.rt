//! What is wrong with a test file.
ghost use Rattle.std.specs.Prelude.{◌≡◌};
ghost use Rattle.bpf_suite.specs.Faults.{section_fault};

/// What is wrong with a section, or in front of the sections.
#[derive(Clone, Copy)]
pub enum SectionFault {
    /// T1: a line in front of the first section says something.
    Stray,
    /// T2: no section has this name.
    Unknown,
    /// T3: the test has this part already.
    Twice,
    /// T4: the body isn't what such a section takes.
    Malformed,
    /// T5: the test that begins here has no program.
    NoProgram,
    /// T6: the test that begins here expects nothing.
    NothingExpected,
}

/// Why a test file is refused.
#[derive(Clone, Copy)]
pub enum FileFault {
    /// The first fault, and the line of its section, counted from 1.
    Line(SectionFault, usize),
    /// Memory ran out.
    Memory,
}

impl SectionFault {
    /// Its number, and its text.
    fn row(self) -> (u8, &'static str)
        ensures number { result.0 ≡ (section_fault self).0 }
        ensures text { result.1.now ≡ (section_fault self).1 }
    {
        match self {
            SectionFault::Stray => (1, "text in front of the first section"),
            SectionFault::Unknown => (2, "unknown section"),
            SectionFault::Twice => (3, "section given twice"),
            SectionFault::Malformed => (4, "malformed section"),
            SectionFault::NoProgram => (5, "test without a program"),
            SectionFault::NothingExpected => (6, "test without an expectation"),
        }
    }

    /// The number that is printed after T.
    pub fn number(self) -> u8
        ensures { result ≡ (section_fault self).0 }
    {
        self.row().0
    }

    /// The text that is printed after the number.
    pub fn text(self) -> &'static str
        ensures { result.now ≡ (section_fault self).1 }
    {
        self.row().1
    }
}
