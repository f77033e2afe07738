//! Why a file of tests whose sections name files isn't read.
ghost use Rattle.std.specs.Prelude.{◌≡◌};
ghost use Rattle.suite_files.specs.Faults.{named_fault};

use bpf_link::LinkFault;

/// What is wrong with a section that names files.
#[derive(Clone, Copy)]
pub enum NamedFault {
    /// T9: it names none, or what is said of it isn't what such a section takes.
    Malformed,
    /// T10: the file lies outside of the folder of the tests.
    Outside,
    /// T11: the file can't be read.
    Unread,
    /// T12: the capture has no packet of this number, or is none in pcap's own format.
    NoPacket,
    /// T13: the tests with their files are too long, or name too many.
    TooMuch,
}

/// Why no program is made of an object, with a copy of the name that it tells.
#[derive(Drop)]
pub struct KeptFault {
    pub fault: LinkFault,
    /// Which one of the objects with functions has it; none where it is the object itself, or what
    /// comes of that and of those before.
    pub index: Option<usize>,
    pub name: Vec<u8>,
}

/// Why there is nothing in place of a piece.
#[derive(Drop)]
pub enum PutFault {
    Named(NamedFault),
    Link(KeptFault),
    Memory,
}

/// Why no file of tests comes of one that names files.
#[derive(Drop)]
pub enum FilesFault {
    /// The first fault, and the line of its section, counted from 1.
    Section(NamedFault, usize),
    /// No program is made of an object; and the line of its section.
    Link(KeptFault, usize),
    /// Memory ran out.
    Memory,
}

impl NamedFault {
    /// Its number, and its text.
    fn row(self) -> (u8, &'static str)
        ensures number { result.0 ≡ (named_fault self).0 }
        ensures text { result.1.now ≡ (named_fault self).1 }
    {
        match self {
            NamedFault::Malformed => (9, "malformed section of a file"),
            NamedFault::Outside => (10, "file outside of the folder of the tests"),
            NamedFault::Unread => (11, "file can't be read"),
            NamedFault::NoPacket => (12, "no such packet, or no capture in pcap's own format"),
            NamedFault::TooMuch => (13, "more than 4096 files, or 67108864 bytes with them"),
        }
    }

    /// The number that is printed after T, 9 to 13.
    pub fn number(self) -> u8
        ensures { result ≡ (named_fault self).0 }
    {
        self.row().0
    }

    /// The text that is printed after the number.
    pub fn text(self) -> &'static str
        ensures { result.now ≡ (named_fault self).1 }
    {
        self.row().1
    }
}
