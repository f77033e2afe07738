//! Faults: why bytes are no word, a map table or a program is refused.
ghost use Rattle.std.specs.Prelude.{◌≡◌};

use std::fmt::{self, Display, Formatter, Write};
use thiserror::Error;

/// Why bytes are no word.
#[derive(Clone, Copy, Debug, Error)]
pub enum WordFault {
    /// No row of the tables has this opcode with these codes.
    UnknownInstruction,
    /// A register field is above 10.
    RegisterAboveTen,
    /// A field that the instruction doesn't use isn't zero.
    UnusedField,
    /// A wide instruction has no second slot.
    CutOff,
}

/// Why the piece at a slot is refused.
#[derive(Clone, Copy, Debug, Error)]
pub enum PieceFault {
    /// Its bytes are no word.
    Word(WordFault),
    /// The instruction writes r10.
    WritesFramePointer,
    /// The target of a jump or local call is no start.
    NoTarget,
    /// The last piece is neither exit nor a jump that is always taken.
    RunsOff,
    /// A call of a helper that doesn't exist.
    UnknownHelper,
    /// A wide load of a map, or of a byte of a map, that doesn't exist.
    NoMap,
}

/// Why bytes are no program.
#[derive(Clone, Copy, Debug, Error)]
pub enum LoadFault {
    /// There are no bytes.
    Empty,
    /// There are more than 65,535 slots of 8 bytes.
    TooLong,
    /// The length is no multiple of 8.
    Ragged,
    /// The lowest slot with a fault, and its fault with the least number.
    At { slot: usize, fault: PieceFault },
    /// Memory ran out.
    Memory,
}

/// Why a map, or a list of maps, is refused.
#[derive(Clone, Copy, Debug, Error)]
pub enum MapFault {
    /// A value isn't 1 to 256 bytes.
    ValueSize,
    /// There aren't 1 to 4,096 entries.
    Entries,
    /// The map is larger than 65,536 bytes.
    Total,
    /// There are 16 maps already.
    Full,
    /// The text is no list of maps.
    Malformed,
}

impl WordFault {
    ghost use Rattle.bpf_isa.specs.Faults.{word_fault};

    /// Its number, and its text.
    fn row(self) -> (u8, &'static str)
        ensures number { result.0 ≡ (word_fault self).0 }
        ensures text { result.1.now ≡ (word_fault self).1 }
    {
        match self {
            WordFault::UnknownInstruction => (4, "unknown instruction"),
            WordFault::RegisterAboveTen => (5, "register above 10"),
            WordFault::UnusedField => (6, "unused field is not zero"),
            WordFault::CutOff => (9, "wide instruction cut off"),
        }
    }

    /// The number that is printed after C.
    pub fn number(self) -> u8
        ensures { result ≡ (word_fault self).0 }
    {
        self.row().0
    }

    /// The text that is printed after the number.
    pub fn text(self) -> &'static str
        ensures { result.now ≡ (word_fault self).1 }
    {
        self.row().1
    }
}

impl PieceFault {
    ghost use Rattle.bpf_isa.specs.Faults.{piece_fault};

    /// Its number, and its text.
    fn row(self) -> (u8, &'static str)
        ensures number { result.0 ≡ (piece_fault self).0 }
        ensures text { result.1.now ≡ (piece_fault self).1 }
    {
        match self {
            PieceFault::Word(fault) => fault.row(),
            PieceFault::WritesFramePointer => (7, "write to r10"),
            PieceFault::NoTarget => (8, "target is no instruction"),
            PieceFault::RunsOff => (10, "program runs off its end"),
            PieceFault::UnknownHelper => (11, "unknown helper"),
            PieceFault::NoMap => (12, "no such map or offset"),
        }
    }

    /// The number that is printed after C.
    pub fn number(self) -> u8
        ensures { result ≡ (piece_fault self).0 }
    {
        self.row().0
    }

    /// The text that is printed after the number.
    pub fn text(self) -> &'static str
        ensures { result.now ≡ (piece_fault self).1 }
    {
        self.row().1
    }
}

impl LoadFault {
    ghost use Rattle.bpf_isa.specs.Faults.{load_fault};

    /// Its number, and its text.
    fn row(self) -> (u8, &'static str)
        ensures number { result.0 ≡ (load_fault self).0 }
        ensures text { result.1.now ≡ (load_fault self).1 }
    {
        match self {
            LoadFault::Empty => (1, "empty program"),
            LoadFault::TooLong => (2, "program too long"),
            LoadFault::Ragged => (3, "length is no multiple of 8"),
            LoadFault::At { fault, .. } => fault.row(),
            LoadFault::Memory => (13, "out of memory"),
        }
    }

    /// The number that is printed after C.
    pub fn number(self) -> u8
        ensures { result ≡ (load_fault self).0 }
    {
        self.row().0
    }

    /// The text that is printed after the number.
    pub fn text(self) -> &'static str
        ensures { result.now ≡ (load_fault self).1 }
    {
        self.row().1
    }
}

impl MapFault {
    ghost use Rattle.bpf_isa.specs.Faults.{map_fault};

    /// Its number, and its text.
    fn row(self) -> (u8, &'static str)
        ensures number { result.0 ≡ (map_fault self).0 }
        ensures text { result.1.now ≡ (map_fault self).1 }
    {
        match self {
            MapFault::ValueSize => (1, "value size not 1 to 256"),
            MapFault::Entries => (2, "entries not 1 to 4096"),
            MapFault::Total => (3, "map larger than 65536 bytes"),
            MapFault::Full => (4, "more than 16 maps"),
            MapFault::Malformed => (5, "malformed map list"),
        }
    }

    /// The number that is printed after M.
    pub fn number(self) -> u8
        ensures { result ≡ (map_fault self).0 }
    {
        self.row().0
    }

    /// The text that is printed after the number.
    pub fn text(self) -> &'static str
        ensures { result.now ≡ (map_fault self).1 }
    {
        self.row().1
    }
}

impl Display for WordFault {
    fn fmt<W: Write>(&self, f: &mut Formatter<W>) -> fmt::Result {
        write!(f, "refused C{}: {}", self.number(), self.text())
    }
}

impl Display for PieceFault {
    fn fmt<W: Write>(&self, f: &mut Formatter<W>) -> fmt::Result {
        write!(f, "refused C{}: {}", self.number(), self.text())
    }
}

impl Display for LoadFault {
    fn fmt<W: Write>(&self, f: &mut Formatter<W>) -> fmt::Result {
        match *self {
            LoadFault::At { slot, fault } => {
                write!(
                    f,
                    "refused C{} at slot {slot}: {}",
                    fault.number(),
                    fault.text()
                )
            }
            _ => write!(f, "refused C{}: {}", self.number(), self.text()),
        }
    }
}

impl Display for MapFault {
    fn fmt<W: Write>(&self, f: &mut Formatter<W>) -> fmt::Result {
        write!(f, "refused M{}: {}", self.number(), self.text())
    }
}
