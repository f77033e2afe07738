//! The sections of a test file, by their names.
ghost use Rattle.std.specs.Prelude.{◌≡◌};
ghost use Rattle.std.specs.Str.{bytes_eq};
ghost use Rattle.bpf_suite.specs.Kinds.{is_part, kind_named, part_number, part_of, word_of};

/// What a section says.
#[derive(Clone, Copy)]
pub enum Kind {
    /// The name of a test, which begins here.
    Name,
    /// A program, as a listing.
    Listing,
    /// A program, as the bytes of its words in hexadecimal.
    Words,
    /// The bytes of the context, in hexadecimal.
    Mem,
    /// The maps, as `8x2,4x256`.
    Maps,
    /// What cells of maps hold before the first step, a line each.
    Cells,
    /// What registers hold before the first step, a line each.
    Regs,
    /// The most steps that are taken.
    Steps,
    /// r0 of the program that has exited.
    Result,
    /// A fault of the program.
    Fault,
    /// As many steps were taken as may be.
    Limit,
    /// A refusal of the program.
    Refused,
    /// The bytes of the context where the program has ended, in hexadecimal, with `.` for any
    /// digit.
    MemAfter,
    /// What cells of maps hold where the program has ended, a line each, with `.` for any digit.
    MapAfter,
    /// Where the slots of the program stand in its source, a line each.
    Lines,
    /// Its name is none of these.
    Unknown,
}

/// What a section is of its test.
#[derive(Clone, Copy)]
pub enum Part {
    Title,
    Program,
    Context,
    Maps,
    Cells,
    Registers,
    Steps,
    Expected,
    After,
    CellsAfter,
    Lines,
    Nothing,
}

impl Part {
    /// Its number.
    fn number(self) -> u8
        ensures { result ≡ part_number self }
    {
        match self {
            Part::Title => 0,
            Part::Program => 1,
            Part::Context => 2,
            Part::Maps => 3,
            Part::Cells => 4,
            Part::Registers => 5,
            Part::Steps => 6,
            Part::Expected => 7,
            Part::After => 8,
            Part::CellsAfter => 9,
            Part::Lines => 10,
            Part::Nothing => 11,
        }
    }
}

impl Kind {
    /// The kind of the section of a name.
    pub fn named(name: &[u8]) -> Kind
        ensures { result ≡ kind_named name.now }
    {
        if is(name, "name") {
            Kind::Name
        } else if is(name, "listing") {
            Kind::Listing
        } else if is(name, "asm") {
            Kind::Listing
        } else if is(name, "words") {
            Kind::Words
        } else if is(name, "mem") {
            Kind::Mem
        } else if is(name, "maps") {
            Kind::Maps
        } else if is(name, "cells") {
            Kind::Cells
        } else if is(name, "regs") {
            Kind::Regs
        } else if is(name, "steps") {
            Kind::Steps
        } else if is(name, "result") {
            Kind::Result
        } else if is(name, "fault") {
            Kind::Fault
        } else if is(name, "limit") {
            Kind::Limit
        } else if is(name, "refused") {
            Kind::Refused
        } else if is(name, "mem-after") {
            Kind::MemAfter
        } else if is(name, "map-after") {
            Kind::MapAfter
        } else if is(name, "lines") {
            Kind::Lines
        } else {
            Kind::Unknown
        }
    }

    /// What it is of its test.
    pub fn part(self) -> Part
        ensures { result ≡ part_of self }
    {
        match self {
            Kind::Name => Part::Title,
            Kind::Listing => Part::Program,
            Kind::Words => Part::Program,
            Kind::Mem => Part::Context,
            Kind::Maps => Part::Maps,
            Kind::Cells => Part::Cells,
            Kind::Regs => Part::Registers,
            Kind::Steps => Part::Steps,
            Kind::Result => Part::Expected,
            Kind::Fault => Part::Expected,
            Kind::Limit => Part::Expected,
            Kind::Refused => Part::Expected,
            Kind::MemAfter => Part::After,
            Kind::MapAfter => Part::CellsAfter,
            Kind::Lines => Part::Lines,
            Kind::Unknown => Part::Nothing,
        }
    }

    /// Whether it is this part.
    pub fn is(self, part: Part) -> bool
        ensures { result ≡ is_part part self }
    {
        self.part().number() == part.number()
    }

    /// The word of an outcome that is expected.
    pub fn word(self) -> &'static str
        ensures { result.now ≡ word_of self }
    {
        match self {
            Kind::Result => "result",
            Kind::Fault => "fault",
            Kind::Limit => "limit",
            Kind::Refused => "refused",
            _ => "nothing",
        }
    }
}

/// Whether a name is this text; case matters.
fn is(name: &[u8], text: &str) -> bool
    ensures value { result ≡ bytes_eq name.now text.now }
{
    name == text.as_bytes()
}
