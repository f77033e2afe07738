//! What sections say, read once: those that tests share, and the own ones of a test.
ghost use Rattle.std.specs.Prelude.{◌≡◌, ◌++◌, IfOk};
ghost use Rattle.bpf_suite.specs.Bodies.{solid};
ghost use Rattle.bpf_suite.specs.Cells.{cell_lines};
ghost use Rattle.bpf_suite.specs.Regs.{last_lines};
ghost use Rattle.bpf_suite.specs.Tests.{body_for, context, expected, limit, maps, program, regs, section_for};
ghost use Rattle.bpf_suite.specs.declared.kind.Part.TheVariants as part;

use crate::body::solid;
use crate::cells::CellLine;
use crate::expected::Expectation;
use crate::kind::Part;
use crate::regs::{RegLine, last_lines, reg_lines};
use crate::section::{Section, Text, copied};
use crate::table::{NamedMaps, table_of};
use crate::test::{Test, has_part, lines_in};
use bpf_isa::{MapFault, MapTable};
use std::alloc::{AllocError, Global};
use std::marker::Model;

/// Sections, and what was read of them. Contracts see the sections.
#[derive(Drop)]
pub struct Reading<'b, 'a> {
    sections: &'b [Section<'a>],
    /// The text of the map table.
    maps: Option<Text<'a>>,
    /// The table that this names, or why it names none.
    table: Result<MapTable, MapFault>,
    /// A listing, or the bytes of words.
    program: Vec<u8>,
    context: Vec<u8>,
    /// The cells that get values.
    cells: Vec<CellLine<'a>>,
    /// The registers that get numbers, once each.
    regs: Vec<RegLine>,
    /// The most steps.
    limit: u64,
    /// The outcome.
    expected: Option<Expectation<'a>>,
    /// The digits of what the context is to be at the end, without spaces.
    digits: Vec<u8>,
}

impl<'b, 'a> Model for Reading<'b, 'a> {
    ghost use Rattle.std.specs.Prelude.{List};
    ghost use Rattle.bpf_suite.specs.Readings.{AreExpected, IsReading};
    ghost use Rattle.bpf_suite.specs.declared.section.Section.{Section};

    ghost Value = { List Section };

    ghost view = { λ r. r.sections.now };

    ghost invariant = { λ r. IsReading r.sections.now r.maps r.table r.program.items r.context.items
        r.cells.items r.regs.items r.limit
        × AreExpected r.sections.now r.expected r.digits.items };
}

impl<'b, 'a> Reading<'b, 'a> {
    /// Reads sections.
    pub fn of(alloc: Global, sections: &'b [Section<'a>]) -> Result<Reading<'b, 'a>, AllocError>
        ensures { IfOk result (λ reading. reading ≡ sections.now) }
    {
        let test = Test {
            own: &[],
            shared: sections,
        };
        let maps = test.maps();
        let table = table_of(&maps);
        let program = test.program(alloc)?;
        let context = test.context(alloc)?;
        let cells = lines_in(alloc, sections, Part::Cells)?;
        let lines = reg_lines(alloc, test.text(Part::Registers))?;
        let regs = last_lines(alloc, lines.as_slice())?;
        let digits = solid(alloc, test.text(Part::After))?;
        Ok(Reading {
            sections,
            maps,
            table,
            program,
            context,
            cells,
            regs,
            limit: test.limit(),
            expected: test.expected(),
            digits,
        })
    }

    /// The sections.
    pub fn sections(&self) -> &'b [Section<'a>]
        ensures { result.now ≡ self.now }
    {
        self.sections
    }

    /// The text of their maps, if they have one.
    pub fn maps(&self) -> Option<Text<'a>>
        ensures { result ≡ maps self.now }
    {
        copied(&self.maps)
    }

    /// Their map table, as it was read.
    pub fn named_maps<'x>(&'x self) -> NamedMaps<'x, 'a>
        ensures { result ≡ maps self.now }
    {
        NamedMaps::of(&self.maps, &self.table)
    }

    /// Their program: a listing, or the bytes of words.
    pub fn program(&self) -> &[u8]
        ensures { result.now ≡ program self.now }
    {
        self.program.as_slice()
    }

    /// The bytes of their context.
    pub fn context(&self) -> &[u8]
        ensures { result.now ≡ context self.now }
    {
        self.context.as_slice()
    }

    /// Their lines that give cells values.
    pub fn cells(&self) -> &[CellLine<'a>]
        ensures { result.now ≡ cell_lines (body_for part.Cells self.now) }
    {
        self.cells.as_slice()
    }

    /// The registers that they set, once each.
    pub fn regs(&self) -> &[RegLine]
        ensures { result.now ≡ last_lines (regs self.now) }
    {
        self.regs.as_slice()
    }

    /// The most steps that they allow.
    pub fn limit(&self) -> u64
        ensures { result ≡ limit self.now }
    {
        self.limit
    }

    /// The outcome that they expect, if they expect one.
    pub fn expected(&self) -> &Option<Expectation<'a>>
        ensures { result.now ≡ expected self.now }
    {
        &self.expected
    }

    /// The digits of what they expect of the context at the end.
    pub fn digits(&self) -> &[u8]
        ensures { result.now ≡ solid (body_for part.After self.now) }
    {
        self.digits.as_slice()
    }
}

/// A test, by what was read of its own sections and of those that it shares. Contracts see the
/// sections.
#[derive(Drop)]
pub struct ReadTest<'x, 'b, 'a> {
    pub own: &'x Reading<'b, 'a>,
    pub shared: &'x Reading<'b, 'a>,
}

impl<'x, 'b, 'a> Model for ReadTest<'x, 'b, 'a> {
    ghost use Rattle.std.specs.Prelude.{List, ◌++◌};
    ghost use Rattle.bpf_suite.specs.declared.section.Section.{Section};

    ghost Value = { List Section };

    ghost view = { λ t. t.own.now ++ t.shared.now };
}

impl<'x, 'b, 'a> ReadTest<'x, 'b, 'a> {
    /// Its sections.
    pub fn sections(&self) -> Test<'b, 'a>
        ensures { result ≡ self.now }
    {
        test_of(self.own, self.shared)
    }

    /// Where a part of it stands.
    pub fn place(&self, part: Part) -> &'x Reading<'b, 'a>
        ensures { section_for part result.now ≡ section_for part self.now }
    {
        place_of(part, self.own, self.shared)
    }

    /// The outcome that it expects, if it expects one.
    pub fn expected(&self) -> &'x Option<Expectation<'a>>
        ensures { result.now ≡ expected self.now }
    {
        self.place(Part::Expected).expected()
    }
}

/// A test with these sections of its own that shares those.
pub fn test_of<'b, 'a>(own: &Reading<'b, 'a>, shared: &Reading<'b, 'a>) -> Test<'b, 'a>
    ensures { result ≡ own.now ++ shared.now }
{
    Test {
        own: own.sections(),
        shared: shared.sections(),
    }
}

/// Where a part of such a test stands: among its own sections, if these have it, else among those
/// that are shared.
#[tactic(auto, using(crate::proofs::Shares::placed_own, crate::proofs::Shares::placed_shared))]
pub fn place_of<'x, 'b, 'a>(
    part: Part,
    own: &'x Reading<'b, 'a>,
    shared: &'x Reading<'b, 'a>,
) -> &'x Reading<'b, 'a>
    ensures { section_for part result.now ≡ section_for part (own.now ++ shared.now) }
{
    if has_part(own.sections(), part) {
        own
    } else {
        shared
    }
}
