//! The parts of a test.
ghost use Rattle.std.specs.Prelude.{◌≡◌, ◌++◌, IfOk, [], unwrap_or};
ghost use Rattle.std.specs.Option.{option_map};
ghost use Rattle.bpf_suite.specs.Bodies.{bytes_of, trimmed};
ghost use Rattle.bpf_suite.specs.Cells.{cell_lines as cell_lines_of};
ghost use Rattle.bpf_suite.specs.Tests.{body_for, context, expected, first_line, has_listing, is_listing, is_named, limit, maps, program, program_line, section_for, text_or_bytes, title};
ghost use Rattle.bpf_suite.specs.Faults.{has_part, lack};

use crate::body::{bytes_of, limit_of, trimmed};
use crate::cells::{CellLine, cell_lines};
use crate::expected::{Expectation, expectation_of};
use crate::fault::SectionFault;
use crate::kind::{Kind, Part};
use crate::section::{Section, Text};
use bpfdb_limits::DEFAULT_LIMIT;
use std::alloc::{AllocError, Global};
use std::marker::Model;

/// A test: its own sections, and those that all tests of its file share. Contracts see them one
/// behind the other.
#[derive(Drop)]
pub struct Test<'b, 'a> {
    pub(crate) own: &'b [Section<'a>],
    pub(crate) shared: &'b [Section<'a>],
}

impl<'b, 'a> Model for Test<'b, 'a> {
    ghost use Rattle.std.specs.Prelude.{List, ◌++◌};
    ghost use Rattle.bpf_suite.specs.declared.section.Section.{Section};

    ghost Value = { List Section };

    ghost view = { λ t. t.own.now ++ t.shared.now };
}

/// The section that is a part, if there is one.
fn section_in<'a>(sections: &[Section<'a>], part: Part) -> Option<Section<'a>>
    ensures { result ≡ section_for part sections.now }
{
    for section in sections {
        if section.kind.is(part) {
            return Some(section.copied());
        }
    }
    None
}

/// Whether some section is a part.
pub fn has_part(sections: &[Section<'_>], part: Part) -> bool
    ensures { result ≡ has_part part sections.now }
{
    sections.iter().any(|section| section.kind.is(part))
}

/// The lines about cells that these sections have as a part; none where they don't have it.
pub fn lines_in<'a>(
    alloc: Global,
    sections: &[Section<'a>],
    part: Part,
) -> Result<Vec<CellLine<'a>>, AllocError>
    ensures { IfOk result (λ lines. lines.items ≡ cell_lines_of (body_for part sections.now)) }
{
    match section_in(sections, part) {
        Some(section) => cell_lines(alloc, section.body.bytes),
        None => cell_lines(alloc, &[]),
    }
}

/// The body of a section, without spaces around it.
fn trimmed_body<'a>(section: Option<Section<'a>>) -> Option<Text<'a>>
    ensures { result ≡ option_map (λ found. trimmed found.body) section.entry }
{
    match section {
        Some(section) => Some(Text {
            bytes: trimmed(section.body.bytes),
        }),
        None => None,
    }
}

impl<'b, 'a> Test<'b, 'a> {
    /// The section that is a part, if there is one.
    pub fn section(&self, part: Part) -> Option<Section<'a>>
        ensures { result ≡ section_for part self.now }
    {
        match section_in(self.own, part) {
            Some(section) => Some(section),
            None => section_in(self.shared, part),
        }
    }

    /// Whether it has a part.
    pub fn has(&self, part: Part) -> bool
        ensures { result ≡ has_part part self.now }
    {
        has_part(self.own, part) || has_part(self.shared, part)
    }

    /// What it lacks.
    pub fn lack(&self) -> Option<SectionFault>
        ensures { result ≡ lack self.now }
    {
        if !self.has(Part::Program) {
            Some(SectionFault::NoProgram)
        } else if !self.has(Part::Expected) {
            Some(SectionFault::NothingExpected)
        } else {
            None
        }
    }

    /// The line in which it begins.
    pub fn first_line(&self) -> usize
        ensures { result ≡ first_line self.now }
    {
        match (self.own, self.shared) {
            ([first, ..], _) => first.line,
            ([], [first, ..]) => first.line,
            ([], []) => 1,
        }
    }

    /// The text of a part's body; nothing where there is none.
    pub fn text(&self, part: Part) -> &'a [u8]
        ensures { result.now ≡ body_for part self.now }
    {
        self.body(part).bytes
    }

    /// The body of a part; nothing where there is none.
    fn body(&self, part: Part) -> Text<'a>
        ensures { result ≡ body_for part self.now }
    {
        match self.section(part) {
            Some(section) => section.body,
            None => Text { bytes: &[] },
        }
    }

    /// Its name.
    pub fn title(&self) -> &'a [u8]
        ensures { result.now ≡ title self.now }
    {
        trimmed(self.body(Part::Title).bytes)
    }

    /// Whether it has this name.
    pub fn is_named(&self, name: &[u8]) -> bool
        ensures { result ≡ is_named name.now self.now }
    {
        self.title() == name
    }

    /// Whether its program is a listing.
    pub fn has_listing(&self) -> bool
        ensures { result ≡ has_listing self.now }
    {
        match self.section(Part::Program) {
            Some(section) => is_listing(section.kind),
            None => false,
        }
    }

    /// Its program: a listing, or the bytes of words.
    pub fn program(&self, alloc: Global) -> Result<Vec<u8>, AllocError>
        ensures { IfOk result (λ bytes. bytes.items ≡ program self.now) }
    {
        match self.section(Part::Program) {
            Some(section) => text_or_bytes(alloc, section.kind, section.body.bytes),
            None => Ok(Vec::new(alloc)),
        }
    }

    /// The bytes of its context.
    pub fn context(&self, alloc: Global) -> Result<Vec<u8>, AllocError>
        ensures { IfOk result (λ bytes. bytes.items ≡ context self.now) }
    {
        bytes_or_none(alloc, self.body(Part::Context).bytes)
    }

    /// The text of its maps.
    pub fn maps(&self) -> Option<Text<'a>>
        ensures { result ≡ maps self.now }
    {
        trimmed_body(self.section(Part::Maps))
    }

    /// What it expects.
    pub fn expected(&self) -> Option<Expectation<'a>>
        ensures { result ≡ expected self.now }
    {
        expectation_of(self.section(Part::Expected))
    }

    /// The line of the section in which its program stands.
    pub fn program_line(&self) -> usize
        ensures { result ≡ program_line self.now }
    {
        match self.section(Part::Program) {
            Some(section) => section.line,
            None => 0,
        }
    }

    /// The most steps that it takes.
    pub fn limit(&self) -> u64
        ensures { result ≡ limit self.now }
    {
        match self.section(Part::Steps) {
            Some(section) => limit_of(section.body.bytes).unwrap_or(DEFAULT_LIMIT),
            None => DEFAULT_LIMIT,
        }
    }
}

fn is_listing(kind: Kind) -> bool
    ensures { result ≡ is_listing kind }
{
    matches!(kind, Kind::Listing)
}

/// A listing, or the bytes of words.
fn text_or_bytes(alloc: Global, kind: Kind, body: &[u8]) -> Result<Vec<u8>, AllocError>
    ensures { IfOk result (λ bytes. bytes.items ≡ text_or_bytes kind body.now) }
{
    if is_listing(kind) {
        match Vec::from_slice(alloc, body) {
            Ok(bytes) => Ok(bytes),
            Err(_) => Err(AllocError),
        }
    } else {
        bytes_or_none(alloc, body)
    }
}

/// The bytes that a body is; none where it is none.
fn bytes_or_none(alloc: Global, body: &[u8]) -> Result<Vec<u8>, AllocError>
    ensures { IfOk result (λ bytes. bytes.items ≡ unwrap_or (bytes_of body.now) []) }
{
    match bytes_of(alloc, body) {
        Ok(Some(bytes)) => Ok(bytes),
        Ok(None) => Ok(Vec::new(alloc)),
        Err(_) => Err(AllocError),
    }
}
