//! A test file without a fault.
ghost use Rattle.std.specs.Prelude.{◌≡◌, ◌≤◌, ◌<◌, ◌∷◌, ◌++◌, drop, List, None, IfErr, IfOk, OnOk, get_or, is_some, length, slice_range, []};
ghost use Rattle.bpf_suite.specs.Bodies.{bytes_of, is_pattern, solid};
ghost use Rattle.bpf_suite.specs.Covers.{Covers, own_named};
ghost use Rattle.bpf_suite.specs.Faults.{IsFaultOf, alone_fault, fault_at, fault_of, file_fault, first_fault, is_well_formed, same_test, sections_fault};
ghost use Rattle.bpf_suite.specs.Files.{begins_name, named, own_of, own_tests, sections, tests, until_name};
ghost use Rattle.bpf_suite.specs.declared.section.Section.{Section};

use crate::body::{
    are_remarks, bytes_of, is_line, is_pattern, is_phrase, is_title, limit_of, number_of, solid,
    trimmed,
};
use crate::cells::{are_cells, are_patterns};
use crate::cover::{CoverForm, cover_text};
use crate::fault::{FileFault, SectionFault};
use crate::kind::{Kind, Part};
use crate::list::{Own, TestList};
use crate::regs::are_regs;
use crate::section::{Section, front, sections, until_name};
use crate::test::{Test, has_part};
use bpf_cover::is_table;
use std::alloc::{AllocError, Global};
use std::marker::Model;

/// A test file without a fault. Contracts see its sections.
#[derive(Drop)]
pub struct Suite<'a> {
    pub(crate) sections: Vec<Section<'a>>,
}

impl<'a> Model for Suite<'a> {
    ghost use Rattle.std.specs.Prelude.{List};
    ghost use Rattle.bpf_suite.specs.declared.section.Section.{Section};

    ghost Value = { List Section };

    ghost view = { λ s. s.sections.items };
}

impl<'a> Suite<'a> {
    /// Reads a test file. Its first fault where it has one: nothing of it is run then.
    pub fn read(alloc: Global, text: &'a [u8]) -> Result<Suite<'a>, FileFault>
        ensures ok { IfOk result (λ suite. (suite ≡ sections text.now)
            × (file_fault text.now ≡ None)) }
        ensures err { IfErr result (IsFaultOf text.now) }
    {
        if !are_remarks(front(text)) {
            return Err(FileFault::Line(SectionFault::Stray, 1));
        }
        let sections = match sections(alloc, text) {
            Ok(sections) => sections,
            Err(_) => return Err(FileFault::Memory),
        };
        match sections_fault(alloc, sections.as_slice()) {
            Ok(None) => Ok(Suite { sections }),
            Ok(Some(fault)) => Err(fault),
            Err(_) => Err(FileFault::Memory),
        }
    }

    /// Its tests.
    pub fn tests<'b>(&'b self, alloc: Global) -> Result<TestList<'b, 'a>, AllocError>
        ensures { IfOk result (λ found. found ≡ tests self.now) }
    {
        tests(alloc, self.sections.as_slice())
    }

    /// What ran of its programs, over its tests, or over those of a name.
    pub fn cover(
        &self,
        alloc: Global,
        only: Option<&str>,
        form: &CoverForm<'_>,
    ) -> Result<Vec<u8>, AllocError>
        ensures { IfOk result (λ text. let shared = until_name self.now in
            Covers form.now shared (own_named only.entry shared (own_tests self.now)) text.items) }
    {
        let sections = self.sections.as_slice();
        let shared = until_name(sections);
        let own = own_named(own_tests(alloc, sections)?, shared, only);
        cover_text(alloc, shared, own.as_slice(), form)
    }
}

/// The own sections of each test of sections; of one without any where none has a name.
fn own_tests<'b, 'a>(
    alloc: Global,
    sections: &'b [Section<'a>],
) -> Result<Vec<Own<'b, 'a>>, AllocError>
    ensures { IfOk result (λ own. own.items ≡ own_tests sections.now) }
{
    let mut own = named(alloc, sections)?;
    if own.is_empty() {
        push_own(&mut own, &sections[..0])?;
    }
    Ok(own)
}

/// Of these own sections those of the tests of a name; all where none is named.
fn own_named<'b, 'a>(
    mut own: Vec<Own<'b, 'a>>,
    shared: &'b [Section<'a>],
    only: Option<&str>,
) -> Vec<Own<'b, 'a>>
    ensures { result.items ≡ own_named only.entry shared.now own.entry.items }
{
    let Some(name) = only else {
        return own;
    };
    own.retain(|own| {
        let test = Test {
            own: own.sections,
            shared,
        };
        test.is_named(name.as_bytes())
    });
    own
}

/// The tests of sections.
fn tests<'b, 'a>(alloc: Global, sections: &'b [Section<'a>]) -> Result<TestList<'b, 'a>, AllocError>
    ensures { IfOk result (λ found. found ≡ tests sections.now) }
{
    let shared = until_name(sections);
    let mut own = named(alloc, sections)?;
    if own.is_empty() {
        push_own(&mut own, &shared[..0])?;
    }
    Ok(TestList { own, shared })
}

/// The own sections of the tests that names begin.
fn named<'b, 'a>(alloc: Global, sections: &'b [Section<'a>]) -> Result<Vec<Own<'b, 'a>>, AllocError>
    ensures { IfOk result (λ found. found.items ≡ named sections.now) }
{
    let mut found = Vec::new(alloc);
    for at in 0..sections.len() {
        push_named(&mut found, &sections[at..])?;
    }
    Ok(found)
}

/// Adds the test that the first section begins, if that is a name.
fn push_named<'b, 'a>(
    found: &mut Vec<Own<'b, 'a>>,
    sections: &'b [Section<'a>],
) -> Result<(), AllocError>
    ensures { OnOk result (found.new.items ++ named (drop 1 sections.now)
        ≡ found.old.items ++ named sections.now) }
{
    if begins_name(sections) {
        push_own(found, own_of(sections))
    } else {
        Ok(())
    }
}

/// Adds a test by its own sections.
fn push_own<'b, 'a>(found: &mut Vec<Own<'b, 'a>>, own: &'b [Section<'a>]) -> Result<(), AllocError>
    ensures { OnOk result (found.new.items ≡ found.old.items ++ own.now ∷ []) }
{
    match found.push(Own { sections: own }) {
        Ok(()) => Ok(()),
        Err(_) => Err(AllocError),
    }
}

/// The first section, and those up to the next name.
fn own_of<'b, 'a>(sections: &'b [Section<'a>]) -> &'b [Section<'a>]
    ensures { result.now ≡ own_of sections.now }
{
    match sections {
        [_, more @ ..] => {
            let others = until_name(more);
            &sections[..1 + others.len()]
        }
        [] => &[],
    }
}

/// The first fault of sections.
fn sections_fault(alloc: Global, sections: &[Section<'_>]) -> Result<Option<FileFault>, AllocError>
    ensures { IfOk result (λ fault. fault ≡ sections_fault sections.now) }
{
    match first_fault(alloc, sections)? {
        Some(fault) => Ok(Some(fault)),
        None => Ok(alone_fault(sections)),
    }
}

/// The fault of a file without names, which is one test.
fn alone_fault(sections: &[Section<'_>]) -> Option<FileFault>
    ensures { result ≡ alone_fault sections.now }
{
    if has_part(sections, Part::Title) {
        return None;
    }
    let test = Test {
        own: &[],
        shared: sections,
    };
    match test.lack() {
        Some(fault) => Some(FileFault::Line(fault, test.first_line())),
        None => None,
    }
}

/// The first fault of a section.
fn first_fault(alloc: Global, sections: &[Section<'_>]) -> Result<Option<FileFault>, AllocError>
    ensures { IfOk result (λ fault. fault ≡ first_fault (until_name sections.now) [] sections.now) }
{
    let shared = until_name(sections);
    let mut start = 0;
    for at in 0..sections.len() {
        start = test_start(sections, start, at);
        match fault_at(alloc, shared, &sections[start..at], &sections[at..])? {
            Some(fault) => return Ok(Some(fault)),
            None => {}
        }
    }
    Ok(None)
}

/// Where the test begins in which a section stands, if that before it began there.
fn test_start(sections: &[Section<'_>], start: usize, at: usize) -> usize
    requires start { start ≤ at }
    requires at { at < length sections.now }
    ensures within { result ≤ at }
    ensures value { (d : Section) → slice_range sections.now result at
        ≡ same_test (slice_range sections.now start at) (get_or sections.now at d) }
{
    if begins_name(&sections[at..]) {
        at
    } else {
        start
    }
}

/// Whether the first section is a name.
fn begins_name(sections: &[Section<'_>]) -> bool
    ensures { result ≡ begins_name sections.now }
{
    match sections {
        [section, ..] => section.kind.is(Part::Title),
        [] => false,
    }
}

/// What is wrong with the first of these sections, where those stand before it in its test.
fn fault_at(
    alloc: Global,
    shared: &[Section<'_>],
    earlier: &[Section<'_>],
    sections: &[Section<'_>],
) -> Result<Option<FileFault>, AllocError>
    ensures { IfOk result (λ fault. fault ≡ fault_at shared.now earlier.now sections.now) }
{
    match sections {
        [section, more @ ..] => match section_fault(alloc, shared, earlier, section, more)? {
            Some(fault) => Ok(Some(FileFault::Line(fault, section.line))),
            None => Ok(None),
        },
        [] => Ok(None),
    }
}

/// What is wrong with a section, where these stand before it in its test, and these behind it.
fn section_fault(
    alloc: Global,
    shared: &[Section<'_>],
    earlier: &[Section<'_>],
    section: &Section<'_>,
    more: &[Section<'_>],
) -> Result<Option<SectionFault>, AllocError>
    ensures { IfOk result (λ fault.
        fault ≡ fault_of shared.now earlier.now section.now more.now) }
{
    if section.kind.is(Part::Nothing) {
        return Ok(Some(SectionFault::Unknown));
    }
    if has_part(earlier, section.kind.part()) {
        return Ok(Some(SectionFault::Twice));
    }
    if !is_well_formed(alloc, section.kind, section.body.bytes)? {
        return Ok(Some(SectionFault::Malformed));
    }
    if section.kind.is(Part::Title) {
        let test = Test {
            own: until_name(more),
            shared,
        };
        return Ok(test.lack());
    }
    Ok(None)
}

/// Whether a body is what the section's kind takes.
fn is_well_formed(alloc: Global, kind: Kind, body: &[u8]) -> Result<bool, AllocError>
    ensures { IfOk result (λ well. well ≡ is_well_formed kind body.now) }
{
    match kind {
        Kind::Name => Ok(is_title(trimmed(body))),
        Kind::Words | Kind::Mem => are_bytes(alloc, body),
        Kind::Steps => Ok(limit_of(body).is_some()),
        Kind::Result => Ok(number_of(body).is_some()),
        Kind::Maps | Kind::Fault | Kind::Limit => Ok(is_line(trimmed(body))),
        Kind::Refused => Ok(is_phrase(trimmed(body))),
        Kind::MemAfter => is_pattern_body(alloc, body),
        Kind::Cells => are_cells(alloc, body),
        Kind::Regs => Ok(are_regs(body)),
        Kind::MapAfter => are_patterns(alloc, body),
        Kind::Lines => Ok(is_table(body)),
        Kind::Listing | Kind::Unknown => Ok(true),
    }
}

/// Whether a body is a pattern of bytes.
fn is_pattern_body(alloc: Global, body: &[u8]) -> Result<bool, AllocError>
    ensures { IfOk result (λ is. is ≡ is_pattern (solid body.now)) }
{
    let digits = solid(alloc, body)?;
    Ok(is_pattern(digits.as_slice()))
}

/// Whether a body is bytes.
fn are_bytes(alloc: Global, body: &[u8]) -> Result<bool, AllocError>
    ensures { IfOk result (λ are. are ≡ is_some (bytes_of body.now)) }
{
    match bytes_of(alloc, body) {
        Ok(Some(_)) => Ok(true),
        Ok(None) => Ok(false),
        Err(_) => Err(AllocError),
    }
}
