//! The sections of a test file.
ghost use Rattle.std.specs.Prelude.{◌≡◌, ◌≤◌, ◌<◌, ◌+◌, ◌-◌, ◌^◌, ◌==◌, ◌++◌, drop, true, Decides, IfOk, OnOk, length, position};
ghost use Rattle.std.specs.List.{after_first, before_first, position_or_len};
ghost use Rattle.bpf_suite.specs.Bodies.{trimmed};
ghost use Rattle.bpf_suite.specs.Files.{ends_line, front, is_cut, is_head, section_at, section_of, sections, sections_behind, until_head, until_name};
ghost use Rattle.bpf_suite.specs.Kinds.{is_name, kind_named};

use crate::body::trimmed;
use crate::kind::{Kind, Part};
use std::alloc::{AllocError, Global};
use std::marker::Model;

/// A part of a test file. Contracts see its bytes.
#[derive(Drop)]
pub struct Text<'a> {
    pub bytes: &'a [u8],
}

impl<'a> Model for Text<'a> {
    ghost use Rattle.std.specs.Prelude.{ℕ, List};

    ghost Value = { List ℕ };

    ghost view = { λ t. t.bytes.now };
}

/// Whether two texts are the same, or there is neither.
pub fn are_same(one: &Option<Text<'_>>, other: &Option<Text<'_>>) -> bool
    ensures { Decides result (one.now ≡ other.now) }
{
    match (one, other) {
        (Some(one), Some(other)) => one.bytes == other.bytes,
        (None, None) => true,
        _ => false,
    }
}

/// The same text, if there is one.
pub fn copied<'a>(text: &Option<Text<'a>>) -> Option<Text<'a>>
    ensures { result ≡ text.now }
{
    match text {
        Some(text) => Some(Text { bytes: text.bytes }),
        None => None,
    }
}

/// A section of a test file.
#[derive(Drop)]
pub struct Section<'a> {
    /// The line of its head, counted from 1.
    pub line: usize,
    pub kind: Kind,
    /// Its other lines.
    pub body: Text<'a>,
}

impl<'a> Section<'a> {
    /// The text of its body.
    pub fn text(&self) -> &'a [u8]
        ensures { result.now ≡ self.now.body }
    {
        self.body.bytes
    }

    /// A copy of the section, over the same text.
    pub fn copied(&self) -> Section<'a>
        ensures { result ≡ self.now }
    {
        Section {
            line: self.line,
            kind: self.kind,
            body: Text {
                bytes: self.body.bytes,
            },
        }
    }
}

/// Whether a text begins with the head of a section.
fn is_head(text: &[u8]) -> bool
    ensures { result ≡ is_head text.now }
{
    text.starts_with(b"--")
}

/// Whether a byte ends a line: a line feed, or a form feed, which isn't counted.
fn ends_line(byte: u8) -> bool
    ensures { result ≡ ends_line byte }
{
    byte == b'\n' || byte == b'\x0c'
}

/// Whether a text begins with the end of a line that a head follows.
fn is_cut(text: &[u8]) -> bool
    ensures { result ≡ is_cut text.now }
{
    match text {
        [first, rest @ ..] => ends_line(*first) && is_head(rest),
        [] => false,
    }
}

/// A text up to the next head.
fn until_head(text: &[u8]) -> &[u8]
    ensures { result.now ≡ until_head text.now }
{
    for at in 0..text.len() {
        if is_cut(&text[at..]) {
            return &text[..at + 1];
        }
    }
    text
}

/// What stands in front of all sections.
pub fn front(text: &[u8]) -> &[u8]
    ensures { result.now ≡ front text.now }
{
    if is_head(text) { &[] } else { until_head(text) }
}

/// Where the end of a line first stands.
fn end_position(text: &[u8]) -> Option<usize>
    ensures { result ≡ position ends_line text.now }
{
    text.iter().position(|byte| ends_line(*byte))
}

/// Where the end of a line first stands, or the length.
#[tactic(auto, using(counted_io::proofs::Places::unwrap_or_position))]
fn find_end(text: &[u8]) -> usize
    ensures value { result ≡ position_or_len ends_line text.now }
    ensures within { result ≤ length text.now }
{
    end_position(text).unwrap_or(text.len())
}

/// What stands in the first line of a text, and what behind it.
fn line_sides(text: &[u8]) -> (&[u8], &[u8])
    ensures before { result.0.now ≡ before_first ends_line text.now }
    ensures after { result.1.now ≡ after_first ends_line text.now }
{
    let end = find_end(text);
    if end < text.len() {
        (&text[..end], &text[end + 1..])
    } else {
        (text, &[])
    }
}

/// The section that a text is, at a line.
fn section_of(line: usize, text: &[u8]) -> Section<'_>
    requires { is_head text.now ≡ true }
    ensures { result ≡ section_of line text.now }
{
    let (head, body) = line_sides(text);
    Section {
        line,
        kind: kind_in(head),
        body: Text { bytes: body },
    }
}

/// The kind of a section by its head.
fn kind_in(head: &[u8]) -> Kind
    ensures { result ≡ kind_named (trimmed (drop 2 head.now)) }
{
    match head {
        [_, _, name @ ..] => Kind::named(trimmed(name)),
        _ => Kind::named(&[]),
    }
}

/// Adds the section at the beginning of a text, if it begins with a head.
fn push_at<'a>(
    sections: &mut Vec<Section<'a>>,
    line: usize,
    text: &'a [u8],
) -> Result<(), AllocError>
    ensures { OnOk result (sections.new.items ≡ sections.old.items ++ section_at line text.now) }
{
    if is_head(text) {
        match sections.push(section_of(line, until_head(text))) {
            Ok(()) => Ok(()),
            Err(_) => Err(AllocError),
        }
    } else {
        Ok(())
    }
}

/// The sections of a file.
pub fn sections(alloc: Global, text: &[u8]) -> Result<Vec<Section<'_>>, AllocError>
    ensures { IfOk result (λ found. found.items ≡ sections text.now) }
{
    let mut found = Vec::new(alloc);
    push_at(&mut found, 1, text)?;
    let mut line = 1;
    for at in 0..text.len() {
        line = push_behind(&mut found, line, &text[at..])?;
    }
    Ok(found)
}

/// Adds the section whose head stands behind the first byte of a text, if that ends a line and a head
/// follows. Answers the line that follows the byte.
fn push_behind<'a>(
    found: &mut Vec<Section<'a>>,
    line: usize,
    text: &'a [u8],
) -> Result<usize, AllocError>
    requires { line < 2 ^ 64 - 1 }
    ensures line { IfOk result (λ next. next ≤ line + 1) }
    ensures found { IfOk result (λ next.
        found.new.items ++ sections_behind next (drop 1 text.now)
        ≡ found.old.items ++ sections_behind line text.now) }
{
    match text {
        [b'\n', rest @ ..] => {
            push_at(found, line + 1, rest)?;
            Ok(line + 1)
        }
        [b'\x0c', rest @ ..] => {
            push_at(found, line, rest)?;
            Ok(line)
        }
        _ => Ok(line),
    }
}

/// The sections up to the next name.
pub fn until_name<'b, 'a>(sections: &'b [Section<'a>]) -> &'b [Section<'a>]
    ensures { result.now ≡ until_name sections.now }
{
    let end = find_name(sections);
    &sections[..end]
}

/// Where the next name stands, or the length.
#[tactic(auto, using(counted_io::proofs::Places::unwrap_or_position))]
fn find_name(sections: &[Section<'_>]) -> usize
    ensures value { result ≡ position_or_len (λ section. is_name section.kind) sections.now }
    ensures within { result ≤ length sections.now }
{
    name_position(sections).unwrap_or(sections.len())
}

fn name_position(sections: &[Section<'_>]) -> Option<usize>
    ensures { result ≡ position (λ section. is_name section.kind) sections.now }
{
    sections
        .iter()
        .position(|section| section.kind.is(Part::Title))
}
