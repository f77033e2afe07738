//! Cells of maps, as sections name them: a line each.
ghost use Rattle.std.specs.Prelude.{◌≡◌, IfOk, is_some};
ghost use Rattle.std.specs.List.{list_all};
ghost use Rattle.bpf_suite.specs.Cells.{are_cells, are_patterns, behind_word, cell_line, cell_lines, cell_of, has_pattern, is_cell_line, is_value_len, line_of, lines, sized, value_of, word};

use crate::body::{bytes_of, is_pattern, number_of, solid};
use crate::section::Text;
use bpf_machine::ByteString;
use counted_io::{find_blank, trim_start};
use std::alloc::{AllocError, Global};
use std::marker::Model;

/// What a line says of a cell.
#[derive(Drop)]
pub struct CellLine<'a> {
    /// The number of a map.
    pub map: u64,
    pub index: u64,
    /// What stands behind both numbers, with blanks anywhere.
    pub digits: Text<'a>,
}

impl<'a> CellLine<'a> {
    /// The text of its digits.
    pub fn text(&self) -> &'a [u8]
        ensures { result.now ≡ self.now.digits }
    {
        self.digits.bytes
    }

    /// A copy of the line, over the same digits.
    pub fn copied(&self) -> CellLine<'a>
        ensures { result ≡ self.now }
    {
        CellLine {
            map: self.map,
            index: self.index,
            digits: Text {
                bytes: self.digits.bytes,
            },
        }
    }
}

/// A cell of a map, with a value.
#[derive(Drop)]
pub struct Cell {
    /// The number of a map.
    pub map: u64,
    pub index: u64,
    pub value: ByteString,
}

/// Cells with their values, by the lines that give them. Contracts see them as a list.
#[derive(Drop)]
pub struct Cells<'x, 'a> {
    pub lines: &'x [CellLine<'a>],
}

impl<'x, 'a> Model for Cells<'x, 'a> {
    ghost use Rattle.std.specs.Prelude.{List, filter_map};
    ghost use Rattle.bpf_suite.specs.Cells.{cell_of};
    ghost use Rattle.bpf_suite.specs.declared.cells.Cell.{Cell};

    ghost Value = { List Cell };

    ghost view = { λ c. filter_map cell_of c.lines.now };
}

/// The cell that a line gives a value to, if it does.
pub fn cell_of(alloc: Global, line: &CellLine<'_>) -> Result<Option<Cell>, AllocError>
    ensures { IfOk result (λ cell. cell ≡ cell_of line.now) }
{
    match value_of(alloc, line)? {
        Some(value) => Ok(Some(Cell {
            map: line.map,
            index: line.index,
            value,
        })),
        None => Ok(None),
    }
}

/// The value that a line's digits are, None where they are none.
pub fn value_of(alloc: Global, line: &CellLine<'_>) -> Result<Option<ByteString>, AllocError>
    ensures { IfOk result (λ value. value ≡ value_of line.now) }
{
    match bytes_of(alloc, line.digits.bytes)? {
        Some(bytes) => Ok(sized(bytes.as_slice())),
        None => Ok(None),
    }
}

/// Bytes as a value, None where they are none or too many.
fn sized(bytes: &[u8]) -> Option<ByteString>
    ensures { result ≡ sized bytes.now }
{
    if is_value_len(bytes.len()) {
        Some(ByteString::of(bytes))
    } else {
        None
    }
}

/// Whether a value may have n bytes.
fn is_value_len(n: usize) -> bool
    ensures { result ≡ is_value_len n }
{
    1 <= n && n <= 256
}

/// What the lines of a section say of cells.
pub fn cell_lines(alloc: Global, body: &[u8]) -> Result<Vec<CellLine<'_>>, AllocError>
    ensures { IfOk result (λ found. found.items ≡ cell_lines body.now) }
{
    body.split(|byte| *byte == b'\n')
        .filter_map(|line| cell_line(line))
        .collect(alloc)
}

/// What a line says of a cell, None where it says nothing of one.
fn cell_line(line: &[u8]) -> Option<CellLine<'_>>
    ensures { result ≡ cell_line line.now }
{
    let text = trim_start(line);
    let rest = behind_word(text);
    line_of(word(text), word(rest), behind_word(rest))
}

/// A line about a cell, by its words and its digits.
fn line_of<'a>(map: &[u8], index: &[u8], digits: &'a [u8]) -> Option<CellLine<'a>>
    ensures { result ≡ line_of map.now index.now digits.now }
{
    let map = number_of(map)?;
    let index = number_of(index)?;
    Some(CellLine {
        map,
        index,
        digits: Text { bytes: digits },
    })
}

/// A text's first word.
fn word(text: &[u8]) -> &[u8]
    ensures { result.now ≡ word text.now }
{
    &text[..find_blank(text)]
}

/// What stands behind a text's first word and the blanks that follow.
fn behind_word(text: &[u8]) -> &[u8]
    ensures { result.now ≡ behind_word text.now }
{
    trim_start(&text[find_blank(text)..])
}

/// Whether a section gives values to cells.
pub fn are_cells(alloc: Global, body: &[u8]) -> Result<bool, AllocError>
    ensures { IfOk result (λ are. are ≡ are_cells body.now) }
{
    if !are_cell_lines(body) {
        return Ok(false);
    }
    let lines = cell_lines(alloc, body)?;
    have_values(alloc, lines.as_slice())
}

/// Whether a section says by patterns what cells hold.
pub fn are_patterns(alloc: Global, body: &[u8]) -> Result<bool, AllocError>
    ensures { IfOk result (λ are. are ≡ are_patterns body.now) }
{
    if !are_cell_lines(body) {
        return Ok(false);
    }
    let lines = cell_lines(alloc, body)?;
    have_patterns(alloc, lines.as_slice())
}

/// Whether each line of a section is blank, or says something of a cell.
fn are_cell_lines(body: &[u8]) -> bool
    ensures { result ≡ list_all is_cell_line (lines body.now) }
{
    body.split(|byte| *byte == b'\n')
        .all(|line| is_cell_line(line))
}

/// Whether a line is blank, or says something of a cell.
fn is_cell_line(line: &[u8]) -> bool
    ensures { result ≡ is_cell_line line.now }
{
    trim_start(line).is_empty() || cell_line(line).is_some()
}

/// Whether the digits of each line are a value.
fn have_values(alloc: Global, lines: &[CellLine<'_>]) -> Result<bool, AllocError>
    ensures { IfOk result (λ have. have ≡ list_all (λ line. is_some (value_of line)) lines.now) }
{
    for line in lines {
        if value_of(alloc, line)?.is_none() {
            return Ok(false);
        }
    }
    Ok(true)
}

/// Whether the digits of each line are a pattern.
fn have_patterns(alloc: Global, lines: &[CellLine<'_>]) -> Result<bool, AllocError>
    ensures { IfOk result (λ have. have ≡ list_all has_pattern lines.now) }
{
    for line in lines {
        if !has_pattern(alloc, line)? {
            return Ok(false);
        }
    }
    Ok(true)
}

/// Whether a line's digits are a pattern.
fn has_pattern(alloc: Global, line: &CellLine<'_>) -> Result<bool, AllocError>
    ensures { IfOk result (λ has. has ≡ has_pattern line.now) }
{
    let digits = solid(alloc, line.digits.bytes)?;
    Ok(is_pattern(digits.as_slice()) && is_value_len(digits.len() / 2))
}
