//! The parts of a test as files, for the debugger and for tools of others.
ghost use Rattle.std.specs.Prelude.{◌≡◌, ◌*◌, ◌∷◌, ◌++◌, ◌≤◌, IfErr, IfOk, [], codes, filter_map, flat_map, length};
ghost use Rattle.bstr.specs.Utf8.{pieces, spans_from};
ghost use Rattle.hex.specs.Hex.{encode_lower};
ghost use Rattle.counted_io.specs.Writing.{Writes, WritesAfter};
ghost use Rattle.bpf_suite.specs.Cells.{cell_of};
ghost use Rattle.bpf_suite.specs.Outcomes.{HasWords};
ghost use Rattle.bpf_suite.specs.Shown.{IsWordsFault, cell_command, options_text, reg_command, quoted, quoted_as, quoted_char, script_text};
ghost use Rattle.bpf_suite.specs.Tests.{has_listing, program};

use crate::cells::{Cell, CellLine, cell_lines, cell_of};
use crate::kind::Part;
use crate::regs::{RegLine, reg_lines};
use crate::section::Text;
use crate::test::Test;
use bpf_text::{AsmFault, assemble};
use bpfdb_script::steers;
use bstr::ByteSlice;
use counted_io::{Counted, Piece, WriteFault, put, put_all};
use hex::encode_to_slice;
use std::alloc::{AllocError, Global};
use std::io::Write;

/// As many digits as the longest value of a cell has, of 256 bytes.
const MOST_DIGITS: usize = 512;

/// Why a test's program has no words.
#[derive(Clone, Copy)]
pub enum WordsFault {
    /// Its listing isn't one.
    Listing(AsmFault),
    /// Memory ran out.
    Memory,
}

impl<'b, 'a> Test<'b, 'a> {
    /// The words of its program: those of its listing, or as they stand. They aren't checked.
    pub fn words(&self, alloc: Global) -> Result<Vec<u8>, WordsFault>
        ensures ok { IfOk result (λ words.
            HasWords (has_listing self.now) (program self.now) words.items) }
        ensures err { IfErr result (IsWordsFault self.now) }
    {
        let program = match self.program(alloc) {
            Ok(program) => program,
            Err(_) => return Err(WordsFault::Memory),
        };
        if self.has_listing() {
            match assemble(alloc, program.as_slice()) {
                Ok(words) => Ok(words),
                Err(fault) => Err(WordsFault::Listing(fault)),
            }
        } else {
            Ok(program)
        }
    }

    /// The options that its program needs, one a line: its maps and its limit of steps.
    pub fn options_text(&self, alloc: Global) -> Result<Vec<u8>, AllocError>
        ensures { IfOk result (λ text. text.items ≡ options_text self.now) }
    {
        let mut writer = Counted::new(Vec::new(alloc));
        match write_options(&mut writer, self) {
            Ok(()) => Ok(writer.into_inner()),
            Err(WriteFault) => Err(AllocError),
        }
    }

    /// The commands of the debugger that lead to where its program ends: its cells and registers
    /// get their values, and it goes on.
    pub fn script_text(&self, alloc: Global) -> Result<Vec<u8>, AllocError>
        ensures { IfOk result (λ text. text.items ≡ script_text self.now) }
    {
        let lines = cell_lines(alloc, self.text(Part::Cells))?;
        let regs = reg_lines(alloc, self.text(Part::Registers))?;
        let mut writer = Counted::new(Vec::new(alloc));
        match write_script(alloc, &mut writer, lines.as_slice(), regs.as_slice())? {
            Ok(()) => Ok(writer.into_inner()),
            Err(WriteFault) => Err(AllocError),
        }
    }
}

/// Writes the options of a test.
fn write_options<W: Write>(writer: &mut Counted<W>, test: &Test<'_, '_>) -> Result<(), WriteFault>
    ensures { Writes W.contents writer.old writer.new result (options_text test.now) }
{
    let limit = test.limit();
    match test.maps() {
        Some(text) => {
            let maps = bytes_in(&text);
            let pieces = [
                Piece::Text(b"--maps="),
                Piece::Text(maps),
                Piece::Text(b"\n"),
                Piece::Text(b"--steps="),
                Piece::Decimal(limit),
                Piece::Text(b"\n"),
            ];
            put_all(writer, Ok(()), &pieces)
        }
        None => {
            let pieces = [
                Piece::Text(b"--steps="),
                Piece::Decimal(limit),
                Piece::Text(b"\n"),
            ];
            put_all(writer, Ok(()), &pieces)
        }
    }
}

/// The bytes of a text.
fn bytes_in<'a>(text: &Text<'a>) -> &'a [u8]
    ensures { result.now ≡ text.now }
{
    text.bytes
}

/// Writes the script of a test whose lines give these cells and these registers their values.
fn write_script<W: Write>(
    alloc: Global,
    writer: &mut Counted<W>,
    lines: &[CellLine<'_>],
    regs: &[RegLine],
) -> Result<Result<(), WriteFault>, AllocError>
    ensures { IfOk result (λ told. Writes W.contents writer.old writer.new told
        (flat_map cell_command (filter_map cell_of lines.now) ++ flat_map reg_command regs.now
        ++ codes "continue\n")) }
{
    let begun = put_cell_commands(alloc, writer, Ok(()), lines)?;
    let told = put_reg_commands(writer, begun, regs);
    Ok(put(writer, told, b"continue\n"))
}

/// Writes the commands that give registers their numbers.
fn put_reg_commands<W: Write>(
    writer: &mut Counted<W>,
    so_far: Result<(), WriteFault>,
    regs: &[RegLine],
) -> Result<(), WriteFault>
    ensures { WritesAfter W.contents writer.old so_far writer.new result
        (flat_map reg_command regs.now) }
{
    let mut told = so_far;
    for line in regs {
        told = put_reg_command(writer, told, line);
    }
    told
}

/// Writes the command that gives a register its number.
fn put_reg_command<W: Write>(
    writer: &mut Counted<W>,
    so_far: Result<(), WriteFault>,
    line: &RegLine,
) -> Result<(), WriteFault>
    ensures { WritesAfter W.contents writer.old so_far writer.new result (reg_command line.now) }
{
    let register = u64::from(line.register.number());
    let pieces = [
        Piece::Text(b"set reg r"),
        Piece::Decimal(register),
        Piece::Text(b" "),
        Piece::Decimal(line.value),
        Piece::Text(b"\n"),
    ];
    put_all(writer, so_far, &pieces)
}

/// Writes the commands that give cells their values.
fn put_cell_commands<W: Write>(
    alloc: Global,
    writer: &mut Counted<W>,
    so_far: Result<(), WriteFault>,
    lines: &[CellLine<'_>],
) -> Result<Result<(), WriteFault>, AllocError>
    ensures { IfOk result (λ told. WritesAfter W.contents writer.old so_far writer.new told
        (flat_map cell_command (filter_map cell_of lines.now))) }
{
    let mut told = so_far;
    for line in lines {
        told = put_line(alloc, writer, told, line)?;
    }
    Ok(told)
}

/// Writes the command that gives the cell of a line its value, if the line has one.
fn put_line<W: Write>(
    alloc: Global,
    writer: &mut Counted<W>,
    so_far: Result<(), WriteFault>,
    line: &CellLine<'_>,
) -> Result<Result<(), WriteFault>, AllocError>
    ensures { IfOk result (λ told. WritesAfter W.contents writer.old so_far writer.new told
        (flat_map cell_command (filter_map cell_of (line.now ∷ [])))) }
{
    match cell_of(alloc, line)? {
        Some(cell) => Ok(put_cell_command(writer, so_far, &cell)),
        None => Ok(put(writer, so_far, b"")),
    }
}

/// Writes the command that gives a cell its value.
fn put_cell_command<W: Write>(
    writer: &mut Counted<W>,
    so_far: Result<(), WriteFault>,
    cell: &Cell,
) -> Result<(), WriteFault>
    ensures { WritesAfter W.contents writer.old so_far writer.new result (cell_command cell.now) }
{
    let pieces = [
        Piece::Text(b"set cell "),
        Piece::Decimal(cell.map),
        Piece::Text(b" "),
        Piece::Decimal(cell.index),
        Piece::Text(b" "),
    ];
    let begun = put_all(writer, so_far, &pieces);
    let valued = put_value(writer, begun, cell.value.as_slice());
    put(writer, valued, b"\n")
}

/// Writes the digits of a value.
fn put_value<W: Write>(
    writer: &mut Counted<W>,
    so_far: Result<(), WriteFault>,
    value: &[u8],
) -> Result<(), WriteFault>
    requires { length value.now ≤ 256 }
    ensures { WritesAfter W.contents writer.old so_far writer.new result (encode_lower value.now) }
{
    let mut buffer = [0; MOST_DIGITS];
    put_digits(writer, so_far, value, &mut buffer[..2 * value.len()])
}

/// Writes the digits of bytes, by a buffer of as many.
fn put_digits<W: Write>(
    writer: &mut Counted<W>,
    so_far: Result<(), WriteFault>,
    bytes: &[u8],
    digits: &mut [u8],
) -> Result<(), WriteFault>
    requires { length digits.old ≡ 2 * length bytes.now }
    ensures { WritesAfter W.contents writer.old so_far writer.new result (encode_lower bytes.now) }
{
    match encode_to_slice(bytes, digits) {
        Ok(()) => put(writer, so_far, digits),
        Err(_) => unreachable!(),
    }
}

/// Writes a word between quotes, as a shell takes it.
pub fn put_quoted<W: Write>(
    writer: &mut Counted<W>,
    so_far: Result<(), WriteFault>,
    word: &[u8],
) -> Result<(), WriteFault>
    ensures { WritesAfter W.contents writer.old so_far writer.new result (quoted word.now) }
{
    let begun = put(writer, so_far, b"'");
    let told = put_quoted_chars(writer, begun, word);
    put(writer, told, b"'")
}

/// Writes what stands between the quotes of a word.
fn put_quoted_chars<W: Write>(
    writer: &mut Counted<W>,
    so_far: Result<(), WriteFault>,
    word: &[u8],
) -> Result<(), WriteFault>
    ensures { WritesAfter W.contents writer.old so_far writer.new result
        (flat_map (quoted_char word.now) (spans_from 0 (pieces word.now))) }
{
    let mut told = so_far;
    let mut chars = word.char_indices();
    'chars: while let Some((start, end, char)) = chars.next() {
        told = put(writer, told, quoted_as(char, &word[start..end]));
    }
    told
}

/// What stands for a character between quotes, of its bytes in a word.
fn quoted_as(char: char, bytes: &[u8]) -> &[u8]
    ensures { result.now ≡ quoted_as char bytes.now }
{
    if char == '\'' {
        b"'\\''"
    } else if steers(char) {
        b"?"
    } else {
        bytes
    }
}
