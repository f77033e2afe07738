//! The rows that tell of the slots of a part.
ghost use Rattle.std.specs.Prelude.{◌≡◌, ◌<◌, ◌*◌, ℕ, IfSome, Option, length, slice_index};
ghost use Rattle.counted_io.specs.Writing.{WritesAfter};
ghost use Rattle.bpf_link.specs.Parts.{part_of, slots_in};
ghost use Rattle.bpf_lines.specs.Marks.{AreMarks};
ghost use Rattle.bpf_lines.specs.Parts.{ArePartLines};
ghost use Rattle.bpf_lines.specs.Passed.{AreLast};
ghost use Rattle.bpf_lines.specs.Rows.{entry_word, function_word, line_word, row_by, rows, word_of};
ghost use Rattle.bpf_lines.specs.Slots.{line_since, said_of};

use crate::line_info::{LineEntry, line_entry, record_place};
use crate::part_lines::PartLines;
use crate::slots::{is_since, said_of, with_slot};
use bpf_btf::byte_at;
use bpf_link::{Plan, Side, short_at, symbol_place};
use bpfdb_script::put_shown;
use counted_io::{Counted, WriteFault, put, put_decimal};
use std::io::Write;

/// What is said of a slot: its function by the number of a symbol, its line by that of a record. Or
/// the slots that say so.
#[derive(Clone, Copy)]
pub struct Said {
    pub function: Option<usize>,
    pub line: Option<usize>,
}

/// Writes a name as it is shown, or a hyphen where there is none.
fn put_word<W: Write>(
    writer: &mut Counted<W>,
    so_far: Result<(), WriteFault>,
    name: &[u8],
) -> Result<(), WriteFault>
    ensures { WritesAfter W.contents writer.old so_far writer.new result (word_of name.now) }
{
    match name {
        [] => put(writer, so_far, b"-"),
        _ => put_shown(writer, so_far, name),
    }
}

/// Writes the name of a function, by its symbol.
fn put_function<W: Write>(
    writer: &mut Counted<W>,
    so_far: Result<(), WriteFault>,
    plan: &Plan<'_>,
    symbol: Option<usize>,
) -> Result<(), WriteFault>
    requires { IfSome symbol (λ i. i < length plan.now.symbols) }
    ensures { WritesAfter W.contents writer.old so_far writer.new result
        (function_word plan.now symbol) }
{
    match symbol {
        None => put(writer, so_far, b"-"),
        Some(i) => {
            let at = symbol_place(plan, &plan.symbols.at(i));
            put_word(writer, so_far, short_at(plan.object.bytes(), at))
        }
    }
}

/// Writes a line, by its record.
fn put_line<W: Write>(
    writer: &mut Counted<W>,
    so_far: Result<(), WriteFault>,
    told: &PartLines<'_>,
    line: Option<usize>,
) -> Result<(), WriteFault>
    requires { IfSome told.now.block (λ at. at < length told.now.listed) }
    ensures { WritesAfter W.contents writer.old so_far writer.new result
        (line_word told.now.strings told.now.listed told.now.block line) }
{
    let listed = told.listed.bytes;
    match (told.block, line) {
        (Some(block), Some(i)) => {
            let entry = line_entry(listed, record_place(listed, block, i));
            put_entry(writer, so_far, told.strings.bytes, &entry)
        }
        _ => put(writer, so_far, b"-"),
    }
}

/// Writes the file's name and the number of a line, if it has one.
fn put_entry<W: Write>(
    writer: &mut Counted<W>,
    so_far: Result<(), WriteFault>,
    strings: &[u8],
    entry: &LineEntry,
) -> Result<(), WriteFault>
    ensures { WritesAfter W.contents writer.old so_far writer.new result
        (entry_word strings.now entry.now) }
{
    if entry.line == 0 {
        return put(writer, so_far, b"-");
    }
    let named = put_word(writer, so_far, short_at(strings, entry.file as usize));
    let parted = put(writer, named, b":");
    put_decimal(writer, parted, u64::from(entry.line))
}

/// Writes the row of a slot of the program, by what is said of it, if an instruction begins there.
fn put_row<W: Write>(
    writer: &mut Counted<W>,
    so_far: Result<(), WriteFault>,
    plan: &Plan<'_>,
    told: &PartLines<'_>,
    words: &[u8],
    number: usize,
    said: Said,
) -> Result<(), WriteFault>
    requires block { IfSome told.now.block (λ at. at < length told.now.listed) }
    requires symbol { IfSome said.function (λ i. i < length plan.now.symbols) }
    ensures { WritesAfter W.contents writer.old so_far writer.new result
        (row_by plan.now told.now words.now number said) }
{
    if first_byte(words, number) == 0 {
        return put(writer, so_far, b"");
    }
    let numbered = put_decimal(writer, so_far, number as u64);
    let parted = put(writer, numbered, b" ");
    let lined = put_line(writer, parted, told, said.line);
    let parted_again = put(writer, lined, b" ");
    let named = put_function(writer, parted_again, plan, said.function);
    put(writer, named, b"\n")
}

/// The line of a slot, by the last slots up to it that have one, and in which a function begins.
fn line_since(lines: &[usize], slot: Option<usize>, start: Option<usize>) -> Option<usize>
    requires { IfSome slot (λ k. k < length lines.now) }
    ensures { (says : ℕ → Option ℕ) → AreMarks says lines.now
        → result ≡ line_since says slot start }
{
    if is_since(slot, start) {
        said_of(lines, slot)
    } else {
        None
    }
}

/// The byte with which a slot begins, 0 past the end.
fn first_byte(words: &[u8], number: usize) -> u8
    ensures { result ≡ slice_index words.now (8 * number) }
{
    if number > words.len() / 8 {
        return 0;
    }
    byte_at(words, 8 * number)
}

/// What is said of a slot, by the last slots up to it that say something.
fn said_since(told: &PartLines<'_>, last: Said) -> Said
    requires { AreLast told.now last }
    ensures function { (says : ℕ → Option ℕ) → AreMarks says told.now.functions.items
        → result.function ≡ said_of says last.function }
    ensures line { (says : ℕ → Option ℕ) → AreMarks says told.now.lines.items
        → result.line ≡ line_since says last.line last.function }
{
    Said {
        function: said_of(&told.functions, last.function),
        line: line_since(&told.lines, last.line, last.function),
    }
}

/// Writes the rows of a part, whose first slot is one of the program's words.
pub fn put_rows<W: Write>(
    writer: &mut Counted<W>,
    so_far: Result<(), WriteFault>,
    plan: &Plan<'_>,
    side: Side,
    told: &PartLines<'_>,
    words: &[u8],
    first: usize,
) -> Result<(), WriteFault>
    requires told { ArePartLines plan.now (part_of plan.now.parts side) told.now }
    requires small { first < 9223372036854775808 }
    ensures { WritesAfter W.contents writer.old so_far writer.new result
        (rows plan.now (part_of plan.now.parts side) told.now words.now first
        (slots_in (part_of plan.now.parts side))) }
{
    let mut all = so_far;
    let mut function = None;
    let mut line = None;
    let part = plan.parts.part(side);
    for slot in 0..part.len() {
        function = with_slot(&told.functions, function, slot);
        line = with_slot(&told.lines, line, slot);
        let said = said_since(told, Said { function, line });
        all = put_row(writer, all, plan, told, words, first + slot, said);
    }
    all
}
