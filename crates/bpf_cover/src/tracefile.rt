//! What ran of a program, as a record of lcov's tracefiles.
ghost use Rattle.std.specs.Prelude.{◌≡◌, ◌&&◌, ◌<◌, ◌^◌, ◌≤◌, count_by, length};
ghost use Rattle.counted_io.specs.Lines.{lines};
ghost use Rattle.counted_io.specs.Writing.{WritesAfter};
ghost use Rattle.bpf_cover.specs.Tracefiles.{branches_text, line_in, line_text, mark_in, number_of, once, place_text, record_text, row_text, rows_text, taken, totals_of, totals_text, ways_taken, ways_text};

use crate::coverage::{Mark, count_forks, count_run, count_starts, has_run};
use bpfdb_script::put_shown;
use counted_io::{Counted, Piece, WriteFault, natural, put, put_all, sides};
use std::io::Write;

/// Writes the record of a program that stands in a file, behind so many lines of it, by the table of
/// its lines.
pub fn put_record<W: Write>(
    writer: &mut Counted<W>,
    so_far: Result<(), WriteFault>,
    file: &[u8],
    head: usize,
    table: &[u8],
    marks: &[Mark],
) -> Result<(), WriteFault>
    ensures { WritesAfter W.contents writer.old so_far writer.new result
        (record_text file.now head (lines table.now) marks.now) }
{
    let begun = put(writer, so_far, b"TN:\nSF:");
    let named = put_shown(writer, begun, file);
    let headed = put(writer, named, b"\n");
    let told = put_rows(writer, headed, head, table, marks);
    put_marked(writer, told, marks)
}

/// Writes what ran of the instructions of each row.
fn put_rows<W: Write>(
    writer: &mut Counted<W>,
    so_far: Result<(), WriteFault>,
    head: usize,
    table: &[u8],
    marks: &[Mark],
) -> Result<(), WriteFault>
    ensures { WritesAfter W.contents writer.old so_far writer.new result
        (rows_text head marks.now (lines table.now)) }
{
    let mut told = so_far;
    let mut rest = table;
    while !rest.is_empty() {
        let (row, others) = sides(rest, b'\n');
        told = put_row(writer, told, head, row, marks);
        rest = others;
    }
    told
}

/// Writes what ran of the instruction of a row; nothing where it tells of none.
fn put_row<W: Write>(
    writer: &mut Counted<W>,
    so_far: Result<(), WriteFault>,
    head: usize,
    row: &[u8],
    marks: &[Mark],
) -> Result<(), WriteFault>
    ensures { WritesAfter W.contents writer.old so_far writer.new result
        (row_text head marks.now row.now) }
{
    let line = line_in(head, row);
    let mark = mark_in(marks, row);
    put_place(writer, so_far, line, mark)
}

/// The line of the instruction of a row, whose table begins behind so many lines.
fn line_in(head: usize, row: &[u8]) -> Option<u64>
    ensures { result ≡ line_in head row.now }
{
    let (_, more) = sides(row, b' ');
    let (word, _) = sides(more, b' ');
    let line = number_of(word)?;
    line.checked_add(head as u64)
}

/// The mark of the instruction of a row.
fn mark_in(marks: &[Mark], row: &[u8]) -> Option<Mark>
    ensures { result ≡ mark_in marks.now row.now }
{
    let (word, _) = sides(row, b' ');
    let slot = number_of(word)?;
    match marks.get(slot as usize) {
        Some(mark) => Some(*mark),
        None => None,
    }
}

/// The number that a word is, None where it is none.
pub fn number_of(word: &[u8]) -> Option<u64>
    ensures { result ≡ number_of word.now }
{
    natural(word)?.to_u64()
}

/// Writes what ran of an instruction that stands in a line.
fn put_place<W: Write>(
    writer: &mut Counted<W>,
    so_far: Result<(), WriteFault>,
    line: Option<u64>,
    mark: Option<Mark>,
) -> Result<(), WriteFault>
    ensures { WritesAfter W.contents writer.old so_far writer.new result (place_text line mark) }
{
    match (line, mark) {
        (Some(line), Some(mark)) => {
            let told = put_line(writer, so_far, line, has_run(mark));
            put_branches(writer, told, line, 0, mark)
        }
        _ => put(writer, so_far, b""),
    }
}

/// Writes whether a line ran.
pub fn put_line<W: Write>(
    writer: &mut Counted<W>,
    so_far: Result<(), WriteFault>,
    line: u64,
    ran: bool,
) -> Result<(), WriteFault>
    ensures { WritesAfter W.contents writer.old so_far writer.new result (line_text line ran) }
{
    let ran = once(ran);
    let pieces = [
        Piece::Text(b"DA:"),
        Piece::Decimal(line),
        Piece::Text(b","),
        Piece::Text(ran),
        Piece::Text(b"\n"),
    ];
    put_all(writer, so_far, &pieces)
}

/// Writes which ways the conditional jump of a line went, as a block of this number; nothing of
/// another instruction.
pub fn put_branches<W: Write>(
    writer: &mut Counted<W>,
    so_far: Result<(), WriteFault>,
    line: u64,
    block: u64,
    mark: Mark,
) -> Result<(), WriteFault>
    ensures { WritesAfter W.contents writer.old so_far writer.new result
        (branches_text line block mark) }
{
    if mark.forks {
        put_ways(writer, so_far, line, block, mark)
    } else {
        put(writer, so_far, b"")
    }
}

/// Writes which ways a conditional jump went.
fn put_ways<W: Write>(
    writer: &mut Counted<W>,
    so_far: Result<(), WriteFault>,
    line: u64,
    block: u64,
    mark: Mark,
) -> Result<(), WriteFault>
    ensures { WritesAfter W.contents writer.old so_far writer.new result
        (ways_text line block mark) }
{
    let on = taken(mark, mark.went_on);
    let off = taken(mark, mark.jumped);
    let pieces = [
        Piece::Text(b"BRDA:"),
        Piece::Decimal(line),
        Piece::Text(b","),
        Piece::Decimal(block),
        Piece::Text(b",0,"),
        Piece::Text(on),
        Piece::Text(b"\nBRDA:"),
        Piece::Decimal(line),
        Piece::Text(b","),
        Piece::Decimal(block),
        Piece::Text(b",1,"),
        Piece::Text(off),
        Piece::Text(b"\n"),
    ];
    put_all(writer, so_far, &pieces)
}

/// How often a way of a conditional jump was taken.
fn taken(mark: Mark, way: bool) -> &'static [u8]
    ensures { result.now ≡ taken mark way }
{
    if has_run(mark) { once(way) } else { b"-" }
}

/// How often something ran: 1 is once or more.
fn once(ran: bool) -> &'static [u8]
    ensures { result.now ≡ once ran }
{
    if ran { b"1" } else { b"0" }
}

/// Writes how many lines and branches there are, and how many ran or were taken.
pub fn put_totals<W: Write>(
    writer: &mut Counted<W>,
    so_far: Result<(), WriteFault>,
    lines: usize,
    ran: usize,
    forks: usize,
    taken: usize,
) -> Result<(), WriteFault>
    requires { forks < 2 ^ 63 }
    ensures { WritesAfter W.contents writer.old so_far writer.new result
        (totals_text lines ran forks taken) }
{
    let pieces = [
        Piece::Text(b"LF:"),
        Piece::Decimal(lines as u64),
        Piece::Text(b"\nLH:"),
        Piece::Decimal(ran as u64),
        Piece::Text(b"\nBRF:"),
        Piece::Decimal(2 * forks as u64),
        Piece::Text(b"\nBRH:"),
        Piece::Decimal(taken as u64),
        Piece::Text(b"\nend_of_record\n"),
    ];
    put_all(writer, so_far, &pieces)
}

/// Writes how many instructions and branches there are, and how many ran or were taken.
fn put_marked<W: Write>(
    writer: &mut Counted<W>,
    so_far: Result<(), WriteFault>,
    marks: &[Mark],
) -> Result<(), WriteFault>
    ensures { WritesAfter W.contents writer.old so_far writer.new result (totals_of marks.now) }
{
    let instructions = count_starts(marks);
    let ran = count_run(marks);
    let forks = count_forks(marks);
    let ways = count_ways(marks);
    put_totals(writer, so_far, instructions, ran, forks, ways)
}

/// How many of them were taken.
fn count_ways(marks: &[Mark]) -> usize
    ensures { result ≡ ways_taken marks.now }
{
    count_on(marks) + count_jumped(marks)
}

/// How many conditional jumps went on.
fn count_on(marks: &[Mark]) -> usize
    ensures count { result ≡ count_by (λ mark. mark.forks && mark.went_on) marks.now }
    ensures within { result ≤ length marks.now }
{
    marks
        .iter()
        .filter(|mark| mark.forks && mark.went_on)
        .count()
}

/// How many jumped.
fn count_jumped(marks: &[Mark]) -> usize
    ensures count { result ≡ count_by (λ mark. mark.forks && mark.jumped) marks.now }
    ensures within { result ≤ length marks.now }
{
    marks
        .iter()
        .filter(|mark| mark.forks && mark.jumped)
        .count()
}
