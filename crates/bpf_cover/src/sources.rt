//! What ran of a program by the lines of its source, as records of lcov's tracefiles.
ghost use Rattle.std.specs.Prelude.{◌≡◌, ◌≤◌, ◌<◌, ◌&&◌, ◌∷◌, ℕ, List, IfOk, count_by, drop, flat_map, length, take, true};
ghost use Rattle.std.specs.Str.{bytes_eq};
ghost use Rattle.counted_io.specs.Writing.{WritesAfter};
ghost use Rattle.bpf_cover.specs.Sources.{AreRecords, alike, file_text, forks_of, group_text, groups, jump_text, line_ran, mark_of, record_of, records_text, taken_of};

use crate::coverage::{Mark, has_run};
use crate::places::{Spot, in_order, spots_of};
use crate::tracefile::{put_branches, put_line, put_totals};
use bpfdb_script::put_shown;
use counted_io::{Counted, WriteFault, put};
use std::alloc::{AllocError, Global};
use std::io::Write;

/// Writes a record of each file that a table of a program's places names.
pub fn put_records<W: Write>(
    alloc: Global,
    writer: &mut Counted<W>,
    so_far: Result<(), WriteFault>,
    table: &[u8],
    marks: &[Mark],
) -> Result<Result<(), WriteFault>, AllocError>
    ensures { IfOk result (λ told. (text : List ℕ) × AreRecords marks.now table.now text
        × WritesAfter W.contents writer.old so_far writer.new told text) }
{
    let spots = spots_of(alloc, table)?;
    let ordered = in_order(alloc, spots.as_slice())?;
    Ok(put_files(writer, so_far, ordered.as_slice(), marks))
}

/// Writes the records of places that are in order.
fn put_files<W: Write>(
    writer: &mut Counted<W>,
    so_far: Result<(), WriteFault>,
    spots: &[Spot<'_>],
    marks: &[Mark],
) -> Result<(), WriteFault>
    ensures { WritesAfter W.contents writer.old so_far writer.new result
        (records_text marks.now spots.now) }
{
    let mut told = so_far;
    let mut start = 0;
    while start < spots.len() {
        let size = group_size(&spots[start..], false);
        told = put_file(writer, told, &spots[start..start + size], marks);
        start += size;
    }
    told
}

/// The name of the file of a place.
fn file_of<'a>(spot: &Spot<'a>) -> &'a [u8]
    ensures { result.now ≡ spot.now.file }
{
    spot.file.bytes
}

/// Writes the record of the places of a file.
fn put_file<W: Write>(
    writer: &mut Counted<W>,
    so_far: Result<(), WriteFault>,
    spots: &[Spot<'_>],
    marks: &[Mark],
) -> Result<(), WriteFault>
    ensures { WritesAfter W.contents writer.old so_far writer.new result
        (file_text marks.now spots.now) }
{
    match spots {
        [first, ..] => put_record(writer, so_far, file_of(first), spots, marks),
        [] => put(writer, so_far, b""),
    }
}

/// Writes the record of a file, by its places.
fn put_record<W: Write>(
    writer: &mut Counted<W>,
    so_far: Result<(), WriteFault>,
    file: &[u8],
    spots: &[Spot<'_>],
    marks: &[Mark],
) -> Result<(), WriteFault>
    ensures { WritesAfter W.contents writer.old so_far writer.new result
        (record_of marks.now file.now spots.now) }
{
    let begun = put(writer, so_far, b"TN:\nSF:");
    let named = put_shown(writer, begun, file);
    let headed = put(writer, named, b"\n");
    let told = put_groups(writer, headed, spots, marks);
    let (lines, ran) = count_lines(spots, marks);
    let branches = count_forks(spots, marks);
    let taken = count_taken(spots, marks);
    put_totals(writer, told, lines, ran, branches, taken)
}

/// Writes what ran of each line.
fn put_groups<W: Write>(
    writer: &mut Counted<W>,
    so_far: Result<(), WriteFault>,
    spots: &[Spot<'_>],
    marks: &[Mark],
) -> Result<(), WriteFault>
    ensures { WritesAfter W.contents writer.old so_far writer.new result
        (flat_map (group_text marks.now) (groups true spots.now)) }
{
    let mut told = so_far;
    let mut start = 0;
    while start < spots.len() {
        let size = group_size(&spots[start..], true);
        told = put_group(writer, told, &spots[start..start + size], marks);
        start += size;
    }
    told
}

/// Writes what ran of a line.
fn put_group<W: Write>(
    writer: &mut Counted<W>,
    so_far: Result<(), WriteFault>,
    spots: &[Spot<'_>],
    marks: &[Mark],
) -> Result<(), WriteFault>
    ensures { WritesAfter W.contents writer.old so_far writer.new result
        (group_text marks.now spots.now) }
{
    match spots {
        [first, ..] => {
            let ran = line_ran(spots, marks);
            let told = put_line(writer, so_far, first.line, ran);
            put_jumps(writer, told, spots, marks)
        }
        [] => put(writer, so_far, b""),
    }
}

/// Writes which ways the conditional jumps of places went.
fn put_jumps<W: Write>(
    writer: &mut Counted<W>,
    so_far: Result<(), WriteFault>,
    spots: &[Spot<'_>],
    marks: &[Mark],
) -> Result<(), WriteFault>
    ensures { WritesAfter W.contents writer.old so_far writer.new result
        (flat_map (jump_text marks.now) spots.now) }
{
    let mut told = so_far;
    for spot in spots {
        told = put_branches(writer, told, spot.line, spot.slot, mark_of(marks, spot));
    }
    told
}

/// What is known of the slot of a place.
fn mark_of(marks: &[Mark], spot: &Spot<'_>) -> Mark
    ensures { result ≡ mark_of marks.now spot.now }
{
    match marks.get(spot.slot as usize) {
        Some(mark) => *mark,
        None => Mark {
            starts: false,
            forks: false,
            went_on: false,
            jumped: false,
        },
    }
}

/// Whether some instruction of these places ran.
fn line_ran(spots: &[Spot<'_>], marks: &[Mark]) -> bool
    ensures { result ≡ line_ran marks.now spots.now }
{
    spots.iter().any(|spot| has_run(mark_of(marks, spot)))
}

/// Whether two places are those of one file, or of one line.
fn are_alike(a: &Spot<'_>, b: &Spot<'_>, by_line: bool) -> bool
    ensures { result ≡ alike by_line a.now b.now }
{
    is_same(a.file.bytes, b.file.bytes) && (!by_line || a.line == b.line)
}

/// Whether two names are the same.
fn is_same(a: &[u8], b: &[u8]) -> bool
    ensures value { result ≡ bytes_eq a.now b.now }
{
    a == b
}

/// How many places are alike from the first one on.
fn group_size(spots: &[Spot<'_>], by_line: bool) -> usize
    requires { 0 < length spots.now }
    ensures groups { groups by_line spots.now
        ≡ take result spots.now ∷ groups by_line (drop result spots.now) }
    ensures within { (0 < result) × (result ≤ length spots.now) }
{
    for at in 1..spots.len() {
        if !are_alike(&spots[at - 1], &spots[at], by_line) {
            return at;
        }
    }
    spots.len()
}

/// How many lines places have, and how many of them ran.
fn count_lines(spots: &[Spot<'_>], marks: &[Mark]) -> (usize, usize)
    ensures lines { result.0 ≡ length (groups true spots.now) }
    ensures ran { result.1 ≡ count_by (line_ran marks.now) (groups true spots.now) }
{
    let mut lines = 0;
    let mut ran = 0;
    let mut start = 0;
    while start < spots.len() {
        let size = group_size(&spots[start..], true);
        if line_ran(&spots[start..start + size], marks) {
            ran += 1;
        }
        lines += 1;
        start += size;
    }
    (lines, ran)
}

/// How many conditional jumps of two ways places have.
fn count_forks(spots: &[Spot<'_>], marks: &[Mark]) -> usize
    ensures count { result ≡ forks_of marks.now spots.now }
    ensures within { result ≤ length spots.now }
{
    spots
        .iter()
        .filter(|spot| mark_of(marks, spot).forks)
        .count()
}

/// How many of their ways were taken.
fn count_taken(spots: &[Spot<'_>], marks: &[Mark]) -> usize
    ensures { result ≡ taken_of marks.now spots.now }
{
    count_on(spots, marks) + count_jumped(spots, marks)
}

/// How many conditional jumps of places went on.
fn count_on(spots: &[Spot<'_>], marks: &[Mark]) -> usize
    ensures count { result ≡ count_by (λ spot. (mark_of marks.now spot).forks
        && (mark_of marks.now spot).went_on) spots.now }
    ensures within { result ≤ length spots.now }
{
    spots
        .iter()
        .filter(|spot| mark_of(marks, spot).forks && mark_of(marks, spot).went_on)
        .count()
}

/// How many jumped.
fn count_jumped(spots: &[Spot<'_>], marks: &[Mark]) -> usize
    ensures count { result ≡ count_by (λ spot. (mark_of marks.now spot).forks
        && (mark_of marks.now spot).jumped) spots.now }
    ensures within { result ≤ length spots.now }
{
    spots
        .iter()
        .filter(|spot| mark_of(marks, spot).forks && mark_of(marks, spot).jumped)
        .count()
}
