//! What ran of the programs of a file, over its tests.
ghost use Rattle.std.specs.Prelude.{◌≡◌, ℕ, ◌++◌, ◌∷◌, [], filter, IfOk, List, OnOk};
ghost use Rattle.counted_io.specs.Writing.{WritesAfter};
ghost use Rattle.bpf_suite.specs.Benches.{shares_program};
ghost use Rattle.bpf_suite.specs.Covers.{AddsSharing, AreRecordsOf, Covers, CoversEach, CoversProgram, IsFoundBy, IsRecordOf, Tells, TellsFound, has_program, unlined_text};
ghost use Rattle.bpf_suite.specs.Faults.{has_part};
ghost use Rattle.bpf_suite.specs.Files.{with_shared};
ghost use Rattle.bpf_suite.specs.Tests.{has_listing};
ghost use Rattle.bpf_suite.specs.declared.kind.Part.TheVariants as part;

use crate::bench::{Bench, shares_program};
use crate::kind::Part;
use crate::list::Own;
use crate::reading::Reading;
use crate::section::Section;
use crate::test::Test;
use bpf_cover::Coverage;
use bpf_text::line_table;
use counted_io::{Counted, Piece, WriteFault, put, put_all};
use std::alloc::{AllocError, Global};
use std::io::Write;

/// How it is told what ran of programs.
#[derive(Clone, Copy)]
pub enum CoverForm<'f> {
    /// As tables for a reader.
    Tables,
    /// As a tracefile of lcov, over the file of tests of this name.
    Tracefile(&'f [u8]),
}

/// What ran of the programs of tests, which have these sections of their own and share others.
pub fn cover_text<'b, 'a>(
    alloc: Global,
    shared: &'b [Section<'a>],
    own: &[Own<'b, 'a>],
    form: &CoverForm<'_>,
) -> Result<Vec<u8>, AllocError>
    ensures { IfOk result (λ text. Covers form.now shared.now own.now text.items) }
{
    let mut bench = Bench::of(alloc, shared)?;
    let found = cover_shared(alloc, own, &mut bench)?;
    let mut writer = Counted::new(Vec::new(alloc));
    let test = Test { own: &[], shared };
    let told = put_found(alloc, &mut writer, Ok(()), form, &test, &found)?;
    let all = put_each(alloc, own, &mut bench, &mut writer, told, form)?;
    match all {
        Ok(()) => Ok(writer.into_inner()),
        Err(WriteFault) => Err(AllocError),
    }
}

/// What ran of the program that tests share, over those that have none of their own.
fn cover_shared<'b, 'a>(
    alloc: Global,
    own: &[Own<'b, 'a>],
    bench: &mut Bench<'b, 'a>,
) -> Result<Option<Coverage>, AllocError>
    ensures found { IfOk result (IsFoundBy (with_shared bench.old.sections
        (filter shares_program own.now))) }
    ensures sections { bench.new.sections ≡ bench.old.sections }
{
    let mut found = None;
    for sections in own {
        match cover_next(alloc, sections, bench, &mut found) {
            Ok(()) => {}
            Err(fault) => return Err(fault),
        }
    }
    Ok(found)
}

/// Marks what a test runs of the program that tests share, unless it has one of its own.
fn cover_next<'b, 'a>(
    alloc: Global,
    own: &Own<'b, 'a>,
    bench: &mut Bench<'b, 'a>,
    found: &mut Option<Coverage>,
) -> Result<(), AllocError>
    ensures found { OnOk result
        (AddsSharing bench.old.sections own.now found.old found.new) }
    ensures sections { bench.new.sections ≡ bench.old.sections }
{
    if shares_program(own.sections) {
        let read = Reading::of(alloc, own.sections)?;
        bench.cover(alloc, &read, found)
    } else {
        Ok(())
    }
}

/// Writes what ran of the programs that tests have alone.
fn put_each<'b, 'a, W: Write>(
    alloc: Global,
    own: &[Own<'b, 'a>],
    bench: &mut Bench<'b, 'a>,
    writer: &mut Counted<W>,
    so_far: Result<(), WriteFault>,
    form: &CoverForm<'_>,
) -> Result<Result<(), WriteFault>, AllocError>
    ensures { IfOk result (λ told. (text : List ℕ)
        × CoversEach form.now bench.old.sections (filter has_program own.now) text
        × WritesAfter W.contents writer.old so_far writer.new told text) }
{
    let mut told = so_far;
    for sections in own {
        match put_next(alloc, sections, bench, writer, told, form) {
            Ok(written) => told = written,
            Err(fault) => return Err(fault),
        }
    }
    Ok(told)
}

/// Writes what ran of the program of a test, if it has one alone.
fn put_next<'b, 'a, W: Write>(
    alloc: Global,
    own: &Own<'b, 'a>,
    bench: &mut Bench<'b, 'a>,
    writer: &mut Counted<W>,
    so_far: Result<(), WriteFault>,
    form: &CoverForm<'_>,
) -> Result<Result<(), WriteFault>, AllocError>
    ensures text { IfOk result (λ told. (text : List ℕ)
        × CoversEach form.now bench.old.sections (filter has_program (own.now ∷ [])) text
        × WritesAfter W.contents writer.old so_far writer.new told text) }
    ensures sections { bench.new.sections ≡ bench.old.sections }
{
    if shares_program(own.sections) {
        Ok(put(writer, so_far, b""))
    } else {
        put_alone(alloc, own, bench, writer, so_far, form)
    }
}

/// Writes what ran of the program that a test has alone.
fn put_alone<'b, 'a, W: Write>(
    alloc: Global,
    own: &Own<'b, 'a>,
    bench: &mut Bench<'b, 'a>,
    writer: &mut Counted<W>,
    so_far: Result<(), WriteFault>,
    form: &CoverForm<'_>,
) -> Result<Result<(), WriteFault>, AllocError>
    ensures text { IfOk result (λ told. (text : List ℕ)
        × CoversProgram form.now own.now ((own.now ++ bench.old.sections) ∷ []) text
        × WritesAfter W.contents writer.old so_far writer.new told text) }
    ensures sections { bench.new.sections ≡ bench.old.sections }
{
    let read = Reading::of(alloc, own.sections)?;
    let found = bench.cover_alone(alloc, &read)?;
    let alone = Test {
        own: &[],
        shared: own.sections,
    };
    put_found(alloc, writer, so_far, form, &alone, &found)
}

/// Writes what ran of the program among sections, if anything is known of it.
fn put_found<W: Write>(
    alloc: Global,
    writer: &mut Counted<W>,
    so_far: Result<(), WriteFault>,
    form: &CoverForm<'_>,
    test: &Test<'_, '_>,
    found: &Option<Coverage>,
) -> Result<Result<(), WriteFault>, AllocError>
    ensures { IfOk result (λ told. (text : List ℕ)
        × TellsFound form.now test.now found.now text
        × WritesAfter W.contents writer.old so_far writer.new told text) }
{
    match found {
        Some(coverage) => put_coverage(alloc, writer, so_far, form, test, coverage),
        None => Ok(put(writer, so_far, b"")),
    }
}

/// Writes what ran of the program among sections.
fn put_coverage<W: Write>(
    alloc: Global,
    writer: &mut Counted<W>,
    so_far: Result<(), WriteFault>,
    form: &CoverForm<'_>,
    test: &Test<'_, '_>,
    coverage: &Coverage,
) -> Result<Result<(), WriteFault>, AllocError>
    ensures { IfOk result (λ told. (text : List ℕ)
        × Tells form.now test.now coverage.now text
        × WritesAfter W.contents writer.old so_far writer.new told text) }
{
    match form {
        CoverForm::Tables => Ok(coverage.put(writer, so_far, test.program_line())),
        CoverForm::Tracefile(file) => put_records(alloc, writer, so_far, file, test, coverage),
    }
}

/// Writes what ran of the program among sections as records of a tracefile: by its source, if they
/// have a table of its places there.
fn put_records<W: Write>(
    alloc: Global,
    writer: &mut Counted<W>,
    so_far: Result<(), WriteFault>,
    file: &[u8],
    test: &Test<'_, '_>,
    coverage: &Coverage,
) -> Result<Result<(), WriteFault>, AllocError>
    ensures { IfOk result (λ told. (text : List ℕ)
        × AreRecordsOf (has_part part.Lines test.now) file.now test.now coverage.now text
        × WritesAfter W.contents writer.old so_far writer.new told text) }
{
    if test.has(Part::Lines) {
        coverage.put_records(alloc, writer, so_far, test.text(Part::Lines))
    } else {
        put_record(alloc, writer, so_far, file, test, coverage)
    }
}

/// Writes what ran of a listing as a record of a tracefile. (It ran: it has no fault.)
fn put_record<W: Write>(
    alloc: Global,
    writer: &mut Counted<W>,
    so_far: Result<(), WriteFault>,
    file: &[u8],
    test: &Test<'_, '_>,
    coverage: &Coverage,
) -> Result<Result<(), WriteFault>, AllocError>
    ensures { IfOk result (λ told. (text : List ℕ)
        × IsRecordOf (has_listing test.now) file.now test.now coverage.now text
        × WritesAfter W.contents writer.old so_far writer.new told text) }
{
    let line = test.program_line();
    if !test.has_listing() {
        return Ok(put_unlined(writer, so_far, line));
    }
    let program = test.program(alloc)?;
    match line_table(alloc, program.as_slice()) {
        Ok(table) => Ok(coverage.put_record(writer, so_far, file, line, table.as_slice())),
        Err(_) => Err(AllocError),
    }
}

/// Writes that the program in a line is left out, since it is no listing.
fn put_unlined<W: Write>(
    writer: &mut Counted<W>,
    so_far: Result<(), WriteFault>,
    line: usize,
) -> Result<(), WriteFault>
    ensures { WritesAfter W.contents writer.old so_far writer.new result (unlined_text line) }
{
    let pieces = [
        Piece::Text(b"# the program in line "),
        Piece::Decimal(line as u64),
        Piece::Text(b" is no listing: it has no lines here\n"),
    ];
    put_all(writer, so_far, &pieces)
}
