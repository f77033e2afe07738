//! The report on tests, in the Test Anything Protocol.
ghost use Rattle.std.specs.Prelude.{◌≡◌, ◌&&◌, ◌++◌, List, [], IfErr, IfOk};
ghost use Rattle.counted_io.specs.Writing.{Writes, WritesAfter};
ghost use Rattle.bpf_suite.specs.Files.{with_shared};
ghost use Rattle.bpf_suite.specs.Outcomes.{Comes, Outcome};
ghost use Rattle.bpf_suite.specs.Reports.{AreOutcomes, AreTold, BreaksAt, BreaksOff, all_pass, also, diagnosis, plan, report_text, show_line, test_text, tests_text, verdict_word, wanted, wanted_outcome};
ghost use Rattle.bpf_suite.specs.Tests.{setting};
ghost use Rattle.bpf_suite.specs.Verdicts.{passes, wrong_cells};

use crate::bench::{Bench, shares_program};
use crate::contexts::put_context;
use crate::kind::Part;
use crate::list::{Own, TestList};
use crate::outcome::put_outcome;
use crate::reading::{ReadTest, Reading};
use crate::refusal::Refusal;
use crate::shown::put_quoted;
use crate::values::{WrongCells, put_cells};
use crate::verdict::{lead, passes, put_expected};
use bpf_machine::Cpu;
use counted_io::{Counted, Piece, WriteFault, put, put_all};
use std::alloc::Global;
use std::io::Write;

/// Why tests aren't run to their end.
#[derive(Clone, Copy)]
pub enum SuiteFault {
    /// Memory ran out.
    Memory,
    /// A write failed.
    Write,
}

/// Writes how many tests there are.
pub fn write_plan<W: Write>(writer: &mut Counted<W>, tests: usize) -> Result<(), WriteFault>
    ensures { Writes W.contents writer.old writer.new result (plan tests) }
{
    let pieces = [
        Piece::Text(b"1.."),
        Piece::Decimal(tests as u64),
        Piece::Text(b"\n"),
    ];
    put_all(writer, Ok(()), &pieces)
}

/// Runs tests of a file, the first of which has a number, and reports on each. Answers whether all
/// passed. The report on a test that fails names the file.
pub fn run_tests<W: Write>(
    alloc: Global,
    file: &[u8],
    tests: &TestList<'_, '_>,
    first: u64,
    writer: &mut Counted<W>,
) -> Result<bool, SuiteFault>
    ensures ok { IfOk result (λ passed. (outcomes : List Outcome)
        × AreOutcomes tests.now outcomes
        × (passed ≡ all_pass tests.now outcomes)
        × Writes W.contents writer.old writer.new result
        (tests_text file.now first tests.now outcomes)) }
    ensures err { IfErr result (λ why.
        BreaksOff W.contents why writer.old writer.new [] file.now first tests.now) }
{
    match Bench::of(alloc, tests.shared) {
        Ok(bench) => run_each(alloc, file, tests.own.as_slice(), bench, first, writer),
        Err(_) => Err(SuiteFault::Memory),
    }
}

/// Runs tests by their own sections, the first of which has a number, and reports on each. Answers
/// whether all passed.
fn run_each<'b, 'a, W: Write>(
    alloc: Global,
    file: &[u8],
    own: &[Own<'b, 'a>],
    mut bench: Bench<'b, 'a>,
    first: u64,
    writer: &mut Counted<W>,
) -> Result<bool, SuiteFault>
    ensures ok { IfOk result (λ passed. let tests = with_shared bench.entry.sections own.now in
        (outcomes : List Outcome)
        × AreOutcomes tests outcomes
        × (passed ≡ all_pass tests outcomes)
        × Writes W.contents writer.old writer.new result
        (tests_text file.now first tests outcomes)) }
    ensures err { IfErr result (λ why. BreaksOff W.contents why writer.old writer.new []
        file.now first (with_shared bench.entry.sections own.now)) }
{
    let mut passed = true;
    let mut number = first;
    for sections in own {
        match report(alloc, file, sections, &mut bench, number, writer) {
            Ok(ok) => {
                passed = both(passed, ok);
                number = number.saturating_add(1);
            }
            Err(fault) => return Err(fault),
        }
    }
    Ok(passed)
}

fn both(one: bool, other: bool) -> bool
    ensures { result ≡ (one && other) }
{
    one && other
}

/// Runs the test with these sections of its own, and reports on it. Answers whether it passed.
fn report<'b, 'a, W: Write>(
    alloc: Global,
    file: &[u8],
    own: &Own<'b, 'a>,
    bench: &mut Bench<'b, 'a>,
    number: u64,
    writer: &mut Counted<W>,
) -> Result<bool, SuiteFault>
    ensures ok { IfOk result (λ passed. let test = own.now ++ bench.old.sections in
        (outcome : Outcome) × Comes (setting test) outcome
        × (passed ≡ passes test outcome)
        × Writes W.contents writer.old writer.new result
        (test_text file.now number test outcome)) }
    ensures err { IfErr result (λ why. BreaksAt W.contents why writer.old writer.new file.now number
        (own.now ++ bench.old.sections)) }
    ensures sections { bench.new.sections ≡ bench.old.sections }
{
    match Reading::of(alloc, own.sections) {
        Ok(read) => report_read(alloc, file, &read, bench, number, writer),
        Err(_) => Err(SuiteFault::Memory),
    }
}

/// The same, where its own sections are read.
fn report_read<'b, 'a, W: Write>(
    alloc: Global,
    file: &[u8],
    own: &Reading<'b, 'a>,
    bench: &mut Bench<'b, 'a>,
    number: u64,
    writer: &mut Counted<W>,
) -> Result<bool, SuiteFault>
    ensures ok { IfOk result (λ passed. let test = own.now ++ bench.old.sections in
        (outcome : Outcome) × Comes (setting test) outcome
        × (passed ≡ passes test outcome)
        × Writes W.contents writer.old writer.new result
        (test_text file.now number test outcome)) }
    ensures err { IfErr result (λ why. BreaksAt W.contents why writer.old writer.new file.now number
        (own.now ++ bench.old.sections)) }
    ensures sections { bench.new.sections ≡ bench.old.sections }
{
    if !shares_program(own.sections()) {
        return match bench.run_alone(alloc, own) {
            Ok(outcome) => tell(alloc, file, bench, own, &outcome, number, writer),
            Err(_) => Err(SuiteFault::Memory),
        };
    }
    match bench.run(alloc, own) {
        Ok(None) => tell_here(alloc, file, bench, own, number, writer),
        Ok(Some(refusal)) => tell(alloc, file, bench, own, &Err(refusal), number, writer),
        Err(_) => Err(SuiteFault::Memory),
    }
}

/// Reports on a test that came to what its machine came to. Answers whether it passed.
fn tell_here<'b, 'a, W: Write>(
    alloc: Global,
    file: &[u8],
    bench: &mut Bench<'b, 'a>,
    own: &Reading<'b, 'a>,
    number: u64,
    writer: &mut Counted<W>,
) -> Result<bool, SuiteFault>
    requires { Comes (setting (own.now ++ bench.old.sections)) bench.old.machine }
    ensures ok { IfOk result (λ passed. let test = own.now ++ bench.old.sections in
        (passed ≡ passes test bench.old.machine)
        × Writes W.contents writer.old writer.new result
        (test_text file.now number test bench.old.machine)) }
    ensures err { IfErr result (λ why. BreaksAt W.contents why writer.old writer.new file.now number
        (own.now ++ bench.old.sections)) }
    ensures sections { bench.new.sections ≡ bench.old.sections }
{
    match bench.wrong_here(alloc, own) {
        Ok(wrong) => {
            let test = bench.test(own);
            say(alloc, file, &test, bench.machine(), &wrong, number, writer)
        }
        Err(_) => Err(SuiteFault::Memory),
    }
}

/// Reports on a test that came to this. Answers whether it passed.
fn tell<'b, 'a, W: Write>(
    alloc: Global,
    file: &[u8],
    bench: &mut Bench<'b, 'a>,
    own: &Reading<'b, 'a>,
    outcome: &Result<Cpu, Refusal>,
    number: u64,
    writer: &mut Counted<W>,
) -> Result<bool, SuiteFault>
    requires { Comes (setting (own.now ++ bench.old.sections)) outcome.now }
    ensures ok { IfOk result (λ passed. let test = own.now ++ bench.old.sections in
        (passed ≡ passes test outcome.now)
        × Writes W.contents writer.old writer.new result
        (test_text file.now number test outcome.now)) }
    ensures err { IfErr result (λ why. BreaksAt W.contents why writer.old writer.new file.now number
        (own.now ++ bench.old.sections)) }
    ensures sections { bench.new.sections ≡ bench.old.sections }
{
    match bench.wrong_cells(alloc, own, outcome) {
        Ok(wrong) => {
            let test = bench.test(own);
            say(alloc, file, &test, outcome, &wrong, number, writer)
        }
        Err(_) => Err(SuiteFault::Memory),
    }
}

/// Says what a test came to, where it is known which cells are wrong. Answers whether it passed.
fn say<W: Write>(
    alloc: Global,
    file: &[u8],
    test: &ReadTest<'_, '_, '_>,
    outcome: &Result<Cpu, Refusal>,
    wrong: &WrongCells<'_>,
    number: u64,
    writer: &mut Counted<W>,
) -> Result<bool, SuiteFault>
    requires comes { Comes (setting test.now) outcome.now }
    requires wrong { AreTold (wrong_cells test.now outcome.now) wrong.now }
    ensures ok { IfOk result (λ passed. (passed ≡ passes test.now outcome.now)
        × Writes W.contents writer.old writer.new result
        (test_text file.now number test.now outcome.now)) }
    ensures err { IfErr result (λ why. BreaksAt W.contents why writer.old writer.new file.now number
        test.now) }
{
    let passed = match passes(alloc, test, outcome, wrong) {
        Ok(passed) => passed,
        Err(_) => return Err(SuiteFault::Memory),
    };
    match write_test(writer, file, passed, number, test, outcome, wrong) {
        Ok(()) => Ok(passed),
        Err(WriteFault) => Err(SuiteFault::Write),
    }
}

/// Writes the lines of a test.
fn write_test<W: Write>(
    writer: &mut Counted<W>,
    file: &[u8],
    passed: bool,
    number: u64,
    test: &ReadTest<'_, '_, '_>,
    outcome: &Result<Cpu, Refusal>,
    wrong: &WrongCells<'_>,
) -> Result<(), WriteFault>
    requires { AreTold (wrong_cells test.now outcome.now) wrong.now }
    ensures { Writes W.contents writer.old writer.new result
        (report_text file.now passed number test.now outcome.now) }
{
    let word = verdict_word(passed);
    let title = test.sections().title();
    let dash = lead(b" - ", title);
    let pieces = [
        Piece::Text(word),
        Piece::Decimal(number),
        Piece::Text(dash),
        Piece::Text(title),
        Piece::Text(b"\n"),
    ];
    let told = put_all(writer, Ok(()), &pieces);
    if passed {
        told
    } else {
        put_diagnosis(writer, told, file, test, outcome, wrong)
    }
}

/// The word of a verdict.
fn verdict_word(passed: bool) -> &'static [u8]
    ensures { result.now ≡ verdict_word passed }
{
    if passed { b"ok " } else { b"not ok " }
}

/// Writes what came of a test, what was wanted, which byte and cells are wrong, and how it is
/// debugged.
fn put_diagnosis<W: Write>(
    writer: &mut Counted<W>,
    so_far: Result<(), WriteFault>,
    file: &[u8],
    test: &ReadTest<'_, '_, '_>,
    outcome: &Result<Cpu, Refusal>,
    wrong: &WrongCells<'_>,
) -> Result<(), WriteFault>
    requires { AreTold (wrong_cells test.now outcome.now) wrong.now }
    ensures { WritesAfter W.contents writer.old so_far writer.new result
        (diagnosis file.now test.now outcome.now) }
{
    let sections = test.sections();
    let line = sections.first_line() as u64;
    let pieces = [
        Piece::Text(b"# the test in line "),
        Piece::Decimal(line),
        Piece::Text(b"\n# came: "),
    ];
    let begun = put_all(writer, so_far, &pieces);
    let told = put_outcome(writer, begun, outcome);
    let followed = put(writer, told, b"\n# wanted: ");
    let said = put_wanted(writer, followed, test);
    let left = put_context(writer, said, test, outcome);
    let celled = put_cells(writer, left, outcome, wrong);
    put_show_line(writer, celled, file, sections.title())
}

/// Writes the line to be typed that makes files of a test's parts, by its name and its file's.
fn put_show_line<W: Write>(
    writer: &mut Counted<W>,
    so_far: Result<(), WriteFault>,
    file: &[u8],
    title: &[u8],
) -> Result<(), WriteFault>
    ensures { WritesAfter W.contents writer.old so_far writer.new result
        (show_line file.now title.now) }
{
    let begun = put(writer, so_far, b"# debug: bpfdb-show ");
    let named = put_quoted(writer, begun, title);
    let parted = put(writer, named, b" ");
    let filed = put_quoted(writer, parted, file);
    put(writer, filed, b"\n")
}

/// Writes what is wanted of a test.
fn put_wanted<W: Write>(
    writer: &mut Counted<W>,
    so_far: Result<(), WriteFault>,
    test: &ReadTest<'_, '_, '_>,
) -> Result<(), WriteFault>
    ensures { WritesAfter W.contents writer.old so_far writer.new result (wanted test.now) }
{
    let begun = put_wanted_outcome(writer, so_far, test);
    let sections = test.sections();
    let context = also(sections.has(Part::After), b", and mem-after");
    let cells = also(sections.has(Part::CellsAfter), b", and map-after");
    let pieces = [Piece::Text(context), Piece::Text(cells), Piece::Text(b"\n")];
    put_all(writer, begun, &pieces)
}

/// Writes which outcome is wanted of a test.
fn put_wanted_outcome<W: Write>(
    writer: &mut Counted<W>,
    so_far: Result<(), WriteFault>,
    test: &ReadTest<'_, '_, '_>,
) -> Result<(), WriteFault>
    ensures { WritesAfter W.contents writer.old so_far writer.new result
        (wanted_outcome test.now) }
{
    match test.expected() {
        Some(expected) => put_expected(writer, so_far, expected),
        None => put(writer, so_far, b""),
    }
}

/// A text, or nothing.
fn also(has: bool, text: &[u8]) -> &[u8]
    ensures { result.now ≡ also has text.now }
{
    if has { text } else { b"" }
}
