//! Whether a test passes.
ghost use Rattle.std.specs.Prelude.{◌≡◌, ◌||◌, IfOk, false};
ghost use Rattle.std.specs.Option.{option_map_or};
ghost use Rattle.counted_io.specs.Writing.{WritesAfter};
ghost use Rattle.bpf_suite.specs.Outcomes.{outcome_text};
ghost use Rattle.bpf_suite.specs.Reports.{AreTold};
ghost use Rattle.bpf_suite.specs.Verdicts.{cells_left, context_after, expected_text, fault_text, has_exited, is_left, is_met, is_stop, kind_of_fault, lead, leaves, meets, passes, results, tells, tells_fault, tells_kind, tells_outcome, wrong_cells};

use crate::body::fits;
use crate::expected::Expectation;
use crate::kind::{Kind, Part};
use crate::outcome::put_outcome;
use crate::reading::ReadTest;
use crate::refusal::Refusal;
use crate::values::WrongCells;
use bpf_machine::{Cpu, Fault, Status};
use bpfdb_script::number_in;
use counted_io::{Counted, Piece, WriteFault, put_all};
use std::alloc::{AllocError, Global};
use std::io::Write;

/// The address of the context's first byte.
pub const CONTEXT_BASE: u64 = 0x1_0000_0000;

/// Whether a test passes with this outcome, where it is known which cells are wrong.
pub fn passes(
    alloc: Global,
    test: &ReadTest<'_, '_, '_>,
    outcome: &Result<Cpu, Refusal>,
    wrong: &WrongCells<'_>,
) -> Result<bool, AllocError>
    requires { AreTold (wrong_cells test.now outcome.now) wrong.now }
    ensures { IfOk result (λ passed. passed ≡ passes test.now outcome.now) }
{
    let met = is_met(alloc, test, outcome)?;
    let left = is_left(test, outcome);
    Ok(met && left && cells_left(test, outcome, wrong))
}

/// Whether no cell is wrong, of these.
fn cells_left(
    test: &ReadTest<'_, '_, '_>,
    outcome: &Result<Cpu, Refusal>,
    wrong: &WrongCells<'_>,
) -> bool
    requires { AreTold (wrong_cells test.now outcome.now) wrong.now }
    ensures { result ≡ cells_left test.now outcome.now }
{
    match outcome {
        Ok(_) => wrong.told.is_empty(),
        Err(_) => !test.sections().has(Part::CellsAfter),
    }
}

/// Whether an outcome is what a test expects.
fn is_met(
    alloc: Global,
    test: &ReadTest<'_, '_, '_>,
    outcome: &Result<Cpu, Refusal>,
) -> Result<bool, AllocError>
    ensures { IfOk result (λ met. met ≡ is_met test.now outcome.now) }
{
    match test.expected() {
        Some(expected) => meets(alloc, expected, outcome),
        None => Ok(false),
    }
}

/// Whether the context that is left is what a test expects.
fn is_left(test: &ReadTest<'_, '_, '_>, outcome: &Result<Cpu, Refusal>) -> bool
    ensures { result ≡ is_left test.now outcome.now }
{
    match test.sections().section(Part::After) {
        Some(_) => {
            let digits = test.place(Part::After).digits();
            let context = test.place(Part::Context).context();
            leaves(digits, context.len(), outcome)
        }
        None => true,
    }
}

/// Whether the context that is left, of n bytes, fits the digits of a pattern.
fn leaves(digits: &[u8], n: usize, outcome: &Result<Cpu, Refusal>) -> bool
    ensures { result ≡ leaves digits.now n outcome.now }
{
    let cpu = match outcome {
        Ok(cpu) => cpu,
        Err(_) => return false,
    };
    fits(digits, context_after(n, cpu))
}

/// The bytes of a context of n bytes, where the program has ended.
pub fn context_after(n: usize, cpu: &Cpu) -> &[u8]
    ensures { result.now ≡ context_after n cpu.now }
{
    if n == 0 {
        return &[];
    }
    match cpu.peek(CONTEXT_BASE, n) {
        Some(run) => run,
        None => &[],
    }
}

/// Whether an outcome is what is expected.
fn meets(
    alloc: Global,
    expected: &Expectation<'_>,
    outcome: &Result<Cpu, Refusal>,
) -> Result<bool, AllocError>
    ensures { IfOk result (λ met. met ≡ meets expected.now outcome.now) }
{
    match expected.kind {
        Kind::Result => Ok(meets_number(expected.number, outcome)),
        Kind::Fault => meets_fault(alloc, expected, outcome),
        _ => tells_outcome(alloc, expected, outcome),
    }
}

/// Whether an outcome is printed as is expected.
fn tells_outcome(
    alloc: Global,
    expected: &Expectation<'_>,
    outcome: &Result<Cpu, Refusal>,
) -> Result<bool, AllocError>
    ensures { IfOk result (λ told. told ≡ tells_outcome expected.now outcome.now) }
{
    let text = expected_text(alloc, expected)?;
    let told = outcome_text(alloc, outcome)?;
    Ok(tells(text.as_slice(), told.as_slice()))
}

/// Whether an outcome is the fault that is expected, or one of its kind, or any where none is said.
fn meets_fault(
    alloc: Global,
    expected: &Expectation<'_>,
    outcome: &Result<Cpu, Refusal>,
) -> Result<bool, AllocError>
    ensures { IfOk result (λ met. met ≡ (tells_outcome expected.now outcome.now
        || tells_kind (expected_text expected.now) outcome.now)) }
{
    if tells_outcome(alloc, expected, outcome)? {
        return Ok(true);
    }
    match outcome {
        Ok(cpu) => {
            let text = expected_text(alloc, expected)?;
            tells_fault(alloc, text.as_slice(), cpu.status(), cpu.pc())
        }
        Err(_) => Ok(false),
    }
}

/// Whether a text tells of the fault at a slot by its kind alone, or of any.
fn tells_fault(alloc: Global, text: &[u8], status: Status, pc: u16) -> Result<bool, AllocError>
    ensures { IfOk result (λ told. told ≡ tells_fault text.now status pc) }
{
    match status {
        Status::Faulted(fault) => {
            let named = fault_text(alloc, kind_of_fault(fault), pc)?;
            if tells(text, named.as_slice()) {
                return Ok(true);
            }
            let any = fault_text(alloc, b"", pc)?;
            Ok(tells(text, any.as_slice()))
        }
        Status::Running | Status::Exited => Ok(false),
    }
}

/// A fault's kind, as it is printed.
fn kind_of_fault(fault: Fault) -> &'static [u8]
    ensures { result.now ≡ kind_of_fault fault }
{
    match fault {
        Fault::Access { .. } => b" access",
        Fault::Token { .. } => b" token",
        Fault::Depth => b" depth",
    }
}

/// A fault as it is printed, with this in place of its kind and its number.
fn fault_text(alloc: Global, middle: &[u8], pc: u16) -> Result<Vec<u8>, AllocError>
    ensures { IfOk result (λ text. text.items ≡ fault_text middle.now pc) }
{
    let mut writer = Counted::new(Vec::new(alloc));
    match put_fault(&mut writer, Ok(()), middle, pc) {
        Ok(()) => Ok(writer.into_inner()),
        Err(WriteFault) => Err(AllocError),
    }
}

/// Writes a fault as it is printed, with this in place of its kind and its number.
fn put_fault<W: Write>(
    writer: &mut Counted<W>,
    so_far: Result<(), WriteFault>,
    middle: &[u8],
    pc: u16,
) -> Result<(), WriteFault>
    ensures { WritesAfter W.contents writer.old so_far writer.new result
        (fault_text middle.now pc) }
{
    let slot = u64::from(pc);
    let pieces = [
        Piece::Text(b"fault"),
        Piece::Text(middle),
        Piece::Text(b" at "),
        Piece::Decimal(slot),
    ];
    put_all(writer, so_far, &pieces)
}

/// Whether a program exited with a number, if there is one.
fn meets_number(number: Option<u64>, outcome: &Result<Cpu, Refusal>) -> bool
    ensures { result ≡ option_map_or (λ n. results n outcome.now) number false }
{
    match number {
        Some(number) => results(number, outcome),
        None => false,
    }
}

/// Whether a program exited with a number.
fn results(number: u64, outcome: &Result<Cpu, Refusal>) -> bool
    ensures { result ≡ results number outcome.now }
{
    match outcome {
        Ok(cpu) => has_exited(cpu) && number_in(cpu, 0) == number,
        Err(_) => false,
    }
}

fn has_exited(cpu: &Cpu) -> bool
    ensures { result ≡ has_exited cpu.now.status }
{
    matches!(cpu.status(), Status::Exited)
}

/// Whether a text is printed, with or without a place and a text behind it.
fn tells(text: &[u8], told: &[u8]) -> bool
    ensures { result ≡ tells text.now told.now }
{
    told.starts_with(text) && is_stop(&told[text.len()..])
}

/// Whether a place or a text follows, or nothing.
fn is_stop(rest: &[u8]) -> bool
    ensures { result ≡ is_stop rest.now }
{
    match rest {
        [] => true,
        _ => rest.starts_with(b" at ") || rest.starts_with(b": "),
    }
}

/// An outcome as it is printed.
fn outcome_text(alloc: Global, outcome: &Result<Cpu, Refusal>) -> Result<Vec<u8>, AllocError>
    ensures { IfOk result (λ text. text.items ≡ outcome_text outcome.now) }
{
    let mut writer = Counted::new(Vec::new(alloc));
    match put_outcome(&mut writer, Ok(()), outcome) {
        Ok(()) => Ok(writer.into_inner()),
        Err(WriteFault) => Err(AllocError),
    }
}

/// What is expected, as it is printed.
fn expected_text(alloc: Global, expected: &Expectation<'_>) -> Result<Vec<u8>, AllocError>
    ensures { IfOk result (λ text. text.items ≡ expected_text expected.now) }
{
    let mut writer = Counted::new(Vec::new(alloc));
    match put_expected(&mut writer, Ok(()), expected) {
        Ok(()) => Ok(writer.into_inner()),
        Err(WriteFault) => Err(AllocError),
    }
}

/// Writes what is expected: its word, and what stands in its section.
pub fn put_expected<W: Write>(
    writer: &mut Counted<W>,
    so_far: Result<(), WriteFault>,
    expected: &Expectation<'_>,
) -> Result<(), WriteFault>
    ensures { WritesAfter W.contents writer.old so_far writer.new result
        (expected_text expected.now) }
{
    let word = expected.kind.word().as_bytes();
    let text = expected.bytes();
    let blank = lead(b" ", text);
    let pieces = [Piece::Text(word), Piece::Text(blank), Piece::Text(text)];
    put_all(writer, so_far, &pieces)
}

/// What stands in front of a text, unless that is empty.
pub fn lead<'a>(front: &'a [u8], text: &[u8]) -> &'a [u8]
    ensures { result.now ≡ lead front.now text.now }
{
    match text {
        [] => b"",
        _ => front,
    }
}
