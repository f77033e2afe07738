//! Two runs, compared by what they leave for one who looks from outside.
ghost use Rattle.std.specs.Prelude.{◌≡◌, ◌≤◌, ◌&&◌, ◌++◌, IfErr, IfOk, None, codes, false};
ghost use Rattle.bpf_entries.specs.Status.{has_ended};
ghost use Rattle.bpf_session.specs.Plain.{plain_end};
ghost use Rattle.bpf_trace.specs.Runs.{steps_of};
ghost use Rattle.bpf_trace.specs.Traces.{end_line};
ghost use Rattle.bpf_diff.specs.Differences.{ends_text};
ghost use Rattle.bpf_diff.specs.Ends.{same_status as same_status_of};
ghost use Rattle.bpf_diff.specs.Outputs as spec;
ghost use Rattle.bpf_diff.specs.Outputs.{writer_line};
ghost use Rattle.bpf_diff.specs.Starts.{Starts};
ghost use Rattle.bpf_diff.specs.Values.{Finds, by_writes};
ghost use Rattle.counted_io.specs.Writing.{WritesAfter};

use crate::diff::Compared;
use crate::end::same_status;
use crate::lines::put_ends;
use crate::seen::{first_place, seen};
use crate::start::Runs;
use crate::texts::BothTexts;
use crate::values::value_left;
use crate::writer::{find_writer, put_writer};
use bpf_machine::Cpu;
use bpf_origin::Place;
use counted_io::{Counted, Piece, WriteFault, put, put_all, put_hexadecimal};
use std::alloc::{AllocError, Global};
use std::io::Write;

/// A place at which two runs ended otherwise: what stands there in each, and the number of the step
/// of each that wrote it last, 0 for none.
#[derive(Clone, Copy)]
struct Difference {
    place: Place,
    values: (Option<u64>, Option<u64>),
    writers: (u64, u64),
}

/// Runs two machines, which stand where they were opened so, each to its end or to a limit of steps, and
/// writes the first place that is seen from outside at which they ended otherwise, which step of each
/// wrote it last, with what is told of its slot, and how they ended. If memory runs out, nothing is
/// written.
///
/// Nothing is kept of the steps: where they end otherwise, each machine is opened and run twice more.
pub fn put_writes<W: Write>(
    alloc: Global,
    writer: &mut Counted<W>,
    so_far: Result<(), WriteFault>,
    texts: BothTexts<'_>,
    first: &mut Cpu,
    second: &mut Cpu,
    runs: &Runs<'_>,
) -> Result<Compared, AllocError>
    requires first { Starts runs.now.first first.old }
    requires second { Starts runs.now.second second.old }
    ensures text { IfOk result (λ compared. WritesAfter W.contents writer.old so_far writer.new
        compared.written
        (by_writes texts.entry runs.now.limit runs.now.first.context.now runs.now.second.context.now
        first.old second.old).text) }
    ensures finds { IfOk result (λ compared. Finds compared
        (by_writes texts.entry runs.now.limit runs.now.first.context.now runs.now.second.context.now
        first.old second.old)) }
    ensures programs { IfOk result (λ compared. (first.new.program ≡ first.old.program)
        × (second.new.program ≡ second.old.program)) }
    ensures err { IfErr result (λ fault. writer.new ≡ writer.old) }
{
    let limit = runs.limit;
    let _one = first.run(limit);
    let _another = second.run(limit);
    let place = match first_place(first, second, runs.first.context, runs.second.context) {
        Some(place) => place,
        None => return Ok(put_same(writer, so_far, first, second, limit)),
    };
    let value = seen(first, place);
    let other_value = seen(second, place);
    let one = match find_writer(alloc, first, &runs.first, place, limit) {
        Ok(number) => number,
        Err(fault) => return Err(fault),
    };
    let another = match find_writer(alloc, second, &runs.second, place, limit) {
        Ok(number) => number,
        Err(why) => return Err(why),
    };
    let difference = Difference {
        place,
        values: (value, other_value),
        writers: (one, another),
    };
    let left = value_left(place, value, one);
    let other_left = value_left(place, other_value, another);
    Ok(Compared {
        written: put_difference(writer, so_far, texts, first, second, &difference, limit),
        is_same: false,
        values: Some((left, other_left)),
    })
}

/// Writes that two machines, which ended, left the same, and how they ended.
fn put_same<W: Write>(
    writer: &mut Counted<W>,
    so_far: Result<(), WriteFault>,
    first: &Cpu,
    second: &Cpu,
    limit: u64,
) -> Compared
    ensures text { WritesAfter W.contents writer.old so_far writer.new result.written
        (codes "same writes\n"
        ++ ends_text false 0 (end_line limit first.now) (end_line limit second.now)) }
    ensures same { result.is_same ≡ same_status_of first.now.status second.now.status
        && has_ended first.now.status }
    ensures values { result.values ≡ None }
{
    let told = put(writer, so_far, b"same writes\n");
    Compared {
        written: put_ends(writer, told, false, 0, limit, first, second),
        is_same: end_alike(first, second),
        values: None,
    }
}

/// Whether two machines ended by one reason.
fn end_alike(first: &Cpu, second: &Cpu) -> bool
    ensures { result ≡ same_status_of first.now.status second.now.status
        && has_ended first.now.status }
{
    same_status(first.status(), second.status()) && first.status().has_ended()
}

/// Writes the place at which two runs ended otherwise, the step of each that wrote it last, and how
/// they ended. Both machines stand before their first step, and are run.
fn put_difference<W: Write>(
    writer: &mut Counted<W>,
    so_far: Result<(), WriteFault>,
    texts: BothTexts<'_>,
    first: &mut Cpu,
    second: &mut Cpu,
    difference: &Difference,
    limit: u64,
) -> Result<(), WriteFault>
    requires first { difference.now.writers.0 ≤ limit }
    requires second { difference.now.writers.1 ≤ limit }
    ensures programs { (first.new.program ≡ first.old.program) × (second.new.program ≡ second.old.program) }
    ensures text { WritesAfter W.contents writer.old so_far writer.new result
        ((spec.place_line difference.now.place difference.now.values.0 difference.now.values.1
        ++ (writer_line (codes "< ") texts.entry.first difference.now.writers.0 (steps_of limit first.old)
        ++ writer_line (codes "> ") texts.entry.second difference.now.writers.1 (steps_of limit second.old)))
        ++ ends_text false 0 (end_line limit (plain_end limit first.old))
        (end_line limit (plain_end limit second.old))) }
{
    let headed = put_place(writer, so_far, difference.place, difference.values);
    let (number, other) = difference.writers;
    let one = put_writer(writer, headed, b"< ", texts.first, number, first, limit);
    let both = put_writer(writer, one, b"> ", texts.second, other, second, limit);
    put_ends(writer, both, false, 0, limit, first, second)
}

/// Writes a place, and what stands there in each run.
fn put_place<W: Write>(
    writer: &mut Counted<W>,
    so_far: Result<(), WriteFault>,
    place: Place,
    values: (Option<u64>, Option<u64>),
) -> Result<(), WriteFault>
    ensures { WritesAfter W.contents writer.old so_far writer.new result
        (spec.place_line place values.0 values.1) }
{
    let named = put_name(writer, so_far, place);
    let begun = put(writer, named, b" ends otherwise: ");
    let one = put_value(writer, begun, values.0);
    let half = put(writer, one, b", ");
    let both = put_value(writer, half, values.1);
    put(writer, both, b"\n")
}

/// Writes the name of a place.
fn put_name<W: Write>(
    writer: &mut Counted<W>,
    so_far: Result<(), WriteFault>,
    place: Place,
) -> Result<(), WriteFault>
    ensures { WritesAfter W.contents writer.old so_far writer.new result (spec.place_text place) }
{
    match place {
        Place::Register { .. } => put(writer, so_far, b"r0"),
        Place::Word { index } => {
            let pieces = [Piece::Text(b"word "), Piece::Decimal(index as u64)];
            put_all(writer, so_far, &pieces)
        }
        Place::Byte { address } => {
            let pieces = [Piece::Hexadecimal(address), Piece::Text(b":1")];
            put_all(writer, so_far, &pieces)
        }
    }
}

/// Writes what stands at a place.
fn put_value<W: Write>(
    writer: &mut Counted<W>,
    so_far: Result<(), WriteFault>,
    value: Option<u64>,
) -> Result<(), WriteFault>
    ensures { WritesAfter W.contents writer.old so_far writer.new result (spec.value_text value) }
{
    match value {
        Some(number) => put_hexadecimal(writer, so_far, number),
        None => put(writer, so_far, b"none"),
    }
}
