//! The line of a call.
ghost use Rattle.std.specs.Prelude.{◌≡◌, ◌≤◌, ◌*◌, ◌++◌, codes, length};
ghost use Rattle.hex.specs.Hex.{encode_lower};
ghost use Rattle.bpf_steps.specs.Regions.{is_from_frame};
ghost use Rattle.bpf_trace.specs.Calls as spec;
ghost use Rattle.counted_io.specs.Writing.{WritesAfter};

use crate::calls::{Called, Callee};
use crate::prototypes::count_of;
use bpf_entries::frame_base;
use bpf_isa::Helper;
use bpf_machine::Cpu;
use bpfdb_script::{number_in, text_of_slot};
use counted_io::{Counted, Piece, WriteFault, put, put_all, put_decimal, put_hexadecimal};
use hex::encode_to_slice;
use std::io::Write;

/// Writes how the line of a call begins, which the step of this number makes.
pub fn put_call<W: Write>(
    writer: &mut Counted<W>,
    so_far: Result<(), WriteFault>,
    called: &Called<'_>,
    number: u64,
    cpu: &Cpu,
    callee: Callee,
) -> Result<(), WriteFault>
    ensures { WritesAfter W.contents writer.old so_far writer.new result
        (spec.call_text called.now number cpu.now callee) }
{
    let counted = put_decimal(writer, so_far, number);
    let parted = put(writer, counted, b" ");
    let placed = put_decimal(writer, parted, u64::from(cpu.pc()));
    let begun = put(writer, placed, b": ");
    let named = put_name(writer, begun, called, callee);
    let opened = put(writer, named, b"(");
    let told = put_arguments(writer, opened, cpu, taken_by(called, callee));
    put(writer, told, b")")
}

/// Writes the name of what is called.
fn put_name<W: Write>(
    writer: &mut Counted<W>,
    so_far: Result<(), WriteFault>,
    called: &Called<'_>,
    callee: Callee,
) -> Result<(), WriteFault>
    ensures { WritesAfter W.contents writer.old so_far writer.new result
        (spec.name_of called.now callee) }
{
    match callee {
        Callee::Helper(helper) => put(writer, so_far, helper_name(helper)),
        Callee::Function(to) => {
            let name = text_of_slot(called.names, to);
            if name.is_empty() {
                let text = [Piece::Text(b"L"), Piece::Decimal(to as u64)];
                put_all(writer, so_far, &text)
            } else {
                put(writer, so_far, name)
            }
        }
    }
}

/// The name of a helper.
fn helper_name(helper: Helper) -> &'static [u8]
    ensures { result.now ≡ spec.helper_name helper }
{
    match helper {
        Helper::Lookup => b"bpf_map_lookup_elem",
        Helper::Update => b"bpf_map_update_elem",
        Helper::Trace => b"trace",
    }
}

/// How many arguments a call has.
fn taken_by(called: &Called<'_>, callee: Callee) -> u8
    ensures { result ≡ spec.taken_by called.now callee }
{
    match callee {
        Callee::Helper(Helper::Lookup) => 2,
        Callee::Helper(Helper::Update) => 4,
        Callee::Helper(Helper::Trace) => 1,
        Callee::Function(to) => count_of(text_of_slot(called.names, to)),
    }
}

/// Writes so many arguments, with commas between.
fn put_arguments<W: Write>(
    writer: &mut Counted<W>,
    so_far: Result<(), WriteFault>,
    cpu: &Cpu,
    count: u8,
) -> Result<(), WriteFault>
    ensures { WritesAfter W.contents writer.old so_far writer.new result
        (spec.arguments_text cpu.now count) }
{
    let first = put_argument_if(writer, so_far, cpu, count, 1);
    let second = put_argument_if(writer, first, cpu, count, 2);
    let third = put_argument_if(writer, second, cpu, count, 3);
    let fourth = put_argument_if(writer, third, cpu, count, 4);
    put_argument_if(writer, fourth, cpu, count, 5)
}

/// Writes the argument of a number, if there are so many.
fn put_argument_if<W: Write>(
    writer: &mut Counted<W>,
    so_far: Result<(), WriteFault>,
    cpu: &Cpu,
    count: u8,
    number: u8,
) -> Result<(), WriteFault>
    requires { number ≤ 5 }
    ensures { WritesAfter W.contents writer.old so_far writer.new result
        (spec.argument_if cpu.now count number) }
{
    if count < number {
        so_far
    } else {
        put_argument(writer, so_far, cpu, number)
    }
}

/// Writes the argument of a number, behind a comma unless it is the first.
fn put_argument<W: Write>(
    writer: &mut Counted<W>,
    so_far: Result<(), WriteFault>,
    cpu: &Cpu,
    number: u8,
) -> Result<(), WriteFault>
    requires { number ≤ 5 }
    ensures { WritesAfter W.contents writer.old so_far writer.new result
        (spec.argument_text cpu.now number) }
{
    let value = number_in(cpu, number);
    let parted = put_comma(writer, so_far, number);
    let told = put_hexadecimal(writer, parted, value);
    put_behind(writer, told, cpu, value)
}

/// Writes what parts an argument from those before it.
fn put_comma<W: Write>(
    writer: &mut Counted<W>,
    so_far: Result<(), WriteFault>,
    number: u8,
) -> Result<(), WriteFault>
    ensures { WritesAfter W.contents writer.old so_far writer.new result (spec.comma number) }
{
    if number == 1 {
        so_far
    } else {
        put(writer, so_far, b", ")
    }
}

/// Whether an address is one of the stack.
fn is_of_stack(address: u64) -> bool
    ensures { result ≡ is_from_frame 0 address }
{
    frame_base(0) <= address && address < frame_base(8)
}

/// Writes the bytes behind an argument, if it is an address in the stack.
fn put_behind<W: Write>(
    writer: &mut Counted<W>,
    so_far: Result<(), WriteFault>,
    cpu: &Cpu,
    address: u64,
) -> Result<(), WriteFault>
    ensures { WritesAfter W.contents writer.old so_far writer.new result
        (spec.behind_text cpu.now address) }
{
    if !is_of_stack(address) {
        return so_far;
    }
    match cpu.peek(address, 8) {
        Some(run) => put_run(writer, so_far, run, &mut [0; 16]),
        None => match cpu.peek(address, 4) {
            Some(run) => put_run(writer, so_far, run, &mut [0; 8]),
            None => so_far,
        },
    }
}

/// Writes bytes of memory, by a buffer of as many digits.
fn put_run<W: Write>(
    writer: &mut Counted<W>,
    so_far: Result<(), WriteFault>,
    run: &[u8],
    digits: &mut [u8],
) -> Result<(), WriteFault>
    requires { length digits.old ≡ 2 * length run.now }
    ensures { WritesAfter W.contents writer.old so_far writer.new result
        (codes "=" ++ encode_lower run.now) }
{
    match encode_to_slice(run, digits) {
        Ok(()) => {
            let text = [Piece::Text(b"="), Piece::Text(digits)];
            put_all(writer, so_far, &text)
        }
        Err(_) => unreachable!(),
    }
}

/// Ends the line of a call: what it returned, if it did, and what is told of its slot.
pub fn put_return<W: Write>(
    writer: &mut Counted<W>,
    so_far: Result<(), WriteFault>,
    called: &Called<'_>,
    slot: usize,
    value: Option<u64>,
) -> Result<(), WriteFault>
    ensures { WritesAfter W.contents writer.old so_far writer.new result
        (spec.return_text called.now slot value) }
{
    let told = put_result(writer, so_far, value);
    let placed = put(writer, told, text_of_slot(called.places, slot));
    put(writer, placed, b"\n")
}

/// Writes what a call returned, if it did.
fn put_result<W: Write>(
    writer: &mut Counted<W>,
    so_far: Result<(), WriteFault>,
    value: Option<u64>,
) -> Result<(), WriteFault>
    ensures { WritesAfter W.contents writer.old so_far writer.new result
        (spec.result_text value) }
{
    match value {
        Some(value) => {
            let text = [Piece::Text(b" = "), Piece::Hexadecimal(value)];
            put_all(writer, so_far, &text)
        }
        None => put(writer, so_far, b" = no return"),
    }
}
