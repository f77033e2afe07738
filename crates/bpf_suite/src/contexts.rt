//! What is said of a context that isn't left as a test wants it.
ghost use Rattle.std.specs.Prelude.{◌≡◌, ◌≤◌, ◌<◌, ◌*◌, ◌^◌, Ok, length};
ghost use Rattle.counted_io.specs.Writing.{WritesAfter};
ghost use Rattle.bpf_suite.specs.Contexts.{byte_came, byte_line, byte_text, byte_wanted, context_text, fitting, length_text, unfit_text};

use crate::body::{fits, fits_byte};
use crate::kind::Part;
use crate::reading::ReadTest;
use crate::refusal::Refusal;
use crate::verdict::{CONTEXT_BASE, context_after};
use bpf_machine::Cpu;
use counted_io::{Counted, Piece, WriteFault, put, put_all};
use hex::encode_to_slice;
use std::io::Write;

/// How many bytes fit a pattern in front of the first that doesn't.
fn fitting(digits: &[u8], bytes: &[u8]) -> usize
    ensures value { result ≡ fitting digits.now bytes.now }
    ensures within { result ≤ length bytes.now }
    ensures long { 2 * result ≤ length digits.now }
{
    let mut rest = digits;
    let mut count = 0;
    for byte in bytes {
        if fits_byte(rest, *byte) {
            rest = &rest[2..];
            count += 1;
        } else {
            return count;
        }
    }
    count
}

/// The first byte of a pattern.
fn byte_wanted(digits: &[u8]) -> &[u8]
    ensures { result.now ≡ byte_wanted digits.now }
{
    match digits {
        [] => b"none",
        [_] => digits,
        _ => &digits[..2],
    }
}

/// Writes a byte and its address.
fn put_byte_line<W: Write>(
    writer: &mut Counted<W>,
    so_far: Result<(), WriteFault>,
    address: u64,
    byte: u8,
) -> Result<(), WriteFault>
    ensures { WritesAfter W.contents writer.old so_far writer.new result
        (byte_line address byte) }
{
    let mut digits = [0; 2];
    match encode_to_slice([byte], &mut digits) {
        Ok(()) => {
            let line = [
                Piece::Hexadecimal(address),
                Piece::Text(b": "),
                Piece::Text(&digits),
                Piece::Text(b"\n"),
            ];
            put_all(writer, so_far, &line)
        }
        Err(_) => unreachable!(),
    }
}

/// Writes the first of the bytes from a place of the context on.
fn put_byte_came<W: Write>(
    writer: &mut Counted<W>,
    so_far: Result<(), WriteFault>,
    place: u64,
    bytes: &[u8],
) -> Result<(), WriteFault>
    requires { place < 2 ^ 63 }
    ensures { WritesAfter W.contents writer.old so_far writer.new result
        (byte_came place bytes.now) }
{
    match bytes {
        [byte, ..] => put_byte_line(writer, so_far, CONTEXT_BASE + place, *byte),
        [] => put(writer, so_far, b"none\n"),
    }
}

/// Writes what is said of the byte at a place.
fn put_byte<W: Write>(
    writer: &mut Counted<W>,
    so_far: Result<(), WriteFault>,
    digits: &[u8],
    bytes: &[u8],
    place: usize,
) -> Result<(), WriteFault>
    requires { (place ≤ length bytes.now) × (2 * place ≤ length digits.now) }
    ensures { WritesAfter W.contents writer.old so_far writer.new result
        (byte_text digits.now bytes.now place) }
{
    let number = place as u64;
    let came = [
        Piece::Text(b"# byte "),
        Piece::Decimal(number),
        Piece::Text(b" came: "),
    ];
    let begun = put_all(writer, so_far, &came);
    let told = put_byte_came(writer, begun, number, &bytes[place..]);
    let pattern = byte_wanted(&digits[2 * place..]);
    let wanted = [
        Piece::Text(b"# byte "),
        Piece::Decimal(number),
        Piece::Text(b" wanted: "),
        Piece::Text(pattern),
        Piece::Text(b"\n"),
    ];
    put_all(writer, told, &wanted)
}

/// Writes how many bytes there are, and how many are wanted, unless they are as many.
fn put_length<W: Write>(
    writer: &mut Counted<W>,
    so_far: Result<(), WriteFault>,
    came: usize,
    wanted: usize,
) -> Result<(), WriteFault>
    ensures { WritesAfter W.contents writer.old so_far writer.new result
        (length_text came wanted) }
{
    if came == wanted {
        return put(writer, so_far, b"");
    }
    let pieces = [
        Piece::Text(b"# bytes of the context: "),
        Piece::Decimal(came as u64),
        Piece::Text(b", of mem-after: "),
        Piece::Decimal(wanted as u64),
        Piece::Text(b"\n"),
    ];
    put_all(writer, so_far, &pieces)
}

/// Writes what is said of bytes that don't fit a pattern.
fn put_unfit<W: Write>(
    writer: &mut Counted<W>,
    so_far: Result<(), WriteFault>,
    digits: &[u8],
    bytes: &[u8],
) -> Result<(), WriteFault>
    ensures { WritesAfter W.contents writer.old so_far writer.new result
        (unfit_text digits.now bytes.now) }
{
    if fits(digits, bytes) {
        return put(writer, so_far, b"");
    }
    let place = fitting(digits, bytes);
    let told = put_byte(writer, so_far, digits, bytes, place);
    put_length(writer, told, bytes.len(), digits.len() / 2)
}

/// Writes what is said of the context where a test's program has ended on a machine.
fn put_left<W: Write>(
    writer: &mut Counted<W>,
    so_far: Result<(), WriteFault>,
    test: &ReadTest<'_, '_, '_>,
    cpu: &Cpu,
) -> Result<(), WriteFault>
    ensures { WritesAfter W.contents writer.old so_far writer.new result
        (context_text test.now (Ok cpu.now)) }
{
    match test.sections().section(Part::After) {
        Some(_) => {
            let digits = test.place(Part::After).digits();
            let context = test.place(Part::Context).context();
            let bytes = context_after(context.len(), cpu);
            put_unfit(writer, so_far, digits, bytes)
        }
        None => put(writer, so_far, b""),
    }
}

/// Writes what is said of the context where a test's program has ended, if it has.
pub fn put_context<W: Write>(
    writer: &mut Counted<W>,
    so_far: Result<(), WriteFault>,
    test: &ReadTest<'_, '_, '_>,
    outcome: &Result<Cpu, Refusal>,
) -> Result<(), WriteFault>
    ensures { WritesAfter W.contents writer.old so_far writer.new result
        (context_text test.now outcome.now) }
{
    match outcome {
        Ok(cpu) => put_left(writer, so_far, test, cpu),
        Err(_) => put(writer, so_far, b""),
    }
}
