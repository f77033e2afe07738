//! Questions to the libraries, a line each, which bpfdb has no word for, and their answers.
//!
//! `word DIGITS`: the text of the instruction of one or two slots, at slot 0, and what it does; or
//! the number of its fault. `run MAPS ADDRESS COUNT`: whether the bytes are present, and whether
//! the program may access them. `listing LINES`, with a bar between two: what a reader of its fault
//! looks for. A question that is none has no answer.
use crate::programs::CONTEXT;
use crate::sessions::{bytes_of, machine_of, maps_of, text_of};
use crate::telling::{Lack, said};
use bpf_isa::{Insn, WordFault, decode};
use bpf_machine::Cpu;
use bpf_text::{AsmFault, LineFault, assemble, write_insn};
use bpfdb_files::FileKind;
use counted_io::{Counted, WriteFault, put, put_decimal, put_signed};
use std::alloc::Global;
use std::io::Write;

/// exit.
const EXIT: [u8; 8] = [0x95, 0, 0, 0, 0, 0, 0, 0];

/// `questions`: the answers to the lines that come in.
pub fn answer_all<W: Write>(rt: &HostRuntime, output: &mut Counted<W>) -> Result<(), Lack> {
    let bytes = bytes_of(rt.alloc(), rt.reader(), FileKind::Source);
    match text_of(&bytes) {
        Some(text) => answer_lines(rt.alloc(), text, output),
        None => Err(Lack::NotReached),
    }
}

/// The answers to lines.
fn answer_lines<W: Write>(alloc: Global, text: &str, output: &mut Counted<W>) -> Result<(), Lack> {
    for line in text.lines() {
        let told = answer(alloc, line, output);
        said(put(output, told, b"\n"))?;
    }
    Ok(())
}

/// The answer to a line.
fn answer<W: Write>(alloc: Global, line: &str, output: &mut Counted<W>) -> Result<(), WriteFault> {
    let Some((name, rest)) = line.split_once(' ') else {
        return Ok(());
    };
    match name {
        "word" => put_word(alloc, rest, output),
        "run" => put(
            output,
            Ok(()),
            run_told(alloc, rest).unwrap_or("none").as_bytes(),
        ),
        "listing" => put_detail(fault_of(alloc, rest), output),
        _ => Ok(()),
    }
}

/// The instruction of the digits of one or two slots; none where they are no slots.
fn decoded(alloc: Global, digits: &str) -> Option<Result<Insn, WordFault>> {
    let bytes = hex::decode(alloc, digits).ok()?;
    decoded_of(&bytes)
}

/// The same of bytes.
fn decoded_of(bytes: &[u8]) -> Option<Result<Insn, WordFault>> {
    let first = bytes.first_chunk().copied()?;
    let second = if bytes.len() > 8 {
        bytes.last_chunk().copied()
    } else {
        None
    };
    Some(decode(first, second))
}

/// What is said of a word.
fn put_word<W: Write>(
    alloc: Global,
    digits: &str,
    output: &mut Counted<W>,
) -> Result<(), WriteFault> {
    match decoded(alloc, digits) {
        Some(Ok(insn)) => put_insn(&insn, output),
        Some(Err(fault)) => {
            let told = put(output, Ok(()), b"C");
            put_decimal(output, told, u64::from(fault.number()))
        }
        None => Ok(()),
    }
}

/// The text of an instruction in slot 0, which register it replaces, which slot it names, and
/// whether it stops.
fn put_insn<W: Write>(insn: &Insn, output: &mut Counted<W>) -> Result<(), WriteFault> {
    let told = write_insn(output, 0, *insn);
    let told = put_destination(insn, output, told);
    let told = put_target(insn, output, told);
    let stops: &[u8] = if insn.falls_through() {
        b""
    } else {
        b"; stops"
    };
    put(output, told, stops)
}

/// Which register an instruction replaces.
fn put_destination<W: Write>(
    insn: &Insn,
    output: &mut Counted<W>,
    told: Result<(), WriteFault>,
) -> Result<(), WriteFault> {
    match insn.destination() {
        Some(register) => {
            let told = put(output, told, b"; writes r");
            put_decimal(output, told, u64::from(register.number()))
        }
        None => told,
    }
}

/// Which slot an instruction in slot 0 names.
fn put_target<W: Write>(
    insn: &Insn,
    output: &mut Counted<W>,
    told: Result<(), WriteFault>,
) -> Result<(), WriteFault> {
    match insn.target(0) {
        Some(slot) => {
            let told = put(output, told, b"; to ");
            put_signed(output, told, slot)
        }
        None => told,
    }
}

/// Whether a run of bytes is present, and whether the program may access it.
fn run_told(alloc: Global, words: &str) -> Option<&'static str> {
    let (maps, numbers) = words.split_once(' ')?;
    let (address, count) = numbers.split_once(' ')?;
    let address = u64::from_str_radix(address, 16).ok()?;
    let count = u64::from_str_radix(count, 16).ok()?;
    answers_with(alloc, maps, address, count as usize)
}

/// The same in a machine with these maps.
fn answers_with(alloc: Global, maps: &str, address: u64, count: usize) -> Option<&'static str> {
    let cpu = machine_of(alloc, &EXIT, &maps_of(maps)?, CONTEXT)?;
    Some(answers(&cpu, address, count))
}

/// The same of a run of a machine.
fn answers(cpu: &Cpu, address: u64, count: usize) -> &'static str {
    if count == 0 {
        return "no run";
    }
    let is_present = cpu.peek(address, count).is_some();
    match (is_present, cpu.accessible(address, count)) {
        (true, true) => "yes yes",
        (true, false) => "yes no",
        (false, true) => "no yes",
        (false, false) => "no no",
    }
}

/// The fault of a listing that has a bar in place of each line feed.
fn fault_of(alloc: Global, listing: &str) -> Option<AsmFault> {
    let lines = listing.replace(alloc, '|', "\n").ok()?;
    assemble(alloc, lines.as_bytes()).err()
}

/// What a reader of a fault looks for: the line that has the label first, or how far it is.
fn put_detail<W: Write>(
    fault: Option<AsmFault>,
    output: &mut Counted<W>,
) -> Result<(), WriteFault> {
    match fault {
        Some(AsmFault::Line(LineFault::LabelTwice(first), _)) => put_first(first, output),
        Some(AsmFault::Line(LineFault::TooFar(distance), _)) => put_far(distance, output),
        Some(_) => put(output, Ok(()), b"other"),
        None => put(output, Ok(()), b"none"),
    }
}

/// The line that has the label first.
fn put_first<W: Write>(line: usize, output: &mut Counted<W>) -> Result<(), WriteFault> {
    let told = put(output, Ok(()), b"twice ");
    put_decimal(output, told, line as u64)
}

/// How far a target is.
fn put_far<W: Write>(distance: i32, output: &mut Counted<W>) -> Result<(), WriteFault> {
    let told = put(output, Ok(()), b"far ");
    put_signed(output, told, i64::from(distance))
}
