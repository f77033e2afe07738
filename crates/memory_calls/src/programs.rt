//! Programs: their words and listings, and the machines that are opened on them.
use crate::telling::{Lack, say};
use bpf_isa::{MapTable, Program, check};
use bpf_machine::{ByteString, Cpu, Edit, Memory};
use bpf_text::{assemble, disassemble};
use counted_io::Counted;
use std::alloc::Global;
use std::io::Write;

/// A listing with a label, a comment and a number in hexadecimal.
const LISTING: &[u8] = b"; count\nloop: add r0, 1\njlt r0, 0x3, loop\nexit\n";

/// Its words.
pub const WORDS: &[u8] = b"\x07\0\0\0\x01\0\0\0\xa5\0\xfe\xff\x03\0\0\0\x95\0\0\0\0\0\0\0";

/// The bytes of a context.
pub const CONTEXT: &[u8] = b"\x01\x02\x03\x04\x05\x06\x07\x08";

/// The program of the listing; none where memory runs out.
fn program(alloc: Global) -> Option<Program> {
    check(alloc, WORDS, &MapTable::empty()).ok()
}

/// `check`: the bytes of the program.
pub fn check_words<W: Write>(alloc: Global, output: &mut Counted<W>) -> Result<(), Lack> {
    match check(alloc, WORDS, &MapTable::empty()) {
        Ok(program) => say(output, program.bytes()),
        Err(fault) => Err(Lack::Refused("C", fault.number(), fault.text())),
    }
}

/// `assemble`: the words.
pub fn assemble_listing<W: Write>(alloc: Global, output: &mut Counted<W>) -> Result<(), Lack> {
    match assemble(alloc, LISTING) {
        Ok(words) => say(output, &words),
        Err(fault) => Err(Lack::Refused("A", fault.number(), fault.text())),
    }
}

/// `disassemble`: the canonical listing.
pub fn disassemble_program<W: Write>(alloc: Global, output: &mut Counted<W>) -> Result<(), Lack> {
    let Some(program) = program(alloc) else {
        return Err(Lack::NotReached);
    };
    match disassemble(alloc, &program) {
        Ok(text) => say(output, &text),
        Err(_) => Err(Lack::Memory),
    }
}

/// `Memory::open`: the context, whose second byte is written to.
pub fn open_memory<W: Write>(alloc: Global, output: &mut Counted<W>) -> Result<(), Lack> {
    let mut maps = MapTable::empty();
    if maps.add(8, 2).is_err() {
        return Err(Lack::NotReached);
    }
    match Memory::open(alloc, &maps, CONTEXT) {
        Ok(mut memory) => lend(&mut memory, output),
        Err(fault) => Err(Lack::Refused("O", fault.number(), fault.text())),
    }
}

/// What a memory lends: one byte more than the context has it doesn't, nor as many from the second
/// one on.
fn lend<W: Write>(memory: &mut Memory, output: &mut Counted<W>) -> Result<(), Lack> {
    let is_longer = memory.bytes_mut(0x1_0000_0000, 9).is_some();
    let is_shifted = memory.bytes_mut(0x1_0000_0001, 8).is_some();
    if is_longer || is_shifted || !write_7(memory) {
        return Err(Lack::NotReached);
    }
    match memory.bytes_mut(0x1_0000_0000, 8) {
        Some(bytes) => say(output, bytes),
        None => Err(Lack::NotReached),
    }
}

/// Writes 7 to the second byte of the context, if that is lent.
fn write_7(memory: &mut Memory) -> bool {
    match memory.bytes_mut(0x1_0000_0001, 1) {
        Some(bytes) => {
            set_7(bytes);
            true
        }
        None => false,
    }
}

/// Sets each of some bytes to 7.
fn set_7(bytes: &mut [u8]) {
    for byte in bytes.iter_mut() {
        *byte = 7;
    }
}

/// `Cpu::open`: the context.
pub fn open_machine<W: Write>(alloc: Global, output: &mut Counted<W>) -> Result<(), Lack> {
    let Some(program) = program(alloc) else {
        return Err(Lack::NotReached);
    };
    match Cpu::open(alloc, program, CONTEXT) {
        Ok(cpu) => match cpu.peek(0x1_0000_0000, 8) {
            Some(bytes) => say(output, bytes),
            None => Err(Lack::NotReached),
        },
        Err(fault) => Err(Lack::Refused("O", fault.number(), fault.text())),
    }
}

/// `Cpu::restart`: the new context, and the first value of a map that was written to before.
pub fn restart_machine<W: Write>(alloc: Global, output: &mut Counted<W>) -> Result<(), Lack> {
    let Some(mut cpu) = written_machine(alloc) else {
        return Err(Lack::NotReached);
    };
    if let Err(fault) = cpu.restart(alloc, b"\x09\x0a") {
        return Err(Lack::Refused("O", fault.number(), fault.text()));
    }
    match (
        cpu.peek(0x1_0000_0000, 2),
        cpu.peek(0x1_0000_0000, 3),
        cpu.peek(0x3_0000_0000, 8),
    ) {
        (Some(context), None, Some(value)) => {
            say(output, context)?;
            say(output, value)
        }
        _ => Err(Lack::NotReached),
    }
}

/// A machine with a map, whose context and whose first value in the map are 7s; none where memory runs
/// out.
fn written_machine(alloc: Global) -> Option<Cpu> {
    let mut maps = MapTable::empty();
    maps.add(8, 2).ok()?;
    let program = check(alloc, WORDS, &maps).ok()?;
    let mut cpu = Cpu::open(alloc, program, CONTEXT).ok()?;
    for address in [0x1_0000_0000, 0x3_0000_0000] {
        let bytes = ByteString::of(&[7; 8]);
        cpu.edit(&Edit::Bytes { address, bytes }).ok()?;
    }
    Some(cpu)
}
