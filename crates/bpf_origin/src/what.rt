//! What is asked about, by its text.
ghost use Rattle.std.specs.Prelude.{◌≡◌, ◌∷◌, [], position};
ghost use Rattle.bpf_origin.specs.Asked as spec;

use crate::fault::WhatFault;
use crate::place::Part;
use crate::reads::{Parts, asked, register_part};
use bpf_isa::Reg;
use bpf_machine::Cpu;
use counted_io::{natural, position};

/// The most bytes that are asked about at once.
const MOST_BYTES: u64 = 256;

/// What is asked about.
#[derive(Clone, Copy)]
pub enum What {
    /// A register of the function that runs, r0 to r9.
    Register(Reg),
    /// 1 to 256 bytes from an address on.
    Bytes { address: u64, len: u64 },
}

impl What {
    /// What a text names in a machine.
    pub fn find(text: &[u8], cpu: &Cpu) -> Result<What, WhatFault>
        ensures { result ≡ spec.what_in cpu.now text.now }
    {
        match What::parse(text) {
            Some(what) => {
                if what.is_there(cpu) {
                    Ok(what)
                } else {
                    Err(WhatFault::Absent)
                }
            }
            None => Err(WhatFault::Unknown),
        }
    }

    /// What a text names: `r0` to `r9`, or an address with, behind a colon, how many bytes; without
    /// one it is one byte. Both are decimal, or hexadecimal behind 0x. None where it names nothing.
    fn parse(text: &[u8]) -> Option<What>
        ensures { result ≡ spec.what_of text.now }
    {
        match Reg::parse(text) {
            Some(register) => register_asked(register),
            None => bytes_in(text),
        }
    }

    /// Whether a machine has it: each of the bytes is there, and there are some.
    fn is_there(&self, cpu: &Cpu) -> bool
        ensures { result ≡ spec.is_there cpu.now self.now }
    {
        match self {
            What::Register(_) => true,
            What::Bytes { address, len } => {
                0 < *len && cpu.peek(*address, *len as usize).is_some()
            }
        }
    }

    /// The part of a machine that it is.
    fn part(&self, cpu: &Cpu) -> Part
        ensures { result ≡ spec.part_asked cpu.now self.now }
    {
        match self {
            What::Register(register) => register_part(cpu.depth(), *register),
            What::Bytes { address, len } => Part::Bytes {
                address: *address,
                len: *len as usize,
            },
        }
    }
}

/// The parts of a machine that are asked about: where nothing is named, what `asked` says.
pub fn parts_asked(cpu: &Cpu, what: Option<What>) -> Parts
    ensures { result.items ≡ spec.parts_asked cpu.now what }
{
    match what {
        Some(what) => only(what.part(cpu)),
        None => asked(cpu),
    }
}

/// One part.
fn only(part: Part) -> Parts
    ensures { result.items ≡ part ∷ [] }
{
    let mut parts = Parts::new();
    parts.push(part);
    parts
}

/// A register that is a place, as r10 isn't.
fn register_asked(register: Reg) -> Option<What>
    ensures { result ≡ spec.register_asked register }
{
    if register.number() < 10 {
        Some(What::Register(register))
    } else {
        None
    }
}

/// The bytes that a text names.
fn bytes_in(text: &[u8]) -> Option<What>
    ensures { result ≡ spec.bytes_cut (position spec.is_colon text.now) text.now }
{
    match position(text, b':') {
        Some(at) => bytes_asked(number_in(&text[..at]), number_in(&text[at + 1..])),
        None => bytes_asked(number_in(text), Some(1)),
    }
}

/// The number that a text is.
pub fn number_in(text: &[u8]) -> Option<u64>
    ensures { result ≡ spec.number text.now }
{
    natural(text)?.to_u64()
}

/// So many bytes from an address on, where both are numbers.
fn bytes_asked(address: Option<u64>, len: Option<u64>) -> Option<What>
    ensures { result ≡ spec.bytes_asked address len }
{
    let address = address?;
    let len = len?;
    if 0 < len && len <= MOST_BYTES {
        Some(What::Bytes { address, len })
    } else {
        None
    }
}
