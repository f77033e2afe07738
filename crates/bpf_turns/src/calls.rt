//! The program that calls others in turn.
ghost use Rattle.std.specs.Prelude.{◌≡◌, ◌≤◌, ◌<◌, ◌+◌, ◌++◌, IfErr, IfOk, get_or, length};
ghost use Rattle.bpf_isa.specs.Checker.{most_slots};
ghost use Rattle.bpf_turns.specs.Calls.{no_call, call_of, call_words, calling_words, calls_of, seat_index, slot, slots_before, start_of, taken_slots};
ghost use Rattle.bpf_join.specs.Gathered.{gathered};
ghost use Rattle.bpf_link.specs.declared.fault.LinkFault.TheVariants.{Memory};

use crate::seats::{Seat, slots_of};
use bpf_link::{LinkFault, Object, with};
use std::alloc::Global;

/// A call of a program.
#[derive(Clone, Copy)]
pub struct Call {
    /// The section from which the program is.
    pub section: u16,
    /// The slot at which this begins.
    pub start: u32,
    /// The slot at which the program begins.
    pub to: u32,
    /// The place of the context at which it finds its own one, in bytes.
    pub offset: u16,
}

/// Which of the programs, the first one, lies in a section.
pub fn seat_index(seats: &[Seat], section: usize) -> Option<usize>
    ensures { result ≡ seat_index seats.now section }
{
    seats
        .iter()
        .position(|seat| usize::from(seat.section) == section)
}

/// How many slots of a section there are behind the calls.
fn taken_slots(object: &Object<'_>, seats: &[Seat], section: usize) -> usize
    ensures value { result ≡ taken_slots object.now seats.now section }
    ensures small { result ≤ 2305843009213693951 }
{
    match seat_index(seats, section) {
        Some(_) => slots_of(object, section).len() / 8,
        None => 0,
    }
}

/// How many slots there are of the sections below a number.
pub fn slots_before(object: &Object<'_>, seats: &[Seat], section: usize) -> u32
    ensures value { result ≡ slots_before object.now seats.now section }
    ensures small { result ≤ 65536 }
{
    let mut before = 0u32;
    for i in 0..section {
        before = (before as usize + taken_slots(object, seats, i)).min(65536) as u32;
    }
    before
}

/// The slot at which a section begins.
fn start_of(object: &Object<'_>, seats: &[Seat], section: usize) -> u32
    requires { length seats.now ≤ most_slots }
    ensures value { result ≡ start_of object.now seats.now section }
    ensures small { result ≤ 400000 }
{
    5 * seats.len() as u32 + 3 + slots_before(object, seats, section)
}

/// The call of a program.
fn call_of(object: &Object<'_>, seats: &[Seat], seat: &Seat) -> Call
    requires { length seats.now ≤ most_slots }
    ensures { result ≡ call_of object.now seats.now seat.now }
{
    let start = start_of(object, seats, usize::from(seat.section));
    Call {
        section: seat.section,
        start,
        to: start + u32::from(seat.slot),
        offset: seat.offset,
    }
}

/// The calls of programs.
pub fn calls_of(alloc: Global, object: &Object<'_>, seats: &[Seat]) -> Result<Vec<Call>, LinkFault>
    requires { length seats.now ≤ most_slots }
    ensures ok { IfOk result (λ calls. calls.items ≡ calls_of object.now seats.now) }
    ensures count { IfOk result (λ calls. length calls.items ≡ length seats.now) }
    ensures err { IfErr result (λ fault. fault ≡ Memory) }
{
    let mut calls = Vec::new(alloc);
    for k in 0..seats.len() {
        match calls.push(call_of(object, seats, &seats[k])) {
            Ok(()) => {}
            Err(_) => return Err(LinkFault::Memory),
        }
    }
    Ok(calls)
}

/// An instruction without an offset.
fn slot(opcode: u8, registers: u8, imm: u32) -> [u8; 8]
    ensures { result ≡ slot opcode registers imm }
{
    let a = (imm % 256) as u8;
    let b = (imm / 256 % 256) as u8;
    let c = (imm / 65536 % 256) as u8;
    let d = (imm / 16777216 % 256) as u8;
    [opcode, registers, 0, 0, a, b, c, d]
}

/// Words, and behind them an instruction.
fn with_slot(words: Vec<u8>, opcode: u8, registers: u8, imm: u32) -> Result<Vec<u8>, LinkFault>
    ensures ok { IfOk result (λ new. new.items ≡ words.items ++ slot opcode registers imm) }
    ensures err { IfErr result (λ fault. fault ≡ Memory) }
{
    with(words, &slot(opcode, registers, imm))
}

/// Words, and behind them two instructions.
#[tactic(auto, using(std::proofs::lemmas::List::append_assoc))]
fn with_pair(
    words: Vec<u8>,
    opcodes: (u8, u8),
    registers: (u8, u8),
    imm: u32,
) -> Result<Vec<u8>, LinkFault>
    ensures ok { IfOk result (λ new. new.items ≡ words.items
        ++ (slot opcodes.0 registers.0 imm ++ slot opcodes.1 registers.1 imm)) }
    ensures err { IfErr result (λ fault. fault ≡ Memory) }
{
    match with_slot(words, opcodes.0, registers.0, imm) {
        Ok(one) => with_slot(one, opcodes.1, registers.1, imm),
        Err(fault) => Err(fault),
    }
}

/// Words, and behind them what moves r1 and r2 to a place of the context.
fn with_moved(words: Vec<u8>, offset: u16) -> Result<Vec<u8>, LinkFault>
    ensures ok { IfOk result (λ new. new.items ≡ words.items
        ++ (slot 0x07 0x01 offset ++ slot 0x17 0x02 offset)) }
    ensures err { IfErr result (λ fault. fault ≡ Memory) }
{
    with_pair(words, (0x07, 0x17), (0x01, 0x02), u32::from(offset))
}

/// Words, and behind them the k-th call.
fn with_call(words: Vec<u8>, k: usize, call: &Call) -> Result<Vec<u8>, LinkFault>
    requires { k < most_slots }
    ensures ok { IfOk result (λ new. new.items ≡ words.items ++ call_words k call.now) }
    ensures err { IfErr result (λ fault. fault ≡ Memory) }
{
    let kept = match with_pair(words, (0xbf, 0xbf), (0x61, 0x72), 0) {
        Ok(kept) => kept,
        Err(fault) => return Err(fault),
    };
    let moved = match with_moved(kept, call.offset) {
        Ok(moved) => moved,
        Err(fault) => return Err(fault),
    };
    with_slot(moved, 0x85, 0x10, call.to.saturating_sub(5 * k as u32 + 7))
}

/// Words, and behind them all calls.
fn with_calls(words: Vec<u8>, calls: &[Call]) -> Result<Vec<u8>, LinkFault>
    requires { length calls.now ≤ most_slots }
    ensures ok { IfOk result (λ new. new.items ≡ words.items
        ++ gathered (λ k. call_words k (get_or calls.now k no_call)) (length calls.now)) }
    ensures err { IfErr result (λ fault. fault ≡ Memory) }
{
    let mut all = words;
    for k in 0..calls.len() {
        match with_call(all, k, &calls[k]) {
            Ok(new) => all = new,
            Err(fault) => return Err(fault),
        }
    }
    Ok(all)
}

/// The program that calls others.
#[tactic(auto, using(std::proofs::lemmas::List::append_assoc))]
pub fn calling_words(alloc: Global, calls: &[Call]) -> Result<Vec<u8>, LinkFault>
    requires { length calls.now ≤ most_slots }
    ensures ok { IfOk result (λ words. words.items ≡ calling_words calls.now) }
    ensures err { IfErr result (λ fault. fault ≡ Memory) }
{
    let begun = match with_pair(Vec::new(alloc), (0xbf, 0xbf), (0x16, 0x27), 0) {
        Ok(begun) => begun,
        Err(fault) => return Err(fault),
    };
    match with_calls(begun, calls) {
        Ok(all) => with_slot(all, 0x95, 0, 0),
        Err(fault) => Err(fault),
    }
}
