//! The fields of a slot, and where its instruction leads.
ghost use Rattle.std.specs.Prelude.{◌≡◌, ◌≤◌, ◌<◌, ◌+◌, ◌*◌, length};
ghost use Rattle.bpf_isa.specs.Words.{u16_at, u32_at};
ghost use Rattle.bpf_packet.specs.Slots.{class_of, distance_of, extended, goes_on, is_call, is_local, jumps, slot_at, target_of};

use byteorder::{ByteOrder, LittleEndian};

/// The fields of a slot.
#[derive(Clone, Copy)]
pub struct Slot {
    pub opcode: u8,
    pub dst: u8,
    pub src: u8,
    /// In 16 bits of two's complement.
    pub offset: u16,
    /// In 32 bits of two's complement.
    pub imm: u32,
}

/// The number in the two bytes at a place.
fn u16_at(words: &[u8], at: usize) -> u16
    requires { at + 2 ≤ length words.now }
    ensures { result ≡ u16_at words.now at }
{
    LittleEndian::read_u16(&words[at..])
}

/// The number in the four bytes at a place.
fn u32_at(words: &[u8], at: usize) -> u32
    requires { at + 4 ≤ length words.now }
    ensures { result ≡ u32_at words.now at }
{
    LittleEndian::read_u32(&words[at..])
}

/// The fields of a slot of words.
pub fn slot_at(words: &[u8], p: usize) -> Slot
    requires { 8 * p + 8 ≤ length words.now }
    ensures { result ≡ slot_at words.now p }
{
    let registers = words[8 * p + 1];
    Slot {
        opcode: words[8 * p],
        dst: registers % 16,
        src: registers / 16,
        offset: u16_at(words, 8 * p + 2),
        imm: u32_at(words, 8 * p + 4),
    }
}

/// The class of an instruction.
pub fn class_of(slot: &Slot) -> u8
    ensures { result ≡ class_of slot.now }
{
    slot.opcode % 8
}

/// Whether it is a call.
pub fn is_call(slot: &Slot) -> bool
    ensures { result ≡ is_call slot.now }
{
    slot.opcode == 0x85
}

/// Whether it calls a function of the program.
pub fn is_local(slot: &Slot) -> bool
    ensures { result ≡ is_local slot.now }
{
    is_call(slot) && slot.src == 1
}

/// Whether it goes on to the slot after it.
pub fn goes_on(slot: &Slot) -> bool
    ensures { result ≡ goes_on slot.now }
{
    slot.opcode != 0x95 && (slot.opcode != 0x05 && slot.opcode != 0x06)
}

/// Whether it jumps, or calls a function of the program.
pub fn jumps(slot: &Slot) -> bool
    ensures { result ≡ jumps slot.now }
{
    if is_call(slot) {
        return slot.src == 1;
    }
    (class_of(slot) == 5 || class_of(slot) == 6) && slot.opcode != 0x95
}

/// An offset in 32 bits.
pub fn extended(offset: u16) -> u32
    ensures { result ≡ extended offset }
{
    if offset < 32768 {
        return u32::from(offset);
    }
    u32::from(offset) + 4_294_901_760
}

/// How far it jumps, from the slot after it.
fn distance_of(slot: &Slot) -> u32
    ensures { result ≡ distance_of slot.now }
{
    if is_call(slot) || slot.opcode == 0x06 {
        return slot.imm;
    }
    extended(slot.offset)
}

/// Where it jumps.
pub fn target_of(p: usize, slot: &Slot) -> usize
    requires { p < 4294967296 }
    ensures { result ≡ target_of p slot.now }
{
    ((p as u64 + 1 + u64::from(distance_of(slot))) % 4_294_967_296) as usize
}
