//! Entries of one length, each part at its fixed place.
ghost use Rattle.std.specs.Prelude.{◌≡◌, ◌≤◌, ◌++◌, ◌∷◌, [], length, drop};
ghost use Rattle.byteorder.specs.Endian.{little_bytes};
ghost use Rattle.bpf_entries.specs.declared.entry.Entry.TheVariants as entry;
ghost use Rattle.bpf_entries.specs.Texts.{number, slot, tag as tag_of, text};

use crate::status::{Fault, Status};
use crate::write::tags::tag;
use bpf_isa::Reg;
use byteorder::{ByteOrder, LittleEndian};

/// Writes the entry of a step that replaced one register: 16 bytes.
#[inline(always)]
pub fn put_register(room: &mut [u8], pc: u16, register: Reg, value: u64, mark: bool)
    requires { 16 ≤ length room.old }
    ensures { room.new ≡ text (entry.Register pc register value) mark ++ drop 16 room.old }
{
    LittleEndian::write_u16(&mut room[0..2], 16);
    room[2] = tag(1, mark);
    LittleEndian::write_u16(&mut room[3..5], pc);
    room[5] = register.number();
    LittleEndian::write_u64(&mut room[6..14], value);
    LittleEndian::write_u16(&mut room[14..16], 16);
}

/// Writes the entry of a jump: 7 bytes.
#[inline(always)]
pub fn put_jump(room: &mut [u8], pc: u16, mark: bool)
    requires { 7 ≤ length room.old }
    ensures { room.new ≡ text (entry.Jump pc) mark ++ drop 7 room.old }
{
    LittleEndian::write_u16(&mut room[0..2], 7);
    room[2] = tag(2, mark);
    LittleEndian::write_u16(&mut room[3..5], pc);
    LittleEndian::write_u16(&mut room[5..7], 7);
}

/// Writes the entry of a word appended to the trace list: 15 bytes.
#[inline(always)]
pub fn put_trace(room: &mut [u8], pc: u16, r0: u64, mark: bool)
    requires { 15 ≤ length room.old }
    ensures { room.new ≡ text (entry.Trace pc r0) mark ++ drop 15 room.old }
{
    LittleEndian::write_u16(&mut room[0..2], 15);
    room[2] = tag(8, mark);
    LittleEndian::write_u16(&mut room[3..5], pc);
    LittleEndian::write_u64(&mut room[5..13], r0);
    LittleEndian::write_u16(&mut room[13..15], 15);
}

/// Writes the entry of a step that ended the machine: 5 bytes.
#[inline(always)]
pub fn put_end(room: &mut [u8], mark: bool)
    requires { 5 ≤ length room.old }
    ensures { room.new ≡ text entry.End mark ++ drop 5 room.old }
{
    LittleEndian::write_u16(&mut room[0..2], 5);
    room[2] = tag(9, mark);
    LittleEndian::write_u16(&mut room[3..5], 5);
}

/// Writes the entry of an edit of a register: 14 bytes.
#[inline(always)]
pub fn put_edit_register(room: &mut [u8], register: Reg, value: u64, mark: bool)
    requires { 14 ≤ length room.old }
    ensures { room.new ≡ text (entry.EditRegister register value) mark ++ drop 14 room.old }
{
    LittleEndian::write_u16(&mut room[0..2], 14);
    room[2] = tag(10, mark);
    room[3] = register.number();
    LittleEndian::write_u64(&mut room[4..12], value);
    LittleEndian::write_u16(&mut room[12..14], 14);
}

/// Writes the entry of an edit of pc, the status by its kind and its number: 16 bytes.
#[inline(always)]
fn put_edit_pc_parts(room: &mut [u8], pc: u16, kind: u8, value: u64, mark: bool)
    requires { 16 ≤ length room.old }
    ensures { room.new ≡ (little_bytes 2 16 ++ tag_of 12 mark ∷
        (slot pc ++ (kind ∷ number value) ++ little_bytes 2 16)) ++ drop 16 room.old }
{
    LittleEndian::write_u16(&mut room[0..2], 16);
    room[2] = tag(12, mark);
    LittleEndian::write_u16(&mut room[3..5], pc);
    room[5] = kind;
    LittleEndian::write_u64(&mut room[6..14], value);
    LittleEndian::write_u16(&mut room[14..16], 16);
}

/// Writes the entry of an edit of pc: 16 bytes.
#[inline(always)]
pub fn put_edit_pc(room: &mut [u8], pc: u16, status: Status, mark: bool)
    requires { 16 ≤ length room.old }
    ensures { room.new ≡ text (entry.EditPc pc status) mark ++ drop 16 room.old }
{
    match status {
        Status::Running => put_edit_pc_parts(room, pc, 0, 0, mark),
        Status::Exited => put_edit_pc_parts(room, pc, 1, 0, mark),
        Status::Faulted(Fault::Access { address }) => put_edit_pc_parts(room, pc, 2, address, mark),
        Status::Faulted(Fault::Token { token }) => put_edit_pc_parts(room, pc, 3, token, mark),
        Status::Faulted(Fault::Depth) => put_edit_pc_parts(room, pc, 4, 0, mark),
    }
}

/// Writes the first 13 bytes of a return's entry.
#[inline(always)]
fn put_return_head(room: &mut [u8], pc: u16, r6: u64, mark: bool)
    requires { 13 ≤ length room.old }
    ensures { room.new ≡ (little_bytes 2 39 ++ tag_of 4 mark ∷ (slot pc ++ number r6))
        ++ drop 13 room.old }
{
    LittleEndian::write_u16(&mut room[0..2], 39);
    room[2] = tag(4, mark);
    LittleEndian::write_u16(&mut room[3..5], pc);
    LittleEndian::write_u64(&mut room[5..13], r6);
}

/// Writes two numbers: 16 bytes.
#[inline(always)]
fn put_two(room: &mut [u8], first: u64, second: u64)
    requires { 16 ≤ length room.old }
    ensures { room.new ≡ (number first ++ number second) ++ drop 16 room.old }
{
    LittleEndian::write_u64(&mut room[0..8], first);
    LittleEndian::write_u64(&mut room[8..16], second);
}

/// Writes the other 26 bytes of it.
#[inline(always)]
fn put_return_tail(room: &mut [u8], r7: u64, r8: u64, r9: u64)
    requires { 26 ≤ length room.old }
    ensures { room.new ≡ (number r7 ++ (number r8 ++ (number r9 ++ little_bytes 2 39)))
        ++ drop 26 room.old }
{
    put_two(room, r7, r8);
    LittleEndian::write_u64(&mut room[16..24], r9);
    LittleEndian::write_u16(&mut room[24..26], 39);
}

/// Writes the entry of a return from a local call, by the four values that it keeps: 39 bytes.
#[inline(always)]
fn put_return_parts(room: &mut [u8], pc: u16, r6: u64, r7: u64, r8: u64, r9: u64, mark: bool)
    requires { 39 ≤ length room.old }
    ensures { room.new ≡ text (entry.Return pc (r6 ∷ r7 ∷ r8 ∷ r9 ∷ [])) mark ++ drop 39 room.old }
{
    put_return_head(room, pc, r6, mark);
    put_return_tail(&mut room[13..], r7, r8, r9);
}

/// Writes the entry of a return from a local call: 39 bytes. `saved` is r6 to r9.
#[inline(always)]
#[tactic(auto, using(crate::proofs::Parts::four_items))]
pub fn put_return(room: &mut [u8], pc: u16, saved: &[u64; 4], mark: bool)
    requires { 39 ≤ length room.old }
    ensures { room.new ≡ text (entry.Return pc saved.now) mark ++ drop 39 room.old }
{
    put_return_parts(room, pc, saved[0], saved[1], saved[2], saved[3], mark);
}
