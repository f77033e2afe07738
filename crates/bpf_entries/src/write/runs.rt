//! Entries with the old bytes of a run, from a slice.
ghost use Rattle.std.specs.Prelude.{◌≡◌, ◌≤◌, ◌+◌, ◌++◌, ◌∷◌, [], length, drop};
ghost use Rattle.byteorder.specs.Endian.{little_bytes};
ghost use Rattle.bpf_entries.specs.declared.entry.Entry.TheVariants as entry;
ghost use Rattle.bpf_entries.specs.Frames.{frame_len};
ghost use Rattle.bpf_entries.specs.Texts.{number, slot, tag as tag_of, text};

use crate::write::tags::tag;
use bpf_isa::Reg;
use byteorder::{ByteOrder, LittleEndian};

/// Writes a store's entry but for its old bytes and its end: 16 bytes less 2.
#[inline(always)]
fn put_store_head(room: &mut [u8], len: u16, pc: u16, address: u64, count: u8, mark: bool)
    requires { 14 ≤ length room.old }
    ensures { room.new ≡ (little_bytes 2 len ++ tag_of 5 mark ∷
        (slot pc ++ (number address ++ count ∷ []))) ++ drop 14 room.old }
{
    LittleEndian::write_u16(&mut room[0..2], len);
    room[2] = tag(5, mark);
    LittleEndian::write_u16(&mut room[3..5], pc);
    LittleEndian::write_u64(&mut room[5..13], address);
    room[13] = count;
}

/// Writes the end of an entry: the old bytes, and how many bytes the entry has.
#[inline(always)]
fn put_tail(room: &mut [u8], old: &[u8], len: u16)
    requires { length old.now + 2 ≤ length room.old }
    ensures { room.new ≡ (old.now ++ little_bytes 2 len) ++ drop (length old.now + 2) room.old }
{
    let count = old.len();
    room[..count].copy_from_slice(old);
    LittleEndian::write_u16(&mut room[count..count + 2], len);
}

/// Writes the entry of a store: 16 bytes and the old ones, of which there are at most 255.
#[inline(always)]
pub fn put_store(room: &mut [u8], pc: u16, address: u64, old: &[u8], mark: bool)
    requires fits { length old.now ≤ 255 }
    requires room { 16 + length old.now ≤ length room.old }
    ensures { room.new ≡ text (entry.Store pc address old.now) mark ++ drop (16 + length old.now)
        room.old }
{
    let count = old.len();
    put_store_head(room, 16 + count as u16, pc, address, count as u8, mark);
    put_tail(&mut room[14..], old, 16 + count as u16);
}

/// Writes the first 14 bytes of a fetch's entry.
#[inline(always)]
fn put_fetch_start(room: &mut [u8], len: u16, pc: u16, register: Reg, value: u64, mark: bool)
    requires { 14 ≤ length room.old }
    ensures { room.new ≡ (little_bytes 2 len ++ tag_of 6 mark ∷
        (slot pc ++ register ∷ number value)) ++ drop 14 room.old }
{
    LittleEndian::write_u16(&mut room[0..2], len);
    room[2] = tag(6, mark);
    LittleEndian::write_u16(&mut room[3..5], pc);
    room[5] = register.number();
    LittleEndian::write_u64(&mut room[6..14], value);
}

/// Writes a fetch's entry but for its old bytes and its end: 25 bytes less 2.
#[inline(always)]
fn put_fetch_head(
    room: &mut [u8],
    len: u16,
    pc: u16,
    register: Reg,
    value: u64,
    address: u64,
    count: u8,
    mark: bool,
)
    requires { 23 ≤ length room.old }
    ensures { room.new ≡ (little_bytes 2 len ++ tag_of 6 mark ∷
        (slot pc ++ register ∷ (number value ++ (number address ++ count ∷ []))))
        ++ drop 23 room.old }
{
    put_fetch_start(room, len, pc, register, value, mark);
    LittleEndian::write_u64(&mut room[14..22], address);
    room[22] = count;
}

/// Writes the entry of a store that also fetches: 25 bytes and the old ones, of which there are at
/// most 255.
#[inline(always)]
pub fn put_fetch(
    room: &mut [u8],
    pc: u16,
    register: Reg,
    value: u64,
    address: u64,
    old: &[u8],
    mark: bool,
)
    requires fits { length old.now ≤ 255 }
    requires room { 25 + length old.now ≤ length room.old }
    ensures { room.new ≡ text (entry.Fetch pc register value address old.now) mark ++ drop
        (25 + length old.now) room.old }
{
    let count = old.len();
    put_fetch_head(
        room,
        25 + count as u16,
        pc,
        register,
        value,
        address,
        count as u8,
        mark,
    );
    put_tail(&mut room[23..], old, 25 + count as u16);
}

/// Writes a cell's entry but for its old bytes and its end: 23 bytes less 2.
#[inline(always)]
fn put_cell_head(room: &mut [u8], len: u16, pc: u16, r0: u64, address: u64, mark: bool)
    requires { 21 ≤ length room.old }
    ensures { room.new ≡ (little_bytes 2 len ++ tag_of 7 mark ∷
        (slot pc ++ (number r0 ++ number address))) ++ drop 21 room.old }
{
    LittleEndian::write_u16(&mut room[0..2], len);
    room[2] = tag(7, mark);
    LittleEndian::write_u16(&mut room[3..5], pc);
    LittleEndian::write_u64(&mut room[5..13], r0);
    LittleEndian::write_u64(&mut room[13..21], address);
}

/// Writes the entry of an update of a map's cell: 23 bytes and the old ones, of which there are at
/// most 256.
#[inline(always)]
pub fn put_cell(room: &mut [u8], pc: u16, r0: u64, address: u64, old: &[u8], mark: bool)
    requires fits { length old.now ≤ 256 }
    requires room { 23 + length old.now ≤ length room.old }
    ensures { room.new ≡ text (entry.Cell pc r0 address old.now) mark ++ drop (23 + length old.now)
        room.old }
{
    let count = old.len();
    put_cell_head(room, 23 + count as u16, pc, r0, address, mark);
    put_tail(&mut room[21..], old, 23 + count as u16);
}

/// Writes the entry of an edit of bytes but for the old ones and its end: 13 bytes less 2.
#[inline(always)]
fn put_edit_head(room: &mut [u8], len: u16, address: u64, mark: bool)
    requires { 11 ≤ length room.old }
    ensures { room.new ≡ (little_bytes 2 len ++ tag_of 11 mark ∷ number address)
        ++ drop 11 room.old }
{
    LittleEndian::write_u16(&mut room[0..2], len);
    room[2] = tag(11, mark);
    LittleEndian::write_u64(&mut room[3..11], address);
}

/// Writes the entry of an edit of bytes: 13 bytes and the old ones, of which there are at most 256.
#[inline(always)]
pub fn put_edit_bytes(room: &mut [u8], address: u64, old: &[u8], mark: bool)
    requires fits { length old.now ≤ 256 }
    requires room { 13 + length old.now ≤ length room.old }
    ensures { room.new ≡ text (entry.EditBytes address old.now) mark ++ drop (13 + length old.now)
        room.old }
{
    let count = old.len();
    put_edit_head(room, 13 + count as u16, address, mark);
    put_tail(&mut room[11..], old, 13 + count as u16);
}

/// Writes a local call's entry but for its old bytes and its end: 7 bytes less 2.
#[inline(always)]
fn put_call_head(room: &mut [u8], len: u16, pc: u16, mark: bool)
    requires { 5 ≤ length room.old }
    ensures { room.new ≡ (little_bytes 2 len ++ tag_of 3 mark ∷ slot pc) ++ drop 5 room.old }
{
    LittleEndian::write_u16(&mut room[0..2], len);
    room[2] = tag(3, mark);
    LittleEndian::write_u16(&mut room[3..5], pc);
}

/// Writes the entry of a local call: 7 bytes and the old ones, those of a frame.
#[inline(always)]
pub fn put_call(room: &mut [u8], pc: u16, old: &[u8], mark: bool)
    requires frame { length old.now ≡ frame_len }
    requires room { 7 + length old.now ≤ length room.old }
    ensures { room.new ≡ text (entry.Call pc old.now) mark ++ drop (7 + length old.now) room.old }
{
    let count = old.len();
    put_call_head(room, 7 + count as u16, pc, mark);
    put_tail(&mut room[5..], old, 7 + count as u16);
}
