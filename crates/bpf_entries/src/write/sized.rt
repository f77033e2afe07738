//! Entries with the old bytes of a run of 1, 2, 4 or 8 bytes, from the number that they are.
ghost use Rattle.std.specs.Prelude.{◌≡◌, ◌≤◌, ◌+◌, ◌++◌, length, drop};
ghost use Rattle.byteorder.specs.Endian.{little_bytes};
ghost use Rattle.bpf_isa.specs.Sizes.{size_len};
ghost use Rattle.bpf_entries.specs.declared.entry.Entry.TheVariants as entry;
ghost use Rattle.bpf_entries.specs.Texts.{text};

use crate::write::runs::{put_fetch, put_store};
use bpf_isa::{Reg, Size};

/// Writes the entry of a store whose old bytes are the lowest ones of a number: 16 bytes and those.
#[inline(always)]
pub fn put_store_number(room: &mut [u8], pc: u16, address: u64, size: Size, old: u64, mark: bool)
    requires { 16 + size_len size ≤ length room.old }
    ensures { room.new ≡ text (entry.Store pc address (little_bytes (size_len size) old))
        mark ++ drop (16 + size_len size) room.old }
{
    match size {
        Size::Byte => put_store(room, pc, address, &[(old % 256) as u8], mark),
        Size::Half => put_store(
            room,
            pc,
            address,
            &((old % 65_536) as u16).to_le_bytes(),
            mark,
        ),
        Size::Word => put_store(
            room,
            pc,
            address,
            &((old % 4_294_967_296) as u32).to_le_bytes(),
            mark,
        ),
        Size::Double => put_store(room, pc, address, &old.to_le_bytes(), mark),
    }
}

/// Writes the entry of a fetch whose old bytes are the lowest ones of a number: 25 bytes and those.
#[inline(always)]
pub fn put_fetch_number(
    room: &mut [u8],
    pc: u16,
    register: Reg,
    value: u64,
    address: u64,
    size: Size,
    old: u64,
    mark: bool,
)
    requires { 25 + size_len size ≤ length room.old }
    ensures { room.new ≡ text
        (entry.Fetch pc register value address (little_bytes (size_len size) old)) mark ++ drop
        (25 + size_len size) room.old }
{
    match size {
        Size::Byte => put_fetch(
            room,
            pc,
            register,
            value,
            address,
            &[(old % 256) as u8],
            mark,
        ),
        Size::Half => put_fetch(
            room,
            pc,
            register,
            value,
            address,
            &((old % 65_536) as u16).to_le_bytes(),
            mark,
        ),
        Size::Word => put_fetch(
            room,
            pc,
            register,
            value,
            address,
            &((old % 4_294_967_296) as u32).to_le_bytes(),
            mark,
        ),
        Size::Double => put_fetch(room, pc, register, value, address, &old.to_le_bytes(), mark),
    }
}
