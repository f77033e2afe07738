//! Numbers in the bytes of an object, the low byte first.
ghost use Rattle.std.specs.Prelude.{◌≡◌, ◌≤◌, ◌+◌, length, nat_le};
ghost use Rattle.bpf_isa.specs.Words.{u16_at, u32_at};
ghost use Rattle.bpf_link.specs.Layout.{u64_at};

use byteorder::{ByteOrder, LittleEndian};

/// The number in the two bytes at a place.
pub fn u16_at(object: &[u8], at: usize) -> u16
    requires { at + 2 ≤ length object.now }
    ensures { result ≡ u16_at object.now at }
{
    LittleEndian::read_u16(&object[at..])
}

/// The number in the four bytes at a place.
pub fn u32_at(object: &[u8], at: usize) -> u32
    requires { at + 4 ≤ length object.now }
    ensures { result ≡ u32_at object.now at }
{
    LittleEndian::read_u32(&object[at..])
}

/// The number in the eight bytes at a place.
pub fn u64_at(object: &[u8], at: usize) -> u64
    requires { at + 8 ≤ length object.now }
    ensures { result ≡ u64_at object.now at }
{
    LittleEndian::read_u64(&object[at..])
}

/// Whether so many bytes from a place on lie in the object.
pub fn lies(object: &[u8], at: u64, size: u64) -> bool
    ensures { result ≡ nat_le (at + size) (length object.now) }
{
    let len = object.len() as u64;
    at <= len && size <= len - at
}
