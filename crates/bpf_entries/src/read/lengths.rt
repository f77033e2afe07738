//! How many bytes an entry has, from either of its ends.
ghost use Rattle.std.specs.Prelude.{◌≡◌, ◌≤◌, ◌<◌, ◌-◌, ◌^◌, ◌++◌, ℕ, List, length};
ghost use Rattle.byteorder.specs.Endian.{little_bytes};

use byteorder::{ByteOrder, LittleEndian};

/// How many bytes the first entry has, by the first two bytes.
#[inline(always)]
pub fn first_len(bytes: &[u8]) -> usize
    requires { 2 ≤ length bytes.now }
    ensures { (n : ℕ) (rest : List ℕ) → n < 2 ^ 16 → bytes.now ≡ little_bytes 2 n ++ rest →
        result ≡ n }
{
    usize::from(LittleEndian::read_u16(&bytes[0..2]))
}

/// How many bytes the last entry has, by the last two bytes.
#[inline(always)]
pub fn last_len(bytes: &[u8]) -> usize
    requires { 2 ≤ length bytes.now }
    ensures { (before : List ℕ) (n : ℕ) → n < 2 ^ 16 → bytes.now ≡ before ++ little_bytes 2 n →
        result ≡ n }
{
    usize::from(LittleEndian::read_u16(&bytes[bytes.len() - 2..]))
}
