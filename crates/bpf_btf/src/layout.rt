//! The parts of BTF: its headers, and how types, arrays and members begin.
ghost use Rattle.std.specs.Prelude.{◌≡◌, ◌≤◌, ◌<◌};
ghost use Rattle.bpf_btf.specs.Layout.{btf_header, ext_header, type_entry, array_entry, member_entry};

use crate::fields::{byte_at, u16_at, u32_at};

/// The header of `.BTF`. Types and strings lie at their places behind it.
#[derive(Clone, Copy)]
pub struct BtfHeader {
    /// 0xeb9f.
    pub magic: u16,
    /// 1.
    pub version: u8,
    /// How many bytes the header has, at least 24.
    pub size: u32,
    pub types_at: u32,
    pub types_size: u32,
    pub strings_at: u32,
    pub strings_size: u32,
}

/// The header of `.BTF.ext`.
#[derive(Clone, Copy)]
pub struct ExtHeader {
    /// 0xeb9f.
    pub magic: u16,
    /// 1.
    pub version: u8,
    /// How many bytes the header has, at least 24; from 32 on it names relocations of fields.
    pub size: u32,
    /// Where these lie behind the header.
    pub cores_at: u32,
    pub cores_size: u32,
}

/// How a type begins.
#[derive(Clone, Copy)]
pub struct TypeEntry {
    /// Where its name stands among the strings.
    pub name: u32,
    /// Which kind of type it is: a number of section 2.2.
    pub kind: u32,
    /// How many parts it has: members, values, parameters, variables.
    pub count: u32,
    /// Its size in bytes, or the number of the type that it is made of.
    pub of: u32,
}

/// What an array is of.
#[derive(Clone, Copy)]
pub struct ArrayEntry {
    /// The number of its elements' type.
    pub of: u32,
    /// How many elements it has.
    pub count: u32,
}

/// A member of a struct.
#[derive(Clone, Copy)]
pub struct MemberEntry {
    /// Where its name stands among the strings.
    pub name: u32,
    /// The number of its type.
    pub of: u32,
}

/// The header of a section `.BTF`.
pub fn btf_header(bytes: &[u8]) -> BtfHeader
    ensures { result ≡ btf_header bytes.now }
{
    BtfHeader {
        magic: u16_at(bytes, 0),
        version: byte_at(bytes, 2),
        size: u32_at(bytes, 4),
        types_at: u32_at(bytes, 8),
        types_size: u32_at(bytes, 12),
        strings_at: u32_at(bytes, 16),
        strings_size: u32_at(bytes, 20),
    }
}

/// The header of a section `.BTF.ext`.
pub fn ext_header(bytes: &[u8]) -> ExtHeader
    ensures { result ≡ ext_header bytes.now }
{
    ExtHeader {
        magic: u16_at(bytes, 0),
        version: byte_at(bytes, 2),
        size: u32_at(bytes, 4),
        cores_at: u32_at(bytes, 24),
        cores_size: u32_at(bytes, 28),
    }
}

/// How the type at a place begins.
pub fn type_entry(types: &[u8], at: usize) -> TypeEntry
    requires { at < 18446744073709000000 }
    ensures { result ≡ type_entry types.now at }
{
    let info = u32_at(types, at + 4);
    TypeEntry {
        name: u32_at(types, at),
        kind: info / 0x100_0000 % 32,
        count: info % 0x1_0000,
        of: u32_at(types, at + 8),
    }
}

/// What an array is of, by the place behind its beginning.
pub fn array_entry(types: &[u8], at: usize) -> ArrayEntry
    requires { at < 18446744073709000000 }
    ensures { result ≡ array_entry types.now at }
{
    ArrayEntry {
        of: u32_at(types, at),
        count: u32_at(types, at + 8),
    }
}

/// The member at a place.
pub fn member_entry(types: &[u8], at: usize) -> MemberEntry
    requires { at < 18446744073709000000 }
    ensures { result ≡ member_entry types.now at }
{
    MemberEntry {
        name: u32_at(types, at),
        of: u32_at(types, at + 4),
    }
}
