//! The parts of an object: its header, and the entries of its tables.
ghost use Rattle.std.specs.Prelude.{◌≡◌, ◌≤◌, ◌+◌, length};
ghost use Rattle.bpf_link.specs.Layout.{file_header, section_header, symbol_entry, relocation_entry, map_definition};

use crate::fields::{u16_at, u32_at, u64_at};

/// The header of a file.
#[derive(Clone, Copy)]
pub struct FileHeader {
    /// 0x7f, E, L, F.
    pub magic: u32,
    /// 2 for 64 bits.
    pub class: u8,
    /// 1 for little-endian.
    pub order: u8,
    /// 1 for relocatable.
    pub kind: u16,
    /// 247 for BPF.
    pub machine: u16,
    /// Where the table of sections lies in the file.
    pub sections_at: u64,
    /// The size of an entry of that table, 64 bytes.
    pub entry_size: u16,
    /// How many entries it has.
    pub sections: u16,
    /// The section that holds the names of sections.
    pub names: u16,
}

/// The header of a section.
#[derive(Clone, Copy)]
pub struct SectionHeader {
    /// Where its name stands among the names.
    pub name: u32,
    /// 1 for contents of the program, 2 for symbols, 4 for relocations with addends, 8 for zeros, 9
    /// for relocations without addends.
    pub kind: u32,
    /// 4 for instructions, among others.
    pub flags: u64,
    /// Where its contents lie in the file.
    pub offset: u64,
    /// How many bytes they have.
    pub size: u64,
    /// Of relocations: the section of the symbols.
    pub link: u32,
    /// Of relocations: the section that they change.
    pub info: u32,
}

/// A symbol.
#[derive(Clone, Copy)]
pub struct SymbolEntry {
    /// Where its name stands among the names of symbols.
    pub name: u32,
    /// 1 for an object, 2 for a function, 3 for a section.
    pub kind: u8,
    /// 0 for a local symbol, 1 for a global one, 2 for a weak one.
    pub binding: u8,
    /// The section that it lies in, 0 where it is defined elsewhere.
    pub section: u16,
    /// Where it lies in its section.
    pub value: u64,
}

/// A relocation.
#[derive(Clone, Copy)]
pub struct RelocationEntry {
    /// Where it lies in its section.
    pub offset: u64,
    /// 1 for a wide load, 10 for a call.
    pub kind: u32,
    /// The index of its symbol.
    pub symbol: u32,
}

/// The definition of a map: how `struct bpf_map_def` begins.
#[derive(Clone, Copy)]
pub struct MapDefinition {
    /// 2 for an array.
    pub kind: u32,
    /// The size of a key in bytes.
    pub key_size: u32,
    /// The size of a value in bytes.
    pub value_size: u32,
    /// How many entries it has at most.
    pub entries: u32,
}

/// The header of a file.
pub fn file_header(object: &[u8]) -> FileHeader
    requires { 64 ≤ length object.now }
    ensures { result ≡ file_header object.now }
{
    FileHeader {
        magic: u32_at(object, 0),
        class: object[4],
        order: object[5],
        kind: u16_at(object, 16),
        machine: u16_at(object, 18),
        sections_at: u64_at(object, 40),
        entry_size: u16_at(object, 58),
        sections: u16_at(object, 60),
        names: u16_at(object, 62),
    }
}

/// The header of a section, at a place in the file.
pub fn section_header(object: &[u8], at: usize) -> SectionHeader
    requires { at + 64 ≤ length object.now }
    ensures { result ≡ section_header object.now at }
{
    SectionHeader {
        name: u32_at(object, at),
        kind: u32_at(object, at + 4),
        flags: u64_at(object, at + 8),
        offset: u64_at(object, at + 24),
        size: u64_at(object, at + 32),
        link: u32_at(object, at + 40),
        info: u32_at(object, at + 44),
    }
}

/// The symbol at a place in the file.
pub fn symbol_entry(object: &[u8], at: usize) -> SymbolEntry
    requires { at + 24 ≤ length object.now }
    ensures { result ≡ symbol_entry object.now at }
{
    SymbolEntry {
        name: u32_at(object, at),
        kind: object[at + 4] % 16,
        binding: object[at + 4] / 16,
        section: u16_at(object, at + 6),
        value: u64_at(object, at + 8),
    }
}

/// The relocation at a place in the file.
pub fn relocation_entry(object: &[u8], at: usize) -> RelocationEntry
    requires { at + 16 ≤ length object.now }
    ensures { result ≡ relocation_entry object.now at }
{
    RelocationEntry {
        offset: u64_at(object, at),
        kind: u32_at(object, at + 8),
        symbol: u32_at(object, at + 12),
    }
}

/// The definition of a map at a place in the file.
pub fn map_definition(object: &[u8], at: usize) -> MapDefinition
    requires { at + 16 ≤ length object.now }
    ensures { result ≡ map_definition object.now at }
{
    MapDefinition {
        kind: u32_at(object, at),
        key_size: u32_at(object, at + 4),
        value_size: u32_at(object, at + 8),
        entries: u32_at(object, at + 12),
    }
}
