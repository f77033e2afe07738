//! Tables of an object: bytes in which entries of one size stand, one after the other.
ghost use Rattle.std.specs.Prelude.{◌≡◌, ◌<◌, length};
ghost use Rattle.bpf_link.specs.Layout.{relocation_entry};
ghost use Rattle.bpf_link.specs.Tables.{relocation_at, symbol_at};

use crate::layout::{RelocationEntry, SymbolEntry, relocation_entry, symbol_entry};
use std::marker::Model;

/// Bytes of an object.
#[derive(Drop)]
pub struct Bytes<'a> {
    pub bytes: &'a [u8],
}

impl<'a> Model for Bytes<'a> {
    ghost use Rattle.std.specs.Prelude.{ℕ, List};

    ghost Value = { List ℕ };

    ghost view = { λ b. b.bytes.now };
}

/// Symbols, of 24 bytes each. Contracts see a list.
#[derive(Drop)]
pub struct Symbols<'a> {
    pub bytes: &'a [u8],
}

impl<'a> Model for Symbols<'a> {
    ghost use Rattle.std.specs.Prelude.{List};
    ghost use Rattle.bpf_link.specs.Layout.{relocation_entry};
    ghost use Rattle.bpf_link.specs.Tables.{symbols_in};
    ghost use Rattle.bpf_link.specs.declared.layout.SymbolEntry.{SymbolEntry};

    ghost Value = { List SymbolEntry };

    ghost view = { λ s. symbols_in s.bytes.now };
}

impl<'a> Symbols<'a> {
    pub fn len(&self) -> usize
        ensures { result ≡ length self.now }
    {
        self.bytes.len() / 24
    }

    /// A symbol by its index.
    pub fn at(&self, i: usize) -> SymbolEntry
        requires { i < length self.now }
        ensures { result ≡ symbol_at self.now i }
    {
        symbol_entry(self.bytes, 24 * i)
    }
}

/// Relocations, of 16 bytes each. Contracts see a list.
#[derive(Drop)]
pub struct Relocations<'a> {
    pub bytes: &'a [u8],
}

impl<'a> Model for Relocations<'a> {
    ghost use Rattle.std.specs.Prelude.{List};
    ghost use Rattle.bpf_link.specs.Layout.{relocation_entry};
    ghost use Rattle.bpf_link.specs.Tables.{relocations_in};
    ghost use Rattle.bpf_link.specs.declared.layout.RelocationEntry.{RelocationEntry};

    ghost Value = { List RelocationEntry };

    ghost view = { λ r. relocations_in r.bytes.now };
}

impl<'a> Relocations<'a> {
    pub fn len(&self) -> usize
        ensures { result ≡ length self.now }
    {
        self.bytes.len() / 16
    }

    /// A relocation by its index.
    pub fn at(&self, i: usize) -> RelocationEntry
        requires { i < length self.now }
        ensures { result ≡ relocation_at self.now i }
    {
        relocation_entry(self.bytes, 16 * i)
    }

    /// The bytes of a relocation, by its index.
    pub fn bytes_at(&self, i: usize) -> &'a [u8]
        requires { i < length self.now }
        ensures size { length result.now ≡ 16 }
        ensures same { relocation_entry result.now 0 ≡ relocation_at self.now i }
    {
        &self.bytes[16 * i..16 * i + 16]
    }
}
