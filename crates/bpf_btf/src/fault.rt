//! Faults: why a map has no shape, and why BTF isn't read.
ghost use Rattle.std.specs.Prelude.{◌≡◌};
ghost use Rattle.bpf_btf.specs.Faults.{btf_fault};

use crate::map_kinds::kind_text;
use bpf_isa::{LoadFault, MapFault};
use std::fmt::{self, Display, Formatter, Write};
use thiserror::Error;

/// Why a map has no shape, or why BTF isn't read.
#[derive(Clone, Copy, Debug, Error)]
pub enum BtfFault {
    /// The bytes don't begin as BTF does.
    NoBtf,
    /// The BTF isn't of version 1.
    Version,
    /// The header is too short, or what it names doesn't lie in the section.
    Header,
    /// A type is of none of the kinds 1 to 19.
    UnknownType,
    /// A type doesn't end where or before the types do.
    CutType,
    /// The section of maps has no variable of the map's name.
    NoMap,
    /// The type of the map, behind at most 32 names and qualifiers, is no struct.
    NoStruct,
    /// `type`, `max_entries`, `key_size` or `value_size` is no pointer to an array.
    NoNumber,
    /// `key` or `value` is no pointer, or not to a type with a size behind at most 32 names,
    /// qualifiers and arrays.
    NoSize,
    /// Two sizes are given for the keys or for the values, and they differ.
    TwoSizes,
    /// The map is neither an array nor a per-CPU array, but of the kind with this number.
    Kind(u32),
    /// The keys aren't of 4 bytes.
    KeySize,
    /// The machine has no map of this shape.
    Limits(MapFault),
    /// The section `.BTF.ext` doesn't begin as it should, or a part of it is cut off.
    Ext,
    /// The map's name has more than 255 bytes.
    LongName,
    /// Memory ran out.
    Memory,
}

impl BtfFault {
    /// Its number, and its text.
    fn row(self) -> (u8, &'static str)
        ensures number { result.0 ≡ (btf_fault self).0 }
        ensures text { result.1.now ≡ (btf_fault self).1 }
    {
        match self {
            BtfFault::NoBtf => (40, "no BTF in the section .BTF"),
            BtfFault::Version => (41, "BTF of another version than 1"),
            BtfFault::Header => (42, "malformed header of BTF"),
            BtfFault::UnknownType => (43, "BTF has a type of unknown kind"),
            BtfFault::CutType => (44, "BTF has a type that is cut off"),
            BtfFault::NoMap => (45, "map has no description in BTF"),
            BtfFault::NoStruct => (46, "map is defined by no struct"),
            BtfFault::NoNumber => (47, "number of a map's definition is no pointer to an array"),
            BtfFault::NoSize => (
                48,
                "key or value of a map's definition is no pointer to a type with a size",
            ),
            BtfFault::TwoSizes => (49, "map has two sizes of its keys or of its values"),
            BtfFault::Kind(kind) => (50, kind_text(kind)),
            BtfFault::KeySize => (51, "keys of an array are not of 4 bytes"),
            BtfFault::Limits(fault) => (52, fault.text()),
            BtfFault::Ext => (53, "malformed section .BTF.ext"),
            BtfFault::LongName => (54, "name of a map longer than 255 bytes"),
            BtfFault::Memory => (26, LoadFault::Memory.text()),
        }
    }

    /// The number that is printed after E, 40 to 54, and 26 where memory ran out.
    pub fn number(self) -> u8
        ensures { result ≡ (btf_fault self).0 }
    {
        self.row().0
    }

    /// The text that is printed after the number.
    pub fn text(self) -> &'static str
        ensures { result.now ≡ (btf_fault self).1 }
    {
        self.row().1
    }
}

impl Display for BtfFault {
    fn fmt<W: Write>(&self, f: &mut Formatter<W>) -> fmt::Result {
        write!(f, "refused E{}: {}", self.number(), self.text())
    }
}
