//! Map tables.
ghost use Rattle.std.specs.Prelude.{◌≡◌, ◌↔◌, [], ◌∷◌, ◌++◌, IfErr, IfOk, IfNone, IfSome, IsSome, IsTrue, OnSome, OnErr, OnOk, length, map, min, position, slice_get};
ghost use Rattle.std.specs.Str.Parse.{IsNumeral, digits_value};
ghost use Rattle.bpf_isa.specs.Faults.{IsLeast, map_fault};
ghost use Rattle.bpf_isa.specs.Maps.{AreMaps, HasMapFault, is_x, IsItem, shape_of, items_of, IsMapList, IsListFault};
ghost use Rattle.bpf_isa.specs.Scaffolding.Demands.{bytes_in, largest_maps};

use crate::fault::MapFault;
use arrayvec::ArrayVec;
use std::marker::Model;

/// How many maps a program may have.
pub const MOST_MAPS: usize = 16;

/// How many bytes a value of a map may have.
pub const LONGEST_VALUE: u32 = 256;

/// How many entries a map may have.
pub const MOST_ENTRIES: u32 = 4_096;

/// How many bytes a map may have in all.
pub const MOST_MAP_BYTES: u32 = 65_536;

/// The shape of an array map: the size of a value in bytes and the number of entries.
#[derive(Clone, Copy, Default)]
pub struct MapShape {
    /// 1 to 256 bytes.
    pub value_size: u32,
    /// 1 to 4,096.
    pub entries: u32,
}

/// The maps of a program, at most `MOST_MAPS`.
#[derive(Drop)]
pub struct MapTable {
    shapes: ArrayVec<MapShape, MOST_MAPS>,
}

impl Model for MapTable {
    ghost use Rattle.std.specs.Prelude.{List};
    ghost use Rattle.bpf_isa.specs.declared.maps.MapShape.{MapShape};
    ghost use Rattle.bpf_isa.specs.Maps.{AreMaps};

    ghost Value = { List MapShape };

    ghost view = { λ t. t.shapes.items };

    ghost invariant = { λ t. AreMaps t.shapes.items };
}

impl MapTable {
    /// A table without maps.
    pub fn empty() -> MapTable
        ensures { result ≡ [] }
    {
        MapTable {
            shapes: ArrayVec::new(),
        }
    }

    /// How many maps there are.
    pub fn len(&self) -> usize
        ensures value { result ≡ length self.now }
        ensures fits { AreMaps self.now }
    {
        self.shapes.len()
    }

    /// The shape of a map by its index, None past the last.
    pub fn shape(&self, map: usize) -> Option<MapShape>
        ensures { result ≡ slice_get self.now map }
    {
        self.shapes.get(map).copied()
    }

    /// How many bytes a map has, by its index; none past the last.
    pub(crate) fn bytes_in(&self, map: usize) -> u64
        ensures { result ≡ bytes_in self.now map }
    {
        match self.shapes.get(map) {
            Some(shape) => u64::from(shape.value_size) * u64::from(shape.entries),
            None => 0,
        }
    }

    /// The largest table: each of its maps has as many bytes as a map may have.
    pub(crate) fn largest() -> MapTable
        ensures { result ≡ largest_maps }
    {
        let shape = MapShape {
            value_size: LONGEST_VALUE,
            entries: MOST_MAP_BYTES / LONGEST_VALUE,
        };
        MapTable {
            shapes: ArrayVec::from([shape; MOST_MAPS]),
        }
    }

    /// A table with the same maps, which shares nothing with this one.
    pub fn copied(&self) -> MapTable
        ensures value { result ≡ self.now }
        ensures fits { AreMaps self.now }
    {
        let mut shapes = ArrayVec::new();
        let _all = shapes.try_extend_from_slice(self.shapes.as_slice());
        MapTable { shapes }
    }

    /// Adds a map with values of some bytes and a number of entries.
    ///
    /// The fault is the one with the least number of those that apply. The table is then as it was.
    pub fn add(&mut self, value_size: u32, entries: u32) -> Result<(), MapFault>
        ensures ok { OnOk result (self.new
            ≡ self.old ++ record { value_size = value_size; entries = entries } ∷ []) }
        ensures fits { OnOk result (AreMaps self.new) }
        ensures fault { IfErr result (IsLeast map_fault (HasMapFault self.old value_size entries)) }
        ensures same { OnErr result (self.new ≡ self.old) }
    {
        if value_size == 0 || value_size > LONGEST_VALUE {
            return Err(MapFault::ValueSize);
        }
        if entries == 0 || entries > MOST_ENTRIES {
            return Err(MapFault::Entries);
        }
        if value_size * entries > MOST_MAP_BYTES {
            return Err(MapFault::Total);
        }
        if self.shapes.is_full() {
            return Err(MapFault::Full);
        }
        self.shapes.push(MapShape {
            value_size,
            entries,
        });
        Ok(())
    }

    /// The maps of a text `VxN,VxN`: value sizes and entries in decimal.
    ///
    /// The fault is that of the text's form, or else of the first map that can't be added.
    pub fn parse(text: &[u8]) -> Result<MapTable, MapFault>
        ensures ok { OnOk result (IsMapList text.now) }
        ensures value { IfOk result (λ maps. maps ≡ map shape_of (items_of text.now)) }
        ensures fault { IfErr result (IsListFault text.now) }
    {
        if !is_map_list(text) {
            return Err(MapFault::Malformed);
        }
        let mut maps = MapTable::empty();
        for item in text.split(|byte| *byte == b',') {
            if let Some((value_size, entries)) = shape_in(item) {
                match maps.add(value_size, entries) {
                    Ok(()) => {}
                    Err(fault) => return Err(fault),
                }
            }
        }
        Ok(maps)
    }
}

/// Whether a text has the form of a list of maps.
fn is_map_list(text: &[u8]) -> bool
    ensures { IsTrue result ↔ IsMapList text.now }
{
    for item in text.split(|byte| *byte == b',') {
        if shape_in(item).is_none() {
            return false;
        }
    }
    true
}

/// The value of a numeral, at most 2^32 - 1, or None where the digits are no numeral.
fn numeral_value(digits: &[u8]) -> Option<u32>
    ensures value { IfSome result (λ n. n ≡ min (digits_value 10 digits.now) 4294967295) }
    ensures found { OnSome result (IsNumeral 10 digits.now) }
    ensures none { IfNone result (IsNumeral 10 digits.now → ⊥) }
{
    if digits.is_empty() {
        return None;
    }
    let mut value = 0u32;
    for byte in digits {
        match (*byte as char).to_digit(10) {
            Some(digit) => value = value.saturating_mul(10).saturating_add(digit),
            None => return None,
        }
    }
    Some(value)
}

/// Where the first x stands.
fn x_in(item: &[u8]) -> Option<usize>
    ensures { result ≡ position is_x item.now }
{
    item.iter().position(|byte| *byte == b'x')
}

/// The numbers on both sides of an x.
fn shape_in(item: &[u8]) -> Option<(u32, u32)>
    ensures item { IsSome result ↔ IsItem item.now }
    ensures value { IfSome result (λ m. m.0 ≡ min (shape_of item.now).value_size 4294967295) }
    ensures entries { IfSome result (λ m. m.1 ≡ min (shape_of item.now).entries 4294967295) }
{
    let at = x_in(item)?;
    let value_size = numeral_value(&item[..at])?;
    let entries = numeral_value(&item[at + 1..])?;
    Some((value_size, entries))
}
