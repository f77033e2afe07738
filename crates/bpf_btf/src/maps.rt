//! The shapes of the maps that are defined in the section `.maps`.
ghost use Rattle.std.specs.Prelude.{◌≡◌, ◌≤◌, ◌<◌, ◌+◌, ◌*◌, Some, None, IfSome, Ok, Err, IfOk, if◌then◌else◌};
ghost use Rattle.bpf_isa.specs.Maps.{IsShape};
ghost use Rattle.bpf_btf.specs.Types.{start_of, type_of};
ghost use Rattle.bpf_btf.specs.Maps.{is_maps, maps_section, variable_at, is_variable, is_variable_at, variable_of, struct_of, definition_of, described_by, is_array, limited, map_description, sizes_of, shape_by, map_shape, value_of, value_type};

use crate::fault::BtfFault;
use crate::members::{latest, member_of, number_of, pointed, size_by};
use crate::section::Btf;
use crate::sizes::resolved;
use bpf_isa::{LONGEST_VALUE, MOST_ENTRIES, MOST_MAP_BYTES, MapFault, MapShape};

/// The most bytes of a map's name. It is compared with the name of each variable of `.maps`, and
/// with one as long as the section that would take time in the square of its length.
const LONGEST_NAME: usize = 255;

/// What BTF says of a map of any kind. 0 is what it doesn't say.
#[derive(Clone, Copy)]
pub struct MapDescription {
    /// The kind, as in `enum bpf_map_type` of the kernel's `<linux/bpf.h>`.
    pub kind: u32,
    /// The size of a key in bytes.
    pub key_size: u32,
    /// The size of a value in bytes.
    pub value_size: u32,
    /// How many entries it has at most.
    pub entries: u32,
}

/// Whether a type is the section of maps.
fn is_maps(btf: &Btf<'_>, id: usize) -> bool
    ensures { result ≡ is_maps btf.now id }
{
    let entry = btf.type_of(id);
    entry.kind == 15 && btf.is_called(entry.name, b".maps")
}

/// How many types stand before the section of maps.
fn maps_section(btf: &Btf<'_>) -> Option<usize>
    ensures value { result ≡ maps_section btf.now }
    ensures below { IfSome result (λ i. i < 18446744073709551615) }
{
    let mut found = None;
    for i in 0..btf.len() {
        found = latest(found, is_maps(btf, i + 1), i);
    }
    found
}

/// Whether a type is the variable of a name.
fn is_variable(btf: &Btf<'_>, name: &[u8], id: usize) -> bool
    ensures { result ≡ is_variable btf.now name.now id }
{
    let entry = btf.type_of(id);
    entry.kind == 14 && btf.is_called(entry.name, name)
}

/// Whether the variable of a section by its index is that of a name.
fn is_variable_at(btf: &Btf<'_>, name: &[u8], section: usize, i: usize) -> bool
    requires { i < 65536 }
    ensures { result ≡ is_variable_at btf.now name.now section i }
{
    is_variable(btf, name, btf.variable_at(section, i))
}

/// The index of the last variable of a name in a section.
pub fn variable_of(btf: &Btf<'_>, name: &[u8], section: usize) -> Option<usize>
    ensures value { result ≡ variable_of btf.now name.now section }
    ensures below { IfSome result (λ i. i < 65536) }
{
    let mut found = None;
    let count = btf.type_of(section).count as usize;
    for i in 0..count {
        found = latest(found, is_variable_at(btf, name, section, i), i);
    }
    found
}

/// The struct that is the type of a variable.
fn struct_of(btf: &Btf<'_>, variable: usize) -> Result<usize, BtfFault>
    ensures { result ≡ struct_of btf.now variable }
{
    let id = resolved(btf, btf.type_of(variable).of as usize);
    if btf.type_of(id).kind == 4 {
        Ok(id)
    } else {
        Err(BtfFault::NoStruct)
    }
}

/// The struct that defines the map of a name.
fn definition_of(btf: &Btf<'_>, name: &[u8]) -> Result<usize, BtfFault>
    ensures { result ≡ definition_of btf.now name.now }
{
    match maps_section(btf) {
        Some(before) => match variable_of(btf, name, before + 1) {
            Some(i) => struct_of(btf, btf.variable_at(before + 1, i)),
            None => Err(BtfFault::NoMap),
        },
        None => Err(BtfFault::NoMap),
    }
}

/// What a struct says of a map.
fn described_by(btf: &Btf<'_>, definition: usize) -> Result<MapDescription, BtfFault>
    ensures { result ≡ described_by btf.now definition }
{
    let kind = match number_of(btf, definition, b"type") {
        Ok(kind) => kind,
        Err(fault) => return Err(fault),
    };
    let key_size = match size_by(btf, definition, b"key_size", b"key") {
        Ok(size) => size,
        Err(fault) => return Err(fault),
    };
    let value_size = match size_by(btf, definition, b"value_size", b"value") {
        Ok(size) => size,
        Err(fault) => return Err(fault),
    };
    match number_of(btf, definition, b"max_entries") {
        Ok(entries) => Ok(MapDescription {
            kind,
            key_size,
            value_size,
            entries,
        }),
        Err(fault) => Err(fault),
    }
}

/// What is said of the map of a name of at most 255 bytes, whatever its kind.
///
/// Takes time in proportion to the length of the section.
pub fn map_description(btf: &Btf<'_>, name: &[u8]) -> Result<MapDescription, BtfFault>
    ensures { result ≡ map_description btf.now name.now }
{
    if name.len() > LONGEST_NAME {
        return Err(BtfFault::LongName);
    }
    match definition_of(btf, name) {
        Ok(definition) => described_by(btf, definition),
        Err(fault) => Err(fault),
    }
}

fn is_array(kind: u32) -> bool
    ensures { result ≡ is_array kind }
{
    kind == 2 || kind == 6
}

/// The shape of so many bytes and entries, if the machine may have it.
fn limited(value_size: u32, entries: u32) -> Result<MapShape, BtfFault>
    ensures value { result ≡ limited value_size entries }
    ensures possible { IfOk result IsShape }
{
    if value_size == 0 || value_size > LONGEST_VALUE {
        return Err(BtfFault::Limits(MapFault::ValueSize));
    }
    if entries == 0 || entries > MOST_ENTRIES {
        return Err(BtfFault::Limits(MapFault::Entries));
    }
    if value_size * entries > MOST_MAP_BYTES {
        return Err(BtfFault::Limits(MapFault::Total));
    }
    Ok(MapShape {
        value_size,
        entries,
    })
}

/// The shape that a struct says, of an array.
fn sizes_of(btf: &Btf<'_>, definition: usize) -> Result<MapShape, BtfFault>
    ensures value { result ≡ sizes_of btf.now definition }
    ensures possible { IfOk result IsShape }
{
    let key = match size_by(btf, definition, b"key_size", b"key") {
        Ok(key) => key,
        Err(fault) => return Err(fault),
    };
    if key != 4 {
        return Err(BtfFault::KeySize);
    }
    let value = match size_by(btf, definition, b"value_size", b"value") {
        Ok(value) => value,
        Err(fault) => return Err(fault),
    };
    match number_of(btf, definition, b"max_entries") {
        Ok(entries) => limited(value, entries),
        Err(fault) => Err(fault),
    }
}

/// The shape that a struct says.
fn shape_by(btf: &Btf<'_>, definition: usize) -> Result<MapShape, BtfFault>
    ensures value { result ≡ shape_by btf.now definition }
    ensures possible { IfOk result IsShape }
{
    let kind = match number_of(btf, definition, b"type") {
        Ok(kind) => kind,
        Err(fault) => return Err(fault),
    };
    if !is_array(kind) {
        return Err(BtfFault::Kind(kind));
    }
    sizes_of(btf, definition)
}

/// The shape of the map of a name of at most 255 bytes, which the machine may have.
///
/// Takes time in proportion to the length of the section.
pub fn map_shape(btf: &Btf<'_>, name: &[u8]) -> Result<MapShape, BtfFault>
    ensures value { result ≡ map_shape btf.now name.now }
    ensures possible { IfOk result IsShape }
{
    if name.len() > LONGEST_NAME {
        return Err(BtfFault::LongName);
    }
    match definition_of(btf, name) {
        Ok(definition) => shape_by(btf, definition),
        Err(fault) => Err(fault),
    }
}

/// The type of the values that a struct defines.
fn value_of(btf: &Btf<'_>, definition: usize) -> Option<usize>
    ensures { result ≡ value_of btf.now definition }
{
    match member_of(btf, definition, b"value") {
        Some(i) => pointed(btf, btf.member_at(definition, i).of as usize),
        None => None,
    }
}

/// The type of the values of the map of a name of at most 255 bytes.
///
/// Takes time in proportion to the length of the section.
pub fn value_type(btf: &Btf<'_>, name: &[u8]) -> Option<usize>
    ensures { result ≡ value_type btf.now name.now }
{
    if name.len() > LONGEST_NAME {
        return None;
    }
    match definition_of(btf, name) {
        Ok(definition) => value_of(btf, definition),
        Err(_) => None,
    }
}
