//! The names of what lies in the maps of a program.
ghost use Rattle.std.specs.Prelude.{◌≡◌, ◌≤◌, ◌<◌, ◌/◌, ◌%◌, IfOk, IfErr, IfSome, length, Ok, Err, Some, None};
ghost use Rattle.bpf_btf.specs.declared.fault.BtfFault.TheVariants as btf;
ghost use Rattle.bpf_isa.specs.Maps.{most_maps};
ghost use Rattle.bpf_link.specs.Data.{data_of};
ghost use Rattle.bpf_link.specs.Links.{planned};
ghost use Rattle.bpf_link.specs.Names.{short_at};
ghost use Rattle.bpf_link.specs.declared.fault.LinkFault.TheVariants.{Memory};
ghost use Rattle.counted_io.specs.Writing.{WritesAfter};
ghost use Rattle.bpf_lines.specs.NamedMaps as spec;

use crate::globals::{Global, global_at};
use crate::named_maps::{NamedMap, named_maps};
use crate::spot::{Spot, put_index, put_path, put_rest};
use arrayvec::ArrayVec;
use bpf_btf::{Btf, BtfFault};
use bpf_isa::{MOST_MAPS, MapShape};
use bpf_link::{LinkFault, Plan, data_of, planned, short_at, types_in};
use bpf_packet::Packet;
use bpf_steps::platform::{MAP_BASE, MAP_STRIDE};
use bpfdb_script::put_shown;
use counted_io::{Counted, Piece, WriteFault, put_all};
use std::alloc::Global as Heap;
use std::io::Write;

/// A section `.BTF` without types and names.
const NO_TYPES: &[u8] = &[
    0x9f, 0xeb, 1, 0, 24, 0, 0, 0, 0, 0, 0, 0, 0, 0, 0, 0, 0, 0, 0, 0, 0, 0, 0, 0,
];

/// What is known of the names of a program's maps, and of what lies in them.
#[derive(Drop)]
pub struct Names<'a> {
    pub plan: Plan<'a>,
    pub types: Btf<'a>,
    /// The maps, in the order of their numbers.
    pub maps: ArrayVec<NamedMap, MOST_MAPS>,
    /// The kernel's struct that the program is given, by words before its own.
    pub packet: Option<Packet>,
}

/// A byte of a map.
#[derive(Clone, Copy)]
pub struct Located {
    pub number: usize,
    pub map: NamedMap,
    /// How far it lies behind the map's beginning.
    pub offset: u32,
}

/// The types of a section `.BTF`: none where that isn't read.
pub(crate) fn types_of(heap: Heap, bytes: &[u8]) -> Result<Btf<'_>, LinkFault>
    ensures ok { IfOk result (λ types. spec.AreTypesOf bytes.now types) }
    ensures err { IfErr result (λ fault. fault ≡ Memory) }
{
    match Btf::read(heap, bytes) {
        Ok(types) => Ok(types),
        Err(BtfFault::Memory) => Err(LinkFault::Memory),
        Err(_) => match Btf::read(heap, NO_TYPES) {
            Ok(types) => Ok(types),
            Err(_) => Err(LinkFault::Memory),
        },
    }
}

/// What is known of the names of the maps of a program to which a section of an object was linked
/// (named as for `link_with`) for an entry that takes this struct: how many of them the object defines
/// itself, the shapes of all, and where their names stand there, as `Linked` has them.
///
/// Takes time in proportion to the length of the object.
pub fn map_names<'a>(
    alloc: Heap,
    object: &'a [u8],
    section: &[u8],
    own: usize,
    shapes: &[MapShape],
    places: &[usize],
    packet: Option<Packet>,
) -> Result<Names<'a>, LinkFault>
    requires { length shapes.now ≤ most_maps }
    ensures ok { IfOk result (λ names.
        spec.AreNames object.now section.now own shapes.now places.now packet names) }
    ensures err { IfErr result (spec.IsNamesRefusal object.now section.now) }
{
    let plan = match planned(object, section) {
        Ok(plan) => plan,
        Err(fault) => return Err(fault),
    };
    let sections = match data_of(&plan) {
        Ok(sections) => sections,
        Err(fault) => return Err(fault),
    };
    let types = match types_of(alloc, types_in(&plan.object)) {
        Ok(types) => types,
        Err(fault) => return Err(fault),
    };
    let maps = named_maps(&plan, &types, own, sections.as_slice(), shapes, places);
    Ok(Names {
        plan,
        types,
        maps,
        packet,
    })
}

impl<'a> Names<'a> {
    /// The byte of a map that lies at an address.
    pub fn locate(&self, address: u64) -> Option<Located>
        ensures value { result ≡ spec.located self.now.maps.items address }
        ensures sized { IfSome result (λ at. 0 < at.map.shape.value_size) }
    {
        if address < MAP_BASE {
            return None;
        }
        let number = ((address - MAP_BASE) / MAP_STRIDE) as usize;
        let offset = ((address - MAP_BASE) % MAP_STRIDE) as u32;
        let maps = self.maps.as_slice();
        match maps.get(number).copied() {
            Some(map) => located_in(number, map, offset),
            None => None,
        }
    }
}

/// The byte of a map that lies so far behind its beginning.
fn located_in(number: usize, map: NamedMap, offset: u32) -> Option<Located>
    ensures value { result ≡ spec.located_in number (Some map) offset }
    ensures sized { IfSome result (λ at. 0 < at.map.shape.value_size) }
{
    let size = u64::from(map.shape.value_size) * u64::from(map.shape.entries);
    if u64::from(offset) >= size {
        return None;
    }
    Some(Located {
        number,
        map,
        offset,
    })
}

/// Writes the name of a map, or its number where it has none.
fn put_base<W: Write>(
    writer: &mut Counted<W>,
    so_far: Result<(), WriteFault>,
    number: usize,
    name: &[u8],
) -> Result<(), WriteFault>
    ensures { WritesAfter W.contents writer.old so_far writer.new result
        (spec.base_text number name.now) }
{
    match name {
        [] => {
            let number = number as u64;
            let pieces = [Piece::Text(b"map "), Piece::Decimal(number)];
            put_all(writer, so_far, &pieces)
        }
        _ => put_shown(writer, so_far, name),
    }
}

/// Writes what of a value of a type a byte is.
fn put_typed<W: Write>(
    writer: &mut Counted<W>,
    so_far: Result<(), WriteFault>,
    types: &Btf<'_>,
    of: Option<usize>,
    offset: u32,
) -> Result<(), WriteFault>
    ensures { WritesAfter W.contents writer.old so_far writer.new result
        (spec.typed_text types.now of offset) }
{
    match of {
        Some(of) => put_path(writer, so_far, types, Spot { of, offset }),
        None => put_rest(writer, so_far, offset),
    }
}

/// Writes which value of a map a byte lies in, and what of it it is.
fn put_value<W: Write>(
    writer: &mut Counted<W>,
    so_far: Result<(), WriteFault>,
    types: &Btf<'_>,
    root: Option<usize>,
    size: u32,
    offset: u32,
) -> Result<(), WriteFault>
    requires { 0 < size }
    ensures { WritesAfter W.contents writer.old so_far writer.new result
        (spec.value_text types.now root size offset) }
{
    let indexed = put_index(writer, so_far, offset / size);
    put_typed(writer, indexed, types, root, offset % size)
}

/// Writes what of a section of data a byte is: of a variable, or else of the section.
fn put_global<W: Write>(
    writer: &mut Counted<W>,
    so_far: Result<(), WriteFault>,
    names: &Names<'_>,
    at: Located,
    name: &[u8],
    global: Option<Global>,
) -> Result<(), WriteFault>
    ensures { WritesAfter W.contents writer.old so_far writer.new result
        (spec.global_text names.now.plan.object.bytes names.now.types at.number name.now at.offset
        global) }
{
    match global {
        Some(global) => {
            let variable = short_at(names.plan.object.bytes(), global.name);
            let named = put_shown(writer, so_far, variable);
            put_typed(writer, named, &names.types, global.of, global.offset)
        }
        None => {
            let named = put_base(writer, so_far, at.number, name);
            put_rest(writer, named, at.offset)
        }
    }
}

/// Writes the name of a byte of a map.
pub fn put_name<W: Write>(
    writer: &mut Counted<W>,
    so_far: Result<(), WriteFault>,
    names: &Names<'_>,
    at: Located,
) -> Result<(), WriteFault>
    requires { 0 < at.map.shape.value_size }
    ensures { WritesAfter W.contents writer.old so_far writer.new result
        (spec.name_text names.now at) }
{
    let name = short_at(names.plan.object.bytes(), at.map.name);
    match at.map.section {
        Some(section) => {
            let global = global_at(&names.plan, &names.types, section, at.map.root, at.offset);
            put_global(writer, so_far, names, at, name, global)
        }
        None => {
            let based = put_base(writer, so_far, at.number, name);
            let size = at.map.shape.value_size;
            put_value(writer, based, &names.types, at.map.root, size, at.offset)
        }
    }
}
