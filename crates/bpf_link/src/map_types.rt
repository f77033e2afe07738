//! The shapes of maps in `.maps`, by the BTF of an object.
ghost use Rattle.std.specs.Prelude.{◌≡◌, ◌≤◌, ◌<◌, ◌⊎◌, IfOk, IfErr, IfSome, Ok, Err, length, position};
ghost use Rattle.std.specs.List.{position_or_len};
ghost use Rattle.bpf_link.specs.MapTypes.{are_in_maps, found_named, types_found, section_bytes, types_bytes, is_something, is_typed, is_zero_byte, name_from, is_map_at, named_bytes, symbol_of, name_place, told_of_map, typed_by_name, typed_at, typed_shapes};
ghost use Rattle.bpf_isa.specs.Maps.{most_maps};
ghost use Rattle.bpf_link.specs.Objects.{opened};
ghost use Rattle.bpf_link.specs.Sections.{FoundBelow};
ghost use Rattle.bpf_link.specs.Refusals.{IsTypeFault};
ghost use Rattle.bpf_link.specs.Shapes.{AreTyped};

use crate::fault::LinkFault;
use crate::fields::lies;
use crate::layout::{SectionHeader, SymbolEntry};
use crate::object::{Object, open};
use crate::patch::is_map;
use crate::plan::{Plan, symbol_place};
use crate::sections::{Found, is_named};
use crate::shapes::in_order;
use arrayvec::ArrayVec;
use bpf_btf::{Btf, BtfFault};
use bpf_isa::{MOST_MAPS, MapShape};
use std::alloc::Global;

/// Whether the maps stand in `.maps`.
pub fn are_in_maps(plan: &Plan<'_>) -> bool
    ensures { result ≡ are_in_maps plan.now }
{
    if plan.maps >= plan.object.len() {
        return false;
    }
    let section = plan.object.section(plan.maps);
    is_named(&plan.object, &section, b".maps")
}

/// The section of a name.
pub fn found_named(object: &Object<'_>, name: &[u8]) -> Found
    ensures value { result ≡ found_named object.now name.now }
    ensures within { FoundBelow (length object.now.sections) result }
{
    let mut found = Found::Nothing;
    for i in 0..object.len() {
        let section = object.section(i);
        found = found.with(is_named(object, &section, name), i);
    }
    found
}

/// The section of BTF.
fn types_found(object: &Object<'_>) -> Found
    ensures value { result ≡ types_found object.now }
    ensures within { FoundBelow (length object.now.sections) result }
{
    found_named(object, b".BTF")
}

/// The bytes of a section; none where it doesn't lie in the file.
pub fn section_bytes<'a>(object: &Object<'a>, section: &SectionHeader) -> &'a [u8]
    ensures { result.now ≡ section_bytes object.now section.now }
{
    let bytes = object.bytes();
    if !lies(bytes, section.offset, section.size) {
        return &[];
    }
    let at = section.offset as usize;
    &bytes[at..at + section.size as usize]
}

/// The bytes of the only section that was found.
pub fn types_bytes<'a>(object: &Object<'a>, found: Found) -> &'a [u8]
    requires { FoundBelow (length object.now.sections) found }
    ensures { result.now ≡ types_bytes object.now found }
{
    match found {
        Found::Nothing => &[],
        Found::Only(i) => section_bytes(object, &object.section(i)),
        Found::Several => &[],
    }
}

/// The bytes of an object's only section of a name; none where there isn't one, or it doesn't lie in
/// the file, or the file isn't an object.
///
/// Takes time in proportion to the number of sections.
pub fn named_bytes<'a>(file: &'a [u8], name: &[u8]) -> &'a [u8]
    ensures { result.now ≡ named_bytes (opened file.now) name.now }
{
    match open(file) {
        Ok(object) => types_bytes(&object, found_named(&object, name)),
        Err(_) => &[],
    }
}

/// The bytes of the section of BTF.
pub fn types_in<'a>(object: &Object<'a>) -> &'a [u8]
    ensures { result.now ≡ types_bytes object.now (types_found object.now) }
{
    types_bytes(object, types_found(object))
}

/// Whether a search found something.
pub fn is_something(found: Found) -> bool
    ensures { result ≡ is_something found }
{
    match found {
        Found::Nothing => false,
        Found::Only(_) => true,
        Found::Several => true,
    }
}

/// Whether there are maps whose shapes BTF tells.
pub fn is_typed(plan: &Plan<'_>, maps: &[u64]) -> bool
    ensures { result ≡ is_typed plan.now maps.now }
{
    if maps.is_empty() {
        return false;
    }
    are_in_maps(plan) && is_something(types_found(&plan.object))
}

/// Where the first zero stands.
fn zero_in(bytes: &[u8]) -> Option<usize>
    ensures { result ≡ position is_zero_byte bytes.now }
{
    bytes.iter().position(|byte| *byte == 0)
}

/// Where the first zero stands, or the length.
#[tactic(auto, using(counted_io::proofs::Places::unwrap_or_position))]
fn end_of(bytes: &[u8]) -> usize
    ensures value { result ≡ position_or_len is_zero_byte bytes.now }
    ensures within { result ≤ length bytes.now }
{
    zero_in(bytes).unwrap_or(bytes.len())
}

/// The name that stands at a place in the file.
pub fn name_from(bytes: &[u8], at: usize) -> &[u8]
    requires { at ≤ length bytes.now }
    ensures { result.now ≡ name_from bytes.now at }
{
    let rest = &bytes[at..];
    &rest[..end_of(rest)]
}

/// Whether a symbol names the map at a place.
fn is_map_at(plan: &Plan<'_>, place: u64, symbol: &SymbolEntry) -> bool
    ensures { result ≡ is_map_at plan.now place symbol.now }
{
    is_map(plan.maps, symbol) && symbol.value == place
}

/// The last symbol that names the map at a place.
pub fn symbol_of(plan: &Plan<'_>, place: u64) -> Option<usize>
    ensures value { result ≡ symbol_of plan.now place }
    ensures below { IfSome result (λ i. i < length plan.now.symbols) }
{
    let mut found = None;
    for i in 0..plan.symbols.len() {
        let symbol = plan.symbols.at(i);
        if is_map_at(plan, place, &symbol) {
            found = Some(i);
        }
    }
    found
}

/// Where the name of a symbol stands.
pub fn name_place(plan: &Plan<'_>, symbol: Option<usize>) -> usize
    requires { IfSome symbol (λ i. i < length plan.now.symbols) }
    ensures value { result ≡ name_place plan.now symbol }
    ensures inside { result ≤ length plan.now.object.bytes }
{
    let Some(i) = symbol else {
        return plan.object.bytes().len();
    };
    symbol_place(plan, &plan.symbols.at(i))
}

/// A shape, or the fault of the map whose name stands at a place in the file.
fn told_of_map(at: usize, told: Result<MapShape, BtfFault>) -> Result<MapShape, LinkFault>
    ensures { result ≡ told_of_map at told }
{
    match told {
        Ok(shape) => Ok(shape),
        Err(fault) => Err(LinkFault::Map { at, fault }),
    }
}

/// The shape of the map whose name stands at a place in the file.
fn typed_by_name(bytes: &[u8], types: &Btf<'_>, at: usize) -> Result<MapShape, LinkFault>
    requires { at ≤ length bytes.now }
    ensures { result ≡ typed_by_name bytes.now types.now at }
{
    told_of_map(at, types.map_shape(name_from(bytes, at)))
}

/// The shape of the map at a place.
fn typed_at(plan: &Plan<'_>, types: &Btf<'_>, place: u64) -> Result<MapShape, LinkFault>
    ensures { result ≡ typed_at plan.now types.now place }
{
    let symbol = symbol_of(plan, place);
    typed_by_name(plan.object.bytes(), types, name_place(plan, symbol))
}

/// The shapes of the maps at places.
fn typed_shapes(
    plan: &Plan<'_>,
    types: &Btf<'_>,
    places: &[u64],
) -> Result<ArrayVec<MapShape, MOST_MAPS>, LinkFault>
    requires { length places.now ≤ most_maps }
    ensures ok { IfOk result (λ shapes.
        typed_shapes plan.now types.now places.now ≡ Ok shapes.items) }
    ensures size { IfOk result (λ shapes. length shapes.items ≡ length places.now) }
    ensures err { IfErr result (λ fault.
        typed_shapes plan.now types.now places.now ≡ Err fault) }
{
    let mut shapes = ArrayVec::new();
    for k in 0..places.len() {
        match typed_at(plan, types, places[k]) {
            Ok(shape) => shapes.push(shape),
            Err(fault) => return Err(fault),
        }
    }
    Ok(shapes)
}

/// What is told of BTF that isn't read.
pub fn told_of_types(fault: BtfFault) -> LinkFault
    ensures { (result ≡ LinkFault.Memory) ⊎ (result ≡ LinkFault.Types fault) }
{
    match fault {
        BtfFault::Memory => LinkFault::Memory,
        _ => LinkFault::Types(fault),
    }
}

/// The shapes of maps that stand at places of `.maps`, in the order of their numbers.
pub fn shapes_by_types(
    alloc: Global,
    plan: &Plan<'_>,
    maps: &[u64],
) -> Result<ArrayVec<MapShape, MOST_MAPS>, LinkFault>
    requires { length maps.now ≤ most_maps }
    ensures ok { IfOk result (λ shapes. AreTyped plan.now maps.now shapes.items) }
    ensures few { IfOk result (λ shapes. length shapes.items ≤ length maps.now) }
    ensures err { IfErr result (IsTypeFault plan.now maps.now) }
{
    let types = match Btf::read(alloc, types_in(&plan.object)) {
        Ok(types) => types,
        Err(fault) => return Err(told_of_types(fault)),
    };
    let ordered = in_order(maps);
    match typed_shapes(plan, &types, ordered.as_slice()) {
        Ok(shapes) => Ok(shapes),
        Err(fault) => Err(fault),
    }
}
