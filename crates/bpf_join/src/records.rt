//! The records of maps: what the functions that answer for a map are told of it.
ghost use Rattle.std.specs.Prelude.{◌≡◌, ◌≤◌, ◌<◌, ◌+◌, ◌++◌, Ok, IfErr, IfOk, length};
ghost use Rattle.bpf_join.specs.Records.{HasRecords, IsRecordFault, defined, described, map_places, named_place, places_of, record_bytes, records_by, told_of, typed, with_map_of, with_place, with_told};
ghost use Rattle.bpf_link.specs.Links.{MemoryOr};
ghost use Rattle.bpf_link.specs.declared.fault.LinkFault.TheVariants.{Memory};

use crate::spots::name_at_most;
use bpf_btf::{Btf, BtfFault, MapDescription};
use bpf_link::{
    LinkFault, Plan, is_map, map_definition, name_place, symbol_of, told_of_types, types_in,
};
use byteorder::{ByteOrder, LittleEndian};
use std::alloc::Global;

/// The most maps of an object that have records, which are one map of the machine.
const MOST_RECORDS: usize = 1024;

/// The record of a map.
fn record_bytes(it: &MapDescription) -> [u8; 64]
    ensures { result ≡ record_bytes it.now }
{
    let mut bytes = [0; 64];
    LittleEndian::write_u32(&mut bytes[0..4], it.kind);
    LittleEndian::write_u32(&mut bytes[4..8], it.key_size);
    LittleEndian::write_u32(&mut bytes[8..12], it.value_size);
    LittleEndian::write_u32(&mut bytes[12..16], it.entries);
    bytes
}

/// Places with one more, unless it is among them.
fn with_place(place: u64, mut places: Vec<u64>) -> Result<Vec<u64>, LinkFault>
    requires { length places.items ≤ 1024 }
    ensures ok { IfOk result (λ new. with_place place places.items ≡ Ok new.items) }
    ensures short { IfOk result (λ new. length new.items ≤ 1024) }
    ensures err { IfErr result (MemoryOr (with_place place places.items)) }
{
    if places.as_slice().contains(&place) {
        return Ok(places);
    }
    if places.len() >= MOST_RECORDS {
        return Err(LinkFault::ManyRecords);
    }
    match places.push(place) {
        Ok(()) => Ok(places),
        Err(_) => Err(LinkFault::Memory),
    }
}

/// Places with that of the map that a symbol names, if it names one.
fn with_map_of(plan: &Plan<'_>, i: usize, places: Vec<u64>) -> Result<Vec<u64>, LinkFault>
    requires inside { (i < length plan.now.symbols) × (length places.items ≤ 1024) }
    ensures ok { IfOk result (λ new. with_map_of plan.now i places.items ≡ Ok new.items) }
    ensures short { IfOk result (λ new. length new.items ≤ 1024) }
    ensures err { IfErr result (MemoryOr (with_map_of plan.now i places.items)) }
{
    let symbol = plan.symbols.at(i);
    if !is_map(plan.maps, &symbol) {
        return Ok(places);
    }
    with_place(symbol.value, places)
}

/// The places of the maps that the symbols of an object name.
fn map_places(alloc: Global, plan: &Plan<'_>) -> Result<Vec<u64>, LinkFault>
    ensures ok { IfOk result (λ places. map_places plan.now ≡ Ok places.items) }
    ensures short { IfOk result (λ places. length places.items ≤ 1024) }
    ensures err { IfErr result (MemoryOr (map_places plan.now)) }
{
    let mut places = Vec::new(alloc);
    for i in 0..plan.symbols.len() {
        match with_map_of(plan, i, places) {
            Ok(new) => places = new,
            Err(fault) => return Err(fault),
        }
    }
    Ok(places)
}

/// The places of the maps that have records.
pub fn places_of(alloc: Global, first: &Plan<'_>, lookups: bool) -> Result<Vec<u64>, LinkFault>
    ensures ok { IfOk result (λ places. places_of first.now lookups ≡ Ok places.items) }
    ensures short { IfOk result (λ places. length places.items ≤ 1024) }
    ensures err { IfErr result (MemoryOr (places_of first.now lookups)) }
{
    if !lookups {
        return Ok(Vec::new(alloc));
    }
    match map_places(alloc, first) {
        Ok(places) => Ok(places),
        Err(fault) => Err(fault),
    }
}

/// Where the name of the map at a place stands.
fn named_place(plan: &Plan<'_>, place: u64) -> usize
    ensures value { result ≡ named_place plan.now place }
    ensures inside { result ≤ length plan.now.object.bytes }
{
    name_place(plan, symbol_of(plan, place))
}

/// What is said of the map whose name stands at a place in the file.
fn told_of(at: usize, told: Result<MapDescription, BtfFault>) -> Result<MapDescription, LinkFault>
    ensures { result ≡ told_of at told }
{
    match told {
        Ok(it) => Ok(it),
        Err(fault) => Err(LinkFault::Map { at, fault }),
    }
}

/// What BTF says of the map at a place.
fn typed(plan: &Plan<'_>, types: &Btf<'_>, place: u64) -> Result<MapDescription, LinkFault>
    ensures { result ≡ typed plan.now types.now place }
{
    let at = named_place(plan, place);
    told_of(
        at,
        types.map_description(name_at_most(plan.object.bytes(), at)),
    )
}

/// What the definition at a place says.
fn described(definitions: &[u8], place: u64) -> MapDescription
    requires { place + 16 ≤ length definitions.now }
    ensures { result ≡ described definitions.now place }
{
    let it = map_definition(definitions, place as usize);
    MapDescription {
        kind: it.kind,
        key_size: it.key_size,
        value_size: it.value_size,
        entries: it.entries,
    }
}

/// What the definition of the map at a place of its section says.
fn defined(plan: &Plan<'_>, place: u64) -> Result<MapDescription, LinkFault>
    ensures { result ≡ defined plan.now place }
{
    let definitions = plan.definitions.bytes;
    let count = definitions.len() as u64;
    if count >= 16 && place <= count - 16 {
        return Ok(described(definitions, place));
    }
    Err(LinkFault::Map {
        at: named_place(plan, place),
        fault: BtfFault::NoMap,
    })
}

/// Records with one more.
fn with_record(it: &MapDescription, mut records: Vec<u8>) -> Result<Vec<u8>, LinkFault>
    ensures ok { IfOk result (λ new. new.items ≡ records.items ++ record_bytes it.now) }
    ensures err { IfErr result (λ fault. fault ≡ Memory) }
{
    match records.extend_from_slice(&record_bytes(it)) {
        Ok(()) => Ok(records),
        Err(_) => Err(LinkFault::Memory),
    }
}

/// The records of maps of which BTF tells.
fn typed_records(
    alloc: Global,
    plan: &Plan<'_>,
    types: &Btf<'_>,
    places: &[u64],
) -> Result<Vec<u8>, LinkFault>
    ensures ok { IfOk result (λ records.
        records_by (typed plan.now types.now) places.now ≡ Ok records.items) }
    ensures err { IfErr result (MemoryOr (records_by (typed plan.now types.now) places.now)) }
{
    let mut records = Vec::new(alloc);
    for k in 0..places.len() {
        match with_typed(plan, types, places[k], records) {
            Ok(new) => records = new,
            Err(fault) => return Err(fault),
        }
    }
    Ok(records)
}

/// Records with that of a map of which BTF tells.
fn with_typed(
    plan: &Plan<'_>,
    types: &Btf<'_>,
    place: u64,
    records: Vec<u8>,
) -> Result<Vec<u8>, LinkFault>
    ensures ok { IfOk result (λ new.
        with_told (typed plan.now types.now place) records.items ≡ Ok new.items) }
    ensures err { IfErr result (MemoryOr (with_told (typed plan.now types.now place) records.items)) }
{
    match typed(plan, types, place) {
        Ok(it) => with_record(&it, records),
        Err(fault) => Err(fault),
    }
}

/// The records of maps that are defined in their section.
fn defined_records(alloc: Global, plan: &Plan<'_>, places: &[u64]) -> Result<Vec<u8>, LinkFault>
    ensures ok { IfOk result (λ records.
        records_by (defined plan.now) places.now ≡ Ok records.items) }
    ensures err { IfErr result (MemoryOr (records_by (defined plan.now) places.now)) }
{
    let mut records = Vec::new(alloc);
    for k in 0..places.len() {
        match with_defined(plan, places[k], records) {
            Ok(new) => records = new,
            Err(fault) => return Err(fault),
        }
    }
    Ok(records)
}

/// Records with that of a map that is defined in its section.
fn with_defined(plan: &Plan<'_>, place: u64, records: Vec<u8>) -> Result<Vec<u8>, LinkFault>
    ensures ok { IfOk result (λ new.
        with_told (defined plan.now place) records.items ≡ Ok new.items) }
    ensures err { IfErr result (MemoryOr (with_told (defined plan.now place) records.items)) }
{
    match defined(plan, place) {
        Ok(it) => with_record(&it, records),
        Err(fault) => Err(fault),
    }
}

/// The records of an object's maps, of which BTF tells or their section.
pub fn records_of(
    alloc: Global,
    plan: &Plan<'_>,
    has_types: bool,
    places: &[u64],
) -> Result<Vec<u8>, LinkFault>
    ensures ok { IfOk result (λ records. HasRecords has_types plan.now places.now records.items) }
    ensures err { IfErr result (IsRecordFault has_types plan.now places.now) }
{
    if !has_types {
        return defined_records(alloc, plan, places);
    }
    let types = match Btf::read(alloc, types_in(&plan.object)) {
        Ok(types) => types,
        Err(fault) => return Err(told_of_types(fault)),
    };
    match typed_records(alloc, plan, &types, places) {
        Ok(records) => Ok(records),
        Err(fault) => Err(fault),
    }
}
