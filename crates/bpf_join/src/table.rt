//! The table of sections of a joined object.
ghost use Rattle.std.specs.Prelude.{◌≡◌, ◌≤◌, ◌<◌, ◌+◌, ◌++◌, ◌||◌, IfErr, IfOk, length};
ghost use Rattle.bpf_join.specs.Tables.{InOrder, entry_size, first_header, first_headers, header_bytes, headers, is_gone, is_moved, is_strings, lies_at, names_index, points, points_below, records_header, relocations_header, second_header, second_headers};
ghost use Rattle.bpf_link.specs.declared.fault.LinkFault.TheVariants.{Memory};

use crate::places::Places;
use bpf_link::{LinkFault, Object, Plan, SectionHeader, Side, is_data, u16_at};
use byteorder::{ByteOrder, LittleEndian};

/// A section that isn't there.
const NO_SECTION: SectionHeader = SectionHeader {
    name: 0,
    kind: 0,
    flags: 0,
    offset: 0,
    size: 0,
    link: 0,
    info: 0,
};

/// The size of an entry of a section of a kind.
fn entry_size(kind: u32) -> u64
    ensures { result ≡ entry_size kind }
{
    match kind {
        2 | 4 => 24,
        9 => 16,
        _ => 0,
    }
}

/// A section's header as it stands in an object.
fn header_bytes(it: &SectionHeader) -> [u8; 64]
    ensures { result ≡ header_bytes it.now }
{
    let mut bytes = [0; 64];
    LittleEndian::write_u32(&mut bytes[0..4], it.name);
    LittleEndian::write_u32(&mut bytes[4..8], it.kind);
    LittleEndian::write_u64(&mut bytes[8..16], it.flags);
    LittleEndian::write_u64(&mut bytes[24..32], it.offset);
    LittleEndian::write_u64(&mut bytes[32..40], it.size);
    LittleEndian::write_u32(&mut bytes[40..44], it.link);
    LittleEndian::write_u32(&mut bytes[44..48], it.info);
    LittleEndian::write_u64(&mut bytes[48..56], 1);
    LittleEndian::write_u64(&mut bytes[56..64], entry_size(it.kind));
    bytes
}

/// A section between two places in the file.
pub fn lies_at(it: &SectionHeader, from: usize, to: usize) -> SectionHeader
    requires { from ≤ to }
    ensures { result ≡ lies_at it.now from to }
{
    SectionHeader {
        name: it.name,
        kind: it.kind,
        flags: it.flags,
        offset: from as u64,
        size: (to - from) as u64,
        link: it.link,
        info: it.info,
    }
}

/// Whether a section's slots stand in the code.
fn is_moved(first: &Plan<'_>, section: usize) -> bool
    ensures { result ≡ is_moved first.now section }
{
    if section == first.parts.part(Side::Code).section {
        return true;
    }
    section > 0 && section == first.parts.part(Side::Text).section
}

/// Whether a section of the first object is there no longer.
fn is_gone(first: &Plan<'_>, i: usize, it: &SectionHeader) -> bool
    ensures { result ≡ is_gone first.now i it.now }
{
    if is_moved(first, i) {
        return true;
    }
    (it.kind == 9 || it.kind == 4) && is_moved(first, it.info as usize)
}

/// The section of the names of sections.
pub fn names_index(object: &Object<'_>) -> usize
    ensures { result ≡ names_index object.now }
{
    let bytes = object.bytes();
    if bytes.len() < 64 {
        return 0;
    }
    usize::from(u16_at(bytes, 62))
}

/// Whether a section has names of sections or of symbols.
fn is_strings(object: &Object<'_>, table: usize, i: usize) -> bool
    requires { table < length object.now.sections }
    ensures { result ≡ is_strings object.now table i }
{
    i == names_index(object) || i == object.section(table).link as usize
}

/// The header of a section of the first object.
fn first_header(first: &Plan<'_>, table: usize, places: &Places, i: usize) -> SectionHeader
    requires table { table < length first.now.object.sections }
    requires inside { i < length first.now.object.sections }
    requires ordered { InOrder places.now }
    ensures { result ≡ first_header first.now table places.now i }
{
    let it = first.object.section(i);
    if i == first.parts.part(Side::Code).section {
        return lies_at(&it, places.code, places.strings);
    }
    if i == table {
        return lies_at(&it, places.symbols, places.relocations);
    }
    if is_strings(&first.object, table, i) {
        return lies_at(&it, places.strings, places.symbols);
    }
    if is_gone(first, i, &it) {
        return NO_SECTION;
    }
    it
}

/// The header of a section of the second object.
fn second_header(second: &Plan<'_>, places: &Places, i: usize) -> SectionHeader
    requires { i < length second.now.object.sections }
    ensures { result ≡ second_header second.now places.now i }
{
    let it = second.object.section(i);
    if !is_data(&second.object, &it) {
        return NO_SECTION;
    }
    SectionHeader {
        name: 0,
        kind: it.kind,
        flags: it.flags,
        offset: it.offset.saturating_add(places.second as u64),
        size: it.size,
        link: it.link,
        info: it.info,
    }
}

/// Bytes with a header.
pub fn with_header(mut bytes: Vec<u8>, it: &SectionHeader) -> Result<Vec<u8>, LinkFault>
    ensures ok { IfOk result (λ new. new.items ≡ bytes.items ++ header_bytes it.now) }
    ensures err { IfErr result (λ fault. fault ≡ Memory) }
{
    match bytes.extend_from_slice(&header_bytes(it)) {
        Ok(()) => Ok(bytes),
        Err(_) => Err(LinkFault::Memory),
    }
}

/// Bytes with the headers of the first object's sections.
fn with_first(
    first: &Plan<'_>,
    table: usize,
    places: &Places,
    bytes: Vec<u8>,
) -> Result<Vec<u8>, LinkFault>
    requires table { table < length first.now.object.sections }
    requires ordered { InOrder places.now }
    ensures ok { IfOk result (λ new. new.items ≡ bytes.items ++ first_headers first.now table places.now) }
    ensures err { IfErr result (λ fault. fault ≡ Memory) }
{
    let mut all = bytes;
    for i in 0..first.object.len() {
        match with_header(all, &first_header(first, table, places, i)) {
            Ok(new) => all = new,
            Err(fault) => return Err(fault),
        }
    }
    Ok(all)
}

/// Bytes with the headers of the second object's sections.
fn with_second(second: &Plan<'_>, places: &Places, bytes: Vec<u8>) -> Result<Vec<u8>, LinkFault>
    ensures ok { IfOk result (λ new. new.items ≡ bytes.items ++ second_headers second.now places.now) }
    ensures err { IfErr result (λ fault. fault ≡ Memory) }
{
    let mut all = bytes;
    for i in 0..second.object.len() {
        match with_header(all, &second_header(second, places, i)) {
            Ok(new) => all = new,
            Err(fault) => return Err(fault),
        }
    }
    Ok(all)
}

/// The section of the relocations of the code.
fn relocations_header(first: &Plan<'_>, table: usize, places: &Places) -> SectionHeader
    requires table { table < length first.now.object.sections }
    requires few { (length first.now.object.sections ≤ 65535) × (first.now.parts.code.section ≤ 65535) }
    requires ordered { InOrder places.now }
    ensures { result ≡ relocations_header first.now table places.now }
{
    SectionHeader {
        name: 0,
        kind: 9,
        flags: 0,
        offset: places.relocations as u64,
        size: (places.records - places.relocations) as u64,
        link: table as u32,
        info: first.parts.part(Side::Code).section as u32,
    }
}

/// The section of the records of maps.
fn records_header(places: &Places) -> SectionHeader
    requires { InOrder places.now }
    ensures { result ≡ records_header places.now }
{
    SectionHeader {
        name: 0,
        kind: 1,
        flags: 3,
        offset: places.records as u64,
        size: (places.end - places.records) as u64,
        link: 0,
        info: 0,
    }
}

/// Bytes with the table of sections.
pub fn with_headers(
    first: &Plan<'_>,
    second: &Plan<'_>,
    table: usize,
    places: &Places,
    bytes: Vec<u8>,
) -> Result<Vec<u8>, LinkFault>
    requires few { (table < length first.now.object.sections) × (length first.now.object.sections ≤ 65535)
        × (first.now.parts.code.section ≤ 65535) }
    requires ordered { InOrder places.now }
    ensures ok { IfOk result (λ new. new.items ≡ bytes.items ++ headers first.now second.now table places.now) }
    ensures err { IfErr result (λ fault. fault ≡ Memory) }
{
    let own = match with_first(first, table, places, bytes) {
        Ok(own) => own,
        Err(fault) => return Err(fault),
    };
    let both = match with_second(second, places, own) {
        Ok(both) => both,
        Err(fault) => return Err(fault),
    };
    let moved = match with_header(both, &relocations_header(first, table, places)) {
        Ok(moved) => moved,
        Err(fault) => return Err(fault),
    };
    match with_header(moved, &records_header(places)) {
        Ok(all) => Ok(all),
        Err(fault) => Err(fault),
    }
}

/// Whether a section has relocations of data.
fn points(object: &Object<'_>, it: &SectionHeader) -> bool
    ensures { result ≡ points object.now it.now }
{
    if it.kind != 9 && it.kind != 4 {
        return false;
    }
    let section = it.info as usize;
    if section >= object.len() {
        return false;
    }
    is_data(object, &object.section(section))
}

fn either(one: bool, other: bool) -> bool
    ensures { result ≡ one || other }
{
    one || other
}

/// Whether an object has relocations of data.
pub fn has_pointers(object: &Object<'_>) -> bool
    ensures { result ≡ points_below object.now (length object.now.sections) }
{
    let mut found = false;
    for i in 0..object.len() {
        found = either(points(object, &object.section(i)), found);
    }
    found
}
