//! What a program is put together from.
ghost use Rattle.std.specs.Prelude.{◌≡◌, ◌≤◌, ◌<◌, ◌+◌, ◌*◌, ◌/◌, ◌==◌, ◌⊎◌, length, min, IfOk, ℕ, Bool};
ghost use Rattle.bpf_link.specs.Parts.{slots_in};
ghost use Rattle.bpf_link.specs.Plans.{entries_of, symbols_of, maps_in, chosen_in, is_only, relocations_in, part_in, symbol_place, part_place, is_reference, refers_below, text_in, is_closed, has_definitions, definitions_in, names_in, no_part, parts_in, plan_of, HasRoles};
ghost use Rattle.bpf_link.specs.Sections.{AreFound, FoundBelow};

use crate::fault::LinkFault;
use crate::fields::lies;
use crate::layout::{RelocationEntry, SectionHeader, SymbolEntry};
use crate::object::Object;
use crate::parts::{Part, Parts};
use crate::sections::{Found, Roles, is_named, relocations_of, section_place};
use crate::tables::{Bytes, Relocations, Symbols};
use bpf_isa::MOST_SLOTS;

/// What a program is put together from.
#[derive(Drop)]
pub struct Plan<'a> {
    pub object: Object<'a>,
    /// The section of symbols.
    pub table: Found,
    pub symbols: Symbols<'a>,
    /// Where the names of symbols begin in the file, or behind it.
    pub names: u64,
    /// The index of the section of maps, 0 of none.
    pub maps: usize,
    /// The bytes of that section, where they are definitions of maps.
    pub definitions: Bytes<'a>,
    pub parts: Parts<'a>,
}

/// The bytes of a section, which hold a whole number of entries of a size.
fn entries_of<'a>(
    object: &Object<'a>,
    size: u64,
    fault: LinkFault,
    section: &SectionHeader,
) -> Result<Bytes<'a>, LinkFault>
    requires { (size ≡ 8) ⊎ ((size ≡ 16) ⊎ (size ≡ 24)) }
    ensures value { result ≡ entries_of object.now size fault section.now }
    ensures whole { IfOk result (λ entries. length entries ≡ size * (length entries / size)) }
{
    let bytes = object.bytes();
    if !lies(bytes, section.offset, section.size) {
        return Err(fault);
    }
    if section.size % size != 0 {
        return Err(fault);
    }
    let at = section.offset as usize;
    Ok(Bytes {
        bytes: &bytes[at..at + section.size as usize],
    })
}

/// The symbols of an object, by the section that holds them.
pub(crate) fn symbols_of<'a>(object: &Object<'a>, found: Found) -> Result<Symbols<'a>, LinkFault>
    requires { FoundBelow (length object.now.sections) found }
    ensures { result ≡ symbols_of object.now found }
{
    match found {
        Found::Nothing => Ok(Symbols { bytes: &[] }),
        Found::Only(i) => {
            let fault = LinkFault::SymbolTable;
            match entries_of(object, 24, fault, &object.section(i)) {
                Ok(entries) => Ok(Symbols {
                    bytes: entries.bytes,
                }),
                Err(fault) => Err(fault),
            }
        }
        Found::Several => Err(LinkFault::SymbolTable),
    }
}

fn maps_in(found: Found) -> Result<usize, LinkFault>
    ensures { result ≡ maps_in found }
{
    match found {
        Found::Nothing => Ok(0),
        Found::Only(i) => Ok(i),
        Found::Several => Err(LinkFault::ManyMapSections),
    }
}

fn chosen_in(chosen: Found, text: Found, unnamed: bool) -> Result<usize, LinkFault>
    ensures value { result ≡ chosen_in chosen text unnamed }
    ensures within { (n : ℕ) → FoundBelow n chosen → FoundBelow n text → IfOk result (λ i. i < n) }
{
    match chosen {
        Found::Only(i) => Ok(i),
        Found::Several => Err(LinkFault::ManySections),
        Found::Nothing => {
            if !unnamed {
                return Err(LinkFault::NoSection);
            }
            match text {
                Found::Nothing => Err(LinkFault::NoSection),
                Found::Only(i) => Ok(i),
                Found::Several => Err(LinkFault::ManySections),
            }
        }
    }
}

fn is_only(found: Found, index: u32) -> bool
    ensures { result ≡ is_only found index }
{
    match found {
        Found::Nothing => false,
        Found::Only(i) => i == index as usize,
        Found::Several => false,
    }
}

/// The relocations of the section that holds some, against the symbols of a section.
pub fn relocations_in<'a>(
    object: &Object<'a>,
    symbols: Found,
    found: Found,
) -> Result<Relocations<'a>, LinkFault>
    requires { FoundBelow (length object.now.sections) found }
    ensures { result ≡ relocations_in object.now symbols found }
{
    match found {
        Found::Nothing => Ok(Relocations { bytes: &[] }),
        Found::Only(i) => {
            let section = object.section(i);
            if section.kind != 9 {
                return Err(LinkFault::RelocationTable);
            }
            if !is_only(symbols, section.link) {
                return Err(LinkFault::RelocationTable);
            }
            match entries_of(object, 16, LinkFault::RelocationTable, &section) {
                Ok(entries) => Ok(Relocations {
                    bytes: entries.bytes,
                }),
                Err(fault) => Err(fault),
            }
        }
        Found::Several => Err(LinkFault::RelocationTable),
    }
}

/// A section as a part of a program.
fn part_in<'a>(object: &Object<'a>, symbols: Found, section: usize) -> Result<Part<'a>, LinkFault>
    requires { section < length object.now.sections }
    ensures value { result ≡ part_in object.now symbols section }
    ensures whole { IfOk result (λ part. length part.slots ≡ 8 * slots_in part) }
{
    let slots = match entries_of(object, 8, LinkFault::Section, &object.section(section)) {
        Ok(slots) => slots,
        Err(fault) => return Err(fault),
    };
    match relocations_in(object, symbols, relocations_of(object, section)) {
        Ok(relocations) => Ok(Part {
            section,
            slots,
            relocations,
        }),
        Err(fault) => Err(fault),
    }
}

/// A part without slots.
fn no_part<'a>() -> Part<'a>
    ensures { result ≡ no_part }
{
    Part {
        section: 0,
        slots: Bytes { bytes: &[] },
        relocations: Relocations { bytes: &[] },
    }
}

/// Where the name of a symbol stands in the file, or the file's end.
pub fn symbol_place(plan: &Plan<'_>, symbol: &SymbolEntry) -> usize
    ensures value { result ≡ symbol_place plan.now symbol.now }
    ensures inside { result ≤ length plan.now.object.bytes }
{
    place_of_name(&plan.object, plan.names, symbol)
}

/// The same, by where the names of symbols begin in the file.
pub(crate) fn place_of_name(object: &Object<'_>, names: u64, symbol: &SymbolEntry) -> usize
    ensures value { result ≡ min (names + symbol.now.name) (length object.now.bytes) }
    ensures inside { result ≤ length object.now.bytes }
{
    let len = object.bytes().len();
    if names > len as u64 {
        return len;
    }
    let at = names + u64::from(symbol.name);
    if at > len as u64 {
        return len;
    }
    at as usize
}

/// Where the name of a part's section stands in the file, or the file's end.
pub fn part_place(plan: &Plan<'_>, part: &Part<'_>) -> usize
    ensures value { result ≡ part_place plan.now part.now }
    ensures inside { result ≤ length plan.now.object.bytes }
{
    if part.section >= plan.object.len() {
        return plan.object.bytes().len();
    }
    section_place(&plan.object, &plan.object.section(part.section))
}

/// Whether a relocation is of a kind, and against a symbol of a section.
fn is_reference(
    symbols: &Symbols<'_>,
    kind: u32,
    section: usize,
    relocation: &RelocationEntry,
) -> bool
    ensures { result ≡ is_reference symbols.now kind section relocation.now }
{
    if relocation.kind != kind {
        return false;
    }
    let symbol = relocation.symbol as usize;
    if symbol >= symbols.len() {
        return false;
    }
    usize::from(symbols.at(symbol).section) == section
}

/// Whether one of the relocations is.
fn refers(symbols: &Symbols<'_>, relocations: &Relocations<'_>, kind: u32, section: usize) -> bool
    ensures { result ≡ refers_below symbols.now relocations.now kind section
        (length relocations.now) }
{
    let mut refers = false;
    for i in 0..relocations.len() {
        let relocation = relocations.at(i);
        refers = is_reference(symbols, kind, section, &relocation) || refers;
    }
    refers
}

/// `.text` as a part of a program that calls it.
fn text_in<'a>(
    object: &Object<'a>,
    symbols_section: Found,
    symbols: &Symbols<'_>,
    code: &Part<'_>,
    found: Found,
) -> Result<Part<'a>, LinkFault>
    requires { FoundBelow (length object.now.sections) found }
    ensures value { result ≡ text_in object.now symbols_section symbols.now code.now found }
    ensures whole { IfOk result (λ part. length part.slots ≡ 8 * slots_in part) }
{
    match found {
        Found::Nothing => Ok(no_part()),
        Found::Only(i) => {
            if i == code.section {
                return Ok(no_part());
            }
            if !refers(symbols, &code.relocations, 10, i) {
                return Ok(no_part());
            }
            part_in(object, symbols_section, i)
        }
        Found::Several => Err(LinkFault::ManySections),
    }
}

/// Whether the last slot begins as an exit or a jump that is always taken.
pub fn is_closed(slots: &[u8]) -> bool
    ensures { result ≡ is_closed slots.now }
{
    if slots.len() < 8 {
        return false;
    }
    let last = slots[slots.len() - 8];
    last == 0x95 || (last == 0x05 || last == 0x06)
}

/// Whether definitions of maps stand in a section.
fn has_definitions(object: &Object<'_>, section: &SectionHeader) -> bool
    ensures { result ≡ has_definitions object.now section.now }
{
    section.kind == 1
        && (is_named(object, section, b"maps")
            && lies(object.bytes(), section.offset, section.size))
}

/// The bytes of the definitions of maps.
fn definitions_in<'a>(object: &Object<'a>, found: Found) -> Bytes<'a>
    requires { FoundBelow (length object.now.sections) found }
    ensures { result ≡ definitions_in object.now found }
{
    match found {
        Found::Nothing => Bytes { bytes: &[] },
        Found::Only(i) => {
            let section = object.section(i);
            if !has_definitions(object, &section) {
                return Bytes { bytes: &[] };
            }
            let at = section.offset as usize;
            Bytes {
                bytes: &object.bytes()[at..at + section.size as usize],
            }
        }
        Found::Several => Bytes { bytes: &[] },
    }
}

/// Where the names of symbols begin: in the section to which the one of the symbols links.
pub(crate) fn names_in(object: &Object<'_>, found: Found) -> u64
    requires { FoundBelow (length object.now.sections) found }
    ensures { result ≡ names_in object.now found }
{
    match found {
        Found::Nothing => 0,
        Found::Only(i) => {
            let link = object.section(i).link as usize;
            if link >= object.len() {
                return 0;
            }
            object.section(link).offset
        }
        Found::Several => 0,
    }
}

/// The parts of a program whose code is that of a section.
fn parts_in<'a>(
    object: &Object<'a>,
    roles: &Roles,
    symbols: &Symbols<'_>,
    chosen: usize,
) -> Result<Parts<'a>, LinkFault>
    requires { HasRoles object.now roles.now chosen }
    ensures { result ≡ parts_in object.now roles.now symbols.now chosen }
{
    let code = match part_in(object, roles.symbols, chosen) {
        Ok(code) => code,
        Err(fault) => return Err(fault),
    };
    if !is_closed(code.slots.bytes) {
        return Err(LinkFault::RunsOff);
    }
    let text = match text_in(object, roles.symbols, symbols, &code, roles.text) {
        Ok(text) => text,
        Err(fault) => return Err(fault),
    };
    if code.len() + text.len() > MOST_SLOTS {
        return Err(LinkFault::TooLong);
    }
    Ok(Parts { code, text })
}

/// What the program of a section of an object is put together from. `unnamed` says that no name was
/// given for it.
pub fn plan_of<'a>(object: Object<'a>, roles: &Roles, unnamed: bool) -> Result<Plan<'a>, LinkFault>
    requires { AreFound (length object.sections) roles.now }
    ensures { result ≡ plan_of object.entry roles.now unnamed }
{
    let symbols = symbols_of(&object, roles.symbols)?;
    let maps = maps_in(roles.maps)?;
    let chosen = chosen_in(roles.chosen, roles.text, unnamed)?;
    let parts = parts_in(&object, roles, &symbols, chosen)?;
    let names = names_in(&object, roles.symbols);
    let definitions = definitions_in(&object, roles.maps);
    Ok(Plan {
        object,
        table: roles.symbols,
        symbols,
        names,
        maps,
        definitions,
        parts,
    })
}
