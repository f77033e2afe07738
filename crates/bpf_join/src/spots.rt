//! Where symbols lie in a joined object.
ghost use Rattle.std.specs.Prelude.{◌≡◌, ◌≤◌, ◌<◌, ◌+◌, ◌==◌, IfSome, length, position};
ghost use Rattle.bpf_isa.specs.Checker.{most_slots};
ghost use Rattle.bpf_join.specs.Spots.{comes, found_spot, info_of, is_wanted, map_of, name_at_most, offered, offers, on_by, other_spot, own_name, own_spot, record_spot, spot_by, stays};

use crate::codes::own_slots;
use crate::functions::latest;
use bpf_link::{Plan, Side, SymbolEntry, is_map, name_at, name_from, symbol_place};

/// Where a symbol lies.
#[derive(Clone, Copy)]
pub struct Spot {
    /// The section, 0 of one that is defined elsewhere.
    pub section: usize,
    /// Where it lies in its section.
    pub value: u64,
    /// Its binding and what it names, as `st_info` has them.
    pub info: u8,
}

/// A place in a section, moved on by so many slots.
fn on_by(slots: usize, value: u64) -> u64
    requires { slots ≤ most_slots }
    ensures { result ≡ on_by slots value }
{
    value.saturating_add(8 * slots as u64)
}

/// The byte of a symbol's binding and kind.
fn info_of(symbol: &SymbolEntry) -> u8
    ensures { result ≡ info_of symbol.now }
{
    symbol.binding % 16 * 16 + symbol.kind % 16
}

/// A symbol of the first object at its place.
fn stays(first: &Plan<'_>, symbol: &SymbolEntry) -> Spot
    ensures { result ≡ stays first.now symbol.now }
{
    let section = usize::from(symbol.section);
    if section > 0 && section == first.parts.part(Side::Text).section {
        return Spot {
            section: first.parts.part(Side::Code).section,
            value: on_by(first.parts.first(Side::Text), symbol.value),
            info: symbol.kind % 16,
        };
    }
    Spot {
        section,
        value: symbol.value,
        info: info_of(symbol),
    }
}

/// A symbol of the second object behind the first one's.
pub fn comes(first: &Plan<'_>, second: &Plan<'_>, symbol: &SymbolEntry) -> Spot
    requires { length first.now.object.sections ≤ 65535 }
    ensures { result ≡ comes first.now second.now symbol.now }
{
    let section = usize::from(symbol.section);
    if section > 0 && section == second.parts.part(Side::Code).section {
        return Spot {
            section: first.parts.part(Side::Code).section,
            value: on_by(own_slots(first), symbol.value),
            info: symbol.kind % 16,
        };
    }
    let to = if section == 0 {
        0
    } else if section < second.object.len() {
        first.object.len() + section
    } else {
        0xfff1
    };
    Spot {
        section: to,
        value: symbol.value,
        info: info_of(symbol),
    }
}

/// At most 256 bytes of a name.
pub fn name_at_most(bytes: &[u8], at: usize) -> &[u8]
    requires { at ≤ length bytes.now }
    ensures { result.now ≡ name_at_most bytes.now at }
{
    let end = if bytes.len() - at < 256 {
        bytes.len()
    } else {
        at + 256
    };
    name_from(&bytes[at..end], 0)
}

/// That of a symbol of the first object.
fn own_name<'a>(first: &Plan<'a>, symbol: &SymbolEntry) -> &'a [u8]
    ensures { result.now ≡ own_name first.now symbol.now }
{
    name_at_most(first.object.bytes(), symbol_place(first, symbol))
}

/// Whether a symbol of the first object is undefined and has a name.
pub fn is_wanted(first: &Plan<'_>, symbol: &SymbolEntry) -> bool
    ensures { result ≡ is_wanted first.now symbol.now }
{
    if symbol.section != 0 {
        return false;
    }
    let name = own_name(first, symbol);
    !name.is_empty() && name.len() <= 255
}

/// Whether a symbol of the second object is known outside of it, and has a name.
fn offers(second: &Plan<'_>, name: &[u8], symbol: &SymbolEntry) -> bool
    ensures { result ≡ offers second.now name.now symbol.now }
{
    if symbol.binding == 0 {
        return false;
    }
    let section = usize::from(symbol.section);
    if section == 0 || section >= second.object.len() {
        return false;
    }
    name_at(second.object.bytes(), symbol_place(second, symbol), name)
}

/// The symbol of a name of the second object.
fn offered(second: &Plan<'_>, name: &[u8]) -> Option<usize>
    ensures value { result ≡ offered second.now name.now }
    ensures below { IfSome result (λ i. i < length second.now.symbols) }
{
    let mut found = None;
    for i in 0..second.symbols.len() {
        let symbol = second.symbols.at(i);
        found = latest(found, offers(second, name, &symbol), i);
    }
    found
}

/// Where an undefined symbol of the first object lies: where the one is that was found.
fn found_spot(
    first: &Plan<'_>,
    second: &Plan<'_>,
    symbol: &SymbolEntry,
    found: Option<usize>,
) -> Spot
    requires few { length first.now.object.sections ≤ 65535 }
    requires below { IfSome found (λ i. i < length second.now.symbols) }
    ensures { result ≡ found_spot first.now second.now symbol.now found }
{
    match found {
        None => stays(first, symbol),
        Some(i) => comes(first, second, &second.symbols.at(i)),
    }
}

/// Where a symbol of the first object lies that names no map with a record.
fn other_spot(first: &Plan<'_>, second: &Plan<'_>, symbol: &SymbolEntry) -> Spot
    requires { length first.now.object.sections ≤ 65535 }
    ensures { result ≡ other_spot first.now second.now symbol.now }
{
    if !is_wanted(first, symbol) {
        return stays(first, symbol);
    }
    let found = offered(second, own_name(first, symbol));
    found_spot(first, second, symbol, found)
}

/// Which of some places one is.
fn place_among(places: &[u64], value: u64) -> Option<usize>
    ensures value { result ≡ position (λ place. place == value) places.now }
    ensures below { IfSome result (λ k. k < length places.now) }
{
    places.iter().position(|place| *place == value)
}

/// Which of the maps at some places a symbol of the first object names.
fn map_of(first: &Plan<'_>, places: &[u64], symbol: &SymbolEntry) -> Option<usize>
    ensures value { result ≡ map_of first.now places.now symbol.now }
    ensures below { IfSome result (λ k. k < length places.now) }
{
    if !is_map(first.maps, symbol) {
        return None;
    }
    place_among(places, symbol.value)
}

/// Where a symbol of the first object lies.
pub fn own_spot(
    first: &Plan<'_>,
    second: &Plan<'_>,
    places: &[u64],
    records: usize,
    symbol: &SymbolEntry,
) -> Spot
    requires few { length first.now.object.sections ≤ 65535 }
    requires short { length places.now ≤ 1024 }
    ensures { result ≡ own_spot first.now second.now places.now records symbol.now }
{
    match map_of(first, places, symbol) {
        None => other_spot(first, second, symbol),
        Some(k) => Spot {
            section: records,
            value: 64 * k as u64,
            info: info_of(symbol),
        },
    }
}
