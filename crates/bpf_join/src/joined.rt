//! Two objects as one.
ghost use Rattle.std.specs.Prelude.{◌≡◌, ◌≤◌, ◌<◌, ◌+◌, ℕ, codes, IfErr, IfOk, length};
ghost use Rattle.bpf_join.specs.Joined.{AreJoined, HasPairFault, IsJoinFault, IsJoined, answers_lookups, ends, has_room, has_types, joined_bytes, IsFileFault, ready, table_in, wanted_below};
ghost use Rattle.bpf_join.specs.Readiness.{AreReady, IsBody, IsBegun};
ghost use Rattle.bpf_join.specs.Symbols.{with_u16};
ghost use Rattle.bpf_link.specs.FieldRelocations.{AreLeft};
ghost use Rattle.bpf_link.specs.declared.fault.LinkFault.TheVariants.{Memory};

use crate::codes::{joined_code, own_slots};
use crate::fault::JoinFault;
use crate::functions::callee;
use crate::names::{all_names, front_names, symbol_names, with_whole};
use crate::places::Places;
use crate::records::{places_of, records_of};
use crate::relocations::with_relocations;
use crate::spots::is_wanted;
use crate::symbols::{with_more_symbols, with_own_symbols};
use crate::table::{has_pointers, with_headers};
use bpf_isa::MOST_SLOTS;
use bpf_link::{
    Found, LinkFault, Plan, Side, are_in_maps, fields_as_compiled, is_closed, planned, with,
    with_u64,
};
use byteorder::{ByteOrder, LittleEndian};
use std::alloc::Global;

/// The most undefined symbols of the first object.
const MOST_WANTED: usize = 256;

/// An object that was put together of two.
#[derive(Drop)]
pub struct Joined {
    /// Its file.
    pub bytes: Vec<u8>,
    /// How many relocations of fields are left undone in the first one's code.
    pub fields: u32,
}

/// The parts of a joined object without its table of sections.
#[derive(Drop)]
pub struct Body {
    pub bytes: Vec<u8>,
    pub places: Places,
}

/// How many undefined symbols of the first object have names.
fn wanted(first: &Plan<'_>) -> usize
    ensures { result ≡ wanted_below first.now (length first.now.symbols) }
{
    let mut count = 0;
    for i in 0..first.symbols.len() {
        if is_wanted(first, &first.symbols.at(i)) {
            count += 1;
        }
    }
    count
}

/// Whether two objects have no more sections than an object may, and the first one its parts.
fn has_room(first: &Plan<'_>, second: &Plan<'_>) -> bool
    ensures { result ≡ has_room first.now second.now }
{
    let own = first.object.len();
    let more = second.object.len();
    if own >= 0xff00 || more >= 0xff00 - own {
        return false;
    }
    if own + more + 2 >= 0xff00 {
        return false;
    }
    first.object.bytes().len() >= 64 && first.parts.part(Side::Code).section < own
}

/// Whether `.text` of the first object doesn't run on into the functions.
fn ends(first: &Plan<'_>) -> bool
    ensures { result ≡ ends first.now }
{
    let slots = first.parts.part(Side::Text).slots.bytes;
    slots.is_empty() || is_closed(slots)
}

/// The section of the first object's symbols.
fn table_in(first: &Plan<'_>) -> Result<usize, LinkFault>
    ensures value { result ≡ table_in first.now first.now.table }
    ensures below { IfOk result (λ table. table < length first.now.object.sections) }
{
    match first.table {
        Found::Only(i) => {
            if i >= first.object.len() {
                return Err(LinkFault::SymbolTable);
            }
            Ok(i)
        }
        Found::Nothing => Err(LinkFault::SymbolTable),
        Found::Several => Err(LinkFault::SymbolTable),
    }
}

/// The section of the first object's symbols, where two objects can be joined.
fn ready(first: &Plan<'_>, second: &Plan<'_>) -> Result<usize, LinkFault>
    ensures value { result ≡ ready first.now second.now }
    ensures room { IfOk result (AreReady first.now second.now) }
{
    if !has_room(first, second) {
        return Err(LinkFault::SectionTable);
    }
    if own_slots(first) + second.parts.part(Side::Code).len() > MOST_SLOTS {
        return Err(LinkFault::TooLong);
    }
    if !ends(first) {
        return Err(LinkFault::RunsOff);
    }
    if first.symbols.len() > 4_294_967_295
        || second.symbols.len() > 4_294_967_295 - first.symbols.len()
    {
        return Err(LinkFault::SymbolTable);
    }
    if wanted(first) > MOST_WANTED {
        return Err(LinkFault::ManyWanted);
    }
    table_in(first)
}

/// Both files, the code and the strings, and where each begins; where the symbols are to begin.
fn begun(alloc: Global, first: &Plan<'_>, second: &Plan<'_>) -> Result<Body, LinkFault>
    ensures ok { IfOk result (IsBegun first.now second.now) }
    ensures err { IfErr result (λ fault. fault ≡ Memory) }
{
    let own = match with_whole(Vec::new(alloc), first.object.bytes()) {
        Ok(own) => own,
        Err(fault) => return Err(fault),
    };
    let at_second = own.len();
    let both = match with_whole(own, second.object.bytes()) {
        Ok(both) => both,
        Err(fault) => return Err(fault),
    };
    let at_code = both.len();
    let slots = match joined_code(alloc, first, second) {
        Ok(slots) => slots,
        Err(fault) => return Err(fault),
    };
    let coded = match with(both, slots.as_slice()) {
        Ok(coded) => coded,
        Err(fault) => return Err(fault),
    };
    let at_strings = coded.len();
    let names = match all_names(alloc, first, second) {
        Ok(names) => names,
        Err(fault) => return Err(fault),
    };
    let named = match with_whole(coded, names.as_slice()) {
        Ok(named) => named,
        Err(fault) => return Err(fault),
    };
    let end = named.len();
    Ok(Body {
        bytes: named,
        places: Places {
            second: at_second,
            code: at_code,
            strings: at_strings,
            symbols: end,
            relocations: end,
            records: end,
            end,
        },
    })
}

/// All parts of a joined object but its table of sections.
fn put_together(
    alloc: Global,
    first: &Plan<'_>,
    second: &Plan<'_>,
    places: &[u64],
    records: &[u8],
    table: usize,
) -> Result<Body, LinkFault>
    requires ready { AreReady first.now second.now table }
    requires short { length places.now ≤ 1024 }
    ensures ok { IfOk result (IsBody first.now second.now places.now records.now) }
    ensures err { IfErr result (λ fault. fault ≡ Memory) }
{
    let named = match begun(alloc, first, second) {
        Ok(named) => named,
        Err(fault) => return Err(fault),
    };
    let begins = named.places;
    let more = front_names(first).len();
    let others = more + symbol_names(first).len();
    let last = first.object.len() + second.object.len() + 1;
    let own = match with_own_symbols(first, second, places, last, more, named.bytes) {
        Ok(own) => own,
        Err(fault) => return Err(fault),
    };
    let marked = match with_more_symbols(first, second, others, own) {
        Ok(marked) => marked,
        Err(fault) => return Err(fault),
    };
    let at_relocations = marked.len();
    let moved = match with_relocations(first, second, marked) {
        Ok(moved) => moved,
        Err(fault) => return Err(fault),
    };
    let at_records = moved.len();
    let all = match with(moved, records) {
        Ok(all) => all,
        Err(fault) => return Err(fault),
    };
    let end = all.len();
    Ok(Body {
        bytes: all,
        places: Places {
            second: begins.second,
            code: begins.code,
            strings: begins.strings,
            symbols: begins.symbols,
            relocations: at_relocations,
            records: at_records,
            end,
        },
    })
}

/// Bytes with a number in two of them.
pub fn with_u16(mut bytes: Vec<u8>, at: usize, n: u16) -> Vec<u8>
    requires { at + 2 ≤ length bytes.items }
    ensures { result.items ≡ with_u16 bytes.items at n }
{
    LittleEndian::write_u16(&mut bytes[at..at + 2], n);
    bytes
}

/// Whether an object's functions answer lookups in maps.
fn answers_lookups(second: &Plan<'_>) -> bool
    ensures { result ≡ answers_lookups second.now }
{
    callee(second, 1).is_some()
}

/// Whether BTF tells what the maps at some places are.
pub fn has_types(first: &Plan<'_>, places: &[u64]) -> bool
    ensures { result ≡ has_types first.now places.now }
{
    !places.is_empty() && are_in_maps(first)
}

/// A joined object whose maps have these records.
fn with_sections(
    alloc: Global,
    first: &Plan<'_>,
    second: &Plan<'_>,
    table: usize,
    places: &[u64],
    records: &[u8],
) -> Result<Vec<u8>, LinkFault>
    requires ready { AreReady first.now second.now table }
    requires short { length places.now ≤ 1024 }
    ensures ok { IfOk result (λ bytes.
        bytes.items ≡ joined_bytes first.now second.now table places.now records.now) }
    ensures err { IfErr result (λ fault. fault ≡ Memory) }
{
    let body = match put_together(alloc, first, second, places, records, table) {
        Ok(body) => body,
        Err(fault) => return Err(fault),
    };
    let at = body.places;
    let all = match with_headers(first, second, table, &at, body.bytes) {
        Ok(all) => all,
        Err(fault) => return Err(fault),
    };
    let count = first.object.len() + second.object.len() + 2;
    Ok(with_u16(with_u64(all, 40, at.end as u64), 60, count as u16))
}

/// The joined object of two that are put together.
fn join_plans(alloc: Global, first: &Plan<'_>, second: &Plan<'_>) -> Result<Vec<u8>, JoinFault>
    ensures ok { IfOk result (λ bytes. AreJoined first.now second.now bytes.items) }
    ensures err { IfErr result (HasPairFault first.now second.now) }
{
    if has_pointers(&second.object) {
        return Err(JoinFault::Second(LinkFault::Pointers));
    }
    let table = match ready(first, second) {
        Ok(table) => table,
        Err(fault) => return Err(JoinFault::First(fault)),
    };
    let places = match places_of(alloc, first, answers_lookups(second)) {
        Ok(places) => places,
        Err(fault) => return Err(JoinFault::First(fault)),
    };
    let has_types = has_types(first, places.as_slice());
    let records = match records_of(alloc, first, has_types, places.as_slice()) {
        Ok(records) => records,
        Err(fault) => return Err(JoinFault::First(fault)),
    };
    match with_sections(
        alloc,
        first,
        second,
        table,
        places.as_slice(),
        records.as_slice(),
    ) {
        Ok(bytes) => Ok(bytes),
        Err(fault) => Err(JoinFault::First(fault)),
    }
}

/// How many relocations of fields are left undone in the code of two objects that are joined.
fn fields_of(
    alloc: Global,
    first: &[u8],
    second: &[u8],
    section: &[u8],
    as_compiled: bool,
) -> Result<u32, JoinFault>
    ensures ok { IfOk result (AreLeft first.now section.now as_compiled) }
    ensures functions { IfOk result (λ fields. (more : ℕ)
        × AreLeft second.now (codes ".text") as_compiled more) }
    ensures err { IfErr result (IsFileFault first.now second.now section.now as_compiled) }
{
    let fields = match fields_as_compiled(alloc, first, section, as_compiled) {
        Ok(fields) => fields,
        Err(fault) => return Err(JoinFault::First(fault)),
    };
    match fields_as_compiled(alloc, second, b".text", as_compiled) {
        Ok(_more) => Ok(fields),
        Err(fault) => Err(JoinFault::Second(fault)),
    }
}

/// Two objects as one: the first one with the functions and the data of the second.
///
/// The code section of the first object that is asked for (as for `link_with`) is followed by
/// `.text` where it calls that, and by `.text` of the second object. A call of a helper of the
/// kernel for which the second one has a global function, `bpf_ktime_get_ns` for helper 5, becomes
/// a call of that; calls in the second object stay as they are. A symbol that the first one leaves
/// undefined lies where the second one has a global symbol of its name. If the second one answers
/// lookups in maps, `bpf_map_lookup_elem`, each map of the first one becomes data: a record of 64
/// bytes, of which the first 16 are its kind, the sizes of keys and values, and its most entries.
///
/// The result is an object that `link_with` takes, with the same section. Its other sections are
/// those of the first object, whose symbols keep their numbers, and the data of the second.
/// Relocations of fields are refused unless `as_compiled` leaves them. Takes time in proportion to
/// the lengths of both, and for each helper that is called, each undefined symbol and each map in
/// proportion to their symbols.
pub fn join(
    alloc: Global,
    first: &[u8],
    second: &[u8],
    section: &[u8],
    as_compiled: bool,
) -> Result<Joined, JoinFault>
    ensures ok { IfOk result (IsJoined first.now second.now section.now as_compiled) }
    ensures err { IfErr result (IsJoinFault first.now second.now section.now as_compiled) }
{
    let own = match planned(first, section) {
        Ok(own) => own,
        Err(fault) => return Err(JoinFault::First(fault)),
    };
    let functions = match planned(second, b".text") {
        Ok(functions) => functions,
        Err(fault) => return Err(JoinFault::Second(fault)),
    };
    let fields = match fields_of(alloc, first, second, section, as_compiled) {
        Ok(fields) => fields,
        Err(fault) => return Err(fault),
    };
    match join_plans(alloc, &own, &functions) {
        Ok(bytes) => Ok(Joined { bytes, fields }),
        Err(fault) => Err(fault),
    }
}
