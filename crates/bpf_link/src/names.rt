//! The names that a fault of an object tells.
ghost use Rattle.std.specs.Prelude.{◌≡◌, ◌≤◌, ◌<◌, ◌+◌, ◌*◌, ◌++◌, [], length, take};
ghost use Rattle.bpf_link.specs.Links.{planned};
ghost use Rattle.bpf_link.specs.Objects.{opened};
ghost use Rattle.bpf_link.specs.Plans.{names_in, symbols_of};
ghost use Rattle.bpf_link.specs.Sections.{FoundBelow};
ghost use Rattle.bpf_link.specs.Names.{cut, short_at, with_place, built, with_code, code_places, is_program_of, with_program, places_among, program_places, is_listed, with_function, function_places, source_places, fault_places, parted, name_of, with_name, names_at, fault_names};

use crate::entry::{is_function, is_program};
use crate::fault::LinkFault;
use crate::layout::SymbolEntry;
use crate::linker::planned;
use crate::map_types::name_from;
use crate::object::{Object, open};
use crate::parts::Side;
use crate::plan::{Plan, names_in, place_of_name, symbol_place, symbols_of};
use crate::sections::{Found, is_chosen, is_code, roles_of, section_place};
use crate::sources::Source;
use crate::tables::Symbols;
use arrayvec::ArrayVec;

/// How many names a text has.
const MOST_NAMES: usize = 16;

/// The first bytes of a text, at most 255.
fn cut(text: &[u8]) -> &[u8]
    ensures value { result.now ≡ cut text.now }
    ensures short { length result.now ≤ 255 }
{
    &text[..text.len().min(255)]
}

/// At most 255 bytes of the name that stands at a place in the file; none behind its end.
pub fn short_at(object: &[u8], at: usize) -> &[u8]
    ensures value { result.now ≡ short_at object.now at }
    ensures short { length result.now ≤ 255 }
{
    name_from(cut(&object[at.min(object.len())..]), 0)
}

/// Places with one more, of which the first 17 are kept.
pub fn with_place(at: usize, mut places: ArrayVec<usize, 17>) -> ArrayVec<usize, 17>
    ensures { result.items ≡ with_place at places.items }
{
    if !places.is_full() {
        places.push(at);
    }
    places
}

/// Places with that of the name of a section, if it holds code.
fn with_code(object: &Object<'_>, i: usize, places: ArrayVec<usize, 17>) -> ArrayVec<usize, 17>
    requires { i < length object.now.sections }
    ensures { result.items ≡ with_code object.now i places.items }
{
    let section = object.section(i);
    if !is_code(&section) {
        return places;
    }
    with_place(section_place(object, &section), places)
}

/// Where the names of the sections that hold code stand.
fn code_places(object: &[u8]) -> ArrayVec<usize, 17>
    ensures { result.items ≡ code_places (opened object.now) }
{
    match open(object) {
        Ok(object) => code_places_in(&object),
        Err(_) => ArrayVec::new(),
    }
}

/// The places of the names of the sections of code that a table has, the first 17.
fn code_places_in(object: &Object<'_>) -> ArrayVec<usize, 17>
    ensures { result.items ≡ built (with_code object.now) (length object.now.sections) }
{
    let mut places = ArrayVec::new();
    for i in 0..object.len() {
        places = with_code(object, i, places);
    }
    places
}

/// Whether a symbol is a program of an object: a function that is known outside it, in a section
/// with code that isn't called `.text`.
fn is_program_of(object: &Object<'_>, symbol: &SymbolEntry) -> bool
    ensures { result ≡ is_program_of object.now symbol.now }
{
    let section = usize::from(symbol.section);
    if section >= object.len() {
        return false;
    }
    is_program(section, symbol) && is_chosen(object, b"", &object.section(section))
}

/// Places with that of the name of a symbol, if it is a program. The names of symbols begin at
/// `names` in the file.
fn with_program(
    object: &Object<'_>,
    names: u64,
    symbols: &Symbols<'_>,
    i: usize,
    places: ArrayVec<usize, 17>,
) -> ArrayVec<usize, 17>
    requires { i < length symbols.now }
    ensures { result.items ≡ with_program object.now names symbols.now i places.items }
{
    let symbol = symbols.at(i);
    if !is_program_of(object, &symbol) {
        return places;
    }
    with_place(place_of_name(object, names, &symbol), places)
}

/// The places of the names of the programs among symbols, the first 17.
fn programs_among(object: &Object<'_>, names: u64, symbols: &Symbols<'_>) -> ArrayVec<usize, 17>
    ensures { result.items ≡ built (with_program object.now names symbols.now) (length symbols.now) }
{
    let mut places = ArrayVec::new();
    for i in 0..symbols.len() {
        places = with_program(object, names, symbols, i, places);
    }
    places
}

/// Where the names of the programs of an object stand.
fn program_places(bytes: &[u8]) -> ArrayVec<usize, 17>
    ensures { result.items ≡ program_places (opened bytes.now) }
{
    match open(bytes) {
        Ok(object) => {
            let found = roles_of(&object, b"").symbols;
            programs_of(&object, found)
        }
        Err(_) => ArrayVec::new(),
    }
}

/// The same of an object, by the section that holds its symbols.
fn programs_of(object: &Object<'_>, found: Found) -> ArrayVec<usize, 17>
    requires { FoundBelow (length object.now.sections) found }
    ensures { result.items ≡ places_among object.now (names_in object.now found) (symbols_of object.now found) }
{
    match symbols_of(object, found) {
        Ok(symbols) => programs_among(object, names_in(object, found), &symbols),
        Err(_) => ArrayVec::new(),
    }
}

/// Whether a symbol is a function of a section; one that is known outside the object, if that
/// counts.
fn is_listed(known: bool, section: usize, symbol: &SymbolEntry) -> bool
    ensures { result ≡ is_listed known section symbol.now }
{
    if known {
        is_program(section, symbol)
    } else {
        is_function(section, symbol)
    }
}

/// Places with that of the name of a symbol, if it is such a function.
fn with_function(
    plan: &Plan<'_>,
    known: bool,
    i: usize,
    places: ArrayVec<usize, 17>,
) -> ArrayVec<usize, 17>
    requires { i < length plan.now.symbols }
    ensures { result.items ≡ with_function plan.now known i places.items }
{
    let symbol = plan.symbols.at(i);
    if !is_listed(known, plan.parts.part(Side::Code).section, &symbol) {
        return places;
    }
    with_place(symbol_place(plan, &symbol), places)
}

/// Where the names of the functions of a section of code stand.
fn function_places(object: &[u8], section: &[u8], known: bool) -> ArrayVec<usize, 17>
    ensures { result.items ≡ function_places known (planned object.now section.now) }
{
    match planned(object, section) {
        Ok(plan) => function_places_in(&plan, known),
        Err(_) => ArrayVec::new(),
    }
}

/// The places of the names of the functions that a plan has, the first 17.
fn function_places_in(plan: &Plan<'_>, known: bool) -> ArrayVec<usize, 17>
    ensures { result.items ≡ built (with_function plan.now known) (length plan.now.symbols) }
{
    let mut places = ArrayVec::new();
    for i in 0..plan.symbols.len() {
        places = with_function(plan, known, i, places);
    }
    places
}

/// A place alone.
fn only(at: usize) -> ArrayVec<usize, 17>
    ensures { result.items ≡ with_place at [] }
{
    with_place(at, ArrayVec::new())
}

/// Where the name of the section stands from which a slot comes.
fn source_places(source: Option<Source>) -> ArrayVec<usize, 17>
    ensures { result.items ≡ source_places source }
{
    match source {
        Some(source) => only(source.at),
        None => ArrayVec::new(),
    }
}

/// The first so many of some places.
fn first_of(places: &[usize; 17], count: usize) -> ArrayVec<usize, 17>
    ensures { result.items ≡ take count places.now }
{
    let mut first = ArrayVec::new();
    let _all = first.try_extend_from_slice(&places[..count.min(17)]);
    first
}

/// Where the names stand that a fault tells.
fn fault_places(object: &[u8], section: &[u8], fault: &LinkFault) -> ArrayVec<usize, 17>
    ensures { result.items ≡ fault_places object.now section.now fault.now }
{
    match fault {
        LinkFault::Map { at, .. } => only(*at),
        LinkFault::Fields { at, .. } => only(*at),
        LinkFault::Relocation { at, .. } => only(*at),
        LinkFault::Context { at } => only(*at),
        LinkFault::Undefined { count, places, .. } => first_of(places, *count),
        LinkFault::Pointer { at } => only(*at),
        LinkFault::Program { source, .. } => source_places(*source),
        LinkFault::Helper { source, .. } => source_places(*source),
        LinkFault::Packet { source, .. } => source_places(*source),
        LinkFault::NoSection => code_places(object),
        LinkFault::ManySections => program_places(object),
        LinkFault::ManyPrograms => function_places(object, section, true),
        LinkFault::NoEntry => function_places(object, section, false),
        _ => ArrayVec::new(),
    }
}

/// The k-th name, or what stands for all from the 17th on.
fn name_of<'a>(object: &'a [u8], places: &[usize], k: usize) -> &'a [u8]
    requires { k < length places.now }
    ensures value { result.now ≡ name_of object.now places.now k }
    ensures short { length result.now ≤ 255 }
{
    if k < MOST_NAMES {
        short_at(object, places[k])
    } else {
        b".."
    }
}

/// A text with a comma before the k-th name, unless that is the first.
fn parted(k: usize, mut text: ArrayVec<u8, 4369>) -> ArrayVec<u8, 4369>
    requires { length text.items + 2 ≤ 4369 }
    ensures { result.items ≡ parted k text.items }
{
    if k > 0 {
        let _all = text.try_extend_from_slice(b", ");
    }
    text
}

/// A text with one more name.
fn with_name(
    object: &[u8],
    places: &[usize],
    k: usize,
    text: ArrayVec<u8, 4369>,
) -> ArrayVec<u8, 4369>
    requires index { k < length places.now }
    requires few { length text.items + 257 ≤ 4369 }
    ensures value { result.items ≡ with_name object.now places.now k text.items }
    ensures size { length result.items ≤ length text.items + 257 }
{
    let name = name_of(object, places, k);
    let mut named = parted(k, text);
    let _all = named.try_extend_from_slice(name);
    named
}

/// The names at places in the file.
fn names_at(object: &[u8], places: &[usize]) -> ArrayVec<u8, 4369>
    requires { length places.now ≤ 17 }
    ensures { result.items ≡ names_at object.now places.now }
{
    let mut text = ArrayVec::new();
    for k in 0..places.len() {
        text = with_name(object, places, k, text);
    }
    text
}

/// The names that a fault of an object tells, as they stand there, with a comma between two.
///
/// That is the name of a map, of a symbol, or of the section from which a slot comes; where a
/// function isn't chosen, the names of the programs that there are, and of the sections where none has
/// the name that was asked for. Each is cut at 255 bytes,
/// and from the 17th on `..` stands for them. `section` is the one that was asked of the link. Takes
/// time in proportion to the length of the object.
pub fn fault_names(object: &[u8], section: &[u8], fault: &LinkFault) -> ArrayVec<u8, 4369>
    ensures { result.items ≡ fault_names object.now section.now fault.now }
{
    let places = fault_places(object, section, fault);
    names_at(object, places.as_slice())
}
