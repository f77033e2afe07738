//! Where the programs lie in their object that are called in turn.
ghost use Rattle.std.specs.Prelude.{◌≡◌, IfErr, IfOk, Ok, length, map};
ghost use Rattle.bpf_link.specs.Links.{MemoryOr};
ghost use Rattle.bpf_link.specs.Sections.{FoundBelow, found};
ghost use Rattle.bpf_turns.specs.Seats.{IsSeatFault, is_code_at, is_turn, seat_at, seat_in, seat_of, seats_of, slots_of, with_named};
ghost use Rattle.input_texts.specs.Turns.{name_in, offset_in};

use bpf_isa::MOST_SLOTS;
use bpf_link::{
    Found, LinkFault, Object, Plan, Side, SymbolEntry, is_closed, is_code, name_at, section_bytes,
    symbol_place,
};
use input_texts::{name_in, offset_in};
use std::alloc::Global;

/// Where a program lies that is called.
#[derive(Clone, Copy)]
pub struct Seat {
    /// Its section.
    pub section: u16,
    /// Its first slot there.
    pub slot: u16,
    /// The place of the context at which it finds its own one, in bytes.
    pub offset: u16,
}

/// Why programs aren't called in turn.
#[derive(Clone, Copy)]
pub struct TurnFault {
    /// Which one of them it is, or how many there are where it is none of them.
    pub which: usize,
    pub fault: LinkFault,
}

/// Whether the section of a number does.
fn is_code_at(object: &Object<'_>, section: usize) -> bool
    ensures { result ≡ is_code_at object.now section }
{
    if section >= object.len() {
        return false;
    }
    is_code(&object.section(section))
}

/// Whether a symbol is the function of a name, in the section of the plan, if only that counts.
fn is_turn(plan: &Plan<'_>, only: bool, name: &[u8], symbol: &SymbolEntry) -> bool
    ensures { result ≡ is_turn plan.now only name.now symbol.now }
{
    let section = usize::from(symbol.section);
    if symbol.kind != 2 {
        return false;
    }
    if only && section != plan.parts.part(Side::Code).section {
        return false;
    }
    is_code_at(&plan.object, section)
        && name_at(plan.object.bytes(), symbol_place(plan, symbol), name)
}

/// The symbols that are the function of a name.
fn turn_found(plan: &Plan<'_>, only: bool, name: &[u8]) -> Found
    ensures value { result ≡ found (is_turn plan.now only name.now) plan.now.symbols }
    ensures within { FoundBelow (length plan.now.symbols) result }
{
    let mut found = Found::Nothing;
    for i in 0..plan.symbols.len() {
        let symbol = plan.symbols.at(i);
        found = found.with(is_turn(plan, only, name, &symbol), i);
    }
    found
}

/// The bytes of a section.
pub fn slots_of<'a>(object: &Object<'a>, section: usize) -> &'a [u8]
    ensures { result.now ≡ slots_of object.now section }
{
    if section >= object.len() {
        return &[];
    }
    section_bytes(object, &object.section(section))
}

/// Where a function lies.
fn seat_in(object: &Object<'_>, offset: u16, symbol: &SymbolEntry) -> Result<Seat, LinkFault>
    ensures { result ≡ seat_in object.now offset symbol.now }
{
    let slots = slots_of(object, usize::from(symbol.section));
    if slots.len() % 8 != 0 {
        return Err(LinkFault::Section);
    }
    if slots.len() / 8 > MOST_SLOTS {
        return Err(LinkFault::TooLong);
    }
    if !is_closed(slots) {
        return Err(LinkFault::RunsOff);
    }
    if symbol.value % 8 != 0 {
        return Err(LinkFault::NoEntry);
    }
    if symbol.value / 8 >= slots.len() as u64 / 8 {
        return Err(LinkFault::NoEntry);
    }
    Ok(Seat {
        section: symbol.section,
        slot: (symbol.value / 8) as u16,
        offset,
    })
}

/// Where the function lies that was found.
fn seat_at(plan: &Plan<'_>, offset: u16, found: Found) -> Result<Seat, LinkFault>
    requires { FoundBelow (length plan.now.symbols) found }
    ensures { result ≡ seat_at plan.now offset found }
{
    match found {
        Found::Nothing => Err(LinkFault::NoEntry),
        Found::Only(i) => seat_in(&plan.object, offset, &plan.symbols.at(i)),
        Found::Several => Err(LinkFault::ManyPrograms),
    }
}

/// Where the program lies that a text names.
fn seat_of(plan: &Plan<'_>, only: bool, text: &[u8]) -> Result<Seat, LinkFault>
    ensures { result ≡ seat_of plan.now only (name_in text.now) (offset_in text.now) }
{
    match offset_in(text) {
        None => Err(LinkFault::NoEntry),
        Some(offset) => seat_at(plan, offset, turn_found(plan, only, name_in(text))),
    }
}

/// Places of programs with that of one more.
fn with_named(
    plan: &Plan<'_>,
    only: bool,
    text: &[u8],
    mut seats: Vec<Seat>,
) -> Result<Vec<Seat>, LinkFault>
    ensures ok { IfOk result (λ new. with_named plan.now only text.now seats.items ≡ Ok new.items) }
    ensures err { IfErr result (MemoryOr (with_named plan.now only text.now seats.items)) }
{
    let seat = match seat_of(plan, only, text) {
        Ok(seat) => seat,
        Err(fault) => return Err(fault),
    };
    match seats.push(seat) {
        Ok(()) => Ok(seats),
        Err(_) => Err(LinkFault::Memory),
    }
}

/// Where the programs lie that texts name, in their order: in any section of code, or in that of
/// the plan alone.
pub fn seats_of(
    alloc: Global,
    plan: &Plan<'_>,
    only: bool,
    texts: &[&str],
) -> Result<Vec<Seat>, TurnFault>
    ensures ok { IfOk result (λ seats.
        seats_of plan.now only (map (λ text. text.now) texts.now) ≡ Ok seats.items) }
    ensures err { IfErr result (IsSeatFault plan.now only (map (λ text. text.now) texts.now)) }
{
    let mut seats = Vec::new(alloc);
    for k in 0..texts.len() {
        match with_named(plan, only, texts[k].as_bytes(), seats) {
            Ok(new) => seats = new,
            Err(fault) => return Err(TurnFault { which: k, fault }),
        }
    }
    Ok(seats)
}
