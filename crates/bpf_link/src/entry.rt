//! The entry of a program: one of the functions of its section.
ghost use Rattle.std.specs.Prelude.{◌≡◌, ◌≤◌, ◌<◌, ◌+◌, ◌==◌, length, IfOk};
ghost use Rattle.bpf_link.specs.Entries.{is_function, is_program, is_entry, entry_found, slot_in, entry_at, entry_of};
ghost use Rattle.bpf_link.specs.Parts.{slots_in};
ghost use Rattle.bpf_link.specs.Sections.{FoundBelow, name_at};
ghost use Rattle.bpf_isa.specs.Checker.{most_slots};

use crate::fault::LinkFault;
use crate::layout::SymbolEntry;
use crate::parts::{Part, Side};
use crate::plan::Plan;
use crate::sections::{Found, name_at};

/// The most bytes of a function's name.
const LONGEST_NAME: usize = 255;

/// Whether a symbol is a function of a section.
pub fn is_function(section: usize, symbol: &SymbolEntry) -> bool
    ensures { result ≡ is_function section symbol.now }
{
    symbol.kind == 2 && usize::from(symbol.section) == section
}

/// Whether a symbol is a function of a section that is known outside the object.
pub fn is_program(section: usize, symbol: &SymbolEntry) -> bool
    ensures { result ≡ is_program section symbol.now }
{
    is_function(section, symbol) && symbol.binding > 0
}

/// Whether a name stands at a place behind where names begin.
fn has_name(bytes: &[u8], names: u64, place: u32, name: &[u8]) -> bool
    ensures { result ≡ name_at bytes.now (names + place) name.now }
{
    let len = bytes.len() as u64;
    if names > len {
        return false;
    }
    let at = names + u64::from(place);
    if at > len {
        return false;
    }
    name_at(bytes, at as usize, name)
}

/// Whether a symbol may be the entry.
fn is_entry(plan: &Plan<'_>, name: &[u8], symbol: &SymbolEntry) -> bool
    ensures { result ≡ is_entry plan.now name.now symbol.now }
{
    let section = plan.parts.part(Side::Code).section;
    if name.is_empty() {
        return is_program(section, symbol);
    }
    is_function(section, symbol) && has_name(plan.object.bytes(), plan.names, symbol.name, name)
}

/// The symbols that may be the entry.
pub fn entry_found(plan: &Plan<'_>, name: &[u8]) -> Found
    ensures value { result ≡ entry_found plan.now name.now }
    ensures within { FoundBelow (length plan.now.symbols) result }
{
    let mut found = Found::Nothing;
    for i in 0..plan.symbols.len() {
        let symbol = plan.symbols.at(i);
        found = found.with(is_entry(plan, name, &symbol), i);
    }
    found
}

/// The slot of a part in which a function begins.
fn slot_in(part: &Part<'_>, symbol: &SymbolEntry) -> Result<usize, LinkFault>
    ensures value { result ≡ slot_in part.now symbol.now }
    ensures inside { IfOk result (λ slot. slot < slots_in part.now) }
{
    if symbol.value % 8 != 0 {
        return Err(LinkFault::NoEntry);
    }
    let slot = symbol.value / 8;
    if slot >= part.len() as u64 {
        return Err(LinkFault::NoEntry);
    }
    Ok(slot as usize)
}

/// The slot of the entry, by the symbols that may be it.
fn entry_at(plan: &Plan<'_>, unnamed: bool, found: Found) -> Result<usize, LinkFault>
    requires found { FoundBelow (length plan.now.symbols) found }
    ensures value { result ≡ entry_at plan.now unnamed found }
    ensures small { IfOk result (λ slot. slot < most_slots) }
    ensures inside { IfOk result (λ slot. slot ≤ slots_in plan.now.parts.code) }
{
    match found {
        Found::Nothing => {
            if !unnamed {
                return Err(LinkFault::NoEntry);
            }
            Ok(0)
        }
        Found::Only(i) => slot_in(plan.parts.part(Side::Code), &plan.symbols.at(i)),
        Found::Several => Err(LinkFault::ManyPrograms),
    }
}

/// The slot of the code in which a program begins: that of the function of a name, or, where the
/// name is empty, of the section's only program.
pub fn entry_of(plan: &Plan<'_>, name: &[u8]) -> Result<usize, LinkFault>
    ensures value { result ≡ entry_of plan.now name.now }
    ensures small { IfOk result (λ slot. slot < most_slots) }
    ensures inside { IfOk result (λ slot. slot ≤ slots_in plan.now.parts.code) }
{
    if name.len() > LONGEST_NAME {
        return Err(LinkFault::NoEntry);
    }
    entry_at(plan, name.is_empty(), entry_found(plan, name))
}
