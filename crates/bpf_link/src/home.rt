//! The section in which a function lies, where its name is all that is said of the program.
ghost use Rattle.std.specs.Prelude.{◌≡◌, length};
ghost use Rattle.bpf_link.specs.Homes.{are_several, home_in, home_of, home_of_found, is_function, name_of_home};
ghost use Rattle.bpf_link.specs.Sections.{FoundBelow, found};

use crate::layout::SymbolEntry;
use crate::map_types::name_from;
use crate::object::{Object, open};
use crate::plan::{names_in, place_of_name, symbols_of};
use crate::sections::{Found, Roles, is_code, name_at, roles_of, section_place};
use crate::tables::Symbols;

/// The name of the code section in which the only function of a name lies, of an object in which
/// several sections other than `.text` have code. Empty where these aren't several, where no function
/// or more than one has the name, where the name is empty, and where the bytes are no object, or one
/// whose symbols can't be read. So where no section is named, the entry's name says which one is meant.
pub fn home_of<'a>(bytes: &'a [u8], name: &[u8]) -> &'a [u8]
    ensures { result.now ≡ home_of bytes.now name.now }
{
    if name.is_empty() {
        return b"";
    }
    match open(bytes) {
        Ok(object) => {
            let roles = roles_of(&object, b"");
            home_in(&object, name, &roles)
        }
        Err(_) => b"",
    }
}

/// The same of an object, by its sections.
fn home_in<'a>(object: &Object<'a>, name: &[u8], roles: &Roles) -> &'a [u8]
    requires { FoundBelow (length object.now.sections) roles.now.symbols }
    ensures { result.now ≡ home_in object.now name.now roles.now }
{
    if !are_several(roles.chosen) {
        return b"";
    }
    match symbols_of(object, roles.symbols) {
        Ok(symbols) => {
            let names = names_in(object, roles.symbols);
            let found = function_found(object, names, name, &symbols);
            home_of_found(object, &symbols, found)
        }
        Err(_) => b"",
    }
}

/// Whether sections other than `.text` with code are several.
fn are_several(chosen: Found) -> bool
    ensures { result ≡ are_several chosen }
{
    matches!(chosen, Found::Several)
}

/// Whether a symbol is a function of a name, in a section with code.
fn is_function(object: &Object<'_>, names: u64, name: &[u8], symbol: &SymbolEntry) -> bool
    ensures { result ≡ is_function object.now names name.now symbol.now }
{
    let section = usize::from(symbol.section);
    if symbol.kind != 2 {
        return false;
    }
    if section >= object.len() {
        return false;
    }
    is_code(&object.section(section))
        && name_at(object.bytes(), place_of_name(object, names, symbol), name)
}

/// The symbols that are a function of a name.
fn function_found(object: &Object<'_>, names: u64, name: &[u8], symbols: &Symbols<'_>) -> Found
    ensures value { result ≡ found (is_function object.now names name.now) symbols.now }
    ensures within { FoundBelow (length symbols.now) result }
{
    let mut found = Found::Nothing;
    for i in 0..symbols.len() {
        let symbol = symbols.at(i);
        found = found.with(is_function(object, names, name, &symbol), i);
    }
    found
}

/// The name of the section of the function that was found.
fn home_of_found<'a>(object: &Object<'a>, symbols: &Symbols<'_>, found: Found) -> &'a [u8]
    requires { FoundBelow (length symbols.now) found }
    ensures { result.now ≡ home_of_found object.now symbols.now found }
{
    match found {
        Found::Only(i) => name_of_home(object, &symbols.at(i)),
        Found::Nothing | Found::Several => b"",
    }
}

/// The name of the section in which a symbol's function lies.
fn name_of_home<'a>(object: &Object<'a>, symbol: &SymbolEntry) -> &'a [u8]
    ensures { result.now ≡ name_of_home object.now symbol.now }
{
    let section = usize::from(symbol.section);
    if section >= object.len() {
        return b"";
    }
    let section = object.section(section);
    name_from(object.bytes(), section_place(object, &section))
}
