//! The sections of an object, by their kinds and names.
ghost use Rattle.std.specs.Prelude.{◌≡◌, ◌≤◌, ◌<◌, length};
ghost use Rattle.bpf_link.specs.Sections.{section_place, name_at, is_named, is_code, is_text, is_chosen, is_symbols, is_maps, is_data, is_relocations, found_with, AreFound, FoundBelow, roles_with, roles_in, relocations_of};

use crate::layout::SectionHeader;
use crate::object::Object;

/// What a search among sections found.
#[derive(Clone, Copy)]
pub enum Found {
    Nothing,
    /// The index of the only one.
    Only(usize),
    Several,
}

impl Found {
    /// With one more section, where it is one that is looked for.
    pub fn with(self, is_one: bool, i: usize) -> Found
        ensures { result ≡ found_with self is_one i }
    {
        if !is_one {
            return self;
        }
        match self {
            Found::Nothing => Found::Only(i),
            Found::Only(_) => Found::Several,
            Found::Several => Found::Several,
        }
    }
}

/// The sections that belong to the one that is asked for.
#[derive(Clone, Copy)]
pub struct Roles {
    /// The one that is asked for.
    pub chosen: Found,
    /// `.text`.
    pub text: Found,
    /// The symbols.
    pub symbols: Found,
    /// The definitions of maps.
    pub maps: Found,
}

/// Whether a name stands at a place in the file, and a zero after it.
pub fn name_at(bytes: &[u8], at: usize, name: &[u8]) -> bool
    requires { at ≤ length bytes.now }
    ensures { result ≡ name_at bytes.now at name.now }
{
    if name.len() >= bytes.len() - at {
        return false;
    }
    let end = at + name.len();
    &bytes[at..end] == name && bytes[end] == 0
}

/// Whether a section has a name.
pub fn is_named(object: &Object<'_>, section: &SectionHeader, name: &[u8]) -> bool
    ensures { result ≡ is_named object.now section.now name.now }
{
    let bytes = object.bytes();
    let offset = section.name as usize;
    if offset > bytes.len() - object.names() {
        return false;
    }
    name_at(bytes, object.names() + offset, name)
}

/// Where the name of a section stands in the file, or the file's end.
pub fn section_place(object: &Object<'_>, section: &SectionHeader) -> usize
    ensures value { result ≡ section_place object.now section.now }
    ensures inside { result ≤ length object.now.bytes }
{
    let len = object.bytes().len();
    let offset = section.name as usize;
    if offset > len - object.names() {
        return len;
    }
    object.names() + offset
}

pub fn is_code(section: &SectionHeader) -> bool
    ensures { result ≡ is_code section.now }
{
    section.kind == 1 && (section.flags / 4 % 2 == 1 && section.size > 0)
}

fn is_text(object: &Object<'_>, section: &SectionHeader) -> bool
    ensures { result ≡ is_text object.now section.now }
{
    is_code(section) && is_named(object, section, b".text")
}

pub fn is_chosen(object: &Object<'_>, name: &[u8], section: &SectionHeader) -> bool
    ensures { result ≡ is_chosen object.now name.now section.now }
{
    if !is_code(section) {
        return false;
    }
    if name.is_empty() {
        !is_named(object, section, b".text")
    } else {
        is_named(object, section, name)
    }
}

fn is_maps(object: &Object<'_>, section: &SectionHeader) -> bool
    ensures { result ≡ is_maps object.now section.now }
{
    is_named(object, section, b"maps") || is_named(object, section, b".maps")
}

pub fn is_data(object: &Object<'_>, section: &SectionHeader) -> bool
    ensures { result ≡ is_data object.now section.now }
{
    if section.kind != 1 && section.kind != 8 {
        return false;
    }
    section.flags / 2 % 2 == 1 && (section.flags / 4 % 2 == 0 && !is_maps(object, section))
}

fn is_relocations(target: usize, section: &SectionHeader) -> bool
    ensures { result ≡ is_relocations target section.now }
{
    (section.kind == 9 || section.kind == 4) && section.info as usize == target
}

/// The sections that belong to the one that is asked for: that of the name, or, where the name is
/// empty, the only one.
pub fn roles_of(object: &Object<'_>, name: &[u8]) -> Roles
    ensures value { result ≡ roles_in object.now name.now object.now.sections }
    ensures within { AreFound (length object.now.sections) result }
{
    let mut roles = Roles {
        chosen: Found::Nothing,
        text: Found::Nothing,
        symbols: Found::Nothing,
        maps: Found::Nothing,
    };
    for i in 0..object.len() {
        let section = object.section(i);
        roles = roles_with(object, name, roles, i, &section);
    }
    roles
}

/// The sections with one more.
fn roles_with(
    object: &Object<'_>,
    name: &[u8],
    roles: Roles,
    i: usize,
    section: &SectionHeader,
) -> Roles
    ensures { result ≡ roles_with object.now name.now roles i section.now }
{
    Roles {
        chosen: roles.chosen.with(is_chosen(object, name, section), i),
        text: roles.text.with(is_text(object, section), i),
        symbols: roles.symbols.with(section.kind == 2, i),
        maps: roles.maps.with(is_maps(object, section), i),
    }
}

/// The relocations of a section.
pub fn relocations_of(object: &Object<'_>, target: usize) -> Found
    ensures value { result ≡ relocations_of object.now target }
    ensures within { FoundBelow (length object.now.sections) result }
{
    let mut found = Found::Nothing;
    for i in 0..object.len() {
        let section = object.section(i);
        found = found.with(is_relocations(target, &section), i);
    }
    found
}
