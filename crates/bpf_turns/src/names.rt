//! Sections and strings by their names.
ghost use Rattle.std.specs.Prelude.{◌≡◌};
ghost use Rattle.bpf_btf.specs.Layout.{is_called};
ghost use Rattle.bpf_turns.specs.Blocks.{code_name};
ghost use Rattle.bpf_turns.specs.Ext.{name_place};

use bpf_link::{Object, name_at, name_from, section_place};

/// The name of a section of code, if it has at most 255 bytes.
pub fn code_name<'a>(object: &Object<'a>, section: usize) -> &'a [u8]
    ensures { result.now ≡ code_name object.now section }
{
    if section >= object.len() {
        return &[];
    }
    let bytes = object.bytes();
    let name = name_from(bytes, section_place(object, &object.section(section)));
    if name.len() > 255 {
        return name_from(bytes, bytes.len());
    }
    name
}

/// Whether a name stands at a place among strings, and a zero after it.
pub fn is_called(strings: &[u8], at: usize, name: &[u8]) -> bool
    ensures { result ≡ is_called strings.now at name.now }
{
    if at > strings.len() {
        return false;
    }
    name_at(strings, at, name)
}

/// The last place among strings at which a name stands.
pub fn name_place(strings: &[u8], name: &[u8]) -> Option<usize>
    ensures { result ≡ name_place strings.now name.now }
{
    let mut found = None;
    for at in 0..strings.len() {
        if is_called(strings, at, name) {
            found = Some(at);
        }
    }
    found
}
