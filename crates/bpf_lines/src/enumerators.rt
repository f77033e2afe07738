//! Enumerators by their names.
ghost use Rattle.std.specs.Prelude.{◌≡◌, ◌<◌, ◌≤◌};
ghost use Rattle.bpf_lines.specs.Enumerators as spec;

use bpf_btf::{Btf, TypeEntry};

/// The values that enumerators of a name have.
#[derive(Clone, Copy)]
pub enum Enumerator {
    /// There is no enumerator of the name.
    Nothing,
    /// Each one has this value.
    Value(u64),
    /// They have several.
    Several,
}

/// Whether a type has enumerators.
fn is_enum(entry: &TypeEntry) -> bool
    ensures { result ≡ spec.is_enum entry.now }
{
    matches!(entry.kind, 6 | 19)
}

/// Where the name of an enumerator stands among the strings.
fn name_of(types: &Btf<'_>, id: usize, i: usize) -> u32
    requires { i < 65536 }
    ensures { result ≡ spec.name_of types.now id i }
{
    if types.type_of(id).kind == 6 {
        types.number_at(id, 12 + 8 * i)
    } else {
        types.number_at(id, 12 + 12 * i)
    }
}

/// The value of an enumerator.
fn value_of(types: &Btf<'_>, id: usize, i: usize) -> u64
    requires { i < 65536 }
    ensures { result ≡ spec.value_of types.now id i }
{
    if types.type_of(id).kind == 6 {
        return u64::from(types.number_at(id, 16 + 8 * i));
    }
    let low = u64::from(types.number_at(id, 16 + 12 * i));
    let high = u64::from(types.number_at(id, 20 + 12 * i));
    low + 4_294_967_296 * high
}

/// The values of a name, with one more.
fn with_value(found: Enumerator, value: u64) -> Enumerator
    ensures { result ≡ spec.with_value found value }
{
    match found {
        Enumerator::Nothing => Enumerator::Value(value),
        Enumerator::Value(known) => {
            if known == value {
                found
            } else {
                Enumerator::Several
            }
        }
        Enumerator::Several => Enumerator::Several,
    }
}

/// The values of a name, with that of one more enumerator, if it is called so.
fn with_entry(types: &Btf<'_>, name: &[u8], id: usize, i: usize, found: Enumerator) -> Enumerator
    requires { i < 65536 }
    ensures { result ≡ spec.with_entry types.now name.now id i found }
{
    if types.is_called(name_of(types, id, i), name) {
        with_value(found, value_of(types, id, i))
    } else {
        found
    }
}

/// The values of a name, with those of the enumerators of one more type.
fn with_type(types: &Btf<'_>, name: &[u8], id: usize, found: Enumerator) -> Enumerator
    ensures { result ≡ spec.with_type types.now name.now id found }
{
    let entry = types.type_of(id);
    if !is_enum(&entry) {
        return found;
    }
    let mut values = found;
    for i in 0..entry.count as usize {
        values = with_entry(types, name, id, i, values);
    }
    values
}

/// The values that enumerators of a name have, in time in proportion to the length of the types and
/// to that of the name.
pub(crate) fn find_value(types: &Btf<'_>, name: &[u8]) -> Enumerator
    ensures { result ≡ spec.enumerator types.now name.now }
{
    let mut values = Enumerator::Nothing;
    if name.len() > 255 {
        return values;
    }
    for i in 0..types.len() {
        values = with_type(types, name, i + 1, values);
    }
    values
}
