//! A map as it is named.
ghost use Rattle.std.specs.Prelude.{◌≡◌, ◌≤◌, ◌<◌, ◌+◌, ◌-◌, length, IfSome, Some, None};
ghost use Rattle.bpf_lines.specs.NamedMaps as spec;
ghost use Rattle.bpf_isa.specs.Maps.{most_maps};

use arrayvec::ArrayVec;
use bpf_btf::{Btf, latest};
use bpf_isa::{MOST_MAPS, MapShape};
use bpf_link::{Plan, short_at};

/// A map as it is named.
#[derive(Clone, Copy, Default)]
pub struct NamedMap {
    /// Where its name stands in the file.
    pub name: usize,
    pub shape: MapShape,
    /// The section of data that it is; None of a map that the object defines.
    pub section: Option<usize>,
    /// The number of the type of its values, or of the list of its section's variables, if BTF has
    /// that.
    pub root: Option<usize>,
}

/// Whether a type is the list of variables of a section of a name.
fn is_list(types: &Btf<'_>, name: &[u8], id: usize) -> bool
    ensures { result ≡ spec.is_list types.now name.now id }
{
    let entry = types.type_of(id);
    entry.kind == 15 && types.is_called(entry.name, name)
}

/// How many types stand before the last list of variables of a section of a name.
fn before_list(types: &Btf<'_>, name: &[u8]) -> Option<usize>
    ensures value { result ≡ spec.before_list types.now name.now }
    ensures below { IfSome result (λ i. i < 18446744073709551615) }
{
    let mut found = None;
    for i in 0..types.len() {
        found = latest(found, is_list(types, name, i + 1), i);
    }
    found
}

/// The list of variables of a section of a name.
fn list_of(types: &Btf<'_>, name: &[u8]) -> Option<usize>
    ensures { result ≡ spec.list_of types.now name.now }
{
    match before_list(types, name) {
        Some(i) => Some(i + 1),
        None => None,
    }
}

/// A map that the object defines, or a section of data.
#[tactic(auto, unfolding(crate::specs::NamedMaps::named_map))]
fn named_map(
    plan: &Plan<'_>,
    types: &Btf<'_>,
    shape: MapShape,
    place: usize,
    section: Option<usize>,
) -> NamedMap
    ensures { result ≡ spec.named_map plan.now types.now shape place section }
{
    let name = short_at(plan.object.bytes(), place);
    let root = match section {
        Some(_) => list_of(types, name),
        None => types.value_type(name),
    };
    NamedMap {
        name: place,
        shape,
        section,
        root,
    }
}

/// The section that the k-th map is, None of the first ones, which the object defines.
fn section_of(own: usize, sections: &[usize], k: usize) -> Option<usize>
    ensures { result ≡ spec.section_of own sections.now k }
{
    if k < own {
        return None;
    }
    sections.get(k - own).copied()
}

/// All maps of a plan, in the order of their numbers.
pub fn named_maps(
    plan: &Plan<'_>,
    types: &Btf<'_>,
    own: usize,
    sections: &[usize],
    shapes: &[MapShape],
    places: &[usize],
) -> ArrayVec<NamedMap, MOST_MAPS>
    requires { length shapes.now ≤ most_maps }
    ensures { result.items ≡ spec.named_maps plan.now types.now own sections.now shapes.now places.now }
{
    let mut maps = ArrayVec::new();
    for k in 0..shapes.len() {
        let place = places.get(k).copied().unwrap_or(0);
        let section = section_of(own, sections, k);
        maps.push(named_map(plan, types, shapes[k], place, section));
    }
    maps
}
