//! Where the names of a program's maps stand.
ghost use Rattle.std.specs.Prelude.{◌≡◌, ◌≤◌, ◌+◌, ◌++◌, length, map};
ghost use Rattle.bpf_isa.specs.Maps.{most_maps};
ghost use Rattle.bpf_link.specs.Data.{AllBelow};
ghost use Rattle.bpf_link.specs.MapNames.{AreNames, data_name, map_name};

use crate::map_types::{name_place, symbol_of};
use crate::plan::Plan;
use crate::sections::section_place;
use crate::shapes::in_order;
use arrayvec::ArrayVec;
use bpf_isa::MOST_MAPS;

/// Where the names of the maps at places of their section stand.
fn own_names(plan: &Plan<'_>, places: &[u64]) -> ArrayVec<usize, MOST_MAPS>
    requires { length places.now ≤ most_maps }
    ensures { result.items ≡ map (map_name plan.now) places.now }
{
    let mut names = ArrayVec::new();
    for place in places {
        names.push(name_place(plan, symbol_of(plan, *place)));
    }
    names
}

/// Where the names of sections of data stand.
fn data_names(plan: &Plan<'_>, taken: &[usize]) -> ArrayVec<usize, MOST_MAPS>
    requires few { length taken.now ≤ most_maps }
    requires below { AllBelow (length plan.now.object.sections) taken.now }
    ensures { result.items ≡ map (data_name plan.now) taken.now }
{
    let mut names = ArrayVec::new();
    for section in taken {
        let header = plan.object.section(*section);
        names.push(section_place(&plan.object, &header));
    }
    names
}

/// Places, and others after them.
fn with_others(
    mut names: ArrayVec<usize, MOST_MAPS>,
    others: &[usize],
) -> ArrayVec<usize, MOST_MAPS>
    requires { length names.items + length others.now ≤ most_maps }
    ensures { result.items ≡ names.items ++ others.now }
{
    let _all = names.try_extend_from_slice(others);
    names
}

/// Where the names of the maps stand in the file, in the order of their numbers: those of maps at
/// places of their section, and after them those of sections of data.
pub fn map_names(plan: &Plan<'_>, maps: &[u64], taken: &[usize]) -> ArrayVec<usize, MOST_MAPS>
    requires few { length maps.now + length taken.now ≤ most_maps }
    requires below { AllBelow (length plan.now.object.sections) taken.now }
    ensures { AreNames plan.now maps.now taken.now result.items }
{
    let ordered = in_order(maps);
    let own = own_names(plan, ordered.as_slice());
    let others = data_names(plan, taken);
    with_others(own, others.as_slice())
}
