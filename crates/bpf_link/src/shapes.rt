//! The shapes of the maps of an object.
ghost use Rattle.std.specs.Prelude.{◌≡◌, ◌≤◌, ◌<◌, ◌+◌, ◌++◌, nat_le, length, true, IfOk, IfErr, IsTrue, List};
ghost use Rattle.bpf_link.specs.MapTypes.{is_typed};
ghost use Rattle.bpf_link.specs.Refusals.{HasTypeFault};
ghost use Rattle.bpf_link.specs.Shapes.{definition_at, is_array, shape_at, shapes_at, IsInOrder, AreDefined, AreOwn, is_unknown, all_shapes};
ghost use Rattle.bpf_isa.specs.declared.maps.MapShape.{MapShape};
ghost use Rattle.bpf_isa.specs.Maps.{most_maps};

use crate::fault::LinkFault;
use crate::layout::{MapDefinition, map_definition};
use crate::map_types::{is_typed, shapes_by_types};
use crate::plan::Plan;
use arrayvec::ArrayVec;
use bpf_isa::{MOST_MAPS, MapShape};
use std::alloc::Global;

/// The definition at a place of the section.
fn definition_at(definitions: &[u8], place: u64) -> MapDefinition
    requires { place + 16 ≤ length definitions.now }
    ensures { result ≡ definition_at definitions.now place }
{
    map_definition(definitions, place as usize)
}

/// Whether a definition lies at a place of the section.
fn is_inside(definitions: &[u8], place: u64) -> bool
    ensures { result ≡ nat_le (place + 16) (length definitions.now) }
{
    let count = definitions.len() as u64;
    count >= 16 && place <= count - 16
}

/// Whether an array is defined at a place of the section.
fn is_array(definitions: &[u8], place: u64) -> bool
    ensures value { result ≡ is_array definitions.now place }
    ensures inside { IsTrue result → place + 16 ≤ length definitions.now }
{
    if !is_inside(definitions, place) {
        return false;
    }
    let definition = definition_at(definitions, place);
    definition.kind == 2 && definition.key_size == 4
}

/// The shape of the map that is defined at a place of the section.
fn shape_at(definitions: &[u8], place: u64) -> MapShape
    requires { place + 16 ≤ length definitions.now }
    ensures { result ≡ shape_at definitions.now place }
{
    let definition = definition_at(definitions, place);
    MapShape {
        value_size: definition.value_size,
        entries: definition.entries,
    }
}

/// The shapes of the maps at places of the section, none unless each is an array.
fn shapes_at(definitions: &[u8], places: &[u64]) -> ArrayVec<MapShape, MOST_MAPS>
    requires { length places.now ≤ most_maps }
    ensures { result.items ≡ shapes_at definitions.now places.now }
{
    let mut shapes = ArrayVec::new();
    for place in places {
        if !is_array(definitions, *place) {
            return ArrayVec::new();
        }
        shapes.push(shape_at(definitions, *place));
    }
    shapes
}

/// Places in ascending order.
pub fn in_order(places: &[u64]) -> ArrayVec<u64, MOST_MAPS>
    requires { length places.now ≤ most_maps }
    ensures value { IsInOrder places.now result.items }
    ensures length { length result.items ≤ most_maps }
{
    let mut ordered = ArrayVec::new();
    let _all = ordered.try_extend_from_slice(places);
    ordered.as_mut_slice().sort_unstable();
    ordered
}

/// The shapes of maps that stand at places of the section, in the order of their numbers. None
/// unless each is an array.
fn shapes_of(definitions: &[u8], maps: &[u64]) -> ArrayVec<MapShape, MOST_MAPS>
    requires { length maps.now ≤ most_maps }
    ensures defined { AreDefined definitions.now maps.now result.items }
    ensures few { length result.items ≤ length maps.now }
{
    let ordered = in_order(maps);
    shapes_at(definitions, ordered.as_slice())
}

/// The shapes of the maps that stand at places of their section: by BTF, or by their definitions.
fn own_shapes(
    alloc: Global,
    plan: &Plan<'_>,
    maps: &[u64],
) -> Result<ArrayVec<MapShape, MOST_MAPS>, LinkFault>
    requires { length maps.now ≤ most_maps }
    ensures ok { IfOk result (λ own. AreOwn (is_typed plan.now maps.now)
        plan.now maps.now own.items) }
    ensures few { IfOk result (λ own. length own.items ≤ length maps.now) }
    ensures err { IfErr result (HasTypeFault plan.now maps.now) }
{
    if is_typed(plan, maps) {
        return shapes_by_types(alloc, plan, maps);
    }
    Ok(shapes_of(plan.definitions.bytes, maps))
}

/// The shapes of all maps: those that stand at places of their section, and after them those of
/// data. None where the object has maps of its own, BTF doesn't tell of them and not each is an
/// array.
pub fn all_shapes(
    alloc: Global,
    plan: &Plan<'_>,
    maps: &[u64],
    others: &[MapShape],
) -> Result<ArrayVec<MapShape, MOST_MAPS>, LinkFault>
    requires { length maps.now + length others.now ≤ most_maps }
    ensures ok { IfOk result (λ shapes. (own : List MapShape)
        × AreOwn (is_typed plan.now maps.now) plan.now maps.now own
        × (shapes.items ≡ all_shapes maps.now own others.now)) }
    ensures err { IfErr result (HasTypeFault plan.now maps.now) }
{
    let own = match own_shapes(alloc, plan, maps) {
        Ok(own) => own,
        Err(fault) => return Err(fault),
    };
    if is_unknown(maps, own.as_slice()) {
        return Ok(ArrayVec::new());
    }
    Ok(with_data(own, others))
}

/// Whether the object has maps of its own and their shapes aren't known.
fn is_unknown(maps: &[u64], own: &[MapShape]) -> bool
    ensures { result ≡ is_unknown maps.now own.now }
{
    !maps.is_empty() && own.is_empty()
}

/// Shapes, and after them those of data.
fn with_data(
    mut shapes: ArrayVec<MapShape, MOST_MAPS>,
    others: &[MapShape],
) -> ArrayVec<MapShape, MOST_MAPS>
    requires { length shapes.items + length others.now ≤ most_maps }
    ensures { result.items ≡ shapes.items ++ others.now }
{
    let _all = shapes.try_extend_from_slice(others);
    shapes
}
