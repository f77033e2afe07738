//! What is seen of two machines from outside, and the first place at which they ended otherwise.
ghost use Rattle.std.specs.Prelude.{◌≡◌, ◌<◌, ◌+◌, ◌%◌, ◌^◌, Some, find, length, max, option_map, slice_get};
ghost use Rattle.std.specs.Option.{option_or};
ghost use Rattle.bpf_steps.specs.Platform.{map_address};
ghost use Rattle.bpf_steps.specs.Regions.{map_len};
ghost use Rattle.bpf_origin.specs.Places.{bytes_from};
ghost use Rattle.bpf_diff.specs.Seen as spec;
ghost use Rattle.bpf_diff.specs.Seen.{context_places, ends_otherwise, longer, longest, longest_maps, map_places, result_otherwise, word_places};

use bpf_isa::{MapShape, MapTable};
use bpf_machine::{Cpu, Status};
use bpf_origin::Place;
use bpf_steps::platform::{CONTEXT_BASE, MAP_BASE, MAP_STRIDE};
use bpfdb_script::number_in;

/// Two machines that ran, and the contexts on which each began.
#[derive(Clone, Copy)]
struct Sides<'a> {
    first: &'a Cpu,
    second: &'a Cpu,
    context: &'a [u8],
    other: &'a [u8],
}

/// The first place at which two runs on these contexts ended otherwise: of the contexts, of the maps,
/// of the traced words, and at last r0.
pub fn first_place<'a>(
    first: &'a Cpu,
    second: &'a Cpu,
    context: &'a [u8],
    other: &'a [u8],
) -> Option<Place>
    ensures { result ≡ spec.first_place context.now other.now first.now second.now }
{
    let sides = Sides {
        first,
        second,
        context,
        other,
    };
    match first_of_contexts(&sides) {
        Some(place) => Some(place),
        None => first_behind_contexts(&sides),
    }
}

/// The first one behind the contexts.
fn first_behind_contexts(sides: &Sides<'_>) -> Option<Place>
    ensures { result ≡ option_or (find (ends_otherwise sides.now.context.now
        sides.now.other.now sides.now.first.now sides.now.second.now)
        (map_places 0 (longest_maps sides.now.first.now sides.now.second.now)))
        (option_or (find (ends_otherwise sides.now.context.now
        sides.now.other.now sides.now.first.now sides.now.second.now)
        (word_places sides.now.first.now sides.now.second.now))
        (result_otherwise sides.now.first.now sides.now.second.now)) }
{
    match first_of_maps(sides) {
        Some(place) => Some(place),
        None => match first_of_words(sides) {
            Some(place) => Some(place),
            None => result_of(sides),
        },
    }
}

/// The first byte of the longer context at which they did.
fn first_of_contexts(sides: &Sides<'_>) -> Option<Place>
    ensures { result ≡ find (ends_otherwise sides.now.context.now
        sides.now.other.now sides.now.first.now sides.now.second.now)
        (context_places sides.now.context.now sides.now.other.now) }
{
    let len = greater(sides.context.len(), sides.other.len());
    first_of_bytes(sides, CONTEXT_BASE, len)
}

/// The first byte of a map, of two with one number that with more bytes.
fn first_of_maps(sides: &Sides<'_>) -> Option<Place>
    ensures { result ≡ find (ends_otherwise sides.now.context.now
        sides.now.other.now sides.now.first.now sides.now.second.now)
        (map_places 0 (longest_maps sides.now.first.now sides.now.second.now)) }
{
    let one = sides.first.program().maps();
    let other = sides.second.program().maps();
    for i in 0..greater(one.len(), other.len()) {
        match first_of_map(sides, i, longest_at(one, other, i)) {
            Some(place) => return Some(place),
            None => {}
        }
    }
    None
}

/// The map with a number, of two with this number that with more bytes.
fn longest_at(maps: &MapTable, others: &MapTable, number: usize) -> MapShape
    requires { number < max (length maps.now) (length others.now) }
    ensures { slice_get (longest maps.now others.now) number ≡ Some result }
{
    match (maps.shape(number), others.shape(number)) {
        (Some(shape), Some(other)) => longer(shape, other),
        (Some(shape), None) => shape,
        (None, Some(other)) => other,
        (None, None) => unreachable!(),
    }
}

/// Of two maps that with more bytes.
fn longer(shape: MapShape, other: MapShape) -> MapShape
    ensures { result ≡ longer shape other }
{
    if len_of(shape) < len_of(other) {
        other
    } else {
        shape
    }
}

/// How many bytes a map has.
fn len_of(shape: MapShape) -> u64
    ensures { result ≡ map_len shape }
{
    u64::from(shape.value_size) * u64::from(shape.entries)
}

/// The first byte of the map with a number and a shape.
fn first_of_map(sides: &Sides<'_>, map: usize, shape: MapShape) -> Option<Place>
    requires { map < 16 }
    ensures { result ≡ find (ends_otherwise sides.now.context.now
        sides.now.other.now sides.now.first.now sides.now.second.now)
        (bytes_from (map_address map) (map_len shape)) }
{
    let address = MAP_BASE + MAP_STRIDE * map as u64;
    first_of_bytes(sides, address, len_of(shape) as usize)
}

/// The first of so many bytes from an address on.
fn first_of_bytes(sides: &Sides<'_>, address: u64, len: usize) -> Option<Place>
    ensures { result ≡ find (ends_otherwise sides.now.context.now
        sides.now.other.now sides.now.first.now sides.now.second.now)
        (bytes_from address len) }
{
    for i in 0..len {
        let place = byte_from(address, i);
        if is_otherwise(sides, place) {
            return Some(place);
        }
    }
    None
}

/// The byte at so many addresses from an address on.
fn byte_from(address: u64, i: usize) -> Place
    ensures { result ≡ Place.Byte ((address + i) % 2 ^ 64) }
{
    Place::Byte {
        address: address.wrapping_add(i as u64),
    }
}

/// The first traced word.
fn first_of_words(sides: &Sides<'_>) -> Option<Place>
    ensures { result ≡ find (ends_otherwise sides.now.context.now
        sides.now.other.now sides.now.first.now sides.now.second.now)
        (word_places sides.now.first.now sides.now.second.now) }
{
    let len = greater(sides.first.trace().len(), sides.second.trace().len());
    for i in 0..len {
        let place = Place::Word { index: i };
        if is_otherwise(sides, place) {
            return Some(place);
        }
    }
    None
}

/// r0, where both exited with another one.
fn result_of(sides: &Sides<'_>) -> Option<Place>
    ensures { result ≡ result_otherwise sides.now.first.now sides.now.second.now }
{
    if has_exited(sides.first.status())
        && (has_exited(sides.second.status())
            && number_in(sides.first, 0) != number_in(sides.second, 0))
    {
        Some(Place::Register {
            depth: 0,
            number: 0,
        })
    } else {
        None
    }
}

/// Whether a run exited.
fn has_exited(status: Status) -> bool
    ensures { result ≡ spec.has_exited status }
{
    match status {
        Status::Exited => true,
        Status::Running | Status::Faulted(_) => false,
    }
}

/// Whether they ended otherwise at a place: with another value, which one of them at least was not
/// given there.
#[tactic(auto, unfolding(crate::specs::Seen::ends_otherwise))]
fn is_otherwise(sides: &Sides<'_>, place: Place) -> bool
    ensures { result ≡ ends_otherwise sides.now.context.now sides.now.other.now
        sides.now.first.now sides.now.second.now place }
{
    let one = seen(sides.first, place);
    let other = seen(sides.second, place);
    !same_value(one, other)
        && !(same_value(one, given(sides.context, sides.first, place))
            && same_value(other, given(sides.other, sides.second, place)))
}

/// What stands at a place, None where there is no such byte or word.
pub fn seen(cpu: &Cpu, place: Place) -> Option<u64>
    ensures { result ≡ spec.seen cpu.now place }
{
    match place {
        Place::Byte { address } => byte_at(cpu, address),
        Place::Word { index } => cpu.trace().get(index).copied(),
        Place::Register { .. } => Some(number_in(cpu, 0)),
    }
}

/// The byte at an address, None where there is none.
fn byte_at(cpu: &Cpu, address: u64) -> Option<u64>
    ensures { result ≡ spec.seen cpu.now (Place.Byte address) }
{
    match cpu.peek(address, 1) {
        Some(run) => Some(u64::from(run[0])),
        None => None,
    }
}

/// What stood at a place before the first step: a byte of the context, zero in a map; None where there
/// is no such byte or word.
fn given(context: &[u8], cpu: &Cpu, place: Place) -> Option<u64>
    ensures { result ≡ spec.given context.now cpu.now place }
{
    match place {
        Place::Byte { address } => {
            let index = address.saturating_sub(CONTEXT_BASE);
            match context.get(index as usize) {
                Some(byte) => Some(u64::from(*byte)),
                None => zero_at(cpu, address),
            }
        }
        Place::Word { .. } | Place::Register { .. } => None,
    }
}

/// Zero where there is a byte at an address.
fn zero_at(cpu: &Cpu, address: u64) -> Option<u64>
    ensures { result ≡ option_map (λ v. 0) (spec.seen cpu.now (Place.Byte address)) }
{
    match byte_at(cpu, address) {
        Some(_) => Some(0),
        None => None,
    }
}

/// Whether two values are one.
fn same_value(one: Option<u64>, other: Option<u64>) -> bool
    ensures { result ≡ spec.same_value one other }
{
    match (one, other) {
        (None, None) => true,
        (Some(v), Some(w)) => v == w,
        _ => false,
    }
}

/// The greater of two lengths.
fn greater(one: usize, other: usize) -> usize
    ensures { result ≡ max one other }
{
    one.max(other)
}
