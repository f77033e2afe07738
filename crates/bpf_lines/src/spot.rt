//! What of a value a byte lies in, by the value's type.
ghost use Rattle.std.specs.Prelude.{◌≡◌, ◌<◌, ◌+◌, ◌/◌, ◌%◌, IfSome, Some, None};
ghost use Rattle.bpf_btf.specs.Sizes.{is_modifier};
ghost use Rattle.bpf_btf.specs.Types.{type_of};
ghost use Rattle.bpf_link.specs.Names.{short_at};
ghost use Rattle.counted_io.specs.Writing.{WritesAfter};
ghost use Rattle.bpf_lines.specs.Spots as spec;

use bpf_btf::{Btf, TypeEntry, is_modifier, latest};
use bpf_link::short_at;
use bpfdb_script::put_shown;
use counted_io::{Counted, Piece, WriteFault, put, put_all};
use std::io::Write;

/// The most members of a struct among which one is looked for.
const MOST_MEMBERS: u32 = 1_024;

/// The most parts, names and qualifiers that are gone into.
const MOST_PARTS: u32 = 32;

/// A byte, so far behind the beginning of a value of a type.
#[derive(Clone, Copy)]
pub struct Spot {
    /// The number of the type.
    pub of: usize,
    pub offset: u32,
}

/// What of a value a byte lies in.
#[derive(Clone, Copy)]
pub enum Part {
    /// In a value of the type that a name or a qualifier stands for, which is the same value.
    Same { of: u32 },
    /// In an element of an array, so far behind its beginning.
    Element { of: u32, index: u32, offset: u32 },
    /// In a member of a struct or union, whose name stands there among the strings.
    Member { of: u32, name: u32, offset: u32 },
    /// In no part of it: the value has none, or none that is known.
    Whole,
}

/// Whether a struct says of its members how many bits they have.
fn has_bits(types: &Btf<'_>, id: usize) -> bool
    ensures { result ≡ spec.has_bits types.now id }
{
    types.number_at(id, 4) >= 0x8000_0000
}

/// At which byte a member begins.
fn begin_of(types: &Btf<'_>, id: usize, i: usize) -> u32
    requires { i < 65536 }
    ensures { result ≡ spec.begin_of types.now id i }
{
    let bits = types.number_at(id, 20 + 12 * i);
    if has_bits(types, id) {
        bits % 0x100_0000 / 8
    } else {
        bits / 8
    }
}

/// The index of the last member that begins at a byte or before it.
fn last_begun(types: &Btf<'_>, spot: Spot) -> Option<usize>
    ensures value { result ≡ spec.last_begun types.now spot }
    ensures below { IfSome result (λ i. i < 65536) }
{
    let mut found = None;
    let count = types.type_of(spot.of).count as usize;
    for i in 0..count {
        let has_begun = begin_of(types, spot.of, i) <= spot.offset;
        found = latest(found, has_begun, i);
    }
    found
}

/// The index of the member in which a byte lies.
fn member_of(types: &Btf<'_>, entry: &TypeEntry, spot: Spot) -> Option<usize>
    ensures value { result ≡ spec.member_of types.now entry.now spot }
    ensures below { IfSome result (λ i. i < 65536) }
{
    if entry.count == 0 || entry.count > MOST_MEMBERS {
        return None;
    }
    match entry.kind {
        4 => last_begun(types, spot),
        5 => Some(0),
        _ => None,
    }
}

/// The member by its index, as what a byte lies in.
fn member_at(types: &Btf<'_>, spot: Spot, member: Option<usize>) -> Part
    requires { IfSome member (λ i. i < 65536) }
    ensures { result ≡ spec.member_at types.now spot member }
{
    match member {
        Some(i) => {
            let entry = types.member_at(spot.of, i);
            Part::Member {
                of: entry.of,
                name: entry.name,
                offset: spot.offset.saturating_sub(begin_of(types, spot.of, i)),
            }
        }
        None => Part::Whole,
    }
}

/// The element of so many bytes in which a byte of an array lies.
fn element_at(of: u32, count: u32, size: Option<u32>, offset: u32) -> Part
    ensures { result ≡ spec.element_at of count size offset }
{
    let size = match size {
        Some(size) => size,
        None => return Part::Whole,
    };
    if size == 0 || offset / size >= count {
        return Part::Whole;
    }
    Part::Element {
        of,
        index: offset / size,
        offset: offset % size,
    }
}

/// What of a value a byte lies in.
#[tactic(auto, unfolding(crate::specs::Spots::part_at))]
fn part_at(types: &Btf<'_>, spot: Spot) -> Part
    ensures { result ≡ spec.part_at types.now spot }
{
    let entry = types.type_of(spot.of);
    if is_modifier(&entry) {
        return Part::Same { of: entry.of };
    }
    if entry.kind == 3 {
        let array = types.array_of(spot.of);
        let size = types.size_of(array.of as usize);
        return element_at(array.of, array.count, size, spot.offset);
    }
    member_at(types, spot, member_of(types, &entry, spot))
}

/// The byte in what it lies in.
fn inside(spot: Spot, part: Part) -> Spot
    ensures { result ≡ spec.inside spot part }
{
    match part {
        Part::Same { of } => Spot {
            of: of as usize,
            offset: spot.offset,
        },
        Part::Element { of, offset, .. } => Spot {
            of: of as usize,
            offset,
        },
        Part::Member { of, offset, .. } => Spot {
            of: of as usize,
            offset,
        },
        Part::Whole => spot,
    }
}

/// Writes the name of a field behind a dot; nothing where it has none.
fn put_field<W: Write>(
    writer: &mut Counted<W>,
    so_far: Result<(), WriteFault>,
    name: &[u8],
) -> Result<(), WriteFault>
    ensures { WritesAfter W.contents writer.old so_far writer.new result
        (spec.field_text name.now) }
{
    match name {
        [] => so_far,
        _ => {
            let dotted = put(writer, so_far, b".");
            put_shown(writer, dotted, name)
        }
    }
}

/// Writes an index in brackets.
#[tactic(auto, unfolding(crate::specs::Spots::index_text))]
pub fn put_index<W: Write>(
    writer: &mut Counted<W>,
    so_far: Result<(), WriteFault>,
    index: u32,
) -> Result<(), WriteFault>
    ensures { WritesAfter W.contents writer.old so_far writer.new result (spec.index_text index) }
{
    let index = u64::from(index);
    let pieces = [Piece::Text(b"["), Piece::Decimal(index), Piece::Text(b"]")];
    put_all(writer, so_far, &pieces)
}

/// Writes what a byte lies in.
fn put_part<W: Write>(
    writer: &mut Counted<W>,
    so_far: Result<(), WriteFault>,
    strings: &[u8],
    part: Part,
) -> Result<(), WriteFault>
    ensures { WritesAfter W.contents writer.old so_far writer.new result
        (spec.part_text strings.now part) }
{
    match part {
        Part::Element { index, .. } => put_index(writer, so_far, index),
        Part::Member { name, .. } => put_field(writer, so_far, short_at(strings, name as usize)),
        _ => so_far,
    }
}

/// Writes how far a byte lies behind the beginning of what it lies in; nothing where it begins.
#[tactic(auto, unfolding(crate::specs::Spots::some_rest))]
pub fn put_rest<W: Write>(
    writer: &mut Counted<W>,
    so_far: Result<(), WriteFault>,
    offset: u32,
) -> Result<(), WriteFault>
    ensures { WritesAfter W.contents writer.old so_far writer.new result (spec.rest_text offset) }
{
    if offset == 0 {
        return so_far;
    }
    let offset = u64::from(offset);
    let pieces = [Piece::Text(b"+"), Piece::Decimal(offset)];
    put_all(writer, so_far, &pieces)
}

/// Writes what a byte lies in, from outside in, through at most 32 parts, names and qualifiers.
pub fn put_path<W: Write>(
    writer: &mut Counted<W>,
    so_far: Result<(), WriteFault>,
    types: &Btf<'_>,
    spot: Spot,
) -> Result<(), WriteFault>
    ensures { WritesAfter W.contents writer.old so_far writer.new result
        (spec.path_text types.now spot) }
{
    let mut told = so_far;
    let mut at = spot;
    for _ in 0..MOST_PARTS {
        let part = part_at(types, at);
        told = put_part(writer, told, types.strings(), part);
        at = inside(at, part);
    }
    put_rest(writer, told, at.offset)
}
