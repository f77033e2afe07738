//! Lines of an answer with the names of the places that they tell.
ghost use Rattle.std.specs.Prelude.{◌≡◌, ◌<◌, ◌≤◌, length, IfSome, Some, None};
ghost use Rattle.counted_io.specs.Lines.{lines};
ghost use Rattle.counted_io.specs.Writing.{WritesAfter};
ghost use Rattle.bpf_lines.specs.NamedTexts as spec;

use crate::objects::entry_slots;
use crate::place_names::{Located, Names, put_name};
use bpf_isa::MOST_SLOTS;
use counted_io::{Counted, WriteFault, cut, natural, put, sides};
use std::io::Write;

/// The number that a text is.
fn number_in(text: &[u8]) -> Option<u64>
    ensures { result ≡ spec.number text.now }
{
    natural(text)?.to_u64()
}

/// The byte of a map at which a number is an address.
fn located_by(names: &Names<'_>, number: Option<u64>) -> Option<Located>
    ensures value { result ≡ spec.located_by names.now number }
    ensures sized { IfSome result (λ at. 0 < at.map.shape.value_size) }
{
    match number {
        Some(address) => names.locate(address),
        None => None,
    }
}

/// The byte of a map with which bytes begin that a word tells, as `ADDRESS:COUNT`.
fn bytes_in(names: &Names<'_>, word: &[u8]) -> Option<Located>
    ensures value { result ≡ spec.bytes_in names.now word.now }
    ensures sized { IfSome result (λ at. 0 < at.map.shape.value_size) }
{
    match cut(word, b':') {
        Some((address, _)) => located_by(names, number_in(address)),
        None => None,
    }
}

/// The first byte of a map that the words of a text tell.
fn first_in(names: &Names<'_>, text: &[u8]) -> Option<Located>
    ensures value { result ≡ spec.first_in names.now (spec.words text.now) }
    ensures sized { IfSome result (λ at. 0 < at.map.shape.value_size) }
{
    let mut rest = text;
    while !rest.is_empty() {
        let (word, others) = sides(rest, b' ');
        match bytes_in(names, word) {
            Some(at) => return Some(at),
            None => rest = others,
        }
    }
    None
}

/// The byte of a map that a line tells.
#[tactic(auto, unfolding(crate::specs::NamedTexts::told_in))]
fn told_in(names: &Names<'_>, line: &[u8]) -> Option<Located>
    ensures value { result ≡ spec.told_in names.now line.now }
    ensures sized { IfSome result (λ at. 0 < at.map.shape.value_size) }
{
    let (first, others) = sides(line, b' ');
    if first == b"left".as_slice() {
        let (place, _) = sides(others, b' ');
        let (address, _) = sides(place, b':');
        return located_by(names, number_in(address));
    }
    first_in(names, others)
}

/// The slot whose instruction a line tells behind its only part.
fn slot_in(line: &[u8]) -> Option<u64>
    ensures { result ≡ spec.told_slot line.now }
{
    let (_, told) = sides(line, b';');
    let (_, told) = sides(told, b' ');
    let (slot, _) = sides(told, b':');
    number_in(slot)
}

/// Whether a slot is of the stores that give variables their bytes at the start.
fn is_setup(names: &Names<'_>, slot: Option<u64>) -> bool
    ensures { result ≡ spec.is_setup names.now slot }
{
    let end = entry_slots(names.packet) + names.plan.parts.len();
    match slot {
        Some(slot) => slot > end as u64 && slot < MOST_SLOTS as u64,
        None => false,
    }
}

/// What the name of a byte is to a line.
fn way_of(is_setup: bool) -> &'static [u8]
    ensures { result.now ≡ spec.way_text is_setup }
{
    if is_setup {
        b"; initial value of "
    } else {
        b"; in "
    }
}

/// Whether a text begins with words.
#[tactic(auto, unfolding(crate::specs::NamedTexts::begins))]
fn begins(words: &[u8], text: &[u8]) -> bool
    ensures { result ≡ spec.begins words.now text.now }
{
    text.strip_prefix(words).is_some()
}

/// How many bytes of a line stand before its place in C: all where it has none.
fn place_at(line: &[u8]) -> usize
    ensures value { result ≡ spec.place_at line.now }
    ensures within { result ≤ length line.now }
{
    for at in 0..line.len() {
        if begins(b"; in ", &line[at..]) {
            return at;
        }
    }
    line.len()
}

/// Writes the name of a byte that a line tells, behind it.
fn put_told<W: Write>(
    writer: &mut Counted<W>,
    so_far: Result<(), WriteFault>,
    names: &Names<'_>,
    line: &[u8],
    told: Option<Located>,
) -> Result<(), WriteFault>
    requires { IfSome told (λ at. 0 < at.map.shape.value_size) }
    ensures { WritesAfter W.contents writer.old so_far writer.new result
        (spec.told_text names.now line.now told) }
{
    match told {
        Some(at) => {
            let way = way_of(is_setup(names, slot_in(line)));
            let parted = put(writer, so_far, way);
            put_name(writer, parted, names, at)
        }
        None => so_far,
    }
}

/// Writes what a line tells, with a name, and then its place.
fn put_split<W: Write>(
    writer: &mut Counted<W>,
    so_far: Result<(), WriteFault>,
    names: &Names<'_>,
    line: &[u8],
    place: &[u8],
) -> Result<(), WriteFault>
    ensures { WritesAfter W.contents writer.old so_far writer.new result
        (spec.named_by names.now line.now place.now) }
{
    let begun = put(writer, so_far, line);
    let told = put_told(writer, begun, names, line, told_in(names, line));
    let placed = put(writer, told, place);
    put(writer, placed, b"\n")
}

/// Writes a line, with the name of what it tells before its place in C.
fn put_line<W: Write>(
    writer: &mut Counted<W>,
    so_far: Result<(), WriteFault>,
    names: &Names<'_>,
    line: &[u8],
) -> Result<(), WriteFault>
    ensures { WritesAfter W.contents writer.old so_far writer.new result
        (spec.named_line names.now line.now) }
{
    let at = place_at(line);
    put_split(writer, so_far, names, &line[..at], &line[at..])
}

/// Writes the lines of an answer. In each that tells bytes of a map stands the name of the first one,
/// and whether it gets its initial value there: behind all but the line's place in C.
///
/// A line takes time in proportion to its length, and no more than a bounded time for a name,
/// whatever the object.
pub fn put_named<W: Write>(
    writer: &mut Counted<W>,
    so_far: Result<(), WriteFault>,
    names: &Names<'_>,
    text: &[u8],
) -> Result<(), WriteFault>
    ensures { WritesAfter W.contents writer.old so_far writer.new result
        (spec.named_text names.now text.now) }
{
    let mut told = so_far;
    let mut rest = text;
    while !rest.is_empty() {
        let (line, others) = sides(rest, b'\n');
        told = put_line(writer, told, names, line);
        rest = others;
    }
    told
}
