//! What is asked of the slots of a program by a text that asks about a value.
ghost use Rattle.std.specs.Prelude.{◌≡◌, IfOk, true};
ghost use Rattle.counted_io.specs.Pieces.{piece_text};
ghost use Rattle.counted_io.specs.Writing.{WritesAfter};
ghost use Rattle.bpf_lines.specs.NamedMaps.{AreTypesOf};
ghost use Rattle.bpf_lines.specs.Objects.{own_slots, program_table};
ghost use Rattle.bpf_lines.specs.PlaceSlots.{slots_told};
ghost use Rattle.bpf_lines.specs.Values as spec;

use crate::ObjectLines;
use crate::enumerators::Enumerator;
use crate::named_value::named_value;
use crate::objects::{begin_of, own_slots};
use crate::place::{asks_value, is_name};
use crate::place_names::types_of;
use bpf_btf::Btf;
use bpf_link::types_in;
use bpf_packet::Packet;
use counted_io::{Counted, Piece, WriteFault, put_all};
use std::alloc::{AllocError, Global};
use std::io::Write;

/// Slots that stand together.
#[derive(Clone, Copy)]
struct Range {
    first: usize,
    count: usize,
}

/// The slots of a program that the first of its objects has.
fn own_range(packet: Option<Packet>, words: &[u8], all: &[ObjectLines<'_>]) -> Range
    ensures first { result.first ≡ spec.first_slot packet words.now all.now }
    ensures count { result.count ≡ own_slots all.now }
{
    Range {
        first: begin_of(packet, words, all),
        count: own_slots(all),
    }
}

/// The types of the first of some objects.
fn own_types<'a>(alloc: Global, all: &[ObjectLines<'a>]) -> Result<Btf<'a>, AllocError>
    ensures { IfOk result (AreTypesOf (spec.own_types all.now)) }
{
    let bytes: &'a [u8] = match all.split_first() {
        None => &[],
        Some((own, _)) => types_in(&own.plan.object),
    };
    match types_of(alloc, bytes) {
        Ok(types) => Ok(types),
        Err(_) => Err(AllocError),
    }
}

/// Writes what is asked of slots: which of them make a number.
#[tactic(auto, unfolding(crate::specs::Values::range_text))]
fn put_range<W: Write>(
    writer: &mut Counted<W>,
    so_far: Result<(), WriteFault>,
    number: Piece<'_>,
    range: Range,
) -> Result<(), WriteFault>
    ensures { WritesAfter W.contents writer.old so_far writer.new result
        (spec.range_text (piece_text number.entry) range.first range.count) }
{
    let pieces = [
        Piece::Text(b"="),
        number,
        Piece::Text(b","),
        Piece::Decimal(range.first as u64),
        Piece::Text(b","),
        Piece::Decimal(range.count as u64),
    ];
    put_all(writer, so_far, &pieces)
}

/// That, in memory.
fn range_text(alloc: Global, number: Piece<'_>, range: Range) -> Result<Vec<u8>, AllocError>
    ensures { IfOk result (λ text.
        text.items ≡ spec.range_text (piece_text number.entry) range.first range.count) }
{
    let mut writer = Counted::new(Vec::new(alloc));
    match put_range(&mut writer, Ok(()), number, range) {
        Ok(()) => Ok(writer.into_inner()),
        Err(_) => Err(AllocError),
    }
}

/// What is asked of slots by the values that a name has, or something else where it has none.
fn named_text(
    alloc: Global,
    none: &[u8],
    value: Enumerator,
    range: Range,
) -> Result<Vec<u8>, AllocError>
    ensures { IfOk result (λ text.
        text.items ≡ spec.named_text none.now value range.first range.count) }
{
    match value {
        Enumerator::Nothing => Vec::from_slice(alloc, none),
        Enumerator::Value(value) => range_text(alloc, Piece::Decimal(value), range),
        Enumerator::Several => Vec::from_slice(alloc, b"="),
    }
}

/// What is asked of slots by a value: by its name, or by a number as it is spelled.
fn valued_text(
    alloc: Global,
    types: &Btf<'_>,
    value: &[u8],
    range: Range,
) -> Result<Vec<u8>, AllocError>
    ensures { IfOk result (λ text.
        text.items ≡ spec.valued_text types.now value.now range.first range.count) }
{
    if is_name(value) {
        named_text(alloc, b"=", named_value(types, value), range)
    } else {
        range_text(alloc, Piece::Text(value), range)
    }
}

/// What is asked of slots by a text of which a table tells these.
fn slots_by(
    alloc: Global,
    types: &Btf<'_>,
    told: Vec<u8>,
    what: &[u8],
    range: Range,
) -> Result<Vec<u8>, AllocError>
    ensures { IfOk result (λ slots. slots.items
        ≡ spec.slots_by types.now told.items what.now range.first range.count) }
{
    if asks_value(what) {
        return valued_text(alloc, types, &what[1..], range);
    }
    if told.is_empty() {
        named_text(alloc, b"", named_value(types, what), range)
    } else {
        Ok(told)
    }
}

/// What is asked of the slots of a program by a text of which the table of its lines tells these.
pub(crate) fn slots_for(
    alloc: Global,
    packet: Option<Packet>,
    words: &[u8],
    all: &[ObjectLines<'_>],
    told: Vec<u8>,
    what: &[u8],
) -> Result<Vec<u8>, AllocError>
    requires { told.items ≡ slots_told true (program_table packet words.now all.now) what.now }
    ensures { IfOk result (λ slots.
        spec.AreSlotsFor packet words.now all.now what.now slots.items) }
{
    let types = match own_types(alloc, all) {
        Ok(types) => types,
        Err(error) => return Err(error),
    };
    let range = own_range(packet, words, all);
    match slots_by(alloc, &types, told, what, range) {
        Ok(slots) => Ok(slots),
        Err(error) => Err(error),
    }
}
