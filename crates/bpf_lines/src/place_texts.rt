//! What an object's table of lines tells of each slot: where it stands in C, as it ends the line of a
//! branch there, or its function.
ghost use Rattle.std.specs.Prelude.{◌≡◌, [], IfOk, OnOk, map, replicate, set};
ghost use Rattle.bpf_lines.specs.PlaceTexts as spec;

use crate::table_row::{behind_last, line_in};
use counted_io::{natural, sides};
use std::alloc::{AllocError, Global};

/// What is told of slots.
#[derive(Clone, Copy)]
pub(crate) enum SlotText {
    /// Where it stands in C.
    Place,
    /// The name of its function.
    Function,
}

/// The text of a place, by what a row tells: no byte where its line isn't known.
#[tactic(auto, unfolding(crate::specs::PlaceTexts::place_text))]
fn place_text(alloc: Global, told: &[u8]) -> Result<Vec<u8>, AllocError>
    ensures { IfOk result (λ text. text.items ≡ spec.place_text told.now) }
{
    let line = line_in(told);
    let mut text = Vec::new(alloc);
    if line == b"-".as_slice() {
        return Ok(text);
    }
    text.extend_from_slice(b"; in ")?;
    text.extend_from_slice(behind_last(told, b' '))?;
    text.extend_from_slice(b" (")?;
    text.extend_from_slice(behind_last(line, b'/'))?;
    text.extend_from_slice(b")")?;
    Ok(text)
}

/// The name of the function that a row tells: no byte where it isn't known.
#[tactic(auto, unfolding(crate::specs::PlaceTexts::function_text))]
fn function_text(alloc: Global, told: &[u8]) -> Result<Vec<u8>, AllocError>
    ensures { IfOk result (λ text. text.items ≡ spec.function_text told.now) }
{
    let name = behind_last(told, b' ');
    let mut text = Vec::new(alloc);
    if name == b"-".as_slice() {
        return Ok(text);
    }
    text.extend_from_slice(name)?;
    Ok(text)
}

/// The text of a slot, by what its row tells.
fn text_by(alloc: Global, kind: SlotText, told: &[u8]) -> Result<Vec<u8>, AllocError>
    ensures { IfOk result (λ text. text.items ≡ spec.text_by kind told.now) }
{
    match kind {
        SlotText::Place => place_text(alloc, told),
        SlotText::Function => function_text(alloc, told),
    }
}

/// The slot of a row.
fn slot_of(number: &[u8]) -> Option<usize>
    ensures { result ≡ spec.slot_by number.now }
{
    match natural(number) {
        Some(slot) => match slot.to_u64() {
            Some(slot) => Some(slot as usize),
            None => None,
        },
        None => None,
    }
}

/// Texts of so many slots, each without a byte.
fn no_texts(alloc: Global, count: usize) -> Result<Vec<Vec<u8>>, AllocError>
    ensures { IfOk result (λ texts. map (λ text. text.items) texts.items ≡ replicate count []) }
{
    let mut texts = Vec::new(alloc);
    for _slot in 0..count {
        match texts.push(Vec::new(alloc)) {
            Ok(()) => {}
            Err(_) => return Err(AllocError),
        }
    }
    Ok(texts)
}

/// Puts a text in the place of a slot's, if that is one of them.
fn put_text(texts: &mut Vec<Vec<u8>>, slot: usize, text: Vec<u8>)
    ensures { map (λ text. text.items) texts.new.items
        ≡ set (map (λ text. text.items) texts.old.items) slot text.items }
{
    if slot < texts.len() {
        texts[slot] = text;
    }
}

/// Puts the text of a row in the place of its slot's.
fn put_row(
    alloc: Global,
    kind: SlotText,
    texts: &mut Vec<Vec<u8>>,
    row: &[u8],
) -> Result<(), AllocError>
    ensures { OnOk result (map (λ text. text.items) texts.new.items
        ≡ spec.with_row kind (map (λ text. text.items) texts.old.items) row.now) }
{
    let (number, told) = sides(row, b' ');
    if let Some(slot) = slot_of(number) {
        put_text(texts, slot, text_by(alloc, kind, told)?);
    }
    Ok(())
}

/// What the table of an object tells of each of so many slots. That takes time in proportion to
/// their number and to the table's length.
pub(crate) fn texts_told(
    alloc: Global,
    kind: SlotText,
    count: usize,
    table: &[u8],
) -> Result<Vec<Vec<u8>>, AllocError>
    ensures { IfOk result (λ texts. map (λ text. text.items) texts.items
        ≡ spec.texts_told kind count table.now) }
{
    let mut texts = no_texts(alloc, count)?;
    let mut rest = table;
    while !rest.is_empty() {
        let (row, others) = sides(rest, b'\n');
        put_row(alloc, kind, &mut texts, row)?;
        rest = others;
    }
    Ok(texts)
}
