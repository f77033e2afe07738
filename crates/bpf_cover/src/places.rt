//! Where the slots of a program stand in its source.
ghost use Rattle.std.specs.Prelude.{◌≡◌, ◌==◌, ◌||◌, IfOk, codes, map};
ghost use Rattle.std.specs.Option.{option_map, option_and_then};
ghost use Rattle.std.specs.Str.{bytes_eq};
ghost use Rattle.bpf_cover.specs.Places.{AreInOrder, is_fine, is_place, is_row, is_table, last_cut, place_in, place_word, spot_of, spots_of};
ghost use Rattle.bpf_cover.specs.Spots.{plain};
ghost use Rattle.counted_io.specs.Cuts.{trim};

use crate::tracefile::number_of;
use counted_io::{sides, trim};
use std::alloc::{AllocError, Global};
use std::marker::Model;

/// A name in a table. Contracts see its bytes.
#[derive(Drop)]
pub struct Name<'a> {
    pub bytes: &'a [u8],
}

impl<'a> Model for Name<'a> {
    ghost use Rattle.std.specs.Prelude.{ℕ, List};

    ghost Value = { List ℕ };

    ghost view = { λ n. n.bytes.now };
}

/// Where a slot of a program stands in its source.
#[derive(Drop)]
pub struct Spot<'a> {
    pub file: Name<'a>,
    pub line: u64,
    pub slot: u64,
}

/// What stands before the last such byte, and what behind it. None where there is none.
fn last_cut(text: &[u8], byte: u8) -> Option<(&[u8], &[u8])>
    ensures { option_map (λ sides. (sides.0.now, sides.1.now)) result ≡ last_cut byte text.now }
{
    let mut end = text.len();
    while end > 0 {
        if text[end - 1] == byte {
            return Some((&text[..end - 1], &text[end..]));
        }
        end -= 1;
    }
    None
}

/// The file and the line of a place.
fn place_in(word: &[u8]) -> Option<(&[u8], u64)>
    ensures { option_map (λ place. (place.0.now, place.1)) result ≡ place_in word.now }
{
    match last_cut(word, b':') {
        Some((file, line)) => {
            if file.is_empty() {
                return None;
            }
            match number_of(line) {
                Some(line) => Some((file, line)),
                None => None,
            }
        }
        None => None,
    }
}

/// The word of a row between its slot and its function.
fn place_word(row: &[u8]) -> Option<&[u8]>
    ensures { option_map (λ word. word.now) result ≡ place_word row.now }
{
    let (_, more) = sides(row, b' ');
    match last_cut(more, b' ') {
        Some((word, _)) => Some(word),
        None => None,
    }
}

/// The place of a row, where it is known.
fn row_place(row: &[u8]) -> Option<(&[u8], u64)>
    ensures { option_map (λ place. (place.0.now, place.1)) result
        ≡ option_and_then place_in (place_word row.now) }
{
    match place_word(row) {
        Some(word) => place_in(word),
        None => None,
    }
}

/// The slot of a row with its place, where that is known.
fn spot_of(row: &[u8]) -> Option<Spot<'_>>
    ensures { result ≡ spot_of row.now }
{
    let (word, _) = sides(row, b' ');
    match (number_of(word), row_place(row)) {
        (Some(slot), Some((file, line))) => Some(Spot {
            file: Name { bytes: file },
            line,
            slot,
        }),
        _ => None,
    }
}

/// The same of a row with blanks around it.
fn trimmed_spot(row: &[u8]) -> Option<Spot<'_>>
    ensures { result ≡ spot_of (trim row.now) }
{
    spot_of(trim(row))
}

/// The places that a table tells.
pub fn spots_of(alloc: Global, table: &[u8]) -> Result<Vec<Spot<'_>>, AllocError>
    ensures { IfOk result (λ spots. spots.items ≡ spots_of table.now) }
{
    table
        .split(|byte| *byte == b'\n' || *byte == b'\x0c')
        .filter_map(|row| trimmed_spot(row))
        .collect(alloc)
}

/// Whether a word is a hyphen.
fn is_hyphen(word: &[u8]) -> bool
    ensures value { result ≡ bytes_eq word.now (codes "-") }
{
    word == b"-".as_slice()
}

/// Whether a word is a place, or says that none is known.
fn is_place(word: &[u8]) -> bool
    ensures { result ≡ is_place word.now }
{
    is_hyphen(word) || place_in(word).is_some()
}

/// Whether a row tells of a slot.
fn is_row(row: &[u8]) -> bool
    ensures { result ≡ is_row row.now }
{
    let (word, _) = sides(row, b' ');
    if number_of(word).is_none() {
        return false;
    }
    match place_word(row) {
        Some(word) => is_place(word),
        None => false,
    }
}

/// Whether a row, with blanks around it, tells of a slot, or is blank.
fn is_fine(row: &[u8]) -> bool
    ensures { result ≡ is_fine (trim row.now) }
{
    let row = trim(row);
    row.is_empty() || is_row(row)
}

/// Whether a text is a table of slots and their places.
pub fn is_table(table: &[u8]) -> bool
    ensures { result ≡ is_table table.now }
{
    table
        .split(|byte| *byte == b'\n' || *byte == b'\x0c')
        .all(|row| is_fine(row))
}

/// Places as they are compared: by file, by line, and by slot.
fn keys_of<'a>(alloc: Global, spots: &[Spot<'a>]) -> Result<Vec<(&'a [u8], u64, u64)>, AllocError>
    ensures { IfOk result (λ keys. map plain keys.items ≡ spots.now) }
{
    let mut keys = Vec::with_capacity(alloc, spots.len())?;
    for spot in spots {
        match keys.push((spot.file.bytes, spot.line, spot.slot)) {
            Ok(()) => {}
            Err(_) => return Err(AllocError),
        }
    }
    Ok(keys)
}

/// The places of keys.
fn plain<'a>(alloc: Global, keys: &[(&'a [u8], u64, u64)]) -> Result<Vec<Spot<'a>>, AllocError>
    ensures { IfOk result (λ spots. spots.items ≡ map plain keys.now) }
{
    let mut spots = Vec::with_capacity(alloc, keys.len())?;
    for key in keys {
        let spot = Spot {
            file: Name { bytes: key.0 },
            line: key.1,
            slot: key.2,
        };
        match spots.push(spot) {
            Ok(()) => {}
            Err(_) => return Err(AllocError),
        }
    }
    Ok(spots)
}

/// Places in order: by file, by line, and by slot.
pub fn in_order<'a>(alloc: Global, spots: &[Spot<'a>]) -> Result<Vec<Spot<'a>>, AllocError>
    ensures { IfOk result (λ ordered. AreInOrder spots.now ordered.items) }
{
    let mut keys = keys_of(alloc, spots)?;
    keys.sort_unstable();
    plain(alloc, keys.as_slice())
}
