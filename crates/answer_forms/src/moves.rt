//! What is told of a move, in pieces between semicolons.
ghost use Rattle.std.specs.Prelude.{◌≡◌, ◌++◌, ◌&&◌, [], if◌then◌else◌, codes, IfOk, OnOk, flat_map, not, true};
ghost use Rattle.std.specs.Option.{option_and_then, option_map};
ghost use Rattle.answer_forms.specs.Cuts.{pieces};
ghost use Rattle.answer_forms.specs.Moves.{bare, is_part as is_part_of, names, next, part, part_at, parts_from, spaced, with_value};
ghost use Rattle.answer_forms.specs.Objects.{moves as moves_of, piece, piece_or_part, piece_unless_part, told_by, whole};
ghost use Rattle.answer_forms.specs.Shapes.{fields, pattern_of};
ghost use Rattle.answer_forms.specs.Tables.{piece_shapes};

use crate::cut::{Pieces, begins, behind, cut_at};
use crate::member::fields;
use crate::shape::Shape;
use crate::string::{push_byte, push_name, push_quoted};
use crate::table::piece_shapes;
use counted_io::trim_start;
use std::alloc::{AllocError, Global};

/// The members that a move comes to: its pieces, and then the parts among them.
#[tactic(auto, unfolding(crate::specs::Objects::moves))]
pub fn push_moves(alloc: Global, out: &mut Vec<u8>, text: &[u8]) -> Result<(), AllocError>
    ensures { OnOk result (out.new.items ≡ out.old.items ++ moves_of text.now) }
{
    push_pieces(alloc, out, text)?;
    push_name(out, b"parts")?;
    out.extend_from_slice(b"[")?;
    push_parts(out, text)?;
    out.extend_from_slice(b"]")?;
    Ok(())
}

/// Appends what is told besides the parts.
pub fn push_pieces(alloc: Global, out: &mut Vec<u8>, text: &[u8]) -> Result<(), AllocError>
    ensures { OnOk result (out.new.items
        ≡ out.old.items ++ flat_map piece_or_part (pieces 59 text.now)) }
{
    let mut pieces = Pieces::of(text, b';');
    'pieces: while let Some(piece) = pieces.next_piece() {
        push_piece(alloc, out, trim_start(piece))?;
    }
    Ok(())
}

/// Appends what a piece tells, unless it is a part.
#[tactic(auto, unfolding(crate::specs::Objects::piece_unless_part))]
fn push_piece(alloc: Global, out: &mut Vec<u8>, text: &[u8]) -> Result<(), AllocError>
    ensures { OnOk result (out.new.items ≡ out.old.items ++ piece_unless_part text.now) }
{
    if is_part(text) {
        return Ok(());
    }
    push_told(alloc, out, text)?;
    Ok(())
}

/// Appends what a piece tells that isn't a part.
#[tactic(auto, unfolding(crate::specs::Objects::piece))]
fn push_told(alloc: Global, out: &mut Vec<u8>, text: &[u8]) -> Result<(), AllocError>
    ensures { OnOk result (out.new.items ≡ out.old.items ++ piece text.now) }
{
    match behind(b"from ", text) {
        Some(read) => {
            push_name(out, b"from")?;
            push_names(out, true, read)?;
            Ok(())
        }
        None => {
            let told = told(alloc, text)?;
            out.extend_from_slice(told.as_slice())?;
            Ok(())
        }
    }
}

/// What a piece tells that says nothing of what was read.
fn told(alloc: Global, text: &[u8]) -> Result<Vec<u8>, AllocError>
    ensures { IfOk result (λ told. told.items ≡ told_by piece_shapes text.now) }
{
    for shape in piece_shapes() {
        if let Some(told) = told_whole(alloc, shape, text)? {
            return Ok(told);
        }
    }
    let mut told = Vec::new(alloc);
    push_name(&mut told, b"way")?;
    push_quoted(&mut told, text)?;
    Ok(told)
}

/// The members of a piece of a shape, behind whose fields nothing is left.
fn told_whole(alloc: Global, shape: &Shape, text: &[u8]) -> Result<Option<Vec<u8>>, AllocError>
    ensures { IfOk result (λ told. option_map (λ v. v.items) told
        ≡ option_and_then whole (fields (pattern_of shape.now) text.now)) }
{
    match fields(alloc, shape, text)? {
        Some((told, rest)) => {
            if rest.is_empty() {
                Ok(Some(told))
            } else {
                Ok(None)
            }
        }
        None => Ok(None),
    }
}

/// Appends the parts, with commas between.
fn push_parts(out: &mut Vec<u8>, text: &[u8]) -> Result<(), AllocError>
    ensures { OnOk result (out.new.items ≡ out.old.items ++ parts_from true (pieces 59 text.now)) }
{
    let mut pieces = Pieces::of(text, b';');
    let mut first = true;
    'pieces: while let Some(piece) = pieces.next_piece() {
        let text = trim_start(piece);
        push_part(out, first, text)?;
        first = is_first_still(first, text);
    }
    Ok(())
}

/// Whether the next part is the first one.
fn is_first_still(first: bool, text: &[u8]) -> bool
    ensures { result ≡ (first && not (is_part_of text.now)) }
{
    first && !is_part(text)
}

/// Appends a part, behind a comma where it isn't the first one; nothing for another piece.
#[tactic(auto, unfolding(crate::specs::Moves::part_at))]
fn push_part(out: &mut Vec<u8>, first: bool, text: &[u8]) -> Result<(), AllocError>
    ensures { OnOk result (out.new.items ≡ out.old.items ++ part_at first text.now) }
{
    if !is_part(text) {
        return Ok(());
    }
    push_comma(out, first)?;
    push_shown(out, text)?;
    Ok(())
}

/// Appends a comma, but before the first part.
fn push_comma(out: &mut Vec<u8>, first: bool) -> Result<(), AllocError>
    ensures { OnOk result (out.new.items ≡ out.old.items ++ (if first then [] else codes ",")) }
{
    if !first {
        out.extend_from_slice(b",")?;
    }
    Ok(())
}

/// Appends a part, with its value where one is told.
#[tactic(auto, unfolding(crate::specs::Moves::part))]
fn push_shown(out: &mut Vec<u8>, text: &[u8]) -> Result<(), AllocError>
    ensures { OnOk result (out.new.items ≡ out.old.items ++ part text.now) }
{
    match cut_at(b" = ", text) {
        Some((name, value)) => {
            push_value(out, name, value)?;
            Ok(())
        }
        None => {
            push_bare(out, text)?;
            Ok(())
        }
    }
}

/// Appends a part with its value.
fn push_value(out: &mut Vec<u8>, name: &[u8], value: &[u8]) -> Result<(), AllocError>
    ensures { OnOk result (out.new.items ≡ out.old.items ++ with_value (name.now, value.now)) }
{
    out.extend_from_slice(b"{\"part\":")?;
    push_quoted(out, name)?;
    out.extend_from_slice(b",\"value\":")?;
    push_quoted(out, value)?;
    out.extend_from_slice(b"}")?;
    Ok(())
}

/// Appends a part of which no value is told.
fn push_bare(out: &mut Vec<u8>, name: &[u8]) -> Result<(), AllocError>
    ensures { OnOk result (out.new.items ≡ out.old.items ++ bare name.now) }
{
    out.extend_from_slice(b"{\"part\":")?;
    push_quoted(out, name)?;
    out.extend_from_slice(b"}")?;
    Ok(())
}

/// Whether a piece is a part: a register, bytes, or a word of the helper trace.
#[tactic(auto, unfolding(crate::specs::Moves::is_part))]
fn is_part(text: &[u8]) -> bool
    ensures { result ≡ is_part_of text.now }
{
    begins(b"r", text) || begins(b"0x", text) || begins(b"word ", text)
}

/// Appends names with blanks between, as a list: of parts, in which blanks may stand, or others.
#[tactic(auto, unfolding(crate::specs::Moves::names))]
pub fn push_names(out: &mut Vec<u8>, of_parts: bool, text: &[u8]) -> Result<(), AllocError>
    ensures { OnOk result (out.new.items ≡ out.old.items ++ names of_parts text.now) }
{
    if text.is_empty() {
        out.extend_from_slice(b"[]")?;
        return Ok(());
    }
    out.extend_from_slice(b"[\"")?;
    push_spaced(out, of_parts, text)?;
    out.extend_from_slice(b"\"]")?;
    Ok(())
}

fn push_spaced(out: &mut Vec<u8>, of_parts: bool, text: &[u8]) -> Result<(), AllocError>
    ensures { OnOk result (out.new.items ≡ out.old.items ++ spaced of_parts text.now) }
{
    for at in 0..text.len() {
        push_next(out, of_parts, text[at], &text[at + 1..])?;
    }
    Ok(())
}

/// Appends a byte, or what stands between two names, where it is a blank before one.
#[tactic(auto, unfolding(crate::specs::Moves::next))]
fn push_next(out: &mut Vec<u8>, of_parts: bool, byte: u8, rest: &[u8]) -> Result<(), AllocError>
    ensures { OnOk result (out.new.items ≡ out.old.items ++ next of_parts byte rest.now) }
{
    if byte == b' ' && (!of_parts || is_part(rest)) {
        out.extend_from_slice(b"\",\"")?;
        return Ok(());
    }
    push_byte(out, byte)?;
    Ok(())
}
