//! Lines as objects.
ghost use Rattle.std.specs.Prelude.{◌≡◌, ◌++◌, IfOk, map, OnOk};
ghost use Rattle.std.specs.Option.{option_map};
ghost use Rattle.answer_forms.specs.Objects.{ended_object, json_of, line_object, object, object_by, object_of, rest_text, side_object};
ghost use Rattle.answer_forms.specs.Shapes.{pattern_of};

use crate::answer::Answer;
use crate::cut::{Pieces, behind};
use crate::member::fields;
use crate::moves::{push_moves, push_names, push_pieces};
use crate::shape::{Rest, Shape};
use crate::string::{push_name, push_quoted};
use crate::table::shapes_of;
use std::alloc::{AllocError, Global};

/// An answer, as objects of JSON: one a line.
#[tactic(auto, unfolding(crate::specs::Objects::json_of))]
pub fn json_of(alloc: Global, answer: Answer, text: &[u8]) -> Result<Vec<u8>, AllocError>
    ensures { IfOk result (λ json. json.items ≡ json_of answer text.now) }
{
    let shapes = shapes_of(answer);
    let mut json = Vec::new(alloc);
    let mut lines = Pieces::of(text, b'\n');
    'lines: while let Some(line) = lines.next_piece() {
        push_line(alloc, &mut json, shapes, line)?;
    }
    Ok(json)
}

/// Appends the object of a line, and a line feed.
fn push_line(
    alloc: Global,
    json: &mut Vec<u8>,
    shapes: &[Shape],
    line: &[u8],
) -> Result<(), AllocError>
    ensures { OnOk result (json.new.items
        ≡ json.old.items ++ ended_object (map pattern_of shapes.now) line.now) }
{
    let object = line_object(alloc, shapes, line)?;
    json.extend_from_slice(object.as_slice())?;
    json.extend_from_slice(b"\n")?;
    Ok(())
}

/// The object of a line, or of one of two runs, which begins with its side.
#[tactic(auto, unfolding(crate::specs::Objects::line_object))]
fn line_object(alloc: Global, shapes: &[Shape], line: &[u8]) -> Result<Vec<u8>, AllocError>
    ensures { IfOk result (λ object. object.items
        ≡ line_object (map pattern_of shapes.now) line.now) }
{
    if let Some(rest) = behind(b"< ", line) {
        return side_object(alloc, b"<", shapes, rest);
    }
    if let Some(rest) = behind(b"> ", line) {
        return side_object(alloc, b">", shapes, rest);
    }
    object_of(alloc, &[], shapes, line)
}

/// The object of a line of one of two runs.
fn side_object(
    alloc: Global,
    name: &[u8],
    shapes: &[Shape],
    line: &[u8],
) -> Result<Vec<u8>, AllocError>
    ensures { IfOk result (λ object. object.items
        ≡ side_object name.now (map pattern_of shapes.now) line.now) }
{
    let mut side = Vec::new(alloc);
    push_name(&mut side, b"side")?;
    push_quoted(&mut side, name)?;
    object_of(alloc, side.as_slice(), shapes, line)
}

/// The object of a line by the first shape that it has, and else the text that it is.
fn object_of(
    alloc: Global,
    side: &[u8],
    shapes: &[Shape],
    line: &[u8],
) -> Result<Vec<u8>, AllocError>
    ensures { IfOk result (λ object. object.items
        ≡ object_of side.now (map pattern_of shapes.now) line.now) }
{
    for shape in shapes {
        if let Some(object) = object_by(alloc, side, shape, line)? {
            return Ok(object);
        }
    }
    let mut text = Vec::new(alloc);
    text.extend_from_slice(side)?;
    push_name(&mut text, b"text")?;
    push_quoted(&mut text, line)?;
    object(alloc, b"text", text.as_slice())
}

/// The object of a line of a shape; None where it isn't one.
#[tactic(auto, unfolding(crate::specs::Objects::object_by))]
fn object_by(
    alloc: Global,
    side: &[u8],
    shape: &Shape,
    line: &[u8],
) -> Result<Option<Vec<u8>>, AllocError>
    ensures { IfOk result (λ found. option_map (λ object. object.items) found
        ≡ object_by side.now (pattern_of shape.now) line.now) }
{
    let Some((told, left)) = fields(alloc, shape, line)? else {
        return Ok(None);
    };
    let Some(rest) = rest_text(alloc, shape.rest, left)? else {
        return Ok(None);
    };
    let mut members = Vec::new(alloc);
    members.extend_from_slice(side)?;
    members.extend_from_slice(told.as_slice())?;
    members.extend_from_slice(rest.as_slice())?;
    Ok(Some(object(alloc, shape.kind, members.as_slice())?))
}

/// The members that stand behind the fields of a line; None where nothing may, and something does.
fn rest_text(alloc: Global, rest: Rest, text: &[u8]) -> Result<Option<Vec<u8>>, AllocError>
    ensures { IfOk result (λ told. option_map (λ v. v.items) told ≡ rest_text rest text.now) }
{
    let mut told = Vec::new(alloc);
    match rest {
        Rest::Nothing => {
            if !text.is_empty() {
                return Ok(None);
            }
        }
        Rest::Moves => push_moves(alloc, &mut told, text)?,
        Rest::Places => push_pieces(alloc, &mut told, text)?,
        Rest::Labels => {
            push_name(&mut told, b"labels")?;
            push_names(&mut told, false, text)?;
        }
        Rest::Registers => {
            push_name(&mut told, b"registers")?;
            push_names(&mut told, false, text)?;
        }
    }
    Ok(Some(told))
}

/// An object: its kind, and its members.
#[tactic(auto, unfolding(crate::specs::Objects::object))]
fn object(alloc: Global, kind: &[u8], members: &[u8]) -> Result<Vec<u8>, AllocError>
    ensures { IfOk result (λ text. text.items ≡ object kind.now members.now) }
{
    let mut text = Vec::new(alloc);
    text.extend_from_slice(b"{\"kind\":")?;
    push_quoted(&mut text, kind)?;
    text.extend_from_slice(members)?;
    text.extend_from_slice(b"}")?;
    Ok(text)
}
