//! The members that lines come to by their fields.
ghost use Rattle.std.specs.Prelude.{◌≡◌, ◌++◌, IfOk, OnOk, map};
ghost use Rattle.std.specs.Option.{option_map};
ghost use Rattle.answer_forms.specs.Shapes.{fields, is_value, member_of, members, pattern_of, reach, spot_of, value_in};

use crate::cut::{behind, cut_at};
use crate::shape::{Field, Shape};
use crate::string::{is_count, push_name, push_quoted};
use std::alloc::{AllocError, Global};

/// The text of members, and what is left of the line.
pub type Members<'a> = (Vec<u8>, &'a [u8]);

/// The members of a line of a shape; None where it isn't one.
#[tactic(auto, unfolding(crate::specs::Shapes::fields))]
pub fn fields<'a>(
    alloc: Global,
    shape: &Shape,
    line: &'a [u8],
) -> Result<Option<Members<'a>>, AllocError>
    ensures { IfOk result (λ found. option_map (λ q. (q.0.items, q.1.now)) found
        ≡ fields (pattern_of shape.now) line.now) }
{
    match behind(shape.begin, line) {
        Some(text) => members(alloc, shape.fields, text),
        None => Ok(None),
    }
}

/// The members that the fields come to, and what is left behind the last one.
fn members<'a>(
    alloc: Global,
    fields: &[Field],
    text: &'a [u8],
) -> Result<Option<Members<'a>>, AllocError>
    ensures { IfOk result (λ found. option_map (λ q. (q.0.items, q.1.now)) found
        ≡ members (map spot_of fields.now) text.now) }
{
    let mut out = Vec::new(alloc);
    let mut rest = text;
    for field in fields {
        let Some((value, next)) = value_in(field, rest) else {
            return Ok(None);
        };
        push_member(&mut out, field, value)?;
        rest = next;
    }
    Ok(Some((out, rest)))
}

/// The value of a field, and what is left behind its words; None where they don't stand there, or
/// where a count is none.
#[tactic(auto, unfolding(crate::specs::Shapes::value_in))]
fn value_in<'a>(field: &Field, text: &'a [u8]) -> Option<(&'a [u8], &'a [u8])>
    ensures { option_map (λ p. (p.0.now, p.1.now)) result ≡ value_in (spot_of field.now) text.now }
{
    match reach(until_of(field), text) {
        Some((value, rest)) => {
            if is_value(field, value) {
                Some((value, rest))
            } else {
                None
            }
        }
        None => None,
    }
}

/// The words behind a field.
fn until_of(field: &Field) -> &'static [u8]
    ensures { result.now ≡ (spot_of field.now).until }
{
    match *field {
        Field::Count(_, until) => until,
        Field::Text(_, until) => until,
    }
}

/// Whether a field may have a value.
fn is_value(field: &Field, value: &[u8]) -> bool
    ensures { result ≡ is_value (spot_of field.now).counts value.now }
{
    match *field {
        Field::Count(_, _) => is_count(value),
        Field::Text(_, _) => true,
    }
}

/// What stands before words, and what behind them; all, where there are no words.
fn reach<'a>(until: &[u8], text: &'a [u8]) -> Option<(&'a [u8], &'a [u8])>
    ensures { option_map (λ p. (p.0.now, p.1.now)) result ≡ reach until.now text.now }
{
    if until.is_empty() {
        return Some((text, &[]));
    }
    cut_at(until, text)
}

/// Appends the member that a field with a value is.
#[tactic(auto, unfolding(crate::specs::Shapes::member_of))]
fn push_member(out: &mut Vec<u8>, field: &Field, value: &[u8]) -> Result<(), AllocError>
    ensures { OnOk result (out.new.items ≡ out.old.items ++ member_of (spot_of field.now) value.now) }
{
    match *field {
        Field::Count(name, _) => {
            push_name(out, name)?;
            out.extend_from_slice(value)?;
            Ok(())
        }
        Field::Text(name, _) => {
            push_name(out, name)?;
            push_quoted(out, value)?;
            Ok(())
        }
    }
}
