//! Strings, numbers and members of JSON.
ghost use Rattle.std.specs.Prelude.{◌≡◌, ◌++◌, flat_map, OnOk};
ghost use Rattle.std.specs.List.{list_all};
ghost use Rattle.std.specs.Char.{is_digit};
ghost use Rattle.answer_forms.specs.Json.{are_few, escaped, is_count as is_count_of, is_plain, lead, quoted};

use crate::cut::begins;
use counted_io::{digit_value, hex_digit};
use std::alloc::AllocError;

/// A count has fewer digits: each reader of JSON has a number of so many exactly.
const DIGITS_LIMIT: usize = 16;

/// Whether a text is a count: digits that are a number of JSON.
#[tactic(auto, unfolding(crate::specs::Json::is_count))]
pub fn is_count(text: &[u8]) -> bool
    ensures { result ≡ is_count_of text.now }
{
    are_few(text) && (is_plain(text) && are_digits(text))
}

/// Whether a text isn't empty, and has no more digits than a count may have.
#[tactic(auto, unfolding(crate::specs::Json::are_few))]
fn are_few(text: &[u8]) -> bool
    ensures { result ≡ are_few text.now }
{
    text.len() > 0 && text.len() < DIGITS_LIMIT
}

/// Whether a text has no zeros in front.
#[tactic(auto, unfolding(crate::specs::Json::is_plain))]
fn is_plain(text: &[u8]) -> bool
    ensures { result ≡ is_plain text.now }
{
    !begins(b"0", text) || text.len() == 1
}

/// Whether a text is digits alone.
fn are_digits(text: &[u8]) -> bool
    ensures { result ≡ list_all (λ d. is_digit d 10) text.now }
{
    text.iter().all(|byte| digit_value(*byte) < 10)
}

/// Appends a member's name, and what stands before its value.
#[tactic(auto, unfolding(crate::specs::Json::lead))]
pub fn push_name(out: &mut Vec<u8>, name: &[u8]) -> Result<(), AllocError>
    ensures { OnOk result (out.new.items ≡ out.old.items ++ lead name.now) }
{
    out.extend_from_slice(b",")?;
    push_quoted(out, name)?;
    out.extend_from_slice(b":")?;
    Ok(())
}

/// Appends a text as a string.
pub fn push_quoted(out: &mut Vec<u8>, text: &[u8]) -> Result<(), AllocError>
    ensures { OnOk result (out.new.items ≡ out.old.items ++ quoted text.now) }
{
    out.extend_from_slice(b"\"")?;
    push_escaped(out, text)?;
    out.extend_from_slice(b"\"")?;
    Ok(())
}

/// Appends a text as it stands in a string.
pub fn push_escaped(out: &mut Vec<u8>, text: &[u8]) -> Result<(), AllocError>
    ensures { OnOk result (out.new.items ≡ out.old.items ++ flat_map escaped text.now) }
{
    for byte in text {
        push_byte(out, *byte)?;
    }
    Ok(())
}

/// Appends a byte as it stands in a string.
#[tactic(auto, unfolding(crate::specs::Json::escaped))]
pub fn push_byte(out: &mut Vec<u8>, byte: u8) -> Result<(), AllocError>
    ensures { OnOk result (out.new.items ≡ out.old.items ++ escaped byte) }
{
    if byte == b'"' || byte == b'\\' {
        out.extend_from_slice(&[b'\\', byte])?;
        return Ok(());
    }
    if byte < 32 {
        let high = hex_digit(byte / 16);
        let low = hex_digit(byte % 16);
        out.extend_from_slice(&[b'\\', b'u', b'0', b'0', high, low])?;
        return Ok(());
    }
    out.extend_from_slice(&[byte])?;
    Ok(())
}
