//! What stands in a section: a text, bytes, or a number.
ghost use Rattle.std.specs.Prelude.{◌≡◌, ◌≤◌, ◌==◌, ◌&&◌, ◌||◌, IfOk, IsTrue, length, not, position};
ghost use Rattle.std.specs.Char.{is_digit};
ghost use Rattle.std.specs.List.{list_all, list_any, position_or_len};
ghost use Rattle.std.specs.Option.{option_map};
ghost use Rattle.bpf_suite.specs.Bodies.{are_remarks, bytes_of, fits, fits_byte, fits_digit, is_line, is_pattern, is_phrase, is_remark, is_space, is_title, limit_of, number_of, solid, trim_end, trimmed};

use bpfdb_limits::is_limit;
use bpfdb_script::steers;
use bstr::ByteSlice;
use counted_io::{digit_value, is_blank, natural, trim_start};
use hex::{FromHexError, decode};
use std::alloc::{AllocError, Global};

/// Whether a byte is a blank, a line feed or a form feed.
fn is_space(byte: u8) -> bool
    ensures { result ≡ is_space byte }
{
    is_blank(byte) || (byte == b'\n' || byte == b'\x0c')
}

/// Where the first byte stands that is no space.
fn start_position(text: &[u8]) -> Option<usize>
    ensures { result ≡ position (λ b. not (is_space b)) text.now }
{
    text.iter().position(|byte| !is_space(*byte))
}

/// Where the first byte stands that is no space, or the length.
#[tactic(auto, using(counted_io::proofs::Places::unwrap_or_position))]
fn find_start(text: &[u8]) -> usize
    ensures value { result ≡ position_or_len (λ b. not (is_space b)) text.now }
    ensures within { result ≤ length text.now }
{
    start_position(text).unwrap_or(text.len())
}

/// The text without the spaces at its end.
fn trim_end(text: &[u8]) -> &[u8]
    ensures { result.now ≡ trim_end text.now }
{
    let mut end = text.len();
    while end > 0 && is_space(text[end - 1]) {
        end -= 1;
    }
    &text[..end]
}

/// The text without the spaces on both sides.
pub fn trimmed(text: &[u8]) -> &[u8]
    ensures { result.now ≡ trimmed text.now }
{
    let start = find_start(text);
    trim_end(&text[start..])
}

/// Whether a text is a line that can be printed.
pub fn is_line(text: &[u8]) -> bool
    ensures { result ≡ is_line text.now }
{
    let mut chars = text.chars();
    'chars: while let Some(char) = chars.next() {
        if steers(char) {
            return false;
        }
    }
    true
}

/// Whether a text is such a line, and isn't empty.
pub fn is_phrase(text: &[u8]) -> bool
    ensures { result ≡ is_phrase text.now }
{
    !text.is_empty() && is_line(text)
}

/// Whether a text is a name.
pub fn is_title(text: &[u8]) -> bool
    ensures { result ≡ is_title text.now }
{
    is_phrase(text) && !has_number_sign(text)
}

fn has_number_sign(text: &[u8]) -> bool
    ensures { result ≡ list_any (λ b. b == 35) text.now }
{
    text.iter().any(|byte| *byte == b'#')
}

/// Whether a line without the blanks in front says nothing.
fn is_remark(line: &[u8]) -> bool
    ensures { result ≡ is_remark line.now }
{
    match line {
        [] => true,
        [first, ..] => *first == b'#',
    }
}

/// Whether the lines of a text say nothing.
pub fn are_remarks(text: &[u8]) -> bool
    ensures { result ≡ are_remarks text.now }
{
    text.split(|byte| *byte == b'\n')
        .all(|line| is_remark(trim_start(line)))
}

/// The bytes that a body is, None where it is none.
pub fn bytes_of(alloc: Global, body: &[u8]) -> Result<Option<Vec<u8>>, AllocError>
    ensures { IfOk result (λ bytes. option_map (λ v. v.items) bytes ≡ bytes_of body.now) }
{
    let digits = solid(alloc, body)?;
    match decode(alloc, digits.as_slice()) {
        Ok(bytes) => Ok(Some(bytes)),
        Err(FromHexError::OutOfMemory) => Err(AllocError),
        Err(_) => Ok(None),
    }
}

/// A body without its spaces.
pub fn solid(alloc: Global, body: &[u8]) -> Result<Vec<u8>, AllocError>
    ensures { IfOk result (λ digits. digits.items ≡ solid body.now) }
{
    body.iter()
        .copied()
        .filter(|byte| !is_space(*byte))
        .collect(alloc)
}

/// Whether digits are a pattern of bytes.
pub fn is_pattern(digits: &[u8]) -> bool
    ensures { result ≡ is_pattern digits.now }
{
    digits.len() % 2 == 0 && are_pattern_digits(digits)
}

fn are_pattern_digits(digits: &[u8]) -> bool
    ensures { result ≡ list_all (λ d. d == 46 || is_digit d 16) digits.now }
{
    digits.iter().all(|digit| is_pattern_digit(*digit))
}

fn is_pattern_digit(digit: u8) -> bool
    ensures { result ≡ (digit == 46 || is_digit digit 16) }
{
    digit == b'.' || digit_value(digit) < 16
}

/// Whether a digit of a pattern fits the value of four bits.
fn fits_digit(digit: u8, value: u8) -> bool
    ensures { result ≡ fits_digit digit value }
{
    digit == b'.' || digit_value(digit) == u32::from(value)
}

/// Whether two digits fit a byte.
pub fn fits_byte(digits: &[u8], byte: u8) -> bool
    ensures value { result ≡ fits_byte digits.now byte }
    ensures long { IsTrue result → 2 ≤ length digits.now }
{
    match digits {
        [high, low, ..] => fits_digit(*high, byte / 16) && fits_digit(*low, byte % 16),
        _ => false,
    }
}

/// Whether all bytes fit a pattern.
pub fn fits(digits: &[u8], bytes: &[u8]) -> bool
    ensures { result ≡ fits digits.now bytes.now }
{
    let mut rest = digits;
    for byte in bytes {
        if fits_byte(rest, *byte) {
            rest = &rest[2..];
        } else {
            return false;
        }
    }
    rest.is_empty()
}

/// Whether bytes fit the pattern that a body is. Memory is taken only where spaces stand in it.
pub fn fits_body(alloc: Global, body: &[u8], bytes: &[u8]) -> Result<bool, AllocError>
    ensures { IfOk result (λ is. is ≡ fits (solid body.now) bytes.now) }
{
    if is_solid(body) {
        return Ok(fits(body, bytes));
    }
    let digits = solid(alloc, body)?;
    Ok(fits(digits.as_slice(), bytes))
}

/// Whether no spaces stand in a body.
fn is_solid(body: &[u8]) -> bool
    ensures { result ≡ list_all (λ b. not (is_space b)) body.now }
{
    body.iter().all(|byte| !is_space(*byte))
}

/// The number that a body is, None where it is none below 2^64.
pub fn number_of(body: &[u8]) -> Option<u64>
    ensures { result ≡ number_of body.now }
{
    natural(trimmed(body))?.to_u64()
}

/// The limit of steps that a body is.
pub fn limit_of(body: &[u8]) -> Option<u64>
    ensures { result ≡ limit_of body.now }
{
    let limit = number_of(body)?;
    if is_limit(limit) { Some(limit) } else { None }
}
