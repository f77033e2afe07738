//! What the row of a slot tells.
ghost use Rattle.std.specs.Prelude.{◌≡◌, ◌≤◌, ◌==◌, length, not};
ghost use Rattle.bpf_lines.specs.TableRows as spec;

use crate::place::is_line;

/// Whether a row of a listing's table tells a label.
fn has_label(told: &[u8], name: &[u8]) -> bool
    ensures { result ≡ spec.has_label told.now name.now }
{
    told.split(|byte| *byte == b' ').any(|word| word == name)
}

/// Whether a byte is another one.
fn is_other(b: u8, byte: u8) -> bool
    ensures { result ≡ not (b == byte) }
{
    b != byte
}

/// What stands up to the last such byte, and that.
fn front_of(text: &[u8], byte: u8) -> &[u8]
    ensures value { result.now ≡ spec.front_of byte text.now }
    ensures within { length result.now ≤ length text.now }
{
    let mut end = text.len();
    while end > 0 && is_other(text[end - 1], byte) {
        end -= 1;
    }
    &text[..end]
}

/// What stands behind the last such byte, or all.
pub(crate) fn behind_last(text: &[u8], byte: u8) -> &[u8]
    ensures { result.now ≡ spec.behind_last byte text.now }
{
    &text[front_of(text, byte).len()..]
}

/// The line that a row of an object's table tells, or a hyphen.
pub(crate) fn line_in(told: &[u8]) -> &[u8]
    ensures { result.now ≡ spec.line_in told.now }
{
    let front = front_of(told, b' ').len();
    &told[..front.saturating_sub(1)]
}

/// Whether a text ends with another one behind this byte.
fn ends_behind(byte: u8, text: &[u8], end: &[u8]) -> bool
    ensures { result ≡ spec.ends_behind byte text.now end.now }
{
    if end.len() >= text.len() {
        return false;
    }
    let start = text.len() - end.len();
    text[start - 1] == byte && &text[start..] == end
}

/// Whether a line is named whole, or from a part of its path on.
fn is_at(line: &[u8], what: &[u8]) -> bool
    ensures { result ≡ spec.is_at line.now what.now }
{
    line == what || ends_behind(b'/', line, what)
}

/// Whether a row of an object's table tells a function, or a line of C.
fn tells_object(told: &[u8], what: &[u8]) -> bool
    ensures { result ≡ spec.tells_object told.now what.now }
{
    if is_line(what) {
        is_at(line_in(told), what)
    } else {
        behind_last(told, b' ') == what
    }
}

/// Whether a row of the table of an object, or of a listing, tells a place.
pub(crate) fn tells(of_object: bool, told: &[u8], what: &[u8]) -> bool
    ensures { result ≡ spec.tells of_object told.now what.now }
{
    if of_object {
        tells_object(told, what)
    } else {
        has_label(told, what)
    }
}
