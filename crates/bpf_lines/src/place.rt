//! Texts that name places of a program, or ask about a value.
ghost use Rattle.std.specs.Prelude.{◌≡◌};
ghost use Rattle.bpf_lines.specs.Places as spec;

use counted_io::{digit_value, position};

/// Whether a text names a line of C, as FILE:LINE.
pub(crate) fn is_line(what: &[u8]) -> bool
    ensures { result ≡ spec.is_line what.now }
{
    position(what, b':').is_some()
}

/// Whether a name may begin with a byte.
fn begins_name(byte: u8) -> bool
    ensures { result ≡ spec.begins_name byte }
{
    let value = digit_value(byte);
    byte == b'_' || (value < 36 && !(value < 10))
}

/// Whether a text is a name of a label or of a function.
pub(crate) fn is_name(what: &[u8]) -> bool
    ensures { result ≡ spec.is_name what.now }
{
    match what {
        [] => false,
        [first, ..] => begins_name(*first),
    }
}

/// Whether a text asks about a value.
pub(crate) fn asks_value(what: &[u8]) -> bool
    ensures { result ≡ spec.asks_value what.now }
{
    match what {
        [] => false,
        [first, ..] => *first == b'=',
    }
}

/// Whether a text names a place of a program: a label, a function, or FILE:LINE; or asks about a
/// value, as `=VALUE`. No text of slots does.
pub fn is_place(what: &[u8]) -> bool
    ensures { result ≡ spec.is_place what.now }
{
    is_line(what) || is_name(what) || asks_value(what)
}
