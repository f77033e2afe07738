//! What a text says of a program in turn.
ghost use Rattle.std.specs.Prelude.{◌≡◌, ◌≤◌, length, position};
ghost use Rattle.std.specs.List.{position_or_len};
ghost use Rattle.input_texts.specs.Turns.{has_place, is_at, name_in, offset_below, offset_in};
ghost use Rattle.counted_io.specs.Numerals.{natural};

use counted_io::natural;

/// Where the first `@` stands.
fn at_in(text: &[u8]) -> Option<usize>
    ensures { result ≡ position is_at text.now }
{
    text.iter().position(|byte| *byte == b'@')
}

/// Whether a text says a place of the context.
pub fn has_place(text: &[u8]) -> bool
    ensures { result ≡ has_place text.now }
{
    at_in(text).is_some()
}

/// Where the first `@` stands, or the length.
#[tactic(auto, using(counted_io::proofs::Places::unwrap_or_position))]
fn end_of(text: &[u8]) -> usize
    ensures value { result ≡ position_or_len is_at text.now }
    ensures within { result ≤ length text.now }
{
    at_in(text).unwrap_or(text.len())
}

/// The name that a text has.
pub fn name_in(text: &[u8]) -> &[u8]
    ensures { result.now ≡ name_in text.now }
{
    &text[..end_of(text)]
}

/// The place in the context that a number says.
fn offset_of(digits: &[u8]) -> Option<u16>
    ensures { result ≡ offset_below (natural digits.now) }
{
    let Some(numeral) = natural(digits) else {
        return None;
    };
    match numeral.to_u64() {
        Some(n) => { if n < 65536 { Some(n as u16) } else { None } }
        None => None,
    }
}

/// The place in the context at which a program in turn finds its own one, which a text says behind
/// an `@`: 0 without one. None where it is no number, or above 65,535.
pub fn offset_in(text: &[u8]) -> Option<u16>
    ensures { result ≡ offset_in text.now }
{
    match at_in(text) {
        Some(at) => offset_of(&text[at + 1..]),
        None => Some(0),
    }
}
