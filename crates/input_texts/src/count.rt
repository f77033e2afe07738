//! What a text says of how many entries a map has.
ghost use Rattle.std.specs.Prelude.{◌≡◌, ◌≤◌, get_or, length, map};
ghost use Rattle.std.specs.List.{list_all, position_or_len};
ghost use Rattle.std.specs.Prelude.{position};
ghost use Rattle.input_texts.specs.Counts.{are_apart, are_counts, count_in, count_of, has_count, is_equals, is_named_in, map_in};
ghost use Rattle.counted_io.specs.Numerals.{natural};

use counted_io::natural;

/// Where the first `=` stands.
fn equals_in(text: &[u8]) -> Option<usize>
    ensures { result ≡ position is_equals text.now }
{
    text.iter().position(|byte| *byte == b'=')
}

/// Where the first `=` stands, or the length.
#[tactic(auto, using(counted_io::proofs::Places::unwrap_or_position))]
fn end_of(text: &[u8]) -> usize
    ensures value { result ≡ position_or_len is_equals text.now }
    ensures within { result ≤ length text.now }
{
    equals_in(text).unwrap_or(text.len())
}

/// The name of the map.
pub fn map_in(text: &[u8]) -> &[u8]
    ensures { result.now ≡ map_in text.now }
{
    &text[..end_of(text)]
}

/// The number that digits say, if a map can have so many entries.
fn count_of(digits: &[u8]) -> Option<u32>
    ensures { result ≡ count_of (natural digits.now) }
{
    let Some(numeral) = natural(digits) else {
        return None;
    };
    match numeral.to_u64() {
        Some(n) => {
            if 0 < n && n < 4294967296 {
                Some(n as u32)
            } else {
                None
            }
        }
        None => None,
    }
}

/// How many entries the map has. None where the text has no `=`, or behind it no number from 1 to
/// 4,294,967,295.
pub fn count_in(text: &[u8]) -> Option<u32>
    ensures { result ≡ count_in text.now }
{
    match equals_in(text) {
        Some(at) => count_of(&text[at + 1..]),
        None => None,
    }
}

/// Whether one of the first texts has a name.
fn is_named_in(texts: &[&str], count: usize, name: &[u8]) -> bool
    requires { count ≤ length texts.now }
    ensures { result ≡ is_named_in (map (λ text. text.now) texts.now) count name.now }
{
    let mut is_named = false;
    for k in 0..count {
        is_named = map_in(texts[k].as_bytes()) == name || is_named;
    }
    is_named
}

/// Whether each of some texts has a name of its own.
fn are_apart(texts: &[&str]) -> bool
    ensures { result ≡ are_apart (map (λ text. text.now) texts.now) (length texts.now) }
{
    let mut are_apart = true;
    for k in 0..texts.len() {
        are_apart = !is_named_in(texts, k, map_in(texts[k].as_bytes())) && are_apart;
    }
    are_apart
}

/// Whether each of some texts has a number.
fn have_counts(texts: &[&str]) -> bool
    ensures { result ≡ list_all (λ text. has_count text.now) texts.now }
{
    texts.iter().all(|text| count_in(text.as_bytes()).is_some())
}

/// Whether texts are numbers of entries, each of one map, and none of the same.
///
/// Takes time in the square of how many there are.
pub fn are_counts(texts: &[&str]) -> bool
    ensures { result ≡ are_counts (map (λ text. text.now) texts.now) }
{
    have_counts(texts) && are_apart(texts)
}
