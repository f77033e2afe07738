//! Numbers and bytes, as bodies write them.
ghost use Rattle.std.specs.Prelude.{◌≡◌};
ghost use Rattle.std.specs.Option.{option_map};
ghost use Rattle.bpf_remote.specs.Numbers.{before, behind, number, pair, word};

use byteorder::{ByteOrder, LittleEndian};
use counted_io::{cut, natural_in};

/// The number that hexadecimal digits of either case are, None from 2^64 on and where they are
/// none.
pub(crate) fn number(text: &[u8]) -> Option<u64>
    ensures { result ≡ number text.now }
{
    natural_in(text, 16)?.to_u64()
}

/// The number whose eight bytes a text spells, the lowest first.
pub(crate) fn word(text: &[u8]) -> Option<u64>
    ensures { result ≡ word text.now }
{
    let mut bytes = [0; 8];
    match hex::decode_to_slice(text, &mut bytes) {
        Ok(()) => Some(LittleEndian::read_u64(&bytes)),
        Err(_) => None,
    }
}

/// What is behind a name, None where the text doesn't begin with it.
pub(crate) fn behind<'a>(name: &str, text: &'a [u8]) -> Option<&'a [u8]>
    ensures { option_map (λ rest. rest.now) result ≡ behind name.now text.now }
{
    text.strip_prefix(name.as_bytes())
}

/// What stands before the first of these bytes, or all where there is none.
pub(crate) fn before(mark: u8, text: &[u8]) -> &[u8]
    ensures { result.now ≡ before mark text.now }
{
    match cut(text, mark) {
        Some((front, _)) => front,
        None => text,
    }
}

/// Two numbers with a byte between them.
pub(crate) fn pair(mark: u8, text: &[u8]) -> Option<(u64, u64)>
    ensures { result ≡ pair mark text.now }
{
    match cut(text, mark) {
        Some((first, second)) => match (number(first), number(second)) {
            (Some(first), Some(second)) => Some((first, second)),
            _ => None,
        },
        None => None,
    }
}
