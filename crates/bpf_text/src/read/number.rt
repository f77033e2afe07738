//! Numbers of a listing, which may have a minus.
ghost use Rattle.std.specs.Prelude.{◌≡◌};
ghost use Rattle.bpf_text.specs.Scaffolding.Terms.{is_negative, signed_number};
ghost use Rattle.bpf_text.specs.Scaffolding.Tokens.{unsigned, immediate, wide, offset};

use counted_io::{Numeral, natural};

/// A number, which may have a minus.
#[derive(Drop)]
pub struct Number<'a> {
    pub negative: bool,
    pub magnitude: Numeral<'a>,
}

impl<'a> Number<'a> {
    /// As a number below 2^32, if it is one.
    pub fn unsigned(&self) -> Option<u32>
        ensures { result ≡ unsigned self.now }
    {
        let value = self.magnitude.to_u64()?;
        if !self.negative {
            u32::try_from(value).ok()
        } else {
            None
        }
    }

    /// As a signed number of 32 bits, if it is from -2^31 to 2^32 - 1.
    pub fn immediate(&self) -> Option<i32>
        ensures { result ≡ immediate self.now }
    {
        let value = self.magnitude.to_u64()?;
        if !self.negative {
            Some(u32::try_from(value).ok()?.cast_signed())
        } else if value <= 1 << 31 {
            Some((-(value as i64)) as i32)
        } else {
            None
        }
    }

    /// Modulo 2^64, if it is from -2^63 to 2^64 - 1.
    pub fn wide(&self) -> Option<u64>
        ensures { result ≡ wide self.now }
    {
        let value = self.magnitude.to_u64()?;
        if !self.negative {
            Some(value)
        } else if value <= 1 << 63 {
            Some(value.wrapping_neg())
        } else {
            None
        }
    }

    /// As an offset in bytes, if it is from -32,768 to 32,767.
    pub fn offset(&self) -> Option<i16>
        ensures { result ≡ offset self.now }
    {
        let value = self.magnitude.to_u64()?;
        if !self.negative {
            i16::try_from(value).ok()
        } else if value <= 32768 {
            Some((-(value as i32)) as i16)
        } else {
            None
        }
    }
}

/// A number, directly behind a minus or without one.
pub fn signed_number(text: &[u8]) -> Option<Number<'_>>
    ensures { result ≡ signed_number text.now }
{
    let negative = is_negative(text);
    let magnitude = natural(if negative { &text[1..] } else { text })?;
    Some(Number {
        negative,
        magnitude,
    })
}

fn is_negative(text: &[u8]) -> bool
    ensures { result ≡ is_negative text.now }
{
    !text.is_empty() && text[0] == b'-'
}
