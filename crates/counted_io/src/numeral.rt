//! Numbers as they are written.
ghost use Rattle.std.specs.Prelude.{◌≡◌, ◌≤◌};
ghost use Rattle.std.specs.List.{list_all};
ghost use Rattle.std.specs.Char.{digit_value, is_digit};
ghost use Rattle.counted_io.specs.Numerals.{ReadsNaturals, as_u64, natural, numeral};

use std::marker::Model;

/// A number without a sign as it is written: digits of a radix, as many as there are. Contracts see
/// the number.
#[derive(Drop)]
pub struct Numeral<'a> {
    digits: &'a [u8],
    radix: u32,
}

impl<'a> Model for Numeral<'a> {
    ghost use Rattle.std.specs.Prelude.{ℕ, ◌≤◌};
    ghost use Rattle.std.specs.Str.Parse.{digits_value};

    ghost Value = { ℕ };

    ghost view = { λ n. digits_value n.radix n.digits.now };

    ghost invariant = { λ n. 1 ≤ n.radix };
}

impl<'a> Numeral<'a> {
    /// The number 0.
    pub fn zero() -> Numeral<'a>
        ensures { result ≡ 0 }
    {
        Numeral {
            digits: &[],
            radix: 10,
        }
    }

    /// The value, None from 2^64 on.
    pub fn to_u64(&self) -> Option<u64>
        ensures { result ≡ as_u64 self.now }
    {
        let mut value = 0u64;
        for byte in self.digits {
            value = value
                .checked_mul(u64::from(self.radix))?
                .checked_add(u64::from(digit_value(*byte)))?;
        }
        Some(value)
    }
}

/// The number that a text is: decimal digits, or 0x and hexadecimal digits of either case. None
/// where it is none.
pub fn natural(text: &[u8]) -> Option<Numeral<'_>>
    ensures value { result ≡ natural text.now }
    ensures grammar { ReadsNaturals text.now }
{
    match text.strip_prefix(b"0x") {
        Some(digits) => natural_in(digits, 16),
        None => natural_in(text, 10),
    }
}

/// The number that digits of a radix are, one at least and as many as there are. None where it is
/// none.
pub fn natural_in(digits: &[u8], radix: u32) -> Option<Numeral<'_>>
    requires { 1 ≤ radix }
    ensures { result ≡ numeral radix digits.now }
{
    if !digits.is_empty() && are_digits(digits, radix) {
        Some(Numeral { digits, radix })
    } else {
        None
    }
}

fn are_digits(text: &[u8], radix: u32) -> bool
    ensures { result ≡ list_all (λ d. is_digit d radix) text.now }
{
    text.iter().all(|byte| digit_value(*byte) < radix)
}

/// The value of a digit or a letter, and 36 for any other byte.
pub fn digit_value(byte: u8) -> u32
    ensures { result ≡ digit_value byte }
{
    char::from(byte).to_digit(36).unwrap_or(36)
}
