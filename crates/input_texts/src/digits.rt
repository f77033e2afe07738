//! The bytes that hexadecimal digits are.
ghost use Rattle.std.specs.Prelude.{◌≡◌, ◌*◌, IfOk, Some, None, if◌then◌else◌, length, unwrap_or, ℕ};
ghost use Rattle.std.specs.Option.{option_map};
ghost use Rattle.std.specs.Result.{result_ok};
ghost use Rattle.hex.specs.Hex.{decode_pairs, hex_digit_value, pair_value};
ghost use Rattle.input_texts.specs.Cases.{bytes_of};

use std::alloc::{AllocError, Global};

/// The value of each byte as a digit of either case; 64 where it is none, so that the sum of two is
/// below 32 only where both are digits.
#[rattlefmt::skip]
const VALUES: [u8; 256] = [
    64, 64, 64, 64, 64, 64, 64, 64, 64, 64, 64, 64, 64, 64, 64, 64,
    64, 64, 64, 64, 64, 64, 64, 64, 64, 64, 64, 64, 64, 64, 64, 64,
    64, 64, 64, 64, 64, 64, 64, 64, 64, 64, 64, 64, 64, 64, 64, 64,
    0, 1, 2, 3, 4, 5, 6, 7, 8, 9, 64, 64, 64, 64, 64, 64,
    64, 10, 11, 12, 13, 14, 15, 64, 64, 64, 64, 64, 64, 64, 64, 64,
    64, 64, 64, 64, 64, 64, 64, 64, 64, 64, 64, 64, 64, 64, 64, 64,
    64, 10, 11, 12, 13, 14, 15, 64, 64, 64, 64, 64, 64, 64, 64, 64,
    64, 64, 64, 64, 64, 64, 64, 64, 64, 64, 64, 64, 64, 64, 64, 64,
    64, 64, 64, 64, 64, 64, 64, 64, 64, 64, 64, 64, 64, 64, 64, 64,
    64, 64, 64, 64, 64, 64, 64, 64, 64, 64, 64, 64, 64, 64, 64, 64,
    64, 64, 64, 64, 64, 64, 64, 64, 64, 64, 64, 64, 64, 64, 64, 64,
    64, 64, 64, 64, 64, 64, 64, 64, 64, 64, 64, 64, 64, 64, 64, 64,
    64, 64, 64, 64, 64, 64, 64, 64, 64, 64, 64, 64, 64, 64, 64, 64,
    64, 64, 64, 64, 64, 64, 64, 64, 64, 64, 64, 64, 64, 64, 64, 64,
    64, 64, 64, 64, 64, 64, 64, 64, 64, 64, 64, 64, 64, 64, 64, 64,
    64, 64, 64, 64, 64, 64, 64, 64, 64, 64, 64, 64, 64, 64, 64, 64,
];

/// The bytes that digits are, two each, None where they are none.
pub(crate) fn bytes_of(alloc: Global, digits: &[u8]) -> Result<Option<Vec<u8>>, AllocError>
    ensures { IfOk result (λ bytes. option_map (λ v. v.items) bytes ≡ bytes_of digits.now) }
{
    if digits.len() % 2 != 0 {
        return Ok(None);
    }
    let mut bytes = vec![in alloc; 0u8; digits.len() / 2]?;
    if put_bytes(digits, bytes.as_mut_slice()) {
        Ok(Some(bytes))
    } else {
        Ok(None)
    }
}

/// Puts the bytes that digits are into room for them. Answers false where one is no digit.
fn put_bytes(digits: &[u8], bytes: &mut [u8]) -> bool
    requires { length digits.now ≡ 2 * length bytes.old }
    ensures { (if result then Some bytes.new else None) ≡ result_ok (decode_pairs 0 digits.now) }
{
    'pairs: for k in 0..bytes.len() {
        match byte_of(digits[2 * k], digits[2 * k + 1]) {
            Some(byte) => bytes[k] = byte,
            None => return false,
        }
    }
    true
}

/// The byte that two digits are.
fn byte_of(high: u8, low: u8) -> Option<u8>
    ensures { (i : ℕ) → result ≡ result_ok (pair_value high low i) }
{
    let (high, low) = (value_of(high), value_of(low));
    if high + low < 32 {
        Some(high * 16 + low)
    } else {
        None
    }
}

/// The value of a digit, 64 where a byte is none.
fn value_of(digit: u8) -> u8
    ensures { result ≡ unwrap_or (hex_digit_value digit) 64 }
{
    VALUES[digit as usize]
}
