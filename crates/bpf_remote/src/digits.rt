//! Hexadecimal digits.
ghost use Rattle.std.specs.Prelude.{◌≡◌, ◌<◌, ◌↔◌, false, IfSome, IsSome, IsTrue};
ghost use Rattle.std.specs.Char.{digit_value, is_digit};
ghost use Rattle.std.specs.Fmt.{digit_glyph};
ghost use Rattle.bpf_remote.specs.Packets.{two_digits};

/// Two lower-case digits of a byte.
pub(crate) fn two_digits(byte: u8) -> [u8; 2]
    ensures { result ≡ two_digits byte }
{
    [digit(byte / 16), digit(byte % 16)]
}

/// The lower-case digit of a number below 16.
fn digit(value: u8) -> u8
    requires { value < 16 }
    ensures { result ≡ digit_glyph false value }
{
    if value < 10 {
        b'0' + value
    } else {
        b'a' + (value - 10)
    }
}

/// The value of a digit of either case, None where the byte is none.
pub(crate) fn digit_value(byte: u8) -> Option<u8>
    ensures found { IsSome result ↔ IsTrue (is_digit byte 16) }
    ensures value { IfSome result (λ value. (value ≡ digit_value byte) × (value < 16)) }
{
    match char::from(byte).to_digit(16) {
        Some(value) => Some(value as u8),
        None => None,
    }
}
