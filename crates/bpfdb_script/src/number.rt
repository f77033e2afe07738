//! Numbers in command lines.
ghost use Rattle.std.specs.Prelude.{◌≡◌};
ghost use Rattle.bpfdb_script.specs.Lines.{number};

use counted_io::natural;

/// The number that a token is: decimal digits, or `0x` and hexadecimal digits of either case.
///
/// There may be any number of leading zeros. None from 2^64 on, and where the token is no number.
pub(crate) fn parse_number(token: &[u8]) -> Option<u64>
    ensures value { result ≡ number token.now }
{
    natural(token)?.to_u64()
}
