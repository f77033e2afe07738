//! Packets as they are sent.
ghost use Rattle.std.specs.Prelude.{◌≡◌};
ghost use Rattle.counted_io.specs.Writing.{WritesAfter};
ghost use Rattle.bpf_remote.specs.Packets.{framed, sum_of, two_digits};

use crate::digits::two_digits;
use counted_io::{Counted, WriteFault, put};
use std::io::Write;

/// Writes the packet with this body after what was written so far, unless that failed.
pub fn put_packet<W: Write>(
    writer: &mut Counted<W>,
    so_far: Result<(), WriteFault>,
    body: &[u8],
) -> Result<(), WriteFault>
    ensures { WritesAfter W.contents writer.old so_far writer.new result (framed body.now) }
{
    let begun = put(writer, so_far, b"$");
    let told = put(writer, begun, body);
    let marked = put(writer, told, b"#");
    put(writer, marked, &two_digits(sum_of(body)))
}

/// The sum of a body's bytes, modulo 256.
pub(crate) fn sum_of(body: &[u8]) -> u8
    ensures { result ≡ sum_of body.now }
{
    let mut sum = 0u8;
    for byte in body {
        sum = sum.wrapping_add(*byte);
    }
    sum
}
