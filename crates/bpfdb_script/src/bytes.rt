//! The text of bytes of memory.
ghost use Rattle.std.specs.Prelude.{◌≡◌, ◌*◌, ◌++◌, IsSome, codes, length};
ghost use Rattle.hex.specs.Hex.{encode_lower};
ghost use Rattle.bpf_steps.specs.Regions.{index_of};
ghost use Rattle.counted_io.specs.Writing.{WritesAfter, hexadecimal};
ghost use Rattle.bpfdb_script.specs.Texts.{text_of_bytes};

use crate::Span;
use bpf_machine::Cpu;
use counted_io::{Counted, Piece, WriteFault, put_all};
use hex::encode_to_slice;
use std::io::Write;

/// As many digits as the greatest span has, of 256 bytes.
const MOST_DIGITS: usize = 512;

/// Writes an address and the bytes from there on.
pub fn put_bytes<W: Write>(
    writer: &mut Counted<W>,
    so_far: Result<(), WriteFault>,
    cpu: &Cpu,
    address: u64,
    span: Span,
) -> Result<(), WriteFault>
    requires { IsSome (index_of cpu.now.memory address span) }
    ensures { WritesAfter W.contents writer.old so_far writer.new result
        (text_of_bytes cpu.now address span) }
{
    match cpu.peek(address, span.get() as usize) {
        Some(run) => {
            let mut digits = [0; MOST_DIGITS];
            put_run(writer, so_far, address, run, &mut digits[..2 * run.len()])
        }
        None => unreachable!(),
    }
}

/// Writes an address and the bytes of a run, by a buffer of as many digits.
fn put_run<W: Write>(
    writer: &mut Counted<W>,
    so_far: Result<(), WriteFault>,
    address: u64,
    run: &[u8],
    digits: &mut [u8],
) -> Result<(), WriteFault>
    requires { length digits.old ≡ 2 * length run.now }
    ensures { WritesAfter W.contents writer.old so_far writer.new result
        (hexadecimal address ++ codes ": " ++ encode_lower run.now ++ codes "\n") }
{
    match encode_to_slice(run, digits) {
        Ok(()) => {
            let line = [
                Piece::Hexadecimal(address),
                Piece::Text(b": "),
                Piece::Text(digits),
                Piece::Text(b"\n"),
            ];
            put_all(writer, so_far, &line)
        }
        Err(_) => unreachable!(),
    }
}
