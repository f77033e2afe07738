//! The text of the words that were traced.
ghost use Rattle.counted_io.specs.Writing.{WritesAfter};
ghost use Rattle.bpfdb_script.specs.Texts.{text_of_trace};

use bpf_machine::Cpu;
use counted_io::{Counted, Piece, WriteFault, put, put_all};
use std::io::Write;

/// Writes how many words were traced, and the words, on one line.
pub fn put_trace<W: Write>(
    writer: &mut Counted<W>,
    so_far: Result<(), WriteFault>,
    cpu: &Cpu,
) -> Result<(), WriteFault>
    ensures { WritesAfter W.contents writer.old so_far writer.new result (text_of_trace cpu.now) }
{
    let words = cpu.trace();
    let begin = [Piece::Text(b"trace "), Piece::Decimal(words.len() as u64)];
    let mut told = put_all(writer, so_far, &begin);
    for word in words {
        let text = [Piece::Text(b" "), Piece::Hexadecimal(*word)];
        told = put_all(writer, told, &text);
    }
    put(writer, told, b"\n")
}
