//! The text of the frames of local calls.
ghost use Rattle.std.specs.Option.{option_map_or};
ghost use Rattle.std.specs.Prelude.{◌<◌, []};
ghost use Rattle.bpf_steps.specs.State.{depth, frame};
ghost use Rattle.counted_io.specs.Writing.{WritesAfter};
ghost use Rattle.bpfdb_script.specs.Texts.{text_of_frame, text_of_frames};

use bpf_machine::Cpu;
use counted_io::{Counted, Piece, WriteFault, put_all};
use std::io::Write;

/// Writes the depth, and a line for each pushed frame, the innermost first.
pub fn put_frames<W: Write>(
    writer: &mut Counted<W>,
    so_far: Result<(), WriteFault>,
    cpu: &Cpu,
) -> Result<(), WriteFault>
    ensures { WritesAfter W.contents writer.old so_far writer.new result (text_of_frames cpu.now) }
{
    let depth = cpu.depth();
    let line = [
        Piece::Text(b"depth "),
        Piece::Decimal(depth as u64),
        Piece::Text(b"\n"),
    ];
    let mut told = put_all(writer, so_far, &line);
    for i in 0..depth {
        told = put_frame(writer, told, cpu, i);
    }
    told
}

/// Writes where a pushed frame returns to, 0 the innermost, and the numbers of r6 to r9 that come
/// back.
fn put_frame<W: Write>(
    writer: &mut Counted<W>,
    so_far: Result<(), WriteFault>,
    cpu: &Cpu,
    i: usize,
) -> Result<(), WriteFault>
    requires { i < depth cpu.now }
    ensures { WritesAfter W.contents writer.old so_far writer.new result
        (option_map_or text_of_frame (frame cpu.now i) []) }
{
    match cpu.frame(i) {
        Some(frame) => {
            let slot = u64::from(frame.return_pc);
            let line = [
                Piece::Text(b"returns to "),
                Piece::Decimal(slot),
                Piece::Text(b" r6="),
                Piece::Hexadecimal(frame.saved[0]),
                Piece::Text(b" r7="),
                Piece::Hexadecimal(frame.saved[1]),
                Piece::Text(b" r8="),
                Piece::Hexadecimal(frame.saved[2]),
                Piece::Text(b" r9="),
                Piece::Hexadecimal(frame.saved[3]),
                Piece::Text(b"\n"),
            ];
            put_all(writer, so_far, &line)
        }
        None => so_far,
    }
}
