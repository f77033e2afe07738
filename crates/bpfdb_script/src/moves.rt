//! The text of how far a command went, and why it stopped.
ghost use Rattle.std.specs.Prelude.{◌≡◌};
ghost use Rattle.counted_io.specs.Writing.{WritesAfter};
ghost use Rattle.bpfdb_script.specs.Texts.{text_of_move, text_of_why};

use super::place::put_place;
use crate::why::Why;
use bpf_machine::Cpu;
use counted_io::{Counted, Piece, WriteFault, put, put_all};
use std::io::Write;

impl Why {
    /// The word that is printed.
    fn text(self) -> &'static str
        ensures { result.now ≡ text_of_why self }
    {
        match self {
            Why::End => "end",
            Why::Break => "break",
            Why::Watch => "watch",
            Why::Done => "done",
            Why::Limit => "limit",
            Why::Memory => "memory",
            Why::Start => "start",
            Why::All => "all",
        }
    }
}

/// Writes how many moves a command made, took back or made again, why it stopped, and where.
pub fn put_move<W: Write>(
    writer: &mut Counted<W>,
    so_far: Result<(), WriteFault>,
    moves: u64,
    way: &[u8],
    why: Why,
    cpu: &Cpu,
) -> Result<(), WriteFault>
    ensures { WritesAfter W.contents writer.old so_far writer.new result
        (text_of_move moves way.now why cpu.now) }
{
    let why = why.text().as_bytes();
    let told = [
        Piece::Decimal(moves),
        Piece::Text(way),
        Piece::Text(why),
        Piece::Text(b"; "),
    ];
    let stopped = put_all(writer, so_far, &told);
    let placed = put_place(writer, stopped, cpu);
    put(writer, placed, b"\n")
}
