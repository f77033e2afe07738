//! The texts of what a history keeps, and of what it tells of a byte.
ghost use Rattle.counted_io.specs.Writing.{WritesAfter};
ghost use Rattle.bpfdb_script.specs.Texts.{text_of_change, text_of_history, text_of_unchanged};

use counted_io::{Counted, Piece, WriteFault, put_all};
use std::io::Write;

/// Writes how many moves and commands that moved are kept, and how many bytes of the journal's size
/// they take.
#[tactic(auto, unfolding(crate::specs::Texts::text_of_history))]
pub fn put_history<W: Write>(
    writer: &mut Counted<W>,
    so_far: Result<(), WriteFault>,
    moves: usize,
    commands: usize,
    weight: usize,
    size: usize,
) -> Result<(), WriteFault>
    ensures { WritesAfter W.contents writer.old so_far writer.new result
        (text_of_history moves commands weight size) }
{
    let line = [
        Piece::Decimal(moves as u64),
        Piece::Text(b" moves, "),
        Piece::Decimal(commands as u64),
        Piece::Text(b" commands, "),
        Piece::Decimal(weight as u64),
        Piece::Text(b" of "),
        Piece::Decimal(size as u64),
        Piece::Text(b" bytes\n"),
    ];
    put_all(writer, so_far, &line)
}

/// Writes how many moves back a byte was changed, and its values before and after.
pub fn put_change<W: Write>(
    writer: &mut Counted<W>,
    so_far: Result<(), WriteFault>,
    moves: u64,
    old: u8,
    new: u8,
) -> Result<(), WriteFault>
    ensures { WritesAfter W.contents writer.old so_far writer.new result
        (text_of_change moves old new) }
{
    let before = u64::from(old);
    let after = u64::from(new);
    let line = [
        Piece::Text(b"changed "),
        Piece::Decimal(moves),
        Piece::Text(b" moves back: "),
        Piece::Hexadecimal(before),
        Piece::Text(b" to "),
        Piece::Hexadecimal(after),
        Piece::Text(b"\n"),
    ];
    put_all(writer, so_far, &line)
}

/// Writes how many moves are kept, none of which changed a byte.
#[tactic(auto, unfolding(crate::specs::Texts::text_of_unchanged))]
pub fn put_unchanged<W: Write>(
    writer: &mut Counted<W>,
    so_far: Result<(), WriteFault>,
    moves: usize,
) -> Result<(), WriteFault>
    ensures { WritesAfter W.contents writer.old so_far writer.new result (text_of_unchanged moves) }
{
    let line = [
        Piece::Text(b"not changed in "),
        Piece::Decimal(moves as u64),
        Piece::Text(b" kept moves\n"),
    ];
    put_all(writer, so_far, &line)
}
