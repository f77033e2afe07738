//! The text of the breakpoints and the watches.
ghost use Rattle.std.specs.Prelude.{◌≡◌, flat_map, ◌++◌, if◌then◌else◌, codes};
ghost use Rattle.counted_io.specs.Writing.{WritesAfter};
ghost use Rattle.bpfdb_script.specs.Texts.{break_text, or_none, text_of_breaks, watch_text};

use counted_io::{Counted, Piece, WriteFault, put, put_all};
use std::io::Write;

/// Writes a line for each breakpoint and then for each watch, in order of setting; `none` where
/// there are none.
#[tactic(auto, unfolding(crate::specs::Texts::text_of_breaks))]
pub fn put_breaks<W: Write>(
    writer: &mut Counted<W>,
    so_far: Result<(), WriteFault>,
    breaks: &[u16],
    watches: &[u64],
) -> Result<(), WriteFault>
    ensures { WritesAfter W.contents writer.old so_far writer.new result
        (text_of_breaks breaks.now watches.now) }
{
    if are_none(breaks, watches) {
        return put(writer, so_far, b"none\n");
    }
    let mut told = so_far;
    for slot in breaks {
        let slot = u64::from(*slot);
        let line = [
            Piece::Text(b"break "),
            Piece::Decimal(slot),
            Piece::Text(b"\n"),
        ];
        told = put_all(writer, told, &line);
    }
    for address in watches {
        let line = [
            Piece::Text(b"watch "),
            Piece::Hexadecimal(*address),
            Piece::Text(b"\n"),
        ];
        told = put_all(writer, told, &line);
    }
    told
}

/// Whether there are neither breakpoints nor watches.
fn are_none(breaks: &[u16], watches: &[u64]) -> bool
    ensures { (if result then codes "none\n" else flat_map break_text breaks.now ++ flat_map
        watch_text watches.now)
        ≡ or_none (flat_map break_text breaks.now ++ flat_map watch_text watches.now) }
{
    if !breaks.is_empty() {
        return false;
    }
    watches.is_empty()
}
