//! What is told of the program of an object that answers otherwise than in Linux.
ghost use Rattle.std.specs.Prelude.{◌≡◌, option_map};
ghost use Rattle.bpfdb_jobs.specs.Differences.{difference_line, differences};
ghost use Rattle.counted_io.specs.Writing.{WritesAfter};

use bpf_load::Notes;
use bpfdb_script::put_shown;
use counted_io::{Counted, WriteFault, put};
use std::io::Write;

/// Writes what is said of one helper, if something is.
fn put_difference<W: Write>(
    writer: &mut Counted<W>,
    so_far: Result<(), WriteFault>,
    text: Option<&[u8]>,
) -> Result<(), WriteFault>
    ensures { WritesAfter W.contents writer.old so_far writer.new result
        (difference_line (option_map (λ t. t.now) text.entry)) }
{
    match text {
        Some(text) => {
            let begun = put(writer, so_far, b"other than Linux: ");
            let shown = put_shown(writer, begun, text);
            put(writer, shown, b"\n")
        }
        None => put(writer, so_far, b""),
    }
}

/// Writes what is said of the helpers that a program calls.
pub fn put_differences<W: Write>(
    writer: &mut Counted<W>,
    so_far: Result<(), WriteFault>,
    notes: &Notes<'_>,
) -> Result<(), WriteFault>
    ensures { WritesAfter W.contents writer.old so_far writer.new result (differences notes.now) }
{
    let mut told = so_far;
    for k in 0..notes.len() {
        told = put_difference(writer, told, notes.difference(k));
    }
    told
}
