//! What names the places of a program.
ghost use Rattle.std.specs.Prelude.{IfOk};
ghost use Rattle.counted_io.specs.Writing.{WritesAfter};
ghost use Rattle.bpf_lines.specs.DebugInfos as spec;

use crate::listing::listed_slots;
use crate::lookups::program_slots;
use crate::objects::ObjectLines;
use crate::place::is_place;
use bpf_packet::Packet;
use bpfdb_script::put_shown;
use counted_io::{Counted, WriteFault, put};
use std::alloc::{AllocError, Global};
use std::io::Write;

/// What names the places of a program.
#[derive(Clone, Copy)]
pub enum DebugInfo<'a> {
    /// Nothing does.
    Nothing,
    /// The labels of a listing, by the table of its lines.
    Listing(&'a [u8]),
    /// The functions, lines, types of the objects that a program was linked of: what is told of each, the
    /// packet that it was asked to take, and its words.
    Objects(&'a [ObjectLines<'a>], Option<Packet>, &'a [u8]),
}

impl<'a> DebugInfo<'a> {
    /// What is asked of the slots of the program by a text: the slots of the place that it names, in decimal
    /// with commas between, or which of FILE's own slots make a value. A text that names no place is left as
    /// it is. That takes time in proportion to what is known.
    pub fn slots(&self, alloc: Global, what: &[u8]) -> Result<Vec<u8>, AllocError>
        requires { spec.AreWhole self.now }
        ensures { IfOk result (λ slots. spec.AsksSlots self.now what.now slots.items) }
    {
        if is_place(what) {
            self.named(alloc, what)
        } else {
            Vec::from_slice(alloc, what)
        }
    }

    /// What is asked of them by the name of a place.
    fn named(&self, alloc: Global, what: &[u8]) -> Result<Vec<u8>, AllocError>
        requires { spec.AreWhole self.now }
        ensures { IfOk result (λ slots. spec.AreNamed self.now what.now slots.items) }
    {
        match *self {
            DebugInfo::Nothing => Vec::from_slice(alloc, what),
            DebugInfo::Listing(table) => listed_slots(alloc, table, what),
            DebugInfo::Objects(lines, packet, words) => {
                program_slots(alloc, lines, packet, words, what)
            }
        }
    }
}

/// Writes that no slot has the place of a name.
pub fn put_no_place<W: Write>(
    writer: &mut Counted<W>,
    so_far: Result<(), WriteFault>,
    name: &[u8],
) -> Result<(), WriteFault>
    ensures { WritesAfter W.contents writer.old so_far writer.new result (spec.no_place_line name.now) }
{
    let begun = put(writer, so_far, b"refused V5: no such place: ");
    let named = put_shown(writer, begun, name);
    put(writer, named, b"\n")
}
