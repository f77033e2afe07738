//! The line of a read of the stack where nothing was written.
ghost use Rattle.bpf_trace.specs.Objects.{unwritten_lead, unwritten_object};
ghost use Rattle.bpf_trace.specs.UnwrittenTexts.{call_text, called_by, unwritten_line, unwritten_text};
ghost use Rattle.counted_io.specs.Writing.{WritesAfter};

use crate::ending::put_slot;
use crate::strict_run::Unwritten;
use bpfdb_script::{SlotTexts, text_of_slot};
use counted_io::{Counted, WriteFault, put, put_decimal, put_hexadecimal};
use std::io::Write;

/// Writes the address of the byte, and the slot of the step that would read it, with what is told of
/// that slot, and of the slot of the call by which FILE's own code came there.
pub fn put_unwritten<W: Write>(
    writer: &mut Counted<W>,
    so_far: Result<(), WriteFault>,
    places: SlotTexts<'_>,
    read: &Unwritten,
) -> Result<(), WriteFault>
    ensures { WritesAfter W.contents writer.old so_far writer.new result
        (unwritten_line places.entry read.now) }
{
    let read_at = put_read(writer, so_far, read);
    let placed = put(
        writer,
        read_at,
        text_of_slot(places, usize::from(read.slot)),
    );
    let called = put_call(writer, placed, places, read.call);
    put(writer, called, b"\n")
}

/// Writes the address of the byte, and the slot.
fn put_read<W: Write>(
    writer: &mut Counted<W>,
    so_far: Result<(), WriteFault>,
    read: &Unwritten,
) -> Result<(), WriteFault>
    ensures { WritesAfter W.contents writer.old so_far writer.new result (unwritten_text read.now) }
{
    let begun = put(writer, so_far, b"read of ");
    let told = put_hexadecimal(writer, begun, read.address);
    let parted = put(writer, told, b" at ");
    let placed = put_decimal(writer, parted, u64::from(read.slot));
    put(writer, placed, b": not written since the call")
}

/// Writes where a call stands, if there is one.
fn put_call<W: Write>(
    writer: &mut Counted<W>,
    so_far: Result<(), WriteFault>,
    places: SlotTexts<'_>,
    call: Option<u16>,
) -> Result<(), WriteFault>
    ensures { WritesAfter W.contents writer.old so_far writer.new result (call_text places.entry call) }
{
    match call {
        Some(slot) => put_called(writer, so_far, text_of_slot(places, usize::from(slot))),
        None => put(writer, so_far, b""),
    }
}

/// Writes that by what is told of its slot.
fn put_called<W: Write>(
    writer: &mut Counted<W>,
    so_far: Result<(), WriteFault>,
    told: &[u8],
) -> Result<(), WriteFault>
    ensures { WritesAfter W.contents writer.old so_far writer.new result (called_by told.now) }
{
    if told.len() < 5 {
        return put(writer, so_far, b"");
    }
    let begun = put(writer, so_far, b"; called by ");
    put(writer, begun, told.split_at(5).1)
}

/// Writes the object of it, with the members of where its slot and the call stand.
pub fn put_unwritten_object<W: Write>(
    writer: &mut Counted<W>,
    so_far: Result<(), WriteFault>,
    members: &[u8],
    called: &[u8],
    read: &Unwritten,
) -> Result<(), WriteFault>
    ensures { WritesAfter W.contents writer.old so_far writer.new result
        (unwritten_object members.now called.now read.now) }
{
    let begun = put_unwritten_lead(writer, so_far, read);
    let placed = put(writer, begun, members);
    let told = put(writer, placed, called);
    put(writer, told, b"}\n")
}

/// Writes how the object begins.
fn put_unwritten_lead<W: Write>(
    writer: &mut Counted<W>,
    so_far: Result<(), WriteFault>,
    read: &Unwritten,
) -> Result<(), WriteFault>
    ensures { WritesAfter W.contents writer.old so_far writer.new result (unwritten_lead read.now) }
{
    let begun = put(writer, so_far, b"{\"kind\":\"unwritten\",\"address\":\"");
    let addressed = put_hexadecimal(writer, begun, read.address);
    let ended = put(writer, addressed, b"\"");
    put_slot(writer, ended, u64::from(read.slot))
}
