//! The contexts of a plan: what their files hold, or packets of captures.
ghost use Rattle.std.specs.Prelude.{◌≡◌, IfErr, IfOk};
ghost use Rattle.bpfdb.specs.Contents.{contents_in};
ghost use Rattle.bpfdb.specs.Contexts.{AreContexts, IsContextFault, context_line, line_by, note_line, notes_of, with_contexts};
ghost use Rattle.bpfdb_faults.specs.Streams.{Told, stream};
ghost use Rattle.counted_io.specs.Writing.{Writes, WritesAfter};

use crate::job::{Bytes, name_or_empty};
use bpfdb_cli::Plan;
use bpfdb_faults::{JobFault, flush_after, tell};
use bpfdb_script::put_shown;
use capture_packets::{CaptureFault, Chosen, Note, PacketFault, choose, put_fault, put_note};
use counted_io::{Counted, WriteFault, put};
use std::alloc::Global;
use std::io::Write;

/// The contexts of a plan.
#[derive(Clone, Copy)]
pub struct Contexts<'a> {
    /// That of PATH.
    pub context: Chosen<'a>,
    /// What the other file holds, or a packet of it.
    pub other: Chosen<'a>,
}

/// Why a context isn't there.
#[derive(Clone, Copy)]
pub struct ContextFault<'a> {
    pub why: CaptureFault,
    /// The file that it was to come from.
    pub path: &'a [u8],
}

/// The contexts of a plan whose files hold these bytes. That of PATH is looked for first.
pub fn contexts_of<'a, 'b>(
    alloc: Global,
    plan: &Plan<'b>,
    bytes: &Bytes<'a>,
) -> Result<Contexts<'a>, ContextFault<'b>>
    ensures ok { IfOk result (AreContexts plan.now (contents_in bytes.now)) }
    ensures err { IfErr result (IsContextFault plan.now (contents_in bytes.now)) }
{
    let context = match choose(alloc, bytes.context, plan.packet) {
        Ok(context) => context,
        Err(why) => {
            let path = name_or_empty(plan.memory);
            return Err(ContextFault { why, path });
        }
    };
    match choose(alloc, bytes.other, plan.other_packet) {
        Ok(other) => Ok(Contexts { context, other }),
        Err(why) => {
            let path = name_or_empty(plan.other);
            Err(ContextFault { why, path })
        }
    }
}

/// The bytes of a plan's files, with these contexts.
pub fn with_contexts<'a>(bytes: &Bytes<'a>, contexts: &Contexts<'a>) -> Bytes<'a>
    ensures { contents_in result ≡ with_contexts (contents_in bytes.now) contexts.now }
{
    Bytes {
        context: contexts.context.bytes,
        other: contexts.other.bytes,
        ..*bytes
    }
}

/// Says on standard error what there is to say of contexts, as far as it can be written.
pub fn say_contexts<E: Write>(contexts: &Contexts<'_>, errors: &mut Counted<E>)
    ensures { Told (stream E.contents errors.old errors.new) (notes_of contexts.now) }
{
    match write_notes(contexts, errors) {
        Ok(()) => {}
        Err(WriteFault) => {}
    }
}

/// Writes that, and flushes.
fn write_notes<E: Write>(contexts: &Contexts<'_>, errors: &mut Counted<E>) -> Result<(), WriteFault>
    ensures { Writes E.contents errors.old errors.new result (notes_of contexts.now) }
{
    let first = put_line(errors, Ok(()), "--packet", contexts.context.note);
    let second = put_line(errors, first, "--other-packet", contexts.other.note);
    flush_after(errors, second)
}

/// Writes what there is to say of one, of which this option takes a packet.
fn put_line<E: Write>(
    errors: &mut Counted<E>,
    so_far: Result<(), WriteFault>,
    option: &str,
    note: Option<Note>,
) -> Result<(), WriteFault>
    ensures { WritesAfter E.contents errors.old so_far errors.new result (note_line option.now note) }
{
    match note {
        Some(note) => put_note(errors, so_far, option, note),
        None => put(errors, so_far, b""),
    }
}

/// Tells why a context isn't there. Answers the exit status, 2.
pub fn refuse_context<E: Write>(fault: &ContextFault<'_>, errors: &mut Counted<E>) -> u8
    ensures value { result ≡ 2 }
    ensures told { Told (stream E.contents errors.old errors.new) (context_line fault.now) }
{
    match tell_fault(errors, fault) {
        Ok(()) => 2,
        Err(WriteFault) => 2,
    }
}

/// Writes the line of a fault, and flushes.
fn tell_fault<E: Write>(errors: &mut Counted<E>, fault: &ContextFault<'_>) -> Result<(), WriteFault>
    ensures { Writes E.contents errors.old errors.new result (context_line fault.now) }
{
    match fault.why {
        CaptureFault::Packet(why) => tell_packet(errors, why, fault.path),
        CaptureFault::Memory => tell(errors, &JobFault::Memory),
    }
}

/// Writes the line of a packet that a file hasn't, and flushes.
fn tell_packet<E: Write>(
    errors: &mut Counted<E>,
    why: PacketFault,
    path: &[u8],
) -> Result<(), WriteFault>
    ensures { Writes E.contents errors.old errors.new result
        (line_by (CaptureFault.Packet why) path.now) }
{
    let said = put_fault(errors, Ok(()), why);
    let opened = put(errors, said, b" (");
    let named = put_shown(errors, opened, path);
    let ended = put(errors, named, b")\n");
    flush_after(errors, ended)
}
