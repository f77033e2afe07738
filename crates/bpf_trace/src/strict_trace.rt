//! The trace of a run up to a read of the stack where nothing was written.
ghost use Rattle.std.specs.Prelude.{◌≡◌, IfOk};
ghost use Rattle.bpfdb_script.specs.SlotTexts.{text_of_slot};
ghost use Rattle.bpf_trace.specs.Objects.{place_members};
ghost use Rattle.bpf_trace.specs.Rows.{row_text, trace_until};
ghost use Rattle.bpf_trace.specs.Rows.Row.{Unread};
ghost use Rattle.bpf_trace.specs.SlotWords.{members_at};
ghost use Rattle.bpf_trace.specs.Tellings.{Tells};
ghost use Rattle.bpf_trace.specs.UnwrittenTexts.{call_text};
ghost use Rattle.counted_io.specs.Writing.{WritesAfter};

use crate::form::Form;
use crate::strict_run::Unwritten;
use crate::trace::{Shown, TraceFault, put_rows};
use crate::unwritten::{put_unwritten, put_unwritten_object};
use crate::words::{Words, call_members};
use bpf_machine::Cpu;
use bpfdb_script::text_of_slot;
use counted_io::{Counted, WriteFault};
use std::alloc::{AllocError, Global};
use std::io::Write;

/// Takes the steps before a read, writes the rows of those that are shown, and the row of the read.
/// All memory, for the texts of the program's slots, is taken before the first step.
pub fn write_trace_until<W: Write>(
    alloc: Global,
    cpu: &mut Cpu,
    read: &Unwritten,
    shown: Shown<'_>,
    writer: &mut Counted<W>,
) -> Result<(), TraceFault>
    ensures { Tells W.contents writer.old writer.new result (trace_until read.now shown.entry cpu.old) }
{
    let words = match Words::of(alloc, cpu.program(), &shown) {
        Ok(words) => words,
        Err(_) => return Err(TraceFault::Memory),
    };
    let called = match called_in(alloc, &shown, read) {
        Ok(called) => called,
        Err(_) => return Err(TraceFault::Memory),
    };
    let told = put_rows(cpu, read.steps, shown, &words, writer, Ok(()));
    match put_read(&words, &shown, called.as_slice(), read, writer, told) {
        Ok(()) => Ok(()),
        Err(WriteFault) => Err(TraceFault::Write),
    }
}

/// What an object tells of the call by which FILE's own code came to a read; nothing for a line.
fn called_in(alloc: Global, shown: &Shown<'_>, read: &Unwritten) -> Result<Vec<u8>, AllocError>
    ensures { IfOk result (λ called. shown.now.form ≡ Form.Json →
        called.items ≡ place_members (call_text shown.now.places read.now.call)) }
{
    match shown.form {
        Form::Text => Ok(Vec::new(alloc)),
        Form::Json => call_members(alloc, shown.places, read.call),
    }
}

/// Writes the row of a read.
fn put_read<W: Write>(
    words: &Words,
    shown: &Shown<'_>,
    called: &[u8],
    read: &Unwritten,
    writer: &mut Counted<W>,
    so_far: Result<(), WriteFault>,
) -> Result<(), WriteFault>
    requires words { shown.now.form ≡ Form.Json → members_at words.now.members.items read.now.slot
        ≡ place_members (text_of_slot shown.now.places read.now.slot) }
    requires called { shown.now.form ≡ Form.Json → called.now
        ≡ place_members (call_text shown.now.places read.now.call) }
    ensures { WritesAfter W.contents writer.old so_far writer.new result
        (row_text shown.now.form (Unread (text_of_slot shown.now.places read.now.slot)
        (call_text shown.now.places read.now.call) read.now)) }
{
    match shown.form {
        Form::Text => put_unwritten(writer, so_far, shown.places, read),
        Form::Json => {
            let slot = usize::from(read.slot);
            let members = text_of_slot(Some(words.members.as_slice()), slot);
            put_unwritten_object(writer, so_far, members, called, read)
        }
    }
}
