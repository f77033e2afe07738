//! What is said of an object's program before its job: where the kernel would do otherwise.
ghost use Rattle.std.specs.Prelude.{◌≡◌};
ghost use Rattle.bpfdb.specs.Contents.{contents_in};
ghost use Rattle.bpfdb.specs.Notes.{SaysNotes, answers_unlike, count_line, fields_line, missing_line, notes_text, unlike_lines};
ghost use Rattle.bpfdb_faults.specs.Streams.{Told, stream};
ghost use Rattle.counted_io.specs.Writing.{Writes, WritesAfter};

use crate::job::Bytes;
use crate::linux::{Linux, links};
use bpf_load::{Notes, notes_of};
use bpfdb_cli::Plan;
use bpfdb_faults::flush_after;
use bpfdb_jobs::{Job, put_differences};
use bpfdb_options::Ask;
use counted_io::{Counted, Piece, WriteFault, put, put_all};
use std::alloc::Global;
use std::io::Write;

/// Says on standard error what there is to say of the program of an object, as far as it can be
/// written. Answers whether a helper that it calls answers otherwise than Linux's.
pub fn say_notes<E: Write>(
    alloc: Global,
    plan: &Plan<'_>,
    job: &Job<'_>,
    bytes: &Bytes<'_>,
    errors: &mut Counted<E>,
) -> bool
    ensures { SaysNotes plan.now job.now (contents_in bytes.now)
        (stream E.contents errors.old errors.new) result }
{
    if !links(&job.ask, job.target.kind) {
        return false;
    }
    let notes = notes_of(alloc, job.file, &job.target, job.library);
    let answered = answers_unlike(plan);
    try_notes(errors, answered, &job.ask, bytes.linux, &notes);
    notes.differs()
}

/// Writes notes, as far as they can be written.
fn try_notes<E: Write>(
    errors: &mut Counted<E>,
    answered: bool,
    ask: &Ask<'_>,
    linux: Linux,
    notes: &Notes<'_>,
)
    ensures { Told (stream E.contents errors.old errors.new) (notes_text answered ask.now linux notes.now) }
{
    match write_notes(errors, answered, ask, linux, notes) {
        Ok(()) => {}
        Err(WriteFault) => {}
    }
}

/// Writes notes, and flushes.
fn write_notes<E: Write>(
    errors: &mut Counted<E>,
    answered: bool,
    ask: &Ask<'_>,
    linux: Linux,
    notes: &Notes<'_>,
) -> Result<(), WriteFault>
    ensures { Writes E.contents errors.old errors.new result (notes_text answered ask.now linux notes.now) }
{
    let missed = put_missing(errors, Ok(()), linux);
    let counted = put_fields(errors, missed, ask, notes.fields);
    let told = put_unlike(errors, counted, answered, notes);
    flush_after(errors, told)
}

/// Writes that Linux's library isn't known, where it is needed.
fn put_missing<E: Write>(
    errors: &mut Counted<E>,
    so_far: Result<(), WriteFault>,
    linux: Linux,
) -> Result<(), WriteFault>
    ensures { WritesAfter E.contents errors.old so_far errors.new result (missing_line linux) }
{
    match linux {
        Linux::Missing => put(
            errors,
            so_far,
            b"no bpfdb-linux.o is found, which has Linux's helpers: BPFDB_LINUX=PATH names it\n",
        ),
        Linux::Joined => put(errors, so_far, b""),
        Linux::Unneeded => put(errors, so_far, b""),
    }
}

/// Writes how many fields stay as they were compiled, if some do; `link` tells that itself.
fn put_fields<E: Write>(
    errors: &mut Counted<E>,
    so_far: Result<(), WriteFault>,
    ask: &Ask<'_>,
    fields: u32,
) -> Result<(), WriteFault>
    ensures { WritesAfter E.contents errors.old so_far errors.new result (fields_line ask.now fields) }
{
    match ask {
        Ask::Link { .. } => put(errors, so_far, b""),
        _ => put_count(errors, so_far, fields),
    }
}

/// Writes how many fields stay as they were compiled, if some do.
fn put_count<E: Write>(
    errors: &mut Counted<E>,
    so_far: Result<(), WriteFault>,
    fields: u32,
) -> Result<(), WriteFault>
    ensures { WritesAfter E.contents errors.old so_far errors.new result (count_line fields) }
{
    if fields == 0 {
        return put(errors, so_far, b"");
    }
    let pieces = [
        Piece::Text(b"fields left as compiled: "),
        Piece::Decimal(u64::from(fields)),
        Piece::Text(b"\n"),
    ];
    put_all(errors, so_far, &pieces)
}

/// Whether an answer tells what is other than Linux's, which is then not said before it.
fn answers_unlike(plan: &Plan<'_>) -> bool
    ensures { result ≡ answers_unlike plan.now }
{
    match &plan.ask {
        Ask::Load => !plan.target.is_faithful,
        _ => false,
    }
}

/// Writes what is other than Linux's, unless an answer tells it.
fn put_unlike<E: Write>(
    errors: &mut Counted<E>,
    so_far: Result<(), WriteFault>,
    answered: bool,
    notes: &Notes<'_>,
) -> Result<(), WriteFault>
    ensures { WritesAfter E.contents errors.old so_far errors.new result (unlike_lines answered notes.now) }
{
    if answered {
        put(errors, so_far, b"")
    } else {
        put_differences(errors, so_far, notes)
    }
}
