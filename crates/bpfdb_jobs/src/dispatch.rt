//! The program without its command line and its files: a job, done.
ghost use Rattle.std.specs.Prelude.{◌≡◌, ◌≤◌, IfNone, IfSome, Some, false, true};
ghost use Rattle.bpf_load.specs.Targets.{Loads, lent};
ghost use Rattle.bpfdb_jobs.specs.Done.{DoesJob, DoesPlain};
ghost use Rattle.bpfdb_jobs.specs.Jobs.{IsKnown, tells_places};
ghost use Rattle.bpf_load.specs.declared.fault.ObjectFault.{ObjectFault as Fault};
ghost use Rattle.bpfdb_faults.specs.Faults.{line_of};
ghost use Rattle.bpfdb_faults.specs.declared.fault.JobFault.TheVariants.{Refused};
ghost use Rattle.bpfdb_faults.specs.declared.refusal.JobRefusal.{JobRefusal};
ghost use Rattle.bpf_load.specs.declared.loading.LinkedObject.{LinkedObject as Linked};
ghost use Rattle.bpfdb_jobs.specs.Objects.{ArePlaces, SaysLines, insists, is_check, lines_note};
ghost use Rattle.counted_io.specs.Writing.{Writes};
ghost use Rattle.bpfdb_jobs.specs.Refusals.{LacksPlaces, RefusesLoading, TellsFault};
ghost use Rattle.bpfdb_limits.specs.Limits.{IsLimit};
ghost use Rattle.bpfdb_faults.specs.Streams.{Told, stream};
ghost use Rattle.bpfdb_jobs.specs.Streams.{between};

use crate::batch::batch_job;
use crate::check::check_job;
use crate::conversation::conversation_job;
use crate::debug::debug_job;
use crate::diff::diff_job;
use crate::gdb::gdb_job;
use crate::job::Job;
use crate::known::{Known, Places, asked_place, is_check, is_memory, nowhere, places_of};
use crate::listing::{asm_job, disasm_job, lines_job};
use crate::load::load_job;
use crate::object::{link_job, refuse_object, refuse_target};
use crate::origin::origin_job;
use crate::run::run_job;
use crate::streams::Streams;
use crate::suite::test_job;
use crate::trace::trace_job;
use crate::whynot::whynot_job;
use bpf_link::LinkFault;
use bpf_load::{LinkedObject, Loaded, ObjectFault, load};
use bpfdb_faults::flush_after;
use bpfdb_options::Ask;
use counted_io::{Counted, WriteFault, put};
use std::alloc::Global;
use std::io::{Read, Write};

/// Does a job, and answers the exit status: 0; 1 where `run` or `trace` ends in a fault of the
/// program or at the limit of steps, where a test fails, where an answer of `origin` or `whynot` is
/// cut, and where the runs of `diff` part; 2 where the job is refused, where input or output fails, and where memory runs out.
///
/// Results, replies and answers go to standard output. A refusal, a fault or a limit is one line on
/// standard error, and so are the maps of an object that `link` links. The reader is read by `debug`,
/// `gdb` and `batch` alone.
pub fn tool<R: Read, W: Write, E: Write>(
    alloc: Global,
    job: &Job<'_>,
    reader: &mut Counted<R>,
    streams: &mut Streams<W, E>,
) -> u8
    requires limit { IsLimit job.now.options.limit }
    ensures does { DoesJob job.now.ask job.now (stream R.remaining reader.old reader.new)
        (between W.contents E.contents streams.old streams.new) result }
    ensures status { result ≤ 2 }
{
    if is_check(&job.ask) {
        loaded_tool(alloc, job, reader, streams)
    } else {
        file_tool(alloc, job, reader, streams)
    }
}

/// Does a job over a file that isn't checked as a program.
fn file_tool<R: Read, W: Write, E: Write>(
    alloc: Global,
    job: &Job<'_>,
    reader: &mut Counted<R>,
    streams: &mut Streams<W, E>,
) -> u8
    requires { is_check job.now.ask ≡ false }
    ensures does { DoesPlain job.now.ask job.now (stream R.remaining reader.old reader.new)
        (between W.contents E.contents streams.old streams.new) result }
    ensures status { result ≤ 2 }
{
    match &job.ask {
        Ask::Asm => asm_job(alloc, job, streams),
        Ask::Lines => lines_job(alloc, job, streams),
        Ask::Link { is_joined } => link_job(alloc, *is_joined, job, streams),
        Ask::Test(ask) => test_job(alloc, ask, job, streams),
        Ask::Batch => batch_job(alloc, job, reader, streams),
        _ => unreachable!(),
    }
}

/// Does a job over the program of FILE: loads it first, and then finds what is known of its slots.
fn loaded_tool<R: Read, W: Write, E: Write>(
    alloc: Global,
    job: &Job<'_>,
    reader: &mut Counted<R>,
    streams: &mut Streams<W, E>,
) -> u8
    requires limit { IsLimit job.now.options.limit }
    requires checks { is_check job.now.ask ≡ true }
    ensures does { DoesJob job.now.ask job.now (stream R.remaining reader.old reader.new)
        (between W.contents E.contents streams.old streams.new) result }
    ensures status { result ≤ 2 }
{
    let Some(loaded) = loaded_of(alloc, job, &mut streams.errors) else {
        return 2;
    };
    let places = match places_told(alloc, job, loaded.object.as_ref(), &mut streams.errors) {
        Some(places) => places,
        None => return 2,
    };
    program_tool(alloc, job, loaded, places.known(), reader, streams)
}

/// The program of FILE; none where it isn't loaded, which is told. What a refusal needs of the stack is
/// given back before the job is done.
#[inline(never)]
fn loaded_of<E: Write>(alloc: Global, job: &Job<'_>, errors: &mut Counted<E>) -> Option<Loaded>
    ensures some { IfSome result (λ loaded. Loads job.now.target job.now.file.now loaded
        × (errors.new ≡ errors.old)) }
    ensures none { IfNone result ((refusal : JobRefusal) × RefusesLoading job.now refusal
        × Told (stream E.contents errors.old errors.new) (line_of (Refused refusal))) }
{
    match load(alloc, job.file, &job.target) {
        Ok(loaded) => Some(loaded),
        Err(fault) => {
            let _status = refuse_target(&fault, errors);
            None
        }
    }
}

/// What is known of the slots of its program, which may come from an object; none where its lines aren't
/// known that the job asks about, or memory runs out for them, which is told.
#[inline(never)]
fn places_told<E: Write>(
    alloc: Global,
    job: &Job<'_>,
    object: Option<&LinkedObject>,
    errors: &mut Counted<E>,
) -> Option<Places>
    ensures some { IfSome result (λ places. ArePlaces job.now (lent object.entry) places
        × SaysLines job.now (lent object.entry) (stream E.contents errors.old errors.new)) }
    ensures none { IfNone result ((linked : Linked) × (it : Fault) × (refusal : JobRefusal)
        × (lent object.entry ≡ Some linked) × (insists job.now it.fault ≡ true)
        × LacksPlaces job.now linked it × TellsFault it.index it refusal
        × Told (stream E.contents errors.old errors.new) (line_of (Refused refusal))) }
{
    match object {
        Some(object) => places_in(alloc, job, object, errors),
        None => Some(nowhere()),
    }
}

/// What is known of the slots of a program that comes from an object.
fn places_in<E: Write>(
    alloc: Global,
    job: &Job<'_>,
    object: &LinkedObject,
    errors: &mut Counted<E>,
) -> Option<Places>
    ensures some { IfSome result (λ places. ArePlaces job.now (Some object.now) places
        × SaysLines job.now (Some object.now) (stream E.contents errors.old errors.new)) }
    ensures none { IfNone result ((it : Fault) × (refusal : JobRefusal) × (insists job.now it.fault ≡ true)
        × LacksPlaces job.now object.now it × TellsFault it.index it refusal
        × Told (stream E.contents errors.old errors.new) (line_of (Refused refusal))) }
{
    match places_of(alloc, job, object) {
        Ok(places) => Some(places),
        Err(fault) => without_lines(job, object, &fault, errors),
    }
}

/// What is known of the slots of a program whose lines can't be read: nothing, which is said; none where
/// the job asks about a place, or where memory ran out, which is refused.
fn without_lines<E: Write>(
    job: &Job<'_>,
    object: &LinkedObject,
    fault: &ObjectFault<'_>,
    errors: &mut Counted<E>,
) -> Option<Places>
    requires { (tells_places job.now.ask ≡ true) × LacksPlaces job.now object.now fault.now }
    ensures some { IfSome result (λ places. ArePlaces job.now (Some object.now) places
        × SaysLines job.now (Some object.now) (stream E.contents errors.old errors.new)) }
    ensures none { IfNone result ((refusal : JobRefusal) × (insists job.now fault.now.fault ≡ true)
        × TellsFault fault.now.index fault.now refusal
        × Told (stream E.contents errors.old errors.new) (line_of (Refused refusal))) }
{
    if insists(job, &fault.fault) {
        let _status = refuse_object(fault, errors);
        return None;
    }
    try_note(errors);
    Some(nowhere())
}

/// Whether a job isn't done where its lines can't be read for this fault.
fn insists(job: &Job<'_>, fault: &LinkFault) -> bool
    ensures { result ≡ insists job.now fault.now }
{
    match asked_place(&job.ask) {
        Some(_) => true,
        None => is_memory(fault),
    }
}

/// Says that lines aren't known, as far as that can be written.
fn try_note<E: Write>(errors: &mut Counted<E>)
    ensures { Told (stream E.contents errors.old errors.new) lines_note }
{
    match write_note(errors) {
        Ok(()) => {}
        Err(WriteFault) => {}
    }
}

/// Writes that, and flushes.
fn write_note<E: Write>(errors: &mut Counted<E>) -> Result<(), WriteFault>
    ensures { Writes E.contents errors.old errors.new result lines_note }
{
    let text = b"lines of C can't be read, and are left out: bpfdb lines says why\n";
    let written = put(errors, Ok(()), text);
    flush_after(errors, written)
}

/// Does a job over a program that was loaded.
fn program_tool<R: Read, W: Write, E: Write>(
    alloc: Global,
    job: &Job<'_>,
    loaded: Loaded,
    known: Known<'_>,
    reader: &mut Counted<R>,
    streams: &mut Streams<W, E>,
) -> u8
    requires checks { IsLimit job.now.options.limit × (is_check job.now.ask ≡ true) }
    requires loaded { Loads job.now.target job.now.file.now loaded }
    requires known { IsKnown job.now loaded.object known }
    ensures does { DoesPlain job.now.ask job.now (stream R.remaining reader.old reader.new)
        (between W.contents E.contents streams.old streams.new) result }
    ensures status { result ≤ 2 }
{
    match &job.ask {
        Ask::Run { is_strict } => run_job(alloc, job, *is_strict, loaded, known, streams),
        Ask::Trace(trace) => trace_job(alloc, trace, job, loaded, known, streams),
        Ask::Debug => {
            let program = loaded.program;
            debug_job(
                alloc,
                job,
                program,
                reader,
                &mut streams.output,
                &mut streams.errors,
            )
        },
        Ask::Conversation(ask) => conversation_job(
            alloc, *ask, job, loaded, known, reader, streams,
        ),
        Ask::Origin(origin) => origin_job(alloc, origin, job, loaded, known, streams),
        Ask::Whynot(why) => whynot_job(alloc, why, job, loaded, known, streams),
        Ask::Diff(diff) => diff_job(alloc, diff, job, loaded, known, streams),
        Ask::Gdb(registers) => gdb_job(alloc, *registers, job, loaded, known, reader, streams),
        Ask::Disasm => disasm_job(alloc, job, &loaded, streams),
        Ask::Check => check_job(job, &loaded, streams),
        Ask::Load => load_job(alloc, job, &loaded, streams),
        _ => unreachable!(),
    }
}
