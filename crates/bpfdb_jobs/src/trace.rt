//! What a job of `trace` does.
ghost use Rattle.std.specs.Prelude.{◌≡◌, ◌≤◌, IfErr, OnOk};
ghost use Rattle.bpf_load.specs.Targets.{Loads};
ghost use Rattle.bpf_session.specs.Plain.{plain_end};
ghost use Rattle.bpf_trace.specs.Rows.{trace_until};
ghost use Rattle.bpf_trace.specs.Profiles.{profile_text};
ghost use Rattle.bpf_trace.specs.Tellings.{Tells};
ghost use Rattle.bpfdb_faults.specs.Streams.{Told, stream};
ghost use Rattle.bpfdb_jobs.specs.Endings.{EndsPrinted};
ghost use Rattle.bpfdb_faults.specs.Faults.{line_of};
ghost use Rattle.bpfdb_jobs.specs.Jobs.{shown_of, status_of_end, steps_out, trace_out, IsKnown};
ghost use Rattle.bpfdb_jobs.specs.Tellings.{fault_of_told};
ghost use Rattle.bpfdb_options.specs.declared.ask.Ask.TheVariants.{Trace};
ghost use Rattle.bpfdb_jobs.specs.Streams.{between};

use crate::calls::write_called;
use crate::job::Job;
use crate::known::Known;
use crate::streams::Streams;
use crate::strict::strict_machine;
use bpf_load::Loaded;
use bpf_machine::{Cpu, Status};
use bpf_trace::{
    Form, Profile, Shown, TraceFault, Unwritten, put_profile, write_trace, write_trace_until,
};
use bpfdb_faults::{JobFault, give_up};
use bpfdb_options::TraceAsk;
use bpfdb_script::SlotTexts;
use counted_io::{Counted, WriteFault};
use std::alloc::Global;
use std::io::Write;

/// Runs the program to its end or to the limit, and tells each step that is shown, or with
/// `--profile` how often each instruction ran, or with `--calls` the calls that leave FILE's own code,
/// and where it ended.
pub fn trace_job<W: Write, E: Write>(
    alloc: Global,
    trace: &TraceAsk,
    job: &Job<'_>,
    loaded: Loaded,
    known: Known<'_>,
    streams: &mut Streams<W, E>,
) -> u8
    requires loaded { Loads job.now.target job.now.file.now loaded }
    requires known { IsKnown job.now loaded.object known }
    ensures does { EndsPrinted (Trace trace.now) job.now
        (between W.contents E.contents streams.old streams.new) result }
    ensures status { result ≤ 2 }
{
    let mut strict = match strict_machine(alloc, job, trace.is_strict, known.own, loaded.program) {
        Ok(strict) => strict,
        Err(refusal) => return give_up(&mut streams.errors, &JobFault::Refused(refusal)),
    };
    let shown = shown_steps(trace, known);
    match strict.unwritten {
        Some(read) => {
            let before = tell_until(alloc, shown, &mut strict.cpu, &read, &mut streams.output);
            end_of(before, 1, &mut streams.errors)
        }
        None => {
            let told = tell_run(
                alloc,
                trace,
                job,
                known,
                &mut strict.cpu,
                &mut streams.output,
            );
            end_of(told, status_of(strict.cpu.status()), &mut streams.errors)
        }
    }
}

/// The exit status of a run that was told, or not: this one where it was.
fn end_of<E: Write>(told: Result<(), TraceFault>, status: u8, errors: &mut Counted<E>) -> u8
    requires { status ≤ 2 }
    ensures ok { OnOk told ((errors.new ≡ errors.old) × (result ≡ status)) }
    ensures err { IfErr told (λ why. Told (stream E.contents errors.old errors.new)
        (line_of (fault_of_told why)) × (result ≡ 2)) }
    ensures status { result ≤ 2 }
{
    match told {
        Ok(()) => status,
        Err(TraceFault::Memory) => give_up(errors, &JobFault::Memory),
        Err(TraceFault::Write) => give_up(errors, &JobFault::Output),
    }
}

/// The exit status of a run that ended so.
fn status_of(status: Status) -> u8
    ensures value { result ≡ status_of_end status }
    ensures status { result ≤ 1 }
{
    match status {
        Status::Exited => 0,
        Status::Running => 1,
        Status::Faulted(_) => 1,
    }
}

/// Writes the steps before a read that stops a strict run, and the read, and flushes.
fn tell_until<W: Write>(
    alloc: Global,
    shown: Shown<'_>,
    cpu: &mut Cpu,
    read: &Unwritten,
    writer: &mut Counted<W>,
) -> Result<(), TraceFault>
    ensures { Tells W.contents writer.old writer.new result
        (trace_until read.now shown.entry cpu.old) }
{
    match write_trace_until(alloc, cpu, read, shown, writer) {
        Ok(()) => {}
        Err(fault) => return Err(fault),
    }
    match writer.flush() {
        Ok(()) => Ok(()),
        Err(_) => Err(TraceFault::Write),
    }
}

/// The steps that are shown.
fn shown_steps<'a>(trace: &TraceAsk, known: Known<'a>) -> Shown<'a>
    ensures { result ≡ shown_of trace.now known.entry }
{
    Shown {
        from: trace.from,
        count: trace.count,
        only_branches: trace.only_branches,
        places: known.places,
        form: if trace.is_json {
            Form::Json
        } else {
            Form::Text
        },
    }
}

/// Writes what is told of a run, and flushes.
fn tell_run<W: Write>(
    alloc: Global,
    trace: &TraceAsk,
    job: &Job<'_>,
    known: Known<'_>,
    cpu: &mut Cpu,
    writer: &mut Counted<W>,
) -> Result<(), TraceFault>
    ensures told { Tells W.contents writer.old writer.new result (trace_out trace.now job.now known.entry cpu.old) }
    ensures next { OnOk result (cpu.new ≡ plain_end job.now.options.limit cpu.old) }
{
    match write_run(alloc, trace, job, known, cpu, writer) {
        Ok(()) => {}
        Err(fault) => return Err(fault),
    }
    match writer.flush() {
        Ok(()) => Ok(()),
        Err(_) => Err(TraceFault::Write),
    }
}

/// Writes what is told of a run: its calls, its profile or its steps.
fn write_run<W: Write>(
    alloc: Global,
    trace: &TraceAsk,
    job: &Job<'_>,
    known: Known<'_>,
    cpu: &mut Cpu,
    writer: &mut Counted<W>,
) -> Result<(), TraceFault>
    ensures told { Tells W.contents writer.old writer.new result (trace_out trace.now job.now known.entry cpu.old) }
    ensures next { OnOk result (cpu.new ≡ plain_end job.now.options.limit cpu.old) }
{
    if trace.is_calls {
        write_called(job.options.limit, known, cpu, writer)
    } else {
        write_steps(alloc, trace, job, shown_steps(trace, known), cpu, writer)
    }
}

/// Writes what is told of a run: its steps or its profile. All memory is taken before the first of them.
fn write_steps<W: Write>(
    alloc: Global,
    trace: &TraceAsk,
    job: &Job<'_>,
    shown: Shown<'_>,
    cpu: &mut Cpu,
    writer: &mut Counted<W>,
) -> Result<(), TraceFault>
    ensures told { Tells W.contents writer.old writer.new result (steps_out trace.now job.now shown.entry cpu.old) }
    ensures next { OnOk result (cpu.new ≡ plain_end job.now.options.limit cpu.old) }
{
    if trace.is_profile {
        write_profile(alloc, job.options.limit, shown.places, cpu, writer)
    } else {
        write_trace(alloc, cpu, job.options.limit, shown, writer)
    }
}

/// Writes how often each instruction ran.
fn write_profile<W: Write>(
    alloc: Global,
    limit: u64,
    places: SlotTexts<'_>,
    cpu: &mut Cpu,
    writer: &mut Counted<W>,
) -> Result<(), TraceFault>
    ensures told { Tells W.contents writer.old writer.new result
        (profile_text places.entry limit cpu.old) }
    ensures next { OnOk result (cpu.new ≡ plain_end limit cpu.old) }
{
    let profile = match Profile::run(alloc, cpu, limit) {
        Ok(profile) => profile,
        Err(_) => return Err(TraceFault::Memory),
    };
    match put_profile(writer, Ok(()), places, &profile, limit, cpu) {
        Ok(()) => Ok(()),
        Err(WriteFault) => Err(TraceFault::Write),
    }
}
