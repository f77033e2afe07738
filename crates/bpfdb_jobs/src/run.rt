//! What a job of `run` does.
ghost use Rattle.std.specs.Prelude.{◌≡◌, ◌≤◌};
ghost use Rattle.bpf_load.specs.Targets.{Loads};
ghost use Rattle.bpf_session.specs.Plain.{plain_end};
ghost use Rattle.bpf_trace.specs.Traces.{told_end_line};
ghost use Rattle.bpfdb_jobs.specs.Endings.{EndsPrinted};
ghost use Rattle.bpfdb_jobs.specs.Jobs.{IsKnown};
ghost use Rattle.bpfdb_options.specs.declared.ask.Ask.TheVariants.{Run};
ghost use Rattle.bpfdb_faults.specs.Streams.{stream};
ghost use Rattle.bpfdb_jobs.specs.Streams.{between};
ghost use Rattle.counted_io.specs.Writing.{Writes};

use crate::job::Job;
use crate::known::Known;
use crate::result::write_result;
use crate::streams::Streams;
use crate::strict::{strict_machine, tell_unwritten};
use bpf_load::Loaded;
use bpf_machine::{Cpu, Status};
use bpf_session::run_plain;
use bpf_trace::put_told_end;
use bpfdb_faults::{JobFault, ended, flush_after, give_up, told_as};
use bpfdb_script::SlotTexts;
use counted_io::{Counted, WriteFault};
use std::alloc::Global;
use std::io::{Write, sink};

/// Runs the program to its end or to the limit, and writes what it came to. A fault of the program, the
/// limit, and where a strict run stops are told on standard error.
pub fn run_job<W: Write, E: Write>(
    alloc: Global,
    job: &Job<'_>,
    is_strict: bool,
    loaded: Loaded,
    known: Known<'_>,
    streams: &mut Streams<W, E>,
) -> u8
    requires loaded { Loads job.now.target job.now.file.now loaded }
    requires known { IsKnown job.now loaded.object known }
    ensures does { EndsPrinted (Run is_strict) job.now
        (between W.contents E.contents streams.old streams.new) result }
    ensures status { result ≤ 2 }
{
    let mut strict = match strict_machine(alloc, job, is_strict, known.own, loaded.program) {
        Ok(strict) => strict,
        Err(refusal) => return give_up(&mut streams.errors, &JobFault::Refused(refusal)),
    };
    let places = known.places;
    match strict.unwritten {
        Some(read) => return told_as(tell_unwritten(&mut streams.errors, places, &read), 1),
        None => {}
    }
    let limit = job.options.limit;
    run_quietly(&mut strict.cpu, limit);
    match strict.cpu.status() {
        Status::Exited => ended(
            write_result(&mut streams.output, &job.target, &strict.cpu),
            &mut streams.errors,
        ),
        Status::Faulted(_) => told_as(tell_end(&mut streams.errors, places, limit, &strict.cpu), 1),
        Status::Running => told_as(tell_end(&mut streams.errors, places, limit, &strict.cpu), 1),
    }
}

/// Writes where a run stopped that came to no result to standard error, and flushes.
fn tell_end<E: Write>(
    errors: &mut Counted<E>,
    places: SlotTexts<'_>,
    limit: u64,
    cpu: &Cpu,
) -> Result<(), WriteFault>
    ensures { Writes E.contents errors.old errors.new result (told_end_line places.entry limit cpu.now) }
{
    let written = put_told_end(errors, Ok(()), places, limit, cpu);
    flush_after(errors, written)
}

/// Runs a machine to its end or to the limit.
fn run_quietly(cpu: &mut Cpu, limit: u64)
    ensures { cpu.new ≡ plain_end limit cpu.old }
{
    let _ending = run_plain(cpu, limit, &mut Counted::new(sink()));
}
