//! What a job of `diff` does whose other side is the trace of another machine.
ghost use Rattle.std.specs.Prelude.{◌≡◌, ◌≤◌, true};
ghost use Rattle.bpf_load.specs.Targets.{Loads};
ghost use Rattle.bpfdb_jobs.specs.Endings.{EndsPrinted};
ghost use Rattle.bpfdb_options.specs.Asks.{is_trace};
ghost use Rattle.bpfdb_options.specs.declared.ask.Ask.TheVariants.{Diff};
ghost use Rattle.bpfdb_jobs.specs.Streams.{between};

use crate::diff::{bytes_of, end_of};
use crate::job::Job;
use crate::opening::machine_of;
use crate::streams::Streams;
use bpf_diff::put_against;
use bpf_load::Loaded;
use bpfdb_faults::{JobFault, JobRefusal, flush_after, give_up};
use bpfdb_options::DiffAsk;
use counted_io::Counted;
use input_texts::form_of_trace;
use std::alloc::Global;
use std::io::Write;

/// Runs a program along a trace, and tells the first step that it tells otherwise.
pub fn against_job<W: Write, E: Write>(
    alloc: Global,
    diff: &DiffAsk,
    job: &Job<'_>,
    loaded: Loaded,
    streams: &mut Streams<W, E>,
) -> u8
    requires trace { is_trace diff.now.other ≡ true }
    requires loaded { Loads job.now.target job.now.file.now loaded }
    ensures does { EndsPrinted (Diff diff.now) job.now
        (between W.contents E.contents streams.old streams.new) result }
    ensures status { result ≤ 2 }
{
    let mut cpu = match machine_of(alloc, job, loaded.program) {
        Ok(cpu) => cpu,
        Err(refusal) => return give_up(&mut streams.errors, &JobFault::Refused(refusal)),
    };
    let file = bytes_of(job);
    let form = match form_of_trace(file) {
        Ok(form) => form,
        Err(bad) => {
            let refusal = JobRefusal::TraceLine(bad.fault, bad.line);
            return give_up(&mut streams.errors, &JobFault::Refused(refusal));
        }
    };
    let limit = job.options.limit;
    match put_against(
        alloc,
        &mut streams.output,
        Ok(()),
        &mut cpu,
        form,
        file,
        limit,
    ) {
        Ok(against) => {
            let written = flush_after(&mut streams.output, against.written);
            end_of(written, against.tells_run, &mut streams.errors)
        }
        Err(_) => give_up(&mut streams.errors, &JobFault::Memory),
    }
}
