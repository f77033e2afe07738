//! What a job of `test` does that tells what ran.
ghost use Rattle.std.specs.Prelude.{◌≤◌, IfOk};
ghost use Rattle.bpfdb_jobs.specs.Suites.{CoversTests, EndsCovered, EndsTold, EndsTraced};
ghost use Rattle.bpfdb_jobs.specs.Streams.{between};

use crate::job::Job;
use crate::streams::Streams;
use crate::suite::report_on;
use bpf_suite::{CoverForm, Suite};
use bpfdb_faults::{JobFault, give_up, write_out};
use bpfdb_options::TestAsk;
use counted_io::{Counted, WriteFault};
use std::alloc::{AllocError, Global};
use std::io::Write;

/// Reports on the tests of a file, or on those of a name, and tells behind it what ran.
pub fn cover_job<W: Write, E: Write>(
    alloc: Global,
    ask: &TestAsk<'_>,
    job: &Job<'_>,
    streams: &mut Streams<W, E>,
) -> u8
    ensures does { EndsCovered ask.now job.now (between W.contents E.contents streams.old streams.new) result }
    ensures status { result ≤ 2 }
{
    match report_on(alloc, ask, job, &mut streams.output) {
        Ok(reported) => tell_cover(alloc, ask, job, &CoverForm::Tables, reported, streams),
        Err(why) => give_up(&mut streams.errors, &why),
    }
}

/// Reports on the tests of a file, or on those of a name, on standard error, and writes what ran as a
/// tracefile.
pub fn tracefile_job<W: Write, E: Write>(
    alloc: Global,
    ask: &TestAsk<'_>,
    job: &Job<'_>,
    streams: &mut Streams<W, E>,
) -> u8
    ensures does { EndsTraced ask.now job.now (between W.contents E.contents streams.old streams.new) result }
    ensures status { result ≤ 2 }
{
    match report_on(alloc, ask, job, &mut streams.errors) {
        Ok(reported) => {
            let form = CoverForm::Tracefile(job.name.as_bytes());
            tell_cover(alloc, ask, job, &form, reported, streams)
        }
        Err(why) => give_up(&mut streams.errors, &why),
    }
}

/// Tells what ran of the programs of tests, which were reported on with this status.
fn tell_cover<W: Write, E: Write>(
    alloc: Global,
    ask: &TestAsk<'_>,
    job: &Job<'_>,
    form: &CoverForm<'_>,
    reported: u8,
    streams: &mut Streams<W, E>,
) -> u8
    requires { reported ≤ 2 }
    ensures does { EndsTold form.now ask.now job.now reported
        (between W.contents E.contents streams.old streams.new) result }
    ensures status { result ≤ 2 }
{
    let text = match cover_of(alloc, ask, job, form) {
        Ok(text) => text,
        Err(_) => return give_up(&mut streams.errors, &JobFault::Memory),
    };
    match write_out(&mut streams.output, text.as_slice()) {
        Ok(()) => reported,
        Err(WriteFault) => give_up(&mut streams.errors, &JobFault::Output),
    }
}

/// What ran of the programs of tests. (The file was read before: it has no fault.)
fn cover_of(
    alloc: Global,
    ask: &TestAsk<'_>,
    job: &Job<'_>,
    form: &CoverForm<'_>,
) -> Result<Vec<u8>, AllocError>
    ensures { IfOk result (λ text. CoversTests form.now ask.now job.now text.items) }
{
    match Suite::read(alloc, job.file) {
        Ok(suite) => suite.cover(alloc, ask.only, form),
        Err(_) => Err(AllocError),
    }
}
