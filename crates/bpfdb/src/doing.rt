//! What is done of a command line, over any files, reader and writers.
ghost use Rattle.std.specs.Prelude.{◌≡◌, ◌≤◌, Some};
ghost use Rattle.bpfdb.specs.Contents.{contents_in};
ghost use Rattle.bpfdb.specs.Done.{DoesFitting, DoesHinted, DoesNoted, DoesPlan, DoesRead, DoesReplaced, Helps};
ghost use Rattle.bpfdb.specs.Files.{world_of};
ghost use Rattle.bpfdb.specs.Jobs.{IsJobOf};
ghost use Rattle.bpfdb.specs.Telling.{DoesTold};
ghost use Rattle.bpfdb_jobs.specs.declared.job.Job.{Job};
ghost use Rattle.bpfdb_jobs.specs.Streams.{between};
ghost use Rattle.bpfdb_limits.specs.Limits.{IsLimit};
ghost use Rattle.counted_io.specs.Writing.{Writes};
ghost use Rattle.bpfdb_faults.specs.Streams.{stream};
ghost use Rattle.bpfdb.specs.Tests.{asks_tests};

use crate::contexts::{contexts_of, refuse_context, say_contexts, with_contexts};
use crate::files::read_all;
use crate::host::Host;
use crate::job::{Bytes, job_of};
use crate::kind::misfit_of;
use crate::notes::say_notes;
use crate::telling::{Telling, retold_tool, telling_of};
use crate::tests::{asks_tests, lent, library_of, place_of, refuse_tests};
use bpfdb_cli::Plan;
use bpfdb_faults::{JobFault, JobRefusal, KindFault, give_up};
use bpfdb_files::Opener;
use bpfdb_jobs::{Job, Streams, add_hint, tool};
use bpfdb_options::TestAsk;
use clap::Error;
use counted_io::{Counted, WriteFault, write_text};
use std::alloc::Global;
use std::io::{Read, Write};
use suite_files::replaced;

/// Reads the files of a plan; then does its job. Where standard error is a terminal, the job's hint
/// follows, if there is one. Answers the exit status.
#[inline(never)]
pub fn do_plan<'a, F: Opener, R: Read, W: Write, E: Write>(
    alloc: Global,
    host: &Host<'a, F>,
    plan: &Plan<'a>,
    reader: &mut Counted<R>,
    streams: &mut Streams<W, E>,
) -> u8
    requires limit { IsLimit plan.now.options.limit }
    ensures does { DoesPlan (world_of F.bytes_at host.now) plan.now
        (stream R.remaining reader.old reader.new) (between W.contents E.contents streams.old streams.new) result }
    ensures status { result ≤ 2 }
{
    match read_all(alloc, host, plan) {
        Ok(read) => do_read(alloc, host, plan, &read.bytes(), reader, streams),
        Err(fault) => give_up(&mut streams.errors, &fault),
    }
}

/// Does a plan with what was read of its files: on the contexts that they hold, of which is said what
/// there is to say.
fn do_read<F: Opener, R: Read, W: Write, E: Write>(
    alloc: Global,
    host: &Host<'_, F>,
    plan: &Plan<'_>,
    bytes: &Bytes<'_>,
    reader: &mut Counted<R>,
    streams: &mut Streams<W, E>,
) -> u8
    requires limit { IsLimit plan.now.options.limit }
    ensures does { DoesRead (world_of F.bytes_at host.now) plan.now (contents_in bytes.now)
        (stream R.remaining reader.old reader.new) (between W.contents E.contents streams.old streams.new) result }
    ensures status { result ≤ 2 }
{
    let contexts = match contexts_of(alloc, plan, bytes) {
        Ok(contexts) => contexts,
        Err(fault) => return refuse_context(&fault, &mut streams.errors),
    };
    say_contexts(&contexts, &mut streams.errors);
    let bytes = with_contexts(bytes, &contexts);
    do_replaced(alloc, host, plan, &bytes, reader, streams)
}

/// Does a plan with the bytes of its files: over FILE, or over the file of tests in which what
/// sections name is put in their place.
fn do_replaced<F: Opener, R: Read, W: Write, E: Write>(
    alloc: Global,
    host: &Host<'_, F>,
    plan: &Plan<'_>,
    bytes: &Bytes<'_>,
    reader: &mut Counted<R>,
    streams: &mut Streams<W, E>,
) -> u8
    requires limit { IsLimit plan.now.options.limit }
    ensures does { DoesReplaced (world_of F.bytes_at host.now) plan.now (contents_in bytes.now)
        (stream R.remaining reader.old reader.new) (between W.contents E.contents streams.old streams.new) result }
    ensures status { result ≤ 2 }
{
    match asks_tests(&plan.ask) {
        Some(ask) => do_tests(alloc, host, plan, &ask, bytes, reader, streams),
        None => do_job(alloc, plan, bytes, host.at_terminal, reader, streams),
    }
}

/// Does a plan of tests over the file in which what sections name is put in their place. What that
/// needs of the stack other plans don't need.
#[inline(never)]
fn do_tests<F: Opener, R: Read, W: Write, E: Write>(
    alloc: Global,
    host: &Host<'_, F>,
    plan: &Plan<'_>,
    ask: &TestAsk<'_>,
    bytes: &Bytes<'_>,
    reader: &mut Counted<R>,
    streams: &mut Streams<W, E>,
) -> u8
    requires limit { IsLimit plan.now.options.limit }
    requires tests { asks_tests plan.now.ask ≡ Some ask.now }
    ensures does { DoesReplaced (world_of F.bytes_at host.now) plan.now (contents_in bytes.now)
        (stream R.remaining reader.old reader.new) (between W.contents E.contents streams.old streams.new) result }
    ensures status { result ≤ 2 }
{
    let library = library_of(alloc, host);
    let place = place_of(plan.file, ask, lent(&library));
    let tests = match replaced(alloc, host.files, &place, bytes.file) {
        Ok(tests) => tests,
        Err(fault) => return refuse_tests(&fault, &mut streams.errors),
    };
    let tested = Bytes {
        file: tests.as_slice(),
        ..*bytes
    };
    do_job(alloc, plan, &tested, host.at_terminal, reader, streams)
}

/// Does the job of a plan, with the bytes of its files.
fn do_job<R: Read, W: Write, E: Write>(
    alloc: Global,
    plan: &Plan<'_>,
    bytes: &Bytes<'_>,
    at_terminal: bool,
    reader: &mut Counted<R>,
    streams: &mut Streams<W, E>,
) -> u8
    requires limit { IsLimit plan.now.options.limit }
    ensures does { (job : Job) × IsJobOf plan.now (contents_in bytes.now) job
        × DoesFitting at_terminal plan.now (contents_in bytes.now) job
        (stream R.remaining reader.old reader.new) (between W.contents E.contents streams.old streams.new) result }
    ensures status { result ≤ 2 }
{
    let job = job_of(alloc, plan, bytes);
    match misfit_of(&job) {
        Some(why) => give_up(
            &mut streams.errors,
            &JobFault::Refused(JobRefusal::Kind(why)),
        ),
        None => noted_tool(alloc, plan, bytes, &job, at_terminal, reader, streams),
    }
}

/// Says what there is to say of a job's program; then does the job, unless something of that was asked
/// not to be so.
fn noted_tool<R: Read, W: Write, E: Write>(
    alloc: Global,
    plan: &Plan<'_>,
    bytes: &Bytes<'_>,
    job: &Job<'_>,
    at_terminal: bool,
    reader: &mut Counted<R>,
    streams: &mut Streams<W, E>,
) -> u8
    requires limit { IsLimit job.now.options.limit }
    ensures does { DoesNoted at_terminal plan.now (contents_in bytes.now) job.now
        (stream R.remaining reader.old reader.new) (between W.contents E.contents streams.old streams.new) result }
    ensures status { result ≤ 2 }
{
    let unlike = say_notes(alloc, plan, job, bytes, &mut streams.errors);
    if plan.target.is_faithful && unlike {
        let why = JobRefusal::Kind(KindFault::Unfaithful);
        give_up(&mut streams.errors, &JobFault::Refused(why))
    } else {
        hinted_tool(alloc, telling_of(plan), job, at_terminal, reader, streams)
    }
}

/// Does a job, and adds its hint.
fn hinted_tool<R: Read, W: Write, E: Write>(
    alloc: Global,
    telling: Option<Telling>,
    job: &Job<'_>,
    at_terminal: bool,
    reader: &mut Counted<R>,
    streams: &mut Streams<W, E>,
) -> u8
    requires limit { IsLimit job.now.options.limit }
    ensures does { DoesHinted at_terminal telling job.now (stream R.remaining reader.old reader.new)
        (between W.contents E.contents streams.old streams.new) result }
    ensures status { result ≤ 2 }
{
    let status = told_tool(alloc, telling, job, reader, streams);
    add_hint(alloc, job, at_terminal, status, &mut streams.errors);
    status
}

/// Does a job, as it is or told in another form.
fn told_tool<R: Read, W: Write, E: Write>(
    alloc: Global,
    telling: Option<Telling>,
    job: &Job<'_>,
    reader: &mut Counted<R>,
    streams: &mut Streams<W, E>,
) -> u8
    requires limit { IsLimit job.now.options.limit }
    ensures does { DoesTold telling job.now (stream R.remaining reader.old reader.new)
        (between W.contents E.contents streams.old streams.new) result }
    ensures status { result ≤ 2 }
{
    match telling {
        Some(telling) => retold_tool(alloc, telling, job, reader, streams),
        None => tool(alloc, job, reader, streams),
    }
}

/// Writes help, in `clap`'s words. Answers the exit status: 0, or 2 where that fails or memory runs
/// out.
pub fn show_help<W: Write, E: Write>(
    alloc: Global,
    text: &Error,
    writer: &mut Counted<W>,
    errors: &mut Counted<E>,
) -> u8
    ensures helps { Helps (stream W.contents writer.old writer.new)
        (stream E.contents errors.old errors.new) result }
    ensures status { result ≤ 2 }
{
    let Ok(text) = format!(in alloc; "{text}") else {
        return give_up(errors, &JobFault::Memory);
    };
    match write_help(text.as_str(), writer) {
        Ok(()) => 0,
        Err(WriteFault) => give_up(errors, &JobFault::Output),
    }
}

/// Writes a text, and flushes.
fn write_help<W: Write>(text: &str, writer: &mut Counted<W>) -> Result<(), WriteFault>
    ensures { Writes W.contents writer.old writer.new result text.now }
{
    match write_text(writer, text.as_bytes()) {
        Ok(()) => {}
        Err(fault) => return Err(fault),
    }
    match writer.flush() {
        Ok(()) => Ok(()),
        Err(_) => Err(WriteFault),
    }
}
