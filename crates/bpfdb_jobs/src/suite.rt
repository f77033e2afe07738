//! What a job of `test` does.
ghost use Rattle.std.specs.Prelude.{◌≡◌, ◌≤◌, IfErr, IfOk, List, length};
ghost use Rattle.bpf_suite.specs.Outcomes.{Outcome};
ghost use Rattle.bpf_suite.specs.Reports.{AreOutcomes, BreaksOff, all_pass, plan};
ghost use Rattle.bpfdb_faults.specs.Streams.{Told, stream};
ghost use Rattle.bpfdb_faults.specs.Faults.{line_of};
ghost use Rattle.bpfdb_jobs.specs.Refusals.{LacksName};
ghost use Rattle.bpfdb_jobs.specs.Shown.{EndsTest};
ghost use Rattle.bpfdb_jobs.specs.Suites.{AreAsked, EndsRun, EndsTests, Reports, fault_of_file, fault_of_suite, report, status_of};
ghost use Rattle.counted_io.specs.Writing.{Writes};
ghost use Rattle.bpfdb_jobs.specs.Streams.{between};

use crate::cover::{cover_job, tracefile_job};
use crate::job::Job;
use crate::show::show_job;
use crate::streams::Streams;
use bpf_suite::{FileFault, Suite, SuiteFault, TestList, choose, run_tests, write_plan};
use bpfdb_faults::{JobFault, JobRefusal, give_up};
use bpfdb_options::TestAsk;
use counted_io::{Counted, WriteFault};
use std::alloc::Global;
use std::io::Write;

/// Runs the tests of a file, or those of a name, and reports on each, or shows a part of one.
pub fn test_job<W: Write, E: Write>(
    alloc: Global,
    ask: &TestAsk<'_>,
    job: &Job<'_>,
    streams: &mut Streams<W, E>,
) -> u8
    ensures does { EndsTest ask.now.show ask.now job.now
        (between W.contents E.contents streams.old streams.new) result }
    ensures status { result ≤ 2 }
{
    match ask.show {
        None => run_job(alloc, ask, job, streams),
        Some(part) => show_job(alloc, ask, job, part, streams),
    }
}

/// Runs the tests of a file, or those of a name, reports on each, and tells what ran of their
/// programs, if that is asked.
fn run_job<W: Write, E: Write>(
    alloc: Global,
    ask: &TestAsk<'_>,
    job: &Job<'_>,
    streams: &mut Streams<W, E>,
) -> u8
    ensures does { EndsRun ask.now.is_tracefile ask.now.covers ask.now job.now
        (between W.contents E.contents streams.old streams.new) result }
    ensures status { result ≤ 2 }
{
    if ask.is_tracefile {
        return tracefile_job(alloc, ask, job, streams);
    }
    if ask.covers {
        cover_job(alloc, ask, job, streams)
    } else {
        report_job(alloc, ask, job, streams)
    }
}

/// Runs the tests of a file, or those of a name, and reports on each.
fn report_job<W: Write, E: Write>(
    alloc: Global,
    ask: &TestAsk<'_>,
    job: &Job<'_>,
    streams: &mut Streams<W, E>,
) -> u8
    ensures does { EndsTests ask.now job.now
        (between W.contents E.contents streams.old streams.new) result }
    ensures status { result ≤ 2 }
{
    match report_on(alloc, ask, job, &mut streams.output) {
        Ok(reported) => reported,
        Err(why) => give_up(&mut streams.errors, &why),
    }
}

/// Runs the tests of a file, or those of a name, and writes the report on each. Answers the exit
/// status, or why there is no report on all.
pub fn report_on<'a, W: Write>(
    alloc: Global,
    ask: &TestAsk<'a>,
    job: &Job<'a>,
    writer: &mut Counted<W>,
) -> Result<u8, JobFault<'a>>
    ensures reports { Reports ask.now job.now (stream W.contents writer.old writer.new) result }
    ensures status { IfOk result (λ reported. reported ≤ 1) }
{
    let suite = match Suite::read(alloc, job.file) {
        Ok(suite) => suite,
        Err(fault) => return Err(fault_of_file(fault)),
    };
    let tests = match suite.tests(alloc) {
        Ok(tests) => tests,
        Err(_) => return Err(JobFault::Memory),
    };
    let asked = match asked_tests(ask.only, tests) {
        Ok(asked) => asked,
        Err(refusal) => return Err(JobFault::Refused(refusal)),
    };
    match run_suite(alloc, job.name.as_bytes(), &asked, writer) {
        Ok(passed) => Ok(status_of(passed)),
        Err(why) => Err(fault_of_suite(why)),
    }
}

/// The tests that are asked for, of all of a file.
pub fn asked_tests<'b, 'a, 'n>(
    only: Option<&'n str>,
    mut all: TestList<'b, 'a>,
) -> Result<TestList<'b, 'a>, JobRefusal<'n>>
    ensures asked { IfOk result (AreAsked only.entry all.entry) }
    ensures none { IfErr result (LacksName only.entry all.entry) }
{
    let Some(name) = only else {
        return Ok(all);
    };
    choose(&mut all, name.as_bytes());
    if all.is_empty() {
        Err(JobRefusal::NoTest(name))
    } else {
        Ok(all)
    }
}

/// The fault of a run of tests that breaks off.
fn fault_of_suite<'a>(why: SuiteFault) -> JobFault<'a>
    ensures { result ≡ fault_of_suite why }
{
    match why {
        SuiteFault::Memory => JobFault::Memory,
        SuiteFault::Write => JobFault::Output,
    }
}

/// The fault of a file of which no test is run.
fn fault_of_file<'a>(fault: FileFault) -> JobFault<'a>
    ensures { result ≡ fault_of_file fault }
{
    match fault {
        FileFault::Line(fault, line) => JobFault::Refused(JobRefusal::Tests(fault, line)),
        FileFault::Memory => JobFault::Memory,
    }
}

/// Tells why no test is run of a file. Answers the exit status, 2.
pub fn refuse<E: Write>(errors: &mut Counted<E>, fault: FileFault) -> u8
    ensures value { result ≡ 2 }
    ensures told { Told (stream E.contents errors.old errors.new) (line_of (fault_of_file fault)) }
{
    give_up(errors, &fault_of_file(fault))
}

/// The exit status by whether all tests passed.
fn status_of(passed: bool) -> u8
    ensures value { result ≡ status_of passed }
    ensures status { result ≤ 1 }
{
    if passed { 0 } else { 1 }
}

/// Writes the report on tests of a file, and flushes. Answers whether all passed.
fn run_suite<W: Write>(
    alloc: Global,
    file: &[u8],
    tests: &TestList<'_, '_>,
    writer: &mut Counted<W>,
) -> Result<bool, SuiteFault>
    ensures ok { IfOk result (λ passed. (outcomes : List Outcome)
        × AreOutcomes tests.now outcomes
        × (passed ≡ all_pass tests.now outcomes)
        × Writes W.contents writer.old writer.new result (report file.now tests.now outcomes)) }
    ensures err { IfErr result (λ why.
        BreaksOff W.contents why writer.old writer.new (plan (length tests.now)) file.now 1
        tests.now) }
{
    let passed = match write_report(alloc, file, tests, writer) {
        Ok(passed) => passed,
        Err(fault) => return Err(fault),
    };
    match writer.flush() {
        Ok(()) => Ok(passed),
        Err(_) => Err(SuiteFault::Write),
    }
}

/// Writes how many tests there are, runs them, and reports on each. Answers whether all passed.
fn write_report<W: Write>(
    alloc: Global,
    file: &[u8],
    tests: &TestList<'_, '_>,
    writer: &mut Counted<W>,
) -> Result<bool, SuiteFault>
    ensures ok { IfOk result (λ passed. (outcomes : List Outcome)
        × AreOutcomes tests.now outcomes
        × (passed ≡ all_pass tests.now outcomes)
        × Writes W.contents writer.old writer.new result (report file.now tests.now outcomes)) }
    ensures err { IfErr result (λ why.
        BreaksOff W.contents why writer.old writer.new (plan (length tests.now)) file.now 1
        tests.now) }
{
    match write_plan(writer, tests.len()) {
        Ok(()) => {}
        Err(WriteFault) => return Err(SuiteFault::Write),
    }
    match run_tests(alloc, file, tests, 1, writer) {
        Ok(passed) => Ok(passed),
        Err(fault) => Err(fault),
    }
}
