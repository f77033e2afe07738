//! What a job of `test` does that shows a part of a test.
ghost use Rattle.std.specs.Prelude.{◌≡◌, ◌≢◌, ◌≤◌, ◌∷◌, [], IfErr, IfNone, IfOk, IfSome, length};
ghost use Rattle.bpfdb_jobs.specs.Shown.{EndsShown, HidesPart, Shows};
ghost use Rattle.bpfdb_jobs.specs.Suites.{AreTestsOf};
ghost use Rattle.bpfdb_options.specs.declared.test_part.TestPart.TheVariants.{Program};
ghost use Rattle.bpfdb_jobs.specs.Streams.{between};

use crate::job::Job;
use crate::streams::Streams;
use crate::suite::{asked_tests, refuse};
use bpf_suite::{Suite, Test, TestList, WordsFault};
use bpfdb_faults::{JobFault, JobRefusal, ended, give_up, write_out};
use bpfdb_options::{TestAsk, TestPart};
use counted_io::Counted;
use std::alloc::Global;
use std::io::Write;

/// Shows a part of the one test that is asked for.
pub fn show_job<W: Write, E: Write>(
    alloc: Global,
    ask: &TestAsk<'_>,
    job: &Job<'_>,
    part: TestPart,
    streams: &mut Streams<W, E>,
) -> u8
    ensures does { EndsShown part ask.now job.now (between W.contents E.contents streams.old streams.new) result }
    ensures status { result ≤ 2 }
{
    let suite = match Suite::read(alloc, job.file) {
        Ok(suite) => suite,
        Err(fault) => return refuse(&mut streams.errors, fault),
    };
    let tests = match suite.tests(alloc) {
        Ok(tests) => tests,
        Err(_) => return give_up(&mut streams.errors, &JobFault::Memory),
    };
    let asked = match asked_tests(ask.only, tests) {
        Ok(asked) => asked,
        Err(refusal) => return give_up(&mut streams.errors, &JobFault::Refused(refusal)),
    };
    match only_of(&asked) {
        Some(test) => show_test(alloc, ask, job, part, &test, streams),
        None => give_up(
            &mut streams.errors,
            &JobFault::Refused(JobRefusal::ManyTests),
        ),
    }
}

/// The only one of tests.
fn only_of<'b, 'a>(tests: &TestList<'b, 'a>) -> Option<Test<'b, 'a>>
    ensures one { IfSome result (λ test. tests.now ≡ test ∷ []) }
    ensures others { IfNone result (length tests.now ≢ 1) }
{
    if tests.len() == 1 {
        Some(tests.at(0))
    } else {
        None
    }
}

/// Shows a part of a test, the only one that a job asks for.
fn show_test<W: Write, E: Write>(
    alloc: Global,
    ask: &TestAsk<'_>,
    job: &Job<'_>,
    part: TestPart,
    test: &Test<'_, '_>,
    streams: &mut Streams<W, E>,
) -> u8
    requires { AreTestsOf ask.now job.now (test.now ∷ []) }
    ensures does { EndsShown part ask.now job.now (between W.contents E.contents streams.old streams.new) result }
    ensures status { result ≤ 2 }
{
    match bytes_of(alloc, part, test) {
        Ok(bytes) => {
            let written = write_out(&mut streams.output, bytes.as_slice());
            ended(written, &mut streams.errors)
        }
        Err(fault) => give_up(&mut streams.errors, &fault),
    }
}

/// The bytes of a part of a test.
fn bytes_of(
    alloc: Global,
    part: TestPart,
    test: &Test<'_, '_>,
) -> Result<Vec<u8>, JobFault<'static>>
    ensures ok { IfOk result (λ bytes. Shows part test.now bytes.items) }
    ensures err { IfErr result (HidesPart part test.now) }
{
    match part {
        TestPart::Program => words_of(alloc, test),
        TestPart::Context => match test.context(alloc) {
            Ok(bytes) => Ok(bytes),
            Err(_) => Err(JobFault::Memory),
        },
        TestPart::Options => match test.options_text(alloc) {
            Ok(text) => Ok(text),
            Err(_) => Err(JobFault::Memory),
        },
        TestPart::Script => match test.script_text(alloc) {
            Ok(script) => Ok(script),
            Err(_) => Err(JobFault::Memory),
        },
    }
}

/// The words of a test's program.
fn words_of(alloc: Global, test: &Test<'_, '_>) -> Result<Vec<u8>, JobFault<'static>>
    ensures ok { IfOk result (λ bytes. Shows Program test.now bytes.items) }
    ensures err { IfErr result (HidesPart Program test.now) }
{
    match test.words(alloc) {
        Ok(words) => Ok(words),
        Err(WordsFault::Listing(fault)) => Err(JobFault::Refused(JobRefusal::Listing(fault))),
        Err(WordsFault::Memory) => Err(JobFault::Memory),
    }
}
