//! What a job prints, told in another form: as objects of JSON, or as a graph.
ghost use Rattle.std.specs.Prelude.{◌≡◌, ◌≤◌, IfOk};
ghost use Rattle.bpfdb.specs.Telling.{EndsRetold, Retells, answer_for, told_in, telling_of};
ghost use Rattle.bpfdb_faults.specs.Streams.{stream};
ghost use Rattle.bpfdb_jobs.specs.Streams.{between};
ghost use Rattle.bpfdb_limits.specs.Limits.{IsLimit};

use answer_forms::{Answer, dot_of, json_of};
use bpfdb_cli::{Form, Plan};
use bpfdb_faults::{JobFault, give_up, told_as, write_out};
use bpfdb_jobs::{Job, Streams, tool};
use bpfdb_options::Ask;
use counted_io::{Counted, WriteFault};
use std::alloc::{AllocError, Global};
use std::io::{Read, Write};

/// A form in which what a job prints is told.
#[derive(Clone, Copy)]
pub enum Telling {
    /// Objects of JSON, by what was asked.
    Json(Answer),
    /// A graph.
    Graph,
}

/// The form in which what a plan's job prints is told, if it isn't told as it is.
pub fn telling_of(plan: &Plan<'_>) -> Option<Telling>
    ensures { result ≡ telling_of plan.now }
{
    match plan.form {
        Form::Lines => None,
        Form::Json => match answer_for(&plan.ask) {
            Some(answer) => Some(Telling::Json(answer)),
            None => None,
        },
        Form::Dot => Some(Telling::Graph),
    }
}

/// A text in a form.
fn told_in(alloc: Global, telling: Telling, text: &[u8]) -> Result<Vec<u8>, AllocError>
    ensures { IfOk result (λ told. told.items ≡ told_in telling text.now) }
{
    match telling {
        Telling::Json(answer) => json_of(alloc, answer, text),
        Telling::Graph => dot_of(alloc, text),
    }
}

/// What is printed, by what is asked; none where the job prints objects itself.
fn answer_for(ask: &Ask<'_>) -> Option<Answer>
    ensures { result ≡ answer_for ask.now }
{
    match ask {
        Ask::Run { .. } => Some(Answer::Value),
        Ask::Trace(trace) => {
            if trace.is_profile {
                Some(Answer::Profile)
            } else if trace.is_calls {
                Some(Answer::Calls)
            } else {
                None
            }
        }
        Ask::Conversation(_) => None,
        Ask::Lines => Some(Answer::Lines),
        Ask::Load => Some(Answer::Program),
        Ask::Disasm => Some(Answer::Listing),
        Ask::Check => Some(Answer::Check),
        Ask::Test(_) => Some(Answer::Report),
        _ => Some(Answer::Run),
    }
}

/// Does a job over writers in memory, and then writes what it told: what it printed in a form. Where
/// memory runs out for that, nothing is written.
pub fn retold_tool<R: Read, W: Write, E: Write>(
    alloc: Global,
    telling: Telling,
    job: &Job<'_>,
    reader: &mut Counted<R>,
    streams: &mut Streams<W, E>,
) -> u8
    requires limit { IsLimit job.now.options.limit }
    ensures does { Retells telling job.now (stream R.remaining reader.old reader.new)
        (between W.contents E.contents streams.old streams.new) result }
    ensures status { result ≤ 2 }
{
    let mut memory = Streams {
        output: Counted::new(Vec::new(alloc)),
        errors: Counted::new(Vec::new(alloc)),
    };
    let status = tool(alloc, job, reader, &mut memory);
    if memory.output.failures() > 0 || memory.errors.failures() > 0 {
        return give_up(&mut streams.errors, &JobFault::Memory);
    }
    let out = memory.output.into_inner();
    let told = memory.errors.into_inner();
    let Ok(text) = told_in(alloc, telling, out.as_slice()) else {
        return give_up(&mut streams.errors, &JobFault::Memory);
    };
    write_told(text.as_slice(), told.as_slice(), status, streams)
}

/// Writes an output, and then what was told on standard error. Answers the exit status.
fn write_told<W: Write, E: Write>(
    output: &[u8],
    told: &[u8],
    status: u8,
    streams: &mut Streams<W, E>,
) -> u8
    ensures ends { EndsRetold output.now told.now status
        (between W.contents E.contents streams.old streams.new) result }
    ensures status { status ≤ 2 → result ≤ 2 }
{
    match write_out(&mut streams.output, output) {
        Ok(()) => told_as(write_out(&mut streams.errors, told), status),
        Err(WriteFault) => give_up(&mut streams.errors, &JobFault::Output),
    }
}
