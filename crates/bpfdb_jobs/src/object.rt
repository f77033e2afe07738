//! What a job of `link` does.
ghost use Rattle.std.specs.Prelude.{◌≡◌, ◌≤◌, ℕ, List, false, true};
ghost use Rattle.std.specs.Borrow.{Bor};
ghost use Rattle.bpf_link.specs.Names.{fault_names};
ghost use Rattle.bpf_load.specs.Targets.{LinksTo};
ghost use Rattle.bpfdb_faults.specs.Streams.{Told, stream};
ghost use Rattle.bpfdb_jobs.specs.Endings.{EndsPrinted};
ghost use Rattle.bpfdb_faults.specs.Faults.{line_of};
ghost use Rattle.bpfdb_jobs.specs.Jobs.{answered_if, fields_if};
ghost use Rattle.bpfdb_jobs.specs.Refusals.{TellsFault, TellsTarget};
ghost use Rattle.bpfdb_faults.specs.declared.refusal.JobRefusal.{JobRefusal as WhyRefused};
ghost use Rattle.bpfdb_options.specs.declared.ask.Ask.TheVariants.{Link};
ghost use Rattle.bpfdb_jobs.specs.Streams.{between};

use crate::job::Job;
use crate::maps::tell_linked;
use crate::streams::Streams;
use bpf_link::{LinkFault, fault_names};
use bpf_load::{LinkedObject, ObjectFault, TargetFault, gathered, link_object};
use bpfdb_faults::{JobFault, JobRefusal, ended, give_up, told_as, write_out};
use counted_io::{Counted, WriteFault};
use std::alloc::Global;
use std::io::Write;

/// Writes the words that an object's code section is linked to, and tells the maps that the object
/// defines, their names, and how many calls are answered, and fields left, where that is asked for.
/// Where it is asked for the object that would be linked, writes that.
pub fn link_job<W: Write, E: Write>(
    alloc: Global,
    is_joined: bool,
    job: &Job<'_>,
    streams: &mut Streams<W, E>,
) -> u8
    ensures does { EndsPrinted (Link is_joined) job.now
        (between W.contents E.contents streams.old streams.new) result }
    ensures status { result ≤ 2 }
{
    if is_joined {
        return put_object(alloc, job, streams);
    }
    match link_object(alloc, job.file, &job.target) {
        Ok(linked) => put_program(job, &linked, streams),
        Err(fault) => refuse_object(&fault, &mut streams.errors),
    }
}

/// Writes the object that would be linked.
fn put_object<W: Write, E: Write>(alloc: Global, job: &Job<'_>, streams: &mut Streams<W, E>) -> u8
    ensures does { EndsPrinted (Link true) job.now
        (between W.contents E.contents streams.old streams.new) result }
    ensures status { result ≤ 2 }
{
    match gathered(alloc, job.file, &job.target) {
        Ok(sources) => {
            let written = write_out(&mut streams.output, sources.object());
            ended(written, &mut streams.errors)
        }
        Err(fault) => refuse_object(&fault, &mut streams.errors),
    }
}

/// Writes the program to which the object is linked, and what is told of it.
fn put_program<W: Write, E: Write>(
    job: &Job<'_>,
    object: &LinkedObject,
    streams: &mut Streams<W, E>,
) -> u8
    requires { LinksTo job.now.target job.now.file.now object.now }
    ensures does { EndsPrinted (Link false) job.now
        (between W.contents E.contents streams.old streams.new) result }
    ensures status { result ≤ 2 }
{
    let linked = &object.program;
    let answered = answered_if(job, linked.answered);
    let fields = fields_if(object.fields());
    match write_out(&mut streams.output, linked.words.as_slice()) {
        Ok(()) => told_as(
            tell_linked(
                &mut streams.errors,
                object.sources.object(),
                linked.shapes.as_slice(),
                linked.names.as_slice(),
                answered,
                fields,
            ),
            0,
        ),
        Err(WriteFault) => give_up(&mut streams.errors, &JobFault::Output),
    }
}

/// Tells why no program is made of an object, and answers the exit status, 2.
#[inline(never)]
pub fn refuse_object<E: Write>(fault: &ObjectFault<'_>, errors: &mut Counted<E>) -> u8
    ensures value { result ≡ 2 }
    ensures told { (refusal : WhyRefused) × TellsFault fault.now.index fault.now refusal
        × Told (stream E.contents errors.old errors.new) (line_of (JobFault.Refused refusal)) }
{
    let name = fault.name();
    match fault.index {
        None => give_up(
            errors,
            &JobFault::Refused(JobRefusal::Object(fault.fault, name)),
        ),
        Some(index) => give_up(
            errors,
            &JobFault::Refused(JobRefusal::Functions(fault.fault, index, name)),
        ),
    }
}

/// Tells why no program is made of FILE, and answers the exit status, 2.
#[inline(never)]
pub fn refuse_target<E: Write>(fault: &TargetFault<'_>, errors: &mut Counted<E>) -> u8
    ensures value { result ≡ 2 }
    ensures told { (refusal : WhyRefused) × TellsTarget fault.now refusal
        × Told (stream E.contents errors.old errors.new) (line_of (JobFault.Refused refusal)) }
{
    match fault {
        TargetFault::Object(fault) => refuse_object(fault, errors),
        TargetFault::Maps(fault) => give_up(errors, &JobFault::Refused(JobRefusal::Maps(*fault))),
        TargetFault::Listing(fault) => {
            give_up(errors, &JobFault::Refused(JobRefusal::Listing(*fault)))
        }
        TargetFault::Program(fault) => {
            give_up(errors, &JobFault::Refused(JobRefusal::Load(*fault)))
        }
    }
}

/// Tells why what is asked isn't known of an object, and answers the exit status, 2.
#[inline(never)]
pub fn refuse<E: Write>(
    job: &Job<'_>,
    object: &[u8],
    errors: &mut Counted<E>,
    fault: LinkFault,
) -> u8
    ensures value { result ≡ 2 }
    ensures told { (name : Bor (List ℕ))
        × (name.now ≡ fault_names object.now job.now.target.section.now fault)
        × Told (stream E.contents errors.old errors.new)
        (line_of (JobFault.Refused (JobRefusal.Object fault name))) }
{
    let names = fault_names(object, job.target.section, &fault);
    let name = names.as_slice();
    give_up(errors, &JobFault::Refused(JobRefusal::Object(fault, name)))
}

/// How many calls are answered, if that is to be told.
fn answered_if(job: &Job<'_>, count: usize) -> Option<u64>
    ensures { result ≡ answered_if job.now.target.stubs count }
{
    match job.target.stubs {
        Some(_) => Some(count as u64),
        None => None,
    }
}

/// How many fields are left as compiled, if that is to be told: if there are some.
fn fields_if(count: u32) -> Option<u64>
    ensures { result ≡ fields_if count }
{
    if count == 0 {
        None
    } else {
        Some(u64::from(count))
    }
}
