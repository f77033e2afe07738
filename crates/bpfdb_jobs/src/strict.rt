//! Strict runs: a machine, and the first step of its run that would read the stack where nothing was
//! written.
ghost use Rattle.std.specs.Prelude.{◌≡◌, IfErr, IfOk, option_map};
ghost use Rattle.bpf_trace.specs.UnwrittenTexts.{unwritten_line};
ghost use Rattle.counted_io.specs.Writing.{Writes};
ghost use Rattle.bpfdb_jobs.specs.Conversations.{told_stop};
ghost use Rattle.bpfdb_jobs.specs.Jobs.{OpensMachine, unwritten_in};
ghost use Rattle.bpfdb_jobs.specs.Origins.{stop_line};
ghost use Rattle.bpfdb_jobs.specs.Refusals.{RefusesMachine};
ghost use Rattle.bpfdb_faults.specs.declared.refusal.JobRefusal.TheVariants.{Journal};
ghost use Rattle.bpf_ring.specs.declared.fault.JournalFault.TheVariants.{OutOfMemory};

use crate::job::Job;
use crate::opening::{machine_of, open_again};
use bpf_isa::Program;
use bpf_journal::JournalFault;
use bpf_machine::Cpu;
use bpf_questions::Stop;
use bpf_trace::{OwnCode, Unwritten, find_unwritten, put_unwritten};
use bpfdb_faults::{JobRefusal, flush_after};
use bpfdb_script::SlotTexts;
use counted_io::{Counted, WriteFault};
use std::alloc::Global;
use std::io::Write;

/// A machine before its first step, and where its run stops, if it is strict.
#[derive(Drop)]
pub struct Strict {
    pub cpu: Cpu,
    pub unwritten: Option<Unwritten>,
}

/// The machine of a program on the job's context before its first step. Of a strict run it is looked
/// for the read that stops it, by FILE's own code, and then the machine is opened again.
pub fn strict_machine(
    alloc: Global,
    job: &Job<'_>,
    is_strict: bool,
    own: OwnCode,
    program: Program,
) -> Result<Strict, JobRefusal<'static>>
    ensures ok { IfOk result (λ strict. OpensMachine job.now program strict.cpu
        × (strict.unwritten ≡ unwritten_in is_strict own job.now strict.cpu)) }
    ensures err { IfErr result (RefusesMachine job.now) }
{
    let mut cpu = match machine_of(alloc, job, program) {
        Ok(cpu) => cpu,
        Err(refusal) => return Err(refusal),
    };
    if !is_strict {
        return Ok(Strict {
            cpu,
            unwritten: None,
        });
    }
    let unwritten = find_unwritten(&mut cpu, own, job.options.limit);
    match open_again(alloc, &job.options, &mut cpu, job.context) {
        Ok(()) => Ok(Strict { cpu, unwritten }),
        Err(fault) => Err(JobRefusal::Open(fault)),
    }
}

/// The line of the read that stops a strict session, in memory, empty where there is none. It is refused
/// as a journal is.
pub fn stop_line(
    alloc: Global,
    places: SlotTexts<'_>,
    unwritten: Option<Unwritten>,
) -> Result<Vec<u8>, JobRefusal<'static>>
    ensures ok { IfOk result (λ text. text.items ≡ stop_line places.entry unwritten) }
    ensures err { IfErr result (λ refusal. refusal ≡ Journal OutOfMemory) }
{
    let Some(read) = unwritten else {
        return Ok(Vec::new(alloc));
    };
    let mut writer = Counted::new(Vec::new(alloc));
    match put_unwritten(&mut writer, Ok(()), places, &read) {
        Ok(()) => Ok(writer.into_inner()),
        Err(WriteFault) => Err(JobRefusal::Journal(JournalFault::OutOfMemory)),
    }
}

/// The stop of a strict session, with its line.
pub fn stop_of(unwritten: Option<Unwritten>, text: &[u8]) -> Option<Stop<'_>>
    ensures { told_stop result ≡ option_map (λ read. (read.steps, text.now)) unwritten }
{
    match unwritten {
        Some(read) => Some(Stop {
            steps: read.steps,
            text,
        }),
        None => None,
    }
}

/// Writes the line of a read of the stack where nothing was written to standard error, and flushes.
pub fn tell_unwritten<E: Write>(
    errors: &mut Counted<E>,
    places: SlotTexts<'_>,
    read: &Unwritten,
) -> Result<(), WriteFault>
    ensures { Writes E.contents errors.old errors.new result (unwritten_line places.entry read.now) }
{
    let written = put_unwritten(errors, Ok(()), places, read);
    flush_after(errors, written)
}
