//! What a job is done with: a machine with its journal, a session.
ghost use Rattle.std.specs.Prelude.{◌≡◌, IfErr, IfOk, OnOk, false};
ghost use Rattle.bpf_entries.specs.Status.{has_ended};
ghost use Rattle.bpf_isa.specs.Programs.{Checked};
ghost use Rattle.bpf_opening.specs.Lists.{or_bare};
ghost use Rattle.bpf_steps.specs.Opening.{Refused};
ghost use Rattle.bpfdb_jobs.specs.Jobs.{BeginsFor, OpensMachine, opening_asked};
ghost use Rattle.bpfdb_jobs.specs.Openings.{IsOpening, IsStart};
ghost use Rattle.bpfdb_jobs.specs.Refusals.{Refuses, RefusesMachine};
ghost use Rattle.bpfdb_faults.specs.declared.refusal.JobRefusal.TheVariants.{Journal};
ghost use Rattle.bpf_ring.specs.declared.fault.JournalFault.TheVariants.{OutOfMemory};
ghost use Rattle.bpfdb_limits.specs.Limits.{IsLimit};

use crate::job::Job;
use bpf_isa::Program;
use bpf_journal::{JournalFault, RingKeeper, Timeline};
use bpf_machine::{Cpu, OpenFault};
use bpf_opening::{BARE, Opening, asked_opening, open, reopen};
use bpf_origin::Wanted;
use bpf_session::Session;
use bpfdb_faults::JobRefusal;
use bpfdb_options::Options;
use std::alloc::Global;

/// A machine before its first step, on a program and the job's context, with what the job asks of its
/// opening.
pub fn machine_of(
    alloc: Global,
    job: &Job<'_>,
    program: Program,
) -> Result<Cpu, JobRefusal<'static>>
    ensures ok { IfOk result (OpensMachine job.now program) }
    ensures err { IfErr result (RefusesMachine job.now) }
{
    let opening = match asked_opening(job.options.regs) {
        Ok(opening) => opening,
        Err(fault) => return Err(JobRefusal::Opening(fault)),
    };
    match open(alloc, program, job.context, &opening) {
        Ok(cpu) => Ok(cpu),
        Err(fault) => Err(JobRefusal::Open(fault)),
    }
}

/// What is asked of an opening; nothing where that is refused.
pub fn opening_for(options: &Options<'_>) -> Opening
    ensures { result ≡ or_bare (opening_asked options.now) }
{
    match asked_opening(options.regs) {
        Ok(opening) => opening,
        Err(_) => BARE,
    }
}

/// Opens a machine again on its program and a context, with what is asked.
pub fn open_again(
    alloc: Global,
    options: &Options<'_>,
    cpu: &mut Cpu,
    context: &[u8],
) -> Result<(), OpenFault>
    ensures ok { OnOk result (BeginsFor options.now cpu.old.program context.now cpu.new) }
    ensures err { IfErr result (Refused context.now) }
{
    reopen(alloc, cpu, context, &opening_for(options))
}

/// A machine before its first step, with an empty journal.
pub fn timeline_over(
    alloc: Global,
    job: &Job<'_>,
    cpu: Cpu,
) -> Result<Timeline<RingKeeper>, JobRefusal<'static>>
    ensures ok { (program : Checked) → OpensMachine job.now program cpu →
        IfOk result (IsStart job.now program) }
    ensures runs { (program : Checked) → OpensMachine job.now program cpu →
        IfOk result (λ timeline. has_ended timeline.state.status ≡ false) }
    ensures err { (program : Checked) → OpensMachine job.now program cpu →
        IfErr result (Refuses job.now) }
{
    match RingKeeper::open(alloc, job.options.journal as usize) {
        Ok(keeper) => Ok(Timeline::start(cpu, keeper)),
        Err(fault) => Err(JobRefusal::Journal(fault)),
    }
}

/// A session before its first command.
pub fn session_of(
    alloc: Global,
    job: &Job<'_>,
    program: Program,
) -> Result<Session<RingKeeper>, JobRefusal<'static>>
    requires limit { IsLimit job.now.options.limit }
    ensures ok { IfOk result (IsOpening job.now program) }
    ensures err { IfErr result (Refuses job.now) }
{
    match machine_of(alloc, job, program) {
        Ok(cpu) => session_over(alloc, job, cpu),
        Err(refusal) => Err(refusal),
    }
}

/// A session before its first command, over the machine of a program before its first step.
pub fn session_over(
    alloc: Global,
    job: &Job<'_>,
    cpu: Cpu,
) -> Result<Session<RingKeeper>, JobRefusal<'static>>
    requires limit { IsLimit job.now.options.limit }
    ensures ok { (program : Checked) → OpensMachine job.now program cpu →
        IfOk result (IsOpening job.now program) }
    ensures err { (program : Checked) → OpensMachine job.now program cpu →
        IfErr result (Refuses job.now) }
{
    let size = job.options.journal as usize;
    let keeper = match RingKeeper::open(alloc, size) {
        Ok(keeper) => keeper,
        Err(fault) => return Err(JobRefusal::Journal(fault)),
    };
    let redo = match RingKeeper::open(alloc, size) {
        Ok(redo) => redo,
        Err(why) => return Err(JobRefusal::Journal(why)),
    };
    Ok(Session::open(cpu, keeper, redo, job.options.limit))
}

/// The memory in which it is told where a value came from. It is refused as a journal's is, on whose
/// moves that is told.
pub fn wanted_of(alloc: Global) -> Result<Wanted, JobRefusal<'static>>
    ensures { IfErr result (λ refusal. refusal ≡ Journal OutOfMemory) }
{
    match Wanted::new(alloc) {
        Ok(wanted) => Ok(wanted),
        Err(_) => Err(JobRefusal::Journal(JournalFault::OutOfMemory)),
    }
}
