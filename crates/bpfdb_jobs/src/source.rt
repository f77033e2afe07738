//! Where the values came from in which two runs differ.
ghost use Rattle.std.specs.Prelude.{◌≡◌, IfErr, IfOk, [], false, is_some, option_map, true};
ghost use Rattle.bpf_diff.specs.Values.{pair_of, value_of};
ghost use Rattle.bpf_entries.specs.Status.{has_ended};
ghost use Rattle.bpf_ring.specs.Opening.{RefusesSize};
ghost use Rattle.bpf_session.specs.Plain.{RunsKept};
ghost use Rattle.bpfdb_jobs.specs.Jobs.{begun_for};
ghost use Rattle.bpfdb_jobs.specs.Openings.{AreSources, HasRun};
ghost use Rattle.bpfdb_jobs.specs.Sources as spec;

use crate::job::Job;
use crate::opening::open_again;
use crate::origin::{Around, Arrived, put_told, question_of};
use bpf_diff::Values;
use bpf_journal::{JournalFault, RingKeeper, Timeline};
use bpf_lines::Names;
use bpf_machine::{Cpu, Fault, Status};
use bpf_origin::{Parts, Wanted, asked};
use bpf_session::run_kept;
use bpfdb_options::{DiffAsk, Scope};
use bpfdb_script::SlotTexts;
use counted_io::{Counted, WriteFault};
use std::alloc::{AllocError, Global};

/// What is told of the values of two runs, in memory: nothing where nothing is asked.
#[derive(Drop)]
pub(crate) struct Sources {
    pub(crate) first: Vec<u8>,
    pub(crate) second: Vec<u8>,
}

/// A run whose values are asked about: a machine of its program, its context, the names in its maps,
/// and where its slots stand in C.
#[derive(Drop)]
pub(crate) struct AskedRun<'a> {
    pub(crate) cpu: Cpu,
    pub(crate) context: &'a [u8],
    pub(crate) names: Option<&'a Names<'a>>,
    pub(crate) places: SlotTexts<'a>,
}

/// Tells where the values came from in which two runs differ, if they do and the job asks for it.
pub(crate) fn sources_of(
    alloc: Global,
    diff: &DiffAsk,
    job: &Job<'_>,
    values: Option<(Values, Values)>,
    first: AskedRun<'_>,
    second: AskedRun<'_>,
) -> Result<Sources, JournalFault>
    ensures ok { IfOk result (AreSources first.entry.names second.entry.names
        (record { first = first.entry.places; second = second.entry.places }) diff.now job.now.options (pair_of values)
        (begun_for job.now.options first.entry.cpu.program first.entry.context.now)
        (begun_for job.now.options second.entry.cpu.program second.entry.context.now)) }
    ensures asked { IfErr result (λ fault. (diff.now.alone ≡ false)
        × (is_some (pair_of values) ≡ true)) }
    ensures err { IfErr result (RefusesSize job.now.options.journal) }
{
    if diff.alone {
        return Ok(nothing(alloc));
    }
    let (one, another) = match values {
        Some((one, another)) => (one, another),
        None => return Ok(nothing(alloc)),
    };
    let told = match source_of(alloc, &diff.scope, job, first, one) {
        Ok(text) => text,
        Err(fault) => return Err(fault),
    };
    match source_of(alloc, &diff.scope, job, second, another) {
        Ok(text) => Ok(Sources {
            first: told,
            second: text,
        }),
        Err(why) => Err(why),
    }
}

/// No text of either.
fn nothing(alloc: Global) -> Sources
    ensures first { result.first.items ≡ [] }
    ensures second { result.second.items ≡ [] }
{
    Sources {
        first: Vec::new(alloc),
        second: Vec::new(alloc),
    }
}

/// Runs a program again up to the step behind which its values stand, and tells what `origin` tells
/// of them there.
fn source_of(
    alloc: Global,
    scope: &Scope,
    job: &Job<'_>,
    run: AskedRun<'_>,
    values: Values,
) -> Result<Vec<u8>, JournalFault>
    ensures ok { IfOk result (λ text. text.items ≡ spec.source (option_map (λ n. n.now) run.entry.names)
        run.entry.places scope.now job.now.options (begun_for job.now.options run.entry.cpu.program run.entry.context.now) (value_of values)) }
    ensures err { IfErr result (RefusesSize job.now.options.journal) }
{
    let Values { steps, parts } = values;
    let AskedRun {
        cpu,
        context,
        names,
        places,
    } = run;
    let mut arrived = match rerun(alloc, job, cpu, context, steps) {
        Ok(arrived) => arrived,
        Err(fault) => return Err(fault),
    };
    let asked = asked_at(arrived.timeline.cpu(), parts);
    if asked.is_empty() {
        return Ok(Vec::new(alloc));
    }
    let question = question_of(scope, &arrived, places);
    let around = Around {
        stop: &[],
        tail: &[],
    };
    let mut writer = Counted::new(Vec::new(alloc));
    let told = match put_told(
        alloc,
        names,
        &mut arrived,
        asked.as_slice(),
        question,
        around,
        &mut writer,
    ) {
        Ok(told) => told,
        Err(AllocError) => return Err(JournalFault::OutOfMemory),
    };
    match told.written {
        Ok(()) => Ok(writer.into_inner()),
        Err(WriteFault) => Err(JournalFault::OutOfMemory),
    }
}

/// Runs a program from its opening for so many steps, or to its end, and keeps the moves.
fn rerun(
    alloc: Global,
    job: &Job<'_>,
    opened: Cpu,
    context: &[u8],
    steps: u64,
) -> Result<Arrived, JournalFault>
    ensures ok { IfOk result (λ arrived. HasRun job.now.options steps
        (begun_for job.now.options opened.program context.now) arrived.timeline arrived.moves) }
    ensures err { IfErr result (RefusesSize job.now.options.journal) }
{
    let mut cpu = opened;
    let keeper = match RingKeeper::open(alloc, job.options.journal as usize) {
        Ok(keeper) => keeper,
        Err(fault) => return Err(fault),
    };
    let wanted = match Wanted::new(alloc) {
        Ok(wanted) => wanted,
        Err(_) => return Err(JournalFault::OutOfMemory),
    };
    match open_again(alloc, &job.options, &mut cpu, context) {
        Ok(()) => {}
        Err(_) => return Err(JournalFault::OutOfMemory),
    }
    let mut timeline = Timeline::start(cpu, keeper);
    let moves = run_for(&mut timeline, steps);
    Ok(Arrived {
        timeline,
        moves,
        wanted,
    })
}

/// Takes so many steps, or fewer where the machine ends, and keeps each. Answers how many.
pub(crate) fn run_for(timeline: &mut Timeline<RingKeeper>, steps: u64) -> u64
    requires { has_ended timeline.old.state.status ≡ false }
    ensures { RunsKept steps timeline.old timeline.new result }
{
    if steps == 0 {
        0
    } else {
        run_kept(timeline, steps)
    }
}

/// What is asked about these parts where a machine stands: at a bad access, whose step wrote
/// nothing, the registers of its address.
fn asked_at(cpu: &Cpu, parts: Parts) -> Parts
    ensures { result.items ≡ spec.asked_at cpu.now.status parts.items cpu.now }
{
    match cpu.status() {
        Status::Faulted(Fault::Access { .. }) => asked(cpu),
        _ => parts,
    }
}
