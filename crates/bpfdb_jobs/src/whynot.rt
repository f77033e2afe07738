//! What a job of `whynot` does.
ghost use Rattle.std.specs.Prelude.{◌≡◌, ◌≤◌, ℕ, IfErr, IfOk, List, OnErr};
ghost use Rattle.bpf_isa.specs.Programs.{Checked};
ghost use Rattle.bpf_journal.specs.Histories.{Record, StandsFor};
ghost use Rattle.bpf_journal.specs.Tracks.{RingHolds};
ghost use Rattle.bpf_load.specs.Targets.{Loads};
ghost use Rattle.bpf_whynot.specs.Answers.{why_not};
ghost use Rattle.bpf_whynot.specs.Asking.{query};
ghost use Rattle.bpf_whynot.specs.Tables.{AreGoals, told_by};
ghost use Rattle.counted_io.specs.Writing.{Writes};
ghost use Rattle.bpfdb_jobs.specs.Endings.{EndsPrinted};
ghost use Rattle.bpfdb_jobs.specs.Jobs.{AreAsked, asked_of, names_place, IsKnown};
ghost use Rattle.bpfdb_jobs.specs.Openings.{HasArrived, why_text};
ghost use Rattle.bpfdb_jobs.specs.Origins.{found_text};
ghost use Rattle.bpfdb_jobs.specs.Whynots.{AimsFor, IsRefusalOf, RefusesGoals};
ghost use Rattle.bpfdb_limits.specs.Limits.{IsLimit};
ghost use Rattle.bpfdb_options.specs.declared.ask.Ask.TheVariants.{Whynot};
ghost use Rattle.bpfdb_jobs.specs.Streams.{between};

use crate::job::Job;
use crate::known::Known;
use crate::object::refuse;
use crate::origin::{Arrived, FoundText, Reached, arrive, bytes_of, names_of, status_of};
use crate::streams::Streams;
use bpf_journal::{JournalFault, Keeper, RingKeeper, Timeline};
use bpf_lines::{Names, is_place, listing_slots, put_named};
use bpf_load::{Loaded, SourceKind};
use bpf_origin::{Question, Told, Wanted};
use bpf_trace::put_standing;
use bpf_whynot::{Aim, AimFault, GoalFault, Search, put_whynot};
use bpfdb_faults::{JobFault, JobRefusal, flush_after, give_up};
use bpfdb_options::WhynotAsk;
use counted_io::{Counted, WriteFault, put};
use std::alloc::{AllocError, Global};
use std::io::Write;

/// Runs the program to its end or to the limit, or, if that is asked, to the first read of the stack where
/// nothing was written; or obeys the script where there is one. Then it writes where the machine stands
/// and why the program did not come to the slots that are asked about.
pub fn whynot_job<W: Write, E: Write>(
    alloc: Global,
    why: &WhynotAsk<'_>,
    job: &Job<'_>,
    loaded: Loaded,
    known: Known<'_>,
    streams: &mut Streams<W, E>,
) -> u8
    requires limit { IsLimit job.now.options.limit }
    requires loaded { Loads job.now.target job.now.file.now loaded }
    requires known { IsKnown job.now loaded.object known }
    ensures does { EndsPrinted (Whynot why.now) job.now
        (between W.contents E.contents streams.old streams.new) result }
    ensures status { result ≤ 2 }
{
    match arrive(alloc, job, why.is_strict, known, loaded) {
        Ok(reached) => ask_why(alloc, why, job, known, reached, streams),
        Err(refusal) => give_up(&mut streams.errors, &JobFault::Refused(refusal)),
    }
}

/// Writes where the machine stands, and why the program did not come to the slots.
fn ask_why<W: Write, E: Write>(
    alloc: Global,
    why: &WhynotAsk<'_>,
    job: &Job<'_>,
    known: Known<'_>,
    reached: Reached,
    streams: &mut Streams<W, E>,
) -> u8
    requires { HasArrived why.now.is_strict known job.now reached }
    ensures does { EndsPrinted (Whynot why.now) job.now
        (between W.contents E.contents streams.old streams.new) result }
    ensures status { result ≤ 2 }
{
    let Reached {
        mut arrived,
        object,
        line,
        ..
    } = reached;
    let source = object.as_ref();
    let aim = match aim_of(alloc, why, job, known, &arrived.timeline) {
        Ok(aim) => aim,
        Err(refusal) => return give_up(&mut streams.errors, &JobFault::Refused(refusal)),
    };
    let names = match names_of(alloc, job, source) {
        Ok(names) => names,
        Err(fault) => return refuse(job, bytes_of(source), &mut streams.errors, fault),
    };
    let question = Question {
        addresses: why.scope.addresses,
        lines: why.scope.lines,
        opening: arrived.timeline.len() as u64 == arrived.moves,
        places: known.places,
    };
    let search = Search {
        reach: &aim.reach,
        goals: aim.goals.as_slice(),
        made: aim.made,
        question,
        alone: why.alone,
    };
    let stop = line.as_slice();
    let output = &mut streams.output;
    match put_told(alloc, names.as_ref(), &mut arrived, &search, stop, output) {
        Ok(told) => match told.written {
            Ok(()) => status_of(told.extent),
            Err(WriteFault) => give_up(&mut streams.errors, &JobFault::Output),
        },
        Err(AllocError) => give_up(
            &mut streams.errors,
            &JobFault::Refused(JobRefusal::Journal(JournalFault::OutOfMemory)),
        ),
    }
}

/// The slots of a program that are asked about, and from where they can be come to.
fn aim_of<'a>(
    alloc: Global,
    why: &WhynotAsk<'a>,
    job: &Job<'a>,
    known: Known<'_>,
    timeline: &Timeline<RingKeeper>,
) -> Result<Aim, JobRefusal<'a>>
    ensures ok { IfOk result (AimsFor why.now job.now known.entry timeline.now) }
    ensures err { IfErr result
        (RefusesGoals why.now job.now known.entry timeline.now.state.program) }
{
    let what = asked(why).as_bytes();
    if let Some(goals) = known.goals {
        return aim_at(alloc, why, job, known, timeline, goals);
    }
    if !names_place(why, job) {
        return aim_at(alloc, why, job, known, timeline, what);
    }
    match listing_slots(alloc, job.file, what) {
        Ok(slots) => aim_at(alloc, why, job, known, timeline, slots.as_slice()),
        Err(fault) => Err(JobRefusal::Listing(fault)),
    }
}

/// Whether it is asked about a place of a listing.
fn names_place(why: &WhynotAsk<'_>, job: &Job<'_>) -> bool
    ensures { result ≡ names_place why.now job.now }
{
    match job.target.kind {
        SourceKind::Listing => is_place(asked(why).as_bytes()),
        SourceKind::Words | SourceKind::Object => false,
    }
}

/// The slots that a text names, and from where they can be come to.
fn aim_at<'a>(
    alloc: Global,
    why: &WhynotAsk<'a>,
    job: &Job<'a>,
    known: Known<'_>,
    timeline: &Timeline<RingKeeper>,
    slots: &[u8],
) -> Result<Aim, JobRefusal<'a>>
    requires { AreAsked why.now job.now known slots.now }
    ensures ok { IfOk result (AimsFor why.now job.now known.entry timeline.now) }
    ensures err { IfErr result
        (RefusesGoals why.now job.now known.entry timeline.now.state.program) }
{
    timeline.invariant();
    match Aim::find(alloc, timeline.cpu(), timeline.keeper(), slots) {
        Ok(aim) => Ok(aim),
        Err(AimFault::Goal(fault)) => Err(goal_refusal(why, fault)),
        Err(AimFault::OutOfMemory) => Err(JobRefusal::Journal(JournalFault::OutOfMemory)),
    }
}

/// The refusal of what is asked about: of a place that has no slot by its name.
fn goal_refusal<'a>(why: &WhynotAsk<'a>, fault: GoalFault) -> JobRefusal<'a>
    ensures { IsRefusalOf why.now fault result }
{
    let what = asked(why);
    match fault {
        GoalFault::NoSlot => {
            if is_place(what.as_bytes()) {
                JobRefusal::NoPlace(what)
            } else {
                JobRefusal::Goal(fault)
            }
        }
        GoalFault::NoInstruction => JobRefusal::Goal(fault),
        GoalFault::NoValue => JobRefusal::Goal(fault),
        GoalFault::NoConstant => JobRefusal::Goal(fault),
    }
}

/// The text of what is asked about.
pub(crate) fn asked<'a>(why: &WhynotAsk<'a>) -> &'a str
    ensures { result.now ≡ asked_of why.now }
{
    match why.what {
        Some(text) => text,
        None => "",
    }
}

/// Writes a line and where a machine stands, and why its program did not come to the slots, and flushes.
fn put_why<K: Keeper, W: Write>(
    timeline: &mut Timeline<K>,
    search: &Search<'_>,
    wanted: &mut Wanted,
    stop: &[u8],
    writer: &mut Counted<W>,
) -> Told
    ensures text { (program : Checked) (goals : List ℕ) (h : List Record) →
        AreGoals program goals search.now.goals.now →
        StandsFor K.holds timeline.old.keeper timeline.old.state h →
        Writes W.contents writer.old writer.new result.written
        (found_text stop.now search.now.question.places timeline.old.state
        (why_not (told_by search.now.reach.now) (query search.now goals) h timeline.old.state)) }
    ensures extent { (program : Checked) (goals : List ℕ) (h : List Record) →
        AreGoals program goals search.now.goals.now →
        StandsFor K.holds timeline.old.keeper timeline.old.state h → result.extent
        ≡ (why_not (told_by search.now.reach.now) (query search.now goals) h
        timeline.old.state).extent }
{
    let stopped = put(writer, Ok(()), stop);
    let placed = put_standing(writer, stopped, search.question.places, timeline.cpu());
    let ended = put(writer, placed, b"\n");
    let told = put_whynot(timeline, search, wanted, writer, ended);
    Told {
        written: flush_after(writer, told.written),
        extent: told.extent,
        moves: told.moves,
    }
}

/// Writes the same with the names of places in maps, where these are known. Then the text is in
/// memory before anything is written.
fn put_told<W: Write>(
    alloc: Global,
    names: Option<&Names<'_>>,
    arrived: &mut Arrived,
    search: &Search<'_>,
    stop: &[u8],
    writer: &mut Counted<W>,
) -> Result<Told, AllocError>
    ensures text { (program : Checked) (goals : List ℕ) (h : List Record) →
        AreGoals program goals search.now.goals.now →
        StandsFor RingHolds arrived.old.timeline.keeper arrived.old.timeline.state h →
        IfOk result (λ told. Writes W.contents writer.old writer.new told.written
        (why_text names.entry stop.now (told_by search.now.reach.now) (query search.now goals) h
        arrived.old.timeline.state)) }
    ensures extent { (program : Checked) (goals : List ℕ) (h : List Record) →
        AreGoals program goals search.now.goals.now →
        StandsFor RingHolds arrived.old.timeline.keeper arrived.old.timeline.state h →
        IfOk result (λ told. told.extent
        ≡ (why_not (told_by search.now.reach.now) (query search.now goals) h
        arrived.old.timeline.state).extent) }
    ensures same { OnErr result (writer.new ≡ writer.old) }
{
    let names = match names {
        Some(names) => names,
        None => {
            let timeline = &mut arrived.timeline;
            return Ok(put_why(timeline, search, &mut arrived.wanted, stop, writer));
        }
    };
    let timeline = &mut arrived.timeline;
    let found = match why_found(alloc, timeline, search, &mut arrived.wanted, stop) {
        Ok(found) => found,
        Err(error) => return Err(error),
    };
    let named = put_named(writer, Ok(()), names, found.text.as_slice());
    Ok(Told {
        written: flush_after(writer, named),
        extent: found.told.extent,
        moves: found.told.moves,
    })
}

/// The same without names, in memory.
fn why_found<K: Keeper>(
    alloc: Global,
    timeline: &mut Timeline<K>,
    search: &Search<'_>,
    wanted: &mut Wanted,
    stop: &[u8],
) -> Result<FoundText, AllocError>
    ensures text { (program : Checked) (goals : List ℕ) (h : List Record) →
        AreGoals program goals search.now.goals.now →
        StandsFor K.holds timeline.old.keeper timeline.old.state h →
        IfOk result (λ found. found.text.items ≡ found_text stop.now search.now.question.places
        timeline.old.state (why_not (told_by search.now.reach.now) (query search.now goals) h timeline.old.state)) }
    ensures extent { (program : Checked) (goals : List ℕ) (h : List Record) →
        AreGoals program goals search.now.goals.now →
        StandsFor K.holds timeline.old.keeper timeline.old.state h →
        IfOk result (λ found. found.told.extent
        ≡ (why_not (told_by search.now.reach.now) (query search.now goals) h
        timeline.old.state).extent) }
{
    let mut writer = Counted::new(Vec::new(alloc));
    let told = put_why(timeline, search, wanted, stop, &mut writer);
    match told.written {
        Ok(()) => Ok(FoundText {
            text: writer.into_inner(),
            told,
        }),
        Err(WriteFault) => Err(AllocError),
    }
}
