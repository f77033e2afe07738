//! What a job of `origin` does.
ghost use Rattle.std.specs.Prelude.{◌≡◌, ◌≤◌, ◌==◌, true, length, IfErr, IfOk, OnErr, Bool, List, None, Some};
ghost use Rattle.bpf_entries.specs.Status.{has_ended};
ghost use Rattle.bpf_journal.specs.Histories.{Record, StandsFor};
ghost use Rattle.bpf_journal.specs.Tracks.{RingHolds};
ghost use Rattle.bpf_load.specs.Targets.{Loads, lent};
ghost use Rattle.bpf_origin.specs.Asked.{answer_about};
ghost use Rattle.counted_io.specs.Writing.{Writes};
ghost use Rattle.bpfdb_jobs.specs.Endings.{EndsPrinted};
ghost use Rattle.bpfdb_jobs.specs.Jobs.{section_of, IsKnown};
ghost use Rattle.bpfdb_jobs.specs.declared.known.Known.{Known as Facts};
ghost use Rattle.bpfdb_jobs.specs.Openings.{AreAskedParts, HasArrived, HasTail, IsAsked, asked_text, told_text};
ghost use Rattle.bpfdb_jobs.specs.Origins.{AreNamesOf, LacksNames, RefusesWhat, both_extents, bytes_of, parts_for, parts_read, status_of_extent, steps_to};
ghost use Rattle.bpfdb_jobs.specs.Refusals.{RefusesArrival};
ghost use Rattle.bpfdb_limits.specs.Limits.{IsLimit};
ghost use Rattle.bpfdb_options.specs.declared.ask.Ask.TheVariants.{Origin};
ghost use Rattle.bpfdb_jobs.specs.Streams.{between};

use crate::job::Job;
use crate::known::Known;
use crate::object::refuse;
use crate::opening::{session_of, timeline_over, wanted_of};
use crate::script::obey_script;
use crate::source::run_for;
use crate::streams::Streams;
use crate::strict::{Strict, stop_line, strict_machine};
use bpf_journal::{JournalFault, Keeper, RingKeeper, Timeline};
use bpf_lines::{Names, map_names, put_named};
use bpf_link::LinkFault;
use bpf_load::{LinkedObject, Loaded};
use bpf_machine::{Cpu, Status};
use bpf_origin::{
    Extent, Part, Parts, Question, Told, Wanted, What, WhatFault, followed, parts_asked, put_answer,
};
use bpf_trace::{Unwritten, put_standing};
use bpf_whynot::{Found, find_branches};
use bpfdb_faults::{JobFault, JobRefusal, flush_after, give_up};
use bpfdb_options::{OriginAsk, Scope};
use bpfdb_script::SlotTexts;
use counted_io::{Counted, WriteFault, put};
use std::alloc::{AllocError, Global};
use std::io::Write;

/// A machine with its journal, where it is asked.
#[derive(Drop)]
pub(crate) struct Arrived {
    pub(crate) timeline: Timeline<RingKeeper>,
    /// How many moves lie before its state, kept or not.
    pub(crate) moves: u64,
    /// The memory for the answer.
    pub(crate) wanted: Wanted,
}

/// That, the object that its program comes from, if it comes from one, and the read that stopped a strict
/// run.
#[derive(Drop)]
pub(crate) struct Reached {
    pub(crate) arrived: Arrived,
    pub(crate) object: Option<LinkedObject>,
    pub(crate) read: Option<Unwritten>,
    /// Its line, empty where there is none.
    pub(crate) line: Vec<u8>,
}

/// What is asked where a machine stands: about which parts of it, and how.
#[derive(Clone, Copy)]
struct Asked<'a> {
    parts: &'a [Part],
    question: Question<'a>,
}

/// What stands behind an answer, and how far it goes.
#[derive(Clone, Copy)]
struct Tail<'a> {
    text: &'a [u8],
    extent: Extent,
}

/// What stands before an answer and where the machine stands, and what stands behind it.
#[derive(Clone, Copy)]
pub(crate) struct Around<'a> {
    pub(crate) stop: &'a [u8],
    pub(crate) tail: &'a [u8],
}

/// An answer in memory, and what is told of it.
#[derive(Drop)]
pub(crate) struct FoundText {
    pub(crate) text: Vec<u8>,
    pub(crate) told: Told,
}

/// Runs the program to its end or to the limit, or, if that is asked, to the first read of the stack where
/// nothing was written; or obeys the script where there is one. Then it writes where the machine stands
/// and where the values came from that are asked about.
pub fn origin_job<W: Write, E: Write>(
    alloc: Global,
    origin: &OriginAsk<'_>,
    job: &Job<'_>,
    loaded: Loaded,
    known: Known<'_>,
    streams: &mut Streams<W, E>,
) -> u8
    requires limit { IsLimit job.now.options.limit }
    requires loaded { Loads job.now.target job.now.file.now loaded }
    requires known { IsKnown job.now loaded.object known }
    ensures does { EndsPrinted (Origin origin.now) job.now
        (between W.contents E.contents streams.old streams.new) result }
    ensures status { result ≤ 2 }
{
    match arrive(alloc, job, origin.is_strict, known, loaded) {
        Ok(reached) => ask(alloc, origin, job, known, reached, streams),
        Err(refusal) => give_up(&mut streams.errors, &JobFault::Refused(refusal)),
    }
}

/// Finds what is asked about, and asks.
fn ask<W: Write, E: Write>(
    alloc: Global,
    origin: &OriginAsk<'_>,
    job: &Job<'_>,
    known: Known<'_>,
    reached: Reached,
    streams: &mut Streams<W, E>,
) -> u8
    requires { HasArrived origin.now.is_strict known job.now reached }
    ensures does { EndsPrinted (Origin origin.now) job.now
        (between W.contents E.contents streams.old streams.new) result }
    ensures status { result ≤ 2 }
{
    let parts = match parts_of(origin, reached.read, reached.arrived.timeline.cpu()) {
        Ok(parts) => parts,
        Err(fault) => {
            let refusal = JobRefusal::What(fault);
            return give_up(&mut streams.errors, &JobFault::Refused(refusal));
        }
    };
    let asked = Asked {
        parts: parts.as_slice(),
        question: question_of(&origin.scope, &reached.arrived, known.places),
    };
    if origin.tells_branches {
        ask_branches(alloc, origin, job, reached, asked, streams)
    } else {
        let tail = Tail {
            text: &[],
            extent: Extent::Whole,
        };
        tell(alloc, origin, job, reached, asked, tail, streams)
    }
}

/// Finds the branches that are asked for, and tells them behind the answer about these parts.
fn ask_branches<W: Write, E: Write>(
    alloc: Global,
    origin: &OriginAsk<'_>,
    job: &Job<'_>,
    reached: Reached,
    asked: Asked<'_>,
    streams: &mut Streams<W, E>,
) -> u8
    requires asked { IsAsked origin.now job.now reached asked.parts.now asked.question }
    requires branches { origin.now.tells_branches ≡ true }
    ensures does { EndsPrinted (Origin origin.now) job.now
        (between W.contents E.contents streams.old streams.new) result }
    ensures status { result ≤ 2 }
{
    let Reached {
        arrived,
        object,
        read,
        line,
    } = reached;
    let Arrived {
        timeline,
        moves,
        mut wanted,
    } = arrived;
    match find_branches(alloc, timeline, &mut wanted, asked.parts, asked.question) {
        Ok(found) => {
            let Found {
                timeline,
                text,
                extent,
            } = found;
            let arrived = Arrived {
                timeline,
                moves,
                wanted,
            };
            let reached = Reached {
                arrived,
                object,
                read,
                line,
            };
            let tail = Tail {
                text: text.as_slice(),
                extent,
            };
            tell(alloc, origin, job, reached, asked, tail, streams)
        }
        Err(_) => give_up(
            &mut streams.errors,
            &JobFault::Refused(JobRefusal::Journal(JournalFault::OutOfMemory)),
        ),
    }
}

/// How it is asked, with what is told of slots.
pub(crate) fn question_of<'a>(
    scope: &Scope,
    arrived: &Arrived,
    places: SlotTexts<'a>,
) -> Question<'a>
    ensures { (h : List Record) →
        StandsFor RingHolds arrived.now.timeline.keeper arrived.now.timeline.state h →
        result ≡ record {
          addresses = scope.now.addresses;
          lines = scope.now.lines;
          opening = length h == arrived.now.moves;
          places = places.entry;
        } }
{
    Question {
        addresses: scope.addresses,
        lines: scope.lines,
        opening: arrived.timeline.len() as u64 == arrived.moves,
        places,
    }
}

/// Goes where it is asked.
pub(crate) fn arrive(
    alloc: Global,
    job: &Job<'_>,
    is_strict: bool,
    known: Known<'_>,
    loaded: Loaded,
) -> Result<Reached, JobRefusal<'static>>
    requires limit { IsLimit job.now.options.limit }
    requires loaded { Loads job.now.target job.now.file.now loaded }
    requires known { IsKnown job.now loaded.object known }
    ensures ok { IfOk result (HasArrived is_strict known.entry job.now) }
    ensures err { IfErr result (RefusesArrival job.now) }
{
    match job.other {
        Some(script) => arrive_by(alloc, job, loaded, script),
        None => arrive_at_end(alloc, job, is_strict, known, loaded),
    }
}

/// Obeys the job's script, which no read stops.
fn arrive_by(
    alloc: Global,
    job: &Job<'_>,
    loaded: Loaded,
    script: &[u8],
) -> Result<Reached, JobRefusal<'static>>
    requires limit { IsLimit job.now.options.limit }
    requires loaded { Loads job.now.target job.now.file.now loaded }
    requires script { job.now.other ≡ Some script }
    ensures ok { (strict : Bool) (known : Facts) → IsKnown job.now loaded.object known →
        IfOk result (HasArrived strict known job.now) }
    ensures err { IfErr result (RefusesArrival job.now) }
{
    let Loaded { program, object } = loaded;
    let mut session = match session_of(alloc, job, program) {
        Ok(session) => session,
        Err(refusal) => return Err(refusal),
    };
    let wanted = match wanted_of(alloc) {
        Ok(wanted) => wanted,
        Err(refusal) => return Err(refusal),
    };
    let moves = match obey_script(&mut session, script) {
        Ok(moves) => moves,
        Err(refusal) => return Err(JobRefusal::Script(refusal)),
    };
    let (cpu, keeper) = session.close();
    let arrived = Arrived {
        timeline: Timeline::open(cpu, keeper),
        moves,
        wanted,
    };
    Ok(Reached {
        arrived,
        object,
        read: None,
        line: Vec::new(alloc),
    })
}

/// Runs the job's program to its end or to the limit, or to the read that stops it.
fn arrive_at_end(
    alloc: Global,
    job: &Job<'_>,
    is_strict: bool,
    known: Known<'_>,
    loaded: Loaded,
) -> Result<Reached, JobRefusal<'static>>
    requires loaded { Loads job.now.target job.now.file.now loaded }
    requires known { IsKnown job.now loaded.object known }
    requires script { job.now.other ≡ None }
    ensures ok { IfOk result (HasArrived is_strict known.entry job.now) }
    ensures err { IfErr result (RefusesArrival job.now) }
{
    let Loaded { program, object } = loaded;
    let Strict { cpu, unwritten } = match strict_machine(
        alloc, job, is_strict, known.own, program,
    ) {
        Ok(strict) => strict,
        Err(refusal) => return Err(refusal),
    };
    let mut timeline = match timeline_over(alloc, job, cpu) {
        Ok(timeline) => timeline,
        Err(refusal) => return Err(refusal),
    };
    let wanted = match wanted_of(alloc) {
        Ok(wanted) => wanted,
        Err(refusal) => return Err(refusal),
    };
    let line = match stop_line(alloc, known.places, unwritten) {
        Ok(line) => line,
        Err(refusal) => return Err(refusal),
    };
    let moves = run_for(&mut timeline, steps_to(unwritten, job.options.limit));
    let arrived = Arrived {
        timeline,
        moves,
        wanted,
    };
    Ok(Reached {
        arrived,
        object,
        read: unwritten,
        line,
    })
}

/// The limit of steps of a run, which a read may stop.
fn steps_to(read: Option<Unwritten>, limit: u64) -> u64
    ensures { result ≡ steps_to read limit }
{
    match read {
        Some(read) => read.steps,
        None => limit,
    }
}

/// Writes where the machine stands, where the values of these parts came from, and what else is
/// asked.
fn tell<W: Write, E: Write>(
    alloc: Global,
    origin: &OriginAsk<'_>,
    job: &Job<'_>,
    reached: Reached,
    asked: Asked<'_>,
    tail: Tail<'_>,
    streams: &mut Streams<W, E>,
) -> u8
    requires { HasTail origin.now job.now reached asked.parts.now asked.question
        (record { text = tail.text.now; extent = tail.extent }) }
    ensures does { EndsPrinted (Origin origin.now) job.now
        (between W.contents E.contents streams.old streams.new) result }
    ensures status { result ≤ 2 }
{
    let Reached {
        mut arrived,
        object,
        line,
        ..
    } = reached;
    let source = object.as_ref();
    let names = match names_of(alloc, job, source) {
        Ok(names) => names,
        Err(why) => return refuse(job, bytes_of(source), &mut streams.errors, why),
    };
    let stop = line.as_slice();
    let around = Around {
        stop,
        tail: tail.text,
    };
    match put_told(
        alloc,
        names.as_ref(),
        &mut arrived,
        asked.parts,
        asked.question,
        around,
        &mut streams.output,
    ) {
        Ok(told) => match told.written {
            Ok(()) => status_of(both_of(told.extent, tail.extent)),
            Err(WriteFault) => give_up(&mut streams.errors, &JobFault::Output),
        },
        Err(AllocError) => give_up(
            &mut streams.errors,
            &JobFault::Refused(JobRefusal::Journal(JournalFault::OutOfMemory)),
        ),
    }
}

/// The names in the maps of the object that a program comes from, if it comes from one. What that
/// needs of the stack is given back before the answer is looked for.
#[inline(never)]
pub(crate) fn names_of<'a>(
    alloc: Global,
    job: &Job<'_>,
    object: Option<&'a LinkedObject>,
) -> Result<Option<Names<'a>>, LinkFault>
    ensures ok { IfOk result (AreNamesOf (lent object.entry) (section_of job.now)
        job.now.target.packet) }
    ensures err { IfErr result (LacksNames (lent object.entry) (section_of job.now)) }
{
    let Some(object) = object else {
        return Ok(None);
    };
    match map_names(
        alloc,
        object.sources.object(),
        job.target.section,
        object.program.maps,
        object.program.shapes.as_slice(),
        object.program.names.as_slice(),
        job.target.packet,
    ) {
        Ok(names) => Ok(Some(names)),
        Err(why) => Err(why),
    }
}

/// The bytes of that object: none where there isn't one.
pub(crate) fn bytes_of(object: Option<&LinkedObject>) -> &[u8]
    ensures { result.now ≡ bytes_of (lent object.entry) }
{
    match object {
        Some(object) => object.sources.object(),
        None => b"",
    }
}

/// What is asked about of a machine, which a read may have stopped.
fn parts_of(origin: &OriginAsk<'_>, read: Option<Unwritten>, cpu: &Cpu) -> Result<Parts, WhatFault>
    ensures ok { IfOk result (λ parts. AreAskedParts origin.now read cpu.now parts.items) }
    ensures err { IfErr result (RefusesWhat origin.now.what cpu.now) }
{
    match origin.what {
        Some(text) => match What::find(text.as_bytes(), cpu) {
            Ok(what) => Ok(parts_asked(cpu, Some(what))),
            Err(fault) => Err(fault),
        },
        None => Ok(parts_unnamed(read, cpu)),
    }
}

/// What is asked about where nothing is named: at a read what its instruction reads.
fn parts_unnamed(read: Option<Unwritten>, cpu: &Cpu) -> Parts
    ensures { result.items ≡ parts_for None read cpu.now }
{
    match read {
        Some(_) => parts_read(cpu),
        None => parts_asked(cpu, None),
    }
}

/// What the next instruction of a machine reads; where there is none, what is asked about else.
fn parts_read(cpu: &Cpu) -> Parts
    ensures { result.items ≡ parts_read (has_ended cpu.now.status) cpu.now }
{
    match cpu.status() {
        Status::Running => followed(cpu, false),
        Status::Exited => parts_asked(cpu, None),
        Status::Faulted(_) => parts_asked(cpu, None),
    }
}

/// Writes a line and where a machine stands, and where the values of these parts came from, and flushes.
fn put_found<K: Keeper, W: Write>(
    timeline: &mut Timeline<K>,
    wanted: &mut Wanted,
    parts: &[Part],
    question: Question<'_>,
    around: Around<'_>,
    writer: &mut Counted<W>,
) -> Told
    ensures text { (h : List Record) →
        StandsFor K.holds timeline.old.keeper timeline.old.state h →
        Writes W.contents writer.old writer.new result.written
        (asked_text around.entry.stop.now question.entry parts.now h timeline.old.state around.entry.tail.now) }
    ensures extent { (h : List Record) →
        StandsFor K.holds timeline.old.keeper timeline.old.state h →
        result.extent ≡ (answer_about question.entry parts.now h timeline.old.state).extent }
{
    let stopped = put(writer, Ok(()), around.stop);
    let placed = put_standing(writer, stopped, question.places, timeline.cpu());
    let ended = put(writer, placed, b"\n");
    let told = put_answer(timeline, wanted, parts, question, writer, ended);
    let all = put(writer, told.written, around.tail);
    Told {
        written: flush_after(writer, all),
        extent: told.extent,
        moves: told.moves,
    }
}

/// Writes the same with the names of places in maps, where these are known. Then the text is in
/// memory before anything is written.
pub(crate) fn put_told<W: Write>(
    alloc: Global,
    names: Option<&Names<'_>>,
    arrived: &mut Arrived,
    parts: &[Part],
    question: Question<'_>,
    around: Around<'_>,
    writer: &mut Counted<W>,
) -> Result<Told, AllocError>
    ensures text { (h : List Record) →
        StandsFor RingHolds arrived.old.timeline.keeper arrived.old.timeline.state h →
        IfOk result (λ told. Writes W.contents writer.old writer.new told.written
        (told_text names.entry around.entry.stop.now question.entry parts.now h arrived.old.timeline.state
        around.entry.tail.now)) }
    ensures extent { (h : List Record) →
        StandsFor RingHolds arrived.old.timeline.keeper arrived.old.timeline.state h →
        IfOk result (λ told. told.extent ≡
        (answer_about question.entry parts.now h arrived.old.timeline.state).extent) }
    ensures same { OnErr result (writer.new ≡ writer.old) }
{
    let names = match names {
        Some(names) => names,
        None => {
            return Ok(put_found(
                &mut arrived.timeline,
                &mut arrived.wanted,
                parts,
                question,
                around,
                writer,
            ));
        }
    };
    let found = match text_found(
        alloc,
        &mut arrived.timeline,
        &mut arrived.wanted,
        parts,
        question,
        around,
    ) {
        Ok(found) => found,
        Err(error) => return Err(error),
    };
    let named = put_named(writer, Ok(()), names, found.text.as_slice());
    Ok(Told {
        written: flush_after(writer, named),
        extent: found.told.extent,
        moves: found.told.moves,
    })
}

/// The same without names, in memory.
fn text_found<K: Keeper>(
    alloc: Global,
    timeline: &mut Timeline<K>,
    wanted: &mut Wanted,
    parts: &[Part],
    question: Question<'_>,
    around: Around<'_>,
) -> Result<FoundText, AllocError>
    ensures text { (h : List Record) →
        StandsFor K.holds timeline.old.keeper timeline.old.state h →
        IfOk result (λ found.
        found.text.items ≡ asked_text around.entry.stop.now question.entry parts.now h timeline.old.state
        around.entry.tail.now) }
    ensures extent { (h : List Record) →
        StandsFor K.holds timeline.old.keeper timeline.old.state h →
        IfOk result (λ found.
        found.told.extent ≡ (answer_about question.entry parts.now h timeline.old.state).extent) }
{
    let mut writer = Counted::new(Vec::new(alloc));
    let told = put_found(timeline, wanted, parts, question, around, &mut writer);
    match told.written {
        Ok(()) => Ok(FoundText {
            text: writer.into_inner(),
            told,
        }),
        Err(WriteFault) => Err(AllocError),
    }
}

/// How far two answers go, one behind the other.
fn both_of(first: Extent, second: Extent) -> Extent
    ensures { result ≡ both_extents first second }
{
    match first {
        Extent::Whole => second,
        _ => first,
    }
}

/// The exit status of an answer: 1 where it is cut.
pub(crate) fn status_of(extent: Extent) -> u8
    ensures { result ≡ status_of_extent extent }
{
    match extent {
        Extent::Whole => 0,
        Extent::Lines | Extent::Places => 1,
    }
}
