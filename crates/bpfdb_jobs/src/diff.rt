//! What a job of `diff` does.
ghost use Rattle.std.specs.Borrow.{Bor};
ghost use Rattle.std.specs.Prelude.{◌≡◌, ◌≤◌, ℕ, IfErr, IfOk, IsOk, List, None, OnErr, OnOk, Some, false, map, option_map, true};
ghost use Rattle.bpf_link.specs.Names.{fault_names};
ghost use Rattle.bpf_load.specs.Faults.{IsTargetFault};
ghost use Rattle.bpf_load.specs.Targets.{IsObjectOf, Loads, lent, loaded_of};
ghost use Rattle.bpfdb_jobs.specs.Endings.{EndsPrinted};
ghost use Rattle.bpfdb_jobs.specs.Jobs.{AreNamesFor, AreTold, HasPlaces, IsKnown, IsOtherRun, Prints, diff_status, is_memory, opening_asked, other_bytes, runs_told, section_of, tells_places};
ghost use Rattle.bpfdb_jobs.specs.Openings.{OpensOf, WereCompared, beside};
ghost use Rattle.bpfdb_jobs.specs.Origins.{LacksNames};
ghost use Rattle.bpfdb_jobs.specs.Programs.{AreSameMaps};
ghost use Rattle.bpf_load.specs.declared.loading.LinkedObject.{LinkedObject as Linked};
ghost use Rattle.bpfdb_jobs.specs.Refusals.{IsOtherFault, LacksPlaces, TellsOther};
ghost use Rattle.bpfdb_faults.specs.declared.fault.JobFault.TheVariants.{Refused};
ghost use Rattle.bpfdb_faults.specs.declared.refusal.JobRefusal.{JobRefusal as WhyRefused};
ghost use Rattle.bpfdb_faults.specs.declared.refusal.JobRefusal.TheVariants.{OtherObject};
ghost use Rattle.bpfdb_faults.specs.Faults.{line_of, output_line};
ghost use Rattle.bpfdb_faults.specs.Streams.{Told, stream};
ghost use Rattle.bpfdb_options.specs.Asks.{is_context, is_trace};
ghost use Rattle.bpfdb_options.specs.declared.ask.Ask.TheVariants.{Diff};
ghost use Rattle.bpfdb_jobs.specs.Streams.{between};

use crate::against::against_job;
use crate::job::Job;
use crate::known::{Known, Places, is_memory, nowhere, places_of};
use crate::object::refuse;
use crate::opening::{machine_of, opening_for};
use crate::origin::{bytes_of as object_bytes, names_of};
use crate::other_map::other_map;
use crate::runs::{ComparedRuns, compare};
use crate::source::{AskedRun, Sources, sources_of};
use crate::streams::Streams;
use bpf_diff::{BothTexts, put_marked};
use bpf_lines::Names;
use bpf_link::{LinkFault, fault_names};
use bpf_load::{LinkedObject, Loaded, ObjectFault, Target, TargetFault, load, load_again};
use bpf_machine::Cpu;
use bpf_opening::open;
use bpf_suite::Refusal;
use bpfdb_faults::{JobFault, JobRefusal, flush_after, give_up};
use bpfdb_options::DiffAsk;
use bpfdb_script::SlotTexts;
use counted_io::{Counted, WriteFault, put};
use std::alloc::{AllocError, Global};
use std::io::Write;

/// Why the machine of the other run isn't opened.
#[derive(Drop)]
pub enum OtherFault<'a> {
    /// By its maps, its listing, its words or its context.
    Program(Refusal),
    /// By its object.
    Object(ObjectFault<'a>),
}

/// Runs two programs, or one on two contexts, step by step, and tells where they part and how they
/// end; or runs one along the trace of another machine, and tells the first step that it tells
/// otherwise.
pub fn diff_job<W: Write, E: Write>(
    alloc: Global,
    diff: &DiffAsk,
    job: &Job<'_>,
    loaded: Loaded,
    known: Known<'_>,
    streams: &mut Streams<W, E>,
) -> u8
    requires loaded { Loads job.now.target job.now.file.now loaded }
    requires known { IsKnown job.now loaded.object known }
    ensures does { EndsPrinted (Diff diff.now) job.now
        (between W.contents E.contents streams.old streams.new) result }
    ensures status { result ≤ 2 }
{
    if diff.other.is_trace() {
        against_job(alloc, diff, job, loaded, streams)
    } else {
        runs_job(alloc, diff, job, loaded, known.places, streams)
    }
}

/// A machine of a run that is compared, the object that its program comes from, and where its slots
/// stand in C.
#[derive(Drop)]
pub(crate) struct Side<'a> {
    pub(crate) cpu: Cpu,
    pub(crate) object: Option<&'a LinkedObject>,
    pub(crate) places: SlotTexts<'a>,
}

/// By what places of two runs are told: the names in the maps of each one's object, and where its slots
/// stand in C.
#[derive(Clone, Copy)]
struct BothPlaces<'a> {
    names: Option<&'a Names<'a>>,
    others: Option<&'a Names<'a>>,
    texts: BothTexts<'a>,
}

/// The machine of the other run, and the object of its own that its program comes from, if there is
/// one.
#[derive(Drop)]
struct OtherMachine {
    cpu: Cpu,
    object: Option<LinkedObject>,
}

/// Runs two programs, or one on two contexts, and tells where they part, or what they leave.
fn runs_job<W: Write, E: Write>(
    alloc: Global,
    diff: &DiffAsk,
    job: &Job<'_>,
    loaded: Loaded,
    places: SlotTexts<'_>,
    streams: &mut Streams<W, E>,
) -> u8
    requires runs { is_trace diff.now.other ≡ false }
    requires loaded { Loads job.now.target job.now.file.now loaded }
    requires places { AreTold job.now loaded.object places }
    ensures does { EndsPrinted (Diff diff.now) job.now
        (between W.contents E.contents streams.old streams.new) result }
    ensures status { result ≤ 2 }
{
    let Loaded { program, object } = loaded;
    let file = object.as_ref();
    let first = match machine_of(alloc, job, program) {
        Ok(cpu) => cpu,
        Err(refusal) => return give_up(&mut streams.errors, &JobFault::Refused(refusal)),
    };
    let other = other_run(diff, job);
    let machine = match other_machine(alloc, diff, job, &other, file) {
        Ok(machine) => machine,
        Err(fault) => return refuse_other(&fault, &mut streams.errors),
    };
    let OtherMachine {
        cpu: second,
        object: own,
    } = machine;
    let beside = object_beside(diff, file, own.as_ref());
    let others = match other_places(alloc, &other, beside) {
        Ok(places) => places,
        Err(fault) => return refuse_other(&OtherFault::Object(fault), &mut streams.errors),
    };
    let one = Side {
        cpu: first,
        object: file,
        places,
    };
    let another = Side {
        cpu: second,
        object: beside,
        places: others.known().places,
    };
    sides_job(alloc, diff, job, &other, one, another, streams)
}

/// Where the slots of the other run stand in C; nothing where its lines can't be read.
fn other_places(
    alloc: Global,
    other: &Job<'_>,
    object: Option<&LinkedObject>,
) -> Result<Places, ObjectFault<'static>>
    ensures ok { IfOk result (λ places. HasPlaces (tells_places other.now.ask) other.now (lent object.entry)
        (option_map (λ texts. map (λ text. text.items) texts.items) places.texts)) }
    ensures err { IfErr result (λ it. (linked : Linked) × (lent object.entry ≡ Some linked)
        × LacksPlaces other.now linked it × (is_memory it.fault ≡ true)) }
{
    match object {
        Some(object) => places_in(alloc, other, object),
        None => Ok(nowhere()),
    }
}

/// Where the slots of a program stand that comes from an object.
fn places_in(
    alloc: Global,
    other: &Job<'_>,
    object: &LinkedObject,
) -> Result<Places, ObjectFault<'static>>
    ensures ok { IfOk result (λ places. HasPlaces (tells_places other.now.ask) other.now (Some object.now)
        (option_map (λ texts. map (λ text. text.items) texts.items) places.texts)) }
    ensures err { IfErr result (λ it. LacksPlaces other.now object.now it
        × (is_memory it.fault ≡ true)) }
{
    match places_of(alloc, other, object) {
        Ok(places) => Ok(places),
        Err(fault) => without_lines(fault),
    }
}

/// Nothing is known of the slots of a program whose lines can't be read, unless memory ran out for them.
fn without_lines(fault: ObjectFault<'static>) -> Result<Places, ObjectFault<'static>>
    ensures ok { IfOk result (λ places. (places.texts ≡ None) × (is_memory fault.entry.fault ≡ false)) }
    ensures err { IfErr result (λ it. (it ≡ fault.entry) × (is_memory fault.entry.fault ≡ true)) }
{
    if is_memory(&fault.fault) {
        Err(fault)
    } else {
        Ok(nowhere())
    }
}

/// The object of the other run: that of FILE on another context.
fn object_beside<'a>(
    diff: &DiffAsk,
    file: Option<&'a LinkedObject>,
    own: Option<&'a LinkedObject>,
) -> Option<&'a LinkedObject>
    ensures { lent result ≡ beside (is_context diff.now.other) (lent file.entry) (lent own.entry) }
{
    if diff.other.is_context() { file } else { own }
}

/// Runs two machines, and tells where they part, or what they leave, unless a map is another one in the
/// other program.
fn sides_job<W: Write, E: Write>(
    alloc: Global,
    diff: &DiffAsk,
    job: &Job<'_>,
    other: &Job<'_>,
    first: Side<'_>,
    second: Side<'_>,
    streams: &mut Streams<W, E>,
) -> u8
    requires runs { (is_trace diff.now.other ≡ false) × IsOtherRun diff.now job.now other.now }
    requires first { OpensOf job.now (lent first.object) first.cpu }
    requires second { OpensOf other.now (lent second.object) second.cpu }
    requires told { AreTold job.now (lent first.object) first.places
        × AreTold other.now (lent second.object) second.places }
    ensures does { EndsPrinted (Diff diff.now) job.now
        (between W.contents E.contents streams.old streams.new) result }
    ensures status { result ≤ 2 }
{
    match other_map(&first, &second) {
        Some(number) => give_up(
            &mut streams.errors,
            &JobFault::Refused(JobRefusal::OtherMap(number)),
        ),
        None => alike_job(alloc, diff, job, other, first, second, streams),
    }
}

/// Runs two machines that have the same maps, and tells where they part, or what they leave.
fn alike_job<W: Write, E: Write>(
    alloc: Global,
    diff: &DiffAsk,
    job: &Job<'_>,
    other: &Job<'_>,
    first: Side<'_>,
    second: Side<'_>,
    streams: &mut Streams<W, E>,
) -> u8
    requires runs { (is_trace diff.now.other ≡ false) × IsOtherRun diff.now job.now other.now }
    requires opened { OpensOf job.now (lent first.object) first.cpu
        × OpensOf other.now (lent second.object) second.cpu }
    requires told { AreTold job.now (lent first.object) first.places
        × AreTold other.now (lent second.object) second.places }
    requires maps { AreSameMaps (loaded_of first.cpu.program (lent first.object))
        (loaded_of second.cpu.program (lent second.object)) }
    ensures does { EndsPrinted (Diff diff.now) job.now
        (between W.contents E.contents streams.old streams.new) result }
    ensures status { result ≤ 2 }
{
    let names = match names_for(alloc, diff, job, first.object) {
        Ok(names) => names,
        Err(why) => return refuse(job, object_bytes(first.object), &mut streams.errors, why),
    };
    let others = match names_for(alloc, diff, other, second.object) {
        Ok(names) => names,
        Err(why) => return refuse_names(
            other,
            object_bytes(second.object),
            &mut streams.errors,
            why,
        ),
    };
    let texts = BothTexts {
        first: first.places,
        second: second.places,
    };
    match compare(alloc, diff, job, other, texts, first.cpu, second.cpu) {
        Ok(runs) => {
            let places = BothPlaces {
                names: names.as_ref(),
                others: others.as_ref(),
                texts,
            };
            tell_runs(alloc, diff, job, other, places, runs, streams)
        }
        Err(AllocError) => give_up(&mut streams.errors, &JobFault::Memory),
    }
}

/// Tells why the names in the maps of the other run's object aren't known, and answers the exit status,
/// 2.
#[inline(never)]
fn refuse_names<E: Write>(
    other: &Job<'_>,
    object: &[u8],
    errors: &mut Counted<E>,
    fault: LinkFault,
) -> u8
    ensures value { result ≡ 2 }
    ensures told { (name : Bor (List ℕ))
        × (name.now ≡ fault_names object.now other.now.target.section.now fault)
        × Told (stream E.contents errors.old errors.new) (line_of (Refused (OtherObject fault name))) }
{
    let names = fault_names(object, other.target.section, &fault);
    let name = names.as_slice();
    give_up(
        errors,
        &JobFault::Refused(JobRefusal::OtherObject(fault, name)),
    )
}

/// The names in the maps of the object that FILE's program comes from, unless no values are asked
/// about.
fn names_for<'a>(
    alloc: Global,
    diff: &DiffAsk,
    job: &Job<'_>,
    object: Option<&'a LinkedObject>,
) -> Result<Option<Names<'a>>, LinkFault>
    ensures ok { IfOk result (AreNamesFor diff.now.alone job.now (lent object.entry)) }
    ensures err { IfErr result (λ fault. (diff.now.alone ≡ false)
        × LacksNames (lent object.entry) (section_of job.now) fault) }
{
    if diff.alone {
        Ok(None)
    } else {
        names_of(alloc, job, object)
    }
}

/// Tells what two runs that were compared came to, and where the values came from in which they
/// differ.
fn tell_runs<W: Write, E: Write>(
    alloc: Global,
    diff: &DiffAsk,
    job: &Job<'_>,
    other: &Job<'_>,
    places: BothPlaces<'_>,
    runs: ComparedRuns,
    streams: &mut Streams<W, E>,
) -> u8
    requires { WereCompared diff.now job.now other.now places.names places.others places.texts runs }
    ensures does { EndsPrinted (Diff diff.now) job.now
        (between W.contents E.contents streams.old streams.new) result }
    ensures status { result ≤ 2 }
{
    let ComparedRuns {
        text,
        is_same,
        values,
        first,
        second,
    } = runs;
    let one = AskedRun {
        cpu: first,
        context: job.context,
        names: places.names,
        places: places.texts.first,
    };
    let another = AskedRun {
        cpu: second,
        context: other.context,
        names: places.others,
        places: places.texts.second,
    };
    match sources_of(alloc, diff, job, values, one, another) {
        Ok(sources) => {
            let told = text.as_slice();
            put_runs(diff, job, told, is_same, &sources, streams)
        }
        Err(fault) => give_up(
            &mut streams.errors,
            &JobFault::Refused(JobRefusal::Journal(fault)),
        ),
    }
}

/// Writes what is told of two runs, and of the values in which they differ.
fn put_runs<W: Write, E: Write>(
    diff: &DiffAsk,
    job: &Job<'_>,
    text: &[u8],
    is_same: bool,
    sources: &Sources,
    streams: &mut Streams<W, E>,
) -> u8
    requires { Prints (Diff diff.now) job.now
        (runs_told text.now is_same (sources.now.first.items, sources.now.second.items)) }
    ensures does { EndsPrinted (Diff diff.now) job.now
        (between W.contents E.contents streams.old streams.new) result }
    ensures status { result ≤ 2 }
{
    let first = sources.first.as_slice();
    let second = sources.second.as_slice();
    let told = put(&mut streams.output, Ok(()), text);
    let half = put_marked(&mut streams.output, told, b"< ", first);
    let all = put_marked(&mut streams.output, half, b"> ", second);
    let written = flush_after(&mut streams.output, all);
    end_of(written, is_same, &mut streams.errors)
}

/// The exit status of two runs that were compared, and told or not.
pub fn end_of<E: Write>(
    written: Result<(), WriteFault>,
    is_same: bool,
    errors: &mut Counted<E>,
) -> u8
    ensures ok { OnOk written ((errors.new ≡ errors.old) × (result ≡ diff_status is_same)) }
    ensures err { OnErr written (Told (stream E.contents errors.old errors.new) output_line
        × (result ≡ 2)) }
    ensures status { result ≤ 2 }
{
    match written {
        Ok(()) => status_of(is_same),
        Err(WriteFault) => give_up(errors, &JobFault::Output),
    }
}

/// The exit status of two runs that were told.
fn status_of(is_same: bool) -> u8
    ensures value { result ≡ diff_status is_same }
    ensures status { result ≤ 2 }
{
    if is_same { 0 } else { 1 }
}

/// The machine of the other run, which is this job's, before its first step.
fn other_machine<'a>(
    alloc: Global,
    diff: &DiffAsk,
    job: &Job<'_>,
    other: &Job<'a>,
    object: Option<&LinkedObject>,
) -> Result<OtherMachine, OtherFault<'a>>
    requires other { IsOtherRun diff.now job.now other.now }
    requires asked { IsOk (opening_asked other.now.options) }
    requires object { IsObjectOf job.now.target.kind job.now.target job.now.file.now (lent object) }
    ensures ok { IfOk result (λ machine. OpensOf other.now
        (beside (is_context diff.now.other) (lent object.entry) machine.object) machine.cpu) }
    ensures err { IfErr result (IsOtherFault other.now) }
{
    let Loaded { program, object } = match other_program(alloc, diff, job, other, object) {
        Ok(loaded) => loaded,
        Err(fault) => return Err(unloaded(other, fault)),
    };
    match open(alloc, program, other.context, &opening_for(&other.options)) {
        Ok(cpu) => Ok(OtherMachine { cpu, object }),
        Err(fault) => Err(OtherFault::Program(Refusal::Open(fault))),
    }
}

/// Its program, and the object of its own that this comes from: that of FILE once more, which has none
/// of its own, or that of the other file.
fn other_program<'a>(
    alloc: Global,
    diff: &DiffAsk,
    job: &Job<'_>,
    other: &Job<'a>,
    object: Option<&LinkedObject>,
) -> Result<Loaded, TargetFault<'a>>
    requires other { IsOtherRun diff.now job.now other.now }
    requires object { IsObjectOf job.now.target.kind job.now.target job.now.file.now (lent object) }
    ensures ok { IfOk result (λ loaded. Loads other.now.target other.now.file.now
        (loaded_of loaded.program (beside (is_context diff.now.other) (lent object.entry) loaded.object))) }
    ensures err { IfErr result (IsTargetFault other.now.target other.now.file.now) }
{
    if !diff.other.is_context() {
        return load(alloc, other.file, &other.target);
    }
    match load_again(alloc, other.file, &other.target, object) {
        Ok(program) => Ok(Loaded {
            program,
            object: None,
        }),
        Err(fault) => Err(fault),
    }
}

/// Why it isn't opened whose program isn't loaded.
fn unloaded<'a>(other: &Job<'_>, fault: TargetFault<'a>) -> OtherFault<'a>
    requires { IsTargetFault other.now.target other.now.file.now fault }
    ensures { IsOtherFault other.now result }
{
    match fault {
        TargetFault::Maps(fault) => OtherFault::Program(Refusal::Maps(fault)),
        TargetFault::Listing(fault) => OtherFault::Program(Refusal::Listing(fault)),
        TargetFault::Program(fault) => OtherFault::Program(Refusal::Load(fault)),
        TargetFault::Object(fault) => OtherFault::Object(fault),
    }
}

/// Tells why the other run's machine isn't opened, and answers the exit status, 2.
#[inline(never)]
fn refuse_other<E: Write>(fault: &OtherFault<'_>, errors: &mut Counted<E>) -> u8
    ensures value { result ≡ 2 }
    ensures told { (refusal : WhyRefused) × TellsOther fault.now refusal
        × Told (stream E.contents errors.old errors.new) (line_of (Refused refusal)) }
{
    match fault {
        OtherFault::Program(why) => {
            give_up(errors, &JobFault::Refused(JobRefusal::OtherRun(*why)))
        }
        OtherFault::Object(fault) => {
            let refusal = JobRefusal::OtherObject(fault.fault, fault.name());
            give_up(errors, &JobFault::Refused(refusal))
        }
    }
}

/// The job of the other run.
fn other_run<'a>(diff: &DiffAsk, job: &Job<'a>) -> Job<'a>
    ensures { IsOtherRun diff.now job.now result }
{
    let bytes = bytes_of(job);
    if diff.other.is_context() {
        Job {
            context: bytes,
            ..*job
        }
    } else {
        Job {
            file: bytes,
            target: Target {
                kind: job.other_kind,
                ..job.target
            },
            ..*job
        }
    }
}

/// The bytes of the other file.
pub fn bytes_of<'a>(job: &Job<'a>) -> &'a [u8]
    ensures { result.now ≡ other_bytes job.now.other }
{
    match job.other {
        Some(bytes) => bytes,
        None => &[],
    }
}
