//! What is known of the slots of a program that was linked: where they stand in C.
ghost use Rattle.std.specs.Prelude.{◌≡◌, All, IfErr, IfOk, None, OnOk, Some, map, option_map, true};
ghost use Rattle.bpf_lines.specs.Objects.{HasPartLines};
ghost use Rattle.bpf_link.specs.Names.{fault_names};
ghost use Rattle.bpf_link.specs.declared.fault.LinkFault.TheVariants.{Memory};
ghost use Rattle.bpf_load.specs.Faults.{Tells};
ghost use Rattle.bpfdb_jobs.specs.Jobs.{AreLinesFor, HasFunctions, asked_place, behind_of, first_of, is_memory, names_of, own_by, place_in, tells_calls, tells_places};
ghost use Rattle.bpfdb_jobs.specs.Objects.{ArePlaces, HasLines, is_check};
ghost use Rattle.bpfdb_jobs.specs.Refusals.{LacksPlaces, lines_names};

use crate::job::Job;
use crate::whynot::asked;
use bpf_isa::MOST_SLOTS;
use bpf_lines::{
    Functions, LinesFault, ObjectLines, is_place, own_slots, program_functions, program_lines,
    program_places, program_slots,
};
use bpf_link::{LinkFault, fault_names};
use bpf_load::{LinkedObject, ObjectFault, in_object};
use bpf_trace::OwnCode;
use bpfdb_options::{Ask, WhynotAsk};
use bpfdb_script::SlotTexts;
use std::alloc::{AllocError, Global};

/// What is known of a program's slots.
#[derive(Clone, Copy)]
pub struct Known<'a> {
    /// Where each stands in C, where that is told: it ends the lines of steps and moves.
    pub places: SlotTexts<'a>,
    /// Which of them are FILE's own code, where that is told; else none.
    pub own: OwnCode,
    /// Those of the place of an object which `whynot` asks about, where it is one: numbers with commas
    /// between. Without them what the options ask about counts.
    pub goals: Option<&'a [u8]>,
    /// The names of their functions, where calls are told.
    pub names: SlotTexts<'a>,
    /// The first slot of FILE's own code, and the slot behind it: of all, unless it is an object whose
    /// calls are told.
    pub first: usize,
    pub behind: usize,
}

/// The same, in memory.
#[derive(Drop)]
pub struct Places {
    pub texts: Option<Vec<Vec<u8>>>,
    pub own: OwnCode,
    pub goals: Option<Vec<u8>>,
    pub functions: Option<Functions>,
}

impl Places {
    /// What is known.
    pub fn known(&self) -> Known<'_>
        ensures places { option_map (λ texts. map (λ text. text.items) texts.now) result.places
            ≡ option_map (λ texts. map (λ text. text.items) texts.items) self.now.texts }
        ensures own { result.own ≡ self.now.own }
        ensures goals { option_map (λ goals. goals.now) result.goals
            ≡ option_map (λ goals. goals.items) self.now.goals }
        ensures names { option_map (λ names. map (λ name. name.items) names.now) result.names
            ≡ names_of self.now.functions }
        ensures first { result.first ≡ first_of self.now.functions }
        ensures behind { result.behind ≡ behind_of self.now.functions }
    {
        Known {
            places: match &self.texts {
                Some(texts) => Some(texts.as_slice()),
                None => None,
            },
            own: self.own,
            goals: match &self.goals {
                Some(goals) => Some(goals.as_slice()),
                None => None,
            },
            names: self.names(),
            first: self.first(),
            behind: self.behind(),
        }
    }
}

impl Places {
    /// The names of functions.
    fn names(&self) -> SlotTexts<'_>
        ensures { option_map (λ names. map (λ name. name.items) names.now) result
            ≡ names_of self.now.functions }
    {
        match &self.functions {
            Some(functions) => Some(functions.names.as_slice()),
            None => None,
        }
    }

    /// The first slot of FILE's own code.
    fn first(&self) -> usize
        ensures { result ≡ first_of self.now.functions }
    {
        match &self.functions {
            Some(functions) => functions.first,
            None => 0,
        }
    }

    /// The slot behind it.
    fn behind(&self) -> usize
        ensures { result ≡ behind_of self.now.functions }
    {
        match &self.functions {
            Some(functions) => functions.behind,
            None => MOST_SLOTS,
        }
    }
}

/// Whether it is asked about the program of FILE, which is loaded.
pub fn is_check(ask: &Ask<'_>) -> bool
    ensures { result ≡ is_check ask.now }
{
    match ask {
        Ask::Asm => false,
        Ask::Lines => false,
        Ask::Link { .. } => false,
        Ask::Test(_) => false,
        Ask::Batch => false,
        _ => true,
    }
}

/// The place of an object which is asked about, if it is one.
pub fn asked_place<'a>(ask: &Ask<'a>) -> Option<&'a [u8]>
    ensures { option_map (λ place. place.now) result ≡ asked_place ask.now }
{
    match ask {
        Ask::Whynot(why) => place_in(why),
        _ => None,
    }
}

/// The place which `whynot` asks about, if it is one.
fn place_in<'a>(why: &WhynotAsk<'a>) -> Option<&'a [u8]>
    ensures { option_map (λ place. place.now) result ≡ place_in why.now }
{
    let what = asked(why).as_bytes();
    if is_place(what) { Some(what) } else { None }
}

/// Whether a fault is want of memory.
pub fn is_memory(fault: &LinkFault) -> bool
    ensures { result ≡ is_memory fault.now }
{
    match fault {
        LinkFault::Memory => true,
        _ => false,
    }
}

/// Whether the lines of an answer tell where slots stand in C.
fn tells_places(ask: &Ask<'_>) -> bool
    ensures { result ≡ tells_places ask.now }
{
    match ask {
        Ask::Run { .. } => true,
        Ask::Trace(_) => true,
        Ask::Conversation(_) => true,
        Ask::Origin(_) => true,
        Ask::Whynot(_) => true,
        Ask::Diff(_) => true,
        Ask::Gdb(_) => true,
        _ => false,
    }
}

/// Whether calls are told.
fn tells_calls(ask: &Ask<'_>) -> bool
    ensures { result ≡ tells_calls ask.now }
{
    match ask {
        Ask::Trace(trace) => trace.is_calls,
        _ => false,
    }
}

/// What is known of the slots of a job's program, which comes from an object: where they stand, if the
/// job tells steps or moves, and those of the place that it asks about, if it asks about one.
pub fn places_of(
    alloc: Global,
    job: &Job<'_>,
    object: &LinkedObject,
) -> Result<Places, ObjectFault<'static>>
    ensures ok { IfOk result (ArePlaces job.now (Some object.now)) }
    ensures lines { OnOk result (HasLines job.now (Some object.now) (tells_places job.now.ask)) }
    ensures err { IfErr result (λ it. (tells_places job.now.ask ≡ true)
        × LacksPlaces job.now object.now it) }
{
    if !tells_places(&job.ask) {
        return Ok(nowhere());
    }
    let own = object.sources.own.as_slice();
    match program_lines(alloc, own, job.target.section, job.target.with) {
        Ok(lines) => places_in(alloc, job, object, lines.as_slice()),
        Err(told) => Err(lines_fault(job, &told)),
    }
}

/// Nothing is known of them.
pub fn nowhere() -> Places
    ensures texts { result.texts ≡ None }
    ensures own { result.own ≡ own_by (0, 0) }
    ensures goals { result.goals ≡ None }
    ensures functions { result.functions ≡ None }
{
    Places {
        texts: None,
        own: own_code((0, 0)),
        goals: None,
        functions: None,
    }
}

/// What is known of them by what is told of its lines.
fn places_in(
    alloc: Global,
    job: &Job<'_>,
    object: &LinkedObject,
    lines: &[ObjectLines<'_>],
) -> Result<Places, ObjectFault<'static>>
    requires lines { AreLinesFor job.now object.now lines.now × All HasPartLines lines.now }
    requires tells { tells_places job.now.ask ≡ true }
    ensures ok { IfOk result (ArePlaces job.now (Some object.now)) }
    ensures err { IfErr result (LacksPlaces job.now object.now) }
{
    let words = object.program.words.as_slice();
    let texts = match program_places(alloc, lines, job.target.packet, words) {
        Ok(texts) => texts,
        Err(_) => return Err(want_of_memory(job, object)),
    };
    let own = own_code(own_slots(job.target.packet, words, lines));
    let Ok(functions) = functions_in(alloc, job, object, lines) else {
        return Err(want_of_memory(job, object));
    };
    let Some(what) = asked_place(&job.ask) else {
        return Ok(Places {
            texts: Some(texts),
            own,
            goals: None,
            functions,
        });
    };
    match program_slots(alloc, lines, job.target.packet, words, what) {
        Ok(goals) => Ok(Places {
            texts: Some(texts),
            own,
            goals: Some(goals),
            functions,
        }),
        Err(_) => Err(want_of_memory(job, object)),
    }
}

/// The functions of the program's slots, if calls are told.
fn functions_in(
    alloc: Global,
    job: &Job<'_>,
    object: &LinkedObject,
    lines: &[ObjectLines<'_>],
) -> Result<Option<Functions>, AllocError>
    requires { AreLinesFor job.now object.now lines.now × All HasPartLines lines.now }
    ensures { IfOk result (HasFunctions (tells_calls job.now.ask) job.now (Some object.now)) }
{
    if !tells_calls(&job.ask) {
        return Ok(None);
    }
    let words = object.program.words.as_slice();
    match program_functions(alloc, lines, job.target.packet, words) {
        Ok(functions) => Ok(Some(functions)),
        Err(AllocError) => Err(AllocError),
    }
}

/// FILE's own code, by its first slot and that behind the last.
fn own_code(slots: (usize, usize)) -> OwnCode
    ensures { result ≡ own_by slots }
{
    OwnCode {
        first: slots.0,
        behind: slots.1,
    }
}

/// Memory ran out for what is known of an object.
fn want_of_memory(job: &Job<'_>, object: &LinkedObject) -> ObjectFault<'static>
    ensures { Tells Memory None (fault_names object.now.sources.own.items job.now.target.section.now Memory) result }
{
    let own = object.sources.own.as_slice();
    in_object(own, job.target.section, LinkFault::Memory)
}

/// A fault of an object whose lines aren't told.
pub fn lines_fault(job: &Job<'_>, told: &LinesFault<'_>) -> ObjectFault<'static>
    ensures { Tells told.now.fault told.now.index (lines_names told.now.index job.now told.now) result }
{
    let section = match told.index {
        None => job.target.section,
        Some(_) => b".text",
    };
    ObjectFault {
        fault: told.fault,
        index: told.index,
        asked: None,
        found: fault_names(told.object.bytes, section, &told.fault),
    }
}
