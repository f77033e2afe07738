//! What names the places of a job's program, for a session that is asked about them.
ghost use Rattle.std.specs.Prelude.{◌≡◌, IfErr, IfOk, Option, Some, true};
ghost use Rattle.bpf_ring.specs.declared.fault.JournalFault.TheVariants.{OutOfMemory};
ghost use Rattle.bpf_lines.specs.DebugInfos.{AreWhole};
ghost use Rattle.bpf_load.specs.Targets.{lent};
ghost use Rattle.bpf_load.specs.declared.loading.LinkedObject.{LinkedObject as the_object};
ghost use Rattle.bpfdb_faults.specs.declared.refusal.JobRefusal.TheVariants.{Journal};
ghost use Rattle.bpfdb_jobs.specs.Namings.{HasLabels, HasNaming, NamesPlaces};

use crate::job::Job;
use crate::known::is_memory;
use bpf_journal::JournalFault;
use bpf_lines::{DebugInfo, ObjectLines, program_lines};
use bpf_load::{LinkedObject, SourceKind};
use bpf_text::{AsmFault, line_table};
use bpfdb_faults::JobRefusal;
use std::alloc::Global;

/// What names the places of a program, in memory.
#[derive(Drop)]
pub enum Naming<'a> {
    /// Nothing does, or what would can't be read.
    Nothing,
    /// The table of a listing's lines.
    Listing(Vec<u8>),
    /// The lines of the objects that the program was linked of.
    Object(Vec<ObjectLines<'a>>, &'a LinkedObject),
}

impl<'a> Naming<'a> {
    /// The same, lent.
    pub fn info<'b>(&'b self, job: &Job<'_>) -> DebugInfo<'b>
        ensures named { (object : Option the_object) → HasNaming job.now object self.now →
            NamesPlaces job.now object result }
        ensures whole { (object : Option the_object) → HasNaming job.now object self.now → AreWhole result }
    {
        match self {
            Naming::Nothing => DebugInfo::Nothing,
            Naming::Listing(table) => DebugInfo::Listing(table.as_slice()),
            Naming::Object(lines, object) => DebugInfo::Objects(
                lines.as_slice(),
                job.target.packet,
                object.program.words.as_slice(),
            ),
        }
    }
}

/// What names the places of a job's program, which comes from an object, or from none.
pub fn naming_of<'a>(
    alloc: Global,
    job: &'a Job<'a>,
    object: Option<&'a LinkedObject>,
) -> Result<Naming<'a>, JobRefusal<'static>>
    ensures ok { IfOk result (HasNaming job.now (lent object.entry)) }
    ensures err { IfErr result (λ refusal. refusal ≡ Journal OutOfMemory) }
{
    match object {
        Some(object) => object_naming(alloc, job, object),
        None => match job.target.kind {
            SourceKind::Listing => listing_naming(alloc, job),
            SourceKind::Words | SourceKind::Object => Ok(Naming::Nothing),
        },
    }
}

/// What names the places of an object's program.
fn object_naming<'a>(
    alloc: Global,
    job: &'a Job<'a>,
    object: &'a LinkedObject,
) -> Result<Naming<'a>, JobRefusal<'static>>
    ensures ok { IfOk result (HasNaming job.now (Some object.now)) }
    ensures err { IfErr result (λ refusal. refusal ≡ Journal OutOfMemory) }
{
    let own = object.sources.own.as_slice();
    match program_lines(alloc, own, job.target.section, job.target.with) {
        Ok(lines) => Ok(Naming::Object(lines, object)),
        Err(told) => {
            if is_memory(&told.fault) {
                Err(JobRefusal::Journal(JournalFault::OutOfMemory))
            } else {
                Ok(Naming::Nothing)
            }
        }
    }
}

/// What names the places of a listing.
fn listing_naming<'a>(alloc: Global, job: &Job<'_>) -> Result<Naming<'a>, JobRefusal<'static>>
    ensures ok { IfOk result (HasLabels true job.now) }
    ensures err { IfErr result (λ refusal. refusal ≡ Journal OutOfMemory) }
{
    match line_table(alloc, job.file) {
        Ok(table) => Ok(Naming::Listing(table)),
        Err(AsmFault::Memory) => Err(JobRefusal::Journal(JournalFault::OutOfMemory)),
        Err(AsmFault::Line(_, _)) => Ok(Naming::Nothing),
    }
}
