//! What the jobs of `asm`, `lines` and `disasm` do.
ghost use Rattle.std.specs.Prelude.{◌≡◌, ◌≤◌};
ghost use Rattle.bpf_load.specs.Targets.{Loads};
ghost use Rattle.bpfdb_jobs.specs.Endings.{EndsPrinted};
ghost use Rattle.bpfdb_jobs.specs.Jobs.{links_first};
ghost use Rattle.bpfdb_options.specs.declared.ask.Ask.TheVariants.{Asm, Disasm, Lines};
ghost use Rattle.bpfdb_jobs.specs.Streams.{between};

use crate::job::Job;
use crate::object_lines::object_lines_job;
use crate::streams::Streams;
use bpf_load::{Loaded, SourceKind};
use bpf_text::{assemble, disassemble, line_table};
use bpfdb_faults::{JobFault, JobRefusal, ended, give_up, write_out};
use counted_io::Counted;
use std::alloc::Global;
use std::io::Write;

/// Writes the words of a listing. The program isn't checked.
pub fn asm_job<W: Write, E: Write>(alloc: Global, job: &Job<'_>, streams: &mut Streams<W, E>) -> u8
    ensures does { EndsPrinted Asm job.now
        (between W.contents E.contents streams.old streams.new) result }
    ensures status { result ≤ 2 }
{
    match assemble(alloc, job.file) {
        Ok(words) => {
            let written = write_out(&mut streams.output, words.as_slice());
            ended(written, &mut streams.errors)
        }
        Err(fault) => give_up(
            &mut streams.errors,
            &JobFault::Refused(JobRefusal::Listing(fault)),
        ),
    }
}

/// Writes the table of a listing's lines. The program isn't checked.
pub fn lines_job<W: Write, E: Write>(
    alloc: Global,
    job: &Job<'_>,
    streams: &mut Streams<W, E>,
) -> u8
    ensures does { EndsPrinted Lines job.now
        (between W.contents E.contents streams.old streams.new) result }
    ensures status { result ≤ 2 }
{
    if links_first(job.target.kind) {
        return object_lines_job(alloc, job, streams);
    }
    match line_table(alloc, job.file) {
        Ok(table) => {
            let written = write_out(&mut streams.output, table.as_slice());
            ended(written, &mut streams.errors)
        }
        Err(fault) => give_up(
            &mut streams.errors,
            &JobFault::Refused(JobRefusal::Listing(fault)),
        ),
    }
}

/// Whether FILE is an object, which is linked first.
fn links_first(kind: SourceKind) -> bool
    ensures { result ≡ links_first kind }
{
    match kind {
        SourceKind::Object => true,
        SourceKind::Words | SourceKind::Listing => false,
    }
}

/// Writes the canonical listing of a program.
pub fn disasm_job<W: Write, E: Write>(
    alloc: Global,
    job: &Job<'_>,
    loaded: &Loaded,
    streams: &mut Streams<W, E>,
) -> u8
    requires loaded { Loads job.now.target job.now.file.now loaded.now }
    ensures does { EndsPrinted Disasm job.now
        (between W.contents E.contents streams.old streams.new) result }
    ensures status { result ≤ 2 }
{
    match disassemble(alloc, &loaded.program) {
        Ok(listing) => {
            let written = write_out(&mut streams.output, listing.as_slice());
            ended(written, &mut streams.errors)
        }
        Err(_) => give_up(&mut streams.errors, &JobFault::Memory),
    }
}
