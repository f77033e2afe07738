//! What the job of `lines` does over an object.
ghost use Rattle.std.specs.Prelude.{◌≡◌, ◌≤◌, true};
ghost use Rattle.bpf_load.specs.Targets.{LinksTo};
ghost use Rattle.bpfdb_jobs.specs.Endings.{EndsPrinted};
ghost use Rattle.bpfdb_jobs.specs.Jobs.{links_first};
ghost use Rattle.bpfdb_options.specs.declared.ask.Ask.TheVariants.{Lines};
ghost use Rattle.bpfdb_jobs.specs.Streams.{between};

use crate::job::Job;
use crate::known::lines_fault;
use crate::object::refuse_object;
use crate::streams::Streams;
use bpf_lines::{program_lines, write_table};
use bpf_load::{LinkedObject, link_object};
use bpfdb_faults::{ended, flush_after};
use counted_io::Counted;
use std::alloc::Global;
use std::io::Write;

/// Writes the table of the slots to which an object is linked, with those that are joined to it.
pub fn object_lines_job<W: Write, E: Write>(
    alloc: Global,
    job: &Job<'_>,
    streams: &mut Streams<W, E>,
) -> u8
    requires { links_first job.now.target.kind ≡ true }
    ensures does { EndsPrinted Lines job.now
        (between W.contents E.contents streams.old streams.new) result }
    ensures status { result ≤ 2 }
{
    match link_object(alloc, job.file, &job.target) {
        Ok(linked) => put_lines(alloc, job, &linked, streams),
        Err(fault) => refuse_object(&fault, &mut streams.errors),
    }
}

/// Writes the table of a program: the rows of FILE, and behind these those of the others, in the
/// order in which they are joined.
fn put_lines<W: Write, E: Write>(
    alloc: Global,
    job: &Job<'_>,
    linked: &LinkedObject,
    streams: &mut Streams<W, E>,
) -> u8
    requires object { links_first job.now.target.kind ≡ true }
    requires linked { LinksTo job.now.target job.now.file.now linked.now }
    ensures does { EndsPrinted Lines job.now
        (between W.contents E.contents streams.old streams.new) result }
    ensures status { result ≤ 2 }
{
    let own = linked.sources.own.as_slice();
    match program_lines(alloc, own, job.target.section, job.target.with) {
        Ok(all) => {
            let words = linked.program.words.as_slice();
            let written = write_table(
                &mut streams.output,
                job.target.packet,
                words,
                all.as_slice(),
            );
            let flushed = flush_after(&mut streams.output, written);
            ended(flushed, &mut streams.errors)
        }
        Err(told) => refuse_object(&lines_fault(job, &told), &mut streams.errors),
    }
}
