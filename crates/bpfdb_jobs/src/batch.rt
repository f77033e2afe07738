//! What a job of `batch` does.
ghost use Rattle.std.specs.Prelude.{◌≡◌, ◌≤◌, IfErr, OnOk};
ghost use Rattle.bpfdb_faults.specs.Streams.{Told, stream};
ghost use Rattle.bpfdb_jobs.specs.Cases.{EndsBatch, batch_line};
ghost use Rattle.bpfdb_jobs.specs.Streams.{between};

use crate::job::Job;
use crate::streams::Streams;
use bpf_batch::{Batch, BatchFault, run_batch};
use bpf_load::named_maps;
use bpfdb_faults::{JobFault, JobRefusal, give_up};
use counted_io::Counted;
use std::alloc::Global;
use std::io::{Read, Write};

/// Reads cases to the end of the input, runs each, and writes what it came to, a line each, flushed.
/// FILE's bytes are the words of the cases that have none of their own.
#[inline(never)]
pub fn batch_job<R: Read, W: Write, E: Write>(
    alloc: Global,
    job: &Job<'_>,
    reader: &mut Counted<R>,
    streams: &mut Streams<W, E>,
) -> u8
    ensures does { EndsBatch job.now (stream R.remaining reader.old reader.new)
        (between W.contents E.contents streams.old streams.new) result }
    ensures status { result ≤ 2 }
{
    let maps = match named_maps(&job.target) {
        Ok(maps) => maps,
        Err(fault) => return give_up(
            &mut streams.errors,
            &JobFault::Refused(JobRefusal::Maps(fault)),
        ),
    };
    let batch = Batch {
        maps: &maps,
        limit: job.options.limit,
        program: job.file,
    };
    batch_ended(
        run_batch(alloc, &batch, reader, &mut streams.output),
        &mut streams.errors,
    )
}

/// The exit status of a batch: 0, or 2 where it broke off, which is told.
fn batch_ended<E: Write>(answered: Result<(), BatchFault>, errors: &mut Counted<E>) -> u8
    ensures ok { OnOk answered ((errors.new ≡ errors.old) × (result ≡ 0)) }
    ensures err { IfErr answered (λ why. Told (stream E.contents errors.old errors.new)
        (batch_line why) × (result ≡ 2)) }
    ensures status { result ≤ 2 }
{
    match answered {
        Ok(()) => 0,
        Err(BatchFault::Read) => give_up(errors, &JobFault::Input),
        Err(BatchFault::Write) => give_up(errors, &JobFault::Output),
        Err(BatchFault::Memory) => give_up(errors, &JobFault::Memory),
    }
}
