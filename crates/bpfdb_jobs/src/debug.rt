//! What a job of `debug` does.
ghost use Rattle.std.specs.Prelude.{◌≤◌};
ghost use Rattle.bpfdb_jobs.specs.Done.{Debugs};
ghost use Rattle.bpfdb_limits.specs.Limits.{IsLimit};
ghost use Rattle.bpfdb_faults.specs.Streams.{stream};

use crate::ending::session_ended;
use crate::job::Job;
use crate::opening::session_of;
use bpf_isa::Program;
use bpf_session::laws::nothing_refused_nothing_missing;
use bpf_session::run;
use bpfdb_faults::{JobFault, give_up};
use counted_io::Counted;
use std::alloc::Global;
use std::io::{Read, Write};

/// Does a job of `debug` over a program that the checker accepted, as [`tool`](crate::tool) does it: obeys the lines of the reader, the script,
/// up to the first `quit`, and writes their replies, each flushed. Answers the exit status: 0, or 2
/// where the job is refused, which reads and writes nothing, or where reading or writing fails. With 2
/// a line on `errors` says why. The limit of steps of a command is 1 to 1,000,000,000.
///
/// The journal takes its memory before the first line is read, so no reply says that it ran out.
#[inline(never)]
pub fn debug_job<R: Read, W: Write, E: Write>(
    alloc: Global,
    job: &Job<'_>,
    program: Program,
    reader: &mut Counted<R>,
    writer: &mut Counted<W>,
    errors: &mut Counted<E>,
) -> u8
    requires limit { IsLimit job.now.options.limit }
    ensures does { Debugs job.now program (stream R.remaining reader.old reader.new)
        (stream W.contents writer.old writer.new) (stream E.contents errors.old errors.new) result }
    ensures status { result ≤ 2 }
{
    let mut session = match session_of(alloc, job, program) {
        Ok(session) => session,
        Err(refusal) => return give_up(errors, &JobFault::Refused(refusal)),
    };
    nothing_refused_nothing_missing();
    let served = run(&mut session, reader, writer);
    session_ended(served, errors)
}
