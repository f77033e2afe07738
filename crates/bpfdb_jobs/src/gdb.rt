//! What a job of `gdb` does.
ghost use Rattle.std.specs.Prelude.{◌≡◌, ◌≤◌};
ghost use Rattle.bpf_load.specs.Targets.{lent};
ghost use Rattle.bpfdb_jobs.specs.Connections.{KnowsNames, layout_of};
ghost use Rattle.bpfdb_jobs.specs.Done.{ServesGdb};
ghost use Rattle.bpfdb_jobs.specs.Jobs.{IsKnown};
ghost use Rattle.bpfdb_limits.specs.Limits.{IsLimit};
ghost use Rattle.bpfdb_faults.specs.Streams.{stream};
ghost use Rattle.bpfdb_jobs.specs.Streams.{between};

use crate::ending::session_ended;
use crate::job::Job;
use crate::known::Known;
use crate::opening::{session_of, wanted_of};
use crate::origin::names_of;
use crate::streams::Streams;
use bpf_lines::Names;
use bpf_load::{LinkedObject, Loaded};
use bpf_remote::{Layout, Target, serve};
use bpfdb_faults::{JobFault, give_up};
use bpfdb_options::Registers;
use counted_io::Counted;
use std::alloc::Global;
use std::io::{Read, Write};

/// Opens a session as `debug` does, and serves gdb's remote protocol over the reader and the
/// writer, up to the end of what is read or until gdb leaves. All memory is taken before the first
/// packet is read, but for what answers why a slot was not come to.
#[inline(never)]
pub fn gdb_job<R: Read, W: Write, E: Write>(
    alloc: Global,
    registers: Registers,
    job: &Job<'_>,
    loaded: Loaded,
    known: Known<'_>,
    reader: &mut Counted<R>,
    streams: &mut Streams<W, E>,
) -> u8
    requires limit { IsLimit job.now.options.limit }
    requires known { IsKnown job.now loaded.object known }
    ensures does { ServesGdb registers job.now loaded (stream R.remaining reader.old reader.new)
        (between W.contents E.contents streams.old streams.new) result }
    ensures status { result ≤ 2 }
{
    let Loaded { program, object } = loaded;
    let mut session = match session_of(alloc, job, program) {
        Ok(session) => session,
        Err(refusal) => return give_up(&mut streams.errors, &JobFault::Refused(refusal)),
    };
    let mut wanted = match wanted_of(alloc) {
        Ok(wanted) => wanted,
        Err(refusal) => return give_up(&mut streams.errors, &JobFault::Refused(refusal)),
    };
    let source = object.as_ref();
    let names = known_names(alloc, job, source);
    let gdb = Target {
        layout: layout_of(registers),
        names: names.as_ref(),
        places: known.places,
    };
    let output = &mut streams.output;
    let served = serve(alloc, gdb, &mut session, &mut wanted, reader, output);
    session_ended(served, &mut streams.errors)
}

/// The names in the maps of the object that a program comes from, where they are known: a session is served
/// without them where there is no memory for them.
pub(crate) fn known_names<'a>(
    alloc: Global,
    job: &Job<'_>,
    object: Option<&'a LinkedObject>,
) -> Option<Names<'a>>
    ensures { KnowsNames job.now (lent object.entry) result }
{
    match names_of(alloc, job, object) {
        Ok(names) => names,
        Err(_) => None,
    }
}

/// The machine that gdb is told of.
fn layout_of(registers: Registers) -> Layout
    ensures { result ≡ layout_of registers }
{
    match registers {
        Registers::Bpf => Layout::Bpf,
        Registers::X86 => Layout::X86,
        Registers::Riscv => Layout::Riscv,
    }
}
