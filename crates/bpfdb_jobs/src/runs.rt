//! Two runs that are compared, in memory.
ghost use Rattle.std.specs.Prelude.{◌≡◌, IfOk};
ghost use Rattle.bpf_diff.specs.Values.{Finds};
ghost use Rattle.bpfdb_jobs.specs.Jobs.{comparison_of};
ghost use Rattle.bpfdb_jobs.specs.Openings.{AreCompared, OpensAs};
ghost use Rattle.counted_io.specs.Writing.{Writes};

use crate::job::Job;
use crate::opening::opening_for;
use bpf_diff::{BothTexts, Compared, Runs, Start, Values, put_diff, put_writes};
use bpf_machine::Cpu;
use bpfdb_options::DiffAsk;
use counted_io::{Counted, WriteFault};
use std::alloc::{AllocError, Global};
use std::io::Write;

/// Two runs that were compared.
#[derive(Drop)]
pub(crate) struct ComparedRuns {
    /// What is told of them.
    pub(crate) text: Vec<u8>,
    /// They are the same, or leave the same.
    pub(crate) is_same: bool,
    /// The values in which they differ, if it is values.
    pub(crate) values: Option<(Values, Values)>,
    /// Their machines.
    pub(crate) first: Cpu,
    pub(crate) second: Cpu,
}

/// The machines of two runs.
#[derive(Drop)]
struct Machines {
    first: Cpu,
    second: Cpu,
}

/// Runs two machines, and compares them as the job asks.
pub(crate) fn compare(
    alloc: Global,
    diff: &DiffAsk,
    job: &Job<'_>,
    other: &Job<'_>,
    texts: BothTexts<'_>,
    first: Cpu,
    second: Cpu,
) -> Result<ComparedRuns, AllocError>
    requires first { OpensAs job.now first }
    requires second { OpensAs other.now second }
    ensures { IfOk result (AreCompared texts.entry diff.now job.now other.now first second) }
{
    let mut writer = Counted::new(Vec::new(alloc));
    let mut machines = Machines { first, second };
    let compared = match put_compared(alloc, diff, job, other, texts, &mut writer, &mut machines) {
        Ok(compared) => compared,
        Err(error) => return Err(error),
    };
    match compared.written {
        Ok(()) => Ok(ComparedRuns {
            text: writer.into_inner(),
            is_same: compared.is_same,
            values: compared.values,
            first: machines.first,
            second: machines.second,
        }),
        Err(WriteFault) => Err(AllocError),
    }
}

/// Writes what is told of two machines that are run: of their steps, or of what they leave.
fn put_compared<W: Write>(
    alloc: Global,
    diff: &DiffAsk,
    job: &Job<'_>,
    other: &Job<'_>,
    texts: BothTexts<'_>,
    writer: &mut Counted<W>,
    machines: &mut Machines,
) -> Result<Compared, AllocError>
    requires first { OpensAs job.now machines.old.first }
    requires second { OpensAs other.now machines.old.second }
    ensures text { IfOk result (λ compared. Writes W.contents writer.old writer.new compared.written
        (comparison_of texts.entry diff.now job.now other.now machines.old.first machines.old.second).text) }
    ensures finds { IfOk result (λ compared. Finds compared
        (comparison_of texts.entry diff.now job.now other.now machines.old.first machines.old.second)) }
    ensures programs { IfOk result (λ compared. (machines.new.first.program ≡ machines.old.first.program)
        × (machines.new.second.program ≡ machines.old.second.program)) }
{
    let limit = job.options.limit;
    let first = &mut machines.first;
    let second = &mut machines.second;
    if diff.compares_writes {
        let one = opening_for(&job.options);
        let another = opening_for(&other.options);
        let runs = Runs {
            first: Start {
                context: job.context,
                opening: &one,
            },
            second: Start {
                context: other.context,
                opening: &another,
            },
            limit,
        };
        put_writes(alloc, writer, Ok(()), texts, first, second, &runs)
    } else {
        Ok(put_diff(writer, Ok(()), texts, first, second, limit))
    }
}
