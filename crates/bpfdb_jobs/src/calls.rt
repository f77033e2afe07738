//! The calls of a run that leave FILE's own code.
ghost use Rattle.std.specs.Prelude.{◌≡◌, OnOk};
ghost use Rattle.bpf_session.specs.Plain.{plain_end};
ghost use Rattle.bpf_trace.specs.Calls.{calls_text};
ghost use Rattle.bpf_trace.specs.Tellings.{Tells};
ghost use Rattle.bpfdb_jobs.specs.Jobs.{called_of};

use crate::known::Known;
use bpf_machine::Cpu;
use bpf_trace::{Called, TraceFault, write_calls};
use counted_io::{Counted, WriteFault};
use std::io::Write;

/// Writes them, and where the run ended.
pub fn write_called<W: Write>(
    limit: u64,
    known: Known<'_>,
    cpu: &mut Cpu,
    writer: &mut Counted<W>,
) -> Result<(), TraceFault>
    ensures told { Tells W.contents writer.old writer.new result
        (calls_text limit (called_of known.entry) cpu.old) }
    ensures next { OnOk result (cpu.new ≡ plain_end limit cpu.old) }
{
    let called = called_of(known);
    match write_calls(cpu, limit, &called, writer, Ok(())) {
        Ok(()) => Ok(()),
        Err(WriteFault) => Err(TraceFault::Write),
    }
}

/// Which calls they are.
fn called_of<'a>(known: Known<'a>) -> Called<'a>
    ensures { result ≡ called_of known.entry }
{
    Called {
        first: known.first,
        behind: known.behind,
        names: known.names,
        places: known.places,
    }
}
