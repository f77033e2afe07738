//! The answer to a line.
ghost use Rattle.std.specs.Prelude.{◌≡◌, ◌++◌, [], codes};
ghost use Rattle.bpf_session.specs.Plain.{plain_end};
ghost use Rattle.bpfdb_script.specs.Texts.{place};
ghost use Rattle.bpf_batch.specs.Answers.{run_text, text_of_fault};
ghost use Rattle.counted_io.specs.Writing.{Writes, WritesAfter};

use crate::fault::Refusal;
use bpf_machine::Cpu;
use bpf_session::{Ending, run_plain};
use bpf_suite::put_numbered;
use bpf_trace::put_limit;
use bpfdb_script::put_place;
use counted_io::{Counted, WriteFault, put};
use std::io::Write;

/// Flushes after what was written so far, unless that failed.
fn flush_after<W: Write>(
    writer: &mut Counted<W>,
    so_far: Result<(), WriteFault>,
) -> Result<(), WriteFault>
    ensures { WritesAfter W.contents writer.old so_far writer.new result [] }
{
    match so_far {
        Ok(()) => {}
        Err(fault) => return Err(fault),
    }
    match writer.flush() {
        Ok(()) => Ok(()),
        Err(_) => Err(WriteFault),
    }
}

/// Writes why a case isn't run.
fn put_refusal<W: Write>(
    writer: &mut Counted<W>,
    so_far: Result<(), WriteFault>,
    refusal: &Refusal,
) -> Result<(), WriteFault>
    ensures { WritesAfter W.contents writer.old so_far writer.new result
        (text_of_fault refusal.now) }
{
    match refusal {
        Refusal::Line(fault) => {
            let (number, text) = (fault.number(), fault.text());
            put_numbered(writer, so_far, b"refused B", number, b"", None, text)
        }
        Refusal::Load(fault) => {
            bpf_suite::put_refusal(writer, so_far, &bpf_suite::Refusal::Load(*fault))
        }
        Refusal::Open(fault) => {
            bpf_suite::put_refusal(writer, so_far, &bpf_suite::Refusal::Open(*fault))
        }
    }
}

/// Writes why a case isn't run, as a line, and flushes.
pub fn put_refusal_line<W: Write>(
    writer: &mut Counted<W>,
    refusal: &Refusal,
) -> Result<(), WriteFault>
    ensures { Writes W.contents writer.old writer.new result
        (text_of_fault refusal.now ++ codes "\n") }
{
    let said = put_refusal(writer, Ok(()), refusal);
    let ended = put(writer, said, b"\n");
    flush_after(writer, ended)
}

/// Writes where a machine stands, as a line, and flushes.
fn put_place_line<W: Write>(writer: &mut Counted<W>, cpu: &Cpu) -> Result<(), WriteFault>
    ensures { Writes W.contents writer.old writer.new result (place cpu.now ++ codes "\n") }
{
    let placed = put_place(writer, Ok(()), cpu);
    let ended = put(writer, placed, b"\n");
    flush_after(writer, ended)
}

/// Runs a case to its end or to the limit, and writes what it came to, as a line; flushes.
pub fn run_case<W: Write>(
    cpu: &mut Cpu,
    limit: u64,
    writer: &mut Counted<W>,
) -> Result<(), WriteFault>
    ensures next { cpu.new ≡ plain_end limit cpu.old }
    ensures told { Writes W.contents writer.old writer.new result (run_text limit cpu.new) }
{
    match run_plain(cpu, limit, writer) {
        Ok(Ending::Exited) => Ok(()),
        Ok(Ending::Faulted) => put_place_line(writer, cpu),
        Ok(Ending::Limit) => {
            let limited = put_limit(writer, Ok(()), limit, cpu.pc());
            flush_after(writer, limited)
        }
        Err(_) => Err(WriteFault),
    }
}
