//! Runs without history.
ghost use Rattle.std.specs.Prelude.{◌≡◌, ◌++◌, Ok, codes};
ghost use Rattle.counted_io.specs.Writing.{Writes, hexadecimal};
ghost use Rattle.bpf_session.specs.Plain.{RunsPlain, plain_end};

use crate::fault::RunFault;
use bpf_machine::{Cpu, Status};
use bpfdb_script::number_in;
use counted_io::{Counted, WriteFault, put, put_hexadecimal};
use std::io::Write;

/// How a run ended.
#[derive(Clone, Copy)]
pub enum Ending {
    /// The program has returned.
    Exited,
    /// A step could not be taken.
    Faulted,
    /// The limit of steps was reached, and the machine still runs.
    Limit,
}

/// Takes the least number of steps after which the machine has ended or the limit is reached, and
/// says which. Of a program that has exited it writes r0 as 0x and lower-case digits, and a line
/// feed, and flushes; else it writes nothing. A machine that has ended before takes no step.
/// `RunFault::Write` where a write or the flush failed: the steps were taken.
pub fn run_plain<W: Write>(
    cpu: &mut Cpu,
    limit: u64,
    writer: &mut Counted<W>,
) -> Result<Ending, RunFault>
    ensures { RunsPlain W.contents limit cpu.old cpu.new writer.old writer.new result }
{
    take_steps(cpu, limit);
    match cpu.status() {
        Status::Running => Ok(Ending::Limit),
        Status::Faulted(_) => Ok(Ending::Faulted),
        Status::Exited => match write_result(number_in(cpu, 0), writer) {
            Ok(()) => Ok(Ending::Exited),
            Err(WriteFault) => Err(RunFault::Write),
        },
    }
}

/// The most steps that are taken by one call. (An engine of WebAssembly that has made faster code of a
/// function takes it where the function is called anew, and not within a call.)
const STEPS_OF_A_CALL: u64 = 65_536;

/// Takes steps until the machine has ended, at most the limit.
fn take_steps(cpu: &mut Cpu, limit: u64)
    ensures { cpu.new ≡ plain_end limit cpu.old }
{
    let mut taken = 0;
    while taken < limit {
        let most = (limit - taken).min(STEPS_OF_A_CALL);
        let count = cpu.run(most);
        taken += count;
        if count < most {
            return;
        }
    }
}

/// Writes a result and a line feed, and flushes.
fn write_result<W: Write>(number: u64, writer: &mut Counted<W>) -> Result<(), WriteFault>
    ensures { Writes W.contents writer.old writer.new result (hexadecimal number ++ codes "\n") }
{
    let told = put_hexadecimal(writer, Ok(()), number);
    match put(writer, told, b"\n") {
        Ok(()) => {}
        Err(fault) => return Err(fault),
    }
    match writer.flush() {
        Ok(()) => Ok(()),
        Err(_) => Err(WriteFault),
    }
}
