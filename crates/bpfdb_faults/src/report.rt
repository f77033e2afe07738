//! What goes to standard output at once, and what goes to standard error.
ghost use Rattle.std.specs.Prelude.{◌≡◌, ◌≤◌, ◌++◌, OnErr, OnOk, [], codes};
ghost use Rattle.counted_io.specs.Writing.{Writes, WritesAfter};
ghost use Rattle.bpfdb_faults.specs.Streams.{Told, stream};
ghost use Rattle.bpfdb_faults.specs.Faults.{line_of};
ghost use Rattle.bpfdb_script.specs.Shown.{shown_lines};
ghost use Rattle.bpfdb_faults.specs.declared.fault.JobFault.TheVariants.{Output};

use crate::fault::JobFault;
use crate::line::put_line;
use bpfdb_script::put_shown_lines;
use counted_io::{Counted, WriteFault, put, write_text};
use std::io::Write;

/// Writes a whole output, and flushes.
pub fn write_out<W: Write>(writer: &mut Counted<W>, text: &[u8]) -> Result<(), WriteFault>
    ensures { Writes W.contents writer.old writer.new result text.now }
{
    let written = write_text(writer, text);
    flush_after(writer, written)
}

/// Flushes after what was written so far, unless that failed.
pub fn flush_after<W: Write>(
    writer: &mut Counted<W>,
    so_far: Result<(), WriteFault>,
) -> Result<(), WriteFault>
    ensures { WritesAfter W.contents writer.old so_far writer.new result [] }
{
    match so_far {
        Ok(()) => {}
        Err(fault) => return Err(fault),
    }
    match writer.flush() {
        Ok(()) => Ok(()),
        Err(_) => Err(WriteFault),
    }
}

/// Writes the line of a fault to standard error, and flushes.
pub fn tell<E: Write>(errors: &mut Counted<E>, fault: &JobFault<'_>) -> Result<(), WriteFault>
    ensures { Writes E.contents errors.old errors.new result (line_of fault.now) }
{
    let written = put_line(errors, Ok(()), fault);
    flush_after(errors, written)
}

/// Writes the line of a fault that ends a job to standard error, and flushes. Answers the exit
/// status, 2, whether the line could be written or not.
pub fn give_up<E: Write>(errors: &mut Counted<E>, fault: &JobFault<'_>) -> u8
    ensures value { result ≡ 2 }
    ensures told { Told (stream E.contents errors.old errors.new) (line_of fault.now) }
{
    match tell(errors, fault) {
        Ok(()) => 2,
        Err(WriteFault) => 2,
    }
}

/// Writes what is wrong with a command line to standard error, and flushes. The text has lines of
/// its own; control bytes of words in it are shown as those of names are. Answers the exit status,
/// 2, whether the text could be written or not.
pub fn tell_usage<E: Write>(errors: &mut Counted<E>, text: &str) -> u8
    ensures value { result ≡ 2 }
    ensures told { Told (stream E.contents errors.old errors.new) (shown_lines text.now) }
{
    match tell_text(errors, text) {
        Ok(()) => 2,
        Err(WriteFault) => 2,
    }
}

/// Writes a text of several lines to standard error, and flushes.
fn tell_text<E: Write>(errors: &mut Counted<E>, text: &str) -> Result<(), WriteFault>
    ensures { Writes E.contents errors.old errors.new result (shown_lines text.now) }
{
    let written = put_shown_lines(errors, Ok(()), text.as_bytes());
    flush_after(errors, written)
}

/// The exit status after an output that was written, or not.
pub fn ended<E: Write>(written: Result<(), WriteFault>, errors: &mut Counted<E>) -> u8
    ensures ok { OnOk written ((errors.new ≡ errors.old) × (result ≡ 0)) }
    ensures err { OnErr written (Told (stream E.contents errors.old errors.new) (line_of Output)
        × (result ≡ 2)) }
    ensures status { result ≤ 2 }
{
    match written {
        Ok(()) => 0,
        Err(WriteFault) => give_up(errors, &JobFault::Output),
    }
}

/// The exit status of a job of which something was told on standard error: this one, or 2 where it
/// couldn't be.
pub fn told_as(told: Result<(), WriteFault>, status: u8) -> u8
    ensures ok { OnOk told (result ≡ status) }
    ensures err { OnErr told (result ≡ 2) }
    ensures status { status ≤ 2 → result ≤ 2 }
{
    match told {
        Ok(()) => status,
        Err(WriteFault) => 2,
    }
}
