//! What gdb's user is told beside an answer.
ghost use Rattle.std.specs.Prelude.{◌≡◌};
ghost use Rattle.counted_io.specs.Writing.{Writes};
ghost use Rattle.bpf_remote.specs.Remarks.{dropped_text, is_told, limit_text, remark_of, remark_of_end, remark_of_move, remark_text};

use crate::answer::{Answer, Halt};
use crate::request::Request;
use bpf_machine::Cpu;
use bpfdb_script::write_place;
use counted_io::{Counted, WriteFault, put, put_decimal, write_text};
use std::io::Write;

/// What gdb's user is told beside an answer.
#[derive(Clone, Copy)]
pub enum Remark {
    /// Nothing.
    Nothing,
    /// Where the machine stands, which has ended.
    Place,
    /// The limit of steps, which was reached.
    Limit(u64),
    /// How many moves the journal dropped before the beginning, which was reached.
    Dropped(u64),
}

/// What is told beside the answer to a request.
pub(crate) fn remark_of(
    request: &Request,
    told: Answer,
    cpu: &Cpu,
    limit: u64,
    dropped: u64,
) -> Remark
    ensures { result ≡ remark_of request.now told cpu.now limit dropped }
{
    match request {
        Request::Move(_) | Request::Range { .. } => remark_of_move(told, cpu, limit, dropped),
        _ => Remark::Nothing,
    }
}

/// What is told beside the answer to a move.
fn remark_of_move(told: Answer, cpu: &Cpu, limit: u64, dropped: u64) -> Remark
    ensures { result ≡ remark_of_move told cpu.now limit dropped }
{
    match told {
        Answer::Halted(Halt::Limit) => Remark::Limit(limit),
        Answer::Halted(Halt::Begin) => {
            if dropped > 0 {
                Remark::Dropped(dropped)
            } else {
                remark_of_end(cpu)
            }
        }
        _ => remark_of_end(cpu),
    }
}

/// What is told where nothing else is: where the machine has ended.
fn remark_of_end(cpu: &Cpu) -> Remark
    ensures { result ≡ remark_of_end cpu.now }
{
    if cpu.status().has_ended() {
        Remark::Place
    } else {
        Remark::Nothing
    }
}

impl Remark {
    /// Whether anything is told.
    pub(crate) fn is_told(self) -> bool
        ensures { result ≡ is_told self }
    {
        !matches!(self, Remark::Nothing)
    }
}

/// Writes the line of a remark.
pub(crate) fn write_remark<W: Write>(
    remark: Remark,
    cpu: &Cpu,
    writer: &mut Counted<W>,
) -> Result<(), WriteFault>
    ensures { Writes W.contents writer.old writer.new result (remark_text remark cpu.now) }
{
    match remark {
        Remark::Nothing => write_text(writer, b""),
        Remark::Place => write_place(cpu, writer),
        Remark::Limit(limit) => write_limit(limit, writer),
        Remark::Dropped(dropped) => write_dropped(dropped, writer),
    }
}

/// Writes which limit of steps was reached.
fn write_limit<W: Write>(limit: u64, writer: &mut Counted<W>) -> Result<(), WriteFault>
    ensures { Writes W.contents writer.old writer.new result (limit_text limit) }
{
    let named = write_text(writer, b"limit of ");
    let counted = put_decimal(writer, named, limit);
    put(writer, counted, b" steps: continue goes on")
}

/// Writes how many moves were dropped.
fn write_dropped<W: Write>(dropped: u64, writer: &mut Counted<W>) -> Result<(), WriteFault>
    ensures { Writes W.contents writer.old writer.new result (dropped_text dropped) }
{
    let named = write_text(writer, b"the journal dropped ");
    let counted = put_decimal(writer, named, dropped);
    put(writer, counted, b" older moves: --journal keeps more")
}
