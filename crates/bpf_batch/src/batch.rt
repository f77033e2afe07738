//! The run of a batch: lines from a reader, and the answers to them.
ghost use Rattle.std.specs.Prelude.{◌≡◌, IfErr, IfOk, List, OnOk, Some, ℕ};
ghost use Rattle.bpf_batch.specs.Batches.{AnswersAll, BreaksOff, CountsAnswer, FailsBy, Suits, WritesAnswer, fault_of};
ghost use Rattle.input_texts.specs.ReadLines.{Holds};

use crate::answer::{put_refusal_line, run_case};
use crate::begin::begin;
use crate::fault::BatchFault;
use bpf_isa::MapTable;
use bpf_machine::Cpu;
use counted_io::{Counted, WriteFault};
use input_texts::{LineBuffer, ReadAhead, ReadFault, next_line};
use std::alloc::Global;
use std::io::{Read, Write};

/// What the cases of a batch share.
#[derive(Clone, Copy)]
pub struct Batch<'a> {
    /// Their maps.
    pub maps: &'a MapTable,
    /// The most steps that each takes.
    pub limit: u64,
    /// The words of the program of those that have none of their own.
    pub program: &'a [u8],
}

/// The fault of a batch whose line wasn't read.
fn fault_of(why: ReadFault) -> BatchFault
    ensures { result ≡ fault_of why }
{
    match why {
        ReadFault::Read => BatchFault::Read,
        ReadFault::Memory => BatchFault::Memory,
    }
}

/// Answers a line. Gives back the machine of its case for the next one, if it has run.
fn answer_line<W: Write>(
    alloc: Global,
    batch: &Batch<'_>,
    kept: Option<Cpu>,
    line: &LineBuffer,
    writer: &mut Counted<W>,
) -> Result<Option<Cpu>, BatchFault>
    requires kept { Suits batch.now kept }
    ensures value { (text : List ℕ) → Holds line.now text
        → WritesAnswer W.contents batch.now text writer.old writer.new result }
    ensures fault { CountsAnswer result writer.old writer.new }
    ensures kept { IfOk result (Suits batch.now) }
{
    let begun = match begin(alloc, batch, kept, line) {
        Ok(begun) => begun,
        Err(_) => return Err(BatchFault::Memory),
    };
    let mut cpu = match begun {
        Ok(cpu) => cpu,
        Err(refusal) => {
            return match put_refusal_line(writer, &refusal) {
                Ok(()) => Ok(None),
                Err(WriteFault) => Err(BatchFault::Write),
            };
        }
    };
    match run_case(&mut cpu, batch.limit, writer) {
        Ok(()) => Ok(Some(cpu)),
        Err(WriteFault) => Err(BatchFault::Write),
    }
}

/// Reads lines to their end, and answers each: runs the case that it is, and writes what that came
/// to, a line each, flushed. No case sees another. Where reading or writing fails, or memory runs
/// out, the lines before were answered.
pub fn run_batch<R: Read, W: Write>(
    alloc: Global,
    batch: &Batch<'_>,
    reader: &mut Counted<R>,
    writer: &mut Counted<W>,
) -> Result<(), BatchFault>
    ensures value { OnOk result ((script told : List ℕ) →
        R.remaining reader.old.inner ≡ Some script → W.contents writer.old.inner ≡ Some told →
        AnswersAll batch.now (record {
          script = script;
          told = told;
          after = W.contents writer.new.inner;
          left = R.remaining reader.new.inner;
        })) }
    ensures broken { IfErr result (λ why. (script told : List ℕ) →
        R.remaining reader.old.inner ≡ Some script → W.contents writer.old.inner ≡ Some told →
        BreaksOff why batch.now (record {
          script = script;
          told = told;
          after = W.contents writer.new.inner;
          left = R.remaining reader.new.inner;
        })) }
    ensures ok { OnOk result ((reader.new.failures ≡ reader.old.failures)
        × (writer.new.failures ≡ writer.old.failures)) }
    ensures err { IfErr result (λ why. FailsBy why reader.old reader.new writer.old writer.new) }
{
    let mut ahead = ReadAhead::new();
    let mut line = LineBuffer::new(alloc);
    let mut kept = None;
    'lines: loop {
        let next = match next_line(reader, &mut ahead, &mut line) {
            Err(why) => return Err(fault_of(why)),
            Ok(next) => next,
        };
        if next.is_missing() {
            return Ok(());
        }
        kept = match answer_line(alloc, batch, kept, &line, writer) {
            Err(why) => return Err(why),
            Ok(machine) => machine,
        };
        if next.is_last() {
            return Ok(());
        }
    }
}
