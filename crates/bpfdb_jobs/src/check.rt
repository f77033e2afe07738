//! What a job of `check` does.
ghost use Rattle.std.specs.Prelude.{◌≡◌, ◌≤◌, count_by, is_some};
ghost use Rattle.bpf_load.specs.Targets.{Loads};
ghost use Rattle.counted_io.specs.Writing.{Writes};
ghost use Rattle.bpfdb_jobs.specs.Endings.{EndsPrinted};
ghost use Rattle.bpfdb_jobs.specs.Programs.{check_line};
ghost use Rattle.bpfdb_options.specs.declared.ask.Ask.TheVariants.{Check};
ghost use Rattle.bpfdb_jobs.specs.Streams.{between};

use crate::job::Job;
use crate::streams::Streams;
use bpf_isa::Program;
use bpf_load::Loaded;
use bpfdb_faults::{ended, flush_after};
use counted_io::{Counted, Piece, WriteFault, put_all};
use std::io::Write;

/// Writes how many instructions and slots a program has that the checker accepted.
pub fn check_job<W: Write, E: Write>(
    job: &Job<'_>,
    loaded: &Loaded,
    streams: &mut Streams<W, E>,
) -> u8
    requires loaded { Loads job.now.target job.now.file.now loaded.now }
    ensures does { EndsPrinted Check job.now
        (between W.contents E.contents streams.old streams.new) result }
    ensures status { result ≤ 2 }
{
    let written = write_size(&loaded.program, &mut streams.output);
    ended(written, &mut streams.errors)
}

/// Writes how many instructions and slots a program has, and flushes.
fn write_size<W: Write>(program: &Program, writer: &mut Counted<W>) -> Result<(), WriteFault>
    ensures { Writes W.contents writer.old writer.new result (check_line program.now) }
{
    let written = put_size(program, writer);
    flush_after(writer, written)
}

/// Writes how many instructions and slots a program has.
pub fn put_size<W: Write>(program: &Program, writer: &mut Counted<W>) -> Result<(), WriteFault>
    ensures { Writes W.contents writer.old writer.new result (check_line program.now) }
{
    let instructions = instructions(program) as u64;
    let slots = program.len() as u64;
    let pieces = [
        Piece::Text(b"ok "),
        Piece::Decimal(instructions),
        Piece::Text(b" instructions in "),
        Piece::Decimal(slots),
        Piece::Text(b" slots\n"),
    ];
    put_all(writer, Ok(()), &pieces)
}

/// How many instructions a program has.
fn instructions(program: &Program) -> usize
    ensures { result ≡ count_by is_some program.now.insns }
{
    let mut count = 0;
    for slot in 0..program.len() {
        if program.insn_at(slot).is_some() {
            count += 1;
        }
    }
    count
}
