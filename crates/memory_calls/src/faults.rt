//! What is printed of faults by `Display`, which bpfdb doesn't go by: each way once, and each text
//! that bpfdb writes in no line.
use crate::telling::{Lack, say};
use bpf_isa::{LoadFault, MapFault, PieceFault, WordFault};
use bpf_journal::{JournalFault, MoveFault, TimelineFault};
use bpf_machine::{EditFault, Ended, OpenFault};
use bpf_session::{Refusal, RunFault};
use bpf_text::{AsmFault, LineFault};
use counted_io::Counted;
use std::alloc::{AllocError, Global};
use std::fmt::Display;
use std::io::Write;

/// Writes the line of a fault behind what is told, if there is memory for it.
fn tell<W: Write, D: Display>(
    alloc: Global,
    output: &mut Counted<W>,
    told: Result<(), Lack>,
    fault: &D,
) -> Result<(), Lack> {
    told?;
    match format!(in alloc; "{fault}\n") {
        Ok(line) => say(output, line.as_bytes()),
        Err(AllocError) => Err(Lack::Memory),
    }
}

/// The lines of faults of words, programs and maps.
fn tell_programs<W: Write>(alloc: Global, output: &mut Counted<W>) -> Result<(), Lack> {
    let (slot, fault) = (7, PieceFault::RunsOff);
    let told = tell(alloc, output, Ok(()), &WordFault::CutOff);
    let told = tell(alloc, output, told, &fault);
    let told = tell(alloc, output, told, &LoadFault::Empty);
    let told = tell(alloc, output, told, &LoadFault::At { slot, fault });
    tell(alloc, output, told, &MapFault::Full)
}

/// The lines of faults of listings, machines and journals, and of a refusal.
fn tell_openings<W: Write>(
    alloc: Global,
    output: &mut Counted<W>,
    told: Result<(), Lack>,
) -> Result<(), Lack> {
    let twice = AsmFault::Line(LineFault::LabelTwice(1), 3);
    let told = tell(alloc, output, told, &twice);
    let told = tell(alloc, output, told, &AsmFault::Memory);
    let told = tell(alloc, output, told, &OpenFault::ContextTooLong);
    let told = tell(alloc, output, told, &JournalFault::SizeOutOfRange);
    tell(alloc, output, told, &Refusal::NoCell)
}

/// The lines of the faults of edits.
fn tell_edits<W: Write>(
    alloc: Global,
    output: &mut Counted<W>,
    told: Result<(), Lack>,
) -> Result<(), Lack> {
    let told = tell(alloc, output, told, &EditFault::AddressNotPresent);
    let told = tell(alloc, output, told, &EditFault::RegisterNotWritable);
    let told = tell(alloc, output, told, &EditFault::NoStart);
    tell(alloc, output, told, &EditFault::NoCell)
}

/// The lines of the faults of moves and of streams.
fn tell_moves<W: Write>(
    alloc: Global,
    output: &mut Counted<W>,
    told: Result<(), Lack>,
) -> Result<(), Lack> {
    let refused = MoveFault::Edit(EditFault::NoStart);
    let told = tell(alloc, output, told, &Ended);
    let told = tell(alloc, output, told, &TimelineFault::Move(refused));
    let told = tell(alloc, output, told, &MoveFault::Ended);
    let told = tell(alloc, output, told, &TimelineFault::OutOfMemory);
    let told = tell(alloc, output, told, &RunFault::Read);
    tell(alloc, output, told, &RunFault::Write)
}

/// `Display`: the lines of all these.
pub fn tell_faults<W: Write>(alloc: Global, output: &mut Counted<W>) -> Result<(), Lack> {
    let told = tell_programs(alloc, output);
    let told = tell_openings(alloc, output, told);
    let told = tell_edits(alloc, output, told);
    tell_moves(alloc, output, told)
}
