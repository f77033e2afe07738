//! The step of a run that wrote a place last.
ghost use Rattle.std.specs.Prelude.{◌≡◌, ◌≤◌, ◌+◌, ◌&&◌, ℕ, IfOk, if◌then◌else◌, nat_le, nat_lt};
ghost use Rattle.std.specs.List.{list_any};
ghost use Rattle.bpf_steps.specs.Entries.{step_entry};
ghost use Rattle.bpf_steps.specs.Next.{next};
ghost use Rattle.bpf_steps.specs.Runs.{Advances};
ghost use Rattle.bpf_steps.specs.State.{State};
ghost use Rattle.bpf_origin.specs.Places.{has};
ghost use Rattle.bpf_origin.specs.Writes.{writes};
ghost use Rattle.bpf_trace.specs.Runs.{steps_of};
ghost use Rattle.bpf_trace.specs.Taken.{Took};
ghost use Rattle.bpf_diff.specs.Following.{part_of, parts_of};
ghost use Rattle.bpf_diff.specs.Starts.{begun_by};
ghost use Rattle.bpf_diff.specs.Outputs.{last_write as last_write_of, writer_line};
ghost use Rattle.counted_io.specs.Writing.{WritesAfter};

use crate::follow::take_step;
use crate::parting::put_rest;
use crate::start::Start;
use crate::wrote::{Piece, Wrote, wrote_by};
use bpf_machine::Cpu;
use bpf_opening::reopen;
use bpf_origin::{Place, depth_for};
use bpf_trace::Taken;
use bpfdb_script::SlotTexts;
use counted_io::{Counted, WriteFault, put};
use std::alloc::{AllocError, Global};
use std::io::Write;

/// The number of the last step that writes a place, of a run that begins so with the program of a
/// machine, which then stands before its first step; 0 where none does.
pub fn find_writer(
    alloc: Global,
    cpu: &mut Cpu,
    start: &Start<'_>,
    place: Place,
    limit: u64,
) -> Result<u64, AllocError>
    ensures start { IfOk result (λ number. cpu.new ≡ begun_by start.now cpu.old.program) }
    ensures value { IfOk result (λ number. number
        ≡ last_write_of place (steps_of limit (begun_by start.now cpu.old.program))) }
    ensures within { IfOk result (λ number. number ≤ limit) }
{
    match open_again(alloc, cpu, start) {
        Ok(()) => {}
        Err(fault) => return Err(fault),
    }
    let number = last_write(cpu, place, limit);
    match open_again(alloc, cpu, start) {
        Ok(()) => Ok(number),
        Err(why) => Err(why),
    }
}

/// Opens a machine again.
fn open_again(alloc: Global, cpu: &mut Cpu, start: &Start<'_>) -> Result<(), AllocError>
    ensures { IfOk result (λ done. cpu.new ≡ begun_by start.now cpu.old.program) }
{
    match reopen(alloc, cpu, start.context, start.opening) {
        Ok(()) => Ok(()),
        Err(_) => Err(AllocError),
    }
}

/// Runs to the end, or to a limit of steps, and answers the number of the last one that wrote a place,
/// 0 where none did.
fn last_write(cpu: &mut Cpu, place: Place, limit: u64) -> u64
    ensures value { result ≡ last_write_of place (steps_of limit cpu.old) }
    ensures within { result ≤ limit }
    ensures program { cpu.new.program ≡ cpu.old.program }
{
    let mut last = 0;
    for k in 0..limit {
        if cpu.status().has_ended() {
            return last;
        }
        let taken = take_step(cpu);
        last = last_of(writes_place(cpu, &taken, place), k + 1, last);
    }
    last
}

/// The number of the last step that wrote a place, where one with this number wrote it, or didn't.
fn last_of(here: bool, number: u64, last: u64) -> u64
    ensures { result ≡ (if here then number else last) }
{
    if here { number } else { last }
}

/// Whether a step that led to where a machine stands wrote a place.
fn writes_place(cpu: &Cpu, taken: &Taken, place: Place) -> bool
    ensures { (x : State) → Took x cpu.now taken.now →
        result ≡ writes (next x) (step_entry x) place }
{
    has_place(cpu, &wrote_by(cpu, &taken.change), place)
}

/// Whether a place is among what was written.
fn has_place(cpu: &Cpu, wrote: &Wrote, place: Place) -> bool
    ensures { result ≡ list_any (λ part. has part place) (parts_of cpu.now wrote.now) }
{
    match *wrote {
        Wrote::Nothing => false,
        Wrote::One(piece) => is_in(cpu, piece, place),
        Wrote::Two(one, other) => is_in(cpu, one, place) || is_in(cpu, other, place),
    }
}

/// Whether a place is one of a part.
fn is_in(cpu: &Cpu, piece: Piece, place: Place) -> bool
    ensures { result ≡ has (part_of cpu.now piece) place }
{
    match (piece, place) {
        (Piece::Register(register), Place::Register { depth, number }) => {
            depth_for(cpu.depth(), register) == depth && register == number
        }
        (Piece::Bytes { address, len }, Place::Byte { address: at }) => is_within(address, len, at),
        (Piece::Word(word), Place::Word { index }) => word == index,
        _ => false,
    }
}

/// Whether an address is one of so many from another one on.
fn is_within(address: u64, len: usize, at: u64) -> bool
    ensures { result ≡ nat_le address at && nat_lt at (address + len) }
{
    address <= at && at - address < len as u64
}

/// Writes the line of the step with a number, behind its mark, or that there is none, where it is 0;
/// and runs to the end, or to a limit of steps.
pub fn put_writer<W: Write>(
    writer: &mut Counted<W>,
    so_far: Result<(), WriteFault>,
    mark: &[u8],
    texts: SlotTexts<'_>,
    number: u64,
    cpu: &mut Cpu,
    limit: u64,
) -> Result<(), WriteFault>
    requires { number ≤ limit }
    ensures text { WritesAfter W.contents writer.old so_far writer.new result
        (writer_line mark.now texts.entry number (steps_of limit cpu.old)) }
    ensures end { (n : ℕ) × Advances limit cpu.old cpu.new n }
{
    if number == 0 {
        let marked = put(writer, so_far, mark);
        let _all = cpu.run(limit);
        return put(writer, marked, b"not written\n");
    }
    let passed = cpu.run(number - 1);
    put_rest(writer, so_far, mark, texts, number, cpu, limit - passed)
}
