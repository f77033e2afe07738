//! The values in which two runs differ.
ghost use Rattle.std.specs.Prelude.{◌≡◌, ℕ, Option};
ghost use Rattle.bpf_steps.specs.State.{State};
ghost use Rattle.bpf_trace.specs.Taken.{Took};
ghost use Rattle.bpf_diff.specs.Alike.{wrote};
ghost use Rattle.bpf_diff.specs.Following.{part_of, parts_of};
ghost use Rattle.bpf_diff.specs.Values.{part_at, value_left, value_of};

use crate::wrote::{Piece, Wrote, wrote_by};
use bpf_machine::Cpu;
use bpf_origin::{Part, Parts, Place, depth_for};
use bpf_trace::Taken;

/// Values of a run.
#[derive(Drop)]
pub struct Values {
    /// They stand there behind so many of its steps.
    pub steps: u64,
    /// Where they stand: nowhere where this run has none.
    pub parts: Parts,
}

/// What the step of a number wrote, which led to where a machine stands.
pub fn values_written(cpu: &Cpu, taken: &Taken, number: u64) -> Values
    ensures { (x : State) → Took x cpu.now taken.now →
        value_of result ≡ record { steps = number; parts = wrote x } }
{
    Values {
        steps: number,
        parts: parts_in(cpu, wrote_by(cpu, &taken.change)),
    }
}

/// The parts that a step wrote which led to where a machine stands.
fn parts_in(cpu: &Cpu, wrote: Wrote) -> Parts
    ensures { result.items ≡ parts_of cpu.now wrote }
{
    let mut parts = Parts::new();
    match wrote {
        Wrote::Nothing => {}
        Wrote::One(piece) => parts.push(part_in(cpu, piece)),
        Wrote::Two(piece, other) => {
            parts.push(part_in(cpu, piece));
            parts.push(part_in(cpu, other));
        }
    }
    parts
}

/// One of them.
fn part_in(cpu: &Cpu, piece: Piece) -> Part
    ensures { result ≡ part_of cpu.now piece }
{
    match piece {
        Piece::Register(number) => Part::Register {
            depth: depth_for(cpu.depth(), number),
            number,
        },
        Piece::Bytes { address, len } => Part::Bytes { address, len },
        Piece::Word(index) => Part::Word { index },
    }
}

/// What stands at a place, if something does, behind the step of a number.
pub fn value_left(place: Place, value: Option<u64>, number: u64) -> Values
    ensures { value_of result ≡ value_left place value number }
{
    let mut parts = Parts::new();
    match value {
        Some(_) => parts.push(part_at(place)),
        None => {}
    }
    Values {
        steps: number,
        parts,
    }
}

/// The part that is a place.
fn part_at(place: Place) -> Part
    ensures { result ≡ part_at place }
{
    match place {
        Place::Register { depth, number } => Part::Register { depth, number },
        Place::Word { index } => Part::Word { index },
        Place::Byte { address } => Part::Bytes { address, len: 1 },
    }
}
