//! From where a function comes to a slot surely, whatever conditions decide.
ghost use Rattle.std.specs.Prelude.{◌≡◌, ℕ, Bool, IfOk, length};
ghost use Rattle.bpf_whynot.specs.Flows.{AreSources};
ghost use Rattle.bpf_whynot.specs.Levels.{AreSeeds};
ghost use Rattle.bpf_whynot.specs.Sures as spec;

use crate::flow::ends;
use crate::reach::is_flagged;
use crate::sources::{Sources, sources_of};
use crate::walk::come_back;
use bpf_isa::Program;
use std::alloc::{AllocError, Global};

/// From where a function comes to one of its slots surely: by each way of its jumps that comes to
/// an end of the function. What is called comes back.
#[derive(Drop)]
pub struct Sure {
    /// From which slots there is a way to it.
    comes: Vec<bool>,
    /// From which slots there is a way to an end, without it.
    ends: Vec<bool>,
}

impl Sure {
    /// Finds it for a slot. That takes time and memory in proportion to the program's length.
    pub fn find(alloc: Global, program: &Program, slot: usize) -> Result<Sure, AllocError>
        ensures { IfOk result (λ sure. spec.TellsSure program.now slot (spec.told_sure sure)) }
    {
        let sources = match sources_of(alloc, program) {
            Ok(sources) => sources,
            Err(error) => return Err(error),
        };
        let comes = match ways(alloc, program, &sources, slot, true) {
            Ok(comes) => comes,
            Err(error) => return Err(error),
        };
        match ways(alloc, program, &sources, slot, false) {
            Ok(ends) => Ok(Sure { comes, ends }),
            Err(error) => Err(error),
        }
    }

    /// Whether the function comes to it surely from a slot.
    pub fn is_sure_from(&self, slot: usize) -> bool
        ensures { result ≡ spec.told_sure self.now slot }
    {
        is_flagged(self.comes.as_slice(), slot) && !is_flagged(self.ends.as_slice(), slot)
    }
}

/// From which slots there is a way to a slot, or without it to an end.
fn ways(
    alloc: Global,
    program: &Program,
    sources: &Sources,
    slot: usize,
    to_slot: bool,
) -> Result<Vec<bool>, AllocError>
    requires sources { AreSources program.now (length program.now.insns) sources.now }
    ensures { IfOk result (λ marks. spec.AreWays program.now slot
        (spec.last_of program.now slot to_slot) marks.items) }
{
    match last_slots(alloc, program, slot, to_slot) {
        Ok(seeds) => ways_to(alloc, program, sources, slot, seeds.as_slice()),
        Err(error) => Err(error),
    }
}

/// From which slots there is a way to a flagged one, which doesn't go on from a slot.
pub(crate) fn ways_to(
    alloc: Global,
    program: &Program,
    sources: &Sources,
    slot: usize,
    seeds: &[bool],
) -> Result<Vec<bool>, AllocError>
    requires sources { AreSources program.now (length program.now.insns) sources.now }
    requires seeds { length seeds.now ≡ length program.now.insns }
    ensures { IfOk result (λ marks. (last : ℕ → Bool) →
        AreSeeds last (length program.now.insns) seeds.now →
        spec.AreWays program.now slot last marks.items) }
{
    program.invariant();
    let above = match Vec::from_elem(alloc, true, program.len()) {
        Ok(above) => above,
        Err(error) => return Err(error),
    };
    come_back(alloc, program, above.as_slice(), sources, slot, seeds)
}

/// The slot, or the other ones in which a function ends.
fn last_slots(
    alloc: Global,
    program: &Program,
    slot: usize,
    to_slot: bool,
) -> Result<Vec<bool>, AllocError>
    ensures { IfOk result (λ seeds. AreSeeds (spec.last_of program.now slot to_slot)
        (length program.now.insns) seeds.items) }
{
    let mut seeds = match Vec::with_capacity(alloc, program.len()) {
        Ok(seeds) => seeds,
        Err(error) => return Err(error),
    };
    for p in 0..program.len() {
        match seeds.push(is_last(program, slot, to_slot, p)) {
            Ok(()) => {}
            Err(error) => return Err(error.into()),
        }
    }
    Ok(seeds)
}

/// Whether one of them is the slot, or ends a function and isn't.
fn is_last(program: &Program, slot: usize, to_slot: bool, p: usize) -> bool
    ensures { result ≡ spec.last_of program.now slot to_slot p }
{
    if to_slot {
        p == slot
    } else {
        ends(program, p) && p != slot
    }
}
