//! The jumps that lead to each slot.
ghost use Rattle.std.specs.Prelude.{◌≡◌, ◌<◌, ◌+◌, IfOk, length};
ghost use Rattle.bpf_isa.specs.Programs.{Checked};
ghost use Rattle.bpf_whynot.specs.Flows as spec;

use crate::flow::jump;
use bpf_isa::Program;
use std::alloc::{AllocError, Global};

/// The jumps that lead to each slot, the last one first, and behind each one the one before it that
/// leads to the same slot. A slot stands there by its number and one, and 0 is the end.
#[derive(Drop)]
pub struct Sources {
    pub first: Vec<usize>,
    pub next: Vec<usize>,
}

/// The jumps of a program.
pub fn sources_of(alloc: Global, program: &Program) -> Result<Sources, AllocError>
    ensures { IfOk result (spec.AreSources program.now (length program.now.insns)) }
{
    program.invariant();
    let mut sources = match no_sources(alloc, program) {
        Ok(sources) => sources,
        Err(error) => return Err(error),
    };
    for slot in 0..program.len() {
        sources = with_source(sources, slot, jump(program, slot));
    }
    Ok(sources)
}

/// No jump.
fn no_sources(alloc: Global, program: &Program) -> Result<Sources, AllocError>
    ensures { IfOk result (spec.AreSources program.now 0) }
{
    let first = match Vec::from_elem(alloc, 0, program.len()) {
        Ok(first) => first,
        Err(error) => return Err(error),
    };
    let next = match Vec::from_elem(alloc, 0, program.len()) {
        Ok(next) => next,
        Err(error) => return Err(error),
    };
    Ok(Sources { first, next })
}

/// The jumps with that of one more slot, where it has one.
fn with_source(sources: Sources, slot: usize, target: Option<usize>) -> Sources
    requires { slot < length sources.next.items }
    ensures { (program : Checked) → slot < length program.insns
        → spec.jump program slot ≡ target
        → spec.AreSources program slot sources → spec.AreSources program (slot + 1) result }
{
    match target {
        Some(target) => {
            if target < sources.first.len() {
                put_source(sources, slot, target)
            } else {
                sources
            }
        }
        None => sources,
    }
}

/// The jumps with that of one more slot.
fn put_source(sources: Sources, slot: usize, target: usize) -> Sources
    requires target { target < length sources.first.items }
    requires slot { slot < length sources.next.items }
    ensures { spec.PutsSource slot target sources result }
{
    let mut sources = sources;
    let before = sources.first[target];
    sources.next[slot] = before;
    sources.first[target] = slot + 1;
    sources
}
