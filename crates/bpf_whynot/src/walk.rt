//! The slots from which control comes to some others within one function.
ghost use Rattle.std.specs.Prelude.{◌≡◌, ◌≤◌, ◌<◌, ◌↔◌, Some, true, IfOk, length};
ghost use Rattle.bpf_isa.specs.Checker.{most_slots};
ghost use Rattle.bpf_whynot.specs.Flows as flows;
ghost use Rattle.bpf_whynot.specs.Tables as tables;
ghost use Rattle.bpf_whynot.specs.Walks as spec;

use crate::flow::behind;
use crate::sources::Sources;
use bpf_isa::Program;
use std::alloc::{AllocError, Global};

/// The slots from which control is known to come to a seed.
#[derive(Drop)]
pub struct Walk {
    /// One flag a slot.
    pub marks: Vec<bool>,
    /// Those that are marked, in the order in which they were found.
    pub queue: Vec<usize>,
}

/// A walk that has marked a slot where a test holds.
fn mark_if(test: bool, slot: usize, walk: Walk) -> Result<Walk, AllocError>
    ensures { IfOk result (spec.MarksIf test slot walk) }
{
    let mut walk = walk;
    if !test || slot >= walk.marks.len() || walk.marks[slot] {
        return Ok(walk);
    }
    walk.marks[slot] = true;
    match walk.queue.push(slot) {
        Ok(()) => Ok(walk),
        Err(error) => Err(error.into()),
    }
}

/// Whether one slot stands behind another, where control may come to it. It doesn't leave `but`.
fn is_behind(program: &Program, above: &[bool], but: usize, slot: usize, to: usize) -> bool
    requires { slot ≤ most_slots }
    ensures { (result ≡ true)
        ↔ (flows.unless but (flows.behind program.now above.now) slot ≡ Some to) }
{
    if slot == but {
        return false;
    }
    match behind(program, above, slot) {
        Some(next) => next == to,
        None => false,
    }
}

/// A walk that has marked the slots behind whose instructions one stands.
fn look_behind(
    program: &Program,
    above: &[bool],
    but: usize,
    slot: usize,
    walk: Walk,
) -> Result<Walk, AllocError>
    requires { slot ≤ most_slots }
    ensures { IfOk result (spec.LooksBehind
        (flows.unless but (flows.behind program.now above.now)) slot walk) }
{
    let near = slot.saturating_sub(1);
    let far = slot.saturating_sub(2);
    match mark_if(is_behind(program, above, but, near, slot), near, walk) {
        Ok(walk) => mark_if(is_behind(program, above, but, far, slot), far, walk),
        Err(error) => Err(error),
    }
}

/// A walk that has marked the slots that jump to one, without `but`.
fn look_along(
    program: &Program,
    sources: &Sources,
    but: usize,
    slot: usize,
    walk: Walk,
) -> Result<Walk, AllocError>
    requires sources { flows.AreSources program.now (length program.now.insns) sources.now }
    requires within { slot < length program.now.insns }
    ensures { IfOk result (spec.LooksAlong (flows.unless but (flows.jump program.now)) slot walk) }
{
    let mut walk = walk;
    let mut at = sources.first[slot];
    while at > 0 {
        walk = match mark_if(at - 1 != but, at - 1, walk) {
            Ok(next) => next,
            Err(error) => return Err(error),
        };
        at = sources.next[at - 1];
    }
    Ok(walk)
}

/// A walk that has looked back from a slot.
fn look_back(
    program: &Program,
    above: &[bool],
    sources: &Sources,
    but: usize,
    slot: usize,
    walk: Walk,
) -> Result<Walk, AllocError>
    requires sources { flows.AreSources program.now (length program.now.insns) sources.now }
    requires within { slot < length program.now.insns }
    ensures { IfOk result (spec.LooksBack
        (flows.unless but (flows.behind program.now above.now))
        (flows.unless but (flows.jump program.now)) slot walk) }
{
    program.invariant();
    match look_behind(program, above, but, slot, walk) {
        Ok(walk) => look_along(program, sources, but, slot, walk),
        Err(error) => Err(error),
    }
}

/// A walk that has marked the seeds.
fn begun(alloc: Global, seeds: &[bool]) -> Result<Walk, AllocError>
    ensures { IfOk result (spec.Begins seeds.now (length seeds.now)) }
{
    let marks = match Vec::from_elem(alloc, false, seeds.len()) {
        Ok(marks) => marks,
        Err(error) => return Err(error),
    };
    let mut walk = Walk {
        marks,
        queue: Vec::new(alloc),
    };
    for slot in 0..seeds.len() {
        walk = match mark_if(seeds[slot], slot, walk) {
            Ok(next) => next,
            Err(error) => return Err(error),
        };
    }
    Ok(walk)
}

/// The slots from which control comes to a seed: behind an instruction and along jumps and, where
/// `above` has the slot that a call names, behind that. It never leaves `but`.
pub fn come_back(
    alloc: Global,
    program: &Program,
    above: &[bool],
    sources: &Sources,
    but: usize,
    seeds: &[bool],
) -> Result<Vec<bool>, AllocError>
    requires sources { flows.AreSources program.now (length program.now.insns) sources.now }
    requires seeds { length seeds.now ≡ length program.now.insns }
    ensures { IfOk result (λ marks. spec.AreBack
        (flows.unless but (flows.behind program.now above.now))
        (flows.unless but (flows.jump program.now))
        (tables.is_in seeds.now) (length program.now.insns) marks.items) }
{
    let mut walk = match begun(alloc, seeds) {
        Ok(walk) => walk,
        Err(error) => return Err(error),
    };
    for k in 0..program.len() {
        if k >= walk.queue.len() {
            return Ok(walk.marks);
        }
        let slot = walk.queue[k];
        walk = match look_back(program, above, sources, but, slot, walk) {
            Ok(next) => next,
            Err(error) => return Err(error),
        };
    }
    Ok(walk.marks)
}
