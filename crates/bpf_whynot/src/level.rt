//! From where a program can come to some slots, at one depth of calls.
ghost use Rattle.std.specs.Prelude.{◌≡◌, ◌<◌, IfOk, length};
ghost use Rattle.bpf_whynot.specs.Flows as flows;
ghost use Rattle.bpf_whynot.specs.Levels as spec;
ghost use Rattle.bpf_whynot.specs.Tables.{no_table};

use crate::flow::{ends, enters};
use crate::sources::Sources;
use crate::walk::come_back;
use bpf_isa::Program;
use std::alloc::{AllocError, Global};

/// What is known of each slot at one depth of calls.
#[derive(Drop)]
pub struct Level {
    /// Whether a goal can be come to before the function returns.
    pub hits: Vec<bool>,
    /// Whether the function can return.
    pub returns: Vec<bool>,
}

impl Level {
    /// Nothing is known.
    pub fn none(alloc: Global) -> Level
        ensures { spec.table_of result ≡ no_table }
    {
        Level {
            hits: Vec::new(alloc),
            returns: Vec::new(alloc),
        }
    }
}

/// What is known at one depth, by what is known of the functions that are called there.
pub fn level_of(
    alloc: Global,
    program: &Program,
    sources: &Sources,
    goals: &[bool],
    above: &Level,
) -> Result<Level, AllocError>
    requires sources { flows.AreSources program.now (length program.now.insns) sources.now }
    requires goals { length goals.now ≡ length program.now.insns }
    ensures { IfOk result (λ level. spec.IsLevel program.now goals.now (spec.table_of above.now)
        (spec.table_of level)) }
{
    let seeds = match hit_seeds(alloc, program, goals, above.hits.as_slice()) {
        Ok(seeds) => seeds,
        Err(error) => return Err(error),
    };
    let hits = match come_back(
        alloc,
        program,
        above.returns.as_slice(),
        sources,
        program.len(),
        seeds.as_slice(),
    ) {
        Ok(hits) => hits,
        Err(error) => return Err(error),
    };
    let exits = match end_seeds(alloc, program) {
        Ok(exits) => exits,
        Err(error) => return Err(error),
    };
    match come_back(
        alloc,
        program,
        above.returns.as_slice(),
        sources,
        program.len(),
        exits.as_slice(),
    ) {
        Ok(returns) => Ok(Level { hits, returns }),
        Err(error) => Err(error),
    }
}

/// The goals, and the calls of functions from whose first slot one can be come to.
fn hit_seeds(
    alloc: Global,
    program: &Program,
    goals: &[bool],
    above: &[bool],
) -> Result<Vec<bool>, AllocError>
    requires { length goals.now ≡ length program.now.insns }
    ensures { IfOk result (λ seeds. spec.AreSeeds (spec.is_seed program.now goals.now above.now)
        (length program.now.insns) seeds.items) }
{
    program.invariant();
    let mut seeds = match Vec::with_capacity(alloc, program.len()) {
        Ok(seeds) => seeds,
        Err(error) => return Err(error),
    };
    for slot in 0..program.len() {
        let is_seed = goals[slot] || enters(program, above, slot);
        match seeds.push(is_seed) {
            Ok(()) => {}
            Err(error) => return Err(error.into()),
        }
    }
    Ok(seeds)
}

/// The slots in which a function ends.
fn end_seeds(alloc: Global, program: &Program) -> Result<Vec<bool>, AllocError>
    ensures { IfOk result (λ seeds. spec.AreSeeds (flows.ends program.now)
        (length program.now.insns) seeds.items) }
{
    let mut seeds = match Vec::with_capacity(alloc, program.len()) {
        Ok(seeds) => seeds,
        Err(error) => return Err(error),
    };
    for slot in 0..program.len() {
        match seeds.push(ends(program, slot)) {
            Ok(()) => {}
            Err(error) => return Err(error.into()),
        }
    }
    Ok(seeds)
}
