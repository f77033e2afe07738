//! From where a program can come to some slots.
ghost use Rattle.std.specs.Prelude.{◌≡◌, ◌≤◌, ◌<◌, ℕ, List, IfOk, length, map};
ghost use Rattle.bpf_steps.specs.State.{depth};
ghost use Rattle.bpf_whynot.specs.Levels as levels;
ghost use Rattle.bpf_whynot.specs.Reach as spec;
ghost use Rattle.bpf_whynot.specs.Tables as tables;

use crate::level::{Level, level_of};
use crate::sources::sources_of;
use bpf_isa::Program;
use bpf_machine::Cpu;
use std::alloc::{AllocError, Global};
use std::marker::Model;

/// How many functions can stand at once.
const FRAMES: usize = 8;

/// From where a program can come to some slots: from which slot, with which ones to return to.
#[derive(Drop)]
pub struct Reach {
    levels: Vec<Level>,
}

impl Model for Reach {
    ghost use Rattle.std.specs.Prelude.{◌≡◌, List, length, map};
    ghost use Rattle.bpf_whynot.specs.Levels.{table_of};
    ghost use Rattle.bpf_whynot.specs.Tables.{Table};

    ghost Value = { List Table };

    ghost view = { λ r. map table_of r.levels.items };

    ghost invariant = { λ r. length r.levels.items ≡ 8 };
}

impl Reach {
    /// Finds it for the slots that are flagged. That takes time in proportion to the program's length.
    pub fn find(alloc: Global, program: &Program, goals: &[bool]) -> Result<Reach, AllocError>
        requires { length goals.now ≡ length program.now.insns }
        ensures { IfOk result (λ reach. (slots : List ℕ) →
            tables.AreGoals program.now slots goals.now →
            spec.TellsReach program.now slots (tables.told_by reach)) }
    {
        match levels_of(alloc, program, goals) {
            Ok(levels) => Ok(Reach { levels }),
            Err(error) => Err(error),
        }
    }

    /// Whether a machine can come to one of the slots from where it stands. An ended one can't.
    pub fn can_from(&self, cpu: &Cpu) -> bool
        ensures { result ≡ spec.can_from (tables.told_by self.now) cpu.now }
    {
        if cpu.status().has_ended() {
            false
        } else {
            self.can_come(cpu)
        }
    }

    /// Whether a machine that runs can come to one of the slots: before the function returns in
    /// which it stands, or from where that one returns to, and so on.
    fn can_come(&self, cpu: &Cpu) -> bool
        ensures { result ≡ tables.told_by self.now cpu.now.pc (spec.return_slots cpu.now) }
    {
        cpu.invariant();
        let mut slot = usize::from(cpu.pc());
        for i in 0..cpu.depth() {
            let level = self.level(cpu.depth() - i);
            if is_flagged(level.hits.as_slice(), slot) {
                return true;
            }
            if !is_flagged(level.returns.as_slice(), slot) {
                return false;
            }
            slot = return_slot(cpu, i);
        }
        is_flagged(self.level(0).hits.as_slice(), slot)
    }

    /// What is known at a depth of calls.
    fn level(&self, depth: usize) -> &Level
        requires { depth ≤ 7 }
        ensures { levels.table_of result.now ≡ tables.table_of_depth self.now depth }
    {
        &self.levels[FRAMES - 1 - depth]
    }
}

/// Whether a slot is flagged. Behind the last one none is.
pub(crate) fn is_flagged(flags: &[bool], slot: usize) -> bool
    ensures { result ≡ tables.is_in flags.now slot }
{
    flags.get(slot).copied().unwrap_or(false)
}

/// The slot to which a function returns, 0 the innermost.
fn return_slot(cpu: &Cpu, i: usize) -> usize
    ensures { result ≡ spec.return_slot cpu.now i }
{
    match cpu.frame(i) {
        Some(frame) => usize::from(frame.return_pc),
        None => 0,
    }
}
/// The levels, the deepest first.
fn levels_of(alloc: Global, program: &Program, goals: &[bool]) -> Result<Vec<Level>, AllocError>
    requires { length goals.now ≡ length program.now.insns }
    ensures { IfOk result (λ all. levels.AreLevels program.now goals.now 8
        (map levels.table_of all.items)) }
{
    let sources = match sources_of(alloc, program) {
        Ok(sources) => sources,
        Err(error) => return Err(error),
    };
    let mut levels = match Vec::with_capacity(alloc, FRAMES) {
        Ok(levels) => levels,
        Err(error) => return Err(error),
    };
    match level_of(alloc, program, &sources, goals, &Level::none(alloc)) {
        Ok(level) => levels.push_reserved(level),
        Err(error) => return Err(error),
    }
    for k in 1..FRAMES {
        match level_of(alloc, program, &sources, goals, &levels[k - 1]) {
            Ok(level) => levels.push_reserved(level),
            Err(error) => return Err(error),
        }
    }
    Ok(levels)
}
