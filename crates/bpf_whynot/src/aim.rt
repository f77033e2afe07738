//! The slots that are asked about, and from where they can be come to.
ghost use Rattle.std.specs.Prelude.{◌≡◌, ◌<◌, ℕ, [], Err, IfErr, IfOk, List};
ghost use Rattle.bpf_entries.specs.Keeping.{Kept};
ghost use Rattle.bpf_steps.specs.Platform.{frame_count};
ghost use Rattle.bpf_isa.specs.Programs.{Checked};
ghost use Rattle.bpf_journal.specs.Histories.{HasHistory, Record, StandsFor};
ghost use Rattle.bpf_whynot.specs.Aims.{AimsAt, AreLeft, IsNoAim};
ghost use Rattle.bpf_whynot.specs.Asked.{goals_in};
ghost use Rattle.bpf_whynot.specs.Makings.{HoldsMoves, goals_left, made_last};
ghost use Rattle.bpf_whynot.specs.Overwrites.{with_branch};
ghost use Rattle.bpf_whynot.specs.Tables.{AreGoals};

use crate::fault::{AimFault, GoalFault};
use crate::goals::{flag_asked, no_goals};
use crate::made::{Made, leave_unmade};
use crate::over::branch_over;
use crate::reach::Reach;
use bpf_isa::Program;
use bpf_journal::Keeper;
use bpf_machine::Cpu;
use std::alloc::Global;

/// The slots that are asked about, and from where they can be come to.
#[derive(Drop)]
pub struct Aim {
    /// One flag a slot.
    pub goals: Vec<bool>,
    /// The newest kept move that made the value which is asked about, if one did.
    pub made: Option<Made>,
    pub reach: Reach,
}

impl Aim {
    /// Finds the slots that a text names, numbers with commas between; or `=` and a value: those that
    /// make it as a constant and did so at no kept move, and the newest kept move that made it. And
    /// from where a program can come to them. That takes memory in proportion to the program's
    /// length, and time to that and, of a value, to the kept moves. They stay.
    pub fn find<K: Keeper>(
        alloc: Global,
        cpu: &Cpu,
        keeper: &K,
        text: &[u8],
    ) -> Result<Aim, AimFault>
        requires { HasHistory K.holds keeper.now cpu.now }
        ensures ok { IfOk result (AimsAt K.holds keeper.now cpu.now text.now) }
        ensures err { IfErr result (IsNoAim cpu.now.program text.now) }
    {
        let program = cpu.program();
        let mut goals = match no_goals(alloc, program) {
            Ok(goals) => goals,
            Err(_) => return Err(AimFault::OutOfMemory),
        };
        let made = match flag_left(cpu, keeper, text, goals.as_mut_slice()) {
            Ok(made) => made,
            Err(fault) => return Err(AimFault::Goal(fault)),
        };
        match Reach::find(alloc, program, goals.as_slice()) {
            Ok(reach) => Ok(Aim { goals, made, reach }),
            Err(_) => Err(AimFault::OutOfMemory),
        }
    }
}

/// Flags the slots that are asked about, but for those that made the value which a text asks for at a
/// kept move, and answers the newest move that made it.
fn flag_left<K: Keeper>(
    cpu: &Cpu,
    keeper: &K,
    text: &[u8],
    flags: &mut [bool],
) -> Result<Option<Made>, GoalFault>
    requires way { HasHistory K.holds keeper.now cpu.now }
    requires none { AreGoals cpu.now.program [] flags.old }
    ensures ok { IfOk result (λ made.
        AreLeft K.holds keeper.now cpu.now text.now made flags.new) }
    ensures err { IfErr result (λ fault. goals_in cpu.now.program text.now ≡ Err fault) }
{
    let by_value = match flag_asked(cpu.program(), text, flags) {
        Ok(by_value) => by_value,
        Err(fault) => return Err(fault),
    };
    Ok(made_last(cpu, keeper, by_value, flags))
}

/// Where a value is asked about, leaves of the flagged slots those that made it at no kept move, and
/// answers the newest move that made it.
fn made_last<K: Keeper>(cpu: &Cpu, keeper: &K, by_value: bool, flags: &mut [bool]) -> Option<Made>
    requires { HasHistory K.holds keeper.now cpu.now }
    ensures left { (h : List Record) (program : Checked) (slots : List ℕ) →
        StandsFor K.holds keeper.now cpu.now h → AreGoals program slots flags.old → AreGoals program
        (goals_left (record { slots = slots; by_value = by_value }) h) flags.new }
    ensures newest { (h : List Record) (program : Checked) (slots : List ℕ) →
        StandsFor K.holds keeper.now cpu.now h → AreGoals program slots flags.old →
        result ≡ made_last (record { slots = slots; by_value = by_value }) h cpu.now }
{
    if by_value {
        cpu.invariant();
        let depth = cpu.depth() as u32;
        let newest = leave_unmade(keeper, depth, flags);
        with_branch(keeper, cpu.program(), depth, newest)
    } else {
        None
    }
}

/// The newest move that made it, with the branch after which the value was overwritten.
fn with_branch<K: Keeper>(
    keeper: &K,
    program: &Program,
    depth: u32,
    newest: Option<Made>,
) -> Option<Made>
    requires some { HoldsMoves K.holds keeper.now }
    requires shallow { depth < frame_count }
    ensures { (es : List Kept) → K.holds keeper.now es →
        result ≡ with_branch program.now depth es newest }
{
    match newest {
        Some(made) => Some(Made {
            moves: made.moves,
            slot: made.slot,
            depth: made.depth,
            branch: branch_over(keeper, program, depth, made),
        }),
        None => None,
    }
}
