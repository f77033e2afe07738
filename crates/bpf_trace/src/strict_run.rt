//! A run up to the first step that reads a byte of the stack where nothing was written.
ghost use Rattle.std.specs.Prelude.{◌≡◌, ◌∷◌, IfNone, List, OnSome, false, true};
ghost use Rattle.bpf_entries.specs.Status.{has_ended};
ghost use Rattle.bpf_steps.specs.Next.{next};
ghost use Rattle.bpf_steps.specs.State.{State};
ghost use Rattle.bpf_trace.specs.Marks.{IsMarked, next_touches, touches};
ghost use Rattle.bpf_trace.specs.Written.{read_unwritten, unwritten_of};

use crate::Taken;
use crate::marks::{ROOM, note};
use crate::own_code::{OwnCode, call_of};
use crate::reads::first_read;
use crate::taken::step_on;
use bpf_isa::Insn;
use bpf_machine::Cpu;

/// A step that would read a byte of the stack which no step wrote since its frame was entered.
#[derive(Clone, Copy)]
pub struct Unwritten {
    /// How many steps come before it.
    pub steps: u64,
    pub slot: u16,
    /// That of the first such byte.
    pub address: u64,
    /// The slot of the call by which FILE's own code came there, where it stands in other code.
    pub call: Option<u16>,
}

/// Runs a machine to its end, to a limit of steps, or to the first step that would read a byte of the
/// stack which no step wrote since its frame was entered: that one isn't taken.
///
/// It tells which call of FILE's own code came there, whose slots these are. It takes no memory. It is called where a machine was opened: what a run before it wrote is nothing
/// to it.
pub fn find_unwritten(cpu: &mut Cpu, own: OwnCode, limit: u64) -> Option<Unwritten>
    ensures found { result ≡ unwritten_of own limit cpu.old }
    ensures program { cpu.new.program ≡ cpu.old.program }
{
    let mut marks = [false; ROOM];
    for k in 0..limit {
        if cpu.status().has_ended() {
            return None;
        }
        match go_on(cpu, &mut marks) {
            Some(address) => {
                return Some(Unwritten {
                    steps: k,
                    slot: cpu.pc(),
                    address,
                    call: call_of(own, cpu),
                });
            }
            None => {}
        }
    }
    None
}

/// Takes a step, unless it would read where nothing was written: then it answers the address.
#[inline(always)]
fn go_on(cpu: &mut Cpu, marks: &mut [bool; ROOM]) -> Option<u64>
    requires { has_ended cpu.old.status ≡ false }
    ensures read { (before : List State) → IsMarked before marks.old →
        result ≡ read_unwritten before cpu.old }
    ensures some { OnSome result (cpu.new ≡ cpu.old) }
    ensures none { IfNone result (cpu.new ≡ next cpu.old) }
    ensures marks { IfNone result ((before : List State) → IsMarked before marks.old →
        IsMarked (cpu.old ∷ before) marks.new) }
{
    cpu.invariant();
    if !may_touch(cpu) {
        step_on(cpu);
        return None;
    }
    let taken = Taken {
        slot: cpu.pc(),
        change: cpu.look_on(),
    };
    match first_read(cpu, marks, &taken.change) {
        Some(address) => return Some(address),
        None => {}
    }
    cpu.commit(&taken.change);
    note(marks, cpu, &taken);
    None
}

/// Whether the next step may read memory, or write it. One of arithmetic and a jump don't.
#[inline(always)]
fn may_touch(cpu: &Cpu) -> bool
    ensures { result ≡ next_touches cpu.now }
{
    match cpu.program().insn_at(usize::from(cpu.pc())) {
        Some(insn) => insn_touches(&insn),
        None => true,
    }
}

/// Whether an instruction may read memory, or write it.
#[inline(always)]
fn insn_touches(insn: &Insn) -> bool
    ensures { result ≡ touches insn.now }
{
    match insn {
        Insn::Binary { .. }
        | Insn::Negate { .. }
        | Insn::SignExtend { .. }
        | Insn::SwapBytes { .. }
        | Insn::JumpIf { .. }
        | Insn::Jump { .. }
        | Insn::JumpLong { .. }
        | Insn::LoadWide { .. } => false,
        _ => true,
    }
}
