//! The calls of a run that leave some code.
ghost use Rattle.std.specs.Prelude.{◌≡◌, None, OnOk, Some, false, if◌then◌else◌};
ghost use Rattle.bpf_entries.specs.Status.{has_ended};
ghost use Rattle.bpf_steps.specs.Next.{next, target as target_in};
ghost use Rattle.bpf_session.specs.Plain.{plain_end};
ghost use Rattle.bpf_trace.specs.Calls as spec;
ghost use Rattle.bpf_trace.specs.Turns.{end_if, made_text, turn_text, unreturned};
ghost use Rattle.counted_io.specs.Writing.{WritesAfter};

use crate::call_text::{put_call, put_return};
use crate::ending::put_told_end;
use bpf_isa::{Helper, Insn};
use bpf_machine::{Cpu, Ended};
use bpfdb_script::{SlotTexts, number_in};
use counted_io::{Counted, WriteFault};
use std::io::Write;

/// Which calls are told, and what is known of the program's slots.
#[derive(Clone, Copy)]
pub struct Called<'a> {
    /// The first slot of the code that they leave.
    pub first: usize,
    /// The slot behind it.
    pub behind: usize,
    /// The name of the function of each slot, where it has one.
    pub names: SlotTexts<'a>,
    /// What ends the line of a call in each slot.
    pub places: SlotTexts<'a>,
}

/// What is called.
#[derive(Clone, Copy)]
pub enum Callee {
    /// A helper.
    Helper(Helper),
    /// The function at a slot.
    Function(usize),
}

/// A call that hasn't returned.
#[derive(Clone, Copy)]
pub struct Pending {
    /// How deep the function is that made it.
    pub depth: usize,
    pub slot: usize,
}

/// What became of a step.
#[derive(Drop)]
struct Turn {
    /// Whether its text could be written.
    written: Result<(), WriteFault>,
    /// The call that is open behind it.
    pending: Option<Pending>,
}

/// Runs a machine to its end, or to a limit of steps, and writes a line for each call that leaves some
/// code: the number of its step, its slot, the function's name, the arguments that it takes, and what
/// it returned, or that it didn't. What a function calls belongs to the call of that function. A line
/// is written in two parts, at its call and where that returns. The last line says where the machine
/// stands.
///
/// It takes no memory. A write that fails ends it early, with the machine at some state of the run.
pub fn write_calls<W: Write>(
    cpu: &mut Cpu,
    limit: u64,
    called: &Called<'_>,
    writer: &mut Counted<W>,
    so_far: Result<(), WriteFault>,
) -> Result<(), WriteFault>
    ensures text { WritesAfter W.contents writer.old so_far writer.new result
        (spec.calls_text limit called.now cpu.old) }
    ensures next { OnOk result (cpu.new ≡ plain_end limit cpu.old) }
{
    let told = put_calls(cpu, limit, called, writer, so_far);
    match told {
        Ok(()) => put_told_end(writer, told, called.places, limit, cpu),
        Err(fault) => Err(fault),
    }
}

/// Takes the steps of a run, and writes the lines of its calls.
fn put_calls<W: Write>(
    cpu: &mut Cpu,
    limit: u64,
    called: &Called<'_>,
    writer: &mut Counted<W>,
    so_far: Result<(), WriteFault>,
) -> Result<(), WriteFault>
    ensures text { WritesAfter W.contents writer.old so_far writer.new result
        (spec.calls_from called.now None 1 limit cpu.old) }
    ensures next { OnOk result (cpu.new ≡ plain_end limit cpu.old) }
{
    let mut told = so_far;
    let mut pending = None;
    for k in 0..limit {
        if cpu.status().has_ended() {
            return put_pending(writer, told, called, pending);
        }
        let turn = put_turn(cpu, called, pending, k + 1, writer, told);
        told = turn.written;
        pending = turn.pending;
        match told {
            Ok(()) => {}
            Err(fault) => return Err(fault),
        }
    }
    put_pending(writer, told, called, pending)
}

/// Ends the line of a call that didn't return, if one is open.
fn put_pending<W: Write>(
    writer: &mut Counted<W>,
    so_far: Result<(), WriteFault>,
    called: &Called<'_>,
    pending: Option<Pending>,
) -> Result<(), WriteFault>
    ensures { WritesAfter W.contents writer.old so_far writer.new result
        (unreturned called.now pending) }
{
    match pending {
        Some(pending) => put_return(writer, so_far, called, pending.slot, None),
        None => so_far,
    }
}

/// Takes a step, and writes what it begins and ends of a line.
fn put_turn<W: Write>(
    cpu: &mut Cpu,
    called: &Called<'_>,
    pending: Option<Pending>,
    number: u64,
    writer: &mut Counted<W>,
    so_far: Result<(), WriteFault>,
) -> Turn
    requires { has_ended cpu.old.status ≡ false }
    ensures next { cpu.new ≡ next cpu.old }
    ensures text { WritesAfter W.contents writer.old so_far writer.new result.written
        (turn_text called.now pending number cpu.old) }
    ensures pending { result.pending
        ≡ spec.still_pending (spec.pending_by called.now pending cpu.old) (next cpu.old) }
{
    match pending {
        Some(pending) => {
            step(cpu);
            put_ending(cpu, called, pending, writer, so_far)
        }
        None => match callee_of(cpu, called) {
            Some(callee) => put_made(cpu, called, callee, number, writer, so_far),
            None => {
                step(cpu);
                Turn {
                    written: so_far,
                    pending: None,
                }
            }
        },
    }
}

/// Takes a step that calls something, and writes what it begins and ends of a line.
fn put_made<W: Write>(
    cpu: &mut Cpu,
    called: &Called<'_>,
    callee: Callee,
    number: u64,
    writer: &mut Counted<W>,
    so_far: Result<(), WriteFault>,
) -> Turn
    requires { has_ended cpu.old.status ≡ false }
    ensures next { cpu.new ≡ next cpu.old }
    ensures text { WritesAfter W.contents writer.old so_far writer.new result.written
        (made_text called.now number cpu.old callee) }
    ensures pending { result.pending
        ≡ spec.still_pending (Some (spec.made cpu.old callee)) (next cpu.old) }
{
    let level = cpu.depth();
    let slot = usize::from(cpu.pc());
    let begun = put_call(writer, so_far, called, number, cpu, callee);
    step(cpu);
    let pending = Pending { depth: level, slot };
    put_ending(cpu, called, pending, writer, begun)
}

/// Takes a step.
fn step(cpu: &mut Cpu)
    requires { has_ended cpu.old.status ≡ false }
    ensures { cpu.new ≡ next cpu.old }
{
    match cpu.advance() {
        Ok(()) => {}
        Err(Ended) => unreachable!(),
    }
}

/// Ends the line of a call that is open, if it has returned.
fn put_ending<W: Write>(
    cpu: &Cpu,
    called: &Called<'_>,
    pending: Pending,
    writer: &mut Counted<W>,
    so_far: Result<(), WriteFault>,
) -> Turn
    ensures text { WritesAfter W.contents writer.old so_far writer.new result.written
        (end_if called.now pending cpu.now) }
    ensures pending { result.pending ≡ (if spec.has_returned pending.depth cpu.now then None else Some pending) }
{
    if has_returned(cpu, pending.depth) {
        let value = number_in(cpu, 0);
        Turn {
            written: put_return(writer, so_far, called, pending.slot, Some(value)),
            pending: None,
        }
    } else {
        Turn {
            written: so_far,
            pending: Some(pending),
        }
    }
}

/// Whether a call that was made at a depth has returned.
#[tactic(auto, unfolding(crate::specs::Calls::has_returned))]
fn has_returned(cpu: &Cpu, depth: usize) -> bool
    ensures { result ≡ spec.has_returned depth cpu.now }
{
    !cpu.status().has_ended() && cpu.depth() == depth
}

/// What the next step calls, if it leaves the code.
#[tactic(auto, unfolding(crate::specs::Calls::callee_of))]
fn callee_of(cpu: &Cpu, called: &Called<'_>) -> Option<Callee>
    ensures { result ≡ spec.callee_of called.now cpu.now }
{
    let slot = usize::from(cpu.pc());
    if !is_own(called, slot) {
        return None;
    }
    match cpu.program().insn_at(slot) {
        Some(insn) => callee_by(cpu, called, &insn),
        None => None,
    }
}

/// What an instruction calls, if it leaves the code.
fn callee_by(cpu: &Cpu, called: &Called<'_>, insn: &Insn) -> Option<Callee>
    ensures { result ≡ spec.callee_by called.now cpu.now insn.now }
{
    match *insn {
        Insn::CallHelper { helper } => match Helper::of(helper) {
            Some(helper) => Some(Callee::Helper(helper)),
            None => None,
        },
        Insn::CallLocal { distance } => outside(called, target(cpu, distance)),
        _ => None,
    }
}

/// The slot that a distance from the next step names.
fn target(cpu: &Cpu, distance: i32) -> usize
    ensures { result ≡ target_in cpu.now distance }
{
    (i64::from(cpu.pc()) + 1 + i64::from(distance)).unsigned_abs() as usize
}

/// The function at a slot, unless it is of the code.
fn outside(called: &Called<'_>, to: usize) -> Option<Callee>
    ensures { result ≡ spec.outside called.now to }
{
    if is_own(called, to) {
        None
    } else {
        Some(Callee::Function(to))
    }
}

/// Whether a slot is of the code.
fn is_own(called: &Called<'_>, slot: usize) -> bool
    ensures { result ≡ spec.is_own called.now slot }
{
    called.first <= slot && slot < called.behind
}
