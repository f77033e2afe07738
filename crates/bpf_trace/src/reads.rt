//! The first byte that a step reads of the stack where nothing was written.
ghost use Rattle.std.specs.Prelude.{◌≡◌, List};
ghost use Rattle.bpf_steps.specs.Next.{change as change_in};
ghost use Rattle.bpf_steps.specs.State.{State};
ghost use Rattle.bpf_trace.specs.Marks.{IsMarked, first_by, first_of_call, first_of_value, first_with};
ghost use Rattle.bpf_trace.specs.Written.{is_stop as is_stop_of, read_unwritten};

use crate::marks::{ROOM, first_unwritten};
use bpf_isa::{Helper, Insn};
use bpf_machine::{Change, Cpu};
use bpf_origin::{address_of, load_len, width_len};
use bpfdb_script::number_in;

/// The address of the first such byte that the next step reads, which does this.
#[inline(always)]
pub fn first_read(cpu: &Cpu, marks: &[bool; ROOM], change: &Change) -> Option<u64>
    requires { change.now ≡ change_in cpu.now }
    ensures { (before : List State) → IsMarked before marks.now →
        result ≡ read_unwritten before cpu.now }
{
    if is_stop(change) {
        None
    } else {
        first_here(cpu, marks, change)
    }
}

/// Whether a step with this change ends the run.
#[inline(always)]
fn is_stop(change: &Change) -> bool
    ensures { result ≡ is_stop_of change.now }
{
    matches!(*change, Change::Stop { .. })
}

/// The same of the instruction at pc.
#[inline(always)]
fn first_here(cpu: &Cpu, marks: &[bool; ROOM], change: &Change) -> Option<u64>
    ensures { (before : List State) → IsMarked before marks.now →
        result ≡ first_with before cpu.now change.now }
{
    match cpu.program().insn_at(usize::from(cpu.pc())) {
        Some(insn) => first_of_insn(cpu, marks, change, &insn),
        None => None,
    }
}

/// The same of an instruction: a load, an atomic operation, or a helper's call.
#[inline(always)]
fn first_of_insn(cpu: &Cpu, marks: &[bool; ROOM], change: &Change, insn: &Insn) -> Option<u64>
    ensures { (before : List State) → IsMarked before marks.now →
        result ≡ first_by before cpu.now change.now insn.now }
{
    match *insn {
        Insn::Load { size, from, .. } => {
            first_unwritten(marks, address_of(cpu, from), load_len(size))
        }
        Insn::Atomic { width, to, .. } => {
            first_unwritten(marks, address_of(cpu, to), width_len(width))
        }
        Insn::CallHelper { helper } => first_in_call(cpu, marks, change, helper),
        _ => None,
    }
}

/// The same of a helper's call: of its key, and of the value that an update writes.
fn first_in_call(cpu: &Cpu, marks: &[bool; ROOM], change: &Change, number: u32) -> Option<u64>
    ensures { (before : List State) → IsMarked before marks.now →
        result ≡ first_of_call before cpu.now change.now number }
{
    match Helper::of(number) {
        Some(Helper::Lookup) => first_unwritten(marks, number_in(cpu, 2), 4),
        Some(Helper::Update) => match first_unwritten(marks, number_in(cpu, 2), 4) {
            Some(address) => Some(address),
            None => first_in_value(cpu, marks, change),
        },
        Some(Helper::Trace) | None => None,
    }
}

/// The same of the value that an update writes, where it writes one.
fn first_in_value(cpu: &Cpu, marks: &[bool; ROOM], change: &Change) -> Option<u64>
    ensures { (before : List State) → IsMarked before marks.now →
        result ≡ first_of_value before cpu.now change.now }
{
    match *change {
        Change::Cell { length, .. } => {
            first_unwritten(marks, number_in(cpu, 3), usize::from(length))
        }
        _ => None,
    }
}
