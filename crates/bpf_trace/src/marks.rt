//! Which bytes of the stack were written since their frame was entered: a mark a byte, from the
//! first byte of the first frame on. What lies between two frames has marks, too.
ghost use Rattle.std.specs.Prelude.{◌≡◌, ◌&&◌, nat_le, nat_lt, ◌≤◌, ◌<◌, ◌+◌, ◌-◌, ◌∷◌, ℕ, List, false, get_or, if◌then◌else◌, length, min, true};
ghost use Rattle.bpf_origin.specs.Places.{has};
ghost use Rattle.bpf_origin.specs.declared.place.Part.TheVariants as part;
ghost use Rattle.bpf_origin.specs.declared.place.Place.TheVariants.{Byte};
ghost use Rattle.bpf_steps.specs.State.{State};
ghost use Rattle.bpf_trace.specs.Taken.{Took};
ghost use Rattle.bpf_trace.specs.Marks.{IsMarked, run_by, stack_base};
ghost use Rattle.bpf_trace.specs.Written.{first_in};

use crate::Taken;
use bpf_entries::{FRAME_BASE, FRAME_LEN, frame_base};
use bpf_machine::{Change, Cpu};

/// How many bytes lie from the first frame's first byte on to where a ninth frame would begin.
pub const ROOM: usize = 8_192;

/// Bytes of memory, and whether a step wrote them, or entered them as a frame.
#[derive(Clone, Copy)]
pub struct Run {
    pub address: u64,
    pub len: usize,
    pub written: bool,
}

/// The marks from one index up to another.
#[derive(Clone, Copy)]
struct Span {
    from: usize,
    to: usize,
}

/// The address of the first of some bytes that is one of the stack without a mark.
#[inline(always)]
pub fn first_unwritten(marks: &[bool; ROOM], address: u64, len: usize) -> Option<u64>
    ensures { (before : List State) → IsMarked before marks.now →
        result ≡ first_in before address len }
{
    let span = span_of(address, len);
    let at = first_unmarked(marks, span);
    if at < span.to {
        Some(FRAME_BASE + at as u64)
    } else {
        None
    }
}

/// Marks what a step wrote, which led to where a machine stands. A call takes marks away.
#[inline(always)]
pub fn note(marks: &mut [bool; ROOM], cpu: &Cpu, taken: &Taken)
    ensures { (before : List State) (x : State) → Took x cpu.now taken.now →
        IsMarked before marks.old → IsMarked (x ∷ before) marks.new }
{
    let run = run_of(cpu, &taken.change);
    if run.len > 0 {
        set_run(marks, run);
    }
}

/// The marks that some bytes have.
#[inline(always)]
fn span_of(address: u64, len: usize) -> Span
    ensures from { result.from ≡ min (address - stack_base) ROOM }
    ensures to { result.to ≡ min (address + len - stack_base) ROOM }
{
    let end = address.saturating_add(len as u64);
    Span {
        from: address.saturating_sub(FRAME_BASE).min(ROOM as u64) as usize,
        to: end.saturating_sub(FRAME_BASE).min(ROOM as u64) as usize,
    }
}

/// The index of the first of these marks that isn't set, or of what lies behind them.
#[inline(always)]
fn first_unmarked(marks: &[bool; ROOM], span: Span) -> usize
    requires { (span.from ≤ span.to) × (span.to ≤ ROOM) }
    ensures within { (span.from ≤ result) × (result ≤ span.to) }
    ensures before { (i : ℕ) → span.from ≤ i → i < result → get_or marks.now i false ≡ true }
    ensures found { result < span.to → get_or marks.now result false ≡ false }
{
    for i in span.from..span.to {
        if !marks[i] {
            return i;
        }
    }
    span.to
}

/// Sets the marks of some bytes, or takes them away.
#[inline(always)]
fn set_run(marks: &mut [bool; ROOM], run: Run)
    ensures { (i : ℕ) → i < ROOM → get_or marks.new i false
        ≡ (if has (part.Bytes run.address run.len) (Byte (stack_base + i)) then run.written else
        get_or marks.old i false) }
{
    let span = span_of(run.address, run.len);
    set_span(marks, span, run.written);
}

/// Sets these marks, or takes them away.
#[inline(always)]
fn set_span(marks: &mut [bool; ROOM], span: Span, value: bool)
    requires { (span.from ≤ span.to) × (span.to ≤ ROOM) }
    ensures { (i : ℕ) → get_or marks.new i false
        ≡ (if nat_le span.from i && nat_lt i span.to then value else get_or marks.old i false) }
{
    for i in span.from..span.to {
        marks[i] = value;
    }
}

/// The bytes that a step with this change wrote, which led to where a machine stands.
#[inline(always)]
fn run_of(cpu: &Cpu, change: &Change) -> Run
    ensures { result ≡ run_by cpu.now change.now }
{
    cpu.invariant();
    match *change {
        Change::Store { address, size, .. } => Run {
            address,
            len: size.len(),
            written: true,
        },
        Change::Fetch { address, size, .. } => Run {
            address,
            len: size.len(),
            written: true,
        },
        Change::Cell {
            address,
            length,
            ..
        } => Run {
            address,
            len: usize::from(length),
            written: true,
        },
        Change::Call { .. } => Run {
            address: frame_base(cpu.depth() as u32),
            len: FRAME_LEN,
            written: false,
        },
        _ => Run {
            address: 0,
            len: 0,
            written: true,
        },
    }
}
