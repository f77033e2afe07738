//! Which step of a run wrote each register last: a note a register, for each depth of calls.
ghost use Rattle.std.specs.Prelude.{◌≡◌, ◌<◌, ◌+◌, ◌-◌, ◌*◌, ◌==◌, ◌&&◌, ◌∷◌, ℕ, List, [], get_or, if◌then◌else◌, nat_le, nat_lt};
ghost use Rattle.bpf_diff.specs.Noted.{AreNotes, calls, note_at as note_at_of, register_of};
ghost use Rattle.bpf_diff.specs.Writers.{last_step, no_step, register_writer, writer_text};
ghost use Rattle.bpf_origin.specs.Places.{depth_for};
ghost use Rattle.bpf_steps.specs.State.{State, depth};
ghost use Rattle.bpf_trace.specs.Taken.{Took};
ghost use Rattle.bpf_cover.specs.Texts.{slot_text};
ghost use Rattle.counted_io.specs.Writing.{WritesAfter};

use bpf_isa::Program;
use bpf_machine::{Change, Cpu};
use bpf_trace::Taken;
use bpfdb_script::put_at;
use counted_io::{Counted, WriteFault, put, put_decimal};
use std::io::Write;

/// How many notes there are: of ten registers at eight depths.
const ROOM: usize = 80;

/// A step, by its number and its slot; 0 is the number of none.
#[derive(Clone, Copy)]
pub struct Writer {
    pub step: u64,
    pub slot: u16,
}

const NO_STEP: Writer = Writer { step: 0, slot: 0 };

/// The last step, and the last ones that wrote each register.
#[derive(Drop)]
pub struct Notes {
    notes: [Writer; ROOM],
    last: Writer,
}

impl Notes {
    /// Those of a run before its first step.
    pub fn new() -> Notes
        ensures { AreNotes [] result.notes result.last }
    {
        Notes {
            notes: [NO_STEP; ROOM],
            last: NO_STEP,
        }
    }

    /// Notes a step that led to where a machine stands.
    pub fn note(&mut self, cpu: &Cpu, number: u64, taken: &Taken)
        ensures { (before : List State) (x : State) → Took x cpu.now taken.now →
            (last_step (x ∷ before)).step ≡ number → AreNotes before self.old.notes self.old.last →
            AreNotes (x ∷ before) self.new.notes self.new.last }
    {
        let last = Writer {
            step: number,
            slot: taken.slot,
        };
        self.last = last;
        match register_written(taken.change) {
            Some(register) => note_register(&mut self.notes, cpu, register, last),
            None => {
                if is_call(taken.change) {
                    inherit(&mut self.notes, cpu.depth());
                }
            }
        }
    }

    /// The last step.
    pub fn last_step(&self) -> Writer
        ensures { result ≡ self.now.last }
    {
        self.last
    }

    /// The last one that wrote a register of the present function.
    pub fn writer_of(&self, cpu: &Cpu, number: u8) -> Writer
        requires { number < 10 }
        ensures { (before : List State) → AreNotes before self.now.notes self.now.last →
            result ≡ register_writer before cpu.now number }
    {
        cpu.invariant();
        self.notes[note_at(cpu.depth(), number)]
    }
}

/// The register that a change writes, if it writes one.
fn register_written(change: Change) -> Option<u8>
    ensures { result ≡ register_of change }
{
    match change {
        Change::Set { register, .. } => Some(register.number()),
        Change::Fetch { register, .. } => Some(register.number()),
        Change::Cell { .. } | Change::Trace { .. } => Some(0),
        Change::Store { .. }
        | Change::Go { .. }
        | Change::Call { .. }
        | Change::Return
        | Change::Stop { .. } => None,
    }
}

/// Whether a change calls a function.
fn is_call(change: Change) -> bool
    ensures { result ≡ calls change }
{
    match change {
        Change::Call { .. } => true,
        _ => false,
    }
}

/// Where the note of a register stands.
fn note_at(depth: usize, number: u8) -> usize
    requires depth { depth < 8 }
    requires number { number < 10 }
    ensures place { result ≡ note_at_of (depth_for depth number) number }
    ensures within { result < ROOM }
{
    if number < 6 {
        usize::from(number)
    } else {
        depth * 10 + usize::from(number)
    }
}

/// Notes that a step wrote a register of the function that it led to.
fn note_register(notes: &mut [Writer; ROOM], cpu: &Cpu, number: u8, writer: Writer)
    ensures { (i : ℕ) → i < ROOM → get_or notes.new i no_step
        ≡ (if nat_lt number 10 && i == note_at_of (depth_for (depth cpu.now) number) number then writer else
        get_or notes.old i no_step) }
{
    cpu.invariant();
    if number < 10 {
        notes[note_at(cpu.depth(), number)] = writer;
    }
}

/// Notes that a function at a depth was called: it finds its caller's r6 to r9 in its own.
fn inherit(notes: &mut [Writer; ROOM], depth: usize)
    ensures { 0 < depth → depth < 8 → (i : ℕ) → i < ROOM → get_or notes.new i no_step
        ≡ (if nat_le (depth * 10 + 6) i && nat_lt i (depth * 10 + 10) then get_or notes.old (i - 10) no_step else
        get_or notes.old i no_step) }
{
    if 0 < depth && depth < 8 {
        let to = depth * 10;
        let from = to - 10;
        for k in 6..10 {
            notes[to + k] = notes[from + k];
        }
    }
}

/// Writes which step a value is of.
#[tactic(auto, unfolding(crate::specs::Writers::writer_text))]
pub fn put_writer<W: Write>(
    writer: &mut Counted<W>,
    so_far: Result<(), WriteFault>,
    program: &Program,
    by: Writer,
) -> Result<(), WriteFault>
    ensures { WritesAfter W.contents writer.old so_far writer.new result
        (writer_text program.now by) }
{
    if by.step == 0 {
        return put(writer, so_far, b"; here since the start\n");
    }
    let begun = put(writer, so_far, b"; here by step ");
    let counted = put_decimal(writer, begun, by.step);
    let parted = put(writer, counted, b", ");
    let placed = put_slot(writer, parted, program, usize::from(by.slot));
    put(writer, placed, b"\n")
}

/// Writes a slot and the instruction that starts there, nothing where none does.
fn put_slot<W: Write>(
    writer: &mut Counted<W>,
    so_far: Result<(), WriteFault>,
    program: &Program,
    slot: usize,
) -> Result<(), WriteFault>
    ensures { WritesAfter W.contents writer.old so_far writer.new result
        (slot_text program.now slot) }
{
    match program.insn_at(slot) {
        Some(_) => put_at(writer, so_far, program, slot),
        None => so_far,
    }
}
