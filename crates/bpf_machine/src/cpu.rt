//! The machine: its state, and the doing of a change.
ghost use Rattle.std.specs.Prelude.{◌≡◌, ◌≤◌, ◌<◌, ◌+◌, ◌^◌, ℕ, All, length, slice_set, false};
ghost use Rattle.bpf_entries.specs.Status.{has_ended};
ghost use Rattle.bpf_isa.specs.Programs.{IsStart};
ghost use Rattle.bpf_isa.specs.Sizes.{size_len};

mod atomic;
mod edit;
mod frames;
mod helpers;
mod keep;
mod open;
mod reads;
mod record;
mod revert;
mod run;
mod step;

use arrayvec::ArrayVec;
use bpf_entries::{ByteString, Status};
use bpf_isa::{Program, Reg, Size};
use bpf_steps::platform::TRACE_LIMIT;
use bpf_steps::{Change, FlatCode, Frame, Memory, are_registers, are_words};
pub use keep::Kept;
use std::marker::Model;

/// A machine with its program.
#[derive(Drop)]
pub struct Cpu {
    program: Program,
    /// The program's instructions in the form that a run takes, slot by slot.
    flats: Vec<FlatCode>,
    pc: u16,
    /// r0 to r9, and the frame pointer, which follows from the depth.
    registers: [u64; 11],
    frames: ArrayVec<Frame, 7>,
    memory: Memory,
    status: Status,
    trace: ArrayVec<u64, TRACE_LIMIT>,
}

impl Model for Cpu {
    ghost use Rattle.std.specs.Prelude.{◌≡◌, ◌<◌, All, take, length, slice_index};
    ghost use Rattle.bpf_isa.specs.Programs.{IsStart};
    ghost use Rattle.bpf_steps.specs.Flat.{AreFlat};
    ghost use Rattle.bpf_steps.specs.Platform.{frame_pointer, frame_count};
    ghost use Rattle.bpf_steps.specs.State.{State, IsFrame};

    ghost Value = { State };

    ghost view = { λ c. record { program = c.program; pc = c.pc; registers = take 10 c.registers; frames = c.frames.items; memory = c.memory; status = c.status; trace = c.trace.items } };

    ghost invariant = { λ c. record {
      start : IsStart c.program c.pc;
      flat : AreFlat c.program c.flats.items;
      pointer : slice_index c.registers 10 ≡ frame_pointer (length c.frames.items);
      shallow : length c.frames.items < frame_count;
      framed : All (IsFrame c.program) c.frames.items;
      mapped : c.memory.maps ≡ c.program.maps;
    } };
}

impl Cpu {
    ghost use Rattle.bpf_steps.specs.State.{IsState};
    ghost use Rattle.bpf_steps.specs.Fetched.{Fits};
    ghost use Rattle.bpf_steps.specs.Next.{changed, change as change_in, next};

    /// Brings what holds of every machine into a proof.
    pub fn invariant(&self)
        ensures { IsState self.now }
    {
        self.program.invariant();
        self.memory.invariant();
        are_registers(&self.registers);
        are_words(self.trace());
        self.status.invariant();
    }

    /// Does what `look` answered of this state: the second half of a step.
    #[inline(always)]
    pub fn commit(&mut self, change: &Change)
        requires runs { has_ended self.old.status ≡ false }
        requires looked { change.now ≡ change_in self.old }
        ensures { self.new ≡ next self.old }
    {
        self.invariant();
        self.apply(change);
    }

    /// Does a change.
    #[inline(always)]
    #[tactic(auto, unfolding(bpf_steps::specs::Next::changed))]
    fn apply(&mut self, change: &Change)
        requires { Fits self.old change.now }
        ensures { self.new ≡ changed self.old change.now }
    {
        match *change {
            Change::Set {
                register,
                value,
                next,
            } => {
                self.write_register(register, value);
                self.pc = next;
            }
            Change::Go { next } => self.pc = next,
            Change::Store {
                address: _,
                index,
                size,
                value,
                next,
            } => {
                self.memory.store(index, size, value);
                self.pc = next;
            }
            Change::Fetch {
                address: _,
                index,
                size,
                value,
                register,
                next,
            } => self.exchange(index, size, value, register, next),
            Change::Call { target } => self.enter(target),
            Change::Return => self.leave(),
            Change::Cell {
                address,
                source,
                length,
                next,
            } => self.write_cell(address, source, length, next),
            Change::Trace { word, next } => self.append_word(word, next),
            Change::Stop { status } => self.status = status,
        }
    }

    /// Stores the low bytes of a number at an index of memory's bytes, and a register gets the
    /// number that stood there.
    #[inline(always)]
    #[tactic(auto, unfolding(bpf_steps::specs::Next::changed))]
    fn exchange(&mut self, index: usize, size: Size, value: u64, register: Reg, next: u16)
        requires register { register < 10 }
        requires fits { index + size_len size ≤ length self.old.memory.bytes }
        requires next { IsStart self.old.program next }
        ensures { (address : ℕ) →
            self.new ≡ changed self.old (Change.Fetch address index size value register next) }
    {
        let old = self.memory.number(index, size);
        self.memory.store(index, size, value);
        self.write_register(register, old);
        self.pc = next;
    }

    /// Puts a number into a register.
    fn write_register(&mut self, register: Reg, value: u64)
        requires { register < 10 }
        ensures { self.new ≡ record
            self.old { registers = slice_set self.old.registers register value } }
    {
        self.registers[usize::from(register.number())] = value;
    }

    /// Appends a word to the trace list.
    #[inline(never)]
    #[tactic(auto, unfolding(bpf_steps::specs::Next::changed))]
    fn append_word(&mut self, word: u64, next: u16)
        requires { Fits self.old (Change.Trace word next) }
        ensures { self.new ≡ changed self.old (Change.Trace word next) }
    {
        self.trace.push(word);
        self.registers[0] = 0;
        self.pc = next;
    }

    /// Copies bytes of memory to a cell. They are taken out before, so that it does not matter how
    /// the two runs overlap.
    #[inline(never)]
    #[tactic(auto, unfolding(bpf_steps::specs::Next::changed))]
    fn write_cell(&mut self, address: u64, source: usize, length: u16, next: u16)
        requires { Fits self.old (Change.Cell address source length next) }
        ensures { self.new ≡ changed self.old (Change.Cell address source length next) }
    {
        let bytes = ByteString::of(self.memory.run(source, usize::from(length)));
        self.memory.put(address, bytes.as_slice());
        self.registers[0] = 0;
        self.pc = next;
    }
}
