//! What can be read of a machine.
ghost use Rattle.std.specs.Prelude.{◌≡◌, ◌≤◌, ◌↔◌, IsTrue, IsSome, IfSome, length, option_map};

use super::Cpu;
use bpf_entries::Status;
use bpf_isa::{Program, Reg};
use bpf_steps::Frame;

impl Cpu {
    ghost use Rattle.bpf_steps.specs.Platform.{trace_limit};
    ghost use Rattle.bpf_steps.specs.Regions.{run_at};
    ghost use Rattle.bpf_steps.specs.Access.{accessible};
    ghost use Rattle.bpf_steps.specs.State.{register as register_of, depth as depth_of, frame};

    /// The slot of the next instruction.
    pub fn pc(&self) -> u16
        ensures { result ≡ self.now.pc }
    {
        self.pc
    }

    /// A register. r10 is the frame pointer.
    pub fn reg(&self, register: Reg) -> u64
        ensures { result ≡ register_of self.now register }
    {
        self.registers[usize::from(register.number())]
    }

    /// A pushed frame, 0 the innermost; None past the outermost.
    pub fn frame(&self, i: usize) -> Option<Frame>
        ensures { result ≡ frame self.now i }
    {
        if i < self.frames.len() {
            self.frames
                .as_slice()
                .get(self.frames.len() - 1 - i)
                .copied()
        } else {
            None
        }
    }

    /// How many local calls have not returned.
    pub fn depth(&self) -> usize
        ensures { result ≡ depth_of self.now }
    {
        self.frames.len()
    }

    /// Whether it runs or how it ended.
    pub fn status(&self) -> Status
        ensures { result ≡ self.now.status }
    {
        self.status
    }

    /// The words that were traced.
    pub fn trace(&self) -> &[u64]
        ensures value { result.now ≡ self.now.trace }
        ensures fits { length result.now ≤ trace_limit }
    {
        self.trace.as_slice()
    }

    /// Its program.
    pub fn program(&self) -> &Program
        ensures { result.now ≡ self.now.program }
    {
        &self.program
    }

    /// The n bytes at this address, None where some of them aren't present.
    pub fn peek(&self, address: u64, n: usize) -> Option<&[u8]>
        requires { 1 ≤ n }
        ensures value { option_map (λ run. run.now) result ≡ run_at self.now.memory address n }
        ensures fits { IfSome result (λ run. length run.now ≡ n) }
    {
        self.memory.peek(address, n)
    }

    /// Whether the program may access the n bytes at this address.
    pub fn accessible(&self, address: u64, n: usize) -> bool
        requires { 1 ≤ n }
        ensures { IsTrue result ↔ IsSome (accessible self.now address n) }
    {
        self.memory
            .index(address, n, self.frames.len() + 1)
            .is_some()
    }
}
