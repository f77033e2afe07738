//! Frames of local calls: pushed by a call, popped by a return, and both taken back.
ghost use Rattle.std.specs.Prelude.{◌≡◌, ◌<◌, ◌+◌, IfSome};
ghost use Rattle.bpf_isa.specs.Programs.{IsStart};
ghost use Rattle.bpf_steps.specs.Calls.{saved, with_saved, frame_of, pushed, popped, innermost};
ghost use Rattle.bpf_steps.specs.Fetched.{Fits};
ghost use Rattle.bpf_steps.specs.Next.{changed};
ghost use Rattle.bpf_steps.specs.Platform.{frame_base as frame_base_of, frame_count};
ghost use Rattle.bpf_steps.specs.State.{IsFrame, depth};

use super::Cpu;
use bpf_steps::platform::{FRAME_LEN, frame_base, frame_pointer};
use bpf_steps::{Change, Frame};

impl Cpu {
    /// Does a local call: makes the bytes of the frame that it enters zero, pushes the frame and
    /// goes to the function at a slot.
    #[inline(never)]
    #[tactic(auto, unfolding(bpf_steps::specs::Next::changed))]
    pub(super) fn enter(&mut self, target: u16)
        requires { Fits self.old (Change.Call target) }
        ensures { self.new ≡ changed self.old (Change.Call target) }
    {
        self.program.invariant();
        let frame = self.entered();
        self.memory.clear(frame, FRAME_LEN);
        self.push(self.pc + 1);
        self.pc = target;
    }

    /// The address of the frame that a call enters.
    pub(super) fn entered(&self) -> u64
        requires { depth self.now + 1 < frame_count }
        ensures { result ≡ frame_base_of (depth self.now + 1) }
    {
        frame_base(self.frames.len() as u32 + 1)
    }

    /// The address of the innermost frame.
    pub(super) fn innermost_frame(&self) -> u64
        ensures { result ≡ frame_base_of (depth self.now) }
    {
        frame_base(self.frames.len() as u32)
    }

    /// Does a return: pops the innermost frame and does what it says.
    #[inline(never)]
    #[tactic(auto, unfolding(bpf_steps::specs::Next::changed))]
    pub(super) fn leave(&mut self)
        ensures { self.new ≡ changed self.old Change.Return }
    {
        if let Some(frame) = self.pop() {
            self.restore(&frame.saved);
            self.pc = frame.return_pc;
        }
    }

    /// r6 to r9.
    pub(super) fn saved(&self) -> [u64; 4]
        ensures { result ≡ saved self.now }
    {
        [
            self.registers[6],
            self.registers[7],
            self.registers[8],
            self.registers[9],
        ]
    }

    /// Puts other numbers into r6 to r9.
    pub(super) fn restore(&mut self, numbers: &[u64; 4])
        ensures { self.new ≡ record
            self.old { registers = with_saved self.old.registers numbers.now } }
    {
        self.registers[6] = numbers[0];
        self.registers[7] = numbers[1];
        self.registers[8] = numbers[2];
        self.registers[9] = numbers[3];
    }

    /// Pushes a frame that returns to a slot and keeps r6 to r9.
    pub(super) fn push(&mut self, return_pc: u16)
        requires start { IsStart self.old.program return_pc }
        requires room { depth self.old + 1 < frame_count }
        ensures { self.new ≡ record self.old { frames = pushed self.old return_pc } }
    {
        let depth = self.frames.len() + 1;
        let frame = self.call_frame(return_pc);
        self.frames.push(frame);
        self.registers[10] = frame_pointer(depth);
    }

    /// The frame that returns to a slot and keeps r6 to r9.
    fn call_frame(&self, return_pc: u16) -> Frame
        requires { IsStart self.now.program return_pc }
        ensures value { result ≡ frame_of self.now return_pc }
        ensures frame { IsFrame self.now.program result }
    {
        self.invariant();
        Frame {
            return_pc,
            saved: self.saved(),
        }
    }

    /// Pops the innermost frame, None where there is none.
    pub(super) fn pop(&mut self) -> Option<Frame>
        ensures value { result ≡ innermost self.old }
        ensures frame { IfSome result (IsFrame self.old.program) }
        ensures next { self.new ≡ record self.old { frames = popped self.old } }
    {
        let frame = self.frames.pop();
        self.registers[10] = frame_pointer(self.frames.len());
        frame
    }
}
