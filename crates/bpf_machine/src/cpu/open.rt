//! Opening a machine.
ghost use Rattle.std.specs.Prelude.{◌≡◌, ◌==◌, ◌∷◌, IfOk, IfErr, OnErr, OnOk, if◌then◌else◌, length, replicate, slice_index, take};
ghost use Rattle.bpf_isa.specs.Checker.{IsAccepted};
ghost use Rattle.bpf_steps.specs.Opening.{Opened, Refused, Restarted};
ghost use Rattle.bpf_steps.specs.Platform.{context_base, frame_pointer as frame_pointer_of};
ghost use Rattle.bpf_steps.specs.State.{initial};

use super::Cpu;
use arrayvec::ArrayVec;
use bpf_entries::Status;
use bpf_isa::{MapTable, Program};
use bpf_steps::platform::{CONTEXT_BASE, frame_pointer};
use bpf_steps::{Memory, OpenFault, flats_of};
use std::alloc::Global;

impl Cpu {
    /// Opens a machine at its program's first slot. The context is at most 65,536 bytes; r1 is its
    /// address, 0 where it is empty, and r2 its length. Besides `reopen` and `restart` no call of a
    /// machine takes memory.
    pub fn open(alloc: Global, program: Program, context: &[u8]) -> Result<Cpu, OpenFault>
        ensures ok { IfOk result (Opened program context.now) }
        ensures err { IfErr result (Refused context.now) }
    {
        program.invariant();
        let memory = match Memory::open(alloc, program.maps(), context) {
            Ok(memory) => memory,
            Err(fault) => return Err(fault),
        };
        let flats = match flats_of(alloc, &program) {
            Ok(flats) => flats,
            Err(_) => return Err(OpenFault::OutOfMemory),
        };
        Ok(Cpu {
            program,
            flats,
            pc: 0,
            registers: opening_registers(context),
            frames: ArrayVec::new(),
            memory,
            status: Status::Running,
            trace: ArrayVec::new(),
        })
    }

    /// Opens the machine again on its program, with another context, as `reopen_with` does with the
    /// program's own maps.
    pub fn reopen(&mut self, alloc: Global, context: &[u8]) -> Result<(), OpenFault>
        ensures ok { OnOk result (Opened self.old.program context.now self.new) }
        ensures err { IfErr result (Refused context.now) }
        ensures same { OnErr result (self.new ≡ self.old) }
    {
        self.invariant();
        let maps = self.program.maps().copied();
        self.reopen_with(alloc, maps, context)
    }

    /// Starts the program once more, on another context: as `open` does, but the bytes of its maps stay
    /// as they are. A machine that isn't started again stays as it was.
    pub fn restart(&mut self, alloc: Global, context: &[u8]) -> Result<(), OpenFault>
        ensures ok { OnOk result (Restarted context.now self.old self.new) }
        ensures err { IfErr result (Refused context.now) }
        ensures same { OnErr result (self.new ≡ self.old) }
    {
        self.invariant();
        match self.memory.restart(alloc, context) {
            Ok(()) => {
                self.begin(context);
                Ok(())
            }
            Err(fault) => Err(fault),
        }
    }

    /// Opens the machine again on its program with other maps, with which the checker accepts its
    /// words, and with a context. Its memory is new, and what was made of the program stays, so this
    /// takes no time in the program's length. A machine that isn't opened stays as it was.
    pub fn reopen_with(
        &mut self,
        alloc: Global,
        maps: MapTable,
        context: &[u8],
    ) -> Result<(), OpenFault>
        requires { IsAccepted self.old.program.bytes maps }
        ensures ok { OnOk result
            (Opened (record self.old.program { maps = maps }) context.now self.new) }
        ensures err { IfErr result (Refused context.now) }
        ensures same { OnErr result (self.new ≡ self.old) }
    {
        self.invariant();
        let memory = match Memory::open(alloc, &maps, context) {
            Ok(memory) => memory,
            Err(fault) => return Err(fault),
        };
        self.program.set_maps(maps);
        self.memory = memory;
        self.begin(context);
        Ok(())
    }

    /// Goes to the first slot, as at opening with a context, whatever memory is.
    fn begin(&mut self, context: &[u8])
        ensures { self.new ≡ record (initial self.old.program context.now) { memory = self.old.memory } }
    {
        self.program.invariant();
        self.pc = 0;
        self.registers = opening_registers(context);
        self.frames.clear();
        self.status = Status::Running;
        self.trace.clear();
    }
}

/// The registers at opening, and the frame pointer behind them.
fn opening_registers(context: &[u8]) -> [u64; 11]
    ensures value { take 10 result
        ≡ 0 ∷ (if length context.now == 0 then 0 else context_base) ∷ length context.now
        ∷ replicate 7 0 }
    ensures pointer { slice_index result 10 ≡ frame_pointer_of 0 }
{
    let base = if context.is_empty() { 0 } else { CONTEXT_BASE };
    [
        0,
        base,
        context.len() as u64,
        0,
        0,
        0,
        0,
        0,
        0,
        0,
        frame_pointer(0),
    ]
}
