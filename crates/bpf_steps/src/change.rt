//! What a step does to the machine: the places that it replaces, and their new values.
ghost use Rattle.std.specs.Prelude.{◌≡◌};
ghost use Rattle.bpf_steps.specs.Entries.{change_weight};

use bpf_entries::{FRAME_LEN, Status, weights};
use bpf_isa::{Reg, Size};

/// What a step does. There is a variant for each kind of entry that a step makes.
#[derive(Clone, Copy)]
pub enum Change {
    /// A register gets a value, and the instruction at `next` is the next to run.
    Set {
        register: Reg,
        value: u64,
        next: u16,
    },
    /// The instruction at `next` is the next to run.
    Go {
        next: u16,
    },
    /// The low bytes of a number are stored at an address, whose bytes begin at this index of
    /// memory's bytes.
    Store {
        address: u64,
        index: usize,
        size: Size,
        value: u64,
        next: u16,
    },
    /// A number replaces that at an address, and a register gets the number that stood there.
    Fetch {
        address: u64,
        index: usize,
        size: Size,
        value: u64,
        register: Reg,
        next: u16,
    },
    /// A frame is pushed and its bytes become zero, and the instruction at `target` is the next to
    /// run.
    Call {
        target: u16,
    },
    /// The innermost frame is popped: it says what is in r6 to r9 and which instruction is the next
    /// to run.
    Return,
    /// The cell at an address gets the `length` bytes, 1 to 256, from an index of memory's bytes
    /// on, and r0 gets 0.
    Cell {
        address: u64,
        source: usize,
        length: u16,
        next: u16,
    },
    /// A word is appended to the trace, and r0 gets 0.
    Trace {
        word: u64,
        next: u16,
    },
    /// The machine ends: nothing but the status changes.
    Stop {
        status: Status,
    },
}

impl Change {
    /// How many bytes the entry of it has in a journal.
    #[inline(always)]
    pub fn entry_weight(&self) -> usize
        ensures { result ≡ change_weight self.now }
    {
        match *self {
            Change::Set { .. } => weights::REGISTER,
            Change::Go { .. } => weights::JUMP,
            Change::Store { size, .. } => weights::STORE + size.len(),
            Change::Fetch { size, .. } => weights::FETCH + size.len(),
            Change::Call { .. } => weights::CALL + FRAME_LEN,
            Change::Return => weights::RETURN,
            Change::Cell { length, .. } => weights::CELL + usize::from(length),
            Change::Trace { .. } => weights::TRACE,
            Change::Stop { .. } => weights::END,
        }
    }
}
