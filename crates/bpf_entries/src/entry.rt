//! Entries: what a move replaced. Put back, an entry gives the state before its move.
ghost use Rattle.std.specs.Prelude.{◌≡◌, ◌<◌, ◌+◌, ◌^◌, option_map};

use crate::byte_string::ByteString;
use crate::frames::{FrameBytes, frame_base};
use crate::read::runs::byte_in;
use crate::status::Status;
use crate::weights;
use bpf_isa::Reg;

/// What a move replaced: the values before the move of exactly the places that it changes.
#[derive(Drop)]
pub enum Entry {
    /// A step that replaces one register: arithmetic, loads, helpers that only answer.
    Register {
        pc: u16,
        register: Reg,
        value: u64,
    },
    /// A jump, taken or not.
    Jump {
        pc: u16,
    },
    /// A local call, with the bytes of the frame that it entered.
    Call {
        pc: u16,
        old: FrameBytes,
    },
    /// A return from a local call, with r6 to r9 as the called function left them.
    Return {
        pc: u16,
        saved: [u64; 4],
    },
    /// A store at an address, with the bytes that it overwrote.
    Store {
        pc: u16,
        address: u64,
        old: ByteString,
    },
    /// A store that also fetches into a register.
    Fetch {
        pc: u16,
        register: Reg,
        value: u64,
        address: u64,
        old: ByteString,
    },
    /// An update of a map's cell, which also answers in r0.
    Cell {
        pc: u16,
        r0: u64,
        address: u64,
        old: ByteString,
    },
    /// A word appended to the trace list, which also answers in r0.
    Trace {
        pc: u16,
        r0: u64,
    },
    /// A step that ends the machine: the status alone, which was running.
    End,
    /// An edit of a register.
    EditRegister {
        register: Reg,
        value: u64,
    },
    /// An edit of bytes at an address.
    EditBytes {
        address: u64,
        old: ByteString,
    },
    /// An edit of pc, which also makes the machine run.
    EditPc {
        pc: u16,
        status: Status,
    },
}

impl Entry {
    ghost use Rattle.bpf_entries.specs.Before.{byte_before as byte_before_by, depth_before as depth_before_by};
    ghost use Rattle.bpf_entries.specs.Past.{replaced as replaced_by};
    ghost use Rattle.bpf_entries.specs.Weights.{weight as weight_of};

    /// How many bytes it has in a journal: 5 to 519.
    pub fn weight(&self) -> usize
        ensures { result ≡ weight_of self.now }
    {
        match self {
            Entry::Register { .. } => weights::REGISTER,
            Entry::Jump { .. } => weights::JUMP,
            Entry::Call { old, .. } => weights::CALL + old.len(),
            Entry::Return { .. } => weights::RETURN,
            Entry::Store { old, .. } => weights::STORE + old.len(),
            Entry::Fetch { old, .. } => weights::FETCH + old.len(),
            Entry::Cell { old, .. } => weights::CELL + old.len(),
            Entry::Trace { .. } => weights::TRACE,
            Entry::End => weights::END,
            Entry::EditRegister { .. } => weights::EDIT_REGISTER,
            Entry::EditBytes { old, .. } => weights::EDIT_BYTES + old.len(),
            Entry::EditPc { .. } => weights::EDIT_PC,
        }
    }

    /// The address and the old bytes of the run that its move replaced, by the depth of calls after
    /// the move; None where the move left memory as it was.
    pub fn replaced(&self, depth: u32) -> Option<(u64, &[u8])>
        ensures { option_map (λ run. record { address = run.0; bytes = run.1.now }) result
            ≡ replaced_by depth self.now }
    {
        match self {
            Entry::Call { old, .. } => Some((frame_base(depth), old.as_slice())),
            Entry::Store { address, old, .. }
            | Entry::Fetch { address, old, .. }
            | Entry::Cell { address, old, .. }
            | Entry::EditBytes { address, old } => Some((*address, old.as_slice())),
            _ => None,
        }
    }

    /// The byte at an address before its move, where it is `after` behind the move, at the depth of
    /// calls there.
    pub fn byte_before(&self, depth: u32, address: u64, after: u8) -> u8
        ensures { result ≡ byte_before_by depth self.now address after }
    {
        match self.replaced(depth) {
            Some((start, old)) => byte_in(start, old, address, after),
            None => after,
        }
    }

    /// The depth of calls before its move, by the depth after it.
    pub fn depth_before(&self, depth: u32) -> u32
        requires { depth + 1 < 2 ^ 32 }
        ensures { result ≡ depth_before_by depth self.now }
    {
        match self {
            Entry::Call { .. } => depth.saturating_sub(1),
            Entry::Return { .. } => depth + 1,
            _ => depth,
        }
    }
}
