//! Entries that are values, written.
ghost use Rattle.std.specs.Prelude.{◌≡◌, ◌≤◌, ◌++◌, length, drop};
ghost use Rattle.bpf_entries.specs.Fields.{FitsFields};
ghost use Rattle.bpf_entries.specs.Texts.{text};
ghost use Rattle.bpf_entries.specs.Weights.{weight as weight_of};

use crate::entry::Entry;
use crate::write::fixed::{
    put_edit_pc, put_edit_register, put_end, put_jump, put_register, put_return, put_trace,
};
use crate::write::runs::{put_call, put_cell, put_edit_bytes, put_fetch, put_store};

impl Entry {
    /// Writes its text into the beginning of a slice, and answers how many bytes that are: 5 to
    /// 519.
    pub fn write(&self, room: &mut [u8], mark: bool) -> usize
        requires fits { FitsFields self.now }
        requires room { weight_of self.now ≤ length room.old }
        ensures weight { result ≡ weight_of self.now }
        ensures text { room.new ≡ text self.now mark ++ drop (weight_of self.now) room.old }
    {
        match self {
            Entry::Register {
                pc,
                register,
                value,
            } => put_register(room, *pc, *register, *value, mark),
            Entry::Jump { pc } => put_jump(room, *pc, mark),
            Entry::Call { pc, old } => put_call(room, *pc, old.as_slice(), mark),
            Entry::Return { pc, saved } => put_return(room, *pc, saved, mark),
            Entry::Store { pc, address, old } => {
                put_store(room, *pc, *address, old.as_slice(), mark)
            }
            Entry::Fetch {
                pc,
                register,
                value,
                address,
                old,
            } => put_fetch(room, *pc, *register, *value, *address, old.as_slice(), mark),
            Entry::Cell {
                pc,
                r0,
                address,
                old,
            } => put_cell(room, *pc, *r0, *address, old.as_slice(), mark),
            Entry::Trace { pc, r0 } => put_trace(room, *pc, *r0, mark),
            Entry::End => put_end(room, mark),
            Entry::EditRegister { register, value } => {
                put_edit_register(room, *register, *value, mark)
            }
            Entry::EditBytes { address, old } => {
                put_edit_bytes(room, *address, old.as_slice(), mark)
            }
            Entry::EditPc { pc, status } => put_edit_pc(room, *pc, *status, mark),
        }
        self.weight()
    }
}
