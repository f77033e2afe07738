//! Edits: the test, the entry, and the doing.
ghost use Rattle.std.specs.Prelude.{◌≡◌, ◌≤◌, true, is_some, IsSome, Some, IfOk, IfErr, OnOk, slice_get};
ghost use Rattle.bpf_isa.specs.Programs.{IsStart, insn_at};
ghost use Rattle.bpf_machine.specs.Edits.{IsEditable, RefusesEdit, edit_fault, edited, edit_entry, has_cell};
ghost use Rattle.bpf_steps.specs.Platform.{cell_address as cell_address_of};
ghost use Rattle.bpf_steps.specs.Regions.{index_of, run_at};

use super::Cpu;
use crate::edit::{Edit, EditFault};
use bpf_entries::{ByteString, Entry, Status};
use bpf_isa::Program;
use bpf_steps::platform::cell_address;

impl Cpu {
    /// Makes an edit, in every status. Its entry holds what it replaced. A refused edit changes
    /// nothing.
    pub fn edit(&mut self, edit: &Edit) -> Result<Entry, EditFault>
        ensures ok { OnOk result (IsEditable self.old edit.now) }
        ensures next { OnOk result (self.new ≡ edited self.old edit.now) }
        ensures entry { IfOk result (λ entry. entry ≡ edit_entry self.old edit.now) }
        ensures err { IfErr result (RefusesEdit self.old edit.now self.new) }
    {
        match self.edit_fault(edit) {
            Some(fault) => Err(fault),
            None => {
                let entry = self.entry_of_edit(edit);
                self.do_edit(edit);
                Ok(entry)
            }
        }
    }

    /// Why an edit is refused, if it is.
    pub fn edit_fault(&self, edit: &Edit) -> Option<EditFault>
        ensures { result ≡ edit_fault self.now edit.now }
    {
        match edit {
            Edit::Register { register, value: _ } => {
                if register.number() == 10 {
                    return Some(EditFault::RegisterNotWritable);
                }
            }
            Edit::Bytes { address, bytes } => {
                if self.peek(*address, bytes.len()).is_none() {
                    return Some(EditFault::AddressNotPresent);
                }
            }
            Edit::Cell { map, index, bytes } => {
                if !self.has_cell(*map, *index, bytes.len()) {
                    return Some(EditFault::NoCell);
                }
            }
            Edit::Pc { slot } => {
                if !self.is_start(*slot) {
                    return Some(EditFault::NoStart);
                }
            }
        }
        None
    }

    /// Whether a map has this cell, with values of n bytes.
    fn has_cell(&self, map: u64, index: u64, n: usize) -> bool
        ensures { result ≡ has_cell (slice_get self.now.program.maps map) index n }
    {
        match self.program.maps().shape(map as usize) {
            Some(shape) => index < u64::from(shape.entries) && n == shape.value_size as usize,
            None => false,
        }
    }

    /// The address of a cell that a map has.
    fn cell(&self, map: u64, index: u64, n: usize) -> u64
        requires { has_cell (slice_get self.now.program.maps map) index n ≡ true }
        ensures value { result ≡ cell_address_of map index n }
        ensures present { IsSome (index_of self.now.memory result n) }
    {
        self.invariant();
        cell_address(map, index, n)
    }

    /// Whether an instruction of the program starts at this slot.
    fn is_start(&self, slot: u64) -> bool
        ensures { result ≡ is_some (insn_at self.now.program slot) }
    {
        self.program.is_start(slot as usize)
    }

    /// The entry of an edit that is not refused.
    #[tactic(auto, unfolding(crate::specs::Edits::edit_entry))]
    fn entry_of_edit(&self, edit: &Edit) -> Entry
        requires { IsEditable self.now edit.now }
        ensures { result ≡ edit_entry self.now edit.now }
    {
        match edit {
            Edit::Register { register, value: _ } => Entry::EditRegister {
                register: *register,
                value: self.reg(*register),
            },
            Edit::Bytes { address, bytes } => Entry::EditBytes {
                address: *address,
                old: self.bytes_at(*address, bytes.len()),
            },
            Edit::Cell { map, index, bytes } => {
                let address = self.cell(*map, *index, bytes.len());
                Entry::EditBytes {
                    address,
                    old: self.bytes_at(address, bytes.len()),
                }
            }
            Edit::Pc { slot: _ } => Entry::EditPc {
                pc: self.pc,
                status: self.status,
            },
        }
    }

    /// The bytes of a run that is present.
    pub(super) fn bytes_at(&self, address: u64, n: usize) -> ByteString
        requires some { (1 ≤ n) × (n ≤ 256) }
        requires present { IsSome (index_of self.now.memory address n) }
        ensures { Some result ≡ run_at self.now.memory address n }
    {
        match self.peek(address, n) {
            Some(run) => ByteString::of(run),
            None => unreachable!(),
        }
    }

    /// Does an edit that is not refused.
    #[tactic(auto, unfolding(crate::specs::Edits::edited))]
    fn do_edit(&mut self, edit: &Edit)
        requires { IsEditable self.old edit.now }
        ensures { self.new ≡ edited self.old edit.now }
    {
        match edit {
            Edit::Register { register, value } => {
                self.write_register(*register, *value);
            }
            Edit::Bytes { address, bytes } => self.memory.put(*address, bytes.as_slice()),
            Edit::Cell { map, index, bytes } => {
                let address = self.cell(*map, *index, bytes.len());
                self.memory.put(address, bytes.as_slice());
            }
            Edit::Pc { slot } => {
                self.pc = start(&self.program, *slot);
                self.status = Status::Running;
            }
        }
    }
}

/// The slot of an instruction.
fn start(program: &Program, slot: u64) -> u16
    requires { IsStart program.now slot }
    ensures { result ≡ slot }
{
    program.invariant();
    slot as u16
}
