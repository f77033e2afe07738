//! Moves that were taken back, as they are kept to be made again.
ghost use Rattle.std.specs.Prelude.{◌≡◌, false};
ghost use Rattle.bpf_entries.specs.Past.{is_of_step as of_step};
ghost use Rattle.bpf_entries.specs.Fields.{FitsFields};
ghost use Rattle.bpf_machine.specs.Edits.{replaced_run};
ghost use Rattle.bpf_journal.specs.Again.{move_again as again, seen_again};

use crate::fields::{edit_fits, is_of_step};
use bpf_machine::{ByteString, Cpu, Edit, Entry, Move, Status};

/// What is kept of the move with this entry that led here: of a step the entry, of an edit the same
/// form with the values that it wrote.
pub(crate) fn entry_again(cpu: &Cpu, entry: Entry) -> Entry
    ensures value { result ≡ seen_again cpu.now entry }
    ensures fits { of_step result ≡ false → FitsFields result }
{
    let again = seen_again(cpu, entry);
    if !is_of_step(&again) {
        edit_fits(&again);
    }
    again
}

/// The move of an edit, to be made again: the entry's form, with what the state shows in its place.
fn seen_again(cpu: &Cpu, entry: Entry) -> Entry
    ensures { result ≡ seen_again cpu.now entry }
{
    match entry {
        Entry::EditRegister { register, value: _ } => Entry::EditRegister {
            register,
            value: cpu.reg(register),
        },
        Entry::EditBytes { address, old } => Entry::EditBytes {
            address,
            old: bytes_now(cpu, address, old),
        },
        Entry::EditPc { pc: _, status: _ } => Entry::EditPc {
            pc: cpu.pc(),
            status: Status::Running,
        },
        step => step,
    }
}

/// The bytes that stand in a run that an edit replaced.
fn bytes_now(cpu: &Cpu, address: u64, old: ByteString) -> ByteString
    ensures { result ≡ replaced_run cpu.now address old }
{
    match cpu.peek(address, old.len()) {
        Some(run) => ByteString::of(run),
        None => old,
    }
}

/// The move that is made again by what is kept of it.
pub(crate) fn move_again(entry: &Entry) -> Move
    ensures { result ≡ again entry.now }
{
    match entry {
        Entry::EditRegister { register, value } => Move::Edit(Edit::Register {
            register: *register,
            value: *value,
        }),
        Entry::EditBytes { address, old } => Move::Edit(Edit::Bytes {
            address: *address,
            bytes: old.copied(),
        }),
        Entry::EditPc { pc, status: _ } => Move::Edit(Edit::Pc {
            slot: u64::from(*pc),
        }),
        _ => Move::Step,
    }
}
