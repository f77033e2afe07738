//! Which entries are steps', and that the parts of each fit their fields.
ghost use Rattle.std.specs.Prelude.{◌≡◌, false, if◌then◌else◌, ◌<◌, All};
ghost use Rattle.bpf_entries.specs.Fields.{FitsBytes, FitsFields};
ghost use Rattle.bpf_entries.specs.Status.{FitsStatus};
ghost use Rattle.bpf_journal.specs.EditEntries.{is_of_step as is_of_step_of};

use bpf_machine::{ByteString, Entry, Fault, Status};

/// Brings into a proof that the entry of an edit fits its fields.
pub fn edit_fits(entry: &Entry)
    requires { is_of_step_of entry.now ≡ false }
    ensures { FitsFields entry.now }
{
    match entry {
        Entry::EditRegister { register, value } => {
            let _number = register.number();
            let _value = *value;
        }
        Entry::EditBytes { address, old } => {
            let _address = *address;
            bytes_fit(old);
        }
        Entry::EditPc { pc, status } => {
            let _pc = *pc;
            status_fits(status);
        }
        _ => {}
    }
}

/// Whether an entry is a step's, and not an edit's.
pub fn is_of_step(entry: &Entry) -> bool
    ensures { result ≡ is_of_step_of entry.now }
{
    match entry {
        Entry::EditRegister { .. } | Entry::EditBytes { .. } | Entry::EditPc { .. } => false,
        _ => true,
    }
}

/// How many steps an entry is of: one or none.
pub fn step_count(entry: &Entry) -> usize
    ensures { result ≡ (if is_of_step_of entry.now then 1 else 0) }
{
    if is_of_step(entry) { 1 } else { 0 }
}

/// Brings the number and the range of bytes into a proof.
fn bytes_fit(old: &ByteString)
    ensures { FitsBytes 256 old.now }
{
    are_bytes(old.as_slice());
}

fn are_bytes(bytes: &[u8])
    ensures { All (λ byte. byte < 256) bytes.now }
{}

/// Brings the range of a status's number into a proof.
fn status_fits(status: &Status)
    ensures { FitsStatus status.now }
{
    match *status {
        Status::Running | Status::Exited => {}
        Status::Faulted(fault) => match fault {
            Fault::Access { address: _address } => {}
            Fault::Token { token: _token } => {}
            Fault::Depth => {}
        },
    }
}
