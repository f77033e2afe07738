//! Edits: what a user changes in a machine by hand.

use bpf_entries::ByteString;
use bpf_isa::Reg;
use thiserror::Error;

/// A change by hand. It is made in every status, and counts as a move.
#[derive(Drop)]
pub enum Edit {
    /// A register gets a value.
    Register {
        register: Reg,
        value: u64,
    },
    /// The run at an address gets other bytes.
    Bytes {
        address: u64,
        bytes: ByteString,
    },
    /// The cell of a map gets other bytes, as many as a value of the map has.
    Cell {
        map: u64,
        index: u64,
        bytes: ByteString,
    },
    /// Another instruction is the next to run, and the machine runs.
    Pc {
        slot: u64,
    },
}

/// Why an edit is refused. A refused edit changes nothing.
#[derive(Clone, Copy, Debug, Error)]
pub enum EditFault {
    /// Some byte of the run isn't present, or it lies in two regions.
    #[error("address not present")]
    AddressNotPresent,
    /// r10 is read-only.
    #[error("register not writable")]
    RegisterNotWritable,
    /// No instruction of the program starts at the slot.
    #[error("no instruction starts there")]
    NoStart,
    /// There is no such map, its cells end before the index, or its values have another length.
    #[error("no such cell or wrong length")]
    NoCell,
}
