//! Entries read whole, as values.
ghost use Rattle.std.specs.Prelude.{◌≡◌, ◌≤◌, ◌↔◌, ◌∷◌, [], Bool, List, Some, IsSome, IfSome, length, slice_index};
ghost use Rattle.bpf_entries.specs.declared.entry.Entry.{Entry as the_entry};
ghost use Rattle.bpf_entries.specs.Fields.{FitsFields};
ghost use Rattle.bpf_entries.specs.Reading.{ReadsAs, number_at, run_at, slot_at, status_of};
ghost use Rattle.bpf_entries.specs.Texts.{text};

use crate::byte_string::ByteString;
use crate::entry::Entry;
use crate::frames::FrameBytes;
use crate::read::runs::piece;
use crate::read::tags::{is_marked, kind_of};
use crate::status::{Fault, Status};
use bpf_isa::Reg;
use byteorder::{ByteOrder, LittleEndian};

/// The bytes of a run, `count` from a place on, None where they are none or more than 256.
fn run_of(bytes: &[u8], start: usize, count: usize) -> Option<ByteString>
    requires { start ≤ length bytes.now }
    ensures found { IsSome result ↔ (1 ≤ length (run_at start count bytes.now))
        × (length (run_at start count bytes.now) ≤ 256) }
    ensures value { IfSome result (λ s. s ≡ run_at start count bytes.now) }
{
    ByteString::new(piece(bytes, start, count))
}

/// A status by its kind and number.
pub fn status_by(kind: u8, number: u64) -> Status
    ensures { result ≡ status_of kind number }
{
    match kind {
        0 => Status::Running,
        1 => Status::Exited,
        2 => Status::Faulted(Fault::Access { address: number }),
        3 => Status::Faulted(Fault::Token { token: number }),
        _ => Status::Faulted(Fault::Depth),
    }
}

/// A register's entry.
fn register_entry(bytes: &[u8]) -> Option<Entry>
    ensures { ReadsAs 1 bytes.now result }
{
    if bytes.len() < 16 {
        return None;
    }
    match Reg::new(bytes[5]) {
        Some(register) => Some(Entry::Register {
            pc: LittleEndian::read_u16(&bytes[3..5]),
            register,
            value: LittleEndian::read_u64(&bytes[6..14]),
        }),
        None => None,
    }
}

/// The entry of an edit of a register.
fn edit_register_entry(bytes: &[u8]) -> Option<Entry>
    ensures { ReadsAs 10 bytes.now result }
{
    if bytes.len() < 14 {
        return None;
    }
    match Reg::new(bytes[3]) {
        Some(register) => Some(Entry::EditRegister {
            register,
            value: LittleEndian::read_u64(&bytes[4..12]),
        }),
        None => None,
    }
}

/// The slot that stands behind the tag.
#[inline(always)]
pub fn slot_in(bytes: &[u8]) -> u16
    requires { 5 ≤ length bytes.now }
    ensures { result ≡ slot_at 3 bytes.now }
{
    LittleEndian::read_u16(&bytes[3..5])
}

/// The four numbers of a return's entry.
pub fn saved_in(bytes: &[u8]) -> [u64; 4]
    requires { 39 ≤ length bytes.now }
    ensures { result ≡ number_at 5 bytes.now ∷ number_at 13 bytes.now ∷ number_at 21
        bytes.now ∷ number_at 29 bytes.now ∷ [] }
{
    let r6 = LittleEndian::read_u64(&bytes[5..]);
    let r7 = LittleEndian::read_u64(&bytes[13..]);
    let r8 = LittleEndian::read_u64(&bytes[21..]);
    let r9 = LittleEndian::read_u64(&bytes[29..]);
    [r6, r7, r8, r9]
}

/// A return's entry.
fn return_entry(bytes: &[u8]) -> Option<Entry>
    ensures { ReadsAs 4 bytes.now result }
{
    if bytes.len() < 39 {
        return None;
    }
    let pc = slot_in(bytes);
    let saved = saved_in(bytes);
    Some(Entry::Return { pc, saved })
}

/// A store's entry.
fn store_entry(bytes: &[u8]) -> Option<Entry>
    ensures { ReadsAs 5 bytes.now result }
{
    if bytes.len() < 16 {
        return None;
    }
    match run_of(bytes, 14, usize::from(bytes[13])) {
        Some(old) => Some(Entry::Store {
            pc: LittleEndian::read_u16(&bytes[3..5]),
            address: LittleEndian::read_u64(&bytes[5..13]),
            old,
        }),
        None => None,
    }
}

/// The entry of a store that also fetches.
fn fetch_entry(bytes: &[u8]) -> Option<Entry>
    ensures { ReadsAs 6 bytes.now result }
{
    if bytes.len() < 25 {
        return None;
    }
    match (
        Reg::new(bytes[5]),
        run_of(bytes, 23, usize::from(bytes[22])),
    ) {
        (Some(register), Some(old)) => Some(Entry::Fetch {
            pc: LittleEndian::read_u16(&bytes[3..5]),
            register,
            value: LittleEndian::read_u64(&bytes[6..14]),
            address: LittleEndian::read_u64(&bytes[14..22]),
            old,
        }),
        _ => None,
    }
}

/// The entry of an update of a map's cell.
fn cell_entry(bytes: &[u8]) -> Option<Entry>
    ensures { ReadsAs 7 bytes.now result }
{
    if bytes.len() < 23 {
        return None;
    }
    match run_of(bytes, 21, bytes.len() - 23) {
        Some(old) => Some(Entry::Cell {
            pc: LittleEndian::read_u16(&bytes[3..5]),
            r0: LittleEndian::read_u64(&bytes[5..13]),
            address: LittleEndian::read_u64(&bytes[13..21]),
            old,
        }),
        None => None,
    }
}

/// The entry of an edit of bytes.
fn edit_bytes_entry(bytes: &[u8]) -> Option<Entry>
    ensures { ReadsAs 11 bytes.now result }
{
    if bytes.len() < 13 {
        return None;
    }
    match run_of(bytes, 11, bytes.len() - 13) {
        Some(old) => Some(Entry::EditBytes {
            address: LittleEndian::read_u64(&bytes[3..11]),
            old,
        }),
        None => None,
    }
}

/// A jump's entry.
fn jump_entry(bytes: &[u8]) -> Option<Entry>
    ensures { ReadsAs 2 bytes.now result }
{
    if bytes.len() < 7 {
        return None;
    }
    Some(Entry::Jump {
        pc: LittleEndian::read_u16(&bytes[3..5]),
    })
}

/// A local call's entry.
fn call_entry(bytes: &[u8]) -> Option<Entry>
    ensures { ReadsAs 3 bytes.now result }
{
    if bytes.len() < 519 {
        return None;
    }
    Some(Entry::Call {
        pc: LittleEndian::read_u16(&bytes[3..5]),
        old: FrameBytes::of(&bytes[5..517]),
    })
}

/// The entry of a word appended to the trace list.
fn trace_entry(bytes: &[u8]) -> Option<Entry>
    ensures { ReadsAs 8 bytes.now result }
{
    if bytes.len() < 15 {
        return None;
    }
    Some(Entry::Trace {
        pc: LittleEndian::read_u16(&bytes[3..5]),
        r0: LittleEndian::read_u64(&bytes[5..13]),
    })
}

/// The entry of an edit of pc.
fn edit_pc_entry(bytes: &[u8]) -> Option<Entry>
    ensures { ReadsAs 12 bytes.now result }
{
    if bytes.len() < 16 {
        return None;
    }
    Some(Entry::EditPc {
        pc: LittleEndian::read_u16(&bytes[3..5]),
        status: status_by(bytes[5], LittleEndian::read_u64(&bytes[6..14])),
    })
}

/// The entry of a kind, 1 to 12.
fn entry_of_kind(kind: u8, bytes: &[u8]) -> Option<Entry>
    requires { (1 ≤ kind) × (kind ≤ 12) }
    ensures { ReadsAs kind bytes.now result }
{
    match kind {
        1 => register_entry(bytes),
        2 => jump_entry(bytes),
        3 => call_entry(bytes),
        4 => return_entry(bytes),
        5 => store_entry(bytes),
        6 => fetch_entry(bytes),
        7 => cell_entry(bytes),
        8 => trace_entry(bytes),
        9 => Some(Entry::End),
        10 => edit_register_entry(bytes),
        11 => edit_bytes_entry(bytes),
        _ => edit_pc_entry(bytes),
    }
}

impl Entry {
    /// The entry and the mark that bytes are the text of, each field in its range. Other bytes give
    /// None, or some entry.
    pub fn read(bytes: &[u8]) -> Option<(Entry, bool)>
        ensures { (e : the_entry) (mark : Bool) → FitsFields e → bytes.now ≡ text e mark →
            result ≡ Some (e, mark) }
    {
        if bytes.len() < 5 {
            return None;
        }
        let kind = kind_of(bytes);
        if kind < 1 || kind > 12 {
            return None;
        }
        match entry_of_kind(kind, bytes) {
            Some(entry) => Some((entry, is_marked(bytes))),
            None => None,
        }
    }
}
