//! The run of bytes that an entry's move replaced, read where it lies in the entry's text, and the
//! depth before the move.
ghost use Rattle.std.specs.Prelude.{◌≡◌, ◌≤◌, ◌<◌, ◌+◌, ◌-◌, ◌^◌, Bool, Some, option_map, length, slice_index};
ghost use Rattle.bpf_entries.specs.declared.entry.Entry.{Entry};
ghost use Rattle.bpf_entries.specs.Before.{byte_before as byte_before_by, byte_in as byte_in_run, depth_before as depth_before_by};
ghost use Rattle.bpf_entries.specs.Fields.{FitsFields};
ghost use Rattle.bpf_entries.specs.Frames.{frame_base as frame_base_of, frame_len};
ghost use Rattle.bpf_entries.specs.Past.{replaced, stood};
ghost use Rattle.bpf_entries.specs.Reading.{number_at, run_at};
ghost use Rattle.bpf_entries.specs.Texts.{text};

use crate::frames::{FRAME_LEN, frame_base};
use crate::read::tags::kind_of;
use crate::weights::GREATEST;
use byteorder::{ByteOrder, LittleEndian};

/// The bytes from a place on, so many, or those that there are.
#[inline(always)]
pub(super) fn piece(bytes: &[u8], start: usize, count: usize) -> &[u8]
    requires { start ≤ length bytes.now }
    ensures { result.now ≡ run_at start count bytes.now }
{
    let rest = &bytes[start..];
    if count <= rest.len() {
        &rest[..count]
    } else {
        rest
    }
}

/// A run whose bytes begin at a place with their count in front, and whose address stands at
/// another.
#[inline(always)]
fn counted_run(bytes: &[u8], address: usize, start: usize) -> Option<(u64, &[u8])>
    requires { (address + 9 ≤ start) × (start ≤ 23) }
    ensures { start ≤ length bytes.now →
        option_map (λ run. record { address = run.0; bytes = run.1.now }) result
        ≡ stood (number_at address bytes.now)
        (run_at start (slice_index bytes.now (start - 1)) bytes.now) }
{
    if bytes.len() < start {
        return None;
    }
    let count = usize::from(bytes[start - 1]);
    Some((
        LittleEndian::read_u64(&bytes[address..]),
        piece(bytes, start, count),
    ))
}

/// A run whose bytes go from a place to the length at the end, and whose address stands at another.
#[inline(always)]
fn rest_run(bytes: &[u8], address: usize, start: usize) -> Option<(u64, &[u8])>
    requires { (address + 8 ≤ start) × (start ≤ 23) }
    ensures { start + 2 ≤ length bytes.now →
        option_map (λ run. record { address = run.0; bytes = run.1.now }) result
        ≡ stood (number_at address bytes.now)
        (run_at start (length bytes.now - (start + 2)) bytes.now) }
{
    if bytes.len() < start + 2 {
        return None;
    }
    Some((
        LittleEndian::read_u64(&bytes[address..]),
        piece(bytes, start, bytes.len() - (start + 2)),
    ))
}

/// The run of a call's entry: the frame of the depth after the call.
#[inline(always)]
fn frame_run(bytes: &[u8], depth: u32) -> Option<(u64, &[u8])>
    ensures { 7 + frame_len ≤ length bytes.now →
        option_map (λ run. record { address = run.0; bytes = run.1.now }) result
        ≡ stood (frame_base_of depth) (run_at 5 frame_len bytes.now) }
{
    if bytes.len() < GREATEST {
        return None;
    }
    Some((frame_base(depth), piece(bytes, 5, FRAME_LEN)))
}

/// The address and the old bytes of the run that the move of an entry replaced, by the entry's text
/// and the depth of calls after the move, and where they lie in the text; None where the move left
/// memory as it was. Other bytes give None, or some run.
#[inline(always)]
pub fn replaced_in(bytes: &[u8], depth: u32) -> Option<(u64, &[u8])>
    ensures { (e : Entry) (mark : Bool) → FitsFields e → bytes.now ≡ text e mark →
        option_map (λ run. record { address = run.0; bytes = run.1.now }) result
        ≡ replaced depth e }
{
    if bytes.len() < 5 {
        return None;
    }
    match kind_of(bytes) {
        3 => frame_run(bytes, depth),
        5 => counted_run(bytes, 5, 14),
        6 => counted_run(bytes, 14, 23),
        7 => rest_run(bytes, 13, 21),
        11 => rest_run(bytes, 3, 11),
        _ => None,
    }
}

/// The byte at an address before the move of an entry, by the entry's text, where it is `after`
/// behind the move, at the depth of calls there. Other bytes give some byte.
#[inline(always)]
pub fn byte_before(bytes: &[u8], depth: u32, address: u64, after: u8) -> u8
    ensures { (e : Entry) (mark : Bool) → FitsFields e → bytes.now ≡ text e mark →
        result ≡ byte_before_by depth e address after }
{
    match replaced_in(bytes, depth) {
        Some((start, old)) => byte_in(start, old, address, after),
        None => after,
    }
}

/// The depth of calls before the move of an entry, by the entry's text and the depth after the
/// move. Other bytes give some depth.
#[inline(always)]
pub fn depth_before(bytes: &[u8], depth: u32) -> u32
    requires { depth + 1 < 2 ^ 32 }
    ensures { (e : Entry) (mark : Bool) → bytes.now ≡ text e mark →
        result ≡ depth_before_by depth e }
{
    if bytes.len() < 5 {
        return depth;
    }
    match kind_of(bytes) {
        3 => depth.saturating_sub(1),
        4 => depth + 1,
        _ => depth,
    }
}

/// The byte at an address in a run of bytes, and another outside of it.
#[inline(always)]
pub(crate) fn byte_in(start: u64, bytes: &[u8], address: u64, other: u8) -> u8
    ensures { result ≡ byte_in_run (Some (record { address = start; bytes = bytes.now }))
        address other }
{
    if address < start {
        return other;
    }
    let at = address - start;
    if at < bytes.len() as u64 {
        bytes[at as usize]
    } else {
        other
    }
}
