//! The object's file with another section `.BTF`.
ghost use Rattle.std.specs.Prelude.{◌≡◌, ◌≤◌, ◌+◌, ◌*◌, IfErr, IfNone, IfOk, IfSome, OnSome, Ok, false, length, true};
ghost use Rattle.bpf_link.specs.Layout.{u64_at};
ghost use Rattle.bpf_link.specs.Links.{MemoryOr};
ghost use Rattle.bpf_link.specs.Sections.{FoundBelow, found};
ghost use Rattle.bpf_counts.specs.Files.{has_header, header_place, is_types, replaced};

use bpf_link::{Found, LinkFault, Object, SectionHeader, name_at, section_place, with, with_u64};
use byteorder::{ByteOrder, LittleEndian};
use std::alloc::Global;

/// Whether a section is the one of BTF.
fn is_types(object: &Object<'_>, section: &SectionHeader) -> bool
    ensures { result ≡ is_types object.now section.now }
{
    name_at(object.bytes(), section_place(object, section), b".BTF")
}

/// The section of BTF.
pub fn types_found(object: &Object<'_>) -> Found
    ensures value { result ≡ found (is_types object.now) object.now.sections }
    ensures within { FoundBelow (length object.now.sections) result }
{
    let mut found = Found::Nothing;
    for i in 0..object.len() {
        let section = object.section(i);
        found = found.with(is_types(object, &section), i);
    }
    found
}

/// The number in the eight bytes at a place.
fn u64_at(bytes: &[u8], at: usize) -> u64
    requires { at + 8 ≤ length bytes.now }
    ensures { result ≡ u64_at bytes.now at }
{
    LittleEndian::read_u64(&bytes[at..])
}

/// Where the header of a section stands, if it lies in the file.
fn header_place(bytes: &[u8], i: usize) -> Option<usize>
    ensures place { IfSome result (λ at. at ≡ header_place bytes.now i) }
    ensures inside { IfSome result (λ at. at + 64 ≤ length bytes.now) }
    ensures found { OnSome result (has_header bytes.now i ≡ true) }
    ensures none { IfNone result (has_header bytes.now i ≡ false) }
{
    if i > 65535 || bytes.len() < 64 {
        return None;
    }
    let table = u64_at(bytes, 40);
    if table > bytes.len() as u64 {
        return None;
    }
    let at = table as usize + 64 * i;
    if at + 64 > bytes.len() {
        return None;
    }
    Some(at)
}

/// The file with other bytes for a section.
pub fn replaced(alloc: Global, bytes: &[u8], i: usize, section: &[u8]) -> Result<Vec<u8>, LinkFault>
    ensures ok { IfOk result (λ all. replaced bytes.now i section.now ≡ Ok all.items) }
    ensures err { IfErr result (MemoryOr (replaced bytes.now i section.now)) }
{
    let at = match header_place(bytes, i) {
        Some(at) => at,
        None => return Err(LinkFault::SectionTable),
    };
    let own = match Vec::from_slice(alloc, bytes) {
        Ok(own) => own,
        Err(_) => return Err(LinkFault::Memory),
    };
    match with(own, section) {
        Ok(all) => {
            let placed = with_u64(all, at + 24, bytes.len() as u64);
            Ok(with_u64(placed, at + 32, section.len() as u64))
        }
        Err(fault) => Err(fault),
    }
}
