//! The relocations of a joined object's code.
ghost use Rattle.std.specs.Prelude.{◌≡◌, ◌≤◌, ◌<◌, ◌+◌, ◌*◌, ◌++◌, IfErr, IfOk, List, length};
ghost use Rattle.bpf_isa.specs.Checker.{most_slots};
ghost use Rattle.bpf_join.specs.Codes.{own_slots as own_slots_of};
ghost use Rattle.bpf_join.specs.Moved.{all_moved, joined_relocations, moved, place_in, relocation_bytes, symbol_in};
ghost use Rattle.bpf_link.specs.Parts.{slots_in};
ghost use Rattle.bpf_link.specs.declared.fault.LinkFault.TheVariants.{Memory};

use crate::codes::own_slots;
use bpf_link::{LinkFault, Part, Plan, RelocationEntry, Side};
use byteorder::{ByteOrder, LittleEndian};

/// The place of a relocation in a part that begins at a slot.
fn place_in(part: &Part<'_>, first: usize, offset: u64) -> u64
    requires small { first ≤ most_slots }
    requires short { slots_in part.now ≤ most_slots }
    ensures { result ≡ place_in part.now first offset }
{
    if offset < 8 * part.len() as u64 {
        return 8 * first as u64 + offset;
    }
    u64::MAX
}

/// The number of a symbol of so many, behind others.
fn symbol_in(count: u32, before: u32, symbol: u32) -> u32
    requires { count + before < 4294967296 }
    ensures { result ≡ symbol_in count before symbol }
{
    if symbol < count {
        return before + symbol;
    }
    u32::MAX
}

/// A relocation as it stands in an object.
pub fn relocation_bytes(offset: u64, kind: u32, symbol: u32) -> [u8; 16]
    ensures { result ≡ relocation_bytes offset kind symbol }
{
    let mut bytes = [0; 16];
    LittleEndian::write_u64(&mut bytes[0..8], offset);
    LittleEndian::write_u32(&mut bytes[8..12], kind);
    LittleEndian::write_u32(&mut bytes[12..16], symbol);
    bytes
}

/// Bytes with a relocation of a part, moved on.
fn with_one(
    part: &Part<'_>,
    first: usize,
    count: u32,
    before: u32,
    relocation: &RelocationEntry,
    bytes: Vec<u8>,
) -> Result<Vec<u8>, LinkFault>
    requires small { (first ≤ most_slots) × (slots_in part.now ≤ most_slots) }
    requires few { count + before < 4294967296 }
    ensures ok { IfOk result (λ new. new.items
        ≡ bytes.items ++ moved part.now first count before relocation.now) }
    ensures err { IfErr result (λ fault. fault ≡ Memory) }
{
    let mut all = bytes;
    let place = place_in(part, first, relocation.offset);
    let symbol = symbol_in(count, before, relocation.symbol);
    match all.extend_from_slice(&relocation_bytes(place, relocation.kind, symbol)) {
        Ok(()) => Ok(all),
        Err(_) => Err(LinkFault::Memory),
    }
}

/// Bytes with the relocations of a part, moved on.
fn with_moved(
    part: &Part<'_>,
    first: usize,
    count: u32,
    before: u32,
    bytes: Vec<u8>,
) -> Result<Vec<u8>, LinkFault>
    requires small { (first ≤ most_slots) × (slots_in part.now ≤ most_slots) }
    requires few { count + before < 4294967296 }
    ensures ok { IfOk result (λ new. new.items ≡ bytes.items ++ all_moved part.now first count before) }
    ensures err { IfErr result (λ fault. fault ≡ Memory) }
{
    let mut all = bytes;
    for i in 0..part.relocations.len() {
        let relocation = part.relocations.at(i);
        match with_one(part, first, count, before, &relocation, all) {
            Ok(new) => all = new,
            Err(fault) => return Err(fault),
        }
    }
    Ok(all)
}

/// Bytes with the relocations of a joined object's code.
pub fn with_relocations(
    first: &Plan<'_>,
    second: &Plan<'_>,
    bytes: Vec<u8>,
) -> Result<Vec<u8>, LinkFault>
    requires few { length first.now.symbols + length second.now.symbols < 4294967296 }
    requires short { own_slots_of first.now + slots_in second.now.parts.code ≤ most_slots }
    ensures ok { IfOk result (λ new. new.items ≡ bytes.items ++ joined_relocations first.now second.now) }
    ensures err { IfErr result (λ fault. fault ≡ Memory) }
{
    let own = first.symbols.len() as u32;
    let more = second.symbols.len() as u32;
    first.parts.invariant();
    second.parts.invariant();
    let code = match with_moved(first.parts.part(Side::Code), 0, own, 0, bytes) {
        Ok(code) => code,
        Err(fault) => return Err(fault),
    };
    let behind = first.parts.first(Side::Text);
    let text = match with_moved(first.parts.part(Side::Text), behind, own, 0, code) {
        Ok(text) => text,
        Err(fault) => return Err(fault),
    };
    with_moved(
        second.parts.part(Side::Code),
        own_slots(first),
        more,
        own,
        text,
    )
}
