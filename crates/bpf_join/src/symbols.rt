//! The symbols of a joined object.
ghost use Rattle.std.specs.Prelude.{◌≡◌, ◌≤◌, ◌<◌, ◌+◌, ◌*◌, ◌++◌, IfErr, IfOk, length};
ghost use Rattle.bpf_join.specs.Symbols.{another_symbol, more_symbols, own_symbol, own_symbols, placed, raw_at, table_of};
ghost use Rattle.bpf_link.specs.declared.fault.LinkFault.TheVariants.{Memory};

use crate::spots::{Spot, comes, own_spot};
use bpf_link::{Found, LinkFault, Plan, section_bytes, symbol_entry};
use byteorder::{ByteOrder, LittleEndian};

/// The bytes of an object's symbols.
pub fn table_of<'a>(plan: &Plan<'a>) -> &'a [u8]
    ensures { result.now ≡ table_of plan.now }
{
    match plan.table {
        Found::Only(i) => {
            if i >= plan.object.len() {
                return &[];
            }
            section_bytes(&plan.object, &plan.object.section(i))
        }
        Found::Nothing => &[],
        Found::Several => &[],
    }
}

/// The bytes of one of them.
pub fn raw_at(table: &[u8], i: usize) -> &[u8]
    requires { 24 * i + 24 ≤ length table.now }
    ensures value { result.now ≡ raw_at table.now i }
    ensures size { length result.now ≡ 24 }
{
    &table[24 * i..24 * i + 24]
}

/// The bytes of a symbol, moved to a spot.
fn placed(raw: &[u8], more: usize, spot: &Spot) -> [u8; 24]
    requires size { length raw.now ≡ 24 }
    ensures { result ≡ placed raw.now more spot.now }
{
    let mut bytes = [0; 24];
    bytes.copy_from_slice(raw);
    let name = u64::from(symbol_entry(raw, 0).name) + (more as u64).min(4_294_967_295);
    LittleEndian::write_u32(&mut bytes[0..4], name.min(4_294_967_295) as u32);
    bytes[4] = spot.info;
    LittleEndian::write_u16(&mut bytes[6..8], (spot.section % 65536) as u16);
    LittleEndian::write_u64(&mut bytes[8..16], spot.value);
    bytes
}

/// Bytes with a symbol, moved to a spot.
fn with_placed(
    raw: &[u8],
    more: usize,
    spot: &Spot,
    mut bytes: Vec<u8>,
) -> Result<Vec<u8>, LinkFault>
    requires { length raw.now ≡ 24 }
    ensures ok { IfOk result (λ new. new.items ≡ bytes.items ++ placed raw.now more spot.now) }
    ensures err { IfErr result (λ fault. fault ≡ Memory) }
{
    match bytes.extend_from_slice(&placed(raw, more, spot)) {
        Ok(()) => Ok(bytes),
        Err(_) => Err(LinkFault::Memory),
    }
}

/// Bytes with a symbol of the first object.
fn with_own(
    first: &Plan<'_>,
    second: &Plan<'_>,
    places: &[u64],
    records: usize,
    more: usize,
    raw: &[u8],
    bytes: Vec<u8>,
) -> Result<Vec<u8>, LinkFault>
    requires few { (length first.now.object.sections ≤ 65535) × (length places.now ≤ 1024) }
    requires size { length raw.now ≡ 24 }
    ensures ok { IfOk result (λ new. new.items
        ≡ bytes.items ++ own_symbol first.now second.now places.now records more raw.now) }
    ensures err { IfErr result (λ fault. fault ≡ Memory) }
{
    let spot = own_spot(first, second, places, records, &symbol_entry(raw, 0));
    with_placed(raw, more, &spot, bytes)
}

/// Bytes with the symbols of the first object, whose names stand so much further on: the maps at
/// these places have records in a section.
pub fn with_own_symbols(
    first: &Plan<'_>,
    second: &Plan<'_>,
    places: &[u64],
    records: usize,
    more: usize,
    bytes: Vec<u8>,
) -> Result<Vec<u8>, LinkFault>
    requires few { length first.now.object.sections ≤ 65535 }
    requires short { length places.now ≤ 1024 }
    ensures ok { IfOk result (λ new. new.items
        ≡ bytes.items ++ own_symbols first.now second.now places.now records more) }
    ensures err { IfErr result (λ fault. fault ≡ Memory) }
{
    let table = table_of(first);
    let mut all = bytes;
    for i in 0..table.len() / 24 {
        match with_own(first, second, places, records, more, raw_at(table, i), all) {
            Ok(new) => all = new,
            Err(fault) => return Err(fault),
        }
    }
    Ok(all)
}

/// Bytes with a symbol of the second object.
fn with_another(
    first: &Plan<'_>,
    second: &Plan<'_>,
    more: usize,
    raw: &[u8],
    bytes: Vec<u8>,
) -> Result<Vec<u8>, LinkFault>
    requires few { length first.now.object.sections ≤ 65535 }
    requires size { length raw.now ≡ 24 }
    ensures ok { IfOk result (λ new. new.items
        ≡ bytes.items ++ another_symbol first.now second.now more raw.now) }
    ensures err { IfErr result (λ fault. fault ≡ Memory) }
{
    let spot = comes(first, second, &symbol_entry(raw, 0));
    with_placed(raw, more, &spot, bytes)
}

/// Bytes with the symbols of the second object, whose names stand so much further on.
pub fn with_more_symbols(
    first: &Plan<'_>,
    second: &Plan<'_>,
    more: usize,
    bytes: Vec<u8>,
) -> Result<Vec<u8>, LinkFault>
    requires { length first.now.object.sections ≤ 65535 }
    ensures ok { IfOk result (λ new. new.items
        ≡ bytes.items ++ more_symbols first.now second.now more) }
    ensures err { IfErr result (λ fault. fault ≡ Memory) }
{
    let table = table_of(second);
    let mut all = bytes;
    for i in 0..table.len() / 24 {
        match with_another(first, second, more, raw_at(table, i), all) {
            Ok(new) => all = new,
            Err(fault) => return Err(fault),
        }
    }
    Ok(all)
}
