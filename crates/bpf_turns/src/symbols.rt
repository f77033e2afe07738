//! The symbols of a turned object.
ghost use Rattle.std.specs.Prelude.{◌≡◌, ◌++◌, IfErr, IfOk, length};
ghost use Rattle.bpf_link.specs.declared.fault.LinkFault.TheVariants.{Memory};
ghost use Rattle.bpf_turns.specs.Objects.{on_by, table_of, turned_spot, turned_symbol, turned_symbols};

use crate::calls::Call;
use crate::code::{call_index, into};
use crate::parts::{Spot, symbol_bytes};
use crate::seats::slots_of;
use crate::source::Source;
use bpf_join::raw_at;
use bpf_link::{LinkFault, SymbolEntry, symbol_entry};

/// A place in a section that begins at a slot.
pub fn on_by(start: u32, value: u64) -> u64
    ensures { result ≡ on_by start value }
{
    value.saturating_add(8 * u64::from(start))
}

/// Where a symbol lies.
fn turned_spot(calls: &[Call], symbol: &SymbolEntry) -> Spot
    ensures { result ≡ turned_spot calls.now symbol.now }
{
    match call_index(calls, usize::from(symbol.section)) {
        Some(k) => Spot {
            section: into(calls),
            value: on_by(calls[k].start, symbol.value),
            info: symbol.kind % 16,
        },
        None => Spot {
            section: symbol.section,
            value: symbol.value,
            info: symbol.binding % 16 * 16 + symbol.kind % 16,
        },
    }
}

/// Bytes, and behind them a symbol.
fn with_symbol(calls: &[Call], raw: &[u8], mut bytes: Vec<u8>) -> Result<Vec<u8>, LinkFault>
    requires { length raw.now ≡ 24 }
    ensures ok { IfOk result (λ new. new.items ≡ bytes.items ++ turned_symbol calls.now raw.now) }
    ensures err { IfErr result (λ fault. fault ≡ Memory) }
{
    let spot = turned_spot(calls, &symbol_entry(raw, 0));
    match bytes.extend_from_slice(&symbol_bytes(raw, &spot)) {
        Ok(()) => Ok(bytes),
        Err(_) => Err(LinkFault::Memory),
    }
}

/// Bytes, and behind them all symbols of a table.
pub fn with_symbols(calls: &[Call], table: &[u8], bytes: Vec<u8>) -> Result<Vec<u8>, LinkFault>
    ensures ok { IfOk result (λ new. new.items ≡ bytes.items ++ turned_symbols calls.now table.now) }
    ensures err { IfErr result (λ fault. fault ≡ Memory) }
{
    let mut all = bytes;
    for i in 0..table.len() / 24 {
        match with_symbol(calls, raw_at(table, i), all) {
            Ok(new) => all = new,
            Err(fault) => return Err(fault),
        }
    }
    Ok(all)
}

/// The symbols of an object.
pub fn table_of<'a>(source: &Source<'a>) -> &'a [u8]
    ensures { result.now ≡ table_of source.now }
{
    slots_of(&source.plan.object, source.table)
}
