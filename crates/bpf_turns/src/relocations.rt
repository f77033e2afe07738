//! The relocations of a turned object's code.
ghost use Rattle.std.specs.Prelude.{◌≡◌, ◌<◌, ◌++◌, IfErr, IfOk, length};
ghost use Rattle.bpf_link.specs.declared.fault.LinkFault.TheVariants.{Memory};
ghost use Rattle.bpf_turns.specs.Objects.{call_index, relocates, relocations_at, relocations_by, relocations_for, turned_place, turned_relocation, turned_relocations};

use crate::calls::Call;
use crate::code::call_index;
use crate::seats::slots_of;
use crate::source::Source;
use crate::symbols::on_by;
use bpf_join::relocation_bytes;
use bpf_link::{
    LinkFault, Object, RelocationEntry, Relocations, SectionHeader, section_bytes, with,
};

/// Where a place in the section of a call is now; one that lies outside of it has none.
pub fn turned_place(object: &Object<'_>, call: &Call, offset: u64) -> u64
    ensures { result ≡ turned_place object.now call.now offset }
{
    if offset < slots_of(object, usize::from(call.section)).len() as u64 {
        return on_by(call.start, offset);
    }
    u64::MAX
}

/// Bytes, and behind them a relocation.
fn with_relocation(
    object: &Object<'_>,
    call: &Call,
    it: &RelocationEntry,
    mut bytes: Vec<u8>,
) -> Result<Vec<u8>, LinkFault>
    ensures ok { IfOk result (λ new. new.items
        ≡ bytes.items ++ turned_relocation object.now call.now it.now) }
    ensures err { IfErr result (λ fault. fault ≡ Memory) }
{
    let place = turned_place(object, call, it.offset);
    match bytes.extend_from_slice(&relocation_bytes(place, it.kind, it.symbol)) {
        Ok(()) => Ok(bytes),
        Err(_) => Err(LinkFault::Memory),
    }
}

/// Bytes, and behind them the relocations of the section of a call.
fn with_entries(
    object: &Object<'_>,
    call: &Call,
    entries: &Relocations<'_>,
    bytes: Vec<u8>,
) -> Result<Vec<u8>, LinkFault>
    ensures ok { IfOk result (λ new. new.items
        ≡ bytes.items ++ relocations_by object.now call.now entries.now) }
    ensures err { IfErr result (λ fault. fault ≡ Memory) }
{
    let mut all = bytes;
    for j in 0..entries.len() {
        match with_relocation(object, call, &entries.at(j), all) {
            Ok(new) => all = new,
            Err(fault) => return Err(fault),
        }
    }
    Ok(all)
}

/// Whether a section has relocations against the symbols.
pub fn relocates(source: &Source<'_>, it: &SectionHeader) -> bool
    ensures { result ≡ relocates source.now it.now }
{
    it.kind == 9 && it.link as usize == source.table
}

/// Bytes, and behind them the relocations of a section of them, if it is of a call's section.
fn with_listed(
    object: &Object<'_>,
    calls: &[Call],
    it: &SectionHeader,
    bytes: Vec<u8>,
) -> Result<Vec<u8>, LinkFault>
    ensures ok { IfOk result (λ new. new.items
        ≡ bytes.items ++ relocations_for object.now calls.now it.now (call_index calls.now it.now.info)) }
    ensures err { IfErr result (λ fault. fault ≡ Memory) }
{
    match call_index(calls, it.info as usize) {
        None => with(bytes, &[]),
        Some(k) => {
            let entries = Relocations {
                bytes: section_bytes(object, it),
            };
            with_entries(object, &calls[k], &entries, bytes)
        }
    }
}

/// Bytes, and behind them the relocations in a section, if it has some that count.
fn with_section(
    source: &Source<'_>,
    calls: &[Call],
    i: usize,
    bytes: Vec<u8>,
) -> Result<Vec<u8>, LinkFault>
    requires { i < length source.now.plan.object.sections }
    ensures ok { IfOk result (λ new. new.items ≡ bytes.items ++ relocations_at source.now calls.now i) }
    ensures err { IfErr result (λ fault. fault ≡ Memory) }
{
    let it = source.plan.object.section(i);
    if !relocates(source, &it) {
        return with(bytes, &[]);
    }
    with_listed(&source.plan.object, calls, &it, bytes)
}

/// Bytes, and behind them all relocations.
pub fn with_relocations(
    source: &Source<'_>,
    calls: &[Call],
    bytes: Vec<u8>,
) -> Result<Vec<u8>, LinkFault>
    ensures ok { IfOk result (λ new. new.items ≡ bytes.items ++ turned_relocations source.now calls.now) }
    ensures err { IfErr result (λ fault. fault ≡ Memory) }
{
    let mut all = bytes;
    for i in 0..source.plan.object.len() {
        match with_section(source, calls, i, all) {
            Ok(new) => all = new,
            Err(fault) => return Err(fault),
        }
    }
    Ok(all)
}
