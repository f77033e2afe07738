//! The file of a turned object.
ghost use Rattle.std.specs.Prelude.{◌≡◌, ◌≤◌, ◌⊎◌, Err, IfErr, IfOk, IsTrue, List, Ok, OnOk, length, ℕ};
ghost use Rattle.bpf_isa.specs.Checker.{most_slots};
ghost use Rattle.bpf_link.specs.declared.fault.LinkFault.TheVariants.{Memory};
ghost use Rattle.bpf_turns.specs.Calls.{calls_of as calls_for};
ghost use Rattle.bpf_turns.specs.Ext.{HasMovedExt, IsUnmoved};
ghost use Rattle.bpf_turns.specs.Objects.{tabled, turned_bytes, with_turned_code};
ghost use Rattle.bpf_turns.specs.Parts.{AreCalls, AreParts, HasRoom, IsBody};
ghost use Rattle.bpf_turns.specs.Turned.{fits, fitted};

use crate::calls::{Call, calls_of, slots_before};
use crate::code::turned_code;
use crate::ext::moved_ext;
use crate::headers::{Lies, with_headers};
use crate::relocations::with_relocations;
use crate::seats::Seat;
use crate::source::Source;
use crate::symbols::{table_of, with_symbols};
use bpf_isa::MOST_SLOTS;
use bpf_join::with_u16;
use bpf_link::{LinkFault, with, with_u64};
use std::alloc::Global;

/// The parts of the new file without its table of sections.
#[derive(Drop)]
pub struct Parts {
    pub bytes: Vec<u8>,
    pub at: Lies,
}

/// The object's file, and behind it the code.
fn with_code(
    alloc: Global,
    source: &Source<'_>,
    seats: &[Seat],
    calls: &[Call],
) -> Result<Vec<u8>, LinkFault>
    requires calls { AreCalls source.now.plan.object seats.now calls.now }
    ensures ok { IfOk result (λ coded. coded.items ≡ with_turned_code source.now seats.now) }
    ensures err { IfErr result (λ fault. fault ≡ Memory) }
{
    let own = match Vec::from_slice(alloc, source.plan.object.bytes()) {
        Ok(own) => own,
        Err(_) => return Err(LinkFault::Memory),
    };
    match turned_code(alloc, &source.plan.object, seats, calls) {
        Ok(words) => with(own, words.as_slice()),
        Err(fault) => Err(fault),
    }
}

/// The new file without its table of sections.
fn put_parts(
    alloc: Global,
    source: &Source<'_>,
    seats: &[Seat],
    calls: &[Call],
    ext: &[u8],
) -> Result<Parts, LinkFault>
    requires calls { AreCalls source.now.plan.object seats.now calls.now }
    ensures ok { IfOk result (AreParts source.now seats.now ext.now) }
    ensures err { IfErr result (λ fault. fault ≡ Memory) }
{
    let coded = match with_code(alloc, source, seats, calls) {
        Ok(coded) => coded,
        Err(fault) => return Err(fault),
    };
    let symbols = coded.len();
    let marked = match with_symbols(calls, table_of(source), coded) {
        Ok(marked) => marked,
        Err(fault) => return Err(fault),
    };
    let relocations = marked.len();
    let related = match with_relocations(source, calls, marked) {
        Ok(related) => related,
        Err(fault) => return Err(fault),
    };
    let told = related.len();
    let bytes = match with(related, ext) {
        Ok(bytes) => bytes,
        Err(fault) => return Err(fault),
    };
    let at = Lies {
        code: source.plan.object.bytes().len(),
        symbols,
        relocations,
        ext: told,
        end: bytes.len(),
    };
    Ok(Parts { bytes, at })
}

/// The new file of these calls.
fn with_table(source: &Source<'_>, calls: &[Call], parts: Parts) -> Result<Vec<u8>, LinkFault>
    requires room { HasRoom source.now }
    requires body { IsBody parts }
    ensures ok { IfOk result (λ all. all.items ≡ tabled source.now calls.now parts.bytes.items parts.at) }
    ensures err { IfErr result (λ fault. fault ≡ Memory) }
{
    let at = parts.at;
    let count = source.plan.object.len() + 1;
    match with_headers(source, calls, &at, parts.bytes) {
        Ok(all) => Ok(with_u16(with_u64(all, 40, at.end as u64), 60, count as u16)),
        Err(fault) => Err(fault),
    }
}

/// The new file, with what `.BTF.ext` tells of it.
fn turned_bytes(
    alloc: Global,
    source: &Source<'_>,
    seats: &[Seat],
    calls: &[Call],
    ext: &[u8],
) -> Result<Vec<u8>, LinkFault>
    requires calls { AreCalls source.now.plan.object seats.now calls.now }
    requires room { HasRoom source.now }
    ensures ok { IfOk result (λ bytes. bytes.items ≡ turned_bytes source.now seats.now ext.now) }
    ensures err { IfErr result (λ fault. fault ≡ Memory) }
{
    let parts = match put_parts(alloc, source, seats, calls, ext) {
        Ok(parts) => parts,
        Err(fault) => return Err(fault),
    };
    match with_table(source, calls, parts) {
        Ok(all) => Ok(all),
        Err(fault) => Err(fault),
    }
}

/// The new file of programs.
pub fn turned_file(alloc: Global, source: &Source<'_>, seats: &[Seat]) -> Result<Vec<u8>, LinkFault>
    requires few { length seats.now ≤ most_slots }
    requires room { HasRoom source.now }
    ensures ok { IfOk result (λ all. (ext : List ℕ)
        × HasMovedExt source.now.plan (calls_for source.now.plan.object seats.now) ext
        × (all.items ≡ turned_bytes source.now seats.now ext)) }
    ensures err { IfErr result (λ fault. (fault ≡ Memory)
        ⊎ IsUnmoved source.now.plan (calls_for source.now.plan.object seats.now) fault) }
{
    let calls = match calls_of(alloc, &source.plan.object, seats) {
        Ok(calls) => calls,
        Err(fault) => return Err(fault),
    };
    let ext = match moved_ext(alloc, &source.plan, calls.as_slice()) {
        Ok(ext) => ext,
        Err(fault) => return Err(fault),
    };
    match turned_bytes(alloc, source, seats, calls.as_slice(), ext.as_slice()) {
        Ok(all) => Ok(all),
        Err(fault) => Err(fault),
    }
}

/// Whether the code isn't longer than a program may be.
fn fits(source: &Source<'_>, seats: &[Seat]) -> bool
    ensures value { result ≡ fits source.now seats.now }
    ensures few { IsTrue result → length seats.now ≤ most_slots }
{
    if seats.len() > MOST_SLOTS {
        return false;
    }
    let behind = slots_before(&source.plan.object, seats, source.plan.object.len());
    5 * seats.len() + 3 + behind as usize <= MOST_SLOTS
}

/// Refuses where there are no programs, or no room for them.
pub fn fitted(source: &Source<'_>, seats: &[Seat]) -> Result<(), LinkFault>
    ensures ok { OnOk result (fitted source.now seats.now ≡ Ok seats.now) }
    ensures few { OnOk result (length seats.now ≤ most_slots) }
    ensures err { IfErr result (λ fault. fitted source.now seats.now ≡ Err fault) }
{
    if seats.is_empty() {
        return Err(LinkFault::NoEntry);
    }
    if !fits(source, seats) {
        return Err(LinkFault::TooLong);
    }
    Ok(())
}
