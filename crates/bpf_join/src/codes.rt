//! The code of a joined object.
ghost use Rattle.std.specs.Prelude.{◌≡◌, ◌≤◌, ◌<◌, ◌+◌, ◌*◌, ◌++◌, IfErr, IfOk, length};
ghost use Rattle.bpf_isa.specs.Checker.{most_slots};
ghost use Rattle.bpf_join.specs.Codes.{called_below, called_in, joined_code, own_slots, with_call};
ghost use Rattle.bpf_join.specs.Functions.{callees};
ghost use Rattle.bpf_join.specs.Known.{AreKnown};
ghost use Rattle.bpf_link.specs.declared.fault.LinkFault.TheVariants.{Memory};

use crate::functions::{Asked, answer_to, none_known};
use bpf_link::{LinkFault, Plan, Side, calls_helper, u32_at, unlinked};
use byteorder::{ByteOrder, LittleEndian};
use std::alloc::Global;

/// How many slots the first object's code has.
pub fn own_slots(first: &Plan<'_>) -> usize
    ensures value { result ≡ own_slots first.now }
    ensures small { result ≤ most_slots }
{
    first.parts.len()
}

/// The function that a slot calls, where of some helpers the functions are known.
fn called_in(functions: &Plan<'_>, known: Vec<Option<Option<u16>>>, slots: &[u8], p: usize) -> Asked
    requires known { AreKnown functions.now known.items }
    requires inside { 8 * p + 8 ≤ length slots.now }
    ensures known { AreKnown functions.now result.known.items }
    ensures to { result.to ≡ called_in (callees functions.now) slots.now p }
{
    if !calls_helper(slots, p) {
        return Asked { known, to: None };
    }
    answer_to(functions, known, u32_at(slots, 8 * p + 4))
}

/// Code with a call in a slot, where there is a function.
fn with_call(own: usize, mut slots: Vec<u8>, p: usize, to: Option<u16>) -> Vec<u8>
    requires inside { (p < own) × (own ≤ most_slots) }
    requires room { 8 * p + 8 ≤ length slots.items }
    ensures value { result.items ≡ with_call own slots.items p to }
    ensures length { length result.items ≡ length slots.items }
{
    match to {
        None => slots,
        Some(to) => {
            slots[8 * p + 1] = 0x10;
            let distance = (own + usize::from(to) - (p + 1)) as u32;
            LittleEndian::write_u32(&mut slots[8 * p + 4..8 * p + 8], distance);
            slots
        }
    }
}

/// The first object's code with its calls.
fn called(
    alloc: Global,
    functions: &Plan<'_>,
    own: usize,
    slots: Vec<u8>,
) -> Result<Vec<u8>, LinkFault>
    requires small { own ≤ most_slots }
    requires size { 8 * own ≤ length slots.items }
    ensures ok { IfOk result (λ code. code.items ≡ called_below (callees functions.now) own slots.items own) }
    ensures err { IfErr result (λ fault. fault ≡ Memory) }
{
    let mut known = match none_known(alloc) {
        Ok(known) => known,
        Err(fault) => return Err(fault),
    };
    let mut all = slots;
    for p in 0..own {
        let asked = called_in(functions, known, &all, p);
        known = asked.known;
        all = with_call(own, all, p, asked.to);
    }
    Ok(all)
}

/// Code, and the functions behind it.
fn with_functions(code: Vec<u8>, second: &Plan<'_>) -> Result<Vec<u8>, LinkFault>
    ensures ok { IfOk result (λ all. all.items ≡ code.items ++ second.now.parts.code.slots) }
    ensures err { IfErr result (λ fault. fault ≡ Memory) }
{
    let mut all = code;
    match all.extend_from_slice(second.parts.part(Side::Code).slots.bytes) {
        Ok(()) => Ok(all),
        Err(_) => Err(LinkFault::Memory),
    }
}

/// The code of a joined object: the first one's, with its calls, and the functions behind.
pub fn joined_code(alloc: Global, first: &Plan<'_>, second: &Plan<'_>) -> Result<Vec<u8>, LinkFault>
    ensures ok { IfOk result (λ code. code.items ≡ joined_code first.now second.now) }
    ensures err { IfErr result (λ fault. fault ≡ Memory) }
{
    let slots = match unlinked(alloc, &first.parts) {
        Ok(slots) => slots,
        Err(fault) => return Err(fault),
    };
    first.parts.invariant();
    let code = match called(alloc, second, own_slots(first), slots) {
        Ok(code) => code,
        Err(fault) => return Err(fault),
    };
    match with_functions(code, second) {
        Ok(all) => Ok(all),
        Err(fault) => Err(fault),
    }
}
