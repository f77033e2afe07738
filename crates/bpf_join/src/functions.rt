//! The functions of an object that answer calls of helpers.
ghost use Rattle.std.specs.Prelude.{◌≡◌, ◌≤◌, ◌<◌, IfErr, IfOk, IfSome, None, Some, get_or, if◌then◌else◌, length};
ghost use Rattle.bpf_join.specs.Functions.{answering, answers, callee, callees, names_helper, slot_of};
ghost use Rattle.bpf_join.specs.Known.{AreKnown};
ghost use Rattle.bpf_link.specs.declared.fault.LinkFault.TheVariants.{Memory};
ghost use Rattle.bpf_link.specs.declared.plan.Plan.{Plan};

use bpf_link::{
    LinkFault, Plan, Side, SymbolEntry, has_prefix, helper_name, is_program, name_at, symbol_place,
};
use std::alloc::Global;

/// How many helpers have a number in the kernel's list, from 0 on, which is none.
pub const HELPERS: usize = 212;

/// Whether the name of a function that answers a helper stands at a place.
fn names_helper(bytes: &[u8], at: usize, helper: &[u8]) -> bool
    requires { at ≤ length bytes.now }
    ensures { result ≡ names_helper bytes.now at helper.now }
{
    if helper.is_empty() {
        return false;
    }
    if !has_prefix(bytes, at) {
        return false;
    }
    name_at(bytes, at + 4, helper)
}

/// Whether a symbol is a function that answers a helper.
fn answers(functions: &Plan<'_>, helper: &[u8], symbol: &SymbolEntry) -> bool
    ensures { result ≡ answers functions.now helper.now symbol.now }
{
    is_program(functions.parts.part(Side::Code).section, symbol)
        && names_helper(
            functions.object.bytes(),
            symbol_place(functions, symbol),
            helper,
        )
}

/// What was found last, where a test holds or doesn't.
pub fn latest(found: Option<usize>, holds: bool, i: usize) -> Option<usize>
    ensures { result ≡ (if holds then Some i else found) }
{
    if holds { Some(i) } else { found }
}

/// The symbol of the function that answers a helper.
fn answering(functions: &Plan<'_>, helper: &[u8]) -> Option<usize>
    ensures value { result ≡ answering functions.now helper.now }
    ensures below { IfSome result (λ i. i < length functions.now.symbols) }
{
    let mut found = None;
    for i in 0..functions.symbols.len() {
        let symbol = functions.symbols.at(i);
        found = latest(found, answers(functions, helper, &symbol), i);
    }
    found
}

/// The slot at which a symbol's function begins.
fn slot_of(functions: &Plan<'_>, symbol: Option<usize>) -> Option<u16>
    requires { IfSome symbol (λ i. i < length functions.now.symbols) }
    ensures { result ≡ slot_of functions.now symbol }
{
    let Some(i) = symbol else {
        return None;
    };
    let value = functions.symbols.at(i).value;
    if value % 8 != 0 {
        return None;
    }
    if value / 8 >= functions.parts.part(Side::Code).len() as u64 {
        return None;
    }
    Some((value / 8) as u16)
}

/// The slot at which the function begins that answers a helper.
pub fn callee(functions: &Plan<'_>, number: u32) -> Option<u16>
    ensures { result ≡ callee functions.now number }
{
    let symbol = answering(functions, helper_name(number));
    slot_of(functions, symbol)
}

/// What is known of the functions that answer helpers, and the one that answers the last helper that
/// was asked for.
#[derive(Drop)]
pub struct Asked {
    /// By the number of each helper the slot at which its function begins, if one does; none of a
    /// helper that wasn't asked for.
    pub known: Vec<Option<Option<u16>>>,
    pub to: Option<u16>,
}

/// No helper was asked for.
pub fn none_known(alloc: Global) -> Result<Vec<Option<Option<u16>>>, LinkFault>
    ensures ok { IfOk result (λ known. (functions : Plan) → AreKnown functions known.items) }
    ensures err { IfErr result (λ fault. fault ≡ Memory) }
{
    match vec![in alloc; None; HELPERS] {
        Ok(known) => Ok(known),
        Err(_) => Err(LinkFault::Memory),
    }
}

/// The slot at which the function begins that answers a helper, which is looked for once.
pub fn answer_to(functions: &Plan<'_>, mut known: Vec<Option<Option<u16>>>, number: u32) -> Asked
    requires { AreKnown functions.now known.items }
    ensures known { AreKnown functions.now result.known.items }
    ensures to { result.to ≡ get_or (callees functions.now) number None }
{
    if number as usize >= known.len() {
        return Asked { known, to: None };
    }
    match known[number as usize] {
        Some(to) => Asked { known, to },
        None => {
            let to = callee(functions, number);
            known[number as usize] = Some(to);
            Asked { known, to }
        }
    }
}
