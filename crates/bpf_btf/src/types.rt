//! Where the types of a section stand.
ghost use Rattle.std.specs.Prelude.{◌≡◌, ◌≤◌, ◌<◌, ◌+◌, ◌⊎◌, IfOk, IfErr, length, true};
ghost use Rattle.bpf_btf.specs.Layout.{type_entry};
ghost use Rattle.bpf_btf.specs.Types.{rest_size, is_known, behind, is_whole, place, AreTypes, HasBadType, IsBroken};
ghost use Rattle.bpf_btf.specs.declared.fault.BtfFault.TheVariants.{Memory, UnknownType, CutType};

use crate::fault::BtfFault;
use crate::layout::{TypeEntry, type_entry};
use std::alloc::Global;

/// How many bytes a type has behind its first 12.
fn rest_size(entry: &TypeEntry) -> usize
    requires { entry.now.count < 65536 }
    ensures value { result ≡ rest_size entry.now }
    ensures small { result < 786432 }
{
    let count = entry.count as usize;
    match entry.kind {
        1 | 14 | 17 => 4,
        3 => 12,
        6 | 13 => 8 * count,
        4 | 5 | 15 | 19 => 12 * count,
        _ => 0,
    }
}

/// Whether a type is of a known kind.
fn is_known(entry: &TypeEntry) -> bool
    ensures { result ≡ is_known entry.now }
{
    0 < entry.kind && entry.kind <= 19
}

/// Where the type behind the one at a place stands, if that one is whole.
fn next_place(types: &[u8], at: usize) -> Result<usize, BtfFault>
    requires { at ≤ 4294967295 }
    ensures ok { IfOk result (λ next. (is_whole types.now at ≡ true) × (next ≡ behind types.now at)) }
    ensures within { IfOk result (λ next. (at + 12 ≤ next) × (next ≤ length types.now)) }
    ensures err { IfErr result (IsBroken types.now at) }
{
    let entry = type_entry(types, at);
    if !is_known(&entry) {
        return Err(BtfFault::UnknownType);
    }
    let next = at + (12 + rest_size(&entry));
    if next > types.len() {
        return Err(BtfFault::CutType);
    }
    Ok(next)
}

/// Where the types stand.
pub fn starts_of(alloc: Global, types: &[u8]) -> Result<Vec<u32>, BtfFault>
    requires { length types.now ≤ 4294967295 }
    ensures ok { IfOk result (λ starts. AreTypes types.now starts.items) }
    ensures err { IfErr result (λ fault. (fault ≡ Memory) ⊎ HasBadType types.now fault) }
{
    let mut starts = Vec::new(alloc);
    let mut at = 0;
    while at < types.len() {
        let next = match next_place(types, at) {
            Ok(next) => next,
            Err(fault) => return Err(fault),
        };
        if starts.push(at as u32).is_err() {
            return Err(BtfFault::Memory);
        }
        at = next;
    }
    Ok(starts)
}
