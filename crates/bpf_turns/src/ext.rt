//! What `.BTF.ext` tells of the instructions of a turned object.
ghost use Rattle.std.specs.Prelude.{◌≡◌, ◌≤◌, ◌<◌, ◌+◌, ◌^◌, ◌++◌, Err, IfErr, IfOk, Ok, Some, length};
ghost use Rattle.bpf_btf.specs.CoreRelocations.{begins};
ghost use Rattle.bpf_btf.specs.Layout.{ext_header};
ghost use Rattle.bpf_btf.specs.declared.fault.BtfFault.TheVariants.{Ext};
ghost use Rattle.bpf_link.specs.FieldRelocations.{ext_bytes};
ghost use Rattle.bpf_link.specs.declared.fault.LinkFault.TheVariants.{Memory, Types};
ghost use Rattle.bpf_turns.specs.Ext.{HasMovedExt, IsListsFault, IsMovedExt, IsMovedPart, IsPartFault, IsUnmoved, ext_of, head_of, list_in, numbers, place_of, strings_in};
ghost use Rattle.bpf_turns.specs.Objects.{into};

use crate::blocks::moved_list;
use crate::calls::Call;
use crate::code::into;
use crate::names::{code_name, name_place};
use crate::parts::with_number;
use bpf_btf::BtfFault;
use bpf_link::{
    LinkFault, Plan, found_named, is_something, types_bytes, types_in, u16_at, u32_at, with,
};
use std::alloc::Global;

/// The strings of a section `.BTF`.
fn strings_in(btf: &[u8]) -> &[u8]
    ensures { result.now ≡ strings_in btf.now }
{
    if btf.len() < 24 {
        return &[];
    }
    let at = u32_at(btf, 4) as usize + u32_at(btf, 16) as usize;
    let end = at + u32_at(btf, 20) as usize;
    if end > btf.len() {
        return &[];
    }
    &btf[at..end]
}

/// Where the name of a section of code stands among the strings.
fn place_of(plan: &Plan<'_>, section: usize) -> Option<usize>
    ensures { result ≡ place_of plan.now section }
{
    let strings = strings_in(types_in(&plan.object));
    name_place(strings, code_name(&plan.object, section))
}

/// Whether a section begins as `.BTF.ext` does.
fn begins(ext: &[u8]) -> bool
    ensures value { result ≡ begins ext.now (ext_header ext.now) }
{
    if ext.len() < 24 {
        return false;
    }
    u16_at(ext, 0) == 0xeb9f && (ext[2] == 1 && u32_at(ext, 4) >= 24)
}

/// A list: of functions, 0, of lines, 1, or of fields, 2.
fn list_in(ext: &[u8], k: usize) -> Result<&[u8], LinkFault>
    requires { k < 3 }
    ensures ok { IfOk result (λ listed. list_in ext.now k ≡ Ok listed.now) }
    ensures err { IfErr result (λ fault. (fault ≡ Types Ext) × (list_in ext.now k ≡ Err (Types Ext))) }
{
    if !begins(ext) {
        return Err(LinkFault::Types(BtfFault::Ext));
    }
    let head = u32_at(ext, 4) as usize;
    if head < 16 + 8 * k {
        return Ok(&[]);
    }
    if ext.len() < 16 + 8 * k {
        return Err(LinkFault::Types(BtfFault::Ext));
    }
    let at = head + u32_at(ext, 8 + 8 * k) as usize;
    let end = at + u32_at(ext, 12 + 8 * k) as usize;
    if end > ext.len() {
        return Err(LinkFault::Types(BtfFault::Ext));
    }
    Ok(&ext[at..end])
}

/// A list, moved.
fn moved_part(
    alloc: Global,
    plan: &Plan<'_>,
    calls: &[Call],
    name: usize,
    ext: &[u8],
    k: usize,
) -> Result<Vec<u8>, LinkFault>
    requires ext { ext.now ≡ ext_bytes plan.now }
    requires k { k < 3 }
    ensures ok { IfOk result (λ moved. IsMovedPart plan.now calls.now name k moved.items) }
    ensures err { IfErr result (IsPartFault (ext_bytes plan.now) k) }
{
    let listed = match list_in(ext, k) {
        Ok(listed) => listed,
        Err(fault) => return Err(fault),
    };
    let strings = strings_in(types_in(&plan.object));
    match moved_list(alloc, &plan.object, strings, calls, name, listed) {
        Ok(moved) => Ok(moved),
        Err(fault) => Err(fault),
    }
}

/// Bytes, and behind them some numbers.
fn with_numbers(bytes: Vec<u8>, list: &[usize]) -> Result<Vec<u8>, LinkFault>
    ensures ok { IfOk result (λ new. new.items ≡ bytes.items ++ numbers list.now) }
    ensures err { IfErr result (λ fault. fault ≡ Memory) }
{
    let mut all = bytes;
    for i in 0..list.len() {
        match with_number(all, list[i] as u64) {
            Ok(new) => all = new,
            Err(fault) => return Err(fault),
        }
    }
    Ok(all)
}

/// The header over lists of so many bytes.
fn head_of(
    alloc: Global,
    ext: &[u8],
    functions: usize,
    lines: usize,
    fields: usize,
) -> Result<Vec<u8>, LinkFault>
    requires ext { 4 ≤ length ext.now }
    requires short { functions + lines < 2 ^ 64 }
    ensures ok { IfOk result (λ head. head.items ≡ head_of ext.now functions lines fields) }
    ensures err { IfErr result (λ fault. fault ≡ Memory) }
{
    match with(Vec::new(alloc), &ext[0..4]) {
        Ok(head) => with_numbers(
            head,
            &[
                32,
                0,
                functions,
                functions,
                lines,
                functions + lines,
                fields,
            ],
        ),
        Err(fault) => Err(fault),
    }
}

/// The section with these lists.
#[tactic(auto, using(std::proofs::lemmas::List::append_assoc))]
fn ext_of(
    alloc: Global,
    ext: &[u8],
    functions: &[u8],
    lines: &[u8],
    fields: &[u8],
) -> Result<Vec<u8>, LinkFault>
    requires { 4 ≤ length ext.now }
    ensures ok { IfOk result (λ moved. moved.items ≡ ext_of ext.now functions.now lines.now fields.now) }
    ensures err { IfErr result (λ fault. fault ≡ Memory) }
{
    let head = match head_of(alloc, ext, functions.len(), lines.len(), fields.len()) {
        Ok(head) => head,
        Err(fault) => return Err(fault),
    };
    let one = match with(head, functions) {
        Ok(one) => one,
        Err(fault) => return Err(fault),
    };
    match with(one, lines) {
        Ok(two) => with(two, fields),
        Err(fault) => Err(fault),
    }
}

/// The section, moved. The name of the section in which all code stands is at a place among the
/// strings.
fn moved_lists(
    alloc: Global,
    plan: &Plan<'_>,
    calls: &[Call],
    name: usize,
    ext: &[u8],
) -> Result<Vec<u8>, LinkFault>
    requires ext { ext.now ≡ ext_bytes plan.now }
    requires name { place_of plan.now (into calls.now) ≡ Some name }
    ensures ok { IfOk result (λ moved. IsMovedExt plan.now calls.now moved.items) }
    ensures err { IfErr result (IsListsFault plan.now) }
{
    let functions = match moved_part(alloc, plan, calls, name, ext, 0) {
        Ok(functions) => functions,
        Err(fault) => return Err(fault),
    };
    let lines = match moved_part(alloc, plan, calls, name, ext, 1) {
        Ok(lines) => lines,
        Err(fault) => return Err(fault),
    };
    let fields = match moved_part(alloc, plan, calls, name, ext, 2) {
        Ok(fields) => fields,
        Err(fault) => return Err(fault),
    };
    match ext_of(
        alloc,
        ext,
        functions.as_slice(),
        lines.as_slice(),
        fields.as_slice(),
    ) {
        Ok(moved) => Ok(moved),
        Err(fault) => Err(fault),
    }
}

/// What `.BTF.ext` tells of the turned object: nothing where the object has no such section.
pub fn moved_ext(alloc: Global, plan: &Plan<'_>, calls: &[Call]) -> Result<Vec<u8>, LinkFault>
    ensures ok { IfOk result (λ moved. HasMovedExt plan.now calls.now moved.items) }
    ensures err { IfErr result (IsUnmoved plan.now calls.now) }
{
    let found = found_named(&plan.object, b".BTF.ext");
    if !is_something(found) {
        return Ok(Vec::new(alloc));
    }
    let name = match place_of(plan, usize::from(into(calls))) {
        Some(name) => name,
        None => return Err(LinkFault::Types(BtfFault::Ext)),
    };
    match moved_lists(alloc, plan, calls, name, types_bytes(&plan.object, found)) {
        Ok(moved) => Ok(moved),
        Err(fault) => Err(fault),
    }
}
