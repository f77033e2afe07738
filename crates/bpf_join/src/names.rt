//! The strings of a joined object.
ghost use Rattle.std.specs.Prelude.{◌≡◌, ◌++◌, IfErr, IfOk};
ghost use Rattle.bpf_join.specs.Names.{all_names, front_names, lie_alike, section_names, shares_names, strings_at, symbol_names, whole, zeros_behind};
ghost use Rattle.bpf_link.specs.declared.fault.LinkFault.TheVariants.{Memory};

use crate::table::names_index;
use bpf_link::{Found, LinkFault, Object, Plan, section_bytes, with};
use std::alloc::Global;

/// The strings in a section.
fn strings_at<'a>(object: &Object<'a>, i: usize) -> &'a [u8]
    ensures { result.now ≡ strings_at object.now i }
{
    if i >= object.len() {
        return &[];
    }
    section_bytes(object, &object.section(i))
}

/// The names of an object's sections.
fn section_names<'a>(object: &Object<'a>) -> &'a [u8]
    ensures { result.now ≡ section_names object.now }
{
    strings_at(object, names_index(object))
}

/// The names of an object's symbols, which stand in a section.
pub fn symbol_names<'a>(plan: &Plan<'a>) -> &'a [u8]
    ensures { result.now ≡ symbol_names plan.now.object plan.now.table }
{
    match plan.table {
        Found::Only(i) => {
            if i >= plan.object.len() {
                return &[];
            }
            strings_at(&plan.object, plan.object.section(i).link as usize)
        }
        Found::Nothing => &[],
        Found::Several => &[],
    }
}

/// Whether two sections lie at one place of the file.
fn lie_alike(object: &Object<'_>, a: usize, b: usize) -> bool
    ensures { result ≡ lie_alike object.now a b }
{
    if a >= object.len() {
        return false;
    }
    if b >= object.len() {
        return false;
    }
    let one = object.section(a);
    let other = object.section(b);
    one.offset == other.offset && one.size == other.size
}

/// Whether the names of an object's sections and of its symbols are the same ones.
fn shares_names(plan: &Plan<'_>) -> bool
    ensures { result ≡ shares_names plan.now.object plan.now.table }
{
    match plan.table {
        Found::Only(i) => {
            if i >= plan.object.len() {
                return false;
            }
            let link = plan.object.section(i).link as usize;
            lie_alike(&plan.object, link, names_index(&plan.object))
        }
        Found::Nothing => false,
        Found::Several => false,
    }
}

/// The names of sections that stand before those of symbols.
pub fn front_names<'a>(first: &Plan<'a>) -> &'a [u8]
    ensures { result.now ≡ front_names first.now }
{
    if shares_names(first) {
        return &[];
    }
    section_names(&first.object)
}

/// Zeros behind so many bytes, up to a whole number of eight.
fn zeros_behind(len: usize) -> &'static [u8]
    ensures { result.now ≡ zeros_behind len }
{
    match len % 8 {
        0 => &[],
        1 => &[0; 7],
        2 => &[0; 6],
        3 => &[0; 5],
        4 => &[0; 4],
        5 => &[0; 3],
        6 => &[0; 2],
        _ => &[0],
    }
}

/// Bytes with some more, up to a whole number of eight of these.
pub fn with_whole(bytes: Vec<u8>, more: &[u8]) -> Result<Vec<u8>, LinkFault>
    ensures ok { IfOk result (λ new. new.items ≡ bytes.items ++ whole more.now) }
    ensures err { IfErr result (λ fault. fault ≡ Memory) }
{
    match with(bytes, more) {
        Ok(new) => with(new, zeros_behind(more.len())),
        Err(fault) => Err(fault),
    }
}

/// The strings of a joined object.
pub fn all_names(alloc: Global, first: &Plan<'_>, second: &Plan<'_>) -> Result<Vec<u8>, LinkFault>
    ensures ok { IfOk result (λ names. names.items ≡ all_names first.now second.now) }
    ensures err { IfErr result (λ fault. fault ≡ Memory) }
{
    let names = match Vec::from_slice(alloc, front_names(first)) {
        Ok(names) => names,
        Err(_) => return Err(LinkFault::Memory),
    };
    let own = match with(names, symbol_names(first)) {
        Ok(own) => own,
        Err(fault) => return Err(fault),
    };
    match with(own, symbol_names(second)) {
        Ok(all) => Ok(all),
        Err(fault) => Err(fault),
    }
}
