//! The object in which maps have as many entries as they are told.
ghost use Rattle.std.specs.Prelude.{◌≡◌, ◌≤◌, ◌<◌, ◌+◌, ◌==◌, ◌⊎◌, IfErr, IfOk, Some, if◌then◌else◌, length, map, slice_range};
ghost use Rattle.std.specs.List.{before_first};
ghost use Rattle.bpf_btf.specs.Layout.{btf_header};
ghost use Rattle.bpf_link.specs.declared.fault.LinkFault.TheVariants.{Memory};
ghost use Rattle.bpf_counts.specs.Counted.{HasTypes, IsCountFault, IsCounted, IsCountedBy, IsCountedIn, IsCountedOf, IsDescribed, IsRecounted, IsUncountedBy, IsUncountedIn, IsUncountedOf, IsUndescribed, IsUnrecounted, is_comma, own_strings, own_types, strings_end, types_end};

use crate::btf::btf_with;
use crate::file::{replaced, types_found};
use crate::walk::walked;
use bpf_btf::{Btf, BtfFault, MapDescription};
use bpf_isa::MapFault;
use bpf_link::{
    Found, LinkFault, Plan, fault_names, planned, section_bytes, told_of_types, u32_at,
};
use counted_io::find;
use input_texts::{count_in, map_in};
use std::alloc::Global;

/// Why a map doesn't get its entries.
#[derive(Clone, Copy)]
pub struct CountFault {
    /// Which of the texts it is that names the map.
    pub which: usize,
    pub fault: LinkFault,
}

/// What a section `.BTF` says of the map of a name. `place` is the file's end.
fn described(
    alloc: Global,
    btf: &[u8],
    name: &[u8],
    place: usize,
) -> Result<MapDescription, LinkFault>
    ensures ok { IfOk result (IsDescribed btf.now name.now) }
    ensures err { IfErr result (λ fault. (fault ≡ Memory) ⊎ IsUndescribed btf.now name.now place fault) }
{
    let types = match Btf::read(alloc, btf) {
        Ok(types) => types,
        Err(fault) => return Err(told_of_types(fault)),
    };
    match types.map_description(name) {
        Ok(said) => Ok(said),
        Err(fault) => Err(LinkFault::Map { at: place, fault }),
    }
}

/// So many bytes of a section from a place on.
fn range_in(btf: &[u8], from: u64, size: u32) -> &[u8]
    requires { from + size ≤ length btf.now }
    ensures { result.now ≡ slice_range btf.now from (from + size) }
{
    let from = from as usize;
    &btf[from..from + size as usize]
}

/// The types of a section.
fn types_of(btf: &[u8]) -> &[u8]
    requires header { 24 ≤ length btf.now }
    requires inside { types_end (btf_header btf.now) ≤ length btf.now }
    ensures { result.now ≡ own_types btf.now }
{
    let from = u64::from(u32_at(btf, 4)) + u64::from(u32_at(btf, 8));
    range_in(btf, from, u32_at(btf, 12))
}

/// The strings of a section.
fn strings_of(btf: &[u8]) -> &[u8]
    requires header { 24 ≤ length btf.now }
    requires inside { strings_end (btf_header btf.now) ≤ length btf.now }
    ensures { result.now ≡ own_strings btf.now }
{
    let from = u64::from(u32_at(btf, 4)) + u64::from(u32_at(btf, 16));
    range_in(btf, from, u32_at(btf, 20))
}

/// The section of types and strings in which a map, of which it says this, has so many entries.
fn recounted(
    alloc: Global,
    btf: &[u8],
    said: &MapDescription,
    name: &[u8],
    count: u32,
) -> Result<Vec<u8>, LinkFault>
    requires { IsDescribed btf.now name.now said.now }
    ensures ok { IfOk result (λ new. IsRecounted btf.now said.now name.now count new.items) }
    ensures err { IfErr result (λ fault. (fault ≡ Memory) ⊎ IsUnrecounted btf.now fault) }
{
    let types = types_of(btf);
    let strings = strings_of(btf);
    let walk = match walked(types, strings) {
        Ok(walk) => walk,
        Err(_) => return Err(LinkFault::Types(BtfFault::CutType)),
    };
    match btf_with(alloc, types, strings, &walk, said, name, count) {
        Ok(new) => Ok(new),
        Err(fault) => Err(fault),
    }
}

/// The object of a plan, with another section of BTF: the i-th.
fn with_entries(
    alloc: Global,
    plan: &Plan<'_>,
    i: usize,
    name: &[u8],
    count: u32,
) -> Result<Vec<u8>, LinkFault>
    requires inside { i < length plan.now.object.sections }
    requires types { HasTypes plan.now i }
    ensures ok { IfOk result (λ all. IsCountedIn plan.now name.now count all.items) }
    ensures err { IfErr result (λ fault. (fault ≡ Memory) ⊎ IsUncountedIn plan.now name.now count fault) }
{
    let bytes = plan.object.bytes();
    let btf = section_bytes(&plan.object, &plan.object.section(i));
    let said = match described(alloc, btf, name, bytes.len()) {
        Ok(said) => said,
        Err(fault) => return Err(fault),
    };
    let new = match recounted(alloc, btf, &said, name, count) {
        Ok(new) => new,
        Err(fault) => return Err(fault),
    };
    match replaced(alloc, bytes, i, new.as_slice()) {
        Ok(all) => Ok(all),
        Err(fault) => Err(fault),
    }
}

/// The object of a plan in which the map of a name has so many entries.
fn counted_in(alloc: Global, plan: &Plan<'_>, name: &[u8], count: u32) -> Result<Vec<u8>, LinkFault>
    ensures ok { IfOk result (λ all. IsCountedIn plan.now name.now count all.items) }
    ensures err { IfErr result (λ fault. (fault ≡ Memory) ⊎ IsUncountedIn plan.now name.now count fault) }
{
    match types_found(&plan.object) {
        Found::Only(i) => with_entries(alloc, plan, i, name, count),
        Found::Nothing => Err(LinkFault::Types(BtfFault::NoBtf)),
        Found::Several => Err(LinkFault::Types(BtfFault::NoBtf)),
    }
}

/// The first of some names with commas between.
fn first_name(names: &[u8]) -> &[u8]
    ensures { result.now ≡ before_first is_comma names.now }
{
    &names[..find(names, b',')]
}

/// A name, or another one where it is empty.
fn given_or<'a>(name: &'a [u8], other: &'a [u8]) -> &'a [u8]
    ensures { result.now ≡ (if length name.now == 0 then other.now else name.now) }
{
    if name.is_empty() { other } else { name }
}

/// The object in which the map of a name has so many entries.
fn counted_of(
    alloc: Global,
    bytes: &[u8],
    section: &[u8],
    name: &[u8],
    count: u32,
) -> Result<Vec<u8>, LinkFault>
    ensures ok { IfOk result (λ all. IsCountedOf bytes.now section.now name.now (Some count) all.items) }
    ensures err { IfErr result (λ fault. (fault ≡ Memory)
        ⊎ IsUncountedOf bytes.now section.now name.now (Some count) fault) }
{
    // (the names of all sections of code, of which any will do where none is named)
    let names = fault_names(bytes, b"", &LinkFault::NoSection);
    let plan = match planned(bytes, given_or(section, first_name(names.as_slice()))) {
        Ok(plan) => plan,
        Err(fault) => return Err(fault),
    };
    match counted_in(alloc, &plan, name, count) {
        Ok(all) => Ok(all),
        Err(fault) => Err(fault),
    }
}

/// The object in which the map that a text names has as many entries as it says.
fn counted_by(
    alloc: Global,
    bytes: &[u8],
    section: &[u8],
    text: &[u8],
) -> Result<Vec<u8>, LinkFault>
    ensures ok { IfOk result (λ all. IsCountedBy bytes.now section.now text.now all.items) }
    ensures err { IfErr result (λ fault. (fault ≡ Memory) ⊎ IsUncountedBy bytes.now section.now text.now fault) }
{
    match count_in(text) {
        Some(count) => counted_of(alloc, bytes, section, map_in(text), count),
        None => Err(LinkFault::Map {
            at: bytes.len(),
            fault: BtfFault::Limits(MapFault::Entries),
        }),
    }
}

/// The object in which maps of `.maps` have as many entries as they are told.
///
/// Each text is `NAME=N`: the map of that name has N entries at most, whatever its BTF says, and is
/// what it was for the rest; so are all other maps. The definition of the map is written a second
/// time, behind all that BTF has, where it counts for `link` and `join`. A map that BTF doesn't
/// describe, as those of the older section `maps`, is refused. The object is opened by the section of
/// code of this name, or by the first one where it is empty. Takes time in proportion to the length
/// of the object, for each text.
pub fn counted(
    alloc: Global,
    object: &[u8],
    section: &[u8],
    texts: &[&str],
) -> Result<Vec<u8>, CountFault>
    ensures ok { IfOk result (λ all.
        IsCounted object.now section.now (map (λ text. text.now) texts.now) all.items) }
    ensures err { IfErr result (IsCountFault object.now section.now (map (λ text. text.now) texts.now)) }
{
    let mut all = match Vec::from_slice(alloc, object) {
        Ok(all) => all,
        Err(_) => {
            return Err(CountFault {
                which: 0,
                fault: LinkFault::Memory,
            });
        }
    };
    for k in 0..texts.len() {
        match counted_by(alloc, all.as_slice(), section, texts[k].as_bytes()) {
            Ok(new) => all = new,
            Err(fault) => return Err(CountFault { which: k, fault }),
        }
    }
    Ok(all)
}
