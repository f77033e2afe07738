//! The data that a program refers to: sections, each of which becomes a map.
ghost use Rattle.std.specs.Prelude.{◌≡◌, ◌≤◌, ◌<◌, ◌+◌, length, IfOk, IfErr, Ok, Err, ℕ};
ghost use Rattle.bpf_link.specs.Data.{is_among, refers_to_data, with_section, with_reference, with_references, pointers_of, with_pointed, with_all_pointed, referred, with_taken, in_order, data_of, data_number, AllBelow};
ghost use Rattle.bpf_isa.specs.Maps.{most_maps};

use crate::fault::LinkFault;
use crate::layout::RelocationEntry;
use crate::parts::Side;
use crate::placed::Placed;
use crate::plan::{Plan, relocations_in};
use crate::sections::{is_data, relocations_of};
use crate::tables::Relocations;
use arrayvec::ArrayVec;
use bpf_isa::MOST_MAPS;

/// Whether a section is among some.
pub fn is_among(sections: &[usize], section: usize) -> bool
    ensures { result ≡ is_among sections.now section }
{
    sections.contains(&section)
}

/// Whether a relocation is of a kind, and against a symbol of a section of data.
fn refers_to_data(plan: &Plan<'_>, kind: u32, relocation: &RelocationEntry) -> bool
    ensures { result ≡ refers_to_data plan.now kind relocation.now }
{
    if relocation.kind != kind {
        return false;
    }
    let symbol = relocation.symbol as usize;
    if symbol >= plan.symbols.len() {
        return false;
    }
    let section = usize::from(plan.symbols.at(symbol).section);
    if section >= plan.object.len() {
        return false;
    }
    is_data(&plan.object, &plan.object.section(section))
}

/// One more section, unless it is among them.
fn with_section(
    section: usize,
    mut found: ArrayVec<usize, MOST_MAPS>,
) -> Result<ArrayVec<usize, MOST_MAPS>, LinkFault>
    ensures ok { IfOk result (λ new. with_section section found.items ≡ Ok new.items) }
    ensures err { IfErr result (λ fault. with_section section found.items ≡ Err fault) }
{
    if is_among(found.as_slice(), section) {
        return Ok(found);
    }
    if found.is_full() {
        return Err(LinkFault::TooManyMaps);
    }
    found.push(section);
    Ok(found)
}

/// Sections of data with the one that a relocation of a kind refers to.
fn with_reference(
    plan: &Plan<'_>,
    kind: u32,
    relocations: &Relocations<'_>,
    i: usize,
    found: ArrayVec<usize, MOST_MAPS>,
) -> Result<ArrayVec<usize, MOST_MAPS>, LinkFault>
    requires { i < length relocations.now }
    ensures ok { IfOk result (λ new.
        with_reference plan.now kind relocations.now i found.items ≡ Ok new.items) }
    ensures err { IfErr result (λ fault.
        with_reference plan.now kind relocations.now i found.items ≡ Err fault) }
{
    let relocation = relocations.at(i);
    if !refers_to_data(plan, kind, &relocation) {
        return Ok(found);
    }
    let symbol = plan.symbols.at(relocation.symbol as usize);
    with_section(usize::from(symbol.section), found)
}

/// Sections of data with those that the relocations of a kind refer to.
fn with_references(
    plan: &Plan<'_>,
    kind: u32,
    relocations: &Relocations<'_>,
    found: ArrayVec<usize, MOST_MAPS>,
) -> Result<ArrayVec<usize, MOST_MAPS>, LinkFault>
    ensures ok { IfOk result (λ new.
        with_references plan.now kind relocations.now found.items ≡ Ok new.items) }
    ensures err { IfErr result (λ fault.
        with_references plan.now kind relocations.now found.items ≡ Err fault) }
{
    let mut all = found;
    for i in 0..relocations.len() {
        match with_reference(plan, kind, relocations, i, all) {
            Ok(new) => all = new,
            Err(fault) => return Err(fault),
        }
    }
    Ok(all)
}

/// The relocations of a section of data.
pub fn pointers_of<'a>(plan: &Plan<'a>, section: usize) -> Result<Relocations<'a>, LinkFault>
    ensures { result ≡ pointers_of plan.now section }
{
    let found = relocations_of(&plan.object, section);
    relocations_in(&plan.object, plan.table, found)
}

/// Sections of data with those that the k-th of them refers to.
fn with_pointed(
    plan: &Plan<'_>,
    k: usize,
    found: ArrayVec<usize, MOST_MAPS>,
) -> Result<ArrayVec<usize, MOST_MAPS>, LinkFault>
    ensures ok { IfOk result (λ new.
        with_pointed plan.now k found.items ≡ Ok new.items) }
    ensures err { IfErr result (λ fault.
        with_pointed plan.now k found.items ≡ Err fault) }
{
    if k >= found.len() {
        return Ok(found);
    }
    let section = found.as_slice()[k];
    match pointers_of(plan, section) {
        Ok(relocations) => with_references(plan, 2, &relocations, found),
        Err(fault) => Err(fault),
    }
}

/// Sections of data with those that they refer to, from the first one on.
fn with_all_pointed(
    plan: &Plan<'_>,
    found: ArrayVec<usize, MOST_MAPS>,
) -> Result<ArrayVec<usize, MOST_MAPS>, LinkFault>
    ensures ok { IfOk result (λ new.
        with_all_pointed plan.now found.items ≡ Ok new.items) }
    ensures err { IfErr result (λ fault.
        with_all_pointed plan.now found.items ≡ Err fault) }
{
    let mut all = found;
    for k in 0..MOST_MAPS {
        match with_pointed(plan, k, all) {
            Ok(new) => all = new,
            Err(fault) => return Err(fault),
        }
    }
    Ok(all)
}

/// The sections of data that the program refers to, by its wide loads or by way of data.
fn referred(plan: &Plan<'_>) -> Result<ArrayVec<usize, MOST_MAPS>, LinkFault>
    ensures ok { IfOk result (λ found. referred plan.now ≡ Ok found.items) }
    ensures err { IfErr result (λ fault. referred plan.now ≡ Err fault) }
{
    let code = match with_references(
        plan,
        1,
        &plan.parts.part(Side::Code).relocations,
        ArrayVec::new(),
    ) {
        Ok(found) => found,
        Err(fault) => return Err(fault),
    };
    match with_references(plan, 1, &plan.parts.part(Side::Text).relocations, code) {
        Ok(found) => with_all_pointed(plan, found),
        Err(fault) => Err(fault),
    }
}

/// Some sections with one more, where that is among those that were found.
fn with_taken(
    found: &[usize],
    section: usize,
    mut taken: ArrayVec<usize, MOST_MAPS>,
) -> Result<ArrayVec<usize, MOST_MAPS>, LinkFault>
    ensures ok { IfOk result (λ new. with_taken found.now section taken.items ≡ Ok new.items) }
    ensures err { IfErr result (λ fault. with_taken found.now section taken.items ≡ Err fault) }
    ensures below { (n : ℕ) → section < n → AllBelow n taken.items
        → IfOk result (λ new. AllBelow n new.items) }
{
    if !is_among(found, section) {
        return Ok(taken);
    }
    if taken.is_full() {
        return Err(LinkFault::TooManyMaps);
    }
    taken.push(section);
    Ok(taken)
}

/// The sections among those that were found, in the order of their numbers, which are below
/// `count`.
fn in_order(found: &[usize], count: usize) -> Result<ArrayVec<usize, MOST_MAPS>, LinkFault>
    ensures ok { IfOk result (λ taken. in_order found.now count ≡ Ok taken.items) }
    ensures err { IfErr result (λ fault. in_order found.now count ≡ Err fault) }
    ensures below { IfOk result (λ taken. AllBelow count taken.items) }
{
    let mut taken = ArrayVec::new();
    for section in 0..count {
        match with_taken(found, section, taken) {
            Ok(new) => taken = new,
            Err(fault) => return Err(fault),
        }
    }
    Ok(taken)
}

/// The sections of data that the program refers to, in the order of their numbers.
pub fn data_of(plan: &Plan<'_>) -> Result<ArrayVec<usize, MOST_MAPS>, LinkFault>
    ensures ok { IfOk result (λ taken. data_of plan.now ≡ Ok taken.items) }
    ensures err { IfErr result (λ fault. data_of plan.now ≡ Err fault) }
    ensures below { IfOk result (λ taken. AllBelow (length plan.now.object.sections) taken.items) }
{
    match referred(plan) {
        Ok(found) => in_order(found.as_slice(), plan.object.len()),
        Err(fault) => Err(fault),
    }
}

/// The number of the map that a section becomes.
pub fn data_number(placed: &Placed<'_, '_>, section: usize) -> usize
    ensures value { result ≡ data_number placed.now section }
    ensures small { result ≤ most_maps }
{
    let mut number = 0;
    let taken = placed.taken();
    for other in taken {
        if *other < section {
            number += 1;
        }
    }
    placed.maps().len() + number
}
