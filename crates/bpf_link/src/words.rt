//! The words of a plan, with the relocations done.
ghost use Rattle.std.specs.Prelude.{◌≡◌, ◌≤◌, ◌<◌, ◌+◌, ◌*◌, ◌⊎◌, length, IfOk, OnOk, IfErr, Ok, Err};
ghost use Rattle.bpf_link.specs.Links.{HasRoom, MemoryOr, maps_of, refers_to_map, with_map, with_maps, with_patch, patch_width, relocated, unlinked, words_of};
ghost use Rattle.bpf_link.specs.Data.{with_section};
ghost use Rattle.bpf_link.specs.Parts.{part_of};
ghost use Rattle.bpf_link.specs.declared.fault.LinkFault.TheVariants.{Memory};

use crate::fault::LinkFault;
use crate::layout::RelocationEntry;
use crate::parts::{Parts, Side};
use crate::patch::{Patch, is_map, patch_of};
use crate::placed::Placed;
use crate::plan::Plan;
use crate::tables::Relocations;
use arrayvec::ArrayVec;
use bpf_isa::MOST_MAPS;
use byteorder::{ByteOrder, LittleEndian};
use std::alloc::Global;

/// Whether a relocation is of a wide load of a map.
fn refers_to_map(plan: &Plan<'_>, relocation: &RelocationEntry) -> bool
    ensures { result ≡ refers_to_map plan.now relocation.now }
{
    if relocation.kind != 1 {
        return false;
    }
    let symbol = relocation.symbol as usize;
    if symbol >= plan.symbols.len() {
        return false;
    }
    is_map(plan.maps, &plan.symbols.at(symbol))
}

/// One more map, unless it is among them.
fn with_place(
    place: u64,
    mut maps: ArrayVec<u64, MOST_MAPS>,
) -> Result<ArrayVec<u64, MOST_MAPS>, LinkFault>
    ensures ok { IfOk result (λ new. with_section place maps.items ≡ Ok new.items) }
    ensures err { IfErr result (λ fault. with_section place maps.items ≡ Err fault) }
{
    if maps.as_slice().contains(&place) {
        return Ok(maps);
    }
    if maps.is_full() {
        return Err(LinkFault::TooManyMaps);
    }
    maps.push(place);
    Ok(maps)
}

/// Maps with the one that a relocation refers to.
fn with_map(
    plan: &Plan<'_>,
    relocations: &Relocations<'_>,
    i: usize,
    maps: ArrayVec<u64, MOST_MAPS>,
) -> Result<ArrayVec<u64, MOST_MAPS>, LinkFault>
    requires { i < length relocations.now }
    ensures ok { IfOk result (λ new.
        with_map plan.now relocations.now i maps.items ≡ Ok new.items) }
    ensures err { IfErr result (λ fault.
        with_map plan.now relocations.now i maps.items ≡ Err fault) }
{
    let relocation = relocations.at(i);
    if !refers_to_map(plan, &relocation) {
        return Ok(maps);
    }
    let symbol = plan.symbols.at(relocation.symbol as usize);
    with_place(symbol.value, maps)
}

/// Maps with those that the relocations of a part refer to.
fn with_maps(
    plan: &Plan<'_>,
    relocations: &Relocations<'_>,
    maps: ArrayVec<u64, MOST_MAPS>,
) -> Result<ArrayVec<u64, MOST_MAPS>, LinkFault>
    ensures ok { IfOk result (λ new. with_maps plan.now relocations.now maps.items ≡ Ok new.items) }
    ensures err { IfErr result (λ fault.
        with_maps plan.now relocations.now maps.items ≡ Err fault) }
{
    let mut all = maps;
    for i in 0..relocations.len() {
        match with_map(plan, relocations, i, all) {
            Ok(new) => all = new,
            Err(fault) => return Err(fault),
        }
    }
    Ok(all)
}

/// The maps to which the code of a plan refers, by their places in their section.
pub fn maps_of(plan: &Plan<'_>) -> Result<ArrayVec<u64, MOST_MAPS>, LinkFault>
    ensures ok { IfOk result (λ maps. maps_of plan.now ≡ Ok maps.items) }
    ensures err { IfErr result (λ fault. maps_of plan.now ≡ Err fault) }
{
    let code = &plan.parts.part(Side::Code).relocations;
    let maps = match with_maps(plan, code, ArrayVec::new()) {
        Ok(maps) => maps,
        Err(fault) => return Err(fault),
    };
    with_maps(plan, &plan.parts.part(Side::Text).relocations, maps)
}

/// Replaces the registers and the imm of a slot, and the imm of the slot after it, of a wide load.
pub fn put_patch(words: &mut [u8], patch: &Patch)
    requires { patch.now.at + patch_width patch.now ≤ length words.old }
    ensures { words.new ≡ with_patch words.old patch.now }
{
    words[patch.at + 1] = patch.registers;
    LittleEndian::write_u32(&mut words[patch.at + 4..patch.at + 8], patch.imm);
    if let Some(next) = patch.next {
        LittleEndian::write_u32(&mut words[patch.at + 12..patch.at + 16], next);
    }
}

/// Does the relocations of a part.
fn relocate(placed: &Placed<'_, '_>, side: Side, words: &mut [u8]) -> Result<(), LinkFault>
    requires { HasRoom placed.now.plan.parts side words.old }
    ensures ok { OnOk result (relocated placed.now side words.old
        (length (part_of placed.now.plan.parts side).relocations) ≡ Ok words.new) }
    ensures err { IfErr result (λ fault. relocated placed.now side words.old
        (length (part_of placed.now.plan.parts side).relocations) ≡ Err fault) }
{
    let count = placed.plan().parts.part(side).relocations.len();
    for i in 0..count {
        match patch_of(placed, side, i) {
            Ok(patch) => put_patch(words, &patch),
            Err(fault) => return Err(fault),
        }
    }
    Ok(())
}

/// The slots of a program as they stand in the object: those of its section, then those of `.text`.
pub fn unlinked(alloc: Global, parts: &Parts<'_>) -> Result<Vec<u8>, LinkFault>
    ensures ok { IfOk result (λ words. words.items ≡ unlinked parts.now) }
    ensures err { IfErr result (λ fault. fault ≡ Memory) }
{
    let mut words = match Vec::from_slice(alloc, parts.part(Side::Code).slots.bytes) {
        Ok(words) => words,
        Err(_) => return Err(LinkFault::Memory),
    };
    match words.extend_from_slice(parts.part(Side::Text).slots.bytes) {
        Ok(()) => Ok(words),
        Err(_) => Err(LinkFault::Memory),
    }
}

/// The words of a plan, with their relocations done.
pub fn words_of(alloc: Global, placed: &Placed<'_, '_>) -> Result<Vec<u8>, LinkFault>
    ensures ok { IfOk result (λ words.
        words_of placed.now ≡ Ok words.items) }
    ensures err { IfErr result (MemoryOr (words_of placed.now)) }
{
    let mut words = match unlinked(alloc, &placed.plan().parts) {
        Ok(words) => words,
        Err(fault) => return Err(fault),
    };
    match relocate(placed, Side::Code, &mut words) {
        Ok(()) => {}
        Err(fault) => return Err(fault),
    }
    match relocate(placed, Side::Text, &mut words) {
        Ok(()) => Ok(words),
        Err(fault) => Err(fault),
    }
}
