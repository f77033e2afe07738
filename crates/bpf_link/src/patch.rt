//! What relocations make of the words.
ghost use Rattle.std.specs.Prelude.{◌≡◌, ◌≤◌, ◌<◌, ◌+◌, ◌*◌, ◌/◌, ◌%◌, length, IfOk, OnOk, IfErr, Ok, Err};
ghost use Rattle.bpf_isa.specs.Words.{u32_at};
ghost use Rattle.bpf_link.specs.Links.{patch_width};
ghost use Rattle.bpf_link.specs.Patches.{HasPlace, is_call, symbol_fault, side_with, call_to, call_patch, is_map, is_empty_load, map_number, map_patch, is_short_load, data_patch, load_patch, patch_with, is_next, patch_at, patch_of};
ghost use Rattle.bpf_link.specs.Parts.{first_of, part_of, slots_in};
ghost use Rattle.bpf_isa.specs.Maps.{most_maps};
ghost use Rattle.bpf_isa.specs.Checker.{most_slots};

use crate::data_sections::{data_number, is_among};
use crate::fault::{LinkFault, RelocationFault};
use crate::fields::u32_at;
use crate::layout::{RelocationEntry, SymbolEntry};
use crate::parts::{Parts, Side};
use crate::placed::Placed;
use crate::plan::{Plan, symbol_place};
use crate::tables::Relocations;

/// What becomes of a slot: the byte of its registers, and its imm.
#[derive(Clone, Copy)]
pub struct Patch {
    /// Where the slot lies in the bytes of the program.
    pub at: usize,
    pub registers: u8,
    pub imm: u32,
    /// The imm of the slot after it, of a wide load.
    pub next: Option<u32>,
}

/// Whether the slot at a place is a local call.
fn is_call(slots: &[u8], at: usize) -> bool
    requires { at + 8 ≤ length slots.now }
    ensures { result ≡ is_call slots.now at }
{
    slots[at] == 0x85 && slots[at + 1] == 0x10
}

/// Why the relocation of a slot, against a symbol, isn't done.
fn symbol_fault(
    plan: &Plan<'_>,
    symbol: &SymbolEntry,
    slot: usize,
    fault: RelocationFault,
) -> LinkFault
    ensures { result ≡ symbol_fault plan.now symbol.now slot fault }
{
    LinkFault::Relocation {
        fault,
        slot,
        at: symbol_place(plan, symbol),
    }
}

/// The part of the program that a section is, or a fault.
fn side_with(parts: &Parts<'_>, section: usize, fault: LinkFault) -> Result<Side, LinkFault>
    ensures { result ≡ side_with parts.now section fault }
{
    if section == parts.part(Side::Code).section {
        return Ok(Side::Code);
    }
    if section == parts.part(Side::Text).section {
        return Ok(Side::Text);
    }
    Err(fault)
}

/// A call in a slot of what lies at a value in a part, with what stood in imm, or a fault.
fn call_to(
    parts: &Parts<'_>,
    side: Side,
    value: u64,
    imm: u32,
    slot: usize,
    fault: LinkFault,
) -> Result<Patch, LinkFault>
    requires { slot < most_slots }
    ensures value { result ≡ call_to parts.now side value imm slot fault }
    ensures at { IfOk result (λ patch. patch.at ≡ 8 * slot) }
{
    if value % 8 != 0 {
        return Err(fault);
    }
    let from = value / 8;
    let count = parts.part(side).len() as u64;
    if from >= count {
        return Err(fault);
    }
    let index = (from + u64::from(imm) + 1) % 4_294_967_296;
    if index >= count {
        return Err(fault);
    }
    let first = parts.first(side) as u64;
    let distance = (4_294_967_296 + (first + index) - (slot as u64 + 1)) % 4_294_967_296;
    Ok(Patch {
        at: 8 * slot,
        registers: 0x10,
        imm: distance as u32,
        next: None,
    })
}

/// The call of a symbol, in the slot at a place of a section.
fn call_patch(
    plan: &Plan<'_>,
    slots: &[u8],
    symbol: &SymbolEntry,
    at: usize,
    slot: usize,
) -> Result<Patch, LinkFault>
    requires inside { at + 8 ≤ length slots.now }
    requires slot { slot < most_slots }
    ensures value { result ≡ call_patch plan.now slots.now symbol.now at slot }
    ensures at { IfOk result (λ patch. patch.at ≡ 8 * slot) }
{
    if !is_call(slots, at) {
        let fault = RelocationFault::NoCall;
        return Err(symbol_fault(plan, symbol, slot, fault));
    }
    let fault = symbol_fault(plan, symbol, slot, RelocationFault::CallTarget);
    let side = side_with(&plan.parts, usize::from(symbol.section), fault)?;
    call_to(
        &plan.parts,
        side,
        symbol.value,
        u32_at(slots, at + 4),
        slot,
        fault,
    )
}

/// Whether a symbol names a map.
pub fn is_map(maps: usize, symbol: &SymbolEntry) -> bool
    ensures { result ≡ is_map maps symbol.now }
{
    symbol.kind == 1 && (symbol.section > 0 && usize::from(symbol.section) == maps)
}

/// Whether two slots hold a wide load of a number of 32 bits.
fn is_short_load(slots: &[u8], at: usize) -> bool
    requires { at + 16 ≤ length slots.now }
    ensures { result ≡ is_short_load slots.now at }
{
    slots[at] == 0x18
        && (slots[at + 8] == 0 && (slots[at + 1] / 16 == 0 && u32_at(slots, at + 12) == 0))
}

/// Whether it is a wide load of the number 0.
fn is_empty_load(slots: &[u8], at: usize) -> bool
    requires { at + 16 ≤ length slots.now }
    ensures { result ≡ is_empty_load slots.now at }
{
    is_short_load(slots, at) && u32_at(slots, at + 4) == 0
}

/// How many maps stand before a value.
fn map_number(maps: &[u64], value: u64) -> u32
    requires { length maps.now ≤ most_maps }
    ensures { result ≡ map_number maps.now value }
{
    let mut number = 0;
    for other in maps {
        if *other < value {
            number += 1;
        }
    }
    number
}

/// The wide load of a map, in the two slots at a place of a section.
fn map_patch(
    placed: &Placed<'_, '_>,
    slots: &[u8],
    symbol: &SymbolEntry,
    at: usize,
    slot: usize,
) -> Result<Patch, LinkFault>
    requires inside { at + 16 ≤ length slots.now }
    requires slot { slot < most_slots }
    ensures value { result ≡ map_patch placed.now slots.now symbol.now at slot }
    ensures at { IfOk result (λ patch. patch.at ≡ 8 * slot) }
{
    let plan = placed.plan();
    if !is_map(plan.maps, symbol) {
        let fault = RelocationFault::Data;
        return Err(symbol_fault(plan, symbol, slot, fault));
    }
    if !is_empty_load(slots, at) {
        let fault = RelocationFault::NoLoad;
        return Err(symbol_fault(plan, symbol, slot, fault));
    }
    Ok(Patch {
        at: 8 * slot,
        registers: slots[at + 1] + 0x50,
        imm: map_number(placed.maps(), symbol.value),
        next: Some(0),
    })
}

/// The wide load of an address in data, in the two slots at a place of a section.
fn data_patch(
    placed: &Placed<'_, '_>,
    slots: &[u8],
    symbol: &SymbolEntry,
    at: usize,
    slot: usize,
) -> Result<Patch, LinkFault>
    requires inside { at + 16 ≤ length slots.now }
    requires slot { slot < most_slots }
    ensures value { result ≡ data_patch placed.now slots.now symbol.now at slot }
    ensures at { IfOk result (λ patch. patch.at ≡ 8 * slot) }
{
    if !is_short_load(slots, at) {
        let fault = RelocationFault::NoLoad;
        return Err(symbol_fault(placed.plan(), symbol, slot, fault));
    }
    let place = (symbol.value % 4_294_967_296 + u64::from(u32_at(slots, at + 4))) % 4_294_967_296;
    Ok(Patch {
        at: 8 * slot,
        registers: slots[at + 1] + 0x60,
        imm: data_number(placed, usize::from(symbol.section)) as u32,
        next: Some(place as u32),
    })
}

/// The wide load of a map or of data.
fn load_patch(
    placed: &Placed<'_, '_>,
    slots: &[u8],
    symbol: &SymbolEntry,
    at: usize,
    slot: usize,
) -> Result<Patch, LinkFault>
    requires inside { at + 16 ≤ length slots.now }
    requires slot { slot < most_slots }
    ensures value { result ≡ load_patch placed.now slots.now symbol.now at slot }
    ensures at { IfOk result (λ patch. patch.at ≡ 8 * slot) }
{
    if is_among(placed.taken(), usize::from(symbol.section)) {
        return data_patch(placed, slots, symbol, at, slot);
    }
    map_patch(placed, slots, symbol, at, slot)
}

fn patch_with(
    placed: &Placed<'_, '_>,
    side: Side,
    relocation: &RelocationEntry,
    symbol: &SymbolEntry,
) -> Result<Patch, LinkFault>
    requires { HasPlace (part_of placed.now.plan.parts side) relocation.now }
    ensures value { result ≡ patch_with placed.now side relocation.now symbol.now }
    ensures at { IfOk result (λ patch. patch.at
        ≡ 8 * (first_of placed.now.plan.parts side + relocation.now.offset / 8)) }
{
    let plan = placed.plan();
    let part = plan.parts.part(side);
    let slots = part.slots.bytes;
    let at = relocation.offset as usize;
    let slot = plan.parts.first(side) + at / 8;
    if symbol.section == 0 {
        let fault = RelocationFault::Extern;
        return Err(symbol_fault(plan, symbol, slot, fault));
    }
    if relocation.kind == 10 {
        return call_patch(plan, slots, symbol, at, slot);
    }
    if relocation.kind == 1 {
        if at / 8 + 1 >= part.len() {
            let fault = RelocationFault::NoLoad;
            return Err(symbol_fault(plan, symbol, slot, fault));
        }
        return load_patch(placed, slots, symbol, at, slot);
    }
    let fault = RelocationFault::RelocationKind;
    Err(symbol_fault(plan, symbol, slot, fault))
}

/// Whether the slot of a relocation follows that of the one before.
fn is_next(relocations: &Relocations<'_>, i: usize) -> bool
    requires { i < length relocations.now }
    ensures { result ≡ is_next relocations.now i }
{
    if i == 0 {
        return true;
    }
    let before = relocations.at(i - 1);
    let offset = relocations.at(i).offset;
    if before.offset >= offset {
        return false;
    }
    before.kind != 1 || offset - before.offset > 8
}

/// What a relocation makes of the slot of a part that it names, whatever stands before it in its
/// table.
pub fn patch_at(
    placed: &Placed<'_, '_>,
    side: Side,
    relocation: &RelocationEntry,
) -> Result<Patch, LinkFault>
    ensures value { result ≡ patch_at placed.now side relocation.now }
    ensures at { IfOk result (λ patch. patch.at + patch_width patch
        ≤ 8 * (first_of placed.now.plan.parts side + slots_in (part_of placed.now.plan.parts side))) }
{
    let plan = placed.plan();
    if relocation.offset % 8 != 0 {
        return Err(LinkFault::Place);
    }
    if relocation.offset / 8 >= plan.parts.part(side).len() as u64 {
        return Err(LinkFault::Place);
    }
    let symbol = relocation.symbol as usize;
    if symbol >= plan.symbols.len() {
        let slot = plan.parts.first(side) + relocation.offset as usize / 8;
        return Err(LinkFault::Symbol(slot));
    }
    patch_with(placed, side, relocation, &plan.symbols.at(symbol))
}

/// What a relocation of a part makes of its slot.
pub fn patch_of(placed: &Placed<'_, '_>, side: Side, i: usize) -> Result<Patch, LinkFault>
    requires { i < length (part_of placed.now.plan.parts side).relocations }
    ensures value { result ≡ patch_of placed.now side i }
    ensures at { IfOk result (λ patch. patch.at + patch_width patch
        ≤ 8 * (first_of placed.now.plan.parts side + slots_in (part_of placed.now.plan.parts side))) }
{
    let relocations = &placed.plan().parts.part(side).relocations;
    if !is_next(relocations, i) {
        return Err(LinkFault::Place);
    }
    patch_at(placed, side, &relocations.at(i))
}
