//! What of a plan's code doesn't count: what isn't reached from the entry.
ghost use Rattle.std.specs.Prelude.{◌≡◌, ◌≤◌, ◌+◌, ◌*◌, List, Bool, IfOk, IfErr, filter, length};
ghost use Rattle.bpf_isa.specs.Checker.{most_slots};
ghost use Rattle.bpf_link.specs.declared.fault.LinkFault.TheVariants.{Memory};
ghost use Rattle.bpf_link.specs.Links.{HasRoom};
ghost use Rattle.bpf_link.specs.Parts.{part_of};
ghost use Rattle.bpf_link.specs.Kept.{IsKeptOf};
ghost use Rattle.bpf_link.specs.Blanked.{blanked};
ghost use Rattle.bpf_link.specs.Pruned.{all_tried, flow_of, is_kept, pruned};
ghost use Rattle.bpf_link.specs.Reach.{is_reached};
ghost use Rattle.bpf_link.specs.Tables.{relocations_in};

use crate::fault::LinkFault;
use crate::layout::RelocationEntry;
use crate::parts::{Part, Parts, Side};
use crate::patch::patch_at;
use crate::placed::Placed;
use crate::plan::Plan;
use crate::tables::{Bytes, Relocations, Symbols};
use crate::words::{put_patch, unlinked};
use byteorder::{ByteOrder, LittleEndian};
use std::alloc::Global;

/// Does the relocations of a part that can be done before maps have numbers.
fn try_all(plan: &Plan<'_>, side: Side, words: &mut [u8])
    requires { HasRoom plan.now.parts side words.old }
    ensures { words.new ≡ all_tried plan.now side words.old
        (length (part_of plan.now.parts side).relocations) }
{
    let placed = Placed {
        plan,
        maps: &[],
        taken: &[],
    };
    let relocations = &plan.parts.part(side).relocations;
    for i in 0..relocations.len() {
        match patch_at(&placed, side, &relocations.at(i)) {
            Ok(patch) => put_patch(words, &patch),
            Err(_) => {}
        }
    }
}

/// The code of a plan as control goes through it: with its calls.
pub fn flow_of(alloc: Global, plan: &Plan<'_>) -> Result<Vec<u8>, LinkFault>
    ensures ok { IfOk result (λ words. words.items ≡ flow_of plan.now) }
    ensures err { IfErr result (λ fault. fault ≡ Memory) }
{
    let mut words = match unlinked(alloc, &plan.parts) {
        Ok(words) => words,
        Err(fault) => return Err(fault),
    };
    try_all(plan, Side::Code, &mut words);
    try_all(plan, Side::Text, &mut words);
    Ok(words)
}

/// Whether a slot is reached.
fn is_reached(reach: &[bool], slot: u64) -> bool
    ensures { result ≡ is_reached reach.now slot }
{
    slot < reach.len() as u64 && reach[slot as usize]
}

/// Whether a relocation of a part names a slot that is reached.
fn is_kept(reach: &[bool], first: usize, relocation: &RelocationEntry) -> bool
    requires { first ≤ most_slots }
    ensures { result ≡ is_kept reach.now first relocation.now }
{
    is_reached(reach, first as u64 + relocation.offset / 8)
}

/// The relocations that name slots that are reached, in 16 bytes each as they stand in the object.
fn reached_relocations(
    alloc: Global,
    reach: &[bool],
    first: usize,
    relocations: &Relocations<'_>,
) -> Result<Vec<u8>, LinkFault>
    requires { first ≤ most_slots }
    ensures ok { IfOk result (λ bytes. relocations_in bytes.items
        ≡ filter (is_kept reach.now first) relocations.now) }
    ensures err { IfErr result (λ fault. fault ≡ Memory) }
{
    let mut bytes = Vec::new(alloc);
    for i in 0..relocations.len() {
        if is_kept(reach, first, &relocations.at(i)) {
            match bytes.extend_from_slice(relocations.bytes_at(i)) {
                Ok(()) => {}
                Err(_) => return Err(LinkFault::Memory),
            }
        }
    }
    Ok(bytes)
}

/// The relocations of a plan's parts that count.
#[derive(Drop)]
pub struct Kept {
    code: Vec<u8>,
    text: Vec<u8>,
}

/// The relocations of a plan that name slots that are reached.
pub fn kept_of(alloc: Global, plan: &Plan<'_>, reach: &[bool]) -> Result<Kept, LinkFault>
    ensures ok { IfOk result (IsKeptOf plan.now reach.now) }
    ensures err { IfErr result (λ fault. fault ≡ Memory) }
{
    let code = match reached_relocations(
        alloc,
        reach,
        0,
        &plan.parts.part(Side::Code).relocations,
    ) {
        Ok(code) => code,
        Err(fault) => return Err(fault),
    };
    let first = plan.parts.first(Side::Text);
    match reached_relocations(
        alloc,
        reach,
        first,
        &plan.parts.part(Side::Text).relocations,
    ) {
        Ok(text) => Ok(Kept { code, text }),
        Err(fault) => Err(fault),
    }
}

/// A part with other relocations.
fn part_with<'b>(part: &'b Part<'_>, relocations: &'b [u8]) -> Part<'b>
    ensures { result ≡ record {
      section = part.now.section;
      slots = part.now.slots;
      relocations = relocations_in relocations.now;
    } }
{
    Part {
        section: part.section,
        slots: Bytes {
            bytes: part.slots.bytes,
        },
        relocations: Relocations { bytes: relocations },
    }
}

/// A plan with the relocations that count.
pub fn pruned<'b>(plan: &'b Plan<'_>, kept: &'b Kept) -> Plan<'b>
    ensures { (reach : List Bool) → IsKeptOf plan.now reach kept.now → result ≡ pruned reach plan.now }
{
    plan.parts.invariant();
    Plan {
        object: plan.object.again(),
        table: plan.table,
        symbols: Symbols {
            bytes: plan.symbols.bytes,
        },
        names: plan.names,
        maps: plan.maps,
        definitions: Bytes {
            bytes: plan.definitions.bytes,
        },
        parts: Parts {
            code: part_with(plan.parts.part(Side::Code), &kept.code),
            text: part_with(plan.parts.part(Side::Text), &kept.text),
        },
    }
}

/// Words with `exit` in each slot that isn't reached.
pub fn blanked(reach: &[bool], words: Vec<u8>) -> Vec<u8>
    ensures value { result.items ≡ blanked reach.now words.items }
    ensures length { length result.items ≡ length words.items }
{
    let mut words = words;
    for slot in 0..words.len() / 8 {
        if !is_reached(reach, slot as u64) {
            LittleEndian::write_u64(&mut words[8 * slot..8 * slot + 8], 0x95);
        }
    }
    words
}
