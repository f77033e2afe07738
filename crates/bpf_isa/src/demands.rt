//! What the words of a program ask of their maps, so that they are checked with other maps by a
//! search.
ghost use Rattle.std.specs.Prelude.{◌≡◌, ◌≤◌, ◌<◌, ◌↔◌, IsTrue, IfOk, IfErr, IfSome, IfNone, List, ℕ, Option, length};
ghost use Rattle.bpf_isa.specs.Checker.{AreSlots, HasFault, IsAccepted, IsFirstFault, IsRefused, IsStartIn, MapExists};
ghost use Rattle.bpf_isa.specs.Faults.{IsLeast, piece_fault};
ghost use Rattle.bpf_isa.specs.Maps.{AreMaps};
ghost use Rattle.bpf_isa.specs.Scaffolding.Checking.{AreStarts};
ghost use Rattle.bpf_isa.specs.Scaffolding.Demands.{AreClear, AreDemands, AreWanted, AreWantedAt, Meet, bytes_in, largest_maps};
ghost use Rattle.bpf_isa.specs.declared.fault.LoadFault.{LoadFault};
ghost use Rattle.bpf_isa.specs.declared.fault.LoadFault.TheVariants.{Memory};
ghost use Rattle.bpf_isa.specs.declared.fault.PieceFault.TheVariants.{NoMap};
ghost use Rattle.bpf_isa.specs.declared.maps.MapShape.{MapShape};

use crate::checker::{Draft, piece, starts_of};
use crate::fault::{LoadFault, PieceFault};
use crate::instruction::{Insn, WideValue};
use crate::maps::{MOST_MAPS, MapTable};
use crate::program::length_fault;
use std::alloc::{AllocError, Global};
use std::marker::Model;

/// How many bytes are wanted of each map, by its index.
#[derive(Clone, Copy)]
pub struct Lengths {
    bytes: [u32; MOST_MAPS],
}

impl Lengths {
    /// What no slot wants.
    fn none() -> Lengths
        ensures { (maps : List MapShape) → Meet maps result.bytes }
    {
        Lengths {
            bytes: [0; MOST_MAPS],
        }
    }

    /// The same with what an instruction wants.
    fn with_insn(self, insn: &Insn) -> Lengths
        requires { MapExists largest_maps insn.now }
        ensures { (maps : List MapShape) → AreMaps maps
            → (Meet maps result.bytes ↔ Meet maps self.bytes × MapExists maps insn.now) }
    {
        match wanted_by(insn) {
            Some((map, length)) => self.with(map, length),
            None => self,
        }
    }

    /// The same with so many bytes of a map.
    fn with(self, map: usize, length: u32) -> Lengths
        requires { map < 16 }
        ensures { (maps : List MapShape) → (Meet maps result.bytes
            ↔ Meet maps self.bytes × (length ≤ bytes_in maps map)) }
    {
        if length <= self.bytes[map] {
            return self;
        }
        let mut bytes = self.bytes;
        bytes[map] = length;
        Lengths { bytes }
    }

    /// Whether each of these maps has as many bytes as are wanted of it.
    fn are_met(&self, maps: &MapTable) -> bool
        ensures { IsTrue result ↔ Meet maps.now self.now.bytes }
    {
        for map in 0..MOST_MAPS {
            if u64::from(self.bytes[map]) > maps.bytes_in(map) {
                return false;
            }
        }
        true
    }
}

/// The map of which an instruction wants bytes, and how many.
fn wanted_by(insn: &Insn) -> Option<(usize, u32)>
    requires { MapExists largest_maps insn.now }
    ensures map { IfSome result (λ w. w.0 < 16) }
    ensures length { IfSome result (λ w. (maps : List MapShape) → AreMaps maps
        → (w.1 ≤ bytes_in maps w.0 ↔ MapExists maps insn.now)) }
    ensures none { IfNone result ((maps : List MapShape) → MapExists maps insn.now) }
{
    let Insn::LoadWide { value, .. } = *insn else {
        return None;
    };
    match value {
        WideValue::Number(_) => None,
        WideValue::Map(map) => Some((map as usize, 1)),
        WideValue::MapValue { map, offset } => Some((map as usize, offset + 1)),
    }
}

/// Words of a program, with what they ask of their maps. Contracts see the words' bytes.
#[derive(Drop)]
pub struct Demands {
    bytes: Vec<u8>,
    /// For each slot what all slots up to it want, up to the first that has a fault with all maps.
    wanted: Vec<Lengths>,
    /// The fault of that slot, or of the words' length.
    fault: Option<LoadFault>,
}

impl Model for Demands {
    ghost use Rattle.std.specs.Prelude.{List, ℕ};
    ghost use Rattle.bpf_isa.specs.Scaffolding.Demands.{AreDemands};

    ghost Value = { List ℕ };

    ghost view = { λ d. d.bytes.items };

    ghost invariant = { λ d. AreDemands d.bytes.items d.wanted.items d.fault };
}

impl Demands {
    /// Looks once at the words of a program. Takes time in proportion to their length.
    pub fn of(alloc: Global, bytes: &[u8]) -> Result<Demands, AllocError>
        ensures { IfOk result (λ demands. demands ≡ bytes.now) }
    {
        let mut wanted = Vec::new(alloc);
        let fault = match length_fault(bytes) {
            Some(fault) => Some(fault),
            None => push_wanted(alloc, bytes, &mut wanted)?,
        };
        match Vec::from_slice(alloc, bytes) {
            Ok(bytes) => Ok(Demands {
                bytes,
                wanted,
                fault,
            }),
            Err(_) => Err(AllocError),
        }
    }

    /// The fault that `check` finds in these words with a map table, None where it accepts them. It
    /// is never want of memory, and found by halves: so it takes a time that grows with the
    /// logarithm of the length.
    pub fn fault(&self, maps: &MapTable) -> Option<LoadFault>
        ensures none { IfNone result (IsAccepted self.now maps.now) }
        ensures fault { IfSome result (IsRefused self.now maps.now) }
        ensures known { IfSome result (λ fault. fault ≡ Memory → ⊥) }
    {
        let slot = first_missing(self.wanted.as_slice(), maps);
        if slot < self.wanted.len() {
            return Some(LoadFault::At {
                slot,
                fault: PieceFault::NoMap,
            });
        }
        self.fault
    }
}

/// The first slot that wants more of maps than they have, or how many slots there are.
fn first_missing(wanted: &[Lengths], maps: &MapTable) -> usize
    ensures within { result ≤ length wanted.now }
    ensures tables { AreMaps maps.now }
    ensures clear { (bytes : List ℕ) (fault : Option LoadFault) → AreDemands bytes wanted.now fault
        → AreClear bytes maps.now result }
    ensures missing { result < length wanted.now → (bytes : List ℕ) (fault : Option LoadFault)
        → AreDemands bytes wanted.now fault → IsFirstFault bytes maps.now result NoMap }
{
    let _few = maps.len();
    let mut from = 0;
    let mut to = wanted.len();
    while from < to {
        let middle = from + (to - from) / 2;
        if wanted[middle].are_met(maps) {
            from = middle + 1;
        } else {
            to = middle;
        }
    }
    from
}

/// Adds what the slots of words want, up to the first that has a fault with all maps. Answers that
/// fault.
fn push_wanted(
    alloc: Global,
    bytes: &[u8],
    wanted: &mut Vec<Lengths>,
) -> Result<Option<LoadFault>, AllocError>
    requires slots { AreSlots bytes.now }
    requires none { length wanted.old.items ≡ 0 }
    ensures { IfOk result (λ fault. AreDemands bytes.now wanted.new.items fault) }
{
    let starts = starts_of(alloc, bytes)?;
    let maps = MapTable::largest();
    let draft = Draft {
        bytes,
        starts: &starts,
        maps: &maps,
    };
    let mut lengths = Lengths::none();
    for slot in 0..starts.len() {
        lengths = match lengths_at(&draft, slot, lengths) {
            Ok(lengths) => lengths,
            Err(fault) => return Ok(Some(LoadFault::At { slot, fault })),
        };
        wanted.push(lengths)?;
    }
    Ok(None)
}

/// What the slots up to this one want, where those before it want these lengths; or its fault, which
/// it has with all maps.
fn lengths_at(draft: &Draft<'_>, slot: usize, before: Lengths) -> Result<Lengths, PieceFault>
    requires slots { AreSlots draft.now.bytes.now }
    requires flags { AreStarts draft.now.bytes.now draft.now.starts.now }
    requires within { slot < length draft.now.starts.now }
    requires known { (draft.now.maps.now ≡ largest_maps)
        × AreWanted draft.now.bytes.now slot before.bytes }
    ensures ok { IfOk result (λ next. AreWantedAt draft.now.bytes.now slot next.bytes) }
    ensures start { IfErr result (λ _. IsStartIn draft.now.bytes.now slot) }
    ensures fault { IfErr result (λ fault. (maps : List MapShape) → AreMaps maps
        → IsLeast piece_fault (HasFault draft.now.bytes.now maps slot) fault) }
{
    if !draft.starts[slot] {
        return Ok(before);
    }
    match piece(draft, slot) {
        Ok(insn) => Ok(before.with_insn(&insn)),
        Err(fault) => Err(fault),
    }
}
