//! Programs that the checker accepted.
ghost use Rattle.std.specs.Prelude.{◌≡◌, ◌↔◌, IsTrue, OnOk, IfOk, IfErr, IfSome, IfNone, List, length};
ghost use Rattle.bpf_isa.specs.Checker.{AreSlots, IsAccepted, IsRefused};
ghost use Rattle.bpf_isa.specs.declared.fault.LoadFault.TheVariants.{Memory};
ghost use Rattle.bpf_isa.specs.declared.maps.MapShape.{MapShape};

use crate::checker::{Draft, insns_of, starts_of};
use crate::fault::LoadFault;
use crate::instruction::Insn;
use crate::maps::MapTable;
use std::alloc::Global;
use std::marker::Model;

/// The most slots of a program.
pub const MOST_SLOTS: usize = 65_535;

/// A checked program: its bytes, the instruction of each slot, and its maps.
#[derive(Drop)]
pub struct Program {
    bytes: Vec<u8>,
    insns: Vec<Option<Insn>>,
    maps: MapTable,
}

impl Model for Program {
    ghost use Rattle.bpf_isa.specs.Programs.{Checked, IsProgram};

    ghost Value = { Checked };

    ghost view = { λ p. record { bytes = p.bytes.items; insns = p.insns.items; maps = p.maps } };

    ghost invariant = { λ p. IsProgram (record { bytes = p.bytes.items; insns = p.insns.items; maps = p.maps }) };
}

impl Program {
    ghost use Rattle.bpf_isa.specs.Programs.{insn_at, IsStart, IsProgram};

    /// How many slots it has, 1 to 65,535.
    pub fn len(&self) -> usize
        ensures { result ≡ length self.now.insns }
    {
        self.insns.len()
    }

    /// Whether an instruction starts at this slot.
    pub fn is_start(&self, slot: usize) -> bool
        ensures { IsTrue result ↔ IsStart self.now slot }
    {
        self.insn_at(slot).is_some()
    }

    /// The instruction that starts at this slot, None where none does.
    pub fn insn_at(&self, slot: usize) -> Option<Insn>
        ensures { result ≡ insn_at self.now slot }
    {
        self.insns.get(slot).copied().unwrap_or(None)
    }

    /// Its bytes, eight a slot.
    pub fn bytes(&self) -> &[u8]
        ensures { result.now ≡ self.now.bytes }
    {
        self.bytes.as_slice()
    }

    /// Its map table.
    pub fn maps(&self) -> &MapTable
        ensures { result.now ≡ self.now.maps }
    {
        &self.maps
    }

    /// Gives it other maps, with which the checker accepts its words. Takes no time in its length.
    pub fn set_maps(&mut self, maps: MapTable)
        requires { IsAccepted self.old.bytes maps }
        ensures { self.new ≡ record self.old { maps = maps } }
    {
        let _few = maps.len();
        self.maps = maps;
    }

    /// Brings what holds of every checked program into a proof.
    pub fn invariant(&self)
        ensures { IsProgram self.now }
    {
        let _bytes = &self.bytes;
    }
}

/// The fault of a length that no program has.
pub fn length_fault(bytes: &[u8]) -> Option<LoadFault>
    ensures found { IfSome result (λ fault. (maps : List MapShape) →
        IsRefused bytes.now maps fault) }
    ensures known { IfSome result (λ fault. fault ≡ Memory → ⊥) }
    ensures none { IfNone result (AreSlots bytes.now) }
{
    if bytes.is_empty() {
        return Some(LoadFault::Empty);
    }
    if bytes.len() > 8 * MOST_SLOTS {
        return Some(LoadFault::TooLong);
    }
    if bytes.len() % 8 != 0 {
        return Some(LoadFault::Ragged);
    }
    None
}

/// The program of the bytes with a map table.
///
/// A piece's fault is that of the lowest slot, and there the one with the least number. Takes time
/// in proportion to the length.
pub fn check(alloc: Global, bytes: &[u8], maps: &MapTable) -> Result<Program, LoadFault>
    ensures ok { OnOk result (IsAccepted bytes.now maps.now) }
    ensures value { IfOk result (λ program.
        (program.bytes ≡ bytes.now) × (program.maps ≡ maps.now)) }
    ensures fault { IfErr result (IsRefused bytes.now maps.now) }
{
    if let Some(fault) = length_fault(bytes) {
        return Err(fault);
    }
    let starts = match starts_of(alloc, bytes) {
        Ok(starts) => starts,
        Err(_) => return Err(LoadFault::Memory),
    };
    let draft = Draft {
        bytes,
        starts: &starts,
        maps,
    };
    let insns = insns_of(alloc, &draft)?;
    match Vec::from_slice(alloc, bytes) {
        Ok(bytes) => Ok(Program {
            bytes,
            insns,
            maps: maps.copied(),
        }),
        Err(_) => Err(LoadFault::Memory),
    }
}
