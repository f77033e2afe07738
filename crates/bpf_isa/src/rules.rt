//! What the checker asks of an instruction by itself.
ghost use Rattle.std.specs.Prelude.{◌≡◌, ◌≤◌, ◌↔◌, IsTrue, List, Some, ℕ};
ghost use Rattle.bpf_isa.specs.Checker.{HelperExists, MapExists, Lands, most_slots};
ghost use Rattle.bpf_isa.specs.Scaffolding.Checking.{AreStarts, SparesTen};

use crate::helpers::Helper;
use crate::instruction::{AtomicOp, Insn, WideValue};
use crate::maps::MapTable;
use crate::register::Reg;

impl Insn {
    ghost use Rattle.bpf_isa.specs.Insns.{FallsThrough, target_of, written_of};

    /// Whether the instruction after it may be the next to run.
    pub fn falls_through(&self) -> bool
        ensures { IsTrue result ↔ FallsThrough self.now }
    {
        !matches!(self, Insn::Jump { .. } | Insn::JumpLong { .. } | Insn::Exit)
    }

    /// The slot that a jump or local call at a slot names, as a whole number.
    pub fn target(&self, slot: usize) -> Option<i64>
        requires { slot ≤ most_slots }
        ensures { result ≡ target_of slot self.now }
    {
        let next = slot as i64 + 1;
        match self {
            Insn::JumpIf { offset, .. } | Insn::Jump { offset } => Some(next + i64::from(*offset)),
            Insn::JumpLong { distance } | Insn::CallLocal { distance } => {
                Some(next + i64::from(*distance))
            }
            _ => None,
        }
    }

    /// The register that it replaces itself; none for a plain atomic operation, a store, a jump, a
    /// local call and `exit`.
    pub fn destination(&self) -> Option<Reg>
        ensures { result ≡ written_of self.now }
    {
        match self {
            Insn::Binary { dst, .. }
            | Insn::Negate { dst, .. }
            | Insn::SignExtend { dst, .. }
            | Insn::SwapBytes { dst, .. }
            | Insn::Load { dst, .. }
            | Insn::LoadWide { dst, .. } => Some(*dst),
            Insn::Atomic { op, src, .. } => op.replaced(*src),
            Insn::CallHelper { .. } => Some(Reg::of(0)),
            _ => None,
        }
    }

    /// Whether it replaces r10.
    pub(crate) fn writes_ten(&self) -> bool
        ensures ten { IsTrue result → written_of self.now ≡ Some 10 }
        ensures other { (IsTrue result → ⊥) → SparesTen self.now }
    {
        match self.destination() {
            Some(register) => register.number() == 10,
            None => false,
        }
    }

    /// Whether a helper that it calls exists.
    pub(crate) fn helper_exists(&self) -> bool
        ensures { IsTrue result ↔ HelperExists self.now }
    {
        match self {
            Insn::CallHelper { helper } => Helper::of(*helper).is_some(),
            _ => true,
        }
    }

    /// Whether a map that it names exists, and has the byte that it names.
    pub(crate) fn map_exists(&self, maps: &MapTable) -> bool
        ensures { IsTrue result ↔ MapExists maps.now self.now }
    {
        let Insn::LoadWide { value, .. } = *self else {
            return true;
        };
        match value {
            WideValue::Number(_) => true,
            WideValue::Map(map) => (map as usize) < maps.len(),
            WideValue::MapValue { map, offset } => match maps.shape(map as usize) {
                Some(shape) => {
                    u64::from(offset) < u64::from(shape.value_size) * u64::from(shape.entries)
                }
                None => false,
            },
        }
    }
}

impl AtomicOp {
    ghost use Rattle.bpf_isa.specs.Insns.{replaced_by};

    /// The register that it replaces by what it fetched.
    pub(crate) fn replaced(self, src: Reg) -> Option<Reg>
        ensures { result ≡ replaced_by self src }
    {
        match self {
            AtomicOp::Add | AtomicOp::Or | AtomicOp::And | AtomicOp::Xor => None,
            AtomicOp::CompareExchange => Some(Reg::of(0)),
            _ => Some(src),
        }
    }
}

/// Whether what a jump or local call at a slot names is a start.
pub fn lands(insn: &Insn, slot: usize, starts: &[bool]) -> bool
    requires { slot ≤ most_slots }
    ensures { (bytes : List ℕ) → AreStarts bytes starts.now
        → (IsTrue result ↔ Lands bytes slot insn.now) }
{
    match insn.target(slot) {
        Some(target) => match usize::try_from(target) {
            Ok(target) => starts.get(target).copied().unwrap_or(false),
            Err(_) => false,
        },
        None => true,
    }
}
