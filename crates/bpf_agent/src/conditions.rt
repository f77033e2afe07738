//! The conditions of breakpoints.
ghost use Rattle.std.specs.Prelude.{◌≡◌, ◌≤◌, [], length, take};
ghost use Rattle.bpf_agent.specs.Conditions.{added, code_at, is_false, longest_code, with_code, without};

use crate::expression::value;
use arrayvec::ArrayVec;
use bpf_machine::Cpu;
use std::marker::Model;

/// How many conditions are kept.
const MOST_CONDITIONS: usize = 64;

/// How many bytes one has at most.
const LONGEST_CODE: usize = 255;

/// A slot, and the bytecode of its condition: the first `len` of the bytes.
#[derive(Clone, Copy, Default)]
struct Row {
    slot: u64,
    len: u8,
    bytes: [u8; LONGEST_CODE],
}

/// The conditions of breakpoints by their slots: at most 64, each of at most 255 bytes of bytecode.
#[derive(Drop)]
pub struct Conditions {
    rows: ArrayVec<Row, MOST_CONDITIONS>,
}

impl Model for Conditions {
    ghost use Rattle.std.specs.Prelude.{map, take};
    ghost use Rattle.bpf_agent.specs.Conditions.{ConditionList};

    ghost Value = { ConditionList };

    ghost view = { λ c. map (λ row. (row.slot, take row.len row.bytes)) c.rows.items };
}

impl Conditions {
    /// None.
    pub fn new() -> Conditions
        ensures { result ≡ [] }
    {
        Conditions {
            rows: ArrayVec::new(),
        }
    }

    /// Forgets all.
    pub fn clear(&mut self)
        ensures { self.new ≡ [] }
    {
        self.rows.clear();
    }

    /// Forgets that of a slot.
    pub fn remove(&mut self, slot: u64)
        ensures { self.new ≡ without slot self.old }
    {
        self.rows.retain(|row| row.slot != slot);
    }

    /// Sets the bytecode of a slot in place of what it had. What has more than 255 bytes, or is one
    /// more than 64, isn't kept.
    pub fn set(&mut self, slot: u64, code: &[u8])
        ensures { self.new ≡ with_code slot code.now self.old }
    {
        self.remove(slot);
        self.add(slot, code);
    }

    fn add(&mut self, slot: u64, code: &[u8])
        ensures { self.new ≡ added slot code.now self.old }
    {
        if code.len() > LONGEST_CODE {
            return;
        }
        if !self.rows.is_full() {
            self.rows.push(row_of(slot, code));
        }
    }

    /// The bytecode of a slot, empty where there is none.
    fn code_at(&self, slot: u64) -> &[u8]
        ensures { result.now ≡ code_at slot self.now }
    {
        for row in self.rows.as_slice() {
            if row.slot == slot {
                return &row.bytes[..usize::from(row.len)];
            }
        }
        &[]
    }

    /// Whether the condition of the slot where the machine stands doesn't hold: its bytecode has a
    /// value, and that is 0.
    pub fn is_false(&self, cpu: &Cpu) -> bool
        ensures { result ≡ is_false self.now cpu.now }
    {
        match value(self.code_at(u64::from(cpu.pc())), cpu) {
            Some(v) => v == 0,
            None => false,
        }
    }
}

/// A row.
fn row_of(slot: u64, code: &[u8]) -> Row
    requires { length code.now ≤ longest_code }
    ensures slot { result.slot ≡ slot }
    ensures code { take result.len result.bytes ≡ code.now }
{
    let mut bytes = [0; LONGEST_CODE];
    bytes[..code.len()].copy_from_slice(code);
    Row {
        slot,
        len: code.len() as u8,
        bytes,
    }
}
