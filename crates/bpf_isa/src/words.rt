//! The bytes of a word.
ghost use Rattle.std.specs.Prelude.{◌≡◌, ◌<◌, ℕ};
ghost use Rattle.bpf_isa.specs.Scaffolding.Codec.{AreBytesOf};

use crate::fields::{Fields, to_bytes};
use crate::opcode::WIDE_OPCODE;
use std::marker::Model;

/// The bytes of a word: 8, or 16 of a wide instruction.
#[derive(Drop)]
pub struct Words {
    bytes: [u8; 16],
    is_wide: bool,
}

impl Model for Words {
    ghost use Rattle.std.specs.Prelude.{List, ℕ, take, if◌then◌else◌};

    ghost Value = { List ℕ };

    ghost view = { λ w. take (if w.is_wide then 16 else 8) w.bytes };
}

impl Words {
    ghost use Rattle.std.specs.Prelude.{◌⊎◌};
    ghost use Rattle.bpf_isa.specs.WideLoads.{wide_opcode};

    /// The bytes of the fields.
    pub(crate) fn of(fields: Fields) -> Words
        requires registers { (fields.dst < 16) × (fields.src < 16) }
        requires narrow { (fields.opcode ≡ wide_opcode)
            ⊎ ((fields.next ≡ 0) × (fields.reserved ≡ 0)) }
        ensures { AreBytesOf fields result }
    {
        Words {
            bytes: to_bytes(fields),
            is_wide: fields.opcode == WIDE_OPCODE,
        }
    }

    /// The word's bytes: 8, or 16 of a wide instruction.
    pub fn as_slice(&self) -> &[u8]
        ensures { result.now ≡ self.now }
    {
        if self.is_wide {
            &self.bytes
        } else {
            &self.bytes[..8]
        }
    }
}
