//! Places: what holds a value in a machine.
ghost use Rattle.std.specs.Prelude.{◌≡◌};

/// A place of a machine that holds a value. r10 is none: it follows from the depth of calls.
#[derive(Clone, Copy)]
pub enum Place {
    /// A register. r6 to r9 are those of the function at a depth of calls; r0 to r5 all functions
    /// share, and their depth is 0.
    Register { depth: usize, number: u8 },
    /// A traced word, 0 the first.
    Word { index: usize },
    /// The byte of memory at an address.
    Byte { address: u64 },
}

/// What one operand of an instruction reads or writes: a register, a traced word, or `len` bytes
/// from an address on.
#[derive(Clone, Copy)]
pub enum Part {
    Register { depth: usize, number: u8 },
    Word { index: usize },
    Bytes { address: u64, len: usize },
}

impl Default for Part {
    ghost use Rattle.bpf_origin.specs.declared.place.Part.{Part};

    ghost is_default = { λ part. part ≡ Part.Register 0 0 };

    /// r0, which fills the unused room of an array.
    fn default() -> Part {
        Part::Register {
            depth: 0,
            number: 0,
        }
    }
}
