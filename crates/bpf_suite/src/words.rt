//! The words of a test's program.
ghost use Rattle.std.specs.Prelude.{◌≡◌, IfOk, true};
ghost use Rattle.bpf_suite.specs.Outcomes.{Reads};

use bpf_text::{AsmFault, assemble};
use std::alloc::{AllocError, Global};
use std::marker::Model;

/// Words of a program. Contracts see their bytes.
#[derive(Drop)]
pub struct Words {
    bytes: Vec<u8>,
}

impl Model for Words {
    ghost use Rattle.std.specs.Prelude.{ℕ, List};

    ghost Value = { List ℕ };

    ghost view = { λ w. w.bytes.items };
}

impl Words {
    /// Their bytes.
    pub fn as_slice(&self) -> &[u8]
        ensures { result.now ≡ self.now }
    {
        self.bytes.as_slice()
    }
}

/// The words of a program, or the fault of its listing. They don't depend on its maps.
pub fn words_of(
    alloc: Global,
    is_listing: bool,
    program: &[u8],
) -> Result<Result<Words, AsmFault>, AllocError>
    ensures { IfOk result (Reads is_listing program.now) }
{
    if is_listing {
        return Ok(assembled(alloc, program));
    }
    match Vec::from_slice(alloc, program) {
        Ok(bytes) => Ok(Ok(Words { bytes })),
        Err(_) => Err(AllocError),
    }
}

/// The words of a listing, or its fault.
fn assembled(alloc: Global, listing: &[u8]) -> Result<Words, AsmFault>
    ensures { Reads true listing.now result }
{
    match assemble(alloc, listing) {
        Ok(bytes) => Ok(Words { bytes }),
        Err(fault) => Err(fault),
    }
}
