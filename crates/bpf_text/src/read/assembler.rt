//! The assembler.
ghost use Rattle.std.specs.Prelude.{IfOk, IfErr};
ghost use Rattle.bpf_text.specs.Listing.{IsListing, IsFaultOf};

use crate::fault::AsmFault;
use crate::read::first_round::first_round;
use crate::read::second_round::second_round;
use std::alloc::Global;

/// The bytes of a listing, or its first fault: that of the first line with a fault in the first
/// round, else that of the first line with a fault in the second. The program isn't checked.
pub fn assemble(alloc: Global, text: &[u8]) -> Result<Vec<u8>, AsmFault>
    ensures ok { IfOk result (λ bytes. IsListing text.now bytes.items) }
    ensures err { IfErr result (IsFaultOf text.now) }
{
    match first_round(alloc, text) {
        Ok(outline) => second_round(alloc, &outline),
        Err(fault) => Err(fault),
    }
}
