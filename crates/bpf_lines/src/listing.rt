//! The slots of a label.
ghost use Rattle.std.specs.Prelude.{◌≡◌, IfErr, IfOk};
ghost use Rattle.bpf_text.specs.Listing.{IsFaultOf};
ghost use Rattle.bpf_lines.specs.Lookups.{AreListingSlots, listed_slots};

use crate::place::asks_value;
use crate::place_slots::slots_told;
use bpf_text::{AsmFault, line_table};
use std::alloc::{AllocError, Global};

/// What is asked of the slots of a table by a text.
pub(crate) fn listed_slots(alloc: Global, table: &[u8], what: &[u8]) -> Result<Vec<u8>, AllocError>
    ensures { IfOk result (λ slots. slots.items ≡ listed_slots table.now what.now) }
{
    if asks_value(what) {
        Vec::from_slice(alloc, what)
    } else {
        slots_told(alloc, false, table, what)
    }
}

/// The slot of a label of a listing, in decimal: no byte where no instruction has it. What asks about
/// a value is left as it is.
pub fn listing_slots(alloc: Global, listing: &[u8], what: &[u8]) -> Result<Vec<u8>, AsmFault>
    ensures ok { IfOk result (λ slots. AreListingSlots listing.now what.now slots.items) }
    ensures err { IfErr result (IsFaultOf listing.now) }
{
    let table = match line_table(alloc, listing) {
        Ok(table) => table,
        Err(fault) => return Err(fault),
    };
    match listed_slots(alloc, table.as_slice(), what) {
        Ok(slots) => Ok(slots),
        Err(AllocError) => Err(AsmFault::Memory),
    }
}
