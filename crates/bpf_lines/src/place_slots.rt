//! The slots of a place.
ghost use Rattle.std.specs.Prelude.{◌≡◌, IfOk, OnOk};
ghost use Rattle.bpf_lines.specs.PlaceSlots as spec;

use crate::place::is_line;
use crate::table_row::tells;
use counted_io::sides;
use std::alloc::{AllocError, Global};

/// Appends a slot, where each one counts or it is the first one.
fn push_slot(slots: &mut Vec<u8>, each: bool, slot: &[u8]) -> Result<(), AllocError>
    ensures { OnOk result (slots.new.items ≡ spec.with_slot each slots.old.items slot.now) }
{
    if slots.is_empty() {
        return slots.extend_from_slice(slot).map_err(|_| AllocError);
    }
    if !each {
        return Ok(());
    }
    slots.push(b',').map_err(|_| AllocError)?;
    slots.extend_from_slice(slot).map_err(|_| AllocError)
}

/// Appends the slot of a row, if that tells the place.
fn push_row(slots: &mut Vec<u8>, of_object: bool, row: &[u8], what: &[u8]) -> Result<(), AllocError>
    ensures { OnOk result (slots.new.items
        ≡ spec.with_row of_object what.now slots.old.items row.now) }
{
    let (slot, told) = sides(row, b' ');
    if tells(of_object, told, what) {
        push_slot(slots, is_line(what), slot)
    } else {
        Ok(())
    }
}

/// The slots of a place by the table of an object, or of a listing: numbers with commas between, and
/// no byte where no row tells it. That takes time in proportion to the table's length.
pub(crate) fn slots_told(
    alloc: Global,
    of_object: bool,
    table: &[u8],
    what: &[u8],
) -> Result<Vec<u8>, AllocError>
    ensures { IfOk result (λ slots. slots.items
        ≡ spec.slots_told of_object table.now what.now) }
{
    let mut slots = Vec::new(alloc);
    let mut rest = table;
    while !rest.is_empty() {
        let (row, others) = sides(rest, b'\n');
        push_row(&mut slots, of_object, row, what)?;
        rest = others;
    }
    Ok(slots)
}
