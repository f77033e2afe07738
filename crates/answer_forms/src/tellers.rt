//! Which line tells a place, among those behind another.
ghost use Rattle.std.specs.Prelude.{◌≡◌, ℕ, OnOk, Some, if◌then◌else◌};
ghost use Rattle.std.specs.BTreeMap.{get};
ghost use Rattle.std.specs.Ordering.{nat_cmp};
ghost use Rattle.answer_forms.specs.Lines.{tells};
ghost use Rattle.answer_forms.specs.Parts.{places};
ghost use Rattle.answer_forms.specs.Tellers.{told_or};
ghost use Rattle.answer_forms.specs.Cuts.{pieces};

use crate::Pieces;
use crate::graph_line::body;
use crate::graph_part::part_in;
use counted_io::trim_start;
use std::alloc::AllocError;
use std::collections::BTreeMap;

/// Line k stands before those of a map, so what it tells is its own.
#[tactic(auto, unfolding(crate::specs::Lines::tells))]
pub fn tell(tellers: &mut BTreeMap<u64, u64>, k: u64, line: &[u8]) -> Result<(), AllocError>
    ensures { OnOk result ((p : ℕ) → get nat_cmp tellers.new p
        ≡ (if tells line.now p then Some k else get nat_cmp tellers.old p)) }
{
    let mut pieces = Pieces::of(body(line), b';');
    'pieces: while let Some(piece) = pieces.next_piece() {
        match part_in(trim_start(piece)) {
            Some(part) => tell_places(tellers, k, part.first, part.told)?,
            None => return Ok(()),
        }
    }
    Ok(())
}

/// So are places from one on.
fn tell_places(
    tellers: &mut BTreeMap<u64, u64>,
    k: u64,
    first: u64,
    count: u16,
) -> Result<(), AllocError>
    ensures { OnOk result ((p : ℕ) → get nat_cmp tellers.new p
        ≡ told_or (places first count) k (get nat_cmp tellers.old p) p) }
{
    let mut place = first;
    for _ in 0..count {
        tellers.insert(place, k)?;
        place = place.wrapping_add(1);
    }
    Ok(())
}
