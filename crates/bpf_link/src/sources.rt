//! Where the slots of a program come from.
ghost use Rattle.std.specs.Prelude.{◌≡◌};
ghost use Rattle.bpf_link.specs.Sources.{source_at, source_of};

use crate::parts::Side;
use crate::plan::{Plan, part_place};

/// Where a slot of a program comes from.
#[derive(Clone, Copy)]
pub struct Source {
    /// The slot of its section.
    pub slot: usize,
    /// Where the name of the section stands in the file; the file's end where it has none.
    pub at: usize,
}

/// Where a slot of the code comes from: one of the section, or of `.text` behind it.
fn source_at(plan: &Plan<'_>, slot: usize) -> Option<Source>
    ensures { result ≡ source_at plan.now slot }
{
    let code = plan.parts.part(Side::Code);
    let count = code.len();
    if slot < count {
        let at = part_place(plan, code);
        return Some(Source { slot, at });
    }
    let text = plan.parts.part(Side::Text);
    if slot - count >= text.len() {
        return None;
    }
    Some(Source {
        slot: slot - count,
        at: part_place(plan, text),
    })
}

/// Where a slot of the program comes from; None of the jump before the code, and of the setup.
pub fn source_of(plan: &Plan<'_>, words: &[u8], slot: usize) -> Option<Source>
    ensures { result ≡ source_of plan.now words.now slot }
{
    if words.len() == 8 * plan.parts.len() {
        return source_at(plan, slot);
    }
    if slot == 0 {
        return None;
    }
    source_at(plan, slot - 1)
}
