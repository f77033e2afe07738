//! Sections and their names.
ghost use Rattle.std.specs.Prelude.{◌≡◌};
ghost use Rattle.bpf_lines.specs.Parts.{name_of};

use bpf_link::{Part, Plan, name_from, part_place};

/// The name of a part's section, if it has at most 255 bytes.
pub fn name_of<'a>(plan: &Plan<'a>, part: &Part<'_>) -> &'a [u8]
    ensures { result.now ≡ name_of plan.now part.now }
{
    let bytes = plan.object.bytes();
    let name = name_from(bytes, part_place(plan, part));
    if name.len() > 255 {
        return name_from(bytes, bytes.len());
    }
    name
}
