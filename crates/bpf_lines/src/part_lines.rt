//! What is told of the slots of a part of a program.
ghost use Rattle.std.specs.Prelude.{◌≡◌, ◌<◌, IfOk, IfErr, IfSome, length};
ghost use Rattle.bpf_link.specs.FieldRelocations.{ext_found};
ghost use Rattle.bpf_link.specs.MapTypes.{is_something};
ghost use Rattle.bpf_link.specs.Parts.{part_of};
ghost use Rattle.bpf_lines.specs.LineInfo.{strings_of};
ghost use Rattle.bpf_lines.specs.Parts.{ArePartLines, HasBadList, HasBlock, IsLinesFault};

use crate::functions::functions_of;
use crate::line_info::{block_of, lines_in, lines_of, strings_of};
use crate::names::name_of;
use bpf_link::{
    Bytes, LinkFault, Part, Plan, Side, found_named, is_something, types_bytes, types_in,
};
use std::alloc::Global;

/// What is told of the slots of a part: in marks of them, 0 for nothing.
#[derive(Drop)]
pub struct PartLines<'a> {
    /// The strings of `.BTF`.
    pub strings: Bytes<'a>,
    /// The part of `.BTF.ext` that lists lines.
    pub listed: Bytes<'a>,
    /// Where the block of the part's section stands there, if it has one.
    pub block: Option<usize>,
    /// The number of the symbol of the function that begins in each slot, and 1.
    pub functions: Vec<usize>,
    /// The number of the record that names each slot, and 1.
    pub lines: Vec<usize>,
}

/// The block of a section in a list of lines.
#[derive(Drop)]
struct Listed<'a> {
    part: Bytes<'a>,
    block: Option<usize>,
}

/// The block of a part's section.
fn listed_for<'a>(plan: &Plan<'a>, part: &Part<'_>) -> Result<Listed<'a>, LinkFault>
    ensures ok { IfOk result (λ it.
        HasBlock (is_something (ext_found plan.now)) plan.now part.now it.part it.block) }
    ensures inside { IfOk result (λ it. IfSome it.block (λ at. at < length it.part)) }
    ensures err { IfErr result (HasBadList plan.now) }
{
    let found = found_named(&plan.object, b".BTF.ext");
    if !is_something(found) {
        return Ok(Listed {
            part: Bytes { bytes: &[] },
            block: None,
        });
    }
    let part_listed = match lines_in(types_bytes(&plan.object, found)) {
        Ok(listed) => listed,
        Err(fault) => return Err(LinkFault::Types(fault)),
    };
    let strings = strings_of(types_in(&plan.object));
    match block_of(strings, part_listed, name_of(plan, part)) {
        Ok(block) => Ok(Listed {
            part: Bytes { bytes: part_listed },
            block,
        }),
        Err(fault) => Err(LinkFault::Types(fault)),
    }
}

/// What is told of the slots of a part.
pub fn part_lines<'a>(
    alloc: Global,
    plan: &Plan<'a>,
    side: Side,
) -> Result<PartLines<'a>, LinkFault>
    ensures ok { IfOk result (ArePartLines plan.now (part_of plan.now.parts side)) }
    ensures err { IfErr result (IsLinesFault plan.now) }
{
    let part = plan.parts.part(side);
    let listed = match listed_for(plan, part) {
        Ok(listed) => listed,
        Err(fault) => return Err(fault),
    };
    let functions = match functions_of(alloc, plan, part.section, part.len()) {
        Ok(marks) => marks,
        Err(fault) => return Err(fault),
    };
    match lines_of(alloc, listed.part.bytes, listed.block, part.len()) {
        Ok(lines) => Ok(PartLines {
            strings: Bytes {
                bytes: strings_of(types_in(&plan.object)),
            },
            listed: listed.part,
            block: listed.block,
            functions,
            lines,
        }),
        Err(fault) => Err(fault),
    }
}
