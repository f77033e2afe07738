//! Where the functions of a section begin.
ghost use Rattle.std.specs.Prelude.{◌≡◌, ◌<◌, ◌+◌, IfOk, IfErr, length};
ghost use Rattle.bpf_link.specs.declared.fault.LinkFault.TheVariants.{Memory};
ghost use Rattle.bpf_lines.specs.Functions.{begins_in, function_at};
ghost use Rattle.bpf_lines.specs.Marks.{AreMarks, last_named};

use crate::marks::{no_marks, with_mark};
use bpf_link::{LinkFault, Plan, is_function};
use std::alloc::Global;

/// Marks with that of a symbol, if it is a function of a section.
fn with_function(plan: &Plan<'_>, section: usize, i: usize, marks: Vec<usize>) -> Vec<usize>
    requires index { i < length plan.now.symbols }
    requires small { i < 18446744073709551615 }
    ensures marked { AreMarks (last_named (begins_in plan.now section) i) marks.items
        → AreMarks (last_named (begins_in plan.now section) (i + 1)) result.items }
    ensures size { length result.items ≡ length marks.items }
{
    let symbol = plan.symbols.at(i);
    if !is_function(section, &symbol) {
        return marks;
    }
    with_mark(marks, symbol.value, i)
}

/// The functions that begin in so many slots of a section.
pub fn functions_of(
    alloc: Global,
    plan: &Plan<'_>,
    section: usize,
    count: usize,
) -> Result<Vec<usize>, LinkFault>
    ensures ok { IfOk result (λ marks. AreMarks (function_at plan.now section) marks.items) }
    ensures size { IfOk result (λ marks. length marks.items ≡ count) }
    ensures err { IfErr result (λ fault. fault ≡ Memory) }
{
    let mut marks = match no_marks(alloc, count) {
        Ok(marks) => marks,
        Err(fault) => return Err(fault),
    };
    for i in 0..plan.symbols.len() {
        marks = with_function(plan, section, i, marks);
    }
    Ok(marks)
}
