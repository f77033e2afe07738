//! Marks of slots: what is said of each.
ghost use Rattle.std.specs.Prelude.{◌≡◌, ◌<◌, ◌+◌, ◌==◌, ◌*◌, ℕ, Bool, IfOk, IfErr, length};
ghost use Rattle.bpf_link.specs.declared.fault.LinkFault.TheVariants.{Memory};
ghost use Rattle.bpf_lines.specs.Marks.{AreMarks, last_named};

use bpf_link::LinkFault;
use std::alloc::Global;

/// So many slots without a mark.
pub fn no_marks(alloc: Global, count: usize) -> Result<Vec<usize>, LinkFault>
    ensures ok { IfOk result (λ marks. (names : ℕ → ℕ → Bool) → AreMarks (last_named names 0) marks.items) }
    ensures size { IfOk result (λ marks. length marks.items ≡ count) }
    ensures err { IfErr result (λ fault. fault ≡ Memory) }
{
    match vec![in alloc; 0; count] {
        Ok(marks) => Ok(marks),
        Err(_) => Err(LinkFault::Memory),
    }
}

/// Marks with one more number, of the slot that stands at a place in a section.
pub fn with_mark(marks: Vec<usize>, at: u64, number: usize) -> Vec<usize>
    requires { number < 18446744073709551615 }
    ensures same { (names : ℕ → ℕ → Bool) → ((slot : ℕ) → names slot number ≡ (at == 8 * slot))
        → AreMarks (last_named names number) marks.items → AreMarks (last_named names (number + 1)) result.items }
    ensures size { length result.items ≡ length marks.items }
{
    let slot = at / 8;
    let mut marks = marks;
    if at % 8 != 0 || slot >= marks.len() as u64 {
        return marks;
    }
    marks[slot as usize] = number + 1;
    marks
}
