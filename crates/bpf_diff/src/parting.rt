//! Where two runs part: the step at which one stands elsewhere than the other, or is over.
ghost use Rattle.std.specs.Prelude.{◌≡◌, ◌<◌, ◌+◌, ◌^◌, ◌==◌, ◌&&◌, ℕ, List, length, not};
ghost use Rattle.bpf_steps.specs.State.{State};
ghost use Rattle.bpf_steps.specs.Runs.{Advances};
ghost use Rattle.bpf_trace.specs.Runs.{steps_of};
ghost use Rattle.bpf_diff.specs.Differences.{parting, parting_heading, side};
ghost use Rattle.counted_io.specs.Writing.{WritesAfter};

use crate::follow::take_step;
use crate::lines::{put_heading, put_side};
use crate::texts::BothTexts;
use bpf_machine::Cpu;
use bpfdb_script::SlotTexts;
use counted_io::{Counted, WriteFault};
use std::io::Write;

/// What is told of where two runs part.
#[derive(Clone, Copy)]
pub struct Parting {
    pub written: Result<(), WriteFault>,
    /// Neither takes one more step.
    pub is_none: bool,
}

/// Writes where two runs part, which stand behind so many steps: the next one of each, if it takes
/// one. Both run to their end, or to the limit.
pub fn put_parting<W: Write>(
    writer: &mut Counted<W>,
    so_far: Result<(), WriteFault>,
    texts: BothTexts<'_>,
    first: &mut Cpu,
    second: &mut Cpu,
    steps: u64,
    left: u64,
) -> Parting
    requires { steps + left < 2 ^ 64 }
    ensures text { WritesAfter W.contents writer.old so_far writer.new result.written
        (parting texts.entry (steps + 1) (steps_of left first.old) (steps_of left second.old)) }
    ensures ends { (c : ℕ) × (d : ℕ) × Advances left first.old first.new c × Advances left second.old second.new d }
    ensures none { result.is_none ≡ (length (steps_of left first.old) == 0)
        && (length (steps_of left second.old) == 0) }
{
    let one = goes_on(first, left);
    let other = goes_on(second, left);
    if left == 0 {
        return Parting {
            written: so_far,
            is_none: true,
        };
    }
    let number = steps + 1;
    let headed = put_parting_heading(writer, so_far, number, one, other);
    let half = put_rest(writer, headed, b"< ", texts.first, number, first, left);
    Parting {
        written: put_rest(writer, half, b"> ", texts.second, number, second, left),
        is_none: !one && !other,
    }
}

/// Whether a run takes one more step, of so many that are left.
fn goes_on(cpu: &Cpu, left: u64) -> bool
    ensures { result ≡ not (length (steps_of left cpu.now) == 0) }
{
    left > 0 && !cpu.status().has_ended()
}

/// Writes what happened at the step that one run takes, or both.
fn put_parting_heading<W: Write>(
    writer: &mut Counted<W>,
    so_far: Result<(), WriteFault>,
    number: u64,
    one: bool,
    other: bool,
) -> Result<(), WriteFault>
    ensures { (xs ys : List State) → one ≡ not (length xs == 0) → other ≡ not (length ys == 0) →
        WritesAfter W.contents writer.old so_far writer.new result (parting_heading number xs ys) }
{
    match (one, other) {
        (false, false) => so_far,
        (true, true) => put_heading(writer, so_far, number, b" went elsewhere\n"),
        _ => put_heading(writer, so_far, number, b" is in one run alone\n"),
    }
}

/// Writes the line of the next step of a run, if it takes one, and runs to its end or to the limit.
pub fn put_rest<W: Write>(
    writer: &mut Counted<W>,
    so_far: Result<(), WriteFault>,
    mark: &[u8],
    texts: SlotTexts<'_>,
    number: u64,
    cpu: &mut Cpu,
    left: u64,
) -> Result<(), WriteFault>
    ensures text { WritesAfter W.contents writer.old so_far writer.new result
        (side mark.now texts.entry number (steps_of left cpu.old)) }
    ensures end { (c : ℕ) × Advances left cpu.old cpu.new c }
{
    if !goes_on(cpu, left) {
        return so_far;
    }
    let taken = take_step(cpu);
    let told = put_side(writer, so_far, mark, texts, number, &taken, cpu);
    let _rest = cpu.run(left - 1);
    told
}
