//! Two runs, compared step by step.
ghost use Rattle.std.specs.Prelude.{◌≡◌, ◌==◌, ◌&&◌};
ghost use Rattle.bpf_entries.specs.Status.{has_ended};
ghost use Rattle.bpf_trace.specs.Runs.{steps_of};
ghost use Rattle.bpf_diff.specs.Differences.{alike_for, first_otherwise, together_for};
ghost use Rattle.bpf_diff.specs.Ends.{same_end as same_end_of};
ghost use Rattle.bpf_diff.specs.Following.{Along};
ghost use Rattle.bpf_diff.specs.Alike.{same_slot};
ghost use Rattle.bpf_diff.specs.Values.{Finds, by_steps, pair_of, values_of_steps};
ghost use Rattle.counted_io.specs.Writing.{WritesAfter};

use crate::end::same_end;
use crate::follow::{go_alike, go_together};
use crate::lines::{put_ends, put_otherwise};
use crate::parting::put_parting;
use crate::texts::BothTexts;
use crate::values::{Values, values_written};
use bpf_machine::Cpu;
use counted_io::{Counted, WriteFault};
use std::io::Write;

/// Two runs that were compared.
#[derive(Drop)]
pub struct Compared {
    /// Whether it could be told.
    pub written: Result<(), WriteFault>,
    /// They are the same to their end, or leave the same.
    pub is_same: bool,
    /// The values in which they differ, of the first and of the second, if it is values: those that
    /// the first step wrote that wrote otherwise, or those at the first place at which they end
    /// otherwise.
    pub values: Option<(Values, Values)>,
}

/// Steps of two runs that were taken together.
#[derive(Drop)]
struct Begun {
    written: Result<(), WriteFault>,
    steps: u64,
    /// No step that stood at one slot wrote otherwise.
    is_alike: bool,
    /// What the step wrote in each that did.
    values: Option<(Values, Values)>,
}

/// Runs two machines in step, each to its end or to a limit of steps, and writes the first step that
/// wrote otherwise in one than in the other, where they part, and how they end; or that they are the
/// same. The lines of steps end with what is told of their slots.
///
/// Nothing is kept of the steps, and none is taken twice. A write that fails doesn't end the runs.
pub fn put_diff<W: Write>(
    writer: &mut Counted<W>,
    so_far: Result<(), WriteFault>,
    texts: BothTexts<'_>,
    first: &mut Cpu,
    second: &mut Cpu,
    limit: u64,
) -> Compared
    ensures text { WritesAfter W.contents writer.old so_far writer.new result.written
        (by_steps texts.entry limit first.old second.old).text }
    ensures finds { Finds result (by_steps texts.entry limit first.old second.old) }
    ensures programs { (first.new.program ≡ first.old.program) × (second.new.program ≡ second.old.program) }
{
    let begun = put_begun(writer, so_far, texts, first, second, limit);
    let more = go_together(first, second, limit - begun.steps);
    let steps = begun.steps + more;
    let left = limit - steps;
    let parting = put_parting(writer, begun.written, texts, first, second, steps, left);
    let same = is_same(begun.is_alike, parting.is_none, first, second);
    let written = put_ends(writer, parting.written, same, steps, limit, first, second);
    Compared {
        written,
        is_same: is_over(same, first),
        values: begun.values,
    }
}

/// Whether two runs are the same, by their steps and by where they stand in the end.
fn is_same(is_alike: bool, is_none: bool, first: &Cpu, second: &Cpu) -> bool
    ensures { result ≡ (is_alike && is_none) && same_end_of first.now second.now }
{
    (is_alike && is_none) && same_end(first, second)
}

/// Whether they are, and this one has ended.
fn is_over(same: bool, cpu: &Cpu) -> bool
    ensures { result ≡ same && has_ended cpu.now.status }
{
    same && cpu.status().has_ended()
}

/// Takes steps of both as long as they do alike, and the one behind them, if both take it from one
/// slot, whose lines are written.
fn put_begun<W: Write>(
    writer: &mut Counted<W>,
    so_far: Result<(), WriteFault>,
    texts: BothTexts<'_>,
    first: &mut Cpu,
    second: &mut Cpu,
    limit: u64,
) -> Begun
    ensures text { WritesAfter W.contents writer.old so_far writer.new result.written
        (first_otherwise texts.entry (steps_of limit first.old) (steps_of limit second.old)) }
    ensures along { Along same_slot limit first.old second.old first.new second.new result.steps }
    ensures alike { result.is_alike ≡ (alike_for (steps_of limit first.old) (steps_of limit second.old)
        == together_for (steps_of limit first.old) (steps_of limit second.old)) }
    ensures values { pair_of result.values ≡ values_of_steps (steps_of limit first.old) (steps_of limit second.old) }
{
    let agreed = go_alike(first, second, limit);
    let steps = agreed.steps;
    let parted = agreed.parted;
    match parted {
        None => Begun {
            written: so_far,
            steps,
            is_alike: true,
            values: None,
        },
        Some(parted) => {
            let number = steps + 1;
            let written = put_otherwise(writer, so_far, texts, number, &parted, first, second);
            let one = values_written(first, &parted.first, number);
            let another = values_written(second, &parted.second, number);
            Begun {
                written,
                steps: number,
                is_alike: false,
                values: Some((one, another)),
            }
        }
    }
}
