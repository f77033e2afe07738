//! The lines of two runs that are compared.
ghost use Rattle.std.specs.Prelude.{◌++◌, ℕ, List, codes, true};
ghost use Rattle.bpf_isa.specs.Programs.{IsStart};
ghost use Rattle.bpf_steps.specs.State.{State};
ghost use Rattle.bpf_trace.specs.Taken.{Took};
ghost use Rattle.bpf_trace.specs.Traces.{end_line, step_line};
ghost use Rattle.bpfdb_script.specs.SlotTexts.{text_of_slot};
ghost use Rattle.bpf_diff.specs.Differences.{ends_text, heading};
ghost use Rattle.counted_io.specs.Writing.{WritesAfter};

use crate::follow::Parted;
use crate::texts::BothTexts;
use bpf_machine::Cpu;
use bpf_trace::{Taken, put_end, put_taken};
use bpfdb_script::{SlotTexts, text_of_slot};
use counted_io::{Counted, WriteFault, put, put_decimal};
use std::io::Write;

/// Writes what happened at a step.
pub fn put_heading<W: Write>(
    writer: &mut Counted<W>,
    so_far: Result<(), WriteFault>,
    number: u64,
    what: &[u8],
) -> Result<(), WriteFault>
    ensures { WritesAfter W.contents writer.old so_far writer.new result (heading number what.now) }
{
    let begun = put(writer, so_far, b"step ");
    let numbered = put_decimal(writer, begun, number);
    put(writer, numbered, what)
}

/// Writes the line of a step that one run took, behind its mark, with what is told of its slot.
pub fn put_side<W: Write>(
    writer: &mut Counted<W>,
    so_far: Result<(), WriteFault>,
    mark: &[u8],
    texts: SlotTexts<'_>,
    number: u64,
    taken: &Taken,
    cpu: &Cpu,
) -> Result<(), WriteFault>
    requires { IsStart cpu.now.program taken.now.slot }
    ensures { (x : State) → Took x cpu.now taken.now →
        WritesAfter W.contents writer.old so_far writer.new result
        (mark.now ++ step_line (text_of_slot texts.entry x.pc) number x) }
{
    let marked = put(writer, so_far, mark);
    let place = text_of_slot(texts, usize::from(taken.slot));
    put_taken(writer, marked, number, taken, cpu, place)
}

/// Writes that a step wrote otherwise, and its line in both runs.
pub fn put_otherwise<W: Write>(
    writer: &mut Counted<W>,
    so_far: Result<(), WriteFault>,
    texts: BothTexts<'_>,
    number: u64,
    parted: &Parted,
    first: &Cpu,
    second: &Cpu,
) -> Result<(), WriteFault>
    requires first { IsStart first.now.program parted.now.first.slot }
    requires second { IsStart second.now.program parted.now.second.slot }
    ensures { (x y : State) → Took x first.now parted.now.first →
        Took y second.now parted.now.second →
        WritesAfter W.contents writer.old so_far writer.new result
        (heading number (codes " wrote otherwise\n")
        ++ ((codes "< " ++ step_line (text_of_slot texts.entry.first x.pc) number x)
        ++ (codes "> " ++ step_line (text_of_slot texts.entry.second y.pc) number y))) }
{
    let headed = put_heading(writer, so_far, number, b" wrote otherwise\n");
    let one = &parted.first;
    let half = put_side(writer, headed, b"< ", texts.first, number, one, first);
    let other = &parted.second;
    put_side(writer, half, b"> ", texts.second, number, other, second)
}

/// Writes how both runs ended: once where they are the same, with how many steps that took.
pub fn put_ends<W: Write>(
    writer: &mut Counted<W>,
    so_far: Result<(), WriteFault>,
    same: bool,
    steps: u64,
    limit: u64,
    first: &Cpu,
    second: &Cpu,
) -> Result<(), WriteFault>
    ensures { WritesAfter W.contents writer.old so_far writer.new result
        (ends_text same steps (end_line limit first.now) (end_line limit second.now)) }
{
    if same {
        put_same(writer, so_far, steps, limit, first)
    } else {
        let marked = put(writer, so_far, b"< ");
        let half = put_end(writer, marked, limit, first);
        let parted = put(writer, half, b"> ");
        put_end(writer, parted, limit, second)
    }
}

/// Writes that both runs are the same for so many steps, and how they ended.
fn put_same<W: Write>(
    writer: &mut Counted<W>,
    so_far: Result<(), WriteFault>,
    steps: u64,
    limit: u64,
    cpu: &Cpu,
) -> Result<(), WriteFault>
    ensures { (other : List ℕ) → WritesAfter W.contents writer.old so_far writer.new result
        (ends_text true steps (end_line limit cpu.now) other) }
{
    let begun = put(writer, so_far, b"same for ");
    let counted = put_decimal(writer, begun, steps);
    let parted = put(writer, counted, b" steps\n");
    put_end(writer, parted, limit, cpu)
}
