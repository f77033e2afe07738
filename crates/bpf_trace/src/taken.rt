//! Steps that are taken, and the line of one.
ghost use Rattle.std.specs.Prelude.{◌≡◌, false};
ghost use Rattle.bpf_entries.specs.Status.{has_ended};
ghost use Rattle.bpf_isa.specs.Programs.{IsStart};
ghost use Rattle.bpf_steps.specs.Next.{next};
ghost use Rattle.bpf_steps.specs.State.{State};
ghost use Rattle.bpf_trace.specs.Forms.{parts_in};
ghost use Rattle.bpf_trace.specs.Taken.{Took, parts_by};
ghost use Rattle.bpf_trace.specs.Traces.{step_line};
ghost use Rattle.counted_io.specs.Writing.{WritesAfter};

use crate::form::Form;
use crate::line::Line;
use crate::parts::add_parts;
use bpf_machine::{Change, Cpu, Ended};
use bpfdb_script::put_at;
use counted_io::{Counted, WriteFault, put, put_decimal};
use std::io::Write;

/// A step that was taken: its slot, and what it did.
#[derive(Clone, Copy)]
pub struct Taken {
    pub slot: u16,
    pub change: Change,
}

/// Takes a step.
#[inline(always)]
pub fn step_on(cpu: &mut Cpu)
    requires { has_ended cpu.old.status ≡ false }
    ensures { cpu.new ≡ next cpu.old }
{
    match cpu.advance() {
        Ok(()) => {}
        Err(Ended) => unreachable!(),
    }
}

/// Writes the line of a step that led to where a machine stands, as a trace has it, with what is told
/// of its slot.
pub fn put_taken<W: Write>(
    writer: &mut Counted<W>,
    so_far: Result<(), WriteFault>,
    number: u64,
    taken: &Taken,
    cpu: &Cpu,
    place: &[u8],
) -> Result<(), WriteFault>
    requires { IsStart cpu.now.program taken.now.slot }
    ensures { (x : State) → Took x cpu.now taken.now →
        WritesAfter W.contents writer.old so_far writer.new result (step_line place.now number x) }
{
    let counted = put_decimal(writer, so_far, number);
    let parted = put(writer, counted, b" ");
    let named = put_at(writer, parted, cpu.program(), usize::from(taken.slot));
    let told = put_parts(writer, named, cpu, &taken.change);
    let placed = put(writer, told, place);
    put(writer, placed, b"\n")
}

/// Writes each part that the step with this change wrote, in the machine after it.
fn put_parts<W: Write>(
    writer: &mut Counted<W>,
    so_far: Result<(), WriteFault>,
    cpu: &Cpu,
    change: &Change,
) -> Result<(), WriteFault>
    ensures { WritesAfter W.contents writer.old so_far writer.new result
        (parts_in Form.Text cpu.now (parts_by cpu.now change.now)) }
{
    let mut line = Line::new();
    add_parts(&mut line, Form::Text, cpu, change);
    put(writer, so_far, line.as_slice())
}
