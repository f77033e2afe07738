//! The row of a step.
ghost use Rattle.std.specs.Prelude.{◌≡◌, ◌≤◌, ◌<◌, ◌+◌, ◌++◌, codes, decimal, drop, false, length};
ghost use Rattle.bpf_entries.specs.Status.{has_ended};
ghost use Rattle.bpf_steps.specs.Next.{next};
ghost use Rattle.bpf_cover.specs.Texts.{texts_of};
ghost use Rattle.bpf_trace.specs.Forms.{parts_in};
ghost use Rattle.bpf_trace.specs.Objects.{step_lead, step_tail};
ghost use Rattle.bpf_trace.specs.Rows.{step_text};
ghost use Rattle.bpf_trace.specs.Taken.{parts_by};
ghost use Rattle.counted_io.specs.Writing.{WritesAfter};

use crate::form::Form;
use crate::head::{Head, put_head, put_long, put_object_head};
use crate::line::Line;
use crate::line_end::put_ended;
use crate::parts::add_parts;
use bpf_cover::Texts;
use bpf_machine::{Change, Cpu, Ended};
use counted_io::{Counted, WriteFault, put};
use std::io::Write;

/// What the row of a step tells besides the step: its number, and what is told of the slot, in its
/// form.
#[derive(Clone, Copy)]
pub struct Row<'a> {
    pub form: Form,
    pub number: u64,
    pub place: &'a [u8],
}

/// Takes a step, and writes its row: its number, its slot and its instruction, what it wrote, and
/// what is told of its slot. It is put together in memory, by the program's texts, and written at
/// once.
#[inline(always)]
pub fn put_step<W: Write>(
    cpu: &mut Cpu,
    texts: &Texts,
    row: &Row<'_>,
    line: &mut Line,
    writer: &mut Counted<W>,
    so_far: Result<(), WriteFault>,
) -> Result<(), WriteFault>
    requires runs { has_ended cpu.old.status ≡ false }
    requires texts { texts.now ≡ texts_of cpu.old.program }
    ensures next { cpu.new ≡ next cpu.old }
    ensures text { WritesAfter W.contents writer.old so_far writer.new result
        (step_text row.now.form row.now.place.now row.now.number cpu.old) }
{
    cpu.invariant();
    let slot = cpu.pc();
    let text = texts.at(usize::from(slot));
    match cpu.look() {
        Ok(change) => {
            cpu.commit(&change);
            match row.form {
                Form::Text => put_line(line, row, text, cpu, &change, writer, so_far),
                Form::Json => {
                    let number = row.number;
                    let head = Head { number, slot, text };
                    put_object(line, &head, row.place, cpu, &change, writer, so_far)
                }
            }
        }
        Err(Ended) => unreachable!(),
    }
}

/// Writes the line of a step with this change, from the machine after it.
#[inline(always)]
fn put_line<W: Write>(
    line: &mut Line,
    row: &Row<'_>,
    text: &[u8],
    cpu: &Cpu,
    change: &Change,
    writer: &mut Counted<W>,
    so_far: Result<(), WriteFault>,
) -> Result<(), WriteFault>
    ensures { WritesAfter W.contents writer.old so_far writer.new result
        ((decimal row.now.number ++ codes " " ++ text.now)
        ++ parts_in Form.Text cpu.now (parts_by cpu.now change.now) ++ row.now.place.now
        ++ codes "\n") }
{
    let told = put_head(line, row.number, text, writer, so_far);
    add_parts(line, Form::Text, cpu, change);
    put_told(line, row.place, writer, told)
}

/// Writes its object.
#[inline(never)]
fn put_object<W: Write>(
    line: &mut Line,
    head: &Head<'_>,
    members: &[u8],
    cpu: &Cpu,
    change: &Change,
    writer: &mut Counted<W>,
    so_far: Result<(), WriteFault>,
) -> Result<(), WriteFault>
    requires { length (decimal head.now.slot) + 2 ≤ length head.now.text.now }
    ensures { WritesAfter W.contents writer.old so_far writer.new result
        (step_lead head.now.number head.now.slot
        (drop (length (decimal head.now.slot) + 2) head.now.text.now) ++ members.now
        ++ step_tail (parts_in Form.Json cpu.now (parts_by cpu.now change.now))) }
{
    let begun = put_object_head(line, head, writer, so_far);
    let placed = put_long(line, members, writer, begun);
    line.add(b",\"parts\":[");
    add_parts(line, Form::Json, cpu, change);
    line.add(b"]}\n");
    put(writer, placed, line.as_slice())
}

/// Writes a line with what is told of its slot, and its end. Mostly nothing is told, and then the line
/// has room for its end.
#[inline(always)]
fn put_told<W: Write>(
    line: &mut Line,
    place: &[u8],
    writer: &mut Counted<W>,
    so_far: Result<(), WriteFault>,
) -> Result<(), WriteFault>
    requires { length line.old < 512 }
    ensures { WritesAfter W.contents writer.old so_far writer.new result
        (line.old ++ place.now ++ codes "\n") }
{
    if place.is_empty() {
        line.add(b"\n");
        put(writer, so_far, line.as_slice())
    } else {
        put_ended(line, place, writer, so_far)
    }
}
