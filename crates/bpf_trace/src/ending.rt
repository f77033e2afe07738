//! The row of where a run ended.
ghost use Rattle.bpfdb_script.specs.Texts.{text_of_fault};
ghost use Rattle.bpf_trace.specs.Objects.{end_lead, end_object, exit_lead, slot_member};
ghost use Rattle.bpf_trace.specs.Rows.{end_row};
ghost use Rattle.bpf_trace.specs.Traces.{end_line, end_text, limit_line, limit_text, standing, told_end_line};
ghost use Rattle.counted_io.specs.Writing.{WritesAfter};

use crate::form::Form;
use bpf_machine::{Cpu, Fault, Status};
use bpfdb_script::{SlotTexts, number_in, put_place, text_of_slot};
use counted_io::{Counted, WriteFault, put, put_decimal, put_hexadecimal};
use std::io::Write;

/// Writes that a run took as many steps as it may, and stands at a slot.
pub fn put_limit<W: Write>(
    writer: &mut Counted<W>,
    so_far: Result<(), WriteFault>,
    limit: u64,
    slot: u16,
) -> Result<(), WriteFault>
    ensures { WritesAfter W.contents writer.old so_far writer.new result (limit_line limit slot) }
{
    let told = put_limit_text(writer, so_far, limit, slot);
    put(writer, told, b"\n")
}

/// Writes the same without the end of the line.
fn put_limit_text<W: Write>(
    writer: &mut Counted<W>,
    so_far: Result<(), WriteFault>,
    limit: u64,
    slot: u16,
) -> Result<(), WriteFault>
    ensures { WritesAfter W.contents writer.old so_far writer.new result (limit_text limit slot) }
{
    let begun = put(writer, so_far, b"step limit ");
    let counted = put_decimal(writer, begun, limit);
    let parted = put(writer, counted, b" reached at ");
    put_decimal(writer, parted, u64::from(slot))
}

/// Writes how a machine ended, or that a run of it reached its limit.
pub fn put_end<W: Write>(
    writer: &mut Counted<W>,
    so_far: Result<(), WriteFault>,
    limit: u64,
    cpu: &Cpu,
) -> Result<(), WriteFault>
    ensures { WritesAfter W.contents writer.old so_far writer.new result (end_line limit cpu.now) }
{
    let told = put_end_text(writer, so_far, limit, cpu);
    put(writer, told, b"\n")
}

/// Writes that with what is told of the slot where it stands.
pub fn put_told_end<W: Write>(
    writer: &mut Counted<W>,
    so_far: Result<(), WriteFault>,
    places: SlotTexts<'_>,
    limit: u64,
    cpu: &Cpu,
) -> Result<(), WriteFault>
    ensures { WritesAfter W.contents writer.old so_far writer.new result
        (told_end_line places.entry limit cpu.now) }
{
    let told = text_of_slot(places, usize::from(cpu.pc()));
    put_end_row(writer, so_far, Form::Text, told, limit, cpu)
}

/// Writes the row of it, with what is told of the slot in the row's form.
pub fn put_end_row<W: Write>(
    writer: &mut Counted<W>,
    so_far: Result<(), WriteFault>,
    form: Form,
    told: &[u8],
    limit: u64,
    cpu: &Cpu,
) -> Result<(), WriteFault>
    ensures { WritesAfter W.contents writer.old so_far writer.new result
        (end_row form told.now limit cpu.now) }
{
    match form {
        Form::Text => {
            let ended = put_end_text(writer, so_far, limit, cpu);
            let placed = put(writer, ended, told);
            put(writer, placed, b"\n")
        }
        Form::Json => put_end_object(writer, so_far, told, limit, cpu),
    }
}

/// Writes the object of it.
fn put_end_object<W: Write>(
    writer: &mut Counted<W>,
    so_far: Result<(), WriteFault>,
    members: &[u8],
    limit: u64,
    cpu: &Cpu,
) -> Result<(), WriteFault>
    ensures { WritesAfter W.contents writer.old so_far writer.new result
        (end_object members.now limit cpu.now) }
{
    let begun = put_end_lead(writer, so_far, limit, cpu);
    let placed = put(writer, begun, members);
    put(writer, placed, b"}\n")
}

/// Writes how the object begins.
fn put_end_lead<W: Write>(
    writer: &mut Counted<W>,
    so_far: Result<(), WriteFault>,
    limit: u64,
    cpu: &Cpu,
) -> Result<(), WriteFault>
    ensures { WritesAfter W.contents writer.old so_far writer.new result
        (end_lead limit cpu.now.status cpu.now) }
{
    let slot = u64::from(cpu.pc());
    match cpu.status() {
        Status::Running => {
            let begun = put(writer, so_far, b"{\"kind\":\"limit\",\"limit\":");
            let counted = put_decimal(writer, begun, limit);
            put_slot(writer, counted, slot)
        }
        Status::Exited => put_exit_lead(writer, so_far, slot, number_in(cpu, 0)),
        Status::Faulted(fault) => {
            let begun = put(writer, so_far, b"{\"kind\":\"fault\",\"fault\":\"");
            let told = put_fault(writer, begun, fault);
            let ended = put(writer, told, b"\"");
            put_slot(writer, ended, slot)
        }
    }
}

/// Writes the member of a slot.
pub fn put_slot<W: Write>(
    writer: &mut Counted<W>,
    so_far: Result<(), WriteFault>,
    slot: u64,
) -> Result<(), WriteFault>
    ensures { WritesAfter W.contents writer.old so_far writer.new result (slot_member slot) }
{
    let named = put(writer, so_far, b",\"slot\":");
    put_decimal(writer, named, slot)
}

/// Writes how the object of an exit begins, with the answer.
fn put_exit_lead<W: Write>(
    writer: &mut Counted<W>,
    so_far: Result<(), WriteFault>,
    slot: u64,
    answer: u64,
) -> Result<(), WriteFault>
    ensures { WritesAfter W.contents writer.old so_far writer.new result (exit_lead slot answer) }
{
    let begun = put(writer, so_far, b"{\"kind\":\"exited\"");
    let placed = put_slot(writer, begun, slot);
    let named = put(writer, placed, b",\"r0\":\"");
    let told = put_hexadecimal(writer, named, answer);
    put(writer, told, b"\"")
}

/// Writes a fault.
fn put_fault<W: Write>(
    writer: &mut Counted<W>,
    so_far: Result<(), WriteFault>,
    fault: Fault,
) -> Result<(), WriteFault>
    ensures { WritesAfter W.contents writer.old so_far writer.new result (text_of_fault fault) }
{
    match fault {
        Fault::Access { address } => {
            let begun = put(writer, so_far, b"access ");
            put_hexadecimal(writer, begun, address)
        }
        Fault::Token { token } => {
            let begun = put(writer, so_far, b"token ");
            put_hexadecimal(writer, begun, token)
        }
        Fault::Depth => put(writer, so_far, b"depth"),
    }
}

/// Writes how it ended without the end of the line.
fn put_end_text<W: Write>(
    writer: &mut Counted<W>,
    so_far: Result<(), WriteFault>,
    limit: u64,
    cpu: &Cpu,
) -> Result<(), WriteFault>
    ensures { WritesAfter W.contents writer.old so_far writer.new result (end_text limit cpu.now) }
{
    if cpu.status().has_ended() {
        put_place(writer, so_far, cpu)
    } else {
        put_limit_text(writer, so_far, limit, cpu.pc())
    }
}

/// Writes where a machine stands, and what is told of the slot there.
pub fn put_standing<W: Write>(
    writer: &mut Counted<W>,
    so_far: Result<(), WriteFault>,
    places: SlotTexts<'_>,
    cpu: &Cpu,
) -> Result<(), WriteFault>
    ensures { WritesAfter W.contents writer.old so_far writer.new result (standing places.entry cpu.now) }
{
    let placed = put_place(writer, so_far, cpu);
    put(writer, placed, text_of_slot(places, usize::from(cpu.pc())))
}
