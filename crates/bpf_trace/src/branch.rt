//! The row of a conditional jump.
ghost use Rattle.std.specs.Prelude.{◌≡◌, ◌≤◌, ◌+◌, ◌==◌, ◌++◌, codes, decimal, drop, false, if◌then◌else◌, length};
ghost use Rattle.bpf_entries.specs.Status.{has_ended};
ghost use Rattle.bpf_steps.specs.Next.{next};
ghost use Rattle.bpf_trace.specs.Branches.{is_branch as is_branch_of, way_text};
ghost use Rattle.bpf_origin.specs.Texts.{compared_text};
ghost use Rattle.bpf_trace.specs.Forms.{compared_in, compared_object, operands_in, source_in};
ghost use Rattle.bpf_trace.specs.Objects.{step_lead, step_tail, way_member as way_member_of};
ghost use Rattle.bpf_trace.specs.Rows.{branch_text};
ghost use Rattle.bpf_cover.specs.Texts.{texts_of};
ghost use Rattle.counted_io.specs.Writing.{WritesAfter};

use crate::form::Form;
use crate::head::{Head, put_head, put_long, put_object_head};
use crate::line::Line;
use crate::line_end::put_ended;
use crate::parts::add_comma;
use crate::step::Row;
use crate::taken::step_on;
use bpf_cover::Texts;
use bpf_isa::{Insn, Reg, Source};
use bpf_machine::Cpu;
use counted_io::{Counted, WriteFault, put};
use std::io::Write;

/// Takes a step, and writes its row if it is a conditional jump: its number, its slot and its
/// instruction, the registers that it compared, which way it went, and what is told of its slot.
#[inline(always)]
pub fn put_branch<W: Write>(
    cpu: &mut Cpu,
    texts: &Texts,
    row: &Row<'_>,
    line: &mut Line,
    writer: &mut Counted<W>,
    so_far: Result<(), WriteFault>,
) -> Result<(), WriteFault>
    requires runs { has_ended cpu.old.status ≡ false }
    requires texts { texts.now ≡ texts_of cpu.old.program }
    ensures next { cpu.new ≡ next cpu.old }
    ensures text { WritesAfter W.contents writer.old so_far writer.new result
        (branch_text row.now.form row.now.place.now row.now.number cpu.old) }
{
    cpu.invariant();
    let slot = cpu.pc();
    match cpu.program().insn_at(usize::from(slot)) {
        Some(insn) => {
            if !is_branch(&insn) {
                step_on(cpu);
                return so_far;
            }
            let number = row.number;
            let text = texts.at(usize::from(slot));
            let head = Head { number, slot, text };
            match row.form {
                Form::Text => put_jump(line, &head, row.place, cpu, &insn, writer, so_far),
                Form::Json => put_object(line, &head, row.place, cpu, &insn, writer, so_far),
            }
        }
        None => unreachable!(),
    }
}

/// Takes the step of a conditional jump, and writes its line.
fn put_jump<W: Write>(
    line: &mut Line,
    head: &Head<'_>,
    place: &[u8],
    cpu: &mut Cpu,
    insn: &Insn,
    writer: &mut Counted<W>,
    so_far: Result<(), WriteFault>,
) -> Result<(), WriteFault>
    requires runs { has_ended cpu.old.status ≡ false }
    ensures next { cpu.new ≡ next cpu.old }
    ensures text { WritesAfter W.contents writer.old so_far writer.new result
        ((decimal head.now.number ++ codes " " ++ head.now.text.now)
        ++ operands_in Form.Text cpu.old insn.now ++ way_text cpu.old ++ place.now ++ codes "\n") }
{
    let from = cpu.pc();
    let told = put_head(line, head.number, head.text, writer, so_far);
    add_operands(line, Form::Text, cpu, insn);
    step_on(cpu);
    add_way(line, from, cpu.pc());
    put_ended(line, place, writer, told)
}

/// Takes it, and writes its object. What it compared is put together before the step, and stands last.
fn put_object<W: Write>(
    line: &mut Line,
    head: &Head<'_>,
    members: &[u8],
    cpu: &mut Cpu,
    insn: &Insn,
    writer: &mut Counted<W>,
    so_far: Result<(), WriteFault>,
) -> Result<(), WriteFault>
    requires runs { has_ended cpu.old.status ≡ false }
    requires slot { length (decimal head.now.slot) + 2 ≤ length head.now.text.now }
    ensures next { cpu.new ≡ next cpu.old }
    ensures text { WritesAfter W.contents writer.old so_far writer.new result
        (step_lead head.now.number head.now.slot
        (drop (length (decimal head.now.slot) + 2) head.now.text.now) ++ way_member_of cpu.old
        ++ members.now ++ step_tail (operands_in Form.Json cpu.old insn.now)) }
{
    let from = cpu.pc();
    let mut compared = Line::new();
    add_operands(&mut compared, Form::Json, cpu, insn);
    step_on(cpu);
    let begun = put_object_head(line, head, writer, so_far);
    let went = put_long(line, way_member(from, cpu.pc()), writer, begun);
    let placed = put_long(line, members, writer, went);
    line.add(b",\"parts\":[");
    line.add(compared.as_slice());
    line.add(b"]}\n");
    put(writer, placed, line.as_slice())
}

/// Whether an instruction is a conditional jump.
fn is_branch(insn: &Insn) -> bool
    ensures { result ≡ is_branch_of insn.now }
{
    matches!(*insn, Insn::JumpIf { .. })
}

/// Adds the registers that an instruction compares.
fn add_operands(line: &mut Line, form: Form, cpu: &Cpu, insn: &Insn)
    requires { length line.old ≤ 280 }
    ensures text { line.new ≡ line.old ++ operands_in form cpu.now insn.now }
    ensures short { length line.new ≤ length line.old + 140 }
{
    match *insn {
        Insn::JumpIf { dst, source, .. } => {
            add_compared(line, form, cpu, dst);
            add_source(line, form, cpu, source);
        }
        _ => {}
    }
}

/// Adds a register that is compared.
fn add_compared(line: &mut Line, form: Form, cpu: &Cpu, register: Reg)
    requires { length line.old ≤ 390 }
    ensures text { line.new ≡ line.old ++ compared_in form cpu.now register }
    ensures short { length line.new ≤ length line.old + 61 }
{
    match form {
        Form::Text => add_compared_text(line, cpu, register),
        Form::Json => add_compared_object(line, cpu, register),
    }
}

/// Adds it to a line of text.
#[tactic(auto, unfolding(bpf_origin::specs::Texts::compared_text))]
fn add_compared_text(line: &mut Line, cpu: &Cpu, register: Reg)
    requires { length line.old ≤ 390 }
    ensures text { line.new ≡ line.old ++ compared_text cpu.now register }
    ensures short { length line.new ≤ length line.old + 61 }
{
    line.add(b"; r");
    line.add_decimal(u64::from(register.number()));
    line.add(b" = ");
    line.add_hexadecimal(cpu.reg(register));
}

/// Adds it as an object.
#[tactic(auto, unfolding(crate::specs::Forms::compared_object))]
fn add_compared_object(line: &mut Line, cpu: &Cpu, register: Reg)
    requires { length line.old ≤ 390 }
    ensures text { line.new ≡ line.old ++ compared_object cpu.now register }
    ensures short { length line.new ≤ length line.old + 61 }
{
    line.add(b"{\"part\":\"r");
    line.add_decimal(u64::from(register.number()));
    line.add(b"\",\"value\":\"");
    line.add_hexadecimal(cpu.reg(register));
    line.add(b"\"}");
}

/// Adds the second operand, if it is a register.
fn add_source(line: &mut Line, form: Form, cpu: &Cpu, source: Source)
    requires { length line.old ≤ 380 }
    ensures text { line.new ≡ line.old ++ source_in form cpu.now source }
    ensures short { length line.new ≤ length line.old + 62 }
{
    match source {
        Source::Immediate(_) => {}
        Source::Register(register) => {
            add_comma(line, form);
            add_compared(line, form, cpu, register);
        }
    }
}

/// Adds which way a jump went: from a slot to another one.
fn add_way(line: &mut Line, from: u16, to: u16)
    requires { length line.old ≤ 480 }
    ensures text { line.new ≡ line.old ++ (if to == from + 1 then codes "; went on" else codes
        "; jumped") }
    ensures short { length line.new ≤ length line.old + 9 }
{
    if u32::from(to) == u32::from(from) + 1 {
        line.add(b"; went on");
    } else {
        line.add(b"; jumped");
    }
}

/// The same as a member.
fn way_member(from: u16, to: u16) -> &'static [u8]
    ensures { result.now ≡ (if to == from + 1 then codes ",\"way\":\"went on\"" else codes
        ",\"way\":\"jumped\"") }
{
    if u32::from(to) == u32::from(from) + 1 {
        b",\"way\":\"went on\""
    } else {
        b",\"way\":\"jumped\""
    }
}
