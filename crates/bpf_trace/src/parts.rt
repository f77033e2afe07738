//! What a step wrote, as its row tells it.
ghost use Rattle.std.specs.Prelude.{◌≡◌, ◌≤◌, ◌+◌, ◌-◌, ◌++◌, length};
ghost use Rattle.bpf_origin.specs.Texts.{register_name};
ghost use Rattle.bpf_origin.specs.declared.place.Part.TheVariants as part;
ghost use Rattle.bpf_trace.specs.Forms.{bytes_value_in, comma, part_in, part_lead, part_tail, parts_in, value_in, value_lead};
ghost use Rattle.bpf_trace.specs.Taken.{parts_by, register_by};

use crate::form::Form;
use crate::line::Line;
use bpf_entries::{FRAME_LEN, frame_base};
use bpf_machine::{Change, Cpu};
use bpf_origin::{depth_for, register_at, word_at};
use byteorder::{ByteOrder, LittleEndian};

/// Adds each part that the step with this change wrote, in the machine after it.
#[inline(always)]
pub fn add_parts(line: &mut Line, form: Form, cpu: &Cpu, change: &Change)
    requires { length line.old ≤ 280 }
    ensures text { line.new ≡ line.old ++ parts_in form cpu.now (parts_by cpu.now change.now) }
    ensures short { length line.new ≤ length line.old + 220 }
{
    cpu.invariant();
    match *change {
        Change::Set { register, .. } => add_register(line, form, cpu, register.number()),
        Change::Store { address, size, .. } => add_bytes(line, form, cpu, address, size.len()),
        Change::Fetch {
            address,
            size,
            register,
            ..
        } => {
            add_register(line, form, cpu, register.number());
            add_comma(line, form);
            add_bytes(line, form, cpu, address, size.len());
        }
        Change::Call { .. } => {
            let base = frame_base(cpu.depth() as u32);
            add_bytes(line, form, cpu, base, FRAME_LEN)
        }
        Change::Cell {
            address,
            length,
            ..
        } => {
            add_register(line, form, cpu, 0);
            add_comma(line, form);
            add_bytes(line, form, cpu, address, usize::from(length));
        }
        Change::Trace { .. } => {
            add_register(line, form, cpu, 0);
            add_comma(line, form);
            add_word(line, form, cpu);
        }
        Change::Go { .. } | Change::Return | Change::Stop { .. } => {}
    }
}

/// Adds a register of the present function, with its number.
#[inline(always)]
fn add_register(line: &mut Line, form: Form, cpu: &Cpu, number: u8)
    requires { length line.old ≤ 390 }
    ensures text { line.new ≡ line.old ++ part_in form cpu.now (register_by cpu.now number) }
    ensures short { length line.new ≤ length line.old + 105 }
{
    let depth = depth_for(cpu.depth(), number);
    add_lead(line, form);
    add_register_name(line, depth, number);
    add_value(line, form, register_at(cpu, depth, number));
    add_tail(line, form);
}

/// Adds the name of a register, by the depth of its function unless that is 0.
#[tactic(auto, unfolding(bpf_origin::specs::Texts::register_name))]
fn add_register_name(line: &mut Line, depth: usize, number: u8)
    requires { length line.old ≤ 420 }
    ensures text { line.new ≡ line.old ++ register_name depth number }
    ensures short { length line.new ≤ length line.old + 51 }
{
    line.add(b"r");
    line.add_decimal(u64::from(number));
    if depth > 0 {
        line.add(b" at depth ");
        line.add_decimal(depth as u64);
    }
}

/// Adds the newest word of the trace.
fn add_word(line: &mut Line, form: Form, cpu: &Cpu)
    requires { length line.old ≤ 390 }
    ensures text { line.new ≡ line.old ++ part_in form cpu.now
        (part.Word (length cpu.now.trace - 1)) }
    ensures short { length line.new ≤ length line.old + 105 }
{
    let index = cpu.trace().len().saturating_sub(1);
    add_lead(line, form);
    line.add(b"word ");
    line.add_decimal(index as u64);
    add_value(line, form, word_at(cpu.trace(), index));
    add_tail(line, form);
}

/// Adds a run of bytes, with the number that they make.
#[inline(always)]
fn add_bytes(line: &mut Line, form: Form, cpu: &Cpu, address: u64, len: usize)
    requires { length line.old ≤ 390 }
    ensures text { line.new ≡ line.old ++ part_in form cpu.now (part.Bytes address len) }
    ensures short { length line.new ≤ length line.old + 105 }
{
    add_lead(line, form);
    line.add_hexadecimal(address);
    line.add(b":");
    line.add_decimal(len as u64);
    add_bytes_value(line, form, cpu, address, len);
    add_tail(line, form);
}

/// Adds the value of one to eight bytes that are present, and else nothing.
fn add_bytes_value(line: &mut Line, form: Form, cpu: &Cpu, address: u64, len: usize)
    requires { length line.old ≤ 450 }
    ensures text { line.new ≡ line.old ++ bytes_value_in form cpu.now address len }
    ensures short { length line.new ≤ length line.old + 29 }
{
    if len == 0 || 8 < len {
        return;
    }
    match cpu.peek(address, len) {
        Some(run) => add_value(line, form, LittleEndian::read_uint(run, len)),
        None => {}
    }
}

/// Adds a value.
#[tactic(auto, unfolding(crate::specs::Forms::value_in))]
pub fn add_value(line: &mut Line, form: Form, value: u64)
    requires { length line.old ≤ 480 }
    ensures text { line.new ≡ line.old ++ value_in form value }
    ensures short { length line.new ≤ length line.old + 29 }
{
    add_value_lead(line, form);
    line.add_hexadecimal(value);
}

/// Adds what stands before a part.
#[inline(always)]
pub fn add_lead(line: &mut Line, form: Form)
    requires { length line.old ≤ 500 }
    ensures text { line.new ≡ line.old ++ part_lead form }
    ensures short { length line.new ≤ length line.old + 9 }
{
    match form {
        Form::Text => line.add(b"; "),
        Form::Json => line.add(b"{\"part\":\""),
    }
}

/// Adds what stands before its value.
#[inline(always)]
fn add_value_lead(line: &mut Line, form: Form)
    requires { length line.old ≤ 500 }
    ensures text { line.new ≡ line.old ++ value_lead form }
    ensures short { length line.new ≤ length line.old + 11 }
{
    match form {
        Form::Text => line.add(b" = "),
        Form::Json => line.add(b"\",\"value\":\""),
    }
}

/// Adds what stands behind it.
#[inline(always)]
pub fn add_tail(line: &mut Line, form: Form)
    requires { length line.old ≤ 500 }
    ensures text { line.new ≡ line.old ++ part_tail form }
    ensures short { length line.new ≤ length line.old + 2 }
{
    match form {
        Form::Text => {}
        Form::Json => line.add(b"\"}"),
    }
}

/// Adds what stands between two parts.
#[inline(always)]
pub fn add_comma(line: &mut Line, form: Form)
    requires { length line.old ≤ 500 }
    ensures text { line.new ≡ line.old ++ comma form }
    ensures short { length line.new ≤ length line.old + 1 }
{
    match form {
        Form::Text => {}
        Form::Json => line.add(b","),
    }
}
