//! How the row of a step begins: its number, and the instruction with its slot.
ghost use Rattle.std.specs.Prelude.{◌≡◌, ◌≤◌, ◌+◌, ◌++◌, codes, decimal, drop, length};
ghost use Rattle.bpf_trace.specs.Lines.{Held};
ghost use Rattle.bpf_trace.specs.Objects.{step_lead};

use crate::line::Line;
use counted_io::{Counted, WriteFault, put};
use itoa::Buffer;
use std::io::Write;

/// How the row of a step begins.
#[derive(Clone, Copy)]
pub struct Head<'a> {
    pub number: u64,
    pub slot: u16,
    /// The text of the instruction, with its slot.
    pub text: &'a [u8],
}

/// Begins a line with the number of a step and the text of its instruction.
#[inline(always)]
pub fn put_head<W: Write>(
    line: &mut Line,
    number: u64,
    text: &[u8],
    writer: &mut Counted<W>,
    so_far: Result<(), WriteFault>,
) -> Result<(), WriteFault>
    ensures text { Held W.contents writer.old so_far writer.new result line.new
        (decimal number ++ codes " " ++ text.now) }
    ensures short { length line.new ≤ 256 }
{
    line.clear();
    line.add_decimal(number);
    line.add(b" ");
    put_long(line, text, writer, so_far)
}

/// Begins an object with the number of a step, its slot, and the text of its instruction, which stands
/// behind that of the slot.
pub fn put_object_head<W: Write>(
    line: &mut Line,
    head: &Head<'_>,
    writer: &mut Counted<W>,
    so_far: Result<(), WriteFault>,
) -> Result<(), WriteFault>
    requires { length (decimal head.now.slot) + 2 ≤ length head.now.text.now }
    ensures text { Held W.contents writer.old so_far writer.new result line.new
        (step_lead head.now.number head.now.slot
        (drop (length (decimal head.now.slot) + 2) head.now.text.now)) }
    ensures short { length line.new ≤ 256 + 1 }
{
    line.clear();
    line.add(b"{\"kind\":\"step\",\"step\":");
    line.add_decimal(head.number);
    line.add(b",\"slot\":");
    line.add_decimal(u64::from(head.slot));
    line.add(b",\"insn\":\"");
    let told = put_long(line, insn_in(head.text, head.slot), writer, so_far);
    line.add(b"\"");
    told
}

/// The text of an instruction behind its slot.
fn insn_in(text: &[u8], slot: u16) -> &[u8]
    requires { length (decimal slot) + 2 ≤ length text.now }
    ensures { result.now ≡ drop (length (decimal slot) + 2) text.now }
{
    let mut digits = Buffer::new();
    let len = digits.format(slot).len();
    &text[len + 2..]
}

/// Adds a text of any length to a line. One that would leave no room for more is written, and before
/// it what the line has.
#[inline(always)]
pub fn put_long<W: Write>(
    line: &mut Line,
    text: &[u8],
    writer: &mut Counted<W>,
    so_far: Result<(), WriteFault>,
) -> Result<(), WriteFault>
    requires { length line.old ≤ 256 + 1 }
    ensures text { Held W.contents writer.old so_far writer.new result line.new
        (line.old ++ text.now) }
    ensures short { length line.new ≤ 256 }
{
    if line.len() + text.len() <= 256 {
        line.add(text);
        so_far
    } else {
        let begun = put(writer, so_far, line.as_slice());
        line.clear();
        put(writer, begun, text)
    }
}
