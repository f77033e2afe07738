//! A run held against the trace of another machine.
ghost use Rattle.std.specs.Prelude.{◌≡◌, ◌<◌, ◌+◌, ◌^◌, ◌++◌, ◌==◌, ◌||◌, IfErr, IfOk, List, [], ◌&&◌, ℕ, false, codes};
ghost use Rattle.bpf_entries.specs.Status.{has_ended};
ghost use Rattle.bpf_isa.specs.Programs.{IsStart};
ghost use Rattle.bpf_steps.specs.State.{State};
ghost use Rattle.bpf_trace.specs.Taken.{Took};
ghost use Rattle.bpf_trace.specs.Traces.{end_line};
ghost use Rattle.counted_io.specs.Writing.{WritesAfter};
ghost use Rattle.bpf_diff.specs.Against.{against_text, at_end, behind_end, is_end_told, tells_run, there};
ghost use Rattle.input_texts.specs.TraceForms.{told};
ghost use Rattle.bpf_diff.specs.Noted.{AreNotes, Leaves, next_lines, otherwise_text};
ghost use Rattle.input_texts.specs.declared.trace_form.Form.TheVariants as form;

use crate::against_ending::{
    put_differences, put_end_here, put_more, put_registers_here, put_same, put_step_here, put_there,
};
use crate::along::{Halt, follow_registers, follow_steps, is_line, unplaced};
use crate::lines::put_heading;
use crate::told_writers::Notes;
use bpf_machine::Cpu;
use bpf_trace::{Taken, put_end};
use counted_io::{Counted, WriteFault, put};
use input_texts::{Form, Told};
use std::alloc::{AllocError, Global};
use std::io::Write;

/// A run that was held against a trace.
#[derive(Clone, Copy)]
pub struct Against {
    /// Whether the answer could be written.
    pub written: Result<(), WriteFault>,
    /// The trace tells the whole run, up to its end, and nothing else.
    pub tells_run: bool,
}

/// Runs a machine to its end, to a limit of steps, or to the first step that a trace, which has this
/// form, doesn't tell as it was; and writes what it tells, and what was. If memory runs out, nothing
/// is written.
///
/// Nothing is kept of the steps: it takes time in proportion to the steps and to the file.
pub fn put_against<W: Write>(
    alloc: Global,
    writer: &mut Counted<W>,
    so_far: Result<(), WriteFault>,
    cpu: &mut Cpu,
    form: Form,
    file: &[u8],
    limit: u64,
) -> Result<Against, AllocError>
    ensures text { IfOk result (λ a. WritesAfter W.contents writer.old so_far writer.new a.written
        (against_text form limit cpu.old (told file.now))) }
    ensures told { IfOk result (λ a. a.tells_run
        ≡ tells_run form limit cpu.old (told file.now)) }
    ensures err { IfErr result (λ fault. writer.new ≡ writer.old) }
{
    let mut lines = Told::of(file);
    match form {
        Form::Steps => put_by_steps(alloc, writer, so_far, cpu, &mut lines, limit),
        Form::Registers => Ok(put_by_registers(writer, so_far, cpu, &mut lines, limit)),
    }
}

/// The same of a trace of registers.
fn put_by_registers<W: Write>(
    writer: &mut Counted<W>,
    so_far: Result<(), WriteFault>,
    cpu: &mut Cpu,
    lines: &mut Told<'_>,
    limit: u64,
) -> Against
    ensures text { WritesAfter W.contents writer.old so_far writer.new result.written
        (against_text form.Registers limit cpu.old lines.old) }
    ensures told { result.tells_run ≡ tells_run form.Registers limit cpu.old lines.old }
{
    let mut notes = Notes::new();
    let halt = follow_registers(cpu, lines, &mut notes, limit);
    if is_over(limit, halt.steps, cpu) {
        put_behind_end(writer, so_far, limit, &halt, cpu)
    } else {
        Against {
            written: put_otherwise(writer, so_far, &halt, &notes, cpu),
            tells_run: false,
        }
    }
}

/// Whether a run that took so many steps is over.
fn is_over(limit: u64, steps: u64, cpu: &Cpu) -> bool
    ensures { result ≡ (has_ended cpu.now.status || (steps == limit)) }
{
    cpu.status().has_ended() || steps == limit
}

/// Writes the step that the next line of registers doesn't tell, or that there is no line.
fn put_otherwise<W: Write>(
    writer: &mut Counted<W>,
    so_far: Result<(), WriteFault>,
    halt: &Halt<'_>,
    notes: &Notes,
    cpu: &Cpu,
) -> Result<(), WriteFault>
    requires { halt.now.steps + 1 < 2 ^ 64 }
    ensures { (before : List State) → AreNotes before notes.now.notes notes.now.last →
        WritesAfter W.contents writer.old so_far writer.new result
        (otherwise_text form.Registers halt.now.steps before cpu.now halt.now.line) }
{
    let number = halt.steps + 1;
    match halt.line {
        None => {
            let headed = put_heading(writer, so_far, number, b" is not in the trace\n");
            put_registers_here(writer, headed, cpu)
        }
        Some(line) => {
            let begun = put_heading(writer, so_far, number, b" is told otherwise\n");
            let half = put_registers_here(writer, begun, cpu);
            let both = put_there(writer, half, line);
            put_differences(writer, both, cpu, notes, line)
        }
    }
}

/// Writes what is told behind the end of a run of which each step is told: that it is the same, or
/// that the trace goes on.
fn put_behind_end<W: Write>(
    writer: &mut Counted<W>,
    so_far: Result<(), WriteFault>,
    limit: u64,
    halt: &Halt<'_>,
    cpu: &Cpu,
) -> Against
    ensures text { WritesAfter W.contents writer.old so_far writer.new result.written
        (behind_end limit halt.now.steps cpu.now (next_lines halt.now.line)) }
    ensures told { result.tells_run
        ≡ (is_end_told form.Registers limit cpu.now (next_lines halt.now.line)
        && has_ended cpu.now.status) }
{
    match halt.line {
        None => Against {
            written: put_same(writer, so_far, limit, halt.steps, cpu),
            tells_run: cpu.status().has_ended(),
        },
        Some(line) => Against {
            written: put_more(writer, so_far, limit, cpu, line),
            tells_run: false,
        },
    }
}

/// The same of a trace of `trace`'s form.
fn put_by_steps<W: Write>(
    alloc: Global,
    writer: &mut Counted<W>,
    so_far: Result<(), WriteFault>,
    cpu: &mut Cpu,
    lines: &mut Told<'_>,
    limit: u64,
) -> Result<Against, AllocError>
    ensures text { IfOk result (λ a. WritesAfter W.contents writer.old so_far writer.new a.written
        (against_text form.Steps limit cpu.old lines.old)) }
    ensures told { IfOk result (λ a. a.tells_run
        ≡ tells_run form.Steps limit cpu.old lines.old) }
    ensures err { IfErr result (λ fault. writer.new ≡ writer.old) }
{
    let at = match follow_steps(alloc, cpu, lines, limit) {
        Ok(at) => at,
        Err(fault) => return Err(fault),
    };
    let halt = at.halt;
    let taken = at.taken;
    match taken {
        Some(taken) => Ok(Against {
            written: put_step_otherwise(writer, so_far, &halt, &taken, cpu),
            tells_run: false,
        }),
        None => put_at_end(alloc, writer, so_far, limit, &halt, cpu, lines),
    }
}

/// Writes the step that was taken, and that the next line doesn't tell; or that there is no line.
fn put_step_otherwise<W: Write>(
    writer: &mut Counted<W>,
    so_far: Result<(), WriteFault>,
    halt: &Halt<'_>,
    taken: &Taken,
    cpu: &Cpu,
) -> Result<(), WriteFault>
    requires number { halt.now.steps + 1 < 2 ^ 64 }
    requires start { IsStart cpu.now.program taken.now.slot }
    ensures { (before : List State) (x : State) → Took x cpu.now taken.now →
        WritesAfter W.contents writer.old so_far writer.new result
        (otherwise_text form.Steps halt.now.steps before x halt.now.line) }
{
    let number = halt.steps + 1;
    match halt.line {
        None => {
            let headed = put_heading(writer, so_far, number, b" is not in the trace\n");
            put_step_here(writer, headed, number, taken, cpu)
        }
        Some(line) => {
            let begun = put_heading(writer, so_far, number, b" is told otherwise\n");
            let half = put_step_here(writer, begun, number, taken, cpu);
            put_there(writer, half, line)
        }
    }
}

/// Writes what is told at the end of a run of which each step is told, by the next line and the one
/// behind it.
fn put_at_end<W: Write>(
    alloc: Global,
    writer: &mut Counted<W>,
    so_far: Result<(), WriteFault>,
    limit: u64,
    halt: &Halt<'_>,
    cpu: &Cpu,
    lines: &mut Told<'_>,
) -> Result<Against, AllocError>
    ensures text { IfOk result (λ a. (left : List (List ℕ)) →
        Leaves left halt.now.line lines.old →
        WritesAfter W.contents writer.old so_far writer.new a.written
        (at_end form.Steps limit halt.now.steps cpu.now left)) }
    ensures told { IfOk result (λ a. (left : List (List ℕ)) →
        Leaves left halt.now.line lines.old → a.tells_run
        ≡ (is_end_told form.Steps limit cpu.now left && has_ended cpu.now.status)) }
    ensures err { IfErr result (λ fault. writer.new ≡ writer.old) }
{
    let line = match halt.line {
        Some(line) => line,
        None => {
            return Ok(Against {
                written: put_no_end(writer, so_far, limit, cpu),
                tells_run: false,
            });
        }
    };
    let text = match end_text(alloc, limit, cpu) {
        Ok(text) => text,
        Err(fault) => return Err(fault),
    };
    if is_line(text.as_slice(), unplaced(line)) {
        let behind = Halt {
            steps: halt.steps,
            line: lines.next_told(),
        };
        Ok(put_behind_end(writer, so_far, limit, &behind, cpu))
    } else {
        Ok(Against {
            written: put_other_end(writer, so_far, limit, cpu, line),
            tells_run: false,
        })
    }
}

/// Writes that the trace doesn't tell how the run ended.
fn put_no_end<W: Write>(
    writer: &mut Counted<W>,
    so_far: Result<(), WriteFault>,
    limit: u64,
    cpu: &Cpu,
) -> Result<(), WriteFault>
    ensures { (n : ℕ) → WritesAfter W.contents writer.old so_far writer.new result
        (at_end form.Steps limit n cpu.now []) }
{
    let headed = put(writer, so_far, b"the end is not in the trace\n");
    put_end_here(writer, headed, limit, cpu)
}

/// Writes that the trace tells another end.
fn put_other_end<W: Write>(
    writer: &mut Counted<W>,
    so_far: Result<(), WriteFault>,
    limit: u64,
    cpu: &Cpu,
    line: &[u8],
) -> Result<(), WriteFault>
    ensures { WritesAfter W.contents writer.old so_far writer.new result
        (codes "the end is told otherwise\n" ++ (codes "< " ++ end_line limit cpu.now)
        ++ there line.now) }
{
    let headed = put(writer, so_far, b"the end is told otherwise\n");
    let half = put_end_here(writer, headed, limit, cpu);
    put_there(writer, half, line)
}

/// The line of how a run ended.
fn end_text(alloc: Global, limit: u64, cpu: &Cpu) -> Result<Vec<u8>, AllocError>
    ensures { IfOk result (λ text. text.items ≡ end_line limit cpu.now) }
{
    let mut writer = Counted::new(Vec::new(alloc));
    match put_end(&mut writer, Ok(()), limit, cpu) {
        Ok(()) => Ok(writer.into_inner()),
        Err(WriteFault) => Err(AllocError),
    }
}
