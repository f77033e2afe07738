//! The trace of a run.
ghost use Rattle.std.specs.Prelude.{◌≡◌, ◌<◌, ◌+◌, ◌-◌, ◌^◌, OnOk, [], false, if◌then◌else◌};
ghost use Rattle.bpf_entries.specs.Status.{has_ended};
ghost use Rattle.bpf_steps.specs.Next.{next};
ghost use Rattle.bpf_session.specs.Plain.{plain_end};
ghost use Rattle.bpf_trace.specs.Runs.{IsOnTheWay, Takes, steps_of};
ghost use Rattle.bpf_trace.specs.Tellings.{Tells};
ghost use Rattle.bpf_cover.specs.Texts.{texts_of};
ghost use Rattle.bpf_trace.specs.Rows.{rows_from, step_rows, text_of_rows, told_of, told_since, trace_text};
ghost use Rattle.bpf_trace.specs.SlotWords.{AreWords, line_in};
ghost use Rattle.counted_io.specs.Writing.{WritesAfter};

use crate::branch::put_branch;
use crate::ending::put_end_row;
use crate::form::Form;
use crate::line::Line;
use crate::step::{Row, put_step};
use crate::words::{Words, told_in};
use bpf_cover::Texts;
use bpf_machine::Cpu;
use bpfdb_script::{SlotTexts, text_of_slot};
use counted_io::{Counted, WriteFault};
use std::alloc::Global;
use std::io::Write;

/// Which steps of a run are shown.
#[derive(Clone, Copy)]
pub struct Shown<'a> {
    /// The number of the first one. Steps are numbered from 1 on; 0 is as 1.
    pub from: u64,
    /// How many at most.
    pub count: u64,
    /// Of these, conditional jumps alone.
    pub only_branches: bool,
    /// What is told of slots: of that of each conditional jump, of those steps of whose slot another is
    /// told than of that before, and of where the run ended.
    pub places: SlotTexts<'a>,
    /// How the rows are told.
    pub form: Form,
}

impl<'a> Shown<'a> {
    /// How many steps come before the first one.
    fn before(&self) -> u64
        ensures { result ≡ self.now.from - 1 }
    {
        self.from.saturating_sub(1)
    }
}

/// Steps that were taken and told.
#[derive(Drop)]
pub struct Taken {
    /// Whether they could be told.
    pub written: Result<(), WriteFault>,
    /// How many were taken.
    pub steps: u64,
}

/// Why a run isn't told to its end.
#[derive(Clone, Copy)]
pub enum TraceFault {
    /// Memory ran out, before the first step.
    Memory,
    /// A write failed.
    Write,
}

/// Runs a machine to its end, or to a limit of steps, and writes a row of each step that is shown:
/// its number, its instruction, each place that it wrote, with the value there after it, and what is
/// told of its slot, unless the same is told of the step's before; or of the conditional jumps among
/// them, each with the registers that it compared, which way it went, and what is told of its slot. The
/// last row says where the machine stands: how it ended, or that the limit is reached. A row is a line
/// of text or an object of JSON.
///
/// All memory, for the texts of the program's instructions, is taken before the first step. Steps
/// before the first that is shown, and those behind the last, cost no more than in a run without
/// history. A write that fails ends it early, with the machine at some state of the run.
pub fn write_trace<W: Write>(
    alloc: Global,
    cpu: &mut Cpu,
    limit: u64,
    shown: Shown<'_>,
    writer: &mut Counted<W>,
) -> Result<(), TraceFault>
    ensures text { Tells W.contents writer.old writer.new result (trace_text limit shown.entry cpu.old) }
    ensures next { OnOk result (cpu.new ≡ plain_end limit cpu.old) }
    ensures way { IsOnTheWay limit cpu.old cpu.new }
{
    let words = match Words::of(alloc, cpu.program(), &shown) {
        Ok(words) => words,
        Err(_) => return Err(TraceFault::Memory),
    };
    match put_trace(cpu, limit, shown, &words, writer, Ok(())) {
        Ok(()) => Ok(()),
        Err(WriteFault) => Err(TraceFault::Write),
    }
}

/// Runs a machine, and writes its trace by the texts of its program.
fn put_trace<'a, W: Write>(
    cpu: &mut Cpu,
    limit: u64,
    shown: Shown<'a>,
    words: &'a Words,
    writer: &mut Counted<W>,
    so_far: Result<(), WriteFault>,
) -> Result<(), WriteFault>
    requires words { AreWords shown cpu.old.program words.now }
    ensures text { WritesAfter W.contents writer.old so_far writer.new result
        (trace_text limit shown.entry cpu.old) }
    ensures next { OnOk result (cpu.new ≡ plain_end limit cpu.old) }
    ensures way { IsOnTheWay limit cpu.old cpu.new }
{
    let passed = cpu.run(limit.min(shown.before()));
    let left = limit - passed;
    let taken = put_steps(
        cpu,
        words,
        &shown,
        passed,
        left.min(shown.count),
        writer,
        so_far,
    );
    match taken.written {
        Ok(()) => {}
        Err(fault) => return Err(fault),
    }
    let _rest = cpu.run(left - taken.steps);
    let slot = usize::from(cpu.pc());
    let place = text_of_slot(shown.places, slot);
    let told = told_in(words, &shown, slot, place, true);
    put_end_row(writer, taken.written, shown.form, told, limit, cpu)
}

/// Takes the steps of a run that are shown, and those before them, and writes their rows.
pub fn put_rows<'a, W: Write>(
    cpu: &mut Cpu,
    limit: u64,
    shown: Shown<'a>,
    words: &'a Words,
    writer: &mut Counted<W>,
    so_far: Result<(), WriteFault>,
) -> Result<(), WriteFault>
    requires { AreWords shown cpu.old.program words.now }
    ensures { WritesAfter W.contents writer.old so_far writer.new result
        (text_of_rows shown.entry (step_rows limit shown.entry cpu.old)) }
{
    let passed = cpu.run(limit.min(shown.before()));
    let most = (limit - passed).min(shown.count);
    let taken = put_steps(cpu, words, &shown, passed, most, writer, so_far);
    taken.written
}

/// Takes at most so many steps, after some, and writes the rows of those that are shown.
fn put_steps<'a, W: Write>(
    cpu: &mut Cpu,
    words: &'a Words,
    shown: &Shown<'a>,
    passed: u64,
    most: u64,
    writer: &mut Counted<W>,
    so_far: Result<(), WriteFault>,
) -> Taken
    requires counted { passed + most < 2 ^ 64 }
    requires words { AreWords shown.now cpu.old.program words.now }
    ensures text { WritesAfter W.contents writer.old so_far writer.new result.written
        (text_of_rows shown.now (rows_from shown.now [] (passed + 1) (steps_of most cpu.old))) }
    ensures taken { Takes most cpu.old cpu.new result.steps }
{
    let mut line = Line::new();
    let mut told = so_far;
    let mut before: &[u8] = &[];
    for k in 0..most {
        if cpu.status().has_ended() {
            return Taken {
                written: told,
                steps: k,
            };
        }
        let slot = usize::from(cpu.pc());
        let place = text_of_slot(shown.places, slot);
        let row = Row {
            form: shown.form,
            number: passed + k + 1,
            place: told_in(words, shown, slot, place, is_told(shown, before, place)),
        };
        told = put_row(
            cpu,
            &words.texts,
            shown.only_branches,
            &row,
            &mut line,
            writer,
            told,
        );
        before = place;
        match told {
            Ok(()) => {}
            Err(fault) => {
                return Taken {
                    written: Err(fault),
                    steps: k + 1,
                };
            }
        }
    }
    Taken {
        written: told,
        steps: most,
    }
}

/// Whether what there is to tell of the slot of a step that is shown is told, behind what was told of
/// the one before.
#[inline(always)]
fn is_told(shown: &Shown<'_>, before: &[u8], told: &[u8]) -> bool
    ensures { (if result then told.now else []) ≡ told_of shown.now before.now told.now }
{
    if shown.only_branches {
        return true;
    }
    is_other(before, told)
}

/// Whether there is something to tell, and not the same as before.
#[inline(always)]
fn is_other(before: &[u8], told: &[u8]) -> bool
    ensures { (if result then told.now else []) ≡ told_since before.now told.now }
{
    if told.is_empty() || *before == *told {
        false
    } else {
        true
    }
}

/// Takes a step, and writes its row, if it is shown.
#[inline(always)]
fn put_row<W: Write>(
    cpu: &mut Cpu,
    texts: &Texts,
    only_branches: bool,
    row: &Row<'_>,
    line: &mut Line,
    writer: &mut Counted<W>,
    so_far: Result<(), WriteFault>,
) -> Result<(), WriteFault>
    requires runs { has_ended cpu.old.status ≡ false }
    requires texts { texts.now ≡ texts_of cpu.old.program }
    ensures next { cpu.new ≡ next cpu.old }
    ensures text { WritesAfter W.contents writer.old so_far writer.new result
        (line_in only_branches row.now.form row.now.place.now row.now.number cpu.old) }
{
    if only_branches {
        put_branch(cpu, texts, row, line, writer, so_far)
    } else {
        put_step(cpu, texts, row, line, writer, so_far)
    }
}
