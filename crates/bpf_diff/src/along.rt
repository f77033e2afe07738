//! A run that goes forward along a trace, as long as that tells its steps.
ghost use Rattle.std.specs.Prelude.{◌≡◌, ◌≤◌, IfOk, [], ◌&&◌, ◌+◌, false, not, reverse, take, true};
ghost use Rattle.std.specs.Option.{option_map_or};
ghost use Rattle.bpf_entries.specs.Status.{has_ended};
ghost use Rattle.bpf_isa.specs.Programs.{IsStart};
ghost use Rattle.bpf_steps.specs.State.{State};
ghost use Rattle.bpf_trace.specs.Runs.{steps_of};
ghost use Rattle.bpf_trace.specs.Taken.{Took};
ghost use Rattle.bpf_trace.specs.Traces.{step_line};
ghost use Rattle.bpf_diff.specs.Against.{are_told, begins_place, entries_of, entry as entry_of, is_line, unplaced};
ghost use Rattle.bpf_diff.specs.Noted.{AreNotes, Halts, HaltsBehind, Stops};
ghost use Rattle.input_texts.specs.declared.trace_form.Form.TheVariants.{Registers};

use crate::told_writers::Notes;
use bpf_machine::Cpu;
use bpf_trace::{Taken, put_taken};
use bpfdb_script::number_in;
use counted_io::{Counted, WriteFault};
use input_texts::{Told, Words, is_told};
use std::alloc::{AllocError, Global};

/// Where a run and a trace stand behind the steps that it tells: the next line, if there is one.
#[derive(Clone, Copy)]
pub struct Halt<'a> {
    pub steps: u64,
    pub line: Option<&'a [u8]>,
}

/// The same, with the step that the line doesn't tell, which was taken.
#[derive(Clone, Copy)]
pub struct StepHalt<'a> {
    pub halt: Halt<'a>,
    pub taken: Option<Taken>,
}

/// Takes steps as long as the lines of a trace tell the registers before them, at most so many.
pub fn follow_registers<'a>(
    cpu: &mut Cpu,
    told: &mut Told<'a>,
    notes: &mut Notes,
    limit: u64,
) -> Halt<'a>
    requires { AreNotes [] notes.old.notes notes.old.last }
    ensures halts { Halts Registers limit cpu.old told.old cpu.new result.steps result.line
        told.new }
    ensures stops { Stops Registers limit result.steps cpu.new result.line }
    ensures notes { AreNotes (reverse (take result.steps (steps_of limit cpu.old)))
        notes.new.notes notes.new.last }
{
    for k in 0..limit {
        let line = told.next_told();
        if !goes_on(cpu, line) {
            return Halt { steps: k, line };
        }
        let taken = take_step(cpu);
        notes.note(cpu, k + 1, &taken);
    }
    Halt {
        steps: limit,
        line: told.next_told(),
    }
}

/// Whether a machine takes a step, and a line tells the registers before it.
fn goes_on(cpu: &Cpu, line: Option<&[u8]>) -> bool
    ensures { result ≡ not (has_ended cpu.now.status)
        && option_map_or (λ text. are_told cpu.now 0 (entries_of text.now)) line.entry false }
{
    if cpu.status().has_ended() {
        return false;
    }
    match line {
        Some(text) => are_told(cpu, text),
        None => false,
    }
}

/// Whether a line of registers tells those of a machine.
fn are_told(cpu: &Cpu, line: &[u8]) -> bool
    ensures { result ≡ are_told cpu.now 0 (entries_of line.now) }
{
    let mut words = Words::of(line);
    for entry in 0..12 {
        match words.next_word() {
            Some(word) => {
                if !is_told(entry_in(cpu, entry), word) {
                    return false;
                }
            }
            None => return true,
        }
    }
    true
}

/// An entry of a line of registers: the slot, or a register.
pub fn entry_in(cpu: &Cpu, entry: u8) -> u64
    requires { entry ≤ 11 }
    ensures { result ≡ entry_of cpu.now entry }
{
    if entry == 0 {
        u64::from(cpu.pc())
    } else {
        number_in(cpu, entry - 1)
    }
}

/// Takes steps as long as the lines of a trace tell them as `trace` does, at most so many.
pub fn follow_steps<'a>(
    alloc: Global,
    cpu: &mut Cpu,
    told: &mut Told<'a>,
    limit: u64,
) -> Result<StepHalt<'a>, AllocError>
    ensures { IfOk result (λ at. HaltsBehind limit cpu.old told.old cpu.new at.halt.steps
        at.halt.line told.new at.taken) }
{
    for k in 0..limit {
        let line = told.next_told();
        if cpu.status().has_ended() {
            return Ok(StepHalt {
                halt: Halt { steps: k, line },
                taken: None,
            });
        }
        let taken = take_step(cpu);
        let is_told = match is_step_told(alloc, cpu, k + 1, &taken, line) {
            Ok(is_told) => is_told,
            Err(fault) => return Err(fault),
        };
        if !is_told {
            return Ok(StepHalt {
                halt: Halt { steps: k, line },
                taken: Some(taken),
            });
        }
    }
    Ok(StepHalt {
        halt: Halt {
            steps: limit,
            line: told.next_told(),
        },
        taken: None,
    })
}

/// Takes a step, and answers what it did.
fn take_step(cpu: &mut Cpu) -> Taken
    requires { has_ended cpu.old.status ≡ false }
    ensures { Took cpu.old cpu.new result }
{
    cpu.invariant();
    let slot = cpu.pc();
    let change = cpu.look_on();
    cpu.commit(&change);
    Taken { slot, change }
}

/// Whether a line tells a step that led to where a machine stands, as `trace` does, whatever it tells
/// of where it stands in C.
fn is_step_told(
    alloc: Global,
    cpu: &Cpu,
    number: u64,
    taken: &Taken,
    line: Option<&[u8]>,
) -> Result<bool, AllocError>
    requires { IsStart cpu.now.program taken.now.slot }
    ensures { IfOk result (λ told. (x : State) → Took x cpu.now taken.now →
        told ≡ option_map_or (λ text. is_line (step_line [] number x) (unplaced text.now))
        line.entry false) }
{
    match line {
        None => Ok(false),
        Some(line) => match step_text(alloc, cpu, number, taken) {
            Ok(text) => Ok(is_line(text.as_slice(), unplaced(line))),
            Err(fault) => Err(fault),
        },
    }
}

/// The line of a step that led to where a machine stands.
fn step_text(alloc: Global, cpu: &Cpu, number: u64, taken: &Taken) -> Result<Vec<u8>, AllocError>
    requires { IsStart cpu.now.program taken.now.slot }
    ensures { IfOk result (λ text. (x : State) → Took x cpu.now taken.now →
        text.items ≡ step_line [] number x) }
{
    let mut writer = Counted::new(Vec::new(alloc));
    match put_taken(&mut writer, Ok(()), number, taken, cpu, &[]) {
        Ok(()) => Ok(writer.into_inner()),
        Err(WriteFault) => Err(AllocError),
    }
}

/// What a line tells besides where the step, or the end, stands in C, which ends it.
pub fn unplaced(line: &[u8]) -> &[u8]
    ensures { result.now ≡ unplaced line.now }
{
    for at in 0..line.len() {
        if begins_place(&line[at..]) {
            return &line[..at];
        }
    }
    line
}

/// Whether a place in C begins there.
#[tactic(auto, unfolding(crate::specs::Against::begins_place))]
fn begins_place(text: &[u8]) -> bool
    ensures { result ≡ begins_place text.now }
{
    text.strip_prefix(b"; in ").is_some()
}

/// Whether a text with its line feed is this line.
pub fn is_line(text: &[u8], line: &[u8]) -> bool
    ensures { result ≡ is_line text.now line.now }
{
    match text.split_last() {
        Some((last, front)) => *last == b'\n' && *front == *line,
        None => false,
    }
}
