//! What is told where a run and a trace no longer agree, or at their end.
ghost use Rattle.std.specs.Prelude.{◌≤◌, ◌++◌, ℕ, List, [], codes, if◌then◌else◌, ◌≡◌};
ghost use Rattle.std.specs.Option.{option_map_or};
ghost use Rattle.bpf_isa.specs.Programs.{IsStart};
ghost use Rattle.bpf_steps.specs.State.{State, register};
ghost use Rattle.bpf_trace.specs.Taken.{Took};
ghost use Rattle.input_texts.specs.TraceForms.{is_told as is_told_of, number as number_told};
ghost use Rattle.counted_io.specs.Writing.{WritesAfter, hexadecimal};
ghost use Rattle.bpf_diff.specs.Against.{difference, differences, end_here, entries_of, entry as entry_of, entry_text, goes_on, here, other_text, registers_from, same_text, there};
ghost use Rattle.bpf_diff.specs.Noted.{AreNotes};
ghost use Rattle.bpf_diff.specs.Writers.{behind, writer_of};
ghost use Rattle.input_texts.specs.declared.trace_form.Form.TheVariants.{Registers, Steps};

use crate::along::entry_in;
use crate::told_writers::{Notes, Writer, put_writer};
use bpf_machine::Cpu;
use bpf_trace::{Taken, put_end, put_taken};
use bpfdb_script::{number_in, put_shown};
use counted_io::{Counted, WriteFault, put, put_decimal, put_hexadecimal};
use input_texts::{Words, is_told, number_of};
use std::io::Write;

/// Writes the line of a step here that led to where a machine stands, as `trace` has it.
pub fn put_step_here<W: Write>(
    writer: &mut Counted<W>,
    so_far: Result<(), WriteFault>,
    number: u64,
    taken: &Taken,
    cpu: &Cpu,
) -> Result<(), WriteFault>
    requires { IsStart cpu.now.program taken.now.slot }
    ensures { (x : State) → Took x cpu.now taken.now →
        WritesAfter W.contents writer.old so_far writer.new result (here Steps number x) }
{
    let marked = put(writer, so_far, b"< ");
    put_taken(writer, marked, number, taken, cpu, &[])
}

/// Writes the slot and the registers here.
pub fn put_registers_here<W: Write>(
    writer: &mut Counted<W>,
    so_far: Result<(), WriteFault>,
    cpu: &Cpu,
) -> Result<(), WriteFault>
    ensures { (k : ℕ) → WritesAfter W.contents writer.old so_far writer.new result
        (here Registers k cpu.now) }
{
    let marked = put(writer, so_far, b"< ");
    let begun = put_decimal(writer, marked, u64::from(cpu.pc()));
    put_registers(writer, begun, cpu)
}

/// Writes r0 to r10, each behind a blank, and ends the line.
fn put_registers<W: Write>(
    writer: &mut Counted<W>,
    so_far: Result<(), WriteFault>,
    cpu: &Cpu,
) -> Result<(), WriteFault>
    ensures { WritesAfter W.contents writer.old so_far writer.new result
        (registers_from cpu.now 0 11) }
{
    let mut told = so_far;
    for number in 0..11 {
        told = put_register(writer, told, cpu, number);
    }
    put(writer, told, b"\n")
}

/// Writes a register behind a blank.
fn put_register<W: Write>(
    writer: &mut Counted<W>,
    so_far: Result<(), WriteFault>,
    cpu: &Cpu,
    number: u8,
) -> Result<(), WriteFault>
    requires { number ≤ 10 }
    ensures { WritesAfter W.contents writer.old so_far writer.new result
        (codes " " ++ hexadecimal (register cpu.now number)) }
{
    let begun = put(writer, so_far, b" ");
    put_hexadecimal(writer, begun, number_in(cpu, number))
}

/// Writes a line of the trace.
pub fn put_there<W: Write>(
    writer: &mut Counted<W>,
    so_far: Result<(), WriteFault>,
    line: &[u8],
) -> Result<(), WriteFault>
    ensures { WritesAfter W.contents writer.old so_far writer.new result (there line.now) }
{
    let marked = put(writer, so_far, b"> ");
    let told = put_shown(writer, marked, line);
    put(writer, told, b"\n")
}

/// Writes each entry of a line of registers that is another one here.
pub fn put_differences<W: Write>(
    writer: &mut Counted<W>,
    so_far: Result<(), WriteFault>,
    cpu: &Cpu,
    notes: &Notes,
    line: &[u8],
) -> Result<(), WriteFault>
    ensures { (before : List State) → AreNotes before notes.now.notes notes.now.last →
        WritesAfter W.contents writer.old so_far writer.new result
        (differences before cpu.now 0 (entries_of line.now)) }
{
    let mut words = Words::of(line);
    let mut told = so_far;
    for entry in 0..12 {
        match words.next_word() {
            Some(word) => told = put_entry(writer, told, cpu, notes, entry, word),
            None => return told,
        }
    }
    told
}

/// Writes an entry of a line of registers, if it is another one here.
fn put_entry<W: Write>(
    writer: &mut Counted<W>,
    so_far: Result<(), WriteFault>,
    cpu: &Cpu,
    notes: &Notes,
    entry: u8,
    word: &[u8],
) -> Result<(), WriteFault>
    requires { entry ≤ 11 }
    ensures { (before : List State) → AreNotes before notes.now.notes notes.now.last →
        WritesAfter W.contents writer.old so_far writer.new result
        (if is_told_of (entry_of cpu.now entry) word.now then [] else difference before cpu.now entry word.now) }
{
    if is_told(entry_in(cpu, entry), word) {
        so_far
    } else {
        put_difference(writer, so_far, cpu, notes, entry, word)
    }
}

/// Writes an entry that is another one here, and which step led to it here.
#[tactic(auto, unfolding(crate::specs::Against::difference))]
fn put_difference<W: Write>(
    writer: &mut Counted<W>,
    so_far: Result<(), WriteFault>,
    cpu: &Cpu,
    notes: &Notes,
    entry: u8,
    word: &[u8],
) -> Result<(), WriteFault>
    requires { entry ≤ 11 }
    ensures { (before : List State) → AreNotes before notes.now.notes notes.now.last →
        WritesAfter W.contents writer.old so_far writer.new result
        (difference before cpu.now entry word.now) }
{
    let named = put_entry_here(writer, so_far, entry, entry_in(cpu, entry));
    let told = put(writer, named, b" here, ");
    let both = put_value(writer, told, entry, value_in(word));
    let parted = put(writer, both, b" there");
    put_behind(writer, parted, cpu, notes, entry)
}

/// The number that a word tells, 0 where it tells none.
fn value_in(word: &[u8]) -> u64
    ensures { result ≡ option_map_or (λ n. n) (number_told word.now) 0 }
{
    match number_of(word) {
        Some(value) => value,
        None => 0,
    }
}

/// Writes the name of an entry, and its value here.
fn put_entry_here<W: Write>(
    writer: &mut Counted<W>,
    so_far: Result<(), WriteFault>,
    entry: u8,
    value: u64,
) -> Result<(), WriteFault>
    ensures { WritesAfter W.contents writer.old so_far writer.new result
        (entry_text entry value) }
{
    if entry == 0 {
        let named = put(writer, so_far, b"slot: ");
        put_decimal(writer, named, value)
    } else {
        let begun = put(writer, so_far, b"r");
        let named = put_decimal(writer, begun, u64::from(entry - 1));
        let parted = put(writer, named, b": ");
        put_hexadecimal(writer, parted, value)
    }
}

/// Writes the value of an entry: a slot, or what a register holds.
fn put_value<W: Write>(
    writer: &mut Counted<W>,
    so_far: Result<(), WriteFault>,
    entry: u8,
    value: u64,
) -> Result<(), WriteFault>
    ensures { WritesAfter W.contents writer.old so_far writer.new result
        (other_text entry value) }
{
    if entry == 0 {
        put_decimal(writer, so_far, value)
    } else {
        put_hexadecimal(writer, so_far, value)
    }
}

/// Writes which step led to an entry here, but for r10, and ends the line.
fn put_behind<W: Write>(
    writer: &mut Counted<W>,
    so_far: Result<(), WriteFault>,
    cpu: &Cpu,
    notes: &Notes,
    entry: u8,
) -> Result<(), WriteFault>
    requires { entry ≤ 11 }
    ensures { (before : List State) → AreNotes before notes.now.notes notes.now.last →
        WritesAfter W.contents writer.old so_far writer.new result
        (behind before cpu.now entry) }
{
    if entry > 10 {
        put(writer, so_far, b"\n")
    } else {
        put_writer(writer, so_far, cpu.program(), writer_in(notes, cpu, entry))
    }
}

/// Which step led to the slot, or to a register but r10.
fn writer_in(notes: &Notes, cpu: &Cpu, entry: u8) -> Writer
    requires { entry ≤ 10 }
    ensures { (before : List State) → AreNotes before notes.now.notes notes.now.last →
        result ≡ writer_of before cpu.now entry }
{
    if entry == 0 {
        notes.last_step()
    } else {
        notes.writer_of(cpu, entry - 1)
    }
}

/// Writes how the run ended here.
pub fn put_end_here<W: Write>(
    writer: &mut Counted<W>,
    so_far: Result<(), WriteFault>,
    limit: u64,
    cpu: &Cpu,
) -> Result<(), WriteFault>
    ensures { WritesAfter W.contents writer.old so_far writer.new result
        (end_here limit cpu.now) }
{
    let marked = put(writer, so_far, b"< ");
    put_end(writer, marked, limit, cpu)
}

/// Writes that the trace goes on behind the end of the run.
pub fn put_more<W: Write>(
    writer: &mut Counted<W>,
    so_far: Result<(), WriteFault>,
    limit: u64,
    cpu: &Cpu,
    line: &[u8],
) -> Result<(), WriteFault>
    ensures { WritesAfter W.contents writer.old so_far writer.new result
        (goes_on limit cpu.now line.now) }
{
    let headed = put(writer, so_far, b"the trace goes on\n");
    let half = put_end_here(writer, headed, limit, cpu);
    put_there(writer, half, line)
}

/// Writes that the trace tells the whole run, of how many steps, and how that ended.
pub fn put_same<W: Write>(
    writer: &mut Counted<W>,
    so_far: Result<(), WriteFault>,
    limit: u64,
    steps: u64,
    cpu: &Cpu,
) -> Result<(), WriteFault>
    ensures { WritesAfter W.contents writer.old so_far writer.new result
        (same_text limit steps cpu.now) }
{
    let begun = put(writer, so_far, b"same for ");
    let counted = put_decimal(writer, begun, steps);
    let parted = put(writer, counted, b" steps\n");
    put_end(writer, parted, limit, cpu)
}
