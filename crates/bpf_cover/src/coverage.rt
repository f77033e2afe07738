//! What ran of a program: of each slot whether some step went on from it, and whether some jumped.
ghost use Rattle.std.specs.Prelude.{◌≡◌, ◌&&◌, ◌||◌, ◌++◌, ◌==◌, ◌+◌, IfOk, List, [], count_by, length, ◌≤◌, ℕ};
ghost use Rattle.std.specs.Option.{option_map};
ghost use Rattle.bpf_isa.specs.Programs.{Checked};
ghost use Rattle.bpf_steps.specs.State.{State};
ghost use Rattle.bpf_cover.specs.Coverage.{counts_line, covered, has_run, is_far, is_fork as is_fork_of, mark_at, marks_of, miss_line, missed, table_text, way_missed, went_both_ways};
ghost use Rattle.bpf_cover.specs.Runs.{steps_of};
ghost use Rattle.bpf_cover.specs.Marking.{IsMarked, stepped};
ghost use Rattle.bpf_cover.specs.Sources.{AreRecords};
ghost use Rattle.bpf_cover.specs.Tracefiles.{record_text};
ghost use Rattle.counted_io.specs.Lines.{lines};
ghost use Rattle.counted_io.specs.Writing.{WritesAfter};

use crate::sources::put_records;
use crate::texts::Texts;
use crate::tracefile::put_record;
use bpf_isa::{Insn, Program};
use bpf_machine::{Cpu, Ended};
use counted_io::{Counted, Piece, WriteFault, put_all};
use std::alloc::{AllocError, Global};
use std::io::Write;
use std::marker::Model;

/// What is known of a slot.
#[derive(Clone, Copy)]
pub struct Mark {
    /// An instruction starts there.
    pub starts: bool,
    /// It is a conditional jump of two ways.
    pub forks: bool,
    /// A step went on from there to the slot behind it.
    pub went_on: bool,
    /// A step went to another slot, or ended the run.
    pub jumped: bool,
}

/// What ran of a program. Contracts see the marks of its slots and the texts of its instructions.
#[derive(Drop)]
pub struct Coverage {
    marks: Vec<Mark>,
    texts: Texts,
}

impl Model for Coverage {
    ghost use Rattle.std.specs.Prelude.{◌≡◌, length};
    ghost use Rattle.bpf_cover.specs.Coverage.{Covered};

    ghost Value = { Covered };

    ghost view = { λ c. record { marks = c.marks.items; texts = c.texts } };

    ghost invariant = { λ c. length c.marks.items ≡ length c.texts };
}

impl Coverage {
    /// That of a program of which nothing ran. All memory is taken here.
    pub fn of(alloc: Global, program: &Program) -> Result<Coverage, AllocError>
        ensures { IfOk result (λ coverage. coverage ≡ covered program.now []) }
    {
        let marks = marks_of(alloc, program)?;
        let texts = Texts::of(alloc, program)?;
        Ok(Coverage { marks, texts })
    }

    /// Runs a machine to its end, or to a limit of steps, and marks what runs.
    pub fn run(&mut self, cpu: &mut Cpu, limit: u64)
        ensures marks { (program : Checked) (xs : List State) → self.old ≡ covered program xs
            → self.new ≡ covered program (xs ++ steps_of limit cpu.old) }
        ensures program { cpu.new.program ≡ cpu.old.program }
    {
        mark_steps(cpu, limit, &mut self.marks);
    }

    /// Writes the table of a program that stands in a line of its file: how many instructions ran, how
    /// many conditional jumps went both ways, and what didn't.
    pub fn put<W: Write>(
        &self,
        writer: &mut Counted<W>,
        so_far: Result<(), WriteFault>,
        line: usize,
    ) -> Result<(), WriteFault>
        ensures { WritesAfter W.contents writer.old so_far writer.new result
            (table_text line self.now) }
    {
        let marks = self.marks.as_slice();
        let mut told = put_counts(writer, so_far, line, marks);
        for slot in 0..marks.len() {
            told = put_miss(writer, told, self.texts.at(slot), marks[slot]);
        }
        told
    }

    /// Writes the record of a program in a tracefile of lcov, where the program's listing stands in a
    /// file, behind so many lines of it. The table of its lines has a row an instruction, which begins
    /// with the slot and the line.
    pub fn put_record<W: Write>(
        &self,
        writer: &mut Counted<W>,
        so_far: Result<(), WriteFault>,
        file: &[u8],
        head: usize,
        table: &[u8],
    ) -> Result<(), WriteFault>
        ensures { WritesAfter W.contents writer.old so_far writer.new result
            (record_text file.now head (lines table.now) self.now.marks) }
    {
        put_record(writer, so_far, file, head, table, self.marks.as_slice())
    }

    /// Writes a record for each file of a program's source in a tracefile of lcov, by a table of where
    /// its slots stand there ([`is_table`](crate::is_table)). Takes time in proportion to the length of
    /// the table, times its logarithm.
    pub fn put_records<W: Write>(
        &self,
        alloc: Global,
        writer: &mut Counted<W>,
        so_far: Result<(), WriteFault>,
        table: &[u8],
    ) -> Result<Result<(), WriteFault>, AllocError>
        ensures { IfOk result (λ told. (text : List ℕ) × AreRecords self.now.marks table.now text
            × WritesAfter W.contents writer.old so_far writer.new told text) }
    {
        put_records(alloc, writer, so_far, table, self.marks.as_slice())
    }
}

/// The marks of a program of which nothing ran.
fn marks_of(alloc: Global, program: &Program) -> Result<Vec<Mark>, AllocError>
    ensures { IfOk result (λ marks. marks.items ≡ marks_of program.now []) }
{
    let mut marks = Vec::with_capacity(alloc, program.len())?;
    for slot in 0..program.len() {
        match marks.push(mark_at(program, slot)) {
            Ok(()) => {}
            Err(_) => return Err(AllocError),
        }
    }
    Ok(marks)
}

/// The mark of a slot where nothing ran.
fn mark_at(program: &Program, slot: usize) -> Mark
    ensures { result ≡ mark_at program.now [] slot }
{
    match program.insn_at(slot) {
        Some(insn) => Mark {
            starts: true,
            forks: is_fork(&insn),
            went_on: false,
            jumped: false,
        },
        None => Mark {
            starts: false,
            forks: false,
            went_on: false,
            jumped: false,
        },
    }
}

/// Whether an instruction is a conditional jump of two ways.
fn is_fork(insn: &Insn) -> bool
    ensures { result ≡ is_fork_of insn.now }
{
    match *insn {
        Insn::JumpIf { offset, .. } => is_far(offset),
        _ => false,
    }
}

/// Whether a distance leads elsewhere than to the next slot.
fn is_far(offset: i16) -> bool
    ensures { result ≡ is_far offset }
{
    offset != 0
}

/// Runs a machine to its end, or to a limit of steps, and marks its steps.
fn mark_steps(cpu: &mut Cpu, limit: u64, marks: &mut [Mark])
    ensures marks { IsMarked (steps_of limit cpu.old) marks.old marks.new }
    ensures program { cpu.new.program ≡ cpu.old.program }
{
    for _ in 0..limit {
        cpu.invariant();
        let from = cpu.pc();
        match cpu.advance() {
            Ok(()) => note(marks, from, cpu.pc()),
            Err(Ended) => return,
        }
    }
}

/// Marks a step from a slot to another one.
fn note(marks: &mut [Mark], from: u16, to: u16)
    ensures { (d : Mark) → marks.new ≡ stepped from (to == from + 1) marks.old d }
{
    let on = u32::from(to) == u32::from(from) + 1;
    let at = usize::from(from);
    if at < marks.len() {
        let old = marks[at];
        marks[at] = Mark {
            starts: old.starts,
            forks: old.forks,
            went_on: old.went_on || on,
            jumped: old.jumped || !on,
        };
    }
}

/// Writes how many instructions ran, and how many conditional jumps went both ways.
fn put_counts<W: Write>(
    writer: &mut Counted<W>,
    so_far: Result<(), WriteFault>,
    line: usize,
    marks: &[Mark],
) -> Result<(), WriteFault>
    ensures { WritesAfter W.contents writer.old so_far writer.new result
        (counts_line line marks.now) }
{
    let ran = count_run(marks);
    let instructions = count_starts(marks);
    let both = count_both(marks);
    let branches = count_forks(marks);
    let pieces = [
        Piece::Text(b"# cover of the program in line "),
        Piece::Decimal(line as u64),
        Piece::Text(b": "),
        Piece::Decimal(ran as u64),
        Piece::Text(b" of "),
        Piece::Decimal(instructions as u64),
        Piece::Text(b" instructions, "),
        Piece::Decimal(both as u64),
        Piece::Text(b" of "),
        Piece::Decimal(branches as u64),
        Piece::Text(b" branches both ways\n"),
    ];
    put_all(writer, so_far, &pieces)
}

/// How many instructions ran.
pub fn count_run(marks: &[Mark]) -> usize
    ensures { result ≡ count_by has_run marks.now }
{
    marks.iter().filter(|mark| has_run(**mark)).count()
}

/// How many instructions there are.
pub fn count_starts(marks: &[Mark]) -> usize
    ensures { result ≡ count_by (λ mark. mark.starts) marks.now }
{
    marks.iter().filter(|mark| mark.starts).count()
}

/// How many conditional jumps of two ways went both.
fn count_both(marks: &[Mark]) -> usize
    ensures { result ≡ count_by went_both_ways marks.now }
{
    marks.iter().filter(|mark| went_both_ways(**mark)).count()
}

/// How many conditional jumps of two ways there are.
pub fn count_forks(marks: &[Mark]) -> usize
    ensures count { result ≡ count_by (λ mark. mark.forks) marks.now }
    ensures within { result ≤ length marks.now }
{
    marks.iter().filter(|mark| mark.forks).count()
}

/// Whether some step was taken from a slot.
pub fn has_run(mark: Mark) -> bool
    ensures { result ≡ has_run mark }
{
    mark.went_on || mark.jumped
}

/// Whether a conditional jump went both ways.
fn went_both_ways(mark: Mark) -> bool
    ensures { result ≡ went_both_ways mark }
{
    mark.forks && mark.went_on && mark.jumped
}

/// Writes the line of an instruction of which something didn't run, and else nothing.
fn put_miss<W: Write>(
    writer: &mut Counted<W>,
    so_far: Result<(), WriteFault>,
    text: &[u8],
    mark: Mark,
) -> Result<(), WriteFault>
    ensures { WritesAfter W.contents writer.old so_far writer.new result
        (miss_line text.now mark) }
{
    match missed(mark) {
        Some(what) => {
            let pieces = [
                Piece::Text(b"# "),
                Piece::Text(what),
                Piece::Text(text),
                Piece::Text(b"\n"),
            ];
            put_all(writer, so_far, &pieces)
        }
        None => put_all(writer, so_far, &[]),
    }
}

/// What of an instruction didn't run.
fn missed(mark: Mark) -> Option<&'static [u8]>
    ensures { option_map (λ text. text.now) result ≡ missed mark }
{
    if mark.forks {
        return way_missed(mark.went_on, mark.jumped);
    }
    if mark.starts && !has_run(mark) {
        Some(b"never ran: ")
    } else {
        None
    }
}

/// What of a conditional jump didn't run.
fn way_missed(went_on: bool, jumped: bool) -> Option<&'static [u8]>
    ensures { option_map (λ text. text.now) result ≡ way_missed went_on jumped }
{
    match (went_on, jumped) {
        (true, true) => None,
        (true, false) => Some(b"never jumped: "),
        (false, true) => Some(b"never went on: "),
        (false, false) => Some(b"never ran: "),
    }
}
