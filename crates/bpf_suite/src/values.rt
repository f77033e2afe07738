//! Values of cells where a program has ended.
ghost use Rattle.std.specs.Prelude.{◌≡◌, ◌≤◌, ◌<◌, ◌-◌, ◌^◌, ◌∷◌, ◌++◌, IfOk, IfSome, IsSome, List, Ok, OnOk, [], filter, flat_map, not};
ghost use Rattle.std.specs.Option.{option_map};
ghost use Rattle.bpf_steps.specs.Platform.{cell_address as cell_address_of};
ghost use Rattle.bpf_steps.specs.Regions.{index_of};
ghost use Rattle.counted_io.specs.Writing.{WritesAfter};
ghost use Rattle.bpf_suite.specs.Reports.{AreTold, cell_text, cells_text, more_text, value_text};
ghost use Rattle.bpf_suite.specs.Verdicts.{cell_size, cell_value, holds, wrong_lines};
ghost use Rattle.bpf_suite.specs.declared.cells.CellLine.{CellLine};

use crate::body::{fits_body, trimmed};
use crate::cells::CellLine;
use crate::image::{MAP_BASE, MAP_STRIDE};
use crate::refusal::Refusal;
use bpf_machine::Cpu;
use bpfdb_script::{Span, put_bytes};
use counted_io::{Counted, Piece, WriteFault, put, put_all};
use std::alloc::{AllocError, Global};
use std::io::Write;

/// The most wrong cells that a report tells of.
const MOST_TOLD: usize = 16;

/// Lines about cells that don't hold: the first ones, and how many more there are.
#[derive(Drop)]
pub struct WrongCells<'a> {
    pub told: Vec<CellLine<'a>>,
    pub more: usize,
}

impl<'a> WrongCells<'a> {
    /// The same lines, as many more.
    pub fn copied(&self, alloc: Global) -> Result<WrongCells<'a>, AllocError>
        ensures { (all : List CellLine) → AreTold all self.now → IfOk result (AreTold all) }
    {
        let told = self.told.iter().map(|line| line.copied()).collect(alloc)?;
        Ok(WrongCells {
            told,
            more: self.more,
        })
    }
}

/// The address of a cell of a map, whose values have n bytes.
fn cell_address(map: u64, index: u64, n: u64) -> u64
    requires { (map < 16) × (index < 4096) × (n ≤ 256) }
    ensures { result ≡ cell_address_of map index n }
{
    MAP_BASE + MAP_STRIDE * map + n * index
}

/// The span of a value.
fn span_of(n: u32) -> Span
    requires { (1 ≤ n) × (n ≤ 256) }
    ensures { result ≡ n }
{
    match Span::new(u64::from(n)) {
        Some(span) => span,
        None => unreachable!(),
    }
}

/// How many bytes a value of a map has, where it has this cell.
fn cell_size(cpu: &Cpu, map: u64, index: u64) -> Option<Span>
    ensures value { result ≡ cell_size cpu.now map index }
    ensures limits { IfSome result (λ n. (map < 16) × (index < 4096) × (n ≤ 256)) }
    ensures present { IfSome result (λ n.
        IsSome (index_of cpu.now.memory (cell_address_of map index n) n)) }
{
    cpu.invariant();
    match cpu.program().maps().shape(map as usize) {
        Some(shape) => {
            if index < u64::from(shape.entries) {
                Some(span_of(shape.value_size))
            } else {
                None
            }
        }
        None => None,
    }
}

/// The value of a cell, None where there is no such cell.
fn cell_value(cpu: &Cpu, map: u64, index: u64) -> Option<&[u8]>
    ensures { option_map (λ value. value.now) result ≡ cell_value cpu.now map index }
{
    match cell_size(cpu, map, index) {
        Some(span) => cpu.peek(cell_address(map, index, span.get()), span.get() as usize),
        None => None,
    }
}

/// Whether a cell holds what a line says.
fn holds(alloc: Global, cpu: &Cpu, line: &CellLine<'_>) -> Result<bool, AllocError>
    ensures { IfOk result (λ is. is ≡ holds cpu.now line.now) }
{
    match cell_value(cpu, line.map, line.index) {
        Some(value) => fits_body(alloc, line.digits.bytes, value),
        None => Ok(false),
    }
}

/// The lines that don't hold where a program has ended.
pub fn wrong_cells<'a>(
    alloc: Global,
    lines: &[CellLine<'a>],
    outcome: &Result<Cpu, Refusal>,
) -> Result<WrongCells<'a>, AllocError>
    ensures { IfOk result (AreTold (wrong_lines lines.now outcome.now)) }
{
    match outcome {
        Ok(cpu) => wrong_on(alloc, lines, cpu),
        Err(_) => Ok(WrongCells {
            told: Vec::new(alloc),
            more: 0,
        }),
    }
}

/// The lines that don't hold on a machine.
pub fn wrong_on<'a>(
    alloc: Global,
    lines: &[CellLine<'a>],
    cpu: &Cpu,
) -> Result<WrongCells<'a>, AllocError>
    ensures { IfOk result (AreTold (wrong_lines lines.now (Ok cpu.now))) }
{
    let mut wrong = WrongCells {
        told: Vec::new(alloc),
        more: 0,
    };
    note_each(alloc, &mut wrong, cpu, lines)?;
    Ok(wrong)
}

/// Notes the lines that don't hold.
fn note_each<'a>(
    alloc: Global,
    wrong: &mut WrongCells<'a>,
    cpu: &Cpu,
    lines: &[CellLine<'a>],
) -> Result<(), AllocError>
    requires { AreTold [] wrong.old }
    ensures { OnOk result (AreTold (filter (λ line. not (holds cpu.now line)) lines.now)
        wrong.new) }
{
    for line in lines {
        note_wrong(alloc, wrong, cpu, line)?;
    }
    Ok(())
}

/// Notes a line, unless it holds.
fn note_wrong<'a>(
    alloc: Global,
    wrong: &mut WrongCells<'a>,
    cpu: &Cpu,
    line: &CellLine<'a>,
) -> Result<(), AllocError>
    requires { wrong.old.more < 2 ^ 64 - 1 }
    ensures { OnOk result ((all : List CellLine) → AreTold all wrong.old
        → AreTold (all ++ filter (λ l. not (holds cpu.now l)) (line.now ∷ [])) wrong.new) }
{
    if holds(alloc, cpu, line)? {
        Ok(())
    } else {
        note(wrong, line)
    }
}

/// Notes a line.
fn note<'a>(wrong: &mut WrongCells<'a>, line: &CellLine<'a>) -> Result<(), AllocError>
    requires { wrong.old.more < 2 ^ 64 - 1 }
    ensures { OnOk result ((all : List CellLine) → AreTold all wrong.old
        → AreTold (all ++ line.now ∷ []) wrong.new) }
{
    if wrong.told.len() == MOST_TOLD {
        wrong.more += 1;
        return Ok(());
    }
    match wrong.told.push(line.copied()) {
        Ok(()) => Ok(()),
        Err(_) => Err(AllocError),
    }
}

/// Writes which cells of a machine are wrong.
pub fn put_cells<W: Write>(
    writer: &mut Counted<W>,
    so_far: Result<(), WriteFault>,
    outcome: &Result<Cpu, Refusal>,
    wrong: &WrongCells<'_>,
) -> Result<(), WriteFault>
    ensures { (all : List CellLine) → AreTold all wrong.now
        → WritesAfter W.contents writer.old so_far writer.new result (cells_text all outcome.now) }
{
    match outcome {
        Ok(cpu) => {
            let told = put_each_cell(writer, so_far, cpu, wrong.told.as_slice());
            put_more(writer, told, wrong.more)
        }
        Err(_) => put(writer, so_far, b""),
    }
}

/// Writes how many wrong cells there are besides, if there are some.
fn put_more<W: Write>(
    writer: &mut Counted<W>,
    so_far: Result<(), WriteFault>,
    more: usize,
) -> Result<(), WriteFault>
    ensures { WritesAfter W.contents writer.old so_far writer.new result (more_text more) }
{
    if more == 0 {
        return put(writer, so_far, b"");
    }
    let pieces = [
        Piece::Text(b"# more wrong cells: "),
        Piece::Decimal(more as u64),
        Piece::Text(b"\n"),
    ];
    put_all(writer, so_far, &pieces)
}

/// Writes each of these cells.
fn put_each_cell<W: Write>(
    writer: &mut Counted<W>,
    so_far: Result<(), WriteFault>,
    cpu: &Cpu,
    wrong: &[CellLine<'_>],
) -> Result<(), WriteFault>
    ensures { WritesAfter W.contents writer.old so_far writer.new result
        (flat_map (cell_text cpu.now) wrong.now) }
{
    let mut told = so_far;
    for line in wrong {
        told = put_cell(writer, told, cpu, line);
    }
    told
}

/// Writes what a cell holds, and what is wanted of it.
fn put_cell<W: Write>(
    writer: &mut Counted<W>,
    so_far: Result<(), WriteFault>,
    cpu: &Cpu,
    line: &CellLine<'_>,
) -> Result<(), WriteFault>
    ensures { WritesAfter W.contents writer.old so_far writer.new result
        (cell_text cpu.now line.now) }
{
    let came = [
        Piece::Text(b"# cell "),
        Piece::Decimal(line.map),
        Piece::Text(b" "),
        Piece::Decimal(line.index),
        Piece::Text(b" came: "),
    ];
    let begun = put_all(writer, so_far, &came);
    let told = put_value(writer, begun, cpu, line.map, line.index);
    let pattern = trimmed(line.text());
    let wanted = [
        Piece::Text(b"# cell "),
        Piece::Decimal(line.map),
        Piece::Text(b" "),
        Piece::Decimal(line.index),
        Piece::Text(b" wanted: "),
        Piece::Text(pattern),
        Piece::Text(b"\n"),
    ];
    put_all(writer, told, &wanted)
}

/// Writes the address and the value of a cell.
fn put_value<W: Write>(
    writer: &mut Counted<W>,
    so_far: Result<(), WriteFault>,
    cpu: &Cpu,
    map: u64,
    index: u64,
) -> Result<(), WriteFault>
    ensures { WritesAfter W.contents writer.old so_far writer.new result
        (value_text cpu.now map index) }
{
    match cell_size(cpu, map, index) {
        Some(span) => put_bytes(
            writer,
            so_far,
            cpu,
            cell_address(map, index, span.get()),
            span,
        ),
        None => put(writer, so_far, b"none\n"),
    }
}
