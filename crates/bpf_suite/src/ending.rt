//! What maps hold where a program has ended: tests that share lines about cells, and that leave the
//! same bytes, share what is wrong of these, too.
ghost use Rattle.std.specs.Prelude.{◌≡◌, ◌<◌, ◌+◌, ◌++◌, ℕ, IfOk, IsTrue, OnOk, Ok, Some, length, slice_get, slice_range, take};
ghost use Rattle.bpf_steps.specs.Regions.{map_len, maps_len};
ghost use Rattle.bpf_suite.specs.Endings.{HasEnding, IsEnding};
ghost use Rattle.bpf_suite.specs.Images.{map_bytes as map_bytes_of};
ghost use Rattle.bpf_suite.specs.Reports.{AreTold};
ghost use Rattle.bpf_suite.specs.Verdicts.{wrong_lines};

use crate::cells::CellLine;
use crate::image::{MAP_BASE, MAP_STRIDE};
use crate::refusal::Refusal;
use crate::values::{WrongCells, wrong_cells, wrong_on};
use bpf_isa::MapShape;
use bpf_machine::Cpu;
use std::alloc::{AllocError, Global};
use std::marker::Model;

/// So many lines are held against cells one by one: that takes less time than to copy the maps.
const FEW_LINES: usize = 64;

/// What maps hold where a program has ended, and the lines that don't hold there.
#[derive(Drop)]
pub struct Ending<'a> {
    /// The shapes of the maps.
    pub shapes: Vec<MapShape>,
    /// Their bytes, side by side.
    pub bytes: Vec<u8>,
    pub wrong: WrongCells<'a>,
}

/// Lines about cells that tests share. Contracts see them as a list.
#[derive(Drop)]
pub struct Wanted<'a> {
    lines: Vec<CellLine<'a>>,
    /// What the last test came to that was held against them, if they are more than a few.
    ending: Option<Ending<'a>>,
}

impl<'a> Model for Wanted<'a> {
    ghost use Rattle.std.specs.Prelude.{List};
    ghost use Rattle.bpf_suite.specs.Endings.{HasEnding};
    ghost use Rattle.bpf_suite.specs.declared.cells.CellLine.{CellLine};

    ghost Value = { List CellLine };

    ghost view = { λ w. w.lines.items };

    ghost invariant = { λ w. HasEnding w.lines.items w.ending };
}

impl<'a> Wanted<'a> {
    /// These lines.
    pub fn of(lines: Vec<CellLine<'a>>) -> Wanted<'a>
        ensures { result ≡ lines.entry.items }
    {
        Wanted {
            lines,
            ending: None,
        }
    }

    /// The lines that don't hold where a program has ended: where its maps hold what those of the
    /// last test held, they are the same as there.
    pub fn wrong_cells(
        &mut self,
        alloc: Global,
        outcome: &Result<Cpu, Refusal>,
    ) -> Result<WrongCells<'a>, AllocError>
        ensures wrong { IfOk result (AreTold (wrong_lines self.old outcome.now)) }
        ensures lines { self.new ≡ self.old }
    {
        if self.lines.len() <= FEW_LINES {
            return wrong_cells(alloc, self.lines.as_slice(), outcome);
        }
        match outcome {
            Ok(cpu) => {
                let ending = ending_on(alloc, self.lines.as_slice(), cpu, self.ending.take())?;
                let wrong = ending.wrong.copied(alloc);
                self.ending = Some(ending);
                wrong
            }
            Err(_) => wrong_cells(alloc, self.lines.as_slice(), outcome),
        }
    }
}

/// What a machine came to: the kept one, if its maps hold the same.
fn ending_on<'a>(
    alloc: Global,
    lines: &[CellLine<'a>],
    cpu: &Cpu,
    kept: Option<Ending<'a>>,
) -> Result<Ending<'a>, AllocError>
    requires { HasEnding lines.now kept }
    ensures ending { IfOk result (IsEnding lines.now) }
    ensures wrong { IfOk result (λ ending.
        AreTold (wrong_lines lines.now (Ok cpu.now)) ending.wrong) }
{
    cpu.invariant();
    let shapes = shapes_of(alloc, cpu)?;
    let bytes = map_bytes(alloc, cpu)?;
    match kept {
        Some(ending) => {
            if are_shapes(ending.shapes.as_slice(), shapes.as_slice())
                && ending.bytes.as_slice() == bytes.as_slice()
            {
                return Ok(ending);
            }
        }
        None => {}
    }
    let wrong = wrong_on(alloc, lines, cpu)?;
    Ok(Ending {
        shapes,
        bytes,
        wrong,
    })
}

/// The shapes of a machine's maps.
fn shapes_of(alloc: Global, cpu: &Cpu) -> Result<Vec<MapShape>, AllocError>
    ensures { IfOk result (λ shapes. shapes.items ≡ cpu.now.program.maps) }
{
    let mut shapes = Vec::new(alloc);
    let count = cpu.program().maps().len();
    for map in 0..count {
        push_shape(&mut shapes, cpu, map)?;
    }
    Ok(shapes)
}

/// Adds the shape of a map.
fn push_shape(shapes: &mut Vec<MapShape>, cpu: &Cpu, map: usize) -> Result<(), AllocError>
    requires { map < length cpu.now.program.maps }
    ensures { OnOk result (shapes.old.items ≡ take map cpu.now.program.maps
        → shapes.new.items ≡ take (map + 1) cpu.now.program.maps) }
{
    match cpu.program().maps().shape(map) {
        Some(shape) => match shapes.push(shape) {
            Ok(()) => Ok(()),
            Err(_) => Err(AllocError),
        },
        None => Ok(()),
    }
}

/// Whether shapes are the same.
fn are_shapes(one: &[MapShape], other: &[MapShape]) -> bool
    ensures { IsTrue result → one.now ≡ other.now }
{
    if one.len() != other.len() {
        return false;
    }
    for map in 0..one.len() {
        if !is_shape(&one[map], &other[map]) {
            return false;
        }
    }
    true
}

fn is_shape(one: &MapShape, other: &MapShape) -> bool
    ensures { IsTrue result → one.now ≡ other.now }
{
    one.value_size == other.value_size && one.entries == other.entries
}

/// The bytes of a machine's maps, side by side.
fn map_bytes(alloc: Global, cpu: &Cpu) -> Result<Vec<u8>, AllocError>
    ensures { IfOk result (λ bytes. bytes.items ≡ map_bytes_of cpu.now) }
{
    cpu.invariant();
    let mut bytes = Vec::new(alloc);
    let count = cpu.program().maps().len();
    for map in 0..count {
        push_map(&mut bytes, cpu, map)?;
    }
    Ok(bytes)
}

/// Adds the bytes of a map.
fn push_map(bytes: &mut Vec<u8>, cpu: &Cpu, map: usize) -> Result<(), AllocError>
    requires { map < length cpu.now.program.maps }
    ensures { OnOk result (
        bytes.old.items ≡ take (maps_len (take map cpu.now.program.maps)) (map_bytes_of cpu.now)
        → bytes.new.items
        ≡ take (maps_len (take (map + 1) cpu.now.program.maps)) (map_bytes_of cpu.now)) }
{
    cpu.invariant();
    match cpu.program().maps().shape(map) {
        Some(shape) => push_shaped(bytes, cpu, map as u64, &shape),
        None => Ok(()),
    }
}

/// Adds the bytes of a map of a shape.
fn push_shaped(bytes: &mut Vec<u8>, cpu: &Cpu, map: u64, shape: &MapShape) -> Result<(), AllocError>
    requires { (map < 16) × (slice_get cpu.now.program.maps map ≡ Some shape.now) }
    ensures { OnOk result ((before : ℕ) → before ≡ maps_len (take map cpu.now.program.maps)
        → bytes.new.items ≡ bytes.old.items
        ++ slice_range (map_bytes_of cpu.now) before (before + map_len shape.now)) }
{
    cpu.invariant();
    let len = u64::from(shape.value_size) * u64::from(shape.entries);
    match cpu.peek(MAP_BASE + MAP_STRIDE * map, len as usize) {
        Some(run) => match bytes.extend_from_slice(run) {
            Ok(()) => Ok(()),
            Err(_) => Err(AllocError),
        },
        None => Ok(()),
    }
}
