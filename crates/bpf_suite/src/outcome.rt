//! What comes of a test's program.
ghost use Rattle.std.specs.Prelude.{◌≡◌, ◌∷◌, ◌++◌, IfErr, IfOk, OnOk, None, [], filter_map};
ghost use Rattle.bpf_steps.specs.Opening.{Opened};
ghost use Rattle.bpf_session.specs.Plain.{plain_end};
ghost use Rattle.bpfdb_script.specs.Texts.{place};
ghost use Rattle.counted_io.specs.Writing.{WritesAfter};
ghost use Rattle.bpf_suite.specs.Benches.{Loads, RefusesProgram};
ghost use Rattle.bpf_suite.specs.Cells.{cell_of};
ghost use Rattle.bpf_suite.specs.Images.{IsImageFor};
ghost use Rattle.bpf_suite.specs.Regs.{with_regs};
ghost use Rattle.bpf_suite.specs.Tables.{HasMaps};
ghost use Rattle.bpf_suite.specs.Outcomes.{Ends, GivesCell, GivesCells, HasWords, IsProgramOf, Reads, Refuses, limit_word, outcome_text};

use crate::asks::missing;
use crate::cells::{Cell, CellLine, cell_of};
use crate::image::{Image, put_runs};
use crate::refusal::{Refusal, put_refusal};
use crate::regs::set_regs;
use crate::setting::Setting;
use crate::words::Words;
use bpf_isa::{MapTable, Program, check};
use bpf_machine::{Cpu, Edit, OpenFault, Status};
use bpf_session::run_plain;
use bpf_text::AsmFault;
use bpfdb_script::put_place;
use counted_io::{Counted, WriteFault, put};
use std::alloc::{AllocError, Global};
use std::io::{Write, sink};

/// The map table.
pub fn maps_of(setting: &Setting<'_, '_>) -> Result<MapTable, Refusal>
    ensures ok { IfOk result (HasMaps setting.now.maps) }
    ensures err { IfErr result (RefusesProgram setting.now) }
{
    match setting.maps.table() {
        Ok(maps) => Ok(maps.copied()),
        Err(fault) => Err(Refusal::Maps(*fault)),
    }
}

/// The program: first its maps are read, then its listing has a fault or words, then the checker
/// looks at these.
fn program_of(
    alloc: Global,
    setting: &Setting<'_, '_>,
    words: &Result<Words, AsmFault>,
) -> Result<Program, Refusal>
    requires { Reads setting.now.is_listing setting.now.program words.now }
    ensures ok { IfOk result (IsProgramOf setting.now) }
    ensures err { IfErr result (RefusesProgram setting.now) }
{
    let maps = match maps_of(setting) {
        Ok(maps) => maps,
        Err(refusal) => return Err(refusal),
    };
    match words {
        Ok(words) => checked(alloc, setting, words.as_slice(), &maps),
        Err(fault) => Err(Refusal::Listing(*fault)),
    }
}

/// The program of these words.
fn checked(
    alloc: Global,
    setting: &Setting<'_, '_>,
    words: &[u8],
    maps: &MapTable,
) -> Result<Program, Refusal>
    requires maps { HasMaps setting.now.maps maps.now }
    requires words { HasWords setting.now.is_listing setting.now.program words.now }
    ensures ok { IfOk result (IsProgramOf setting.now) }
    ensures err { IfErr result (RefusesProgram setting.now) }
{
    match check(alloc, words, maps) {
        Ok(program) => {
            program.invariant();
            Ok(program)
        }
        Err(fault) => Err(Refusal::Load(fault)),
    }
}

/// A machine that stands on the program, with no context; or why there is none, unless that is want
/// of memory.
pub fn loaded(
    alloc: Global,
    setting: &Setting<'_, '_>,
    words: &Result<Words, AsmFault>,
) -> Result<Result<Cpu, Refusal>, AllocError>
    requires { Reads setting.now.is_listing setting.now.program words.now }
    ensures { IfOk result (Loads setting.now) }
{
    match program_of(alloc, setting, words) {
        Ok(program) => match Cpu::open(alloc, program, &[]) {
            Ok(cpu) => Ok(Ok(cpu)),
            Err(_) => Err(AllocError),
        },
        Err(refusal) => {
            if refusal.is_memory() {
                Err(AllocError)
            } else {
                Ok(Err(refusal))
            }
        }
    }
}

/// Gives a cell its value.
fn set_cell(cpu: &mut Cpu, cell: &Cell) -> Result<(), Refusal>
    ensures { GivesCell cell.now cpu.old cpu.new result }
{
    let edit = Edit::Cell {
        map: cell.map,
        index: cell.index,
        bytes: cell.value.copied(),
    };
    match cpu.edit(&edit) {
        Ok(_) => Ok(()),
        Err(_) => Err(Refusal::NoCell(cell.map, cell.index)),
    }
}

/// Gives the cell of a line its value, if the line has one.
fn set_line(alloc: Global, cpu: &mut Cpu, line: &CellLine<'_>) -> Result<(), Refusal>
    ensures { GivesCells (filter_map cell_of (line.now ∷ [])) cpu.old cpu.new result }
{
    match cell_of(alloc, line) {
        Ok(Some(cell)) => set_cell(cpu, &cell),
        Ok(None) => Ok(()),
        Err(_) => Err(Refusal::Open(OpenFault::OutOfMemory)),
    }
}

/// Gives cells their values, one after another, up to the first that isn't there.
pub fn set_cells(alloc: Global, cpu: &mut Cpu, lines: &[CellLine<'_>]) -> Result<(), Refusal>
    ensures { GivesCells (filter_map cell_of lines.now) cpu.old cpu.new result }
{
    for line in lines {
        match set_line(alloc, cpu, line) {
            Ok(()) => {}
            Err(refusal) => return Err(refusal),
        }
    }
    Ok(())
}

/// Opens a machine again with the context of a test.
fn open_again(alloc: Global, cpu: &mut Cpu, setting: &Setting<'_, '_>) -> Result<(), Refusal>
    requires { IsProgramOf setting.now cpu.old.program }
    ensures ok { OnOk result (Opened cpu.old.program setting.now.context cpu.new) }
    ensures err { IfErr result (Refuses setting.now) }
    ensures program { cpu.new.program ≡ cpu.old.program }
{
    match cpu.reopen(alloc, setting.context.bytes) {
        Ok(()) => Ok(()),
        Err(fault) => Err(Refusal::Open(fault)),
    }
}

/// Gives registers their numbers, and runs a program to its end, or as many steps as it may take.
fn run(cpu: &mut Cpu, setting: &Setting<'_, '_>)
    ensures next { cpu.new
        ≡ plain_end setting.now.limit (with_regs setting.now.regs cpu.old) }
    ensures program { cpu.new.program ≡ cpu.old.program }
{
    set_regs(cpu, &setting.regs);
    let _ending = run_plain(cpu, setting.limit, &mut Counted::new(sink()));
}

/// What comes of a program on a machine that stands on it, whatever that did before: cells get
/// their values one by one.
pub fn outcome_on(alloc: Global, cpu: &mut Cpu, setting: &Setting<'_, '_>) -> Result<(), Refusal>
    requires { IsProgramOf setting.now cpu.old.program }
    ensures ok { OnOk result (Ends setting.now cpu.new) }
    ensures err { IfErr result (Refuses setting.now) }
    ensures program { cpu.new.program ≡ cpu.old.program }
{
    match open_again(alloc, cpu, setting) {
        Ok(()) => {}
        Err(refusal) => return Err(refusal),
    }
    match set_cells(alloc, cpu, setting.cells.lines) {
        Ok(()) => {}
        Err(refusal) => return Err(refusal),
    }
    run(cpu, setting);
    Ok(())
}

/// The same, where it is known what its cells make of its maps, if these have them all.
pub fn outcome_by_image(
    alloc: Global,
    cpu: &mut Cpu,
    setting: &Setting<'_, '_>,
    image: &Image,
) -> Result<(), Refusal>
    requires { IsImageFor setting.now cpu.old.program image.now }
    ensures ok { OnOk result (Ends setting.now cpu.new) }
    ensures err { IfErr result (Refuses setting.now) }
    ensures program { cpu.new.program ≡ cpu.old.program }
{
    match open_again(alloc, cpu, setting) {
        Ok(()) => {}
        Err(refusal) => return Err(refusal),
    }
    match missing(image.asks.as_slice(), cpu.program().maps()) {
        Some(refusal) => return Err(refusal),
        None => {}
    }
    match &image.runs {
        Some(runs) => put_runs(cpu, runs),
        None => {}
    }
    run(cpu, setting);
    Ok(())
}

/// Writes an outcome.
pub fn put_outcome<W: Write>(
    writer: &mut Counted<W>,
    so_far: Result<(), WriteFault>,
    outcome: &Result<Cpu, Refusal>,
) -> Result<(), WriteFault>
    ensures { WritesAfter W.contents writer.old so_far writer.new result
        (outcome_text outcome.now) }
{
    match outcome {
        Ok(cpu) => put_stop(writer, so_far, cpu),
        Err(refusal) => put_refusal(writer, so_far, refusal),
    }
}

/// Writes where a machine stands, with a word in front where it still runs.
fn put_stop<W: Write>(
    writer: &mut Counted<W>,
    so_far: Result<(), WriteFault>,
    cpu: &Cpu,
) -> Result<(), WriteFault>
    ensures { WritesAfter W.contents writer.old so_far writer.new result
        (limit_word cpu.now.status ++ place cpu.now) }
{
    let begun = put(writer, so_far, limit_word(cpu.status()));
    put_place(writer, begun, cpu)
}

/// The word in front of where a machine stands that still runs.
fn limit_word(status: Status) -> &'static [u8]
    ensures { result.now ≡ limit_word status }
{
    match status {
        Status::Running => b"limit ",
        Status::Exited => b"",
        Status::Faulted(_) => b"",
    }
}
