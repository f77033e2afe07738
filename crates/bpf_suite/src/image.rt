//! What cells make of maps: the bytes that aren't zero, so that each further test begins with them.
ghost use Rattle.std.specs.Prelude.{◌≡◌, ◌≤◌, ◌<◌, ◌+◌, ◌*◌, ◌==◌, ◌++◌, ℕ, List, IfOk, IfSome, OnOk, None, Some, filter_map, length, slice_get, take};
ghost use Rattle.std.specs.List.{list_all};
ghost use Rattle.bpf_machine.specs.Edits.{edited};
ghost use Rattle.bpf_isa.specs.declared.maps.MapShape.{MapShape};
ghost use Rattle.bpf_steps.specs.Platform.{map_base};
ghost use Rattle.bpf_steps.specs.Regions.{index_in, map_len, maps_from, maps_len};
ghost use Rattle.bpf_machine.specs.declared.edit.Edit.TheVariants as edit;
ghost use Rattle.bpf_suite.specs.Asks.{AreAskedOf, least_maps, least_of};
ghost use Rattle.bpf_suite.specs.Cells.{cell_of};
ghost use Rattle.bpf_suite.specs.Images.{AreAll, AreShort, Holds, IsImage, IsKnown, Lead, Shows, run_of, with_runs};
ghost use Rattle.bpf_suite.specs.Outcomes.{missing};

use crate::asks::{Ask, asks_of, missing};
use crate::cells::CellLine;
use crate::outcome::set_cells;
use crate::setting::Setting;
use bpf_machine::{ByteString, Cpu, Edit};
use std::alloc::{AllocError, Global};
use std::marker::Model;

/// The address of map 0's first byte, and how far the first bytes of two maps in a row are apart.
pub const MAP_BASE: u64 = 0x3_0000_0000;

pub const MAP_STRIDE: u64 = 0x10_0000;

/// The most bytes of a run.
const LONGEST_RUN: u64 = 256;

/// Bytes at an address.
#[derive(Drop)]
pub struct Run {
    pub address: u64,
    pub bytes: ByteString,
}

/// Runs of bytes. Contracts see them as a list.
#[derive(Drop)]
pub struct Runs {
    items: Vec<Run>,
}

impl Model for Runs {
    ghost use Rattle.std.specs.Prelude.{List};
    ghost use Rattle.bpf_suite.specs.declared.image.Run.{Run};

    ghost Value = { List Run };

    ghost view = { λ r. r.items.items };
}

/// What cells ask of maps, and what they make of those that have them.
#[derive(Drop)]
pub struct Image {
    pub asks: Vec<Ask>,
    /// The bytes that aren't zero, from the first test on whose maps have all cells.
    pub runs: Option<Runs>,
}

impl Image {
    /// What the cells of these lines ask.
    pub fn of(alloc: Global, lines: &[CellLine<'_>]) -> Result<Image, AllocError>
        ensures { IfOk result (IsImage (filter_map cell_of lines.now)) }
    {
        Ok(Image {
            asks: asks_of(alloc, lines)?,
            runs: None,
        })
    }
}

/// Finds what the cells of a test make of maps on a machine of its program, if that isn't known yet
/// and it has them all.
pub fn complete(
    alloc: Global,
    cpu: &mut Cpu,
    setting: &Setting<'_, '_>,
    image: &mut Image,
) -> Result<(), AllocError>
    requires { IsImage setting.now.cells image.old }
    ensures image { IsImage setting.now.cells image.new }
    ensures known { OnOk result
        (IsKnown setting.now.cells cpu.old.program.maps image.new.runs) }
    ensures program { cpu.new.program ≡ cpu.old.program }
{
    if image.runs.is_some() {
        return Ok(());
    }
    match missing(image.asks.as_slice(), cpu.program().maps()) {
        Some(_) => Ok(()),
        None => {
            let runs = made(alloc, cpu, setting.cells.lines, image.asks.as_slice())?;
            image.runs = Some(runs);
            Ok(())
        }
    }
}

/// What the cells of these lines make of maps, on a machine that has them all.
fn made(
    alloc: Global,
    cpu: &mut Cpu,
    lines: &[CellLine<'_>],
    asks: &[Ask],
) -> Result<Runs, AllocError>
    requires asked { AreAskedOf (filter_map cell_of lines.now) asks.now }
    requires there { missing cpu.old.program.maps (filter_map cell_of lines.now) ≡ None }
    ensures lead { IfOk result (Lead (filter_map cell_of lines.now)) }
    ensures program { cpu.new.program ≡ cpu.old.program }
{
    match cpu.reopen(alloc, &[]) {
        Ok(()) => {}
        Err(_) => return Err(AllocError),
    }
    match set_cells(alloc, cpu, lines) {
        Ok(()) => {}
        Err(_) => return Err(AllocError),
    }
    cpu.invariant();
    runs_of(alloc, cpu, asks)
}

/// The bytes that aren't zero in the least maps of which this is asked.
fn runs_of(alloc: Global, cpu: &Cpu, asks: &[Ask]) -> Result<Runs, AllocError>
    requires { AreShort asks.now }
    ensures { IfOk result (λ runs. (bytes : List ℕ) → Shows cpu.now (least_maps asks.now) bytes
        → AreAll (least_maps asks.now) bytes runs) }
{
    let mut items = Vec::new(alloc);
    for map in 0..asks.len() {
        let len = least_len(&asks[map]);
        push_map(&mut items, cpu, map as u64, len)?;
    }
    Ok(Runs { items })
}

/// How many bytes the least map has of which this is asked.
fn least_len(ask: &Ask) -> u64
    requires { map_len (least_of ask.now) ≤ 65536 }
    ensures { result ≡ map_len (least_of ask.now) }
{
    ask.size as u64 * ask.firsts.len() as u64
}

/// Adds the first bytes of a map that aren't zero, in runs that are as long as may be.
fn push_map(runs: &mut Vec<Run>, cpu: &Cpu, map: u64, len: u64) -> Result<(), AllocError>
    requires { (map < 17) × (len ≤ 65536) }
    ensures { OnOk result ((maps : List MapShape) (bytes : List ℕ) (shape : MapShape)
        → Shows cpu.now maps bytes → slice_get maps map ≡ Some shape → map_len shape ≡ len
        → Holds maps bytes runs.old.items (maps_len (take map maps))
        → Holds maps bytes runs.new.items (maps_len (take map maps) + len)) }
{
    let base = MAP_BASE + MAP_STRIDE * map;
    for run in 0..len / LONGEST_RUN {
        push_run(runs, cpu, base + LONGEST_RUN * run, LONGEST_RUN)?;
    }
    let rest = len % LONGEST_RUN;
    if rest > 0 {
        push_run(runs, cpu, base + (len - rest), rest)?;
    }
    Ok(())
}

/// Adds a run of a machine's bytes, unless all of them are zero.
fn push_run(runs: &mut Vec<Run>, cpu: &Cpu, address: u64, n: u64) -> Result<(), AllocError>
    requires { (map_base ≤ address) × (1 ≤ n) × (n ≤ 256) }
    ensures { OnOk result ((maps : List MapShape) (bytes : List ℕ) (j : ℕ)
        → Shows cpu.now maps bytes → index_in (maps_from 0 maps) address n ≡ Some j
        → j + n ≤ maps_len maps → Holds maps bytes runs.old.items j
        → Holds maps bytes runs.new.items (j + n)) }
{
    match cpu.peek(address, n as usize) {
        Some(bytes) => push_bytes(runs, address, bytes),
        None => Ok(()),
    }
}

/// Adds bytes at an address, unless all of them are zero.
fn push_bytes(runs: &mut Vec<Run>, address: u64, bytes: &[u8]) -> Result<(), AllocError>
    requires { (1 ≤ length bytes.now) × (length bytes.now ≤ 256) }
    ensures { OnOk result (runs.new.items ≡ runs.old.items ++ run_of address bytes.now) }
{
    if are_zeros(bytes) {
        return Ok(());
    }
    let run = Run {
        address,
        bytes: ByteString::of(bytes),
    };
    match runs.push(run) {
        Ok(()) => Ok(()),
        Err(_) => Err(AllocError),
    }
}

/// Whether all bytes are zero.
fn are_zeros(bytes: &[u8]) -> bool
    ensures { result ≡ list_all (λ b. b == 0) bytes.now }
{
    bytes.iter().all(|byte| *byte == 0)
}

/// Puts runs of bytes into a machine.
pub fn put_runs(cpu: &mut Cpu, runs: &Runs)
    ensures next { cpu.new ≡ with_runs runs.now cpu.old }
    ensures program { cpu.new.program ≡ cpu.old.program }
{
    put_each(cpu, runs.items.as_slice());
}

/// Puts each of these runs into a machine.
fn put_each(cpu: &mut Cpu, runs: &[Run])
    ensures { cpu.new ≡ with_runs runs.now cpu.old }
{
    for run in runs {
        put_run(cpu, run);
    }
}

/// Puts a run of bytes into a machine; nothing changes where it isn't present.
fn put_run(cpu: &mut Cpu, run: &Run)
    ensures { cpu.new ≡ edited cpu.old (edit.Bytes run.now.address run.now.bytes) }
{
    let edit = Edit::Bytes {
        address: run.address,
        bytes: run.bytes.copied(),
    };
    let _done = cpu.edit(&edit);
}
