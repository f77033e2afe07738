//! What cells ask of maps: which of them is the first that isn't there, whatever the maps are.
ghost use Rattle.std.specs.Prelude.{◌≡◌, ◌≤◌, ◌-◌, ◌+◌, ◌∷◌, ◌++◌, IfOk, List, OnOk, [], length, replicate, slice_get};
ghost use Rattle.bpf_suite.specs.Asks.{AreAsked, AreAskedOf, AreFirsts, IsMissing, entries_for, first_from, lacking_below, map_of, most_lacking, size_with, sooner};
ghost use Rattle.bpf_suite.specs.declared.cells.Cell.{Cell};
ghost use Rattle.bpf_suite.specs.declared.cells.CellLine.{CellLine};

use crate::cells::{CellLine, value_of};
use crate::refusal::Refusal;
use bpf_isa::{MapShape, MapTable};
use std::alloc::{AllocError, Global};

/// How many maps are asked about: those of the longest table, and one for all that no table has.
const MAPS_ASKED: u64 = 17;

/// The most entries of a map.
const MOST_ENTRIES: u64 = 4096;

/// The cell of a line, and which line that is.
#[derive(Clone, Copy)]
pub struct Spot {
    pub place: usize,
    /// The number of a map.
    pub map: u64,
    pub index: u64,
}

/// What lines ask of one map.
#[derive(Drop)]
pub struct Ask {
    /// How many bytes the first value has.
    pub size: usize,
    /// By the number of entries of a map with such values, the first cell that it lacks. Where there
    /// is none any more it has all cells.
    pub firsts: Vec<Spot>,
}

/// What these lines ask of each map.
pub fn asks_of(alloc: Global, lines: &[CellLine<'_>]) -> Result<Vec<Ask>, AllocError>
    ensures { IfOk result (λ asks. AreAsked lines.now asks.items) }
{
    let mut asks = Vec::new(alloc);
    for map in 0..MAPS_ASKED {
        let ask = ask_of(alloc, lines, map)?;
        match asks.push(ask) {
            Ok(()) => {}
            Err(_) => return Err(AllocError),
        }
    }
    Ok(asks)
}

/// What they ask of a map.
fn ask_of(alloc: Global, lines: &[CellLine<'_>], map: u64) -> Result<Ask, AllocError>
    ensures { IfOk result (λ ask. AreFirsts lines.now map ask.size ask.firsts.items) }
{
    let mut ask = Ask {
        size: 0,
        firsts: Vec::new(alloc),
    };
    for place in 0..lines.len() {
        note(alloc, &mut ask, map, place, &lines[place])?;
    }
    Ok(ask)
}

/// Notes what a further line asks of a map.
fn note(
    alloc: Global,
    ask: &mut Ask,
    map: u64,
    place: usize,
    line: &CellLine<'_>,
) -> Result<(), AllocError>
    ensures { OnOk result ((before : List CellLine) → length before ≡ place
        → AreFirsts before map ask.old.size ask.old.firsts.items
        → AreFirsts (before ++ line.now ∷ []) map ask.new.size ask.new.firsts.items) }
{
    if map_of(line) != map {
        return Ok(());
    }
    match value_of(alloc, line)? {
        Some(value) => {
            let spot = Spot {
                place,
                map: line.map,
                index: line.index,
            };
            note_value(ask, spot, value.len())
        }
        None => Ok(()),
    }
}

/// The map that a line is about, where all that no table has are one.
fn map_of(line: &CellLine<'_>) -> u64
    ensures { result ≡ map_of line.now }
{
    line.map.min(16)
}

/// Notes that a line gives a value of n bytes to a cell of the map.
fn note_value(ask: &mut Ask, spot: Spot, n: usize) -> Result<(), AllocError>
    requires { n ≤ 256 }
    ensures size { OnOk result
        (ask.new.size ≡ size_with ask.old.firsts.items ask.old.size n) }
    ensures firsts { OnOk result (ask.new.firsts.items ≡ ask.old.firsts.items
        ++ replicate (most_lacking ask.new.size n spot.index + 1 - length ask.old.firsts.items)
        spot) }
{
    let size = size_with(ask, n);
    ask.size = size;
    let most = most_lacking(size, n, spot.index);
    fill(&mut ask.firsts, most as usize + 1, spot)
}

/// How many bytes the first value has, behind one of n bytes.
fn size_with(ask: &Ask, n: usize) -> usize
    ensures { result ≡ size_with ask.now.firsts.items ask.now.size n }
{
    if ask.firsts.is_empty() { n } else { ask.size }
}

/// Up to how many entries a map lacks a cell that gets n bytes.
fn most_lacking(size: usize, n: usize, index: u64) -> u64
    ensures value { result ≡ most_lacking size n index }
    ensures fits { result ≤ 4096 }
{
    if n == size {
        index.min(MOST_ENTRIES)
    } else {
        MOST_ENTRIES
    }
}

/// Fills spots up to n, if they are fewer.
fn fill(spots: &mut Vec<Spot>, n: usize, spot: Spot) -> Result<(), AllocError>
    ensures { OnOk result (spots.new.items
        ≡ spots.old.items ++ replicate (n - length spots.old.items) spot) }
{
    let begun = spots.len();
    for _ in begun..n {
        match spots.push(spot) {
            Ok(()) => {}
            Err(_) => return Err(AllocError),
        }
    }
    Ok(())
}

/// Why cells that ask this don't get their values on maps: the first that isn't there.
pub fn missing(asks: &[Ask], maps: &MapTable) -> Option<Refusal>
    ensures { (cells : List Cell) → AreAskedOf cells asks.now → IsMissing maps.now cells result }
{
    match first_lacking(asks, maps) {
        Some(spot) => Some(Refusal::NoCell(spot.map, spot.index)),
        None => None,
    }
}

/// The first line whose cell these maps lack.
fn first_lacking(asks: &[Ask], maps: &MapTable) -> Option<Spot>
    ensures lines { (lines : List CellLine) → AreAsked lines asks.now
        → result ≡ first_from (lacking_below maps.now 17) 0 lines }
    ensures maps { length maps.now ≤ 16 }
{
    let _few = maps.len();
    let mut first = None;
    for map in 0..asks.len() {
        let shape = maps.shape(map);
        first = sooner(first, spot_for(&asks[map], shape));
    }
    first
}

/// The first cell that a map of this shape lacks.
fn spot_for(ask: &Ask, shape: Option<MapShape>) -> Option<Spot>
    ensures { result ≡ slice_get ask.now.firsts.items (entries_for ask.now.size shape) }
{
    ask.firsts.get(entries_for(ask.size, shape)).copied()
}

/// How many entries a map of this shape has for values of a size.
fn entries_for(size: usize, shape: Option<MapShape>) -> usize
    ensures { result ≡ entries_for size shape }
{
    match shape {
        Some(shape) => {
            if shape.value_size as usize == size {
                shape.entries as usize
            } else {
                0
            }
        }
        None => 0,
    }
}

/// The one that comes first.
fn sooner(one: Option<Spot>, other: Option<Spot>) -> Option<Spot>
    ensures { result ≡ sooner one other }
{
    match one {
        Some(spot) => match other {
            Some(next) => {
                if next.place < spot.place {
                    Some(next)
                } else {
                    Some(spot)
                }
            }
            None => Some(spot),
        },
        None => other,
    }
}
