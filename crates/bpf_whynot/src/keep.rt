//! What keeps values as they are: from where a function can write them before it comes to a slot.
ghost use Rattle.std.specs.Prelude.{◌≡◌, ◌≤◌, IfOk, length};
ghost use Rattle.bpf_isa.specs.Programs.{Checked};
ghost use Rattle.bpf_steps.specs.Platform.{frame_count};
ghost use Rattle.bpf_whynot.specs.Flows.{AreSources};
ghost use Rattle.bpf_whynot.specs.Keeps as spec;
ghost use Rattle.bpf_whynot.specs.Levels.{AreSeeds};

use crate::branch_aim::Aim;
use crate::may_write::may_write;
use crate::sources::{Sources, sources_of};
use crate::sure::ways_to;
use bpf_isa::Program;
use bpf_origin::{Place, Wanted};
use std::alloc::{AllocError, Global};

/// How many functions can stand at once.
const FRAMES: usize = 8;

/// Places, and up to which slot they are held to be as they are.
#[derive(Drop)]
pub struct Keep {
    pub places: Vec<Place>,
    /// The slot, and the depth of calls of its function.
    pub wall: Aim,
    /// From which slots that function can write one of them before it comes there.
    pub here: Vec<bool>,
    /// From which slots one that it called can write one of them before it returns.
    pub deeper: Vec<bool>,
}

impl Keep {
    /// Finds it of the wanted places, while the answer about values has more lines. That takes time
    /// and memory in proportion to the program's length.
    pub fn find(
        alloc: Global,
        program: &Program,
        wall: Aim,
        wanted: &Wanted,
        values: u64,
    ) -> Result<Keep, AllocError>
        requires { wall.depth ≤ 7 }
        ensures tells { IfOk result (spec.TellsKeep program.now) }
        ensures held { IfOk result (λ keep. spec.held_of keep
            ≡ record { places = spec.held_places values wanted.now; wall = wall }) }
    {
        let sources = match sources_of(alloc, program) {
            Ok(sources) => sources,
            Err(error) => return Err(error),
        };
        let here = match writing(alloc, program, &sources, wall, wanted, values) {
            Ok(here) => here,
            Err(error) => return Err(error),
        };
        let end = Aim {
            depth: FRAMES,
            slot: program.len(),
        };
        let deeper = match writing(alloc, program, &sources, end, wanted, values) {
            Ok(deeper) => deeper,
            Err(error) => return Err(error),
        };
        match held(alloc, wanted, values) {
            Ok(places) => Ok(Keep {
                places,
                wall,
                here,
                deeper,
            }),
            Err(error) => Err(error),
        }
    }

    /// From which slots a function at a depth can write one of them.
    pub fn marks(&self, depth: usize) -> &[bool]
        ensures { (program : Checked) → spec.TellsKeep program self.now →
            spec.AreWriting program self.now.places.items
            (spec.wall_at program self.now.wall depth) result.now }
    {
        let own = self.wall.depth;
        if depth == own {
            self.here.as_slice()
        } else {
            self.deeper.as_slice()
        }
    }
}

/// The places that are held.
fn held(alloc: Global, wanted: &Wanted, values: u64) -> Result<Vec<Place>, AllocError>
    ensures { IfOk result (λ places. places.items ≡ spec.held_places values wanted.now) }
{
    if values == 0 {
        Ok(Vec::new(alloc))
    } else {
        Vec::from_slice(alloc, wanted.as_slice())
    }
}

/// From which slots a function can write one of the places before it comes to a slot.
fn writing(
    alloc: Global,
    program: &Program,
    sources: &Sources,
    wall: Aim,
    wanted: &Wanted,
    values: u64,
) -> Result<Vec<bool>, AllocError>
    requires sources { AreSources program.now (length program.now.insns) sources.now }
    requires depth { wall.depth ≤ frame_count }
    ensures { IfOk result (λ marks. spec.AreWriting program.now
        (spec.held_places values wanted.now) wall marks.items) }
{
    match writers(alloc, program, wall, wanted, values) {
        Ok(seeds) => ways_to(alloc, program, sources, wall.slot, seeds.as_slice()),
        Err(error) => Err(error),
    }
}

/// The other slots whose instruction may write one of them.
fn writers(
    alloc: Global,
    program: &Program,
    wall: Aim,
    wanted: &Wanted,
    values: u64,
) -> Result<Vec<bool>, AllocError>
    requires { wall.depth ≤ frame_count }
    ensures { IfOk result (λ seeds. AreSeeds
        (spec.writes_one program.now (spec.held_places values wanted.now) wall)
        (length program.now.insns) seeds.items) }
{
    let mut seeds = match Vec::with_capacity(alloc, program.len()) {
        Ok(seeds) => seeds,
        Err(error) => return Err(error),
    };
    for p in 0..program.len() {
        match seeds.push(is_writer(program, wall, wanted, values, p)) {
            Ok(()) => {}
            Err(error) => return Err(error.into()),
        }
    }
    Ok(seeds)
}

/// Whether a slot is one of them.
fn is_writer(program: &Program, wall: Aim, wanted: &Wanted, values: u64, p: usize) -> bool
    requires { wall.depth ≤ frame_count }
    ensures { result ≡ spec.writes_one program.now (spec.held_places values wanted.now) wall p }
{
    let slot = wall.slot;
    if values == 0 {
        return false;
    }
    if p == slot {
        return false;
    }
    match program.insn_at(p) {
        Some(insn) => wanted.are_hit(may_write(&insn, wall.depth).as_slice()),
        None => false,
    }
}
