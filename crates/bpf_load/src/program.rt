//! From FILE to its program, which the checker accepted.
ghost use Rattle.std.specs.Prelude.{◌≡◌, IfErr, IfOk, Some};
ghost use Rattle.bpf_isa.specs.Checker.{IsRefused};
ghost use Rattle.bpf_isa.specs.Maps.{IsFirstBadMap};
ghost use Rattle.bpf_isa.specs.Programs.{IsProgram};
ghost use Rattle.bpf_load.specs.Faults.{IsMapsFault, IsTargetFault};
ghost use Rattle.bpf_load.specs.Targets.{AreNamedMaps, IsObjectOf, LinksTo, Loads, lent, loaded_of};
ghost use Rattle.bpf_load.specs.declared.target.SourceKind.TheVariants as kind;

use crate::fault::TargetFault;
use crate::loading::{LinkedObject, link_object};
use crate::target::{SourceKind, Target};
use bpf_isa::{LoadFault, MapFault, MapShape, MapTable, Program, check};
use bpf_text::assemble;
use std::alloc::Global;

/// A program that the checker accepted, and what it was linked of.
#[derive(Drop)]
pub struct Loaded {
    pub program: Program,
    /// The object that it comes from; none where FILE is words or a listing.
    pub object: Option<LinkedObject>,
}

/// The map table that is named.
pub fn named_maps(target: &Target<'_>) -> Result<MapTable, MapFault>
    ensures ok { IfOk result (AreNamedMaps target.now.maps) }
    ensures err { IfErr result (IsMapsFault target.now.maps) }
{
    match target.maps {
        None => Ok(MapTable::empty()),
        Some(text) => MapTable::parse(text.as_bytes()),
    }
}

/// The table of these maps.
fn table_of(shapes: &[MapShape]) -> Result<MapTable, MapFault>
    ensures ok { IfOk result (λ maps. maps ≡ shapes.now) }
    ensures err { IfErr result (IsFirstBadMap shapes.now) }
{
    let mut maps = MapTable::empty();
    for shape in shapes {
        match maps.add(shape.value_size, shape.entries) {
            Ok(()) => {}
            Err(fault) => return Err(fault),
        }
    }
    Ok(maps)
}

/// The program of these words.
fn checked(alloc: Global, words: &[u8], maps: &MapTable) -> Result<Program, LoadFault>
    ensures value { IfOk result (λ program.
        (program.bytes ≡ words.now) × (program.maps ≡ maps.now)) }
    ensures accepted { IfOk result IsProgram }
    ensures err { IfErr result (IsRefused words.now maps.now) }
{
    match check(alloc, words, maps) {
        Ok(program) => {
            program.invariant();
            Ok(program)
        }
        Err(fault) => Err(fault),
    }
}

/// The program of FILE's words.
fn of_words<'a>(alloc: Global, file: &[u8], target: &Target<'a>) -> Result<Loaded, TargetFault<'a>>
    requires { target.now.kind ≡ kind.Words }
    ensures ok { IfOk result (Loads target.now file.now) }
    ensures err { IfErr result (IsTargetFault target.now file.now) }
{
    let maps = match named_maps(target) {
        Ok(maps) => maps,
        Err(fault) => return Err(TargetFault::Maps(fault)),
    };
    match checked(alloc, file, &maps) {
        Ok(program) => Ok(Loaded {
            program,
            object: None,
        }),
        Err(fault) => Err(TargetFault::Program(fault)),
    }
}

/// The program of the listing that FILE is.
fn of_listing<'a>(
    alloc: Global,
    file: &[u8],
    target: &Target<'a>,
) -> Result<Loaded, TargetFault<'a>>
    requires { target.now.kind ≡ kind.Listing }
    ensures ok { IfOk result (Loads target.now file.now) }
    ensures err { IfErr result (IsTargetFault target.now file.now) }
{
    let maps = match named_maps(target) {
        Ok(maps) => maps,
        Err(fault) => return Err(TargetFault::Maps(fault)),
    };
    let words = match assemble(alloc, file) {
        Ok(words) => words,
        Err(fault) => return Err(TargetFault::Listing(fault)),
    };
    match checked(alloc, words.as_slice(), &maps) {
        Ok(program) => Ok(Loaded {
            program,
            object: None,
        }),
        Err(fault) => Err(TargetFault::Program(fault)),
    }
}

/// The program of what an object was linked to.
fn of_linked<'a>(
    alloc: Global,
    file: &[u8],
    target: &Target<'a>,
    linked: &LinkedObject,
) -> Result<Program, TargetFault<'a>>
    requires kind { target.now.kind ≡ kind.Object }
    requires linked { LinksTo target.now file.now linked.now }
    ensures ok { IfOk result (λ program.
        Loads target.now file.now (loaded_of program (Some linked.now))) }
    ensures err { IfErr result (IsTargetFault target.now file.now) }
{
    let maps = match table_of(linked.program.shapes.as_slice()) {
        Ok(maps) => maps,
        Err(fault) => return Err(TargetFault::Maps(fault)),
    };
    match checked(alloc, linked.program.words.as_slice(), &maps) {
        Ok(program) => Ok(program),
        Err(fault) => Err(TargetFault::Program(fault)),
    }
}

/// The program of the object that FILE is.
fn of_object<'a>(alloc: Global, file: &[u8], target: &Target<'a>) -> Result<Loaded, TargetFault<'a>>
    requires { target.now.kind ≡ kind.Object }
    ensures ok { IfOk result (Loads target.now file.now) }
    ensures err { IfErr result (IsTargetFault target.now file.now) }
{
    let linked = match link_object(alloc, file, target) {
        Ok(linked) => linked,
        Err(fault) => return Err(TargetFault::Object(fault)),
    };
    match of_linked(alloc, file, target, &linked) {
        Ok(program) => Ok(Loaded {
            program,
            object: Some(linked),
        }),
        Err(fault) => Err(fault),
    }
}

/// The program of FILE: of its words, of the listing or of the object that it is, with its maps, as the
/// checker accepts it.
///
/// Takes time in proportion to the length of FILE, and of an object what `link_object` takes.
#[inline(never)]
pub fn load<'a>(alloc: Global, file: &[u8], target: &Target<'a>) -> Result<Loaded, TargetFault<'a>>
    ensures ok { IfOk result (Loads target.now file.now) }
    ensures err { IfErr result (IsTargetFault target.now file.now) }
{
    match target.kind {
        SourceKind::Words => of_words(alloc, file, target),
        SourceKind::Listing => of_listing(alloc, file, target),
        SourceKind::Object => of_object(alloc, file, target),
    }
}

/// The program of FILE once more, which was loaded before, for another machine. An object isn't linked
/// again.
#[inline(never)]
pub fn load_again<'a>(
    alloc: Global,
    file: &[u8],
    target: &Target<'a>,
    object: Option<&LinkedObject>,
) -> Result<Program, TargetFault<'a>>
    requires { IsObjectOf target.now.kind target.now file.now (lent object) }
    ensures ok { IfOk result (λ program.
        Loads target.now file.now (loaded_of program (lent object.entry))) }
    ensures err { IfErr result (IsTargetFault target.now file.now) }
{
    match object {
        Some(linked) => of_linked(alloc, file, target, linked),
        None => match load(alloc, file, target) {
            Ok(loaded) => Ok(loaded.program),
            Err(fault) => Err(fault),
        },
    }
}
