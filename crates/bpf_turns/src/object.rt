//! The object whose one program calls programs of another one in turn.
ghost use Rattle.std.specs.Prelude.{◌≡◌, Err, IfErr, IfOk, List, Ok, map, ℕ};
ghost use Rattle.bpf_turns.specs.Calls.{calls_of};
ghost use Rattle.bpf_turns.specs.Ext.{HasMovedExt};
ghost use Rattle.bpf_turns.specs.Objects.{turned_bytes};
ghost use Rattle.bpf_turns.specs.Parts.{HasRoom};
ghost use Rattle.bpf_turns.specs.Turned.{IsObjectFault, IsSourceFault, IsTurnFault, IsTurned, IsTurnedFrom, fitted, source_for};

use crate::file::{fitted, turned_file};
use crate::seats::{Seat, TurnFault, seats_of};
use crate::source::{Source, source_of};
use bpf_link::{LinkFault, fault_names};
use counted_io::sides;
use std::alloc::Global;

/// The new file of programs.
fn turned_with(alloc: Global, source: &Source<'_>, seats: &[Seat]) -> Result<Vec<u8>, LinkFault>
    requires { HasRoom source.now }
    ensures fit { IfOk result (λ all. fitted source.now seats.now ≡ Ok seats.now) }
    ensures ok { IfOk result (λ all. (ext : List ℕ)
        × HasMovedExt source.now.plan (calls_of source.now.plan.object seats.now) ext
        × (all.items ≡ turned_bytes source.now seats.now ext)) }
    ensures err { IfErr result (IsObjectFault source.now seats.now) }
{
    match fitted(source, seats) {
        Ok(()) => {}
        Err(fault) => return Err(fault),
    }
    match turned_file(alloc, source, seats) {
        Ok(all) => Ok(all),
        Err(fault) => Err(fault),
    }
}

/// The new file of an object.
#[tactic(auto, using(crate::proofs::Sources::text_count))]
fn turned_from(alloc: Global, source: &Source<'_>, texts: &[&str]) -> Result<Vec<u8>, TurnFault>
    requires { HasRoom source.now }
    ensures ok { IfOk result (λ all. IsTurnedFrom source.now (map (λ text. text.now) texts.now) all.items) }
    ensures err { IfErr result (IsSourceFault source.now (map (λ text. text.now) texts.now)) }
{
    let seats = match seats_of(alloc, &source.plan, source.only, texts) {
        Ok(seats) => seats,
        Err(told) => return Err(told),
    };
    match turned_with(alloc, source, seats.as_slice()) {
        Ok(all) => Ok(all),
        Err(fault) => Err(TurnFault {
            which: texts.len(),
            fault,
        }),
    }
}

/// The object in a file, by the section that is asked for, or by the first one of code.
fn source_for<'a>(object: &'a [u8], section: &[u8]) -> Result<Source<'a>, LinkFault>
    ensures value { result ≡ source_for object.now section.now }
    ensures room { IfOk result HasRoom }
{
    match section {
        [] => {
            // (the names of the sections of code, with commas between)
            let names = fault_names(object, b"", &LinkFault::NoSection);
            let (first, _others) = sides(names.as_slice(), b',');
            source_of(object, first, false)
        }
        [_, ..] => source_of(object, section, true),
    }
}

/// The object that calls programs of another one in turn.
///
/// Each text names a program of the object, a function in a section of code, and behind an `@` may
/// say from which byte of the context on that finds its own one. They are those of `section`, if
/// that is named. The new object has these sections as one, that of the first program: it begins
/// with instructions that call the programs in their order, each with r1 at its place of the context
/// and r2 the number of bytes from there on, and ends with the last one's r0. `link` and `join` take
/// it, without the name of an entry. All other sections of code but `.text` are left out. What
/// `.BTF.ext` tells of these sections, by places of instructions, is told of the one section: lines
/// of C, and relocations of fields; one that is malformed, or has no name for that section, is
/// refused. Takes time in proportion to the length of the object, for each program.
#[tactic(auto, using(crate::proofs::Sources::text_count))]
pub fn turned(
    alloc: Global,
    object: &[u8],
    section: &[u8],
    texts: &[&str],
) -> Result<Vec<u8>, TurnFault>
    ensures ok { IfOk result (λ all.
        IsTurned object.now section.now (map (λ text. text.now) texts.now) all.items) }
    ensures err { IfErr result (IsTurnFault object.now section.now (map (λ text. text.now) texts.now)) }
{
    let source = match source_for(object, section) {
        Ok(source) => source,
        Err(fault) => {
            return Err(TurnFault {
                which: texts.len(),
                fault,
            });
        }
    };
    match turned_from(alloc, &source, texts) {
        Ok(all) => Ok(all),
        Err(told) => Err(told),
    }
}
