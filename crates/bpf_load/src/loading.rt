//! From an object's file to the program that is linked of it.
ghost use Rattle.std.specs.Prelude.{◌≡◌, IfErr, IfOk};
ghost use Rattle.bpf_counts.specs.Counted.{IsCounted};
ghost use Rattle.bpf_link.specs.Programs.{IsLinkRefusal, IsLinkedAs};
ghost use Rattle.bpf_load.specs.Faults.{IsGatherFault, IsObjectFault, IsOwnFault, LacksFunctions, LacksOthers, is_answerable};
ghost use Rattle.bpf_load.specs.Targets.{Gathers, IsOwn, JoinsTo, LinksTo, asked_of, fields_of, contents, object_of, texts};

use crate::fault::{ObjectFault, in_object, of_count, of_others, of_turns};
use crate::target::{Target, stubs_of};
use arrayvec::ArrayVec;
use bpf_counts::counted;
use bpf_join::{ChainFault, Joined, join_all};
use bpf_link::{LinkFault, LinkOptions, Linked, MOST_STUBS, Stub, link_with};
use bpf_turns::turned;
use std::alloc::Global;

/// What a program is linked of.
#[derive(Drop)]
pub struct Sources {
    /// FILE with the entries of its maps and its programs in turn; others aren't joined to it yet.
    pub own: Vec<u8>,
    /// The helpers whose calls are answered.
    pub stubs: ArrayVec<Stub, MOST_STUBS>,
    /// What it comes to with the others, where there are some.
    pub joined: Option<Joined>,
}

impl Sources {
    /// The object that is linked.
    pub fn object(&self) -> &[u8]
        ensures { result.now ≡ object_of self.now }
    {
        match &self.joined {
            None => self.own.as_slice(),
            Some(joined) => joined.bytes.as_slice(),
        }
    }
}

/// An object's program, and what it was linked of.
#[derive(Drop)]
pub struct LinkedObject {
    pub sources: Sources,
    pub program: Linked,
}

impl LinkedObject {
    /// How many relocations of fields are left undone in FILE's own code.
    pub fn fields(&self) -> u32
        ensures { result ≡ fields_of self.now }
    {
        match &self.sources.joined {
            None => self.program.fields,
            Some(joined) => joined.fields,
        }
    }
}

/// FILE, in which maps have as many entries as they are told.
fn counted_file<'a>(
    alloc: Global,
    file: &[u8],
    target: &Target<'a>,
) -> Result<Vec<u8>, ObjectFault<'a>>
    ensures ok { IfOk result (λ counted.
        IsCounted file.now target.now.section.now (texts target.now.counts.now) counted.items) }
    ensures err { IfErr result (IsOwnFault target.now file.now) }
{
    match counted(alloc, file, target.section, target.counts) {
        Ok(counted) => Ok(counted),
        Err(why) => Err(of_count(file, target.counts, why)),
    }
}

/// FILE's own object, by what it is with the entries of its maps.
fn turned_file<'a>(
    alloc: Global,
    file: &[u8],
    target: &Target<'a>,
    counted: Vec<u8>,
) -> Result<Vec<u8>, ObjectFault<'a>>
    requires { IsCounted file.now target.now.section.now (texts target.now.counts.now) counted.items }
    ensures ok { IfOk result (λ own. IsOwn target.now file.now own.items) }
    ensures err { IfErr result (IsOwnFault target.now file.now) }
{
    if target.turns.is_empty() {
        return Ok(counted);
    }
    let object = counted.as_slice();
    match turned(alloc, object, target.section, target.turns) {
        Ok(own) => Ok(own),
        Err(why) => Err(of_turns(object, target.section, target.turns, why)),
    }
}

/// FILE's own object.
pub fn own_object<'a>(
    alloc: Global,
    file: &[u8],
    target: &Target<'a>,
) -> Result<Vec<u8>, ObjectFault<'a>>
    ensures ok { IfOk result (λ own. IsOwn target.now file.now own.items) }
    ensures err { IfErr result (IsOwnFault target.now file.now) }
{
    match counted_file(alloc, file, target) {
        Ok(counted) => turned_file(alloc, file, target, counted),
        Err(fault) => Err(fault),
    }
}

/// What an object comes to with the others, where there are some.
fn joined_with(alloc: Global, own: &[u8], target: &Target<'_>) -> Result<Option<Joined>, ChainFault>
    ensures ok { IfOk result (JoinsTo own.now (contents target.now.with.now) target.now.section.now
        target.now.as_compiled) }
    ensures err { IfErr result (LacksOthers own.now (contents target.now.with.now) target.now.section.now
        target.now.as_compiled) }
{
    match target.with.split_first() {
        Some((first, further)) => {
            match join_all(
                alloc,
                own,
                first.as_slice(),
                further,
                target.section,
                target.as_compiled,
            ) {
                Ok(joined) => Ok(Some(joined)),
                Err(told) => Err(told),
            }
        }
        None => Ok(None),
    }
}

/// What the program of FILE is linked of: its maps get their entries first, then its programs in turn
/// are made one, and last the others are joined to it. What is said of stubs is read before that.
///
/// Takes time in proportion to the length of FILE for each map and each program, and to the lengths
/// of all objects for each of the others.
pub fn gathered<'a>(
    alloc: Global,
    file: &[u8],
    target: &Target<'a>,
) -> Result<Sources, ObjectFault<'a>>
    ensures ok { IfOk result (Gathers target.now file.now) }
    ensures err { IfErr result (IsGatherFault target.now file.now) }
{
    let own = match own_object(alloc, file, target) {
        Ok(own) => own,
        Err(fault) => return Err(fault),
    };
    let stubs = match stubs_of(target) {
        Ok(stubs) => stubs,
        Err(fault) => return Err(in_object(own.as_slice(), target.section, fault)),
    };
    match joined_with(alloc, own.as_slice(), target) {
        Ok(joined) => Ok(Sources { own, stubs, joined }),
        Err(told) => Err(of_others(told)),
    }
}

/// The program of what was gathered.
fn linked(alloc: Global, target: &Target<'_>, sources: &Sources) -> Result<Linked, LinkFault>
    ensures ok { IfOk result (IsLinkedAs (asked_of target.now sources.now)) }
    ensures err { IfErr result (IsLinkRefusal (asked_of target.now sources.now)) }
{
    link_with(
        alloc,
        sources.object(),
        &LinkOptions {
            section: target.section,
            entry: target.entry,
            stubs: sources.stubs.as_slice(),
            as_compiled: target.as_compiled,
            packet: target.packet,
        },
    )
}

/// The program of FILE, an object: what `gathered` makes of it, linked.
#[inline(never)]
pub fn link_object<'a>(
    alloc: Global,
    file: &[u8],
    target: &Target<'a>,
) -> Result<LinkedObject, ObjectFault<'a>>
    ensures ok { IfOk result (LinksTo target.now file.now) }
    ensures err { IfErr result (IsObjectFault target.now file.now) }
{
    let sources = match gathered(alloc, file, target) {
        Ok(sources) => sources,
        Err(fault) => return Err(fault),
    };
    match linked(alloc, target, &sources) {
        Ok(program) => Ok(LinkedObject { sources, program }),
        Err(fault) => Err(in_object(sources.object(), target.section, fault)),
    }
}

/// Whether objects with functions may answer what a fault is about: a helper or a symbol that there
/// isn't, or a map that the machine doesn't have.
fn is_answerable(fault: &LinkFault) -> bool
    ensures { result ≡ is_answerable fault.now }
{
    match fault {
        LinkFault::Helper { .. } => true,
        LinkFault::Undefined { .. } => true,
        LinkFault::Map { .. } => true,
        LinkFault::TooManyMaps => true,
        _ => false,
    }
}

/// Whether FILE, an object, is refused for what further objects with functions may answer.
///
/// Takes the time of `link_object`.
pub fn lacks_functions<'a>(alloc: Global, file: &[u8], target: &Target<'a>) -> bool
    ensures { LacksFunctions target.now file.now result }
{
    match link_object(alloc, file, target) {
        Ok(linked) => {
            drop(linked);
            false
        }
        Err(fault) => {
            let lacks = is_answerable(&fault.fault);
            drop(fault);
            lacks
        }
    }
}
