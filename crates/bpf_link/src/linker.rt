//! The linker: from an object to the words of a program.
ghost use Rattle.std.specs.Prelude.{◌≡◌, ◌≤◌, ◌<◌, ◌+◌, ◌*◌, ◌⊎◌, List, length, IfOk, IfErr, Ok};
ghost use Rattle.bpf_isa.specs.Checker.{IsRefused, most_slots};
ghost use Rattle.bpf_isa.specs.declared.maps.MapShape.{MapShape};
ghost use Rattle.bpf_isa.specs.Maps.{IsShape, most_maps};
ghost use Rattle.bpf_link.specs.Begun.{BeginsNot, IsReachedCode};
ghost use Rattle.bpf_link.specs.Data.{AllBelow, HasMaps, numbered};
ghost use Rattle.bpf_link.specs.Links.{AllShapes, MemoryOr, planned, program_of, program_words, plain_maps, least_maps, data_shape, data_shapes, helper_fault, told_of};
ghost use Rattle.bpf_link.specs.declared.fault.LinkFault.TheVariants.{Memory};
ghost use Rattle.bpf_link.specs.Programs.{HasOwnMaps, IsLinked, IsLinkRefusal, IsLinkedAs, IsMade, IsProgram, IsShaped, asked_of, made_of, plainly};
ghost use Rattle.bpf_link.specs.Parts.{slots_in};
ghost use Rattle.bpf_link.specs.Pruned.{flow_of};
ghost use Rattle.bpf_link.specs.Reach.{IsReach};
ghost use Rattle.bpf_link.specs.Refusals.{IsLinkFault, IsPlanFault, IsShapeFault};

use crate::data_sections::data_of;
use crate::entry::entry_of;
use crate::fault::LinkFault;
use crate::field_relocations::fields_as_compiled;
use crate::fields::u32_at;
use crate::map_names::map_names;
use crate::missing::others_in;
use crate::object::open;
use crate::packets::with_context;
use crate::placed::Placed;
use crate::plan::{Plan, plan_of};
use crate::pruned::{blanked, flow_of, kept_of, pruned};
use crate::reach::reached;
use crate::sections::roles_of;
use crate::setup::{stores_of, with_setup};
use crate::shapes::all_shapes;
use crate::sources::source_of;
use crate::stubs::{Stub, answered, answers};
use crate::undefined::all_told;
use crate::words::{maps_of, words_of};
use arrayvec::ArrayVec;
use bpf_isa::{
    LoadFault, MOST_ENTRIES, MOST_MAPS, MOST_SLOTS, MapShape, MapTable, PieceFault, check,
};
use bpf_packet::Packet;
use std::alloc::Global;

/// What is asked of a link.
#[derive(Clone, Copy)]
pub struct LinkOptions<'a> {
    /// The name of the code section, at most 255 bytes; where it is empty, the section is the only
    /// one with code besides `.text`, or else `.text`.
    pub section: &'a [u8],
    /// The name of the function of that section at which the program begins; where it is empty, the
    /// only one that is known outside the object, or else the section's first slot.
    pub entry: &'a [u8],
    /// The helpers whose calls are answered by a constant: each call is `mov r0, VALUE` instead.
    pub stubs: &'a [Stub],
    /// Whether relocations of fields (CO-RE) may be left undone: the words then have these fields
    /// where the headers had them with which the object was compiled.
    pub as_compiled: bool,
    /// The kernel's struct that the entry takes, by which it is given the packet that is the machine's
    /// context; without one its context is the machine's.
    pub packet: Option<Packet>,
}

/// The program of a plan, whose maps have no shapes yet.
#[derive(Drop)]
struct Program {
    words: Vec<u8>,
    /// Where the object's own maps stand in their section.
    maps: ArrayVec<u64, MOST_MAPS>,
    data_maps: ArrayVec<MapShape, MOST_MAPS>,
    answered: usize,
    /// Where the names of all maps stand in the file.
    names: ArrayVec<usize, MOST_MAPS>,
}

/// Words, and how many calls of helpers are answered in them.
#[derive(Drop)]
struct Answered {
    words: Vec<u8>,
    count: usize,
}

/// A program that was made of an object.
#[derive(Drop)]
pub struct Linked {
    /// Its words.
    pub words: Vec<u8>,
    /// How many maps of the object its code refers to. Their numbers follow their places in the
    /// section of maps.
    pub maps: usize,
    /// The shapes of the maps that its data become, which come after those: one for each section
    /// that the program refers to, in the order of the sections' numbers. There are at most 16 maps
    /// in all.
    pub data_maps: ArrayVec<MapShape, MOST_MAPS>,
    /// How many calls of helpers are answered by a stub.
    pub answered: usize,
    /// The shapes of all maps, in the order of their numbers: those that BTF gives maps in `.maps`,
    /// which the machine may have, or those that the object's section `maps` gives them, of any
    /// size; and those of data. None where there is no BTF and the object doesn't define each of
    /// its own as an array.
    pub shapes: ArrayVec<MapShape, MOST_MAPS>,
    /// How many relocations of fields are left undone.
    pub fields: u32,
    /// Where the names of all maps stand in the file (`short_at`), in the order of their numbers:
    /// of the object's own those of the symbols there, of data those of the sections. The file's
    /// end where one has none.
    pub names: ArrayVec<usize, MOST_MAPS>,
}

/// The most bytes of a section's name.
const LONGEST_NAME: usize = 255;

/// A table of so many maps of one byte each.
fn plain_maps(count: usize) -> MapTable
    requires { count ≤ most_maps }
    ensures { result ≡ plain_maps count }
{
    let mut maps = MapTable::empty();
    for _ in 0..count {
        match maps.add(1, 1) {
            Ok(()) => {}
            Err(_) => return maps,
        }
    }
    maps
}

/// What the program of a section is put together from.
pub fn planned<'a>(bytes: &'a [u8], name: &[u8]) -> Result<Plan<'a>, LinkFault>
    ensures { result ≡ planned bytes.now name.now }
{
    if name.len() > LONGEST_NAME {
        return Err(LinkFault::LongName);
    }
    let object = open(bytes)?;
    let roles = roles_of(&object, name);
    plan_of(object, &roles, name.is_empty())
}

/// A table of so many maps of one byte each, and after them those of data.
fn least_maps(count: usize, shapes: &[MapShape]) -> MapTable
    requires few { count + length shapes.now ≤ most_maps }
    requires possible { AllShapes shapes.now }
    ensures { result ≡ least_maps count shapes.now }
{
    let mut maps = plain_maps(count);
    for shape in shapes {
        match maps.add(shape.value_size, shape.entries) {
            Ok(()) => {}
            Err(_) => return maps,
        }
    }
    maps
}

/// The shape of the map that holds so many bytes of data.
fn data_shape(size: u64) -> MapShape
    ensures value { result ≡ data_shape size }
    ensures shape { IsShape result }
{
    if size < 32768 {
        return MapShape {
            value_size: 8,
            entries: size as u32 / 8 + 1,
        };
    }
    MapShape {
        value_size: 16,
        entries: (size / 16 + 1).min(u64::from(MOST_ENTRIES)) as u32,
    }
}

/// The shapes of the maps that sections of data become.
fn data_shapes(plan: &Plan<'_>, taken: &[usize]) -> ArrayVec<MapShape, MOST_MAPS>
    requires few { length taken.now ≤ most_maps }
    requires below { AllBelow (length plan.now.object.sections) taken.now }
    ensures value { result.items ≡ data_shapes plan.now taken.now }
    ensures possible { AllShapes result.items }
{
    let mut shapes = ArrayVec::new();
    for section in taken {
        let header = plan.object.section(*section);
        shapes.push(data_shape(header.size));
    }
    shapes
}

/// The words of a plan with an exit in each slot that isn't reached, with calls answered, and with
/// the setup.
fn program_words(
    alloc: Global,
    placed: &Placed<'_, '_>,
    reach: &[bool],
    entry: usize,
    stubs: &[Stub],
) -> Result<Answered, LinkFault>
    requires { entry < most_slots }
    ensures ok { IfOk result (λ done.
        program_words placed.now reach.now entry stubs.now
        ≡ Ok (record { words = done.words.items; count = done.count })) }
    ensures err { IfErr result (MemoryOr
        (program_words placed.now reach.now entry stubs.now)) }
{
    let code = match words_of(alloc, placed) {
        Ok(code) => code,
        Err(fault) => return Err(fault),
    };
    let stores = match stores_of(alloc, placed) {
        Ok(stores) => stores,
        Err(fault) => return Err(fault),
    };
    if code.len() + stores.len() > 8 * MOST_SLOTS {
        return Err(LinkFault::TooLong);
    }
    let blank = blanked(reach, code);
    let count = answers(stubs, &blank);
    match with_setup(alloc, answered(stubs, blank), &stores, entry) {
        Ok(words) => Ok(Answered { words, count }),
        Err(fault) => Err(fault),
    }
}

/// The words of a plan whose maps have numbers.
fn numbered_words(
    alloc: Global,
    plan: &Plan<'_>,
    maps: &[u64],
    taken: &[usize],
    reach: &[bool],
    entry: usize,
    stubs: &[Stub],
) -> Result<Answered, LinkFault>
    requires maps { HasMaps (numbered plan.now maps.now taken.now) }
    requires begins { entry < most_slots }
    ensures ok { IfOk result (λ done.
        program_words (numbered plan.now maps.now taken.now) reach.now entry stubs.now
        ≡ Ok (record { words = done.words.items; count = done.count })) }
    ensures err { IfErr result (MemoryOr
        (program_words (numbered plan.now maps.now taken.now) reach.now entry
        stubs.now)) }
{
    program_words(alloc, &Placed { plan, maps, taken }, reach, entry, stubs)
}

/// The words of a plan whose entry is known, and its maps.
fn program_of(
    alloc: Global,
    plan: &Plan<'_>,
    slot: usize,
    reach: &[bool],
    stubs: &[Stub],
) -> Result<Program, LinkFault>
    requires small { slot < most_slots }
    requires inside { slot ≤ slots_in plan.now.parts.code }
    ensures ok { IfOk result (IsProgram plan.now slot reach.now stubs.now) }
    ensures err { IfErr result (MemoryOr (program_of slot reach.now stubs.now plan.now)) }
{
    let maps = match maps_of(plan) {
        Ok(maps) => maps,
        Err(fault) => return Err(fault),
    };
    let own = maps.as_slice();
    let sections = match data_of(plan) {
        Ok(sections) => sections,
        Err(fault) => return Err(fault),
    };
    let taken = sections.as_slice();
    if own.len() + taken.len() > MOST_MAPS {
        return Err(LinkFault::TooManyMaps);
    }
    plan.parts.invariant();
    let done = match numbered_words(alloc, plan, own, taken, reach, slot, stubs) {
        Ok(done) => done,
        Err(fault) => return Err(fault),
    };
    let data_maps = data_shapes(plan, taken);
    let names = map_names(plan, own, taken);
    Ok(Program {
        words: done.words,
        answered: done.count,
        maps,
        data_maps,
        names,
    })
}

/// A program with the shapes of its maps, and no relocations of fields yet.
fn with_shapes(alloc: Global, plan: &Plan<'_>, program: Program) -> Result<Linked, LinkFault>
    requires { HasOwnMaps plan.now program }
    ensures ok { IfOk result (IsShaped plan.now (made_of program)) }
    ensures err { IfErr result (IsShapeFault plan.now) }
{
    let own = program.maps.as_slice();
    let others = program.data_maps.as_slice();
    match all_shapes(alloc, plan, own, others) {
        Ok(shapes) => Ok(Linked {
            words: program.words,
            maps: program.maps.len(),
            answered: program.answered,
            data_maps: program.data_maps,
            shapes,
            fields: 0,
            names: program.names,
        }),
        Err(fault) => Err(fault),
    }
}

/// The program of a code section of a relocatable ELF object for BPF (64 bits, little-endian).
///
/// The words are those of the section, and after them those of `.text`, if the section calls it.
/// Calls get their distances, and wide loads of maps the maps' numbers: 0 for the one that stands
/// first in the section `maps` or `.maps` of those that are referred to. Only slots that are
/// reached from the entry count, by what their instructions say (RFC 9669, section 4): each other
/// one is `exit`, and its relocations aren't looked at. The sections of data that the program
/// refers to are maps after those, and wide loads of addresses in them become those of places in
/// these maps. Where the entry isn't the first slot of the section, slot 0 jumps to it; where data
/// aren't zeros at the start, slot 0 jumps to a setup behind the code, which stores them and goes
/// on at the entry. In both cases the code begins at slot 1. The words pass the checker, for maps
/// that have at least one byte. Relocations of fields are done in none: where there are some, the
/// object is refused unless it is asked for that they are left as compiled. An entry that takes the
/// kernel's own struct of a packet, by its BTF, is refused unless that is asked for: then the words
/// are those of `on_packet`. Takes time in proportion to the length of the object, and to the number
/// of stubs.
pub fn link_with(
    alloc: Global,
    object: &[u8],
    options: &LinkOptions<'_>,
) -> Result<Linked, LinkFault>
    ensures ok { IfOk result (IsLinkedAs (asked_of object.now options.now)) }
    ensures err { IfErr result (IsLinkRefusal (asked_of object.now options.now)) }
{
    let linked = match link_words(alloc, object, options) {
        Ok(linked) => linked,
        Err(fault) => return Err(fault),
    };
    let fields = match fields_as_compiled(alloc, object, options.section, options.as_compiled) {
        Ok(fields) => fields,
        Err(fault) => return Err(fault),
    };
    match with_context(alloc, object, options, linked.words) {
        Ok(words) => Ok(Linked {
            words,
            maps: linked.maps,
            data_maps: linked.data_maps,
            answered: linked.answered,
            shapes: linked.shapes,
            fields,
            names: linked.names,
        }),
        Err(fault) => Err(fault),
    }
}

/// The program of a plan of what counts, from a slot of its code on.
fn link_plan(
    alloc: Global,
    plan: &Plan<'_>,
    slot: usize,
    reach: &[bool],
    stubs: &[Stub],
) -> Result<Linked, LinkFault>
    requires small { slot < most_slots }
    requires inside { slot ≤ slots_in plan.now.parts.code }
    ensures ok { IfOk result (IsMade plan.now slot reach.now stubs.now) }
    ensures err { IfErr result (IsPlanFault plan.now slot reach.now stubs.now) }
{
    let program = match program_of(alloc, plan, slot, reach, stubs) {
        Ok(program) => program,
        Err(fault) => return Err(all_told(plan, fault)),
    };
    match check(
        alloc,
        &program.words,
        &least_maps(program.maps.len(), program.data_maps.as_slice()),
    ) {
        Ok(_) => match with_shapes(alloc, plan, program) {
            Ok(linked) => Ok(linked),
            Err(fault) => Err(fault),
        },
        Err(LoadFault::Memory) => Err(LinkFault::Memory),
        Err(fault) => Err(told_of(plan, &program.words, fault)),
    }
}

/// The slots of a plan's code that are reached from one of them.
fn reach_of(alloc: Global, plan: &Plan<'_>, slot: usize) -> Result<Vec<bool>, LinkFault>
    ensures ok { IfOk result (λ reach. IsReach (flow_of plan.now) slot reach.items) }
    ensures err { IfErr result (λ fault. fault ≡ Memory) }
{
    match flow_of(alloc, plan) {
        Ok(flow) => reached(alloc, &flow, slot),
        Err(fault) => Err(fault),
    }
}

/// The program of a code section, whose relocations of fields aren't looked at.
fn link_words(alloc: Global, object: &[u8], options: &LinkOptions<'_>) -> Result<Linked, LinkFault>
    ensures ok { IfOk result (IsLinked object.now options.now.section.now options.now.entry.now
        options.now.stubs.now) }
    ensures err { IfErr result (IsLinkFault object.now options.now.section.now
        options.now.entry.now options.now.stubs.now) }
{
    let plan = match planned(object, options.section) {
        Ok(plan) => plan,
        Err(fault) => return Err(fault),
    };
    let slot = match entry_of(&plan, options.entry) {
        Ok(slot) => slot,
        Err(fault) => return Err(fault),
    };
    let reach = match reach_of(alloc, &plan, slot) {
        Ok(reach) => reach,
        Err(fault) => return Err(fault),
    };
    let kept = match kept_of(alloc, &plan, &reach) {
        Ok(kept) => kept,
        Err(fault) => return Err(fault),
    };
    match link_plan(alloc, &pruned(&plan, &kept), slot, &reach, options.stubs) {
        Ok(linked) => Ok(linked),
        Err(fault) => Err(fault),
    }
}

/// The words of an object's code as control goes through them from the entry of a section on: with
/// calls in their places, and with `exit` in each slot that isn't reached.
///
/// Takes time in proportion to the length of the object.
pub fn reached_code(
    alloc: Global,
    object: &[u8],
    section: &[u8],
    entry: &[u8],
) -> Result<Vec<u8>, LinkFault>
    ensures ok { IfOk result (λ words.
        IsReachedCode object.now section.now entry.now words.items) }
    ensures err { IfErr result (λ fault. (fault ≡ Memory)
        ⊎ BeginsNot object.now section.now entry.now fault) }
{
    let plan = match planned(object, section) {
        Ok(plan) => plan,
        Err(fault) => return Err(fault),
    };
    let slot = match entry_of(&plan, entry) {
        Ok(slot) => slot,
        Err(fault) => return Err(fault),
    };
    let reach = match reach_of(alloc, &plan, slot) {
        Ok(reach) => reach,
        Err(fault) => return Err(fault),
    };
    match flow_of(alloc, &plan) {
        Ok(flow) => Ok(blanked(&reach, flow)),
        Err(fault) => Err(fault),
    }
}

/// What is told of words whose slot calls a helper that there isn't.
fn helper_fault(plan: &Plan<'_>, words: &[u8], slot: usize) -> LinkFault
    requires { 8 * slot + 8 ≤ length words.now }
    ensures { result ≡ helper_fault plan.now words.now slot }
{
    let helper = u32_at(words, 8 * slot + 4);
    LinkFault::Helper {
        slot,
        helper,
        source: source_of(plan, words, slot),
        others: others_in(words, helper),
    }
}

/// What is told of words that the checker refuses.
fn told_of(plan: &Plan<'_>, words: &[u8], fault: LoadFault) -> LinkFault
    requires { (maps : List MapShape) × IsRefused words.now maps fault }
    ensures { result ≡ told_of plan.now words.now fault }
{
    match fault {
        LoadFault::At {
            slot,
            fault: PieceFault::UnknownHelper,
        } => helper_fault(plan, words, slot),
        LoadFault::At { slot, .. } => LinkFault::Program {
            fault,
            source: source_of(plan, words, slot),
        },
        _ => LinkFault::Program {
            fault,
            source: None,
        },
    }
}

/// The program of a code section: that of `link_with`, where nothing but the section is asked for.
pub fn link(alloc: Global, object: &[u8], section: &[u8]) -> Result<Linked, LinkFault>
    ensures ok { IfOk result (IsLinkedAs (plainly object.now section.now)) }
    ensures err { IfErr result (IsLinkRefusal (plainly object.now section.now)) }
{
    link_with(
        alloc,
        object,
        &LinkOptions {
            section,
            entry: &[],
            stubs: &[],
            as_compiled: false,
            packet: None,
        },
    )
}
