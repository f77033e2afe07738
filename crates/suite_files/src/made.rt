//! The program of an object, as a section asks for it.
ghost use Rattle.std.specs.Prelude.{◌≡◌, ◌&&◌, All, IfErr, IfOk, length, nat_le, not};
ghost use Rattle.std.specs.List.{list_all};
ghost use Rattle.bpf_lines.specs.Objects.{HasPartLines, program_table};
ghost use Rattle.bpf_load.specs.Faults.{name_of as fault_name};
ghost use Rattle.bpf_load.specs.Targets.{LinksTo, contents, texts};
ghost use Rattle.input_texts.specs.Turns.{has_place};
ghost use Rattle.suite_files.specs.Asks.{entry_in, names_one, turns_in};
ghost use Rattle.suite_files.specs.Links.{AreLines, IsPacketOf, IsTableOf, IsTargetOf, names_told, section_of, section_told};
ghost use Rattle.suite_files.specs.Refused.{HasNoTable, IsKept, IsUnmade, IsUntold};

use crate::asked::Asked;
use crate::fault::{KeptFault, PutFault};
use bpf_lines::{LinesFault, ObjectLines, program_lines, write_table};
use bpf_link::{LinkFault, fault_names, home_of};
use bpf_load::{LinkedObject, ObjectFault, SourceKind, Target, link_object, told_packet};
use bpf_packet::Packet;
use counted_io::{Counted, WriteFault};
use input_texts::{Text, has_place};
use std::alloc::{AllocError, Global};

/// A program with what it was linked of, and the table of where its slots stand in the source of
/// that, if it is wanted.
#[derive(Drop)]
pub struct Made {
    pub loaded: LinkedObject,
    pub table: Vec<u8>,
}

/// Whether none of some texts has a place of the context.
fn have_no_places(entries: &[&str]) -> bool
    ensures { result ≡ list_all (λ text. not (has_place text.now)) entries.now }
{
    entries.iter().all(|text| !has_place(text.as_bytes()))
}

/// Whether there is one text at most, without a place of the context.
fn is_one(entries: &[&str]) -> bool
    ensures { result ≡ (nat_le (length entries.now) 1
        && list_all (λ text. not (has_place text.now)) entries.now) }
{
    entries.len() <= 1 && have_no_places(entries)
}

/// Whether one program is named at most, and no place of its context.
fn names_one(entries: &[&str]) -> bool
    ensures { result ≡ names_one (texts entries.now) }
{
    is_one(entries)
}

/// The name of the only program that is named: empty where none is, or they are called in turn.
fn entry_in<'a>(entries: &[&'a str]) -> &'a [u8]
    ensures { result.now ≡ entry_in (texts entries.now) }
{
    if !names_one(entries) {
        return b"";
    }
    match entries {
        [text, ..] => text.as_bytes(),
        [] => b"",
    }
}

/// The programs that are called in turn: none where one is named.
fn turns_in<'a>(entries: &'a [&'a str]) -> &'a [&'a str]
    ensures { texts result.now ≡ turns_in (texts entries.now) }
{
    if names_one(entries) { &[] } else { entries }
}

/// The name of the section of an object that is asked for: the one that is named, or that in which the
/// entry lies of one with several. Empty where neither is known.
fn section_of<'a>(asked: &'a Asked<'a>, object: &'a [u8]) -> &'a [u8]
    ensures { result.now ≡ section_of asked.now object.now }
{
    match &asked.section {
        Some(name) => name.bytes,
        None => home_of(object, entry_in(asked.entries.as_slice())),
    }
}

/// Which program a section asks for of an object, with these others joined to it.
pub fn target_of<'a>(
    alloc: Global,
    asked: &'a Asked<'a>,
    object: &'a [u8],
    with: &'a [Vec<u8>],
) -> Target<'a>
    ensures { IsTargetOf asked.now object.now (contents with.now) result }
{
    let entries = asked.entries.as_slice();
    let section = section_of(asked, object);
    let entry = entry_in(entries);
    Target {
        kind: SourceKind::Object,
        maps: None,
        section,
        entry,
        counts: &[],
        turns: turns_in(entries),
        with,
        stubs: asked.stubs,
        as_compiled: true,
        packet: packet_for(
            alloc,
            asked.packet,
            names_one(entries),
            object,
            section,
            entry,
        ),
    }
}

/// The kernel's struct that the entry takes, if it takes one.
fn packet_for(
    alloc: Global,
    asked: Option<Packet>,
    is_one: bool,
    object: &[u8],
    section: &[u8],
    entry: &[u8],
) -> Option<Packet>
    ensures { IsPacketOf asked is_one object.now section.now entry.now result }
{
    match asked {
        Some(packet) => Some(packet),
        None => {
            if is_one {
                told_packet(alloc, object, section, entry)
            } else {
                None
            }
        }
    }
}

/// A fault of an object with a copy of the name that it tells, unless memory runs out.
#[inline(never)]
fn kept(alloc: Global, fault: LinkFault, index: Option<usize>, name: &[u8]) -> PutFault
    ensures { IsKept fault index name.now result }
{
    match Vec::from_slice(alloc, name) {
        Ok(name) => PutFault::Link(KeptFault { fault, index, name }),
        Err(_) => PutFault::Memory,
    }
}

/// Why no program is made of an object, kept.
fn kept_object(alloc: Global, fault: &ObjectFault<'_>) -> PutFault
    ensures { IsKept fault.now.fault fault.now.index (fault_name fault.now) result }
{
    kept(alloc, fault.fault, fault.index, fault.name())
}

/// The section whose lines an object tells: of one with functions it is that of these.
fn section_told<'a>(index: Option<usize>, section: &'a [u8]) -> &'a [u8]
    ensures { result.now ≡ section_told index section.now }
{
    match index {
        None => section,
        Some(_) => b".text",
    }
}

/// Why nothing is told of an object's slots, kept.
#[inline(never)]
fn kept_lines(alloc: Global, section: &[u8], refused: &LinesFault<'_>) -> PutFault
    ensures { IsKept refused.now.fault refused.now.index (names_told section.now refused.now) result }
{
    let told = section_told(refused.index, section);
    let names = fault_names(refused.object.bytes, told, &refused.fault);
    kept(alloc, refused.fault, refused.index, names.as_slice())
}

/// What is told of a program's slots: where they stand in the source of what it was linked of.
fn lines_of<'a>(
    alloc: Global,
    target: &Target<'a>,
    loaded: &'a LinkedObject,
) -> Result<Vec<ObjectLines<'a>>, PutFault>
    ensures ok { IfOk result (λ all. AreLines target.now loaded.now all.items) }
    ensures told { IfOk result (λ all. All HasPartLines all.items) }
    ensures err { IfErr result (IsUntold target.now loaded.now) }
{
    let own = loaded.sources.own.as_slice();
    match program_lines(alloc, own, target.section, target.with) {
        Ok(all) => Ok(all),
        Err(refused) => Err(kept_lines(alloc, target.section, &refused)),
    }
}

/// The table of a program's slots, of which this is told.
fn written(
    alloc: Global,
    packet: Option<Packet>,
    words: &[u8],
    all: &[ObjectLines<'_>],
) -> Result<Vec<u8>, AllocError>
    requires { All HasPartLines all.now }
    ensures { IfOk result (λ table. table.items ≡ program_table packet words.now all.now) }
{
    let mut writer = Counted::new(Vec::new(alloc));
    match write_table(&mut writer, packet, words, all) {
        Ok(()) => Ok(writer.into_inner()),
        Err(WriteFault) => Err(AllocError),
    }
}

/// The table of where a program's slots stand in its source; nothing where none is wanted.
#[inline(never)]
fn table_of(
    alloc: Global,
    wanted: bool,
    target: &Target<'_>,
    loaded: &LinkedObject,
) -> Result<Vec<u8>, PutFault>
    ensures ok { IfOk result (λ table. IsTableOf wanted target.now loaded.now table.items) }
    ensures err { IfErr result (HasNoTable wanted target.now loaded.now) }
{
    if !wanted {
        return Ok(Vec::new(alloc));
    }
    let all = match lines_of(alloc, target, loaded) {
        Ok(all) => all,
        Err(fault) => return Err(fault),
    };
    let words = loaded.program.words.as_slice();
    match written(alloc, target.packet, words, all.as_slice()) {
        Ok(table) => Ok(table),
        Err(_) => Err(PutFault::Memory),
    }
}

/// The program of an object, with its table.
#[inline(never)]
pub fn made_of(
    alloc: Global,
    wanted: bool,
    target: &Target<'_>,
    object: &[u8],
) -> Result<Made, PutFault>
    ensures program { IfOk result (λ made. LinksTo target.now object.now made.loaded) }
    ensures table { IfOk result (λ made. IsTableOf wanted target.now made.loaded made.table.items) }
    ensures err { IfErr result (IsUnmade wanted target.now object.now) }
{
    let loaded = match link_object(alloc, object, target) {
        Ok(loaded) => loaded,
        Err(fault) => return Err(kept_object(alloc, &fault)),
    };
    match table_of(alloc, wanted, target, &loaded) {
        Ok(table) => Ok(Made { loaded, table }),
        Err(fault) => Err(fault),
    }
}
