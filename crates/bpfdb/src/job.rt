//! The job of a plan.
ghost use Rattle.std.specs.Prelude.{◌≡◌};
ghost use Rattle.bpf_load.specs.Targets.{contents};
ghost use Rattle.bpfdb.specs.Contents.{contents_in, last_of, library_in};
ghost use Rattle.bpfdb.specs.Jobs.{IsJobOf, IsPacketOf, IsTargetOf, entry_of, name_or_empty, section_of, tells_packet};

use crate::kind::source_kind;
use crate::linux::{Linux, links};
use bpf_link::home_of;
use bpf_load::{SourceKind, Target, told_packet};
use bpf_packet::Packet;
use bpfdb_cli::{EntryTakes, Plan, TargetWords};
use bpfdb_jobs::Job;
use std::alloc::Global;

/// What was read of the files of a plan.
#[derive(Clone, Copy)]
pub struct Bytes<'a> {
    /// Those of FILE.
    pub file: &'a [u8],
    /// Those of PATH.
    pub context: &'a [u8],
    /// Those of the other file; none where there isn't one.
    pub other: &'a [u8],
    /// Those of the objects with functions.
    pub with: &'a [Vec<u8>],
    /// What became of Linux's library.
    pub linux: Linux,
}

/// The job of a plan, with the bytes of its files.
pub fn job_of<'a>(alloc: Global, plan: &'a Plan<'a>, bytes: &Bytes<'a>) -> Job<'a>
    ensures { IsJobOf plan.now (contents_in bytes.now) result }
{
    Job {
        ask: plan.ask,
        name: plan.file,
        file: bytes.file,
        context: bytes.context,
        other: match plan.other {
            Some(_) => Some(bytes.other),
            None => None,
        },
        other_kind: source_kind(plan, name_or_empty(plan.other), bytes.other),
        target: target_of(alloc, plan, bytes),
        library: library_in(bytes),
        options: plan.options,
    }
}

/// Linux's library where it was joined by itself; else nothing.
fn library_in<'a>(bytes: &Bytes<'a>) -> &'a [u8]
    ensures { result.now ≡ library_in (contents_in bytes.now) }
{
    match bytes.linux {
        Linux::Joined => last_of(bytes.with),
        Linux::Missing => b"",
        Linux::Unneeded => b"",
    }
}

/// The last of some objects; nothing where there is none.
fn last_of<'a>(with: &'a [Vec<u8>]) -> &'a [u8]
    ensures { result.now ≡ last_of (contents with.now) }
{
    if with.is_empty() {
        return b"";
    }
    with[with.len() - 1].as_slice()
}

/// What FILE is, and which program runs.
fn target_of<'a>(alloc: Global, plan: &'a Plan<'a>, bytes: &Bytes<'a>) -> Target<'a>
    ensures { IsTargetOf plan.now (contents_in bytes.now) result }
{
    let words = &plan.target;
    let kind = source_kind(plan, plan.file.as_bytes(), bytes.file);
    let section = section_of(words, bytes.file);
    let entry = entry_of(words);
    let tells = tells_packet(plan, kind);
    Target {
        kind,
        maps: words.maps,
        section,
        entry,
        counts: words.counts.as_slice(),
        turns: words.turns.as_slice(),
        with: bytes.with,
        stubs: words.stubs,
        as_compiled: !words.strict_fields,
        packet: packet_for(alloc, words.takes, tells, bytes.file, section, entry),
    }
}

/// Whether the types of FILE, which is of this kind, may tell what the entry takes.
fn tells_packet(plan: &Plan<'_>, kind: SourceKind) -> bool
    ensures { result ≡ tells_packet plan.now kind }
{
    links(&plan.ask, kind) && plan.target.turns.is_empty()
}

/// The kernel's struct that the entry takes, if it takes one.
fn packet_for(
    alloc: Global,
    takes: EntryTakes,
    tells: bool,
    file: &[u8],
    section: &[u8],
    entry: &[u8],
) -> Option<Packet>
    ensures { IsPacketOf takes tells file.now section.now entry.now result }
{
    match takes {
        EntryTakes::Unsaid => {
            if tells {
                told_packet(alloc, file, section, entry)
            } else {
                None
            }
        }
        EntryTakes::Struct(packet) => Some(packet),
        EntryTakes::Context => None,
    }
}

/// The name of the section: the one that is named, or that in which the entry lies of an object with
/// several. Empty where neither is known.
fn section_of<'a>(words: &TargetWords<'a>, file: &'a [u8]) -> &'a [u8]
    ensures { result.now ≡ section_of words.now file.now }
{
    match words.section {
        Some(name) => name.as_bytes(),
        None => home_of(file, entry_of(words)),
    }
}

/// A name, empty where there is none.
pub fn name_or_empty<'a>(name: Option<&'a str>) -> &'a [u8]
    ensures { result.now ≡ name_or_empty name.entry }
{
    match name {
        Some(name) => name.as_bytes(),
        None => b"",
    }
}

/// The name of the entry: empty where programs are called in turn, since that of their object is its
/// only one.
fn entry_of<'a>(words: &TargetWords<'a>) -> &'a [u8]
    ensures { result.now ≡ entry_of words.now }
{
    if words.turns.is_empty() {
        name_or_empty(words.entry)
    } else {
        b""
    }
}
