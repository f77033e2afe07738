//! Linux's library of helpers in parts, of which those are read that a program calls.
ghost use Rattle.std.specs.Prelude.{◌≡◌, ◌∷◌, ◌++◌, ◌+◌, ◌*◌, ◌≤◌, [], IfSome, Some, length, string_bytes};
ghost use Rattle.bpf_load.specs.Targets.{contents};
ghost use Rattle.bpfdb.specs.Contents.{contents_in};
ghost use Rattle.bpfdb.specs.Parts.{ArePartsFor, GivesBelow, GivesOne, GivesParts, Calls, CallsIn, calls_below, calls_in, has_prefix, is_elsewhere, leaves_below, leaves_names, part_path, with_call};
ghost use Rattle.bpfdb_files.specs.Reading.{Gives};
ghost use Rattle.bpf_link.specs.Missing.{is_called};
ghost use Rattle.bpfdb_files.specs.declared.kinds.FileKind.TheVariants.{Source};

use crate::files::read_named;
use crate::job::{Bytes, job_of};
use crate::kind::runs_two;
use bpf_link::{
    Plan as Planned, SymbolEntry, calls_helper, helper_name, is_called, planned, reached_code,
    symbol_place,
};
use bpf_load::gathered;
use bpfdb_cli::Plan;
use bpfdb_files::{FileKind, Opener};
use bpfdb_jobs::Job;
use std::alloc::Global;

/// The helper whose part comes last, and is always there: it looks up what a map has.
const LOOKUP: u32 = 1;

/// The last helper of the kernel's list, whose part comes first.
const LAST: u32 = 211;

/// How many helpers may have a part before that of lookups: those down to 2.
const OTHERS: u32 = 210;

/// The parts that are joined to FILE; None where the library is joined as a whole: for two programs,
/// where a helper is called by its name, and where a part can't be read, as one of a helper that
/// the library doesn't have.
pub fn parts_for<F: Opener>(
    alloc: Global,
    files: &F,
    folder: &str,
    plan: &Plan<'_>,
    bytes: &Bytes<'_>,
) -> Option<Vec<Vec<u8>>>
    ensures { IfSome result (λ parts. ArePartsFor (F.bytes_at files.now) folder.now plan.now
        (contents_in bytes.now) (contents parts.items)) }
{
    let job = job_of(alloc, plan, bytes);
    if runs_two(&job) {
        return None;
    }
    match calls_of(alloc, &job) {
        Some(calls) => read_parts(alloc, files, folder, calls.as_slice()),
        None => None,
    }
}

/// The calls of helpers that a job's program reaches, where no helper is called by its name.
fn calls_of(alloc: Global, job: &Job<'_>) -> Option<Vec<u8>>
    ensures { IfSome result (λ calls. Calls job.now calls.items) }
{
    let target = &job.target;
    match gathered(alloc, job.file, target) {
        Ok(sources) => calls_among(alloc, sources.object(), target.section, target.entry),
        Err(_) => None,
    }
}

/// Those that an object's entry reaches.
fn calls_among(alloc: Global, object: &[u8], section: &[u8], entry: &[u8]) -> Option<Vec<u8>>
    ensures { IfSome result (λ calls. CallsIn object.now section.now entry.now calls.items) }
{
    if leaves_names(object, section) {
        return None;
    }
    match reached_code(alloc, object, section, entry) {
        Ok(code) => calls_in(alloc, code.as_slice()),
        Err(_) => None,
    }
}

/// The calls of helpers in code.
fn calls_in(alloc: Global, code: &[u8]) -> Option<Vec<u8>>
    ensures { IfSome result (λ calls. calls.items ≡ calls_in code.now) }
{
    let mut calls = Vec::new(alloc);
    for slot in 0..code.len() / 8 {
        calls = match with_call(code, slot, calls) {
            Some(calls) => calls,
            None => return None,
        };
    }
    Some(calls)
}

/// Calls with the one in a slot, if there is one.
fn with_call(code: &[u8], slot: usize, calls: Vec<u8>) -> Option<Vec<u8>>
    requires { 8 * slot + 8 ≤ length code.now }
    ensures { IfSome result (λ all. all.items ≡ with_call code.now slot calls.items) }
{
    if calls_helper(code, slot) {
        with(calls, &code[8 * slot..8 * slot + 8])
    } else {
        Some(calls)
    }
}

/// Whether a name at a place begins as those of helpers do.
fn has_prefix(bytes: &[u8], at: usize) -> bool
    requires { at ≤ length bytes.now }
    ensures { result ≡ has_prefix bytes.now at }
{
    if bytes.len() - at < 4 {
        return false;
    }
    &bytes[at..at + 4] == b"bpf_".as_slice()
}

/// Whether a symbol is undefined that has the name of a helper.
fn is_elsewhere(plan: &Planned<'_>, symbol: &SymbolEntry) -> bool
    ensures { result ≡ is_elsewhere plan.now symbol.now }
{
    symbol.section == 0 && has_prefix(plan.object.bytes(), symbol_place(plan, symbol))
}

/// Whether an object leaves such symbols undefined.
fn leaves_names(object: &[u8], section: &[u8]) -> bool
    ensures { result ≡ leaves_names object.now section.now }
{
    match planned(object, section) {
        Ok(plan) => leaves_any(&plan),
        Err(_) => true,
    }
}

/// Whether there is such a symbol.
fn leaves_any(plan: &Planned<'_>) -> bool
    ensures { result ≡ leaves_below plan.now (length plan.now.symbols) }
{
    let mut found = false;
    for i in 0..plan.symbols.len() {
        found = is_elsewhere(plan, &plan.symbols.at(i)) || found;
    }
    found
}

/// The parts of the helpers that are called; None where one of them can't be read.
fn read_parts<F: Opener>(
    alloc: Global,
    files: &F,
    folder: &str,
    calls: &[u8],
) -> Option<Vec<Vec<u8>>>
    ensures { IfSome result (λ parts. GivesParts (F.bytes_at files.now) folder.now calls.now
        (contents parts.items)) }
{
    let others = read_others(alloc, files, folder, calls)?;
    let shared = read_part(alloc, files, folder, LOOKUP)?;
    with_part(others, shared)
}

/// Those of all but helper 1, the last helper's first: the parts of maps' helpers are the longest, and
/// each part is copied once for each one behind it.
fn read_others<F: Opener>(
    alloc: Global,
    files: &F,
    folder: &str,
    calls: &[u8],
) -> Option<Vec<Vec<u8>>>
    ensures { IfSome result (λ parts. GivesBelow (F.bytes_at files.now) folder.now calls.now 210
        (contents parts.items)) }
{
    let mut parts = Vec::new(alloc);
    for n in 0..OTHERS {
        parts = match with_called(alloc, files, folder, calls, LAST - n, parts) {
            Some(more) => more,
            None => return None,
        };
    }
    Some(parts)
}

/// Parts with that of a helper behind them, where it is called.
fn with_called<F: Opener>(
    alloc: Global,
    files: &F,
    folder: &str,
    calls: &[u8],
    helper: u32,
    parts: Vec<Vec<u8>>,
) -> Option<Vec<Vec<u8>>>
    ensures { IfSome result (λ all. GivesOne (is_called calls.now helper)
        (F.bytes_at files.now (part_path folder.now helper)) (contents parts.items) (contents all.items)) }
{
    if !is_called(calls, helper) {
        return Some(parts);
    }
    match read_part(alloc, files, folder, helper) {
        Some(part) => with_part(parts, part),
        None => None,
    }
}

/// Parts with one more.
fn with_part(mut parts: Vec<Vec<u8>>, part: Vec<u8>) -> Option<Vec<Vec<u8>>>
    ensures { IfSome result (λ all. contents all.items ≡ contents parts.items ++ part.items ∷ []) }
{
    match parts.push(part) {
        Ok(()) => Some(parts),
        Err(_) => None,
    }
}

/// The part of a helper.
fn read_part<F: Opener>(alloc: Global, files: &F, folder: &str, helper: u32) -> Option<Vec<u8>>
    ensures { IfSome result (λ part. Gives Source
        (F.bytes_at files.now (part_path folder.now helper)) (Some part.items)) }
{
    let path = path_of(alloc, folder, helper)?;
    match read_named(alloc, files, path.as_str(), FileKind::Source) {
        Ok(part) => Some(part),
        Err(_) => None,
    }
}

/// The path of that part.
fn path_of(alloc: Global, folder: &str, helper: u32) -> Option<String>
    ensures { IfSome result (λ path. string_bytes path ≡ part_path folder.now helper) }
{
    let within = with(Vec::new(alloc), folder.as_bytes())?;
    let begun = with(within, b"/bpf_")?;
    let named = with(begun, helper_name(helper))?;
    let path = with(named, b".o")?;
    match String::from_utf8(path) {
        Ok(path) => Some(path),
        Err(_) => None,
    }
}

/// A text with a piece behind it.
fn with(mut text: Vec<u8>, piece: &[u8]) -> Option<Vec<u8>>
    ensures { IfSome result (λ all. all.items ≡ text.items ++ piece.now) }
{
    match text.extend_from_slice(piece) {
        Ok(()) => Some(text),
        Err(_) => None,
    }
}
