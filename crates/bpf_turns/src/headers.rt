//! The table of sections of a turned object.
ghost use Rattle.std.specs.Prelude.{◌≡◌, ◌≤◌, ◌<◌, ◌++◌, IfErr, IfOk, length};
ghost use Rattle.bpf_join.specs.Gathered.{gathered};
ghost use Rattle.bpf_join.specs.Tables.{header_bytes};
ghost use Rattle.bpf_link.specs.declared.fault.LinkFault.TheVariants.{Memory};
ghost use Rattle.bpf_turns.specs.Objects.{is_ext, is_gone, kept_header, last_header, refers, relocates_ext, turned_header, turned_headers};
ghost use Rattle.bpf_turns.specs.Parts.{AreLaid, HasRoom};

use crate::calls::Call;
use crate::code::{call_index, into};
use crate::relocations::relocates;
use crate::source::Source;
use bpf_join::{lies_at, with_header};
use bpf_link::{LinkFault, Object, SectionHeader, is_code, is_named};

/// A section that isn't there.
const NO_SECTION: SectionHeader = SectionHeader {
    name: 0,
    kind: 0,
    flags: 0,
    offset: 0,
    size: 0,
    link: 0,
    info: 0,
};

/// Where each part of the new file begins, in bytes. Each ends where the next begins.
#[derive(Clone, Copy)]
pub struct Lies {
    /// The code.
    pub code: usize,
    /// The symbols.
    pub symbols: usize,
    /// The relocations of the code.
    pub relocations: usize,
    /// What `.BTF.ext` tells.
    pub ext: usize,
    /// The table of sections.
    pub end: usize,
}

/// Whether a section tells places of instructions.
fn is_ext(object: &Object<'_>, it: &SectionHeader) -> bool
    ensures { result ≡ is_ext object.now it.now }
{
    is_named(object, it, b".BTF.ext")
}

/// Whether a section has relocations of one that does.
fn relocates_ext(object: &Object<'_>, it: &SectionHeader) -> bool
    ensures { result ≡ relocates_ext object.now it.now }
{
    if it.kind != 9 && it.kind != 4 {
        return false;
    }
    let of = it.info as usize;
    if of >= object.len() {
        return false;
    }
    is_ext(object, &object.section(of))
}

/// Whether a section is there no longer.
fn is_gone(source: &Source<'_>, calls: &[Call], i: usize, it: &SectionHeader) -> bool
    ensures { result ≡ is_gone source.now calls.now i it.now }
{
    if call_index(calls, i).is_some() {
        return true;
    }
    if is_code(it) && !is_named(&source.plan.object, it, b".text") {
        return true;
    }
    if relocates(source, it) && call_index(calls, it.info as usize).is_some() {
        return true;
    }
    relocates_ext(&source.plan.object, it)
}

/// Whether a section has relocations of code that is called.
fn refers(calls: &[Call], it: &SectionHeader) -> bool
    ensures { result ≡ refers calls.now it.now }
{
    (it.kind == 9 || it.kind == 4) && call_index(calls, it.info as usize).is_some()
}

/// The header of a section that stays.
fn kept_header(calls: &[Call], it: SectionHeader) -> SectionHeader
    ensures { result ≡ kept_header calls.now it }
{
    if !refers(calls, &it) {
        return it;
    }
    SectionHeader {
        info: u32::from(into(calls)),
        ..it
    }
}

/// The header of a section.
fn turned_header(source: &Source<'_>, calls: &[Call], at: &Lies, i: usize) -> SectionHeader
    requires inside { i < length source.now.plan.object.sections }
    requires laid { AreLaid at.now }
    ensures { result ≡ turned_header source.now calls.now at.now i }
{
    let it = source.plan.object.section(i);
    if i == usize::from(into(calls)) {
        return lies_at(&it, at.code, at.symbols);
    }
    if i == source.table {
        return lies_at(&it, at.symbols, at.relocations);
    }
    if is_ext(&source.plan.object, &it) {
        return lies_at(&it, at.ext, at.end);
    }
    if is_gone(source, calls, i, &it) {
        return NO_SECTION;
    }
    kept_header(calls, it)
}

/// Bytes, and behind them the headers of the object's sections.
fn with_own_headers(
    source: &Source<'_>,
    calls: &[Call],
    at: &Lies,
    bytes: Vec<u8>,
) -> Result<Vec<u8>, LinkFault>
    requires laid { AreLaid at.now }
    ensures ok { IfOk result (λ new. new.items ≡ bytes.items
        ++ gathered (λ i. header_bytes (turned_header source.now calls.now at.now i))
        (length source.now.plan.object.sections)) }
    ensures err { IfErr result (λ fault. fault ≡ Memory) }
{
    let mut all = bytes;
    for i in 0..source.plan.object.len() {
        match with_header(all, &turned_header(source, calls, at, i)) {
            Ok(new) => all = new,
            Err(fault) => return Err(fault),
        }
    }
    Ok(all)
}

/// The header of the relocations.
fn last_header(source: &Source<'_>, calls: &[Call], at: &Lies) -> SectionHeader
    requires room { HasRoom source.now }
    requires laid { AreLaid at.now }
    ensures { result ≡ last_header source.now calls.now at.now }
{
    SectionHeader {
        name: 0,
        kind: 9,
        flags: 0,
        offset: at.relocations as u64,
        size: (at.ext - at.relocations) as u64,
        link: source.table as u32,
        info: u32::from(into(calls)),
    }
}

/// Bytes, and behind them the table of sections.
pub fn with_headers(
    source: &Source<'_>,
    calls: &[Call],
    at: &Lies,
    bytes: Vec<u8>,
) -> Result<Vec<u8>, LinkFault>
    requires room { HasRoom source.now }
    requires laid { AreLaid at.now }
    ensures ok { IfOk result (λ new. new.items ≡ bytes.items ++ turned_headers source.now calls.now at.now) }
    ensures err { IfErr result (λ fault. fault ≡ Memory) }
{
    match with_own_headers(source, calls, at, bytes) {
        Ok(own) => with_header(own, &last_header(source, calls, at)),
        Err(fault) => Err(fault),
    }
}
