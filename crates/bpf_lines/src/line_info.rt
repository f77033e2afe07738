//! The lines that a section `.BTF.ext` lists.
ghost use Rattle.std.specs.Prelude.{◌≡◌, ◌≤◌, ◌<◌, ◌+◌, IfOk, IfErr, IfSome, IfNone, Ok, Err, Some, length, min};
ghost use Rattle.bpf_btf.specs.CoreRelocations.{AreBroken};
ghost use Rattle.bpf_btf.specs.declared.fault.BtfFault.TheVariants.{Ext};
ghost use Rattle.bpf_link.specs.declared.fault.LinkFault.TheVariants.{Memory};
ghost use Rattle.bpf_lines.specs.LineInfo.{IsBlock, begins, line_at, line_entry, lines_in, record_place, strings_of};
ghost use Rattle.bpf_lines.specs.Marks.{AreMarks};

use crate::marks::{no_marks, with_mark};
use bpf_btf::{BtfFault, block_end, byte_at, has_entries, is_called, u16_at, u32_at};
use bpf_link::LinkFault;
use std::alloc::Global;

/// A line, as it is listed for an instruction.
#[derive(Clone, Copy)]
pub struct LineEntry {
    /// Where the instruction stands in its section, in bytes.
    pub offset: u32,
    /// Where the name of the file stands among the strings.
    pub file: u32,
    /// The number of the line, from 1.
    pub line: u32,
}

/// Whether a section begins as `.BTF.ext` does.
fn begins(ext: &[u8]) -> bool
    ensures { result ≡ begins ext.now }
{
    if ext.len() < 24 {
        return false;
    }
    u16_at(ext, 0) == 0xeb9f && (byte_at(ext, 2) == 1 && u32_at(ext, 4) >= 24)
}

/// The part of a section `.BTF.ext` that lists lines.
pub fn lines_in(ext: &[u8]) -> Result<&[u8], BtfFault>
    ensures ok { IfOk result (λ part. lines_in ext.now ≡ Ok part.now) }
    ensures err { IfErr result (λ fault. lines_in ext.now ≡ Err fault) }
{
    if !begins(ext) {
        return Err(BtfFault::Ext);
    }
    let at = u32_at(ext, 4) as usize + u32_at(ext, 16) as usize;
    let end = at + u32_at(ext, 20) as usize;
    if end > ext.len() {
        return Err(BtfFault::Ext);
    }
    Ok(&ext[at..end])
}

/// The strings of a section `.BTF`.
pub fn strings_of(btf: &[u8]) -> &[u8]
    ensures { result.now ≡ strings_of btf.now }
{
    let at = u32_at(btf, 4) as usize + u32_at(btf, 16) as usize;
    let end = at + u32_at(btf, 20) as usize;
    if end > btf.len() {
        return &[];
    }
    &btf[at..end]
}

/// The block of a section of code in a list.
pub fn block_of(strings: &[u8], listed: &[u8], name: &[u8]) -> Result<Option<usize>, BtfFault>
    ensures ok { IfOk result (IsBlock strings.now listed.now name.now) }
    ensures inside { IfOk result (λ found. IfSome found (λ at. at < length listed.now)) }
    ensures err { IfErr result (λ fault. (fault ≡ Ext) × AreBroken listed.now) }
{
    let mut found = None;
    if !has_entries(listed) {
        return Err(BtfFault::Ext);
    }
    let mut at = listed.len().min(4);
    while at < listed.len() {
        let end = match block_end(listed, at) {
            Some(end) => end,
            None => return Err(BtfFault::Ext),
        };
        if is_called(strings, u32_at(listed, at), name) {
            found = Some(at);
        }
        at = end;
    }
    Ok(found)
}

/// Where the record of a number stands in a block.
pub fn record_place(listed: &[u8], block: usize, i: usize) -> usize
    requires { block < 9223372036854775808 }
    ensures value { result ≡ record_place listed.now block i }
    ensures small { result < 18446744073709000000 }
{
    let size = u64::from(u32_at(listed, 0));
    block + 8 + size.saturating_mul(i as u64).min(4_294_967_295) as usize
}

/// The record at a place.
pub fn line_entry(listed: &[u8], at: usize) -> LineEntry
    requires { at < 18446744073709000000 }
    ensures { result ≡ line_entry listed.now at }
{
    LineEntry {
        offset: u32_at(listed, at),
        file: u32_at(listed, at + 4),
        line: u32_at(listed, at + 12) / 1024,
    }
}

/// The lines that a block lists for so many slots.
fn block_lines(
    alloc: Global,
    listed: &[u8],
    block: usize,
    count: usize,
) -> Result<Vec<usize>, LinkFault>
    requires { block < length listed.now }
    ensures ok { IfOk result (λ marks. AreMarks (line_at listed.now (Some block)) marks.items) }
    ensures size { IfOk result (λ marks. length marks.items ≡ count) }
    ensures err { IfErr result (λ fault. fault ≡ Memory) }
{
    let mut marks = match no_marks(alloc, count) {
        Ok(marks) => marks,
        Err(fault) => return Err(fault),
    };
    for i in 0..u32_at(listed, block + 4) as usize {
        let entry = line_entry(listed, record_place(listed, block, i));
        marks = with_mark(marks, u64::from(entry.offset), i);
    }
    Ok(marks)
}

/// The lines that are listed for so many slots of a section of code, in its block, if it has one.
pub fn lines_of(
    alloc: Global,
    listed: &[u8],
    block: Option<usize>,
    count: usize,
) -> Result<Vec<usize>, LinkFault>
    requires { IfSome block (λ at. at < length listed.now) }
    ensures ok { IfOk result (λ marks. AreMarks (line_at listed.now block) marks.items) }
    ensures size { IfOk result (λ marks. length marks.items ≡ count) }
    ensures err { IfErr result (λ fault. fault ≡ Memory) }
{
    match block {
        None => no_marks(alloc, count),
        Some(at) => block_lines(alloc, listed, at, count),
    }
}
