//! The lists of `.BTF.ext`, moved with the instructions whose places they tell.
ghost use Rattle.std.specs.Prelude.{◌≡◌, ◌≤◌, ◌<◌, ◌+◌, ◌*◌, ◌/◌, ◌++◌, ℕ, IfErr, IfNone, IfOk, IfSome, length, slice_range, true};
ghost use Rattle.bpf_btf.specs.CoreRelocations.{block_end};
ghost use Rattle.bpf_btf.specs.Layout.{is_called};
ghost use Rattle.bpf_isa.specs.Words.{u32_at};
ghost use Rattle.bpf_join.specs.Gathered.{gathered};
ghost use Rattle.bpf_link.specs.declared.fault.LinkFault.TheVariants.{Memory};
ghost use Rattle.bpf_turns.specs.Blocks.{AreBlocks, IsListFault, IsMovedList, block_call, code_name, is_sized, moved_record, moved_records, one_block, records_at, records_of, rest_at, rest_of};
ghost use Rattle.bpf_turns.specs.Parts.{IsBlockOf};

use crate::calls::Call;
use crate::names::{code_name, is_called};
use crate::parts::with_number;
use crate::relocations::turned_place;
use bpf_btf::BtfFault;
use bpf_link::{LinkFault, Object, u32_at, with};
use std::alloc::Global;

/// What comes of the blocks of a list.
#[derive(Drop)]
struct Moved {
    /// The records of those that are of calls.
    records: Vec<u8>,
    /// Those that are of none.
    rest: Vec<u8>,
}

/// Bytes, and behind them a record.
#[tactic(auto, using(std::proofs::lemmas::List::append_assoc))]
fn with_record(
    object: &Object<'_>,
    call: &Call,
    raw: &[u8],
    bytes: Vec<u8>,
) -> Result<Vec<u8>, LinkFault>
    requires { 4 ≤ length raw.now }
    ensures ok { IfOk result (λ new. new.items ≡ bytes.items ++ moved_record object.now call.now raw.now) }
    ensures err { IfErr result (λ fault. fault ≡ Memory) }
{
    let place = turned_place(object, call, u64::from(u32_at(raw, 0)));
    match with_number(bytes, place) {
        Ok(placed) => with(placed, &raw[4..]),
        Err(fault) => Err(fault),
    }
}

/// The record of a number, of records of a size.
fn record_at(records: &[u8], size: usize, j: usize) -> &[u8]
    requires { j < length records.now / size }
    ensures value { result.now ≡ slice_range records.now (size * j) (size * j + size) }
    ensures size { length result.now ≡ size }
{
    &records[size * j..size * j + size]
}

/// Bytes, and behind them records of a size.
fn with_records(
    object: &Object<'_>,
    call: &Call,
    size: usize,
    records: &[u8],
    bytes: Vec<u8>,
) -> Result<Vec<u8>, LinkFault>
    requires { 4 ≤ size }
    ensures ok { IfOk result (λ new. new.items
        ≡ bytes.items ++ moved_records object.now call.now size records.now) }
    ensures err { IfErr result (λ fault. fault ≡ Memory) }
{
    let mut all = bytes;
    for j in 0..records.len() / size {
        match with_record(object, call, record_at(records, size, j), all) {
            Ok(new) => all = new,
            Err(fault) => return Err(fault),
        }
    }
    Ok(all)
}

/// Whether a name among the strings is that of the section of a call.
fn is_of(object: &Object<'_>, strings: &[u8], name: usize, call: &Call) -> bool
    ensures { result ≡ is_called strings.now name (code_name object.now call.now.section) }
{
    is_called(strings, name, code_name(object, usize::from(call.section)))
}

/// Which of the calls, the first one, has the name of a block.
fn block_call(object: &Object<'_>, strings: &[u8], calls: &[Call], block: &[u8]) -> Option<usize>
    requires { 4 ≤ length block.now }
    ensures value { result ≡ block_call object.now strings.now calls.now block.now }
    ensures below { IfSome result (λ k. k < length calls.now) }
{
    let name = u32_at(block, 0) as usize;
    calls
        .iter()
        .position(|call| is_of(object, strings, name, call))
}

/// Bytes, and behind them the records of a block that is of a call.
fn with_called(
    object: &Object<'_>,
    calls: &[Call],
    size: usize,
    block: &[u8],
    call: Option<usize>,
    bytes: Vec<u8>,
) -> Result<Vec<u8>, LinkFault>
    requires size { 4 ≤ size }
    requires block { IsBlockOf calls.now block.now call }
    ensures ok { IfOk result (λ new. new.items
        ≡ bytes.items ++ records_of object.now calls.now size block.now call) }
    ensures err { IfErr result (λ fault. fault ≡ Memory) }
{
    match call {
        None => with(bytes, &[]),
        Some(k) => with_records(object, &calls[k], size, &block[8..], bytes),
    }
}

/// Bytes, and behind them a block that is of no call.
fn with_rest(block: &[u8], call: Option<usize>, bytes: Vec<u8>) -> Result<Vec<u8>, LinkFault>
    ensures ok { IfOk result (λ new. new.items ≡ bytes.items ++ rest_of block.now call) }
    ensures err { IfErr result (λ fault. fault ≡ Memory) }
{
    match call {
        None => with(bytes, block),
        Some(_) => with(bytes, &[]),
    }
}

/// Whether a list begins with the size of a record.
fn is_sized(listed: &[u8]) -> bool
    ensures { result ≡ is_sized listed.now }
{
    if listed.len() < 4 {
        return false;
    }
    u32_at(listed, 0) >= 8
}

/// That size.
fn size_of(listed: &[u8]) -> usize
    requires { 4 ≤ length listed.now }
    ensures { result ≡ u32_at listed.now 0 }
{
    u32_at(listed, 0) as usize
}

/// Where the block at a place ends, None where that isn't in the list.
fn block_end(listed: &[u8], at: usize) -> Option<usize>
    requires sized { 4 ≤ length listed.now }
    requires inside { at < length listed.now }
    ensures found { IfSome result (λ end. (end ≡ block_end listed.now at) × (at + 8 ≤ end)
        × (end ≤ length listed.now)) }
    ensures none { IfNone result (length listed.now < block_end listed.now at) }
{
    let rest = listed.len() - at;
    if rest < 8 {
        return None;
    }
    let count = u64::from(u32_at(listed, at + 4));
    let records = count.saturating_mul(u64::from(u32_at(listed, 0)));
    if records > (rest - 8) as u64 {
        return None;
    }
    Some(at + (8 + records as usize))
}

/// What comes of the blocks of a list.
fn moved_blocks(
    alloc: Global,
    object: &Object<'_>,
    strings: &[u8],
    calls: &[Call],
    listed: &[u8],
) -> Result<Moved, LinkFault>
    ensures ok { IfOk result (λ moved. (n : ℕ) × AreBlocks listed.now n
        × (moved.records.items ≡ gathered (records_at object.now strings.now calls.now listed.now) n)
        × (moved.rest.items ≡ gathered (rest_at object.now strings.now calls.now listed.now) n)) }
    ensures err { IfErr result (IsListFault listed.now) }
{
    if !is_sized(listed) {
        return Err(LinkFault::Types(BtfFault::Ext));
    }
    let size = size_of(listed);
    let mut records = Vec::new(alloc);
    let mut rest = Vec::new(alloc);
    let mut at = listed.len().min(4);
    while at < listed.len() {
        let end = match block_end(listed, at) {
            Some(end) => end,
            None => return Err(LinkFault::Types(BtfFault::Ext)),
        };
        let block = &listed[at..end];
        let call = block_call(object, strings, calls, block);
        match with_called(object, calls, size, block, call, records) {
            Ok(new) => records = new,
            Err(fault) => return Err(fault),
        }
        match with_rest(block, call, rest) {
            Ok(new) => rest = new,
            Err(fault) => return Err(fault),
        }
        at = end;
    }
    Ok(Moved { records, rest })
}

/// Bytes, and behind them a block of some records, if there are any.
#[tactic(auto, using(std::proofs::lemmas::List::append_assoc))]
fn with_one(bytes: Vec<u8>, name: usize, size: usize, records: &[u8]) -> Result<Vec<u8>, LinkFault>
    requires { 4 ≤ size }
    ensures ok { IfOk result (λ new. new.items ≡ bytes.items ++ one_block name size records.now) }
    ensures err { IfErr result (λ fault. fault ≡ Memory) }
{
    if records.is_empty() {
        return with(bytes, &[]);
    }
    let named = match with_number(bytes, name as u64) {
        Ok(named) => named,
        Err(fault) => return Err(fault),
    };
    match with_number(named, (records.len() / size) as u64) {
        Ok(counted) => with(counted, records),
        Err(fault) => Err(fault),
    }
}

/// A list whose blocks were looked at, moved.
#[tactic(auto, using(std::proofs::lemmas::List::append_assoc))]
fn put_list(alloc: Global, name: usize, listed: &[u8], moved: &Moved) -> Result<Vec<u8>, LinkFault>
    requires { is_sized listed.now ≡ true }
    ensures ok { IfOk result (λ list. list.items ≡ slice_range listed.now 0 4
        ++ (one_block name (u32_at listed.now 0) moved.now.records.items ++ moved.now.rest.items)) }
    ensures err { IfErr result (λ fault. fault ≡ Memory) }
{
    let sized = match with(Vec::new(alloc), &listed[0..4]) {
        Ok(sized) => sized,
        Err(fault) => return Err(fault),
    };
    let size = size_of(listed);
    match with_one(sized, name, size, moved.records.as_slice()) {
        Ok(one) => with(one, moved.rest.as_slice()),
        Err(fault) => Err(fault),
    }
}

/// A list of `.BTF.ext`, moved. The name of its block stands at a place among the strings of `.BTF`.
pub fn moved_list(
    alloc: Global,
    object: &Object<'_>,
    strings: &[u8],
    calls: &[Call],
    name: usize,
    listed: &[u8],
) -> Result<Vec<u8>, LinkFault>
    ensures ok { IfOk result (λ moved.
        IsMovedList object.now strings.now calls.now name listed.now moved.items) }
    ensures err { IfErr result (IsListFault listed.now) }
{
    if listed.is_empty() {
        return Ok(Vec::new(alloc));
    }
    let moved = match moved_blocks(alloc, object, strings, calls, listed) {
        Ok(moved) => moved,
        Err(fault) => return Err(fault),
    };
    match put_list(alloc, name, listed, &moved) {
        Ok(list) => Ok(list),
        Err(fault) => Err(fault),
    }
}
