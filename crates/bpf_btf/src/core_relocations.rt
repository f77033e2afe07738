//! The relocations of fields that a section `.BTF.ext` lists.
ghost use Rattle.std.specs.Prelude.{◌≡◌, ◌≤◌, ◌<◌, ◌+◌, ◌⊎◌, IfOk, IfErr, IfSome, IfNone, ℕ, Ok, Err, length, true, false};
ghost use Rattle.bpf_isa.specs.Words.{u32_at};
ghost use Rattle.bpf_btf.specs.Layout.{ext_header};
ghost use Rattle.bpf_btf.specs.CoreRelocations.{begins, listed_by, has_entries, block_end, block_place, AreBlocks, with_entries, with_block, relocations_below, AreRelocations, AreBroken, IsExtFault};
ghost use Rattle.bpf_btf.specs.declared.fault.BtfFault.TheVariants.{Ext};

use crate::fault::BtfFault;
use crate::fields::{is_called, u32_at};
use crate::layout::{ExtHeader, ext_header};

/// How many relocations of fields (CO-RE) a section of code has.
#[derive(Clone, Copy)]
pub struct CoreRelocations {
    /// How many there are; 2^32 - 1 stands for more, too.
    pub count: u32,
    /// Where the instruction of the first one stands in the section, in bytes; 0 where there is
    /// none.
    pub first: u32,
}

/// Whether a section begins as `.BTF.ext` does.
fn begins(bytes: &[u8], header: &ExtHeader) -> bool
    ensures { result ≡ begins bytes.now header.now }
{
    if bytes.len() < 24 {
        return false;
    }
    header.magic == 0xeb9f && (header.version == 1 && header.size >= 24)
}

/// The part of a section that lists relocations of fields.
fn listed_by<'a>(bytes: &'a [u8], header: &ExtHeader) -> Result<&'a [u8], BtfFault>
    ensures ok { IfOk result (λ part. listed_by bytes.now header.now ≡ Ok part.now) }
    ensures err { IfErr result (λ fault. listed_by bytes.now header.now ≡ Err fault) }
    ensures told { IfErr result (λ fault. fault ≡ Ext) }
{
    if !begins(bytes, header) {
        return Err(BtfFault::Ext);
    }
    if header.size < 32 {
        return Ok(&[]);
    }
    let at = header.size as usize + header.cores_at as usize;
    let end = at + header.cores_size as usize;
    if end > bytes.len() {
        return Err(BtfFault::Ext);
    }
    Ok(&bytes[at..end])
}

/// Whether the entries of a list are long enough.
pub fn has_entries(listed: &[u8]) -> bool
    ensures { result ≡ has_entries listed.now }
{
    listed.is_empty() || u32_at(listed, 0) >= 16
}

/// Where the block at a place ends, None where that isn't in the list.
pub fn block_end(listed: &[u8], at: usize) -> Option<usize>
    requires { at < length listed.now }
    ensures found { IfSome result (λ end. (end ≡ block_end listed.now at) × (end ≤ length listed.now)) }
    ensures none { IfNone result (length listed.now < block_end listed.now at) }
{
    let rest = (listed.len() - at) as u64;
    let entries = u64::from(u32_at(listed, at + 4)).saturating_mul(u64::from(u32_at(listed, 0)));
    if rest < 8 || entries > rest - 8 {
        return None;
    }
    Some(at + (8 + entries as usize))
}

/// A sum with the entries of one more block.
fn with_entries(sum: CoreRelocations, count: u32, first: u32) -> CoreRelocations
    ensures { result ≡ with_entries sum count first }
{
    CoreRelocations {
        count: sum.count.saturating_add(count),
        first: if sum.count == 0 { first } else { sum.first },
    }
}

/// A sum with one more block, if it is of a section of code.
fn with_block(
    strings: &[u8],
    listed: &[u8],
    name: &[u8],
    at: usize,
    sum: CoreRelocations,
) -> CoreRelocations
    requires { at < length listed.now }
    ensures { result ≡ with_block strings.now listed.now name.now at sum }
{
    if is_called(strings, u32_at(listed, at), name) {
        with_entries(sum, u32_at(listed, at + 4), u32_at(listed, at + 8))
    } else {
        sum
    }
}

/// The relocations of a section of code among those of a list.
fn counted(strings: &[u8], listed: &[u8], name: &[u8]) -> Result<CoreRelocations, BtfFault>
    ensures ok { IfOk result (λ sum. (n : ℕ) × AreBlocks listed.now n
        × (sum ≡ relocations_below strings.now listed.now name.now n)) }
    ensures err { IfErr result (λ fault. (fault ≡ Ext) × AreBroken listed.now) }
{
    let mut sum = CoreRelocations { count: 0, first: 0 };
    if !has_entries(listed) {
        return Err(BtfFault::Ext);
    }
    let mut at = listed.len().min(4);
    while at < listed.len() {
        let end = match block_end(listed, at) {
            Some(end) => end,
            None => return Err(BtfFault::Ext),
        };
        sum = with_block(strings, listed, name, at, sum);
        at = end;
    }
    Ok(sum)
}

/// The relocations of the section of code of a name.
pub fn relocations_of(
    strings: &[u8],
    bytes: &[u8],
    name: &[u8],
) -> Result<CoreRelocations, BtfFault>
    ensures ok { IfOk result (AreRelocations strings.now bytes.now name.now) }
    ensures err { IfErr result (IsExtFault bytes.now) }
{
    let header = ext_header(bytes);
    match listed_by(bytes, &header) {
        Ok(listed) => counted(strings, listed, name),
        Err(fault) => Err(fault),
    }
}
