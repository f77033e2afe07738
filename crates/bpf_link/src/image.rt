//! What the data of a program are at its start.
ghost use Rattle.std.specs.Prelude.{◌≡◌, ◌≤◌, ◌<◌, ◌+◌, ◌⊎◌, length, IfOk, IfErr, Ok, Err};
ghost use Rattle.bpf_link.specs.Images.{filled, whole_size, bytes_of, address_of, pointed_place, with_address, with_relocated, with_pointer, with_pointers, image_of};
ghost use Rattle.bpf_link.specs.Links.{MemoryOr};
ghost use Rattle.bpf_link.specs.declared.fault.LinkFault.TheVariants.{Memory};

use crate::data_sections::{data_number, is_among, pointers_of};
use crate::fault::LinkFault;
use crate::fields::{lies, u64_at};
use crate::layout::{RelocationEntry, SectionHeader, SymbolEntry};
use crate::object::Object;
use crate::placed::Placed;
use crate::plan::{Plan, symbol_place};
use crate::tables::Relocations;
use crate::written::with_u64;
use bpf_isa::MOST_MAP_BYTES;
use std::alloc::Global;

/// Bytes, and zeros after them up to a whole number of eight.
pub fn filled(alloc: Global, size: usize, bytes: &[u8]) -> Result<Vec<u8>, LinkFault>
    ensures ok { IfOk result (λ image. image.items ≡ filled size bytes.now) }
    ensures err { IfErr result (λ fault. fault ≡ Memory) }
{
    let mut image = match Vec::from_slice(alloc, bytes) {
        Ok(image) => image,
        Err(_) => return Err(LinkFault::Memory),
    };
    match image.resize(size, 0) {
        Ok(()) => Ok(image),
        Err(_) => Err(LinkFault::Memory),
    }
}

/// The bytes of a section of data.
fn bytes_of(
    alloc: Global,
    object: &Object<'_>,
    section: &SectionHeader,
) -> Result<Vec<u8>, LinkFault>
    ensures ok { IfOk result (λ image. bytes_of object.now section.now ≡ Ok image.items) }
    ensures err { IfErr result (MemoryOr (bytes_of object.now section.now)) }
{
    if section.size > u64::from(MOST_MAP_BYTES) {
        return Err(LinkFault::LongData);
    }
    let size = (section.size as usize + 7) / 8 * 8;
    if section.kind == 8 {
        return filled(alloc, size, &[]);
    }
    let bytes = object.bytes();
    if !lies(bytes, section.offset, section.size) {
        return Err(LinkFault::DataSection);
    }
    let at = section.offset as usize;
    filled(alloc, size, &bytes[at..at + section.size as usize])
}

/// The address of a symbol of data, and a number more.
#[tactic(auto, using(crate::proofs::Images::two_wraps))]
fn address_of(placed: &Placed<'_, '_>, symbol: &SymbolEntry, more: u64) -> u64
    ensures { result ≡ address_of placed.now symbol.now more }
{
    let map = data_number(placed, usize::from(symbol.section)) as u64;
    (0x3_0000_0000 + map * 0x10_0000)
        .wrapping_add(symbol.value)
        .wrapping_add(more)
}

/// Data with an address: that of a symbol, and what stood there; or a fault.
fn with_address(
    placed: &Placed<'_, '_>,
    relocation: &RelocationEntry,
    symbol: &SymbolEntry,
    fault: LinkFault,
    image: Vec<u8>,
) -> Result<Vec<u8>, LinkFault>
    requires { relocation.now.offset + 8 ≤ length image.items }
    ensures ok { IfOk result (λ new. with_address placed.now relocation.now symbol.now fault
        image.items ≡ Ok new.items) }
    ensures err { IfErr result (λ told. with_address placed.now relocation.now symbol.now
        fault image.items ≡ Err told) }
{
    if !is_among(placed.taken(), usize::from(symbol.section)) {
        return Err(fault);
    }
    let at = relocation.offset as usize;
    let address = address_of(placed, symbol, u64_at(&image, at));
    Ok(with_u64(image, at, address))
}

/// Data with a relocation done.
fn with_pointer(
    placed: &Placed<'_, '_>,
    relocations: &Relocations<'_>,
    i: usize,
    image: Vec<u8>,
) -> Result<Vec<u8>, LinkFault>
    requires { i < length relocations.now }
    ensures ok { IfOk result (λ new. with_pointer placed.now
        relocations.now i image.items ≡ Ok new.items) }
    ensures err { IfErr result (λ fault. with_pointer placed.now
        relocations.now i image.items ≡ Err fault) }
{
    let relocation = relocations.at(i);
    with_relocated(placed, &relocation, image)
}

/// Where the name of a relocation's symbol stands in the file, or the file's end.
fn pointed_place(plan: &Plan<'_>, relocation: &RelocationEntry) -> usize
    ensures { result ≡ pointed_place plan.now relocation.now }
{
    let index = relocation.symbol as usize;
    if index >= plan.symbols.len() {
        return plan.object.bytes().len();
    }
    symbol_place(plan, &plan.symbols.at(index))
}

/// Data with a relocation done, if it is one of an address of data.
fn with_relocated(
    placed: &Placed<'_, '_>,
    relocation: &RelocationEntry,
    image: Vec<u8>,
) -> Result<Vec<u8>, LinkFault>
    ensures ok { IfOk result (λ new. with_relocated placed.now
        relocation.now image.items ≡ Ok new.items) }
    ensures err { IfErr result (λ fault. with_relocated placed.now
        relocation.now image.items ≡ Err fault) }
{
    let plan = placed.plan();
    let fault = LinkFault::Pointer {
        at: pointed_place(plan, relocation),
    };
    if relocation.kind != 2 {
        return Err(fault);
    }
    if !lies(&image, relocation.offset, 8) {
        return Err(fault);
    }
    let index = relocation.symbol as usize;
    if index >= plan.symbols.len() {
        return Err(fault);
    }
    let symbol = plan.symbols.at(index);
    with_address(placed, relocation, &symbol, fault, image)
}

/// Data with their relocations done.
fn with_pointers(
    placed: &Placed<'_, '_>,
    relocations: &Relocations<'_>,
    image: Vec<u8>,
) -> Result<Vec<u8>, LinkFault>
    ensures ok { IfOk result (λ new. with_pointers placed.now
        relocations.now image.items ≡ Ok new.items) }
    ensures err { IfErr result (λ fault. with_pointers placed.now
        relocations.now image.items ≡ Err fault) }
{
    let mut all = image;
    for i in 0..relocations.len() {
        match with_pointer(placed, relocations, i, all) {
            Ok(new) => all = new,
            Err(fault) => return Err(fault),
        }
    }
    Ok(all)
}

/// The bytes of a section's map at the start.
pub fn image_of(
    alloc: Global,
    placed: &Placed<'_, '_>,
    section: usize,
) -> Result<Vec<u8>, LinkFault>
    requires { section < length placed.now.plan.object.sections }
    ensures ok { IfOk result (λ image.
        image_of placed.now section ≡ Ok image.items) }
    ensures err { IfErr result (MemoryOr
        (image_of placed.now section)) }
{
    let plan = placed.plan();
    let image = match bytes_of(alloc, &plan.object, &plan.object.section(section)) {
        Ok(image) => image,
        Err(fault) => return Err(fault),
    };
    match pointers_of(plan, section) {
        Ok(relocations) => with_pointers(placed, &relocations, image),
        Err(fault) => Err(fault),
    }
}
