//! The setup: what a program with data runs before its entry.
ghost use Rattle.std.specs.Prelude.{◌≡◌, ◌≤◌, ◌<◌, ◌+◌, ◌/◌, ◌++◌, length, IfOk, IfErr, Ok, Err};
ghost use Rattle.bpf_link.specs.Links.{MemoryOr};
ghost use Rattle.bpf_link.specs.Setup.{with_place, store_words, with_store, with_stores, is_zero, with_image, with_section_image, stores_of, jump_words, with_entry, with_setup};
ghost use Rattle.bpf_link.specs.declared.fault.LinkFault.TheVariants.{Memory};
ghost use Rattle.bpf_isa.specs.Checker.{most_slots};

use crate::fault::LinkFault;
use crate::fields::u64_at;
use crate::image::image_of;
use crate::placed::Placed;
use crate::written::with;
use byteorder::{ByteOrder, LittleEndian};
use std::alloc::Global;

/// A setup with `ldmapval r3`, where a place needs it.
fn with_place(map: u8, at: usize, setup: Vec<u8>) -> Result<Vec<u8>, LinkFault>
    ensures ok { IfOk result (λ new. new.items ≡ with_place map at setup.items) }
    ensures err { IfErr result (λ fault. fault ≡ Memory) }
{
    if at % 32768 != 0 {
        return Ok(setup);
    }
    let high = (at / 256 % 256) as u8;
    with(
        setup,
        &[0x18, 0x63, 0, 0, map, 0, 0, 0, 0, 0, 0, 0, 0, high, 0, 0],
    )
}

/// A setup with the store of the eight bytes at a place, at an offset from r3.
fn with_words(image: &[u8], at: usize, offset: usize, setup: Vec<u8>) -> Result<Vec<u8>, LinkFault>
    requires { at + 8 ≤ length image.now }
    ensures ok { IfOk result (λ new. new.items ≡ setup.items ++ store_words image.now at offset) }
    ensures err { IfErr result (λ fault. fault ≡ Memory) }
{
    let low = (offset % 256) as u8;
    let high = (offset / 256 % 256) as u8;
    let a = image[at];
    let b = image[at + 1];
    let c = image[at + 2];
    let d = image[at + 3];
    let e = image[at + 4];
    let f = image[at + 5];
    let g = image[at + 6];
    let h = image[at + 7];
    with(
        setup,
        &[
            0x18, 0x04, 0, 0, a, b, c, d, 0, 0, 0, 0, e, f, g, h, 0x7b, 0x43, low, high, 0, 0, 0, 0,
        ],
    )
}

/// A setup with the store of the eight bytes at a place, unless they are zero.
fn with_store(image: &[u8], at: usize, setup: Vec<u8>) -> Result<Vec<u8>, LinkFault>
    requires { at + 8 ≤ length image.now }
    ensures ok { IfOk result (λ new. new.items ≡ with_store image.now at setup.items) }
    ensures err { IfErr result (λ fault. fault ≡ Memory) }
{
    if u64_at(image, at) == 0 {
        return Ok(setup);
    }
    with_words(image, at, at % 32768, setup)
}

/// A setup with what one piece of eight bytes takes.
fn with_piece(map: u8, image: &[u8], at: usize, setup: Vec<u8>) -> Result<Vec<u8>, LinkFault>
    requires { at + 8 ≤ length image.now }
    ensures ok { IfOk result (λ new. new.items
        ≡ with_store image.now at (with_place map at setup.items)) }
    ensures err { IfErr result (λ fault. fault ≡ Memory) }
{
    match with_place(map, at, setup) {
        Ok(placed) => with_store(image, at, placed),
        Err(fault) => Err(fault),
    }
}

/// A setup with the stores of a map's bytes.
fn with_stores(map: u8, image: &[u8], setup: Vec<u8>) -> Result<Vec<u8>, LinkFault>
    ensures ok { IfOk result (λ new. new.items
        ≡ with_stores map image.now setup.items (length image.now / 8)) }
    ensures err { IfErr result (λ fault. fault ≡ Memory) }
{
    let mut all = setup;
    for i in 0..image.len() / 8 {
        match with_piece(map, image, 8 * i, all) {
            Ok(new) => all = new,
            Err(fault) => return Err(fault),
        }
    }
    Ok(all)
}

/// Whether all bytes are zero: the first is, and each is as the one before it, which compares them
/// many at a time.
fn is_zero(image: &[u8]) -> bool
    ensures { result ≡ is_zero image.now }
{
    match image {
        [] => true,
        [first, rest @ ..] => *first == 0 && rest == &image[..rest.len()],
    }
}

/// A setup with the stores of a map, where a byte of it isn't zero.
fn with_image(map: u8, image: &[u8], setup: Vec<u8>) -> Result<Vec<u8>, LinkFault>
    ensures ok { IfOk result (λ new. new.items ≡ with_image map image.now setup.items) }
    ensures err { IfErr result (λ fault. fault ≡ Memory) }
{
    if is_zero(image) {
        return Ok(setup);
    }
    with_stores(map, image, setup)
}

/// A setup with the stores of the k-th map that is data.
fn with_section_image(
    alloc: Global,
    placed: &Placed<'_, '_>,
    k: usize,
    setup: Vec<u8>,
) -> Result<Vec<u8>, LinkFault>
    requires { k < length placed.now.taken }
    ensures ok { IfOk result (λ new. with_section_image placed.now k
        setup.items ≡ Ok new.items) }
    ensures err { IfErr result (MemoryOr
        (with_section_image placed.now k setup.items)) }
{
    let image = match image_of(alloc, placed, placed.taken()[k]) {
        Ok(image) => image,
        Err(fault) => return Err(fault),
    };
    with_image((placed.maps().len() + k) as u8, &image, setup)
}

/// The stores of all maps that are data.
pub fn stores_of(alloc: Global, placed: &Placed<'_, '_>) -> Result<Vec<u8>, LinkFault>
    ensures ok { IfOk result (λ stores.
        stores_of placed.now ≡ Ok stores.items) }
    ensures err { IfErr result (MemoryOr (stores_of placed.now)) }
{
    let mut setup = Vec::new(alloc);
    for k in 0..placed.taken().len() {
        match with_section_image(alloc, placed, k, setup) {
            Ok(new) => setup = new,
            Err(fault) => return Err(fault),
        }
    }
    Ok(setup)
}

/// Words with `ja32`.
fn with_jump(words: Vec<u8>, distance: u32) -> Result<Vec<u8>, LinkFault>
    ensures ok { IfOk result (λ new. new.items ≡ words.items ++ jump_words distance) }
    ensures err { IfErr result (λ fault. fault ≡ Memory) }
{
    let mut jump = [6, 0, 0, 0, 0, 0, 0, 0];
    LittleEndian::write_u32(&mut jump[4..8], distance);
    with(words, &jump)
}

/// A program without a setup, which begins at its entry.
fn with_entry(alloc: Global, code: Vec<u8>, entry: usize) -> Result<Vec<u8>, LinkFault>
    requires { entry < most_slots }
    ensures ok { IfOk result (λ words. words.items ≡ with_entry code.items entry) }
    ensures err { IfErr result (λ fault. fault ≡ Memory) }
{
    if entry == 0 {
        return Ok(code);
    }
    let jump = with_jump(Vec::new(alloc), entry as u32)?;
    with(jump, &code)
}

/// A program with the setup, if there is something to store, and from there on its entry.
pub fn with_setup(
    alloc: Global,
    code: Vec<u8>,
    stores: &[u8],
    entry: usize,
) -> Result<Vec<u8>, LinkFault>
    requires short { length code.items + length stores.now < 4294967296 }
    requires inside { entry < most_slots }
    ensures ok { IfOk result (λ words. words.items ≡ with_setup code.items stores.now entry) }
    ensures err { IfErr result (λ fault. fault ≡ Memory) }
{
    if stores.is_empty() {
        return with_entry(alloc, code, entry);
    }
    let end = (code.len() + stores.len() + 24) / 8;
    let jump = with_jump(Vec::new(alloc), (code.len() / 8) as u32)?;
    let begun = with(jump, &code)?;
    let stored = with(begun, stores)?;
    let cleared = with(
        stored,
        &[0xb7, 3, 0, 0, 0, 0, 0, 0, 0xb7, 4, 0, 0, 0, 0, 0, 0],
    )?;
    let distance = (4_294_967_296 + entry as u64 - end as u64) % 4_294_967_296;
    with_jump(cleared, distance as u32)
}
