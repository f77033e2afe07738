//! Memory: the bytes of all regions, one region after another.
ghost use Rattle.std.specs.Prelude.{◌≡◌, All, ◌+◌, ◌-◌, ◌*◌, ◌^◌, ◌≤◌, ◌<◌, ◌⊎◌, length, IfSome, IfNone, IfOk, IfErr, OnErr, OnOk, IsTrue, IsSome, ◌↔◌, option_map, Some, None, ℕ, List, if◌then◌else◌, ◌==◌, ◌++◌, replicate};
ghost use Rattle.bpf_steps.specs.Regions.{image, index_in, index_of, frames_from, is_from_frame, maps_from, maps_len, zeros};
ghost use Rattle.bpf_steps.specs.Spans.{AreSoughtFrom};
ghost use Rattle.bpf_steps.specs.Platform.{context_limit, frame_base, frame_count, frame_len, map_base};

use crate::alu::{low8, low16, low32};
use crate::fault::OpenFault;
use crate::map_layout::MapLayout;
use crate::platform::{
    CONTEXT_BASE, CONTEXT_LIMIT, FRAME_BASE, FRAME_COUNT, FRAME_LEN, FRAME_STRIDE, MAP_BASE,
};
use bpf_isa::{MapTable, Size};
use byteorder::{ByteOrder, LittleEndian};
use std::alloc::{AllocError, Global};
use std::marker::Model;

/// Memory of a machine: the context, the frames and the maps.
#[derive(Drop)]
pub struct Memory {
    pub(crate) context_len: usize,
    pub(crate) maps: MapLayout,
    pub(crate) bytes: Vec<u8>,
}

impl Model for Memory {
    ghost use Rattle.bpf_steps.specs.Regions.{Image, IsImage};

    ghost Value = { Image };

    ghost view = { λ m. record { context_len = m.context_len; maps = m.maps; bytes = m.bytes.items } };

    ghost invariant = { λ m. IsImage (record { context_len = m.context_len; maps = m.maps; bytes = m.bytes.items }) };
}

impl Memory {
    ghost use Rattle.std.specs.Borrow.{sem};
    ghost use Rattle.bpf_isa.specs.Sizes.{size_len};
    ghost use Rattle.bpf_steps.specs.Regions.{index_of, run, run_at, number_at, with_number, put, map_bytes, IsImage};
    ghost use Rattle.bpf_steps.specs.Opening.{MemoryOpened, MemoryRestarted, Refused};
    ghost use Rattle.bpf_steps.specs.Lending.{LendsRun, LendsRunOrNone, LendsBytes};

    /// Opens memory with the context's bytes, and frames and maps of zero bytes.
    pub fn open(alloc: Global, maps: &MapTable, context: &[u8]) -> Result<Memory, OpenFault>
        ensures ok { IfOk result (MemoryOpened maps.now context.now) }
        ensures err { IfErr result (Refused context.now) }
    {
        if context.len() > CONTEXT_LIMIT {
            return Err(OpenFault::ContextTooLong);
        }
        let maps = MapLayout::of(maps);
        match filled(alloc, context, FRAME_LEN * FRAME_COUNT + maps.len()) {
            Ok(bytes) => Ok(Memory {
                context_len: context.len(),
                maps,
                bytes,
            }),
            Err(_) => Err(OpenFault::OutOfMemory),
        }
    }

    /// Puts another context in the place of this one: its bytes, frames of zero bytes, and the maps as
    /// they are.
    pub fn restart(&mut self, alloc: Global, context: &[u8]) -> Result<(), OpenFault>
        ensures ok { OnOk result (MemoryRestarted context.now self.old self.new) }
        ensures err { IfErr result (Refused context.now) }
        ensures same { OnErr result (self.new ≡ self.old) }
    {
        if context.len() > CONTEXT_LIMIT {
            return Err(OpenFault::ContextTooLong);
        }
        match refilled(alloc, context, self.map_bytes()) {
            Ok(bytes) => {
                self.context_len = context.len();
                self.bytes = bytes;
                Ok(())
            }
            Err(_) => Err(OpenFault::OutOfMemory),
        }
    }

    /// Brings what holds of every memory into a proof.
    pub fn invariant(&self)
        ensures image { IsImage self.now }
        ensures bytes { All (λ byte. byte < 256) self.now.bytes }
    {
        are_bytes(&self.bytes);
    }

    /// Where the run of n bytes at this address begins, None where some of them aren't present or
    /// lie in a frame from `frames` on.
    pub fn index(&self, address: u64, n: usize, frames: usize) -> Option<usize>
        requires only { 1 ≤ n }
        requires within { frames ≤ frame_count }
        ensures value { result ≡
            (if is_from_frame frames address then None else index_of self.now address n) }
        ensures fits { IfSome result (λ at. at + n ≤ length self.now.bytes) }
    {
        run_index(self.context_len, &self.maps, frames, address, n)
    }

    /// The n bytes from an index on.
    pub fn run(&self, at: usize, n: usize) -> &[u8]
        requires { at + n ≤ length self.now.bytes }
        ensures value { result.now ≡ run self.now at n }
        ensures fits { length result.now ≡ n }
    {
        &self.bytes[at..at + n]
    }

    /// The n bytes from an index on, lent for writing.
    fn run_mut(&mut self, at: usize, n: usize) -> &mut [u8]
        requires { at + n ≤ length self.old.bytes }
        ensures* next { sem 𝓛 (LendsRun self.entry at result) }
        ensures value { result.now ≡ run self.old at n }
    {
        self.bytes.slice_mut(at..at + n)
    }

    /// The bytes of the maps.
    fn map_bytes(&self) -> &[u8]
        ensures value { result.now ≡ map_bytes self.now }
        ensures fits { length result.now ≤ 16 * 65536 }
    {
        let first = self.bytes.len() - self.maps.len();
        &self.bytes[first..]
    }

    /// The n bytes at this address, None where some of them aren't present.
    pub fn peek(&self, address: u64, n: usize) -> Option<&[u8]>
        requires { 1 ≤ n }
        ensures value { option_map (λ run. run.now) result ≡ run_at self.now address n }
        ensures fits { IfSome result (λ run. length run.now ≡ n) }
    {
        match self.index(address, n, FRAME_COUNT) {
            Some(at) => Some(self.run(at, n)),
            None => None,
        }
    }

    /// The n bytes at this address, lent for writing; None where some of them aren't present.
    pub fn bytes_mut(&mut self, address: u64, n: usize) -> Option<&mut [u8]>
        requires { 1 ≤ n }
        ensures* next { sem 𝓛 (LendsBytes self.entry address n result) }
        ensures value { option_map (λ run. run.now) result ≡ run_at self.old address n }
        ensures fits { IfSome result (λ run. length run.now ≡ n) }
    {
        let run = self.run_or_none(address, n);
        if run.len() == 0 { None } else { Some(run) }
    }

    /// Writes bytes at this address where all of them are present; else nothing changes.
    pub fn put(&mut self, address: u64, bytes: &[u8])
        requires { 1 ≤ length bytes.now }
        ensures next { self.new ≡ put self.old address (length bytes.now) bytes.now }
        ensures maps { self.new.maps ≡ self.old.maps }
    {
        if let Some(at) = self.index(address, bytes.len(), FRAME_COUNT) {
            copy(self.run_mut(at, bytes.len()), bytes);
        }
    }

    /// Makes the n bytes at this address zero where all of them are present; else nothing changes.
    pub fn clear(&mut self, address: u64, n: usize)
        requires { 1 ≤ n }
        ensures next { self.new ≡ put self.old address n (zeros n) }
        ensures maps { self.new.maps ≡ self.old.maps }
    {
        if let Some(at) = self.index(address, n, FRAME_COUNT) {
            clear(self.run_mut(at, n), n);
        }
    }

    /// The n bytes at this address, or no bytes where some of them aren't present.
    fn run_or_none(&mut self, address: u64, n: usize) -> &mut [u8]
        requires { 1 ≤ n }
        ensures* next { sem 𝓛 (LendsRunOrNone self.entry address n result) }
        ensures value { (if length result.now == 0 then None else Some result.now)
            ≡ run_at self.old address n }
        ensures fits { 0 < length result.now → length result.now ≡ n }
    {
        let (at, len) = match self.index(address, n, FRAME_COUNT) {
            Some(at) => (at, n),
            None => (0, 0),
        };
        self.run_mut(at, len)
    }

    /// The number that 1, 2, 4 or 8 bytes from an index on are, the lowest byte first.
    pub fn number(&self, at: usize, size: Size) -> u64
        requires { at + size_len size ≤ length self.now.bytes }
        ensures { result ≡ number_at self.now at (size_len size) }
    {
        match size {
            Size::Byte => u64::from(self.run(at, 1)[0]),
            Size::Half => u64::from(LittleEndian::read_u16(self.run(at, 2))),
            Size::Word => u64::from(LittleEndian::read_u32(self.run(at, 4))),
            Size::Double => LittleEndian::read_u64(self.run(at, 8)),
        }
    }

    /// Stores the low 1, 2, 4 or 8 bytes of a number from an index on, the lowest byte first.
    pub fn store(&mut self, at: usize, size: Size, value: u64)
        requires { at + size_len size ≤ length self.old.bytes }
        ensures { self.new ≡ with_number self.old at (size_len size) value }
    {
        match size {
            Size::Byte => self.run_mut(at, 1)[0] = low8(value),
            Size::Half => LittleEndian::write_u16(self.run_mut(at, 2), low16(value)),
            Size::Word => LittleEndian::write_u32(self.run_mut(at, 4), low32(value)),
            Size::Double => LittleEndian::write_u64(self.run_mut(at, 8), value),
        }
    }
}

/// Copies bytes into a run of as many.
fn copy(run: &mut [u8], bytes: &[u8])
    requires { length run.old ≡ length bytes.now }
    ensures { run.new ≡ bytes.now }
{
    run.copy_from_slice(bytes);
}

/// Makes the n bytes of a run zero.
#[tactic(auto, unfolding(crate::specs::Regions::zeros))]
pub fn clear(run: &mut [u8], n: usize)
    requires { length run.old ≡ n }
    ensures { run.new ≡ zeros n }
{
    run.fill(0);
}

/// An index that is counted from another on.
fn behind(first: usize, index: Option<usize>) -> Option<usize>
    requires { IfSome index (λ at. first + at < 2 ^ 64) }
    ensures { result ≡ option_map (λ at. first + at) index }
{
    match index {
        Some(at) => Some(first + at),
        None => None,
    }
}

/// Where the run of n bytes at an address begins in a region.
pub fn region_index(base: u64, len: usize, address: u64, n: usize) -> Option<usize>
    ensures found { IfSome result
        (λ at. (base ≤ address) × (address + n ≤ base + len) × (at ≡ address - base)) }
    ensures none { IfNone result ((address < base) ⊎ (base + len < address + n)) }
{
    if address < base || n > len {
        return None;
    }
    let at = address - base;
    if at <= (len - n) as u64 {
        Some(at as usize)
    } else {
        None
    }
}

/// Where the run of n bytes at an address from frame 0 on begins in the frames below frame
/// `frames`.
fn frame_index(frames: usize, address: u64, n: usize) -> Option<usize>
    requires { AreSoughtFrom FRAME_BASE frames address n }
    ensures value { result ≡ (if is_from_frame frames address then None
        else index_in (frames_from 0 frame_count) address n) }
    ensures fits { IfSome result (λ at. at + n ≤ frame_len * frame_count) }
    ensures near { IfSome result (λ at. address < frame_base frame_count) }
{
    let frame = (address - FRAME_BASE) / FRAME_STRIDE;
    if frame >= frames as u64 {
        return None;
    }
    match region_index(0, FRAME_LEN, (address - FRAME_BASE) % FRAME_STRIDE, n) {
        Some(at) => Some(FRAME_LEN * frame as usize + at),
        None => None,
    }
}

/// Where the run of n bytes at this address begins in the maps, as the bytes of all regions are
/// counted; None below map 0. (It is called, and as a rare thing, so that the loop of a run keeps
/// its registers for the other arms.)
#[inline(never)]
#[cold]
fn map_index(context_len: usize, maps: &MapLayout, address: u64, n: usize) -> Option<usize>
    requires { context_len ≤ context_limit }
    ensures below { address < map_base → result ≡ None }
    ensures past { map_base ≤ address → result ≡ option_map
        (λ at. context_len + frame_len * frame_count + at)
        (index_in (maps_from 0 maps.now) address n) }
    ensures fits { IfSome result
        (λ at. at + n ≤ context_len + frame_len * frame_count + maps_len maps.now) }
{
    if address < MAP_BASE {
        return None;
    }
    behind(
        context_len + FRAME_LEN * FRAME_COUNT,
        maps.index(address, n),
    )
}

/// Where the run of n bytes at this address begins among the bytes of all regions, None where some
/// of them aren't present or lie in a frame from `frames` on.
#[inline(always)]
pub fn run_index(
    context_len: usize,
    maps: &MapLayout,
    frames: usize,
    address: u64,
    n: usize,
) -> Option<usize>
    requires sought { AreSoughtFrom 0 frames address n }
    requires short { context_len ≤ context_limit }
    ensures value { (bytes : List ℕ) → result ≡ (if is_from_frame frames address then None
        else index_of (image context_len maps.now bytes) address n) }
    ensures fits { IfSome result
        (λ at. at + n ≤ context_len + frame_len * frame_count + maps_len maps.now) }
{
    if address < FRAME_BASE {
        return region_index(CONTEXT_BASE, context_len, address, n);
    }
    match behind(context_len, frame_index(frames, address, n)) {
        Some(at) => Some(at),
        None => map_index(context_len, maps, address, n),
    }
}

/// Brings the range of bytes into a proof.
pub fn are_bytes(bytes: &[u8])
    ensures { All (λ byte. byte < 256) bytes.now }
{}

/// The context's bytes and behind them a number of zero bytes.
fn filled(alloc: Global, context: &[u8], zeros: usize) -> Result<Vec<u8>, AllocError>
    requires { (length context.now ≤ context_limit) × (zeros ≤ 2 ^ 21) }
    ensures { IfOk result (λ bytes. bytes.items ≡ context.now ++ replicate zeros 0) }
{
    let len = context.len() + zeros;
    let mut bytes = Vec::with_capacity(alloc, len)?;
    bytes.extend_from_slice(context)?;
    bytes.resize(len, 0)?;
    Ok(bytes)
}

/// The context's bytes, behind them frames of zero bytes, and then the bytes of the maps.
fn refilled(alloc: Global, context: &[u8], maps: &[u8]) -> Result<Vec<u8>, AllocError>
    requires { (length context.now ≤ context_limit) × (length maps.now ≤ 16 * 65536) }
    ensures { IfOk result (λ bytes. bytes.items
        ≡ context.now ++ (replicate (frame_len * frame_count) 0 ++ maps.now)) }
{
    let mut bytes = filled(alloc, context, FRAME_LEN * FRAME_COUNT)?;
    bytes.extend_from_slice(maps)?;
    Ok(bytes)
}
