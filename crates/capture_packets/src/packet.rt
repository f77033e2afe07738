//! A packet of a capture, by its number.
ghost use Rattle.std.specs.Prelude.{◌≡◌, ◌-◌, IfErr, IfOk, None, true, false, ℕ};
ghost use Rattle.capture_packets.specs.Headers.{behind, ethernet, is_capture, link_type, sent_by};
ghost use Rattle.capture_packets.specs.Packets.{HasPackets, IsCaptureFault, IsPacketFault, IsPacketOf, is_cut};
ghost use Rattle.input_texts.specs.Captures.{AreStarts, begun_at, order_of, packet_in};

use crate::fault::{CaptureFault, PacketFault};
use crate::header::{ETHERNET, FILE_HEADER, is_capture, is_pcapng, link_type, sent_in};
use input_texts::{packet_at, packet_starts};
use std::alloc::Global;

/// A packet as it was captured.
#[derive(Clone, Copy)]
pub struct Captured<'a> {
    /// Its bytes, or as many of the first ones as were captured.
    pub bytes: &'a [u8],
    /// How many it had.
    pub sent: u32,
}

/// The packet of this number, counted from 1, of a capture in pcap's own format whose packets begin
/// with a header of Ethernet.
///
/// Takes time and memory in proportion to the file, whatever lengths it tells.
pub fn packet_of<'a>(
    alloc: Global,
    file: &'a [u8],
    number: u64,
) -> Result<Captured<'a>, CaptureFault>
    ensures ok { IfOk result (IsPacketOf file.now number) }
    ensures err { IfErr result (IsCaptureFault file.now number) }
{
    if !is_capture(file) {
        return Err(CaptureFault::Packet(no_capture(file)));
    }
    if file.len() < FILE_HEADER {
        return Err(CaptureFault::Packet(PacketFault::Cut(0)));
    }
    let link = link_type(file);
    if link != ETHERNET {
        return Err(CaptureFault::Packet(PacketFault::LinkType(link)));
    }
    match packet_starts(alloc, file) {
        Ok(starts) => packet_from(file, starts.as_slice(), number),
        Err(_) => Err(CaptureFault::Memory),
    }
}

/// The same of a capture of Ethernet, whose packets begin at these places.
fn packet_from<'a>(
    file: &'a [u8],
    starts: &[usize],
    number: u64,
) -> Result<Captured<'a>, CaptureFault>
    requires capture { is_capture file.now ≡ true }
    requires link { link_type file.now ≡ ethernet }
    requires starts { AreStarts file.now starts.now }
    ensures ok { IfOk result (IsPacketOf file.now number) }
    ensures err { IfErr result (IsCaptureFault file.now number) }
{
    match packet_at(file, starts, number) {
        Some(bytes) => Ok(Captured {
            bytes,
            sent: sent_of(file, starts, number),
        }),
        None => Err(CaptureFault::Packet(lack_of(file, starts))),
    }
}

/// Why a file that is no capture in pcap's own format is none.
fn no_capture(file: &[u8]) -> PacketFault
    requires { is_capture file.now ≡ false }
    ensures { (number : ℕ) → IsPacketFault file.now number result }
{
    if is_pcapng(file) {
        PacketFault::Pcapng
    } else {
        PacketFault::NoCapture
    }
}

/// What begins at the place of this number; nothing where there is none.
fn begun_at<'a>(file: &'a [u8], starts: &[usize], number: u64) -> &'a [u8]
    ensures { result.now ≡ begun_at file.now starts.now number }
{
    if number >= starts.len() as u64 {
        return &[];
    }
    let at = starts[number as usize];
    if at < file.len() { &file[at..] } else { &[] }
}

/// How many bytes a packet had that is there.
fn sent_of(file: &[u8], starts: &[usize], number: u64) -> u32
    requires capture { is_capture file.now ≡ true }
    requires starts { AreStarts file.now starts.now }
    ensures { result ≡ sent_by (order_of file.now) (behind file.now (number - 1)) }
{
    sent_in(file, begun_at(file, starts, number.saturating_sub(1)))
}

/// Why a capture lacks a packet: it has so many, or is cut off behind these.
fn lack_of(file: &[u8], starts: &[usize]) -> PacketFault
    requires capture { is_capture file.now ≡ true }
    requires starts { AreStarts file.now starts.now }
    ensures { (number : ℕ) → packet_in file.now number ≡ None → IsPacketFault file.now number result }
{
    let count = whole_packets(file, starts);
    if is_cut(file, starts, count) {
        PacketFault::Cut(count)
    } else {
        PacketFault::Missing(count)
    }
}

/// How many packets are whole.
fn whole_packets(file: &[u8], starts: &[usize]) -> u64
    requires starts { AreStarts file.now starts.now }
    ensures { HasPackets file.now result }
{
    for k in 0..starts.len() {
        let count = k as u64;
        match packet_at(file, starts, count + 1) {
            Some(_) => {}
            None => return count,
        }
    }
    starts.len() as u64
}

/// Whether a capture is cut off behind so many packets.
fn is_cut(file: &[u8], starts: &[usize], count: u64) -> bool
    requires capture { is_capture file.now ≡ true }
    requires starts { AreStarts file.now starts.now }
    ensures { result ≡ is_cut file.now count }
{
    file.len() < FILE_HEADER || !begun_at(file, starts, count).is_empty()
}
