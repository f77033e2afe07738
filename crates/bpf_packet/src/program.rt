//! A program of the kernel's for packets, as one that the machine runs on a packet.
ghost use Rattle.std.specs.Prelude.{◌≡◌, ◌≤◌, ◌*◌, IfOk, IfErr, true, None, length};
ghost use Rattle.bpf_packet.specs.Packets.{IsOnPacket, IsPacketFault, IsTable};
ghost use Rattle.bpf_packet.specs.Slots.{slots_in};
ghost use Rattle.bpf_packet.specs.Tables.{is_right};

use crate::entry::entry_words;
use crate::fault::PacketFault;
use crate::held::Held;
use crate::packet::Packet;
use crate::rewriting::with_rewritten;
use crate::solver::solved;
use crate::tables::{first_fault, is_right};
use std::alloc::Global;

/// A table by which nothing is done with the context's address that may not be.
fn table_of(alloc: Global, packet: Packet, words: &[u8]) -> Result<Vec<Held>, PacketFault>
    requires { slots_in words.now ≤ 4294967296 }
    ensures ok { IfOk result (λ table. IsTable packet words.now table.items) }
    ensures size { IfOk result (λ table. length table.items ≡ 75 * slots_in words.now) }
    ensures err { IfErr result (IsPacketFault packet words.now) }
{
    let table = match solved(alloc, words) {
        Ok(table) => table,
        Err(_) => return Err(PacketFault::Memory),
    };
    if !is_right(words, &table) {
        return Err(PacketFault::Unsettled);
    }
    match first_fault(packet, words, &table) {
        None => Ok(table),
        Some(fault) => Err(PacketFault::Use(fault)),
    }
}

/// The words of a program that the kernel would give a packet by a struct, on the packet itself.
///
/// Before the program stand words that make the struct in a frame of their own, with addresses of 64
/// bits, and call the program with its address; what the program returns is cut to 32 bits, and its
/// sign extended. Each access through the context's address is to the field of that struct, word for
/// word; all other words are as they were. Which accesses these are follows from what registers and
/// the frame hold on all ways that lead to them, through local calls too. Where that can't be said
/// of one, or something else is done with the address, the program is refused. Takes time and memory
/// in proportion to the length.
pub fn on_packet(alloc: Global, packet: Packet, words: &[u8]) -> Result<Vec<u8>, PacketFault>
    requires { slots_in words.now ≤ 4294967296 }
    ensures ok { IfOk result (λ new. IsOnPacket packet words.now new.items) }
    ensures err { IfErr result (IsPacketFault packet words.now) }
{
    let table = match table_of(alloc, packet, words) {
        Ok(table) => table,
        Err(fault) => return Err(fault),
    };
    let begun = match Vec::from_slice(alloc, entry_words(packet)) {
        Ok(begun) => begun,
        Err(_) => return Err(PacketFault::Memory),
    };
    match with_rewritten(packet, words, &table, begun) {
        Ok(new) => Ok(new),
        Err(_) => Err(PacketFault::Memory),
    }
}
