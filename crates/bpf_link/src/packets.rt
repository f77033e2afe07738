//! The words of a program by what context its entry takes.
ghost use Rattle.std.specs.Prelude.{◌≡◌, ◌≤◌, ◌*◌, IfOk, IfErr, length};
ghost use Rattle.bpf_isa.specs.Checker.{most_slots};
ghost use Rattle.bpf_link.specs.Links.{planned};
ghost use Rattle.bpf_link.specs.Packets.{HasWords, IsPacketRefusal, IsWordsFault, source_in, told_of_packet};
ghost use Rattle.bpf_packet.specs.Packets.{IsOnPacket};
ghost use Rattle.bpf_packet.specs.Slots.{slots_in};

use crate::contexts::own_context;
use crate::fault::LinkFault;
use crate::linker::{LinkOptions, planned};
use crate::sources::{Source, source_of};
use bpf_isa::MOST_SLOTS;
use bpf_packet::{Packet, PacketFault, on_packet};
use std::alloc::Global;

/// From where a slot of a program comes.
fn source_in(object: &[u8], section: &[u8], words: &[u8], slot: usize) -> Option<Source>
    ensures { result ≡ source_in (planned object.now section.now) words.now slot }
{
    match planned(object, section) {
        Ok(plan) => source_of(&plan, words, slot),
        Err(_) => None,
    }
}

/// What is told of a program that can't be run on a packet.
fn told_of_packet(object: &[u8], section: &[u8], words: &[u8], fault: PacketFault) -> LinkFault
    ensures { result ≡ told_of_packet object.now section.now words.now fault }
{
    match fault {
        PacketFault::Memory => LinkFault::Memory,
        PacketFault::Unsettled => LinkFault::Unsettled,
        PacketFault::Use(told) => LinkFault::Packet {
            fault: told.fault,
            slot: told.slot,
            source: source_in(object, section, words, told.slot),
        },
    }
}

/// The words of a program on a packet.
fn packet_words(
    alloc: Global,
    packet: Packet,
    object: &[u8],
    section: &[u8],
    own: &[u8],
) -> Result<Vec<u8>, LinkFault>
    requires { slots_in own.now ≤ 4294967296 }
    ensures ok { IfOk result (λ words.
        IsOnPacket packet own.now words.items
        × (length words.items ≤ 8 * most_slots)) }
    ensures err { IfErr result (IsPacketRefusal packet object.now section.now own.now) }
{
    let words = match on_packet(alloc, packet, own) {
        Ok(words) => words,
        Err(fault) => return Err(told_of_packet(object, section, own, fault)),
    };
    if words.len() > 8 * MOST_SLOTS {
        return Err(LinkFault::TooLong);
    }
    Ok(words)
}

/// The words of a program whose own are these.
pub fn with_context(
    alloc: Global,
    object: &[u8],
    options: &LinkOptions<'_>,
    own: Vec<u8>,
) -> Result<Vec<u8>, LinkFault>
    requires { slots_in own.items ≤ 4294967296 }
    ensures ok { IfOk result (λ words. HasWords options.now.packet object.now
        options.now.section.now options.now.entry.now own.items words.items) }
    ensures err { IfErr result (IsWordsFault options.now.packet object.now
        options.now.section.now options.now.entry.now own.items) }
{
    match options.packet {
        Some(packet) => match packet_words(alloc, packet, object, options.section, &own) {
            Ok(words) => Ok(words),
            Err(fault) => Err(fault),
        },
        None => match own_context(alloc, object, options.section, options.entry) {
            Ok(()) => Ok(own),
            Err(fault) => Err(fault),
        },
    }
}
