//! What says which program runs.
ghost use Rattle.std.specs.Prelude.{◌≡◌, IfErr, IfOk, Err, Ok};
ghost use Rattle.bpf_load.specs.Targets.{TellsPacket, stubs_of};

use arrayvec::ArrayVec;
use bpf_link::{LinkFault, MOST_STUBS, Stub, packet_of, stubs_in};
use bpf_packet::Packet;
use std::alloc::Global;

/// What FILE is.
#[derive(Clone, Copy)]
pub enum SourceKind {
    /// A program's raw words, little-endian (RFC 9669, section 3).
    Words,
    /// A listing, which is assembled.
    Listing,
    /// An object, which is linked.
    Object,
}

/// Which program runs, and with what. What is said of an object says nothing of words and listings,
/// and the names of maps nothing of an object, which has its own.
#[derive(Clone, Copy)]
pub struct Target<'a> {
    pub kind: SourceKind,
    /// The map table's text, as `8x2,4x256`; without one there are no maps.
    pub maps: Option<&'a str>,
    /// The name of the section with its code; where it is empty it is the only one.
    pub section: &'a [u8],
    /// The name of the function of that section at which it begins; where it is empty it is the only
    /// one that is known outside the object, or else the section's first slot.
    pub entry: &'a [u8],
    /// How many entries maps have, each as `NAME=N`.
    pub counts: &'a [&'a str],
    /// The programs that are called in turn in the place of one, each as `NAME` or `NAME@OFFSET`;
    /// without any it is the one of the entry.
    pub turns: &'a [&'a str],
    /// The objects with functions that are joined to it, in their order.
    pub with: &'a [Vec<u8>],
    /// The helpers whose calls are answered by a constant, as `5=0,14=-1`; without it none is.
    pub stubs: Option<&'a str>,
    /// Relocations of fields are left undone: fields stay where they were when it was compiled.
    pub as_compiled: bool,
    /// The kernel's struct that the entry takes; without it its context is the machine's.
    pub packet: Option<Packet>,
}

/// The helpers whose calls are answered.
pub fn stubs_of(target: &Target<'_>) -> Result<ArrayVec<Stub, MOST_STUBS>, LinkFault>
    ensures ok { IfOk result (λ stubs. stubs_of target.now ≡ Ok stubs.items) }
    ensures err { IfErr result (λ fault. stubs_of target.now ≡ Err fault) }
{
    match target.stubs {
        Some(text) => stubs_in(text.as_bytes()),
        None => Ok(ArrayVec::new()),
    }
}

/// The kernel's struct of a packet that the entry of an object takes, by the object's types; none
/// where nothing is known of it, and then the object isn't linked.
///
/// Takes time in proportion to the length of the object.
pub fn told_packet(alloc: Global, object: &[u8], section: &[u8], entry: &[u8]) -> Option<Packet>
    ensures { TellsPacket object.now section.now entry.now result }
{
    match packet_of(alloc, object, section, entry) {
        Ok(packet) => packet,
        Err(_) => None,
    }
}
