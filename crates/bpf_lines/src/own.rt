//! The slots of a program that are the first object's own.
ghost use Rattle.std.specs.Prelude.{◌≡◌};
ghost use Rattle.bpf_lines.specs.OwnSlots.{own_slots};

use crate::objects::{ObjectLines, begin_of};
use bpf_packet::Packet;

/// The first of them, and the slot behind the last: what stands before and behind them is of the link,
/// or of the objects that are joined to it.
pub fn own_slots(packet: Option<Packet>, words: &[u8], all: &[ObjectLines<'_>]) -> (usize, usize)
    ensures { result ≡ own_slots packet words.now all.now }
{
    match all.first() {
        Some(own) => {
            let first = begin_of(packet, words, all);
            (first, first + own.plan.parts.len())
        }
        None => (0, 0),
    }
}
