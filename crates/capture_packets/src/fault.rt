//! Why there is no packet to take of a file.
ghost use Rattle.std.specs.Prelude.{◌≡◌};
ghost use Rattle.capture_packets.specs.Faults.{fault_end, fault_text, packet_fault};
ghost use Rattle.counted_io.specs.Writing.{WritesAfter};

use crate::link::link_name;
use counted_io::{Counted, Piece, WriteFault, put, put_all};
use std::io::Write;

/// Why a file has no such packet.
#[derive(Clone, Copy)]
pub enum PacketFault {
    /// P1: it is no capture.
    NoCapture,
    /// P2: it is a capture in pcapng.
    Pcapng,
    /// P3: packets of this link type don't begin with a header of Ethernet.
    LinkType(u16),
    /// P4: the capture has so many packets, and not this one.
    Missing(u64),
    /// P5: behind so many whole packets, and before the end of this one, the capture is cut off.
    Cut(u64),
}

/// Why no packet was taken.
#[derive(Clone, Copy)]
pub enum CaptureFault {
    Packet(PacketFault),
    /// Memory ran out.
    Memory,
}

impl PacketFault {
    /// Its number, and its text.
    fn row(self) -> (u8, &'static str)
        ensures number { result.0 ≡ (packet_fault self).0 }
        ensures text { result.1.now ≡ (packet_fault self).1 }
    {
        match self {
            PacketFault::NoCapture => (1, "no capture in pcap's own format"),
            PacketFault::Pcapng => (
                2,
                "the capture is in pcapng: tcpdump -r OLD -w NEW writes it in pcap's own format",
            ),
            PacketFault::LinkType(_) => (
                3,
                "packets of the capture don't begin with a header of Ethernet",
            ),
            PacketFault::Missing(_) => (4, "no such packet"),
            PacketFault::Cut(_) => (5, "the capture is cut off before the packet's end"),
        }
    }
}

/// Writes what stands behind a fault's text.
fn put_end<W: Write>(
    writer: &mut Counted<W>,
    so_far: Result<(), WriteFault>,
    fault: PacketFault,
) -> Result<(), WriteFault>
    ensures { WritesAfter W.contents writer.old so_far writer.new result (fault_end fault) }
{
    match fault {
        PacketFault::NoCapture => put(writer, so_far, b""),
        PacketFault::Pcapng => put(writer, so_far, b""),
        PacketFault::LinkType(link) => put_link(writer, so_far, link),
        PacketFault::Missing(count) => {
            let pieces = [Piece::Text(b": the capture has "), Piece::Decimal(count)];
            put_all(writer, so_far, &pieces)
        }
        PacketFault::Cut(count) => {
            let pieces = [Piece::Text(b": whole packets: "), Piece::Decimal(count)];
            put_all(writer, so_far, &pieces)
        }
    }
}

/// Writes what packets begin with.
fn put_link<W: Write>(
    writer: &mut Counted<W>,
    so_far: Result<(), WriteFault>,
    link: u16,
) -> Result<(), WriteFault>
    ensures { WritesAfter W.contents writer.old so_far writer.new result (fault_end (PacketFault.LinkType link)) }
{
    let pieces = [
        Piece::Text(b": "),
        Piece::Text(link_name(link).as_bytes()),
        Piece::Text(b" (link type "),
        Piece::Decimal(u64::from(link)),
        Piece::Text(b")"),
    ];
    put_all(writer, so_far, &pieces)
}

/// Writes what is told of a fault, after what was written so far, unless that failed.
pub fn put_fault<W: Write>(
    writer: &mut Counted<W>,
    so_far: Result<(), WriteFault>,
    fault: PacketFault,
) -> Result<(), WriteFault>
    ensures { WritesAfter W.contents writer.old so_far writer.new result (fault_text fault) }
{
    let (number, text) = fault.row();
    let pieces = [
        Piece::Text(b"refused P"),
        Piece::Decimal(u64::from(number)),
        Piece::Text(b": "),
        Piece::Text(text.as_bytes()),
    ];
    let begun = put_all(writer, so_far, &pieces);
    put_end(writer, begun, fault)
}
