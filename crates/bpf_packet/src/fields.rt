//! Where bpfdb has the fields of the kernel's structs.
ghost use Rattle.std.specs.Prelude.{◌≡◌};
ghost use Rattle.bpf_packet.specs.Fields.{address_of, field_of, is_double, is_load, is_word_store, load_size, loaded, may_store, number_of, numbered, own_field};

use crate::packet::{Access, Packet};

fn is_load(opcode: u8) -> bool
    ensures { result ≡ is_load opcode }
{
    matches!(opcode, 0x61 | 0x69 | 0x71)
}

fn is_word_store(opcode: u8) -> bool
    ensures { result ≡ is_word_store opcode }
{
    matches!(opcode, 0x62 | 0x63)
}

fn is_double(opcode: u8) -> bool
    ensures { result ≡ is_double opcode }
{
    matches!(opcode, 0x79 | 0x7a | 0x7b)
}

/// How many bytes a load has.
fn load_size(opcode: u8) -> u16
    ensures { result ≡ load_size opcode }
{
    match opcode {
        0x61 => 4,
        0x69 => 2,
        _ => 1,
    }
}

/// Where an address lies.
fn address_of(packet: Packet, at: u16) -> Option<u16>
    ensures { result ≡ address_of packet at }
{
    match packet {
        Packet::Xdp => match at {
            0 | 4 | 8 => Some(2 * at),
            _ => None,
        },
        Packet::Tc => match at {
            76 => Some(0),
            80 => Some(8),
            140 => Some(16),
            _ => None,
        },
    }
}

/// Where a byte of a number lies.
fn number_of(packet: Packet, at: u16) -> Option<u16>
    ensures { result ≡ number_of packet at }
{
    match packet {
        Packet::Xdp => {
            if 12 <= at && at < 24 {
                Some(at + 12)
            } else {
                None
            }
        }
        Packet::Tc => { if at < 76 { Some(at + 24) } else { None } }
    }
}

/// Whether a program may store a number.
fn may_store(packet: Packet, at: u16) -> bool
    ensures { result ≡ may_store packet at }
{
    match packet {
        Packet::Xdp => false,
        Packet::Tc => { (at == 8 || at == 12) || (at == 32 || (44 <= at && (at < 68 || at == 72))) }
    }
}

/// An access to a number.
fn numbered(opcode: u8, place: Option<u16>) -> Option<Access>
    ensures { result ≡ numbered opcode place }
{
    match place {
        Some(offset) => Some(Access { opcode, offset }),
        None => None,
    }
}

/// A load, of an address if that lies there.
fn loaded(packet: Packet, opcode: u8, at: u16, address: Option<u16>) -> Option<Access>
    ensures { result ≡ loaded packet opcode at address }
{
    match address {
        Some(offset) => {
            if opcode == 0x61 {
                Some(Access {
                    opcode: 0x79,
                    offset,
                })
            } else {
                None
            }
        }
        None => numbered(opcode, number_of(packet, at)),
    }
}

/// An access to one of the first fields of bpfdb's own struct.
fn own_field(opcode: u8, at: u16) -> Option<Access>
    ensures { result ≡ own_field opcode at }
{
    if at == 0 || (at == 8 || at == 16) {
        Some(Access { opcode, offset: at })
    } else {
        None
    }
}

/// What an access at a place of the kernel's struct becomes.
pub fn field_of(packet: Packet, opcode: u8, at: u16) -> Option<Access>
    ensures { result ≡ field_of packet opcode at }
{
    if is_double(opcode) {
        return own_field(opcode, at);
    }
    if is_load(opcode) && at % load_size(opcode) == 0 {
        return loaded(packet, opcode, at, address_of(packet, at));
    }
    if is_word_store(opcode) && (at % 4 == 0 && may_store(packet, at)) {
        return numbered(opcode, number_of(packet, at));
    }
    None
}
