//! The fields of a word.
ghost use Rattle.std.specs.Prelude.{◌≡◌, ◌<◌, ◌≤◌, ◌+◌, ◌⊎◌, All, length};
ghost use Rattle.bpf_isa.specs.Words.{fields_of};

use byteorder::{ByteOrder, LittleEndian};

/// The fields of a slot and, for a wide instruction, of the slot after it, all unsigned.
#[derive(Clone, Copy)]
pub struct Fields {
    pub opcode: u8,
    pub dst: u8,
    pub src: u8,
    pub offset: u16,
    pub imm: u32,
    /// The first four bytes of the second slot.
    pub reserved: u32,
    /// The imm of the second slot.
    pub next: u32,
}

/// The fields of 8 or 16 bytes.
pub fn read(bytes: &[u8]) -> Fields
    requires { (length bytes.now ≡ 8) ⊎ (length bytes.now ≡ 16) }
    ensures value { result ≡ fields_of bytes.now }
    ensures within { All (λ byte. byte < 256) bytes.now }
{
    let is_wide = bytes.len() == 16;
    Fields {
        opcode: bytes[0],
        dst: bytes[1] % 16,
        src: bytes[1] / 16,
        offset: LittleEndian::read_u16(&bytes[2..]),
        imm: LittleEndian::read_u32(&bytes[4..]),
        reserved: if is_wide {
            LittleEndian::read_u32(&bytes[8..])
        } else {
            0
        },
        next: if is_wide {
            LittleEndian::read_u32(&bytes[12..])
        } else {
            0
        },
    }
}

/// The bytes of two slots with these fields.
pub fn to_bytes(fields: Fields) -> [u8; 16]
    requires { (fields.dst < 16) × (fields.src < 16) }
    ensures value { fields_of result ≡ fields }
    ensures within { All (λ byte. byte < 256) result }
{
    let mut bytes = [0; 16];
    bytes[0] = fields.opcode;
    bytes[1] = fields.dst + 16 * fields.src;
    LittleEndian::write_u16(&mut bytes[2..], fields.offset);
    LittleEndian::write_u32(&mut bytes[4..], fields.imm);
    LittleEndian::write_u32(&mut bytes[8..], fields.reserved);
    LittleEndian::write_u32(&mut bytes[12..], fields.next);
    bytes
}
