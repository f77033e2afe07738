//! Pieces of an object's file.
ghost use Rattle.std.specs.Prelude.{◌≡◌, ◌++◌, IfErr, IfOk, length};
ghost use Rattle.bpf_link.specs.declared.fault.LinkFault.TheVariants.{Memory};
ghost use Rattle.bpf_turns.specs.Blocks.{number};
ghost use Rattle.bpf_turns.specs.Objects.{symbol_bytes};

use bpf_link::{LinkFault, with, word_bytes};
use byteorder::{ByteOrder, LittleEndian};

/// Where a symbol lies.
#[derive(Clone, Copy)]
pub struct Spot {
    /// Its section.
    pub section: u16,
    /// Its place there.
    pub value: u64,
    /// Its binding and what it names, as `st_info` has them.
    pub info: u8,
}

/// Bytes with a number of 32 bits, the greatest one in place of a greater one.
pub fn with_number(bytes: Vec<u8>, n: u64) -> Result<Vec<u8>, LinkFault>
    ensures ok { IfOk result (λ new. new.items ≡ bytes.items ++ number n) }
    ensures err { IfErr result (λ fault. fault ≡ Memory) }
{
    with(bytes, &word_bytes(n.min(4_294_967_295) as u32))
}

/// The bytes of a symbol at another spot.
pub fn symbol_bytes(raw: &[u8], spot: &Spot) -> [u8; 24]
    requires { length raw.now ≡ 24 }
    ensures { result ≡ symbol_bytes raw.now spot.now }
{
    let mut bytes = [0; 24];
    bytes.copy_from_slice(raw);
    bytes[4] = spot.info;
    LittleEndian::write_u16(&mut bytes[6..8], spot.section);
    LittleEndian::write_u64(&mut bytes[8..16], spot.value);
    bytes
}
