//! Bytes of files that are put together.
ghost use Rattle.std.specs.Prelude.{◌≡◌, ◌≤◌, ◌+◌, ◌++◌, IfErr, IfOk, length};
ghost use Rattle.byteorder.specs.Endian.{little_bytes};
ghost use Rattle.bpf_link.specs.Images.{with_u64};
ghost use Rattle.bpf_link.specs.declared.fault.LinkFault.TheVariants.{Memory};

use crate::fault::LinkFault;
use byteorder::{ByteOrder, LittleEndian};

/// Bytes with some more.
pub fn with(mut bytes: Vec<u8>, more: &[u8]) -> Result<Vec<u8>, LinkFault>
    ensures ok { IfOk result (λ new. new.items ≡ bytes.items ++ more.now) }
    ensures err { IfErr result (λ fault. fault ≡ Memory) }
{
    match bytes.extend_from_slice(more) {
        Ok(()) => Ok(bytes),
        Err(_) => Err(LinkFault::Memory),
    }
}

/// The bytes of a number.
pub fn word_bytes(word: u32) -> [u8; 4]
    ensures { result ≡ little_bytes 4 word }
{
    let mut bytes = [0; 4];
    LittleEndian::write_u32(&mut bytes, word);
    bytes
}

/// Bytes with a number in eight of them.
pub fn with_u64(mut bytes: Vec<u8>, at: usize, n: u64) -> Vec<u8>
    requires { at + 8 ≤ length bytes.items }
    ensures value { result.items ≡ with_u64 bytes.items at n }
    ensures length { length result.items ≡ length bytes.items }
{
    LittleEndian::write_u64(&mut bytes[at..at + 8], n);
    bytes
}
