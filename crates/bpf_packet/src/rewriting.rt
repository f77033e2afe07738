//! The words of a program whose accesses to the context are to bpfdb's struct.
ghost use Rattle.std.specs.Prelude.{◌≡◌, ◌≤◌, ◌<◌, ◌+◌, ◌*◌, ◌++◌, IfOk, length};
ghost use Rattle.bpf_packet.specs.Holding.{state_of};
ghost use Rattle.bpf_packet.specs.Rewriting.{bytes_of, patched, rewritten_below};
ghost use Rattle.bpf_packet.specs.Slots.{slot_at, slots_in};
ghost use Rattle.bpf_packet.specs.Uses.{patch_of};

use crate::held::{Held, state_of};
use crate::packet::{Access, Packet};
use crate::slot::slot_at;
use crate::uses::patch_of;
use std::alloc::AllocError;

/// Words with a slot, whose access is another one where that is given.
fn with_patched(words: Vec<u8>, bytes: &[u8], access: Option<Access>) -> Result<Vec<u8>, AllocError>
    requires { length bytes.now ≡ 8 }
    ensures { IfOk result (λ new. new.items ≡ words.items ++ patched bytes.now access) }
{
    let mut words = words;
    match access {
        Some(access) => {
            let low = (access.offset % 256) as u8;
            let high = (access.offset / 256) as u8;
            words.extend_from_slice(&[
                access.opcode,
                bytes[1],
                low,
                high,
                bytes[4],
                bytes[5],
                bytes[6],
                bytes[7],
            ])?;
        }
        None => words.extend_from_slice(bytes)?,
    }
    Ok(words)
}

/// Words with the next slot of a program.
fn with_slot(
    packet: Packet,
    words: &[u8],
    table: &[Held],
    p: usize,
    new: Vec<u8>,
) -> Result<Vec<u8>, AllocError>
    requires inside { p < slots_in words.now }
    requires size { length table.now ≡ 75 * slots_in words.now }
    ensures { IfOk result (λ done. done.items ≡ new.items ++ patched (bytes_of words.now p)
        (patch_of packet (slot_at words.now p) (state_of table.now p))) }
{
    let access = patch_of(packet, &slot_at(words, p), state_of(table, p));
    with_patched(new, &words[8 * p..8 * p + 8], access)
}

/// Words, and after them those of a program whose accesses to the context are to bpfdb's struct.
pub fn with_rewritten(
    packet: Packet,
    words: &[u8],
    table: &[Held],
    begun: Vec<u8>,
) -> Result<Vec<u8>, AllocError>
    requires { length table.now ≡ 75 * slots_in words.now }
    ensures { IfOk result (λ new. new.items
        ≡ begun.items ++ rewritten_below packet words.now table.now (slots_in words.now)) }
{
    let mut new = begun;
    for p in 0..words.len() / 8 {
        match with_slot(packet, words, table, p, new) {
            Ok(done) => new = done,
            Err(fault) => return Err(fault),
        }
    }
    Ok(new)
}
