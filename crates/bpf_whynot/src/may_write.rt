//! What an instruction may write, of the function that it stands in.
ghost use Rattle.std.specs.Prelude.{◌≡◌, ◌≤◌, ◌++◌, [], length};
ghost use Rattle.bpf_isa.specs.Programs.{written_of};
ghost use Rattle.bpf_steps.specs.Platform.{frame_count};
ghost use Rattle.bpf_whynot.specs.Keeps as spec;

use bpf_entries::{FRAME_LEN, frame_base};
use bpf_isa::{Address, Insn};
use bpf_origin::{Part, Parts, register_part, width_len};

/// What an instruction may write of a function at a depth of calls: the register that it replaces,
/// and bytes of the function's frame, by r10.
pub fn may_write(insn: &Insn, depth: usize) -> Parts
    requires { depth ≤ frame_count }
    ensures { result.items ≡ spec.may_write depth insn.now }
{
    let mut parts = Parts::new();
    add_replaced(insn, depth, &mut parts);
    add_stored(insn, depth, &mut parts);
    parts
}

/// Adds the register that it replaces.
fn add_replaced(insn: &Insn, depth: usize, parts: &mut Parts)
    requires { parts.old.items ≡ [] }
    ensures items { parts.new.items ≡ spec.may_replace depth (written_of insn.now) }
    ensures count { length parts.new.items ≤ 1 }
{
    match insn.destination() {
        Some(register) => parts.push(register_part(depth, register)),
        None => {}
    }
}

/// Adds the bytes of the frame.
fn add_stored(insn: &Insn, depth: usize, parts: &mut Parts)
    requires depth { depth ≤ frame_count }
    requires room { length parts.old.items ≤ 1 }
    ensures { parts.new.items ≡ parts.old.items ++ spec.may_store depth insn.now }
{
    match insn {
        Insn::Store { size, to, .. } => add_own(*to, size.len(), depth, parts),
        Insn::Atomic { width, to, .. } => add_own(*to, width_len(*width), depth, parts),
        _ => {}
    }
}

/// Adds bytes at an address by r10.
fn add_own(to: Address, len: usize, depth: usize, parts: &mut Parts)
    requires depth { depth ≤ frame_count }
    requires room { length parts.old.items ≤ 1 }
    ensures { parts.new.items ≡ parts.old.items ++ spec.own_bytes depth to len }
{
    if to.base.number() == 10 {
        parts.push(Part::Bytes {
            address: own_address(depth, to.offset),
            len,
        });
    }
}

/// An address by r10; addresses wrap.
fn own_address(depth: usize, offset: i16) -> u64
    requires { depth ≤ frame_count }
    ensures { result ≡ spec.own_address depth offset }
{
    let pointer = frame_base(depth as u32) + FRAME_LEN as u64;
    pointer.wrapping_add(i64::from(offset).cast_unsigned())
}
