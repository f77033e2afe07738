//! What a move wrote, as its entry tells it.
ghost use Rattle.std.specs.Prelude.{◌≡◌, ◌≤◌, ◌<◌, ◌++◌, [], ℕ, length, option_map};
ghost use Rattle.bpf_entries.specs.Past.{past};
ghost use Rattle.bpf_steps.specs.State.{depth};
ghost use Rattle.bpf_origin.specs.Places.{has as has_place, same};
ghost use Rattle.bpf_origin.specs.Wanted.{is_among as is_among_of};
ghost use Rattle.bpf_origin.specs.Writes as spec;

use crate::place::{Part, Place};
use crate::reads::{Parts, register_part};
use bpf_isa::Reg;
use bpf_machine::{Cpu, Entry};

/// What the move with this entry wrote, which led to a machine's state.
pub fn written(cpu: &Cpu, entry: &Entry) -> Parts
    ensures items { result.items ≡ spec.written cpu.now entry.now }
    ensures count { length result.items ≤ 3 }
{
    cpu.invariant();
    let mut parts = Parts::new();
    add_register(cpu.depth(), entry, &mut parts);
    add_bytes(cpu.depth(), entry, &mut parts);
    add_word(cpu.trace().len(), entry, &mut parts);
    parts
}

/// Adds the register that a move wrote.
fn add_register(deep: usize, entry: &Entry, parts: &mut Parts)
    requires { parts.old.items ≡ [] }
    ensures items { (d : ℕ) →
        parts.new.items ≡ spec.register_written deep (past d entry.now).register }
    ensures count { length parts.new.items ≤ 1 }
{
    match register_in(entry) {
        Some(register) => parts.push(register_part(deep, register)),
        None => {}
    }
}

/// The register that an entry keeps.
fn register_in(entry: &Entry) -> Option<Reg>
    ensures { (d : ℕ) → result ≡ option_map (λ (w : ℕ × ℕ). w.0) (past d entry.now).register }
{
    match entry {
        Entry::Register { register, .. }
        | Entry::Fetch { register, .. }
        | Entry::EditRegister { register, .. } => Some(*register),
        Entry::Cell { .. } | Entry::Trace { .. } => Reg::new(0),
        _ => None,
    }
}

/// Adds the bytes that a move wrote.
fn add_bytes(deep: usize, entry: &Entry, parts: &mut Parts)
    requires shallow { deep < 8 }
    requires room { length parts.old.items ≤ 1 }
    ensures items { parts.new.items
        ≡ parts.old.items ++ spec.bytes_written (past deep entry.now).run }
    ensures count { length parts.new.items ≤ 2 }
{
    match entry.replaced(deep as u32) {
        Some((address, old)) => parts.push(Part::Bytes {
            address,
            len: old.len(),
        }),
        None => {}
    }
}

/// Adds the word that a move appended to the trace, which then has so many.
fn add_word(words: usize, entry: &Entry, parts: &mut Parts)
    requires { length parts.old.items ≤ 2 }
    ensures items { (d : ℕ) → parts.new.items
        ≡ parts.old.items ++ spec.word_written words (past d entry.now).traces }
    ensures count { length parts.new.items ≤ 3 }
{
    match entry {
        Entry::Trace { .. } => parts.push(Part::Word {
            index: words.saturating_sub(1),
        }),
        _ => {}
    }
}

/// Whether a place is among parts.
pub fn is_among(parts: &[Part], place: Place) -> bool
    ensures { result ≡ is_among_of parts.now place }
{
    parts.iter().any(|part| has(*part, place))
}

/// Whether a place is one of a part's.
pub fn has(part: Part, place: Place) -> bool
    ensures { result ≡ has_place part place }
{
    match part {
        Part::Register { depth, number } => is_same(Place::Register { depth, number }, place),
        Part::Word { index } => is_same(Place::Word { index }, place),
        Part::Bytes { address, len } => match place {
            Place::Byte { address: at } => address <= at && at - address < len as u64,
            _ => false,
        },
    }
}

/// Whether two places are one.
pub fn is_same(place: Place, other: Place) -> bool
    ensures { result ≡ same place other }
{
    match (place, other) {
        (
            Place::Register { depth, number },
            Place::Register {
                depth: deep,
                number: register,
            },
        ) => depth == deep && number == register,
        (Place::Word { index }, Place::Word { index: word }) => index == word,
        (Place::Byte { address }, Place::Byte { address: at }) => address == at,
        _ => false,
    }
}
