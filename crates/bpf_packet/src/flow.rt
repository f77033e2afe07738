//! What places hold behind an instruction.
ghost use Rattle.std.specs.Prelude.{◌≡◌, ◌≤◌, ◌<◌, length};
ghost use Rattle.bpf_packet.specs.Flow.{after, at_entry, entering, fetches_to, forgets, given, gives_dst, is_atomic, is_fill, is_frame_store, is_move, is_spill, is_sum, replaces, stored};

use crate::held::{Held, frame_place, held_in, is_framed, is_whole, outside, shifted, summed};
use crate::slot::{Slot, class_of, is_call, is_local};

/// Whether it is an atomic operation.
fn is_atomic(slot: &Slot) -> bool
    ensures { result ≡ is_atomic slot.now }
{
    slot.opcode == 0xc3 || slot.opcode == 0xdb
}

/// Whether an atomic operation replaces a register.
fn fetches_to(slot: &Slot, place: usize) -> bool
    ensures { result ≡ fetches_to slot.now place }
{
    if slot.imm == 0xf1 {
        return place == 0;
    }
    slot.imm % 2 == 1 && place == usize::from(slot.src)
}

/// Whether it is a load, arithmetic or a wide load, which replace dst.
fn gives_dst(slot: &Slot) -> bool
    ensures { result ≡ gives_dst slot.now }
{
    class_of(slot) == 1 || (class_of(slot) == 4 || (class_of(slot) == 7 || slot.opcode == 0x18))
}

/// Whether it replaces a register.
fn replaces(slot: &Slot, place: usize) -> bool
    ensures { result ≡ replaces slot.now place }
{
    if is_call(slot) {
        return place == 0;
    }
    if is_atomic(slot) {
        return fetches_to(slot, place);
    }
    gives_dst(slot) && place == usize::from(slot.dst)
}

/// Whether it is a move of 64 bits.
pub fn is_move(slot: &Slot) -> bool
    ensures { result ≡ is_move slot.now }
{
    slot.opcode == 0xbf && slot.offset == 0
}

/// Whether it loads a piece of the frame.
fn is_fill(slot: &Slot) -> bool
    ensures { result ≡ is_fill slot.now }
{
    slot.opcode == 0x79 && (slot.src == 10 && is_whole(slot.offset))
}

/// Whether it adds or subtracts a register, of 64 bits.
fn is_sum(slot: &Slot) -> bool
    ensures { result ≡ is_sum slot.now }
{
    slot.opcode == 0x0f || slot.opcode == 0x1f
}

/// What the register that it replaces holds then.
fn given(slot: &Slot, state: &[Held]) -> Held
    ensures { result ≡ given slot.now state.now }
{
    if is_move(slot) {
        return held_in(state, usize::from(slot.src));
    }
    if slot.opcode == 0x07 {
        return shifted(held_in(state, usize::from(slot.dst)), slot.imm);
    }
    if is_fill(slot) {
        return held_in(state, frame_place(slot.offset));
    }
    if is_sum(slot) {
        return summed(
            held_in(state, usize::from(slot.dst)),
            held_in(state, usize::from(slot.src)),
        );
    }
    Held::Other
}

/// Whether it leaves anything in a register.
fn forgets(slot: &Slot, place: usize) -> bool
    ensures { result ≡ forgets slot.now place }
{
    is_local(slot) && (0 < place && place <= 5)
}

/// Whether it stores to the frame.
fn is_frame_store(slot: &Slot) -> bool
    ensures { result ≡ is_frame_store slot.now }
{
    (class_of(slot) == 2 || class_of(slot) == 3) && (slot.dst == 10 && is_framed(slot.offset))
}

/// Whether it stores a register to a piece of the frame.
pub fn is_spill(slot: &Slot) -> bool
    ensures { result ≡ is_spill slot.now }
{
    slot.opcode == 0x7b && (slot.dst == 10 && is_whole(slot.offset))
}

/// What the piece to which it stores holds then.
fn stored(slot: &Slot, state: &[Held]) -> Held
    ensures { result ≡ stored slot.now state.now }
{
    if is_spill(slot) {
        held_in(state, usize::from(slot.src))
    } else {
        Held::Other
    }
}

/// What a place holds in the slot after it.
#[tactic(auto, unfolding(crate::specs::Flow::after))]
pub fn after(slot: &Slot, state: &[Held], place: usize) -> Held
    ensures { result ≡ after slot.now state.now place }
{
    if replaces(slot, place) {
        return given(slot, state);
    }
    if forgets(slot, place) {
        return Held::Left;
    }
    if is_frame_store(slot) && place == frame_place(slot.offset) {
        return stored(slot, state);
    }
    held_in(state, place)
}

/// What a place holds where it jumps.
#[tactic(auto, unfolding(crate::specs::Flow::entering))]
pub fn entering(slot: &Slot, state: &[Held], place: usize) -> Held
    ensures { result ≡ entering slot.now state.now place }
{
    if !is_call(slot) {
        return held_in(state, place);
    }
    if place > 10 {
        return Held::Other;
    }
    if place == 10 {
        return Held::Frame(512);
    }
    outside(held_in(state, place))
}

/// What a place holds at the entry.
#[tactic(auto, unfolding(crate::specs::Flow::at_entry))]
pub fn at_entry(place: usize) -> Held
    ensures { result ≡ at_entry place }
{
    if place == 1 {
        return Held::Context(0);
    }
    if place == 10 {
        return Held::Frame(512);
    }
    Held::Other
}
