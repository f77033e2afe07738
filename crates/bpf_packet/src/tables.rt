//! Whether a table is right, and what is done by it with the context's address.
ghost use Rattle.std.specs.Prelude.{◌≡◌, ◌≤◌, ◌<◌, ◌+◌, ◌*◌, ◌/◌, true, length};
ghost use Rattle.bpf_packet.specs.Flow.{after, at_entry, entering};
ghost use Rattle.bpf_packet.specs.Holding.{all_below, state_of};
ghost use Rattle.bpf_packet.specs.Slots.{slot_at, slots_in};
ghost use Rattle.bpf_packet.specs.Tables.{fault_at, first_fault, goes_right, holds, is_reached, is_right, is_right_at, jumps_right, or_at};
ghost use Rattle.bpf_packet.specs.declared.fault.UseFault.{UseFault as Why};

use crate::fault::{SlotFault, UseFault};
use crate::flow::{after, at_entry, entering};
use crate::held::{Held, covers, held_in, is_something, most_places, state_of};
use crate::packet::Packet;
use crate::slot::{Slot, goes_on, jumps, slot_at, target_of};
use crate::uses::use_fault;

/// Whether a state holds what is at the entry.
#[tactic(auto, unfolding(crate::specs::Tables::holds))]
fn holds_entry(state: &[Held]) -> bool
    ensures { result ≡ holds state.now at_entry }
{
    let mut holds = true;
    for place in 0..most_places() {
        holds = holds && covers(held_in(state, place), at_entry(place));
    }
    holds
}

/// Whether a state holds what an instruction leaves for the slot after it.
#[tactic(auto, unfolding(crate::specs::Tables::holds))]
fn holds_after(next: &[Held], slot: &Slot, state: &[Held]) -> bool
    ensures { result ≡ holds next.now (after slot.now state.now) }
{
    let mut holds = true;
    for place in 0..most_places() {
        holds = holds && covers(held_in(next, place), after(slot, state, place));
    }
    holds
}

/// Whether a state holds what an instruction leaves where it jumps.
#[tactic(auto, unfolding(crate::specs::Tables::holds))]
fn holds_entering(next: &[Held], slot: &Slot, state: &[Held]) -> bool
    ensures { result ≡ holds next.now (entering slot.now state.now) }
{
    let mut holds = true;
    for place in 0..most_places() {
        holds = holds && covers(held_in(next, place), entering(slot, state, place));
    }
    holds
}

/// Whether a slot is come to.
pub fn is_reached(state: &[Held]) -> bool
    ensures { result ≡ is_reached state.now }
{
    is_something(held_in(state, 10))
}

/// Whether the slot after one holds what that leaves.
fn goes_right(words: &[u8], table: &[Held], p: usize) -> bool
    requires inside { p < slots_in words.now }
    requires size { length table.now ≡ 75 * slots_in words.now }
    ensures { result ≡ goes_right words.now table.now p }
{
    let slot = slot_at(words, p);
    if !goes_on(&slot) {
        return true;
    }
    if p + 1 >= words.len() / 8 {
        return false;
    }
    holds_after(state_of(table, p + 1), &slot, state_of(table, p))
}

/// Whether the slot where one jumps holds what that leaves.
fn jumps_right(words: &[u8], table: &[Held], p: usize) -> bool
    requires inside { p < slots_in words.now }
    requires short { p < 4294967296 }
    requires size { length table.now ≡ 75 * slots_in words.now }
    ensures { result ≡ jumps_right words.now table.now p }
{
    let slot = slot_at(words, p);
    if !jumps(&slot) {
        return true;
    }
    let to = target_of(p, &slot);
    if to >= words.len() / 8 {
        return false;
    }
    holds_entering(state_of(table, to), &slot, state_of(table, p))
}

/// Whether a slot passes on what it leaves.
#[tactic(auto, unfolding(crate::specs::Tables::is_right_at))]
fn is_right_at(words: &[u8], table: &[Held], p: usize) -> bool
    requires inside { p < slots_in words.now }
    requires short { p < 4294967296 }
    requires size { length table.now ≡ 75 * slots_in words.now }
    ensures { result ≡ is_right_at words.now table.now p }
{
    !is_reached(state_of(table, p)) || (goes_right(words, table, p) && jumps_right(words, table, p))
}

/// Whether each slot does.
fn are_right(words: &[u8], table: &[Held]) -> bool
    requires short { slots_in words.now ≤ 4294967296 }
    requires size { length table.now ≡ 75 * slots_in words.now }
    ensures { result ≡ all_below (is_right_at words.now table.now) (slots_in words.now) }
{
    let mut right = true;
    for p in 0..words.len() / 8 {
        right = right && is_right_at(words, table, p);
    }
    right
}

/// Whether a table is right for words.
#[tactic(auto, unfolding(crate::specs::Tables::is_right))]
pub fn is_right(words: &[u8], table: &[Held]) -> bool
    requires { slots_in words.now ≤ 4294967296 }
    ensures value { result ≡ is_right words.now table.now }
    ensures size { result ≡ true → length table.now ≡ 75 * slots_in words.now }
{
    let slots = words.len() / 8;
    if slots == 0 || table.len() / 75 != slots || table.len() % 75 != 0 {
        return false;
    }
    holds_entry(state_of(table, 0)) && are_right(words, table)
}

/// The fault of a slot.
fn fault_at(packet: Packet, words: &[u8], table: &[Held], p: usize) -> Option<UseFault>
    requires inside { p < slots_in words.now }
    requires size { length table.now ≡ 75 * slots_in words.now }
    ensures { result ≡ fault_at packet words.now table.now p }
{
    use_fault(packet, &slot_at(words, p), state_of(table, p))
}

/// The first fault that is known, with one of a slot.
fn or_at(first: Option<SlotFault>, slot: usize, told: Option<UseFault>) -> Option<SlotFault>
    ensures { result ≡ or_at first slot told }
{
    match first {
        Some(first) => Some(first),
        None => match told {
            Some(fault) => Some(SlotFault { slot, fault }),
            None => None,
        },
    }
}

/// The first fault of a program.
pub fn first_fault(packet: Packet, words: &[u8], table: &[Held]) -> Option<SlotFault>
    requires { length table.now ≡ 75 * slots_in words.now }
    ensures { result ≡ first_fault packet words.now table.now (slots_in words.now) }
{
    let mut first = None;
    for p in 0..words.len() / 8 {
        first = or_at(first, p, fault_at(packet, words, table, p));
    }
    first
}
