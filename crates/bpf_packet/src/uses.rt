//! What a program does with the context's address.
ghost use Rattle.std.specs.Prelude.{◌≡◌, ◌≤◌, ◌<◌, ◌+◌, length};
ghost use Rattle.bpf_packet.specs.Holding.{all_below};
ghost use Rattle.bpf_packet.specs.Uses.{access_fault, arguments_of, arithmetic_fault, base_of, control_fault, first_of, found_from, from_place, goes_unseen, helper_fault, is_access, is_arithmetic, is_free_argument, hides, hides_behind, hides_frame, hides_from, is_whole_access, leads_nowhere, patch_of, reads_dst, reads_src, shows_at, shows_none, shows_none_by, stores_address, through, through_fault, use_fault};

use crate::fault::UseFault;
use crate::fields::field_of;
use crate::flow::{is_move, is_spill};
use crate::held::{Held, held_in, is_frame, is_free, is_shown, most_pieces};
use crate::packet::{Access, Packet};
use crate::slot::{Slot, class_of, is_call, is_local};

/// Whether it is a load or a store.
fn is_access(slot: &Slot) -> bool
    ensures { result ≡ is_access slot.now }
{
    class_of(slot) == 1 || (class_of(slot) == 2 || class_of(slot) == 3)
}

/// The register by which it goes.
fn base_of(slot: &Slot) -> usize
    ensures { result ≡ base_of slot.now }
{
    if class_of(slot) == 1 {
        usize::from(slot.src)
    } else {
        usize::from(slot.dst)
    }
}

/// An access by a register that has the address of a byte of the context.
fn from_place(at: u8, access: Option<Access>) -> Option<Access>
    ensures { result ≡ from_place at access }
{
    match access {
        Some(access) => {
            let offset = (u32::from(access.offset) + 65536 - u32::from(at)) % 65536;
            Some(Access {
                opcode: access.opcode,
                offset: offset as u16,
            })
        }
        None => None,
    }
}

/// What an access through what a register holds becomes.
fn through(packet: Packet, slot: &Slot, held: Held) -> Option<Access>
    ensures { result ≡ through packet slot.now held }
{
    match held {
        Held::Context(at) => {
            let place = (u32::from(at) + u32::from(slot.offset)) % 65536;
            from_place(at, field_of(packet, slot.opcode, place as u16))
        }
        Held::Nothing | Held::Other | Held::Frame(_) | Held::Either | Held::Left => None,
    }
}

/// What an access in a state becomes, if it is one to the context.
#[tactic(auto, unfolding(crate::specs::Uses::patch_of))]
pub fn patch_of(packet: Packet, slot: &Slot, state: &[Held]) -> Option<Access>
    ensures { result ≡ patch_of packet slot.now state.now }
{
    if is_access(slot) {
        through(packet, slot, held_in(state, base_of(slot)))
    } else {
        None
    }
}

/// Why an access may not be made.
fn through_fault(packet: Packet, slot: &Slot, held: Held) -> Option<UseFault>
    ensures { result ≡ through_fault packet slot.now held }
{
    match held {
        Held::Context(_) => {
            if through(packet, slot, held).is_some() {
                None
            } else {
                Some(UseFault::NoField)
            }
        }
        Held::Either | Held::Left => Some(UseFault::Mixed),
        Held::Nothing | Held::Other | Held::Frame(_) => None,
    }
}

/// Whether it stores the address, and not to a piece of the frame.
fn stores_address(slot: &Slot, state: &[Held]) -> bool
    ensures { result ≡ stores_address slot.now state.now }
{
    class_of(slot) == 3 && (!is_spill(slot) && !is_free(held_in(state, usize::from(slot.src))))
}

/// Whether no piece from a byte of the frame on shows the context's address.
#[tactic(auto, unfolding(crate::specs::Uses::hides_behind))]
fn hides_behind(state: &[Held], begin: u16) -> bool
    ensures { result ≡ hides_behind state.now begin }
{
    let mut hides = true;
    for k in 0..most_pieces() {
        hides = hides && (k < usize::from(begin) / 8 || !is_shown(held_in(state, k + 11)));
    }
    hides
}

/// The first byte of the frame that may lie this far behind an address of it.
fn first_of(at: u16, offset: u16) -> u16
    ensures { result ≡ first_of at offset }
{
    let byte = (u32::from(at) + u32::from(offset)) % 65536;
    if byte <= 512 { byte as u16 } else { 0 }
}

/// Whether the context's address lies in the frame, this far behind what a register holds or behind that.
fn shows_at(state: &[Held], offset: u16, held: Held) -> bool
    ensures { result ≡ shows_at state.now offset held }
{
    match held {
        Held::Frame(at) => 0 < at && !hides_behind(state, first_of(at, offset)),
        Held::Nothing | Held::Other | Held::Context(_) | Held::Either | Held::Left => false,
    }
}

/// Whether it loads eight bytes, or stores a register.
fn is_whole_access(slot: &Slot) -> bool
    ensures { result ≡ is_whole_access slot.now }
{
    slot.opcode == 0x79 || slot.opcode == 0x7b
}

/// Whether by it the context's address comes from the frame, or goes there, by another register than r10.
fn goes_unseen(slot: &Slot, state: &[Held]) -> bool
    ensures { result ≡ goes_unseen slot.now state.now }
{
    let base = base_of(slot);
    is_whole_access(slot) && (base != 10 && shows_at(state, slot.offset, held_in(state, base)))
}

fn access_fault(packet: Packet, slot: &Slot, state: &[Held]) -> Option<UseFault>
    ensures { result ≡ access_fault packet slot.now state.now }
{
    if stores_address(slot, state) || goes_unseen(slot, state) {
        return Some(UseFault::Escapes);
    }
    through_fault(packet, slot, held_in(state, base_of(slot)))
}

/// Whether arithmetic reads dst.
fn reads_dst(slot: &Slot) -> bool
    ensures { result ≡ reads_dst slot.now }
{
    slot.opcode / 16 != 0xb
}

/// Whether arithmetic reads src.
fn reads_src(slot: &Slot) -> bool
    ensures { result ≡ reads_src slot.now }
{
    slot.opcode / 8 % 2 == 1 && slot.opcode / 16 != 0xd
}

fn is_arithmetic(slot: &Slot) -> bool
    ensures { result ≡ is_arithmetic slot.now }
{
    class_of(slot) == 4 || class_of(slot) == 7
}

fn arithmetic_fault(slot: &Slot, state: &[Held]) -> Option<UseFault>
    ensures { result ≡ arithmetic_fault slot.now state.now }
{
    if is_move(slot) || slot.opcode == 0x07 {
        return None;
    }
    let dst = held_in(state, usize::from(slot.dst));
    let src = held_in(state, usize::from(slot.src));
    if (reads_dst(slot) && !is_free(dst)) || (reads_src(slot) && !is_free(src)) {
        return Some(UseFault::Arithmetic);
    }
    None
}

/// How many registers a helper takes, from r1 on.
fn arguments_of(helper: u32) -> usize
    ensures value { result ≡ arguments_of helper }
    ensures few { result ≤ 5 }
{
    match helper {
        1 => 2,
        2 => 4,
        64 => 1,
        _ => 5,
    }
}

/// Whether none of the first registers from r1 on has the address.
fn are_free(state: &[Held], count: usize) -> bool
    requires { count ≤ 5 }
    ensures { result ≡ all_below (is_free_argument state.now) count }
{
    let mut free = true;
    for k in 0..count {
        free = free && is_free(held_in(state, k + 1));
    }
    free
}

fn helper_fault(slot: &Slot, state: &[Held]) -> Option<UseFault>
    ensures { result ≡ helper_fault slot.now state.now }
{
    if are_free(state, arguments_of(slot.imm)) {
        None
    } else {
        Some(UseFault::Escapes)
    }
}

/// From which byte of the frame on a function finds what lies there, if it is given this one's address.
#[tactic(auto, unfolding(crate::specs::Uses::found_from))]
fn found_from(state: &[Held], at: u16) -> u16
    ensures { result ≡ found_from state.now at }
{
    let mut nowhere = true;
    for k in 0..most_pieces() {
        nowhere = nowhere && (k < usize::from(at) / 8 || !is_frame(held_in(state, k + 11)));
    }
    if nowhere { at } else { 0 }
}

/// Whether no piece that it finds shows the context's address.
#[tactic(auto, unfolding(crate::specs::Uses::hides_from))]
fn hides_from(state: &[Held], at: u16) -> bool
    ensures { result ≡ hides_from state.now at }
{
    hides_behind(state, found_from(state, at))
}

/// Whether by what a register holds no function finds the address in its caller's frame.
fn shows_none(state: &[Held], held: Held) -> bool
    ensures { result ≡ shows_none state.now held }
{
    match held {
        Held::Frame(at) => hides_from(state, at),
        Held::Nothing | Held::Other | Held::Context(_) | Held::Either | Held::Left => true,
    }
}

/// Whether by none of r1 to r5 does it.
#[tactic(auto, unfolding(crate::specs::Uses::hides_frame))]
fn hides_frame(state: &[Held]) -> bool
    ensures { result ≡ hides_frame state.now }
{
    let mut hides = true;
    for k in 0..5 {
        hides = hides && shows_none(state, held_in(state, k + 1));
    }
    hides
}

fn control_fault(slot: &Slot, state: &[Held]) -> Option<UseFault>
    ensures { result ≡ control_fault slot.now state.now }
{
    if is_call(slot) && !is_local(slot) {
        return helper_fault(slot, state);
    }
    if is_local(slot) && !hides_frame(state) {
        return Some(UseFault::Escapes);
    }
    if slot.opcode == 0x95 && !is_free(held_in(state, 0)) {
        return Some(UseFault::Escapes);
    }
    None
}

/// Why an instruction may not be run in a state.
#[tactic(auto, unfolding(crate::specs::Uses::use_fault))]
pub fn use_fault(packet: Packet, slot: &Slot, state: &[Held]) -> Option<UseFault>
    ensures { result ≡ use_fault packet slot.now state.now }
{
    if is_access(slot) {
        return access_fault(packet, slot, state);
    }
    if is_arithmetic(slot) {
        return arithmetic_fault(slot, state);
    }
    control_fault(slot, state)
}
