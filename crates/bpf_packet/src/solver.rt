//! Finds the least table of what places hold. Whether it is right `is_right` sees afterwards.
ghost use Rattle.std.specs.Prelude.{◌≡◌, ◌≤◌, ◌<◌, ◌+◌, ◌*◌, ℕ, IfOk, List, true, length};
ghost use Rattle.bpf_packet.specs.Flow.{after, at_entry, entering};
ghost use Rattle.bpf_packet.specs.Holding.{held_in};
ghost use Rattle.bpf_packet.specs.Least.{AllReach, IsLeast, StateReaches, plain, reaches};
ghost use Rattle.bpf_packet.specs.Slots.{slots_in};
ghost use Rattle.bpf_packet.specs.declared.held.Held.{Held as Holding};

use crate::flow::{after, at_entry, entering};
use crate::held::{Held, covers, is_frame, state_of};
use crate::slot::{Slot, goes_on, jumps, slot_at, target_of};
use crate::tables::is_reached;
use std::alloc::{AllocError, Global};

/// A table that isn't finished, and the slots whose states have risen since they were looked at; and
/// how many more rounds tell each piece of the frame from the next one.
#[derive(Drop)]
struct Draft {
    table: Vec<Held>,
    risen: Vec<usize>,
    fine: usize,
}

/// An address of the frame that lies here or before: that of its piece; or one of 16, so that a loop
/// that goes down rises seldom.
fn lowered(held: Held, is_fine: bool) -> Held
    ensures { plain result ≡ plain held }
{
    match held {
        Held::Frame(at) => {
            if is_fine || at < 64 {
                return Held::Frame(at - at % 8);
            }
            Held::Frame(at - at % 64)
        }
        Held::Nothing | Held::Other | Held::Context(_) | Held::Either | Held::Left => held,
    }
}

/// What covers both: the least, but for an address of the frame that lies before the other one.
#[tactic(auto, unfolding(crate::specs::Least::reaches))]
fn join(a: Held, b: Held, is_fine: bool) -> Held
    ensures { (other : Holding) → reaches other a ≡ true → reaches other b ≡ true → reaches other result ≡ true }
{
    if covers(a, b) {
        return a;
    }
    if is_frame(a) && is_frame(b) {
        return lowered(b, is_fine);
    }
    if covers(b, a) {
        return b;
    }
    Held::Either
}

/// A place of a table raised by what is given for it, and whether it rose.
fn raise_place(table: &mut [Held], at: usize, given: Held, is_fine: bool) -> bool
    requires { at < length table.old }
    ensures { (other : List Holding) → AllReach other table.old → reaches (held_in other at) given ≡ true
        → AllReach other table.new }
{
    let now = table[at];
    if covers(now, given) {
        return false;
    }
    table[at] = join(now, given, is_fine);
    true
}

/// A table with a state raised by what is given for its places, and whether it rose.
fn raise(table: &mut [Held], p: usize, given: &[Held], is_fine: bool) -> bool
    requires inside { 75 * p + 75 ≤ length table.old }
    requires size { length given.now ≡ 75 }
    ensures { (other : List Holding) → AllReach other table.old → StateReaches other p given.now
        → AllReach other table.new }
{
    let mut rose = false;
    for place in 0..75 {
        rose = raise_place(table, 75 * p + place, given[place], is_fine) || rose;
    }
    rose
}

/// A draft with a state raised, if there is such a slot, which counts as risen if it is.
fn raised(draft: Draft, p: usize, given: &[Held]) -> Result<Draft, AllocError>
    requires { length given.now ≡ 75 }
    ensures size { IfOk result (λ new. length new.table.items ≡ length draft.table.items) }
    ensures least { IfOk result (λ new. (other : List Holding) → AllReach other draft.table.items
        → StateReaches other p given.now → AllReach other new.table.items) }
{
    let mut draft = draft;
    if p >= draft.table.len() / 75 {
        return Ok(draft);
    }
    let is_fine = 0 < draft.fine;
    if !raise(&mut draft.table, p, given, is_fine) {
        return Ok(draft);
    }
    draft.risen.push(p)?;
    Ok(draft)
}

/// What an instruction leaves for the slot after it.
fn left(slot: &Slot, state: &[Held]) -> [Held; 75]
    ensures size { length result ≡ 75 }
    ensures value { (place : ℕ) → place < 75 → held_in result place ≡ after slot.now state.now place }
{
    let mut given = [Held::Nothing; 75];
    for place in 0..75 {
        given[place] = after(slot, state, place);
    }
    given
}

/// What it leaves where it jumps.
fn taken(slot: &Slot, state: &[Held]) -> [Held; 75]
    ensures size { length result ≡ 75 }
    ensures value { (place : ℕ) → place < 75 → held_in result place ≡ entering slot.now state.now place }
{
    let mut given = [Held::Nothing; 75];
    for place in 0..75 {
        given[place] = entering(slot, state, place);
    }
    given
}

/// What is at the entry.
fn first() -> [Held; 75]
    ensures size { length result ≡ 75 }
    ensures value { (place : ℕ) → place < 75 → held_in result place ≡ at_entry place }
{
    let mut given = [Held::Nothing; 75];
    for place in 0..75 {
        given[place] = at_entry(place);
    }
    given
}

/// A draft in which a slot that is come to has passed on what it leaves to the slot after it.
fn passed_on(words: &[u8], p: usize, draft: Draft) -> Result<Draft, AllocError>
    requires inside { p < slots_in words.now }
    requires size { length draft.table.items ≡ 75 * slots_in words.now }
    ensures size { IfOk result (λ new. length new.table.items ≡ length draft.table.items) }
    ensures least { IfOk result (λ new. IsLeast words.now draft.table.items → IsLeast words.now new.table.items) }
{
    let slot = slot_at(words, p);
    let state = state_of(&draft.table, p);
    if !is_reached(state) || !goes_on(&slot) {
        return Ok(draft);
    }
    let given = left(&slot, state);
    match raised(draft, p + 1, &given) {
        Ok(new) => Ok(new),
        Err(fault) => Err(fault),
    }
}

/// A draft in which it has where it jumps.
fn passed_over(words: &[u8], p: usize, draft: Draft) -> Result<Draft, AllocError>
    requires inside { p < slots_in words.now }
    requires short { p < 4294967296 }
    requires size { length draft.table.items ≡ 75 * slots_in words.now }
    ensures size { IfOk result (λ new. length new.table.items ≡ length draft.table.items) }
    ensures least { IfOk result (λ new. IsLeast words.now draft.table.items → IsLeast words.now new.table.items) }
{
    let slot = slot_at(words, p);
    let state = state_of(&draft.table, p);
    if !is_reached(state) || !jumps(&slot) {
        return Ok(draft);
    }
    let given = taken(&slot, state);
    match raised(draft, target_of(p, &slot), &given) {
        Ok(new) => Ok(new),
        Err(fault) => Err(fault),
    }
}

/// A draft in which a slot has passed on what it leaves.
fn passed(words: &[u8], p: usize, draft: Draft) -> Result<Draft, AllocError>
    requires inside { p < slots_in words.now }
    requires short { p < 4294967296 }
    requires size { length draft.table.items ≡ 75 * slots_in words.now }
    ensures size { IfOk result (λ new. length new.table.items ≡ length draft.table.items) }
    ensures least { IfOk result (λ new. IsLeast words.now draft.table.items → IsLeast words.now new.table.items) }
{
    match passed_on(words, p, draft) {
        Ok(next) => passed_over(words, p, next),
        Err(fault) => Err(fault),
    }
}

/// A table in which nothing is known.
fn unknown(alloc: Global, slots: usize) -> Result<Vec<Held>, AllocError>
    requires { slots ≤ 4294967296 }
    ensures size { IfOk result (λ table. length table.items ≡ 75 * slots) }
    ensures nothing { IfOk result (λ table. (other : List Holding) → AllReach other table.items) }
{
    match vec![in alloc; Held::Nothing; 75 * slots] {
        Ok(table) => Ok(table),
        Err(fault) => Err(fault),
    }
}

/// A draft in which nothing is known but what is at the entry.
fn begun(alloc: Global, words: &[u8]) -> Result<Draft, AllocError>
    requires { slots_in words.now ≤ 4294967296 }
    ensures size { IfOk result (λ draft. length draft.table.items ≡ 75 * slots_in words.now) }
    ensures least { IfOk result (λ draft. IsLeast words.now draft.table.items) }
{
    let slots = words.len() / 8;
    let table = match unknown(alloc, slots) {
        Ok(table) => table,
        Err(fault) => return Err(fault),
    };
    let risen = Vec::new(alloc);
    let fine = slots.saturating_mul(16).saturating_add(4096);
    match raised(Draft { table, risen, fine }, 0, &first()) {
        Ok(draft) => Ok(draft),
        Err(fault) => Err(fault),
    }
}

/// A table for words: right, unless the words leave themselves, and no table that is right says less,
/// where an address of the frame counts as any other number.
///
/// In the first rounds, 16 a slot and 4,096, an address of the frame is that of its piece: no more is
/// needed for programs that compilers write. Behind these a state rises at most 20 times a place, so
/// all rounds are at most 1,520 a slot and 4,096.
pub fn solved(alloc: Global, words: &[u8]) -> Result<Vec<Held>, AllocError>
    requires { slots_in words.now ≤ 4294967296 }
    ensures { IfOk result (λ table. IsLeast words.now table.items) }
{
    let slots = words.len() / 8;
    let mut draft = begun(alloc, words)?;
    for _ in 0..slots.saturating_mul(1520).saturating_add(4097) {
        let p = match draft.risen.pop() {
            Some(p) => p,
            None => return Ok(draft.table),
        };
        draft.fine = draft.fine.saturating_sub(1);
        if p < slots {
            draft = passed(words, p, draft)?;
        }
    }
    Ok(draft.table)
}
