//! The slots that are asked about, by their text, or by the constant that they make.
ghost use Rattle.std.specs.Prelude.{◌≡◌, ◌<◌, ◌||◌, ℕ, List, [], Some, Ok, Err, IfOk, IfErr, length, true};
ghost use Rattle.bpf_whynot.specs.Asked as spec;
ghost use Rattle.bpf_whynot.specs.Constants as constants;
ghost use Rattle.bpf_whynot.specs.Tables.{AreGoals};

use crate::fault::GoalFault;
use crate::maker::{Maker, is_maker};
use bpf_isa::Program;
use bpf_origin::number_in;
use counted_io::sides;
use std::alloc::{AllocError, Global};

/// One flag a slot, none of them set.
pub(crate) fn no_goals(alloc: Global, program: &Program) -> Result<Vec<bool>, AllocError>
    ensures { IfOk result (λ flags. AreGoals program.now [] flags.items) }
{
    Vec::from_elem(alloc, false, program.len())
}

/// Flags the slots that a text names, or those that make the value which it asks for. Answers
/// whether it asks for one.
pub(crate) fn flag_asked(
    program: &Program,
    text: &[u8],
    flags: &mut [bool],
) -> Result<bool, GoalFault>
    requires { AreGoals program.now [] flags.old }
    ensures ok { IfOk result (λ by_value. (slots : List ℕ) × (spec.goals_in program.now text.now
        ≡ Ok (record { slots = slots; by_value = by_value })) × AreGoals program.now slots flags.new) }
    ensures err { IfErr result (λ fault. spec.goals_in program.now text.now ≡ Err fault) }
{
    if asks_value(text) {
        return match flag_value(program, &text[1..], flags) {
            Ok(()) => Ok(true),
            Err(fault) => Err(fault),
        };
    }
    match flag_goals(program, text, flags) {
        Ok(()) => Ok(false),
        Err(fault) => Err(fault),
    }
}

/// Flags the slots that make the value which a text says.
fn flag_value(program: &Program, text: &[u8], flags: &mut [bool]) -> Result<(), GoalFault>
    requires { AreGoals program.now [] flags.old }
    ensures ok { IfOk result (λ (done : Unit). (slots : List ℕ)
        × (spec.made_in program.now (spec.maker_in text.now) ≡ Ok slots)
        × AreGoals program.now slots flags.new) }
    ensures err { IfErr result (λ fault.
        spec.made_in program.now (spec.maker_in text.now) ≡ Err fault) }
{
    match maker_in(text) {
        Some(maker) => flag_makers(program, maker, flags),
        None => Err(GoalFault::NoValue),
    }
}

/// Whether a text asks for a value.
fn asks_value(text: &[u8]) -> bool
    ensures value { result ≡ spec.asks_value text.now }
    ensures more { result ≡ true → 0 < length text.now }
{
    match text {
        [] => false,
        [first, ..] => *first == b'=',
    }
}

/// The value that a text asks for, and among which slots.
fn maker_in(text: &[u8]) -> Option<Maker>
    ensures { result ≡ spec.maker_in text.now }
{
    let (value, slots) = sides(text, b',');
    let (first, count) = sides(slots, b',');
    match (
        number_in(value),
        number_or(first, 0),
        number_or(count, u64::MAX),
    ) {
        (Some(value), Some(first), Some(count)) => Some(Maker {
            value,
            first,
            count,
        }),
        _ => None,
    }
}

/// The number that a text is, or another where there is no text.
fn number_or(text: &[u8], number: u64) -> Option<u64>
    ensures { result ≡ spec.number_or number text.now }
{
    match text {
        [] => Some(number),
        _ => number_in(text),
    }
}

/// Flags the slots that make a value.
fn flag_makers(program: &Program, maker: Maker, flags: &mut [bool]) -> Result<(), GoalFault>
    requires { AreGoals program.now [] flags.old }
    ensures ok { IfOk result (λ (done : Unit). (goals : List ℕ)
        × (spec.made_in program.now (Some maker) ≡ Ok goals)
        × AreGoals program.now goals flags.new) }
    ensures err { IfErr result (λ fault. spec.made_in program.now (Some maker) ≡ Err fault) }
{
    let mut found = false;
    for slot in 0..program.len() {
        let made = flag_maker(program, maker, slot, flags);
        found = either(found, made);
    }
    if found {
        Ok(())
    } else {
        Err(GoalFault::NoConstant)
    }
}

/// Whether one of two is.
fn either(one: bool, other: bool) -> bool
    ensures { result ≡ (one || other) }
{
    one || other
}

/// Flags a slot if it makes the value.
fn flag_maker(program: &Program, maker: Maker, slot: usize, flags: &mut [bool]) -> bool
    requires within { slot < length program.now.insns }
    requires size { length flags.old ≡ length program.now.insns }
    ensures value { result ≡ constants.is_maker program.now maker slot }
    ensures flags { (goals : List ℕ) → AreGoals program.now goals flags.old →
        AreGoals program.now (constants.with_slot result slot goals) flags.new }
{
    let made = is_maker(program, maker, slot);
    if made {
        flags[slot] = true;
    }
    made
}

/// Flags the slots that a text names: numbers with commas between. The fault is that of the first
/// item that has one.
fn flag_goals(program: &Program, text: &[u8], flags: &mut [bool]) -> Result<(), GoalFault>
    requires { AreGoals program.now [] flags.old }
    ensures ok { IfOk result (λ (done : Unit). (goals : List ℕ) × (spec.slots_in program.now text.now ≡ Ok goals)
        × AreGoals program.now goals flags.new) }
    ensures err { IfErr result (λ fault. spec.slots_in program.now text.now ≡ Err fault) }
{
    for item in text.split(|byte| *byte == b',') {
        match goal_in(program, item) {
            Ok(slot) => flags[slot] = true,
            Err(fault) => return Err(fault),
        }
    }
    Ok(())
}

/// The slot that an item names.
fn goal_in(program: &Program, item: &[u8]) -> Result<usize, GoalFault>
    ensures { result ≡ spec.goal_in program.now item.now }
{
    match number_in(item) {
        Some(slot) => start_at(program, slot),
        None => Err(GoalFault::NoSlot),
    }
}

/// The slot of this number, where an instruction starts there.
fn start_at(program: &Program, slot: u64) -> Result<usize, GoalFault>
    ensures { result ≡ spec.start_at program.now (Some slot) }
{
    let slot = slot as usize;
    if program.insn_at(slot).is_some() {
        Ok(slot)
    } else {
        Err(GoalFault::NoInstruction)
    }
}
