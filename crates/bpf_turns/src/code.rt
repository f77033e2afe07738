//! The code of a turned object: the calls, and behind them the sections that are called.
ghost use Rattle.std.specs.Prelude.{◌≡◌, ◌<◌, ◌++◌, IfErr, IfOk, IfSome, length};
ghost use Rattle.bpf_join.specs.Gathered.{gathered};
ghost use Rattle.bpf_link.specs.declared.fault.LinkFault.TheVariants.{Memory};
ghost use Rattle.bpf_turns.specs.Objects.{call_index, into, taken_at, turned_code};
ghost use Rattle.bpf_turns.specs.Parts.{AreCalls};

use crate::calls::{Call, calling_words, seat_index};
use crate::seats::{Seat, slots_of};
use bpf_link::{LinkFault, Object, with};
use std::alloc::Global;

/// The section in which all code stands.
pub fn into(calls: &[Call]) -> u16
    ensures { result ≡ into calls.now }
{
    if calls.is_empty() {
        return 0;
    }
    calls[0].section
}

/// Which of the calls, the first one, is of a program from a section.
pub fn call_index(calls: &[Call], section: usize) -> Option<usize>
    ensures value { result ≡ call_index calls.now section }
    ensures below { IfSome result (λ k. k < length calls.now) }
{
    calls
        .iter()
        .position(|call| usize::from(call.section) == section)
}

/// The code of a section, if it is called.
fn taken_at<'a>(object: &Object<'a>, seats: &[Seat], i: usize) -> &'a [u8]
    ensures { result.now ≡ taken_at object.now seats.now i }
{
    match seat_index(seats, i) {
        Some(_) => slots_of(object, i),
        None => &[],
    }
}

/// Words, and behind them the code of all sections that are called.
fn with_taken(object: &Object<'_>, seats: &[Seat], words: Vec<u8>) -> Result<Vec<u8>, LinkFault>
    ensures ok { IfOk result (λ new. new.items
        ≡ words.items ++ gathered (taken_at object.now seats.now) (length object.now.sections)) }
    ensures err { IfErr result (λ fault. fault ≡ Memory) }
{
    let mut all = words;
    for i in 0..object.len() {
        match with(all, taken_at(object, seats, i)) {
            Ok(new) => all = new,
            Err(fault) => return Err(fault),
        }
    }
    Ok(all)
}

/// All code: the calls, and behind them what is called.
pub fn turned_code(
    alloc: Global,
    object: &Object<'_>,
    seats: &[Seat],
    calls: &[Call],
) -> Result<Vec<u8>, LinkFault>
    requires { AreCalls object.now seats.now calls.now }
    ensures ok { IfOk result (λ code. code.items ≡ turned_code object.now seats.now) }
    ensures err { IfErr result (λ fault. fault ≡ Memory) }
{
    match calling_words(alloc, calls) {
        Ok(words) => with_taken(object, seats, words),
        Err(fault) => Err(fault),
    }
}
